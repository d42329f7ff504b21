//! Rows of tests: lines of a text, with the types, views and bytes that they name.

use crate::tests::samples::scene;
use std::alloc::{AllocError, Global};
use std::process::Abort;
use wgsl_rules::Type;
use wgsl_samples::types::{array, matrix, pair, vector};
use wgsl_values::MemView;

/// The columns of a row, each without the blanks around it; empty behind the last one.
pub(super) fn columns(line: &str) -> [&str; 5] {
    let mut columns = [""; 5];
    for (i, text) in line.split('|').enumerate() {
        if i < columns.len() {
            columns[i] = text.trim();
        }
    }
    columns
}

pub(super) fn number(rt: &impl Abort, text: &str) -> usize {
    match text.parse::<usize>() {
        Ok(number) => number,
        Err(_) => panic!(rt; "{text} is no number"),
    }
}

/// The bytes of the text, two digits each, and blanks between them where they help; `--` stands for a byte of padding.
pub(super) fn bytes_of(rt: &impl Abort, alloc: Global, text: &str, padding: u8) -> Vec<u8> {
    let mut bytes = made!(rt; Vec::with_capacity(alloc, text.len()));
    let mut high = None;
    for letter in text.chars().filter(|letter| *letter != ' ') {
        let digit = match letter.to_digit(16) {
            Some(digit) => digit as u8,
            None => padding & 15,
        };
        high = match high {
            None => Some(digit),
            Some(high) => {
                made!(rt; bytes.push(digit.wrapping_add(16u8.wrapping_mul(high))));
                None
            }
        };
    }
    bytes
}

/// The view of the text: names of members and indices, each behind a dot but the first; a dot for the whole.
pub(super) fn view_of(rt: &impl Abort, alloc: Global, text: &str) -> MemView {
    let mut view = MemView::Whole;
    for step in text.split('.').filter(|step| !step.is_empty()) {
        let longer = match step.parse::<usize>() {
            Ok(i) => view.append_index(alloc, i),
            Err(_) => view.append_member(alloc, made!(rt; String::from_str(alloc, step))),
        };
        made!(rt; longer);
    }
    view
}

fn named(rt: &impl Abort, alloc: Global, word: &str) -> Type {
    match word {
        "bool" => Type::Bool,
        "f32" => Type::F32,
        "i32" => Type::I32,
        "u32" => Type::U32,
        "i64" => Type::I64,
        "u64" => Type::U64,
        "Pair" => made!(rt; pair(alloc)),
        _ => panic!(rt; "{word} is no type"),
    }
}

fn made_of(alloc: Global, word: &str, ty: Type) -> Result<Type, AllocError> {
    match word {
        "vec2" => vector(alloc, 2, ty),
        "vec3" => vector(alloc, 3, ty),
        "mat2x3" => matrix(alloc, ty),
        "array" => array(alloc, ty, None),
        "array2" => array(alloc, ty, Some(2)),
        "array3" => array(alloc, ty, Some(3)),
        _ => Ok(Type::Atomic(Box::new(alloc, ty)?)),
    }
}

/// The type of the words, the last of which is its innermost type, as `array vec3 u32`.
pub(super) fn type_in(rt: &impl Abort, alloc: Global, words: &str) -> Type {
    let mut words = words.rsplit(' ');
    let mut ty = named(rt, alloc, words.next().unwrap_or(""));
    for word in words {
        ty = made!(rt; made_of(alloc, word, ty));
    }
    ty
}

/// The same, where the words may be `Scene`.
pub(super) fn type_of(rt: &impl Abort, alloc: Global, words: &str) -> Type {
    if words == "Scene" {
        scene(rt, alloc)
    } else {
        type_in(rt, alloc, words)
    }
}

/// So many of the bytes, from `start` on.
pub(super) fn slice_at<'a>(rt: &impl Abort, bytes: &'a [u8], start: usize, len: usize) -> &'a [u8] {
    let (_, from) = bytes.split_at_checked(start).expect(rt, "a place");
    let (own, _) = from.split_at_checked(len).expect(rt, "a place");
    own
}
