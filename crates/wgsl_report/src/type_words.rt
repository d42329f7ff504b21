//! The words of a source for the type of a variable.

use std::alloc::{AllocError, Global};
use std::ops::Range;
use wgsl_source::{Declared, Reading};

/// The type that is given to a declaration, as the source writes it, of an alias what that stands for; empty where
/// none is given.
pub(crate) fn type_words(
    alloc: Global,
    reading: &Reading<'_>,
    number: usize,
) -> Result<String, AllocError> {
    let mut words = String::new(alloc);
    add_words(&mut words, reading, typed_as(reading, number))?;
    Ok(words)
}

/// The tokens of the count of an array of bindings, where that is the type which is given to a declaration; the end one
/// is not of them.
pub(crate) fn count_tokens(reading: &Reading<'_>, number: usize) -> Option<Range<usize>> {
    let first = first_token(reading, typed_as(reading, number))?;
    if reading.word(first) != "binding_array" {
        return None;
    }
    let mut depth = 0usize;
    let mut comma = None;
    let mut last = first;
    for token in first..usize::MAX {
        let word = reading.word(token);
        depth = depth_behind(word, depth);
        if depth == 1 && word == "," {
            comma = Some(token);
        }
        if is_end(word) {
            break;
        }
        last = token;
    }
    let is_closed = reading.word(last) == ">";
    is_closed.then_some(comma?.saturating_add(1)..last)
}

// How deep brackets stand behind this word, which stand so deep before it.
fn depth_behind(word: &str, depth: usize) -> usize {
    match word {
        "<" | "(" | "[" => depth.saturating_add(1),
        ">" | ")" | "]" => depth.saturating_sub(1),
        _ => depth,
    }
}

// The declaration whose type is written out, behind aliases. An alias that needs itself ends the search.
fn typed_as(reading: &Reading<'_>, number: usize) -> usize {
    let mut number = number;
    for _ in 0..reading.len() {
        match alias_of(reading, number) {
            Some(alias) => number = alias,
            None => break,
        }
    }
    number
}

// The token behind the `:` or the `=` of a declaration.
fn first_token(reading: &Reading<'_>, number: usize) -> Option<usize> {
    let before = reading.name(number).saturating_add(1);
    let is_given = matches!(reading.word(before), ":" | "=");
    is_given.then_some(before.saturating_add(1))
}

// The alias whose name is the whole type of a declaration.
fn alias_of(reading: &Reading<'_>, number: usize) -> Option<usize> {
    let token = first_token(reading, number)?;
    if !is_end(reading.word(token.saturating_add(1))) {
        return None;
    }
    let alias = reading.number_of(reading.word(token))?;
    match reading.declared(alias)? {
        Declared::Alias(_) => Some(alias),
        _ => None,
    }
}

// A space stands where the source has something between two words that is none.
fn add_words(words: &mut String, reading: &Reading<'_>, number: usize) -> Result<(), AllocError> {
    let Some(first) = first_token(reading, number) else {
        return Ok(());
    };
    let mut end = reading.extent(first).start;
    for token in first..usize::MAX {
        let word = reading.word(token);
        if is_end(word) {
            break;
        }
        let extent = reading.extent(token);
        if end < extent.start {
            words.push(' ')?;
        }
        words.push_str(word)?;
        end = extent.end;
    }
    Ok(())
}

// Whether a type ends before this word; behind the last token there is none.
fn is_end(word: &str) -> bool {
    matches!(word, "" | ";" | "=")
}
