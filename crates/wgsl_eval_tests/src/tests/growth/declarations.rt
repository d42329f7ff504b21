//! The declarations of a module.

use crate::tests::growth::separate;
use std::alloc::{AllocError, Global};
use wgsl_eval::{Declarations, Item, ItemKind, Variable, resolve};
use wgsl_rules::{StructMemberType, Type};
use wgsl_source::Reading;

const MODULE: &str = "\
const N = 2 + 3;
alias Row = array<vec4<f32>, max(N, 3)>;
struct S { @size(2 * 4) a: u32, @align(16) rows: array<Row, vec2(1, 2).y> }
@group(N - 4) @binding(2) var<storage, read_write> s: array<S>;
fn f() {}
struct T { a: u32, a: u32 }
const M = N / 0;
";

const WANTED: &str = "\
N = 5; Row = array<vec4<f32>, 5>; S @size(8) a:u32 @align(16) rows:array<array<vec4<f32>, 5>, 2>; \
s: array<S> @group(1) @binding(2); f skipped; T faulty; M faulty; \
another member has this name; division by zero: 5 / 0";

fn add_members(text: &mut String, members: &[StructMemberType]) -> Result<(), AllocError> {
    for member in members {
        if let Some(align) = member.align {
            write!(text, " @align({align})")?;
        }
        if let Some(size) = member.size {
            write!(text, " @size({size})")?;
        }
        let name = &member.name;
        let ty = &member.ty;
        write!(text, " {name}:{ty}")?;
    }
    Ok(())
}

fn add_variable(text: &mut String, variable: &Variable) -> Result<(), AllocError> {
    let ty = &variable.ty;
    write!(text, ": {ty}")?;
    if let Some(group) = variable.group {
        write!(text, " @group({group})")?;
    }
    match variable.binding {
        Some(binding) => write!(text, " @binding({binding})"),
        None => Ok(()),
    }
}

fn add_item(text: &mut String, item: &Item) -> Result<(), AllocError> {
    text.push_str(item.name.as_str())?;
    match &item.kind {
        ItemKind::Struct(Type::Struct(ty)) => add_members(text, ty.members.as_slice()),
        ItemKind::Struct(ty) | ItemKind::Alias(ty) => write!(text, " = {ty}"),
        ItemKind::Value(value) => write!(text, " = {value}"),
        ItemKind::Variable(variable) => add_variable(text, variable),
        ItemKind::Skipped(_) => text.push_str(" skipped"),
        ItemKind::Faulty => text.push_str(" faulty"),
    }
}

fn text_of(alloc: Global, found: &Declarations) -> Result<String, AllocError> {
    let mut text = String::new(alloc);
    for item in &found.items {
        separate(&mut text)?;
        add_item(&mut text, item)?;
    }
    for message in &found.messages {
        separate(&mut text)?;
        text.push_str(message.text.as_str())?;
    }
    Ok(text)
}

#[test]
fn declarations_are_found_or_memory_is_wanting(rt: HostRuntime) {
    let alloc = rt.alloc();
    let reading = again!(&rt; Reading::of_module(alloc, MODULE));
    let found = again!(&rt; resolve(alloc, &reading));
    let text = again!(&rt; text_of(alloc, &found));
    drop(found);
    drop(reading);
    assert_eq!(rt; text.as_str(), WANTED);
}
