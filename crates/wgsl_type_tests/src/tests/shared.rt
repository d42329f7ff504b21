//! What types and variables break of the rules of address spaces and resources, and which types are of which sort.

mod bindings;
mod rules;
mod sorts;
mod spaces;
mod structures;

use std::alloc::Global;
use std::process::Abort;
use wgsl_interface::ShareFault;
use wgsl_rules::{StructMemberType, Type};
use wgsl_samples::types;

fn named(rt: &impl Abort, alloc: Global, name: &str, ty: Type) -> StructMemberType {
    types::member(alloc, name, ty, None).expect(rt, "memory")
}

/// The code of each rule behind the path of the part that breaks it, as in `shape, a.b[] shape`.
fn text_of(rt: &impl Abort, alloc: Global, faults: Vec<ShareFault>) -> String {
    let mut text = String::new(alloc);
    for (i, fault) in faults.iter().enumerate() {
        if i > 0 {
            text.push_str(", ").expect(rt, "memory");
        }
        if fault.path.len() > 0 {
            text.push_str(fault.path.as_str()).expect(rt, "memory");
            text.push_str(" ").expect(rt, "memory");
        }
        text.push_str(fault.rule.code()).expect(rt, "memory");
    }
    drop(faults);
    text
}
