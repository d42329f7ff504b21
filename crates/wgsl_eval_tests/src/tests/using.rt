//! The snippets of `docs/USING.md` on sources.

use std::test::Fail;
use wgsl_eval::{ItemKind, Outcome, evaluate, resolve};
use wgsl_rules::ShaderStage;
use wgsl_source::Reading;

#[test]
fn the_constants_of_a_source_are_evaluated(rt: HostRuntime) -> Result<(), Fail> {
    let alloc = rt.alloc();
    let source = "const MASK: u32 = (1u << N) - 1; const N = 2 + 3;";
    let reading = Reading::of_module(alloc, source)?;
    let evaluation = evaluate(alloc, &reading, ShaderStage::Const, false)?;
    let mut text = String::new(alloc);
    for value in &evaluation.values {
        if let Outcome::Value(instance) = &value.outcome {
            let name = reading.word(value.token);
            write!(text, "{name} = {instance}; ")?;
        }
    }
    assert_eq!(rt; text.as_str(), "MASK = 31u; N = 5; ");
    Ok(())
}

#[test]
fn the_structures_of_a_source_have_types(rt: HostRuntime) -> Result<(), Fail> {
    let alloc = rt.alloc();
    let source = "const N = 3; struct S { a: u32, b: array<vec2<u32>, max(N, 2)> }";
    let reading = Reading::of_module(alloc, source)?;
    let declared = resolve(alloc, &reading)?;
    let mut text = String::new(alloc);
    for item in &declared.items {
        if let ItemKind::Struct(ty) = &item.kind {
            let size = ty.size_of().unwrap_or(0);
            write!(text, "{ty}: {size} bytes; ")?;
        }
    }
    assert_eq!(rt; text.as_str(), "S: 32 bytes; ");
    Ok(())
}
