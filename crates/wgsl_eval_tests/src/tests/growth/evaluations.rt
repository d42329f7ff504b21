//! The constants of a module.

use crate::tests::growth::separate;
use std::alloc::{AllocError, Global};
use wgsl_eval::{Evaluation, Outcome, evaluate};
use wgsl_rules::ShaderStage;
use wgsl_source::Reading;

const MODULE: &str = "\
const A = vec2(B, 2) * 2u;
const B = 3;
struct S { a: u32, b: vec2<u32> }
const C = S(7, A).b.yx;
const D = array(1, 2)[1] + select(1, 2, true);
const E: mat2x2<u32> = mat2x2<u32>();
const F = 1 / 0;
const G = countOneBits(7u) << 32u;
const H = sin(1.0);
const_assert A.x == 7;
";

const WANTED: &str = "\
vec2(6u, 4u); 3; vec2(4u, 6u); 4; mat2x2(vec2(0u, 0u), vec2(0u, 0u)); faulty; 3u; skipped; \
WGSL has no matrices of integers; WGSL has no matrices of integers; \
division by zero: 1 / 0; the standard shifts by less than the width (WGSL: bit expressions); \
this is asserted and false";

pub(super) fn text_of(alloc: Global, evaluation: &Evaluation) -> Result<String, AllocError> {
    let mut text = String::new(alloc);
    for value in &evaluation.values {
        separate(&mut text)?;
        match &value.outcome {
            Outcome::Value(instance) => write!(text, "{instance}")?,
            Outcome::Skipped(_) => text.push_str("skipped")?,
            Outcome::Faulty => text.push_str("faulty")?,
        }
    }
    for message in &evaluation.messages {
        separate(&mut text)?;
        text.push_str(message.text.as_str())?;
    }
    Ok(text)
}

#[test]
fn a_module_is_evaluated_or_memory_is_wanting(rt: HostRuntime) {
    let alloc = rt.alloc();
    let reading = again!(&rt; Reading::of_module(alloc, MODULE));
    let evaluation = again!(&rt; evaluate(alloc, &reading, ShaderStage::Const, false));
    let text = again!(&rt; text_of(alloc, &evaluation));
    drop(evaluation);
    drop(reading);
    assert_eq!(rt; text.as_str(), WANTED);
}
