//! The laws of what is faulty, and a source in which they show. The calls of the laws do nothing.

use std::test::Fail;
use wgsl_eval::laws::{
    faulty_assertions_are_explained, faulty_declarations_are_explained,
    faulty_values_are_explained, nothing_is_faulty_untold,
};
use wgsl_eval::{Outcome, Severity, evaluate};
use wgsl_rules::ShaderStage;
use wgsl_source::Reading;

#[test]
fn what_names_a_fault_has_no_other(rt: HostRuntime) -> Result<(), Fail> {
    faulty_declarations_are_explained();
    faulty_values_are_explained();
    faulty_assertions_are_explained();
    nothing_is_faulty_untold();
    let alloc = rt.alloc();
    let source = "const A = B + 1; const B = missing; const C = A * 2; const D = 3;";
    let reading = Reading::of_module(alloc, source)?;
    let evaluation = evaluate(alloc, &reading, ShaderStage::Const, false)?;
    let mut told = String::new(alloc);
    for value in &evaluation.values {
        if let Outcome::Faulty = &value.outcome {
            let name = reading.word(value.token);
            write!(told, "{name} ")?;
        }
    }
    for message in &evaluation.messages {
        if message.severity == Severity::Fault {
            let text = message.text.as_str();
            let start = message.start;
            write!(told, "{start}: {text}")?;
        }
    }
    assert_eq!(rt; told.as_str(), "A B C 27: nothing is named missing");
    Ok(())
}
