//! What an expression is in the scope of a module.

ghost use Rattle.std.specs.Prelude.{◌≡◌, ◌<◌, ◌≤◌, IfOk, IfSome, string_bytes};
ghost use Rattle.wgsl_rules.specs.Text.{type_text};
ghost use Rattle.wgsl_rules.specs.Values.{IsWellFormed, type_of};
ghost use Rattle.wgsl_values.specs.View.{value_of};
ghost use Rattle.wgsl_c.specs.Answers.{IsAnswer, TellsNumbers};
ghost use Rattle.wgsl_c.specs.Expressions.{IsTypeText, IsValueText, IsWorth, AreBytes};

use crate::answer::{Answer, Refusal, Stop, given};
use crate::asked::{settings_of, text_of, values_in};
use std::alloc::{AllocError, Global};
use wgsl_eval::Outcome;
use wgsl_report::{Found, outcome_in_scope};
use wgsl_rules::Ty;
use wgsl_store::Buffers;
use wgsl_values::Instance;

/// An expression and its module, by texts and numbers.
#[derive(Clone, Copy)]
struct Asked<'a> {
    source: &'a [u8],
    text: &'a [u8],
    defines: &'a [u8],
    stage: u32,
    flags: u32,
}

/// What an expression is worth, if it has no fault, and how many faults it and its module have.
#[derive(Drop)]
struct Worth {
    value: Option<Instance>,
    faults: usize,
}

/// The type of the value.
#[unsafe(no_mangle)]
pub extern "C" fn wgsl_expression_type(
    alloc: Global,
    module: &[u8],
    expression: &[u8],
    defines: &[u8],
    stage: u32,
    flags: u32,
    out: &mut [u8],
) -> Answer
    ensures answer { IsAnswer (IsTypeText «module».now expression.now stage flags) result out.old out.new }
    ensures numbers { TellsNumbers stage flags 4 result }
{
    let asked = Asked {
        source: module,
        text: expression,
        defines,
        stage,
        flags,
    };
    match type_text(alloc, asked) {
        Ok((text, faults)) => given(text.as_bytes(), faults, out),
        Err(stop) => stop.answer(),
    }
}

/// The value as a text.
#[unsafe(no_mangle)]
pub extern "C" fn wgsl_expression_value(
    alloc: Global,
    module: &[u8],
    expression: &[u8],
    defines: &[u8],
    stage: u32,
    flags: u32,
    out: &mut [u8],
) -> Answer
    ensures answer { IsAnswer (IsValueText «module».now expression.now stage flags) result out.old out.new }
    ensures numbers { TellsNumbers stage flags 4 result }
{
    let asked = Asked {
        source: module,
        text: expression,
        defines,
        stage,
        flags,
    };
    match value_text(alloc, asked) {
        Ok((text, faults)) => given(text.as_bytes(), faults, out),
        Err(stop) => stop.answer(),
    }
}

/// The bytes of the value as a buffer has them.
#[unsafe(no_mangle)]
pub extern "C" fn wgsl_expression_bytes(
    alloc: Global,
    module: &[u8],
    expression: &[u8],
    defines: &[u8],
    stage: u32,
    flags: u32,
    out: &mut [u8],
) -> Answer
    ensures answer { IsAnswer (AreBytes «module».now expression.now stage flags) result out.old out.new }
    ensures numbers { TellsNumbers stage flags 4 result }
{
    let asked = Asked {
        source: module,
        text: expression,
        defines,
        stage,
        flags,
    };
    match value_bytes(alloc, asked) {
        Ok((bytes, faults)) => given(bytes.as_slice(), faults, out),
        Err(stop) => stop.answer(),
    }
}

#[tactic(auto, using(crate::proofs::Values::typed))]
fn type_text(alloc: Global, asked: Asked<'_>) -> Result<(String, usize), Stop>
    ensures stage { 3 ≤ asked.entry.stage → result ≡ Err (Stop.Misuse 4) }
    ensures flags { asked.entry.stage < 3 → 4 ≤ asked.entry.flags → result ≡ Err (Stop.Misuse 5) }
    ensures found { IfOk result (λ found. IsTypeText asked.entry.source.now asked.entry.text.now asked.entry.stage asked.entry.flags (string_bytes found.0)) }
{
    let Worth { value, faults } = worth_of(alloc, asked)?;
    let Some(value) = value else {
        return Ok((String::new(alloc), faults));
    };
    let text = text_of_type(alloc, &value);
    drop(value);
    Ok((text?, faults))
}

fn text_of_type(alloc: Global, value: &Instance) -> Result<String, AllocError>
    requires { IsWellFormed (value_of value.now) }
    ensures { IfOk result (λ text. string_bytes text ≡ type_text (type_of (value_of value.now))) }
{
    let ty = value.ty(alloc)?;
    let text = ty.to_string(alloc);
    drop(ty);
    text
}

#[tactic(auto, using(crate::proofs::Values::spelled))]
fn value_text(alloc: Global, asked: Asked<'_>) -> Result<(String, usize), Stop>
    ensures stage { 3 ≤ asked.entry.stage → result ≡ Err (Stop.Misuse 4) }
    ensures flags { asked.entry.stage < 3 → 4 ≤ asked.entry.flags → result ≡ Err (Stop.Misuse 5) }
    ensures found { IfOk result (λ found. IsValueText asked.entry.source.now asked.entry.text.now asked.entry.stage asked.entry.flags (string_bytes found.0)) }
{
    let Worth { value, faults } = worth_of(alloc, asked)?;
    let Some(value) = value else {
        return Ok((String::new(alloc), faults));
    };
    let text = value.to_string(alloc);
    drop(value);
    Ok((text?, faults))
}

#[tactic(auto, using(crate::proofs::Values::laid))]
fn value_bytes(alloc: Global, asked: Asked<'_>) -> Result<(Vec<u8>, usize), Stop>
    ensures stage { 3 ≤ asked.entry.stage → result ≡ Err (Stop.Misuse 4) }
    ensures flags { asked.entry.stage < 3 → 4 ≤ asked.entry.flags → result ≡ Err (Stop.Misuse 5) }
    ensures found { IfOk result (λ found. AreBytes asked.entry.source.now asked.entry.text.now asked.entry.stage asked.entry.flags found.0.items) }
{
    let Worth { value, faults } = worth_of(alloc, asked)?;
    let Some(value) = value else {
        return Ok((Vec::new(alloc), faults));
    };
    let bytes = value.to_buffer(alloc);
    drop(value);
    match bytes {
        Ok(Some(bytes)) => Ok((bytes, faults)),
        Ok(None) => Err(Stop::Refused(Refusal::NoBytes)),
        Err(_) => Err(Stop::Memory),
    }
}

fn worth_of(alloc: Global, asked: Asked<'_>) -> Result<Worth, Stop>
    ensures stage { 3 ≤ asked.entry.stage → result ≡ Err (Stop.Misuse 4) }
    ensures flags { asked.entry.stage < 3 → 4 ≤ asked.entry.flags → result ≡ Err (Stop.Misuse 5) }
    ensures worth { IfOk result (λ worth. IfSome worth.value (IsWorth asked.entry.source.now asked.entry.text.now asked.entry.stage asked.entry.flags)) }
{
    let settings = settings_of(asked.stage, asked.flags, 4)?;
    let module = text_of(asked.source, 1)?;
    let expression = text_of(asked.text, 2)?;
    let defined = values_in(alloc, text_of(asked.defines, 3)?, settings, 3)?;
    let Found { outcome, faults } = outcome_in_scope(
        alloc, module, expression, settings, &defined,
    )?;
    match outcome {
        Some(Outcome::Value(value)) if value.is_well_formed() => Ok(Worth {
            value: Some(value),
            faults,
        }),
        Some(Outcome::Skipped(skip)) => Err(Stop::Refused(skip.need.into())),
        other => {
            drop(other);
            Ok(Worth {
                value: None,
                faults: faults.max(1),
            })
        }
    }
}
