//! The values that a host gives overrides (WGSL: override declarations; WebGPU: pipeline-overridable constants).

use crate::numbers::{HostNumbers, host_numbers};
use std::alloc::{AllocError, Global};
use wgsl_eval::{Given, Message, Need, Outcome, Settings, Severity, evaluate_in, is_override};
use wgsl_rules::ShaderStage;
use wgsl_scalar::LiteralInstance;
use wgsl_source::Reading;
use wgsl_values::Instance;

/// A value for an override: the name or the number of that, and an expression.
#[derive(Clone, Copy, Debug, PartialEq, Eq)]
pub struct Define<'a> {
    /// Without blanks round it, and not empty.
    pub name: &'a str,
    /// The same.
    pub value: &'a str,
}

/// The values that are given, and the names that floats are given, which are not evaluated.
#[derive(Drop)]
pub struct GivenValues<'a> {
    given: Vec<Given<'a>>,
    floats: Vec<&'a str>,
}

/// What a value is that is given.
enum Worth {
    Literal(LiteralInstance),
    Float,
    Other,
}

/// What `NAME=VALUE` gives; none where it has no `=`, or nothing beside that.
pub fn define_of(word: &str) -> Option<Define<'_>> {
    let (name, value) = word.split_once('=')?;
    let (name, value) = (name.trim(), value.trim());
    if name.is_empty() || value.is_empty() {
        return None;
    }
    Some(Define { name, value })
}

/// The values that are given, or the first that is no integer, no float and no truth value, or of which a fault or a
/// warning is told.
///
/// The outer error is that memory is wanting.
pub fn values_given<'a>(
    alloc: Global,
    defines: &[Define<'a>],
    settings: Settings,
) -> Result<Result<GivenValues<'a>, Define<'a>>, AllocError> {
    let mut defined = GivenValues {
        given: Vec::new(alloc),
        floats: Vec::new(alloc),
    };
    for define in defines {
        let Define { name, value } = *define;
        match worth_of(alloc, value, settings)? {
            Worth::Literal(value) => defined.given.push(Given { name, value })?,
            Worth::Float => defined.floats.push(name)?,
            Worth::Other => return Ok(Err(*define)),
        }
    }
    Ok(Ok(defined))
}

fn worth_of(alloc: Global, text: &str, settings: Settings) -> Result<Worth, AllocError> {
    let reading = Reading::of_expression(alloc, text)?;
    let settings = Settings {
        stage: ShaderStage::Const,
        ..settings
    };
    let evaluation = evaluate_in(alloc, &reading, settings)?;
    let is_sound = reading.faults().is_empty() && evaluation.messages.is_empty();
    Ok(match evaluation.values.first() {
        Some(value) if is_sound => match &value.outcome {
            Outcome::Value(Instance::Literal(literal)) => Worth::Literal(*literal),
            Outcome::Skipped(skip) if skip.need == Need::Float => Worth::Float,
            _ => Worth::Other,
        },
        _ => Worth::Other,
    })
}

/// The values for the overrides of one source, each by its name, and what is told of the others.
#[derive(Drop)]
pub(crate) struct Values<'a> {
    pub(crate) given: Vec<Given<'a>>,
    pub(crate) messages: Vec<Message>,
}

/// The values that are given for the overrides of a source, which begins with this text. A name is that of an override,
/// or the number of its `@id`.
pub(crate) fn values_for<'a>(
    alloc: Global,
    text: &'a str,
    reading: &Reading<'_>,
    defined: &GivenValues<'_>,
    settings: Settings,
) -> Result<Values<'a>, AllocError> {
    let numbers = ids_of(alloc, text, reading, defined, settings)?;
    let mut values = Values {
        given: Vec::new(alloc),
        messages: Vec::new(alloc),
    };
    let added = match values.add_given(alloc, text, reading, numbers.as_slice(), defined) {
        Ok(()) => values.add_floats(alloc, defined, settings.is_strict),
        Err(error) => Err(error),
    };
    drop(numbers);
    match added {
        Ok(()) => Ok(values),
        Err(error) => {
            drop(values);
            Err(error)
        }
    }
}

impl<'a> Values<'a> {
    fn add_given(
        &mut self,
        alloc: Global,
        text: &'a str,
        reading: &Reading<'_>,
        numbers: &[HostNumbers],
        defined: &GivenValues<'_>,
    ) -> Result<(), AllocError> {
        for Given { name, value } in &defined.given {
            match override_named(text, reading, numbers, name) {
                Some(name) => self.given.push(Given {
                    name,
                    value: *value,
                })?,
                None => {
                    let text = format!(in alloc; "no override is named {name}")?;
                    self.messages.push(message_of(text, Severity::Fault))?;
                }
            }
        }
        Ok(())
    }

    fn add_floats(
        &mut self,
        alloc: Global,
        defined: &GivenValues<'_>,
        is_strict: bool,
    ) -> Result<(), AllocError> {
        for name in &defined.floats {
            let text = format!(in alloc; "what is given for {name} is not used: it needs floats")?;
            let severity = if is_strict {
                Severity::Fault
            } else {
                Severity::Note
            };
            self.messages.push(message_of(text, severity))?;
        }
        Ok(())
    }
}

// The numbers of the declarations, where a name is one of them.
fn ids_of(
    alloc: Global,
    text: &str,
    reading: &Reading<'_>,
    defined: &GivenValues<'_>,
    settings: Settings,
) -> Result<Vec<HostNumbers>, AllocError> {
    if defined
        .given
        .iter()
        .any(|given| id_in(given.name).is_some())
    {
        Ok(host_numbers(alloc, text, reading, settings, &[], &[])?.of)
    } else {
        Ok(Vec::new(alloc))
    }
}

// The name of the override that is meant, as it stands in the text of the source.
fn override_named<'a>(
    text: &'a str,
    reading: &Reading<'_>,
    numbers: &[HostNumbers],
    name: &str,
) -> Option<&'a str> {
    let number = if is_override(reading, name) {
        reading.number_of(name)?
    } else {
        let id = id_in(name)?;
        numbers.iter().position(|of| of.id == Some(id))?
    };
    let extent = reading.extent(reading.name(number));
    text.get(extent.start..extent.end)
}

fn id_in(name: &str) -> Option<u32> {
    name.parse().ok()
}

// It is of no place in the source.
fn message_of(text: String, severity: Severity) -> Message {
    Message {
        start: 0,
        end: 0,
        severity,
        text,
    }
}
