//! What is printed of the constants of a source.

ghost use Rattle.std.specs.Prelude.{◌≡◌, ℕ, List, IfOk, IfSome, string_bytes};
ghost use Rattle.wgsl_report.specs.Scopes.{IsLastValue, IsOutcomeOf, with_constant};

use crate::defines::{GivenValues, Values, values_for};
use crate::finding::{Finding, fault_count, findings_of, sort};
use crate::findings::joined;
use crate::findings_json::Told;
use crate::format::Format;
use crate::left_out::add_need;
use crate::numbers::messages_of_numbers;
use crate::report::Report;
use crate::request::Request;
use crate::scope::{WithConstant, apart, with_constant};
use crate::values::{Entry, add_entries};
use crate::values_json::add_json;
use std::alloc::{AllocError, Global};
use wgsl_eval::{
    Assertion, Evaluated, Evaluation, Given, Message, Outcome, Settings, Severity, Skip,
    evaluate_in, evaluate_with,
};
use wgsl_source::{Fault, Reading};

/// An expression is told of by this name.
const EXPRESSION: &str = "expression";

/// The format of what is printed, of a text that is told of by this name.
#[derive(Clone, Copy)]
struct Printed<'a> {
    file: &'a str,
    text: &'a str,
    format: Format,
}

/// Whether the text is one expression.
pub fn is_expression(alloc: Global, text: &str) -> Result<bool, AllocError> {
    Ok(faults_of_form(alloc, text)? == 0)
}

// How many faults a text has in its form, as one expression.
fn faults_of_form(alloc: Global, text: &str) -> Result<usize, AllocError> {
    let reading = Reading::of_expression(alloc, text)?;
    let count = reading.faults().len();
    drop(reading);
    Ok(count)
}

/// The value of an expression by itself, and what is told of it.
pub fn expression_value(
    alloc: Global,
    text: &str,
    request: &Request<'_>,
) -> Result<Report, AllocError> {
    let reading = Reading::of_expression(alloc, text)?;
    let report = expression_in(alloc, text, &reading, request);
    drop(reading);
    report
}

// The same of an expression that is read.
fn expression_in(
    alloc: Global,
    text: &str,
    reading: &Reading<'_>,
    request: &Request<'_>,
) -> Result<Report, AllocError> {
    let Evaluation {
        values,
        mut messages,
        ..
    } = evaluate_in(alloc, reading, request.settings)?;
    let mut entries = Vec::new(alloc);
    for value in &values {
        add_skipped(
            alloc,
            &mut messages,
            text,
            &value.outcome,
            request.settings.is_strict,
        )?;
        entries.push(Entry {
            name: None,
            outcome: &value.outcome,
        })?;
    }
    let printed = Printed {
        file: EXPRESSION,
        text,
        format: request.format,
    };
    report_of(
        alloc,
        printed,
        text,
        entries.as_slice(),
        reading.faults(),
        messages.as_slice(),
    )
}

/// The values of the constants of a module, as JSON or a line for each that has no fault, and what is told of it.
pub fn values_of(
    alloc: Global,
    file: &str,
    text: &str,
    request: &Request<'_>,
    defined: &GivenValues<'_>,
) -> Result<Report, AllocError> {
    let reading = Reading::of_module(alloc, text)?;
    let report = values_in(alloc, (file, text), &reading, request, defined);
    drop(reading);
    report
}

// The same of a module of this name and text that is read.
fn values_in(
    alloc: Global,
    (file, text): (&str, &str),
    reading: &Reading<'_>,
    request: &Request<'_>,
    defined: &GivenValues<'_>,
) -> Result<Report, AllocError> {
    let settings = request.settings;
    let Values {
        given,
        messages: of_overrides,
    } = values_for(alloc, text, reading, defined, settings)?;
    let given = given.as_slice();
    let (values, messages) = module_values(alloc, text, reading, settings, given)?;
    let messages = with_numbers(
        alloc,
        text,
        reading,
        settings,
        given,
        (messages, of_overrides),
    )?;
    let printed = Printed {
        file,
        text,
        format: request.format,
    };
    report_of_values(
        alloc,
        printed,
        reading,
        values.as_slice(),
        messages.as_slice(),
    )
}

// These messages, with those of numbers between them.
fn with_numbers(
    alloc: Global,
    text: &str,
    reading: &Reading<'_>,
    settings: Settings,
    given: &[Given<'_>],
    (messages, of_overrides): (Vec<Message>, Vec<Message>),
) -> Result<Vec<Message>, AllocError> {
    let of_numbers = messages_of_numbers(alloc, text, reading, settings, given)?;
    joined(messages, of_numbers, of_overrides)
}

fn report_of_values(
    alloc: Global,
    printed: Printed<'_>,
    reading: &Reading<'_>,
    values: &[Evaluated],
    messages: &[Message],
) -> Result<Report, AllocError> {
    let mut entries = Vec::with_capacity(alloc, values.len())?;
    for value in values {
        entries.push(Entry {
            name: Some(reading.word(value.token)),
            outcome: &value.outcome,
        })?;
    }
    report_of(
        alloc,
        printed,
        printed.text,
        entries.as_slice(),
        reading.faults(),
        messages,
    )
}

/// The values of a module, and what is told of them and of its assertions.
pub(crate) fn module_values(
    alloc: Global,
    text: &str,
    reading: &Reading<'_>,
    settings: Settings,
    given: &[Given<'_>],
) -> Result<(Vec<Evaluated>, Vec<Message>), AllocError> {
    let Evaluation {
        values,
        asserts,
        mut messages,
    } = evaluate_with(alloc, reading, settings, given)?;
    let added = add_unevaluated(
        alloc,
        &mut messages,
        text,
        asserts.as_slice(),
        values.as_slice(),
        settings.is_strict,
    );
    drop(asserts);
    added?;
    Ok((values, messages))
}

// Tells what is not evaluated of these assertions and of these values.
fn add_unevaluated(
    alloc: Global,
    messages: &mut Vec<Message>,
    text: &str,
    asserts: &[Assertion],
    values: &[Evaluated],
    is_strict: bool,
) -> Result<(), AllocError> {
    for assertion in asserts {
        add_assertion(alloc, messages, text, *assertion, is_strict)?;
    }
    for value in values {
        add_skipped(alloc, messages, text, &value.outcome, is_strict)?;
    }
    Ok(())
}

/// An expression in the scope of a module: what it is found to be, and what is told of either.
#[derive(Drop)]
struct Scoped {
    outcome: Option<Outcome>,
    of_module: Vec<Finding>,
    of_expression: Vec<Message>,
}

/// What is told of a module, and the value of an expression in its scope with what is told of that.
pub fn value_in_scope(
    alloc: Global,
    file: &str,
    module: &str,
    expression: &str,
    request: &Request<'_>,
    defined: &GivenValues<'_>,
) -> Result<(Report, Report), AllocError> {
    let with = with_constant(alloc, module, expression)?;
    let reports = match in_scope(alloc, module, &with, request.settings, defined) {
        Ok(scoped) => {
            let reports = reports_of(alloc, (file, module), (expression, &with), request, &scoped);
            drop(scoped);
            reports
        }
        Err(error) => Err(error),
    };
    drop(with);
    reports
}

// What is told of a module of this name and text, and of the expression of which there is a constant behind it.
fn reports_of(
    alloc: Global,
    (file, module): (&str, &str),
    (expression, with): (&str, &WithConstant),
    request: &Request<'_>,
    scoped: &Scoped,
) -> Result<(Report, Report), AllocError> {
    let told = Report::new(
        alloc,
        file,
        module,
        String::new(alloc),
        scoped.of_module.as_slice(),
    )?;
    let printed = Printed {
        file: EXPRESSION,
        text: expression,
        format: request.format,
    };
    match report_in_scope(alloc, printed, with.text.as_str(), scoped) {
        Ok(value) => Ok((told, value)),
        Err(error) => {
            drop(told);
            Err(error)
        }
    }
}

fn report_in_scope(
    alloc: Global,
    printed: Printed<'_>,
    text: &str,
    scoped: &Scoped,
) -> Result<Report, AllocError> {
    let mut entries = Vec::new(alloc);
    if let Some(outcome) = &scoped.outcome {
        entries.push(Entry {
            name: None,
            outcome,
        })?;
    }
    let messages = scoped.of_expression.as_slice();
    report_of(alloc, printed, text, entries.as_slice(), &[], messages)
}

/// What an expression is found to be in the scope of a module.
#[derive(Drop)]
pub struct Found {
    /// Nothing where the text is no expression, or the module leaves none of it, as by a comment that is open at its end.
    pub outcome: Option<Outcome>,
    /// How many faults the module and the expression have; those of the expression alone where that is none.
    pub faults: usize,
}

/// What an expression is found to be in the scope of a module.
pub fn outcome_in_scope(
    alloc: Global,
    module: &str,
    expression: &str,
    settings: Settings,
    defined: &GivenValues<'_>,
) -> Result<Found, AllocError>
    ensures { IfOk result (λ f. IfSome f.outcome (IsOutcomeOf «module».now expression.now settings)) }
{
    let form = faults_of_form(alloc, expression)?;
    if form > 0 {
        return Ok(Found {
            outcome: None,
            faults: form,
        });
    }
    let with = with_constant(alloc, module, expression)?;
    let Scoped {
        outcome,
        of_module,
        of_expression,
    } = in_scope(alloc, module, &with, settings, defined)?;
    match faults_in(
        alloc,
        expression,
        of_module.as_slice(),
        of_expression.as_slice(),
    ) {
        Ok(faults) => Ok(Found { outcome, faults }),
        Err(error) => {
            drop(outcome);
            Err(error)
        }
    }
}

// How many faults there are among what is told of a module, and of an expression in its scope.
fn faults_in(
    alloc: Global,
    expression: &str,
    of_module: &[Finding],
    of_expression: &[Message],
) -> Result<usize, AllocError> {
    let of_expression = findings_of(alloc, expression, &[], of_expression)?;
    let of_module = fault_count(of_module);
    Ok(of_module.saturating_add(fault_count(of_expression.as_slice())))
}

// What the last of the values is, if it is of the constant of this name.
fn last_outcome(mut values: Vec<Evaluated>, reading: &Reading<'_>, name: &str) -> Option<Outcome>
    ensures { IfSome result (IsLastValue reading.now name.now values.items) }
{
    let value = values.pop()?;
    if reading.word(value.token) == name {
        Some(value.outcome)
    } else {
        drop(value);
        None
    }
}

// The expression of which there is a constant behind the module.
fn in_scope(
    alloc: Global,
    module: &str,
    with: &WithConstant,
    settings: Settings,
    defined: &GivenValues<'_>,
) -> Result<Scoped, AllocError>
    ensures { (text : List ℕ) → string_bytes with.now.text ≡ with_constant «module».now (string_bytes with.now.name) text →
        IfOk result (λ s. IfSome s.outcome (IsOutcomeOf «module».now text settings)) }
{
    let text = with.text.as_str();
    let reading = Reading::of_module(alloc, text)?;
    let Values {
        given,
        messages: of_overrides,
    } = values_for(alloc, module, &reading, defined, settings)?;
    let given = given.as_slice();
    let Evaluation {
        values,
        messages,
        ..
    } = evaluate_with(alloc, &reading, settings, given)?;
    let outcome = last_outcome(values, &reading, with.name.as_str());
    let told = told_apart(
        alloc,
        (module, with),
        &reading,
        settings,
        given,
        outcome.as_ref(),
        (messages, of_overrides),
    );
    drop(reading);
    match told {
        Ok((of_module, of_expression)) => Ok(Scoped {
            outcome,
            of_module,
            of_expression,
        }),
        Err(error) => {
            drop(outcome);
            Err(error)
        }
    }
}

// What these messages tell of the module, and of the expression, of which there is a constant behind it.
fn told_apart(
    alloc: Global,
    (module, with): (&str, &WithConstant),
    reading: &Reading<'_>,
    settings: Settings,
    given: &[Given<'_>],
    outcome: Option<&Outcome>,
    messages: (Vec<Message>, Vec<Message>),
) -> Result<(Vec<Finding>, Vec<Message>), AllocError> {
    let text = with.text.as_str();
    let mut messages = with_numbers(alloc, text, reading, settings, given, messages)?;
    if let Some(outcome) = outcome {
        add_skipped(alloc, &mut messages, text, outcome, settings.is_strict)?;
    }
    let (of_module, of_expression) = apart(alloc, messages, with.start)?;
    let mut of_module = findings_of(alloc, module, reading.faults(), of_module.as_slice())?;
    sort(&mut of_module)?;
    Ok((of_module, of_expression))
}

// The values in their format, whose texts are parts of this one, and what is told.
fn report_of(
    alloc: Global,
    printed: Printed<'_>,
    text: &str,
    entries: &[Entry<'_>],
    faults: &[Fault],
    messages: &[Message],
) -> Result<Report, AllocError> {
    let mut findings = findings_of(alloc, printed.text, faults, messages)?;
    sort(&mut findings)?;
    let told = Told {
        file: printed.file,
        text: printed.text,
        findings: findings.as_slice(),
    };
    let mut output = String::new(alloc);
    match printed.format {
        Format::Json => add_json(alloc, &mut output, text, entries, told)?,
        _ => add_entries(alloc, &mut output, text, entries)?,
    }
    Report::new(alloc, told.file, told.text, output, told.findings)
}

// Tells an assertion that is not evaluated.
fn add_assertion(
    alloc: Global,
    messages: &mut Vec<Message>,
    text: &str,
    assertion: Assertion,
    is_strict: bool,
) -> Result<(), AllocError> {
    let Assertion::Skipped(skip) = assertion else {
        return Ok(());
    };
    let severity = if is_strict {
        Severity::Fault
    } else {
        Severity::Note
    };
    let said = "this assertion is not evaluated: ";
    messages.push(message_of(alloc, text, said, skip, severity)?)?;
    Ok(())
}

// Tells a constant that is not evaluated as a fault, where strictness is asked for.
fn add_skipped(
    alloc: Global,
    messages: &mut Vec<Message>,
    text: &str,
    outcome: &Outcome,
    is_strict: bool,
) -> Result<(), AllocError> {
    let Outcome::Skipped(skip) = outcome else {
        return Ok(());
    };
    if is_strict {
        let said = "this is not evaluated: ";
        messages.push(message_of(alloc, text, said, *skip, Severity::Fault)?)?;
    }
    Ok(())
}

fn message_of(
    alloc: Global,
    text: &str,
    said: &str,
    skip: Skip,
    severity: Severity,
) -> Result<Message, AllocError> {
    let mut whole = String::from_str(alloc, said)?;
    add_need(&mut whole, text, skip)?;
    Ok(Message {
        start: skip.start,
        end: skip.end,
        severity,
        text: whole,
    })
}
