//! All that is told of a source.

use crate::defines::{GivenValues, Values, values_for};
use crate::eval::module_values;
use crate::finding::{Finding, findings_of, sort};
use crate::interface::Interface;
use crate::left_out::{add_left_out, left_out};
use crate::numbers::{Numbers, host_numbers};
use crate::request::Request;
use crate::share::shared_faults;
use crate::together::used_together;
use std::alloc::{AllocError, Global};
use wgsl_eval::{Given, Item, Message, resolve_with};
use wgsl_source::Reading;

/// All that `layouts_of` and `values_of` tell of a source, each once, in the order of the places; but what is told of names
/// that are asked for and not there.
pub fn all_findings(
    alloc: Global,
    text: &str,
    request: &Request<'_>,
    defined: &GivenValues<'_>,
) -> Result<Vec<Finding>, AllocError> {
    let reading = Reading::of_module(alloc, text)?;
    let findings = findings_in(alloc, text, &reading, request, defined);
    drop(reading);
    findings
}

// The same of a source of this text that is read.
fn findings_in(
    alloc: Global,
    text: &str,
    reading: &Reading<'_>,
    request: &Request<'_>,
    defined: &GivenValues<'_>,
) -> Result<Vec<Finding>, AllocError> {
    let Values { given, messages } = values_for(alloc, text, reading, defined, request.settings)?;
    let findings = findings_with(alloc, text, reading, request, given.as_slice(), messages);
    drop(given);
    findings
}

// The same where these values are given, of which these messages tell.
fn findings_with(
    alloc: Global,
    text: &str,
    reading: &Reading<'_>,
    request: &Request<'_>,
    given: &[Given<'_>],
    of_overrides: Vec<Message>,
) -> Result<Vec<Finding>, AllocError> {
    // What is told of declarations is told of values and assertions too.
    let items = resolve_with(alloc, reading, request.settings, given)?.items;
    let findings = findings_of_items(
        alloc,
        text,
        reading,
        request,
        given,
        items.as_slice(),
        of_overrides,
    );
    drop(items);
    findings
}

// The same of declarations that were found to be these.
fn findings_of_items(
    alloc: Global,
    text: &str,
    reading: &Reading<'_>,
    request: &Request<'_>,
    given: &[Given<'_>],
    items: &[Item],
    of_overrides: Vec<Message>,
) -> Result<Vec<Finding>, AllocError> {
    let settings = request.settings;
    let is_strict = settings.is_strict;
    let Numbers {
        of,
        messages: of_numbers,
    } = host_numbers(alloc, text, reading, settings, given, items)?;
    let (_, messages) = module_values(alloc, text, reading, settings, given)?;
    let mut messages = joined(messages, of_numbers, of_overrides)?;
    let left_out = left_out(alloc, items, reading, request)?;
    add_left_out(alloc, &mut messages, text, left_out.as_slice(), is_strict)?;
    let interface = Interface::new(alloc, reading, items, of.as_slice())?;
    let messages = messages.as_slice();
    layout_findings(alloc, text, reading, items, &interface, is_strict, messages)
}

/// The messages of three lists, one behind the other.
pub(crate) fn joined(
    mut messages: Vec<Message>,
    mut second: Vec<Message>,
    mut third: Vec<Message>,
) -> Result<Vec<Message>, AllocError> {
    messages.append(&mut second)?;
    messages.append(&mut third)?;
    Ok(messages)
}

/// What is told of the declarations of a source beside these messages, in the order of the places.
pub(crate) fn layout_findings(
    alloc: Global,
    text: &str,
    reading: &Reading<'_>,
    items: &[Item],
    interface: &Interface<'_>,
    is_strict: bool,
    messages: &[Message],
) -> Result<Vec<Finding>, AllocError> {
    let mut findings = findings_of(alloc, text, reading.faults(), messages)?;
    for finding in shared_faults(alloc, reading, items)? {
        findings.push(finding)?;
    }
    for finding in used_together(alloc, interface, items, is_strict)? {
        findings.push(finding)?;
    }
    sort(&mut findings)?;
    Ok(findings)
}
