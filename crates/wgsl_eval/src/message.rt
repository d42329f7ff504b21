//! What is told of a source.

ghost use Rattle.std.specs.Prelude.{◌≡◌, ◌≤◌, [], All, IfOk, OnErr, OnOk, vec_len};
ghost use Rattle.std.specs.List.Sorted.{IsSortedByKey};
ghost use Rattle.std.specs.Ordering.{nat_cmp};
ghost use Rattle.wgsl_eval.specs.Messages.{AreTold, IsWarning, added, all_added};

use std::alloc::{AllocError, Global};
use wgsl_source::Extent;

/// The most messages that are told of a source.
const MESSAGES: usize = 100;

/// How much a message matters.
#[derive(Clone, Copy, Debug, PartialEq, Eq)]
pub enum Severity {
    /// What has it has no value.
    Fault,
    /// The standard refuses it.
    Warning,
    /// It is left out; a program that prints what is found tells so.
    Note,
}

/// Bytes of a source, and what is said of them.
#[derive(Debug, PartialEq, Eq, Drop)]
pub struct Message {
    pub start: usize,
    pub end: usize,
    pub severity: Severity,
    pub text: String,
}

impl Message {
    pub(crate) fn fault(extent: Extent, text: String) -> Message
        ensures { result ≡ record { start = extent.start; end = extent.end; severity = Severity.Fault; text = text } }
    {
        Message {
            start: extent.start,
            end: extent.end,
            severity: Severity::Fault,
            text,
        }
    }

    pub(crate) fn warning(extent: Extent, text: String) -> Message
        ensures { result ≡ record { start = extent.start; end = extent.end; severity = Severity.Warning; text = text } }
    {
        Message {
            start: extent.start,
            end: extent.end,
            severity: Severity::Warning,
            text,
        }
    }
}

/// What was found, of many faults and of many warnings the first.
#[derive(Drop)]
pub(crate) struct Messages {
    pub(crate) faults: Vec<Message>,
    warnings: Vec<Message>,
    ghost bounded: { vec_len faults ≤ 100 },
    ghost warned: { All IsWarning warnings.items },
}

impl Messages {
    pub(crate) fn new(alloc: Global) -> Self
        ensures { result.faults.items ≡ [] }
    {
        Messages {
            faults: Vec::new(alloc),
            warnings: Vec::new(alloc),
        }
    }

    /// One fault more, where there are not too many.
    pub(crate) fn add_fault(&mut self, fault: Message) -> Result<(), AllocError>
        ensures added { OnOk result (self.new.faults.items ≡ added self.old.faults.items fault) }
        ensures kept { OnErr result (self.new.faults.items ≡ self.old.faults.items) }
    {
        if self.faults.len() < MESSAGES {
            self.faults.push(fault)?;
        }
        Ok(())
    }

    /// All of these faults, the last one first, where there are not too many.
    #[tactic(auto, using(crate::proofs::Faults::all_added_last))]
    pub(crate) fn add_faults(&mut self, mut faults: Vec<Message>) -> Result<(), AllocError>
        ensures { OnOk result (self.new.faults.items ≡ all_added self.old.faults.items faults.items) }
    {
        while let Some(fault) = faults.pop() {
            self.add_fault(fault)?;
        }
        Ok(())
    }

    /// How many warnings there are.
    pub(crate) fn warnings(&self) -> usize {
        self.warnings.len()
    }

    /// Leaves so many of the warnings.
    pub(crate) fn keep_warnings(&mut self, count: usize)
        ensures { self.new.faults.items ≡ self.old.faults.items }
    {
        self.warnings.truncate(count);
    }

    /// One warning more, where there are not too many.
    pub(crate) fn add_warning(&mut self, extent: Extent, text: String) -> Result<(), AllocError>
        ensures { self.new.faults.items ≡ self.old.faults.items }
    {
        if self.warnings.len() < MESSAGES {
            self.warnings.push(Message::warning(extent, text))?;
        }
        Ok(())
    }

    /// All faults, and as many warnings as may be told beside them, as they stand in the source.
    pub(crate) fn into_sorted(self) -> Result<Vec<Message>, AllocError>
        ensures count { IfOk result (λ messages. vec_len messages ≤ 100) }
        ensures sorted { IfOk result (λ messages. IsSortedByKey (λ m. m.start) nat_cmp messages.items) }
        ensures told { IfOk result (λ messages. AreTold self.faults.items messages.items) }
    {
        let Messages {
            faults: mut messages,
            mut warnings,
        } = self;
        warnings.truncate(MESSAGES.saturating_sub(messages.len()));
        messages.append(&mut warnings)?;
        messages.sort_by_key(|message| message.start)?;
        Ok(messages)
    }
}
