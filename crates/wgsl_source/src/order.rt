//! An order of the declarations, in which each stands behind those that it names (WGSL: declaration
//! and scope).

ghost use Rattle.std.specs.Prelude.{◌≡◌, ℕ, List, length, IfOk};
ghost use Rattle.wgsl_source.specs.Declarations.{number_named};
ghost use Rattle.wgsl_source.specs.Faults.{KeepsFaults};
ghost use Rattle.wgsl_source.specs.NameTables.{named_in};
ghost use Rattle.wgsl_source.specs.Orders.{IsOrderOf};
ghost use Rattle.wgsl_source.specs.Uses.{looked_up};

use crate::cursor::Cursor;
use crate::declaration::Module;
use crate::expression::{Callee, Step};
use crate::fault::{Faults, Reason};
use crate::name_table::NameTable;
use crate::places::Places;
use std::alloc::{AllocError, Global};

/// A declaration that was begun, and the step of it that is looked at next.
#[derive(Clone, Copy)]
struct Frame {
    declaration: usize,
    step: usize,
}

/// Finds the order.
#[derive(Drop)]
struct Search<'a> {
    cursor: Cursor<'a>,
    module: &'a Module,
    names: &'a NameTable,
    places: Places,
    begun: Vec<Frame>,
}

/// The numbers of declarations by their names. Of two with one name the first has it.
pub(crate) fn names_of(
    alloc: Global,
    module: &Module,
    cursor: Cursor<'_>,
    faults: &mut Faults,
) -> Result<NameTable, AllocError>
    ensures names { IfOk result (λ names. (name : List ℕ) → named_in names name ≡ number_named cursor.entry «module».now.declarations.items name) }
    ensures kept { KeepsFaults faults.old.faults.items faults.new.faults.items }
{
    let mut names = NameTable::for_names(alloc, module.declarations.len())?;
    for (number, declaration) in module.declarations.iter().enumerate() {
        let name = cursor.text_at(declaration.name);
        if names.get(name).is_some() {
            faults.add(cursor.fault_at(declaration.name, Reason::DuplicateName))?;
        } else {
            names.insert(String::from_str(alloc, name)?, number)?;
        }
    }
    Ok(names)
}

/// The numbers of all declarations, each behind those that it names. One that needs itself is a
/// fault where it is named.
pub(crate) fn order_of(
    alloc: Global,
    module: &Module,
    cursor: Cursor<'_>,
    names: &NameTable,
    faults: &mut Faults,
) -> Result<Vec<usize>, AllocError>
    ensures order { IfOk result (λ order. IsOrderOf order.items (length «module».now.declarations.items)) }
    ensures kept { KeepsFaults faults.old.faults.items faults.new.faults.items }
{
    let declared = module.declarations.len();
    let mut search = Search {
        cursor,
        module,
        names,
        places: Places::new(alloc, declared)?,
        begun: Vec::new(alloc),
    };
    // Each turn goes by a step of a declaration or ends one.
    let turns = module.steps.len().saturating_add(declared);
    for declaration in 0..declared {
        search.begin(declaration)?;
        for _ in 0..turns {
            if search.begun.is_empty() {
                break;
            }
            search.go_on(faults)?;
        }
    }
    search.places.into_order()
}

impl Search<'_> {
    fn begin(&mut self, declaration: usize) -> Result<(), AllocError>
        ensures same { length self.new.places.marks.items ≡ length self.old.places.marks.items }
    {
        if !self.places.begin(declaration) {
            return Ok(());
        }
        if let Some(begun) = self.module.declarations.get(declaration) {
            let step = begun.steps.start;
            self.begun.push(Frame { declaration, step })?;
        }
        Ok(())
    }

    // Looks at the next step of the declaration that was begun last, or ends that.
    fn go_on(&mut self, faults: &mut Faults) -> Result<(), AllocError>
        ensures same { length self.new.places.marks.items ≡ length self.old.places.marks.items }
        ensures kept { KeepsFaults faults.old.faults.items faults.new.faults.items }
    {
        let Some(frame) = self.begun.pop() else {
            return Ok(());
        };
        let Some(step) = self.step_of(frame) else {
            return self.places.end(frame.declaration);
        };
        self.begun.push(Frame {
            declaration: frame.declaration,
            step: frame.step.saturating_add(1),
        })?;
        match name_in(step) {
            Some(name) => self.follow(name, faults),
            None => Ok(()),
        }
    }

    // The step that is looked at next, if it is one of the declaration.
    fn step_of(&self, frame: Frame) -> Option<Step> {
        let declaration = self.module.declarations.get(frame.declaration)?;
        if frame.step >= declaration.steps.end {
            return None;
        }
        self.module.steps.get(frame.step).copied()
    }

    fn follow(&mut self, name: usize, faults: &mut Faults) -> Result<(), AllocError>
        ensures same { length self.new.places.marks.items ≡ length self.old.places.marks.items }
        ensures kept { KeepsFaults faults.old.faults.items faults.new.faults.items }
    {
        let Some(declaration) = self.names.get(self.cursor.text_at(name)) else {
            return Ok(());
        };
        if self.places.is_begun(declaration) {
            faults.add(self.cursor.fault_at(name, Reason::ContainsItself))?;
        }
        self.begin(declaration)
    }
}

/// The token of the name that a step looks up.
pub(crate) fn name_in(step: Step) -> Option<usize>
    ensures { result ≡ looked_up step }
{
    match step {
        Step::Name(name) | Step::Template(name, _) => Some(name),
        Step::Call(name, Callee::Name, _) => Some(name),
        _ => None,
    }
}
