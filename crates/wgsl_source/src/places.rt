//! The places of declarations in an order.

ghost use Rattle.std.specs.Prelude.{◌≡◌, ◌<◌, ℕ, [], Some, IfOk, OnOk, length, slice_get};
ghost use Rattle.wgsl_source.specs.Orders.{IsOrderOf, places_with, times_in};

use std::alloc::{AllocError, Global};

/// Whether a declaration has its place in the order.
#[derive(Clone, Copy, PartialEq, Eq)]
enum Mark {
    New,
    /// Those that it names are looked at.
    Begun,
    Done,
}

/// The declarations that have their places, in order.
#[derive(Drop)]
pub(crate) struct Places {
    marks: Vec<Mark>,
    order: Vec<usize>,
    ghost once: { (number : ℕ) → times_in number order.items ≡ places_with (slice_get marks.items number) },
}

impl Places {
    /// So many declarations, all without a place.
    pub(crate) fn new(alloc: Global, declared: usize) -> Result<Self, AllocError>
        ensures { IfOk result (λ places. length places.marks.items ≡ declared) }
    {
        Ok(Places {
            marks: vec![in alloc; Mark::New; declared]?,
            order: Vec::with_capacity(alloc, declared)?,
        })
    }

    fn mark_of(&self, declaration: usize) -> Option<Mark>
        ensures { result ≡ slice_get self.now.marks.items declaration }
    {
        self.marks.get(declaration).copied()
    }

    /// Begins with a declaration, and says whether it is new.
    pub(crate) fn begin(&mut self, declaration: usize) -> bool
        ensures { length self.new.marks.items ≡ length self.old.marks.items }
    {
        match self.mark_of(declaration) {
            Some(Mark::New) => {
                self.marks[declaration] = Mark::Begun;
                true
            }
            Some(Mark::Begun | Mark::Done) | None => false,
        }
    }

    /// Whether a declaration is begun and has no place yet.
    pub(crate) fn is_begun(&self, declaration: usize) -> bool {
        matches!(self.mark_of(declaration), Some(Mark::Begun))
    }

    /// The next place, for a declaration that has none.
    pub(crate) fn end(&mut self, declaration: usize) -> Result<(), AllocError>
        ensures same { length self.new.marks.items ≡ length self.old.marks.items }
        ensures placed { OnOk result (declaration < length self.old.marks.items → slice_get self.new.marks.items declaration ≡ Some Mark.Done) }
        ensures kept { (number : ℕ) → slice_get self.old.marks.items number ≡ Some Mark.Done → slice_get self.new.marks.items number ≡ Some Mark.Done }
    {
        match self.mark_of(declaration) {
            Some(Mark::New) => self.place(declaration),
            Some(Mark::Begun) => self.place(declaration),
            Some(Mark::Done) => Ok(()),
            None => Ok(()),
        }
    }

    fn place(&mut self, declaration: usize) -> Result<(), AllocError>
        requires within { declaration < length self.old.marks.items }
        requires none { places_with (slice_get self.old.marks.items declaration) ≡ 0 }
        ensures same { length self.new.marks.items ≡ length self.old.marks.items }
        ensures placed { OnOk result (slice_get self.new.marks.items declaration ≡ Some Mark.Done) }
        ensures kept { (number : ℕ) → slice_get self.old.marks.items number ≡ Some Mark.Done → slice_get self.new.marks.items number ≡ Some Mark.Done }
    {
        self.order.push(declaration)?;
        self.marks[declaration] = Mark::Done;
        Ok(())
    }

    /// All declarations: what has no place comes behind the others.
    pub(crate) fn into_order(mut self) -> Result<Vec<usize>, AllocError>
        ensures { IfOk result (λ order. IsOrderOf order.items (length self.marks.items)) }
    {
        for declaration in 0..self.marks.len() {
            self.end(declaration)?;
        }
        Ok(self.order)
    }
}
