//! Views into values (WGSL: memory views).

ghost use Rattle.std.specs.Cmp.{partial_equiv_from_equiv};
ghost use Rattle.std.specs.Prelude.{◌≡◌, IfOk, [], ◌∷◌, ◌++◌, OnErr, OnOk, reverse, string_bytes, Some};
ghost use Rattle.wgsl_rules.specs.Values.{index as index_step, member as member_step};
ghost use Rattle.wgsl_values.specs.Equal.{views_equiv};
ghost use Rattle.wgsl_values.specs.Same.{same_steps};
ghost use Rattle.wgsl_values.specs.Texts.{text_of_steps};
ghost use Rattle.wgsl_values.specs.View.{steps_of};

use std::alloc::{AllocError, Global};
use std::fmt::Display;
use std::{fmt, mem};

/// A way from a value to a part of it, the outermost step first.
///
/// A view may have any number of steps: what goes along it (`clone`, `==`, its text, a last step that is
/// put on, dropping it) does so in a loop, and takes no more stack where it is longer. Only what follows it
/// through a value calls itself for each step that the value has, and `{:?}` for each step.
#[derive(Debug)]
pub enum MemView {
    /// The value itself.
    Whole,
    /// The member of the name, and the view into it.
    Member(String, Box<MemView>),
    /// The part of the index, and the view into it.
    Index(usize, Box<MemView>),
}

impl MemView {
    /// Puts a last step on, to the member of the name.
    pub fn append_member(&mut self, alloc: Global, name: String) -> Result<(), AllocError>
        ensures ok { OnOk result (steps_of self.new ≡ steps_of self.old ++ member_step (string_bytes name) ∷ []) }
        ensures err { OnErr result (steps_of self.new ≡ steps_of self.old) }
    {
        let whole = Box::new(alloc, MemView::Whole)?;
        self.append(MemView::Member(name, whole));
        Ok(())
    }

    /// Puts a last step on, to the part of the index.
    pub fn append_index(&mut self, alloc: Global, index: usize) -> Result<(), AllocError>
        ensures ok { OnOk result (steps_of self.new ≡ steps_of self.old ++ index_step index ∷ []) }
        ensures err { OnErr result (steps_of self.new ≡ steps_of self.old) }
    {
        let whole = Box::new(alloc, MemView::Whole)?;
        self.append(MemView::Index(index, whole));
        Ok(())
    }

    /// A copy of the view, in memory of its own, with a last step to the member of the name.
    pub fn with_member(&self, alloc: Global, name: String) -> Result<MemView, AllocError>
        ensures { IfOk result (λ v. steps_of v ≡ steps_of self.now ++ member_step (string_bytes name) ∷ []) }
    {
        let turned = self.turned_copy(alloc)?;
        let whole = Box::new(alloc, MemView::Whole)?;
        Ok(turned.turned_onto(MemView::Member(name, whole)))
    }

    /// A copy of the view, in memory of its own, with a last step to the part of the index.
    pub fn with_index(&self, alloc: Global, index: usize) -> Result<MemView, AllocError>
        ensures { IfOk result (λ v. steps_of v ≡ steps_of self.now ++ index_step index ∷ []) }
    {
        let turned = self.turned_copy(alloc)?;
        let whole = Box::new(alloc, MemView::Whole)?;
        Ok(turned.turned_onto(MemView::Index(index, whole)))
    }

    /// Puts the steps of the other view behind the own ones.
    fn append(&mut self, last: MemView)
        ensures { steps_of self.new ≡ steps_of self.old ++ steps_of last }
    {
        let whole = mem::replace(self, MemView::Whole);
        *self = whole.turned_onto(MemView::Whole).turned_onto(last);
    }

    // The steps of the view from the last to the first, and behind them those of the other.
    #[tactic(auto, using(crate::proofs::Turned::turned))]
    fn turned_onto(mut self, mut done: MemView) -> MemView
        ensures { steps_of result ≡ reverse (steps_of self) ++ steps_of done }
    {
        loop {
            match self {
                MemView::Whole => return done,
                MemView::Member(name, mut rest) => {
                    self = mem::replace(&mut *rest, done);
                    done = MemView::Member(name, rest);
                }
                MemView::Index(i, mut rest) => {
                    self = mem::replace(&mut *rest, done);
                    done = MemView::Index(i, rest);
                }
            }
        }
    }

    /// A copy of the view, in memory of its own.
    pub fn clone(&self, alloc: Global) -> Result<MemView, AllocError>
        ensures { IfOk result (λ view. steps_of view ≡ steps_of self.now) }
    {
        Ok(self.turned_copy(alloc)?.turned_onto(MemView::Whole))
    }

    // A copy of the steps, from the last to the first.
    #[tactic(auto, using(crate::proofs::Turned::turned))]
    fn turned_copy(&self, alloc: Global) -> Result<MemView, AllocError>
        ensures { IfOk result (λ view. steps_of view ≡ reverse (steps_of self.now)) }
    {
        let mut copy = MemView::Whole;
        let mut rest = self;
        loop {
            match rest {
                MemView::Whole => return Ok(copy),
                MemView::Member(name, next) => {
                    copy = MemView::Member(name.clone()?, Box::new(alloc, copy)?);
                    rest = next;
                }
                MemView::Index(i, next) => {
                    copy = MemView::Index(*i, Box::new(alloc, copy)?);
                    rest = next;
                }
            }
        }
    }
}

/// In a loop, so that a long view does not run out of stack.
impl Drop for MemView {
    fn drop(mut self) {
        loop {
            match self {
                MemView::Whole => return,
                MemView::Member(_, rest) => self = Box::into_inner(rest),
                MemView::Index(_, rest) => self = Box::into_inner(rest),
            }
        }
    }
}

/// A colon before each step, and nothing for the value itself.
impl Display for MemView {
    ghost output = { λ view. Some (text_of_steps (steps_of view)) };

    fn fmt<W: fmt::Write>(&self, f: &mut fmt::Formatter<W>) -> fmt::Result {
        let mut steps = self;
        loop {
            match steps {
                MemView::Whole => return Ok(()),
                MemView::Member(name, rest) => {
                    write!(f, ":{name}")?;
                    steps = rest;
                }
                MemView::Index(i, rest) => {
                    write!(f, ":{i}")?;
                    steps = rest;
                }
            }
        }
    }
}

impl PartialEq for MemView {
    ghost eq = { λ v w. same_steps (steps_of v) (steps_of w) };

    ghost laws = { partial_equiv_from_equiv views_equiv };

    fn eq(&self, other: &MemView) -> bool {
        let (mut own, mut others) = (self, other);
        loop {
            match (own, others) {
                (MemView::Whole, MemView::Whole) => return true,
                (MemView::Member(a, rest), MemView::Member(b, next)) => {
                    if a.as_str() != b.as_str() {
                        return false;
                    }
                    own = rest;
                    others = next;
                }
                (MemView::Index(i, rest), MemView::Index(j, next)) => {
                    if *i != *j {
                        return false;
                    }
                    own = rest;
                    others = next;
                }
                _ => return false,
            }
        }
    }
}

impl Eq for MemView {
    ghost laws = { views_equiv };
}
