//! The parts that views lead to (WGSL: memory views).

ghost use Rattle.std.specs.Prelude.{◌≡◌, IfOk, option_map, Err, IsSomeAnd, None};
ghost use Rattle.std.specs.Result.{result_ok};
ghost use Rattle.wgsl_rules.specs.Paths.{member_named, viewed};
ghost use Rattle.wgsl_rules.specs.Values.{IsWellFormed};
ghost use Rattle.wgsl_scalar.specs.Answers.{Gives, refusal_of};
ghost use Rattle.wgsl_values.specs.View.{value_of, steps_of};

use crate::instance::Instance;
use crate::lists::nth;
use crate::view::MemView;
use std::alloc::{AllocError, Global};
use wgsl_rules::Ty;
use wgsl_scalar::Error;

impl Instance {
    fn member(&self, name: &str) -> Option<&Instance>
        ensures { option_map (λ v. value_of v.now) result ≡ option_map (λ p. p.1) (member_named name.now (value_of self.now)) }
    {
        self.as_struct()?.member(name)
    }

    // The part that the view leads to; `None` where it leads nowhere.
    fn part_viewed(&self, view: &MemView) -> Option<&Instance>
        ensures { option_map (λ v. value_of v.now) result ≡ result_ok (viewed (steps_of view.now) (value_of self.now)) }
    {
        match view {
            MemView::Whole => Some(self),
            MemView::Member(name, rest) => self.member(name.as_str())?.part_viewed(rest),
            MemView::Index(i, rest) => nth(self.indexed()?, *i)?.part_viewed(rest),
        }
    }

    // Why the first step that leads nowhere does. The conditions: there is one, and the value is
    // well-formed.
    fn refusal(&self, alloc: Global, view: &MemView) -> Result<Error, AllocError>
        requires well_formed { IsWellFormed (value_of self.now) }
        requires nowhere { result_ok (viewed (steps_of view.now) (value_of self.now)) ≡ None }
        ensures { IfOk result (λ e. IsSomeAnd (refusal_of e) (λ f. viewed (steps_of view.now) (value_of self.now) ≡ Err f)) }
    {
        match view {
            MemView::Whole => unreachable!(),
            MemView::Member(name, rest) => match self.member(name.as_str()) {
                Some(member) => member.refusal(alloc, rest),
                None => Ok(Error::Component(self.ty(alloc)?, name.clone()?)),
            },
            MemView::Index(i, rest) => match self.indexed() {
                Some(parts) => match nth(parts, *i) {
                    Some(part) => part.refusal(alloc, rest),
                    None => Ok(Error::OutOfBounds(*i, self.ty(alloc)?, parts.len())),
                },
                None => Ok(Error::NotIndexable(self.ty(alloc)?)),
            },
        }
    }

    /// The part that the view leads to (WGSL: memory views).
    ///
    /// The first step that leads nowhere is refused, with the type of the value that it was taken
    /// from: `Component` for a name, `NotIndexable` or `OutOfBounds` for an index. Memory is taken
    /// for the type and the name of a refusal alone. The condition: the value is well-formed.
    /// It calls itself for each step that the value has: keep to 4,095 within a stack of 8 MiB.
    pub fn view(&self, alloc: Global, view: &MemView) -> Result<&Instance, Error>
        requires { IsWellFormed (value_of self.now) }
        ensures { Gives (λ v. value_of v.now) result (viewed (steps_of view.now) (value_of self.now)) }
    {
        match self.part_viewed(view) {
            Some(part) => Ok(part),
            None => Err(self.refusal(alloc, view)?),
        }
    }
}
