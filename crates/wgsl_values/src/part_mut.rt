//! Parts of values that are lent to be written (WGSL: memory views; assignment statement).

ghost use Rattle.std.specs.Borrow.{Lends, sem, RestsIfErr};
ghost use Rattle.std.specs.Prelude.{◌≡◌, IfOk, []};
ghost use Rattle.wgsl_rules.specs.Paths.{viewed, put_viewed};
ghost use Rattle.wgsl_rules.specs.Values.{IsWellFormed, type_of, Val};
ghost use Rattle.wgsl_scalar.specs.Answers.{Gives};
ghost use Rattle.wgsl_values.specs.View.{value_of, steps_of};
ghost use Rattle.wgsl_values.specs.Written.{IsAsSound, KeepsWhole};
ghost use Rattle.wgsl_values.specs.contracts.instance.Instance.{the_row};
ghost use Rattle.wgsl_values.specs.contracts.part_mut.PartMut.{the_row as part_row};
ghost use mir.Syntax.{named};

use crate::instance::Instance;
use crate::view::MemView;
use std::alloc::Global;
use std::ops::{Deref, DerefMut};
use wgsl_scalar::{Error, LiteralInstance};

/// What can stand in the place of a part of a value: an [`Instance`].
pub trait Placed {
    /// The value that it puts there.
    ghost placed: { Self → Val };

    /// Puts it in the place of the part that the view leads to; where the view leads nowhere,
    /// nothing is changed.
    fn place(self, whole: &mut Instance, view: &MemView)
        ensures { value_of whole.new ≡ put_viewed (steps_of view.now) (placed self) (value_of whole.old) };
}

impl Placed for Instance {
    ghost placed = { value_of };

    fn place(self, whole: &mut Instance, view: &MemView) {
        whole.put(view, self);
    }
}

/// A part of a value, lent to be written: an [`Instance`] by `Deref` and `DerefMut`. It is out of
/// the value meanwhile, and is put back when this is let go.
///
/// One that is forgotten (`mem::forget`) puts nothing back: `false` stays in the place of the part,
/// and the part is lost.
#[derive(Debug, PartialEq, Eq)]
pub struct PartMut<'a, P: Placed> {
    whole: &'a mut Instance,
    view: &'a MemView,
    part: P,
}

impl<P: Placed + Drop> Drop for PartMut<'_, P> {
    fn drop(self)
        ensures { value_of self.exit.0.now ≡ put_viewed (steps_of self.entry.view.now) (P.placed self.entry.part) (value_of self.entry.whole.now) }
    {
        let PartMut { whole, view, part } = self;
        part.place(whole, view);
    }
}

impl<P: Placed> Deref for PartMut<'_, P> {
    type Target = P;

    ghost deref_gives = { λ m v. v ≡ m.part };

    fn deref(&self) -> &P
        ensures { result.now ≡ self.now.part }
    {
        &self.part
    }
}

impl<P: Placed> DerefMut for PartMut<'_, P> {
    ghost deref_mut_gives = { λ m v. v ≡ m.part };

    fn deref_mut(&mut self) -> &mut P
        ensures* writes_back { sem 𝓛 (Lends (part_row (record { mir = named 1; lft = [] }) P.row) P.row self.entry result (λ w. record self.old { part = w })) }
        ensures value { result.now ≡ self.old.part }
    {
        &mut self.part
    }
}

impl Instance {
    /// The part that the view leads to, to be written (WGSL: memory views). When what is answered
    /// is let go, the whole is the old one with that part alone replaced; it is well-formed again
    /// where what was written is storable and of the part's type.
    ///
    /// The first step that leads nowhere is refused as by [`Instance::view`], and nothing is then
    /// changed. What is answered has to be let go: where it is forgotten, `false` stays in the place
    /// of the part. The condition: the value is well-formed.
    /// It calls itself for each step that the value has, and so does letting the part go: keep to 2,047 within a stack of 8 MiB.
    pub fn view_mut<'a>(
        &'a mut self,
        alloc: Global,
        view: &'a MemView,
    ) -> Result<PartMut<'a, Instance>, Error>
        requires { IsWellFormed (value_of self.old) }
        ensures* unchanged_at_err { sem 𝓛 (RestsIfErr the_row self.entry (λ m. m.whole.ghost_name) result (λ n. n ≡ self.old)) }
        ensures value { Gives (λ m. value_of m.part) result (viewed (steps_of view.now) (value_of self.old)) }
        ensures same_reference { IfOk result (λ m. m.whole.ghost_name ≡ self.entry.ghost_name) }
        ensures same_view { IfOk result (λ m. m.view.now ≡ view.now) }
        ensures rest { IfOk result (λ m. (w : Val) → put_viewed (steps_of view.now) w (value_of m.whole.now) ≡ put_viewed (steps_of view.now) w (value_of self.old)) }
        ensures kept { IfOk result (λ m. KeepsWhole (λ w. put_viewed (steps_of m.view.now) w (value_of m.whole.now)) (type_of (value_of m.part)) (value_of self.old)) }
        ensures sound { IfOk result (λ m. IsAsSound (value_of m.part) (value_of self.old)) }
    {
        self.view(alloc, view)?;
        let hole = Instance::Literal(LiteralInstance::Bool(false));
        match self.put(view, hole) {
            Some(part) => Ok(PartMut {
                whole: self,
                view,
                part,
            }),
            None => unreachable!(),
        }
    }
}
