//! What a job asks of a buffer, in whichever way its numbers are reached.

ghost use Rattle.std.specs.Prelude.{◌≡◌, List, IfOk};
ghost use Rattle.wgsl_rules.specs.Values.{Val};

use crate::forms::Member;
use wgsl_scalar::{Error, LiteralInstance};
use wgsl_store::Store;

/// A buffer in a cell of a store. Each call that takes the store asks as a condition that it has the part. What is not
/// there is refused, in each way with an error of its own.
pub(crate) trait Buffer {
    /// What leads to a part.
    type Part: Drop;

    /// The store with these cells has the part.
    ghost HasPart: { Self → List Val → Self.Part → Type 0 };

    ghost whole: { Self → Self.Part };

    fn whole(&self) -> &Self::Part
        ensures { result.now ≡ whole self.now };

    /// The element or component of the index.
    fn index(&self, store: &Store, of: &Self::Part, i: usize) -> Result<Self::Part, Error>
        requires { HasPart self.now store.now of.now }
        ensures { IfOk result (HasPart self.now store.now) };

    fn member(&self, store: &Store, of: &Self::Part, member: Member) -> Result<Self::Part, Error>
        requires { HasPart self.now store.now of.now }
        ensures { IfOk result (HasPart self.now store.now) };

    /// The number of a scalar or an atomic. A part that is neither is refused with `NotRead`.
    fn load(&self, store: &Store, part: &Self::Part) -> Result<LiteralInstance, Error>
        requires { HasPart self.now store.now part.now };

    /// Puts the number into a scalar or an atomic. Each part that the store had it has still, of this buffer and others.
    fn put(
        &self,
        store: &mut Store,
        part: &Self::Part,
        number: LiteralInstance,
    ) -> Result<(), Error>
        requires { HasPart self.now store.old part.now }
        ensures { (b : Self) (p : Self.Part) → HasPart b store.old p → HasPart b store.new p };
}
