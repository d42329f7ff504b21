//! The texts of references and pointers with the values that they lead to.

ghost use Rattle.std.specs.Prelude.{string_bytes};
ghost use Rattle.wgsl_scalar.specs.Answers.{Gives};
ghost use Rattle.wgsl_store.specs.Memory.{HoldsValue, held};
ghost use Rattle.wgsl_store.specs.Shown.{shown};

use crate::references::References;
use crate::store::Store;
use std::alloc::Global;
use wgsl_rules::Ty;
use wgsl_scalar::Error;
use wgsl_values::{PtrInstance, RefInstance};

/// What is shown with the value that it leads to: references and pointers.
pub trait Show: Ty {
    /// The text of the type, and behind it in round brackets the text of the value that is read, as
    /// `ref<storage, i32, read_write>(5i)`. Refused with `NotRead` without read access. The
    /// condition: the store keeps the reference.
    /// It calls itself for each level of a value or type: keep to 4,095 within a stack of 8 MiB.
    fn show(&self, alloc: Global, store: &Store) -> Result<String, Error>
        requires { HoldsValue store.now (Self.value_of self.now) }
        ensures { Gives string_bytes result (shown (held store.now) (Self.value_of self.now)) };
}

impl Show for RefInstance {
    fn show(&self, alloc: Global, store: &Store) -> Result<String, Error> {
        let value = self.read(alloc, store)?;
        format!(in alloc; "{self}({value})").map_err(Error::from)
    }
}

impl Show for PtrInstance {
    fn show(&self, alloc: Global, store: &Store) -> Result<String, Error> {
        let value = self.ptr().read(alloc, store)?;
        format!(in alloc; "{self}({value})").map_err(Error::from)
    }
}
