//! The bytes of values in host-shared memory (WGSL: internal layout of values).

ghost use Rattle.std.specs.Prelude.{◌≡◌, IfOk, IfErr, IfSome, option_map};
ghost use Rattle.wgsl_rules.specs.Layout.{layout_of};
ghost use Rattle.wgsl_rules.specs.Values.{IsWellFormed};
ghost use Rattle.wgsl_rules.specs.View.{type_view};
ghost use Rattle.wgsl_layout.specs.Buffers.{buffer, buffer_of, without_padding, IsReadOf};

use crate::reader::read_buffer;
use crate::writer::write_buffer;
use std::alloc::Global;
use wgsl_rules::{Ty, Type};
use wgsl_scalar::Error;
use wgsl_values::Instance;

/// What is laid out in host-shared memory.
pub trait Buffers: Sized + Ty {
    /// The bytes of the value, as many as its layout has: each number little-endian at its place, an
    /// atomic as its content, every other byte 0 (WGSL: internal layout of values). A runtime-sized array
    /// takes the stride of its elements once for each of them, the last one too.
    ///
    /// `None` exactly where the type has no layout ([`Type::has_layout`]), and of a deferred value. The only
    /// error is `Memory`. The condition: the value is well-formed.
    /// It calls itself for each level of the value: keep to 4,095 within a stack of 8 MiB.
    fn to_buffer(&self, alloc: Global) -> Result<Option<Vec<u8>>, Error>
        requires { IsWellFormed (Self.value_of self.now) }
        ensures bytes { IfOk result (λ bytes. option_map (λ b. b.items) bytes ≡ buffer_of (Self.value_of self.now)) }
        ensures memory { IfErr result (λ e. e ≡ Error.Memory) };

    /// The value of the type that the bytes lay out, from the first byte on: each number little-endian at
    /// its place (WGSL: internal layout of values). A runtime-sized array has as many elements as find room
    /// (WGSL: buffer binding determines runtime-sized array element count). Padding is not looked at, and
    /// bytes past the end of the value are ignored; the bytes of what was read are those that it was read
    /// from, with zeros for padding.
    ///
    /// `None` exactly where the type has no layout ([`Type::has_layout`]), or there are fewer bytes than a
    /// value of the type takes: the size of a type of known size, the tail padding of a structure included;
    /// else as far as a second element of the runtime-sized array would begin. The only error is `Memory`.
    /// It calls itself for each level of the type: keep to 4,095 within a stack of 8 MiB.
    fn from_buffer(alloc: Global, bytes: &[u8], ty: &Type) -> Result<Option<Self>, Error>
        // The one value that is laid out in the bytes, or none where none is.
        ensures value { IfOk result (λ v. IsReadOf bytes.now (type_view ty.now) (option_map Self.value_of v)) }
        // Writing it again gives the bytes it was read from, with zeros for padding.
        ensures again { IfOk result (λ v. IfSome v (λ x. buffer (Self.value_of x) ≡ without_padding bytes.now (layout_of (Self.value_of x)))) }
        ensures memory { IfErr result (λ e. e ≡ Error.Memory) };
}

impl Buffers for Instance {
    fn to_buffer(&self, alloc: Global) -> Result<Option<Vec<u8>>, Error> {
        match self {
            Instance::Deferred(_) => Ok(None),
            Instance::Literal(_) | Instance::Struct(_) => Ok(write_buffer(alloc, self)?),
            Instance::Array(_) | Instance::Vec(_) => Ok(write_buffer(alloc, self)?),
            Instance::Mat(_) | Instance::Atomic(_) => Ok(write_buffer(alloc, self)?),
            Instance::Ptr(_) | Instance::Ref(_) => Ok(write_buffer(alloc, self)?),
        }
    }

    fn from_buffer(alloc: Global, bytes: &[u8], ty: &Type) -> Result<Option<Self>, Error> {
        Ok(read_buffer(alloc, bytes, ty)?)
    }
}
