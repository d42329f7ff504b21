//! Types, and how large values of them are.

ghost use Rattle.std.specs.Prelude.{◌≡◌, ◌<◌, ◌↔◌, IfOk, IsTrue};
ghost use Rattle.wgsl_rules.specs.View.{type_view};
ghost use Rattle.wgsl_source.specs.Names.{scalar_type};
ghost use Rattle.wgsl_eval.specs.Reasons.{has_floats};

use crate::answer::Size;
use crate::types::is_float;
use std::alloc::{AllocError, Global};
use wgsl_rules::Type;
use wgsl_source::Scalar;

/// The most types in a type, those of members included.
const NODES: usize = 4096;

/// A type, how many types are in it, and how large a value of it is.
#[derive(Drop)]
pub(crate) struct SizedType {
    pub(crate) ty: Type,
    pub(crate) nodes: usize,
    pub(crate) size: Size,
    /// Whether floats are in a value of it.
    pub(crate) has_float: bool,
    /// Whether each align attribute in it is a multiple of the alignment of its member's type.
    pub(crate) is_aligned: bool,
    ghost floats: { has_float ≡ has_floats (type_view ty) },
}

impl SizedType {
    pub(crate) fn scalar(scalar: Scalar) -> SizedType
        ensures { type_view result.ty ≡ scalar_type scalar }
    {
        let has_float = is_float(scalar);
        SizedType {
            ty: scalar.ty(),
            nodes: 1,
            size: Size::ONE,
            has_float,
            is_aligned: true,
        }
    }

    pub(crate) fn copy(&self, alloc: Global) -> Result<SizedType, AllocError>
        ensures ty { IfOk result (λ t. type_view t.ty ≡ type_view self.now.ty) }
        ensures size { IfOk result (λ t. t.size ≡ self.now.size) }
    {
        Ok(SizedType {
            ty: self.ty.clone(alloc)?,
            nodes: self.nodes,
            size: self.size,
            has_float: self.has_float,
            is_aligned: self.is_aligned,
        })
    }

    pub(crate) fn is_too_large(&self) -> bool
        ensures { IsTrue result ↔ NODES < self.now.nodes }
    {
        self.nodes > NODES
    }
}
