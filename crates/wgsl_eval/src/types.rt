//! The types that names and template lists stand for (WGSL: predeclared types and type-generators).

ghost use Rattle.std.specs.Prelude.{◌≡◌, ◌||◌, IfOk};
ghost use Rattle.std.specs.Option.{option_map};
ghost use Rattle.wgsl_rules.specs.View.{struct_view, type_view};
ghost use Rattle.wgsl_source.specs.Names.{scalar_type};
ghost use Rattle.wgsl_eval.specs.Reasons.{has_floats};
ghost use Rattle.wgsl_eval.specs.TypeNames.{generated_type, predeclared_type};

use crate::answer::Size;
use crate::sized::SizedType;
use std::alloc::{AllocError, Global};
use wgsl_rules::{StructType, Type};
use wgsl_source::{Generator, Predeclared, Scalar};

/// The type that the language gives a name; `None` of a name that needs a template list.
pub(crate) fn predeclared(
    alloc: Global,
    named: Predeclared,
) -> Result<Option<SizedType>, AllocError>
    ensures { IfOk result (λ o. option_map (λ t. type_view t.ty) o ≡ predeclared_type named) }
{
    match named {
        Predeclared::Scalar(scalar) => Ok(Some(SizedType::scalar(scalar))),
        Predeclared::Vec(n, scalar) => {
            let inner = SizedType::scalar(scalar);
            Ok(Some(generated(alloc, Generator::Vec(n), inner, None)?))
        }
        Predeclared::Mat(columns, rows, scalar) => {
            let inner = SizedType::scalar(scalar);
            let generator = Generator::Mat(columns, rows);
            Ok(Some(generated(alloc, generator, inner, None)?))
        }
        Predeclared::Generator(_) => Ok(None),
    }
}

/// The type of the generator of the inner type, with the count that is given.
pub(crate) fn generated(
    alloc: Global,
    generator: Generator,
    inner: SizedType,
    count: Option<u32>,
) -> Result<SizedType, AllocError>
    ensures { IfOk result (λ t. type_view t.ty ≡ generated_type generator (type_view inner.ty) count) }
{
    let SizedType {
        ty,
        nodes,
        size,
        has_float,
        is_aligned,
    } = inner;
    let inner = Box::new(alloc, ty)?;
    let (ty, size) = match generator {
        Generator::Vec(n) => (Type::Vec(n, inner), size.of_equal(n as usize)),
        Generator::Mat(columns, rows) => {
            let size = size.of_equal(rows as usize).of_equal(columns as usize);
            (Type::Mat(columns, rows, inner), size)
        }
        Generator::Atomic => (Type::Atomic(inner), size.of_equal(1)),
        Generator::Array => {
            let count = count.map(|count| count as usize);
            (Type::Array(inner, count), size.of_equal(count.unwrap_or(1)))
        }
    };
    Ok(SizedType {
        ty,
        nodes: nodes.saturating_add(1),
        size,
        has_float,
        is_aligned,
    })
}

/// What the types of members are together: how many types, how large values of them are, whether
/// floats are in one, and whether each align attribute is a multiple of the alignment of its type.
#[derive(Clone, Copy)]
pub(crate) struct Together {
    pub(crate) nodes: usize,
    pub(crate) size: Size,
    pub(crate) has_float: bool,
    pub(crate) is_aligned: bool,
}

impl Together {
    pub(crate) const NONE: Together = Together {
        nodes: 0,
        size: Size::ONE,
        has_float: false,
        is_aligned: true,
    };

    /// With those of one more.
    pub(crate) fn with(self, other: Together) -> Together
        ensures { result.has_float ≡ (self.has_float || other.has_float) }
    {
        Together {
            nodes: self.nodes.saturating_add(other.nodes),
            size: self.size.with(other.size),
            has_float: self.has_float || other.has_float,
            is_aligned: self.is_aligned && other.is_aligned,
        }
    }
}

/// A structure type of members whose types are these together.
pub(crate) fn structure(
    alloc: Global,
    ty: StructType,
    members: Together,
) -> Result<SizedType, AllocError>
    requires { members.has_float ≡ has_floats (struct_view ty) }
    ensures { IfOk result (λ t. type_view t.ty ≡ struct_view ty) }
{
    let nodes = members.nodes.saturating_add(1);
    Ok(SizedType {
        ty: Type::Struct(Box::new(alloc, ty)?),
        nodes,
        size: Size {
            parts: members.size.parts.saturating_add(nodes),
            depth: members.size.depth,
        },
        has_float: members.has_float,
        is_aligned: members.is_aligned,
    })
}

/// Whether it is one of floats.
pub(crate) fn is_float(scalar: Scalar) -> bool
    ensures { result ≡ has_floats (scalar_type scalar) }
{
    matches!(scalar, Scalar::F32 | Scalar::F16 | Scalar::F64)
}
