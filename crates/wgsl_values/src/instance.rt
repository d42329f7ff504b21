//! Values of every kind (WGSL: types; memory views).

ghost use Rattle.std.specs.Cmp.{partial_equiv_from_equiv};
ghost use Rattle.std.specs.Fmt.{WritesOnOk};
ghost use Rattle.std.specs.Prelude.{◌≡◌, ◌↔◌, IfOk, IsTrue, option_map, is_some, Some};
ghost use Rattle.wgsl_rules.specs.Conversion.{rank};
ghost use Rattle.wgsl_rules.specs.Converted.{kept};
ghost use Rattle.wgsl_rules.specs.Paths.{parts};
ghost use Rattle.wgsl_rules.specs.Values.{IsLiteral, IsStorable, IsVector, IsWellFormed, type_of};
ghost use Rattle.wgsl_rules.specs.View.{type_view};
ghost use Rattle.wgsl_scalar.specs.Literals.{literal_of};
ghost use Rattle.wgsl_values.specs.Equal.{values_equiv};
ghost use Rattle.wgsl_values.specs.Parts.{as_record, as_vector, indexed_parts};
ghost use Rattle.wgsl_values.specs.Same.{same_value};
ghost use Rattle.wgsl_values.specs.Texts.{text_of_value};
ghost use Rattle.wgsl_values.specs.View.{value_of, vals_view, struct_view, vec_view};

mod from;
mod viewed;
mod written;

use crate::array::{ArrayInstance, write_array};
use crate::atomic::AtomicInstance;
use crate::lists::have_types;
use crate::matrix::{MatInstance, write_mat};
use crate::pointer::{PtrInstance, RefInstance};
use crate::structure::{StructInstance, write_struct};
use crate::vector::{VecInstance, write_vec};
use std::alloc::{AllocError, Global};
use std::fmt;
use std::fmt::Display;
use wgsl_rules::{Convert, Ty, Type};
use wgsl_scalar::LiteralInstance;

/// A value.
///
/// Members, components, columns and what an atomic holds are values again. `Deferred` stands for a
/// value of a type that is not known yet; it is no part of another value.
///
/// Values may stand in values to any depth. What goes through a value (`clone`, `==`, its text, its
/// bytes, tests, conversions, dropping it) calls itself for each value inside another, so the stack of
/// the process limits the depth: 4,095 levels are tried with 8 MiB, of structures that are each a member
/// of the next and of arrays, and 2,047 steps of a view that is written through. Much deeper the process
/// ends by a signal, so whoever takes values from elsewhere has to count their levels first.
#[cycle(values)]
#[derive(Debug, Drop)]
pub enum Instance {
    Literal(LiteralInstance),
    Struct(StructInstance),
    Array(ArrayInstance),
    Vec(VecInstance),
    Mat(MatInstance),
    Ptr(PtrInstance),
    Ref(RefInstance),
    Atomic(AtomicInstance),
    Deferred(Type),
}

impl Instance {
    /// Whether it is well-formed: storable, or deferred.
    /// It calls itself for each level of the value: keep to 4,095 within a stack of 8 MiB.
    pub fn is_well_formed(&self) -> bool
        ensures { IsTrue result ↔ IsWellFormed (value_of self.now) }
    {
        match self {
            Instance::Deferred(_) => true,
            _ => self.is_storable(),
        }
    }

    /// Whether a cell may hold it: it is well-formed in each part, and no part is deferred (WGSL:
    /// storable types). Takes time in proportion to its parts and the types in them.
    /// It calls itself for each level of the value: keep to 4,095 within a stack of 8 MiB.
    #[cycle(storable)]
    pub fn is_storable(&self) -> bool
        ensures { IsTrue result ↔ IsStorable (value_of self.now) }
    {
        match self {
            Instance::Literal(literal) => {
                // `literal_ty` ensures that the number is one of its kind.
                let _ty = literal.literal_ty();
                true
            }
            Instance::Ptr(_) | Instance::Ref(_) => true,
            Instance::Struct(s) => have_types(&s.members, &s.ty.get().members),
            Instance::Array(a) => ArrayInstance::can_make(&a.components, a.runtime_sized),
            Instance::Vec(v) => VecInstance::can_make(&v.components),
            Instance::Mat(m) => MatInstance::can_make(&m.columns),
            Instance::Atomic(a) => AtomicInstance::can_make(&a.content),
            Instance::Deferred(_) => false,
        }
    }

    pub(crate) fn is_literal(&self) -> bool
        ensures { IsTrue result ↔ IsLiteral (value_of self.now) }
    {
        matches!(self, Instance::Literal(_))
    }

    pub(crate) fn is_vector(&self) -> bool
        ensures { IsTrue result ↔ IsVector (value_of self.now) }
    {
        matches!(self, Instance::Vec(_))
    }

    /// The structure that this is (WGSL: structure types).
    pub(crate) fn as_struct(&self) -> Option<&StructInstance>
        ensures { option_map (λ s. struct_view s.now) result ≡ as_record (value_of self.now) }
    {
        match self {
            Instance::Struct(s) => Some(s),
            _ => None,
        }
    }

    /// The vector that this is (WGSL: vector types).
    pub(crate) fn as_vec(&self) -> Option<&VecInstance>
        ensures { option_map (λ v. vec_view v.now) result ≡ as_vector (value_of self.now) }
    {
        match self {
            Instance::Vec(v) => Some(v),
            _ => None,
        }
    }

    /// The elements, components or columns that an index leads to (WGSL: array access expression;
    /// vector access expression; matrix access expression).
    pub(crate) fn indexed(&self) -> Option<&[Instance]>
        ensures { option_map (λ vs. vals_view vs.now) result ≡ indexed_parts (value_of self.now) }
    {
        match self {
            Instance::Array(a) => Some(&a.components),
            Instance::Vec(v) => Some(&v.components),
            Instance::Mat(m) => Some(&m.columns),
            _ => None,
        }
    }

    /// The members, elements, components or columns, in their order: other values have no parts.
    pub fn parts(&self) -> &[Instance]
        ensures { vals_view result.now ≡ parts (value_of self.now) }
    {
        match self {
            Instance::Struct(s) => &s.members,
            Instance::Array(a) => &a.components,
            Instance::Vec(v) => &v.components,
            Instance::Mat(m) => &m.columns,
            Instance::Literal(_) | Instance::Ptr(_) | Instance::Ref(_) => &[],
            Instance::Atomic(_) | Instance::Deferred(_) => &[],
        }
    }

    /// The literal. The condition: it is one.
    pub fn unwrap_literal(self) -> LiteralInstance
        requires { IsLiteral (value_of self) }
        ensures { literal_of result ≡ value_of self }
    {
        match self {
            Instance::Literal(literal) => literal,
            _ => unreachable!(),
        }
    }

    /// The literal. The condition: it is one.
    pub fn unwrap_literal_ref(&self) -> &LiteralInstance
        requires { IsLiteral (value_of self.now) }
        ensures { literal_of result.now ≡ value_of self.now }
    {
        match self {
            Instance::Literal(literal) => literal,
            _ => unreachable!(),
        }
    }

    /// The vector. The condition: it is one.
    pub fn unwrap_vec(self) -> VecInstance
        requires { IsVector (value_of self) }
        ensures { vec_view result ≡ value_of self }
    {
        match self {
            Instance::Vec(v) => v,
            _ => unreachable!(),
        }
    }

    /// The vector. The condition: it is one.
    pub fn unwrap_vec_ref(&self) -> &VecInstance
        requires { IsVector (value_of self.now) }
        ensures { vec_view result.now ≡ value_of self.now }
    {
        match self {
            Instance::Vec(v) => v,
            _ => unreachable!(),
        }
    }

    /// A copy of the value, in memory of its own, but for structure types that values share already: it shares them.
    /// It calls itself for each level of the value: keep to 4,095 within a stack of 8 MiB.
    #[cycle(clone)]
    pub fn clone(&self, alloc: Global) -> Result<Instance, AllocError>
        ensures { IfOk result (λ v. value_of v ≡ value_of self.now) }
    {
        match self {
            Instance::Literal(literal) => Ok(Instance::Literal(*literal)),
            Instance::Struct(s) => Ok(Instance::Struct(s.clone(alloc)?)),
            Instance::Array(a) => Ok(Instance::Array(a.clone(alloc)?)),
            Instance::Vec(v) => Ok(Instance::Vec(v.clone(alloc)?)),
            Instance::Mat(m) => Ok(Instance::Mat(m.clone(alloc)?)),
            Instance::Ptr(p) => Ok(Instance::Ptr(p.clone(alloc)?)),
            Instance::Ref(r) => Ok(Instance::Ref(r.clone(alloc)?)),
            Instance::Atomic(a) => Ok(Instance::Atomic(a.clone(alloc)?)),
            Instance::Deferred(ty) => Ok(Instance::Deferred(ty.clone(alloc)?)),
        }
    }

    // The type of a literal, which takes no memory.
    pub(crate) fn scalar_ty(&self) -> Type
        requires { IsLiteral (value_of self.now) }
        ensures { type_view result ≡ type_of (value_of self.now) }
    {
        match self {
            Instance::Literal(literal) => literal.literal_ty(),
            Instance::Struct(_) | Instance::Array(_) | Instance::Vec(_) => unreachable!(),
            Instance::Mat(_) | Instance::Ptr(_) | Instance::Ref(_) => unreachable!(),
            Instance::Atomic(_) | Instance::Deferred(_) => unreachable!(),
        }
    }

    /// Whether the two have one type (WGSL: types). It takes no memory. The condition: both are
    /// well-formed.
    /// It calls itself for each level of the values and types: keep to 4,095 within a stack of 8 MiB.
    #[cycle(same_type)]
    pub fn same_type(&self, other: &Instance) -> bool
        requires own { IsWellFormed (value_of self.now) }
        requires others { IsWellFormed (value_of other.now) }
        ensures { IsTrue result ↔ (type_of (value_of self.now) ≡ type_of (value_of other.now)) }
    {
        if let Instance::Deferred(ty) = other {
            return self.has_ty(ty);
        }
        match self {
            Instance::Literal(literal) => other.has_ty(&literal.literal_ty()),
            Instance::Struct(a) => match other {
                Instance::Struct(b) => a.ty.is_same(&b.ty),
                _ => false,
            },
            Instance::Array(a) => match other {
                Instance::Array(b) => a.same_type(b),
                _ => false,
            },
            Instance::Vec(a) => match other {
                Instance::Vec(b) => a.same_type(b),
                _ => false,
            },
            Instance::Mat(a) => match other {
                Instance::Mat(b) => a.same_type(b),
                _ => false,
            },
            Instance::Ptr(a) => match other {
                Instance::Ptr(b) => a.ptr.names(b.ptr.space, &b.ptr.ty, b.ptr.access),
                _ => false,
            },
            Instance::Ref(a) => match other {
                Instance::Ref(b) => a.names(b.space, &b.ty, b.access),
                _ => false,
            },
            Instance::Atomic(a) => match other {
                Instance::Atomic(b) => a.content.scalar_ty() == b.content.scalar_ty(),
                _ => false,
            },
            Instance::Deferred(ty) => other.has_ty(ty),
        }
    }

    // The value in its own type alone.
    fn kept(&self, alloc: Global, ty: &Type) -> Result<Option<Instance>, AllocError>
        requires { IsWellFormed (value_of self.now) }
        ensures { IfOk result (λ o. option_map value_of o ≡ kept (value_of self.now) (type_view ty.now)) }
    {
        if self.has_ty(ty) {
            Ok(Some(self.clone(alloc)?))
        } else {
            Ok(None)
        }
    }

    /// Whether the conversion rank of its type to the other exists, as
    /// [`wgsl_rules::conversion_rank`] finds it, without the memory that making its type takes
    /// (WGSL: conversion rank). The condition: the value is well-formed.
    /// It calls itself for each level of a value or type: keep to 4,095 within a stack of 8 MiB.
    #[cycle(is_convertible)]
    pub fn is_convertible_to(&self, ty: &Type) -> bool
        requires { IsWellFormed (value_of self.now) }
        ensures { result ≡ is_some (rank (type_of (value_of self.now)) (type_view ty.now)) }
    {
        match self {
            Instance::Literal(literal) => literal.literal_ty().is_convertible_to(ty),
            Instance::Struct(s) => s.ty.get().is_convertible_to(ty),
            Instance::Array(a) => a.is_convertible_to(ty),
            Instance::Vec(v) => v.is_convertible_to(ty),
            Instance::Mat(m) => m.is_convertible_to(ty),
            Instance::Ptr(p) => p.is_convertible_to(ty),
            Instance::Ref(r) => r.is_convertible_to(ty),
            Instance::Atomic(a) => a.has_ty(ty),
            Instance::Deferred(own) => own.is_convertible_to(ty),
        }
    }
}

/// The type of `Deferred(t)` is t.
impl Ty for Instance {
    ghost use Rattle.wgsl_values.specs.View.{value_of};

    ghost value_of = { value_of };

    #[cycle(ty)]
    fn ty(&self, alloc: Global) -> Result<Type, AllocError> {
        match self {
            Instance::Literal(literal) => Ok(literal.literal_ty()),
            Instance::Struct(s) => s.ty(alloc),
            Instance::Array(a) => a.ty(alloc),
            Instance::Vec(v) => v.ty(alloc),
            Instance::Mat(m) => m.ty(alloc),
            Instance::Ptr(p) => p.ty(alloc),
            Instance::Ref(r) => r.ty(alloc),
            Instance::Atomic(a) => a.ty(alloc),
            Instance::Deferred(ty) => ty.clone(alloc),
        }
    }

    fn inner_ty(&self, alloc: Global) -> Result<Type, AllocError> {
        match self {
            Instance::Literal(literal) => Ok(literal.literal_ty()),
            Instance::Struct(s) => s.inner_ty(alloc),
            Instance::Array(a) => a.inner_ty(alloc),
            Instance::Vec(v) => v.inner_ty(alloc),
            Instance::Mat(m) => m.inner_ty(alloc),
            Instance::Ptr(p) => p.inner_ty(alloc),
            Instance::Ref(r) => r.inner_ty(alloc),
            Instance::Atomic(a) => a.inner_ty(alloc),
            Instance::Deferred(ty) => ty.inner_ty(alloc),
        }
    }

    #[cycle(has_ty)]
    fn has_ty(&self, ty: &Type) -> bool {
        match self {
            Instance::Literal(literal) => literal.has_ty(ty),
            Instance::Struct(s) => s.has_ty(ty),
            Instance::Array(a) => a.has_ty(ty),
            Instance::Vec(v) => v.has_ty(ty),
            Instance::Mat(m) => m.has_ty(ty),
            Instance::Ptr(p) => p.has_ty(ty),
            Instance::Ref(r) => r.has_ty(ty),
            Instance::Atomic(a) => a.has_ty(ty),
            Instance::Deferred(own) => own.has_ty(ty),
        }
    }
}

/// A pointer, a reference, an atomic or a deferred value converts to its own type alone, and has
/// nothing inside that converts, nor has a structure. A reference is not loaded.
impl Convert for Instance {
    ghost use Rattle.wgsl_rules.specs.Converted.{converted, inner_converted};
    ghost use Rattle.wgsl_rules.proofs.lemmas.Converted.{
      converted-type,
      converted-well_formed,
      converted-own,
      inner_converted-well_formed,
    };
    ghost use Rattle.wgsl_values.specs.View.{value_of};

    ghost converted = { converted };

    ghost converted_inner = { inner_converted };

    ghost gives_type = { λ x. converted-type (value_of x) };

    ghost gives_well_formed = { λ x. converted-well_formed (value_of x) };

    ghost inner_gives_well_formed = { λ x. inner_converted-well_formed (value_of x) };

    ghost keeps_own = { λ x. converted-own (value_of x) };

    #[cycle(convert)]
    fn convert_to(&self, alloc: Global, ty: &Type) -> Result<Option<Instance>, AllocError> {
        match self {
            Instance::Literal(literal) => Ok(literal.to_kind(ty).map(Instance::Literal)),
            Instance::Struct(s) => Ok(s.convert_to(alloc, ty)?.map(Instance::Struct)),
            Instance::Array(a) => Ok(a.convert_to(alloc, ty)?.map(Instance::Array)),
            Instance::Vec(v) => Ok(v.convert_to(alloc, ty)?.map(Instance::Vec)),
            Instance::Mat(m) => Ok(m.convert_to(alloc, ty)?.map(Instance::Mat)),
            Instance::Ptr(_) | Instance::Ref(_) => self.kept(alloc, ty),
            Instance::Atomic(_) | Instance::Deferred(_) => self.kept(alloc, ty),
        }
    }

    fn convert_inner_to(&self, alloc: Global, ty: &Type) -> Result<Option<Instance>, AllocError> {
        match self {
            Instance::Literal(literal) => Ok(literal.to_kind(ty).map(Instance::Literal)),
            Instance::Array(a) => Ok(a.convert_inner_to(alloc, ty)?.map(Instance::Array)),
            Instance::Vec(v) => Ok(v.convert_inner_to(alloc, ty)?.map(Instance::Vec)),
            Instance::Mat(m) => Ok(m.convert_inner_to(alloc, ty)?.map(Instance::Mat)),
            Instance::Struct(_) | Instance::Ptr(_) | Instance::Ref(_) => Ok(None),
            Instance::Atomic(_) | Instance::Deferred(_) => Ok(None),
        }
    }
}

/// The literal, or the expression that builds the value (WGSL: literals; value constructors); of a
/// pointer or a reference its type.
/// It calls itself for each level of the value: keep to 4,095 within a stack of 8 MiB.
impl Display for Instance {
    ghost output = { λ v. Some (text_of_value (value_of v)) };

    fn fmt<W: fmt::Write>(&self, f: &mut fmt::Formatter<W>) -> fmt::Result {
        write_value(f, self)
    }
}

/// It calls itself for each level of the values: keep to 4,095 within a stack of 8 MiB.
impl PartialEq for Instance {
    ghost eq = { λ v w. same_value (value_of v) (value_of w) };

    ghost laws = { partial_equiv_from_equiv values_equiv };

    #[cycle(same)]
    fn eq(&self, other: &Instance) -> bool {
        match (self, other) {
            (Instance::Literal(a), Instance::Literal(b)) => *a == *b,
            (Instance::Struct(a), Instance::Struct(b)) => *a == *b,
            (Instance::Array(a), Instance::Array(b)) => *a == *b,
            (Instance::Vec(a), Instance::Vec(b)) => *a == *b,
            (Instance::Mat(a), Instance::Mat(b)) => *a == *b,
            (Instance::Ptr(a), Instance::Ptr(b)) => *a == *b,
            (Instance::Ref(a), Instance::Ref(b)) => *a == *b,
            (Instance::Atomic(a), Instance::Atomic(b)) => *a == *b,
            (Instance::Deferred(a), Instance::Deferred(b)) => *a == *b,
            _ => false,
        }
    }
}

impl Eq for Instance {
    ghost laws = { values_equiv };
}

#[cycle(texts)]
pub(crate) fn write_value<W: fmt::Write>(f: &mut fmt::Formatter<W>, value: &Instance) -> fmt::Result
    ensures { WritesOnOk W.write_str_gives f.old result (text_of_value (value_of value.now)) f.new }
{
    match value {
        Instance::Literal(literal) => literal.fmt(f),
        Instance::Struct(s) => write_struct(f, s),
        Instance::Array(a) => write_array(f, a),
        Instance::Vec(v) => write_vec(f, v),
        Instance::Mat(m) => write_mat(f, m),
        Instance::Ptr(p) => p.fmt(f),
        Instance::Ref(r) => r.fmt(f),
        Instance::Atomic(a) => a.fmt(f),
        Instance::Deferred(ty) => write!(f, "__deferred<{ty}>"),
    }
}
