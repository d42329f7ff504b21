//! Calls as they are written: a name, the arguments of a template, and the types of the arguments
//! (WGSL: function call expressions; template parameters).

ghost use Rattle.std.specs.Prelude.{◌≡◌, Some, map, IfOk, codes};
ghost use Rattle.std.specs.Cmp.{partial_equiv_from_equiv};
ghost use Rattle.std.specs.Cmp.Lexicographic.{pointwise};
ghost use Rattle.std.specs.Fmt.{WritesOnOk};
ghost use Rattle.std.specs.List.{join_by};
ghost use Rattle.std.specs.Option.{option_eq};
ghost use Rattle.wgsl_rules.specs.Same.{same};
ghost use Rattle.wgsl_rules.specs.Text.{type_text};
ghost use Rattle.wgsl_rules.specs.View.{type_view};
ghost use Rattle.wgsl_values.specs.Equal.{params_equiv, signatures_equiv};
ghost use Rattle.wgsl_values.specs.Same.{same_param, same_signature};
ghost use Rattle.wgsl_values.specs.Signatures.{
  param_view,
  template_view,
  signature_view,
  param_text,
  template_text,
  signature_text,
};

use crate::instance::Instance;
use crate::lists::before_item;
use std::alloc::{AllocError, Global};
use std::fmt;
use std::fmt::Display;
use wgsl_rules::{Enumerant, Type};

/// An argument of a template, as `f32` in `vec3<f32>` (WGSL: template parameters).
#[derive(Debug, Drop)]
pub enum TpltParam {
    OfType(Type),
    Instance(Instance),
    Enumerant(Enumerant),
}

/// A call: the name of what is called, the arguments of its template where it has one, and the types
/// of its arguments (WGSL: function call expressions).
#[derive(Debug, Drop)]
pub struct CallSignature {
    pub name: String,
    pub tplt: Option<Vec<TpltParam>>,
    pub args: Vec<Type>,
}

impl TpltParam {
    /// A copy of the argument, in memory of its own, but for structure types that values share already: it shares them.
    /// It calls itself for each level of a type or value: keep to 4,095 within a stack of 8 MiB.
    pub fn clone(&self, alloc: Global) -> Result<TpltParam, AllocError>
        ensures { IfOk result (λ p. param_view p ≡ param_view self.now) }
    {
        match self {
            TpltParam::OfType(ty) => Ok(TpltParam::OfType(ty.clone(alloc)?)),
            TpltParam::Instance(value) => Ok(TpltParam::Instance(value.clone(alloc)?)),
            TpltParam::Enumerant(word) => Ok(TpltParam::Enumerant(*word)),
        }
    }
}

impl CallSignature {
    /// A copy of the signature, in memory of its own, but for structure types that values share already: it shares them.
    /// It calls itself for each level of a type or value: keep to 4,095 within a stack of 8 MiB.
    pub fn clone(&self, alloc: Global) -> Result<CallSignature, AllocError>
        ensures { IfOk result (λ s. signature_view s ≡ signature_view self.now) }
    {
        let name = self.name.clone()?;
        let tplt = match &self.tplt {
            Some(params) => Some(clone_params(alloc, params)?),
            None => None,
        };
        let args = clone_types(alloc, &self.args)?;
        Ok(CallSignature { name, tplt, args })
    }
}

fn clone_params(alloc: Global, params: &Vec<TpltParam>) -> Result<Vec<TpltParam>, AllocError>
    ensures { IfOk result (λ v. map param_view v.items ≡ map param_view params.now.items) }
{
    let mut copies = Vec::with_capacity(alloc, params.len())?;
    for param in params {
        copies.push(param.clone(alloc)?)?;
    }
    Ok(copies)
}

fn clone_types(alloc: Global, types: &Vec<Type>) -> Result<Vec<Type>, AllocError>
    ensures { IfOk result (λ v. map type_view v.items ≡ map type_view types.now.items) }
{
    let mut copies = Vec::with_capacity(alloc, types.len())?;
    for ty in types {
        copies.push(ty.clone(alloc)?)?;
    }
    Ok(copies)
}

/// It calls itself for each level of a type or value: keep to 4,095 within a stack of 8 MiB.
impl PartialEq for TpltParam {
    ghost eq = { λ p q. same_param (param_view p) (param_view q) };

    ghost laws = { partial_equiv_from_equiv params_equiv };

    fn eq(&self, other: &TpltParam) -> bool {
        match (self, other) {
            (TpltParam::OfType(a), TpltParam::OfType(b)) => *a == *b,
            (TpltParam::Instance(a), TpltParam::Instance(b)) => *a == *b,
            (TpltParam::Enumerant(a), TpltParam::Enumerant(b)) => *a == *b,
            _ => false,
        }
    }
}

impl Eq for TpltParam {
    ghost laws = { params_equiv };
}

/// It calls itself for each level of a type or value: keep to 4,095 within a stack of 8 MiB.
impl PartialEq for CallSignature {
    ghost eq = { λ s t. same_signature (signature_view s) (signature_view t) };

    ghost laws = { partial_equiv_from_equiv signatures_equiv };

    fn eq(&self, other: &CallSignature) -> bool {
        self.name.as_str() == other.name.as_str()
            && same_template(&self.tplt, &other.tplt)
            && same_types(&self.args, &other.args)
    }
}

fn same_template(a: &Option<Vec<TpltParam>>, b: &Option<Vec<TpltParam>>) -> bool
    ensures { result ≡ option_eq (pointwise same_param) (template_view a.now) (template_view b.now) }
{
    *a == *b
}

fn same_types(a: &[Type], b: &[Type]) -> bool
    ensures { result ≡ pointwise same (map type_view a.now) (map type_view b.now) }
{
    *a == *b
}

impl Eq for CallSignature {
    ghost laws = { signatures_equiv };
}

/// The text of the type, the value or the word.
/// It calls itself for each level of a type or value: keep to 4,095 within a stack of 8 MiB.
impl Display for TpltParam {
    ghost output = { λ p. Some (param_text (param_view p)) };

    fn fmt<W: fmt::Write>(&self, f: &mut fmt::Formatter<W>) -> fmt::Result {
        match self {
            TpltParam::OfType(ty) => ty.fmt(f),
            TpltParam::Instance(value) => value.fmt(f),
            TpltParam::Enumerant(word) => word.fmt(f),
        }
    }
}

/// The call, as `name(args)` or `name<tplt>(args)`.
/// It calls itself for each level of a type or value: keep to 4,095 within a stack of 8 MiB.
impl Display for CallSignature {
    ghost output = { λ s. Some (signature_text (signature_view s)) };

    fn fmt<W: fmt::Write>(&self, f: &mut fmt::Formatter<W>) -> fmt::Result {
        f.write_str(self.name.as_str())?;
        write_template(f, &self.tplt)?;
        f.write_str("(")?;
        write_types(f, &self.args)?;
        f.write_str(")")
    }
}

fn write_template<W: fmt::Write>(
    f: &mut fmt::Formatter<W>,
    tplt: &Option<Vec<TpltParam>>,
) -> fmt::Result
    ensures { WritesOnOk W.write_str_gives f.old result (template_text (template_view tplt.now)) f.new }
{
    match tplt {
        None => Ok(()),
        Some(params) => {
            f.write_str("<")?;
            write_params(f, params)?;
            f.write_str(">")
        }
    }
}

fn write_params<W: fmt::Write>(f: &mut fmt::Formatter<W>, params: &[TpltParam]) -> fmt::Result
    ensures { WritesOnOk W.write_str_gives f.old result (join_by param_text (codes ", ") (map param_view params.now)) f.new }
{
    for (i, param) in params.iter().enumerate() {
        f.write_str(before_item(i == 0))?;
        param.fmt(f)?;
    }
    Ok(())
}

fn write_types<W: fmt::Write>(f: &mut fmt::Formatter<W>, types: &[Type]) -> fmt::Result
    ensures { WritesOnOk W.write_str_gives f.old result (join_by type_text (codes ", ") (map type_view types.now)) f.new }
{
    for (i, ty) in types.iter().enumerate() {
        f.write_str(before_item(i == 0))?;
        ty.fmt(f)?;
    }
    Ok(())
}
