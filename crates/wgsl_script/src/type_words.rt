//! The words for types: scalars, atomics, vectors and matrices, and what arrays are of.

ghost use Rattle.std.specs.Prelude.{◌≡◌, ◌≢◌, ◌<◌, ℕ, List, length, IfOk, IfSome, IsNone};
ghost use Rattle.wgsl_rules.specs.View.{type_view};
ghost use Rattle.wgsl_script.specs.TypeWords.{IsTemplate, IsPlain, plain_text, scalar_text, template_text, number_of};

use std::alloc::{AllocError, Global};
use wgsl_rules::Type;

/// The most `<` in a word for a type, each inside the one before.
const NESTED: usize = 16;

/// A scalar type.
#[derive(Clone, Copy, Debug, PartialEq, Eq)]
pub(crate) enum Scalar {
    I32,
    U32,
    I64,
    U64,
}

/// A number of components, columns or rows.
#[derive(Clone, Copy, Debug, PartialEq, Eq)]
pub(crate) enum Dimension {
    Two,
    Three,
    Four,
}

/// What is made of scalars.
#[derive(Clone, Copy, Debug, PartialEq, Eq)]
pub(crate) enum Template {
    Atomic,
    Vec(Dimension),
    /// So many columns of so many rows.
    Mat(Dimension, Dimension),
}

/// A type without arrays and structures, which its word alone tells.
#[derive(Clone, Copy, Debug, PartialEq, Eq)]
pub(crate) enum Plain {
    Scalar(Scalar),
    Of(Template, Scalar),
}

impl Scalar {
    ghost use Rattle.wgsl_script.specs.TypeWords.{scalar_type};

    fn ty(self) -> Type
        ensures { type_view result ≡ scalar_type self }
    {
        match self {
            Scalar::I32 => Type::I32,
            Scalar::U32 => Type::U32,
            Scalar::I64 => Type::I64,
            Scalar::U64 => Type::U64,
        }
    }
}

impl Dimension {
    fn number(self) -> u8
        ensures { result ≡ number_of self }
    {
        match self {
            Dimension::Two => 2,
            Dimension::Three => 3,
            Dimension::Four => 4,
        }
    }
}

impl Plain {
    ghost use Rattle.wgsl_script.specs.TypeWords.{plain_type};

    /// How many types are in it, itself too.
    pub(crate) fn nodes(self) -> usize {
        match self {
            Plain::Scalar(_) => 1,
            Plain::Of(_, _) => 2,
        }
    }

    /// The type that it names.
    pub(crate) fn ty(self, alloc: Global) -> Result<Type, AllocError>
        ensures { IfOk result (λ ty. type_view ty ≡ plain_type self) }
    {
        match self {
            Plain::Scalar(scalar) => Ok(scalar.ty()),
            Plain::Of(template, scalar) => {
                let scalar = Box::new(alloc, scalar.ty())?;
                Ok(match template {
                    Template::Atomic => Type::Atomic(scalar),
                    Template::Vec(n) => Type::Vec(n.number(), scalar),
                    Template::Mat(c, r) => Type::Mat(c.number(), r.number(), scalar),
                })
            }
        }
    }
}

/// Whether no more `<` stand in the word than may be nested.
pub(crate) fn is_nested_little(word: &str) -> bool {
    word.bytes().filter(|byte| *byte == b'<').count() <= NESTED
}

/// Of the word of an array, the word of its elements and its count; an array without a count is
/// runtime-sized.
pub(crate) fn array_parts(word: &str) -> Option<(&str, Option<&str>)>
    ensures { IfSome result (λ parts. length parts.0.now < length word.now) }
{
    let (name, inner) = split_template(word)?;
    if name != "array" {
        return None;
    }
    // A word that ends with `>` has its commas inside.
    if inner.ends_with('>') {
        return Some((inner, None));
    }
    match inner.rsplit_once(',') {
        Some((element, count)) => Some((element, Some(count))),
        None => Some((inner, None)),
    }
}

/// The type of neither array nor structure that a word names.
pub(crate) fn plain_of(word: &str) -> Option<Plain>
    ensures some { IfSome result (λ plain. IsPlain plain × (word.now ≡ plain_text plain)) }
    ensures none { IsNone result → (plain : Plain) → IsPlain plain → word.now ≢ plain_text plain }
{
    match split_template(word) {
        Some((name, scalar)) => composite(template_of(name)?, scalar_of(scalar)?),
        None => Some(Plain::Scalar(scalar_of(word)?)),
    }
}

/// The name in front of a word's first `<`, and what stands between that and the `>` at its end.
fn split_template(word: &str) -> Option<(&str, &str)>
    ensures some { IfSome result (λ split. IsTemplate word.now split.0.now split.1.now) }
    ensures none { IsNone result → (name inner : List ℕ) → ¬ IsTemplate word.now name inner }
{
    word.strip_suffix('>')?.split_once('<')
}

fn scalar_of(word: &str) -> Option<Scalar>
    ensures some { IfSome result (λ scalar. word.now ≡ scalar_text scalar) }
    ensures none { IsNone result → (scalar : Scalar) → word.now ≢ scalar_text scalar }
{
    match word {
        "i32" => Some(Scalar::I32),
        "u32" => Some(Scalar::U32),
        "i64" => Some(Scalar::I64),
        "u64" => Some(Scalar::U64),
        _ => None,
    }
}

fn template_of(word: &str) -> Option<Template>
    ensures some { IfSome result (λ template. word.now ≡ template_text template) }
    ensures none { IsNone result → (template : Template) → word.now ≢ template_text template }
{
    match word {
        "atomic" => Some(Template::Atomic),
        "vec2" => Some(Template::Vec(Dimension::Two)),
        "vec3" => Some(Template::Vec(Dimension::Three)),
        "vec4" => Some(Template::Vec(Dimension::Four)),
        "mat2x2" => Some(Template::Mat(Dimension::Two, Dimension::Two)),
        "mat2x3" => Some(Template::Mat(Dimension::Two, Dimension::Three)),
        "mat2x4" => Some(Template::Mat(Dimension::Two, Dimension::Four)),
        "mat3x2" => Some(Template::Mat(Dimension::Three, Dimension::Two)),
        "mat3x3" => Some(Template::Mat(Dimension::Three, Dimension::Three)),
        "mat3x4" => Some(Template::Mat(Dimension::Three, Dimension::Four)),
        "mat4x2" => Some(Template::Mat(Dimension::Four, Dimension::Two)),
        "mat4x3" => Some(Template::Mat(Dimension::Four, Dimension::Three)),
        "mat4x4" => Some(Template::Mat(Dimension::Four, Dimension::Four)),
        _ => None,
    }
}

/// The type of the template of the scalar; there is no atomic of 64 bits.
fn composite(template: Template, scalar: Scalar) -> Option<Plain>
    ensures some { IfSome result (λ plain. (plain ≡ Plain.Of template scalar) × IsPlain plain) }
    ensures none { IsNone result → ¬ IsPlain (Plain.Of template scalar) }
{
    match (template, scalar) {
        (Template::Atomic, Scalar::I64 | Scalar::U64) => None,
        _ => Some(Plain::Of(template, scalar)),
    }
}
