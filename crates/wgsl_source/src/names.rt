//! The names of types that the language has (WGSL: predeclared types and type-generators).

ghost use Rattle.std.specs.Prelude.{◌≡◌, ℕ, List, Some, IfSome, IsSomeAnd};
ghost use Rattle.wgsl_rules.specs.View.{type_view};
ghost use Rattle.wgsl_source.specs.declared.names.Predeclared.{Predeclared};
ghost use Rattle.wgsl_source.specs.declared.names.Scalar.{Scalar};
ghost use Rattle.wgsl_source.specs.Names.{
  scalar_type,
  scalar_text,
  IsLetter,
  BeginsWithDimension,
  NamesVector,
  NamesMatrix,
  Names,
};

use wgsl_rules::Type;

/// What a name stands for that no declaration gives a meaning.
#[derive(Clone, Copy, Debug, PartialEq, Eq)]
pub enum Predeclared {
    Scalar(Scalar),
    /// A vector whose short name has its component in it.
    Vec(u8, Scalar),
    /// A matrix, columns before rows, whose short name has its component in it.
    Mat(u8, u8, Scalar),
    Generator(Generator),
}

/// A name that takes a template list.
#[derive(Clone, Copy, Debug, PartialEq, Eq)]
pub enum Generator {
    Vec(u8),
    Mat(u8, u8),
    Array,
    Atomic,
}

#[derive(Clone, Copy, Debug, PartialEq, Eq)]
pub enum Scalar {
    Bool,
    I32,
    U32,
    F32,
    F16,
    I64,
    U64,
    F64,
}

impl Scalar {
    /// The type.
    pub fn ty(self) -> Type
        ensures { type_view result ≡ scalar_type self }
    {
        match self {
            Scalar::Bool => Type::Bool,
            Scalar::I32 => Type::I32,
            Scalar::U32 => Type::U32,
            Scalar::F32 => Type::F32,
            Scalar::F16 => Type::F16,
            Scalar::I64 => Type::I64,
            Scalar::U64 => Type::U64,
            Scalar::F64 => Type::F64,
        }
    }

    // The last character of a short name.
    fn of_letter(letter: &str) -> Option<Scalar>
        ensures letter { IfSome result (λ scalar. IsLetter scalar letter.now) }
        ensures each { (s : Scalar) → IsLetter s letter.now → result ≡ Some s }
    {
        match letter {
            "i" => Some(Scalar::I32),
            "u" => Some(Scalar::U32),
            "f" => Some(Scalar::F32),
            "h" => Some(Scalar::F16),
            _ => None,
        }
    }
}

/// What the language says that a name stands for; `None` where that is no type with a size.
pub fn language_name(name: &str) -> Option<Predeclared>
    ensures names { IfSome result (Names name.now) }
    ensures each { (p : Predeclared) → Names name.now p → result ≡ Some p }
{
    if let Some(scalar) = scalar_named(name) {
        return Some(Predeclared::Scalar(scalar));
    }
    match name {
        "array" => return Some(Predeclared::Generator(Generator::Array)),
        "atomic" => return Some(Predeclared::Generator(Generator::Atomic)),
        _ => {}
    }
    match name.strip_prefix("vec") {
        Some(rest) => vector_named(rest),
        None => matrix_named(name.strip_prefix("mat")?),
    }
}

fn scalar_named(name: &str) -> Option<Scalar>
    ensures text { IfSome result (λ scalar. name.now ≡ scalar_text scalar) }
    ensures each { (s : Scalar) → name.now ≡ scalar_text s → result ≡ Some s }
{
    match name {
        "bool" => Some(Scalar::Bool),
        "i32" => Some(Scalar::I32),
        "u32" => Some(Scalar::U32),
        "f32" => Some(Scalar::F32),
        "f16" => Some(Scalar::F16),
        "i64" => Some(Scalar::I64),
        "u64" => Some(Scalar::U64),
        "f64" => Some(Scalar::F64),
        _ => None,
    }
}

// A number of components, columns or rows at the front of a text, and the rest.
fn split_dimension(text: &str) -> Option<(u8, &str)>
    ensures parts { IfSome result (λ p. BeginsWithDimension text.now p.0 p.1.now) }
    ensures each { (n : ℕ) (rest : List ℕ) → BeginsWithDimension text.now n rest → IsSomeAnd result (λ p. (p.0 ≡ n) × (p.1.now ≡ rest)) }
{
    if let Some(rest) = text.strip_prefix('2') {
        return Some((2, rest));
    }
    if let Some(rest) = text.strip_prefix('3') {
        return Some((3, rest));
    }
    Some((4, text.strip_prefix('4')?))
}

fn vector_named(rest: &str) -> Option<Predeclared>
    ensures names { IfSome result (NamesVector rest.now) }
    ensures each { (p : Predeclared) → NamesVector rest.now p → result ≡ Some p }
{
    let (n, letter) = split_dimension(rest)?;
    if letter.is_empty() {
        return Some(Predeclared::Generator(Generator::Vec(n)));
    }
    Some(Predeclared::Vec(n, Scalar::of_letter(letter)?))
}

fn matrix_named(rest: &str) -> Option<Predeclared>
    ensures names { IfSome result (NamesMatrix rest.now) }
    ensures each { (p : Predeclared) → NamesMatrix rest.now p → result ≡ Some p }
{
    let (columns, rest) = split_dimension(rest)?;
    let (rows, letter) = split_dimension(rest.strip_prefix('x')?)?;
    match letter {
        "" => Some(Predeclared::Generator(Generator::Mat(columns, rows))),
        "f" => Some(Predeclared::Mat(columns, rows, Scalar::F32)),
        "h" => Some(Predeclared::Mat(columns, rows, Scalar::F16)),
        _ => None,
    }
}
