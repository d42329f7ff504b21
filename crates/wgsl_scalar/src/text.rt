//! The texts of literals.

ghost use Rattle.std.specs.Prelude.{Some};
ghost use Rattle.wgsl_scalar.specs.Literals.{literal_of};
ghost use Rattle.wgsl_scalar.specs.Texts.{literal_text};

use crate::literal::LiteralInstance;
use std::fmt;

impl fmt::Display for LiteralInstance {
    ghost output = { λ x. Some (literal_text (literal_of x)) };

    fn fmt<W: fmt::Write>(&self, f: &mut fmt::Formatter<W>) -> fmt::Result {
        match self {
            LiteralInstance::Bool(b) => write!(f, "{b}"),
            LiteralInstance::AbstractInt(n) => write!(f, "{n}"),
            LiteralInstance::I32(n) => write!(f, "{n}i"),
            LiteralInstance::U32(n) => write!(f, "{n}u"),
            LiteralInstance::I64(n) => write!(f, "{n}li"),
            LiteralInstance::U64(n) => write!(f, "{n}lu"),
        }
    }
}
