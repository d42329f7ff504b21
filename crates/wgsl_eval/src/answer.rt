//! What steps leave: values, types, and why there are none.

ghost use Rattle.std.specs.Prelude.{◌≡◌, ◌+◌, ◌*◌, ◌-◌, ◌/◌, ◌<◌, ◌↔◌, ◌⊎◌, max, IfOk, IsTrue};
ghost use Rattle.wgsl_scalar.specs.Literals.{literal_of};
ghost use Rattle.wgsl_values.specs.View.{value_of};
ghost use Rattle.wgsl_eval.specs.Answers.{IsSoundValue, at_most_largest};
ghost use Rattle.wgsl_eval.specs.Waitings.{work_of};

use crate::message::Message;
use crate::sized::SizedType;
use crate::variable::Variable;
use std::alloc::{AllocError, Global};
use std::fmt;
use wgsl_scalar::LiteralInstance;
use wgsl_source::Extent;
use wgsl_values::Instance;

/// How many parts of values a type in a type is as much work as.
const NODE: usize = 4;

/// The most parts in a value, those of parts included.
const PARTS: usize = 65_536;

/// The most values that stand inside each other.
const DEPTH: usize = 64;

/// How large a value is.
#[derive(Clone, Copy)]
pub(crate) struct Size {
    /// How many values are in it, itself too. A structure counts the types in its own.
    pub(crate) parts: usize,
    pub(crate) depth: usize,
}

/// A value.
#[derive(Drop)]
pub(crate) struct Value {
    pub(crate) instance: Instance,
    pub(crate) size: Size,
}

/// What a step leaves.
#[derive(Drop)]
pub(crate) enum Answer {
    Value(Value),
    /// The value of the declaration of this number. It waits so for the step that takes it, and is copied where a step
    /// takes all of it: no declaration is found to be this.
    Named(usize),
    Type(SizedType),
    /// The function `bitcast` with its type.
    Bitcast(SizedType),
    /// A variable of the module. What names it is skipped.
    Variable(Variable),
    Skipped(Skip),
    /// A fault, and whether `&&` and `||` pass it over where they do not evaluate it.
    Wrong(Message, Guard),
    /// What names something that has a fault.
    Faulty,
}

/// Whether an operand that is not evaluated may have a fault.
#[derive(Clone, Copy, PartialEq, Eq)]
pub(crate) enum Guard {
    /// A fault of types, which is one in any case.
    Never,
    /// A fault of numbers.
    Guarded,
}

/// What an expression needs that no constant integer is.
#[derive(Clone, Copy, Debug, PartialEq, Eq)]
pub enum Need {
    /// A number of floats.
    Float,
    /// An override, which has no value yet.
    Override,
    /// A variable of the module.
    Variable,
    /// A function of the module.
    Function,
    /// A type whose values are no constants, as a texture, a sampler or a pointer.
    Opaque,
    /// What a builtin function of memory, textures or other invocations answers.
    Runtime,
}

impl fmt::Display for Need {
    fn fmt<W: fmt::Write>(&self, f: &mut fmt::Formatter<W>) -> fmt::Result {
        f.write_str(match self {
            Need::Float => "needs floats",
            Need::Override => "needs an override",
            Need::Variable => "needs a variable",
            Need::Function => "needs a function of the module",
            Need::Opaque => "needs a type without constants",
            Need::Runtime => "needs what is known at run time",
        })
    }
}

/// What the expression that is not evaluated is for.
#[derive(Clone, Copy, Debug, PartialEq, Eq)]
pub enum Part {
    /// The count of elements of an array type.
    Count,
    /// An attribute.
    Attribute,
    /// Anything else.
    Expression,
}

/// The bytes of a source because of which an expression is not evaluated.
#[derive(Clone, Copy, Debug, PartialEq, Eq)]
pub struct Skip {
    pub start: usize,
    pub end: usize,
    pub need: Need,
    pub part: Part,
}

impl Size {
    pub(crate) const ONE: Size = Size { parts: 1, depth: 1 };

    /// That of a value of so many parts of one size.
    pub(crate) fn of_equal(self, count: usize) -> Size
        ensures parts { result.parts ≡ at_most_largest (self.parts * count + 1) }
        ensures depth { result.depth ≡ at_most_largest (self.depth + 1) }
    {
        Size {
            parts: self.parts.saturating_mul(count).saturating_add(1),
            depth: self.depth.saturating_add(1),
        }
    }

    /// With one more part.
    pub(crate) fn with(self, part: Size) -> Size
        ensures parts { result.parts ≡ at_most_largest (self.parts + part.parts) }
        ensures depth { result.depth ≡ max self.depth (at_most_largest (part.depth + 1)) }
    {
        Size {
            parts: self.parts.saturating_add(part.parts),
            depth: self.depth.max(part.depth.saturating_add(1)),
        }
    }

    pub(crate) fn larger(self, other: Size) -> Size
        ensures { result ≡ record { parts = max self.parts other.parts; depth = max self.depth other.depth } }
    {
        Size {
            parts: self.parts.max(other.parts),
            depth: self.depth.max(other.depth),
        }
    }

    /// That of one of so many parts of one size.
    pub(crate) fn part(self, count: usize) -> Size
        ensures parts { 0 < count → result.parts ≡ max (self.parts / count) 1 }
        ensures depth { result.depth ≡ max (self.depth - 1) 1 }
    {
        Size {
            parts: self.parts.checked_div(count).unwrap_or(1).max(1),
            depth: self.depth.saturating_sub(1).max(1),
        }
    }

    pub(crate) fn is_too_large(self) -> bool
        ensures { IsTrue result ↔ (PARTS < self.parts ⊎ DEPTH < self.depth) }
    {
        self.parts > PARTS || self.depth > DEPTH
    }
}

impl Value {
    pub(crate) fn literal(literal: LiteralInstance) -> Value
        ensures value { value_of result.instance ≡ literal_of literal }
        ensures sound { IsSoundValue result }
    {
        Value {
            instance: Instance::from(literal),
            size: Size::ONE,
        }
    }

    /// A value that an operator or a function answered to values no larger than this size.
    pub(crate) fn answered(instance: Instance, at_most: Size) -> Value
        ensures { result.instance ≡ instance }
    {
        let size = match &instance {
            Instance::Literal(_) => Size::ONE,
            Instance::Vec(vector) => Size::ONE.of_equal(vector.n()),
            Instance::Mat(matrix) => Size::ONE.of_equal(matrix.r()).of_equal(matrix.c()),
            _ => at_most,
        };
        Value { instance, size }
    }

    pub(crate) fn copy(&self, alloc: Global) -> Result<Value, AllocError>
        ensures value { IfOk result (λ v. value_of v.instance ≡ value_of self.now.instance) }
        ensures size { IfOk result (λ v. v.size ≡ self.now.size) }
    {
        Ok(Value {
            instance: self.instance.clone(alloc)?,
            size: self.size,
        })
    }
}

impl Skip {
    pub(crate) fn new(extent: Extent, need: Need) -> Skip
        ensures { result ≡ record { start = extent.start; end = extent.end; need = need; part = Part.Expression } }
    {
        Skip {
            start: extent.start,
            end: extent.end,
            need,
            part: Part::Expression,
        }
    }

    /// The same in another part.
    pub(crate) fn in_part(self, part: Part) -> Skip
        ensures { result ≡ record self { part = part } }
    {
        Skip { part, ..self }
    }
}

impl Answer {
    /// How much work a name of it is.
    pub(crate) fn work(&self) -> usize
        ensures { result ≡ work_of self.now }
    {
        match self {
            Answer::Value(value) => value.size.parts,
            Answer::Type(ty) => ty.nodes.saturating_mul(NODE),
            _ => 1,
        }
    }
}
