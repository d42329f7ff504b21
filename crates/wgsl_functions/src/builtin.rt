//! The builtin functions of the library, by their names in a source (WGSL: builtin functions).

ghost use Rattle.std.specs.Prelude.{◌≡◌, ◌≢◌, IfOk, IfSome, IsNone, map};
ghost use Rattle.wgsl_functions.specs.Functions.{
  bitcast_to,
  count_of,
  of_one_value,
  of_three_values,
  of_two_values,
  of_values,
};
ghost use Rattle.wgsl_functions.specs.Names.{
  IsNameOf,
  one_text,
  three_text,
  two_text,
};
ghost use Rattle.wgsl_rules.specs.Values.{IsStorable, IsWellFormed};
ghost use Rattle.wgsl_rules.specs.View.{type_view};
ghost use Rattle.wgsl_scalar.specs.Answers.{Gives};
ghost use Rattle.wgsl_value_builtins.specs.BitFunctions.{inserted_bits};
ghost use Rattle.wgsl_values.specs.View.{value_of};

use crate::names::{is_of_floats, is_of_memory};
use std::alloc::Global;
use wgsl_rules::{ShaderStage, Type};
use wgsl_scalar::{BuiltinReason, Error};
use wgsl_values::Instance;

/// A function of one value.
#[derive(Clone, Copy, Debug, PartialEq, Eq)]
pub enum OfOne {
    Abs,
    Sign,
    CountLeadingZeros,
    CountOneBits,
    CountTrailingZeros,
    FirstLeadingBit,
    FirstTrailingBit,
    ReverseBits,
    Transpose,
    Pack4xI8,
    Pack4xU8,
    Pack4xI8Clamp,
    Pack4xU8Clamp,
    Unpack4xI8,
    Unpack4xU8,
    All,
    Any,
}

/// A function of two values.
#[derive(Clone, Copy, Debug, PartialEq, Eq)]
pub enum OfTwo {
    Min,
    Max,
    Dot,
    Dot4U8Packed,
    Dot4I8Packed,
}

/// A function of three values.
#[derive(Clone, Copy, Debug, PartialEq, Eq)]
pub enum OfThree {
    Clamp,
    Select,
    ExtractBits,
}

/// What a name of the language is called for.
#[derive(Clone, Copy, Debug, PartialEq, Eq)]
pub enum Builtin {
    One(OfOne),
    Two(OfTwo),
    Three(OfThree),
    /// `insertBits`, of four values.
    InsertBits,
    /// A function of floats.
    Float,
    /// A function of memory, textures or other invocations.
    NotConstant,
}

impl Builtin {
    /// The function of the name; `None` where the language has no builtin function of that name.
    pub fn named(name: &str) -> Option<Builtin>
        ensures named { IfSome result (λ function. IsNameOf function name.now) }
        ensures none { IsNone result → (function : Builtin) → ¬ IsNameOf function name.now }
    {
        if let Some(function) = OfOne::named(name) {
            return Some(Builtin::One(function));
        }
        if let Some(function) = OfTwo::named(name) {
            return Some(Builtin::Two(function));
        }
        if let Some(function) = OfThree::named(name) {
            return Some(Builtin::Three(function));
        }
        if name == "insertBits" {
            Some(Builtin::InsertBits)
        } else if is_of_floats(name) {
            Some(Builtin::Float)
        } else if is_of_memory(name) {
            Some(Builtin::NotConstant)
        } else {
            None
        }
    }

    /// How many values it takes; `None` where it is no function of integers alone.
    pub fn count(self) -> Option<usize>
        ensures { result ≡ count_of self }
    {
        match self {
            Builtin::One(_) => Some(1),
            Builtin::Two(_) => Some(2),
            Builtin::Three(_) => Some(3),
            Builtin::InsertBits => Some(4),
            Builtin::Float | Builtin::NotConstant => None,
        }
    }

    /// What the function answers to the values in the stage. Where they are not as many as it takes, and of
    /// `Float` and `NotConstant` in any case, it is refused by `Builtin`; else what is not well-formed is
    /// answered with `Memory`. It calls itself for each level of the values: keep to 4,095 within a stack of
    /// 8 MiB.
    pub fn answer(
        self,
        alloc: Global,
        stage: ShaderStage,
        values: &[Instance],
    ) -> Result<Instance, Error>
        ensures value { Gives value_of result (of_values self stage (map value_of values.now)) }
        ensures storable { IfOk result (λ v. IsStorable (value_of v)) }
    {
        match (self, values.len()) {
            (Builtin::One(function), 1) => function.answer(alloc, &values[0]),
            (Builtin::Two(function), 2) => function.answer(alloc, stage, &values[0], &values[1]),
            (Builtin::Three(function), 3) => {
                function.answer(alloc, &values[0], &values[1], &values[2])
            }
            (Builtin::InsertBits, 4) => {
                insert_bits(alloc, &values[0], &values[1], &values[2], &values[3])
            }
            _ => Err(Error::Builtin(BuiltinReason::NotConverted)),
        }
    }
}

impl OfOne {
    fn named(name: &str) -> Option<OfOne>
        ensures named { IfSome result (λ function. name.now ≡ one_text function) }
        ensures none { IsNone result → (function : OfOne) → name.now ≢ one_text function }
    {
        match name {
            "abs" => Some(OfOne::Abs),
            "sign" => Some(OfOne::Sign),
            "countLeadingZeros" => Some(OfOne::CountLeadingZeros),
            "countOneBits" => Some(OfOne::CountOneBits),
            "countTrailingZeros" => Some(OfOne::CountTrailingZeros),
            "firstLeadingBit" => Some(OfOne::FirstLeadingBit),
            "firstTrailingBit" => Some(OfOne::FirstTrailingBit),
            "reverseBits" => Some(OfOne::ReverseBits),
            "transpose" => Some(OfOne::Transpose),
            "pack4xI8" => Some(OfOne::Pack4xI8),
            "pack4xU8" => Some(OfOne::Pack4xU8),
            "pack4xI8Clamp" => Some(OfOne::Pack4xI8Clamp),
            "pack4xU8Clamp" => Some(OfOne::Pack4xU8Clamp),
            "unpack4xI8" => Some(OfOne::Unpack4xI8),
            "unpack4xU8" => Some(OfOne::Unpack4xU8),
            "all" => Some(OfOne::All),
            "any" => Some(OfOne::Any),
            _ => None,
        }
    }

    /// What the function answers. What is not well-formed is answered with `Memory`. It calls itself
    /// for each level of the value: keep to 4,095 within a stack of 8 MiB.
    pub fn answer(self, alloc: Global, e: &Instance) -> Result<Instance, Error>
        ensures value { Gives value_of result (of_one_value self (value_of e.now)) }
        ensures storable { IfOk result (λ v. IsStorable (value_of v)) }
    {
        if e.is_well_formed() {
            self.answer_of(alloc, e)
        } else {
            Err(Error::Memory)
        }
    }

    fn answer_of(self, alloc: Global, e: &Instance) -> Result<Instance, Error>
        requires { IsWellFormed (value_of e.now) }
        ensures value { Gives value_of result (of_one_value self (value_of e.now)) }
        ensures storable { IfOk result (λ v. IsStorable (value_of v)) }
    {
        match self {
            OfOne::Abs => wgsl_value_builtins::abs(alloc, e),
            OfOne::Sign => wgsl_value_builtins::sign(alloc, e),
            OfOne::CountLeadingZeros => wgsl_value_builtins::countLeadingZeros(alloc, e),
            OfOne::CountOneBits => wgsl_value_builtins::countOneBits(alloc, e),
            OfOne::CountTrailingZeros => wgsl_value_builtins::countTrailingZeros(alloc, e),
            OfOne::FirstLeadingBit => wgsl_value_builtins::firstLeadingBit(alloc, e),
            OfOne::FirstTrailingBit => wgsl_value_builtins::firstTrailingBit(alloc, e),
            OfOne::ReverseBits => wgsl_value_builtins::reverseBits(alloc, e),
            OfOne::Transpose => wgsl_value_builtins::transpose(alloc, e),
            OfOne::Pack4xI8 => wgsl_value_builtins::pack4xI8(alloc, e),
            OfOne::Pack4xU8 => wgsl_value_builtins::pack4xU8(alloc, e),
            OfOne::Pack4xI8Clamp => wgsl_value_builtins::pack4xI8Clamp(alloc, e),
            OfOne::Pack4xU8Clamp => wgsl_value_builtins::pack4xU8Clamp(alloc, e),
            OfOne::Unpack4xI8 => wgsl_value_builtins::unpack4xI8(alloc, e),
            OfOne::Unpack4xU8 => wgsl_value_builtins::unpack4xU8(alloc, e),
            OfOne::All => wgsl_value_builtins::all(e),
            OfOne::Any => wgsl_value_builtins::any(e),
        }
    }
}

impl OfTwo {
    fn named(name: &str) -> Option<OfTwo>
        ensures named { IfSome result (λ function. name.now ≡ two_text function) }
        ensures none { IsNone result → (function : OfTwo) → name.now ≢ two_text function }
    {
        match name {
            "min" => Some(OfTwo::Min),
            "max" => Some(OfTwo::Max),
            "dot" => Some(OfTwo::Dot),
            "dot4U8Packed" => Some(OfTwo::Dot4U8Packed),
            "dot4I8Packed" => Some(OfTwo::Dot4I8Packed),
            _ => None,
        }
    }

    /// What the function answers. What is not well-formed is answered with `Memory`. It calls itself
    /// for each level of the values: keep to 4,095 within a stack of 8 MiB.
    pub fn answer(
        self,
        alloc: Global,
        stage: ShaderStage,
        a: &Instance,
        b: &Instance,
    ) -> Result<Instance, Error>
        ensures value { Gives value_of result (of_two_values self stage (value_of a.now) (value_of b.now)) }
        ensures storable { IfOk result (λ v. IsStorable (value_of v)) }
    {
        if a.is_well_formed() && b.is_well_formed() {
            self.answer_of(alloc, stage, a, b)
        } else {
            Err(Error::Memory)
        }
    }

    fn answer_of(
        self,
        alloc: Global,
        stage: ShaderStage,
        a: &Instance,
        b: &Instance,
    ) -> Result<Instance, Error>
        requires first { IsWellFormed (value_of a.now) }
        requires second { IsWellFormed (value_of b.now) }
        ensures value { Gives value_of result (of_two_values self stage (value_of a.now) (value_of b.now)) }
        ensures storable { IfOk result (λ v. IsStorable (value_of v)) }
    {
        match self {
            OfTwo::Min => wgsl_value_builtins::min(alloc, a, b),
            OfTwo::Max => wgsl_value_builtins::max(alloc, a, b),
            OfTwo::Dot => wgsl_value_builtins::dot(alloc, a, b, stage),
            OfTwo::Dot4U8Packed => wgsl_value_builtins::dot4U8Packed(alloc, a, b),
            OfTwo::Dot4I8Packed => wgsl_value_builtins::dot4I8Packed(alloc, a, b),
        }
    }
}

impl OfThree {
    fn named(name: &str) -> Option<OfThree>
        ensures named { IfSome result (λ function. name.now ≡ three_text function) }
        ensures none { IsNone result → (function : OfThree) → name.now ≢ three_text function }
    {
        match name {
            "clamp" => Some(OfThree::Clamp),
            "select" => Some(OfThree::Select),
            "extractBits" => Some(OfThree::ExtractBits),
            _ => None,
        }
    }

    /// What the function answers. What is not well-formed is answered with `Memory`. It calls itself
    /// for each level of the values: keep to 4,095 within a stack of 8 MiB.
    pub fn answer(
        self,
        alloc: Global,
        a: &Instance,
        b: &Instance,
        c: &Instance,
    ) -> Result<Instance, Error>
        ensures value { Gives value_of result (of_three_values self (value_of a.now) (value_of b.now) (value_of c.now)) }
        ensures storable { IfOk result (λ v. IsStorable (value_of v)) }
    {
        if a.is_well_formed() && b.is_well_formed() && c.is_well_formed() {
            self.answer_of(alloc, a, b, c)
        } else {
            Err(Error::Memory)
        }
    }

    fn answer_of(
        self,
        alloc: Global,
        a: &Instance,
        b: &Instance,
        c: &Instance,
    ) -> Result<Instance, Error>
        requires first { IsWellFormed (value_of a.now) }
        requires second { IsWellFormed (value_of b.now) }
        requires third { IsWellFormed (value_of c.now) }
        ensures value { Gives value_of result (of_three_values self (value_of a.now) (value_of b.now) (value_of c.now)) }
        ensures storable { IfOk result (λ v. IsStorable (value_of v)) }
    {
        match self {
            OfThree::Clamp => wgsl_value_builtins::clamp(alloc, a, b, c),
            OfThree::Select => wgsl_value_builtins::select(alloc, a, b, c),
            OfThree::ExtractBits => wgsl_value_builtins::extractBits(alloc, a, b, c),
        }
    }
}

/// What `insertBits` answers: `e` with `count` bits from `offset` on in the place of which the lowest of
/// `bits` stand. What is not well-formed is answered with `Memory`. It calls itself for each level of
/// the values: keep to 4,095 within a stack of 8 MiB.
pub fn insert_bits(
    alloc: Global,
    e: &Instance,
    bits: &Instance,
    offset: &Instance,
    count: &Instance,
) -> Result<Instance, Error>
    ensures value { Gives value_of result (inserted_bits (value_of e.now) (value_of bits.now) (value_of offset.now) (value_of count.now)) }
    ensures storable { IfOk result (λ v. IsStorable (value_of v)) }
{
    let are_values = e.is_well_formed() && bits.is_well_formed();
    if are_values && offset.is_well_formed() && count.is_well_formed() {
        wgsl_value_builtins::insertBits(alloc, e, bits, offset, count)
    } else {
        Err(Error::Memory)
    }
}

/// What `bitcast` with the type answers to the value. A type that is no `i32`, no `u32` and no vector of
/// these is refused by `Builtin`; what is not well-formed is answered with `Memory`. It calls itself
/// for each level of the value: keep to 4,095 within a stack of 8 MiB.
pub fn bitcast(alloc: Global, ty: &Type, e: &Instance) -> Result<Instance, Error>
    ensures value { Gives value_of result (bitcast_to (type_view ty.now) (value_of e.now)) }
    ensures storable { IfOk result (λ v. IsStorable (value_of v)) }
{
    if !e.is_well_formed() {
        return Err(Error::Memory);
    }
    if !wgsl_value_builtins::is_bitcast_target(ty) {
        return Err(Error::Builtin(BuiltinReason::NotI32OrU32));
    }
    wgsl_value_builtins::bitcast_t(alloc, ty, e)
}
