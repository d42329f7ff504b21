//! Names with template lists, and calls (WGSL: template lists; function call expression).

ghost use Rattle.std.specs.Prelude.{[], ◌∷◌, ◌≡◌, IfOk, IfSome, List, Some, map};
ghost use Rattle.std.specs.Result.{result_ok};
ghost use Rattle.wgsl_apply.specs.Literals.{natural_of};
ghost use Rattle.wgsl_functions.specs.Functions.{bitcast_to, of_values};
ghost use Rattle.wgsl_functions.specs.Parameters.{bitcast_in};
ghost use Rattle.wgsl_rules.specs.Values.{IsStorable};
ghost use Rattle.wgsl_eval.specs.Answers.{AreAnswers, AreSound, IsAnswer, IsFault, meaning_at};
ghost use Rattle.wgsl_eval.specs.Calls.{
  AreValues,
  IsBitcastOf,
  IsCall,
  IsCallOf,
  IsCopy,
  IsCounted,
  IsForValues,
  IsFunctionCall,
  IsGenerated,
  IsGeneratedOf,
  IsLanguageCall,
  IsNotCounted,
  IsOfType,
  IsOfValuesOf,
  IsSomeCall,
  IsTemplate,
  IsTemplateOf,
  IsTypeCall,
  IsTypeOr,
  bitcast_alone,
  function_of,
};
ghost use Rattle.wgsl_eval.specs.Constructors.{MayBe, constructed};
ghost use Rattle.wgsl_eval.specs.Evaluators.{setting_of};
ghost use Rattle.wgsl_eval.specs.Reasons.{need_of};
ghost use Rattle.wgsl_eval.specs.TypeNames.{generated_type};
ghost use Rattle.wgsl_rules.specs.View.{type_view};
ghost use Rattle.wgsl_source.specs.Readings.{word_at};
ghost use Rattle.wgsl_values.specs.View.{value_of};

use crate::answer::{Answer, Guard, Need, Part, Size, Value};
use crate::evaluator::Evaluator;
use crate::opaque::is_opaque;
use crate::sized::SizedType;
use crate::types::generated;
use std::alloc::{AllocError, Global};
use std::slice;
use wgsl_apply::{Asked, literal_of, natural};
use wgsl_functions::{Builtin, against_function, bitcast, bitcast_argument};
use wgsl_rules::Type;
use wgsl_scalar::{Error, LiteralInstance};
use wgsl_source::{Generator, Predeclared, language_name};
use wgsl_values::Instance;

/// What is told of matrices of integers.
pub(crate) const INTEGRAL: &str = "WGSL has no matrices of integers";

/// Values that are called with and how large they are together, or why they are none.
#[derive(Drop)]
pub(crate) enum Arguments {
    Values(Vec<Instance>, Size),
    Other(Answer),
}

impl Evaluator<'_> {
    /// A name with a template list.
    pub(crate) fn template(
        &mut self,
        token: usize,
        arguments: Vec<Answer>,
    ) -> Result<Answer, AllocError>
        requires { AreAnswers arguments.items }
        ensures keeps { setting_of self.new ≡ setting_of self.old }
        ensures template { IfOk result (IsTemplate (setting_of self.old) (word_at self.old.reading.now token) arguments.items) }
        ensures answer { IfOk result IsAnswer }
    {
        let reading = self.reading;
        match reading.number_of(reading.word(token)) {
            Some(_) => {
                drop(arguments);
                self.wrong_text(token, "this takes no template list")
            }
            None => self.language_template(token, arguments),
        }
    }

    fn language_template(
        &mut self,
        token: usize,
        arguments: Vec<Answer>,
    ) -> Result<Answer, AllocError>
        requires { AreAnswers arguments.items }
        ensures keeps { setting_of self.new ≡ setting_of self.old }
        ensures template { IfOk result (IsTemplateOf (word_at self.old.reading.now token) arguments.items) }
        ensures answer { IfOk result IsAnswer }
    {
        let reading = self.reading;
        let word = reading.word(token);
        if word == "bitcast" {
            return self.bitcast_of(token, arguments);
        }
        match language_name(word) {
            Some(Predeclared::Generator(generator)) => self.generated(token, generator, arguments),
            named => {
                drop(arguments);
                self.no_template(token, named)
            }
        }
    }

    // What a name of the language leaves that takes no template list.
    fn no_template(
        &mut self,
        token: usize,
        named: Option<Predeclared>,
    ) -> Result<Answer, AllocError>
        ensures keeps { setting_of self.new ≡ setting_of self.old }
        ensures template { (given : List Answer) → IfOk result (IsTemplateOf (word_at self.old.reading.now token) given) }
        ensures answer { IfOk result IsAnswer }
    {
        let reading = self.reading;
        match named {
            Some(_) => self.wrong_text(token, "this takes no template list"),
            None if is_opaque(reading.word(token)) => Ok(self.skipped(token, Need::Opaque)),
            None => self.nothing_named(token),
        }
    }

    fn bitcast_of(&self, token: usize, mut arguments: Vec<Answer>) -> Result<Answer, AllocError>
        ensures bitcast { IfOk result (IsBitcastOf arguments.items) }
        ensures answer { IfOk result IsAnswer }
    {
        let count = arguments.len();
        let last = arguments.pop();
        drop(arguments);
        match last {
            Some(Answer::Type(of)) if count == 1 => Ok(Answer::Bitcast(of)),
            other => {
                drop(other);
                self.wrong_text(token, "bitcast takes a type")
            }
        }
    }

    fn generated(
        &mut self,
        token: usize,
        generator: Generator,
        mut arguments: Vec<Answer>,
    ) -> Result<Answer, AllocError>
        requires { AreAnswers arguments.items }
        ensures keeps { setting_of self.new ≡ setting_of self.old }
        ensures generated { IfOk result (IsGenerated generator arguments.items) }
        ensures answer { IfOk result IsAnswer }
    {
        let count = arguments.len();
        let last = arguments.pop().unwrap_or(Answer::Faulty);
        match (generator, count) {
            (_, 1) => {
                drop(arguments);
                self.generated_of(token, generator, last, None)
            }
            (Generator::Array, 2) => {
                let inner = arguments.pop().unwrap_or(Answer::Faulty);
                drop(arguments);
                self.counted(token, inner, last)
            }
            _ => {
                drop(last);
                drop(arguments);
                self.wrong_text(token, "this type takes other arguments")
            }
        }
    }

    // An array of as many elements as the second argument says.
    fn counted(&mut self, token: usize, inner: Answer, count: Answer) -> Result<Answer, AllocError>
        requires inner { IsAnswer inner }
        requires count { IsAnswer count }
        ensures keeps { setting_of self.new ≡ setting_of self.old }
        ensures counted { IfOk result (IsCounted inner count) }
        ensures answer { IfOk result IsAnswer }
    {
        let value = match count {
            Answer::Value(value) => value,
            other => {
                drop(inner);
                return self.not_counted(token, other);
            }
        };
        let natural = natural_in(&value.instance);
        drop(value);
        match natural {
            Some(count) if count > 0 => {
                self.generated_of(token, Generator::Array, inner, Some(count))
            }
            _ => {
                drop(inner);
                self.wrong_text(token, "a count is from 1 to 4294967295")
            }
        }
    }

    // What a count that is no value leaves.
    fn not_counted(&self, token: usize, count: Answer) -> Result<Answer, AllocError>
        requires { IsAnswer count }
        ensures counted { IfOk result (IsNotCounted count) }
        ensures answer { IfOk result IsAnswer }
    {
        match count {
            Answer::Skipped(skip) => Ok(Answer::Skipped(skip.in_part(Part::Count))),
            other => self.unready(token, other),
        }
    }

    fn generated_of(
        &mut self,
        token: usize,
        generator: Generator,
        inner: Answer,
        count: Option<u32>,
    ) -> Result<Answer, AllocError>
        requires { IsAnswer inner }
        ensures keeps { setting_of self.new ≡ setting_of self.old }
        ensures generated { IfOk result (IsGeneratedOf generator inner count) }
        ensures answer { IfOk result IsAnswer }
    {
        match inner {
            Answer::Type(inner) => {
                if !generator.takes(&inner.ty) {
                    drop(inner);
                    return self.wrong_text(token, "this is no type of a component here");
                }
                self.type_of(token, generator, inner, count)
            }
            other => self.no_type(token, other),
        }
    }

    fn type_of(
        &mut self,
        token: usize,
        generator: Generator,
        inner: SizedType,
        count: Option<u32>,
    ) -> Result<Answer, AllocError>
        ensures keeps { setting_of self.new ≡ setting_of self.old }
        ensures ty { IfOk result (IsTypeOr (generated_type generator (type_view inner.ty) count)) }
        ensures answer { IfOk result IsAnswer }
    {
        let is_integral = is_matrix(generator) && !inner.has_float;
        let of = generated(self.alloc, generator, inner, count)?;
        let answer = self.limited(token, of)?;
        if is_integral {
            self.beyond(token, answer, INTEGRAL)
        } else {
            Ok(answer)
        }
    }
}

impl Evaluator<'_> {
    /// A call of a name.
    pub(crate) fn call(
        &mut self,
        token: usize,
        arguments: Vec<Answer>,
    ) -> Result<Answer, AllocError>
        requires meanings { AreAnswers self.old.meanings.items }
        requires arguments { AreAnswers arguments.items }
        ensures keeps { setting_of self.new ≡ setting_of self.old }
        ensures call { IfOk result (IsCall (setting_of self.old) (word_at self.old.reading.now token) arguments.items) }
        ensures answer { IfOk result IsAnswer }
    {
        let reading = self.reading;
        match reading.number_of(reading.word(token)) {
            Some(number) => self.call_declared(token, number, arguments),
            None => self.call_language(token, arguments),
        }
    }

    // A call of a name that the language has.
    fn call_language(&mut self, token: usize, arguments: Vec<Answer>) -> Result<Answer, AllocError>
        requires { AreAnswers arguments.items }
        ensures keeps { setting_of self.new ≡ setting_of self.old }
        ensures call { IfOk result (IsLanguageCall (setting_of self.old) (word_at self.old.reading.now token) arguments.items) }
        ensures answer { IfOk result IsAnswer }
    {
        let reading = self.reading;
        let word = reading.word(token);
        if let Some(function) = Builtin::named(word) {
            return self.call_function(token, function, arguments);
        }
        match language_name(word) {
            Some(named) => self.call_type(token, named, arguments),
            None if is_opaque(word) => {
                drop(arguments);
                self.wrong_text(token, "no value is made of this")
            }
            None => {
                drop(arguments);
                self.nothing_named(token)
            }
        }
    }

    fn call_type(
        &mut self,
        token: usize,
        named: Predeclared,
        arguments: Vec<Answer>,
    ) -> Result<Answer, AllocError>
        requires { AreAnswers arguments.items }
        ensures keeps { setting_of self.new ≡ setting_of self.old }
        ensures call { IfOk result (IsTypeCall (setting_of self.old) named arguments.items) }
        ensures answer { IfOk result IsAnswer }
    {
        match named {
            Predeclared::Generator(generator) => self.inferred(token, generator, arguments),
            _ => {
                let callee = self.language_type(token, named)?;
                self.call_answer(token, callee, arguments)
            }
        }
    }

    fn call_declared(
        &mut self,
        token: usize,
        number: usize,
        arguments: Vec<Answer>,
    ) -> Result<Answer, AllocError>
        requires meanings { AreAnswers self.old.meanings.items }
        requires arguments { AreAnswers arguments.items }
        ensures keeps { setting_of self.new ≡ setting_of self.old }
        ensures call { IfOk result (IsSomeCall self.old.dialect (IsCopy (meaning_at self.old.meanings.items number)) arguments.items) }
        ensures answer { IfOk result IsAnswer }
    {
        let callee = self.copied(token, number)?;
        self.call_answer(token, callee, arguments)
    }

    /// A call of an answer: of a type, or of `bitcast` with its type.
    pub(crate) fn call_answer(
        &mut self,
        token: usize,
        callee: Answer,
        arguments: Vec<Answer>,
    ) -> Result<Answer, AllocError>
        requires callee { IsAnswer callee }
        requires arguments { AreAnswers arguments.items }
        ensures keeps { setting_of self.new ≡ setting_of self.old }
        ensures call { IfOk result (IsCallOf self.old.dialect callee arguments.items) }
        ensures answer { IfOk result IsAnswer }
    {
        match callee {
            Answer::Type(of) => {
                let answer = self.called(token, &of, arguments);
                drop(of);
                answer
            }
            Answer::Bitcast(of) => {
                let answer = self.bitcast_called(token, &of, arguments);
                drop(of);
                answer
            }
            Answer::Value(value) => {
                drop(value);
                drop(arguments);
                self.wrong_text(token, "this is no type and no function")
            }
            other => {
                drop(arguments);
                Ok(other)
            }
        }
    }

    // A call of a type.
    fn called(
        &mut self,
        token: usize,
        of: &SizedType,
        arguments: Vec<Answer>,
    ) -> Result<Answer, AllocError>
        requires { AreAnswers arguments.items }
        ensures keeps { setting_of self.new ≡ setting_of self.old }
        ensures call { IfOk result (IsForValues arguments.items (IsOfType (type_view of.now.ty) (constructed (type_view of.now.ty)))) }
        ensures answer { IfOk result IsAnswer }
    {
        match self.values(token, arguments)? {
            Arguments::Values(_, _) if of.has_float => Ok(self.skipped(token, Need::Float)),
            Arguments::Values(values, size) => self.made(token, of, values.as_slice(), size),
            Arguments::Other(answer) => Ok(answer),
        }
    }

    // A call of `bitcast` with the type.
    fn bitcast_called(
        &mut self,
        token: usize,
        of: &SizedType,
        arguments: Vec<Answer>,
    ) -> Result<Answer, AllocError>
        requires { AreAnswers arguments.items }
        ensures keeps { setting_of self.new ≡ setting_of self.old }
        ensures call { IfOk result (IsForValues arguments.items (IsOfType (type_view of.now.ty) (bitcast_alone self.old.dialect (type_view of.now.ty)))) }
        ensures answer { IfOk result IsAnswer }
    {
        match self.values(token, arguments)? {
            Arguments::Values(_, _) if of.has_float => Ok(self.skipped(token, Need::Float)),
            Arguments::Values(values, _) => self.bitcast(token, &of.ty, values),
            Arguments::Other(answer) => Ok(answer),
        }
    }

    /// The values of a call and how large they are together, or why there are none.
    pub(crate) fn values(
        &self,
        token: usize,
        arguments: Vec<Answer>,
    ) -> Result<Arguments, AllocError>
        requires { AreAnswers arguments.items }
        ensures { IfOk result (AreValues arguments.items) }
    {
        let mut values = Vec::with_capacity(self.alloc, arguments.len())?;
        let mut size = Size::ONE;
        for argument in arguments {
            match argument {
                Answer::Value(value) => {
                    size = size.with(value.size);
                    values.push(value.instance)?;
                }
                other => {
                    drop(values);
                    return self.unready(token, other).map(Arguments::Other);
                }
            }
        }
        Ok(Arguments::Values(values, size))
    }

    fn call_function(
        &mut self,
        token: usize,
        function: Builtin,
        arguments: Vec<Answer>,
    ) -> Result<Answer, AllocError>
        requires { AreAnswers arguments.items }
        ensures keeps { setting_of self.new ≡ setting_of self.old }
        ensures call { IfOk result (IsFunctionCall (setting_of self.old) function arguments.items) }
        ensures answer { IfOk result IsAnswer }
    {
        match function.count() {
            Some(count) => self.call_counted(token, function, count, arguments),
            None => Ok(self.skipped(token, need_of(function))),
        }
    }

    // A call of a function of so many values.
    fn call_counted(
        &mut self,
        token: usize,
        function: Builtin,
        count: usize,
        arguments: Vec<Answer>,
    ) -> Result<Answer, AllocError>
        requires { AreAnswers arguments.items }
        ensures keeps { setting_of self.new ≡ setting_of self.old }
        ensures call { IfOk result (IsOfValuesOf (function_of self.old.dialect function self.old.stage) arguments.items) }
        ensures answer { IfOk result IsAnswer }
    {
        match self.values(token, arguments)? {
            Arguments::Values(values, _) if values.len() != count => {
                self.wrong_count(token, count, values.len())
            }
            Arguments::Values(values, size) => self.answered(token, function, values, size),
            Arguments::Other(answer) => Ok(answer),
        }
    }

    fn answered(
        &mut self,
        token: usize,
        function: Builtin,
        values: Vec<Instance>,
        size: Size,
    ) -> Result<Answer, AllocError>
        requires { AreSound values.items }
        ensures keeps { setting_of self.new ≡ setting_of self.old }
        ensures value { IfOk result (MayBe (function_of self.old.dialect function self.old.stage (map value_of values.items))) }
        ensures answer { IfOk result IsAnswer }
    {
        if !self.spend(size.parts) {
            drop(values);
            return self.too_large(token);
        }
        match function.arguments(self.alloc, self.dialect, values)? {
            Ok(values) => {
                let answer = self.answered_to(token, function, values.as_slice(), size);
                drop(values);
                answer
            }
            Err(unfit) => {
                let answer = self.not_converted(token, &unfit.value, &unfit.ty);
                drop(unfit);
                answer
            }
        }
    }

    // What a function answers to the values as it takes them.
    fn answered_to(
        &mut self,
        token: usize,
        function: Builtin,
        values: &[Instance],
        size: Size,
    ) -> Result<Answer, AllocError>
        ensures keeps { setting_of self.new ≡ setting_of self.old }
        ensures value { IfOk result (MayBe (result_ok (of_values function self.old.stage (map value_of values.now)))) }
        ensures answer { IfOk result IsAnswer }
    {
        match function.answer(self.alloc, self.stage, values) {
            Ok(answer) => {
                let against = against_function(function, self.stage, values);
                self.judged(token, Value::answered(answer, size), against)
            }
            Err(error) => {
                let answer = self.refused_call(token, &error, values);
                drop(error);
                answer
            }
        }
    }

    fn refused_call(
        &self,
        token: usize,
        error: &Error,
        values: &[Instance],
    ) -> Result<Answer, AllocError>
        ensures { IfOk result IsFault }
    {
        let word = self.reading.word(token);
        self.refused(token, error, Asked::Function(word, values))
    }

    fn bitcast(
        &self,
        token: usize,
        ty: &Type,
        mut values: Vec<Instance>,
    ) -> Result<Answer, AllocError>
        requires { AreSound values.items }
        ensures value { IfOk result (MayBe (bitcast_alone self.now.dialect (type_view ty.now) (map value_of values.items))) }
        ensures answer { IfOk result IsAnswer }
    {
        let count = values.len();
        let last = values.pop();
        drop(values);
        match last {
            Some(value) if count == 1 => self.bitcast_of_one(token, ty, value),
            other => {
                drop(other);
                self.wrong_count(token, 1, count)
            }
        }
    }

    fn bitcast_of_one(&self, token: usize, ty: &Type, value: Instance) -> Result<Answer, AllocError>
        requires { IsStorable (value_of value) }
        ensures value { IfOk result (MayBe (result_ok (bitcast_in self.now.dialect (type_view ty.now) (value_of value)))) }
        ensures answer { IfOk result IsAnswer }
    {
        match bitcast_argument(self.alloc, self.dialect, value)? {
            Ok(value) => {
                let answer = self.bitcast_to(token, ty, &value);
                drop(value);
                answer
            }
            Err(unfit) => {
                let answer = self.not_converted(token, &unfit.value, &unfit.ty);
                drop(unfit);
                answer
            }
        }
    }

    // The bits of the value as it is taken.
    fn bitcast_to(&self, token: usize, ty: &Type, value: &Instance) -> Result<Answer, AllocError>
        ensures value { IfOk result (MayBe (result_ok (bitcast_to (type_view ty.now) (value_of value.now)))) }
        ensures answer { IfOk result IsAnswer }
    {
        match bitcast(self.alloc, ty, value) {
            Ok(answer) => Ok(Answer::Value(Value::answered(answer, Size::ONE))),
            Err(error) => {
                let answer = self.refused_bitcast(token, &error, slice::from_ref(value));
                drop(error);
                answer
            }
        }
    }

    // The standard takes a negative number as an i32 first.
    fn refused_bitcast(
        &self,
        token: usize,
        error: &Error,
        values: &[Instance],
    ) -> Result<Answer, AllocError>
        ensures { IfOk result IsFault }
    {
        match error {
            Error::ConvOverflow(number, Type::U32) => {
                let text = no_u32(self.alloc, *number)?;
                Ok(self.wrong(token, Guard::Guarded, text))
            }
            _ => self.refused_call(token, error, values),
        }
    }

    /// A call with another count of values than it takes.
    pub(crate) fn wrong_count(
        &self,
        token: usize,
        wanted: usize,
        given: usize,
    ) -> Result<Answer, AllocError>
        ensures { IfOk result IsFault }
    {
        let word = self.reading.word(token);
        let mut text = String::new(self.alloc);
        write!(text, "{word} takes {wanted} values, and {given} are given")?;
        Ok(self.wrong(token, Guard::Never, text))
    }
}

// What is told of a number whose bits are asked for as those of a u32.
fn no_u32(alloc: Global, number: LiteralInstance) -> Result<String, AllocError> {
    let mut text = String::new(alloc);
    write!(text, "{number} is no u32: bitcast<u32>({number}); ")?;
    text.push_str("the standard takes it as an i32 first (WGSL: bitcast)")?;
    Ok(text)
}

// What a function needs that is none of integers.
fn need_of(function: Builtin) -> Need
    ensures { result ≡ need_of function }
{
    match function {
        Builtin::Float => Need::Float,
        _ => Need::Runtime,
    }
}

fn is_matrix(generator: Generator) -> bool {
    matches!(generator, Generator::Mat(_, _))
}

/// The integer from 0 to 4294967295 that a value is.
pub(crate) fn natural_in(value: &Instance) -> Option<u32>
    ensures { result ≡ natural_of (value_of value.now) }
{
    natural(literal_of(value)?)
}
