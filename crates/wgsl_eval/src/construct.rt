//! Values that are made of others (WGSL: value constructor built-in functions; zero value built-in
//! functions).

ghost use Rattle.std.specs.Prelude.{◌≡◌, ◌*◌, [], None, IfOk, IfSome, Some, length, map, option_map};
ghost use Rattle.wgsl_apply.specs.Zeros.{zero_of};
ghost use Rattle.wgsl_eval.specs.Answers.{AreAnswers, AreSound, IsAnswer, IsFault, IsMade};
ghost use Rattle.wgsl_eval.specs.Calls.{AreConverted, IsForValues};
ghost use Rattle.wgsl_eval.specs.Constructors.{
  AreScalars,
  IsInferred,
  IsMatrixOf,
  MayBe,
  are_abstract,
  are_floats,
  array_made,
  common_array,
  common_vector,
  components_for,
  constructed,
  is_abstract,
  made_of,
  matrix_made,
  matrix_of,
  members_made,
  of_length,
  scalar_made,
  scalars_of,
  structure_made,
  vector_made,
  vector_of,
};
ghost use Rattle.wgsl_eval.specs.Evaluators.{setting_of};
ghost use Rattle.wgsl_eval.specs.Lists.{each_of};
ghost use Rattle.wgsl_rules.specs.Converted.{converted};
ghost use Rattle.wgsl_rules.specs.Values.{IsStorable};
ghost use Rattle.wgsl_rules.specs.View.{members_view, struct_view, type_view};
ghost use Rattle.wgsl_scalar.specs.Literals.{literal_of as value_of_literal};
ghost use Rattle.wgsl_source.specs.declared.names.Generator.TheVariants as generators;
ghost use Rattle.wgsl_values.specs.View.{value_of};

use crate::answer::{Answer, Guard, Need, Size, Value};
use crate::call::{Arguments, INTEGRAL};
use crate::evaluator::Evaluator;
use crate::literals::{Conversion, Scalars, columns_of, components_of, flattened, vector_of};
use crate::sized::SizedType;
use std::alloc::AllocError;
use wgsl_apply::{
    automatic, in_common, literal_of, make_array, make_matrix, make_structure, zero, zero_literal,
};
use wgsl_functions::{Dialect, written};
use wgsl_rules::{StructMemberType, StructType, Type, convert_all};
use wgsl_scalar::LiteralInstance;
use wgsl_source::Generator;
use wgsl_values::Instance;

impl Evaluator<'_> {
    /// A value of the type, made of these values of this size.
    #[tactic(auto, using(crate::proofs::Answered::answered_steps))]
    pub(crate) fn made(
        &mut self,
        token: usize,
        of: &SizedType,
        values: &[Instance],
        size: Size,
    ) -> Result<Answer, AllocError>
        requires { AreSound values.now }
        ensures value { IfOk result (MayBe (constructed (type_view of.now.ty) (map value_of values.now))) }
        ensures answer { IfOk result IsAnswer }
        ensures keeps { setting_of self.new ≡ setting_of self.old }
    {
        if !self.affords(of.size, size) {
            return self.too_large(token);
        }
        if values.is_empty() {
            self.zero(token, &of.ty, of.size)
        } else {
            self.made_of(token, &of.ty, values, of.size)
        }
    }

    // Whether a value of the one size may be made of values of the other.
    fn affords(&mut self, made: Size, given: Size) -> bool
        ensures { setting_of self.new ≡ setting_of self.old }
    {
        if made.is_too_large() || given.is_too_large() {
            return false;
        }
        self.spend(made.larger(given).parts)
    }

    #[tactic(auto, using(crate::proofs::Answered::answered_steps))]
    fn zero(&self, token: usize, ty: &Type, size: Size) -> Result<Answer, AllocError>
        ensures value { IfOk result (MayBe (zero_of (type_view ty.now))) }
        ensures answer { IfOk result IsAnswer }
    {
        match zero(self.alloc, ty)? {
            Some(instance) => Ok(Answer::Value(Value { instance, size })),
            None => self.no_value(token, ty),
        }
    }

    // A value that is made of some.
    #[tactic(auto, using(crate::proofs::Answered::answered_steps))]
    fn made_of(
        &self,
        token: usize,
        ty: &Type,
        values: &[Instance],
        size: Size,
    ) -> Result<Answer, AllocError>
        requires { AreSound values.now }
        ensures value { IfOk result (MayBe (made_of (type_view ty.now) (map value_of values.now))) }
        ensures answer { IfOk result IsAnswer }
    {
        if zero_literal(ty).is_some() {
            return self.scalar(token, ty, values);
        }
        if let Some((n, scalar)) = ty.as_vec() {
            return self.vector(token, n, scalar, values);
        }
        if let Some((columns, rows, scalar)) = ty.as_mat() {
            return self.matrix(token, columns, rows, scalar, values);
        }
        if let Some((inner, Some(count))) = ty.as_array() {
            return self.array(token, inner, count, values, size);
        }
        match ty.as_struct() {
            Some(of) => self.structure_value(token, of, values, size),
            None => self.no_value(token, ty),
        }
    }

    fn no_value(&self, token: usize, ty: &Type) -> Result<Answer, AllocError>
        ensures { IfOk result IsFault }
    {
        let mut text = String::new(self.alloc);
        write!(text, "no value of {ty} is made so")?;
        Ok(self.wrong(token, Guard::Never, text))
    }

    // A conversion that is written out.
    #[tactic(auto, using(crate::proofs::Answered::answered_steps))]
    fn scalar(&self, token: usize, ty: &Type, values: &[Instance]) -> Result<Answer, AllocError>
        ensures value { IfOk result (MayBe (scalar_made (type_view ty.now) (map value_of values.now))) }
        ensures answer { IfOk result IsAnswer }
    {
        if values.len() != 1 {
            return self.wrong_count(token, 1, values.len());
        }
        let value = &values[0];
        let Some(literal) = literal_of(value) else {
            return self.not_converted(token, value, ty);
        };
        match written(literal, ty) {
            Some(literal) => self.made_answer(token, Some(Instance::from(literal)), Size::ONE),
            None => self.not_converted(token, value, ty),
        }
    }

    #[tactic(auto, using(crate::proofs::Answered::answered_steps))]
    fn vector(
        &self,
        token: usize,
        n: u8,
        scalar: &Type,
        values: &[Instance],
    ) -> Result<Answer, AllocError>
        ensures value { IfOk result (MayBe (vector_made n (type_view scalar.now) (map value_of values.now))) }
        ensures answer { IfOk result IsAnswer }
    {
        let components = match self.components(token, n, values)? {
            Scalars::Of(components) => components,
            Scalars::Other(answer) => return Ok(answer),
        };
        let conversion = Conversion::of(values);
        let converted = self.converted_scalars(token, components.as_slice(), scalar, conversion);
        drop(components);
        match converted? {
            Scalars::Of(converted) => self.vector_of(token, converted.as_slice()),
            Scalars::Other(answer) => Ok(answer),
        }
    }

    // The vector of the scalars.
    #[tactic(auto, using(crate::proofs::Answered::answered_steps))]
    fn vector_of(&self, token: usize, scalars: &[LiteralInstance]) -> Result<Answer, AllocError>
        ensures value { IfOk result (MayBe (Some (vector_of (map value_of_literal scalars.now)))) }
        ensures answer { IfOk result IsAnswer }
    {
        let vector = vector_of(self.alloc, scalars)?;
        self.made_answer(token, vector, Size::ONE)
    }

    // As many components as the vector has.
    fn components(&self, token: usize, n: u8, values: &[Instance]) -> Result<Scalars, AllocError>
        ensures { IfOk result (AreScalars (of_length n (components_for n (map value_of values.now)))) }
    {
        let n = usize::from(n);
        let Some(components) = components_of(self.alloc, n, values)? else {
            return self.no_scalars(token, "a vector is made of scalars and vectors");
        };
        if components.len() == n {
            Ok(Scalars::Of(components))
        } else {
            let answer = self.wrong_count(token, n, components.len())?;
            Ok(Scalars::Other(answer))
        }
    }

    #[tactic(auto, using(crate::proofs::Answered::answered_steps))]
    fn matrix(
        &self,
        token: usize,
        columns: u8,
        rows: u8,
        scalar: &Type,
        values: &[Instance],
    ) -> Result<Answer, AllocError>
        ensures value { IfOk result (MayBe (matrix_made columns rows (type_view scalar.now) (map value_of values.now))) }
        ensures answer { IfOk result IsAnswer }
    {
        let scalars = match self.scalars(token, columns, rows, values)? {
            Scalars::Of(scalars) => scalars,
            Scalars::Other(answer) => return Ok(answer),
        };
        let conversion = Conversion::Automatic;
        let converted = self.converted_scalars(token, scalars.as_slice(), scalar, conversion);
        drop(scalars);
        match converted? {
            Scalars::Of(converted) => self.matrix_of(token, columns, rows, converted.as_slice()),
            Scalars::Other(answer) => Ok(answer),
        }
    }

    // The scalars of a matrix, from columns or from scalars alone.
    fn scalars(
        &self,
        token: usize,
        columns: u8,
        rows: u8,
        values: &[Instance],
    ) -> Result<Scalars, AllocError>
        ensures { IfOk result (AreScalars (of_length (columns * rows) (scalars_of (map value_of values.now)))) }
    {
        let (columns, rows) = (usize::from(columns), usize::from(rows));
        let is_made_of = are_columns(values, rows) || are_scalars(values);
        match flattened(self.alloc, values)? {
            Some(scalars) if is_made_of && scalars.len() == columns * rows => {
                Ok(Scalars::Of(scalars))
            }
            other => {
                drop(other);
                self.no_scalars(token, "a matrix is made of its columns or of its scalars")
            }
        }
    }

    // A fault in the place of scalars.
    fn no_scalars(&self, token: usize, text: &str) -> Result<Scalars, AllocError>
        ensures { IfOk result (AreScalars None) }
    {
        let answer = self.wrong_text(token, text)?;
        Ok(Scalars::Other(answer))
    }

    // The matrix of the scalars of its columns, one after the other.
    #[tactic(auto, using(crate::proofs::Answered::answered_steps))]
    fn matrix_of(
        &self,
        token: usize,
        columns: u8,
        rows: u8,
        scalars: &[LiteralInstance],
    ) -> Result<Answer, AllocError>
        ensures value { IfOk result (MayBe (Some (matrix_of columns rows (map value_of_literal scalars.now)))) }
        ensures answer { IfOk result IsAnswer }
    {
        let (columns, rows) = (usize::from(columns), usize::from(rows));
        match columns_of(self.alloc, columns, rows, scalars)? {
            Some(columns) => self.made_answer(token, make_matrix(columns), Size::ONE),
            None => self.made_answer(token, None, Size::ONE),
        }
    }

    #[tactic(auto, using(crate::proofs::Answered::answered_steps))]
    fn array(
        &self,
        token: usize,
        inner: &Type,
        count: usize,
        values: &[Instance],
        size: Size,
    ) -> Result<Answer, AllocError>
        requires { AreSound values.now }
        ensures value { IfOk result (MayBe (array_made count (type_view inner.now) (map value_of values.now))) }
        ensures answer { IfOk result IsAnswer }
    {
        if values.len() != count {
            return self.wrong_count(token, count, values.len());
        }
        match self.each_converted(token, values, inner)? {
            Arguments::Values(elements, _) => self.made_answer(token, make_array(elements), size),
            Arguments::Other(answer) => Ok(answer),
        }
    }

    // Each of the values in the type to which it converts by itself.
    fn each_converted(
        &self,
        token: usize,
        values: &[Instance],
        ty: &Type,
    ) -> Result<Arguments, AllocError>
        requires { AreSound values.now }
        ensures { IfOk result (AreConverted (each_of (λ v. converted v (type_view ty.now)) (map value_of values.now))) }
    {
        let mut converted = Vec::with_capacity(self.alloc, values.len())?;
        for value in values {
            match automatic(self.alloc, value, ty)? {
                Some(element) => converted.push(element)?,
                None => {
                    drop(converted);
                    return self.unconverted(token, value, ty);
                }
            }
        }
        Ok(Arguments::Values(converted, Size::ONE))
    }

    // What a value that is none of the type leaves.
    fn unconverted(
        &self,
        token: usize,
        value: &Instance,
        ty: &Type,
    ) -> Result<Arguments, AllocError>
        ensures { IfOk result (AreConverted None) }
    {
        let answer = self.not_converted(token, value, ty)?;
        Ok(Arguments::Other(answer))
    }

    #[tactic(auto, using(crate::proofs::Answered::answered_steps))]
    fn structure_value(
        &self,
        token: usize,
        ty: &StructType,
        values: &[Instance],
        size: Size,
    ) -> Result<Answer, AllocError>
        requires { AreSound values.now }
        ensures value { IfOk result (MayBe (structure_made (struct_view ty.now) (map value_of values.now))) }
        ensures answer { IfOk result IsAnswer }
    {
        if values.len() != ty.members.len() {
            return self.wrong_count(token, ty.members.len(), values.len());
        }
        match self.members_converted(token, ty.members.as_slice(), values)? {
            Arguments::Values(members, _) => {
                self.made_answer(token, make_structure(ty.clone(self.alloc)?, members), size)
            }
            Arguments::Other(answer) => Ok(answer),
        }
    }

    // Each of the values in the type of its member.
    fn members_converted(
        &self,
        token: usize,
        members: &[StructMemberType],
        values: &[Instance],
    ) -> Result<Arguments, AllocError>
        requires sound { AreSound values.now }
        requires count { length values.now ≡ length members.now }
        ensures { IfOk result (AreConverted (members_made (members_view members.now) (map value_of values.now))) }
    {
        let mut converted = Vec::with_capacity(self.alloc, values.len())?;
        for (i, value) in values.iter().enumerate() {
            let ty = &members[i].ty;
            match automatic(self.alloc, value, ty)? {
                Some(member) => converted.push(member)?,
                None => {
                    drop(converted);
                    return self.unconverted(token, value, ty);
                }
            }
        }
        Ok(Arguments::Values(converted, Size::ONE))
    }
}

impl Evaluator<'_> {
    /// A call of a vector, a matrix or an array whose component type the values give.
    pub(crate) fn inferred(
        &mut self,
        token: usize,
        generator: Generator,
        arguments: Vec<Answer>,
    ) -> Result<Answer, AllocError>
        requires { AreAnswers arguments.items }
        ensures value { IfOk result (IsForValues arguments.items (IsInferred self.old.dialect generator)) }
        ensures answer { IfOk result IsAnswer }
        ensures keeps { setting_of self.new ≡ setting_of self.old }
    {
        let (values, size) = match self.values(token, arguments)? {
            Arguments::Values(values, size) => (values, size),
            Arguments::Other(answer) => return Ok(answer),
        };
        if !self.affords(size, size) {
            return self.too_large(token);
        }
        self.inferred_of(token, generator, values.as_slice(), size)
    }

    #[tactic(auto, using(crate::proofs::Answered::answered_steps))]
    fn inferred_of(
        &mut self,
        token: usize,
        generator: Generator,
        values: &[Instance],
        size: Size,
    ) -> Result<Answer, AllocError>
        requires { AreSound values.now }
        ensures keeps { setting_of self.new ≡ setting_of self.old }
        ensures value { IfOk result (IsInferred self.old.dialect generator (map value_of values.now)) }
        ensures answer { IfOk result IsAnswer }
    {
        match generator {
            Generator::Vec(n) => self.inferred_vector(token, n, values),
            Generator::Mat(columns, rows) => self.inferred_matrix(token, columns, rows, values),
            Generator::Array => self.inferred_array(token, values, size),
            Generator::Atomic => self.wrong_text(token, "an atomic is no value"),
        }
    }

    #[tactic(auto, using(crate::proofs::Answered::answered_steps))]
    fn inferred_vector(
        &self,
        token: usize,
        n: u8,
        values: &[Instance],
    ) -> Result<Answer, AllocError>
        requires { AreSound values.now }
        ensures value { IfOk result (MayBe (common_vector n (map value_of values.now))) }
        ensures answer { IfOk result IsAnswer }
    {
        if values.is_empty() {
            return self.zero_vector(token, n);
        }
        let components = match self.components(token, n, values)? {
            Scalars::Of(components) => components,
            Scalars::Other(answer) => return Ok(answer),
        };
        let common = convert_all(self.alloc, components.as_slice());
        drop(components);
        match common? {
            Some(common) => self.vector_of(token, common.as_slice()),
            None => self.no_common(token),
        }
    }

    // The vector of so many zeros, which are abstract.
    #[tactic(auto, using(crate::proofs::Answered::answered_steps))]
    fn zero_vector(&self, token: usize, n: u8) -> Result<Answer, AllocError>
        ensures value { IfOk result (MayBe (common_vector n [])) }
        ensures answer { IfOk result IsAnswer }
    {
        let ty = Type::Vec(n, Box::new(self.alloc, Type::AbstractInt)?);
        let vector = zero(self.alloc, &ty);
        drop(ty);
        self.made_answer(token, vector?, Size::ONE)
    }

    #[tactic(auto, using(crate::proofs::Answered::answered_steps))]
    fn inferred_matrix(
        &mut self,
        token: usize,
        columns: u8,
        rows: u8,
        values: &[Instance],
    ) -> Result<Answer, AllocError>
        requires { AreSound values.now }
        ensures keeps { setting_of self.new ≡ setting_of self.old }
        ensures value { IfOk result (IsInferred self.old.dialect (generators.Mat columns rows) (map value_of values.now)) }
        ensures answer { IfOk result IsAnswer }
    {
        let scalars = match self.scalars(token, columns, rows, values)? {
            Scalars::Of(scalars) => scalars,
            Scalars::Other(answer) => return Ok(answer),
        };
        let common = convert_all(self.alloc, scalars.as_slice());
        drop(scalars);
        match common? {
            Some(common) => self.common_matrix(token, columns, rows, common.as_slice()),
            None => self.no_common(token),
        }
    }

    // The matrix of scalars of one type. WGSL takes abstract integers for floats there.
    fn common_matrix(
        &mut self,
        token: usize,
        columns: u8,
        rows: u8,
        scalars: &[LiteralInstance],
    ) -> Result<Answer, AllocError>
        ensures keeps { setting_of self.new ≡ setting_of self.old }
        ensures value { IfOk result (IsMatrixOf self.old.dialect columns rows (map value_of_literal scalars.now)) }
        ensures answer { IfOk result IsAnswer }
    {
        if is_of_floats(self.dialect, scalars) {
            return Ok(self.skipped(token, Need::Float));
        }
        let answer = self.matrix_of(token, columns, rows, scalars)?;
        self.beyond(token, answer, INTEGRAL)
    }

    #[tactic(auto, using(crate::proofs::Answered::answered_steps))]
    fn inferred_array(
        &self,
        token: usize,
        values: &[Instance],
        size: Size,
    ) -> Result<Answer, AllocError>
        requires { AreSound values.now }
        ensures value { IfOk result (MayBe (common_array (map value_of values.now))) }
        ensures answer { IfOk result IsAnswer }
    {
        if values.is_empty() {
            return self.wrong_text(token, "an array has elements");
        }
        match in_common(self.alloc, values)? {
            Some(elements) => self.made_answer(token, make_array(elements), size),
            None => self.no_common(token),
        }
    }

    /// A value that was made of parts, or a fault where they do not fit.
    pub(crate) fn made_answer(
        &self,
        token: usize,
        value: Option<Instance>,
        size: Size,
    ) -> Result<Answer, AllocError>
        requires { IfSome value (λ v. IsStorable (value_of v)) }
        ensures made { IfOk result (IsMade (option_map value_of value)) }
        ensures answer { IfOk result IsAnswer }
    {
        match value {
            Some(instance) => Ok(Answer::Value(Value::answered(instance, size))),
            None => self.wrong_text(token, "no value is made so"),
        }
    }

    fn no_common(&self, token: usize) -> Result<Answer, AllocError>
        ensures { IfOk result IsFault }
    {
        self.wrong_text(token, "the values have no common type")
    }
}

// Whether the dialect takes scalars of one type for floats.
fn is_of_floats(dialect: Dialect, scalars: &[LiteralInstance]) -> bool
    ensures { result ≡ are_floats dialect (map value_of_literal scalars.now) }
{
    match dialect {
        Dialect::Wgsl => begins_abstract(scalars),
        Dialect::Crate => false,
    }
}

fn begins_abstract(scalars: &[LiteralInstance]) -> bool
    ensures { result ≡ are_abstract (map value_of_literal scalars.now) }
{
    match scalars.first() {
        Some(first) => is_abstract(*first),
        None => false,
    }
}

fn is_abstract(literal: LiteralInstance) -> bool
    ensures { result ≡ is_abstract (value_of_literal literal) }
{
    matches!(literal, LiteralInstance::AbstractInt(_))
}

fn are_columns(values: &[Instance], rows: usize) -> bool {
    values.iter().all(|value| match value {
        Instance::Vec(vector) => vector.n() == rows,
        _ => false,
    })
}

fn are_scalars(values: &[Instance]) -> bool {
    values
        .iter()
        .all(|value| matches!(value, Instance::Literal(_)))
}
