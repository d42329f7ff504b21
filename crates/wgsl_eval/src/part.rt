//! Parts of values: elements, members and swizzles (WGSL: composite value decomposition expressions).

ghost use Rattle.std.specs.Prelude.{[], ◌∷◌, ◌≡◌, ◌==◌, IfOk, IfSome, IsSomeAnd, MatchOption, Ok, map, Some, option_map};
ghost use Rattle.std.specs.List.{position};
ghost use Rattle.wgsl_eval.specs.Answers.{IsAnswer, IsFault, IsValueWith, value_in};
ghost use Rattle.wgsl_eval.specs.Constructors.{MayBe};
ghost use Rattle.wgsl_eval.specs.Evaluators.{setting_of};
ghost use Rattle.wgsl_eval.specs.Lists.{each_of};
ghost use Rattle.wgsl_eval.specs.Parts.{
  AreLetters,
  IsElement,
  IsElementOf,
  IsMember,
  IsMemberOf,
  IsPosition,
  IsSwizzle,
  component_named,
  swizzled,
};
ghost use Rattle.wgsl_eval.specs.Waitings.{IsWaiting, IsWhole, answer_of, value_at};
ghost use Rattle.wgsl_rules.specs.Paths.{parts, viewed};
ghost use Rattle.wgsl_rules.specs.Values.{IsStorable, index, member};
ghost use Rattle.wgsl_source.specs.Readings.{word_at};
ghost use Rattle.wgsl_scalar.specs.Literals.{literal_of as value_of_literal};
ghost use Rattle.wgsl_values.specs.View.{steps_of, value_of, vec_view};

use crate::answer::{Answer, Guard, Size, Value};
use crate::evaluator::Evaluator;
use crate::literals::vector_of;
use crate::waiting::has_value;
use std::alloc::{AllocError, Global};
use wgsl_apply::{Asked, literal_of};
use wgsl_scalar::LiteralInstance;
use wgsl_values::{Instance, MemView, VecInstance};

impl Evaluator<'_> {
    /// An element of a value.
    pub(crate) fn index(
        &mut self,
        token: usize,
        whole: Answer,
        index: Answer,
    ) -> Result<Answer, AllocError>
        requires whole { IsWaiting self.old.meanings.items whole }
        requires index { IsAnswer index }
        ensures keeps { setting_of self.new ≡ setting_of self.old }
        ensures element { IfOk result (IsElementOf (answer_of self.old.meanings.items whole) index) }
        ensures answer { IfOk result IsAnswer }
    {
        if has_value(&whole) {
            let answer = self.index_of(token, &whole, index);
            drop(whole);
            answer
        } else {
            drop(index);
            self.unready(token, whole)
        }
    }

    fn index_of(
        &mut self,
        token: usize,
        whole: &Answer,
        index: Answer,
    ) -> Result<Answer, AllocError>
        requires whole { IsWhole self.old.meanings.items whole.now }
        requires index { IsAnswer index }
        ensures keeps { setting_of self.new ≡ setting_of self.old }
        ensures element { IfOk result (λ answer. IsSomeAnd (value_at self.old.meanings.items whole.now) (λ v. IsElementOf (Answer.Value v) index answer)) }
        ensures answer { IfOk result IsAnswer }
    {
        match index {
            Answer::Value(index) => {
                let answer = self.element(token, whole, &index.instance);
                drop(index);
                answer
            }
            other => self.unready(token, other),
        }
    }

    #[tactic(auto, using(crate::proofs::PartLemmas::element_steps))]
    fn element(
        &mut self,
        token: usize,
        whole: &Answer,
        index: &Instance,
    ) -> Result<Answer, AllocError>
        requires { IsWhole self.old.meanings.items whole.now }
        ensures keeps { setting_of self.new ≡ setting_of self.old }
        ensures element { IfOk result (λ answer. IsSomeAnd (value_at self.old.meanings.items whole.now) (λ v. IsValueWith (IsElement (value_of v.instance) (value_of index.now)) answer)) }
        ensures answer { IfOk result IsAnswer }
    {
        match position_of(index) {
            Position::At(at) => self.element_at(token, whole, at),
            Position::Negative => self.negative(token, index),
            Position::None => self.wrong_text(token, "an index is an integer"),
        }
    }

    fn element_at(&mut self, token: usize, whole: &Answer, at: usize) -> Result<Answer, AllocError>
        requires { IsWhole self.old.meanings.items whole.now }
        ensures keeps { setting_of self.new ≡ setting_of self.old }
        ensures part { IfOk result (λ answer. IsSomeAnd (value_at self.old.meanings.items whole.now) (λ v. IsValueWith (λ w. viewed (index at ∷ []) (value_of v.instance) ≡ Ok w) answer)) }
        ensures answer { IfOk result IsAnswer }
    {
        let value = self.whole(whole);
        let size = value.size.part(count_of(&value.instance));
        if !self.spend(size.parts) {
            return self.too_large(token);
        }
        let value = self.whole(whole);
        self.element_of(token, &value.instance, at, size)
    }

    // An element of this size; what is refused needs memory for its view.
    #[tactic(auto, using(crate::proofs::PartLemmas::part_steps))]
    fn element_of(
        &self,
        token: usize,
        whole: &Instance,
        at: usize,
        size: Size,
    ) -> Result<Answer, AllocError>
        requires { IsStorable (value_of whole.now) }
        ensures part { IfOk result (IsValueWith (λ v. viewed (index at ∷ []) (value_of whole.now) ≡ Ok v)) }
        ensures answer { IfOk result IsAnswer }
    {
        match indexed(whole, at) {
            Some(element) => part_answer(self.alloc, element, size),
            None => {
                let view = MemView::Index(at, Box::new(self.alloc, MemView::Whole)?);
                self.part_viewed(token, whole, &view, size)
            }
        }
    }

    // An index below 0 is a fault of numbers.
    fn negative(&self, token: usize, index: &Instance) -> Result<Answer, AllocError>
        ensures { IfOk result IsFault }
    {
        let mut text = String::new(self.alloc);
        write!(text, "no element {index}")?;
        Ok(self.wrong(token, Guard::Guarded, text))
    }

    #[tactic(auto, using(crate::proofs::PartLemmas::part_steps))]
    fn part_viewed(
        &self,
        token: usize,
        whole: &Instance,
        view: &MemView,
        size: Size,
    ) -> Result<Answer, AllocError>
        requires { IsStorable (value_of whole.now) }
        ensures part { IfOk result (IsValueWith (λ v. viewed (steps_of view.now) (value_of whole.now) ≡ Ok v)) }
        ensures answer { IfOk result IsAnswer }
    {
        match whole.view(self.alloc, view) {
            Ok(part) => part_answer(self.alloc, part, size),
            Err(error) => {
                let answer = self.refused(token, &error, Asked::Part);
                drop(error);
                answer
            }
        }
    }

    /// A member of a structure, or components of a vector.
    pub(crate) fn member(&mut self, token: usize, whole: Answer) -> Result<Answer, AllocError>
        requires { IsWaiting self.old.meanings.items whole }
        ensures keeps { setting_of self.new ≡ setting_of self.old }
        ensures member { IfOk result (IsMemberOf (word_at self.old.reading.now token) (answer_of self.old.meanings.items whole)) }
        ensures answer { IfOk result IsAnswer }
    {
        if has_value(&whole) {
            let answer = self.member_of(token, &whole);
            drop(whole);
            answer
        } else {
            self.unready(token, whole)
        }
    }

    #[tactic(auto, using(crate::proofs::PartLemmas::member_steps))]
    fn member_of(&mut self, token: usize, whole: &Answer) -> Result<Answer, AllocError>
        requires { IsWhole self.old.meanings.items whole.now }
        ensures keeps { setting_of self.new ≡ setting_of self.old }
        ensures member { IfOk result (λ answer. IsSomeAnd (value_at self.old.meanings.items whole.now) (λ v. IsValueWith (IsMember (word_at self.old.reading.now token) (value_of v.instance)) answer)) }
        ensures answer { IfOk result IsAnswer }
    {
        let value = self.whole(whole);
        let size = value.size.part(1);
        match &value.instance {
            Instance::Vec(vector) => self.swizzle(token, vector),
            _ => self.member_at(token, whole, size),
        }
    }

    fn member_at(&mut self, token: usize, whole: &Answer, size: Size) -> Result<Answer, AllocError>
        requires { IsWhole self.old.meanings.items whole.now }
        ensures keeps { setting_of self.new ≡ setting_of self.old }
        ensures part { IfOk result (λ answer. IsSomeAnd (value_at self.old.meanings.items whole.now) (λ v. IsValueWith (λ w. viewed (member (word_at self.old.reading.now token) ∷ []) (value_of v.instance) ≡ Ok w) answer)) }
        ensures answer { IfOk result IsAnswer }
    {
        if !self.spend(size.parts) {
            return self.too_large(token);
        }
        let value = self.whole(whole);
        self.member_named(token, &value.instance, size)
    }

    // The member of the name that the token is, of this size; what is refused needs memory for its view.
    #[tactic(auto, using(crate::proofs::PartLemmas::part_steps))]
    fn member_named(&self, token: usize, whole: &Instance, size: Size) -> Result<Answer, AllocError>
        requires { IsStorable (value_of whole.now) }
        ensures part { IfOk result (IsValueWith (λ v. viewed (member (word_at self.now.reading.now token) ∷ []) (value_of whole.now) ≡ Ok v)) }
        ensures answer { IfOk result IsAnswer }
    {
        let word = self.reading.word(token);
        match named(whole, word) {
            Some(member) => part_answer(self.alloc, member, size),
            None => {
                let name = String::from_str(self.alloc, word)?;
                let view = MemView::Member(name, Box::new(self.alloc, MemView::Whole)?);
                self.part_viewed(token, whole, &view, size)
            }
        }
    }

    fn swizzle(&self, token: usize, vector: &VecInstance) -> Result<Answer, AllocError>
        ensures swizzle { IfOk result (IsValueWith (IsSwizzle (word_at self.now.reading.now token) (parts (vec_view vector.now)))) }
        ensures answer { IfOk result IsAnswer }
    {
        let word = self.reading.word(token);
        let Some(letters) = letters_of(word) else {
            return self.wrong_text(token, "components are named by xyzw or by rgba");
        };
        match picked(self.alloc, vector, letters, word.as_bytes())? {
            Some(components) => self.swizzled(token, components.as_slice()),
            None => self.no_component(token, vector),
        }
    }

    // One component, or a vector of more.
    #[tactic(auto, using(crate::proofs::Swizzles::swizzle_steps))]
    fn swizzled(&self, token: usize, components: &[LiteralInstance]) -> Result<Answer, AllocError>
        ensures value { IfOk result (MayBe (Some (swizzled (map value_of_literal components.now)))) }
        ensures answer { IfOk result IsAnswer }
    {
        if components.len() == 1 {
            return Ok(component_answer(components[0]));
        }
        let vector = vector_of(self.alloc, components)?;
        self.made_answer(token, vector, Size::ONE)
    }

    fn no_component(&self, token: usize, vector: &VecInstance) -> Result<Answer, AllocError>
        ensures { IfOk result IsFault }
    {
        let word = self.reading.word(token);
        let count = vector.n();
        let mut text = String::new(self.alloc);
        write!(text, "no {word} of a vector of {count} components")?;
        Ok(self.wrong(token, Guard::Never, text))
    }
}

// The element at the index.
fn indexed(value: &Instance, at: usize) -> Option<&Instance>
    ensures { IfSome result (λ v. viewed (index at ∷ []) (value_of value.now) ≡ Ok (value_of v.now)) }
{
    match value {
        Instance::Array(array) => array.get(at),
        Instance::Vec(vector) => vector.get(at),
        Instance::Mat(matrix) => matrix.col(at),
        _ => None,
    }
}

// The member of the name.
fn named<'a>(value: &'a Instance, name: &str) -> Option<&'a Instance>
    ensures { IfSome result (λ v. viewed (member name.now ∷ []) (value_of value.now) ≡ Ok (value_of v.now)) }
{
    match value {
        Instance::Struct(structure) => structure.member(name),
        _ => None,
    }
}

// A part of this size, as an answer of its own.
fn part_answer(alloc: Global, part: &Instance, size: Size) -> Result<Answer, AllocError>
    requires { IsStorable (value_of part.now) }
    ensures value { IfOk result (λ answer. value_in answer ≡ Some (value_of part.now)) }
    ensures answer { IfOk result IsAnswer }
{
    let part = part.clone(alloc)?;
    Ok(Answer::Value(Value::answered(part, size)))
}

/// Which element is asked for.
#[derive(Clone, Copy)]
enum Position {
    At(usize),
    Negative,
    None,
}

fn position_of(index: &Instance) -> Position
    ensures { IsPosition (value_of index.now) result }
{
    match literal_of(index) {
        Some(literal) => position_in(literal),
        None => Position::None,
    }
}

fn position_in(literal: LiteralInstance) -> Position
    ensures { IsPosition (value_of_literal literal) result }
{
    match literal {
        LiteralInstance::AbstractInt(n) => from_zero_on(usize::try_from(n).ok()),
        LiteralInstance::I64(n) => from_zero_on(usize::try_from(n).ok()),
        LiteralInstance::I32(n) => from_zero_on(usize::try_from(n).ok()),
        LiteralInstance::U32(n) => Position::At(n as usize),
        LiteralInstance::U64(n) => from_zero_on(usize::try_from(n).ok()),
        LiteralInstance::Bool(_) => Position::None,
    }
}

fn from_zero_on(at: Option<usize>) -> Position
    ensures { MatchOption at (result ≡ Position.Negative) (λ n. result ≡ Position.At n) }
{
    match at {
        Some(at) => Position::At(at),
        None => Position::Negative,
    }
}

// How many parts of one size a value has.
fn count_of(value: &Instance) -> usize {
    match value {
        Instance::Array(array) => array.n(),
        Instance::Vec(vector) => vector.n(),
        Instance::Mat(matrix) => matrix.c(),
        _ => 1,
    }
}

// The letters that the word is of, if it is of one kind and has 1 to 4.
fn letters_of(word: &str) -> Option<&'static [u8; 4]>
    ensures { IfSome result (λ letters. AreLetters letters.now) }
{
    if word.is_empty() || word.len() > 4 {
        return None;
    }
    if word.bytes().all(|letter| b"xyzw".contains(&letter)) {
        return Some(b"xyzw");
    }
    if word.bytes().all(|letter| b"rgba".contains(&letter)) {
        return Some(b"rgba");
    }
    None
}

// The components that the letters of the word name, one after the other.
#[tactic(auto, using(crate::proofs::Each::each_steps))]
fn picked(
    alloc: Global,
    vector: &VecInstance,
    letters: &[u8; 4],
    word: &[u8],
) -> Result<Option<Vec<LiteralInstance>>, AllocError>
    ensures { IfOk result (λ o. IfSome o (λ ls. each_of (component_named letters.now (parts (vec_view vector.now))) word.now ≡ Some (map value_of_literal ls.items))) }
{
    let mut components = Vec::with_capacity(alloc, word.len())?;
    for letter in word {
        match component(vector, letters, *letter) {
            Some(component) => components.push(component)?,
            None => return Ok(None),
        }
    }
    Ok(Some(components))
}

fn component(vector: &VecInstance, letters: &[u8; 4], letter: u8) -> Option<LiteralInstance>
    ensures { IfSome result (λ l. component_named letters.now (parts (vec_view vector.now)) letter ≡ Some (value_of_literal l)) }
{
    match component_at(vector, letters, letter) {
        Some(component) => literal_of(component),
        None => None,
    }
}

fn component_at<'a>(vector: &'a VecInstance, letters: &[u8; 4], letter: u8) -> Option<&'a Instance>
    ensures { option_map (λ v. value_of v.now) result ≡ component_named letters.now (parts (vec_view vector.now)) letter }
{
    vector.get(position_among(letters, letter)?)
}

fn position_among(letters: &[u8; 4], letter: u8) -> Option<usize>
    ensures { result ≡ position (λ own. own == letter) letters.now }
{
    letters.iter().position(|own| *own == letter)
}

fn component_answer(component: LiteralInstance) -> Answer
    ensures value { value_in result ≡ Some (value_of_literal component) }
    ensures answer { IsAnswer result }
{
    Answer::Value(Value::answered(Instance::from(component), Size::ONE))
}
