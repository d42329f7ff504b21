//! Gives declarations their meanings (WGSL: value declarations; type aliases).

ghost use Rattle.std.specs.Prelude.{◌≡◌, ◌≢◌, ◌<◌, ◌↔◌, IfOk, IfSome, IsSomeAnd, IsTrue, List, MatchBool, OnErr, OnOk, Some, slice_get, vec_len};
ghost use Rattle.wgsl_rules.specs.Converted.{converted};
ghost use Rattle.wgsl_rules.specs.Values.{IsStorable, type_of};
ghost use Rattle.wgsl_rules.specs.View.{type_view};
ghost use Rattle.wgsl_scalar.specs.Literals.{literal_of};
ghost use Rattle.wgsl_values.specs.View.{value_of};
ghost use Rattle.wgsl_eval.specs.Answers.{AreAnswers, IsAnswer, IsFault, IsNoType, IsSoundValue, IsValueWith, meaning_at};
ghost use Rattle.wgsl_eval.specs.Evaluation.{name_at};
ghost use Rattle.wgsl_eval.specs.Meanings.{AreOthers, IsAlias, IsBesideType, IsConcreteValue, IsConstant, IsDeclared, IsFoundAt, IsGivenValue, IsLimited, IsOverride, IsOverrideNamed, IsOwnValue, IsPlaced, IsSecond, IsTypedBy, IsUnset, IsWithheld, is_first, told, with_all, with_faults, with_meaning};
ghost use Rattle.wgsl_eval.specs.Messages.{faults_with};
ghost use Rattle.wgsl_eval.specs.Evaluators.{setting_of};
ghost use Rattle.wgsl_eval.specs.Structures.{AreFaultsBehind, behind_first};

use crate::answer::{Answer, Guard, Need, Value};
use crate::evaluator::Evaluator;
use crate::given::given_for;
use crate::message::Message;
use crate::sized::SizedType;
use std::alloc::AllocError;
use std::mem;
use wgsl_apply::{automatic, concrete};
use wgsl_rules::{ShaderStage, Ty, Type};
use wgsl_scalar::LiteralInstance;
use wgsl_source::{Declared, Span};
use wgsl_values::Instance;

impl Evaluator<'_> {
    /// Gives one declaration its meaning, those that it names having theirs.
    pub(crate) fn declare(&mut self, number: usize) -> Result<(), AllocError>
        requires { AreAnswers self.old.meanings.items }
        ensures found { OnOk result (IsFoundAt (setting_of self.old) number (setting_of self.new)) }
        ensures answers { AreAnswers self.new.meanings.items }
    {
        if self.is_second(number) {
            return Ok(());
        }
        let meaning = self.meaning_of(number)?;
        match self.tell_beside(number, &meaning) {
            Ok(()) => self.set_meaning(number, meaning),
            Err(error) => {
                drop(meaning);
                Err(error)
            }
        }
    }

    // Tells the faults beside the meaning.
    fn tell_beside(&mut self, number: usize, meaning: &Answer) -> Result<(), AllocError>
        requires { AreAnswers self.old.meanings.items }
        ensures told { OnOk result ((others : List Message) × AreOthers (setting_of self.old) (slice_get self.old.reading.now.declared number) meaning.now others × (setting_of self.new ≡ with_all (setting_of self.old) others)) }
        ensures meanings { self.new.meanings.items ≡ self.old.meanings.items }
    {
        let others = self.faults_beside(number, meaning)?;
        self.tell_all(others)
    }

    // The faults of the members of a structure that has none of a type, but for the first where its meaning is a fault: it
    // is that one, unless the structure is faulty by a name that two members have.
    fn faults_beside(&mut self, number: usize, meaning: &Answer) -> Result<Vec<Message>, AllocError>
        requires { AreAnswers self.old.meanings.items }
        ensures keeps { setting_of self.new ≡ setting_of self.old }
        ensures others { IfOk result (λ others. AreOthers (setting_of self.old) (slice_get self.old.reading.now.declared number) meaning.now others.items) }
    {
        let Some(Declared::Struct { first, end }) = self.reading.declared(number) else {
            return Ok(Vec::new(self.alloc));
        };
        match meaning {
            Answer::Wrong(_, _) => self.faults_behind(first, end),
            Answer::Skipped(_) | Answer::Faulty => self.faults_of_members(first, end),
            _ => Ok(Vec::new(self.alloc)),
        }
    }

    fn faults_behind(&mut self, first: usize, end: usize) -> Result<Vec<Message>, AllocError>
        requires { AreAnswers self.old.meanings.items }
        ensures keeps { setting_of self.new ≡ setting_of self.old }
        ensures others { IfOk result (λ others. AreFaultsBehind (setting_of self.old) first end others.items) }
    {
        let faults = self.faults_of_members(first, end)?;
        Ok(behind_first(faults))
    }

    // Tells all of these faults.
    fn tell_all(&mut self, faults: Vec<Message>) -> Result<(), AllocError>
        ensures told { OnOk result (setting_of self.new ≡ with_all (setting_of self.old) faults.items) }
        ensures meanings { self.new.meanings.items ≡ self.old.meanings.items }
    {
        self.messages.add_faults(faults)
    }

    // What the declaration stands for.
    fn meaning_of(&mut self, number: usize) -> Result<Answer, AllocError>
        requires { AreAnswers self.old.meanings.items }
        ensures keeps { setting_of self.new ≡ setting_of self.old }
        ensures declared { IfOk result (IsDeclared (setting_of self.old) (name_at self.old.reading.now number) (slice_get self.old.reading.now.declared number)) }
        ensures answer { IfOk result IsAnswer }
    {
        let name = self.reading.name(number);
        match self.reading.declared(number) {
            Some(Declared::Const { ty, value }) => self.constant(ty, value),
            Some(Declared::Override { ty, value }) => self.overridable(name, ty, value),
            Some(Declared::Alias(ty)) => self.alias(ty),
            Some(Declared::Struct { first, end }) => self.structure(name, first, end),
            Some(Declared::Variable(variable)) => self.variable(name, variable),
            Some(Declared::Function) => Ok(self.skipped(name, Need::Function)),
            None => Ok(Answer::Faulty),
        }
    }

    // Whether another declaration has the name, which is a fault of its own.
    fn is_second(&self, number: usize) -> bool
        ensures { IsTrue result ↔ IsSecond self.now.reading.now number }
    {
        let name = self.reading.word(self.reading.name(number));
        is_other(self.reading.number_of(name), number)
    }

    fn set_meaning(&mut self, number: usize, meaning: Answer) -> Result<(), AllocError>
        requires answers { AreAnswers self.old.meanings.items }
        requires answer { IsAnswer meaning }
        ensures others { IsPlaced (setting_of self.old) number (setting_of self.new) }
        ensures faults { OnOk result ((setting_of self.new).faults ≡ faults_with (setting_of self.old).faults meaning) }
        ensures there { OnOk result (number < vec_len self.old.meanings → meaning_at self.new.meanings.items number ≡ told meaning) }
        ensures answers { AreAnswers self.new.meanings.items }
    {
        let meaning = self.told(meaning)?;
        if number >= self.meanings.len() {
            drop(meaning);
            return Ok(());
        }
        self.put(number, meaning);
        Ok(())
    }

    // Tells a fault, which is told once.
    fn told(&mut self, meaning: Answer) -> Result<Answer, AllocError>
        requires { IsAnswer meaning }
        ensures faults { OnOk result (setting_of self.new ≡ with_faults (setting_of self.old) meaning) }
        ensures kept { OnErr result (setting_of self.new ≡ setting_of self.old) }
        ensures told { IfOk result (λ a. a ≡ told meaning) }
        ensures answer { IfOk result IsAnswer }
    {
        match meaning {
            Answer::Wrong(message, _) => {
                self.tell(message)?;
                Ok(Answer::Faulty)
            }
            other => Ok(other),
        }
    }

    fn put(&mut self, number: usize, meaning: Answer)
        requires place { number < vec_len self.old.meanings }
        requires answers { AreAnswers self.old.meanings.items }
        requires answer { IsAnswer meaning }
        ensures put { setting_of self.new ≡ with_meaning (setting_of self.old) number meaning }
        ensures answers { AreAnswers self.new.meanings.items }
    {
        drop(mem::replace(&mut self.meanings[number], meaning));
    }

    fn constant(&mut self, ty: Option<Span>, value: Span) -> Result<Answer, AllocError>
        requires { AreAnswers self.old.meanings.items }
        ensures keeps { setting_of self.new ≡ setting_of self.old }
        ensures found { IfOk result (IsConstant (setting_of self.old) ty value) }
        ensures answer { IfOk result IsAnswer }
    {
        let answer = self.expression(value)?;
        let Some(ty) = ty else {
            return self.unready(value.token, answer);
        };
        match answer {
            Answer::Value(found) => self.typed(value.token, found, ty),
            Answer::Skipped(skip) => self.beside_type(ty, Answer::Skipped(skip)),
            other => self.unready(value.token, other),
        }
    }

    // The answer, where its type is one.
    fn beside_type(&mut self, ty: Span, answer: Answer) -> Result<Answer, AllocError>
        requires meanings { AreAnswers self.old.meanings.items }
        requires answer { IsAnswer answer }
        ensures keeps { setting_of self.new ≡ setting_of self.old }
        ensures found { IfOk result (IsBesideType (setting_of self.old) ty answer) }
        ensures answer { IfOk result IsAnswer }
    {
        match self.expression(ty) {
            Ok(Answer::Type(of)) => {
                drop(of);
                Ok(answer)
            }
            Ok(other) => {
                drop(answer);
                self.no_type(ty.token, other)
            }
            Err(error) => {
                drop(answer);
                Err(error)
            }
        }
    }

    // The value in the type that is given.
    fn typed(&mut self, token: usize, value: Value, ty: Span) -> Result<Answer, AllocError>
        requires meanings { AreAnswers self.old.meanings.items }
        requires value { IsSoundValue value }
        ensures keeps { setting_of self.new ≡ setting_of self.old }
        ensures found { IfOk result (IsTypedBy (setting_of self.old) ty (value_of value.instance)) }
        ensures answer { IfOk result IsAnswer }
    {
        match self.expression(ty) {
            Ok(Answer::Type(of)) => {
                let answer = self.converted(token, value, &of);
                drop(of);
                answer
            }
            Ok(other) => {
                drop(value);
                self.no_type(ty.token, other)
            }
            Err(error) => {
                drop(value);
                Err(error)
            }
        }
    }

    // What an override is where no host gives it a value.
    fn changeable(
        &mut self,
        name: usize,
        ty: Option<Span>,
        value: Option<Span>,
    ) -> Result<Answer, AllocError>
        requires { AreAnswers self.old.meanings.items }
        ensures keeps { setting_of self.new ≡ setting_of self.old }
        ensures found { IfOk result (IsOverride (setting_of self.old) ty value) }
        ensures answer { IfOk result IsAnswer }
    {
        if let Some(value) = value {
            let own = self.own_value(ty, value)?;
            return Ok(self.withheld(name, own));
        }
        match ty {
            Some(ty) => self.unset(name, ty),
            None => self.without_type(name),
        }
    }

    // The own value of an override, which it has in no stage that comes before a host gives another.
    fn withheld(&self, name: usize, own: Answer) -> Answer
        requires { IsAnswer own }
        ensures withheld { MatchBool (is_first self.now.stage) (IsWithheld own result) (result ≡ own) }
        ensures answer { IsAnswer result }
    {
        if !is_first(self.stage) {
            return own;
        }
        match own {
            Answer::Wrong(message, guard) => Answer::Wrong(message, guard),
            Answer::Faulty => Answer::Faulty,
            other => {
                drop(other);
                self.skipped(name, Need::Override)
            }
        }
    }

    // An override that has no value, of this type.
    fn unset(&mut self, name: usize, ty: Span) -> Result<Answer, AllocError>
        requires { AreAnswers self.old.meanings.items }
        ensures keeps { setting_of self.new ≡ setting_of self.old }
        ensures found { IfOk result (IsUnset (setting_of self.old) ty) }
        ensures answer { IfOk result IsAnswer }
    {
        let skipped = self.skipped(name, Need::Override);
        self.beside_type(ty, skipped)
    }

    fn without_type(&self, name: usize) -> Result<Answer, AllocError>
        ensures fault { IfOk result IsFault }
        ensures answer { IfOk result IsAnswer }
    {
        self.wrong_text(name, "an override needs a type or a value")
    }

    // The value of an override by itself.
    fn own_value(&mut self, ty: Option<Span>, value: Span) -> Result<Answer, AllocError>
        requires { AreAnswers self.old.meanings.items }
        ensures keeps { setting_of self.new ≡ setting_of self.old }
        ensures found { IfOk result (IsOwnValue (setting_of self.old) ty value) }
        ensures answer { IfOk result IsAnswer }
    {
        let answer = self.constant(ty, value)?;
        match answer {
            Answer::Value(found) => self.concretized(value.token, found),
            other => Ok(other),
        }
    }

    // The value that a host gives an override, or else its own.
    fn overridable(
        &mut self,
        name: usize,
        ty: Option<Span>,
        value: Option<Span>,
    ) -> Result<Answer, AllocError>
        requires { AreAnswers self.old.meanings.items }
        ensures keeps { setting_of self.new ≡ setting_of self.old }
        ensures found { IfOk result (IsOverrideNamed (setting_of self.old) name ty value) }
        ensures answer { IfOk result IsAnswer }
    {
        match given_for(self.given, self.reading.word(name)) {
            Some(given) => self.given_value(name, given, ty, value),
            None => self.changeable(name, ty, value),
        }
    }

    // What a host gives, in the type that is declared, or else in that of the override's own value.
    fn given_value(
        &mut self,
        name: usize,
        given: LiteralInstance,
        ty: Option<Span>,
        value: Option<Span>,
    ) -> Result<Answer, AllocError>
        requires { AreAnswers self.old.meanings.items }
        ensures keeps { setting_of self.new ≡ setting_of self.old }
        ensures found { IfOk result (IsGivenValue (setting_of self.old) ty value (literal_of given)) }
        ensures answer { IfOk result IsAnswer }
    {
        if let Some(ty) = ty {
            return self.typed(name, Value::literal(given), ty);
        }
        let Some(span) = value else {
            return self.without_type(name);
        };
        let own = self.own_value(None, span)?;
        match own {
            Answer::Value(own) => {
                let answer = self.in_type_of(name, given, &own.instance);
                drop(own);
                answer
            }
            other => Ok(other),
        }
    }

    // What is given, in the type of another value.
    fn in_type_of(
        &self,
        name: usize,
        given: LiteralInstance,
        own: &Instance,
    ) -> Result<Answer, AllocError>
        requires { IsStorable (value_of own.now) }
        ensures converted { IfOk result (IsValueWith (λ x. converted (literal_of given) (type_of (value_of own.now)) ≡ Some x)) }
        ensures answer { IfOk result IsAnswer }
    {
        let ty = own.ty(self.alloc)?;
        let value = Value::literal(given);
        let answer = self.in_type(name, &value, &ty);
        drop(value);
        drop(ty);
        answer
    }

    fn in_type(&self, token: usize, value: &Value, ty: &Type) -> Result<Answer, AllocError>
        requires { IsSoundValue value.now }
        ensures converted { IfOk result (IsValueWith (λ x. converted (value_of value.now.instance) (type_view ty.now) ≡ Some x)) }
        ensures answer { IfOk result IsAnswer }
    {
        let size = value.size;
        match automatic(self.alloc, &value.instance, ty)? {
            Some(instance) => Ok(Answer::Value(Value { instance, size })),
            None => self.not_converted(token, &value.instance, ty),
        }
    }

    fn concretized(&self, token: usize, value: Value) -> Result<Answer, AllocError>
        requires { IsSoundValue value }
        ensures concrete { IfOk result (IsConcreteValue (value_of value.instance)) }
        ensures answer { IfOk result IsAnswer }
    {
        let answer = self.concrete_of(token, &value);
        drop(value);
        answer
    }

    fn concrete_of(&self, token: usize, value: &Value) -> Result<Answer, AllocError>
        requires { IsSoundValue value.now }
        ensures concrete { IfOk result (IsConcreteValue (value_of value.now.instance)) }
        ensures answer { IfOk result IsAnswer }
    {
        match concrete(self.alloc, &value.instance)? {
            Some(instance) => Ok(Answer::Value(Value {
                instance,
                size: value.size,
            })),
            None => self.wrong_text(token, "this value is none of a concrete type"),
        }
    }

    fn alias(&mut self, ty: Span) -> Result<Answer, AllocError>
        requires { AreAnswers self.old.meanings.items }
        ensures keeps { setting_of self.new ≡ setting_of self.old }
        ensures found { IfOk result (IsAlias (setting_of self.old) ty) }
        ensures answer { IfOk result IsAnswer }
    {
        let answer = self.expression(ty)?;
        match answer {
            Answer::Type(of) => Ok(Answer::Type(of)),
            other => self.no_type(ty.token, other),
        }
    }

    /// What an answer that is no type leaves where a type belongs.
    pub(crate) fn no_type(&self, token: usize, answer: Answer) -> Result<Answer, AllocError>
        requires { IsAnswer answer }
        ensures none { IfOk result (IsNoType answer) }
        ensures answer { IfOk result IsAnswer }
    {
        match &answer {
            Answer::Value(_) | Answer::Bitcast(_) | Answer::Variable(_) => {
                drop(answer);
                self.wrong_text(token, "this is no type")
            }
            _ => Ok(answer),
        }
    }

    /// A type that is not too large.
    pub(crate) fn limited(&self, token: usize, of: SizedType) -> Result<Answer, AllocError>
        ensures limited { IfOk result (IsLimited of) }
        ensures answer { IfOk result IsAnswer }
    {
        if of.is_too_large() {
            drop(of);
            let text = String::from_str(self.alloc, "this type has too many parts")?;
            return Ok(self.wrong(token, Guard::Never, text));
        }
        Ok(Answer::Type(of))
    }
}

// Whether a host has given no values yet.
fn is_first(stage: ShaderStage) -> bool
    ensures { result ≡ is_first stage }
{
    matches!(stage, ShaderStage::Const)
}

fn behind_first(mut faults: Vec<Message>) -> Vec<Message>
    ensures { result.items ≡ behind_first faults.items }
{
    if !faults.is_empty() {
        faults.remove(0);
    }
    faults
}

// Whether the name has a declaration, and another one than this.
fn is_other(first: Option<usize>, number: usize) -> bool
    ensures { IsTrue result ↔ IsSomeAnd first (λ n. n ≢ number) }
{
    match first {
        Some(first) => first != number,
        None => false,
    }
}
