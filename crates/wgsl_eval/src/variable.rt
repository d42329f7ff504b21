//! The variables of a module (WGSL: variable declarations; resource interface).

ghost use Rattle.std.specs.Prelude.{◌≡◌, IfOk, Some};
ghost use Rattle.wgsl_rules.specs.View.{type_view};
ghost use Rattle.wgsl_eval.specs.Answers.{AreAnswers, IsAnswer};
ghost use Rattle.wgsl_eval.specs.Evaluators.{setting_of};
ghost use Rattle.wgsl_eval.specs.Structures.{IsBindingNumber, IsTypeFound, IsVariable};

use crate::answer::{Answer, Need};
use crate::attribute::{Attribute, Use};
use crate::evaluator::Evaluator;
use crate::sized::SizedType;
use std::alloc::AllocError;
use wgsl_rules::{AccessMode, AddressSpace, Type};
use wgsl_source::{DeclaredVariable, Span};

/// A variable of a module: its type, and what is given of its address space, its access mode and the
/// numbers by which a host names it (WGSL: variable declarations; resource interface).
#[derive(Debug, PartialEq, Eq, Drop)]
pub struct Variable {
    pub ty: Type,
    /// `None` where no address space is given.
    pub space: Option<AddressSpace>,
    /// `None` where it is what the address space says.
    pub access: Option<AccessMode>,
    /// Whether it is in the space of immediate data, which is no `AddressSpace`.
    pub is_immediate: bool,
    pub group: Option<u32>,
    pub binding: Option<u32>,
}

impl Evaluator<'_> {
    /// What a variable of this name is found to be. One without a type is not evaluated.
    pub(crate) fn variable(
        &mut self,
        name: usize,
        declared: DeclaredVariable,
    ) -> Result<Answer, AllocError>
        requires { AreAnswers self.old.meanings.items }
        ensures keeps { setting_of self.new ≡ setting_of self.old }
        ensures variable { IfOk result (IsVariable (setting_of self.old) declared) }
        ensures answer { IfOk result IsAnswer }
    {
        let Some(span) = declared.ty else {
            return Ok(self.skipped(name, Need::Variable));
        };
        let answer = self.expression(span)?;
        match answer {
            Answer::Type(of) => self.variable_of(declared, span, of),
            other => self.no_type(span.token, other),
        }
    }

    // A variable of the type that is found. In storage space each align attribute is a multiple of
    // the alignment of its member's type; the rules of uniform space are told of the type.
    fn variable_of(
        &mut self,
        declared: DeclaredVariable,
        span: Span,
        of: SizedType,
    ) -> Result<Answer, AllocError>
        requires meanings { AreAnswers self.old.meanings.items }
        requires ty { declared.ty ≡ Some span }
        requires found { IsTypeFound (setting_of self.old) span (type_view of.ty) }
        ensures keeps { setting_of self.new ≡ setting_of self.old }
        ensures variable { IfOk result (IsVariable (setting_of self.old) declared) }
        ensures answer { IfOk result IsAnswer }
    {
        if declared.space == Some(AddressSpace::Storage) && !of.is_aligned {
            drop(of);
            return self.wrong_text(span.token, "a member needs another alignment");
        }
        self.aligned_variable(declared, span, of)
    }

    fn aligned_variable(
        &mut self,
        declared: DeclaredVariable,
        span: Span,
        of: SizedType,
    ) -> Result<Answer, AllocError>
        requires meanings { AreAnswers self.old.meanings.items }
        requires ty { declared.ty ≡ Some span }
        requires found { IsTypeFound (setting_of self.old) span (type_view of.ty) }
        ensures keeps { setting_of self.new ≡ setting_of self.old }
        ensures variable { IfOk result (IsVariable (setting_of self.old) declared) }
        ensures answer { IfOk result IsAnswer }
    {
        let group = match self.binding_number(declared.group) {
            Ok(Attribute::Number(number)) => number,
            Ok(Attribute::Other(answer)) => {
                drop(of);
                return Ok(answer);
            }
            Err(error) => {
                drop(of);
                return Err(error);
            }
        };
        let binding = match self.binding_number(declared.binding) {
            Ok(Attribute::Number(number)) => number,
            Ok(Attribute::Other(answer)) => {
                drop(of);
                return Ok(answer);
            }
            Err(error) => {
                drop(of);
                return Err(error);
            }
        };
        Ok(Answer::Variable(Variable {
            ty: of.ty,
            space: declared.space,
            access: declared.access,
            is_immediate: declared.is_immediate,
            group,
            binding,
        }))
    }

    // The number of a group or a binding, which is not known where its expression names what has a fault.
    fn binding_number(&mut self, span: Option<Span>) -> Result<Attribute, AllocError>
        requires { AreAnswers self.old.meanings.items }
        ensures keeps { setting_of self.new ≡ setting_of self.old }
        ensures number { IfOk result (IsBindingNumber (setting_of self.old) span) }
    {
        let attribute = self.attribute(span, Use::Binding)?;
        match &attribute {
            Attribute::Other(Answer::Faulty) => {
                drop(attribute);
                Ok(Attribute::Number(None))
            }
            _ => Ok(attribute),
        }
    }
}
