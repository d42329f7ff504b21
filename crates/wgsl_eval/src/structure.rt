//! The types of structures (WGSL: structure types).

ghost use Rattle.std.specs.Prelude.{◌≡◌, ◌++◌, IfOk, OnOk, map};
ghost use Rattle.std.specs.Int.{is_power_of_two};
ghost use Rattle.wgsl_rules.specs.Layout.{is_at_least};
ghost use Rattle.wgsl_rules.specs.Size.{size_of};
ghost use Rattle.wgsl_rules.specs.View.{fields_of, member_view, type_view};
ghost use Rattle.wgsl_source.specs.Readings.{word_at};
ghost use Rattle.wgsl_eval.specs.Answers.{AreAnswers, IsAnswer};
ghost use Rattle.wgsl_eval.specs.Evaluators.{setting_of};
ghost use Rattle.wgsl_eval.specs.Messages.{fault_in};
ghost use Rattle.wgsl_eval.specs.Reasons.{have_floats};
ghost use Rattle.wgsl_eval.specs.Structures.{AreFaultsOf, IsFoundMember, IsFoundNumber, IsNumberGiven, IsStructure, IsStructureOf, IsTypeFound, fault_of};

use crate::answer::Answer;
use crate::attribute::{Attribute, Use};
use crate::evaluator::Evaluator;
use crate::message::Message;
use crate::sized::SizedType;
use crate::types::{Together, structure};
use std::alloc::AllocError;
use std::collections::BTreeMap;
use wgsl_rules::{StructMemberType, StructType, Type};
use wgsl_source::Field;

/// What a member is found to be.
#[derive(Drop)]
pub(crate) enum FoundMember {
    Member(StructMemberType, Together),
    /// Why it is none.
    Other(Answer),
}

impl Evaluator<'_> {
    /// The type of a structure of this name, with the members of these numbers, the end one not.
    pub(crate) fn structure(
        &mut self,
        name: usize,
        first: usize,
        end: usize,
    ) -> Result<Answer, AllocError>
        requires { AreAnswers self.old.meanings.items }
        ensures keeps { setting_of self.new ≡ setting_of self.old }
        ensures structure { IfOk result (IsStructure (setting_of self.old) name first end) }
        ensures answer { IfOk result IsAnswer }
    {
        let mut members = Vec::new(self.alloc);
        let mut together = Together::NONE;
        let mut names = BTreeMap::new(self.alloc);
        for number in first..end {
            let Some(field) = self.reading.field(number) else {
                return self.wrong_text(name, "a member is missing");
            };
            let word = String::from_str(self.alloc, self.reading.word(field.name))?;
            if names.insert(word, ())?.is_some() {
                return self.wrong_text(field.name, "another member has this name");
            }
            match self.field(field)? {
                FoundMember::Member(member, of) => {
                    members.push(member)?;
                    together = together.with(of);
                }
                FoundMember::Other(answer) => return Ok(answer),
            }
        }
        self.structure_of(name, members, together)
    }

    fn structure_of(
        &self,
        name: usize,
        members: Vec<StructMemberType>,
        together: Together,
    ) -> Result<Answer, AllocError>
        requires { together.has_float ≡ have_floats (fields_of (map member_view members.items)) }
        ensures structure { IfOk result (IsStructureOf (word_at self.now.reading.now name) (map member_view members.items)) }
        ensures answer { IfOk result IsAnswer }
    {
        let name_text = String::from_str(self.alloc, self.reading.word(name))?;
        let ty = StructType {
            name: name_text,
            members,
        };
        let of = structure(self.alloc, ty, together)?;
        self.limited(name, of)
    }

    fn field(&mut self, field: Field) -> Result<FoundMember, AllocError>
        requires { AreAnswers self.old.meanings.items }
        ensures keeps { setting_of self.new ≡ setting_of self.old }
        ensures found { IfOk result (IsFoundMember (setting_of self.old) field) }
    {
        let answer = self.expression(field.ty)?;
        match answer {
            Answer::Type(of) => self.field_of(field, of),
            other => Ok(FoundMember::Other(self.no_type(field.ty.token, other)?)),
        }
    }

    /// The faults of the members of these numbers, the end one not. The members are found once more, and their warnings,
    /// which are told where they were found first, are not.
    pub(crate) fn faults_of_members(
        &mut self,
        first: usize,
        end: usize,
    ) -> Result<Vec<Message>, AllocError>
        requires { AreAnswers self.old.meanings.items }
        ensures keeps { setting_of self.new ≡ setting_of self.old }
        ensures faults { IfOk result (λ faults. AreFaultsOf (setting_of self.old) first end faults.items) }
    {
        let warnings = self.messages.warnings();
        let faults = self.faults_found(first, end)?;
        self.messages.keep_warnings(warnings);
        Ok(faults)
    }

    fn faults_found(&mut self, first: usize, end: usize) -> Result<Vec<Message>, AllocError>
        requires { AreAnswers self.old.meanings.items }
        ensures keeps { setting_of self.new ≡ setting_of self.old }
        ensures faults { IfOk result (λ faults. AreFaultsOf (setting_of self.old) first end faults.items) }
    {
        let mut faults = Vec::new(self.alloc);
        for number in first..end {
            let found = self.found_number(number)?;
            add_fault(found, &mut faults)?;
        }
        Ok(faults)
    }

    fn found_number(&mut self, number: usize) -> Result<FoundMember, AllocError>
        requires { AreAnswers self.old.meanings.items }
        ensures keeps { setting_of self.new ≡ setting_of self.old }
        ensures found { IfOk result (IsFoundNumber (setting_of self.old) number) }
    {
        match self.reading.field(number) {
            Some(field) => self.field(field),
            None => Ok(FoundMember::Other(Answer::Faulty)),
        }
    }

    // A member of the type that is found.
    fn field_of(&mut self, field: Field, of: SizedType) -> Result<FoundMember, AllocError>
        requires meanings { AreAnswers self.old.meanings.items }
        requires found { IsTypeFound (setting_of self.old) field.ty (type_view of.ty) }
        ensures keeps { setting_of self.new ≡ setting_of self.old }
        ensures found { IfOk result (IsFoundMember (setting_of self.old) field) }
    {
        let size = match self.attribute(field.size, Use::Size(&of.ty)) {
            Ok(Attribute::Number(number)) => number,
            Ok(Attribute::Other(answer)) => {
                drop(of);
                return Ok(FoundMember::Other(answer));
            }
            Err(error) => {
                drop(of);
                return Err(error);
            }
        };
        let align = match self.attribute(field.align, Use::Align) {
            Ok(Attribute::Number(number)) => number,
            Ok(Attribute::Other(answer)) => {
                drop(of);
                return Ok(FoundMember::Other(answer));
            }
            Err(error) => {
                drop(of);
                return Err(error);
            }
        };
        self.member_with(field, of, size, align)
    }

    // A member of the type with these attributes.
    fn member_with(
        &self,
        field: Field,
        of: SizedType,
        size: Option<u32>,
        align: Option<u32>,
    ) -> Result<FoundMember, AllocError>
        requires found { IsTypeFound (setting_of self.now) field.ty (type_view of.ty) }
        requires size { IsNumberGiven (setting_of self.now) field.size (λ n. is_at_least n (size_of (type_view of.ty))) size }
        requires align { IsNumberGiven (setting_of self.now) field.align is_power_of_two align }
        ensures { IfOk result (IsFoundMember (setting_of self.now) field) }
    {
        let together = Together {
            nodes: of.nodes,
            size: of.size,
            has_float: of.has_float,
            is_aligned: of.is_aligned && is_aligned(align, &of.ty),
        };
        let name = match String::from_str(self.alloc, self.reading.word(field.name)) {
            Ok(name) => name,
            Err(error) => {
                drop(of);
                return Err(error);
            }
        };
        let member = StructMemberType {
            name,
            ty: of.ty,
            size,
            align,
        };
        Ok(FoundMember::Member(member, together))
    }
}

// Adds the message of a member that is a fault.
fn add_fault(found: FoundMember, faults: &mut Vec<Message>) -> Result<(), AllocError>
    ensures { OnOk result (faults.new.items ≡ faults.old.items ++ fault_of found) }
{
    match found {
        FoundMember::Member(_, _) => Ok(()),
        FoundMember::Other(answer) => add_wrong(answer, faults),
    }
}

#[tactic(auto, using(crate::proofs::Faults::nothing_more))]
fn add_wrong(answer: Answer, faults: &mut Vec<Message>) -> Result<(), AllocError>
    ensures { OnOk result (faults.new.items ≡ faults.old.items ++ fault_in answer) }
{
    match answer {
        Answer::Wrong(message, _) => {
            faults.push(message)?;
            Ok(())
        }
        Answer::Value(value) => {
            drop(value);
            Ok(())
        }
        Answer::Type(ty) | Answer::Bitcast(ty) => {
            drop(ty);
            Ok(())
        }
        Answer::Variable(variable) => {
            drop(variable);
            Ok(())
        }
        Answer::Named(_) | Answer::Skipped(_) | Answer::Faulty => Ok(()),
    }
}

// Whether the align attribute is a multiple of the alignment of the type.
fn is_aligned(align: Option<u32>, ty: &Type) -> bool {
    match (align, ty.align_of()) {
        (Some(align), Some(least)) => align.is_multiple_of(least),
        (_, _) => true,
    }
}
