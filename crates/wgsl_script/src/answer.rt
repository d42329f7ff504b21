//! What a line is answered, and its text.

ghost use Rattle.std.specs.Prelude.{◌≡◌, ◌++◌, codes, IsSomeAnd, OnOk, option_map, string_bytes};
ghost use Rattle.wgsl_script.specs.Lines.{answer_text, reply_text, line_of, refusal_name, case_name};
ghost use Rattle.wgsl_script.specs.declared.answer.Answer.TheVariants as answers;

use crate::hexadecimal::push_bytes;
use crate::stop::Stop;
use std::alloc::AllocError;
use std::fmt::Write;
use wgsl_scalar::Error;
use wgsl_session::{Fault, Reply};

/// The answer of a line that is carried out.
#[derive(Debug, Drop)]
pub(crate) enum Answer<'a> {
    /// What the call answers; `Done` too where a structure is defined.
    Of(Reply),
    /// The bytes of the value read.
    Bytes(Vec<u8>),
    /// The same, as they stand in its cell.
    Lent(&'a [u8]),
}

impl<'a> From<Reply> for Answer<'a> {
    ghost from_gives = { λ reply answer. answer ≡ answers.Of reply };

    fn from(reply: Reply) -> Answer<'a> {
        Answer::Of(reply)
    }
}

/// Adds the text of what a line is answered, and the end of the line. The only error is that of
/// memory that could not be had, here or for the answer itself.
pub(crate) fn write_answer(
    text: &mut String,
    answer: &Result<Answer<'_>, Stop>,
) -> Result<(), AllocError>
    ensures { OnOk result (IsSomeAnd (line_of answer.now) (λ line. string_bytes text.new ≡ string_bytes text.old ++ line)) }
{
    match answer {
        Ok(answer) => write_text(text, answer)?,
        Err(stop) => write_refusal(text, stop)?,
    }
    text.push('\n')
}

fn write_refusal(text: &mut String, stop: &Stop) -> Result<(), AllocError>
    ensures { OnOk result (IsSomeAnd (refusal_name stop.now) (λ name. string_bytes text.new ≡ string_bytes text.old ++ (codes "refused " ++ name))) }
{
    let name = name_of(stop).ok_or(AllocError)?;
    text.push_str("refused ")?;
    text.push_str(name)
}

fn write_text(text: &mut String, answer: &Answer<'_>) -> Result<(), AllocError>
    ensures { OnOk result (string_bytes text.new ≡ string_bytes text.old ++ answer_text answer.now) }
{
    match answer {
        Answer::Of(reply) => write_reply(text, reply),
        Answer::Bytes(bytes) => push_bytes(text, bytes),
        Answer::Lent(bytes) => push_bytes(text, bytes),
    }
}

fn write_reply(text: &mut String, reply: &Reply) -> Result<(), AllocError>
    ensures { OnOk result (string_bytes text.new ≡ string_bytes text.old ++ reply_text reply.now) }
{
    match reply {
        Reply::Handle(handle) => write!(text, "&{handle}"),
        Reply::Value(value) => write!(text, "{value}"),
        Reply::Done => text.push_str("done"),
    }
}

/// The name of the refusal; none where the run ends.
fn name_of(stop: &Stop) -> Option<&'static str>
    ensures { option_map (λ name. name.now) result ≡ refusal_name stop.now }
{
    match stop {
        Stop::BadLine => Some("BadLine"),
        Stop::NoValue => Some("NoValue"),
        Stop::Refused(Fault::NoHandle) => Some("NoHandle"),
        Stop::Refused(Fault::Of(error)) => Some(case_of(error)),
        Stop::Memory => None,
    }
}

/// The name of the case.
fn case_of(error: &Error) -> &'static str
    ensures { result.now ≡ case_name error.now }
{
    match error {
        Error::Memory => "Memory",
        Error::NotRead => "NotRead",
        Error::NotWrite => "NotWrite",
        Error::NotReadWrite => "NotReadWrite",
        Error::PtrHandle => "PtrHandle",
        Error::PtrVecComp => "PtrVecComp",
        Error::WriteRefType(_, _) => "WriteRefType",
        Error::Component(_, _) => "Component",
        Error::NotIndexable(_) => "NotIndexable",
        Error::OutOfBounds(_, _, _) => "OutOfBounds",
        Error::ConvOverflow(_, _) => "ConvOverflow",
        Error::Unary(_, _) => "Unary",
        Error::Binary(_, _, _) => "Binary",
        Error::CompwiseBinary(_, _) => "CompwiseBinary",
        Error::AddOverflow => "AddOverflow",
        Error::SubOverflow => "SubOverflow",
        Error::MulOverflow => "MulOverflow",
        Error::DivByZero => "DivByZero",
        Error::RemZeroDiv => "RemZeroDiv",
        Error::ShlOverflow(_, _) => "ShlOverflow",
        Error::ShrOverflow(_, _) => "ShrOverflow",
        Error::ParamType(_, _) => "ParamType",
        Error::Builtin(_) => "Builtin",
        Error::Todo(_) => "Todo",
    }
}
