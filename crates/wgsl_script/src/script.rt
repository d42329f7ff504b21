//! Scripts: a line a call.

ghost use Rattle.std.specs.Prelude.{◌≡◌, IfOk, IsOkAnd, IsSomeAnd, slice_get};
ghost use Rattle.wgsl_script.specs.Hexadecimal.{hexadecimal};
ghost use Rattle.wgsl_script.specs.Lines.{answer_text};
ghost use Rattle.wgsl_session.specs.Calls as model;
ghost use Rattle.wgsl_session.specs.Calls.{IsStep};
ghost use Rattle.wgsl_session.specs.View.{reply_of};
ghost use Rattle.wgsl_layout.specs.Buffers.{buffer, decode};
ghost use Rattle.wgsl_store.specs.Memory.{IsKept, held};
ghost use Rattle.wgsl_store.specs.ReferenceCalls.{read};
ghost use Rattle.wgsl_rules.specs.View.{type_view};
ghost use Rattle.wgsl_values.specs.View.{reference_of};

use crate::answer::{Answer, write_answer};
use crate::fault::RunFault;
use crate::grammar::{access_of, handle_of, is_name, number_of, space_of, without_end, words_of};
use crate::hexadecimal::bytes_of;
use crate::input::read_input;
use crate::output::write_bytes;
use crate::stop::Stop;
use crate::structs::Structs;
use std::alloc::{AllocError, Global};
use std::io::{Read, Write};
use std::str;
use std::sync::Arc;
use wgsl_rules::{AccessMode, AddressSpace, Type};
use wgsl_session::{Call, Fault, Reply, Session};
use wgsl_store::{Buffers, Layout, References, Store};
use wgsl_values::RefInstance;

/// Runs the script that the reader gives, and writes a line for each line that has a word. All of
/// the script is read before its first line is run; each line is written before the next one is
/// run.
pub fn run_script<R: Read, W: Write>(
    alloc: Global,
    reader: &mut R,
    writer: &mut W,
) -> Result<(), RunFault> {
    let input = read_input(alloc, reader)?;
    let mut script = Script::new(alloc);
    let mut text = String::new(alloc);
    for line in input.split_inclusive(|byte| *byte == b'\n') {
        text.clear();
        script.answer_line(without_end(line), &mut text)?;
        write_bytes(writer, text.as_bytes()).map_err(|_| RunFault::Write)?;
    }
    Ok(())
}

/// The state that lines run on.
#[derive(Drop)]
struct Script {
    alloc: Global,
    session: Session,
    structs: Structs,
}

impl Script {
    fn new(alloc: Global) -> Self {
        Script {
            alloc,
            session: Session::new(alloc),
            structs: Structs::new(alloc),
        }
    }

    // Adds the text of a line's answer; nothing for a line without words.
    fn answer_line(&mut self, line: &[u8], text: &mut String) -> Result<(), AllocError> {
        let answer = match str::from_utf8(line) {
            Ok(line) => {
                let words = words_of(self.alloc, line)?;
                if words.is_empty() {
                    return Ok(());
                }
                self.answer(words.as_slice())
            }
            Err(_) => Err(Stop::BadLine),
        };
        let written = write_answer(text, &answer);
        drop(answer);
        written
    }

    fn answer(&mut self, words: &[&str]) -> Result<Answer<'_>, Stop> {
        match words {
            ["struct", name, members @ ..] => self.define(name, members),
            ["new", ty, space, access, bytes] => self.make(ty, space, access, bytes),
            ["member", handle, name] => self.member(handle, name),
            ["index", handle, i] => self.index(handle, i),
            ["read", handle] => self.read(handle),
            ["write", handle, bytes] => self.write(handle, bytes),
            ["copy", from, to] => self.copy(from, to),
            ["dump", handle] => self.dump(handle),
            _ => Err(Stop::BadLine),
        }
    }

    fn define(&mut self, name: &str, members: &[&str]) -> Result<Answer<'static>, Stop> {
        self.structs.define(name, members)?;
        Ok(Reply::Done.into())
    }

    fn make(
        &mut self,
        ty: &str,
        space: &str,
        access: &str,
        bytes: &str,
    ) -> Result<Answer<'static>, Stop> {
        let space = space_of(space).ok_or(Stop::BadLine)?;
        let access = access_of(access).ok_or(Stop::BadLine)?;
        let bytes = bytes_of(self.alloc, bytes)?.ok_or(Stop::BadLine)?;
        let name = self.structs.type_name(ty)?;
        let ty = self.structs.type_of(&name)?;
        let layout = self.structs.layout(&name, &ty);
        let bytes = bytes.as_slice();
        let reply = new_of_bytes(&mut self.session, ty, layout, bytes, space, access)?;
        self.structs.has_cell(&name);
        Ok(reply.into())
    }

    fn member(&mut self, handle: &str, name: &str) -> Result<Answer<'static>, Stop> {
        let handle = handle_of(handle).ok_or(Stop::BadLine)?;
        if !is_name(name) {
            return Err(Stop::BadLine);
        }
        let name = String::from_str(self.alloc, name)?;
        Ok(self.session.call(Call::Member(handle, name))?.into())
    }

    fn index(&mut self, handle: &str, i: &str) -> Result<Answer<'static>, Stop> {
        let handle = handle_of(handle).ok_or(Stop::BadLine)?;
        let i = number_of(i).ok_or(Stop::BadLine)?;
        Ok(self.session.call(Call::Index(handle, i))?.into())
    }

    fn read(&mut self, handle: &str) -> Result<Answer<'static>, Stop> {
        let handle = handle_of(handle).ok_or(Stop::BadLine)?;
        Ok(self.session.call(Call::Read(handle))?.into())
    }

    fn write(&mut self, handle: &str, bytes: &str) -> Result<Answer<'static>, Stop> {
        let handle = handle_of(handle).ok_or(Stop::BadLine)?;
        let bytes = bytes_of(self.alloc, bytes)?.ok_or(Stop::BadLine)?;
        let reply = write_of_bytes(&mut self.session, handle, bytes.as_slice())?;
        Ok(reply.into())
    }

    fn copy(&mut self, from: &str, to: &str) -> Result<Answer<'static>, Stop> {
        let from = handle_of(from).ok_or(Stop::BadLine)?;
        let to = handle_of(to).ok_or(Stop::BadLine)?;
        Ok(self.session.call(Call::Copy(from, to))?.into())
    }

    // The bytes of the value that the handle names.
    fn dump(&self, handle: &str) -> Result<Answer<'_>, Stop> {
        let handle = handle_of(handle).ok_or(Stop::BadLine)?;
        let reference = self.session.reference(handle).ok_or(Fault::NoHandle)?;
        bytes_read(self.alloc, self.session.store(), reference)
    }
}

/// The bytes of the value that the reference names, lent where they stand in its cell; `NoValue` where the value has
/// none. The condition: the reference is kept.
fn bytes_read<'a>(
    alloc: Global,
    store: &'a Store,
    reference: &RefInstance,
) -> Result<Answer<'a>, Stop>
    requires { IsKept store.now (reference_of reference.now) }
    ensures { IfOk result (λ answer. IsOkAnd (read (held store.now) (reference_of reference.now)) (λ v. answer_text answer ≡ hexadecimal (buffer v))) }
{
    if let Some(bytes) = store.read_bytes(reference)? {
        return Ok(Answer::Lent(bytes));
    }
    let value = reference.read(alloc, store)?;
    let bytes = value.to_buffer(alloc);
    drop(value);
    Ok(Answer::Bytes(bytes?.ok_or(Stop::NoValue)?))
}

/// Makes a cell with the value of the type that the bytes lay out; `NoValue`, and nothing is changed, where they lay
/// out none. The cell shares the layout where it is that of the type.
fn new_of_bytes(
    session: &mut Session,
    ty: Type,
    layout: Option<&Arc<Layout>>,
    bytes: &[u8],
    space: AddressSpace,
    access: AccessMode,
) -> Result<Reply, Stop>
    ensures value { IfOk result (λ reply. IsSomeAnd (decode bytes.now (type_view ty)) (λ v. IsStep session.old (model.new v space access) session.new (Some (reply_of reply)))) }
    ensures none { result ≡ Err Stop.NoValue → (decode bytes.now (type_view ty) ≡ None) × (session.new ≡ session.old) }
{
    match session.new_sharing(ty, layout, bytes, space, access)? {
        Some(reply) => Ok(reply),
        None => Err(Stop::NoValue),
    }
}

/// Writes the value that the bytes lay out in the type of what the handle names; `NoValue`, and nothing is changed,
/// where they lay out none.
fn write_of_bytes(session: &mut Session, handle: usize, bytes: &[u8]) -> Result<Reply, Stop>
    ensures value { IfOk result (λ reply. IsSomeAnd (slice_get session.old.handles handle) (λ r. IsSomeAnd (decode bytes.now r.ty) (λ v. IsStep session.old (model.write handle v) session.new (Some (reply_of reply))))) }
    ensures none { result ≡ Err Stop.NoValue → IsSomeAnd (slice_get session.old.handles handle) (λ r. (decode bytes.now r.ty ≡ None) × (session.new ≡ session.old)) }
{
    match session.write_bytes(handle, bytes)? {
        Some(reply) => Ok(reply),
        None => Err(Stop::NoValue),
    }
}
