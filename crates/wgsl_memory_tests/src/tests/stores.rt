//! Calls on stores in scripts.

use crate::tests::calls;
use crate::tests::samples::{storable, structure_from};
use crate::tests::scripts::{Scene, shown, told};
use crate::tests::words::{Words, access, bytes, view, words_of};
use std::alloc::Global;
use std::mem;
use std::process::Abort;
use wgsl_rules::AccessMode::{Read, ReadWrite};
use wgsl_rules::AddressSpace::{Private, Storage};
use wgsl_rules::Type;
use wgsl_samples::types;
use wgsl_scalar::Error;
use wgsl_store::{Buffers, Show, Store};
use wgsl_values::{Instance, PtrInstance, RefInstance};

/// The reference of the next word.
fn named<'a>(
    rt: &impl Abort,
    references: &'a [RefInstance],
    words: &mut Words<'_>,
) -> &'a RefInstance {
    references.get(words.handle(rt)).expect(rt, "a reference")
}

/// The words of the bytes that are lent, `None` where there are none.
pub(super) fn told_bytes(
    rt: &impl Abort,
    alloc: Global,
    lent: Result<Option<&[u8]>, Error>,
) -> String {
    match lent {
        Ok(Some(bytes)) => words_of(rt, alloc, bytes),
        Ok(None) => String::from_str(alloc, "None").expect(rt, "memory"),
        Err(refusal) => shown(rt, alloc, Err::<(), Error>(refusal)),
    }
}

/// The structure S whose member p is a pointer to the i32 that the reference names.
fn with_pointer(rt: &impl Abort, alloc: Global, reference: RefInstance) -> Instance {
    let target = Box::new(alloc, Type::I32).expect(rt, "memory");
    let ty = Type::Ptr(reference.space(), target, reference.access());
    let member = types::member(alloc, "p", ty, None).expect(rt, "memory");
    let members = vec![in alloc; member].expect(rt, "memory");
    let ty = types::struct_type(alloc, "S", members).expect(rt, "memory");
    let pointer = Instance::from(PtrInstance::from(reference));
    let members = vec![in alloc; pointer].expect(rt, "memory");
    Instance::from(structure_from(rt, ty, members))
}

impl Scene {
    /// Makes the call on the store.
    pub(super) fn of_stores(&mut self, rt: &impl Abort, words: &mut Words<'_>) -> String {
        match words.next() {
            "new" => self.new_cell(rt, words),
            "chain" => self.chain(rt, words.number(rt)),
            "lay" => self.lay(rt, false, words),
            "share" => self.lay(rt, true, words),
            "member" => self.member(rt, words),
            "index" => self.index(rt, words),
            "write" => self.write(rt, words),
            "exchange" => self.exchange(rt, words),
            "overwrite" => self.overwrite(rt, words),
            "copy" => self.copy(rt, words),
            "cells" => shown(rt, self.alloc, self.store.len()),
            "empty" => {
                drop(mem::replace(&mut self.store, Store::new(self.alloc)));
                shown(rt, self.alloc, self.store.len())
            }
            call => self.looked_at(rt, call, words),
        }
    }

    /// Makes a call that changes nothing.
    fn looked_at(&self, rt: &impl Abort, call: &str, words: &mut Words<'_>) -> String {
        match call {
            "load" => self.load(rt, words),
            "convert" => self.convert(rt, words),
            "holds" if words.rest.starts_with('.') => self.holds_part(rt, words.next()),
            "holds_value" => {
                let value = self.value(rt, words);
                let holds = self.store.holds_value(&value);
                drop(value);
                shown(rt, self.alloc, holds)
            }
            _ => self.read_at(rt, call, named(rt, &self.references, words)),
        }
    }

    /// Makes a call that reads what the reference names.
    fn read_at(&self, rt: &impl Abort, call: &str, reference: &RefInstance) -> String {
        let (alloc, store) = (self.alloc, &self.store);
        match call {
            "read" => told(rt, alloc, calls::read(rt, alloc, store, reference)),
            "show" => told(rt, alloc, calls::show(rt, alloc, store, reference)),
            "point" => self.point(rt, reference),
            "holds" => shown(rt, alloc, store.holds(reference)),
            "lent" => {
                assert!(rt; store.holds(reference));
                told_bytes(rt, alloc, store.read_bytes(reference))
            }
            "buffer" => self.buffer_of(rt, reference),
            _ => panic!(rt; "{call} is no call on a store"),
        }
    }

    /// Whether the store holds a reference to an i32 there in its first cell.
    fn holds_part(&self, rt: &impl Abort, part: &str) -> String {
        let view = view(rt, self.alloc, part);
        let reference = RefInstance::from_parts(0, view, Type::I32, Private, Read);
        let holds = self.store.holds(&reference);
        drop(reference);
        shown(rt, self.alloc, holds)
    }

    /// The text of a pointer of the reference.
    fn point(&self, rt: &impl Abort, reference: &RefInstance) -> String {
        let alloc = self.alloc;
        let pointer = PtrInstance::from(reference.clone(alloc).expect(rt, "memory"));
        let held = Instance::from(pointer.clone(alloc).expect(rt, "memory"));
        assert!(rt; self.store.holds_value(&held));
        drop(held);
        let text = pointer.show(alloc, &self.store);
        drop(pointer);
        told(rt, alloc, text)
    }

    /// The words of the bytes of the value that the reference names.
    fn buffer_of(&self, rt: &impl Abort, reference: &RefInstance) -> String {
        let alloc = self.alloc;
        let value = calls::read(rt, alloc, &self.store, reference).expect(rt, "a value");
        let value = storable(rt, value);
        let buffer = value.to_buffer(alloc).expect(rt, "memory");
        drop(value);
        let text = told_bytes(rt, alloc, Ok(buffer.as_deref()));
        drop(buffer);
        text
    }

    /// The value of a reference, of a structure with a pointer of one, or of a type and its numbers.
    fn value(&self, rt: &impl Abort, words: &mut Words<'_>) -> Instance {
        let is_inside = words.takes("pointer_to ");
        if !words.rest.starts_with('&') {
            return self.structures.value(rt, self.alloc, words);
        }
        let reference = named(rt, &self.references, words).clone(self.alloc);
        let reference = reference.expect(rt, "memory");
        if is_inside {
            with_pointer(rt, self.alloc, reference)
        } else {
            Instance::from(reference)
        }
    }

    fn load(&self, rt: &impl Abort, words: &mut Words<'_>) -> String {
        let value = self.value(rt, words);
        let loaded = calls::loaded(rt, self.alloc, &self.store, value);
        shown(rt, self.alloc, loaded)
    }

    fn convert(&self, rt: &impl Abort, words: &mut Words<'_>) -> String {
        let alloc = self.alloc;
        let ty = self.structures.ty(rt, alloc, words.next());
        let value = self.value(rt, words);
        let converted = calls::convert_loaded(rt, alloc, &self.store, &value, &ty);
        drop((value, ty));
        shown(rt, alloc, converted)
    }

    /// Keeps the reference that is made, and answers its number.
    fn kept(&mut self, rt: &impl Abort, made: Result<RefInstance, Error>) -> String {
        match made {
            Ok(reference) => {
                let made = self.references.len();
                self.references.push(reference).expect(rt, "memory");
                format!(in self.alloc; "&{made}").expect(rt, "memory")
            }
            Err(refusal) => shown(rt, self.alloc, Err::<(), Error>(refusal)),
        }
    }

    fn new_cell(&mut self, rt: &impl Abort, words: &mut Words<'_>) -> String {
        let access = access(rt, words.next());
        let value = self.value(rt, words);
        let made = calls::new(rt, self.alloc, &mut self.store, value, access);
        self.kept(rt, made)
    }

    /// Makes so many cells, each with the last reference before it, and answers the last of theirs.
    fn chain(&mut self, rt: &impl Abort, count: usize) -> String {
        let mut text = String::new(self.alloc);
        for _ in 0..count {
            let last = self.references.last().expect(rt, "a reference");
            let last = Instance::from(last.clone(self.alloc).expect(rt, "memory"));
            let made = calls::new(rt, self.alloc, &mut self.store, last, ReadWrite);
            drop(mem::replace(&mut text, self.kept(rt, made)));
        }
        text
    }

    /// Makes a cell of the bytes of a value, by the last layout that was made, if it is to be shared.
    fn lay(&mut self, rt: &impl Abort, is_shared: bool, words: &mut Words<'_>) -> String {
        let (alloc, store) = (self.alloc, &mut self.store);
        let access = access(rt, words.next());
        let ty = self.structures.ty(rt, alloc, words.next());
        let bytes = bytes(rt, alloc, words.rest);
        let made = if is_shared {
            let layout = self.layout.as_ref();
            store.new_sharing(alloc, ty, layout, &bytes, Storage, access)
        } else {
            store.new_from_bytes(alloc, ty, &bytes, Storage, access)
        };
        drop(bytes);
        match made.expect(rt, "memory") {
            Some(reference) => self.kept(rt, Ok(reference)),
            None => String::from_str(alloc, "None").expect(rt, "memory"),
        }
    }

    fn member(&mut self, rt: &impl Abort, words: &mut Words<'_>) -> String {
        let whole = named(rt, &self.references, words);
        let made = calls::view_member(rt, self.alloc, &self.store, whole, words.next());
        self.kept(rt, made)
    }

    fn index(&mut self, rt: &impl Abort, words: &mut Words<'_>) -> String {
        let whole = named(rt, &self.references, words);
        let made = calls::view_index(rt, self.alloc, &self.store, whole, words.number(rt));
        self.kept(rt, made)
    }

    fn write(&mut self, rt: &impl Abort, words: &mut Words<'_>) -> String {
        let number = words.handle(rt);
        let value = self.value(rt, words);
        let reference = self.references.get(number).expect(rt, "a reference");
        let answer = calls::write(rt, self.alloc, &mut self.store, reference, value);
        shown(rt, self.alloc, answer)
    }

    fn exchange(&mut self, rt: &impl Abort, words: &mut Words<'_>) -> String {
        let number = words.handle(rt);
        let value = self.value(rt, words);
        let reference = self.references.get(number).expect(rt, "a reference");
        let answer = calls::read_write(rt, self.alloc, &mut self.store, reference, value);
        told(rt, self.alloc, answer)
    }

    fn overwrite(&mut self, rt: &impl Abort, words: &mut Words<'_>) -> String {
        let reference = named(rt, &self.references, words);
        let bytes = bytes(rt, self.alloc, words.rest);
        assert!(rt; self.store.holds(reference));
        let answer = self.store.write_bytes(self.alloc, reference, &bytes);
        drop(bytes);
        shown(rt, self.alloc, answer)
    }

    fn copy(&mut self, rt: &impl Abort, words: &mut Words<'_>) -> String {
        let from = named(rt, &self.references, words);
        let to = named(rt, &self.references, words);
        let answer = calls::copy(rt, self.alloc, &mut self.store, from, to);
        shown(rt, self.alloc, answer)
    }
}
