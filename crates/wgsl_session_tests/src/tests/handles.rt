//! Sessions with many handles: a thousand of one matrix, written in turn, and a chain of a hundred references.

use crate::tests::asserts::assert_same;
use crate::tests::samples::vector;
use crate::tests::sessions;
use crate::tests::sessions::call;
use std::alloc::Global;
use std::fmt::Write;
use std::process::Abort;
use wgsl_rules::AccessMode::ReadWrite;
use wgsl_rules::AddressSpace::{Function, Storage};
use wgsl_rules::{AccessMode, Type};
use wgsl_scalar::Error;
use wgsl_session::{Call, Fault, Reply, Session};
use wgsl_store::Buffers;
use wgsl_values::{Instance, RefInstance};

/// The types of a matrix, of its columns and of their components.
#[derive(Drop)]
struct Types {
    matrix: Type,
    column: Type,
    component: Type,
}

fn types_of_parts(rt: &impl Abort, alloc: Global) -> Types {
    let scalar = Box::new(alloc, Type::U32).expect(rt, "memory");
    Types {
        matrix: Type::Mat(4, 4, scalar),
        column: vector(rt, alloc, 4, Type::U32),
        component: Type::U32,
    }
}

/// The bytes that a handle names: where they begin, and how many they are.
#[derive(Clone, Copy)]
struct Range {
    first: usize,
    len: usize,
}

/// The bytes of a matrix of four columns of four u32, and the range of each handle.
#[derive(Drop)]
struct Plain {
    bytes: Vec<u8>,
    ranges: Vec<Range>,
}

/// How many bytes the matrix has.
const MATRIX: usize = 64;

/// How many handles there are.
const HANDLES: usize = 1000;

/// The value of these bytes: a matrix, a column or a component.
fn value_of(rt: &impl Abort, alloc: Global, types: &Types, bytes: &[u8]) -> Instance {
    let ty = match bytes.len() {
        MATRIX => &types.matrix,
        16 => &types.column,
        _ => &types.component,
    };
    let value = Instance::from_buffer(alloc, bytes, ty).expect(rt, "memory");
    value.expect(rt, "a value")
}

/// Bytes that no other handle is given.
fn bytes_for(rt: &impl Abort, alloc: Global, handle: usize, len: usize) -> Vec<u8> {
    let mut bytes = Vec::new(alloc);
    let first = u32::try_from(handle).unwrap_or(0).wrapping_mul(16);
    for i in 0..len / 4 {
        let word = first.wrapping_add(u32::try_from(i).unwrap_or(0));
        bytes
            .extend_from_slice(&word.to_le_bytes())
            .expect(rt, "memory");
    }
    bytes
}

impl Plain {
    fn bytes_at(&self, range: Range) -> &[u8] {
        let from = self.bytes.get(range.first..).unwrap_or(&[]);
        from.get(..range.len).unwrap_or(&[])
    }

    fn put(&mut self, range: Range, bytes: &[u8]) {
        for (place, byte) in self.bytes.iter_mut().skip(range.first).zip(bytes) {
            *place = *byte;
        }
    }
}

/// Makes a handle of the part of this index in what the first handle names, while there are too few.
fn add_part(
    rt: &impl Abort,
    alloc: Global,
    session: &mut Session,
    plain: &mut Plain,
    whole: usize,
    i: usize,
) {
    let made = plain.ranges.len();
    let named = plain.ranges.get(whole).copied().expect(rt, "a handle");
    if made < HANDLES {
        let len = named.len / 4;
        let first = named.first.wrapping_add(i.wrapping_mul(len));
        plain.ranges.push(Range { first, len }).expect(rt, "memory");
        let answer = call(rt, session, Call::Index(whole, i));
        assert_same(rt, answer, Ok(Reply::Handle(made)));
    }
}

/// Makes handles of each column, and of each component.
fn add_parts(rt: &impl Abort, alloc: Global, session: &mut Session, plain: &mut Plain) {
    let first = plain.ranges.len();
    for column in 0..4 {
        add_part(rt, alloc, session, plain, 0, column);
    }
    for column in 0..4 {
        for row in 0..4 {
            let named = first.wrapping_add(column).min(HANDLES - 1);
            add_part(rt, alloc, session, plain, named, row);
        }
    }
}

/// Asserts that each handle is read as what the bytes of its range lay out.
fn assert_reads(
    rt: &impl Abort,
    alloc: Global,
    session: &mut Session,
    plain: &Plain,
    types: &Types,
) {
    for (handle, range) in plain.ranges.iter().enumerate() {
        let wanted = value_of(rt, alloc, types, plain.bytes_at(*range));
        let answer = call(rt, session, Call::Read(handle));
        assert_same(rt, answer, Ok(Reply::Value(wanted)));
    }
}

/// Writes through the handle, to the session and to the bytes.
fn write(
    rt: &impl Abort,
    alloc: Global,
    session: &mut Session,
    plain: &mut Plain,
    types: &Types,
    handle: usize,
) {
    let range = plain.ranges.get(handle).copied().expect(rt, "a handle");
    let bytes = bytes_for(rt, alloc, handle, range.len);
    plain.put(range, &bytes);
    let value = value_of(rt, alloc, types, &bytes);
    let answer = call(rt, session, Call::Write(handle, value));
    assert_same(rt, answer, Ok(Reply::Done));
}

#[test]
fn what_is_written_through_one_of_a_thousand_handles_is_read_through_each(rt: HostRuntime) {
    let alloc = rt.alloc();
    let types = types_of_parts(&rt, alloc);
    let bytes = bytes_for(&rt, alloc, HANDLES, MATRIX);
    let matrix = value_of(&rt, alloc, &types, &bytes);
    let mut session = Session::new(alloc);
    let answer = call(&rt, &mut session, Call::New(matrix, Storage, ReadWrite));
    assert_same(&rt, answer, Ok(Reply::Handle(0)));
    let whole = Range {
        first: 0,
        len: MATRIX,
    };
    let ranges = vec![in alloc; whole].expect(&rt, "memory");
    let mut plain = Plain { bytes, ranges };
    for _ in 0..50 {
        add_parts(&rt, alloc, &mut session, &mut plain);
    }
    assert_eq!(rt; plain.ranges.len(), HANDLES);
    for handle in 0..HANDLES {
        write(&rt, alloc, &mut session, &mut plain, &types, handle);
        assert_reads(&rt, alloc, &mut session, &plain, &types);
    }
    drop((types, session, plain));
}

/// How many references the chain has.
const LINKS: usize = 100;

/// A session with the i32 5, a reference to it, a reference to that one, and so on. Each can be read and written, but
/// the one in the middle has this access.
fn chain(rt: &impl Abort, alloc: Global, middle: AccessMode) -> Session {
    let mut session = Session::new(alloc);
    let five = Call::New(Instance::from(5i32), Storage, ReadWrite);
    assert_same(rt, call(rt, &mut session, five), Ok(Reply::Handle(0)));
    for link in 0..LINKS {
        let made = link + 1;
        let access = if made == LINKS / 2 { middle } else { ReadWrite };
        let answer = call(rt, &mut session, Call::NewOf(link, Function, access));
        assert_same(rt, answer, Ok(Reply::Handle(made)));
    }
    session
}

/// What the cell of the reference holds, whatever access it has.
fn content_of(
    rt: &impl Abort,
    alloc: Global,
    session: &Session,
    reference: &RefInstance,
) -> Instance {
    let view = reference.view().clone(alloc).expect(rt, "memory");
    let ty = reference.target_ty().clone(alloc).expect(rt, "memory");
    let space = reference.space();
    let open = RefInstance::from_parts(reference.cell(), view, ty, space, ReadWrite);
    let content = sessions::read(rt, alloc, session.store(), &open);
    drop(open);
    content.expect(rt, "a value")
}

/// What a session holds of whose cells each has a handle, as it is written: its cells, the references of its handles, and
/// how each of these is read.
fn held_by(rt: &impl Abort, alloc: Global, session: &mut Session) -> String {
    let mut held = String::new(alloc);
    for handle in 0..session.store().len() {
        let reference = session.reference(handle).expect(rt, "a handle");
        let cell = content_of(rt, alloc, session, reference);
        write!(held, "{cell:?} at {reference:?}").expect(rt, "memory");
        drop(cell);
        let read = call(rt, session, Call::Read(handle));
        write!(held, " is read: {read:?}; ").expect(rt, "memory");
        drop(read);
    }
    held
}

/// Asserts how the last reference of the chain is loaded, and that this changes nothing.
fn assert_loads(rt: &impl Abort, alloc: Global, middle: AccessMode, wanted: Result<Reply, Fault>) {
    let mut session = chain(rt, alloc, middle);
    let before = held_by(rt, alloc, &mut session);
    assert_same(rt, call(rt, &mut session, Call::Load(LINKS)), wanted);
    assert_eq!(rt; session.store().len(), LINKS + 1);
    assert!(rt; session.reference(LINKS + 1).is_none());
    let after = held_by(rt, alloc, &mut session);
    assert_same(rt, before, after);
    drop(session);
}

#[test]
fn a_chain_of_a_hundred_references_is_loaded_where_each_can_be_read(rt: HostRuntime) {
    let alloc = rt.alloc();
    let five = Ok(Reply::Value(Instance::from(5i32)));
    assert_loads(&rt, alloc, ReadWrite, five);
    assert_loads(
        &rt,
        alloc,
        AccessMode::Write,
        Err(Fault::Of(Error::NotRead)),
    );
}
