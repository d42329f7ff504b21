//! Writes to cells of bytes, which take no memory: each does what it does where each growth behind the making of what it
//! takes is refused. What is compared is made first too.

ghost use Rattle.std.specs.Prelude.{◌≡◌, true};
ghost use Rattle.wgsl_layout.specs.Components.{is_vector};
ghost use Rattle.wgsl_layout.specs.FlatCells.{IsFlatPart, part_value};
ghost use Rattle.wgsl_layout.specs.NumbersIn.{IsLikeNumber};
ghost use Rattle.wgsl_rules.specs.Paths.{viewed};
ghost use Rattle.wgsl_rules.specs.Types.{u32, vec};
ghost use Rattle.wgsl_rules.specs.Values.{type_of};
ghost use Rattle.wgsl_scalar.specs.Literals.{literal_of};
ghost use Rattle.wgsl_values.specs.View.{steps_of, value_of};

use crate::tests::held::{Held, PUTS, part_at, value_in};
use crate::tests::rows::{bytes_of, columns, number, slice_at, type_of, view_of};
use crate::tests::samples::{SCENE, scene_cell};
use std::alloc::Global;
use std::process::Abort;
use wgsl_layout::{BytesWrite, FlatCell, FlatPart, InPlace};
use wgsl_rules::AddressSpace::Storage;
use wgsl_rules::{AccessMode, Ty, Type};
use wgsl_scalar::LiteralInstance;
use wgsl_values::{AtomicInstance, Instance, MemView, RefInstance};

/// Asserts that the value of the row is put, or that it does not fit.
fn assert_puts(rt: &impl Abort, alloc: Global, held: &mut Held, line: &str) {
    let [steps, words, laid, start, _] = columns(line);
    let view = view_of(rt, alloc, steps);
    let value = value_in(rt, alloc, words, laid);
    let own = bytes_of(rt, alloc, laid, 0);
    assert!(rt; value.is_storable());
    let fits = part_at(rt, &held.cell, &view).fits(&value);
    assert!(rt; fits == (start != "misfit"), "{line}");
    assert!(rt; held.cell.put(&view, &value) == fits, "{line}");
    if fits {
        held.assert_has(rt, number(rt, start), &own, line);
    } else {
        held.assert_has(rt, 0, &[], line);
    }
    drop((view, value, own));
}

#[test]
fn values_that_are_put(rt: HostRuntime) {
    let alloc = rt.alloc();
    let mut held = Held::new(&rt, alloc, SCENE);
    for line in PUTS.lines() {
        assert_puts(&rt, alloc, &mut held, line);
    }
    drop(held);
}

/// The way to a part of a `Scene` and an access, the bytes of a value of its type, more bytes behind them, what their
/// write comes to, and where the part begins.
const WRITES: &str = "\
a write | 04030201 |  | Done | 0
a read | 01000000 |  | NotWrite
a read | 010000 |  | NoValue
b read_write | 01000000 feffffff 03000000 | ff | Done | 16
b write | 01000000 02000000 030000 |  | NoValue
b.1 write | ffffffff | ffffffffff | Done | 20
m write | 010000000200000003000000-------- 040000000500000006000000-------- |  | Done | 32
m write | 010000000200000003000000-------- 040000000500000006000000 |  | NoValue
m.1 write | 070000000800000009000000 | ff | Done | 48
pairs.1 write | 01000000------------------------ 020000000300000004000000-------- |  | Done | 96
pairs.1 read | 01000000------------------------ 020000000300000004000000------ |  | NoValue
n write | 00000080 |  | Done | 128
w write | 0102030405060708 |  | Done | 136
tail write | 010000000200000003000000 | ffffff | Done | 144
tail write | 0100000002000000 |  | Misfit
tail write | 01000000020000000300000004000000 |  | Misfit
tail read | 0100000002000000 |  | NotWrite
tail read | 010000 |  | NoValue
tail.2 write | ffffffff | 00 | Done | 152";

/// The reference with the access to the part of the cell.
fn reference_to(
    rt: &impl Abort,
    alloc: Global,
    cell: &FlatCell,
    steps: &str,
    access: &str,
) -> RefInstance {
    let view = view_of(rt, alloc, steps);
    let ty = made!(rt; part_at(rt, cell, &view).ty(alloc));
    let access = match access {
        "read" => AccessMode::Read,
        "write" => AccessMode::Write,
        _ => AccessMode::ReadWrite,
    };
    RefInstance::from_parts(0, view, ty, Storage, access)
}

/// What the write of the bytes comes to, as rows say it.
fn put_bytes(
    rt: &impl Abort,
    cell: &mut FlatCell,
    reference: &RefInstance,
    bytes: &[u8],
) -> &'static str {
    let part = part_at(rt, cell, reference.view());
    assert!(rt; part.has_ty(reference.target_ty()));
    match cell.put_bytes(reference, bytes) {
        BytesWrite::Done => "Done",
        BytesWrite::NoValue => "NoValue",
        BytesWrite::NotWrite => "NotWrite",
        BytesWrite::Misfit => "Misfit",
        BytesWrite::NotBytes => "NotBytes",
    }
}

/// Asserts what the write of the row comes to.
fn assert_writes(rt: &impl Abort, alloc: Global, held: &mut Held, line: &str) {
    let [place, laid, more, came, start] = columns(line);
    let (steps, access) = place.split_once(' ').expect(rt, "an access");
    let reference = reference_to(rt, alloc, &held.cell, steps, access);
    let mut bytes = bytes_of(rt, alloc, laid, 0xff);
    made!(rt; bytes.extend_from_slice(&bytes_of(rt, alloc, more, 0xff)));
    let own = bytes_of(rt, alloc, laid, 0);
    assert!(rt;
        put_bytes(rt, &mut held.cell, &reference, &bytes) == came,
        "{line}"
    );
    if came == "Done" {
        held.assert_has(rt, number(rt, start), &own, line);
    } else {
        held.assert_has(rt, 0, &[], line);
    }
    drop((reference, bytes, own));
}

#[test]
fn bytes_that_are_put(rt: HostRuntime) {
    let alloc = rt.alloc();
    let mut held = Held::new(&rt, alloc, SCENE);
    for line in WRITES.lines() {
        assert_writes(&rt, alloc, &mut held, line);
    }
    drop(held);
}

/// The bytes of a `Scene` with two elements at its end.
const OTHER: &str = "\
    64000000 -------- -------- -------- 68000000 69000000 6a000000 -------- \
    6c000000 6d000000 6e000000 -------- 70000000 71000000 72000000 -------- \
    74000000 -------- -------- -------- 78000000 79000000 7a000000 -------- \
    7c000000 -------- -------- -------- 80000000 81000000 82000000 -------- \
    84000000 -------- 86000000 87000000 88000000 89000000";

/// Whether the part is one of the cell or of another, the ways to it and to where it is copied, what the copy comes to,
/// where the two begin, and how many bytes each has.
const COPIES: &str = "\
own | m.0 | m.1 | Done | 32 48 12
own | pairs.1 | pairs.0 | Done | 96 64 32
own | pairs.0.b | m.0 | Done | 80 32 12
own | b | m.0 | Misfit | 0 0 0
own | b | b | Done | 16 16 12
own | b.0 | b.2 | Done | 16 24 4
own | a | pairs.0.b.0 | Done | 0 80 4
own | a | n | Misfit | 0 0 0
own | tail.0 | tail.2 | Done | 144 152 4
own | tail | tail | Done | 144 144 12
own | . | . | Done | 0 0 156
other | w | w | Done | 136 136 8
other | m | m | Done | 32 32 32
other | m.1 | pairs.1.b | Done | 48 112 12
other | tail | tail | Misfit | 0 0 0
other | . | . | Misfit | 0 0 0
other | tail.1 | tail.0 | Done | 148 144 4
other | n | n | Done | 128 128 4
other | n | a | Misfit | 0 0 0
other | pairs | pairs | Done | 64 64 64";

fn word_of(came: InPlace) -> &'static str {
    match came {
        InPlace::Done => "Done",
        InPlace::Misfit => "Misfit",
        InPlace::NotBytes => "NotBytes",
    }
}

/// What the copy in the cell comes to.
fn copy_within(rt: &impl Abort, cell: &mut FlatCell, from: &MemView, to: &MemView) -> &'static str {
    part_at(rt, cell, from);
    part_at(rt, cell, to);
    word_of(cell.copy_within(from, to))
}

/// What the copy from another cell comes to.
fn copy_from(
    rt: &impl Abort,
    cell: &mut FlatCell,
    other: &FlatCell,
    from: &MemView,
    to: &MemView,
) -> &'static str {
    part_at(rt, other, from);
    part_at(rt, cell, to);
    word_of(cell.copy_from(other, from, to))
}

/// A copy of so many of the bytes, from `start` on.
fn copied(rt: &impl Abort, alloc: Global, bytes: &[u8], start: usize, len: usize) -> Vec<u8> {
    let mut copied = Vec::new(alloc);
    made!(rt; copied.extend_from_slice(slice_at(rt, bytes, start, len)));
    copied
}

/// Asserts what the copy of the row comes to.
fn assert_copies(rt: &impl Abort, alloc: Global, held: &mut Held, other: &Held, line: &str) {
    let [cell, from, to, wanted, places] = columns(line);
    let (from, to) = (view_of(rt, alloc, from), view_of(rt, alloc, to));
    let (first, places) = places.split_once(' ').expect(rt, "a place");
    let (second, len) = places.split_once(' ').expect(rt, "a place");
    let (first, second, len) = (number(rt, first), number(rt, second), number(rt, len));
    let (own, came) = if cell == "own" {
        let own = copied(rt, alloc, &held.wanted, first, len);
        (own, copy_within(rt, &mut held.cell, &from, &to))
    } else {
        let own = copied(rt, alloc, &other.wanted, first, len);
        (own, copy_from(rt, &mut held.cell, &other.cell, &from, &to))
    };
    assert!(rt; came == wanted, "{line}");
    held.assert_has(rt, second, &own, line);
    drop((from, to, own));
}

#[test]
fn parts_that_are_copied(rt: HostRuntime) {
    let alloc = rt.alloc();
    let mut held = Held::new(&rt, alloc, SCENE);
    let other = Held::new(&rt, alloc, OTHER);
    for line in COPIES.lines() {
        assert_copies(&rt, alloc, &mut held, &other, line);
    }
    drop((held, other));
}

/// Which number is put: that of an atomic, one in the place of a part, or the second component of a vector of three u32;
/// the way there, the type of the number and its bytes, and where they stand.
const NUMBERS: &str = "\
atomic | n | i32 | f9ffffff | 128
atomic | tail.1 | u32 | fffefdfc | 148
part | a | u32 | 04030201 | 0
part | b.1 | i32 | feffffff | 20
part | m.1.2 | u32 | 11121314 | 56
part | w | u64 | 0102030405060708 | 136
part | n | i32 | 00000080 | 128
part | tail.2 | u32 | 07000000 | 152
second | m.0 | u32 | 21222324 | 36
second | pairs.1.b | u32 | 31323334 | 116";

/// The literal that the value is.
fn literal_in(rt: &impl Abort, value: &Instance) -> LiteralInstance
    ensures { value_of value.now ≡ literal_of result }
{
    match value {
        Instance::Literal(literal) => *literal,
        _ => panic!(rt; "{value} is no literal"),
    }
}

/// Asserts that the two are of one type.
fn assert_one_type(rt: &impl Abort, own: LiteralInstance, number: LiteralInstance)
    ensures { type_of (literal_of number) ≡ type_of (literal_of own) }
{
    let ty = number.literal_ty();
    let is_one = own.has_ty(&ty);
    drop(ty);
    assert!(rt; is_one);
}

/// Asserts that the part is a number of the kind of this one, or an atomic of such a number.
fn assert_like(rt: &impl Abort, alloc: Global, part: FlatPart<'_>, number: LiteralInstance)
    requires { IsFlatPart part }
    ensures { IsLikeNumber (literal_of number) (part_value part.entry) }
{
    let own = match part.atomic_number() {
        Some(own) => own,
        None => {
            let value = made!(rt; part.value(alloc));
            let own = literal_in(rt, &value);
            drop(value);
            own
        }
    };
    assert!(rt; !matches!(own, LiteralInstance::Bool(_)));
    assert_one_type(rt, own, number);
}

fn put_atomic_number(
    rt: &impl Abort,
    cell: &mut FlatCell,
    view: &MemView,
    number: LiteralInstance,
) {
    let part = part_at(rt, cell, view);
    let own = part.atomic_number().expect(rt, "an atomic");
    assert_one_type(rt, own, number);
    let content = Instance::from(number);
    let is_content = AtomicInstance::can_make(&content);
    drop(content);
    assert!(rt; is_content);
    cell.put_atomic_number(view, number);
}

/// Puts the number in the place of the part.
fn put_number(
    rt: &impl Abort,
    alloc: Global,
    cell: &mut FlatCell,
    view: &MemView,
    number: LiteralInstance,
) {
    assert_like(rt, alloc, part_at(rt, cell, view), number);
    cell.put_number(view, 0, number);
}

/// Asserts that the part is a vector of three u32.
fn assert_three(rt: &impl Abort, alloc: Global, part: FlatPart<'_>)
    requires { IsFlatPart part }
    ensures vector { is_vector (part_value part.entry) ≡ true }
    ensures typed { type_of (part_value part.entry) ≡ vec 3 u32 }
{
    let ty = Type::Vec(3, made!(rt; Box::new(alloc, Type::U32)));
    let is_three = part.has_ty(&ty);
    drop(ty);
    assert!(rt; is_three);
    assert!(rt; part.is_vector());
}

/// Puts the number in the place of the second component of a vector of three u32.
fn put_second(
    rt: &impl Abort,
    alloc: Global,
    cell: &mut FlatCell,
    view: &MemView,
    number: LiteralInstance,
) {
    let part = part_at(rt, cell, view);
    assert_three(rt, alloc, part);
    let second = part.index(1).expect(rt, "a component");
    assert_like(rt, alloc, second, number);
    cell.put_number(view, 4, number);
}

/// Asserts that the number of the row is put.
fn assert_puts_number(rt: &impl Abort, alloc: Global, held: &mut Held, line: &str) {
    let [call, steps, words, laid, start] = columns(line);
    let view = view_of(rt, alloc, steps);
    let value = value_in(rt, alloc, words, laid);
    let own = bytes_of(rt, alloc, laid, 0);
    let number_put = literal_in(rt, &value);
    match call {
        "atomic" => put_atomic_number(rt, &mut held.cell, &view, number_put),
        "part" => put_number(rt, alloc, &mut held.cell, &view, number_put),
        _ => put_second(rt, alloc, &mut held.cell, &view, number_put),
    }
    held.assert_has(rt, number(rt, start), &own, line);
    drop((view, value, own));
}

#[test]
fn numbers_that_are_put(rt: HostRuntime) {
    let alloc = rt.alloc();
    let mut held = Held::new(&rt, alloc, SCENE);
    for line in NUMBERS.lines() {
        assert_puts_number(&rt, alloc, &mut held, line);
    }
    drop(held);
}
