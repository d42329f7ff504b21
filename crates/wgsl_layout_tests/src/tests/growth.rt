//! Calls that make values, types, refusals and cells: what wants memory is told as such, and every other answer is
//! compared.

ghost use Rattle.std.specs.Prelude.{IfSome};
ghost use Rattle.wgsl_layout.specs.FlatCells.{IsFlatPart};
ghost use Rattle.wgsl_rules.specs.Values.{IsStorable};
ghost use Rattle.wgsl_values.specs.View.{value_of};

use crate::tests::asserts::{assert_same, assert_text};
use crate::tests::held::{Held, PUTS, part_at, value_in};
use crate::tests::rows::{bytes_of, columns, number, slice_at, type_of, view_of};
use crate::tests::samples::{SCENE, scene_cell};
use std::alloc::Global;
use std::process::Abort;
use std::sync::Arc;
use wgsl_layout::{FlatCell, FlatPart, Layout, read_buffer};
use wgsl_rules::Type;
use wgsl_samples::atomics::flagged;
use wgsl_scalar::Error;
use wgsl_values::{Instance, MemView};

/// Words of a type, the text of the value, `none` where there is none, the bytes that lay it out, and more bytes behind
/// them.
const VALUES: &str = "\
u32 | 67305985u | 01020304
u32 | 1u | 01000000 | ff
u32 | none | 010203
i32 | -2i | feffffff
i64 | -9223372036854775808li | 0000000000000080
u64 | 578437695752307201lu | 0102030405060708
u64 | none | 01020304050607
vec2 i32 | vec2(1i, -1i) | 01000000 ffffffff
vec3 u32 | vec3(1u, 2u, 3u) | 01000000 02000000 03000000 | ffffffff
vec3 u32 | none | 01000000 02000000 030000
mat2x3 u32 | mat2x3(vec3(1u, 2u, 3u), vec3(4u, 5u, 6u)) | 010000000200000003000000-------- 040000000500000006000000--------
mat2x3 u32 | none | 010000000200000003000000-------- 040000000500000006000000
atomic i32 | atomic<i32>(-3i) | fdffffff
atomic u64 | none | 0100000000000000
array2 vec3 u32 | array(vec3(1u, 2u, 3u), vec3(4u, 5u, 6u)) | 010000000200000003000000-------- 040000000500000006000000--------
array u32 | array(1u, 2u) | 01000000 02000000 | ffffff
array u32 | none | ffffff
array vec3 u32 | array(vec3(1u, 2u, 3u)) | 01000000 02000000 03000000 -------- | ffffffffffffffffffffffffffffff
array vec3 u32 | none | 01000000 02000000 03000000 ffffff
array2 array u32 | none | 01000000 02000000
Pair | Pair(1u, vec3(2u, 3u, 4u)) | 01000000------------------------ 020000000300000004000000-------- | ff
Pair | none | 01000000------------------------ 020000000300000004000000------
array Pair | array(Pair(1u, vec3(2u, 3u, 4u))) | 01000000------------------------ 020000000300000004000000--------
bool | none | 01000000
f32 | none | 01000000";

/// Asserts that the cell holds the value of the text as these bytes.
fn assert_holds(rt: &impl Abort, alloc: Global, cell: FlatCell, text: &str, bytes: &[u8]) {
    let value = answer_of!(rt; cell.whole().value(alloc));
    assert_text(rt, alloc, &value, text);
    assert_same(rt, cell.bytes_at(&MemView::Whole), bytes);
    drop((cell, value));
}

/// Asserts that a cell of the bytes holds the value of the text as the wanted ones; that there is none where they lay
/// out none.
fn assert_of_bytes(
    rt: &impl Abort,
    alloc: Global,
    ty: &Type,
    layout: Option<&Arc<Layout>>,
    bytes: &[u8],
    wanted: (&str, &[u8]),
) {
    match answer_of!(rt; FlatCell::of_bytes(alloc, ty, layout, bytes)) {
        Some(cell) => assert_holds(rt, alloc, cell, wanted.0, wanted.1),
        None => assert_same(rt, "none", wanted.0),
    }
}

/// The layout of the type, to be shared, where it has one.
fn shared(rt: &impl Abort, alloc: Global, ty: &Type) -> Option<Arc<Layout>> {
    let layout = made!(rt; Layout::of(alloc, ty))?;
    Some(made!(rt; Arc::new(alloc, layout)))
}

/// Asserts that the value is read from the bytes, and that a cell of it holds it as the wanted ones.
fn assert_reads(rt: &impl Abort, alloc: Global, ty: &Type, bytes: &[u8], wanted: (&str, &[u8])) {
    match answer_of!(rt; read_buffer(alloc, bytes, ty)) {
        Some(value) => {
            assert_text(rt, alloc, &value, wanted.0);
            assert!(rt; value.is_storable());
            let cell = answer_of!(rt; FlatCell::new(alloc, &value));
            assert_holds(rt, alloc, cell.expect(rt, "a cell"), wanted.0, wanted.1);
            drop(value);
        }
        None => assert_same(rt, "none", wanted.0),
    }
}

/// Asserts what the row says, also where a layout is shared, and where the one that is given is of another type.
fn assert_laid_out(rt: &impl Abort, alloc: Global, other: Option<&Arc<Layout>>, line: &str) {
    let [words, text, laid, more, _] = columns(line);
    let ty = type_of(rt, alloc, words);
    let layout = shared(rt, alloc, &ty);
    let mut bytes = bytes_of(rt, alloc, laid, 0xff);
    made!(rt; bytes.extend_from_slice(&bytes_of(rt, alloc, more, 0xff)));
    let held = bytes_of(rt, alloc, laid, 0);
    let wanted = (text, held.as_slice());
    assert_reads(rt, alloc, &ty, &bytes, wanted);
    assert_of_bytes(rt, alloc, &ty, None, &bytes, wanted);
    assert_of_bytes(rt, alloc, &ty, layout.as_ref(), &bytes, wanted);
    assert_of_bytes(rt, alloc, &ty, other, &bytes, wanted);
    drop((ty, layout, bytes, held));
}

#[test]
fn values_and_their_bytes(rt: HostRuntime) {
    let alloc = rt.alloc();
    let other = shared(&rt, alloc, &Type::I32);
    for line in VALUES.lines() {
        assert_laid_out(&rt, alloc, other.as_ref(), line);
    }
    drop(other);
}

#[test]
fn a_value_of_a_type_without_layout_has_no_cell(rt: HostRuntime) {
    let alloc = rt.alloc();
    let flagged = made!(&rt; flagged(alloc, 7, &[1])).expect(&rt, "a value");
    assert!(rt; flagged.is_storable());
    let made = answer_of!(&rt; FlatCell::new(alloc, &flagged));
    assert!(rt; made.is_none());
    drop((flagged, made));
}

/// The way to a part of a `Scene`, words of its type, where its bytes begin and how many they are, whether it is a vector,
/// how many elements it has, or the number that it holds, and the text of its value.
const PARTS: &str = "\
a | u32 | 0 4 | - | 0u
b | vec3 i32 | 16 12 | vector | vec3(4i, 5i, 6i)
b.2 | i32 | 24 4 | - | 6i
m | mat2x3 u32 | 32 32 | - | mat2x3(vec3(8u, 9u, 10u), vec3(12u, 13u, 14u))
m.1 | vec3 u32 | 48 12 | vector | vec3(12u, 13u, 14u)
m.1.0 | u32 | 48 4 | - | 12u
pairs | array2 Pair | 64 64 | 2 elements | array(Pair(16u, vec3(20u, 21u, 22u)), Pair(24u, vec3(28u, 29u, 30u)))
pairs.1 | Pair | 96 32 | - | Pair(24u, vec3(28u, 29u, 30u))
pairs.1.b.1 | u32 | 116 4 | - | 29u
n | atomic i32 | 128 4 | number 32i | atomic<i32>(32i)
w | u64 | 136 8 | - | 150323855394lu
tail | array atomic u32 | 144 12 | 3 elements | array(atomic<u32>(36u), atomic<u32>(37u), atomic<u32>(38u))
tail.2 | atomic u32 | 152 4 | number 38u | atomic<u32>(38u)";

/// Ways that lead to no part of a `Scene`.
const NOWHERE: &str =
    "c 0 a.0 a.a b.3 b.x b.0.0 m.2 m.a m.1.3 m.1.3.0 pairs.2 pairs.1.c n.0 w.0 tail.3 tail.2.0";

/// The part that the steps lead to, one after the other.
fn stepped<'a>(whole: FlatPart<'a>, steps: &str) -> Option<FlatPart<'a>>
    requires { IsFlatPart whole }
    ensures { IfSome result IsFlatPart }
{
    let mut part = whole;
    for step in steps.split('.').filter(|step| !step.is_empty()) {
        let next = match step.parse::<usize>() {
            Ok(i) => part.index(i),
            Err(_) => part.member(step),
        };
        part = next?;
    }
    Some(part)
}

/// What the part is besides its type and value, as rows say it.
fn sort_of(rt: &impl Abort, alloc: Global, part: FlatPart<'_>) -> String
    requires { IsFlatPart part }
{
    let sort = match (part.is_vector(), part.element_count(), part.atomic_number()) {
        (true, None, None) => String::from_str(alloc, "vector"),
        (false, Some(count), None) => format!(in alloc; "{count} elements"),
        (false, None, Some(number)) => format!(in alloc; "number {number}"),
        (false, None, None) => String::from_str(alloc, "-"),
        _ => panic!(rt; "of two sorts"),
    };
    made!(rt; sort)
}

/// Asserts where the bytes of the part stand, by the place in the row.
fn assert_lends(rt: &impl Abort, cell: &FlatCell, view: &MemView, bytes: &[u8], place: &str) {
    let (start, len) = place.split_once(' ').expect(rt, "a place");
    let (start, len) = (number(rt, start), number(rt, len));
    assert!(rt; cell.whole().viewed(view).is_some());
    let own = slice_at(rt, bytes, start, len);
    assert_same(rt, cell.bytes_at(view), own);
    let from = slice_at(rt, bytes, start, bytes.len().saturating_sub(start));
    assert_same(rt, cell.bytes_from(view), from);
}

/// Asserts what the row says of the part of the cell.
fn assert_part(rt: &impl Abort, alloc: Global, cell: &FlatCell, bytes: &[u8], line: &str) {
    let [steps, words, place, sort, text] = columns(line);
    let view = view_of(rt, alloc, steps);
    let ty = type_of(rt, alloc, words);
    let part = cell.whole().viewed(&view).expect(rt, "a part");
    assert!(rt; part.has_ty(&ty), "{line}");
    assert_same(rt, sort_of(rt, alloc, part).as_str(), sort);
    assert_lends(rt, cell, &view, bytes, place);
    let part = stepped(cell.whole(), steps).expect(rt, "a part");
    let value = answer_of!(rt; part.value(alloc));
    assert_text(rt, alloc, &value, text);
    assert_same(rt, answer_of!(rt; part.ty(alloc)), ty);
    drop((view, value));
}

/// Asserts that the steps lead to no part.
fn assert_nowhere(rt: &impl Abort, alloc: Global, cell: &FlatCell, steps: &str) {
    let view = view_of(rt, alloc, steps);
    let is_none = cell.whole().viewed(&view).is_none();
    drop(view);
    assert!(rt; is_none, "{steps}");
    assert!(rt; stepped(cell.whole(), steps).is_none(), "{steps}");
}

#[test]
fn parts_of_a_cell(rt: HostRuntime) {
    let alloc = rt.alloc();
    let cell = scene_cell(&rt, alloc, SCENE);
    let bytes = bytes_of(&rt, alloc, SCENE, 0);
    for line in PARTS.lines() {
        assert_part(&rt, alloc, &cell, &bytes, line);
    }
    for steps in NOWHERE.split(' ') {
        assert_nowhere(&rt, alloc, &cell, steps);
    }
    drop((cell, bytes));
}

/// The way to a part of a `Scene`, an index, words of the type of the part, and how many parts it has by index; - where
/// it has none.
const NO_PARTS: &str = "\
. | 0 | Scene | -
a | 0 | u32 | -
b | 3 | vec3 i32 | 3
b.1 | 0 | i32 | -
m | 2 | mat2x3 u32 | 2
m.0 | 3 | vec3 u32 | 3
pairs | 2 | array2 Pair | 2
pairs.0 | 1 | Pair | -
n | 0 | atomic i32 | -
tail | 18446744073709551615 | array atomic u32 | 3";

/// Asserts that there is no part of the index of the row, and why.
fn assert_no_part(rt: &impl Abort, alloc: Global, cell: &FlatCell, line: &str) {
    let [steps, index, words, count, _] = columns(line);
    let i = number(rt, index);
    let ty = type_of(rt, alloc, words);
    let wanted = match count {
        "-" => Error::NotIndexable(ty),
        _ => Error::OutOfBounds(i, ty, number(rt, count)),
    };
    let part = stepped(cell.whole(), steps).expect(rt, "a part");
    assert!(rt; part.index(i).is_none(), "{line}");
    assert_same(rt, answer_of!(rt; part.no_part(alloc, i)), wanted);
}

#[test]
fn why_there_is_no_part(rt: HostRuntime) {
    let alloc = rt.alloc();
    let cell = scene_cell(&rt, alloc, SCENE);
    for line in NO_PARTS.lines() {
        assert_no_part(&rt, alloc, &cell, line);
    }
    drop(cell);
}

/// What stood in the place that the value took, or nothing where it does not fit. Where memory is wanting nothing is
/// changed, and it is asked again.
fn replaced(
    rt: &impl Abort,
    alloc: Global,
    held: &mut Held,
    view: &MemView,
    value: &Instance,
    line: &str,
) -> Option<Instance>
    requires { IsStorable (value_of value.now) }
{
    part_at(rt, &held.cell, view);
    match held.cell.replace(alloc, view, value) {
        Ok(stood) => stood,
        Err(std::alloc::AllocError) => {
            held.assert_has(rt, 0, &[], line);
            part_at(rt, &held.cell, view);
            held.cell.replace(alloc, view, value).expect(rt, "memory")
        }
    }
}

/// Asserts that the value of the row takes the place of the one that stood there, which is answered, or that nothing is
/// changed where it does not fit.
fn assert_replaces(rt: &impl Abort, alloc: Global, held: &mut Held, line: &str) {
    let [steps, words, laid, start, _] = columns(line);
    let view = view_of(rt, alloc, steps);
    let value = value_in(rt, alloc, words, laid);
    let own = bytes_of(rt, alloc, laid, 0);
    let there = made!(rt; part_at(rt, &held.cell, &view).value(alloc));
    assert!(rt; value.is_storable());
    let stood = replaced(rt, alloc, held, &view, &value, line);
    if start == "misfit" {
        assert_same(rt, stood.as_ref(), None);
        held.assert_has(rt, 0, &[], line);
    } else {
        assert_same(rt, stood.as_ref(), Some(&there));
        held.assert_has(rt, number(rt, start), &own, line);
    }
    drop((view, value, own, there, stood));
}

#[test]
fn values_that_take_the_place_of_others(rt: HostRuntime) {
    let alloc = rt.alloc();
    let mut held = Held::new(&rt, alloc, SCENE);
    for line in PUTS.lines() {
        assert_replaces(&rt, alloc, &mut held, line);
    }
    drop(held);
}
