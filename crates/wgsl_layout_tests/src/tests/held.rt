//! A cell of bytes that is written, and the values that are put into it.

ghost use Rattle.std.specs.Prelude.{◌≡◌, Ok};
ghost use Rattle.wgsl_layout.specs.FlatCells.{IsFlatPart, part_value};
ghost use Rattle.wgsl_rules.specs.Paths.{viewed};
ghost use Rattle.wgsl_values.specs.View.{steps_of};

use crate::tests::rows::{bytes_of, type_of};
use crate::tests::samples::scene_cell;
use std::alloc::Global;
use std::process::Abort;
use wgsl_layout::{FlatCell, FlatPart, read_buffer};
use wgsl_values::{Instance, MemView};

/// A cell, and the bytes that it is to have.
#[derive(Drop)]
pub(super) struct Held {
    pub(super) cell: FlatCell,
    pub(super) wanted: Vec<u8>,
}

impl Held {
    /// A `Scene` of these bytes.
    pub(super) fn new(rt: &impl Abort, alloc: Global, bytes: &str) -> Held {
        Held {
            cell: scene_cell(rt, alloc, bytes),
            wanted: bytes_of(rt, alloc, bytes, 0),
        }
    }

    /// Asserts that behind the row the cell has the bytes that it had, but these from `start` on.
    pub(super) fn assert_has(&mut self, rt: &impl Abort, start: usize, bytes: &[u8], line: &str) {
        for (i, byte) in bytes.iter().enumerate() {
            match self.wanted.get_mut(start.saturating_add(i)) {
                Some(place) => *place = *byte,
                None => rt.abort(),
            }
        }
        let bytes = self.cell.bytes_at(&MemView::Whole);
        assert!(rt; bytes == self.wanted.as_slice(), "{line}: {bytes:?}");
    }
}

/// The part of the cell that the view leads to.
pub(super) fn part_at<'a>(rt: &impl Abort, cell: &'a FlatCell, view: &MemView) -> FlatPart<'a>
    ensures part { IsFlatPart result }
    ensures there { viewed (steps_of view.now) cell.now ≡ Ok (part_value result) }
{
    cell.whole().viewed(view).expect(rt, "a part")
}

/// The value of the type of the words that the bytes lay out.
pub(super) fn value_in(rt: &impl Abort, alloc: Global, words: &str, laid: &str) -> Instance {
    let ty = type_of(rt, alloc, words);
    let bytes = bytes_of(rt, alloc, laid, 0xff);
    let value = made!(rt; read_buffer(alloc, &bytes, &ty));
    drop((ty, bytes));
    value.expect(rt, "bytes of a value")
}

/// The way to a part of a `Scene`, words of a type, the bytes of a value of it, and where the part begins; `misfit` where
/// the value does not fit there.
pub(super) const PUTS: &str = "\
a | u32 | 04030201 | 0
a | i32 | 01000000 | misfit
b | vec3 i32 | 01000000 feffffff 03000000 | 16
b | vec3 u32 | 01000000 02000000 03000000 | misfit
b | vec2 i32 | 01000000 02000000 | misfit
b.2 | i32 | ffffffff | 24
m | mat2x3 u32 | 010000000200000003000000-------- 040000000500000006000000-------- | 32
m.1 | vec3 u32 | 070000000800000009000000 | 48
m.1 | u32 | 07000000 | misfit
pairs.0.b.1 | u32 | 11121314 | 84
pairs.1 | Pair | 01000000------------------------ 020000000300000004000000-------- | 96
n | atomic i32 | 00000080 | 128
n | i32 | 01000000 | misfit
w | u64 | 0102030405060708 | 136
tail | array atomic u32 | 010000000200000003000000 | 144
tail | array atomic u32 | 0400000005000000 | misfit
tail | array atomic u32 | 04000000050000000600000007000000 | misfit
tail | array3 atomic u32 | 010000000200000003000000 | misfit
tail.1 | atomic u32 | ffffffff | 148
tail.1 | u32 | 01000000 | misfit";
