//! Layouts: where the parts of values stand in bytes of the caller's, and what is read and written there.

use crate::tests::fixtures::text;
use crate::tests::scripts::{Scene, assert_scripts, shown, told_if_some};
use crate::tests::words::{Words, bytes, view, words_of};
use std::mem;
use std::process::Abort;
use std::sync::Arc;
use wgsl_store::Layout;

impl Scene {
    /// Makes the call on the layout and the bytes of the scene.
    pub(super) fn of_layouts(&mut self, rt: &impl Abort, words: &mut Words<'_>) -> String {
        match words.next() {
            "of" => {
                let layout = self.layout_of(rt, words);
                let text = match &layout {
                    Some(layout) => shown(rt, self.alloc, layout.size()),
                    None => text(rt, self.alloc, "no layout"),
                };
                drop(mem::replace(&mut self.layout, layout));
                text
            }
            "copy" => self.copy_layout(rt),
            "put" => {
                let bytes = bytes(rt, self.alloc, words.rest);
                let len = bytes.len();
                drop(mem::replace(&mut self.bytes, bytes));
                shown(rt, self.alloc, len)
            }
            "bytes" => words_of(rt, self.alloc, &self.bytes),
            "write" => self.write_part(rt, words),
            call => self.of_layout(rt, call, words),
        }
    }

    /// The layout of the type, if it has one.
    fn layout_of(&self, rt: &impl Abort, words: &mut Words<'_>) -> Option<Arc<Layout>> {
        let ty = self.structures.ty(rt, self.alloc, words.next());
        let layout = Layout::of(self.alloc, &ty).expect(rt, "memory");
        drop(ty);
        let layout = Arc::new(self.alloc, layout?);
        Some(layout.expect(rt, "memory"))
    }

    /// Puts a copy in the place of the layout, which is let go. Answers whether they are equal.
    fn copy_layout(&mut self, rt: &impl Abort) -> String {
        let first = self.layout.take().expect(rt, "a layout");
        let copy = (*first).clone(self.alloc).expect(rt, "memory");
        let is_equal = copy == *first;
        drop(first);
        self.layout = Some(Arc::new(self.alloc, copy).expect(rt, "memory"));
        shown(rt, self.alloc, is_equal)
    }

    fn write_part(&mut self, rt: &impl Abort, words: &mut Words<'_>) -> String {
        let layout = self.layout.as_ref().expect(rt, "a layout");
        let view = view(rt, self.alloc, words.next());
        let value = self.structures.value(rt, self.alloc, words);
        let answer = layout.write(&mut self.bytes, &view, &value);
        drop((view, value));
        shown(rt, self.alloc, answer)
    }

    /// Makes a call that changes nothing.
    fn of_layout(&self, rt: &impl Abort, call: &str, words: &mut Words<'_>) -> String {
        let alloc = self.alloc;
        let layout = self.layout.as_ref().expect(rt, "a layout");
        match call {
            "size" => shown(rt, alloc, layout.size()),
            "size_with" => shown(rt, alloc, layout.size_with(words.number(rt))),
            "count_in" => shown(rt, alloc, layout.count_in(words.number(rt))),
            "shown" => shown(rt, alloc, layout),
            "is_of" => {
                let ty = self.structures.ty(rt, alloc, words.next());
                let is_of = layout.ty() == &ty;
                drop(ty);
                shown(rt, alloc, is_of)
            }
            "equals" => {
                let other = self.layout_of(rt, words).expect(rt, "a layout");
                let equals = (**layout == *other, **layout != *other);
                drop(other);
                shown(rt, alloc, equals)
            }
            _ => self.of_part(rt, layout, call, words),
        }
    }

    /// Makes a call that looks at a part.
    fn of_part(
        &self,
        rt: &impl Abort,
        layout: &Layout,
        call: &str,
        words: &mut Words<'_>,
    ) -> String {
        let alloc = self.alloc;
        let view = view(rt, alloc, words.next());
        let answer = match call {
            "range" => shown(rt, alloc, layout.range(words.number(rt), &view)),
            "type" => told_if_some(rt, alloc, layout.part_ty(alloc, words.number(rt), &view)),
            "read" => told_if_some(rt, alloc, layout.read(alloc, &self.bytes, &view)),
            _ => panic!(rt; "{call} is no call on a layout"),
        };
        drop(view);
        answer
    }
}

/// Calls on layouts and bytes. Each byte is 255 at first where the rows say 4294967295.
const SCRIPTS: &str = "
a_write_leaves_the_bytes_around_the_part
struct Pair a:u32 b:vec3<u32>
layout of Pair -> Some(32)
layout put 4294967295 4294967295 4294967295 4294967295 4294967295 4294967295 4294967295 4294967295 -> 32
layout write .b.1 u32 7 -> Ok(())
layout bytes -> 4294967295 4294967295 4294967295 4294967295 4294967295 7 4294967295 4294967295
layout write .b vec3<u32> 1 2 3 -> Ok(())
layout bytes -> 4294967295 4294967295 4294967295 4294967295 1 2 3 4294967295
layout write . Pair 1 2 3 4 -> Ok(())
layout bytes -> 1 0 0 0 2 3 4 0

refused_writes_change_no_byte
layout of array<u32> -> None
layout size_with 3 -> Some(12)
layout count_in 11 -> Some(2)
layout put 4294967295 4294967295 255b 255b 255b -> 11
layout write .2 u32 1 -> Err(NoPart)
layout write .0 i32 1 -> Err(OtherType)
layout write . array<u32> 1 2 3 -> Err(OtherLength)
layout bytes -> 4294967295 4294967295 255b 255b 255b
layout write .1 u32 1 -> Ok(())
layout bytes -> 4294967295 1 255b 255b 255b
layout put 255b 255b 255b -> 3
layout write .0 u32 1 -> Err(TooFewBytes)
layout bytes -> 255b 255b 255b

parts_are_named_by_views
struct Pair a:u32 b:vec3<u32>
struct Light m:mat2x3<u32> pairs:array<Pair>
layout of Light -> None
layout range .m.1 64 -> Ok(16..28)
layout range .pairs 100 -> Ok(32..96)
layout range .pairs.1 96 -> Ok(64..96)
layout range .pairs.1 95 -> Err(NoPart)
layout range . 63 -> Err(TooFewBytes)
layout range . 64 -> Ok(0..64)
layout type .m.1 64 -> vec3<u32>
layout type .pairs 64 -> array<Pair>

parts_are_read_whatever_the_padding
layout of array<vec3<u32>> -> None
layout put 1 2 3 4 5 6 7 8 9 -> 36
layout read .1 -> vec3(5u, 6u, 7u)
layout read . -> array(vec3(1u, 2u, 3u), vec3(5u, 6u, 7u))
layout read .2 -> None
layout put 0 0 0 0b 0b 0b -> 15
layout read . -> None
layout of bool -> no layout

layouts_are_equal_where_their_types_are
struct Pair a:u32 b:vec3<u32>
struct Light m:mat2x3<u32> pairs:array<Pair>
layout of array<u32,2> -> Some(8)
layout equals array<u32,2> -> (true, false)
layout equals array<u32,3> -> (false, true)
layout equals vec2<u32> -> (false, true)
layout of Light -> None
layout equals Light -> (true, false)
layout of u32 -> Some(4)
layout equals i32 -> (false, true)

a_copy_of_a_layout_serves_as_the_first
struct Pair a:u32 b:vec3<u32>
struct Light m:mat2x3<u32> pairs:array<Pair>
layout of Light -> None
layout copy -> true
layout is_of Light -> true
layout size -> None
layout size_with 2 -> Some(96)
layout count_in 100 -> Some(2)
layout range .pairs.1 100 -> Ok(64..96)
layout put 1 2 3 0 4 5 6 0 7 0 0 0 8 9 10 0 -> 64
layout read .m.1 -> vec3(4u, 5u, 6u)
layout read .pairs -> array(Pair(7u, vec3(8u, 9u, 10u)))

a_layout_is_shown_by_its_type
layout of u32 -> Some(4)
layout shown -> Layout { ty: U32, .. }
";

#[test]
fn calls_on_layouts(rt: HostRuntime) {
    assert_scripts(&rt, rt.alloc(), SCRIPTS);
}
