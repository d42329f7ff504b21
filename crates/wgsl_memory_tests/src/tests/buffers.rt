//! The bytes of values in host-shared memory, and the values that bytes lay out.

ghost use Rattle.wgsl_rules.specs.Values.{IsWellFormed};
ghost use Rattle.wgsl_values.specs.View.{value_of};

use crate::tests::asserts::{assert_same, assert_some};
use crate::tests::fixtures::bytes_of;
use crate::tests::samples::{array_from, storable};
use crate::tests::scripts::{Scene, assert_scripts, shown, told_if_some};
use crate::tests::stores::told_bytes;
use crate::tests::words::{Words, bytes};
use std::alloc::Global;
use std::process::Abort;
use wgsl_rules::{Ty, Type};
use wgsl_samples::values::reference_of;
use wgsl_store::Buffers;
use wgsl_values::Instance;

/// The bytes of the value, if it has some, which lay it out again.
fn bytes_of_value(rt: &impl Abort, alloc: Global, value: &Instance) -> Option<Vec<u8>>
    requires { IsWellFormed (value_of value.now) }
{
    let bytes = value.to_buffer(alloc).expect(rt, "memory")?;
    let ty = value.ty(alloc).expect(rt, "memory");
    assert_some(rt, Instance::from_buffer(alloc, &bytes, &ty), value);
    drop(ty);
    Some(bytes)
}

impl Scene {
    /// Makes the call on a value or on bytes.
    pub(super) fn of_buffers(&self, rt: &impl Abort, words: &mut Words<'_>) -> String {
        let alloc = self.alloc;
        match words.next() {
            "words" => {
                let bytes = self.laid_out(rt, words);
                let text = told_bytes(rt, alloc, Ok(bytes.as_deref()));
                drop(bytes);
                text
            }
            "bytes" => shown(rt, alloc, self.laid_out(rt, words)),
            "read" => self.read_from(rt, words),
            other => panic!(rt; "{other} is no call on buffers"),
        }
    }

    /// The bytes of the value of the words.
    fn laid_out(&self, rt: &impl Abort, words: &mut Words<'_>) -> Option<Vec<u8>> {
        let value = self.structures.value(rt, self.alloc, words);
        let bytes = bytes_of_value(rt, self.alloc, &value);
        drop(value);
        bytes
    }

    /// The text of the value of the type that the bytes lay out.
    fn read_from(&self, rt: &impl Abort, words: &mut Words<'_>) -> String {
        let ty = self.structures.ty(rt, self.alloc, words.next());
        let bytes = bytes(rt, self.alloc, words.rest);
        let value = Instance::from_buffer(self.alloc, &bytes, &ty).expect(rt, "memory");
        if let Some(value) = &value {
            assert!(rt; value.has_ty(&ty));
        }
        drop((ty, bytes));
        told_if_some(rt, self.alloc, Ok::<Option<Instance>, ()>(value))
    }
}

/// What values are as bytes, and the values of bytes. Where a size of four gigabytes were reserved first, the call would
/// want memory.
const SCRIPTS: &str = "
members_stand_at_multiples_of_their_alignment
struct Pair a:u32 b:vec3<u32>
struct S a:vec3<u32> b:u32
buffer words Pair 1 2 3 4 -> 1 0 0 0 2 3 4 0
buffer words S 1 2 3 4 -> 1 2 3 4

a_size_moves_the_next_member
struct S a:u32@size=16 b:u32
buffer words S 1 2 -> 1 0 0 0 2

an_alignment_moves_its_member
struct S a:u32 b:u32@align=16
buffer words S 1 2 -> 1 0 0 0 2 0 0 0

elements_and_columns_stand_a_stride_apart
buffer words array<vec3<u32>,2> 1 2 3 4 5 6 -> 1 2 3 0 4 5 6 0
buffer words mat2x3<u32> 1 2 3 4 5 6 -> 1 2 3 0 4 5 6 0

three_64_bit_integers_have_no_padding
buffer words vec3<i64> 1 2 3 -> 1 0 2 0 3 0

three_64_bit_integers_are_elements_and_columns
buffer words array<vec3<i64>,2> 1 2 3 4 5 6 -> 1 0 2 0 3 0 0 0 4 0 5 0 6 0 0 0
buffer words mat2x3<i64> 1 2 3 4 5 6 -> 1 0 2 0 3 0 0 0 4 0 5 0 6 0 0 0

three_64_bit_integers_stand_at_multiples_of_32
struct S a:u32 b:vec3<i64>
buffer words S 1 2 3 4 -> 1 0 0 0 0 0 0 0 2 0 3 0 4 0 0 0

a_word_stands_behind_three_64_bit_integers
struct S a:vec3<u64> b:u32
buffer words S 1 2 3 4 -> 1 0 2 0 3 0 4 0

an_alignment_of_three_64_bit_integers_is_a_multiple_of_32
struct S a:vec3<i64>@align=8 b:u32
buffer bytes S 1 2 3 4 -> None
struct S a:vec3<i64>@align=32 b:u32
buffer words S 1 2 3 4 -> 1 0 2 0 3 0 4 0

a_structure_ends_in_a_runtime_sized_array
struct S a:atomic<i32> b:array<u32>
buffer bytes S -1 5 6 -> Some([255, 255, 255, 255, 5, 0, 0, 0, 6, 0, 0, 0])

numbers_at_both_ends_of_each_kind
buffer bytes i32 -2147483648 -> Some([0, 0, 0, 128])
buffer bytes i32 2147483647 -> Some([255, 255, 255, 127])
buffer bytes i32 -2 -> Some([254, 255, 255, 255])
buffer bytes u32 0 -> Some([0, 0, 0, 0])
buffer bytes u32 4294967295 -> Some([255, 255, 255, 255])
buffer bytes u32 67305985 -> Some([1, 2, 3, 4])
buffer bytes i64 -9223372036854775808 -> Some([0, 0, 0, 0, 0, 0, 0, 128])
buffer bytes i64 9223372036854775807 -> Some([255, 255, 255, 255, 255, 255, 255, 127])
buffer bytes i64 -2 -> Some([254, 255, 255, 255, 255, 255, 255, 255])
buffer bytes u64 0 -> Some([0, 0, 0, 0, 0, 0, 0, 0])
buffer bytes u64 18446744073709551615 -> Some([255, 255, 255, 255, 255, 255, 255, 255])

values_without_a_layout_have_no_bytes
struct S a:u32 b:bool
buffer bytes bool 1 -> None
buffer bytes int 7 -> None
buffer bytes S 1 1 -> None

types_without_a_layout_lay_out_nothing
struct S a:u32 b:bool
buffer read bool 0 0 0 0 -> None
buffer read int 0 0 0 0 -> None
buffer read S 0 0 0 0 -> None

a_runtime_sized_array_has_as_many_elements_as_find_room
struct S a:vec4<u32> b:array<u32>
buffer read S 1 2 3 4 5b 0b 0b -> None
buffer read S 1 2 3 4 5 -> S(vec4(1u, 2u, 3u, 4u), array(5u))
buffer read S 1 2 3 4 5 6b 0b 0b -> S(vec4(1u, 2u, 3u, 4u), array(5u))
buffer read S 1 2 3 4 5 6 -> S(vec4(1u, 2u, 3u, 4u), array(5u, 6u))

a_runtime_sized_array_begins_at_its_alignment
struct S a:u32 b:array<vec2<u32>>
buffer read S 1 2 3 4b 0b 0b -> None
buffer read S 1 2 3 4 -> S(1u, array(vec2(3u, 4u)))
buffer read S 1 2 3 4 5b -> S(1u, array(vec2(3u, 4u)))
buffer read S 1 2 3 4 5 6b 0b 0b -> S(1u, array(vec2(3u, 4u)))
buffer read S 1 2 3 4 5 6 -> S(1u, array(vec2(3u, 4u), vec2(5u, 6u)))

bytes_that_are_too_few_lay_out_nothing
struct Pair a:u32 b:vec3<u32>
buffer read Pair 1 2 3 4 5 6 7 -> None
buffer read Pair 1 2 3 4 5 6 7 8b 0b 0b -> None
buffer read Pair 1 2 3 4 5 6 7 8 -> Pair(1u, vec3(5u, 6u, 7u))
buffer read Pair 1 2 3 4 5 6 7 8 9b -> Pair(1u, vec3(5u, 6u, 7u))
buffer read vec3<u32> 1 2 3b 0b 0b -> None
buffer read vec3<u32> 1 2 3 -> vec3(1u, 2u, 3u)
buffer read array<vec3<u32>,2> 1 2 3 4 5 6 7 -> None
buffer read array<vec3<u32>,2> 1 2 3 4 5 6 7 8 -> array(vec3(1u, 2u, 3u), vec3(5u, 6u, 7u))

a_type_of_4_gib_is_not_read_from_16_bytes
struct S a:u32@align=2147483648
buffer read array<u32,1073741823> 1 2 3 4 -> None
buffer read S 1 2 3 4 -> None

padding_is_not_looked_at
struct Pair a:u32 b:vec3<u32>
buffer read Pair 1 7 7 7 2 3 4 7 7 -> Pair(1u, vec3(2u, 3u, 4u))

elements_are_structures
struct Pair a:u32 b:vec3<u32>
buffer words array<Pair,2> 1 2 3 4 9 2 3 4 -> 1 0 0 0 2 3 4 0 9 0 0 0 2 3 4 0
buffer words array<Pair> 1 2 3 4 9 2 3 4 -> 1 0 0 0 2 3 4 0 9 0 0 0 2 3 4 0

elements_are_arrays_of_structures
struct Pair a:u32 b:vec3<u32>
buffer words array<array<Pair,2>,2> 1 2 3 4 5 2 3 4 6 2 3 4 7 2 3 4 -> 1 0 0 0 2 3 4 0 5 0 0 0 2 3 4 0 6 0 0 0 2 3 4 0 7 0 0 0 2 3 4 0

elements_have_structures_of_two_types
struct Pair a:u32 b:vec3<u32>
struct S a:u32 b:u32
struct S c:S d:Pair
buffer words array<S,2> 1 1 1 2 3 4 7 7 7 2 3 4 -> 1 1 0 0 1 0 0 0 2 3 4 0 7 7 0 0 7 0 0 0 2 3 4 0

values_print_as_their_constructors
struct Light a:u32 b:vec3<u32> c:vec2<u32>
buffer read u32 7 -> 7u
buffer read vec3<u32> 2 3 9 -> vec3(2u, 3u, 9u)
buffer read Light 1 0 0 0 2 3 9 0 4 5 0 0 -> Light(1u, vec3(2u, 3u, 9u), vec2(4u, 5u))
";

#[test]
fn values_and_their_bytes(rt: HostRuntime) {
    assert_scripts(&rt, rt.alloc(), SCRIPTS);
}

#[test]
fn values_without_a_layout_have_no_bytes(rt: HostRuntime) {
    let alloc = rt.alloc();
    let reference = reference_of(alloc).expect(&rt, "memory");
    let reference = storable(&rt, Instance::from(reference));
    assert!(rt; bytes_of_value(&rt, alloc, &reference).is_none());
    let deferred = Instance::from(Type::U32);
    assert!(rt; deferred.is_well_formed());
    assert!(rt; bytes_of_value(&rt, alloc, &deferred).is_none());
    drop((reference, deferred));
}

// Each level is seen once: a second look at each would take longer than any test may.
#[test]
fn deep_values_go_to_bytes_in_one_walk(rt: HostRuntime) {
    let alloc = rt.alloc();
    let mut elements = vec![in alloc; Instance::from(7u32)].expect(&rt, "memory");
    for _ in 0..100 {
        let inner = Instance::from(array_from(&rt, elements, false));
        elements = vec![in alloc; inner].expect(&rt, "memory");
    }
    let value = storable(&rt, Instance::from(array_from(&rt, elements, false)));
    let bytes = bytes_of_value(&rt, alloc, &value);
    assert_same(&rt, bytes, Some(bytes_of(&rt, alloc, &[7])));
    drop(value);
}
