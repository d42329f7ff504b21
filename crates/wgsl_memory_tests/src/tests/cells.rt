//! Cells: what is written to them and copied between them, the bytes that they lend, and those that they are made of.

use crate::tests::scripts::assert_scripts;

/// Cells whose type has a layout, and cells whose type has none: the bytes of what is written through references.
const WRITTEN: &str = "
a_write_changes_the_bytes_of_its_part_alone
struct S a:u32@size=16 b:u32
store new read_write S 1 2 -> &0
store buffer &0 -> 1 0 0 0 2
store member &0 b -> &1
store write &1 u32 7 -> Ok(())
store buffer &0 -> 1 0 0 0 7
store member &0 a -> &2
store write &2 u32 5 -> Ok(())
store buffer &0 -> 5 0 0 0 7

a_write_of_a_vector_leaves_the_member_behind_its_three_components
struct S a:vec3<u32> b:u32
store new read_write S 1 2 3 4 -> &0
store member &0 a -> &1
store write &1 vec3<u32> 9 9 9 -> Ok(())
store buffer &0 -> 9 9 9 4

a_cell_without_a_layout_is_written_by_its_parts
struct S a:bool b:u32
store new read_write S 1 2 -> &0
store buffer &0 -> None
store member &0 b -> &1
store write &1 u32 7 -> Ok(())
store read &1 -> 7u
store read &0 -> S(true, 7u)
";

/// The bytes that a store lends of the parts of its cells.
const LENT: &str = "
the_bytes_of_a_structure_of_its_members_and_of_a_component
struct Pair a:u32 b:vec3<u32>
store new read_write Pair 1 2 3 4 -> &0
store member &0 a -> &1
store member &0 b -> &2
store index &2 2 -> &3
store lent &0 -> 1 0 0 0 2 3 4 0
store lent &1 -> 1
store lent &2 -> 2 3 4
store lent &3 -> 4
store write &3 u32 9 -> Ok(())
store lent &0 -> 1 0 0 0 2 3 9 0
store lent &2 -> 2 3 9

no_bytes_are_lent_without_read_access
store new write vec2<u32> 5 6 -> &0
store lent &0 -> Err(NotRead)
store new read vec2<u32> 7 8 -> &1
store lent &1 -> 7 8

a_cell_that_is_no_bytes_lends_none, nor does a member of it that has a layout
struct S a:bool b:u32
store new read_write bool 1 -> &0
store new read_write S 1 2 -> &1
store member &1 b -> &2
store lent &0 -> None
store lent &1 -> None
store lent &2 -> None
";

/// Copies between parts of cells.
const COPIED: &str = "
copies_within_a_cell_are_those_of_a_plain_memory
store new read_write array<u32,3> 1 2 3 -> &0
store index &0 0 -> &1
store index &0 1 -> &2
store index &0 2 -> &3
store copy &1 &1 -> Ok(())
store lent &0 -> 1 2 3
store copy &1 &2 -> Ok(())
store lent &0 -> 1 1 3
store copy &1 &3 -> Ok(())
store lent &0 -> 1 1 1
store copy &0 &0 -> Ok(())
store lent &0 -> 1 1 1
store write &0 array<u32,3> 4 5 6 -> Ok(())
store copy &2 &1 -> Ok(())
store lent &0 -> 5 5 6
store copy &2 &2 -> Ok(())
store lent &0 -> 5 5 6
store copy &2 &3 -> Ok(())
store lent &0 -> 5 5 5
store copy &0 &0 -> Ok(())
store lent &0 -> 5 5 5
store write &0 array<u32,3> 7 8 9 -> Ok(())
store copy &3 &1 -> Ok(())
store lent &0 -> 9 8 9
store copy &3 &2 -> Ok(())
store lent &0 -> 9 9 9
store copy &3 &3 -> Ok(())
store lent &0 -> 9 9 9
store copy &0 &0 -> Ok(())
store lent &0 -> 9 9 9

a_copy_between_cells_changes_the_bytes_of_its_part_alone
struct Pair a:u32 b:vec3<u32>
store new read_write vec3<u32> 7 8 9 -> &0
store new read_write Pair 1 2 3 4 -> &1
store member &1 a -> &2
store member &1 b -> &3
store index &0 2 -> &4
store copy &0 &3 -> Ok(())
store read &1 -> Pair(1u, vec3(7u, 8u, 9u))
store copy &2 &4 -> Ok(())
store read &0 -> vec3(7u, 8u, 1u)
store read &1 -> Pair(1u, vec3(7u, 8u, 9u))

a_copy_between_a_cell_of_bytes_and_one_that_is_none
struct S a:bool b:u32
store new read_write S 1 2 -> &0
store member &0 b -> &1
store new read_write u32 5 -> &2
store new read_write u32 6 -> &3
store copy &2 &1 -> Ok(())
store read &0 -> S(true, 5u)
store copy &1 &3 -> Ok(())
store read &3 -> 5u
store copy &0 &0 -> Ok(())
store read &0 -> S(true, 5u)

a_copy_is_refused_as_a_read_and_then_as_a_write
struct Pair a:u32 b:vec3<u32>
store new read_write Pair 1 2 3 4 -> &0
store member &0 b -> &1
store new write u32 1 -> &2
store new read u32 2 -> &3
store copy &2 &3 -> Err(NotRead)
store copy &1 &3 -> Err(NotWrite)
store copy &1 &2 -> Err(WriteRefType(Vec(3, U32), U32))
store copy &3 &2 -> Ok(())
store read &0 -> Pair(1u, vec3(2u, 3u, 4u))
store read &3 -> 2u

an_array_of_another_length_is_not_copied
store new read_write array<u32> 10 11 12 -> &0
store new read_write array<u32> 1 2 -> &1
store copy &1 &0 -> Err(WriteRefType(Array(U32, None), Array(U32, None)))
store read &0 -> array(10u, 11u, 12u)
";

/// Cells and writes of the values that bytes lay out: padding is not taken over.
const LAID_OUT: &str = "
a_cell_is_made_of_the_bytes_of_a_value
struct Pair a:u32 b:vec3<u32>
store lay read_write Pair 1 9 9 9 2 3 4 9 -> &0
store lay read_write array<u32> 10 11 12 -> &1
store read &0 -> Pair(1u, vec3(2u, 3u, 4u))
store lent &0 -> 1 0 0 0 2 3 4 0
store read &1 -> array(10u, 11u, 12u)
store lay read Pair 0 0 0 0 0 0 0 0b 0b 0b -> None
store lay read bool 1 -> None
store cells -> 2

cells_share_the_layout_of_their_type_alone
struct Pair a:u32 b:vec3<u32>
layout of Pair -> Some(32)
store share read_write Pair 1 9 9 9 2 3 4 9 -> &0
store share read_write Pair 5 9 9 9 6 7 8 9 -> &1
store share read_write array<u32> 10 11 12 -> &2
layout of u32 -> Some(4)
store read &0 -> Pair(1u, vec3(2u, 3u, 4u))
store read &1 -> Pair(5u, vec3(6u, 7u, 8u))
store read &2 -> array(10u, 11u, 12u)
store lent &1 -> 5 0 0 0 6 7 8 0

the_value_that_bytes_lay_out_is_written
struct Pair a:u32 b:vec3<u32>
store new read_write Pair 1 2 3 4 -> &0
store member &0 b -> &1
store overwrite &1 7 8 9 -> Ok(true)
store lent &0 -> 1 0 0 0 7 8 9 0
store overwrite &1 5 6 -> Ok(false)
store lent &0 -> 1 0 0 0 7 8 9 0
store overwrite &0 1 9 9 9 2 3 4 9 -> Ok(true)
store lent &0 -> 1 0 0 0 2 3 4 0

a_write_of_bytes_is_refused_as_one_of_their_value, and that they lay out none is told first
store new read_write array<u32> 10 11 12 -> &0
store overwrite &0 1 2 -> Err(WriteRefType(Array(U32, None), Array(U32, None)))
store lent &0 -> 10 11 12
store new read vec2<u32> 5 6 -> &1
store overwrite &1 7 8 -> Err(NotWrite)
store overwrite &1 7 -> Ok(false)
store lent &1 -> 5 6
";

#[test]
fn writes_to_cells(rt: HostRuntime) {
    assert_scripts(&rt, rt.alloc(), WRITTEN);
    assert_scripts(&rt, rt.alloc(), LENT);
}

#[test]
fn copies_and_bytes_of_cells(rt: HostRuntime) {
    assert_scripts(&rt, rt.alloc(), COPIED);
    assert_scripts(&rt, rt.alloc(), LAID_OUT);
}
