//! Stores, and calls on references to parts of their cells.

use crate::tests::scripts::assert_scripts;

/// Calls on references, and what each is answered.
const SCRIPTS: &str = "
what_is_written_through_one_reference_is_read_through_another
struct Pair a:u32 b:vec3<u32>
store new read_write Pair 1 2 3 4 -> &0
store member &0 b -> &1
store index &1 2 -> &2
store write &2 u32 9 -> Ok(())
store read &1 -> vec3(2u, 3u, 9u)
store write &1 vec3<u32> 7 7 7 -> Ok(())
store read &2 -> 7u
store buffer &0 -> 1 0 0 0 7 7 7 0
store cells -> 1

a_runtime_sized_array_keeps_its_length
store new read_write array<u32> 10 11 12 -> &0
store index &0 2 -> &1
store write &0 array<u32> 1 2 -> Err(WriteRefType(Array(U32, None), Array(U32, None)))
store read &1 -> 12u
store buffer &0 -> 10 11 12

what_may_only_be_written_is_not_read
store new write vec2<u32> 5 6 -> &0
store index &0 0 -> Err(NotRead)
store read &0 -> Err(NotRead)
store show &0 -> Err(NotRead)
store write &0 vec2<u32> 7 8 -> Ok(())
store exchange &0 vec2<u32> 1 1 -> vec2(7u, 8u)

what_may_only_be_read_is_not_written
store new read u32 1 -> &0
store write &0 u32 2 -> Err(NotWrite)
store exchange &0 u32 2 -> Err(NotReadWrite)
store read &0 -> 1u

steps_that_lead_nowhere_are_refused
store new read_write vec2<u32> 5 6 -> &0
store index &0 2 -> Err(OutOfBounds(2, Vec(2, U32), 2))
store member &0 x -> Err(Component(Vec(2, U32), \"x\"))
store index &0 0 -> &1
store index &1 0 -> Err(NotIndexable(U32))
store write &1 i32 1 -> Err(WriteRefType(I32, U32))

references_and_pointers_are_shown_with_their_values
store new read_write i32 5 -> &0
store show &0 -> ref<storage, i32, read_write>(5i)
store point &0 -> ptr<storage, i32, read_write>(5i)

a_chain_of_references_is_loaded_to_its_literal
store new read_write i32 5 -> &0
store chain 100 -> &100
store load &100 -> Ok(Literal(I32(5)))
store write &0 i32 6 -> Ok(())
store load &100 -> Ok(Literal(I32(6)))
store load u32 7 -> Ok(Literal(U32(7)))

a_chain_with_a_link_that_is_not_read_is_not_loaded
store new write i32 5 -> &0
store new read_write &0 -> &1
store load &1 -> Err(NotRead)

what_is_loaded_is_converted
store new read_write int 7 -> &0
store convert u32 &0 -> Ok(Some(Literal(U32(7))))
store convert bool &0 -> Ok(None)

a_reference_is_held_where_it_names_a_value_of_its_type
store new read_write i32 1 -> &0
store holds &0 -> true
store holds .0 -> false
store empty -> 0
store holds &0 -> false
store new read_write u32 1 -> &1
store holds &0 -> false
store empty -> 0
store new read_write i32 2 -> &2
store holds &0 -> true

a_value_is_held_with_each_pointer_in_it
store new read_write i32 1 -> &0
store holds_value pointer_to &0 -> true
store new read_write pointer_to &0 -> &1
store member &1 p -> &2
store read &2 -> ptr<storage, i32, read_write>
store empty -> 0
store holds_value pointer_to &0 -> false
store holds_value i32 1 -> true
";

#[test]
fn calls_on_references(rt: HostRuntime) {
    assert_scripts(&rt, rt.alloc(), SCRIPTS);
}
