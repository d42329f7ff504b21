//! The laws of all libraries, by the names of `wgsl_types`. What a law says is its contract; the calls do nothing.

use wgsl_types::{
    Instance, a_part_replaced_is_storable, an_equal_comparand_is_exchanged, answers_are_storable,
    answers_have_their_types, answers_may_be_stored, answers_of_memory_may_be_stored,
    atomics_keep_memory_sound, atomics_overwrite_their_bytes, bitcasts_undo_each_other,
    common_kinds_are_common_types, common_type_is_symmetric, convert_is_symmetric,
    converting_again_changes_nothing, inserting_back_changes_nothing, kinds_are_rings,
    leading_bit_and_zeros_add_up, lifted_answers_keep_the_count, literals_are_joined_as_literals,
    memory_laws, min_and_max_are_symmetric, operands_are_in_their_common_type,
    packing_undoes_unpacking, quotients_and_remainders_divide, reversed_twice_is_itself,
    reversing_twice_changes_nothing, session_laws, sums_and_products_swap, sums_and_products_wrap,
    texts_tell_values_apart, transposed_exchanges_rows_and_columns, transposed_twice_is_itself,
    value_laws,
};

#[test]
fn laws_of_types_and_paths(_rt: HostRuntime) {
    value_laws::views_lead_along_their_paths();
    value_laws::fits_tests_the_place();
    value_laws::a_put_is_held();
    value_laws::conversions_keep_numbers();
    value_laws::inner_conversions_give_their_type();
    common_type_is_symmetric();
    convert_is_symmetric::<Instance>();
    converting_again_changes_nothing::<Instance>();
}

#[test]
fn laws_of_literals(_rt: HostRuntime) {
    common_kinds_are_common_types();
    operands_are_in_their_common_type();
    kinds_are_rings();
    sums_and_products_wrap();
    quotients_and_remainders_divide();
    reversing_twice_changes_nothing();
    inserting_back_changes_nothing();
    leading_bit_and_zeros_add_up();
}

#[test]
fn laws_of_values(_rt: HostRuntime) {
    texts_tell_values_apart();
    transposed_exchanges_rows_and_columns();
    transposed_twice_is_itself();
    a_part_replaced_is_storable();
}

#[test]
fn laws_of_bytes_and_memory(_rt: HostRuntime) {
    memory_laws::leaves_are_in_order();
    memory_laws::a_fixed_layout_has_the_size();
    memory_laws::paths_and_bytes_compose();
    memory_laws::views_lead_to_ranges();
    memory_laws::a_buffer_has_the_length();
    memory_laws::decoding_is_reading();
    memory_laws::a_buffer_reads_back();
    memory_laws::a_read_value_has_the_bytes();
    memory_laws::buffers_tell_values_apart();
    memory_laws::a_put_overwrites_its_range();
    memory_laws::a_value_is_held_by_its_paths();
    memory_laws::a_new_cell_keeps_references();
    memory_laws::a_write_keeps_references();
    memory_laws::a_step_deeper_is_kept();
    memory_laws::what_is_read_may_be_stored();
    memory_laws::a_write_is_read();
    memory_laws::a_read_is_written_back();
    memory_laws::the_last_write_stands();
    memory_laws::writes_apart_commute();
    memory_laws::a_copy_overwrites_its_range();
    memory_laws::loading_reads_on();
}

#[test]
fn laws_of_sessions(_rt: HostRuntime) {
    session_laws::a_reference_names_one_value();
    session_laws::decoding_finds_what_is_held();
    session_laws::values_and_bytes_are_in_step();
    session_laws::runs_are_in_step();
}

#[test]
fn laws_of_operators(_rt: HostRuntime) {
    answers_have_their_types();
    answers_are_storable();
    lifted_answers_keep_the_count();
    literals_are_joined_as_literals();
    sums_and_products_swap();
}

#[test]
fn laws_of_builtin_functions(_rt: HostRuntime) {
    packing_undoes_unpacking();
    bitcasts_undo_each_other();
    reversed_twice_is_itself();
    min_and_max_are_symmetric();
    atomics_keep_memory_sound();
    atomics_overwrite_their_bytes();
    an_equal_comparand_is_exchanged();
    answers_may_be_stored();
    answers_of_memory_may_be_stored();
}
