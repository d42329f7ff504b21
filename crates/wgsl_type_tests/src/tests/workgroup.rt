//! The memory of a workgroup.

use crate::tests::asserts::assert_row;
use wgsl_interface::workgroup_memory;

/// Sizes and the memory of all.
const ROWS: [(&str, &[u32], u64); 10] = [
    ("each_size_is_rounded_up", &[], 0),
    ("each_size_is_rounded_up", &[0], 0),
    ("each_size_is_rounded_up", &[1], 16),
    ("each_size_is_rounded_up", &[15], 16),
    ("each_size_is_rounded_up", &[16], 16),
    ("each_size_is_rounded_up", &[17], 32),
    ("each_size_is_rounded_up", &[4, 12, 1024, 20], 1088),
    ("each_size_is_rounded_up", &[16384], 16384),
    ("sums_past_a_u32", &[4294967295], 0x1_0000_0000),
    (
        "sums_past_a_u32",
        &[4294967295, 4294967295, 1],
        0x2_0000_0010,
    ),
];

#[test]
fn each_size_is_rounded_up(rt: HostRuntime) {
    for (row, sizes, wanted) in ROWS {
        assert_row(
            &rt,
            row,
            (sizes, workgroup_memory(sizes)),
            (sizes, Some(wanted)),
        );
    }
}
