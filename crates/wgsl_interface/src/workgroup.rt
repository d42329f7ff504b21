//! The memory that a workgroup takes (WebGPU: limits).

ghost use Rattle.std.specs.Prelude.{◌≡◌, ◌<◌, ◌^◌, SomeIff};
ghost use Rattle.wgsl_interface.specs.Workgroups.{workgroup_memory};

/// How many bytes WebGPU counts against maxComputeWorkgroupStorageSize for variables of these sizes, in
/// bytes: those of the workgroup address space that an entry point uses. Each size counts as the next
/// multiple of 16 (WebGPU: compute pipeline creation). `None` where the sum is past `u64::MAX`, which
/// takes 2³² variables at least.
pub fn workgroup_memory(sizes: &[u32]) -> Option<u64>
    ensures { SomeIff result (workgroup_memory sizes.now < 2 ^ 64) (workgroup_memory sizes.now) }
{
    let mut total = 0u64;
    for size in sizes {
        let size = u64::from(*size).next_multiple_of(16);
        total = total.checked_add(size)?;
    }
    Some(total)
}
