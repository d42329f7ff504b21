//! Sums, products and multiples of sizes, none of which passes 4294967295.

ghost use Rattle.std.specs.Prelude.{◌≡◌};
ghost use Rattle.wgsl_rules.specs.Size.{sum_of, round_up, with_both, times};

pub(crate) fn sum_if_known(a: Option<u32>, b: Option<u32>) -> Option<u32>
    ensures { result ≡ with_both sum_of a b }
{
    a?.checked_add(b?)
}

/// `n` times a size.
pub(crate) fn times(n: usize, size: Option<u32>) -> Option<u32>
    ensures { result ≡ times n size }
{
    let all = n.checked_mul(size? as usize)?;
    u32::try_from(all).ok()
}

/// The least multiple of `align` that is at least `n`.
pub(crate) fn rounded_if_known(align: Option<u32>, n: Option<u32>) -> Option<u32>
    ensures { result ≡ with_both round_up align n }
{
    n?.checked_next_multiple_of(align?)
}
