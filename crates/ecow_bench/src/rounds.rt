//! Rounds of a loop, each of which sees a number.

/// The sum of what `count` rounds see. Each round gets the number of rounds before it.
pub(crate) fn sum_of<F: FnMut(u64) -> u64>(count: u64, mut seen: F) -> u64
    requires { F.IsAlwaysCallable seen }
{
    let mut sum = 0u64;
    for round in 0..count {
        sum = sum.wrapping_add(seen(round));
    }
    sum
}
