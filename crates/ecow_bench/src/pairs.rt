//! Loops of calls that vectors, bytes and texts have in common, and that only read. Two values,
//! `even` and `odd`, take turns.

use crate::rounds::sum_of;
use ecow_bytes::EcoBytes;
use ecow_string::EcoString;
use std::cmp::Ordering;
use std::hash::{DefaultHasher, Hash, Hasher};

#[inline(never)]
fn same<V: PartialEq>(left: &V, right: &V) -> bool {
    left == right
}

/// Compares a value with two others that equal it, which take turns.
fn eq<V: PartialEq>(one: &V, even: &V, odd: &V, count: u64) -> u64 {
    sum_of(count, |round| {
        let other = if round % 2 == 0 { even } else { odd };
        if same(one, other) { round } else { 0 }
    })
}

#[inline(never)]
fn compared<V: Ord>(left: &V, right: &V) -> Ordering {
    left.cmp(right)
}

/// Finds the order of a value and of two others that equal it, which take turns.
fn cmp<V: Ord>(one: &V, even: &V, odd: &V, count: u64) -> u64 {
    sum_of(count, |round| {
        let other = if round % 2 == 0 { even } else { odd };
        if compared(one, other).is_eq() {
            round
        } else {
            0
        }
    })
}

#[inline(never)]
fn hashed<V: Hash>(value: &V) -> u64 {
    let mut hasher = DefaultHasher::new();
    value.hash(&mut hasher);
    hasher.finish()
}

/// Hashes two equal values, which take turns.
fn hash<V: Hash>(even: &V, odd: &V, count: u64) -> u64 {
    sum_of(
        count,
        |round| hashed(if round % 2 == 0 { even } else { odd }),
    )
}

/// A value of which a loop sees something that is in memory.
pub(crate) trait Seen {
    /// Its length and its last byte.
    fn seen(&self) -> u64;
}

fn length_and_last(bytes: &[u8]) -> u64 {
    match bytes.last() {
        Some(byte) => (bytes.len() as u64).wrapping_add(*byte as u64),
        None => 0,
    }
}

impl Seen for EcoBytes {
    #[inline(never)]
    fn seen(&self) -> u64 {
        length_and_last(self.as_slice())
    }
}

impl Seen for EcoString {
    #[inline(never)]
    fn seen(&self) -> u64 {
        length_and_last(self.as_str().as_bytes())
    }
}

/// Makes a clone and drops it. Two values that were made alike take turns.
pub(crate) fn clone<V: Clone + Drop + Seen, F: FnMut() -> V>(mut made: F, count: u64) -> u64
    requires { F.IsAlwaysCallable made }
{
    let (even, odd) = (made(), made());
    sum_of(count, |round| {
        let one = if round % 2 == 0 { &even } else { &odd };
        one.clone().map_or(0, |copy| copy.seen())
    })
}

/// What a loop saw of values that are made alike; 0 if there is no such call.
pub(crate) fn compare<V: Drop + Ord + Hash, F: FnMut() -> V>(
    call: &str,
    mut made: F,
    count: u64,
) -> u64
    requires { F.IsAlwaysCallable made }
{
    let (one, even, odd) = (made(), made(), made());
    match call {
        "eq" | "bytes_eq" | "text_eq" => eq(&one, &even, &odd, count),
        "cmp" | "bytes_cmp" | "text_cmp" => cmp(&one, &even, &odd, count),
        "hash" | "bytes_hash" | "text_hash" => hash(&even, &odd, count),
        _ => 0,
    }
}
