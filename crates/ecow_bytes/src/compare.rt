//! Equality and order of bytes, many at a time.
ghost use Rattle.std.specs.Prelude.{◌≡◌, ◌+◌, ◌*◌, ◌<◌, ◌≤◌, ◌↔◌, ◌≢◌, IsTrue, length, take, drop, min, nat_eq};
ghost use Rattle.std.specs.Ordering.{nat_cmp};
ghost use Rattle.std.specs.Cmp.Lexicographic.{pointwise, slice_cmp};

use std::cmp::Ordering;
use std::simd::Simd;

/// The number of bytes that are compared at once.
const GROUP: usize = 64;

/// Whether the `M` bytes from `at` on are equal.
#[inline(always)]
fn same_at<const M: usize>(left: &[u8], right: &[u8], at: usize) -> bool
    requires lanes { (0 < M) × (M ≤ 64) }
    requires in_bounds { (at + M ≤ length left.now) × (at + M ≤ length right.now) }
    ensures { IsTrue result ↔ (take M (drop at left.now) ≡ take M (drop at right.now)) }
{
    Simd::<u8, M>::from_slice(&left[at..])
        .simd_ne(Simd::from_slice(&right[at..]))
        .to_bitmask()
        == 0
}

/// Whether two slices of one length, from `M` to `2 * M`, are equal. Compares the first `M` bytes
/// and the last `M` bytes.
#[inline(always)]
fn same_ends<const M: usize>(left: &[u8], right: &[u8]) -> bool
    requires lanes { (0 < M) × (M ≤ 64) }
    requires as_many { length left.now ≡ length right.now }
    requires covered { (M ≤ length left.now) × (length left.now ≤ 2 * M) }
    ensures { IsTrue result ↔ (left.now ≡ right.now) }
{
    same_at::<M>(left, right, 0) & same_at::<M>(left, right, left.len() - M)
}

/// Whether two slices of one length, at most a group, are equal. Runs no loop and calls no
/// function.
#[inline(always)]
fn few_same(left: &[u8], right: &[u8]) -> bool
    requires as_many { length left.now ≡ length right.now }
    requires few { length left.now ≤ GROUP }
    ensures { IsTrue result ↔ (left.now ≡ right.now) }
{
    let len = left.len();
    if len > 32 {
        return same_ends::<32>(left, right);
    }
    if len > 16 {
        return same_ends::<16>(left, right);
    }
    if len >= 8 {
        return same_ends::<8>(left, right);
    }
    if len >= 4 {
        return same_ends::<4>(left, right);
    }
    if len >= 2 {
        return same_ends::<2>(left, right);
    }
    if len == 1 {
        return same_ends::<1>(left, right);
    }
    true
}

/// Whether the groups from `first` on are equal, and those from `second` on.
#[inline(always)]
fn both_same(left: &[u8], right: &[u8], first: usize, second: usize) -> bool
    requires first_in_bounds { (first + GROUP ≤ length left.now)
        × (first + GROUP ≤ length right.now) }
    requires second_in_bounds { (second + GROUP ≤ length left.now)
        × (second + GROUP ≤ length right.now) }
    ensures { IsTrue result
        ↔ ((take GROUP (drop first left.now) ≡ take GROUP (drop first right.now))
        × (take GROUP (drop second left.now) ≡ take GROUP (drop second right.now))) }
{
    same_at::<GROUP>(left, right, first) & same_at::<GROUP>(left, right, second)
}

/// How many of the first `len` bytes are known to be equal: all of them, or as many as were
/// compared before a difference was found.
#[inline]
fn same_front(left: &[u8], right: &[u8], len: usize) -> usize
    requires many { GROUP ≤ len }
    requires in_bounds { (len ≤ length left.now) × (len ≤ length right.now) }
    ensures bounded { result ≤ len }
    ensures same { take result left.now ≡ take result right.now }
    ensures differ { result < len → (take len left.now ≢ take len right.now) }
{
    let mut at = 0;
    while len - at > 2 * GROUP {
        if !both_same(left, right, at, at + GROUP) {
            return at;
        }
        at += 2 * GROUP;
    }
    let last = len - GROUP;
    if both_same(left, right, at.min(last), last) {
        len
    } else {
        at
    }
}

/// Whether two slices of one length, at least a group, are equal.
#[inline(never)]
fn many_same(left: &[u8], right: &[u8]) -> bool
    requires as_many { length left.now ≡ length right.now }
    requires many { GROUP ≤ length left.now }
    ensures { result ≡ pointwise nat_eq left.now right.now }
{
    same_front(left, right, left.len()) == left.len()
}

/// Whether two slices are equal.
#[inline]
pub(crate) fn equal(left: &[u8], right: &[u8]) -> bool
    ensures { result ≡ pointwise nat_eq left.now right.now }
{
    if left.len() != right.len() {
        return false;
    }
    if left.len() > GROUP {
        return many_same(left, right);
    }
    few_same(left, right)
}

/// The order of two slices whose first `same` bytes are equal.
#[inline(never)]
fn order_past(left: &[u8], right: &[u8], same: usize) -> Ordering
    requires in_bounds { (same ≤ length left.now) × (same ≤ length right.now) }
    requires same { take same left.now ≡ take same right.now }
    ensures { result ≡ slice_cmp nat_cmp left.now right.now }
{
    left[same..].cmp(&right[same..])
}

/// The order of two slices of at least a group. The shorter one has `len` bytes.
#[inline(never)]
fn order_many(left: &[u8], right: &[u8], len: usize) -> Ordering
    requires shorter { len ≡ min (length left.now) (length right.now) }
    requires many { GROUP ≤ len }
    ensures { result ≡ slice_cmp nat_cmp left.now right.now }
{
    let same = same_front(left, right, len);
    if same == len {
        return left.len().cmp(&right.len());
    }
    order_past(left, right, same)
}

/// The order of two slices, for which `order` doesn't find at once that they are equal.
#[inline(never)]
fn order_apart(left: &[u8], right: &[u8]) -> Ordering
    ensures { result ≡ slice_cmp nat_cmp left.now right.now }
{
    let len = left.len().min(right.len());
    if len > GROUP {
        return order_many(left, right, len);
    }
    left.cmp(right)
}

/// The order of the first bytes that differ, or of the lengths if none differ. Equal slices of at
/// most a group are compared without a call.
#[inline]
pub(crate) fn order(left: &[u8], right: &[u8]) -> Ordering
    ensures { result ≡ slice_cmp nat_cmp left.now right.now }
{
    if left.len() == right.len() && left.len() <= GROUP && few_same(left, right) {
        return Ordering::Equal;
    }
    order_apart(left, right)
}
