//! Ranges of indices in a list of a given length.
ghost use Rattle.std.specs.Prelude.{◌≡◌, ◌≤◌, ◌↔◌, IsTrue, IsSome, IfSome};
ghost use Rattle.ecow_base.specs.Range.{range_of};

use std::ops::{Bound, RangeBounds};

/// The first index of `range` and the index after its last, in a list of `len` elements. `None`
/// where a bound lies outside the list, or where the range runs backwards.
///
/// Where this answers `None`, the original panics.
pub fn resolve<R: RangeBounds<usize>>(range: &R, len: usize) -> Option<(usize, usize)>
    ensures value { R.has_bounds range.now
        → result ≡ range_of (R.start_bound range.now, R.end_bound range.now) len }
    ensures ordered { IfSome result (λ part. (part.0 ≤ part.1) × (part.1 ≤ len)) }
{
    let end = match range.end_bound() {
        Bound::Included(last) if *last < len => *last + 1,
        Bound::Excluded(end) if *end <= len => *end,
        Bound::Unbounded => len,
        _ => return None,
    };
    let start = match range.start_bound() {
        Bound::Excluded(before) if *before < end => *before + 1,
        Bound::Included(start) if *start <= end => *start,
        Bound::Unbounded => 0,
        _ => return None,
    };
    Some((start, end))
}

/// Whether `range` lies within a list of `len` elements: the test to make before a call that asks
/// for such a range.
pub fn range_in<R: RangeBounds<usize>>(range: &R, len: usize) -> bool
    ensures { R.has_bounds range.now
        → (IsTrue result ↔ IsSome (range_of (R.start_bound range.now, R.end_bound range.now) len)) }
{
    resolve(range, len).is_some()
}
