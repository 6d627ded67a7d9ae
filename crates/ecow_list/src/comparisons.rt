//! Equality, order, hash and debug text of an `EcoVec`: those of its elements in order, shared or
//! not. A vector comes before a longer one that begins with all its elements.
ghost use Rattle.std.specs.Prelude.{◌≡◌, ◌*◌, ◌≤◌, IsTrue, length};
ghost use Rattle.std.specs.Mem.{type_size};
ghost use Rattle.std.specs.Cmp.Lexicographic.{pointwise, slice_cmp, slice_partial_cmp, lists_per, lists_equiv, lists_po, lists_total, lists_agrees, lists_ties};
ghost use Rattle.std.specs.Hash as fed;
ghost use Rattle.std.specs.Hash.{items_Alike};

use crate::vec::EcoVec;
use std::cmp::Ordering;
use std::fmt;
use std::hash::{Hash, Hasher};
use std::mem::size_of_val;

/// How many elements make a group, which is compared at once.
const GROUP: usize = 16;

/// Whether the elements of two groups are equal, with no branch between them.
fn groups_equal<T: PartialEq, const G: usize>(left: &[T; G], right: &[T; G]) -> bool
    requires { type_size T.row ≤ 8 }
    ensures { result ≡ pointwise T.eq left.now right.now }
{
    let mut equal = true;
    let mut i = 0;
    while i < G {
        equal &= left[i] == right[i];
        i += 1;
    }
    equal
}

/// Whether there are elements, and they are words of eight bytes.
fn are_words<T>(elements: &[T]) -> bool
    ensures { IsTrue result → type_size T.row ≤ 8 }
{
    match elements.first() {
        Some(first) => size_of_val(first) == 8,
        None => false,
    }
}

/// Whether the elements of two slices of one length are equal. The length is from `G` to twice `G`,
/// so the first `G` and the last `G` are all.
fn ends_equal<T: PartialEq, const G: usize>(left: &[T], right: &[T]) -> bool
    requires words { type_size T.row ≤ 8 }
    requires as_many { length left.now ≡ length right.now }
    requires covered { (G ≤ length left.now) × (length left.now ≤ 2 * G) }
    ensures { result ≡ pointwise T.eq left.now right.now }
{
    if let Some(first) = left.first_chunk::<G>()
        && let Some(other_first) = right.first_chunk::<G>()
        && let Some(last) = left.last_chunk::<G>()
        && let Some(other_last) = right.last_chunk::<G>()
    {
        return groups_equal(first, other_first) & groups_equal(last, other_last);
    }
    unreachable!()
}

/// Whether the elements are equal. Compares group by group, and then the elements that are left.
#[inline(never)]
fn words_equal<T: PartialEq>(left: &[T], right: &[T]) -> bool
    requires { type_size T.row ≤ 8 }
    ensures { result ≡ pointwise T.eq left.now right.now }
{
    let (mut ours, mut theirs) = (left, right);
    while let Some((group, rest)) = ours.split_first_chunk::<GROUP>()
        && let Some((other, others)) = theirs.split_first_chunk::<GROUP>()
    {
        if !groups_equal(group, other) {
            return false;
        }
        ours = rest;
        theirs = others;
    }
    ours == theirs
}

/// Whether the elements are equal. Words are compared by groups, which processors can do at once.
fn all_equal<T: PartialEq>(left: &[T], right: &[T]) -> bool
    ensures { result ≡ pointwise T.eq left.now right.now }
{
    if left.len() != right.len() {
        return false;
    }
    if left.len() >= 4 && are_words(left) {
        if left.len() <= 8 {
            return ends_equal::<T, 4>(left, right);
        }
        if left.len() < GROUP {
            return ends_equal::<T, 8>(left, right);
        }
        return words_equal(left, right);
    }
    left == right
}

impl<T: PartialEq> PartialEq for EcoVec<T> {
    ghost eq = { pointwise T.eq };

    ghost laws = { lists_per T.laws };

    fn eq(&self, other: &Self) -> bool {
        all_equal(self.as_slice(), other.as_slice())
    }
}

impl<T: Eq> Eq for EcoVec<T> {
    ghost laws = { lists_equiv T.Eq.laws };
}

impl<T: PartialOrd> PartialOrd for EcoVec<T> {
    ghost partial_cmp = { slice_partial_cmp T.partial_cmp };

    ghost laws = { lists_po T.PartialOrd.laws };

    fn partial_cmp(&self, other: &Self) -> Option<Ordering> {
        self.as_slice().partial_cmp(&other.as_slice())
    }
}

impl<T: Ord> Ord for EcoVec<T> {
    ghost cmp = { slice_cmp T.cmp };

    ghost total = { lists_total T.total };

    ghost matches_partial_cmp = { λ v w. lists_agrees T.matches_partial_cmp v w };

    ghost matches_eq = { λ v w. lists_ties T.cmp T.matches_eq v w };

    fn cmp(&self, other: &Self) -> Ordering {
        self.as_slice().cmp(&other.as_slice())
    }
}

impl<T: Hash> Hash for EcoVec<T> {
    ghost hash_input = { fed.slice T.hash_input };

    ghost respects_eq = { (items_Alike (record { fed = T.respects_eq })).fed };

    fn hash<H: Hasher>(&self, state: &mut H) {
        self.as_slice().hash(state);
    }
}

impl<T: fmt::Debug> fmt::Debug for EcoVec<T> {
    fn fmt<W: fmt::Write>(&self, f: &mut fmt::Formatter<W>) -> fmt::Result {
        self.as_slice().fmt(f)
    }
}
