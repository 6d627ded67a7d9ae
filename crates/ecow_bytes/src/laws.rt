//! Equality, order, hash and debug text of bytes. They depend on the bytes alone, whether these are
//! inline, spilled or shared. A prefix comes before a longer sequence that starts with it.
ghost use Rattle.std.specs.Prelude.{Some, nat_eq, refl};
ghost use Rattle.std.specs.Ordering.{nat_cmp};
ghost use Rattle.std.specs.Cmp.{on_equiv, on_total, on_po, on_per, partial_equiv_from_equiv};
ghost use Rattle.std.specs.Cmp.Lexicographic.{pointwise, slice_cmp, nat_list_eq_equiv, nat_list_cmp_total, texts_po, texts_ties, bytes_decides};
ghost use Rattle.std.specs.Hash.{on_Alike, same_Alike};
ghost use Rattle.ecow_bytes.specs.Hashes.{hash_writes};

use crate::bytes::SmallBytes;
use crate::compare::{equal, order};
use std::cmp::Ordering;
use std::fmt;
use std::hash::{Hash, Hasher};

impl<const N: usize> PartialEq for SmallBytes<N> {
    ghost eq = { λ b c. pointwise nat_eq b.bytes c.bytes };

    ghost laws = { on_per (λ b. b.bytes) (partial_equiv_from_equiv nat_list_eq_equiv) };

    #[inline]
    fn eq(&self, other: &Self) -> bool {
        equal(self.as_slice(), other.as_slice())
    }
}

impl<const N: usize> Eq for SmallBytes<N> {
    ghost laws = { on_equiv (λ b. b.bytes) nat_list_eq_equiv };
}

impl<const N: usize> PartialOrd for SmallBytes<N> {
    ghost partial_cmp = { λ b c. Some (slice_cmp nat_cmp b.bytes c.bytes) };

    ghost laws = { on_po (λ b. b.bytes) texts_po };

    #[inline]
    fn partial_cmp(&self, other: &Self) -> Option<Ordering> {
        Some(self.cmp(other))
    }
}

impl<const N: usize> Ord for SmallBytes<N> {
    ghost cmp = { λ b c. slice_cmp nat_cmp b.bytes c.bytes };

    ghost total = { on_total (λ b. b.bytes) nat_list_cmp_total };

    ghost matches_partial_cmp = { λ b c. refl };

    ghost matches_eq = { λ b c. texts_ties b.bytes c.bytes };

    #[inline]
    fn cmp(&self, other: &Self) -> Ordering {
        order(self.as_slice(), other.as_slice())
    }
}

// Hashes the number of bytes and then all bytes in one write, as Rust's standard library hashes a
// slice.
impl<const N: usize> Hash for SmallBytes<N> {
    ghost hash_input = { λ b. hash_writes b.bytes };

    ghost respects_eq = { (on_Alike (λ b. b.bytes) (same_Alike hash_writes bytes_decides)).fed };

    fn hash<H: Hasher>(&self, state: &mut H) {
        let bytes = self.as_slice();
        state.write_usize(bytes.len());
        state.write(bytes);
    }
}

impl<const N: usize> fmt::Debug for SmallBytes<N> {
    fn fmt<W: fmt::Write>(&self, f: &mut fmt::Formatter<W>) -> fmt::Result {
        self.as_slice().fmt(f)
    }
}
