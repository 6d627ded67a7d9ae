//! Fewer bytes than there are cells.
ghost use Rattle.std.specs.Prelude.{◌≡◌, ◌+◌, ◌*◌, ◌^◌, ◌<◌, ◌≤◌, length, take};

use crate::cells::Cells;
use ecow_base::MAX_LEN;
use std::marker::Model;

/// Fewer than `N` bytes. The last cells say how many there are (`counted` in `specs`).
#[derive(Drop)]
pub(crate) struct Few<const N: usize> {
    /// The first cells hold the bytes, and the last ones say how many there are.
    pub(crate) cells: Cells<N>,
}

impl<const N: usize> Model for Few<N> {
    ghost use Rattle.std.specs.Prelude.{◌≡◌, ◌<◌, ℕ, List, length, take};
    ghost use Rattle.ecow_bytes.specs.Counts.{counted};

    ghost Value = { List ℕ };

    ghost view = { λ v. take (counted N v.cells.bytes) v.cells.bytes };

    ghost invariant = { λ v. (counted N v.cells.bytes < N) × (length v.cells.bytes ≡ N) };
}

impl<const N: usize> Few<N> {
    ghost use Rattle.std.specs.Borrow.{sem};
    ghost use Rattle.ecow_bytes.specs.Lends.{lends_few};
    ghost use Rattle.ecow_bytes.specs.Digits.{digits};

    /// The bytes in the first `len` cells.
    #[inline]
    pub(crate) fn of(mut cells: Cells<N>, len: usize) -> Self
        requires { len < N }
        ensures bytes { result ≡ take len cells.entry.bytes }
        ensures len { length result ≡ len }
    {
        cells.set_len(len);
        Few {
            cells: cells.copy(),
        }
    }

    /// The lowest `len` bytes of two words.
    #[inline(always)]
    pub(crate) fn of_words(low: u64, high: u64, len: usize) -> Self
        requires cells { N ≡ 15 }
        requires len { len < 15 }
        requires fits { high < 2 ^ 48 }
        ensures { result ≡ digits len (low + 2 ^ 64 * high) }
    {
        Few {
            cells: Cells::of_words(low, high + ((len as u64) << 48)).copy(),
        }
    }

    /// A copy of these bytes.
    #[inline]
    pub(crate) fn copy(&self) -> Self
        ensures { result ≡ self.now }
    {
        Few {
            cells: self.cells.copy(),
        }
    }

    /// The number of bytes.
    #[inline]
    pub(crate) fn len(&self) -> usize
        ensures len { result ≡ length self.now }
        ensures fits { result < N }
        ensures bounded { N ≤ MAX_LEN }
    {
        self.cells.len()
    }

    /// Sets the length to `len`. The first bytes stay up to the new length, and if it is greater,
    /// the bytes that are added are unspecified.
    #[inline]
    pub(crate) fn set_len(&mut self, len: usize)
        requires { len < N }
        ensures len { length self.new ≡ len }
        ensures kept { take (length self.old) self.new ≡ take len self.old }
    {
        self.cells.set_len(len);
    }

    /// The bytes, in order.
    #[inline]
    pub(crate) fn as_slice(&self) -> &[u8]
        ensures { result.now ≡ self.now }
    {
        &self.cells.bytes[..self.cells.len()]
    }

    /// The bytes, borrowed for writing.
    #[inline]
    pub(crate) fn as_mut_slice(&mut self) -> &mut [u8]
        ensures* writes_back { sem 𝓛 (lends_few N.row self.entry result) }
        ensures value { result.now ≡ self.old }
    {
        let len = self.len();
        let cells = &mut self.cells;
        cells.front_mut(len)
    }
}
