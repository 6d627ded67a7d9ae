//! The traits of std that let bytes be used as a slice and be collected from an iterator, as a
//! `Vec<u8>` can.
ghost use Rattle.std.specs.Prelude.{◌≡◌, ◌<◌, ◌^◌, ℕ, length};
ghost use Rattle.std.specs.Iterator.Runs.{EveryRun, ItemsMapTo};
ghost use Rattle.std.specs.Slice.Iter.{iter_rest, iter_steps};
ghost use Rattle.ecow_base.specs.Inline.{inline_for};

use crate::bytes::SmallBytes;
use std::alloc::{AllocError, Global};
use std::convert::AsSlice;
use std::ops::DerefSlice;
use std::slice;

/// Dereferences to a slice: `bytes[i]`, `bytes.last()` and all other calls of a slice that only
/// read can be used.
impl<const N: usize> DerefSlice for SmallBytes<N> {
    type Elem = u8;

    ghost deref_gives = { λ value bytes. bytes ≡ value.bytes };

    #[inline]
    fn deref(&self) -> &[u8] {
        self.as_slice()
    }
}

impl<const N: usize> AsSlice<u8> for SmallBytes<N> {
    ghost items = { λ value. value.bytes };

    #[inline]
    fn as_slice(&self) -> &[u8] {
        SmallBytes::as_slice(self)
    }
}

/// Iterates over references to the bytes, in order.
impl<'a, const N: usize> IntoIterator for &'a SmallBytes<N> {
    type Item = &'a u8;

    type IntoIter = slice::Iter<'a, u8>;

    ghost into_iter_gives = { λ value it. (iter_rest it ≡ value.now.bytes)
        × (length (iter_rest it) < 2 ^ 64)
        × EveryRun (iter_steps {A = ℕ})
        (λ p. ItemsMapTo p (λ byte. byte.now) (iter_rest p.from)) };

    #[inline]
    fn into_iter(self) -> slice::Iter<'a, u8> {
        SmallBytes::as_slice(self).iter()
    }
}

/// Collects bytes as `SmallBytes::from_iter` does. `AllocError` stands for both of its errors.
impl<const N: usize> FromIterator<u8> for SmallBytes<N> {
    type Alloc = Global;

    ghost from_iter_gives = { λ items b. (b.bytes ≡ items)
        × (b.inline ≡ inline_for N (length items)) };

    fn from_iter<I: IntoIterator<Item = u8>>(alloc: Global, iter: I) -> Result<Self, AllocError> {
        SmallBytes::from_iter(alloc, iter).map_err(|_| AllocError)
    }
}
