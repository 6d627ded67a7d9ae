//! std's traits. By them, a vector is used as the slice of its elements and is collected from an
//! iterator, and `?` turns a `Rejected` into its error.
ghost use Rattle.std.specs.Prelude.{◌≡◌, ◌<◌, ◌^◌, length};
ghost use Rattle.std.specs.Iterator.Runs.{EveryRun, ItemsMapTo};
ghost use Rattle.std.specs.Slice.Iter.{iter_rest, iter_steps};

use crate::error::{EcoError, Rejected};
use crate::vec::EcoVec;
use std::alloc::{AllocError, Global};
use std::convert::AsSlice;
use std::ops::DerefSlice;
use std::slice;

/// A vector has all calls of a slice that only read, such as `v[i]` and `v.last()`.
impl<T> DerefSlice for EcoVec<T> {
    type Elem = T;

    ghost deref_gives = { λ v elements. elements ≡ v };

    #[inline]
    fn deref(&self) -> &[T] {
        self.as_slice()
    }
}

impl<T> AsSlice<T> for EcoVec<T> {
    ghost items = { λ v. v };

    #[inline]
    fn as_slice(&self) -> &[T] {
        EcoVec::as_slice(self)
    }
}

/// Goes over the elements by reference, in order, as `iter` does.
impl<'a, T> IntoIterator for &'a EcoVec<T> {
    type Item = &'a T;

    type IntoIter = slice::Iter<'a, T>;

    ghost into_iter_gives = { λ v it. (iter_rest it ≡ v.now) × (length (iter_rest it) < 2 ^ 64)
        × EveryRun (iter_steps {A = T})
        (λ p. ItemsMapTo p (λ element. element.now) (iter_rest p.from)) };

    #[inline]
    fn into_iter(self) -> slice::Iter<'a, T> {
        self.iter()
    }
}

/// Collects the items as `EcoVec::from_iter` does, without cloning them. Both errors of that call
/// become `AllocError` here.
impl<T: Drop> FromIterator<T> for EcoVec<T> {
    type Alloc = Global;

    ghost from_iter_gives = { λ items v. v ≡ items };

    fn from_iter<I: IntoIterator<Item = T>>(alloc: Global, iter: I) -> Result<Self, AllocError> {
        EcoVec::from_iter(alloc, iter).map_err(|_| AllocError)
    }
}

/// Keeps only the error. The value that came back is dropped.
impl<V: Drop> From<Rejected<V>> for EcoError {
    ghost from_gives = { λ rejected error. error ≡ rejected.error };

    fn from(rejected: Rejected<V>) -> Self {
        rejected.error
    }
}
