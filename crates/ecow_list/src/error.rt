//! Why a call was refused.
ghost use Rattle.std.specs.Prelude.{◌≡◌};
ghost use Rattle.ecow_list.specs.declared.error.EcoError.TheVariants.{Capacity, Memory};

use crate::vec::EcoVec;
use std::alloc::{AllocError, AllocFailed};
use std::fmt;
use std::fmt::Debug;
use thiserror::Error;

/// Why a call was refused. Every value that the call could have changed is as it was before.
///
/// Only `extend` keeps the items that it appended before the refusal.
#[derive(Clone, Copy, Debug, PartialEq, Eq, Error)]
pub enum EcoError {
    /// The requested capacity or the new length passes 2^63 - 1.
    #[error("capacity overflow")]
    Capacity,
    /// There was no memory for the elements, or the clone of one was refused.
    #[error("out of memory")]
    Memory,
}

impl From<AllocError> for EcoError {
    ghost from_gives = { λ _ error. error ≡ Memory };

    fn from(_refused: AllocError) -> Self {
        EcoError::Memory
    }
}

impl<V: Drop> From<AllocFailed<V>> for EcoError {
    ghost from_gives = { λ _ error. error ≡ Memory };

    fn from(_refused: AllocFailed<V>) -> Self {
        EcoError::Memory
    }
}

/// A formatting error becomes `Memory`, since text that can't be printed lacks memory. So one
/// function can use `?` on `eco_format!` and on the calls of a vector.
impl From<fmt::Error> for EcoError {
    ghost from_gives = { λ _ error. error ≡ Memory };

    fn from(_refused: fmt::Error) -> Self {
        EcoError::Memory
    }
}

/// A refused call, with the value that was handed in.
#[derive(Debug, Drop, Error)]
#[error("{error}")]
pub struct Rejected<V> {
    /// Why the call was refused.
    pub error: EcoError,
    /// The value that was handed in.
    pub value: V,
}

impl<V> Rejected<V> {
    /// Hands `value` back, since there is more than a vector can hold.
    pub(crate) fn for_capacity(value: V) -> Self
        ensures error { result.error ≡ Capacity }
        ensures value { result.value ≡ value }
    {
        Rejected {
            error: EcoError::Capacity,
            value,
        }
    }

    /// Hands `value` back, since there was no memory.
    pub(crate) fn for_memory(value: V) -> Self
        ensures error { result.error ≡ Memory }
        ensures value { result.value ≡ value }
    {
        Rejected {
            error: EcoError::Memory,
            value,
        }
    }
}

/// Why a vector was not turned into an array. The vector comes back unchanged.
#[derive(Debug, Drop, Error)]
pub enum IntoArray<T> {
    /// The vector has another length than the array.
    #[error("the vector has another length than the array")]
    Length(EcoVec<T>),
    /// There was no memory, or the clone of an element was refused.
    #[error("{0}")]
    Refused(EcoError, EcoVec<T>),
}
