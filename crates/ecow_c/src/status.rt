//! The statuses that calls return.
ghost use Rattle.std.specs.Prelude.{◌≡◌, ℕ, IfErr, IfOk, MatchResult};
ghost use Rattle.ecow_list.specs.declared.error.EcoError.TheVariants.{Memory};
ghost use Rattle.ecow_c.specs.Answers.{sign_of};
ghost use Rattle.ecow_c.specs.Statuses.{status_of_error, status_of_refusal};

use ecow_list::{EcoError, Rejected};
use ecow_nested::Refusal;
use std::alloc::AllocError;
use std::cmp::Ordering;

/// The call succeeded.
pub const OK: u32 = 0;
/// Memory was refused.
pub const MEMORY: u32 = 1;
/// The length would pass 2^63 - 1.
pub const CAPACITY: u32 = 2;
/// An index or a range is past the end, or there is nothing to remove.
pub const INDEX: u32 = 3;
/// An index is inside a character.
pub const BOUNDARY: u32 = 4;
/// The bytes aren't UTF-8, or the number is no character.
pub const UTF8: u32 = 5;
/// The pointer to a value is null.
pub const NULL: u32 = 6;

/// The value is of another kind.
pub const KIND: u32 = 7;

/// The value would be too deep.
pub const DEPTH: u32 = 9;

/// The value of an `Option`. If there is none, the function returns `$answer`.
macro_rules! some_or {
    ($option:expr, $answer:expr) => {
        match $option {
            Some(value) => value,
            None => return $answer,
        }
    };
}

/// The value of a `Result`. For an error, the function returns its status.
macro_rules! ok_or_status {
    ($result:expr) => {
        match $result {
            Ok(value) => value,
            Err(error) => return error.into_status(),
        }
    };
}

pub(crate) use ok_or_status;
pub(crate) use some_or;

/// An error of a call of the values.
pub(crate) trait IntoStatus: Drop {
    /// The status of each error.
    ghost status: { Self → ℕ };

    fn into_status(self) -> u32
        ensures { result ≡ status self };
}

impl IntoStatus for EcoError {
    ghost status = { status_of_error };

    fn into_status(self) -> u32 {
        Refusal::from(self).into_status()
    }
}

impl<V: Drop> IntoStatus for Rejected<V> {
    ghost status = { λ rejected. status_of_error rejected.error };

    fn into_status(self) -> u32 {
        self.error.into_status()
    }
}

impl IntoStatus for AllocError {
    ghost status = { λ _. status_of_error Memory };

    fn into_status(self) -> u32 {
        MEMORY
    }
}

impl IntoStatus for Refusal {
    ghost status = { status_of_refusal };

    fn into_status(self) -> u32 {
        match self {
            Refusal::Kind => KIND,
            Refusal::Index => INDEX,
            Refusal::Depth => DEPTH,
            Refusal::Capacity => CAPACITY,
            Refusal::Memory => MEMORY,
        }
    }
}

/// The status of a call that returns no value.
pub(crate) fn status<E: IntoStatus>(outcome: Result<(), E>) -> u32
    ensures { MatchResult outcome (λ _. result ≡ OK) (λ error. result ≡ E.status error) }
{
    match outcome {
        Ok(()) => OK,
        Err(error) => error.into_status(),
    }
}

/// Replaces the value at `out` by the one that a call returned.
pub(crate) fn put<V: Drop, E: IntoStatus>(outcome: Result<V, E>, out: &mut V) -> u32
    ensures ok { IfOk outcome (λ value. (out.new ≡ value) × (result ≡ OK)) }
    ensures err { IfErr outcome (λ error. (out.new ≡ out.old) × (result ≡ E.status error)) }
{
    match outcome {
        Ok(value) => {
            *out = value;
            OK
        }
        Err(error) => error.into_status(),
    }
}

/// An order as C has it: below 0, 0, or above 0.
pub(crate) fn order(order: Ordering) -> i32
    ensures { result ≡ sign_of order }
{
    match order {
        Ordering::Less => -1,
        Ordering::Equal => 0,
        Ordering::Greater => 1,
    }
}
