//! Why a call on a nested value was refused.
ghost use Rattle.std.specs.Prelude.{◌≡◌};
ghost use Rattle.ecow_list.specs.declared.error.EcoError.TheVariants as list;
ghost use Rattle.ecow_nested.specs.declared.refusal.Refusal.TheVariants.{Capacity, Memory};

use ecow_list::{EcoError, Rejected};
use std::alloc::AllocError;
use thiserror::Error;

/// Why a call was refused. The value is as it was before.
#[derive(Clone, Copy, Debug, PartialEq, Eq, Error)]
pub enum Refusal {
    /// The value is of another kind.
    #[error("value of another kind")]
    Kind,
    /// The index is past the end, the list is empty, or no field has the name.
    #[error("index past the end")]
    Index,
    /// The value would be deeper than `MAX_DEPTH`.
    #[error("nested too deep")]
    Depth,
    /// The length would pass 2^63 - 1.
    #[error("capacity overflow")]
    Capacity,
    /// The allocator refused the memory.
    #[error("out of memory")]
    Memory,
}

impl From<EcoError> for Refusal {
    ghost from_gives = { λ error refusal. (error ≡ list.Capacity → refusal ≡ Capacity)
        × (error ≡ list.Memory → refusal ≡ Memory) };

    fn from(error: EcoError) -> Self {
        match error {
            EcoError::Capacity => Refusal::Capacity,
            EcoError::Memory => Refusal::Memory,
        }
    }
}

/// Only the reason. The value that came back is dropped.
impl<V: Drop> From<Rejected<V>> for Refusal {
    ghost from_gives = { λ rejected refusal. (rejected.error ≡ list.Capacity → refusal ≡ Capacity)
        × (rejected.error ≡ list.Memory → refusal ≡ Memory) };

    fn from(rejected: Rejected<V>) -> Self {
        rejected.error.into()
    }
}

impl From<AllocError> for Refusal {
    ghost from_gives = { λ _ refusal. refusal ≡ Memory };

    fn from(_refused: AllocError) -> Self {
        Refusal::Memory
    }
}
