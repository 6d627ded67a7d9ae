//! Containers whose clones share what they hold until one of them is written to: `EcoVec`, a
//! vector, and `EcoBytes` and `EcoString`, bytes and text that stand in the value itself where they
//! are short.
//!
//! The paths are those of the original crate.
#![tactic(auto)]

pub use ecow_bytes::{EcoBytes, INLINE_LIMIT, SmallBytes};
pub use ecow_list::{EcoError, EcoVec, IntoArray, Rejected, eco_vec, range_in, resolve};
pub use ecow_string::{EcoString, SmallText, ToEcoString, eco_format};

/// The vector and its iterators.
pub mod vec {
    pub use ecow_list::{Drain, EcoVec, IntoIter, Splice};
}

/// The bytes, for 15 inline bytes and for any number of them.
pub mod bytes {
    pub use ecow_bytes::{EcoBytes, SmallBytes};
}

/// The text, for 15 inline bytes and for any number of them, and what prints to it.
pub mod string {
    pub use ecow_string::{EcoString, SmallText, ToEcoString};
}
