//! A vector whose clones share their elements until one of them is written to.
#![tactic(auto)]

pub mod comparisons;
pub mod error;
pub mod iter;
pub mod laws;
mod macros;
mod threads;
pub mod traits;
pub mod vec;
pub mod write;

/// Ranges of indices, resolved in a list of a given length.
pub mod range {
    pub use ecow_base::{range_in, resolve};
}

/// A list with a capacity, in one block of memory. `EcoVec::own_mut` borrows the block of a vector.
pub mod block {
    pub use ecow_block::Block;
}

pub use error::{EcoError, IntoArray, Rejected};
pub use iter::{Drain, IntoIter, Splice};
pub use range::{range_in, resolve};
pub use vec::EcoVec;
