//! Bytes that are stored in the value itself up to a limit, and past it in a vector that clones
//! share.
#![tactic(auto)]

pub mod bytes;
// rust: pub(crate)
mod cells;
mod compare;
// rust: pub(crate)
mod few;
// rust: pub(crate)
mod form;
pub mod laws;
mod threads;
pub mod traits;
mod words;
pub mod write;

pub use bytes::{EcoBytes, INLINE_LIMIT, SmallBytes};
pub use words::are_few_ascii;
