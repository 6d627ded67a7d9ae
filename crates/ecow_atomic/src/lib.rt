//! Shared ownership of a block by several threads: an owner takes one word, and its clones share
//! the block. The count of owners is atomic. Where threads share values, this crate takes the place
//! of the plain count, under that crate's name.
#![tactic(auto)]

mod shared;
mod threads;

pub use shared::Shared;
pub use threads::{may_be_sent, may_be_shared};
