//! Shared ownership of a block: an owner takes one word, and its clones share the block. The count
//! of owners is for one thread.
#![tactic(auto)]

mod shared;
mod threads;

pub use shared::Shared;
pub use threads::{may_be_sent, may_be_shared};
