//! `Store` carries out commands on named values. The values are handles: clones share their blocks.
#![tactic(auto)]

mod answers;
mod bytes;
mod kinds;
pub mod store;
mod texts;
mod vecs;

pub use store::{SmallStore, Store};
