//! What several crates share: ranges of indices, capacities, what is asked of an element's clone,
//! and plain values. Plain values are lists, bytes and texts whose contents are all that a contract
//! sees. With them stand the inline rule, the byte indices of a text, and replacement.
#![tactic(auto)]

pub mod capacity;
pub mod items;
pub mod laws;
pub mod plain;
pub mod range;

pub use capacity::{MAX_LEN, fresh_capacity, room_for};
pub use items::{Items, Text};
pub use plain::{PlainBytes, PlainText};
pub use range::{range_in, resolve};
