//! A list of elements in one block of memory, with its capacity, and an iterator that gives such a
//! list's elements away from both ends.
#![tactic(auto)]

pub mod block;
mod moves;
mod parts;
pub mod rest;
pub mod room;
mod threads;

pub use block::Block;
pub use rest::Rest;
