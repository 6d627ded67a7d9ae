//! `Counted`: commands on named lists in a table of blocks. It counts exactly what is shared,
//! copied and moved, and there are laws about these counts.
#![tactic(auto)]

mod apply;
mod blocks;
mod commands;
mod costs;
pub mod counted;
pub mod fill;
pub mod laws;
mod own;

pub use counted::Counted;
pub use fill::Filled;
