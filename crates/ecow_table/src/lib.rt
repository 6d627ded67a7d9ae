//! A finite map from names to values, by which both stores find the value of a name.
#![tactic(auto)]

mod table;

pub use table::Table;

/// A name: any number of 32 bits.
pub type Name = u32;
