//! Nested values: nothing, a truth value, a number, a text, a list of values, or fields by name. A
//! clone shares all lists and texts of its source. A change copies only the shared lists on the
//! path to what it changes.
#![tactic(auto)]

mod fields;
pub mod laws;
mod nested;
mod refusal;
mod threads;
mod value;

pub use fields::{Entry, Field, Fields};
pub use nested::{MAX_DEPTH, Nested};
pub use refusal::Refusal;
pub use value::{Kind, Step, Value};
