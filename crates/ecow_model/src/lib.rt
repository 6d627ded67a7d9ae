//! The commands on named lists, bytes and texts, the definitions of what they do, and the laws of
//! these.
#![tactic(auto)]

pub mod bytes;
pub mod callers;
pub mod command;
pub mod laws;
pub mod texts;
pub mod usage;
pub mod value;
pub mod vecs;

pub use bytes::BytesCommand;
pub use command::{Bounds, Command, Name, Outcome, Refusal};
pub use ecow_base::{Items, PlainBytes, PlainText, Text};
pub use texts::TextCommand;
pub use vecs::VecCommand;
