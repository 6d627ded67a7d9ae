//! Scripts and answers: reads the text of commands, carries the commands out, and writes the text
//! of their outcomes.
#![tactic(auto)]

mod answer;
mod commands;
mod counted;
pub mod example;
pub mod laws;
mod lists;
mod names;
mod numbers;
mod quoted;
mod reason;
mod run;
mod script;
mod store;
mod words;

pub use counted::counted_answers_to;
pub use reason::Reason;
pub use script::Fault;
pub use store::answers_to;
