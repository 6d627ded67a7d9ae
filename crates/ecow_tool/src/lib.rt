//! The program: runs a script on either store, over any reader and writer.
#![tactic(auto)]

pub mod examples;
pub mod program;

pub use ecow_counted::{Counted, Filled};
pub use ecow_list::{EcoError, Rejected};
pub use ecow_model::{
    Bounds, BytesCommand, Command, Items, Name, Outcome, Refusal, Text, TextCommand, VecCommand,
};
pub use ecow_script::{Fault, Reason, answers_to, counted_answers_to};
pub use ecow_store::{SmallStore, Store};
pub use program::{End, Exit, read_arguments, run_counted, run_store};
