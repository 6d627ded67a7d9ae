//! Text that is stored in the value itself up to a limit, and past it in a vector that clones
//! share.
#![tactic(auto)]

mod case;
pub mod display;
pub mod laws;
mod macros;
pub mod string;
mod threads;
pub mod traits;

pub use display::ToEcoString;
pub use string::{EcoString, SmallText};
