//! Examples of the definitions that no script can show. The prover computes each clause, and nothing
//! calls these functions.
#![tactic(auto)]

pub mod blocks;
pub mod bytes;
pub mod ranges;
pub mod replaced;
