//! A list in a tree of shared blocks. A clone takes no memory, and a change of a shared list copies
//! the blocks on its way from the root alone.
#![tactic(auto)]

mod comparisons;
mod copies;
mod items;
mod iter;
mod node;
mod tree;
mod whole;

pub use iter::{Chunks, Iter};
pub use node::Node;
pub use tree::EcoTree;
