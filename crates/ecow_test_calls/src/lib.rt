//! Support for tests: the calls of vectors, bytes and texts as data. It has tables of calls, the
//! states of a value, a model of what each call does, and the functions that make each call and
//! compare. The programs that use it measure what calls cost, and refuse requests for memory and
//! clones of elements.
#![tactic(auto)]

pub mod arguments;
pub mod bytes;
pub mod calls;
pub mod counting;
pub mod elements;
mod letters;
pub mod model;
pub mod numbers;
pub mod prints;
pub mod sequence;
pub mod states;
pub mod tables;
pub mod texts;
pub mod trials;
pub mod vectors;
pub mod watch;
pub mod watched;
