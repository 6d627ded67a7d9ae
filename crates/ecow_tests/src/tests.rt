//! The tests, by subject.

mod callers;
mod calls;
mod comparisons;
mod names;
mod paths;
mod persistent;
mod printing;
mod program;
mod sharing;
mod splices;
mod streams;
mod trees;
mod units;
mod watching;
