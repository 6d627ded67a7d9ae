//! Tests of what no contract says, and what neither scripts nor the programs over `ecow_test_calls` see:
//! when a splice clones, how values are formatted, other kinds of elements, readers and writers
//! that are slow or fail, and names that are close together.
#![tactic(auto)]

mod sizes;
#[cfg(test)]
mod tests;
