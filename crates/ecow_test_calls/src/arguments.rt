//! The arguments of a program.
use std::env::{self, Env};

/// Whether the program got this argument.
pub fn is_given(rt: &(impl Env + AllocGlobal), argument: &str) -> bool {
    let Ok(words) = env::args(rt) else {
        return false;
    };
    words.into_iter().any(|word| word.as_str() == argument)
}
