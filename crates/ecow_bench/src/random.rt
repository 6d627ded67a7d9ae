//! What the whole programs are made from: pseudo-random numbers and parts of a text, the same in
//! each run.

use std::alloc::{AllocError, Global};

/// The number of letters.
pub(crate) const PROSE: usize = 4096;

/// A generator of numbers, each from the one before.
#[derive(Drop)]
pub(crate) struct Random {
    state: u64,
}

impl Random {
    pub(crate) fn new() -> Self {
        Random {
            state: 88172645463325252,
        }
    }

    pub(crate) fn next(&mut self) -> u64 {
        let mut state = self.state;
        state ^= state << 13;
        state ^= state >> 7;
        state ^= state << 17;
        self.state = state;
        state
    }

    /// A number below `limit`, which is 1 at least.
    pub(crate) fn below(&mut self, limit: usize) -> usize {
        (self.next() >> 11) as usize % limit.max(1)
    }
}

/// Lower case letters.
pub(crate) fn prose(alloc: Global, random: &mut Random) -> Result<String, AllocError> {
    let mut prose = String::with_capacity(alloc, PROSE)?;
    for _ in 0..PROSE {
        // The second remainder is only for the proof.
        prose.push(char::from(b'a' + (random.below(26) % 26) as u8))?;
    }
    Ok(prose)
}

/// A random part of the letters, of at most `longest` letters.
pub(crate) fn part<'a>(random: &mut Random, prose: &'a str, longest: usize) -> &'a str {
    let length = random.below(longest.saturating_add(1));
    let start = random.below(PROSE.saturating_sub(longest));
    prose.get(start..start.saturating_add(length)).unwrap_or("")
}
