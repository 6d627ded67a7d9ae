//! Pseudo-random numbers, and the calls and states that they decide.
use crate::calls::{Call, Row};
use crate::states::State;

/// A generator of pseudo-random numbers, which a seed decides.
#[derive(Drop)]
pub struct Numbers(u64);

impl Numbers {
    pub fn new(seed: u64) -> Self {
        Numbers(seed)
    }

    /// A number below `limit`; 0 if `limit` is 0.
    pub fn below(&mut self, limit: u64) -> u64 {
        self.0 = self
            .0
            .wrapping_mul(6364136223846793005)
            .wrapping_add(1442695040888963407);
        (self.0 >> 33).checked_rem(limit).unwrap_or(0)
    }
}

/// A random number, from one of several ranges.
fn size(numbers: &mut Numbers) -> usize {
    let most = match numbers.below(8) {
        0 => 1,
        1 | 2 => 9,
        3 | 4 => 40,
        5 | 6 => 1200,
        _ => 5000,
    };
    usize::try_from(numbers.below(most)).unwrap_or(0)
}

/// A random number of at most `most`.
fn up_to(numbers: &mut Numbers, most: usize) -> usize {
    usize::try_from(numbers.below((most as u64).saturating_add(1))).unwrap_or(0)
}

fn state(numbers: &mut Numbers, limit: Option<usize>) -> State {
    let len = size(numbers);
    let fits = limit.is_some_and(|limit| len <= limit);
    let is_inline = fits && numbers.below(2) == 0;
    let capacity = match numbers.below(3) {
        0 => len,
        1 => len.saturating_add(1),
        _ => len.saturating_add(size(numbers)),
    };
    State {
        name: "by a seed",
        len,
        capacity: if is_inline { None } else { Some(capacity) },
        shared: !is_inline && capacity > 0 && numbers.below(2) == 0,
        is_varied: false,
    }
}

/// The call with a random range, if it is about one.
fn with_range(numbers: &mut Numbers, row: &Row, len: usize) -> Row {
    let start = up_to(numbers, len);
    let mut row = *row;
    if row.end > row.start {
        row.start = start;
        row.end = match row.call {
            Call::Set | Call::Update | Call::Remove => start.saturating_add(1),
            Call::Swap => start.saturating_add(up_to(numbers, len)).saturating_add(1),
            _ => start.saturating_add(up_to(numbers, len.saturating_sub(start))),
        };
        row.needs = row.end;
    }
    row
}

/// The call with a random number of items, if any number does.
fn with_count(numbers: &mut Numbers, row: Row) -> Row {
    if row.count < 2 || row.count > 1000 {
        return row;
    }
    let count = match row.call {
        Call::Push | Call::PushReserved | Call::Insert | Call::FromArray => row.count,
        Call::Inline | Call::TryInline => up_to(numbers, row.count),
        Call::Repeat => up_to(numbers, 9),
        _ => size(numbers),
    };
    Row { count, ..row }
}

/// A call with random arguments, and a random state.
pub fn drawn(numbers: &mut Numbers, row: &Row, limit: Option<usize>) -> (Row, State) {
    let state = state(numbers, limit);
    let row = with_range(numbers, row, state.len);
    (with_count(numbers, row), state)
}
