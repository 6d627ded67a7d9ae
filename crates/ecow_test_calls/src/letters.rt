//! The letters of bytes and texts: those that a value holds, and those that a call gets.
use crate::calls::{Call, Row};
use crate::states::State;
use std::alloc::{AllocError, Global};

/// A character of two bytes, and one of four.
const TWO: &str = "é";

const FOUR: &str = "😀";

fn byte_at(text: &str, place: usize) -> u8 {
    text.as_bytes().get(place).copied().unwrap_or(0)
}

/// The byte at a place of a cycle of `count` consecutive bytes, of which `first` is the first.
pub(crate) fn in_turn(first: u8, count: usize, place: usize) -> u8 {
    let shift = place.checked_rem(count).unwrap_or(0);
    first.wrapping_add(u8::try_from(shift).unwrap_or(0))
}

/// The byte at a place of a value. A value whose letters don't differ is an `A` and then only
/// `b`. In a text of more than five bytes whose letters differ, the fourth letter is `é`.
pub(crate) fn letter(is_text: bool, state: &State, place: usize) -> u8 {
    if !state.is_varied {
        return if place == 0 { b'A' } else { b'b' };
    }
    if is_text && state.len > 5 && (place == 3 || place == 4) {
        return byte_at(TWO, place - 3);
    }
    in_turn(b'a', 26, place)
}

pub(crate) fn letters(alloc: Global, is_text: bool, state: &State) -> Result<Vec<u8>, AllocError> {
    let mut bytes = Vec::with_capacity(alloc, state.len)?;
    for place in 0..state.len {
        bytes.push(letter(is_text, state, place))?;
    }
    Ok(bytes)
}

/// A byte that a call gets. For texts, two or four bytes may be one character, but not if an iterator
/// over characters or pieces gives them.
pub(crate) fn given(is_text: bool, row: &Row, place: usize) -> u8 {
    match row.count {
        _ if !is_text => in_turn(b'.', 12, place),
        2 if matches!(row.call, Call::Push | Call::PushReserved | Call::Insert) => {
            byte_at(TWO, place)
        }
        4 if row.items().is_none() || row.call == Call::FromEcoStrings => byte_at(FOUR, place),
        _ => b'.',
    }
}

/// The bytes that a call gets.
pub(crate) fn gift(alloc: Global, is_text: bool, row: &Row) -> Result<Vec<u8>, AllocError> {
    let len = match row.call {
        Call::Truncate | Call::Reserve | Call::Rewrite | Call::Repeat | Call::WithCapacity => 0,
        _ => row.count,
    };
    let mut bytes = Vec::with_capacity(alloc, len)?;
    for place in 0..len {
        bytes.push(given(is_text, row, place))?;
    }
    Ok(bytes)
}
