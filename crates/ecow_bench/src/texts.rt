//! Loops that repeat one call of `EcoString`, in the form of the vector's loops. The value is made
//! from `text`. `pairs` has more loops.

use crate::pairs::Seen;
use crate::rounds::sum_of;
use ecow_list::EcoError;
use ecow_string::{EcoString, ToEcoString, eco_format};
use std::alloc::Global;

#[inline(never)]
pub(crate) fn text_of(alloc: Global, text: &str) -> EcoString {
    match EcoString::from_str(alloc, text) {
        Ok(value) => value,
        Err(_) => EcoString::new(alloc),
    }
}

/// The length of what a call returned.
fn len_of(value: Result<EcoString, EcoError>) -> u64 {
    value.map_or(0, |value| value.len() as u64)
}

/// Makes a value from a text and drops it. Two equal texts take turns.
pub(crate) fn from_str(alloc: Global, text: &str, count: u64) -> u64 {
    let odd = text_of(alloc, text);
    sum_of(count, |round| {
        let text = if round % 2 == 0 { text } else { odd.as_str() };
        text_of(alloc, text).seen()
    })
}

#[inline(never)]
fn pushed(alloc: Global, c: char, times: usize) -> EcoString {
    let mut value = EcoString::new(alloc);
    for _ in 0..times {
        let _done = value.push(c);
    }
    value
}

/// Fills an empty value by pushes of one character.
pub(crate) fn push(alloc: Global, c: char, text: &str, count: u64) -> u64 {
    sum_of(count, |_| pushed(alloc, c, text.len()).len() as u64)
}

#[inline(never)]
fn extended(alloc: Global, text: &str) -> EcoString {
    let mut value = EcoString::new(alloc);
    for _ in 0..10 {
        let _done = value.push_str(text);
    }
    value
}

/// Appends the text ten times to an empty value.
pub(crate) fn push_str(alloc: Global, text: &str, count: u64) -> u64 {
    sum_of(count, |_| extended(alloc, text).len() as u64)
}

#[inline(never)]
fn popped(value: &mut EcoString) -> Option<char> {
    value.pop().unwrap_or(None)
}

/// Pops the last character and pushes it again.
pub(crate) fn pop(alloc: Global, text: &str, count: u64) -> u64 {
    let mut value = text_of(alloc, text);
    let mut sum = 0u64;
    for _ in 0..count {
        if let Some(c) = popped(&mut value) {
            sum = sum.wrapping_add(u32::from(c) as u64);
            let _done = value.push(c);
        }
    }
    sum
}

#[inline(never)]
fn inserted(value: &mut EcoString) {
    let middle = value.len() / 2;
    if value.is_char_boundary(middle) {
        let _done = value.insert_str(middle, "..");
    }
}

/// Inserts two characters into the middle, and truncates the value to the old length.
pub(crate) fn insert_str(alloc: Global, text: &str, count: u64) -> u64 {
    let mut value = text_of(alloc, text);
    let mut sum = 0u64;
    for _ in 0..count {
        inserted(&mut value);
        sum = sum.wrapping_add(value.len() as u64);
        if value.is_char_boundary(text.len()) {
            let _done = value.truncate(text.len());
        }
    }
    sum
}

/// Replaces each `pattern` by three characters.
pub(crate) fn replace(alloc: Global, pattern: &str, text: &str, count: u64) -> u64 {
    let value = text_of(alloc, text);
    sum_of(count, |_| len_of(value.replace(pattern, "...")))
}

/// Makes a value in upper case.
pub(crate) fn to_uppercase(alloc: Global, text: &str, count: u64) -> u64 {
    let value = text_of(alloc, text);
    sum_of(count, |_| len_of(value.to_uppercase()))
}

/// Makes a value of a thousand copies of the text.
pub(crate) fn repeat(alloc: Global, text: &str, count: u64) -> u64 {
    let value = text_of(alloc, text);
    sum_of(count, |_| len_of(value.repeat(1000)))
}

#[inline(never)]
fn formatted(alloc: Global, text: &str, number: u64) -> usize {
    match eco_format!(in alloc; "{text} {text} {number}") {
        Ok(value) => value.len(),
        Err(_) => 0,
    }
}

/// Formats the text twice, and a number.
pub(crate) fn format(alloc: Global, text: &str, count: u64) -> u64 {
    sum_of(count, |round| formatted(alloc, text, round % 1000) as u64)
}

#[inline(never)]
fn printed(alloc: Global, number: u64) -> usize {
    match number.to_eco_string(alloc) {
        Ok(value) => value.len(),
        Err(_) => 0,
    }
}

/// Formats a number.
pub(crate) fn to_eco_string(alloc: Global, count: u64) -> u64 {
    sum_of(count, |round| printed(alloc, round % 1000000) as u64)
}
