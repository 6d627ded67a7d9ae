//! Loops that repeat one call of `EcoBytes`, in the form of the vector's loops. The value is made
//! from `bytes`. `pairs` has more loops.

use crate::pairs::Seen;
use crate::rounds::sum_of;
use ecow_bytes::EcoBytes;
use std::alloc::Global;

#[inline(never)]
pub(crate) fn bytes_of(alloc: Global, bytes: &[u8]) -> EcoBytes {
    match EcoBytes::from_slice(alloc, bytes) {
        Ok(value) => value,
        Err(_) => EcoBytes::new(alloc),
    }
}

/// Makes a value from a slice and drops it. Two equal slices take turns.
pub(crate) fn from_slice(alloc: Global, bytes: &[u8], count: u64) -> u64 {
    let odd = bytes_of(alloc, bytes);
    sum_of(count, |round| {
        let bytes = if round % 2 == 0 {
            bytes
        } else {
            odd.as_slice()
        };
        bytes_of(alloc, bytes).seen()
    })
}

#[inline(never)]
fn pushed(alloc: Global, bytes: &[u8]) -> EcoBytes {
    let mut value = EcoBytes::new(alloc);
    for byte in bytes {
        let _done = value.push(*byte);
    }
    value
}

/// Fills an empty value by pushes.
pub(crate) fn push(alloc: Global, bytes: &[u8], count: u64) -> u64 {
    sum_of(count, |_| pushed(alloc, bytes).len() as u64)
}

#[inline(never)]
fn extended(alloc: Global, bytes: &[u8]) -> EcoBytes {
    let mut value = EcoBytes::new(alloc);
    for _ in 0..10 {
        let _done = value.extend_from_slice(bytes);
    }
    value
}

/// Appends the slice ten times to an empty value.
pub(crate) fn extend(alloc: Global, bytes: &[u8], count: u64) -> u64 {
    sum_of(count, |_| extended(alloc, bytes).len() as u64)
}

/// Makes a value of a thousand copies of the slice.
pub(crate) fn repeat(alloc: Global, bytes: &[u8], count: u64) -> u64 {
    let value = bytes_of(alloc, bytes);
    sum_of(
        count,
        |_| value.repeat(1000).map_or(0, |copies| copies.len() as u64),
    )
}

#[inline(never)]
fn inserted(value: &mut EcoBytes, bytes: &[u8]) {
    let middle = value.len() / 2;
    let _done = value.insert_slice(middle, bytes);
}

/// Inserts the slice into the middle of a value that is made from it, and truncates it to the old
/// length.
pub(crate) fn insert_slice(alloc: Global, bytes: &[u8], count: u64) -> u64 {
    let mut value = bytes_of(alloc, bytes);
    let mut sum = 0u64;
    for _ in 0..count {
        inserted(&mut value, bytes);
        sum = sum.wrapping_add(value.len() as u64);
        let _done = value.truncate(bytes.len());
    }
    sum
}
