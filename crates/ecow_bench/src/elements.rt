//! The elements of the lists in the loops.

use ecow_list::EcoVec;
use std::alloc::{AllocError, Global};
use std::hash::Hash;

/// An element that is made from a number, and gives a number for the sum.
pub(crate) trait Element: Clone + Drop + Ord + Hash {
    fn from_number(alloc: Global, number: u64) -> Result<Self, AllocError>;

    fn seen(&self) -> u64;
}

impl Element for u8 {
    fn from_number(_alloc: Global, number: u64) -> Result<Self, AllocError> {
        Ok((number % 256) as u8)
    }

    fn seen(&self) -> u64 {
        *self as u64
    }
}

impl Element for u64 {
    fn from_number(_alloc: Global, number: u64) -> Result<Self, AllocError> {
        Ok(number)
    }

    fn seen(&self) -> u64 {
        *self
    }
}

impl Element for [u64; 3] {
    fn from_number(_alloc: Global, number: u64) -> Result<Self, AllocError> {
        Ok([number; 3])
    }

    fn seen(&self) -> u64 {
        self[0]
    }
}

impl Element for [u64; 8] {
    fn from_number(_alloc: Global, number: u64) -> Result<Self, AllocError> {
        Ok([number; 8])
    }

    fn seen(&self) -> u64 {
        self[0]
    }
}

impl Element for EcoVec<u64> {
    fn from_number(alloc: Global, number: u64) -> Result<Self, AllocError> {
        EcoVec::from_slice(alloc, &[number]).map_err(|_| AllocError)
    }

    fn seen(&self) -> u64 {
        self.as_slice().first().copied().unwrap_or(0)
    }
}

impl Element for String {
    fn from_number(alloc: Global, number: u64) -> Result<Self, AllocError> {
        let mut text = String::with_capacity(alloc, 20)?;
        for place in 0..20u64 {
            text.push(char::from(b'a' + (number / (place + 1) % 26) as u8))?;
        }
        Ok(text)
    }

    fn seen(&self) -> u64 {
        match self.as_bytes().first() {
            Some(byte) => *byte as u64,
            None => 0,
        }
    }
}
