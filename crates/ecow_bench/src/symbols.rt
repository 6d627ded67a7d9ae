//! A symbol table: each word is read and kept once, and bound in scopes that are forked.

use crate::random::Random;
use ecow_list::{EcoError, EcoVec};
use ecow_string::EcoString;
use std::alloc::{AllocError, Global};

/// The names that were read, each once, and a table that finds their numbers. An entry of the table
/// is the number plus one, or 0 for a gap.
#[derive(Drop)]
struct Interner {
    alloc: Global,
    names: EcoVec<EcoString>,
    table: Vec<u32>,
}

/// A name's number, and where it was bound.
type Scope = EcoVec<(u32, u32)>;

/// The number in 32 bits, which all numbers of this program fit.
fn narrow(number: usize) -> u32 {
    u32::try_from(number).unwrap_or(u32::MAX)
}

/// FNV-1a, folded once.
fn hash(word: &[u8]) -> u64 {
    let mut hash = 0xcbf29ce484222325u64;
    for byte in word {
        hash = (hash ^ u64::from(*byte)).wrapping_mul(0x100000001b3);
    }
    hash ^ (hash >> 29)
}

impl Interner {
    fn new(alloc: Global) -> Result<Self, AllocError> {
        Ok(Interner {
            alloc,
            names: EcoVec::new(alloc),
            table: Vec::from_elem(alloc, 0u32, 64)?,
        })
    }

    /// The name whose entry in the table is this one.
    fn name(&self, number: u32) -> Option<&EcoString> {
        self.names.as_slice().get((number as usize).wrapping_sub(1))
    }

    /// Whether a place of the table has this word or is a gap.
    fn fits(&self, place: usize, word: &str) -> bool {
        match self.table.get(place) {
            Some(0) => true,
            Some(number) => match self.name(*number) {
                Some(name) => name.as_str() == word,
                None => true,
            },
            None => true,
        }
    }

    /// The place of a word in the table, or of the gap where it belongs.
    fn place(&self, word: &str) -> usize {
        let places = self.table.len().max(1);
        let mut place = hash(word.as_bytes()) as usize % places;
        for _ in 0..places {
            if self.fits(place, word) {
                return place;
            }
            place = place.wrapping_add(1) % places;
        }
        place
    }

    /// Writes a number into a place.
    fn set(&mut self, place: usize, number: u32) {
        if let Some(slot) = self.table.get_mut(place) {
            *slot = number;
        }
    }

    /// Doubles the places of the table.
    fn grow(&mut self) -> Result<(), AllocError> {
        self.table = Vec::from_elem(self.alloc, 0u32, self.table.len().saturating_mul(2))?;
        for number in 0..self.names.len() {
            if let Some(name) = self.names.as_slice().get(number) {
                let place = self.place(name.as_str());
                self.set(place, narrow(number).wrapping_add(1));
            }
        }
        Ok(())
    }

    /// The number of a word; a new one if the word wasn't read before.
    fn intern(&mut self, word: &str) -> Result<u32, EcoError> {
        let place = self.place(word);
        let found = match self.table.get(place) {
            Some(found) => *found,
            None => 0,
        };
        if found != 0 {
            return Ok(found - 1);
        }
        let number = narrow(self.names.len());
        self.names.push(EcoString::from_str(self.alloc, word)?)?;
        self.set(place, number.wrapping_add(1));
        if self.names.len().saturating_mul(2) > self.table.len() {
            self.grow()?;
        }
        Ok(number)
    }
}

/// Writes the word with this number: mostly of three to twelve letters, sometimes of eight more.
fn spell(word: &mut String, number: u64) -> Result<(), AllocError> {
    word.clear();
    let mut letters = number.wrapping_add(1).wrapping_mul(0x9E3779B97F4A7C15);
    let mut length = 3 + letters % 10;
    if (letters >> 32) & 7 == 0 {
        length += 8;
    }
    for _ in 0..length {
        letters ^= letters << 13;
        letters ^= letters >> 7;
        letters ^= letters << 17;
        word.push(char::from(b'a' + (letters % 26) as u8))?;
    }
    Ok(())
}

/// Where a name was bound last, among the last 16 bindings.
fn bound(scope: &Scope, symbol: u32) -> u64 {
    for bound in scope.as_slice().iter().rev().take(16) {
        if bound.0 == symbol {
            return u64::from(bound.1);
        }
    }
    1
}

/// Reads this many words, finds or keeps each, and binds some of them in scopes that are forked and
/// left.
pub(crate) fn symbols(alloc: Global, bits: usize, words: u64) -> Result<u64, EcoError> {
    let mut random = Random::new();
    let mut word = String::new(alloc);
    let mut interner = Interner::new(alloc)?;
    let mut tokens: EcoVec<EcoString> = EcoVec::new(alloc);
    let mut scope: Scope = EcoVec::new(alloc);
    let mut outer: Vec<Scope> = Vec::new(alloc);
    let mut sum = 0u64;
    for at in 0..words {
        // One of 2, 4, 8, .. words in turn, so that few words are frequent. The remainder by 63 is
        // only for the proof.
        let range = 1usize << (random.below(bits) % 63 + 1);
        spell(&mut word, random.below(range) as u64)?;
        let symbol = interner.intern(word.as_str())?;
        if let Some(name) = interner.names.as_slice().get(symbol as usize) {
            tokens.push(name.clone()?)?;
        }
        match random.below(32) {
            0 => outer.push(scope.clone()?)?,
            1 => {
                scope = match outer.pop() {
                    Some(left) => left,
                    None => EcoVec::new(alloc),
                }
            }
            2..=9 => scope.push((symbol, narrow(at as usize)))?,
            _ => sum = sum.wrapping_add(bound(&scope, symbol)),
        }
    }
    for token in tokens.as_slice() {
        sum = sum.wrapping_add(token.len() as u64);
    }
    Ok(sum)
}
