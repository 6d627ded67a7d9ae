//! Elements that count how often they are cloned and dropped.
use ecow_list::{EcoError, EcoVec};
use std::alloc::{AllocError, Global};
use std::cell::Cell;
use std::rc::Rc;

/// How many elements were made (clones included), cloned (refused clones included) and dropped. The
/// clone with the number `refused`, counted from 1, is refused.
#[derive(Drop)]
struct Counts {
    made: Cell<u64>,
    clones: Cell<u64>,
    drops: Cell<u64>,
    refused: u64,
}

/// What elements are made from, besides memory. It may count them.
pub trait Source: Drop {
    /// How many clones and how many drops there were so far, if they are counted.
    fn counts(&self) -> Option<(u64, u64)> {
        None
    }

    /// Whether exactly this many elements exist; true if they aren't counted.
    fn has_live(&self, _count: u64) -> bool {
        true
    }

    /// Whether exactly `count` elements were cloned since; true if they aren't counted.
    fn has_cloned(&self, before: Option<(u64, u64)>, count: u64) -> bool {
        match (before, self.counts()) {
            (Some((before, _)), Some((after, _))) => after.wrapping_sub(before) == count,
            _ => true,
        }
    }
}

impl Source for () {}

/// Counts what is done to the elements that are made from it.
#[derive(Drop)]
pub struct Tally {
    counts: Rc<Counts>,
}

impl Tally {
    pub fn new(alloc: Global) -> Result<Self, AllocError> {
        Tally::refusing(alloc, 0)
    }

    /// A tally whose elements refuse the clone with this number, counted from 1.
    pub fn refusing(alloc: Global, refused: u64) -> Result<Self, AllocError> {
        let counts = Counts {
            made: Cell::new(0),
            clones: Cell::new(0),
            drops: Cell::new(0),
            refused,
        };
        Ok(Tally {
            counts: Rc::new(alloc, counts)?,
        })
    }

    pub fn clones(&self) -> u64 {
        self.counts.clones.get()
    }

    pub fn drops(&self) -> u64 {
        self.counts.drops.get()
    }

    /// Whether there were exactly this many clones and drops.
    pub fn has(&self, clones: u64, drops: u64) -> bool {
        self.clones() == clones && self.drops() == drops
    }

    /// Drops the value, and tells how many clones and drops there were then.
    pub fn counts_without<V: Drop>(&self, value: V) -> (u64, u64) {
        drop(value);
        (self.clones(), self.drops())
    }

    /// A new element, with the number 0.
    pub fn element(&self) -> Result<Counting, AllocError> {
        self.numbered(0)
    }

    /// A new element with this number.
    pub fn numbered(&self, number: i64) -> Result<Counting, AllocError> {
        one_more(number, &self.counts)
    }

    /// `n` new elements.
    pub fn elements(&self, alloc: Global, n: usize) -> Result<Vec<Counting>, AllocError> {
        let mut elements = Vec::new(alloc);
        for _ in 0..n {
            elements.push(self.element()?)?;
        }
        Ok(elements)
    }

    /// A vector of `n` new elements.
    pub fn list(&self, alloc: Global, n: usize) -> Result<EcoVec<Counting>, EcoError> {
        EcoVec::from_vec(alloc, self.elements(alloc, n)?).map_err(|rejected| rejected.error)
    }
}

impl Source for Tally {
    fn counts(&self) -> Option<(u64, u64)> {
        Some((self.clones(), self.drops()))
    }

    fn has_live(&self, count: u64) -> bool {
        self.counts.made.get().wrapping_sub(self.drops()) == count
    }
}

/// An element that counts its clones and its drop in a `Tally`.
pub struct Counting {
    pub number: i64,
    counts: Rc<Counts>,
}

impl Clone for Counting {
    fn clone(&self) -> Result<Self, AllocError> {
        let number = self.counts.clones.get().wrapping_add(1);
        self.counts.clones.set(number);
        if number == self.counts.refused {
            return Err(AllocError);
        }
        one_more(self.number, &self.counts)
    }
}

/// Makes one more element that is counted there.
fn one_more(number: i64, counts: &Rc<Counts>) -> Result<Counting, AllocError> {
    let counts = counts.clone()?;
    counts.made.set(counts.made.get().wrapping_add(1));
    Ok(Counting { number, counts })
}

impl Drop for Counting {
    fn drop(self) {
        let Counting {
            counts,
            number: _number,
        } = self;
        counts.drops.set(counts.drops.get().wrapping_add(1));
    }
}

/// An element without a clone.
#[derive(Drop)]
pub struct Single;
