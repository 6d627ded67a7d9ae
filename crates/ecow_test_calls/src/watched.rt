//! An iterator that counts what it is asked for.
use std::cell::Cell;

/// How many times an iterator was asked for an item, and whether it was asked for a hint.
#[derive(Drop)]
pub struct Asks {
    times: Cell<usize>,
    is_hint_asked: Cell<bool>,
}

impl Asks {
    pub fn new() -> Self {
        Asks {
            times: Cell::new(0),
            is_hint_asked: Cell::new(false),
        }
    }

    /// The items of `iter`, by an iterator that counts here.
    pub fn of<I>(&self, items: I) -> Watched<'_, I> {
        Watched { items, asks: self }
    }

    /// How many times it was asked for an item; `None` if it was asked for a hint.
    pub fn times(&self) -> Option<usize> {
        if self.is_hint_asked.get() {
            return None;
        }
        Some(self.times.get())
    }
}

/// The items of another iterator. Its hint says nothing.
#[derive(Drop)]
pub struct Watched<'a, I> {
    items: I,
    asks: &'a Asks,
}

impl<I: Iterator> Iterator for Watched<'_, I> {
    type Item = I::Item;

    ghost can_next = { λ it. I.can_next it.items };

    ghost remaining = { λ it. I.remaining it.items };

    fn next(&mut self) -> Option<I::Item> {
        self.asks.times.set(self.asks.times.get().wrapping_add(1));
        self.items.next()
    }

    fn size_hint(&self) -> (usize, Option<usize>) {
        self.asks.is_hint_asked.set(true);
        (0, None)
    }
}
