//! The elements of a block by value, taken from either end.
ghost use Rattle.std.specs.Prelude.{◌≡◌, ◌+◌, ◌^◌, ◌<◌, ◌≤◌, ◌++◌, [], length, vec_capacity, Some, IfSome};
ghost use Rattle.std.specs.Iterator.{UpTo, YieldsFirst, YieldsLast, at_most, item_count};
ghost use Rattle.std.specs.Iterator.SizeHint.{IsWithinCount};

use crate::parts::{base_of, give_back_parts};
use crate::room::{Base, Deed, Room, Title, Top, fields, is_none};
use std::alloc::Global;
use std::iter::FusedIterator;
use std::marker::Model;

/// An iterator over a block's elements, which stay in the block's memory until they are taken. When
/// it is dropped, it drops the elements that nobody took.
pub struct Rest<T> {
    /// The address of the block's head, or null.
    top: Top<T>,
    /// Where its places begin.
    base: Base<T>,
    /// The number of the next element's place.
    start: usize,
    /// How many elements are still to come.
    len: usize,
    /// The places before the next element, which are empty.
    taken: Room<T>,
    /// The places from the next element on.
    room: Room<T>,
    /// The right to the head.
    title: Title<T, Global>,
    /// The right to give places back that stand apart from the head.
    deed: Deed<T, Global>,
    /// The allocator that the memory came from.
    alloc: Global,
}

impl<T> Model for Rest<T> {
    ghost use Rattle.std.specs.Prelude.{List};
    ghost use Rattle.ecow_block.specs.RestFields.{IsRest};

    ghost Value = { List T };

    ghost view = { λ r. r.room.items };

    ghost invariant = { λ r. IsRest r };
}

impl<T> Rest<T> {
    ghost use Rattle.ecow_block.specs.Parts.{IsParts};

    /// Iterates over the elements of a whole block.
    pub(crate) fn of_parts(
        top: Top<T>,
        room: Room<T>,
        title: Title<T, Global>,
        deed: Deed<T, Global>,
        alloc: Global,
    ) -> Self
        requires { IsParts top room title deed alloc }
        ensures { result ≡ room.items }
    {
        let (mut top, mut taken, mut title, mut deed) = (top, room, title, deed);
        let base = base_of(&mut top, &mut taken, &mut title, &mut deed, &alloc);
        let len = if is_none(top) {
            0
        } else {
            fields(&title, top).len
        };
        let room = taken.split_off(0);
        Rest {
            top,
            base,
            start: 0,
            len,
            taken,
            room,
            title,
            deed,
            alloc,
        }
    }

    /// The number of elements still to come.
    pub fn len(&self) -> usize
        ensures len { result ≡ length self.now }
        ensures bounded { result < 2 ^ 63 }
    {
        self.len
    }

    /// The elements still to come.
    pub fn as_slice(&self) -> &[T]
        ensures { result.now ≡ self.now }
    {
        self.room.as_slice(self.base, self.start, self.len)
    }

    /// Takes the first element.
    pub fn next(&mut self) -> Option<T>
        ensures { YieldsFirst (λ rest. rest) self.old result self.new }
    {
        if self.len == 0 {
            return None;
        }
        let (item, place) = self.room.take_first(self.base, self.start);
        self.taken.widen(place);
        self.start += 1;
        self.len -= 1;
        Some(item)
    }

    /// Takes the last element.
    pub fn next_back(&mut self) -> Option<T>
        ensures { YieldsLast (λ rest. rest) self.old result self.new }
    {
        if self.len == 0 {
            return None;
        }
        self.len -= 1;
        Some(self.room.take_last(self.base, self.start + self.len))
    }

    /// Moves the elements still to come behind those of `elements`, whose capacity must be enough,
    /// and frees the block's memory.
    pub fn collect_into(self, elements: &mut Vec<T>)
        requires { length elements.old.items + length self ≤ vec_capacity elements.old }
        ensures { elements.new.items ≡ elements.old.items ++ self }
    {
        let mut rest = self;
        while let Some(item) = rest.next() {
            elements.push_reserved(item);
        }
        rest.destroy_empty();
    }

    /// Frees the memory, once all elements were taken.
    pub(crate) fn destroy_empty(self)
        requires { self ≡ [] }
    {
        let Rest {
            top,
            base: _,
            start: _,
            len: _,
            mut taken,
            room,
            title,
            deed,
            alloc,
        } = self;
        taken.widen(room);
        give_back_parts(top, taken, title, deed, &alloc);
    }
}

impl<T: Drop> Drop for Rest<T> {
    fn drop(mut self) {
        while let Some(item) = self.next() {
            drop(item);
        }
        self.destroy_empty();
    }
}

impl<T: Drop> Iterator for Rest<T> {
    type Item = T;

    ghost next_gives = { YieldsFirst (λ rest. rest) };

    ghost remaining = { item_count (λ rest. rest) };

    fn next(&mut self) -> Option<T> {
        Rest::next(self)
    }

    fn size_hint(&self) -> (usize, Option<usize>)
        ensures lower { IsWithinCount result.0 (at_most (length self.now)) }
        ensures upper { IfSome result.1 (UpTo (at_most (length self.now))) }
        ensures exact { result ≡ (length self.now, Some (length self.now)) }
    {
        let len = self.len();
        (len, Some(len))
    }
}

impl<T: Drop> DoubleEndedIterator for Rest<T> {
    ghost next_back_gives = { YieldsLast (λ rest. rest) };

    fn next_back(&mut self) -> Option<T> {
        Rest::next_back(self)
    }
}

impl<T: Drop> ExactSizeIterator for Rest<T> {
    fn len(&self) -> usize {
        Rest::len(self)
    }
}

impl<T: Drop> FusedIterator for Rest<T> {}
