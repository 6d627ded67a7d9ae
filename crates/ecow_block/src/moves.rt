//! Moves of items within a room and between rooms, with no pointer in sight. What is cut and glued
//! here is gone when the program runs: what is left are reads and writes, which the compiler knows
//! as moves of memory.
ghost use Rattle.std.specs.Prelude.{◌≡◌, ◌+◌, ◌-◌, ◌^◌, ◌<◌, ◌≤◌, [], ◌∷◌, ◌++◌, length, take, vec_len, false};
ghost use Rattle.std.specs.Iterator.{IsFinite};
ghost use Rattle.ecow_block.specs.Iterators.{GivesOn};
ghost use Rattle.ecow_block.specs.Rooms.{SamePlaces, Follows};

/// Makes a call. In Rust a call may unwind: then the first `$count` items of `$room` are dropped,
/// the first of which lies in the place numbered `$at`.
macro_rules! guarded {
    ($room:expr, $base:expr, $at:expr, $count:expr, $call:expr) => {
        // rust: $crate::shim::guarded($room.as_mut_slice($base, $at, $count), || $call)
        $call
    };
}

use guarded;

mod clones;
mod copies;
mod gaps;

use crate::room::{Base, Room};
use std::mem::replace;

/// How many items are moved by a place one by one, at most.
const FEW: usize = 16;

impl<T> Room<T> {
    /// Takes the first item, from the place numbered `at`. That place comes back too.
    pub(crate) fn take_first(&mut self, base: Base<T>, at: usize) -> (T, Room<T>)
        requires { (base.ptr ≡ self.old.at) × (at ≡ self.old.start) × (0 < length self.old.items) }
        ensures items { self.old.items ≡ result.0 ∷ self.new.items }
        ensures rest { (self.new.at ≡ self.old.at) × (self.new.start ≡ self.old.start + 1)
            × (self.new.capacity + 1 ≡ self.old.capacity) }
        ensures place { (result.1.at ≡ self.old.at) × (result.1.start ≡ self.old.start)
            × (result.1.capacity ≡ 1) × (result.1.items ≡ []) }
    {
        let rest = self.split_off(1);
        let item = self.take_last(base, at);
        (item, replace(self, rest))
    }

    /// Takes the first item, as an array of one, from the place numbered `at`, by a move of memory.
    /// That place comes back too.
    fn take_first_one(&mut self, base: Base<T>, at: usize) -> ([T; 1], Room<T>)
        requires { (base.ptr ≡ self.old.at) × (at ≡ self.old.start) × (0 < length self.old.items) }
        ensures items { self.old.items ≡ result.0 ++ self.new.items }
        ensures one { length result.0 ≡ 1 }
        ensures rest { (self.new.at ≡ self.old.at) × (self.new.start ≡ self.old.start + 1)
            × (self.new.capacity + 1 ≡ self.old.capacity) }
        ensures place { (result.1.at ≡ self.old.at) × (result.1.start ≡ self.old.start)
            × (result.1.capacity ≡ 1) × (result.1.items ≡ []) }
    {
        let rest = self.split_off(1);
        let item = self.take_last_one(base, at);
        (item, replace(self, rest))
    }

    /// Takes the first item, and moves the others, all of which were `len`, down by a place: in
    /// place where they are few.
    pub(crate) fn shift_first(&mut self, base: Base<T>, start: usize, len: usize) -> T
        requires { (base.ptr ≡ self.old.at) × (start ≡ self.old.start)
            × (len ≡ length self.old.items) × (0 < len) }
        ensures items { self.old.items ≡ result ∷ self.new.items }
        ensures places { SamePlaces self.old self.new }
    {
        let here = self.begin_here(base, start);
        let item = if len > FEW {
            self.shift_many(here, len)
        } else {
            self.shift(here, len)
        };
        self.begin_back(base, start);
        item
    }

    /// Calls `shift` out of line. Given only a pointer to the first item, the compiler knows the
    /// loop as one move of memory, whatever the items are. For that it has to see the loop inlined
    /// once before.
    #[inline(never)]
    fn shift_many(&mut self, base: Base<T>, len: usize) -> T
        requires { (base.ptr ≡ self.old.at) × (self.old.start ≡ 0) × (len ≡ length self.old.items)
            × (0 < len) }
        ensures items { self.old.items ≡ result ∷ self.new.items }
        ensures places { SamePlaces self.old self.new }
    {
        self.shift(base, len)
    }

    /// Takes the first item, and moves the others down by a place, item by item. The places are
    /// numbered from 0 on.
    fn shift(&mut self, base: Base<T>, len: usize) -> T
        requires { (base.ptr ≡ self.old.at) × (self.old.start ≡ 0) × (len ≡ length self.old.items)
            × (0 < len) }
        ensures items { self.old.items ≡ result ∷ self.new.items }
        ensures places { SamePlaces self.old self.new }
    {
        let mut rest = self.split_off(0);
        let (item, place) = rest.take_first(base, 0);
        self.append(place.close_gap(base, 0, 1, len - 1, rest));
        item
    }

    /// Puts an item before the others, which are `len`, and moves these up by a place: in place
    /// where they are few.
    pub(crate) fn insert_first(&mut self, base: Base<T>, start: usize, len: usize, item: T)
        requires { (base.ptr ≡ self.old.at) × (start ≡ self.old.start)
            × (len ≡ length self.old.items) × (len < self.old.capacity) × (len < 2 ^ 63) }
        ensures items { self.new.items ≡ item ∷ self.old.items }
        ensures places { SamePlaces self.old self.new }
    {
        let here = self.begin_here(base, start);
        let others = if len > FEW {
            self.unshift_many(here, len)
        } else {
            self.unshift(here, len)
        };
        self.put(here, 0, item);
        self.append(others);
        self.begin_back(base, start);
    }

    /// Moves the items up by a place, out of line as in `shift_many`. The first place stays, and
    /// they come back as a room of their own.
    #[inline(never)]
    fn unshift_many(&mut self, base: Base<T>, len: usize) -> Room<T>
        requires { (base.ptr ≡ self.old.at) × (self.old.start ≡ 0) × (len ≡ length self.old.items)
            × (len < self.old.capacity) × (len < 2 ^ 63) }
        ensures left { (self.new.at ≡ self.old.at) × (self.new.start ≡ 0) × (self.new.capacity ≡ 1)
            × (self.new.items ≡ []) }
        ensures items { result.items ≡ self.old.items }
        ensures places { Follows self.new result × (result.capacity + 1 ≡ self.old.capacity) }
    {
        self.unshift(base, len)
    }

    /// Moves the items up by a place, item by item. The first place stays, and they come back as a
    /// room of their own.
    fn unshift(&mut self, base: Base<T>, len: usize) -> Room<T>
        requires { (base.ptr ≡ self.old.at) × (self.old.start ≡ 0) × (len ≡ length self.old.items)
            × (len < self.old.capacity) × (len < 2 ^ 63) }
        ensures left { (self.new.at ≡ self.old.at) × (self.new.start ≡ 0) × (self.new.capacity ≡ 1)
            × (self.new.items ≡ []) }
        ensures items { result.items ≡ self.old.items }
        ensures places { Follows self.new result × (result.capacity + 1 ≡ self.old.capacity) }
    {
        self.open_gap(base, 0, len, 1)
    }

    /// Lets all items, of which there are `len`, and those of `other`, of which there are as many,
    /// change places.
    pub(crate) fn swap(
        &mut self,
        base: Base<T>,
        start: usize,
        len: usize,
        other: &mut Room<T>,
        other_base: Base<T>,
        other_start: usize,
    )
        requires here { (base.ptr ≡ self.old.at) × (start ≡ self.old.start)
            × (len ≡ length self.old.items) }
        requires there { (other_base.ptr ≡ other.old.at) × (other_start ≡ other.old.start)
            × (len ≡ length other.old.items) }
        ensures items { (self.new.items ≡ other.old.items) × (other.new.items ≡ self.old.items) }
        ensures places { SamePlaces self.old self.new × SamePlaces other.old other.new }
    {
        self.as_mut_slice(base, start, len)
            .swap_with_slice(other.as_mut_slice(other_base, other_start, len));
    }

    /// Puts an item, as an array of one, into an empty place, numbered `at`, and that place before
    /// the others.
    pub(crate) fn put_first(&mut self, base: Base<T>, at: usize, mut place: Room<T>, item: [T; 1])
        requires { (base.ptr ≡ place.at) × (at ≡ place.start) × (place.capacity ≡ 1)
            × (place.items ≡ []) × Follows place self.old }
        ensures items { self.new.items ≡ item ++ self.old.items }
        ensures places { (self.new.at ≡ self.old.at) × (self.new.start + 1 ≡ self.old.start)
            × (self.new.capacity ≡ self.old.capacity + 1) }
    {
        place.put_one(base, at, item);
        let others = replace(self, place);
        self.append(others);
    }

    /// Moves all of `elements` into this room, which is empty. Its first place is numbered `start`.
    pub(crate) fn fill(&mut self, base: Base<T>, start: usize, elements: &mut Vec<T>)
        requires { (base.ptr ≡ self.old.at) × (start ≡ self.old.start) × (self.old.items ≡ [])
            × (vec_len elements.old ≤ self.old.capacity) × (start + vec_len elements.old < 2 ^ 64) }
        ensures items { self.new.items ≡ elements.old.items }
        ensures places { SamePlaces self.old self.new }
        ensures left { elements.new.items ≡ [] }
    {
        let mut moved = self.split_off(elements.len());
        while let Some(item) = elements.pop() {
            let place = self.split_off(elements.len());
            moved.put_first(base, start + elements.len(), place, [item]);
        }
        self.append(moved);
    }

    /// Drops all items, of which there are `len`, in their order. The first lies in the place numbered
    /// `start`.
    pub(crate) fn drop_all(&mut self, base: Base<T>, start: usize, len: usize)
    where
        T: Drop,
        requires { (base.ptr ≡ self.old.at) × (start ≡ self.old.start)
            × (len ≡ length self.old.items) × (start + len < 2 ^ 64) }
        ensures items { self.new.items ≡ [] }
        ensures places { SamePlaces self.old self.new }
    {
        let mut rest = self.split_off(0);
        let mut gone = 0;
        while gone < len {
            let (item, place) = rest.take_first(base, start + gone);
            self.widen(place);
            gone += 1;
            guarded!(rest, base, start + gone, len - gone, drop(item));
        }
        self.widen(rest);
    }

    /// Drops the last `count` items, the first of which lies in the place numbered `at`.
    fn drop_last(&mut self, base: Base<T>, at: usize, count: usize)
    where
        T: Drop,
        requires { (base.ptr ≡ self.old.at) × (at + count ≡ self.old.start + length self.old.items)
            × (count ≤ length self.old.items) × (at + count < 2 ^ 64) }
        ensures items { self.new.items ≡ take (length self.old.items - count) self.old.items }
        ensures places { SamePlaces self.old self.new }
    {
        let mut left = count;
        while left > 0 {
            left -= 1;
            drop(self.take_last(base, at + left));
        }
    }

    /// Appends the next items of `iter`, `most` of them or all, the first in the place numbered
    /// `at`. Returns how many these are, and whether `iter` ended.
    pub(crate) fn append_items<I: Iterator<Item = T>>(
        &mut self,
        base: Base<T>,
        at: usize,
        most: usize,
        iter: &mut I,
    ) -> (usize, bool)
        requires room { (base.ptr ≡ self.old.at) × (at ≡ self.old.start + length self.old.items)
            × (length self.old.items + most ≤ self.old.capacity) × (at + most < 2 ^ 64) }
        requires callable { I.can_next iter.old × IsFinite (I.remaining iter.old) }

        // The items that came go behind the others, in the same places.
        ensures items { GivesOn I.next_gives iter.old self.old.items
            iter.new self.new.items result.1 }
        ensures len { (length self.new.items ≡ length self.old.items + result.0)
            × (result.0 ≤ most) }
        ensures full { result.1 ≡ false → result.0 ≡ most }

        // Where all went in, the iterator may be asked again.
        ensures callable { result.1 ≡ false → I.can_next iter.new
            × IsFinite (I.remaining iter.new) }
        ensures places { SamePlaces self.old self.new }
    {
        let mut count = 0;
        while count < most {
            match guarded!(self, base, at, count, iter.next()) {
                Some(item) => self.put(base, at + count, item),
                None => return (count, true),
            }
            count += 1;
        }
        (count, false)
    }
}
