//! Copies of items, each run by one move of memory.
ghost use Rattle.std.specs.Prelude.{◌≡◌, ◌+◌, ◌-◌, ◌≤◌, [], ◌++◌, length, slice_range};
ghost use Rattle.ecow_block.specs.Rooms.{SamePlaces};

use crate::room::{Base, Room};

impl<T> Room<T> {
    /// Empty places, the first of them numbered `at`, filled with copies of as many `items` in one
    /// move of memory.
    fn fill_with(self, base: Base<T>, at: usize, items: &[T]) -> Room<T>
    where
        T: Copy,
        requires { (base.ptr ≡ self.at) × (at ≡ self.start) × (self.items ≡ [])
            × (self.capacity ≡ length items.now) }
        ensures items { result.items ≡ items.now }
        ensures places { (result.at ≡ base.ptr) × (result.start ≡ at)
            × (result.capacity ≡ length items.now) }
    {
        let mut slots = self.into_slots(base, at, items);
        slots.copy_in(0, items);
        Room::of_slots(slots, base, at)
    }

    /// Appends copies of `items` in one move of memory. The places are numbered from 0 on, and
    /// before the call there are `len` items.
    pub(crate) fn put_copies(&mut self, base: Base<T>, len: usize, items: &[T])
    where
        T: Copy,
        requires { (base.ptr ≡ self.old.at) × (self.old.start ≡ 0) × (len ≡ length self.old.items)
            × (len + length items.now ≤ self.old.capacity) }
        ensures items { self.new.items ≡ self.old.items ++ items.now }
        ensures places { SamePlaces self.old self.new }
    {
        let mut places = self.split_off(len);
        let spare = places.split_off(items.len());
        self.append(places.fill_with(base, len, items));
        self.widen(spare);
    }

    /// Appends copies of the items from `start` up to `end` in one move of memory. The places are
    /// numbered from 0 on, and before the call there are `len` items.
    pub(crate) fn put_copies_within(&mut self, base: Base<T>, len: usize, start: usize, end: usize)
    where
        T: Copy,
        requires places { (base.ptr ≡ self.old.at) × (self.old.start ≡ 0)
            × (len ≡ length self.old.items) }
        requires ordered { start ≤ end }
        requires in_bounds { end ≤ len }
        requires room { len + (end - start) ≤ self.old.capacity }

        // The copies go behind the others, in the same places.
        ensures items { self.new.items ≡ self.old.items ++ slice_range self.old.items start end }
        ensures places { SamePlaces self.old self.new }
    {
        let mut places = self.split_off(len);
        let spare = places.split_off(end - start);
        let items = &self.as_slice(base, 0, len)[start..end];
        let filled = places.fill_with(base, len, items);
        self.append(filled);
        self.widen(spare);
    }
}
