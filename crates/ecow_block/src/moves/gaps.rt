//! Gaps between items, which are opened and closed.
ghost use Rattle.std.specs.Prelude.{◌≡◌, ◌+◌, ◌^◌, ◌<◌, ◌≤◌, [], length, take, drop, IsTrue};
ghost use Rattle.ecow_block.specs.Rooms.{Follows};

use crate::room::{Base, Room};
use std::mem::{replace, size_of_val};

/// How many bytes a gap has at most over which items are moved one by one.
const NARROW: usize = 512;

/// Whether a gap of so many places is so wide that items beside it are moved by as many at once.
fn is_wide<T>(gap: usize, items: &[T]) -> bool
    ensures { IsTrue result → 0 < gap }
{
    match items.first() {
        Some(first) => gap > NARROW / size_of_val(first).max(1),
        None => false,
    }
}

impl<T> Room<T> {
    /// Moves the items down over the `gap` empty places before them. The first of all the places is
    /// numbered `start`.
    pub(crate) fn close_gap(
        mut self,
        base: Base<T>,
        start: usize,
        gap: usize,
        len: usize,
        mut rest: Room<T>,
    ) -> Room<T>
        requires gap { (base.ptr ≡ self.at) × (start ≡ self.start) × (gap ≡ self.capacity)
            × (self.items ≡ []) }
        requires rest { Follows self rest × (len ≡ length rest.items)
            × (start + gap + len < 2 ^ 64) }
        ensures items { result.items ≡ rest.items }
        ensures places { (result.at ≡ self.at) × (result.start ≡ self.start)
            × (result.capacity ≡ self.capacity + rest.capacity) }
    {
        if is_wide(gap, rest.as_slice(base, start + gap, len)) {
            return self.close_wide_gap(base, start, gap, len, rest);
        }
        let mut moved = 0;
        while moved < len {
            let (item, place) = rest.take_first_one(base, start + gap + moved);
            self.widen(place);
            self.put_one(base, start + moved, item);
            moved += 1;
        }
        self.widen(rest);
        self
    }

    /// Moves the items down over a wide gap, as many at once as it has places.
    fn close_wide_gap(
        mut self,
        base: Base<T>,
        start: usize,
        gap: usize,
        len: usize,
        mut rest: Room<T>,
    ) -> Room<T>
        requires gap { (base.ptr ≡ self.at) × (start ≡ self.start) × (gap ≡ self.capacity)
            × (self.items ≡ []) × (0 < gap) }
        requires rest { Follows self rest × (len ≡ length rest.items)
            × (start + gap + len < 2 ^ 64) }
        ensures items { result.items ≡ rest.items }
        ensures places { (result.at ≡ self.at) × (result.start ≡ self.start)
            × (result.capacity ≡ self.capacity + rest.capacity) }
    {
        let mut moved = 0;
        while moved < len {
            let count = gap.min(len - moved);
            let others = rest.split_off(count);
            rest.move_run(
                base,
                start + gap + moved,
                count,
                &mut self,
                base,
                start + moved,
            );
            self.widen(replace(&mut rest, others));
            moved += count;
        }
        self.widen(rest);
        self
    }

    /// Moves the items, of which there are `len`, up by `gap` places. The empty places before them
    /// stay; they come back as a room of their own.
    pub(crate) fn open_gap(
        &mut self,
        base: Base<T>,
        start: usize,
        len: usize,
        gap: usize,
    ) -> Room<T>
        requires { (base.ptr ≡ self.old.at) × (start ≡ self.old.start)
            × (len ≡ length self.old.items) × (len + gap ≤ self.old.capacity)
            × (start + len + gap < 2 ^ 64) }
        ensures left { (self.new.at ≡ self.old.at) × (self.new.start ≡ self.old.start)
            × (self.new.capacity ≡ gap) × (self.new.items ≡ []) }
        ensures items { result.items ≡ self.old.items }
        ensures places { Follows self.new result × (result.capacity + gap ≡ self.old.capacity) }
    {
        if is_wide(gap, self.as_slice(base, start, len)) {
            return self.open_wide_gap(base, start, len, gap);
        }
        let mut moved = self.split_off(len + gap);
        let mut left = len;
        while left > 0 {
            left -= 1;
            let item = self.take_last_one(base, start + left);
            let place = self.split_off(left + gap);
            moved.put_first(base, start + left + gap, place, item);
        }
        moved
    }

    /// Moves the items behind the first `left` ones, which are `count`, up by `gap` places, which
    /// are all that are empty. They come back as a room of their own.
    fn move_up(
        &mut self,
        base: Base<T>,
        start: usize,
        left: usize,
        count: usize,
        gap: usize,
    ) -> Room<T>
        requires { (base.ptr ≡ self.old.at) × (start ≡ self.old.start)
            × (left + count ≡ length self.old.items) × (left + count + gap ≡ self.old.capacity)
            × (count ≤ gap) × (start + left + count + gap < 2 ^ 64) }
        ensures left { (self.new.at ≡ self.old.at) × (self.new.start ≡ self.old.start)
            × (self.new.capacity ≡ left + gap) × (self.new.items ≡ take left self.old.items) }
        ensures items { result.items ≡ drop left self.old.items }
        ensures places { Follows self.new result × (result.capacity ≡ count) }
    {
        let mut places = self.split_off(left + gap);
        let mut items = self.split_off(left);
        items.move_run(
            base,
            start + left,
            count,
            &mut places,
            base,
            start + left + gap,
        );
        self.widen(items);
        places
    }

    /// Moves the items up by a wide gap, as many at once as it has places.
    fn open_wide_gap(&mut self, base: Base<T>, start: usize, len: usize, gap: usize) -> Room<T>
        requires { (base.ptr ≡ self.old.at) × (start ≡ self.old.start)
            × (len ≡ length self.old.items) × (len + gap ≤ self.old.capacity)
            × (start + len + gap < 2 ^ 64) × (0 < gap) }
        ensures left { (self.new.at ≡ self.old.at) × (self.new.start ≡ self.old.start)
            × (self.new.capacity ≡ gap) × (self.new.items ≡ []) }
        ensures items { result.items ≡ self.old.items }
        ensures places { Follows self.new result × (result.capacity + gap ≡ self.old.capacity) }
    {
        let mut moved = self.split_off(len + gap);
        let mut left = len;
        while left > 0 {
            let count = gap.min(left);
            left -= count;
            let places = self.move_up(base, start, left, count, gap);
            let behind = replace(&mut moved, places);
            moved.append(behind);
        }
        moved
    }
}
