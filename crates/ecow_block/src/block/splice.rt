//! Runs of elements that move from one block to another.
ghost use Rattle.std.specs.Prelude.{◌≡◌, ◌+◌, ◌-◌, ◌≤◌, ◌++◌, length, take, drop, slice_range};
ghost use Rattle.std.specs.List.{insert_slice, remove_range, splice};
ghost use Rattle.ecow_block.specs.Contents.{contents};

use crate::block::Block;
use crate::parts::put_len;
use crate::rest::Rest;
use crate::room::fields;

impl<T> Block<T> {
    /// Moves the elements from `start` up to `end` behind those of `other`, whose capacity must be
    /// enough.
    pub fn drain_into(&mut self, start: usize, end: usize, other: &mut Block<T>)
        requires ordered { start ≤ end }
        requires in_bounds { end ≤ length self.old.items }
        requires room { length other.old.items + (end - start) ≤ other.old.capacity }
        ensures left { self.new
            ≡ contents (remove_range self.old.items start end) self.old.capacity }
        ensures moved { other.new
            ≡ contents (other.old.items
            ++ slice_range self.old.items start end) other.old.capacity }
    {
        let count = end - start;
        if count == 0 {
            return;
        }
        let own = *fields(&self.title, self.top);
        let head = *fields(&other.title, other.top);
        let mut middle = self.room.split_off(start);
        let tail = middle.split_off(count);
        middle.move_run(own.base, start, count, &mut other.room, head.base, head.len);
        let behind = own.len - end;
        self.room
            .append(middle.close_gap(own.base, start, count, behind, tail));
        put_len(&mut self.title, self.top, own.len - count);
        put_len(&mut other.title, other.top, head.len + count);
    }

    /// Moves the elements of `other` from `from` on to before the element at `index`. The capacity
    /// must be enough.
    pub fn insert_from(&mut self, index: usize, other: &mut Block<T>, from: usize)
        requires in_bounds { index ≤ length self.old.items }
        requires from_in_bounds { from ≤ length other.old.items }
        requires room { length self.old.items + (length other.old.items - from)
            ≤ self.old.capacity }
        ensures block { self.new
            ≡ contents (insert_slice self.old.items index
            (drop from other.old.items)) self.old.capacity }
        ensures left { other.new ≡ contents (take from other.old.items) other.old.capacity }
    {
        let count = other.len() - from;
        if count == 0 {
            return;
        }
        let own = *fields(&self.title, self.top);
        let base = fields(&other.title, other.top).base;
        let mut gap = self.room.split_off(index);
        let behind = gap.open_gap(own.base, index, own.len - index, count);
        let mut rest = other.room.split_off(from);
        rest.move_run(base, from, count, &mut gap, own.base, index);
        other.room.widen(rest);
        gap.append(behind);
        self.room.append(gap);
        put_len(&mut self.title, self.top, own.len + count);
        put_len(&mut other.title, other.top, from);
    }

    /// Swaps the `count` elements from `start` on with the first `count` of `other`.
    fn swap_first(&mut self, start: usize, other: &mut Block<T>, count: usize)
        requires in_bounds { start + count ≤ length self.old.items }
        requires enough { count ≤ length other.old.items }
        ensures block { self.new
            ≡ contents (splice self.old.items start (start + count)
            (take count other.old.items)) self.old.capacity }
        ensures other { other.new
            ≡ contents (slice_range self.old.items start (start + count)
            ++ drop count other.old.items) other.old.capacity }
    {
        if count == 0 {
            return;
        }
        let own = fields(&self.title, self.top).base;
        let base = fields(&other.title, other.top).base;
        let mut middle = self.room.split_off(start);
        let tail = middle.split_off(count);
        let rest = other.room.split_off(count);
        middle.swap(own, start, count, &mut other.room, base, 0);
        other.room.append(rest);
        middle.append(tail);
        self.room.append(middle);
    }

    /// Replaces the elements from `start` up to `end` by those of `replacement`. Returns an iterator
    /// over the replaced elements, which are in the memory of `replacement` then. The capacity of
    /// both blocks must be enough.
    pub fn splice_within_capacity(
        &mut self,
        start: usize,
        end: usize,
        replacement: Block<T>,
    ) -> Rest<T>
        requires ordered { start ≤ end }
        requires in_bounds { end ≤ length self.old.items }
        requires room { length self.old.items - (end - start) + length replacement.items
            ≤ self.old.capacity }
        requires spare { end - start ≤ replacement.capacity }

        // What is taken out, and what the block has then.
        ensures removed { result ≡ slice_range self.old.items start end }
        ensures len { length result ≡ end - start }
        ensures block { self.new
            ≡ contents (splice self.old.items start end replacement.items) self.old.capacity }
    {
        let (mut replacement, _len) = (replacement, self.len());
        let len = replacement.len();
        let both = len.min(end - start);
        self.swap_first(start, &mut replacement, both);
        self.insert_from(start + both, &mut replacement, both);
        self.drain_into(start + len, end - both + len, &mut replacement);
        replacement.into_rest()
    }
}
