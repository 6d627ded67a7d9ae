//! Larger blocks, and elements that move to another block or a `Vec`.
ghost use Rattle.std.specs.Prelude.{◌≡◌, ◌≤◌, [], length, IfOk, OnOk, OnErr, IsOk, if◌then◌else◌, is_ok, vec_len, false, min};
ghost use Rattle.std.specs.Iterator.{IsFinite};
ghost use Rattle.ecow_block.specs.Contents.{contents};
ghost use Rattle.ecow_block.specs.Iterators.{GivesOn};

use crate::block::Block;
use crate::parts::{NOWHERE, TOGETHER, base, put_len, put_places, takes_bytes};
use crate::room::{fields, grow, is_none};
use ecow_base::MAX_LEN;
use std::alloc::AllocError;
use std::mem::replace;
use std_alloc::room::may_hold;

impl<T> Block<T> {
    /// Appends the next items of `iter`, until `iter` ends, the block is full or it has `most`
    /// elements. Returns whether `iter` ended.
    pub fn fill_from<I: Iterator<Item = T>>(&mut self, most: usize, iter: &mut I) -> bool
        requires in_bounds { length self.old.items ≤ most }
        requires callable { I.can_next iter.old × IsFinite (I.remaining iter.old) }

        // The items that came go behind the others.
        ensures items { GivesOn I.next_gives iter.old self.old.items
            iter.new self.new.items result }
        ensures len { (length self.old.items ≤ length self.new.items)
            × (length self.new.items ≤ most) }
        ensures full { result ≡ false → length self.new.items ≡ min most self.old.capacity }

        // The capacity stays, and the iterator may be asked again.
        ensures capacity { self.new.capacity ≡ self.old.capacity }
        ensures callable { result ≡ false → I.can_next iter.new × IsFinite (I.remaining iter.new) }
    {
        let base = base!(self);
        let len = self.len();
        let room = most.min(self.capacity()) - len;
        let (added, ended) = self.room.append_items(base, len, room, iter);
        if added > 0 {
            put_len(&mut self.title, self.top, len + added);
        }
        ended
    }

    /// Makes the capacity exactly `capacity`. If that is refused, nothing changes. Where the block
    /// has this capacity already, it isn't refused.
    #[inline]
    pub fn grow(&mut self, capacity: usize) -> Result<(), AllocError>
        requires { self.old.capacity ≤ capacity }
        ensures enough { capacity ≡ self.old.capacity → IsOk result }
        ensures block { self.new ≡ contents self.old.items (if is_ok result then capacity
            else self.old.capacity) }
    {
        if capacity == self.capacity() {
            return Ok(());
        }
        self.enlarge(capacity)
    }

    /// Enlarges the block to `capacity` places: in place where it has many that take bytes, and by
    /// a move into a new block otherwise. If that is refused, nothing changes.
    #[inline]
    fn enlarge(&mut self, capacity: usize) -> Result<(), AllocError>
        requires { self.old.capacity ≤ capacity }
        ensures { self.new ≡ contents self.old.items (if is_ok result then capacity
            else self.old.capacity) }
    {
        if !may_hold::<T>(capacity) {
            return Err(AllocError);
        }
        if self.capacity() > TOGETHER && takes_bytes::<T>(capacity) {
            let head = *fields(&self.title, self.top);
            let base = grow(
                &self.alloc,
                head.base,
                head.len,
                head.capacity,
                capacity,
                &mut self.room,
                &mut self.deed,
            )?;
            put_places(&mut self.title, self.top, base, capacity);
            return Ok(());
        }
        self.renew(capacity)
    }

    /// Moves the elements into a new block of `capacity` places, and frees the old one. If that is
    /// refused, nothing changes. Where places take no bytes, there are always enough: the number in
    /// the head is changed, and nothing is refused.
    #[cold]
    #[inline(never)]
    fn renew(&mut self, capacity: usize) -> Result<(), AllocError>
        requires larger { self.old.capacity ≤ capacity }
        requires bounded { capacity ≤ MAX_LEN }
        ensures { self.new ≡ contents self.old.items (if is_ok result then capacity
            else self.old.capacity) }
    {
        if !is_none(self.top) {
            let head = *fields(&self.title, self.top);
            if head.capacity >= NOWHERE {
                put_places(&mut self.title, self.top, head.base, NOWHERE + capacity);
                return Ok(());
            }
        }
        let mut larger = Block::with_capacity(self.alloc, capacity)?;
        let len = self.len();
        self.drain_into(0, len, &mut larger);
        replace(self, larger).destroy_empty();
        Ok(())
    }

    /// Moves the elements of a `Vec` into this block, which is empty and whose capacity must be
    /// enough.
    pub fn fill_within_capacity(&mut self, elements: Vec<T>)
        requires empty { self.old.items ≡ [] }
        requires room { vec_len elements ≤ self.old.capacity }
        ensures { self.new ≡ contents elements.items self.old.capacity }
    {
        let mut elements = elements;
        let base = base!(self);
        let len = elements.len();
        self.room.fill(base, 0, &mut elements);
        if len > 0 {
            put_len(&mut self.title, self.top, len);
        }
        elements.destroy_empty();
    }

    /// Moves all elements into a new `Vec`. If its memory is refused, nothing changes.
    pub fn take_vec(&mut self) -> Result<Vec<T>, AllocError>
        ensures taken { IfOk result (λ elements. elements.items ≡ self.old.items) }
        ensures left { OnOk result (self.new.items ≡ []) }
        ensures unchanged { OnErr result (self.new ≡ self.old) }
    {
        let mut elements = Vec::with_capacity(self.alloc, self.len())?;
        let block = replace(self, Block::new(self.alloc));
        block.into_rest().collect_into(&mut elements);
        Ok(elements)
    }
}
