//! Clones and copies of elements.
ghost use Rattle.std.specs.Prelude.{◌≡◌, ◌+◌, ◌-◌, ◌≤◌, ◌++◌, length, All, IfOk, IsOk, OnOk, OnErr, replicate, slice_range};
ghost use Rattle.std.specs.List.{AllZip};
ghost use Rattle.ecow_base.specs.Clones.{ClonesAreEqual};
ghost use Rattle.ecow_block.specs.Clones.{AppendsClones};
ghost use Rattle.ecow_block.specs.Contents.{contents};

use crate::block::Block;
use crate::parts::{base, put_len};
use crate::room::fields;
use ecow_base::MAX_LEN;
use std::alloc::{AllocError, Global};

impl<T: Clone> Block<T> {
    /// Appends clones of `elements`. The capacity must be enough. If a clone is refused, nothing
    /// changes.
    pub fn extend_within_capacity(&mut self, elements: &[T]) -> Result<(), AllocError>
        requires { length self.old.items + length elements.now ≤ self.old.capacity }
        ensures clones { OnOk result
            (AppendsClones T.is_clone self.old.items elements.now self.new.items) }
        ensures ok { ClonesAreEqual T.is_clone
            → OnOk result (self.new.items ≡ self.old.items ++ elements.now) }
        ensures len { OnOk result (length self.new.items ≡ length self.old.items
            + length elements.now) }

        // The capacity stays, and a refusal changes nothing.
        ensures capacity { self.new.capacity ≡ self.old.capacity }
        ensures unchanged { OnErr result (self.new ≡ self.old) }
    {
        let base = base!(self);
        let len = self.len();
        self.room.append_clones(base, len, elements)?;
        if !elements.is_empty() {
            put_len(&mut self.title, self.top, len + elements.len());
        }
        Ok(())
    }

    /// A block of that capacity with clones of `elements`.
    pub fn from_clones(alloc: Global, elements: &[T], capacity: usize) -> Result<Self, AllocError>
        requires room { length elements.now ≤ capacity }
        requires bounded { capacity ≤ MAX_LEN }

        // The clones, and the capacity that is asked for.
        ensures clones { IfOk result (λ block. AllZip T.is_clone elements.now block.items) }
        ensures items { ClonesAreEqual T.is_clone
            → IfOk result (λ block. block.items ≡ elements.now) }
        ensures len { IfOk result (λ block. length block.items ≡ length elements.now) }
        ensures capacity { IfOk result (λ block. block.capacity ≡ capacity) }
    {
        let mut block = Block::with_capacity(alloc, capacity)?;
        block.extend_within_capacity(elements)?;
        Ok(block)
    }

    /// A block of `n` clones of `value`, with no more capacity than that.
    pub fn from_elem(alloc: Global, value: &T, n: usize) -> Result<Self, AllocError>
        requires { n ≤ MAX_LEN }
        ensures items { ClonesAreEqual T.is_clone
            → IfOk result (λ block. block.items ≡ replicate n value.now) }
        ensures clones { IfOk result (λ block. All (T.is_clone value.now) block.items) }
        ensures len { IfOk result (λ block. length block.items ≡ n) }
        ensures capacity { IfOk result (λ block. block.capacity ≡ n) }
        ensures nothing { n ≡ 0 → IsOk result }
    {
        let mut block = Block::with_capacity(alloc, n)?;
        while block.len() < n {
            block.push_within_capacity(value.clone()?);
        }
        Ok(block)
    }
}

impl<T: Copy> Block<T> {
    /// Appends copies of `elements` by one move of memory. The capacity must be enough.
    pub fn extend_copies(&mut self, elements: &[T])
        requires { length self.old.items + length elements.now ≤ self.old.capacity }
        ensures { self.new ≡ contents (self.old.items ++ elements.now) self.old.capacity }
    {
        let base = base!(self);
        let len = self.len();
        self.room.put_copies(base, len, elements);
        if !elements.is_empty() {
            put_len(&mut self.title, self.top, len + elements.len());
        }
    }

    /// Appends copies of the elements from `start` up to `end` by one move of memory. The capacity
    /// must be enough.
    pub fn extend_from_within(&mut self, start: usize, end: usize)
        requires ordered { start ≤ end }
        requires in_bounds { end ≤ length self.old.items }
        requires room { length self.old.items + (end - start) ≤ self.old.capacity }
        ensures { self.new
            ≡ contents (self.old.items ++ slice_range self.old.items start end) self.old.capacity }
    {
        if start == end {
            return;
        }
        let head = *fields(&self.title, self.top);
        self.room.put_copies_within(head.base, head.len, start, end);
        put_len(&mut self.title, self.top, head.len + (end - start));
    }

    /// A block of that capacity with copies of `elements`.
    pub fn from_copies(alloc: Global, elements: &[T], capacity: usize) -> Result<Self, AllocError>
        requires room { length elements.now ≤ capacity }
        requires bounded { capacity ≤ MAX_LEN }
        ensures { IfOk result (λ block. block ≡ contents elements.now capacity) }
    {
        let mut block = Block::with_capacity(alloc, capacity)?;
        block.extend_copies(elements);
        Ok(block)
    }
}
