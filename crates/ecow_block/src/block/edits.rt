//! Edits of single elements in place. Where an element is added, the capacity must be enough.
ghost use Rattle.std.specs.Prelude.{◌≡◌, ◌-◌, ◌<◌, ◌≤◌, [], ◌∷◌, ◌++◌, length, take, slice_get, Some, insert, remove, slice_set};
ghost use Rattle.std.specs.Fn.{CalledAtMut};
ghost use Rattle.std.specs.List.Retain.{RetainsInTurn};
ghost use Rattle.ecow_block.specs.Contents.{contents};
ghost use Rattle.ecow_block.specs.Updates.{TakesAt, UpdatesAt};

use crate::block::Block;
use crate::parts::put_len;
use crate::room::fields;

impl<T> Block<T> {
    /// Calls `f` once, on the element at `index`, and returns its answer.
    pub fn update<R, F: FnOnce(&mut T) -> R>(&mut self, index: usize, f: F) -> R
        requires in_bounds { index < length self.old.items }
        requires callable { TakesAt F.FnOnce f self.old.items index }
        ensures updates { UpdatesAt F.FnOnce f index self.old.items self.new.items result }
        ensures capacity { self.new.capacity ≡ self.old.capacity }
    {
        f(&mut self.as_mut_slice()[index])
    }

    /// Appends an element. The capacity must be enough.
    pub fn push_within_capacity(&mut self, item: T)
        requires { length self.old.items < self.old.capacity }
        ensures { self.new ≡ contents (self.old.items ++ item ∷ []) self.old.capacity }
    {
        let head = *fields(&self.title, self.top);
        self.room.put(head.base, head.len, item);
        put_len(&mut self.title, self.top, head.len + 1);
    }

    /// Removes the last element and returns it.
    pub fn pop(&mut self) -> Option<T>
        ensures value { result ≡ slice_get self.old.items (length self.old.items - 1) }
        ensures block { self.new
            ≡ contents (take (length self.old.items - 1) self.old.items) self.old.capacity }
    {
        let len = self.len();
        if len == 0 {
            return None;
        }
        let base = fields(&self.title, self.top).base;
        put_len(&mut self.title, self.top, len - 1);
        Some(self.room.take_last(base, len - 1))
    }

    /// Inserts an element at `index`. The capacity must be enough.
    pub fn insert_within_capacity(&mut self, index: usize, item: T)
        requires in_bounds { index ≤ length self.old.items }
        requires room { length self.old.items < self.old.capacity }
        ensures { self.new ≡ contents (insert self.old.items index item) self.old.capacity }
    {
        let head = *fields(&self.title, self.top);
        let behind = head.len - index;
        let mut tail = self.room.split_off(index);
        tail.insert_first(head.base, index, behind, item);
        self.room.append(tail);
        put_len(&mut self.title, self.top, head.len + 1);
    }

    /// Removes the element at `index` and returns it.
    pub fn remove(&mut self, index: usize) -> T
        requires { index < length self.old.items }
        ensures value { slice_get self.old.items index ≡ Some result }
        ensures block { self.new ≡ contents (remove self.old.items index) self.old.capacity }
    {
        let head = *fields(&self.title, self.top);
        let mut tail = self.room.split_off(index);
        let item = tail.shift_first(head.base, index, head.len - index);
        self.room.append(tail);
        put_len(&mut self.title, self.top, head.len - 1);
        item
    }

    /// Drops the elements from `len` on, in order.
    pub fn truncate(&mut self, len: usize)
    where
        T: Drop,
        ensures { self.new ≡ contents (take len self.old.items) self.old.capacity }
    {
        let all = self.len();
        if all > len {
            let base = fields(&self.title, self.top).base;
            put_len(&mut self.title, self.top, len);
            let mut gone = self.room.split_off(len);
            gone.drop_all(base, len, all - len);
            self.room.widen(gone);
        }
    }
}

impl<T: Drop> Block<T> {
    /// Replaces the element at `index` by `value`. The old one is dropped.
    pub fn set(&mut self, index: usize, value: T)
        requires { index < length self.old.items }
        ensures { self.new ≡ contents (slice_set self.old.items index value) self.old.capacity }
    {
        self.as_mut_slice()[index] = value;
    }

    /// Calls `f` on each element in order, keeps those for which it answers `true`, as `f` left
    /// them, and drops the others.
    pub fn retain<F: FnMut(&mut T) -> bool>(&mut self, f: F)
        requires { F.IsAlwaysCallable f }
        ensures items { RetainsInTurn (CalledAtMut F.FnMut) f self.old.items self.new.items }
        ensures len { length self.new.items ≤ length self.old.items }
        ensures capacity { self.new.capacity ≡ self.old.capacity }
    {
        let count = keep_first(self.as_mut_slice(), f);
        self.truncate(count);
    }
}

/// Calls `f` on each item in order. Moves those for which it answers `true`, as `f` left them, to
/// the front, and returns how many these are. Nothing is taken out meanwhile, so nothing is lost
/// where `f` unwinds.
#[inline]
fn keep_first<T, F: FnMut(&mut T) -> bool>(items: &mut [T], mut f: F) -> usize
    requires { F.IsAlwaysCallable f }
    ensures kept { RetainsInTurn (CalledAtMut F.FnMut) f items.old (take result items.new) }
    ensures len { (result ≤ length items.old) × (length items.new ≡ length items.old) }
{
    let mut count = 0;
    let mut index = 0;
    while index < items.len() {
        if f(&mut items[index]) {
            if count < index {
                items.swap(count, index);
            }
            count += 1;
        }
        index += 1;
    }
    count
}
