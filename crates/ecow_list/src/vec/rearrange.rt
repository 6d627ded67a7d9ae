// rust: no file: in Rust, slices have these calls, and `make_mut` lends one
//! The calls that rearrange a vector's elements, as those of slices do.
ghost use Rattle.std.specs.Prelude.{◌≡◌, ◌<◌, ◌≤◌, length, take, OnOk, OnErr};
ghost use Rattle.std.specs.List.{dedup, swap};
ghost use Rattle.ecow_block.specs.Contents.{contents};
ghost use Rattle.ecow_list.specs.Refusals.{RefusesForMemory};
ghost use Rattle.ecow_list.specs.Sorts.{Sorts, SortsBy};
ghost use Rattle.ecow_list.specs.Vectors.{Changes, ChangesBy};

use crate::error::EcoError;
use crate::vec::EcoVec;
use crate::vec::own::{Clones, Least};
use ecow_block::Block;
use std::alloc::Global;
use std::cmp::Ordering;

impl<T: Clone> EcoVec<T> {
    /// Swaps the elements at `a` and at `b`, which are below the length. A shared vector copies its
    /// elements into a block of its own first.
    ///
    /// Takes constant time, or time linear in the length if the vector is shared.
    ///
    /// This project's own, named as that of slices.
    ///
    /// # Errors
    ///
    /// `Memory` if there is no memory for the copy of a shared vector, or the clone of an element
    /// is refused. The vector is unchanged.
    pub fn swap(&mut self, a: usize, b: usize) -> Result<(), EcoError>
        requires a_in_bounds { a < length self.old }
        requires b_in_bounds { b < length self.old }
        ensures change { Changes T.is_clone self.old (λ xs. swap xs a b) result self.new }
        ensures len { OnOk result (length self.new ≡ length self.old) }
        ensures refused { RefusesForMemory self.old result self.new }
    {
        Ok(self.edit(
            Clones,
            Least::Fresh,
            0,
            (),
            |block, ()| Ok(swap_in(block, a, b)),
        )?)
    }

    /// Sorts the elements. Equal ones keep their order. A shared vector copies its elements into a
    /// block of its own first.
    ///
    /// Takes time linear in the length times its logarithm. More than 20 elements take as much
    /// memory again while they are sorted, unless they are in order already or fall throughout.
    ///
    /// This project's own, named as that of slices.
    ///
    /// # Errors
    ///
    /// `Memory` if there is no memory for the copy of a shared vector or for the sort, or the clone
    /// of an element is refused. The vector is unchanged.
    pub fn sort(&mut self) -> Result<(), EcoError>
    where
        T: Ord,
        ensures change { ChangesBy T.is_clone self.old
            (λ xs _ ys. Sorts T.cmp xs ys)
            result self.new }
        ensures len { OnOk result (length self.new ≡ length self.old) }
        ensures refused { RefusesForMemory self.old result self.new }
    {
        let alloc = self.allocator();
        Ok(self.edit(Clones, Least::Fresh, 0, (), |block, ()| {
            sort_in(block, alloc)
        })?)
    }

    /// Sorts the elements by `compare`. Those that it calls equal keep their order. A shared vector
    /// copies its elements into a block of its own first.
    ///
    /// Takes time linear in the length times its logarithm. More than 20 elements take as much
    /// memory again while they are sorted, unless they are in order already or fall throughout.
    ///
    /// This project's own, named as that of slices.
    ///
    /// # Errors
    ///
    /// `Memory` if there is no memory for the copy of a shared vector or for the sort, or the clone
    /// of an element is refused. The vector is unchanged.
    pub fn sort_by<F: FnMut(&T, &T) -> Ordering>(&mut self, compare: F) -> Result<(), EcoError>
        requires { F.IsAlwaysCallable compare }
        ensures change { ChangesBy T.is_clone self.old
            (λ xs _ ys. SortsBy F.FnMut compare xs ys)
            result self.new }
        ensures len { OnOk result (length self.new ≡ length self.old) }
        ensures refused { RefusesForMemory self.old result self.new }
    {
        let alloc = self.allocator();
        Ok(self.edit(Clones, Least::Fresh, 0, (), |block, ()| {
            sort_in_by(block, alloc, compare)
        })?)
    }

    /// Removes each element that equals the last one kept before it, so that of equal neighbours the
    /// first stays. If the vector is sorted, no two elements are equal afterwards. A shared vector
    /// copies its elements into a block of its own first, or gives its block up if it has none.
    ///
    /// Takes time linear in the length.
    ///
    /// This project's own, named as that of std's `Vec`.
    ///
    /// # Errors
    ///
    /// `Memory` if there is no memory for the copy of a shared vector, or the clone of an element
    /// is refused. The vector is unchanged.
    pub fn dedup(&mut self) -> Result<(), EcoError>
    where
        T: PartialEq,
        ensures change { Changes T.is_clone self.old (λ xs. dedup T.eq xs) result self.new }
        ensures len { OnOk result (length self.new ≤ length self.old) }
        ensures refused { RefusesForMemory self.old result self.new }
    {
        Ok(self.edit(Clones, Least::Fresh, 0, (), |block, ()| Ok(dedup_in(block)))?)
    }
}

/// Swaps two elements of a block.
fn swap_in<T>(block: &mut Block<T>, a: usize, b: usize)
    requires { (a < length block.old.items) × (b < length block.old.items) }
    ensures { block.new ≡ contents (swap block.old.items a b) block.old.capacity }
{
    block.as_mut_slice().swap(a, b);
}

/// Sorts the elements of a block. They stay in their places if there is no memory for that.
fn sort_in<T: Ord>(block: &mut Block<T>, alloc: Global) -> Result<(), ()>
    ensures sorts { OnOk result (Sorts T.cmp block.old.items block.new.items) }
    ensures len { length block.new.items ≡ length block.old.items }
    ensures unchanged { OnErr result (block.new ≡ block.old) }
{
    block.as_mut_slice().sort(alloc).map_err(|_| ())
}

/// Sorts the elements of a block by `compare`. They stay in their places if there is no memory for
/// that.
fn sort_in_by<T, F: FnMut(&T, &T) -> Ordering>(
    block: &mut Block<T>,
    alloc: Global,
    compare: F,
) -> Result<(), ()>
    requires { F.IsAlwaysCallable compare }
    ensures sorts { OnOk result (SortsBy F.FnMut compare block.old.items block.new.items) }
    ensures len { length block.new.items ≡ length block.old.items }
    ensures unchanged { OnErr result (block.new ≡ block.old) }
{
    block.as_mut_slice().sort_by(alloc, compare).map_err(|_| ())
}

/// Removes each element of a block that equals the last one kept before it.
fn dedup_in<T: PartialEq + Drop>(block: &mut Block<T>)
    ensures items { block.new ≡ contents (dedup T.eq block.old.items) block.old.capacity }
    ensures len { length block.new.items ≤ length block.old.items }
{
    let count = dedup_in_front(block.as_mut_slice());
    block.truncate(count);
}

/// Moves each item that differs from the last one kept to the front, and returns how many these
/// are.
fn dedup_in_front<T: PartialEq>(items: &mut [T]) -> usize
    ensures kept { take result items.new ≡ dedup T.eq items.old }
    ensures len { (result ≤ length items.old) × (length items.new ≡ length items.old) }
{
    if items.is_empty() {
        return 0;
    }
    let mut count = 1;
    for index in 1..items.len() {
        if items[index] != items[count - 1] {
            items.swap(count, index);
            count += 1;
        }
    }
    count
}
