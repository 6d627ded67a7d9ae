//! The calls on a range of elements.
ghost use Rattle.std.specs.Prelude.{◌≡◌, ◌+◌, ◌-◌, ◌<◌, ◌≤◌, ◌↔◌, length, IfOk, OnErr, IsErrOf, IsSome, slice_range, List};
ghost use Rattle.std.specs.List.{remove_range, splice};
ghost use Rattle.std.specs.Iterator.{IsFiniteIterable};
ghost use Rattle.ecow_base.specs.Range.{range_of};
ghost use Rattle.ecow_list.specs.Ranges.{AtRange};
ghost use Rattle.ecow_list.specs.Refusals.{RefusesForMemory};
ghost use Rattle.ecow_list.specs.Vectors.{ChangesBy, GivesItems, SomeFirst};

use crate::error::EcoError;
use crate::iter::{Drain, Splice};
use crate::vec::EcoVec;
use crate::vec::collect::collect;
use crate::vec::own::{Clones, Least};
use ecow_base::{MAX_LEN, resolve};
use ecow_block::{Block, Rest};
use std::ops::RangeBounds;

impl<T: Clone> EcoVec<T> {
    /// Removes the elements of `range` and returns them as an iterator. They are gone from the
    /// vector when the call returns, whether or not the iterator is used.
    ///
    /// `range_in` tests whether the vector has a range.
    ///
    /// A shared vector copies its elements into a block of its own first, also if nothing is
    /// removed. If it has no element, it gives its block up.
    ///
    /// Moves the removed elements into a block for the iterator, and those behind them forward. If
    /// the vector is shared, all elements are cloned first.
    ///
    /// # Errors
    ///
    /// `Memory` if there is no memory for the removed elements or for the copy of a shared vector,
    /// or the clone of an element is refused. The vector is unchanged.
    pub fn drain<R: RangeBounds<usize>>(&mut self, range: R) -> Result<Drain<T>, EcoError>
        requires known { R.has_bounds range }
        requires in_range { IsSome
            (range_of (R.start_bound range, R.end_bound range) (length self.old)) }
        ensures change { ChangesBy T.is_clone self.old
            (λ xs removed ys.
            AtRange (R.start_bound range, R.end_bound range) (length self.old)
            (λ start end.
            (removed ≡ slice_range xs start end) × (ys ≡ remove_range xs start end)))
            result self.new }
        ensures len { IfOk result
            (λ removed.
            AtRange (R.start_bound range, R.end_bound range) (length self.old)
            (λ start end.
            (length removed ≡ end - start)
            × (length self.new + (end - start) ≡ length self.old))) }
        ensures refused { RefusesForMemory self.old result self.new }
    {
        let (start, end) = resolve(&range, self.len()).unwrap();
        let removed = Block::with_capacity(self.alloc, end - start)?;
        Ok(Drain::new(self.exchange(start, end, removed)?))
    }

    /// Replaces the elements of `range` with the items of `replace_with`, and returns the old ones
    /// as an iterator. The vector has its new elements when the call returns.
    ///
    /// `range_in` tests whether the vector has a range.
    ///
    /// All items are collected first, and the size hint isn't asked. A shared vector then copies
    /// its elements into a block of its own, also if nothing changes. The capacity of that block is
    /// that of a new block, or at least twice as much if the items need more. A shared empty vector
    /// that gets no item gives its block up.
    ///
    /// Takes time linear in the number of items, of old elements, and of elements behind them. If
    /// the vector is shared, all its elements are cloned too.
    ///
    /// # Errors
    ///
    /// `Capacity` at the item with which the new length would pass 2^63 - 1; `Memory` if there is
    /// no memory for the items, the removed elements or the block, or the clone of an element is
    /// refused. The vector is unchanged. The items so far are dropped, and no further one is asked
    /// for.
    pub fn splice<R: RangeBounds<usize>, I: IntoIterator<Item = T>>(
        &mut self,
        range: R,
        replace_with: I,
    ) -> Result<Splice<T>, EcoError>
        requires known { R.has_bounds range }
        requires in_range { IsSome
            (range_of (R.start_bound range, R.end_bound range) (length self.old)) }
        requires ends { IsFiniteIterable
            I.into_iter_gives I.IntoIter.can_next I.IntoIter.remaining replace_with }
        ensures change { ChangesBy T.is_clone self.old
            (λ xs removed ys.
            (items : List T)
            × GivesItems I.into_iter_gives I.IntoIter.next_gives replace_with items
            × AtRange (R.start_bound range, R.end_bound range) (length self.old)
            (λ start end.
            (removed ≡ slice_range xs start end) × (ys ≡ splice xs start end items)))
            result self.new }
        ensures len { IfOk result
            (λ removed.
            (items : List T)
            × GivesItems I.into_iter_gives I.IntoIter.next_gives replace_with items
            × AtRange (R.start_bound range, R.end_bound range) (length self.old)
            (λ start end.
            (length removed ≡ end - start)
            × (length self.new + (end - start) ≡ length self.old + length items))) }

        // A refusal leaves the vector, and is for capacity at the item past the limit.
        ensures unchanged { OnErr result (self.new ≡ self.old) }
        ensures refused { OnErr result
            (SomeFirst I.into_iter_gives I.IntoIter.next_gives replace_with
            (λ items.
            AtRange (R.start_bound range, R.end_bound range) (length self.old)
            (λ start end.
            (length self.old - (end - start) + length items ≤ MAX_LEN + 1)
            × (IsErrOf result EcoError.Capacity
            ↔ (length self.old - (end - start) + length items ≡ MAX_LEN + 1))))) }
    {
        let (start, end) = resolve(&range, self.len()).unwrap();
        let most = MAX_LEN - (self.len() - (end - start));
        let mut items = replace_with.into_iter();
        let replacement = collect(self.alloc, end - start, 16, most, &mut items)?;
        Ok(Splice::new(self.exchange(start, end, replacement)?))
    }

    /// Replaces the elements from `start` up to `end` with those of `replacement`, and returns the
    /// old ones in the memory of `replacement`, whose capacity suffices for them.
    fn exchange(
        &mut self,
        start: usize,
        end: usize,
        replacement: Block<T>,
    ) -> Result<Rest<T>, EcoError>
        requires ordered { start ≤ end }
        requires in_bounds { end ≤ length self.old }
        requires fits { length self.old - (end - start) + length replacement.items ≤ MAX_LEN }
        requires spare { end - start ≤ replacement.capacity }

        // What is taken out, and what the vector has then.
        ensures change { ChangesBy T.is_clone self.old
            (λ xs removed ys.
            (removed ≡ slice_range xs start end)
            × (ys ≡ splice xs start end replacement.items))
            result self.new }
        ensures len { IfOk result
            (λ removed.
            (length removed ≡ end - start)
            × (length self.new + (end - start) ≡ length self.old + length replacement.items)) }
        ensures refused { RefusesForMemory self.old result self.new }
    {
        let more = replacement.len().saturating_sub(end - start);
        Ok(self.edit(Clones, Least::Fresh, more, (), |block, ()| {
            Ok(block.splice_within_capacity(start, end, replacement))
        })?)
    }
}
