//! Inserting several elements at once, also in place of others.
ghost use Rattle.std.specs.Prelude.{◌≡◌, ◌+◌, ◌*◌, ◌-◌, ◌^◌, ◌<◌, ◌≤◌, ◌↔◌, length, OnOk, OnErr, IsErrOf, IsSome, IsTrue};
ghost use Rattle.std.specs.List.{copy_within, insert_slice, replace_range};
ghost use Rattle.std.specs.Mem.{type_size};
ghost use Rattle.ecow_base.specs.Range.{range_of};
ghost use Rattle.ecow_block.specs.Contents.{contents};
ghost use Rattle.ecow_list.specs.Ranges.{AtRange};
ghost use Rattle.ecow_list.specs.Refusals.{RefusesPast};

use crate::error::EcoError;
use crate::vec::EcoVec;
use crate::vec::own::{Copies, Least};
use ecow_base::{MAX_LEN, resolve};
use ecow_block::Block;
use std::mem::size_of_val;
use std::ops::RangeBounds;

impl<T: Clone + Copy> EcoVec<T> {
    /// Inserts copies of `elements` at `index`, before the element that stands there, in moves of
    /// whole pieces. `index` is at most the length.
    ///
    /// A shared vector copies its own elements into a block of its own first, also if `elements` is
    /// empty, and one that is too full gets a larger block.
    ///
    /// Copies the new elements once, and moves those behind `index`. If the vector is shared, all
    /// its elements are copied too.
    ///
    /// This project's own: the original has it for bytes alone.
    ///
    /// # Errors
    ///
    /// `Capacity` if the new length would pass 2^63 - 1; `Memory` if there is no memory for the
    /// block. The vector is unchanged.
    #[inline(never)]
    pub fn insert_slice(&mut self, index: usize, elements: &[T]) -> Result<(), EcoError>
        requires { index ≤ length self.old }
        ensures ok { OnOk result (self.new ≡ insert_slice self.old index elements.now) }
        ensures len { OnOk result (length self.new ≡ length self.old + length elements.now) }
        ensures refused { RefusesPast (length self.old + length elements.now)
            self.old result self.new }
    {
        let added = elements.len();
        Ok(self.edit(Copies, Least::Same, added, (), |block, ()| {
            Ok(insert_copies(block, index, elements))
        })?)
    }

    /// Replaces the elements of `range` with copies of `elements`, in moves of whole pieces: the
    /// elements before the range stay in place. `range_in` tests whether the vector has a range.
    ///
    /// A shared vector copies its own elements into a block of its own first, also if nothing
    /// changes, and one that is too full gets a larger block.
    ///
    /// Copies the new elements, and moves those behind the range. If the vector is shared, all its
    /// elements are copied too.
    ///
    /// This project's own, named as that of std's `String`.
    ///
    /// # Errors
    ///
    /// `Capacity` if the new length would pass 2^63 - 1; `Memory` if there is no memory for the
    /// block. The vector is unchanged.
    #[inline(never)]
    pub fn replace_range<R: RangeBounds<usize>>(
        &mut self,
        range: R,
        elements: &[T],
    ) -> Result<(), EcoError>
        requires known { R.has_bounds range }
        requires in_range { IsSome
            (range_of (R.start_bound range, R.end_bound range) (length self.old)) }
        ensures ok { OnOk result
            (AtRange (R.start_bound range, R.end_bound range) (length self.old)
            (λ start end. self.new ≡ replace_range self.old start end elements.now)) }
        ensures len { OnOk result
            (AtRange (R.start_bound range, R.end_bound range) (length self.old)
            (λ start end. length self.new
            ≡ length self.old - (end - start) + length elements.now)) }

        // A refusal leaves the vector, and is for capacity exactly past the limit.
        ensures unchanged { OnErr result (self.new ≡ self.old) }
        ensures capacity { AtRange (R.start_bound range, R.end_bound range) (length self.old)
            (λ start end. IsErrOf result EcoError.Capacity
            ↔ (MAX_LEN < length self.old - (end - start) + length elements.now)) }
    {
        let (start, end) = resolve(&range, self.len()).unwrap();
        let more = elements.len().saturating_sub(end - start);
        Ok(self.edit(Copies, Least::Same, more, (), |block, ()| {
            Ok(replace_copies(block, start, end, elements))
        })?)
    }
}

/// Inserts copies of `elements`, for which the block has capacity, at `index`.
fn insert_copies<T: Copy>(block: &mut Block<T>, index: usize, elements: &[T])
    requires in_bounds { index ≤ length block.old.items }
    requires room { length block.old.items + length elements.now ≤ block.old.capacity }
    ensures block { block.new
        ≡ contents (insert_slice block.old.items index elements.now) block.old.capacity }
{
    let (len, added) = (block.len(), elements.len());
    block.extend_copies(elements);
    let all = block.as_mut_slice();
    copy_within(all, index, len, index + added);
    all[index..index + added].copy_from_slice(elements);
}

/// Replaces the elements from `start` up to `end` with copies of `elements`, for which the block
/// has capacity.
fn replace_copies<T: Copy>(block: &mut Block<T>, start: usize, end: usize, elements: &[T])
    requires ordered { start ≤ end }
    requires in_bounds { end ≤ length block.old.items }
    requires room { length block.old.items + (length elements.now - (end - start))
        ≤ block.old.capacity }
    ensures block { block.new
        ≡ contents (replace_range block.old.items start end elements.now) block.old.capacity }
{
    let (len, added) = (block.len(), elements.len());
    let more = added.saturating_sub(end - start);
    // Adds the places that the moves below fill.
    block.extend_copies(&elements[..more]);
    let all = block.as_mut_slice();
    copy_within(all, end, len, start + added);
    all[start..start + added].copy_from_slice(elements);
    block.truncate(len - (end - start) + added);
}

/// Whether there are elements, and each is a byte.
fn are_bytes<T>(elements: &[T]) -> bool
    ensures { IsTrue result → type_size T.row ≤ 1 }
{
    match elements.first() {
        Some(first) => size_of_val(first) == 1,
        None => false,
    }
}

/// Copies the elements from `start` up to `end` over those from `to` on. For 8 to 64 bytes, this
/// takes two reads and two writes. A loop would write them one by one, and the next call would wait
/// for them.
fn copy_within<T: Copy>(all: &mut [T], start: usize, end: usize, to: usize)
    requires in_order { start ≤ end }
    requires in_bounds { end ≤ length all.old }
    requires room { to + (end - start) ≤ length all.old }
    ensures { all.new ≡ copy_within all.old start end to }
{
    if !are_bytes(all) {
        return all.copy_within(start..end, to);
    }
    match end - start {
        ..=16 => copy_pieces::<T, 8>(all, start, end, to),
        ..=32 => copy_pieces::<T, 16>(all, start, end, to),
        ..=64 => copy_pieces::<T, 32>(all, start, end, to),
        _ => all.copy_within(start..end, to),
    }
}

/// Copies the first `K` elements and the last `K`, which together are all of them and may overlap.
/// Fewer than `K` are left to the slice's `copy_within`.
fn copy_pieces<T: Copy, const K: usize>(all: &mut [T], start: usize, end: usize, to: usize)
    requires small { K * type_size T.row < 2 ^ 63 }

    // Where the elements stand, and where they go.
    requires in_order { start ≤ end }
    requires in_bounds { end ≤ length all.old }
    requires room { to + (end - start) ≤ length all.old }
    requires covered { end - start ≤ K + K }
    ensures { all.new ≡ copy_within all.old start end to }
{
    let moved = &all[start..end];
    let (Some(first), Some(last)) = (moved.first_chunk::<K>(), moved.last_chunk::<K>()) else {
        return all.copy_within(start..end, to);
    };
    let (first, last) = (*first, *last);
    let behind = to + (end - start);
    all[to..to + K].copy_from_slice(&first);
    all[behind - K..behind].copy_from_slice(&last);
}
