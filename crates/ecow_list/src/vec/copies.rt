//! Calls that copy elements of a slice as memory, all in one move, where other calls clone each. So
//! no clone is refused, and the result has exactly these elements.
ghost use Rattle.std.specs.Prelude.{◌≡◌, ◌+◌, ◌-◌, ◌<◌, ◌≤◌, ◌↔◌, [], ◌++◌, length, slice_range, IsOk, IfOk, OnOk, OnErr, IsErrOf, IsSome};
ghost use Rattle.ecow_base.specs.Range.{range_of};
ghost use Rattle.ecow_list.specs.Ranges.{AtRange};
ghost use Rattle.ecow_list.specs.Refusals.{RefusesPast};

use crate::error::EcoError;
use crate::vec::EcoVec;
use crate::vec::own::{Copies, Least};
use ecow_base::{MAX_LEN, fresh_capacity, resolve};
use ecow_block::Block;
use ecow_shared::Shared;
use std::alloc::Global;
use std::ops::RangeBounds;

impl<T: Clone + Copy> EcoVec<T> {
    /// Makes a vector of copies of the elements of a slice, in one move of memory. It has no block
    /// if there are none.
    ///
    /// Takes time linear in the number of elements, and one allocation.
    ///
    /// This project's own: the original's `from_slice` copies in this way if the type allows it.
    ///
    /// # Errors
    ///
    /// `Capacity` if there are more than 2^63 - 1 elements; `Memory` if there is no memory for the
    /// block. The call is never refused if there are no elements.
    #[inline]
    pub fn from_copied(alloc: Global, elements: &[T]) -> Result<Self, EcoError>
        ensures ok { IfOk result (λ v. v ≡ elements.now) }
        ensures capacity { IsErrOf result EcoError.Capacity ↔ (MAX_LEN < length elements.now) }
        ensures nothing { elements.now ≡ [] → IsOk result }
    {
        let len = elements.len();
        if len > MAX_LEN {
            return Err(EcoError::Capacity);
        }
        if len == 0 {
            return Ok(EcoVec::new(alloc));
        }
        let block = Block::from_copies(alloc, elements, fresh_capacity(len))?;
        Ok(EcoVec {
            block: Shared::new(block),
            alloc,
        })
    }

    /// Appends copies of `elements`, in one move of memory.
    ///
    /// A vector that is shared copies its own elements into a block of its own first, and one that
    /// is too full gets a larger block. If `elements` is empty, nothing changes, and a shared
    /// vector stays shared.
    ///
    /// Takes time linear in the number of new elements, on average. If the vector is shared, its
    /// own elements are copied too.
    ///
    /// This project's own: the original's `extend_from_slice` copies in this way if the type allows
    /// it.
    ///
    /// # Errors
    ///
    /// `Capacity` if the new length would pass 2^63 - 1; `Memory` if there is no memory for the
    /// block. The vector is unchanged: no element is appended. The call is never refused if
    /// `elements` is empty.
    #[inline]
    pub fn extend_from_copied(&mut self, elements: &[T]) -> Result<(), EcoError>
        ensures ok { OnOk result (self.new ≡ self.old ++ elements.now) }
        ensures refused { RefusesPast (length self.old + length elements.now)
            self.old result self.new }

        // For no elements nothing changes, sharing included.
        ensures nothing { elements.now ≡ [] → IsOk result × (self.new ≡ self.old) }
    {
        // The vector's length stands here for the proof alone: it is bounded.
        let (_len, added) = (self.len(), elements.len());
        if added == 0 {
            return Ok(());
        }
        Ok(self.edit(Copies, Least::Same, added, (), |block, ()| {
            Ok(block.extend_copies(elements))
        })?)
    }

    /// Appends copies of the elements of `range`, in one move of memory. `range_in` tests whether
    /// the vector has a range.
    ///
    /// A vector that is shared copies its elements into a block of its own first, and one that is
    /// too full gets a larger block. If the range is empty, nothing changes, and a shared vector
    /// stays shared.
    ///
    /// Takes time linear in the number of new elements, on average. If the vector is shared, all
    /// elements are copied too.
    ///
    /// This project's own: the original has no such call, but std's vector has.
    ///
    /// # Errors
    ///
    /// `Capacity` if the new length would pass 2^63 - 1; `Memory` if there is no memory for the
    /// block. The vector is unchanged. The call is never refused if the range is empty.
    pub fn extend_from_within<R: RangeBounds<usize>>(&mut self, range: R) -> Result<(), EcoError>
        requires known { R.has_bounds range }
        requires in_range { IsSome
            (range_of (R.start_bound range, R.end_bound range) (length self.old)) }
        ensures ok { OnOk result
            (AtRange (R.start_bound range, R.end_bound range) (length self.old)
            (λ start end. self.new ≡ self.old ++ slice_range self.old start end)) }

        // A refusal leaves the vector, and is for capacity exactly past the limit.
        ensures unchanged { OnErr result (self.new ≡ self.old) }
        ensures capacity { AtRange (R.start_bound range, R.end_bound range) (length self.old)
            (λ start end.
            IsErrOf result EcoError.Capacity ↔ (MAX_LEN < length self.old + (end - start))) }

        // For an empty range nothing changes, sharing included.
        ensures nothing { AtRange (R.start_bound range, R.end_bound range) (length self.old)
            (λ start end. start ≡ end → IsOk result × (self.new ≡ self.old)) }
    {
        let (start, end) = resolve(&range, self.len()).unwrap();
        if start == end {
            return Ok(());
        }
        Ok(self.edit(Copies, Least::Same, end - start, (), |block, ()| {
            Ok(block.extend_from_within(start, end))
        })?)
    }
}
