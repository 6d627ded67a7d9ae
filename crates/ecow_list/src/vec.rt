//! `EcoVec`: a vector whose clones share its elements until one of them is written to.
//!
//! A call that takes memory may be refused with an `EcoError`: `Capacity` if the length or the
//! capacity would pass 2^63 - 1 elements, and else `Memory`. The vector is then as it was.
ghost use Rattle.std.specs.Prelude.{◌≡◌, ◌+◌, ◌-◌, ◌<◌, ◌≤◌, ◌==◌, ◌↔◌, [], length, take, IfOk, IfSome, IsErrOf, IsOk};
ghost use Rattle.std.specs.Borrow.{sem};
ghost use Rattle.std.specs.List.{AllZip};
ghost use Rattle.std.specs.Slice.Iter.{iter_rest};
ghost use Rattle.std.specs.Iterator.Adapters.{IterYieldsInOrder};
ghost use Rattle.ecow_base.specs.Clones.{ClonesAreEqual};

mod collect;
mod conversions;
mod copies;
mod edits;
mod fills;
mod insert_slice;
mod make_mut;
mod own;
mod push;
mod ranges;
mod rearrange;
mod split;

use crate::error::EcoError;
pub use crate::iter::{Drain, IntoIter, Splice};
use ecow_base::MAX_LEN;
use ecow_block::Block;
use ecow_shared::Shared;
use std::alloc::{AllocError, Global};
use std::marker::Model;
use std::slice;

/// A vector whose clones share its elements until one of them is written to.
///
/// A clone takes no memory and clones no element. Before a write, a vector that shares its block
/// copies its elements into a block of its own, so no other vector sees the change. That copy
/// clones each element, and takes time linear in the length.
///
/// ```
/// let mut first = EcoVec::from_array(alloc, [1, 2, 3])?;
/// let second = first.clone()?;
/// first.push(4)?;
/// assert_eq!(first.as_slice(), &[1, 2, 3, 4]);
/// assert_eq!(second.as_slice(), &[1, 2, 3]);
/// ```
#[derive(Drop)]
pub struct EcoVec<T> {
    /// The block of the elements, which has no places if the vector has no capacity.
    block: Shared<T>,
    /// The allocator for further blocks.
    alloc: Global,
}

impl<T> Model for EcoVec<T> {
    ghost use Rattle.std.specs.Prelude.{List};

    ghost Value = { List T };

    ghost view = { λ v. v.block.items };
}

impl<T> EcoVec<T> {
    ghost use Rattle.ecow_list.specs.Lends.{lends_block};

    /// An empty vector, which has no block. Takes no memory.
    // rust: const
    pub fn new(alloc: Global) -> Self
        ensures { result ≡ [] }
    {
        EcoVec {
            block: Shared::none(alloc),
            alloc,
        }
    }

    /// The allocator that the vector takes its memory from.
    pub fn allocator(&self) -> Global {
        self.alloc
    }

    /// The elements, in order.
    pub fn as_slice(&self) -> &[T]
        ensures { result.now ≡ self.now }
    {
        match self.block.get() {
            Some(shared) => shared.as_slice(),
            None => &[],
        }
    }

    /// The number of elements.
    pub fn len(&self) -> usize
        ensures len { result ≡ length self.now }
        ensures bounded { result ≤ MAX_LEN }
    {
        match self.block.get() {
            Some(shared) => shared.len(),
            None => 0,
        }
    }

    /// Whether there is no element.
    pub fn is_empty(&self) -> bool
        ensures { result ≡ (length self.now == 0) }
    {
        self.len() == 0
    }

    /// The number of elements that the block can hold, which is at least the length. It is 0
    /// without a block.
    pub fn capacity(&self) -> usize
        ensures room { length self.now ≤ result }
        ensures bounded { result ≤ MAX_LEN }
    {
        match self.block.get() {
            Some(shared) => {
                // For the proof alone: the length is bounded.
                let _len = shared.len();
                shared.capacity()
            }
            None => 0,
        }
    }

    /// Goes over the elements by reference, in order.
    pub fn iter(&self) -> slice::Iter<'_, T>
        ensures rest { iter_rest result ≡ self.now }
        ensures runs { IterYieldsInOrder T }
    {
        self.as_slice().iter()
    }

    /// Whether no other vector shares the block. This is also true of a vector without a block.
    pub fn is_unique(&mut self) -> bool
        ensures { self.new ≡ self.old }
    {
        if self.block.get().is_none() {
            return true;
        }
        match self.sole_block() {
            Some(_) => true,
            None => false,
        }
    }

    /// The block, if there is one and no other vector shares it.
    fn sole_block(&mut self) -> Option<&mut Block<T>>
        ensures* writes_back { sem 𝓛 (lends_block T.row self.entry result) }
        ensures items { IfSome result (λ b. b.now.items ≡ self.old) }
    {
        self.block.get_mut()
    }
}

impl<T: Drop> EcoVec<T> {
    /// Makes an empty vector and allocates a block for `capacity` elements, or no block if
    /// `capacity` is 0. No capacity is promised; `own_with_room` promises it.
    ///
    /// # Errors
    ///
    /// `Capacity` if `capacity` passes 2^63 - 1; `Memory` if there is no memory for the block. The
    /// call is never refused if `capacity` is 0.
    pub fn with_capacity(alloc: Global, capacity: usize) -> Result<Self, EcoError>
        ensures ok { IfOk result (λ v. v ≡ []) }
        ensures capacity { IsErrOf result EcoError.Capacity ↔ (MAX_LEN < capacity) }
        ensures nothing { capacity ≡ 0 → IsOk result }
    {
        if capacity > MAX_LEN {
            return Err(EcoError::Capacity);
        }
        if capacity == 0 {
            return Ok(EcoVec::new(alloc));
        }
        let block = Block::with_capacity(alloc, capacity)?;
        Ok(EcoVec {
            block: Shared::new(block),
            alloc,
        })
    }

    /// Drops all elements. This is never refused.
    ///
    /// A shared vector gives its block up without copying anything. A vector that doesn't share its
    /// block keeps it. An empty vector stays as it is, shared or not.
    ///
    /// Takes time linear in the length, or constant time if the vector is shared.
    pub fn clear(&mut self)
        ensures { self.new ≡ [] }
    {
        if self.is_empty() {
            return;
        }
        match self.sole_block() {
            Some(block) => block.truncate(0),
            None => self.block = Shared::none(self.alloc),
        }
    }
}

/// Shares the block with a new vector. Takes constant time and no memory, and clones no element.
///
/// The call is refused only if the block has as many owners as its count can hold.
impl<T: Drop> Clone for EcoVec<T> {
    ghost is_clone = { λ v w. w ≡ v };

    fn clone(&self) -> Result<Self, AllocError> {
        Ok(EcoVec {
            block: self.block.clone()?,
            alloc: self.alloc,
        })
    }
}
