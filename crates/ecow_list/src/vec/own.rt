//! Edits of a block that no other vector shares. A vector that is the sole owner of its block
//! enlarges it if it is too small, and edits it. The elements of a shared block are copied into a
//! new block; that is edited, and takes the place of the old one last. So a refusal leaves all
//! elements as they were.
ghost use Rattle.std.specs.Prelude.{◌≡◌, ◌+◌, ◌<◌, ◌≤◌, ◌↔◌, length, IfOk, OnOk, IsOk, IsErrOf};
ghost use Rattle.std.specs.List.{AllZip};
ghost use Rattle.ecow_list.specs.Edits.{Edited, Edits, RefusesClean};

use crate::error::{EcoError, Rejected};
use crate::vec::EcoVec;
use ecow_base::{MAX_LEN, fresh_capacity, room_for};
use ecow_block::Block;
use ecow_shared::Shared;
use std::alloc::{AllocError, Global};

/// A way to copy the elements of a shared block.
pub(super) trait Copying<T>: Drop {
    ghost makes: { T → T → Type 0 };

    /// Makes a block of this capacity that holds copies of `elements`.
    fn block(self, alloc: Global, elements: &[T], capacity: usize) -> Result<Block<T>, AllocError>
        requires room { length elements.now ≤ capacity }
        requires bounded { capacity ≤ MAX_LEN }
        ensures copies { IfOk result (λ block. AllZip makes elements.now block.items) }
        ensures len { IfOk result (λ block. length block.items ≡ length elements.now) }
        ensures capacity { IfOk result (λ block. block.capacity ≡ capacity) };
}

/// Clones each element.
#[derive(Drop)]
pub(super) struct Clones;

/// Copies all elements as memory, in one move.
#[derive(Drop)]
pub(super) struct Copies;

impl<T: Clone> Copying<T> for Clones {
    ghost makes = { T.is_clone };

    fn block(self, alloc: Global, elements: &[T], capacity: usize) -> Result<Block<T>, AllocError> {
        Block::from_clones(alloc, elements, capacity)
    }
}

impl<T: Copy> Copying<T> for Copies {
    ghost makes = { λ x y. y ≡ x };

    fn block(self, alloc: Global, elements: &[T], capacity: usize) -> Result<Block<T>, AllocError> {
        Block::from_copies(alloc, elements, capacity)
    }
}

/// The least capacity of a copy of a shared block.
#[derive(Clone, Copy)]
pub(super) enum Least {
    /// The capacity of a new block for its elements.
    Fresh,
    /// The capacity of the shared block.
    Same,
}

impl<T: Drop> EcoVec<T> {
    /// Calls `edit` with `given` and a block that no other vector shares. The block holds the
    /// elements and has capacity for `additional` more. A refusal changes nothing and hands `given`
    /// back, with `Capacity` if the length and `additional` together pass 2^63 - 1, and else with
    /// `Memory`.
    #[inline]
    pub(super) fn edit<C: Copying<T>, A, R, F: FnOnce(&mut Block<T>, A) -> Result<R, A>>(
        &mut self,
        by: C,
        least: Least,
        additional: usize,
        given: A,
        edit: F,
    ) -> Result<R, Rejected<A>>
        requires callable { Edits F.FnOnce edit given C.makes self.old additional }
        requires clean { RefusesClean F.FnOnce edit given }
        ensures edited { Edited F.FnOnce edit given C.makes self.old additional result self.new }
    {
        if let Some(block) = self.sole_block() {
            if additional > block.capacity() - block.len()
                && let Err(error) = enlarge(block, additional)
            {
                return Err(Rejected {
                    error,
                    value: given,
                });
            }
            return edit(block, given).map_err(Rejected::for_memory);
        }
        self.edit_anew(by, least, additional, given, edit)
    }

    /// Copies a shared block, or makes one if there is none, and then edits it.
    #[cold]
    #[inline(never)]
    fn edit_anew<C: Copying<T>, A, R, F: FnOnce(&mut Block<T>, A) -> Result<R, A>>(
        &mut self,
        by: C,
        least: Least,
        additional: usize,
        given: A,
        edit: F,
    ) -> Result<R, Rejected<A>>
        requires callable { Edits F.FnOnce edit given C.makes self.old additional }
        requires clean { RefusesClean F.FnOnce edit given }
        ensures edited { Edited F.FnOnce edit given C.makes self.old additional result self.new }
    {
        let len = self.len();
        if additional > MAX_LEN - len {
            return Err(Rejected::for_capacity(given));
        }
        let least = match least {
            Least::Fresh => fresh_capacity(len),
            Least::Same => self.capacity(),
        };
        let capacity = room_for(len, additional, least);
        if let Ok(mut fresh) = self.copy(by, self.as_slice(), capacity) {
            let answer = edit(&mut fresh, given).map_err(Rejected::for_memory)?;
            self.block = Shared::new(fresh);
            return Ok(answer);
        }
        Err(Rejected::for_memory(given))
    }

    /// Makes a block of this capacity that holds copies of `elements`. It takes no memory and is
    /// never refused if `capacity` is 0.
    #[inline(never)]
    pub(super) fn copy<C: Copying<T>>(
        &self,
        by: C,
        elements: &[T],
        capacity: usize,
    ) -> Result<Block<T>, AllocError>
        requires room { length elements.now ≤ capacity }
        requires bounded { capacity ≤ MAX_LEN }

        // The copies, and the capacity that is asked for. A capacity of 0 takes no memory.
        ensures copies { IfOk result (λ block. AllZip C.makes elements.now block.items) }
        ensures len { IfOk result (λ block. length block.items ≡ length elements.now) }
        ensures capacity { IfOk result (λ block. block.capacity ≡ capacity) }
        ensures free { capacity ≡ 0 → IsOk result }
    {
        if elements.is_empty() {
            return Block::with_capacity(self.alloc, capacity);
        }
        by.block(self.alloc, elements, capacity)
    }
}

/// Gives the block capacity for `additional` more elements. If it has to grow, its capacity at
/// least doubles, up to the limit. Answers `Capacity` if the length and `additional` together pass
/// 2^63 - 1, and else `Memory`.
#[cold]
#[inline(never)]
pub(super) fn enlarge<T: Drop>(block: &mut Block<T>, additional: usize) -> Result<(), EcoError>
    ensures items { block.new.items ≡ block.old.items }
    ensures room { OnOk result (length block.old.items + additional ≤ block.new.capacity) }
    ensures capacity { IsErrOf result EcoError.Capacity
        ↔ (MAX_LEN < length block.old.items + additional) }
    ensures nothing { additional ≡ 0 → IsOk result }
{
    let len = block.len();
    if additional > MAX_LEN - len {
        return Err(EcoError::Capacity);
    }
    Ok(block.grow(room_for(len, additional, block.capacity()))?)
}
