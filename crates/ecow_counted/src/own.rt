//! A block that one name alone is about to have: its own block, or a copy of one that it shares.
ghost use Rattle.std.specs.Prelude.{◌≡◌, ◌<◌, ◌≤◌, true, false, length, take, IsSome, IsOk, IfOk, OnOk, OnErr};
ghost use Rattle.std.specs.FinMap as finite;
ghost use Rattle.ecow_base.specs.Clones.{ClonesAreEqual};
ghost use Rattle.ecow_model.specs.CountedRun.{holding_at, nothing};
ghost use Rattle.ecow_model.specs.Names.{IsSharing, is_shared, settle};
ghost use Rattle.ecow_counted.specs.Opened.{IsOpened};
ghost use Rattle.ecow_counted.specs.Owned.{CanHave, HasCost, capacity_for, copies_for, items_for, length_for, moves_for, moves_from};

use crate::blocks::Blocks;
use ecow_base::MAX_LEN;
use ecow_block::Block;
use ecow_model::Name;
use std::alloc::{AllocError, Global};

/// A block for one name, and how many elements were copied into it or moved with it.
#[derive(Drop)]
pub(crate) struct Owned<T> {
    /// The block, which no name has yet.
    pub block: Block<T>,
    /// How many elements were copied.
    pub copied: usize,
    /// How many elements were moved.
    pub moved: usize,
}

/// What block a name needs: a copy of one that it shares, or its own.
#[derive(Clone, Copy)]
pub(crate) struct Want {
    /// How many elements are copied from the front of a block that it shares.
    pub copies: usize,
    /// How many elements count as moved if its own block grows.
    pub staying: usize,
    /// The capacity that the block is to have.
    pub capacity: usize,
}

impl<T: Drop> Blocks<T> {
    /// Grows a block that was taken from a name. If there is no memory, the name gets the block
    /// back.
    fn grow(&mut self, name: Name, block: Block<T>, want: Want) -> Result<Owned<T>, AllocError>
        requires there { IsSome (finite.get self.old.names name) }
        requires room { self.old.has_room ≡ true }
        requires grows { block.capacity ≤ want.capacity }
        requires bounded { want.capacity ≤ MAX_LEN }

        // The elements of the block, and what it cost. The table still has a free place for it.
        ensures items { IfOk result (λ own. own.block.items ≡ block.items) }
        ensures cost { IfOk result (HasCost want 0 (moves_from want block.capacity)) }
        ensures names { OnOk result (self.new.names ≡ self.old.names) }
        ensures room { OnOk result (self.new.has_room ≡ true) }

        // A refused call gives the block back to the name. No call is refused if the block has the
        // capacity already.
        ensures given_back { OnErr result
            (self.new.names ≡ settle name block.items block.capacity self.old.names) }
        ensures free { want.capacity ≡ block.capacity → IsOk result }
    {
        let mut block = block;
        let moved = if want.capacity <= block.capacity() {
            0
        } else {
            want.staying
        };
        match block.grow(want.capacity) {
            Ok(()) => Ok(Owned {
                block,
                copied: 0,
                moved,
            }),
            Err(refused) => {
                self.settle(name, block);
                Err(refused)
            }
        }
    }
}

impl<T: Clone> Blocks<T> {
    /// A new block with clones of the first elements of a name's list, each of which is counted.
    /// The name has its old block until it gets the new one.
    fn copy(&mut self, alloc: Global, name: Name, want: Want) -> Result<Owned<T>, AllocError>
        requires whole { want.copies ≤ length (holding_at self.old.names name).items }
        requires fits { want.copies ≤ want.capacity }
        requires bounded { want.capacity ≤ MAX_LEN }

        // No name changes, and the table has a free place for the block.
        ensures names { self.new.names ≡ self.old.names }
        ensures room { OnOk result (0 < want.capacity → self.new.has_room ≡ true) }

        // The elements of the block, and what it cost.
        ensures items { ClonesAreEqual T.is_clone
            → IfOk result (λ own. own.block.items
            ≡ take want.copies (holding_at self.old.names name).items) }
        ensures len { IfOk result (λ own. length own.block.items ≡ want.copies) }
        ensures cost { IfOk result (HasCost want want.copies 0) }
        ensures free { want.capacity ≡ 0 → IsOk result }
    {
        if want.capacity == 0 {
            let block = Block::new(alloc);
            return Ok(Owned {
                block,
                copied: 0,
                moved: 0,
            });
        }
        self.reserve()?;
        let source = self.elements(name);
        let block = Block::from_clones(alloc, &source[..want.copies], want.capacity)?;
        let copied = block.len();
        Ok(Owned {
            block,
            copied,
            moved: 0,
        })
    }

    /// The block of a name that no other name shares. The name has no block until it gets this one.
    fn open(&mut self, alloc: Global, name: Name, want: Want) -> Result<Owned<T>, AllocError>
        requires there { IsSome (finite.get self.old.names name) }
        requires sole { is_shared (holding_at self.old.names name) ≡ false }
        requires sharing { IsSharing self.old.names }
        requires backed { 0 < length (holding_at self.old.names name).group
            → 0 < (holding_at self.old.names name).capacity }
        requires wanted { CanHave want (holding_at self.old.names name) }
        requires bounded { want.capacity ≤ MAX_LEN }

        // The name is about to get the block, and the table has a free place for it.
        ensures opened { OnOk result (IsOpened name self.old.names self.new.names) }
        ensures room { OnOk result (0 < want.capacity → self.new.has_room ≡ true) }

        // The block is unchanged, apart from its capacity.
        ensures items { IfOk result
            (λ own. own.block.items ≡ (holding_at self.old.names name).items) }
        ensures cost { IfOk result
            (HasCost want 0 (moves_for want (holding_at self.old.names name))) }

        // A refused call changes no name. No call is refused if the block has the capacity already.
        ensures unchanged { OnErr result (self.new.names ≡ self.old.names) }
        ensures free { want.capacity ≡ (holding_at self.old.names name).capacity → IsOk result }
    {
        match self.take(name) {
            Some(block) => self.grow(name, block, want),
            None => self.copy(alloc, name, Want { copies: 0, ..want }),
        }
    }

    /// A block for a name alone, with exactly the capacity that it needs: its own block, or a copy
    /// of one that it shares.
    pub fn own(&mut self, alloc: Global, name: Name, want: Want) -> Result<Owned<T>, AllocError>
        requires there { IsSome (finite.get self.old.names name) }
        requires wanted { CanHave want (holding_at self.old.names name) }
        requires bounded { want.capacity ≤ MAX_LEN }

        // The name is about to get the block, and the table has a free place for it.
        ensures opened { OnOk result (IsOpened name self.old.names self.new.names) }
        ensures room { OnOk result (0 < want.capacity → self.new.has_room ≡ true) }

        // The elements of the block, and what it cost.
        ensures items { ClonesAreEqual T.is_clone
            → IfOk result
            (λ own. own.block.items ≡ items_for want (holding_at self.old.names name)) }
        ensures len { IfOk result
            (λ own. length own.block.items ≡ length_for want (holding_at self.old.names name)) }
        ensures cost { IfOk result
            (HasCost want (copies_for want (holding_at self.old.names name))
            (moves_for want (holding_at self.old.names name))) }

        // A refused call changes no name. No call is refused if the capacity stays as it is.
        ensures unchanged { OnErr result (self.new.names ≡ self.old.names) }
        ensures free { want.capacity ≡ capacity_for (holding_at self.old.names name)
            → IsOk result }
    {
        let size = self.size(name).unwrap();
        if size.owners > 1 {
            self.copy(alloc, name, want)
        } else {
            self.open(alloc, name, want)
        }
    }
}
