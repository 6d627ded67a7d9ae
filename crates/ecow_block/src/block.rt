//! `Block`: a list of elements, with a capacity, in one block of memory. Nothing here touches a
//! pointer.
ghost use Rattle.std.specs.Prelude.{◌≡◌, ◌≤◌, [], length, IfOk, IsOk};
ghost use Rattle.std.specs.Borrow.{sem};
ghost use Rattle.ecow_block.specs.Contents.{contents};
ghost use Rattle.ecow_block.specs.Parts.{IsParts, capacity_of};

mod copies;
mod edits;
mod grow;
mod splice;

use crate::parts::{base, capacity_of, give_back_parts, make_parts, no_parts};
use crate::rest::Rest;
use crate::room::{Deed, Room, Title, Top, fields, is_none};
use ecow_base::MAX_LEN;
use std::alloc::{AllocError, Global};
use std::marker::Model;
use std_alloc::room::may_hold;

/// A list of elements, and its capacity. It takes one word. Its parts are public for the crates
/// that count a block's owners.
// rust: repr(C)
pub struct Block<T> {
    /// The address of its head, or null where it has no places.
    pub top: Top<T>,
    /// The right to all its places.
    pub room: Room<T>,
    /// The right to the head.
    pub title: Title<T, Global>,
    /// The right to free places that stand apart from the head.
    pub deed: Deed<T, Global>,
    /// The allocator that its memory came from.
    pub alloc: Global,
}

impl<T> Model for Block<T> {
    ghost use Rattle.ecow_block.specs.Contents.{Contents, contents_code};
    ghost use Rattle.ecow_block.specs.Fields.{IsBlock, shown};

    ghost Value = { Contents T };

    ghost coded = { contents_code T.code };

    ghost view = { λ b. shown b };

    ghost invariant = { λ b. IsBlock b };
}

impl<T> Block<T> {
    ghost use Rattle.ecow_block.specs.BlockLends.{lends_elements};

    /// An empty block without capacity. Asks for no memory.
    // rust: const
    pub fn new(alloc: Global) -> Self
        ensures { result ≡ contents [] 0 }
    {
        let (_, top, room, title, deed) = no_parts(&alloc);
        Block {
            top,
            room,
            title,
            deed,
            alloc,
        }
    }

    /// An empty block of that capacity. Where this is 0, no memory is asked for.
    pub fn with_capacity(alloc: Global, capacity: usize) -> Result<Self, AllocError>
        ensures block { IfOk result (λ b. b ≡ contents [] capacity) }
        ensures free { capacity ≡ 0 → IsOk result }
    {
        if capacity == 0 {
            return Ok(Block::new(alloc));
        }
        if !may_hold::<T>(capacity) {
            return Err(AllocError);
        }
        let (top, room, title, deed) = make_parts(&alloc, capacity)?;
        Ok(Block {
            top,
            room,
            title,
            deed,
            alloc,
        })
    }

    /// The number of elements.
    pub fn len(&self) -> usize
        ensures len { result ≡ length self.now.items }
        ensures bounded { (result ≤ self.now.capacity) × (self.now.capacity ≤ MAX_LEN) }
    {
        if is_none(self.top) {
            return 0;
        }
        fields(&self.title, self.top).len
    }

    /// The number of elements that the block can hold without growing.
    pub fn capacity(&self) -> usize
        ensures capacity { result ≡ self.now.capacity }
        ensures bounded { (length self.now.items ≤ result) × (result ≤ MAX_LEN) }
    {
        if is_none(self.top) {
            return 0;
        }
        self.room.is_small();
        capacity_of::<T>(fields(&self.title, self.top).capacity)
    }

    /// Borrows the elements.
    pub fn as_slice(&self) -> &[T]
        ensures { result.now ≡ self.now.items }
    {
        if is_none(self.top) {
            return &[];
        }
        let head = fields(&self.title, self.top);
        self.room.as_slice(head.base, 0, head.len)
    }

    /// Borrows the elements to write them.
    pub fn as_mut_slice(&mut self) -> &mut [T]
        ensures* writes_back { sem 𝓛 (lends_elements T.row self.entry result) }
        ensures value { result.now ≡ self.old.items }
    {
        let base = base!(self);
        let len = self.len();
        self.room.as_mut_slice(base, 0, len)
    }

    /// Turns the block into an iterator over its elements. Asks for no memory.
    pub fn into_rest(self) -> Rest<T>
        ensures { result ≡ self.items }
    {
        let Block {
            top,
            room,
            title,
            deed,
            alloc,
        } = self;
        Rest::of_parts(top, room, title, deed, alloc)
    }

    /// Takes the block apart.
    // rust: const
    pub fn into_parts(self) -> (Top<T>, Room<T>, Title<T, Global>, Deed<T, Global>, Global)
        ensures parts { IsParts result.0 result.1 result.2 result.3 result.4 }
        ensures contents { contents result.1.items (capacity_of result.2.fields.capacity) ≡ self }
    {
        let Block {
            top,
            room,
            title,
            deed,
            alloc,
        } = self;
        (top, room, title, deed, alloc)
    }

    /// Frees the memory of an empty block. This is out of line, so that a drop within a drop takes
    /// little stack.
    #[inline(never)]
    pub fn destroy_empty(self)
        requires { self.items ≡ [] }
    {
        let Block {
            top,
            room,
            title,
            deed,
            alloc,
        } = self;
        give_back_parts(top, room, title, deed, &alloc);
    }
}

impl<T: Drop> Drop for Block<T> {
    // The head is only read here, since other threads may have read it before.
    fn drop(self) {
        drop(self.into_rest());
    }
}
