//! `Shared`: one of the owners of a block. The count of owners is for one thread.
ghost use Rattle.std.specs.Prelude.{◌≡◌, [], IfSome, IfOk, IfErr, MatchOption};
ghost use Rattle.std.specs.Borrow.{sem};
ghost use Rattle.ecow_block.specs.Contents.{contents};
ghost use Rattle.ecow_block.specs.declared.block.Block.TheInside.{Inside as BlockParts};

use ecow_block::Block;
use ecow_block::room::{Deed, Room, Title, Top};
use std::alloc::{AllocError, Global};
use std::marker::{Model, PhantomData};
use std::mem::replace;

/// Stands in the place of a block's right that takes no space. It owns nothing.
struct Nil<T> {
    /// Names `T` alone: a `*const` owns none.
    mark: PhantomData<*const T>,
}

/// One of the owners of a block. It takes one word, and has the layout of a block. A block without
/// places has no other owner.
pub struct Shared<T> {
    /// The address of the block's head, or null.
    top: Top<T>,
    /// These stand in the places of a block's rights, of which each owner has a share.
    room: Nil<T>,
    title: Nil<T>,
    deed: Nil<T>,
    /// The allocator that the block's memory came from.
    alloc: Global,
    /// The block that is shared, as a proof sees it.
    ghost inside: { BlockParts T },
}

impl<T> Model for Shared<T> {
    ghost use Rattle.ecow_block.specs.Contents.{Contents, contents_code};
    ghost use Rattle.ecow_block.specs.Fields.{shown};
    ghost use Rattle.ecow_block.specs.Kept.{IsOwner};
    ghost use Rattle.ecow_shared.specs.Owners.{owner_owns, owner_lends};

    ghost Value = { Contents T };

    ghost coded = { contents_code T.code };

    ghost view = { λ s. shown s.inside };

    ghost invariant = { λ s. IsOwner s.top s.alloc s.inside };

    ghost also_owns = { λ s. owner_owns T.row s.inside };

    ghost also_shares = { λ s _ κ. owner_lends T.row s.inside κ };
}

impl<T> Shared<T> {
    ghost use Rattle.ecow_block.specs.Parts.{IsParts, capacity_of};

    /// The first owner of a block. Asks for no memory.
    pub fn new(block: Block<T>) -> Shared<T>
        ensures { result ≡ block }
    {
        let (top, room, title, deed, alloc) = block.into_parts();
        Shared::hold(top, room, title, deed, alloc)
    }

    /// The first owner of a block that has these parts.
    fn hold(
        top: Top<T>,
        room: Room<T>,
        title: Title<T, Global>,
        deed: Deed<T, Global>,
        alloc: Global,
    ) -> Shared<T>
        requires { IsParts top room title deed alloc }
        ensures { result ≡ contents room.items (capacity_of title.fields.capacity) }
    {
        let Room { mark: _ } = room;
        let Title { mark: _ } = title;
        let Deed { mark: _ } = deed;
        Shared {
            top,
            room: Nil { mark: PhantomData },
            title: Nil { mark: PhantomData },
            deed: Nil { mark: PhantomData },
            alloc,
        }
    }

    /// An owner of a block without places. Asks for no memory.
    pub fn none(alloc: Global) -> Shared<T>
        ensures { result ≡ contents [] 0 }
    {
        Shared::new(Block::new(alloc))
    }

    /// Borrows the block, if it has places.
    pub fn get(&self) -> Option<&Block<T>>
        ensures { MatchOption result (self.now ≡ contents [] 0) (λ block. block.now ≡ self.now) }
    {
        if self.top.ptr.is_null() {
            return None;
        }
        Some(unsafe { &*(&raw const *self as *const Block<T>) })
    }

    /// Returns the block where this is its sole owner and it has places, and `self` otherwise.
    pub fn try_unwrap(self) -> Result<Block<T>, Shared<T>>
        ensures ok { IfOk result (λ block. block ≡ self) }
        ensures err { IfErr result (λ back. back ≡ self) }
    {
        let alloc = self.alloc;
        let mut this = self;
        let Some(block) = this.get_mut() else {
            return Err(this);
        };
        let block = replace(block, Block::new(alloc));
        if let Some(none) = this.leave() {
            none.destroy_empty();
        }
        Ok(block)
    }
}

impl<T> Shared<T> {
    ghost use Rattle.ecow_shared.specs.OwnerLends.{lends_block};

    /// Borrows the block to change it, if it has places and this is its sole owner. Another block
    /// may be put in its place.
    pub fn get_mut(&mut self) -> Option<&mut Block<T>>
        ensures* writes_back { sem 𝓛 (lends_block T.row self.entry result) }
        ensures value { IfSome result (λ block. self.old ≡ block.now) }
    {
        let ptr = self.top.ptr;
        if ptr.is_null() {
            return None;
        }
        unsafe {
            let count = (*ptr).count;
            if count != 1 {
                return None;
            }
            Some(&mut *(&raw mut *self as *mut Block<T>))
        }
    }

    /// One more owner of the same block, or `None` where there are 2^64 - 1.
    fn another(&self) -> Option<Shared<T>>
        ensures { IfSome result (λ other. other ≡ self.now) }
    {
        let (top, alloc) = (self.top, self.alloc);
        let ptr = top.ptr;
        if !ptr.is_null() {
            unsafe {
                let count = (*ptr).count;
                if count == usize::MAX {
                    return None;
                }
                (*ptr).count = count + 1;
            }
        }
        Some(Shared {
            top,
            room: Nil { mark: PhantomData },
            title: Nil { mark: PhantomData },
            deed: Nil { mark: PhantomData },
            alloc,
        })
    }

    /// Gives this ownership up. The last owner gets the block, if it has places.
    fn leave(self) -> Option<Block<T>>
        ensures { IfSome result (λ block. block ≡ self) }
    {
        let Shared {
            top,
            room: Nil { mark: _ },
            title: Nil { mark: _ },
            deed: Nil { mark: _ },
            alloc,
        } = self;
        let ptr = top.ptr;
        if ptr.is_null() {
            return None;
        }
        unsafe {
            let count = (*ptr).count;
            if count != 1 {
                (*ptr).count = count - 1;
                return None;
            }
        }
        Some(Block {
            top,
            room: Room { mark: PhantomData },
            title: Title { mark: PhantomData },
            deed: Deed { mark: PhantomData },
            alloc,
        })
    }
}

impl<T: Drop> Drop for Shared<T> {
    #[inline]
    fn drop(self) {
        if let Some(block) = self.leave() {
            drop_last(block);
        }
    }
}

/// Drops a block. This is out of line, so that the drop of any owner but the last is inlined.
#[inline(never)]
fn drop_last<T: Drop>(block: Block<T>) {
    drop(block);
}

impl<T: Drop> Clone for Shared<T> {
    ghost is_clone = { λ s t. t ≡ s };

    fn clone(&self) -> Result<Shared<T>, AllocError> {
        match self.another() {
            Some(other) => Ok(other),
            None => Err(AllocError),
        }
    }
}
