//! Memory for elements, and the heads of blocks. This module and its parts are the only code of the
//! crate that touches pointers.
ghost use Rattle.std.specs.Prelude.{◌≡◌, ℕ, ◌≤◌, List, length, ⊤};
ghost use base.Fml.{ftrue};
ghost use denote.RawPtr.{Ptr};
ghost use Rattle.ecow_block.specs.Ownership.{deed_owns, room_owns, room_shares};
ghost use Rattle.ecow_block.specs.Heads.{title_owns, title_shares};
ghost use Rattle.ecow_block.specs.declared.room.Fields.{Fields};

use std::alloc::{AllocError, Allocator};
use std::marker::{Model, PhantomData, Send, Sync};

mod heads;
mod heap;
mod layout;
mod places;

pub(crate) use heads::{fields, fields_mut, give_back_head, is_none, make_head, no_head, tested};
pub(crate) use heap::{give_back, grow, make, nowhere};
pub(crate) use layout::layout_of;

/// How many items are written at once.
pub(crate) const CHUNK: usize = 128;

/// Where the places of a block begin. It owns nothing.
// rust: repr(C)
pub(crate) struct Base<T> {
    /// The first place, or an aligned address of no memory.
    ptr: *mut T,
}

impl<T> Clone for Base<T> {
    ghost is_clone = { λ x y. y ≡ x };

    ghost is_infallible = { λ _. ⊤ };

    fn clone(&self) -> Result<Base<T>, AllocError> {
        Ok(*self)
    }
}

impl<T> Copy for Base<T> {}

// A base owns nothing.
unsafe impl<T> Send for Base<T> {}

unsafe impl<T> Sync for Base<T> {}

/// The right to some places of a block, which lie side by side. The first ones hold the items, and
/// the others are empty. The right itself takes no space.
// rust: repr(C)
pub struct Room<T> {
    /// Names `T`, and takes no space.
    pub mark: PhantomData<*const T>,
    /// Where the block's places begin.
    ghost at: { Ptr },
    /// The number of the first place.
    ghost start: { ℕ },
    /// The items in the first places, in order.
    ghost items: { List T },
    /// The number of places.
    ghost capacity: { ℕ },
    ghost within: { length items ≤ capacity },
}

impl<T> Room<T> {
    /// Gives the right up. The memory stays allocated.
    pub(crate) fn let_go(self) {
        let Room { mark: _ } = self;
    }
}

impl<T> Model for Room<T> {
    ghost also_owns = { λ r. room_owns T.row r.at r.start r.capacity r.items };

    ghost also_shares = { λ r _ κ. room_shares T.row r.at r.start r.capacity r.items κ };
}

unsafe impl<T: Send> Send for Room<T> {}

unsafe impl<T: Sync> Sync for Room<T> {}

/// The right to free `capacity` places that `alloc` gave. The right itself takes no space.
// rust: repr(C)
pub struct Deed<T, A: Allocator> {
    /// Names `T` and `A`, and takes no space.
    pub mark: PhantomData<*const (T, A)>,
    /// Where the places begin.
    ghost at: { Ptr },
    /// The number of places.
    ghost capacity: { ℕ },
    /// The allocator that they came from.
    ghost alloc: { A },
}

impl<T, A: Allocator> Deed<T, A> {
    /// Gives the right up. The memory stays allocated.
    pub(crate) fn let_go(self) {
        let Deed { mark: _ } = self;
    }
}

impl<T, A: Allocator> Model for Deed<T, A> {
    ghost also_owns = { λ d. deed_owns (A.dealloc_token d.alloc) T.row d.at d.capacity };

    ghost also_shares = { λ _ _ _. ftrue };
}

unsafe impl<T, A: Allocator + Send> Send for Deed<T, A> {}

// A `&` to a deed gives access to nothing.
unsafe impl<T, A: Allocator> Sync for Deed<T, A> {}

/// What a head says of its block.
// rust: repr(C)
pub(crate) struct Fields<T> {
    /// Where the places begin: right behind the head, or in an allocation of their own.
    pub(crate) base: Base<T>,
    /// The number of items.
    pub(crate) len: usize,
    /// The number of places, and 2^63 more where places take no bytes.
    pub(crate) capacity: usize,
}

impl<T> Clone for Fields<T> {
    ghost is_clone = { λ x y. y ≡ x };

    ghost is_infallible = { λ _. ⊤ };

    fn clone(&self) -> Result<Fields<T>, AllocError> {
        Ok(*self)
    }
}

impl<T> Copy for Fields<T> {}

/// The start of a block's memory: the count of owners, and the fields.
// rust: repr(C)
pub struct Head<T> {
    /// The number of owners, at least one. It stands first, where the crates that count look for it.
    pub count: usize,
    /// All owners read the fields, and a sole owner changes them.
    fields: Fields<T>,
}

/// The address of a block's head, or null where there is no block. It owns nothing.
// rust: repr(C)
pub struct Top<T> {
    /// The head, or null.
    pub ptr: *mut Head<T>,
}

impl<T> Clone for Top<T> {
    ghost is_clone = { λ x y. y ≡ x };

    ghost is_infallible = { λ _. ⊤ };

    fn clone(&self) -> Result<Top<T>, AllocError> {
        Ok(*self)
    }
}

impl<T> Copy for Top<T> {}

// A top owns nothing.
unsafe impl<T> Send for Top<T> {}

unsafe impl<T> Sync for Top<T> {}

/// The right to the head of a sole owner's block, and to free the head's allocation, which also has
/// the places right behind it. The right itself takes no space. Where there is no head, it is a
/// right to nothing.
// rust: repr(C)
pub struct Title<T, A: Allocator> {
    /// Names `T` and `A`, and takes no space.
    pub mark: PhantomData<*const (T, A)>,
    /// The address of the head, or null.
    ghost at: { Ptr },
    /// The head's fields.
    ghost fields: { Fields T },
    /// The number of places in the head's allocation: none where they stand apart.
    ghost places: { ℕ },
    /// The allocator that the head came from.
    ghost alloc: { A },
}

impl<T, A: Allocator> Title<T, A> {
    /// Gives the right up. The memory stays allocated.
    pub(crate) fn let_go(self) {
        let Title { mark: _ } = self;
    }
}

impl<T, A: Allocator> Model for Title<T, A> {
    ghost also_owns = { λ t. title_owns (A.dealloc_token t.alloc) T.row t.at t.fields t.places };

    ghost also_shares = { λ t _ κ. title_shares T.row t.at t.fields κ };
}

// A title owns no element.
unsafe impl<T, A: Allocator + Send> Send for Title<T, A> {}

// A `&` to a title gives access to the fields of its head alone.
unsafe impl<T, A: Allocator> Sync for Title<T, A> {}
