//! Allocates, enlarges and frees places that stand apart from their head.
ghost use Rattle.std.specs.Prelude.{◌≡◌, ◌≤◌, [], length, true, false, IfOk, MatchResult};
ghost use Rattle.std.specs.Vec.Ownership.{FitsInBlock};
ghost use Rattle.ecow_block.specs.Ownership.{has_bytes};
ghost use Rattle.ecow_block.specs.Rooms.{IsWhole};

use super::{Base, Deed, Room};
use std::alloc::{AllocError, Allocator};
use std::marker::PhantomData;
use std::mem::{align_of, size_of};

/// Asks `alloc` for `capacity` places, which take some bytes.
pub(crate) fn make<T, A: Allocator>(
    alloc: &A,
    capacity: usize,
) -> Result<(Base<T>, Room<T>, Deed<T, A>), AllocError>
    requires { FitsInBlock T.row capacity × (has_bytes T.row capacity ≡ true) }
    ensures { IfOk result (λ r. IsWhole r.0 r.1 r.2 alloc.now × (r.1.items ≡ [])
        × (r.1.capacity ≡ capacity)) }
{
    match alloc.allocate(capacity * size_of::<T>(), align_of::<T>()) {
        Ok(block) => {
            let base = Base {
                ptr: block as *mut T,
            };
            Ok((base, Room { mark: PhantomData }, Deed { mark: PhantomData }))
        }
        Err(error) => Err(error),
    }
}

/// Makes `capacity` places that take no bytes. Asks for no memory.
// rust: const
pub(crate) fn nowhere<T, A: Allocator>(
    _alloc: &A,
    _capacity: usize,
) -> (Base<T>, Room<T>, Deed<T, A>)
    requires { has_bytes T.row _capacity ≡ false }
    ensures { IsWhole result.0 result.1 result.2 _alloc.now × (result.1.items ≡ [])
        × (result.1.capacity ≡ _capacity) }
{
    // rust: nothing
    let none: [T; 0] = [];
    let base = Base {
        // rust: ptr: core::ptr::dangling(),
        ptr: &raw const none as *mut T,
    };
    (base, Room { mark: PhantomData }, Deed { mark: PhantomData })
}

/// Frees places that hold no items, if `alloc` gave them.
pub(crate) fn give_back<T, A: Allocator>(
    alloc: &A,
    base: Base<T>,
    capacity: usize,
    room: Room<T>,
    deed: Deed<T, A>,
)
    requires { IsWhole base room deed alloc.now × (room.items ≡ []) × (capacity ≡ room.capacity) }
{
    let Room { mark: _ } = room;
    let Deed { mark: _ } = deed;
    let bytes = capacity * size_of::<T>();
    if bytes != 0 {
        unsafe {
            alloc.deallocate(base.ptr as *mut u8, bytes, align_of::<T>());
        }
    }
}

/// Enlarges the allocation to `new_capacity` places, which may move it. If that is refused, nothing
/// changes.
pub(crate) fn grow<T, A: Allocator>(
    alloc: &A,
    base: Base<T>,
    len: usize,
    capacity: usize,
    new_capacity: usize,
    room: &mut Room<T>,
    deed: &mut Deed<T, A>,
) -> Result<Base<T>, AllocError>
    requires block { IsWhole base room.old deed.old alloc.now × (len ≡ length room.old.items)
        × (capacity ≡ room.old.capacity) × (has_bytes T.row capacity ≡ true) }
    requires larger { (capacity ≤ new_capacity) × FitsInBlock T.row new_capacity }
    ensures items { room.new.items ≡ room.old.items }
    ensures block { MatchResult result (λ b. IsWhole b room.new deed.new alloc.now
        × (room.new.capacity ≡ new_capacity)) (λ _. (room.new ≡ room.old) × (deed.new ≡ deed.old)) }
{
    match unsafe { alloc.grow(base.ptr, len, capacity, new_capacity) } {
        Ok(ptr) => Ok(Base { ptr }),
        Err(error) => Err(error),
    }
}
