//! The parts of a block: its head, its places, and the rights to free both. Nothing here touches a
//! pointer.
ghost use Rattle.std.specs.Prelude.{◌≡◌, ◌+◌, ◌^◌, ◌<◌, ◌≤◌, [], true, false, IfOk};
ghost use Rattle.std.specs.Mem.{type_size};
ghost use Rattle.std.specs.Vec.Ownership.{FitsInBlock};
ghost use denote.RawPtr.{InBlock};
ghost use Rattle.ecow_block.specs.Ownership.{has_bytes};
ghost use Rattle.ecow_block.specs.Parts.{IsBacked, IsHead, IsParts, capacity_of, with_len, with_places};

use crate::room::{
    Base, Deed, Fields, Room, Title, Top, fields, fields_mut, give_back, give_back_head, is_none,
    layout_of, make, make_head, no_head, nowhere, tested,
};
use std::alloc::{AllocError, Allocator, Global};
use std::mem::{replace, size_of};

/// Up to this many places stand right behind their head, so that one allocation has both. More
/// places have an allocation of their own, which can grow in place.
pub(crate) const TOGETHER: usize = 1024;

/// Elements may take no bytes. Their block has this many places, and its head holds the capacity
/// plus this number. So the block grows by a change of that number alone.
pub(crate) const NOWHERE: usize = 9223372036854775808;

/// The capacity of a block by the number in its head.
#[inline]
pub(crate) fn capacity_of<T>(number: usize) -> usize
    requires sized { type_size T.row < 2 ^ 63 }
    requires nowhere { 2 ^ 63 ≤ number → type_size T.row ≡ 0 }
    ensures value { result ≡ capacity_of number }
    ensures bounded { result < 2 ^ 63 }
{
    if 1 * size_of::<T>() == 0 && number >= NOWHERE {
        return number - NOWHERE;
    }
    number
}

/// Whether `count` places take any bytes.
pub(crate) fn takes_bytes<T>(count: usize) -> bool
    requires { FitsInBlock T.row count }
    ensures { result ≡ has_bytes T.row count }
{
    count * size_of::<T>() != 0
}

/// Writes the number of items into a head.
pub(crate) fn put_len<T, A: Allocator>(title: &mut Title<T, A>, top: Top<T>, len: usize)
    requires { (top.ptr ≡ title.old.at) × InBlock top.ptr }
    ensures { title.new ≡ with_len title.old len }
{
    fields_mut(title, top).len = len;
}

/// Writes into a head where its places begin, and the number that stands for its capacity.
pub(crate) fn put_places<T, A: Allocator>(
    title: &mut Title<T, A>,
    top: Top<T>,
    base: Base<T>,
    capacity: usize,
)
    requires { (top.ptr ≡ title.old.at) × InBlock top.ptr }
    ensures { title.new ≡ with_places title.old base capacity }
{
    let fields = fields_mut(title, top);
    fields.base = base;
    fields.capacity = capacity;
}

/// The parts of a block without places. Asks for no memory.
// rust: const
pub(crate) fn no_parts<T>(
    alloc: &Global,
) -> (Base<T>, Top<T>, Room<T>, Title<T, Global>, Deed<T, Global>)
    ensures { IsParts result.1 result.2 result.3 result.4 alloc.now × (result.2.items ≡ [])
        × (capacity_of result.3.fields.capacity ≡ 0) × (result.0.ptr ≡ result.2.at) }
{
    let (base, room, deed) = nowhere(alloc, 0);
    let (top, title) = no_head(alloc, base);
    (base, top, room, title, deed)
}

/// Allocates the parts of an empty block of `capacity` places, at least one.
pub(crate) fn make_parts<T>(
    alloc: &Global,
    capacity: usize,
) -> Result<(Top<T>, Room<T>, Title<T, Global>, Deed<T, Global>), AllocError>
    requires { (0 < capacity) × FitsInBlock T.row capacity }
    ensures { IfOk result (λ r. IsParts r.0 r.1 r.2 r.3 alloc.now × (r.1.items ≡ [])
        × (capacity_of r.2.fields.capacity ≡ capacity)) }
{
    if !takes_bytes::<T>(capacity) {
        return make_nowhere(alloc, capacity);
    }
    if capacity > TOGETHER {
        return make_apart(alloc, capacity);
    }
    let (size, align) = layout_of::<T>(capacity);
    let (top, room, title) = make_head(alloc, capacity, size, align)?;
    let (_, none, deed) = nowhere(alloc, 0);
    none.let_go();
    Ok((top, room, tested(title), deed))
}

/// Allocates the parts of an empty block whose places take no bytes.
#[inline(never)]
fn make_nowhere<T>(
    alloc: &Global,
    capacity: usize,
) -> Result<(Top<T>, Room<T>, Title<T, Global>, Deed<T, Global>), AllocError>
    requires { FitsInBlock T.row capacity × (has_bytes T.row capacity ≡ false) × (0 < capacity) }
    ensures { IfOk result (λ r. IsParts r.0 r.1 r.2 r.3 alloc.now × (r.1.items ≡ [])
        × (capacity_of r.2.fields.capacity ≡ capacity)) }
{
    let (size, align) = layout_of::<T>(0);
    let (top, none, title) = make_head(alloc, 0, size, align)?;
    none.let_go();
    let (base, room, deed) = nowhere(alloc, NOWHERE);
    let mut title = tested(title);
    put_places(&mut title, top, base, NOWHERE + capacity);
    Ok((top, room, title, deed))
}

/// Allocates the parts of an empty block of many places, which stand apart from their head.
#[inline(never)]
fn make_apart<T>(
    alloc: &Global,
    capacity: usize,
) -> Result<(Top<T>, Room<T>, Title<T, Global>, Deed<T, Global>), AllocError>
    requires { (TOGETHER < capacity) × FitsInBlock T.row capacity × (has_bytes T.row capacity ≡ true) }
    ensures { IfOk result (λ r. IsParts r.0 r.1 r.2 r.3 alloc.now × (r.1.items ≡ [])
        × (capacity_of r.2.fields.capacity ≡ capacity)) }
{
    let (base, room, deed) = make(alloc, capacity)?;
    let (size, align) = layout_of::<T>(0);
    match make_head(alloc, 0, size, align) {
        Ok((top, none, title)) => {
            none.let_go();
            let mut title = tested(title);
            put_places(&mut title, top, base, capacity);
            Ok((top, room, title, deed))
        }
        Err(error) => {
            give_back(alloc, base, capacity, room, deed);
            Err(error)
        }
    }
}

/// Frees the parts of a block that holds no items.
pub(crate) fn give_back_parts<T>(
    top: Top<T>,
    room: Room<T>,
    title: Title<T, Global>,
    deed: Deed<T, Global>,
    alloc: &Global,
)
    requires head { IsHead top title alloc.now room.at room.capacity }
    requires backed { IsBacked room.at room.capacity title deed alloc.now }
    requires empty { (room.start ≡ 0) × (room.items ≡ []) }
{
    if is_none(top) {
        room.let_go();
        title.let_go();
        deed.let_go();
        return;
    }
    let Fields {
        base,
        len: _,
        capacity,
    } = *fields(&title, top);
    if capacity > TOGETHER {
        let mut room = room;
        let places = capacity.min(NOWHERE);
        let none = room.split_off(places);
        give_back(alloc, base, places, room, deed);
        let (size, align) = layout_of::<T>(0);
        give_back_head(alloc, top, size, align, none, title);
    } else {
        room.is_small();
        deed.let_go();
        let (size, align) = layout_of::<T>(capacity);
        give_back_head(alloc, top, size, align, room, title);
    }
}

/// Where the places begin. A block without places doesn't keep such an address, and gets new parts.
#[inline]
pub(crate) fn base_of<T>(
    top: &mut Top<T>,
    room: &mut Room<T>,
    title: &mut Title<T, Global>,
    deed: &mut Deed<T, Global>,
    alloc: &Global,
) -> Base<T>
    requires { IsParts top.old room.old title.old deed.old alloc.now }
    ensures parts { IsParts top.new room.new title.new deed.new alloc.now }
    ensures same { (result.ptr ≡ room.new.at) × (room.new.items ≡ room.old.items)
        × (capacity_of title.new.fields.capacity ≡ capacity_of title.old.fields.capacity) }
{
    if is_none(*top) {
        let (base, none, fresh, unheaded, right) = no_parts(alloc);
        *top = none;
        replace(room, fresh).let_go();
        replace(title, unheaded).let_go();
        replace(deed, right).let_go();
        return base;
    }
    fields(title, *top).base
}

/// Where the places of `$block` begin.
macro_rules! base {
    ($block:expr) => {
        $crate::parts::base_of(
            &mut $block.top,
            &mut $block.room,
            &mut $block.title,
            &mut $block.deed,
            &$block.alloc,
        )
    };
}

pub(crate) use base;
