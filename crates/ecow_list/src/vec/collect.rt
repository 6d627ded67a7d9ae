//! Collects the items of an iterator into a block.
ghost use Rattle.std.specs.Prelude.{◌≡◌, ◌+◌, ◌<◌, ◌≤◌, ◌↔◌, List, length, IfOk, OnErr, IsErrOf};
ghost use Rattle.std.specs.Iterator.{Drains, IsFinite, Yields};

use crate::error::EcoError;
use ecow_base::{MAX_LEN, room_for};
use ecow_block::Block;
use std::alloc::Global;

/// Collects the items of `iter`, in order, into a block with a capacity of at least `least`. A
/// block that has to grow gets a capacity of at least `ample`. Answers `Capacity` at the item past
/// `most`. After a refusal no further item is asked for.
pub(super) fn collect<T: Drop, I: Iterator<Item = T>>(
    alloc: Global,
    least: usize,
    ample: usize,
    most: usize,
    iter: &mut I,
) -> Result<Block<T>, EcoError>
    requires bounded { (least ≤ MAX_LEN) × (ample ≤ MAX_LEN) × (most ≤ MAX_LEN) }
    requires ends { I.can_next iter.old × IsFinite (I.remaining iter.old) }

    // All items, in a block of at least that capacity.
    ensures items { IfOk result (λ block. Drains I.next_gives iter.old block.items) }
    ensures fits { IfOk result (λ block. length block.items ≤ most) }
    ensures room { IfOk result (λ block. least ≤ block.capacity) }

    // A refusal comes at an item, for capacity exactly past `most`.
    ensures refused { OnErr result
        ((items : List T)
        × Yields I.next_gives iter.old items iter.new
        × (least ≡ 0 → 0 < length items)
        × (length items ≤ most + 1)
        × (IsErrOf result EcoError.Capacity ↔ (length items ≡ most + 1))) }
{
    let mut items = Block::with_capacity(alloc, least)?;
    while !items.fill_from(most, iter) {
        let Some(item) = iter.next() else {
            return Ok(items);
        };
        let (len, capacity) = (items.len(), items.capacity());
        if len >= most {
            return Err(EcoError::Capacity);
        }
        items.grow(room_for(len, 1, capacity.max(ample)))?;
        items.push_within_capacity(item);
    }
    Ok(items)
}
