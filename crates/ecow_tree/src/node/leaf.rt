//! A full leaf is parted where an element comes in. The part with that element moves to a new leaf.
ghost use Rattle.std.specs.Prelude.{◌≡◌, ◌+◌, ◌-◌, ◌<◌, ◌≤◌, ◌++◌, ℕ, List, length, slice_get, insert, slice_range, IfOk, IfErr, IfSome, OnOk, OnErr};
ghost use Rattle.std.specs.List.{remove_range};
ghost use Rattle.ecow_base.specs.declared.capacity.TheConstants.{MAX_LEN};
ghost use Rattle.ecow_block.specs.Contents.{contents};
ghost use Rattle.ecow_tree.specs.Grown.{Grown};
ghost use Rattle.ecow_tree.specs.Kept.{AreKeptIn, SomeKept};
ghost use Rattle.ecow_tree.specs.Nodes.{items_of, tallest, AllFit, LeadsTo};

use crate::node::{LEAF, Node, for_memory};
use ecow_list::block::Block;
use ecow_list::{Drain, EcoVec, Rejected};

/// Appends the elements of `moved` to a block with capacity for them.
fn fill<T: Drop>(block: &mut Block<T>, moved: Drain<T>)
    requires { length block.old.items + length moved ≤ block.old.capacity }
    ensures { block.new ≡ contents (block.old.items ++ moved) block.old.capacity }
{
    let mut rest = moved;
    while let Some(item) = rest.next() {
        block.push_within_capacity(item);
    }
}

/// Moves the elements from `start` up to `end` to a new vector, with `value` before the one that
/// was at `index`. The vector has capacity for a full leaf.
fn move_with<T: Clone>(
    items: &mut EcoVec<T>,
    start: usize,
    end: usize,
    index: usize,
    value: T,
) -> Result<EcoVec<T>, Rejected<T>>
    requires start { start ≤ index }
    requires end { index ≤ end }
    requires in_bounds { end ≤ length items.old }
    requires bounded { length items.old < MAX_LEN }
    ensures moved { IfOk result
        (λ moved. SomeKept T.is_clone items.old
        (λ kept.
        (items.new ≡ remove_range kept start end)
        × (moved ≡ insert (slice_range kept start end) (index - start) value))) }
    ensures unchanged { OnErr result (items.new ≡ items.old) }
    ensures value_returned { IfErr result (λ rejected. rejected.value ≡ value) }
{
    let mut fresh = EcoVec::new(items.allocator());
    let room = LEAF.max(end - start + 1);
    let Ok(block) = fresh.own_with_room(room) else {
        return Err(for_memory(value));
    };
    if start == end {
        block.push_within_capacity(value);
        return Ok(fresh);
    }
    let Ok(moved) = items.drain(start..end) else {
        return Err(for_memory(value));
    };
    fill(block, moved);
    block.insert_within_capacity(index - start, value);
    Ok(fresh)
}

impl<T: Clone> Node<T> {
    /// Moves the elements of this leaf from `start` up to `end` to a new leaf, with `value` before
    /// the one that was at `index`.
    fn part_off(
        &mut self,
        start: usize,
        end: usize,
        index: usize,
        value: T,
    ) -> Result<Node<T>, Rejected<T>>
        requires leaf { self.old.height ≡ 0 }
        requires start { start ≤ index }
        requires end { index ≤ end }
        requires in_bounds { end ≤ length self.old.items }
        requires bounded { length self.old.items < MAX_LEN }
        ensures moved { IfOk result
            (λ moved. SomeKept T.is_clone self.old.items
            (λ kept.
            (self.new.items ≡ remove_range kept start end)
            × (moved.items ≡ insert (slice_range kept start end) (index - start) value))) }
        ensures leaf { IfOk result (λ moved. moved.height ≡ 0) }
        ensures height { self.new.height ≡ self.old.height }
        ensures unchanged { OnErr result (self.new.items ≡ self.old.items) }
        ensures value_returned { IfErr result (λ rejected. rejected.value ≡ value) }
    {
        let moved = move_with(&mut self.items, start, end, index, value)?;
        self.len -= end - start;
        Ok(Node::leaf(moved))
    }
}

/// Inserts `value` before the element at `index` of the full leaf at `at`. A value behind all goes
/// into a leaf of its own, so that elements that are appended one by one fill their leaves.
pub(crate) fn insert_parting<T: Clone>(
    nodes: &mut EcoVec<Node<T>>,
    at: usize,
    index: usize,
    value: T,
) -> Result<(), Rejected<T>>
    requires found { IfSome (slice_get nodes.old at)
        (λ node.
        (node.height ≡ 0)
        × (2 ≤ length node.items)
        × (length node.items < MAX_LEN)
        × (index ≤ length node.items)) }
    requires in_bounds { at < length nodes.old }
    ensures kept { (all : ℕ)
        → LeadsTo nodes.old all at index
        → OnOk result (AreKeptIn T.is_clone (items_of nodes.old)
        (λ xs. insert xs all value) (items_of nodes.new)) }
    ensures unchanged { OnErr result (items_of nodes.new ≡ items_of nodes.old) }
    ensures value_returned { IfErr result (λ rejected. rejected.value ≡ value) }
    ensures tallest { tallest nodes.new ≤ tallest nodes.old }
    ensures fit { (h : ℕ) → AllFit h nodes.old → AllFit h nodes.new }
    ensures some { 0 < length nodes.new }
{
    let Ok(block) = nodes.own_with_room(1) else {
        return Err(for_memory(value));
    };
    let leaf = &mut block.as_mut_slice()[at];
    let (len, half) = (leaf.len(), leaf.len() / 2);
    if index < half {
        let front = leaf.part_off(0, half, index, value)?;
        block.insert_within_capacity(at, front);
        return Ok(());
    }
    let start = if index == len { len } else { half };
    let back = leaf.part_off(start, len, index, value)?;
    block.insert_within_capacity(at + 1, back);
    Ok(())
}
