//! Edits of a list. A refused call changes nothing. If several errors apply, the call returns the
//! first of `Kind`, `Index`, `Depth`, `Capacity` and `Memory`.
ghost use Rattle.std.specs.Prelude.{◌≡◌, ◌+◌, ◌-◌, ◌<◌, ◌≤◌, ◌↔◌, [], ◌∷◌, ◌++◌, None, Some, length, take, insert, remove, slice_get, slice_set, IfOk, IfSome, IsErrOf, IsSomeAnd, OnErr, OnOk};
ghost use Rattle.ecow_nested.specs.Values.{depth_of, items_of, Covers, EditsItems, IsErrAmong, RisesAtMost};

use crate::nested::{MAX_DEPTH, Nested, raise, settle};
use crate::refusal::Refusal;
use crate::value::Value;
use crate::value::parts::at;
use ecow_base::MAX_LEN;
use ecow_list::Rejected;
use std::mem::replace;

impl Value {
    /// Appends an item.
    ///
    /// Takes constant time on average. A shared list is copied first.
    ///
    /// # Errors
    ///
    /// `Kind` if the value is no list; `Depth` if `item` nests as deep as a value may; `Capacity`
    /// if the list has 2^63 - 1 items; `Memory`. `item` is dropped.
    #[tactic(auto, using(crate::proofs::Parts::out_of_list, crate::proofs::Depths::pushed))]
    pub fn push(&mut self, item: Value) -> Result<(), Refusal>
        ensures change { EditsItems (λ items. items ++ item ∷ []) self.old result self.new }
        ensures covers { Covers self.old → Covers self.new }
        ensures bound { OnOk result (RisesAtMost item self.old self.new) }
        ensures depth { IsErrOf result Refusal.Depth
            ↔ IsSomeAnd (items_of self.old) (λ _. MAX_DEPTH ≤ depth_of item) }
        ensures capacity { IsErrOf result Refusal.Capacity ↔ IsSomeAnd (items_of self.old)
            (λ items. (depth_of item < MAX_DEPTH) × (MAX_LEN ≤ length items)) }
        ensures codes { IsErrAmong
            (Refusal.Kind ∷ Refusal.Depth ∷ Refusal.Capacity ∷ Refusal.Memory ∷ []) result }
    {
        let Value::List(Nested { items, depth }) = self else {
            return Err(Refusal::Kind);
        };
        let below = item.depth_as_part()?;
        items.push(item)?;
        raise(depth, below);
        Ok(())
    }

    /// Removes the last item and returns it.
    ///
    /// Takes constant time, but a shared list is copied first. If the item was the deepest, the
    /// depth of each other item is read.
    ///
    /// # Errors
    ///
    /// `Kind` if the value is no list; `Index` if the list is empty; `Memory`.
    #[tactic(auto, using(crate::proofs::Parts::out_of_list, crate::proofs::Depths::taken_less))]
    pub fn pop(&mut self) -> Result<Value, Refusal>
        ensures change { EditsItems (λ items. take (length items - 1) items)
            self.old result self.new }
        ensures value { IfOk result (λ item. IfSome (items_of self.old)
            (λ items. slice_get items (length items - 1) ≡ Some item)) }
        ensures covers { Covers self.old → Covers self.new }
        ensures bound { depth_of self.new ≤ depth_of self.old }
        ensures index { IsErrOf result Refusal.Index ↔ (items_of self.old ≡ Some []) }
        ensures codes { IsErrAmong (Refusal.Kind ∷ Refusal.Index ∷ Refusal.Memory ∷ []) result }
    {
        let Value::List(Nested { items, depth }) = self else {
            return Err(Refusal::Kind);
        };
        match items.pop()? {
            Some(item) => {
                settle(depth, items.as_slice(), item.depth(), 0);
                Ok(item)
            }
            None => Err(Refusal::Index),
        }
    }

    /// Replaces the item at `index`.
    ///
    /// Takes constant time, but a shared list is copied first. If the old item was the deepest, the
    /// depth of each item is read.
    ///
    /// # Errors
    ///
    /// `Kind` if the value is no list; `Index` if it has no such item; `Depth` if `item` nests as
    /// deep as a value may; `Memory`. `item` is dropped.
    #[tactic(auto, using(crate::proofs::Parts::out_of_list, crate::proofs::Depths::set_less))]
    pub fn set(&mut self, index: usize, item: Value) -> Result<(), Refusal>
        ensures change { EditsItems (λ items. slice_set items index item)
            self.old result self.new }
        ensures covers { Covers self.old → Covers self.new }
        ensures bound { OnOk result (RisesAtMost item self.old self.new) }
        ensures index { IsErrOf result Refusal.Index
            ↔ IsSomeAnd (items_of self.old) (λ items. length items ≤ index) }
        ensures depth { IsErrOf result Refusal.Depth ↔ IsSomeAnd (items_of self.old)
            (λ items. (index < length items) × (MAX_DEPTH ≤ depth_of item)) }
        ensures codes { IsErrAmong
            (Refusal.Kind ∷ Refusal.Index ∷ Refusal.Depth ∷ Refusal.Memory ∷ []) result }
    {
        let Value::List(Nested { items, depth }) = self else {
            return Err(Refusal::Kind);
        };
        if index >= items.len() {
            return Err(Refusal::Index);
        }
        let below = item.depth_as_part()?;
        let gone = items.as_slice()[index].depth();
        items.set(index, item)?;
        raise(depth, below);
        settle(depth, items.as_slice(), gone, below);
        Ok(())
    }

    /// Exchanges the item at `index` with `other`. To change a list within this list, swap it out,
    /// change it, and swap it in again: then only shared lists are copied.
    ///
    /// Costs what `set` costs.
    ///
    /// # Errors
    ///
    /// As `set`; `other` is unchanged.
    #[tactic(auto, using(crate::proofs::Parts::out_of_list, crate::proofs::Depths::set_less))]
    pub fn swap(&mut self, index: usize, other: &mut Value) -> Result<(), Refusal>
        ensures change { EditsItems (λ items. slice_set items index other.old)
            self.old result self.new }
        ensures other { OnOk result (IfSome (items_of self.old)
            (λ items. slice_get items index ≡ Some other.new)) }
        ensures kept { OnErr result (other.new ≡ other.old) }
        ensures covers { Covers self.old → Covers self.new }
        ensures bound { OnOk result (RisesAtMost other.old self.old self.new) }
        ensures index { IsErrOf result Refusal.Index
            ↔ IsSomeAnd (items_of self.old) (λ items. length items ≤ index) }
        ensures depth { IsErrOf result Refusal.Depth ↔ IsSomeAnd (items_of self.old)
            (λ items. (index < length items) × (MAX_DEPTH ≤ depth_of other.old)) }
        ensures codes { IsErrAmong
            (Refusal.Kind ∷ Refusal.Index ∷ Refusal.Depth ∷ Refusal.Memory ∷ []) result }
    {
        let Value::List(Nested { items, depth }) = self else {
            return Err(Refusal::Kind);
        };
        let Some(item) = at(items.as_slice(), index) else {
            return Err(Refusal::Index);
        };
        let below = other.depth_as_part()?;
        let item = item.clone()?;
        let gone = item.depth();
        match items.set(index, replace(other, item)) {
            Ok(()) => {
                raise(depth, below);
                settle(depth, items.as_slice(), gone, below);
                Ok(())
            }
            Err(Rejected { error, value }) => {
                *other = value;
                Err(error.into())
            }
        }
    }

    /// Inserts an item before the one at `index`. At the length of the list it appends the item.
    ///
    /// Moves the items after it. A shared list is copied first.
    ///
    /// # Errors
    ///
    /// `Kind` if the value is no list; `Index` if `index` is past the length; `Depth` if `item`
    /// nests as deep as a value may; `Capacity` if the list has 2^63 - 1 items; `Memory`. `item` is
    /// dropped.
    #[tactic(auto, using(crate::proofs::Parts::out_of_list, crate::proofs::Depths::inserted))]
    pub fn insert(&mut self, index: usize, item: Value) -> Result<(), Refusal>
        ensures change { EditsItems (λ items. insert items index item) self.old result self.new }
        ensures covers { Covers self.old → Covers self.new }
        ensures bound { OnOk result (RisesAtMost item self.old self.new) }
        ensures index { IsErrOf result Refusal.Index
            ↔ IsSomeAnd (items_of self.old) (λ items. length items < index) }
        ensures depth { IsErrOf result Refusal.Depth ↔ IsSomeAnd (items_of self.old)
            (λ items. (index ≤ length items) × (MAX_DEPTH ≤ depth_of item)) }
        ensures capacity { IsErrOf result Refusal.Capacity ↔ IsSomeAnd (items_of self.old)
            (λ items. (index ≤ length items) × (depth_of item < MAX_DEPTH)
            × (MAX_LEN ≤ length items)) }
        ensures codes { IsErrAmong (Refusal.Kind ∷ Refusal.Index ∷ Refusal.Depth
            ∷ Refusal.Capacity ∷ Refusal.Memory ∷ []) result }
    {
        let Value::List(Nested { items, depth }) = self else {
            return Err(Refusal::Kind);
        };
        if index > items.len() {
            return Err(Refusal::Index);
        }
        let below = item.depth_as_part()?;
        items.insert(index, item)?;
        raise(depth, below);
        Ok(())
    }

    /// Removes the item at `index` and returns it.
    ///
    /// Moves the items after it. A shared list is copied first. If the item was the deepest, the
    /// depth of each other item is read.
    ///
    /// # Errors
    ///
    /// `Kind` if the value is no list; `Index` if it has no such item; `Memory`.
    #[tactic(auto, using(crate::proofs::Parts::out_of_list, crate::proofs::Depths::removed_less))]
    pub fn remove(&mut self, index: usize) -> Result<Value, Refusal>
        ensures change { EditsItems (λ items. remove items index) self.old result self.new }
        ensures value { IfOk result
            (λ item. IfSome (items_of self.old) (λ items. slice_get items index ≡ Some item)) }
        ensures covers { Covers self.old → Covers self.new }
        ensures bound { depth_of self.new ≤ depth_of self.old }
        ensures index { IsErrOf result Refusal.Index
            ↔ IsSomeAnd (items_of self.old) (λ items. length items ≤ index) }
        ensures codes { IsErrAmong (Refusal.Kind ∷ Refusal.Index ∷ Refusal.Memory ∷ []) result }
    {
        let Value::List(Nested { items, depth }) = self else {
            return Err(Refusal::Kind);
        };
        if index >= items.len() {
            return Err(Refusal::Index);
        }
        let item = items.remove(index)?;
        settle(depth, items.as_slice(), item.depth(), 0);
        Ok(item)
    }

    /// Shortens the list to its first `len` items. A list of no more items stays as it is.
    ///
    /// Reads the depth of each item that stays. A shared list copies those items.
    ///
    /// # Errors
    ///
    /// `Kind` if the value is no list; `Memory`.
    #[tactic(auto, using(crate::proofs::Parts::out_of_list, crate::proofs::Depths::taken_less))]
    pub fn truncate(&mut self, len: usize) -> Result<(), Refusal>
        ensures change { EditsItems (λ items. take len items) self.old result self.new }
        ensures covers { Covers self.old → Covers self.new }
        ensures bound { depth_of self.new ≤ depth_of self.old }
        ensures codes { IsErrAmong (Refusal.Kind ∷ Refusal.Memory ∷ []) result }
    {
        let Value::List(Nested { items, depth }) = self else {
            return Err(Refusal::Kind);
        };
        items.truncate(len)?;
        let gone = *depth;
        settle(depth, items.as_slice(), gone, 0);
        Ok(())
    }
}
