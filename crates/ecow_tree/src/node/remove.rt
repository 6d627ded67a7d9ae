//! Removes an element. A refusal leaves all elements as they were.
ghost use Rattle.std.specs.Prelude.{◌≡◌, ◌+◌, ◌<◌, ◌≤◌, ◌^◌, ℕ, length, slice_get, IfOk, IfSome};
ghost use Rattle.ecow_list.specs.Refusals.{RefusesForMemory};
ghost use Rattle.ecow_tree.specs.Kept.{Removes};
ghost use Rattle.ecow_tree.specs.Nodes.{items_of, tallest, AllFit, CanSpare, LeadsTo};

use crate::node::Node;
use crate::node::join::spared;
use ecow_list::block::Block;
use ecow_list::{EcoError, EcoVec};

impl<T: Clone> Node<T> {
    /// Removes the element at `index` of this leaf, and returns it.
    fn remove_own(&mut self, index: usize) -> Result<T, EcoError>
        requires leaf { self.old.height ≡ 0 }
        requires within { index < length self.old.items }
        ensures removed { IfOk result
            (λ value. Removes T.is_clone self.old.items index value self.new.items) }
        ensures height { self.new.height ≡ self.old.height }
        ensures refused { RefusesForMemory self.old result self.new }
    {
        let len = self.len();
        let value = self.items.remove(index)?;
        self.len = len - 1;
        Ok(value)
    }

    /// Removes the element at `index`, and returns it.
    #[cycle(remove)]
    pub(crate) fn remove(&mut self, index: usize) -> Result<T, EcoError>
        requires within { index < length self.old.items }
        requires several { 0 < self.old.height → 2 ≤ length self.old.items }
        ensures removed { IfOk result
            (λ value. Removes T.is_clone self.old.items index value self.new.items) }
        ensures height { self.new.height ≡ self.old.height }
        ensures refused { RefusesForMemory self.old.items result self.new.items }
    {
        let len = self.len();
        if self.height == 0 {
            return self.remove_own(index);
        }
        let value = remove_below(&mut self.nodes, index)?;
        self.len = len - 1;
        Ok(value)
    }
}

/// Removes the element at `index` of all elements of some nodes, and returns it.
#[cycle(remove)]
fn remove_below<T: Clone>(nodes: &mut EcoVec<Node<T>>, index: usize) -> Result<T, EcoError>
    requires within { index < length (items_of nodes.old) }
    requires bounded { length (items_of nodes.old) < 2 ^ 64 }
    ensures removed { IfOk result
        (λ value. Removes T.is_clone (items_of nodes.old) index value (items_of nodes.new)) }
    ensures refused { RefusesForMemory (items_of nodes.old) result (items_of nodes.new) }

    // The nodes that stay are as high as the others.
    ensures tallest { tallest nodes.new ≤ tallest nodes.old }
    ensures fit { (h : ℕ) → AllFit h nodes.old → AllFit h nodes.new }
{
    let (at, rest) = spared(nodes, index)?;
    if nodes.as_slice()[at].len() == 1 {
        return remove_node(nodes, at);
    }
    remove_there(nodes, at, rest)
}

/// Removes the element at `index` of the node at `at`, which stays, and returns it.
#[cycle(remove)]
fn remove_there<T: Clone>(
    nodes: &mut EcoVec<Node<T>>,
    at: usize,
    index: usize,
) -> Result<T, EcoError>
    requires in_bounds { at < length nodes.old }
    requires found { IfSome (slice_get nodes.old at)
        (λ node. CanSpare node × (2 ≤ length node.items) × (index < length node.items)) }
    ensures removed { (all : ℕ)
        → LeadsTo nodes.old all at index
        → IfOk result
        (λ value. Removes T.is_clone (items_of nodes.old) all value (items_of nodes.new)) }
    ensures refused { RefusesForMemory (items_of nodes.old) result (items_of nodes.new) }
    ensures tallest { tallest nodes.new ≤ tallest nodes.old }
    ensures fit { (h : ℕ) → AllFit h nodes.old → AllFit h nodes.new }
{
    let Ok(block) = nodes.own_mut() else {
        return Err(EcoError::Memory);
    };
    let value = block.as_mut_slice()[at].remove(index)?;
    Ok(value)
}

/// Removes the node at `at`, which has one element, and returns that.
fn remove_node<T: Clone>(nodes: &mut EcoVec<Node<T>>, at: usize) -> Result<T, EcoError>
    requires in_bounds { at < length nodes.old }
    requires found { IfSome (slice_get nodes.old at)
        (λ node. (node.height ≡ 0) × (length node.items ≡ 1)) }
    ensures removed { (all : ℕ)
        → LeadsTo nodes.old all at 0
        → IfOk result
        (λ value. Removes T.is_clone (items_of nodes.old) all value (items_of nodes.new)) }
    ensures refused { RefusesForMemory (items_of nodes.old) result (items_of nodes.new) }
    ensures tallest { tallest nodes.new ≤ tallest nodes.old }
    ensures fit { (h : ℕ) → AllFit h nodes.old → AllFit h nodes.new }
{
    let Ok(block) = nodes.own_with_room(0) else {
        return Err(EcoError::Memory);
    };
    let value = block.as_mut_slice()[at].remove_own(0)?;
    let _empty = block.remove(at);
    Ok(value)
}
