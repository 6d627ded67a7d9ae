//! A node that is too full is parted in two.
ghost use Rattle.std.specs.Prelude.{◌≡◌, ◌+◌, ◌<◌, ◌≤◌, ◌^◌, ◌++◌, ℕ, length, IsTrue, IfErr, IfOk, IfSome, OnOk};
ghost use Rattle.ecow_list.specs.declared.error.EcoError.TheVariants.{Memory};
ghost use Rattle.ecow_tree.specs.Nodes.{items_of, tallest, AllFit};

use crate::node::{FAN, Node};
use ecow_list::{EcoError, EcoVec};
use std::alloc::Global;

/// The number of elements of all nodes.
fn total<T>(nodes: &[Node<T>]) -> usize
    requires { length (items_of nodes.now) < 2 ^ 64 }
    ensures { result ≡ length (items_of nodes.now) }
{
    let mut total = 0;
    for node in nodes {
        total += node.len();
    }
    total
}

/// A node over some nodes, whose blocks it shares.
pub(crate) fn over_some<T: Drop>(
    alloc: Global,
    height: usize,
    nodes: &[Node<T>],
) -> Result<Node<T>, EcoError>
    requires some { 0 < length nodes.now }
    requires fit { AllFit height nodes.now }
    requires bounded { length (items_of nodes.now) < 2 ^ 64 }
    ensures items { IfOk result (λ node. node.items ≡ items_of nodes.now) }
    ensures height { IfOk result (λ node. node.height ≡ height) }
    ensures memory { IfErr result (λ error. error ≡ Memory) }
{
    let len = total(nodes);
    let Ok(nodes) = EcoVec::from_slice(alloc, nodes) else {
        return Err(EcoError::Memory);
    };
    Ok(Node::over(height, len, nodes))
}

/// Where so many nodes are parted: a quarter of a full node before the end, or in the middle. The
/// nodes of two that were joined may be too many to leave all others in the first part.
fn cut(len: usize, at_end: bool) -> usize
    requires { 16 ≤ len }
    ensures front { 4 ≤ result }
    ensures back { result + 4 ≤ len }
{
    if at_end && len < FAN + FAN / 4 {
        len - FAN / 4
    } else {
        len / 2
    }
}

impl<T: Drop> Node<T> {
    /// Two nodes with the nodes below, where these are too many. The second has a quarter of them
    /// `at_end`, and else a half. `None` also where memory is refused.
    pub(crate) fn parted(&self, at_end: bool) -> Option<(Node<T>, Node<T>)>
        ensures items { IfSome result (λ parts. parts.0.items ++ parts.1.items ≡ self.now.items) }
        ensures height { IfSome result
            (λ parts. (parts.0.height ≡ self.now.height) × (parts.1.height ≡ self.now.height)) }
        ensures weight { IfSome result
            (λ parts.
            (4 ^ self.now.height ≤ length parts.0.items)
            × (4 ^ self.now.height ≤ length parts.1.items)) }
    {
        // The number of elements stands here for the proof alone: it is bounded.
        let (_len, all) = (self.len(), self.nodes.as_slice());
        if all.len() < FAN {
            return None;
        }
        let cut = cut(all.len(), at_end);
        let alloc = self.allocator();
        let Ok(left) = over_some(alloc, self.height, &all[..cut]) else {
            return None;
        };
        let Ok(right) = over_some(alloc, self.height, &all[cut..]) else {
            return None;
        };
        Some((left, right))
    }
}

/// Parts the node at `at` where it is over too many nodes, `at_end` or in the middle. Where memory
/// is refused, it stays whole.
pub(crate) fn part<T: Drop>(nodes: &mut EcoVec<Node<T>>, at: usize, at_end: bool)
    requires { at < length nodes.old }
    ensures items { items_of nodes.new ≡ items_of nodes.old }
    ensures tallest { tallest nodes.new ≤ tallest nodes.old }
    ensures fit { (h : ℕ) → AllFit h nodes.old → AllFit h nodes.new }
    ensures some { 0 < length nodes.new }
{
    let Some((left, right)) = nodes.as_slice()[at].parted(at_end) else {
        return;
    };
    let Ok(block) = nodes.own_with_room(1) else {
        return;
    };
    block.set(at, left);
    block.insert_within_capacity(at + 1, right);
}

/// How high a root may stand. None comes near it, since a node of that height has more elements
/// than there can be.
pub(crate) const TALLEST: usize = 32;

impl<T: Drop> Node<T> {
    /// Whether the node has as many elements, or is over as many nodes, as it may.
    fn is_full(&self) -> bool
        ensures { IsTrue result → 4 ^ self.now.height ≤ length self.now.items }
    {
        if self.is_full_leaf() {
            return true;
        }
        if self.nodes.len() < FAN {
            return false;
        }
        true
    }

    /// Puts a node above this one if it is full, so that it can be parted.
    pub(crate) fn lift(&mut self) -> Result<(), EcoError>
        ensures { self.new.items ≡ self.old.items }
    {
        if !self.is_full() || self.height >= TALLEST {
            return Ok(());
        }
        self.raise()
    }

    /// Puts a node above this one.
    pub(crate) fn raise(&mut self) -> Result<(), EcoError>
        requires weight { 4 ^ self.old.height ≤ length self.old.items }
        requires low { self.old.height < TALLEST }
        ensures items { self.new.items ≡ self.old.items }
        ensures height { OnOk result (self.new.height ≡ self.old.height + 1) }
        ensures memory { IfErr result (λ error. error ≡ Memory) }
    {
        let (len, height) = (self.len, self.height + 1);
        let mut nodes = EcoVec::new(self.allocator());
        nodes.push(self.clone()?)?;
        *self = Node::over(height, len, nodes);
        Ok(())
    }
}
