//! A node over few nodes is joined with a neighbour.
ghost use Rattle.std.specs.Prelude.{◌≡◌, ◌+◌, ◌<◌, ◌≤◌, ◌^◌, ◌++◌, ℕ, length, slice_get, IsTrue, IfErr, IfOk, IfSome, MatchOption, OnOk};
ghost use Rattle.ecow_list.specs.declared.error.EcoError.TheVariants.{Memory};
ghost use Rattle.ecow_tree.specs.Nodes.{items_of, tallest, AllFit, CanSpare, LeadsTo};

use crate::node::part::part;
use crate::node::seek::seek;
use crate::node::{FAN, Node};
use ecow_list::block::Block;
use ecow_list::{EcoError, EcoVec};

impl<T: Drop> Node<T> {
    /// Whether an element below may be removed, and one of the nodes below with it.
    fn can_spare(&self) -> bool
        ensures { IsTrue result → CanSpare self.now }
    {
        if self.height == 0 {
            return true;
        }
        if self.nodes.len() <= FAN / 4 {
            return false;
        }
        true
    }

    /// One node over the nodes below this one and those below the next, which is as high. `None`
    /// where memory is refused.
    fn joined(&self, next: &Node<T>) -> Option<Node<T>>
        requires { length self.now.items + length next.now.items < 2 ^ 64 }
        ensures items { IfSome result (λ both. both.items ≡ self.now.items ++ next.now.items) }
        ensures height { IfSome result (λ both. both.height ≡ self.now.height) }
    {
        if self.height == 0 || self.height != next.height {
            return None;
        }
        let Ok(mut nodes) = self.nodes.clone() else {
            return None;
        };
        if nodes.extend_from_slice(next.nodes.as_slice()).is_err() {
            return None;
        }
        Some(Node::over(self.height, self.len + next.len, nodes))
    }

    /// The node below, if there is one alone.
    fn lone(&self) -> Result<Option<Node<T>>, EcoError>
        ensures lone { IfOk result
            (λ lone. MatchOption lone (0 < self.now.height → 2 ≤ length self.now.items)
            (λ node. (node.items ≡ self.now.items) × (node.height < self.now.height))) }
        ensures memory { IfErr result (λ error. error ≡ Memory) }
    {
        if self.nodes.len() != 1 {
            return Ok(None);
        }
        let node = self.nodes.as_slice()[0].clone()?;
        Ok(Some(node))
    }

    /// Takes each root away that is over one node alone.
    pub(crate) fn lower(&mut self) -> Result<(), EcoError>
        ensures items { self.new.items ≡ self.old.items }
        ensures several { OnOk result (0 < self.new.height → 2 ≤ length self.new.items) }
        ensures memory { IfErr result (λ error. error ≡ Memory) }
    {
        while let Some(node) = self.lone()? {
            *self = node;
        }
        Ok(())
    }
}

/// Joins the node at `at` with the next. Where memory is refused, both stay.
fn join<T: Drop>(nodes: &mut EcoVec<Node<T>>, at: usize)
    requires in_bounds { at + 1 < length nodes.old }
    requires bounded { length (items_of nodes.old) < 2 ^ 64 }
    ensures items { items_of nodes.new ≡ items_of nodes.old }
    ensures tallest { tallest nodes.new ≤ tallest nodes.old }
    ensures fit { (h : ℕ) → AllFit h nodes.old → AllFit h nodes.new }
    ensures some { at < length nodes.new }
{
    let left = &nodes.as_slice()[at];
    let right = &nodes.as_slice()[at + 1];
    let Some(both) = left.joined(right) else {
        return;
    };
    let Ok(block) = nodes.own_mut() else {
        return;
    };
    block.set(at, both);
    let _gone = block.remove(at + 1);
}

/// Joins the node at `at` with a neighbour, and parts them in the middle where they are too many.
fn brace<T: Drop>(nodes: &mut EcoVec<Node<T>>, at: usize)
    requires in_bounds { at < length nodes.old }
    requires bounded { length (items_of nodes.old) < 2 ^ 64 }
    ensures items { items_of nodes.new ≡ items_of nodes.old }
    ensures tallest { tallest nodes.new ≤ tallest nodes.old }
    ensures fit { (h : ℕ) → AllFit h nodes.old → AllFit h nodes.new }
{
    let len = nodes.len();
    if len < 2 {
        return;
    }
    let left = at.min(len - 2);
    join(nodes, left);
    part(nodes, left, false);
}

/// Where an element stands, in a node that can spare it: one that can't is joined first.
pub(crate) fn spared<T: Drop>(
    nodes: &mut EcoVec<Node<T>>,
    index: usize,
) -> Result<(usize, usize), EcoError>
    requires within { index < length (items_of nodes.old) }
    requires bounded { length (items_of nodes.old) < 2 ^ 64 }
    ensures leads { IfOk result (λ there. LeadsTo nodes.new index there.0 there.1) }
    ensures spare { IfOk result
        (λ there. IfSome (slice_get nodes.new there.0)
        (λ node. CanSpare node × (there.1 < length node.items))) }
    ensures in_bounds { IfOk result (λ there. there.0 < length nodes.new) }
    ensures memory { IfErr result (λ error. error ≡ Memory) }
    ensures items { items_of nodes.new ≡ items_of nodes.old }
    ensures tallest { tallest nodes.new ≤ tallest nodes.old }
    ensures fit { (h : ℕ) → AllFit h nodes.old → AllFit h nodes.new }
{
    let (at, rest) = seek(nodes.as_slice(), index);
    if nodes.as_slice()[at].can_spare() {
        return Ok((at, rest));
    }
    brace(nodes, at);
    let (at, rest) = seek(nodes.as_slice(), index);
    if nodes.as_slice()[at].can_spare() {
        return Ok((at, rest));
    }
    Err(EcoError::Memory)
}
