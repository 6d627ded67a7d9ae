//! A node of the tree: a leaf with elements, or a node over further nodes.
ghost use Rattle.std.specs.Prelude.{◌≡◌, ◌+◌, ◌*◌, ◌<◌, ◌≤◌, ◌^◌, ◌==◌, ◌++◌, [], List, length, drop, take, Some, slice_get, IsTrue};
ghost use Rattle.ecow_list.specs.declared.error.EcoError.TheVariants.{Memory};
ghost use Rattle.ecow_tree.specs.Nodes.{items_of, tallest, AllFit};

use crate::node::seek::seek;
use ecow_list::{EcoError, EcoVec, Rejected};
use std::alloc::{AllocError, Global};
use std::marker::Model;

mod concat;
mod extend;
mod halves;
mod insert;
mod join;
mod leaf;
mod part;
mod remove;
mod seek;
mod set;
mod update;

/// A leaf of so many elements is parted where another comes in.
pub(crate) const LEAF: usize = 128;

/// A node over so many nodes is parted.
pub(crate) const FAN: usize = 16;

/// Hands `value` back, since there was no memory.
pub(crate) fn for_memory<T>(value: T) -> Rejected<T>
    ensures error { result.error ≡ Memory }
    ensures value { result.value ≡ value }
{
    Rejected {
        error: EcoError::Memory,
        value,
    }
}

/// A leaf with elements, or a node over further nodes. All leaves below a node are as far down.
#[derive(Drop)]
pub struct Node<T> {
    /// How high the node stands above its leaves. A leaf has the height 0.
    height: usize,
    /// The number of elements in all leaves below.
    len: usize,
    /// The elements of a leaf.
    items: EcoVec<T>,
    /// The nodes below.
    nodes: EcoVec<Node<T>>,
}

impl<T> Model for Node<T> {
    ghost use Rattle.std.specs.Prelude.{◌++◌};
    ghost use Rattle.std.proofs.Common.{arith};
    ghost use Rattle.ecow_tree.specs.Grown.{Grown};
    ghost use Rattle.ecow_tree.specs.Nodes.{items_of, IsNode};

    ghost Value = { Grown T };

    ghost view = { λ n. record { height = n.height; items = n.items ++ items_of n.nodes } };

    ghost invariant = { λ n. IsNode n.height n.len n.items n.nodes };

    ghost size = { λ n. n.height };

    ghost size_decreases = { λ n h. omega (arith, h.low) };
}

/// Shares all blocks with the clone. Takes no memory.
impl<T: Drop> Clone for Node<T> {
    ghost is_clone = { λ node copy. copy ≡ node };

    fn clone(&self) -> Result<Self, AllocError> {
        let items = self.items.clone()?;
        let nodes = self.nodes.clone()?;
        Ok(Node {
            height: self.height,
            len: self.len,
            items,
            nodes,
        })
    }
}

impl<T> Node<T> {
    /// A leaf with these elements.
    pub(crate) fn leaf(items: EcoVec<T>) -> Self
        ensures items { result.items ≡ items }
        ensures height { result.height ≡ 0 }
    {
        let (len, alloc) = (items.len(), items.allocator());
        Node {
            height: 0,
            len,
            items,
            nodes: EcoVec::new(alloc),
        }
    }

    /// A node over these nodes, which have `len` elements.
    pub(crate) fn over(height: usize, len: usize, nodes: EcoVec<Node<T>>) -> Self
        requires some { 0 < length nodes }
        requires fit { AllFit height nodes }
        requires len { len ≡ length (items_of nodes) }
        ensures items { result.items ≡ items_of nodes }
        ensures height { result.height ≡ height }
    {
        let alloc = nodes.allocator();
        Node {
            height,
            len,
            items: EcoVec::new(alloc),
            nodes,
        }
    }

    /// The allocator for further blocks.
    pub(crate) fn allocator(&self) -> Global {
        self.items.allocator()
    }

    /// The number of elements.
    pub(crate) fn len(&self) -> usize
        ensures { result ≡ length self.now.items }
    {
        self.len
    }

    /// How high the node stands above its leaves.
    pub(crate) fn height(&self) -> usize
        ensures height { result ≡ self.now.height }
        ensures bounded { 0 < result → 4 ^ result ≤ 4 * length self.now.items }
    {
        self.height
    }

    /// Whether this is a leaf that has as many elements as it may.
    pub(crate) fn is_full_leaf(&self) -> bool
        ensures { IsTrue result → (self.now.height ≡ 0) × (2 ≤ length self.now.items) }
    {
        self.items.len() >= LEAF
    }

    /// The element at an index.
    pub(crate) fn at(&self, index: usize) -> &T
        requires { index < length self.now.items }
        ensures { slice_get self.now.items index ≡ Some result.now }
    {
        if self.height == 0 {
            return &self.items.as_slice()[index];
        }
        let (at, rest) = seek(self.nodes.as_slice(), index);
        self.nodes.as_slice()[at].at(rest)
    }

    /// The elements from an index on that stand in its leaf.
    pub(crate) fn rest_at(&self, index: usize) -> &[T]
        requires { index < length self.now.items }
        ensures some { 0 < length result.now }
        ensures part { (more : List T) × (drop index self.now.items ≡ result.now ++ more) }
    {
        if self.height == 0 {
            let rest = &self.items.as_slice()[index..];
            return rest;
        }
        let (at, rest) = seek(self.nodes.as_slice(), index);
        self.nodes.as_slice()[at].rest_at(rest)
    }

    /// The elements before an index that stand in the leaf of the one before it.
    pub(crate) fn up_to(&self, end: usize) -> &[T]
        requires some { 0 < end }
        requires within { end ≤ length self.now.items }
        ensures some { 0 < length result.now }
        ensures part { (less : List T) × (take end self.now.items ≡ less ++ result.now) }
    {
        if self.height == 0 {
            let part = &self.items.as_slice()[..end];
            return part;
        }
        let (at, rest) = seek(self.nodes.as_slice(), end - 1);
        self.nodes.as_slice()[at].up_to(rest + 1)
    }
}
