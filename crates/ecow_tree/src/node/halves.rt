//! A node is cut in two.
ghost use Rattle.std.specs.Prelude.{◌≡◌, ◌+◌, ◌-◌, ◌<◌, ◌≤◌, ◌^◌, ◌++◌, ℕ, drop, length, slice_get, take, IfOk, IfErr, IfSome};
ghost use Rattle.ecow_list.specs.Refusals.{RefusesForMemory};
ghost use Rattle.ecow_list.specs.declared.error.EcoError.TheVariants.{Memory};
ghost use Rattle.std.specs.List.{replace_range};
ghost use Rattle.ecow_tree.specs.Kept.{AreKept, IsKeptTwice, SomeKept};
ghost use Rattle.ecow_tree.specs.Nodes.{items_of, tallest, AllFit, LeadsTo};

use crate::node::Node;
use crate::node::part::{over_some, part};
use crate::node::seek::place;
use ecow_list::{EcoError, EcoVec};
use std::alloc::Global;

/// A node with the elements of some nodes, whose blocks it shares.
fn with_all<T: Drop>(alloc: Global, height: usize, nodes: &[Node<T>]) -> Result<Node<T>, EcoError>
    requires fit { AllFit height nodes.now }
    requires bounded { length (items_of nodes.now) < 2 ^ 64 }
    ensures items { IfOk result (λ node. node.items ≡ items_of nodes.now) }
    ensures memory { IfErr result (λ error. error ≡ Memory) }
{
    match nodes {
        [] => Ok(Node::leaf(EcoVec::new(alloc))),
        [node] => Ok(node.clone()?),
        _ => over_some(alloc, height, nodes),
    }
}

impl<T: Drop> Node<T> {
    /// The first `at` elements, and the others. Both share their blocks with this node. So `at` is
    /// no index inside a leaf: `cut` makes sure of that, and it is refused as if for memory.
    pub(crate) fn halves(&self, at: usize) -> Result<(Node<T>, Node<T>), EcoError>
        requires { at ≤ length self.now.items }
        ensures front { IfOk result (λ halves. halves.0.items ≡ take at self.now.items) }
        ensures back { IfOk result (λ halves. halves.1.items ≡ drop at self.now.items) }
        ensures memory { IfErr result (λ error. error ≡ Memory) }
    {
        let alloc = self.allocator();
        if at == 0 {
            return Ok((Node::leaf(EcoVec::new(alloc)), self.clone()?));
        }
        if at == self.len {
            return Ok((self.clone()?, Node::leaf(EcoVec::new(alloc))));
        }
        if self.height == 0 {
            return Err(EcoError::Memory);
        }
        let (height, nodes) = (self.height, self.nodes.as_slice());
        let (there, rest) = place(nodes, self.len, at);
        let (front, back) = nodes[there].halves(rest)?;
        let before = with_all(alloc, height, &nodes[..there])?;
        let behind = with_all(alloc, height, &nodes[there + 1..])?;
        let front = Node::concat(&before, &front)?;
        let back = Node::concat(&back, &behind)?;
        Ok((front, back))
    }
}

impl<T: Clone> Node<T> {
    /// Keeps the first `at` elements of this leaf, and returns a leaf with the others.
    pub(crate) fn split(&mut self, at: usize) -> Result<Node<T>, EcoError>
        requires leaf { self.old.height ≡ 0 }
        requires within { at ≤ length self.old.items }
        ensures kept { IfOk result
            (λ next. SomeKept T.is_clone self.old.items
            (λ kept. (self.new.items ≡ take at kept) × (next.items ≡ drop at kept))) }
        ensures height { self.new.height ≡ self.old.height }
        ensures next { IfOk result (λ next. next.height ≡ 0) }
        ensures len { IfOk result
            (λ next. (length self.new.items ≡ at)
            × (length next.items + at ≡ length self.old.items)) }
        ensures refused { RefusesForMemory self.old.items result self.new.items }
    {
        let rest = self.items.split_off(at)?;
        self.len = at;
        Ok(Node::leaf(rest))
    }

    /// Cuts the leaf in which the element at `at` stands in two before it, unless it is the first
    /// one there. So `halves` isn't refused at this index.
    #[cycle(cut)]
    pub(crate) fn cut(&mut self, at: usize) -> Result<(), EcoError>
        requires within { at ≤ length self.old.items }
        requires inner { 0 < self.old.height }
        ensures kept { AreKept T.is_clone self.old.items self.new.items }
        ensures height { self.new.height ≡ self.old.height }
        ensures refused { RefusesForMemory self.old.items result self.new.items }
    {
        cut_below(&mut self.nodes, self.len, at)
    }
}

impl<T: Clone> Node<T> {
    /// A node with the first `start` elements, those of `middle`, and those from `end` on. A leaf
    /// in which one of both stands is cut there.
    pub(crate) fn with_middle(
        &mut self,
        start: usize,
        end: usize,
        middle: &Node<T>,
    ) -> Result<Node<T>, EcoError>
        requires ordered { start ≤ end }
        requires within { end ≤ length self.old.items }
        requires some { 0 < length self.old.items }
        requires bounded { length self.old.items - (end - start) + length middle.now.items
            < 2 ^ 64 }
        ensures kept { IsKeptTwice T.is_clone self.old.items self.new.items }
        ensures items { IfOk result
            (λ node. node.items ≡ replace_range self.new.items start end middle.now.items) }
        ensures memory { IfErr result (λ error. error ≡ Memory) }
    {
        if self.height == 0 {
            self.raise()?;
        }
        self.cut(start)?;
        self.cut(end)?;
        let (front, _behind) = self.halves(start)?;
        let (_before, back) = self.halves(end)?;
        let front = Node::concat(&front, middle)?;
        let node = Node::concat(&front, &back)?;
        Ok(node)
    }
}

/// Cuts a leaf below some nodes, which have `len` elements.
#[cycle(cut)]
fn cut_below<T: Clone>(nodes: &mut EcoVec<Node<T>>, len: usize, at: usize) -> Result<(), EcoError>
    requires some { 0 < length nodes.old }
    requires len { len ≡ length (items_of nodes.old) }
    requires within { at ≤ length (items_of nodes.old) }
    ensures kept { AreKept T.is_clone (items_of nodes.old) (items_of nodes.new) }
    ensures refused { RefusesForMemory (items_of nodes.old) result (items_of nodes.new) }

    // The nodes that come are as high as the others.
    ensures tallest { tallest nodes.new ≤ tallest nodes.old }
    ensures fit { (h : ℕ) → AllFit h nodes.old → AllFit h nodes.new }
    ensures some { 0 < length nodes.new }
{
    let (there, rest) = place(nodes.as_slice(), len, at);
    let node = &nodes.as_slice()[there];
    if rest == 0 || rest == node.len() {
        return Ok(());
    }
    if node.height() == 0 {
        return cut_leaf(nodes, there, rest);
    }
    cut_there(nodes, there, rest)?;
    part(nodes, there, false);
    Ok(())
}

/// Cuts the leaf at `there` in two, before its element at `at`, which isn't the first.
fn cut_leaf<T: Clone>(nodes: &mut EcoVec<Node<T>>, there: usize, at: usize) -> Result<(), EcoError>
    requires in_bounds { there < length nodes.old }
    requires found { IfSome (slice_get nodes.old there)
        (λ node. (node.height ≡ 0) × (0 < at) × (at < length node.items)) }
    ensures kept { AreKept T.is_clone (items_of nodes.old) (items_of nodes.new) }
    ensures refused { RefusesForMemory (items_of nodes.old) result (items_of nodes.new) }
    ensures tallest { tallest nodes.new ≤ tallest nodes.old }
    ensures fit { (h : ℕ) → AllFit h nodes.old → AllFit h nodes.new }
    ensures some { 0 < length nodes.new }
{
    let Ok(block) = nodes.own_with_room(1) else {
        return Err(EcoError::Memory);
    };
    let next = block.as_mut_slice()[there].split(at)?;
    block.insert_within_capacity(there + 1, next);
    Ok(())
}

/// Cuts a leaf below the node at `there`.
#[cycle(cut)]
fn cut_there<T: Clone>(nodes: &mut EcoVec<Node<T>>, there: usize, at: usize) -> Result<(), EcoError>
    requires in_bounds { there < length nodes.old }
    requires found { IfSome (slice_get nodes.old there)
        (λ node. (0 < node.height) × (at ≤ length node.items)) }
    ensures kept { AreKept T.is_clone (items_of nodes.old) (items_of nodes.new) }
    ensures refused { RefusesForMemory (items_of nodes.old) result (items_of nodes.new) }
    ensures tallest { tallest nodes.new ≤ tallest nodes.old }
    ensures fit { (h : ℕ) → AllFit h nodes.old → AllFit h nodes.new }
    ensures some { length nodes.new ≡ length nodes.old }
{
    let Ok(block) = nodes.own_mut() else {
        return Err(EcoError::Memory);
    };
    block.as_mut_slice()[there].cut(at)
}
