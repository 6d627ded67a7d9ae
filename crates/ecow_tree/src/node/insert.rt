//! Inserts an element. A refusal leaves all elements as they were.
ghost use Rattle.std.specs.Prelude.{◌≡◌, ◌+◌, ◌<◌, ◌≤◌, ℕ, length, slice_get, insert, IfErr, IfSome, OnOk, OnErr};
ghost use Rattle.ecow_tree.specs.Kept.{AreKeptIn};
ghost use Rattle.ecow_tree.specs.Nodes.{items_of, tallest, AllFit, LeadsTo};

use crate::node::leaf::insert_parting;
use crate::node::part::part;
use crate::node::seek::place;
use crate::node::{Node, for_memory};
use ecow_base::MAX_LEN;
use ecow_list::{EcoVec, Rejected};

impl<T: Clone> Node<T> {
    /// Inserts `value` before the element at `index`.
    #[cycle(insert)]
    pub(crate) fn insert(&mut self, index: usize, value: T) -> Result<(), Rejected<T>>
        requires within { index ≤ length self.old.items }
        requires bounded { length self.old.items < MAX_LEN }
        ensures kept { OnOk result (AreKeptIn T.is_clone self.old.items
            (λ xs. insert xs index value) self.new.items) }
        ensures height { self.new.height ≡ self.old.height }
        ensures unchanged { OnErr result (self.new.items ≡ self.old.items) }
        ensures value_returned { IfErr result (λ rejected. rejected.value ≡ value) }
    {
        let len = self.len();
        if self.height == 0 {
            self.items.insert(index, value)?;
            self.len = len + 1;
            return Ok(());
        }
        insert_below(&mut self.nodes, len, index, value)?;
        self.len = len + 1;
        Ok(())
    }
}

/// Inserts `value` before the element at `index` of the `len` elements of some nodes.
#[cycle(insert)]
fn insert_below<T: Clone>(
    nodes: &mut EcoVec<Node<T>>,
    len: usize,
    index: usize,
    value: T,
) -> Result<(), Rejected<T>>
    requires some { 0 < length nodes.old }
    requires len { len ≡ length (items_of nodes.old) }
    requires within { index ≤ length (items_of nodes.old) }
    requires bounded { length (items_of nodes.old) < MAX_LEN }
    ensures kept { OnOk result (AreKeptIn T.is_clone (items_of nodes.old)
        (λ xs. insert xs index value) (items_of nodes.new)) }
    ensures unchanged { OnErr result (items_of nodes.new ≡ items_of nodes.old) }
    ensures value_returned { IfErr result (λ rejected. rejected.value ≡ value) }

    // The nodes that come are as high as the others.
    ensures tallest { tallest nodes.new ≤ tallest nodes.old }
    ensures fit { (h : ℕ) → AllFit h nodes.old → AllFit h nodes.new }
    ensures some { 0 < length nodes.new }
{
    let (at, rest) = place(nodes.as_slice(), len, index);
    if nodes.as_slice()[at].is_full_leaf() {
        insert_parting(nodes, at, rest, value)?;
        return Ok(());
    }
    insert_there(nodes, at, rest, value)?;
    part(nodes, at, index == len);
    Ok(())
}

/// Inserts `value` before the element at `index` of the node at `at`.
#[cycle(insert)]
fn insert_there<T: Clone>(
    nodes: &mut EcoVec<Node<T>>,
    at: usize,
    index: usize,
    value: T,
) -> Result<(), Rejected<T>>
    requires found { IfSome (slice_get nodes.old at) (λ node. index ≤ length node.items) }
    requires in_bounds { at < length nodes.old }
    requires bounded { length (items_of nodes.old) < MAX_LEN }
    ensures kept { (all : ℕ)
        → LeadsTo nodes.old all at index
        → OnOk result (AreKeptIn T.is_clone (items_of nodes.old)
        (λ xs. insert xs all value) (items_of nodes.new)) }
    ensures unchanged { OnErr result (items_of nodes.new ≡ items_of nodes.old) }
    ensures value_returned { IfErr result (λ rejected. rejected.value ≡ value) }
    ensures tallest { tallest nodes.new ≤ tallest nodes.old }
    ensures fit { (h : ℕ) → AllFit h nodes.old → AllFit h nodes.new }
    ensures some { length nodes.new ≡ length nodes.old }
{
    let Ok(block) = nodes.own_mut() else {
        return Err(for_memory(value));
    };
    block.as_mut_slice()[at].insert(index, value)?;
    Ok(())
}
