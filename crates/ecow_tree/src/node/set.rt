//! Replaces an element. A refusal leaves everything as it was.
ghost use Rattle.std.specs.Prelude.{◌≡◌, ◌<◌, ◌≤◌, ℕ, length, slice_set, OnOk};
ghost use Rattle.ecow_list.specs.Refusals.{RejectsForMemory};
ghost use Rattle.ecow_tree.specs.Kept.{AreKeptIn};
ghost use Rattle.ecow_tree.specs.Nodes.{items_of, tallest, AllFit};

use crate::node::seek::seek;
use crate::node::{Node, for_memory};
use ecow_list::block::Block;
use ecow_list::{EcoVec, Rejected};

impl<T: Clone> Node<T> {
    /// Replaces the element at `index` with `value`.
    #[cycle(set)]
    pub(crate) fn set(&mut self, index: usize, value: T) -> Result<(), Rejected<T>>
        requires within { index < length self.old.items }
        ensures kept { OnOk result (AreKeptIn T.is_clone self.old.items
            (λ xs. slice_set xs index value) self.new.items) }
        ensures height { self.new.height ≡ self.old.height }
        ensures len { length self.new.items ≡ length self.old.items }
        ensures refused { RejectsForMemory value self.old.items result self.new.items }
    {
        if self.height == 0 {
            self.items.set(index, value)?;
            return Ok(());
        }
        set_below(&mut self.nodes, index, value)?;
        Ok(())
    }
}

/// Replaces the element at `index` of all elements of some nodes.
#[cycle(set)]
fn set_below<T: Clone>(
    nodes: &mut EcoVec<Node<T>>,
    index: usize,
    value: T,
) -> Result<(), Rejected<T>>
    requires within { index < length (items_of nodes.old) }
    ensures kept { OnOk result (AreKeptIn T.is_clone (items_of nodes.old)
        (λ xs. slice_set xs index value) (items_of nodes.new)) }
    ensures refused { RejectsForMemory value (items_of nodes.old) result (items_of nodes.new) }

    // The shape stays.
    ensures tallest { tallest nodes.new ≤ tallest nodes.old }
    ensures fit { (h : ℕ) → AllFit h nodes.old → AllFit h nodes.new }
    ensures some { length nodes.new ≡ length nodes.old }
    ensures len { length (items_of nodes.new) ≡ length (items_of nodes.old) }
{
    let (at, rest) = seek(nodes.as_slice(), index);
    let Ok(block) = nodes.own_mut() else {
        return Err(for_memory(value));
    };
    block.as_mut_slice()[at].set(rest, value)?;
    Ok(())
}
