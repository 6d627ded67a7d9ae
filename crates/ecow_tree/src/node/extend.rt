//! Appends clones of elements to the last leaf.
ghost use Rattle.std.specs.Prelude.{◌≡◌, ◌+◌, ◌<◌, ◌≤◌, ℕ, length, OnOk};
ghost use Rattle.ecow_base.specs.declared.capacity.TheConstants.{MAX_LEN};
ghost use Rattle.ecow_list.specs.Refusals.{RefusesForMemory};
ghost use Rattle.ecow_tree.specs.Kept.{ExtendsKept};
ghost use Rattle.ecow_tree.specs.Nodes.{items_of, tallest, AllFit};

use crate::node::{LEAF, Node};
use ecow_list::{EcoError, EcoVec};

impl<T> Node<T> {
    /// How many elements the last leaf takes before it is full.
    pub(crate) fn spare(&self) -> usize {
        if self.height == 0 {
            return LEAF.saturating_sub(self.len);
        }
        self.nodes.as_slice()[self.nodes.len() - 1].spare()
    }
}

impl<T: Clone> Node<T> {
    /// Appends clones of `elements` to the last leaf.
    #[cycle(extend)]
    pub(crate) fn extend(&mut self, elements: &[T]) -> Result<(), EcoError>
        requires { length self.old.items + length elements.now ≤ MAX_LEN }
        ensures appends { OnOk result
            (ExtendsKept T.is_clone self.old.items elements.now self.new.items) }
        ensures height { self.new.height ≡ self.old.height }
        ensures refused { RefusesForMemory self.old.items result self.new.items }
    {
        let len = self.len + elements.len();
        if self.height == 0 {
            let Ok(()) = self.items.extend_from_slice(elements) else {
                return Err(EcoError::Memory);
            };
            self.len = len;
            return Ok(());
        }
        extend_last(&mut self.nodes, elements)?;
        self.len = len;
        Ok(())
    }
}

/// Appends clones of `elements` to the last leaf below some nodes.
#[cycle(extend)]
fn extend_last<T: Clone>(nodes: &mut EcoVec<Node<T>>, elements: &[T]) -> Result<(), EcoError>
    requires some { 0 < length nodes.old }
    requires bounded { length (items_of nodes.old) + length elements.now ≤ MAX_LEN }
    ensures appends { OnOk result
        (ExtendsKept T.is_clone (items_of nodes.old) elements.now (items_of nodes.new)) }
    ensures refused { RefusesForMemory (items_of nodes.old) result (items_of nodes.new) }

    // The shape stays.
    ensures tallest { tallest nodes.new ≤ tallest nodes.old }
    ensures fit { (h : ℕ) → AllFit h nodes.old → AllFit h nodes.new }
    ensures some { length nodes.new ≡ length nodes.old }
{
    let last = nodes.len() - 1;
    let Ok(block) = nodes.own_mut() else {
        return Err(EcoError::Memory);
    };
    block.as_mut_slice()[last].extend(elements)
}
