//! Changes an element by a closure. A refusal leaves everything as it was.
ghost use Rattle.std.specs.Prelude.{◌≡◌, ◌<◌, ◌≤◌, ℕ, length, IfOk};
ghost use Rattle.ecow_block.specs.Updates.{TakesKeptAt, UpdatesAt};
ghost use Rattle.ecow_list.specs.Refusals.{RefusesForMemory};
ghost use Rattle.ecow_tree.specs.Kept.{SomeKept};
ghost use Rattle.ecow_tree.specs.Nodes.{items_of, tallest, AllFit};

use crate::node::Node;
use crate::node::seek::seek;
use ecow_list::block::Block;
use ecow_list::{EcoError, EcoVec};

impl<T: Clone> Node<T> {
    /// Calls `f` once with the element at `index`, and returns what `f` returns.
    #[cycle(update)]
    pub(crate) fn update<R, F: FnOnce(&mut T) -> R>(
        &mut self,
        index: usize,
        f: F,
    ) -> Result<R, EcoError>
        requires within { index < length self.old.items }
        requires callable { TakesKeptAt F.FnOnce f T.is_clone self.old.items index }
        ensures kept { IfOk result (λ answer. SomeKept T.is_clone self.old.items
            (λ xs. UpdatesAt F.FnOnce f index xs self.new.items answer)) }
        ensures height { self.new.height ≡ self.old.height }
        ensures len { length self.new.items ≡ length self.old.items }
        ensures refused { RefusesForMemory self.old.items result self.new.items }
    {
        if self.height == 0 {
            let answer = self.items.update(index, f)?;
            return Ok(answer);
        }
        let answer = Self::update_below(&mut self.nodes, index, f)?;
        Ok(answer)
    }

    /// Calls `f` once with the element at `index` of all elements of some nodes.
    #[cycle(update)]
    fn update_below<R, F: FnOnce(&mut T) -> R>(
        nodes: &mut EcoVec<Node<T>>,
        index: usize,
        f: F,
    ) -> Result<R, EcoError>
        requires within { index < length (items_of nodes.old) }
        requires callable { TakesKeptAt F.FnOnce f T.is_clone (items_of nodes.old) index }
        ensures kept { IfOk result (λ answer. SomeKept T.is_clone (items_of nodes.old)
            (λ xs. UpdatesAt F.FnOnce f index xs (items_of nodes.new) answer)) }
        ensures refused { RefusesForMemory (items_of nodes.old) result (items_of nodes.new) }

        // The shape stays.
        ensures tallest { tallest nodes.new ≤ tallest nodes.old }
        ensures fit { (h : ℕ) → AllFit h nodes.old → AllFit h nodes.new }
        ensures some { length nodes.new ≡ length nodes.old }
        ensures len { length (items_of nodes.new) ≡ length (items_of nodes.old) }
    {
        let (at, rest) = seek(nodes.as_slice(), index);
        let Ok(block) = nodes.own_mut() else {
            return Err(EcoError::Memory);
        };
        let answer = block.as_mut_slice()[at].update(rest, f)?;
        Ok(answer)
    }
}
