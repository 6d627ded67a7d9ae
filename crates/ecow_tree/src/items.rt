//! Items of iterators that become elements of a tree.
ghost use Rattle.std.specs.Prelude.{◌≡◌, ◌+◌, ◌<◌, ◌≤◌, ◌↔◌, List, length, IfOk, IsErrOf, OnErr};
ghost use Rattle.std.specs.Iterator.{ExtendsWithItems, IsFiniteIterable};
ghost use Rattle.ecow_base.specs.Clones.{ClonesAreEqual};
ghost use Rattle.ecow_list.specs.Vectors.{Appends, GivesFirst, GivesItems, Lengthens, SomeFirst};
ghost use Rattle.ecow_tree.specs.Recopied.{AppendsCopies, AreCopies};

use crate::tree::EcoTree;
use ecow_base::MAX_LEN;
use ecow_list::EcoError;
use std::alloc::Global;

impl<T: Clone> EcoTree<T> {
    /// Appends the items of `iter`, one after another, each as `push` does. The size hint isn't
    /// asked.
    ///
    /// Takes time logarithmic in the length for each item. If the list shares blocks, those on the
    /// way to its end are copied at the first item.
    ///
    /// # Errors
    ///
    /// `Capacity` if the list has 2^63 - 1 elements and there is another item; `Memory` if there is
    /// no memory for a block, or the clone of an element is refused. The refused item is dropped;
    /// those before it stay, and no further one is asked for.
    pub fn extend<I: IntoIterator<Item = T>>(&mut self, iter: I) -> Result<(), EcoError>
        requires { IsFiniteIterable
            I.into_iter_gives I.IntoIter.can_next I.IntoIter.remaining iter }
        ensures ok { ClonesAreEqual T.is_clone
            → ExtendsWithItems I.into_iter_gives I.IntoIter.next_gives Appends
            iter self.old self.new result }
        ensures copies { ExtendsWithItems I.into_iter_gives I.IntoIter.next_gives
            (AppendsCopies T.is_clone) iter self.old self.new result }
        ensures len { ExtendsWithItems I.into_iter_gives I.IntoIter.next_gives Lengthens
            iter self.old self.new result }
        ensures refused { OnErr result
            ((items : List T)
            × GivesFirst I.into_iter_gives I.IntoIter.next_gives iter items
            × (length self.new + 1 ≡ length self.old + length items)) }
        ensures capacity { OnErr result
            (IsErrOf result EcoError.Capacity ↔ (MAX_LEN ≤ length self.new)) }
    {
        let mut items = iter.into_iter();
        while let Some(item) = items.next() {
            if let Err(rejected) = self.push(item) {
                return Err(rejected.error);
            }
        }
        Ok(())
    }

    /// Makes a tree of the items of `iter`, which are pushed one after another. The size hint isn't
    /// asked.
    ///
    /// # Errors
    ///
    /// `Capacity` at the item past 2^63 - 1; `Memory` if there is no memory for a block. The items
    /// so far are dropped, and no further one is asked for. The call is never refused if there are
    /// no items.
    pub fn from_iter<I: IntoIterator<Item = T>>(alloc: Global, iter: I) -> Result<Self, EcoError>
        requires { IsFiniteIterable
            I.into_iter_gives I.IntoIter.can_next I.IntoIter.remaining iter }
        ensures ok { ClonesAreEqual T.is_clone
            → IfOk result (λ tree. GivesItems I.into_iter_gives I.IntoIter.next_gives iter tree) }
        ensures copies { IfOk result (λ tree.
            (items : List T)
            × GivesItems I.into_iter_gives I.IntoIter.next_gives iter items
            × AreCopies T.is_clone (length items) items tree) }
        ensures refused { OnErr result
            (SomeFirst I.into_iter_gives I.IntoIter.next_gives iter
            (λ items.
            (0 < length items) × (IsErrOf result EcoError.Capacity ↔ (MAX_LEN < length items)))) }
    {
        let mut tree = EcoTree::new(alloc);
        tree.extend(iter)?;
        Ok(tree)
    }
}
