//! `EcoTree`: a list in a tree of shared blocks.
ghost use Rattle.std.specs.Prelude.{◌≡◌, ◌+◌, ◌-◌, ◌<◌, ◌≤◌, ◌==◌, ◌*◌, ◌^◌, ◌∷◌, ◌++◌, [], List, length, drop, Some, take, slice_get, slice_set, insert, remove, IfOk, IsOk, IsSome, OnOk, MatchOption, ◌↔◌};
ghost use Rattle.ecow_base.specs.Clones.{ClonesAreEqual};
ghost use Rattle.ecow_block.specs.Updates.{TakesKeptAt, UpdatesAt};
ghost use Rattle.ecow_list.specs.Refusals.{RefusesForMemory, RejectsForMemory, RejectsPast};
ghost use Rattle.ecow_tree.specs.Kept.{Changes, ChangesBy};

use crate::node::{Node, for_memory};
use ecow_base::MAX_LEN;
use ecow_list::{EcoError, EcoVec, Rejected};
use std::alloc::{AllocError, Global};
use std::marker::Model;

/// A list whose clones share their elements in blocks of up to 128, in a tree.
///
/// A clone takes no memory and clones no element, as that of an `EcoVec`. A change of a list that
/// shares its blocks copies those on the way to the element: one of elements, and for each level of
/// the tree one of at most 16 nodes. So each version of a long list can be kept, at the price of
/// the changes alone. A change of a list that shares nothing is made in place.
///
/// ```
/// let mut list = EcoTree::new(alloc);
/// for number in 0..1000 {
///     list.push(number)?;
/// }
/// let before = list.clone()?;
/// list.set(500, 0)?;
/// assert_eq!((before.get(500), list.get(500)), (Some(&500), Some(&0)));
/// ```
#[derive(Drop)]
pub struct EcoTree<T> {
    /// The node above all others.
    pub(crate) root: Node<T>,
}

impl<T> Model for EcoTree<T> {
    // A contract sees the elements, and not how they are spread over blocks.
    ghost Value = { List T };

    ghost view = { λ t. t.root.items };
}

/// Shares all blocks with a new list. Takes constant time and no memory, and clones no element.
///
/// The call is refused only if a block has as many owners as its count can hold.
impl<T: Drop> Clone for EcoTree<T> {
    ghost is_clone = { λ tree copy. copy ≡ tree };

    fn clone(&self) -> Result<Self, AllocError> {
        Ok(EcoTree {
            root: self.root.clone()?,
        })
    }
}

impl<T: Drop> EcoTree<T> {
    /// An empty list, which has no block. Takes no memory.
    pub fn new(alloc: Global) -> Self
        ensures { result ≡ [] }
    {
        EcoTree {
            root: Node::leaf(EcoVec::new(alloc)),
        }
    }

    /// Drops all elements that no other list shares. This is never refused.
    ///
    /// Takes time linear in the number of blocks and elements dropped.
    pub fn clear(&mut self)
        ensures { self.new ≡ [] }
    {
        let alloc = self.root.allocator();
        self.root = Node::leaf(EcoVec::new(alloc));
    }
}

impl<T> EcoTree<T> {
    /// The allocator that the list takes its memory from.
    pub fn allocator(&self) -> Global {
        self.root.allocator()
    }

    /// The number of elements.
    pub fn len(&self) -> usize
        ensures { result ≡ length self.now }
    {
        self.root.len()
    }

    /// Whether there is no element.
    pub fn is_empty(&self) -> bool
        ensures { result ≡ (length self.now == 0) }
    {
        self.len() == 0
    }

    /// The number of levels above the leaves, which hold the elements. It is logarithmic in the
    /// length, whatever changes were made.
    pub fn height(&self) -> usize
        ensures { 0 < result → 4 ^ result ≤ 4 * length self.now }
    {
        self.root.height()
    }

    /// The element at `index`, or `None` past the end. Takes time logarithmic in the length.
    pub fn get(&self, index: usize) -> Option<&T>
        ensures { MatchOption result (length self.now ≤ index)
            (λ value. slice_get self.now index ≡ Some value.now) }
    {
        if index < self.root.len() {
            return Some(self.root.at(index));
        }
        None
    }

    /// The elements from `index` on that stand in its block, at least one. So a walk over all
    /// elements begins at 0, and goes on behind those that came. `index` is below the length.
    ///
    /// Takes time logarithmic in the length, for up to 128 elements.
    pub fn chunk_at(&self, index: usize) -> &[T]
        requires { index < length self.now }
        ensures some { 0 < length result.now }
        ensures part { (more : List T) × (drop index self.now ≡ result.now ++ more) }
    {
        self.root.rest_at(index)
    }

    /// The elements before `end` that stand in one block, at least one. So a walk from the back
    /// begins at the length, and goes on before those that came. `end` is above 0 and at most the
    /// length.
    ///
    /// Takes time logarithmic in the length, for up to 128 elements.
    pub fn chunk_before(&self, end: usize) -> &[T]
        requires some { 0 < end }
        requires within { end ≤ length self.now }
        ensures some { 0 < length result.now }
        ensures part { (less : List T) × (take end self.now ≡ less ++ result.now) }
    {
        self.root.up_to(end)
    }

    /// The first element, or `None` if there is none. Takes time logarithmic in the length.
    pub fn first(&self) -> Option<&T>
        ensures { MatchOption result (self.now ≡ [])
            (λ value. slice_get self.now 0 ≡ Some value.now) }
    {
        self.get(0)
    }

    /// The last element, or `None` if there is none. Takes time logarithmic in the length.
    pub fn last(&self) -> Option<&T>
        ensures { MatchOption result (self.now ≡ [])
            (λ value. slice_get self.now (length self.now - 1) ≡ Some value.now) }
    {
        let len = self.root.len();
        if len == 0 {
            return None;
        }
        Some(self.root.at(len - 1))
    }
}

impl<T: Clone> EcoTree<T> {
    /// Replaces the element at `index`, which is below the length, with `value`, and drops the old
    /// element. Shared blocks on the way to it are copied first.
    ///
    /// Takes time logarithmic in the length. A shared block of elements is cloned.
    ///
    /// # Errors
    ///
    /// `Memory` if there is no memory for the copy of a shared block, or the clone of an element is
    /// refused. The list is unchanged, and `value` comes back in the error.
    #[tactic(auto, using(crate::proofs::Kept::changes))]
    pub fn set(&mut self, index: usize, value: T) -> Result<(), Rejected<T>>
        requires { index < length self.old }
        ensures change { Changes T.is_clone self.old
            (λ xs. slice_set xs index value)
            result self.new }
        ensures len { length self.new ≡ length self.old }
        ensures refused { RejectsForMemory value self.old result self.new }
    {
        self.root.set(index, value)
    }

    /// Calls `f` once with a mutable borrow of the element at `index`, which is below the length,
    /// and returns what `f` returns. Shared blocks on the way to it are copied first.
    ///
    /// Takes the time of `f`, and time logarithmic in the length. A shared block of elements is
    /// cloned.
    ///
    /// # Errors
    ///
    /// `Memory` if there is no memory for the copy of a shared block, or the clone of an element is
    /// refused. The list is unchanged, and `f` isn't called.
    #[tactic(auto, using(crate::proofs::Kept::changes_by))]
    pub fn update<R, F: FnOnce(&mut T) -> R>(&mut self, index: usize, f: F) -> Result<R, EcoError>
        requires in_bounds { index < length self.old }
        requires callable { TakesKeptAt F.FnOnce f T.is_clone self.old index }
        ensures change { ChangesBy T.is_clone self.old
            (λ xs answer ys. UpdatesAt F.FnOnce f index xs ys answer)
            result self.new }
        ensures len { OnOk result (length self.new ≡ length self.old) }
        ensures refused { RefusesForMemory self.old result self.new }
    {
        let answer = self.root.update(index, f)?;
        Ok(answer)
    }

    /// Inserts `value` at `index`, before the element that stands there. `index` is at most the
    /// length. Shared blocks on the way are copied first, and a full one is parted in two.
    ///
    /// Takes time logarithmic in the length. A shared block of elements is cloned.
    ///
    /// # Errors
    ///
    /// `Capacity` if the list has 2^63 - 1 elements; `Memory` if there is no memory for a block, or
    /// the clone of an element is refused. The list is unchanged, and `value` comes back in the
    /// error.
    #[tactic(auto, using(crate::proofs::Kept::changes))]
    pub fn insert(&mut self, index: usize, value: T) -> Result<(), Rejected<T>>
        requires { index ≤ length self.old }
        ensures change { Changes T.is_clone self.old
            (λ xs. insert xs index value)
            result self.new }
        ensures len { OnOk result (length self.new ≡ length self.old + 1) }
        ensures refused { RejectsPast (length self.old + 1) value self.old result self.new }
    {
        if self.root.len() >= MAX_LEN {
            return Err(Rejected {
                error: EcoError::Capacity,
                value,
            });
        }
        if self.root.lift().is_err() {
            return Err(for_memory(value));
        }
        match self.root.insert(index, value) {
            Ok(()) => Ok(()),
            Err(rejected) => Err(for_memory(rejected.value)),
        }
    }

    /// Appends `value`. Shared blocks on the way to the end are copied first.
    ///
    /// Takes time logarithmic in the length. A shared block of elements is cloned, unless it is
    /// full.
    ///
    /// # Errors
    ///
    /// `Capacity` if the list has 2^63 - 1 elements; `Memory` if there is no memory for a block, or
    /// the clone of an element is refused. The list is unchanged, and `value` comes back in the
    /// error.
    pub fn push(&mut self, value: T) -> Result<(), Rejected<T>>
        ensures change { Changes T.is_clone self.old (λ xs. xs ++ value ∷ []) result self.new }
        ensures len { OnOk result (length self.new ≡ length self.old + 1) }
        ensures refused { RejectsPast (length self.old + 1) value self.old result self.new }
    {
        self.insert(self.len(), value)
    }

    /// Removes the last element and returns it, or `None` if there is none. Shared blocks on the
    /// way to it are copied first.
    ///
    /// Takes time logarithmic in the length. A shared block of elements is cloned.
    ///
    /// # Errors
    ///
    /// `Memory` if there is no memory for the copy of a shared block, or the clone of an element is
    /// refused. The list is unchanged. The call is never refused if there is no element.
    #[tactic(auto, using(crate::proofs::Kept::changes_by))]
    pub fn pop(&mut self) -> Result<Option<T>, EcoError>
        ensures change { ChangesBy T.is_clone self.old
            (λ xs last ys.
            (last ≡ slice_get xs (length xs - 1)) × (ys ≡ take (length xs - 1) xs))
            result self.new }
        ensures taken { ClonesAreEqual T.is_clone
            → IfOk result (λ taken.
            MatchOption taken (self.old ≡ []) (λ last. self.old ≡ self.new ++ last ∷ [])) }
        ensures some { IfOk result (λ last. IsSome last ↔ (0 < length self.old)) }
        ensures len { OnOk result (length self.new ≡ length self.old - 1) }

        // Refused for memory, and not where there is no element.
        ensures refused { RefusesForMemory self.old result self.new }
        ensures empty { self.old ≡ [] → IsOk result × (self.new ≡ []) }
    {
        let len = self.root.len();
        if len == 0 {
            return Ok(None);
        }
        let last = self.remove(len - 1)?;
        Ok(Some(last))
    }

    /// Removes the element at `index`, which is below the length, and returns it. Shared blocks on
    /// the way are copied first. A block of elements goes with its last one, and a block of few
    /// nodes is joined with a neighbour.
    ///
    /// Takes time logarithmic in the length. A shared block of elements is cloned.
    ///
    /// # Errors
    ///
    /// `Memory` if there is no memory for the copy of a shared block, or the clone of an element is
    /// refused. The list is unchanged.
    #[tactic(auto, using(crate::proofs::Kept::changes_by))]
    pub fn remove(&mut self, index: usize) -> Result<T, EcoError>
        requires { index < length self.old }
        ensures change { ChangesBy T.is_clone self.old
            (λ xs value ys. (slice_get xs index ≡ Some value) × (ys ≡ remove xs index))
            result self.new }
        ensures len { OnOk result (length self.new + 1 ≡ length self.old) }
        ensures refused { RefusesForMemory self.old result self.new }
    {
        self.root.lower()?;
        self.root.remove(index)
    }
}
