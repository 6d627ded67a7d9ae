//! The calls that put trees together and cut them.
ghost use Rattle.std.specs.Prelude.{◌≡◌, ◌+◌, ◌-◌, ◌<◌, ◌≤◌, ◌++◌, [], drop, length, min, take, IfOk, IsErrOf, IsOk, IsSome, OnOk, OnErr, ◌↔◌};
ghost use Rattle.std.specs.List.{replace_range};
ghost use Rattle.ecow_base.specs.Range.{range_of};
ghost use Rattle.ecow_base.specs.Clones.{ClonesAreEqual};
ghost use Rattle.ecow_list.specs.Refusals.{RefusesPast};
ghost use Rattle.ecow_list.specs.Ranges.{AtRange};
ghost use Rattle.ecow_tree.specs.Kept.{AreKept, IsKeptTwice, RefusesKept, ReplacesKept, SomeKept};

use crate::node::Node;
use crate::tree::EcoTree;
use ecow_base::{MAX_LEN, resolve};
use ecow_list::{EcoError, EcoVec};
use std::mem::replace;
use std::ops::RangeBounds;

impl<T: Drop> EcoTree<T> {
    /// Moves the elements of `other` behind those of this tree. `other` is empty then.
    ///
    /// This tree shares all blocks of `other`, also if others share them: no element is cloned, and
    /// a leaf that isn't full stays so. To keep `other`, append a clone of it.
    ///
    /// Takes time logarithmic in the lengths.
    ///
    /// # Errors
    ///
    /// `Capacity` if the length would pass 2^63 - 1; `Memory` if there is no memory for a block.
    /// Both trees are unchanged.
    pub fn append(&mut self, other: &mut Self) -> Result<(), EcoError>
        ensures ok { OnOk result (self.new ≡ self.old ++ other.old) }
        ensures left { OnOk result (other.new ≡ []) }
        ensures refused { RefusesPast (length self.old + length other.old)
            self.old result self.new }
        ensures other_stays { OnErr result (other.new ≡ other.old) }
    {
        if self.len() > MAX_LEN || other.len() > MAX_LEN - self.len() {
            return Err(EcoError::Capacity);
        }
        self.root = Node::concat(&self.root, &other.root)?;
        other.clear();
        Ok(())
    }
}

impl<T: Clone> EcoTree<T> {
    /// Removes the elements from `at` on, and returns them as another tree. `at` is at most the
    /// length.
    ///
    /// Both trees share all blocks with those that shared them before, but a shared block of
    /// elements that is cut, which is cloned. A tree that shares nothing clones nothing.
    ///
    /// Takes time logarithmic in the length.
    ///
    /// This project's own, named as that of std's `Vec`.
    ///
    /// # Errors
    ///
    /// `Memory` if there is no memory for a block, or the clone of an element is refused. The tree
    /// is unchanged, but the elements of a shared block may be clones then. The call is never
    /// refused if `at` is 0 or the length.
    pub fn split_off(&mut self, at: usize) -> Result<Self, EcoError>
        requires { at ≤ length self.old }
        ensures ok { ClonesAreEqual T.is_clone
            → IfOk result (λ rest. (self.new ≡ take at self.old) × (rest ≡ drop at self.old)) }
        ensures kept { IfOk result (λ rest. SomeKept T.is_clone self.old
            (λ kept. (self.new ≡ take at kept) × (rest ≡ drop at kept))) }
        ensures len { IfOk result (λ rest. (length self.new ≡ at)
            × (length rest ≡ length self.old - at)) }
        ensures refused { RefusesKept T.is_clone self.old result self.new }
        ensures all { at ≡ 0 → IsOk result
            × IfOk result (λ rest. (self.new ≡ []) × (rest ≡ self.old)) }
        ensures none { at ≡ length self.old → IsOk result × (self.new ≡ self.old) }
    {
        let alloc = self.allocator();
        if at == self.len() {
            return Ok(EcoTree::new(alloc));
        }
        if at == 0 {
            return Ok(replace(self, EcoTree::new(alloc)));
        }
        if self.root.height() == 0 {
            let root = self.root.split(at)?;
            return Ok(EcoTree { root });
        }
        self.root.cut(at)?;
        let (front, root) = self.root.halves(at)?;
        self.root = front;
        Ok(EcoTree { root })
    }

    /// Keeps the first `len` elements, or all if there are fewer, and drops the others.
    ///
    /// A tree that shares nothing clones nothing. If it shares blocks, the one that is cut is
    /// cloned.
    ///
    /// Takes time logarithmic in the length, and linear in the number of elements dropped.
    ///
    /// # Errors
    ///
    /// `Memory` if there is no memory for a block, or the clone of an element is refused. The tree
    /// is unchanged, but the elements of a shared block may be clones then. The call is never
    /// refused if all elements stay or none does.
    pub fn truncate(&mut self, len: usize) -> Result<(), EcoError>
        ensures ok { ClonesAreEqual T.is_clone → OnOk result (self.new ≡ take len self.old) }
        ensures kept { OnOk result (AreKept T.is_clone (take len self.old) self.new) }
        ensures len { OnOk result (length self.new ≡ min len (length self.old)) }
        ensures refused { RefusesKept T.is_clone self.old result self.new }
        ensures keeps_all { length self.old ≤ len → IsOk result × (self.new ≡ self.old) }
        ensures keeps_none { len ≡ 0 → IsOk result × (self.new ≡ []) }
    {
        if len >= self.len() {
            return Ok(());
        }
        let _rest = self.split_off(len)?;
        Ok(())
    }

    /// Replaces the elements in `range`, which lies within the length, with clones of `elements`.
    ///
    /// The new elements stand in leaves of their own. All others stay in their blocks; a shared
    /// block of elements in which the range begins or ends is cloned.
    ///
    /// Takes time linear in the number of new elements and of those dropped, and logarithmic in the
    /// length.
    ///
    /// This project's own, named as that of std's `String`.
    ///
    /// # Errors
    ///
    /// `Capacity` if the new length would pass 2^63 - 1; `Memory` if there is no memory for a
    /// block, or the clone of an element is refused. The tree is unchanged, but the elements of a
    /// shared block may be clones then.
    pub fn replace_range<R: RangeBounds<usize>>(
        &mut self,
        range: R,
        elements: &[T],
    ) -> Result<(), EcoError>
        requires known { R.has_bounds range }
        requires in_range { IsSome
            (range_of (R.start_bound range, R.end_bound range) (length self.old)) }
        ensures ok { ClonesAreEqual T.is_clone
            → OnOk result (AtRange (R.start_bound range, R.end_bound range) (length self.old)
            (λ start end. self.new ≡ replace_range self.old start end elements.now)) }
        ensures kept { OnOk result
            (AtRange (R.start_bound range, R.end_bound range) (length self.old)
            (λ start end. ReplacesKept T.is_clone self.old start end elements.now self.new)) }

        // A refusal leaves the tree, and is for capacity exactly past the limit.
        ensures kept_on_refusal { OnErr result (IsKeptTwice T.is_clone self.old self.new) }
        ensures unchanged { ClonesAreEqual T.is_clone → OnErr result (self.new ≡ self.old) }
        ensures capacity { AtRange (R.start_bound range, R.end_bound range) (length self.old)
            (λ start end. IsErrOf result EcoError.Capacity
            ↔ (MAX_LEN < length self.old - (end - start) + length elements.now)) }
    {
        let (start, end) = resolve(&range, self.len()).unwrap();
        self.replace_between(start, end, elements)?;
        Ok(())
    }

    /// Replaces the elements from `start` up to `end`.
    fn replace_between(&mut self, start: usize, end: usize, elements: &[T]) -> Result<(), EcoError>
        requires ordered { start ≤ end }
        requires within { end ≤ length self.old }
        ensures kept { OnOk result
            (ReplacesKept T.is_clone self.old start end elements.now self.new) }
        ensures refused { OnErr result (IsKeptTwice T.is_clone self.old self.new) }
        ensures capacity { IsErrOf result EcoError.Capacity
            ↔ (MAX_LEN < length self.old - (end - start) + length elements.now) }
    {
        let left = self.len() - (end - start);
        if left > MAX_LEN || elements.len() > MAX_LEN - left {
            return Err(EcoError::Capacity);
        }
        let middle = Self::from_slice(self.allocator(), elements)?;
        if self.is_empty() {
            *self = middle;
            return Ok(());
        }
        self.root = self.root.with_middle(start, end, &middle.root)?;
        Ok(())
    }
}
