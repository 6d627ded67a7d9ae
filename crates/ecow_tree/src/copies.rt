//! Copies of a tree's elements in one block, and of elements in a tree.
ghost use Rattle.std.specs.Prelude.{◌≡◌, ◌+◌, ◌<◌, ◌≤◌, ◌↔◌, ◌++◌, [], length, IfErr, IfOk, IsErrOf, IsOk, OnOk};
ghost use Rattle.std.specs.List.{AllZip};
ghost use Rattle.ecow_base.specs.Clones.{ClonesAreEqual};
ghost use Rattle.ecow_block.specs.Clones.{AppendsClones};
ghost use Rattle.ecow_list.specs.Refusals.{RefusesPast};
ghost use Rattle.ecow_tree.specs.Kept.{ExtendsKept};

use crate::node::{LEAF, Node};
use crate::tree::EcoTree;
use ecow_base::MAX_LEN;
use ecow_list::block::Block;
use ecow_list::{EcoError, EcoVec, Rejected};
use std::alloc::{AllocError, Global};

impl<T: Clone> EcoTree<T> {
    /// Appends clones of all elements to a block with capacity for them.
    fn append_clones(&self, block: &mut Block<T>) -> Result<(), AllocError>
        requires { length block.old.items + length self.now ≤ block.old.capacity }
        ensures { OnOk result
            (AppendsClones T.is_clone block.old.items self.now block.new.items) }
    {
        let len = self.len();
        let mut at = 0;
        while at < len {
            let chunk = self.chunk_at(at);
            block.extend_within_capacity(chunk)?;
            at += chunk.len();
        }
        Ok(())
    }

    /// Makes a vector of clones of all elements. It has no block if there are none.
    ///
    /// Clones each element once, and takes one allocation.
    ///
    /// # Errors
    ///
    /// `Capacity` if there are more than 2^63 - 1 elements; `Memory` if there is no memory for the
    /// block, or the clone of an element is refused. The call is never refused if there are no
    /// elements.
    pub fn to_vec(&self) -> Result<EcoVec<T>, EcoError>
        ensures ok { ClonesAreEqual T.is_clone → IfOk result (λ v. v ≡ self.now) }
        ensures clones { IfOk result (λ v. AllZip T.is_clone self.now v) }
        ensures capacity { IsErrOf result EcoError.Capacity ↔ (MAX_LEN < length self.now) }
        ensures nothing { self.now ≡ [] → IsOk result }
    {
        let mut vec = EcoVec::new(self.allocator());
        let len = self.len();
        if len == 0 {
            return Ok(vec);
        }
        let block = vec.own_with_room(len)?;
        self.append_clones(block)?;
        Ok(vec)
    }

    /// Makes a tree of clones of the elements of a slice, in leaves of 128. It has no block if
    /// there are none.
    ///
    /// Clones each element once.
    ///
    /// # Errors
    ///
    /// `Capacity` if there are more than 2^63 - 1 elements; `Memory` if there is no memory for a
    /// block, or the clone of an element is refused. The call is never refused if there are no
    /// elements.
    pub fn from_slice(alloc: Global, elements: &[T]) -> Result<Self, EcoError>
        ensures ok { ClonesAreEqual T.is_clone → IfOk result (λ tree. tree ≡ elements.now) }
        ensures clones { IfOk result (λ tree. AllZip T.is_clone elements.now tree) }
        ensures len { IfOk result (λ tree. length tree ≡ length elements.now) }
        ensures capacity { IsErrOf result EcoError.Capacity ↔ (MAX_LEN < length elements.now) }
        ensures nothing { elements.now ≡ [] → IsOk result }
    {
        let len = elements.len();
        if len > MAX_LEN {
            return Err(EcoError::Capacity);
        }
        let mut root = Node::leaf(EcoVec::new(alloc));
        let mut at = 0;
        while at < len {
            let end = at + LEAF.min(len - at);
            let Ok(items) = EcoVec::from_slice(alloc, &elements[at..end]) else {
                return Err(EcoError::Memory);
            };
            root = Node::concat(&root, &Node::leaf(items))?;
            at = end;
        }
        Ok(EcoTree { root })
    }

    /// Makes a tree of clones of a vector's elements, as `from_slice` does.
    ///
    /// # Errors
    ///
    /// Those of `from_slice`. The vector comes back in the error.
    pub fn from_vec(vec: EcoVec<T>) -> Result<Self, Rejected<EcoVec<T>>>
        ensures ok { ClonesAreEqual T.is_clone → IfOk result (λ tree. tree ≡ vec) }
        ensures clones { IfOk result (λ tree. AllZip T.is_clone vec tree) }
        ensures value_returned { IfErr result (λ rejected. rejected.value ≡ vec) }
        ensures nothing { vec ≡ [] → IsOk result }
    {
        match Self::from_slice(vec.allocator(), vec.as_slice()) {
            Ok(tree) => Ok(tree),
            Err(error) => Err(Rejected { error, value: vec }),
        }
    }

    /// Appends clones of `elements`, in order: to the last leaf if they fit into it, and else in
    /// leaves of their own.
    ///
    /// Takes time linear in the number of new elements, and logarithmic in the length. The last
    /// leaf is cloned if it is shared and they fit into it.
    ///
    /// # Errors
    ///
    /// `Capacity` if the length would pass 2^63 - 1; `Memory` if there is no memory for a block, or
    /// the clone of an element is refused. The tree is unchanged. The call is never refused if
    /// `elements` is empty.
    pub fn extend_from_slice(&mut self, elements: &[T]) -> Result<(), EcoError>
        ensures ok { ClonesAreEqual T.is_clone
            → OnOk result (self.new ≡ self.old ++ elements.now) }
        ensures appends { OnOk result
            (ExtendsKept T.is_clone self.old elements.now self.new) }
        ensures len { OnOk result (length self.new ≡ length self.old + length elements.now) }
        ensures refused { RefusesPast (length self.old + length elements.now)
            self.old result self.new }

        // For no elements nothing changes, sharing included.
        ensures nothing { elements.now ≡ []
            → (self.new ≡ self.old) × (length self.old ≤ MAX_LEN → IsOk result) }
    {
        let (len, added) = (self.len(), elements.len());
        if len > MAX_LEN || added > MAX_LEN - len {
            return Err(EcoError::Capacity);
        }
        if added == 0 {
            return Ok(());
        }
        if added <= self.root.spare() {
            return self.root.extend(elements);
        }
        let others = Self::from_slice(self.allocator(), elements)?;
        self.root = Node::concat(&self.root, &others.root)?;
        Ok(())
    }
}
