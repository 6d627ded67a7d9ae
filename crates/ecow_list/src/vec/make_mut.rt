//! The elements of a vector, borrowed for writing.
ghost use Rattle.std.specs.Prelude.{◌≡◌, ◌+◌, ◌<◌, ◌≤◌, ◌↔◌, [], length, IfOk, IfErr, IsErrOf, IsOk, OnOk, OnErr, MatchOption};
ghost use Rattle.std.specs.Borrow.{sem};
ghost use Rattle.ecow_base.specs.Clones.{ClonesAreEqual};
ghost use Rattle.ecow_list.specs.Vectors.{IsKept};

use crate::error::EcoError;
use crate::vec::EcoVec;
use crate::vec::own::{Clones, Least, enlarge};
use ecow_base::MAX_LEN;
use ecow_block::Block;
use ecow_shared::Shared;

impl<T: Clone> EcoVec<T> {
    ghost use Rattle.ecow_list.specs.Lends.{lends_own_block, lends_slice};

    /// Borrows the elements for writing. A shared vector copies them into a block of its own first,
    /// or gives its block up if it has no element.
    ///
    /// Takes constant time, or time linear in the length if the vector is shared.
    ///
    /// # Errors
    ///
    /// `Memory` if there is no memory for the copy of a shared vector, or the clone of an element
    /// is refused. The vector is unchanged. The call is never refused if there is no element.
    pub fn make_mut(&mut self) -> Result<&mut [T], EcoError>
        ensures* writes_back { sem 𝓛 (lends_slice T.row T.is_clone self.entry result) }
        ensures value { ClonesAreEqual T.is_clone → IfOk result (λ slice. slice.now ≡ self.old) }
        ensures len { IfOk result (λ slice. length slice.now ≡ length self.old) }

        // Refused where a shared vector must be copied, and not where there is no element. Clones
        // may stand in the elements' places, since no contract can say that a new block isn't
        // shared.
        ensures memory { IfErr result (λ error. error ≡ EcoError.Memory) }
        ensures empty { self.old ≡ [] → IsOk result }
        ensures kept { IfOk result (λ slice. IsKept T.is_clone self.old slice.now) }
    {
        match self.own_mut() {
            Ok(block) => Ok(block.as_mut_slice()),
            Err(None) => Ok(&mut []),
            Err(Some(error)) => Err(error),
        }
    }

    /// Borrows the block of the elements, which no other vector shares any more, for writing
    /// through its `as_mut_slice`. A shared vector copies its elements into a block of its own
    /// first.
    ///
    /// The caller may put another block in the place of this one. The vector then has the elements
    /// and the capacity of that block, even if the block is full: the next call that adds elements
    /// asks for more.
    ///
    /// Takes constant time, or time linear in the length if the vector is shared.
    ///
    /// This project's own: `make_mut` for callers that are proved, who learn from this borrow what
    /// was written.
    ///
    /// # Errors
    ///
    /// `None` if there is no element; this takes no memory. `Memory` if there is no memory for the
    /// copy of a shared vector, or the clone of an element is refused; the vector is unchanged.
    #[inline]
    pub fn own_mut(&mut self) -> Result<&mut Block<T>, Option<EcoError>>
        ensures* writes_back { sem 𝓛 (lends_own_block T.row T.is_clone self.entry result) }
        ensures value { ClonesAreEqual T.is_clone
            → IfOk result (λ block. block.now.items ≡ self.old) }
        ensures kept { IfOk result (λ block. IsKept T.is_clone self.old block.now.items) }
        ensures len { IfOk result (λ block. length block.now.items ≡ length self.old) }

        // There is none exactly where there is no element; else memory was lacking.
        ensures some { OnOk result (0 < length self.old) }
        ensures refused { IfErr result
            (λ refused.
            MatchOption refused (self.old ≡ [])
            (λ error. (error ≡ EcoError.Memory) × (0 < length self.old))) }
    {
        if self.is_empty() {
            if !self.is_unique() {
                self.block = Shared::none(self.alloc);
            }
            return Err(None);
        }
        if let Err(rejected) = self.edit(Clones, Least::Fresh, 0, (), |_block, ()| Ok(())) {
            return Err(Some(rejected.error));
        }
        match self.sole_block() {
            Some(block) => Ok(block),
            None => Err(Some(EcoError::Memory)),
        }
    }

    /// Borrows the block of the elements, which no other vector shares any more, with capacity for
    /// `additional` more elements. Through this borrow, `push_within_capacity` takes that many, and
    /// none is refused.
    ///
    /// A vector without a block gets one, also if `additional` is 0.
    ///
    /// So a change of several vectors can be made as a whole: first borrow each with the capacity
    /// that it needs, and then write, which can't be refused.
    ///
    /// Takes constant time, or time linear in the length if the vector is shared or its block has
    /// to grow.
    ///
    /// This project's own.
    ///
    /// # Errors
    ///
    /// `Capacity` if the length and `additional` together pass 2^63 - 1; `Memory` if there is no
    /// memory for the block, or the clone of an element is refused. The vector is unchanged.
    pub fn own_with_room(&mut self, additional: usize) -> Result<&mut Block<T>, EcoError>
        ensures* writes_back { sem 𝓛 (lends_own_block T.row T.is_clone self.entry result) }
        ensures value { ClonesAreEqual T.is_clone
            → IfOk result (λ block. block.now.items ≡ self.old) }
        ensures kept { IfOk result (λ block. IsKept T.is_clone self.old block.now.items) }
        ensures len { IfOk result (λ block. length block.now.items ≡ length self.old) }

        // The capacity suffices for what was asked, unless that passes the limit or memory lacked.
        ensures room { IfOk result
            (λ block. length block.now.items + additional ≤ block.now.capacity) }
        ensures capacity { IsErrOf result EcoError.Capacity
            ↔ (MAX_LEN < length self.old + additional) }
    {
        let least = if self.is_empty() {
            additional.max(1)
        } else {
            additional
        };
        self.edit(Clones, Least::Same, least, (), |_block, ()| Ok(()))?;
        match self.sole_block() {
            Some(block) => {
                // The capacity is there already, which no contract of a shared block says.
                if additional > block.capacity() - block.len() {
                    enlarge(block, additional)?;
                }
                Ok(block)
            }
            None => Err(EcoError::Memory),
        }
    }
}
