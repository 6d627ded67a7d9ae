// rust: no file: the original has no such calls
//! The calls that cut a vector in two, and join two.
ghost use Rattle.std.specs.Prelude.{◌≡◌, ◌+◌, ◌-◌, ◌<◌, ◌≤◌, ◌++◌, [], List, length, take, drop, IfOk, IsOk, OnErr, OnOk};
ghost use Rattle.ecow_base.specs.Clones.{ClonesAreEqual};
ghost use Rattle.ecow_block.specs.Contents.{contents};
ghost use Rattle.ecow_list.specs.Refusals.{RefusesForMemory, RefusesPast, RejectsPast};
ghost use Rattle.ecow_list.specs.Vectors.{AppendsKept, Changes, IsKept};

use crate::error::{EcoError, Rejected};
use crate::vec::EcoVec;
use crate::vec::own::{Clones, Least};
use ecow_base::fresh_capacity;
use ecow_block::Block;
use ecow_shared::Shared;
use std::mem::replace;

impl<T: Clone> EcoVec<T> {
    /// Removes the elements from `at` on, and returns them as another vector. `at` is at most the
    /// length.
    ///
    /// They move into a block of their own, and none is cloned. But if the vector is shared, both
    /// vectors get clones. Where all elements go, the other vector gets the block, and where none
    /// goes, nothing changes.
    ///
    /// Takes time linear in the number of elements that go, or in the length if the vector is
    /// shared. It takes constant time if all go.
    ///
    /// This project's own, named as that of std's `Vec`.
    ///
    /// # Errors
    ///
    /// `Memory` if there is no memory for a block, or the clone of an element is refused. The
    /// vector is unchanged. The call is never refused if all elements go or none does.
    pub fn split_off(&mut self, at: usize) -> Result<Self, EcoError>
        requires { at ≤ length self.old }
        ensures ok { ClonesAreEqual T.is_clone
            → IfOk result (λ rest. (self.new ≡ take at self.old) × (rest ≡ drop at self.old)) }
        ensures kept { IfOk result (λ rest. IsKept T.is_clone (take at self.old) self.new
            × IsKept T.is_clone (drop at self.old) rest) }
        ensures len { IfOk result (λ rest. (length self.new ≡ at)
            × (length rest ≡ length self.old - at)) }

        // Refused where memory is needed, which isn't so where all go or none does.
        ensures refused { RefusesForMemory self.old result self.new }
        ensures all { at ≡ 0 → IsOk result
            × IfOk result (λ rest. (self.new ≡ []) × (rest ≡ self.old)) }
        ensures none { at ≡ length self.old → IsOk result × (self.new ≡ self.old) }
    {
        let len = self.len();
        if at == len {
            return Ok(EcoVec::new(self.alloc));
        }
        if at == 0 {
            return Ok(replace(self, EcoVec::new(self.alloc)));
        }
        let capacity = fresh_capacity(len - at);
        let alloc = self.alloc;
        if let Some(block) = self.sole_block() {
            let mut rest = Block::with_capacity(alloc, capacity)?;
            block.drain_into(at, len, &mut rest);
            return Ok(EcoVec {
                block: Shared::new(rest),
                alloc,
            });
        }
        let rest = self.copy(Clones, &self.as_slice()[at..], capacity)?;
        self.truncate(at)?;
        Ok(EcoVec {
            block: Shared::new(rest),
            alloc,
        })
    }

    /// Moves the elements of `other` behind those of this vector. `other` is empty then.
    ///
    /// If `other` is shared, this vector gets clones of its elements. If this vector is shared, it
    /// copies its own elements into a block of its own first. If `other` is empty, nothing changes.
    ///
    /// Takes time linear in the number of new elements, on average. If this vector is shared, its
    /// own elements are cloned too.
    ///
    /// This project's own, named as that of std's `Vec`.
    ///
    /// # Errors
    ///
    /// `Capacity` if the new length would pass 2^63 - 1; `Memory` if there is no memory for the
    /// block, or the clone of an element is refused. Both vectors are unchanged.
    pub fn append(&mut self, other: &mut Self) -> Result<(), EcoError>
        ensures ok { ClonesAreEqual T.is_clone
            → OnOk result (self.new ≡ self.old ++ other.old) }
        ensures kept { OnOk result ((added : List T) × IsKept T.is_clone other.old added
            × AppendsKept T.is_clone self.old added self.new) }
        ensures len { OnOk result (length self.new ≡ length self.old + length other.old) }
        ensures left { OnOk result (other.new ≡ []) }

        // A refusal leaves both, and is for capacity exactly past the limit.
        ensures refused { RefusesPast (length self.old + length other.old)
            self.old result self.new }
        ensures other { OnErr result (other.new ≡ other.old) }
    {
        // The vector's length stands here for the proof alone: it is bounded.
        let (_len, alloc) = (self.len(), other.alloc);
        if other.is_empty() {
            return Ok(());
        }
        let EcoVec { block, alloc: _ } = replace(other, EcoVec::new(alloc));
        match block.try_unwrap() {
            Ok(block) => match self.append_block(block) {
                Ok(()) => Ok(()),
                Err(rejected) => {
                    *other = EcoVec {
                        block: Shared::new(rejected.value),
                        alloc,
                    };
                    Err(rejected.error)
                }
            },
            Err(block) => {
                *other = EcoVec { block, alloc };
                self.extend_from_slice(other.as_slice())?;
                other.clear();
                Ok(())
            }
        }
    }

    /// Moves the elements of a block behind those of this vector, and frees the block. Where that
    /// is refused, the block comes back.
    pub(super) fn append_block(&mut self, block: Block<T>) -> Result<(), Rejected<Block<T>>>
        ensures change { Changes T.is_clone self.old (λ xs. xs ++ block.items) result self.new }
        ensures len { OnOk result (length self.new ≡ length self.old + length block.items) }
        ensures refused { RejectsPast (length self.old + length block.items)
            block self.old result self.new }
    {
        let added = block.len();
        self.edit(Clones, Least::Same, added, block, |own, block| {
            Ok(move_all(block, own))
        })
    }
}

/// Moves all elements of a block behind those of `to`, whose capacity must be enough, and frees the
/// block.
fn move_all<T>(block: Block<T>, to: &mut Block<T>)
    requires { length to.old.items + length block.items ≤ to.old.capacity }
    ensures { to.new ≡ contents (to.old.items ++ block.items) to.old.capacity }
{
    let mut block = block;
    let len = block.len();
    block.drain_into(0, len, to);
    block.destroy_empty();
}
