// rust: no file: the original has no such calls
//! The calls that fill a vector with clones of a value.
ghost use Rattle.std.specs.Prelude.{◌≡◌, ◌-◌, ◌++◌, [], All, List, length, replicate, take, IsOk, OnOk};
ghost use Rattle.ecow_base.specs.Clones.{ClonesAreEqual};
ghost use Rattle.ecow_list.specs.Refusals.{RejectsForMemory, RejectsPast};
ghost use Rattle.ecow_list.specs.Vectors.{AppendsKept};

use crate::error::Rejected;
use crate::vec::EcoVec;
use ecow_base::MAX_LEN;
use ecow_block::Block;
use ecow_shared::Shared;

impl<T: Clone> EcoVec<T> {
    /// Replaces each element with a clone of `value`, and drops the old elements and `value`. An
    /// empty vector stays as it is.
    ///
    /// The clones go into a new block, with capacity for no more than these. A shared vector copies
    /// nothing.
    ///
    /// Clones `value` once for each element, and takes one allocation.
    ///
    /// This project's own, named as that of slices.
    ///
    /// # Errors
    ///
    /// `Memory` if there is no memory for the block, or a clone is refused. The vector is
    /// unchanged, and `value` comes back in the error. The call is never refused if there is no
    /// element.
    pub fn fill(&mut self, value: T) -> Result<(), Rejected<T>>
        ensures ok { ClonesAreEqual T.is_clone
            → OnOk result (self.new ≡ replicate (length self.old) value) }
        ensures clones { OnOk result (All (T.is_clone value) self.new) }
        ensures len { OnOk result (length self.new ≡ length self.old) }
        ensures refused { RejectsForMemory value self.old result self.new }
        ensures nothing { self.old ≡ [] → IsOk result }
    {
        if self.is_empty() {
            return Ok(());
        }
        match Block::from_elem(self.alloc, &value, self.len()) {
            Ok(block) => {
                self.block = Shared::new(block);
                Ok(())
            }
            Err(_) => Err(Rejected::for_memory(value)),
        }
    }

    /// Makes the length `len`: drops the elements from `len` on, or appends clones of `value`. In
    /// the end `value` is dropped.
    ///
    /// To shorten a vector is to `truncate` it. To lengthen one that is shared, its own elements are
    /// cloned too. Nothing changes if the vector has this length already.
    ///
    /// Takes time linear in the number of elements dropped or appended, on average. The clones are
    /// made in a block of their own first, which takes one more allocation.
    ///
    /// This project's own, named as that of std's `Vec`.
    ///
    /// # Errors
    ///
    /// `Capacity` if `len` passes 2^63 - 1; `Memory` if there is no memory for a block, or a clone
    /// is refused. The vector is unchanged, and `value` comes back in the error. The call is never
    /// refused if `len` is 0 or the length.
    pub fn resize(&mut self, len: usize, value: T) -> Result<(), Rejected<T>>
        ensures ok { ClonesAreEqual T.is_clone
            → OnOk result
            (self.new ≡ take len self.old ++ replicate (len - length self.old) value) }
        ensures kept { OnOk result ((added : List T) × All (T.is_clone value) added
            × AppendsKept T.is_clone (take len self.old) added self.new) }
        ensures len { OnOk result (length self.new ≡ len) }
        ensures refused { RejectsPast len value self.old result self.new }

        // Nothing changes at this length already, and no memory is taken where all are dropped.
        ensures stays { len ≡ length self.old → IsOk result × (self.new ≡ self.old) }
        ensures keeps_none { len ≡ 0 → IsOk result × (self.new ≡ []) }
    {
        let own = self.len();
        if len <= own {
            return match self.truncate(len) {
                Ok(()) => Ok(()),
                Err(error) => Err(Rejected { error, value }),
            };
        }
        if len > MAX_LEN {
            return Err(Rejected::for_capacity(value));
        }
        match Block::from_elem(self.alloc, &value, len - own) {
            Ok(added) => match self.append_block(added) {
                Ok(()) => Ok(()),
                Err(rejected) => Err(Rejected {
                    error: rejected.error,
                    value,
                }),
            },
            Err(_) => Err(Rejected::for_memory(value)),
        }
    }
}
