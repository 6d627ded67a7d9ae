//! Appending one element.
ghost use Rattle.std.specs.Prelude.{◌≡◌, ◌+◌, ◌∷◌, [], ◌++◌, length, OnOk};
ghost use Rattle.ecow_list.specs.Refusals.{RejectsPast};
ghost use Rattle.ecow_list.specs.Vectors.{Changes};

use crate::error::Rejected;
use crate::vec::EcoVec;
use crate::vec::own::{Clones, Least};

impl<T: Clone> EcoVec<T> {
    /// Appends `value`. A vector that is shared copies its elements into a block of its own first,
    /// and one that is full gets a larger block.
    ///
    /// Takes constant time on average, or time linear in the length if the vector is shared.
    ///
    /// # Errors
    ///
    /// `Capacity` if the vector has 2^63 - 1 elements; `Memory` if there is no memory for the
    /// block, or the clone of an element is refused. The vector is unchanged, and `value` comes
    /// back in the error.
    #[inline]
    pub fn push(&mut self, value: T) -> Result<(), Rejected<T>>
        ensures change { Changes T.is_clone self.old (λ xs. xs ++ value ∷ []) result self.new }
        ensures len { OnOk result (length self.new ≡ length self.old + 1) }
        ensures refused { RejectsPast (length self.old + 1) value self.old result self.new }
    {
        self.edit(Clones, Least::Same, 1, value, |block, value| {
            Ok(block.push_within_capacity(value))
        })
    }
}
