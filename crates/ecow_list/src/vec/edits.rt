//! The calls that change a vector's elements in place. Each says what becomes of the elements of a
//! block; `edit` makes sure first that no other vector shares that block.
ghost use Rattle.std.specs.Prelude.{◌≡◌, ◌+◌, ◌-◌, ◌<◌, ◌≤◌, ◌↔◌, [], ◌∷◌, ◌++◌, length, take, IsOk, IfOk, OnOk, IsSome, MatchOption, Some, insert, remove, slice_get, slice_set, min};
ghost use Rattle.std.specs.Fn.{CalledAtMut};
ghost use Rattle.std.specs.List.Retain.{RetainsInTurn};
ghost use Rattle.ecow_base.specs.Clones.{ClonesAreEqual};
ghost use Rattle.ecow_block.specs.Updates.{TakesKeptAt, UpdatesAt};
ghost use Rattle.ecow_list.specs.Leaves.{LeavesAt};
ghost use Rattle.ecow_list.specs.Refusals.{RefusesForMemory, RefusesPast, RejectsForMemory, RejectsPast};
ghost use Rattle.ecow_list.specs.Vectors.{Changes, ChangesBy, IsKept, IsKeptBefore};

use crate::error::{EcoError, Rejected};
use crate::vec::EcoVec;
use crate::vec::own::{Clones, Least};
use ecow_base::{MAX_LEN, fresh_capacity};
use ecow_shared::Shared;

impl<T: Clone> EcoVec<T> {
    /// Keeps the first `len` elements, or all if there are fewer, and drops the others.
    ///
    /// A shared vector copies only those that stay. It stays shared if all stay, and gives its
    /// block up if none does.
    ///
    /// Takes time linear in the number of elements dropped or, if the vector is shared, copied.
    ///
    /// # Errors
    ///
    /// `Memory` if there is no memory for the copy of a shared vector, or the clone of an element
    /// is refused. The vector is unchanged. The call is never refused if all elements stay or none
    /// does.
    pub fn truncate(&mut self, len: usize) -> Result<(), EcoError>
        ensures ok { ClonesAreEqual T.is_clone → OnOk result (self.new ≡ take len self.old) }
        ensures kept { OnOk result (IsKept T.is_clone (take len self.old) self.new) }
        ensures len { OnOk result (length self.new ≡ min len (length self.old)) }

        // Refused where a shared vector must be copied, and not where all or none stay.
        ensures refused { RefusesForMemory self.old result self.new }
        ensures keeps_all { length self.old ≤ len → IsOk result × (self.new ≡ self.old) }
        ensures keeps_none { len ≡ 0 → IsOk result × (self.new ≡ []) }
    {
        if len >= self.len() {
            return Ok(());
        }
        if len == 0 {
            self.clear();
            return Ok(());
        }
        if let Some(block) = self.sole_block() {
            block.truncate(len);
            return Ok(());
        }
        let block = self.copy(Clones, &self.as_slice()[..len], fresh_capacity(len))?;
        self.block = Shared::new(block);
        Ok(())
    }

    /// Removes the last element and returns it, or `None` if there is none. A shared vector copies
    /// all its elements into a block of its own first.
    ///
    /// Takes constant time, or time linear in the length if the vector is shared.
    ///
    /// # Errors
    ///
    /// `Memory` if there is no memory for the copy of a shared vector, or the clone of an element
    /// is refused. The vector is unchanged. The call is never refused if there is no element.
    #[inline]
    #[tactic(auto, using(crate::proofs::Popped::taken))]
    pub fn pop(&mut self) -> Result<Option<T>, EcoError>
        ensures change { ChangesBy T.is_clone self.old
            (λ xs last ys.
            (last ≡ slice_get xs (length xs - 1)) × (ys ≡ take (length xs - 1) xs))
            result self.new }
        ensures taken { ClonesAreEqual T.is_clone
            → IfOk result (λ taken.
            MatchOption taken (self.old ≡ []) (λ last. self.old ≡ self.new ++ last ∷ [])) }
        ensures some { IfOk result (λ last. IsSome last ↔ (0 < length self.old)) }
        ensures len { OnOk result (length self.new ≡ length self.old - 1) }

        // Refused where a shared vector must be copied, and not where there is no element.
        ensures refused { RefusesForMemory self.old result self.new }
        ensures empty { self.old ≡ [] → IsOk result × (self.new ≡ []) }
    {
        if self.is_empty() {
            return Ok(None);
        }
        Ok(self.edit(Clones, Least::Fresh, 0, (), |block, ()| Ok(block.pop()))?)
    }

    /// Inserts `value` at `index`, before the element that stands there. `index` is at most the
    /// length.
    ///
    /// A vector that is shared copies its elements into a block of its own first, and one that is
    /// full gets a larger block.
    ///
    /// Moves each element behind `index` by one place. If the vector is shared, all elements are
    /// cloned.
    ///
    /// # Errors
    ///
    /// `Capacity` if the vector has 2^63 - 1 elements; `Memory` if there is no memory for the
    /// block, or the clone of an element is refused. The vector is unchanged, and `value` comes
    /// back in the error.
    #[inline]
    pub fn insert(&mut self, index: usize, value: T) -> Result<(), Rejected<T>>
        requires { index ≤ length self.old }
        ensures change { Changes T.is_clone self.old
            (λ xs. insert xs index value)
            result self.new }
        ensures len { OnOk result (length self.new ≡ length self.old + 1) }
        ensures refused { RejectsPast (length self.old + 1) value self.old result self.new }
    {
        self.edit(Clones, Least::Same, 1, value, |block, value| {
            Ok(block.insert_within_capacity(index, value))
        })
    }

    /// Removes the element at `index`, which is below the length, and returns it. A shared vector
    /// copies all its elements into a block of its own first.
    ///
    /// Moves each element behind `index` by one place. If the vector is shared, all elements are
    /// cloned.
    ///
    /// # Errors
    ///
    /// `Memory` if there is no memory for the copy of a shared vector, or the clone of an element
    /// is refused. The vector is unchanged.
    pub fn remove(&mut self, index: usize) -> Result<T, EcoError>
        requires { index < length self.old }
        ensures change { ChangesBy T.is_clone self.old
            (λ xs value ys. (slice_get xs index ≡ Some value) × (ys ≡ remove xs index))
            result self.new }
        ensures len { OnOk result (length self.new + 1 ≡ length self.old) }
        ensures refused { RefusesForMemory self.old result self.new }
    {
        Ok(self.edit(Clones, Least::Fresh, 0, (), |block, ()| {
            Ok(block.remove(index))
        })?)
    }

    /// Replaces the element at `index`, which is below the length, with `value`, and drops the old
    /// element. A shared vector copies its elements into a block of its own first.
    ///
    /// Takes constant time, or time linear in the length if the vector is shared.
    ///
    /// This project's own: the original writes through `make_mut`, which is proved here too. A
    /// caller that is proved learns less from that borrow.
    ///
    /// # Errors
    ///
    /// `Memory` if there is no memory for the copy of a shared vector, or the clone of an element
    /// is refused. The vector is unchanged, and `value` comes back in the error.
    pub fn set(&mut self, index: usize, value: T) -> Result<(), Rejected<T>>
        requires { index < length self.old }
        ensures change { Changes T.is_clone self.old
            (λ xs. slice_set xs index value)
            result self.new }
        ensures len { OnOk result (length self.new ≡ length self.old) }
        ensures refused { RejectsForMemory value self.old result self.new }
    {
        self.edit(Clones, Least::Fresh, 0, value, |block, value| {
            Ok(block.set(index, value))
        })
    }

    /// Calls `f` once with a mutable borrow of the element at `index`, which is below the length,
    /// and returns what `f` returns. A shared vector copies its elements into a block of its own
    /// first.
    ///
    /// Takes the time of `f`, and time linear in the length if the vector is shared.
    ///
    /// This project's own: the original writes through `make_mut`. A caller that is proved learns
    /// less from that borrow.
    ///
    /// # Errors
    ///
    /// `Memory` if there is no memory for the copy of a shared vector, or the clone of an element
    /// is refused. The vector is unchanged, and `f` isn't called.
    pub fn update<R, F: FnOnce(&mut T) -> R>(&mut self, index: usize, f: F) -> Result<R, EcoError>
        requires in_bounds { index < length self.old }
        requires callable { TakesKeptAt F.FnOnce f T.is_clone self.old index }
        ensures change { ChangesBy T.is_clone self.old
            (λ xs answer ys. UpdatesAt F.FnOnce f index xs ys answer)
            result self.new }
        ensures len { OnOk result (length self.new ≡ length self.old) }

        // If `f` leaves the element as it was whenever it gives this answer, nothing has changed.
        ensures stays { ClonesAreEqual T.is_clone
            → IfOk result (λ answer. LeavesAt F.FnOnce f answer → self.new ≡ self.old) }
        ensures refused { RefusesForMemory self.old result self.new }
    {
        Ok(self.edit(Clones, Least::Fresh, 0, (), |block, ()| {
            Ok(block.update(index, f))
        })?)
    }

    /// Asks for capacity for `additional` more elements; no capacity is promised. `own_with_room`
    /// promises it: what is pushed through its borrow isn't refused.
    ///
    /// A shared vector copies its elements into a block of its own, also if `additional` is 0. A
    /// vector without a block gets none if `additional` is 0.
    ///
    /// Takes constant time if the capacity is there already and the vector isn't shared, and else
    /// time linear in the length.
    ///
    /// # Errors
    ///
    /// `Capacity` if the length and `additional` together pass 2^63 - 1; `Memory` if there is no
    /// memory for the block, or the clone of an element is refused. The vector is unchanged.
    pub fn reserve(&mut self, additional: usize) -> Result<(), EcoError>
        ensures change { Changes T.is_clone self.old (λ xs. xs) result self.new }
        ensures len { OnOk result (length self.new ≡ length self.old) }
        ensures refused { RefusesPast (length self.old + additional) self.old result self.new }
    {
        Ok(self.edit(Clones, Least::Same, additional, (), |_block, ()| Ok(()))?)
    }

    /// Appends clones of `elements`, in order.
    ///
    /// A vector that is shared copies its own elements into a block of its own first, and one that
    /// is too full gets a larger block. If `elements` is empty, nothing changes, and a shared
    /// vector stays shared.
    ///
    /// Takes time linear in the number of new elements, on average. If the vector is shared, its
    /// own elements are cloned too.
    ///
    /// # Errors
    ///
    /// `Capacity` if the new length would pass 2^63 - 1; `Memory` if there is no memory for the
    /// block, or the clone of an element is refused. No element is appended, but the capacity may
    /// have grown. The call is never refused if `elements` is empty.
    #[inline]
    pub fn extend_from_slice(&mut self, elements: &[T]) -> Result<(), EcoError>
        ensures ok { ClonesAreEqual T.is_clone → OnOk result (self.new ≡ self.old ++ elements.now) }
        ensures kept { OnOk result (IsKeptBefore T.is_clone self.old elements.now self.new) }
        ensures len { OnOk result (length self.new ≡ length self.old + length elements.now) }
        ensures refused { RefusesPast (length self.old + length elements.now)
            self.old result self.new }

        // For no elements nothing changes, sharing included.
        ensures nothing { elements.now ≡ [] → IsOk result × (self.new ≡ self.old) }
    {
        // The vector's length stands here for the proof alone: it is bounded.
        let (_len, added) = (self.len(), elements.len());
        if added == 0 {
            return Ok(());
        }
        Ok(self.edit(Clones, Least::Same, added, (), |block, ()| {
            block.extend_within_capacity(elements).map_err(|_| ())
        })?)
    }

    /// Calls `f` once with a mutable borrow of each element, in order, and keeps those at which `f`
    /// answers `true`, as `f` leaves them. The others are dropped after the last call, in no set
    /// order. A shared vector copies its elements into a block of its own first, or gives its block
    /// up if it has none.
    ///
    /// Takes time linear in the length.
    ///
    /// # Errors
    ///
    /// `Memory` if there is no memory for the copy of a shared vector, or the clone of an element
    /// is refused. The vector is unchanged, and `f` isn't called.
    pub fn retain<F: FnMut(&mut T) -> bool>(&mut self, f: F) -> Result<(), EcoError>
        requires { F.IsAlwaysCallable f }
        ensures change { ChangesBy T.is_clone self.old
            (λ xs _ ys. RetainsInTurn (CalledAtMut F.FnMut) f xs ys)
            result self.new }
        ensures len { OnOk result (length self.new ≤ length self.old) }
        ensures refused { RefusesForMemory self.old result self.new }
    {
        Ok(self.edit(Clones, Least::Fresh, 0, (), |block, ()| Ok(block.retain(f)))?)
    }
}
