//! The calls that make a vector of other collections, or other collections of a vector.
ghost use Rattle.std.specs.Prelude.{◌≡◌, ◌≢◌, ◌+◌, ◌<◌, ◌≤◌, ◌↔◌, [], ◌∷◌, ◌++◌, All, List, length, replicate, vec_len, Some, IsOk, IfOk, IfErr, OnErr, IsErrAnd, IsErrOf};
ghost use Rattle.std.specs.Iterator.{IsFinite, IsFiniteIterable, ExtendsWithItems};
ghost use Rattle.std.specs.List.{AllZip};
ghost use Rattle.ecow_base.specs.Clones.{ClonesAreEqual};
ghost use Rattle.ecow_list.specs.Vectors.{Appends, AppendsKept, ExtendsBy, GivesFirst, GivesItems, IsKept, Lengthens, SomeFirst};

use crate::error::{EcoError, IntoArray, Rejected};
use crate::iter::IntoIter;
use crate::vec::EcoVec;
use crate::vec::collect::collect;
use crate::vec::own::{Clones, Least, enlarge};
use ecow_base::{MAX_LEN, fresh_capacity};
use ecow_block::Block;
use ecow_shared::Shared;
use std::alloc::Global;

impl<T: Drop> EcoVec<T> {
    /// Makes a vector of the elements of a `Vec`, without cloning them. It has no block if there
    /// are none.
    ///
    /// Moves each element once, and takes one allocation.
    ///
    /// # Errors
    ///
    /// `Capacity` if there are more than 2^63 - 1 elements; `Memory` if there is no memory for the
    /// block. The `Vec` comes back in the error. The call is never refused if there are no
    /// elements.
    pub fn from_vec(alloc: Global, elements: Vec<T>) -> Result<Self, Rejected<Vec<T>>>
        ensures ok { IfOk result (λ v. v ≡ elements.items) }
        ensures value_returned { IfErr result (λ rejected. rejected.value.items ≡ elements.items) }
        ensures capacity { IsErrAnd result (λ rejected. rejected.error ≡ EcoError.Capacity)
            ↔ (MAX_LEN < vec_len elements) }
        ensures nothing { vec_len elements ≡ 0 → IsOk result }
    {
        let len = elements.len();
        if len > MAX_LEN {
            return Err(Rejected::for_capacity(elements));
        }
        if len == 0 {
            return Ok(EcoVec::new(alloc));
        }
        if let Ok(mut block) = Block::with_capacity(alloc, fresh_capacity(len)) {
            block.fill_within_capacity(elements);
            return Ok(EcoVec {
                block: Shared::new(block),
                alloc,
            });
        }
        Err(Rejected::for_memory(elements))
    }

    /// Makes a vector of the elements of an array, without cloning them. It has no block if there
    /// are none.
    ///
    /// Moves each element into a `Vec` first, and then into the block: two allocations, of which
    /// one stays.
    ///
    /// # Errors
    ///
    /// `Capacity` if there are more than 2^63 - 1 elements; `Memory` if there is no memory for the
    /// elements. The array comes back in the error.
    pub fn from_array<const N: usize>(
        alloc: Global,
        elements: [T; N],
    ) -> Result<Self, Rejected<[T; N]>>
        ensures ok { IfOk result (λ v. v ≡ elements) }
        ensures value_returned { IfErr result (λ rejected. rejected.value ≡ elements) }
        ensures capacity { IsErrAnd result (λ rejected. rejected.error ≡ EcoError.Capacity)
            ↔ (MAX_LEN < N) }
    {
        if N > MAX_LEN {
            return Err(Rejected::for_capacity(elements));
        }
        match Vec::from_array(alloc, elements) {
            Ok(elements) => match EcoVec::from_vec(alloc, elements) {
                Ok(vec) => Ok(vec),
                Err(rejected) => Err(Rejected {
                    error: rejected.error,
                    value: rejected.value.try_into().unwrap(),
                }),
            },
            Err(failed) => Err(Rejected::for_memory(failed.value)),
        }
    }

    /// Makes a vector of the items of `iter`, without cloning them. It has no block if there are
    /// none.
    ///
    /// Takes time linear in the number of items. The block grows as items come, since the size hint
    /// isn't asked.
    ///
    /// # Errors
    ///
    /// `Capacity` at the item past 2^63 - 1; `Memory` if there is no memory for an item. The items
    /// so far are dropped, and no further one is asked for. The call is never refused if there are
    /// no items.
    pub fn from_iter<I: IntoIterator<Item = T>>(alloc: Global, iter: I) -> Result<Self, EcoError>
        requires { IsFiniteIterable
            I.into_iter_gives I.IntoIter.can_next I.IntoIter.remaining iter }
        ensures ok { IfOk result (λ v. GivesItems I.into_iter_gives I.IntoIter.next_gives iter v) }
        ensures refused { OnErr result
            (SomeFirst I.into_iter_gives I.IntoIter.next_gives iter
            (λ items.
            (0 < length items)
            × (length items ≤ MAX_LEN + 1)
            × (IsErrOf result EcoError.Capacity ↔ (length items ≡ MAX_LEN + 1)))) }
    {
        let items = collect(alloc, 0, 4, MAX_LEN, &mut iter.into_iter())?;
        if items.len() == 0 {
            return Ok(EcoVec::new(alloc));
        }
        Ok(EcoVec {
            block: Shared::new(items),
            alloc,
        })
    }
}

impl<T: Clone> EcoVec<T> {
    ghost use Rattle.ecow_list.specs.IntoArray.{IsLength, HandsBack, IsForMemory};

    /// Makes a vector of clones of the elements of a slice. It has no block if there are none.
    ///
    /// Clones each element once, and takes one allocation.
    ///
    /// # Errors
    ///
    /// `Capacity` if there are more than 2^63 - 1 elements; `Memory` if there is no memory for the
    /// block, or the clone of an element is refused. The call is never refused if there are no
    /// elements.
    #[inline]
    pub fn from_slice(alloc: Global, elements: &[T]) -> Result<Self, EcoError>
        ensures ok { ClonesAreEqual T.is_clone → IfOk result (λ v. v ≡ elements.now) }
        ensures clones { IfOk result (λ v. AllZip T.is_clone elements.now v) }
        ensures len { IfOk result (λ v. length v ≡ length elements.now) }
        ensures capacity { IsErrOf result EcoError.Capacity ↔ (MAX_LEN < length elements.now) }
        ensures nothing { elements.now ≡ [] → IsOk result }
    {
        let len = elements.len();
        if len > MAX_LEN {
            return Err(EcoError::Capacity);
        }
        if len == 0 {
            return Ok(EcoVec::new(alloc));
        }
        let block = Block::from_clones(alloc, elements, fresh_capacity(len))?;
        Ok(EcoVec {
            block: Shared::new(block),
            alloc,
        })
    }

    /// Makes a vector of `n` clones of `value`, and drops `value` in the end. It has no block if
    /// `n` is 0.
    ///
    /// Clones `value` `n` times, and takes one allocation.
    ///
    /// # Errors
    ///
    /// `Capacity` if `n` passes 2^63 - 1; `Memory` if there is no memory for the block, or a clone
    /// is refused. `value` comes back in the error. The call is never refused if `n` is 0.
    pub fn from_elem(alloc: Global, value: T, n: usize) -> Result<Self, Rejected<T>>
        ensures ok { ClonesAreEqual T.is_clone → IfOk result (λ v. v ≡ replicate n value) }
        ensures clones { IfOk result (All (T.is_clone value)) }
        ensures len { IfOk result (λ v. length v ≡ n) }

        // A refusal hands `value` back, and none comes for no clones.
        ensures value_returned { IfErr result (λ rejected. rejected.value ≡ value) }
        ensures capacity { IsErrAnd result (λ rejected. rejected.error ≡ EcoError.Capacity)
            ↔ (MAX_LEN < n) }
        ensures nothing { n ≡ 0 → IsOk result }
    {
        if n > MAX_LEN {
            return Err(Rejected::for_capacity(value));
        }
        match Block::from_elem(alloc, &value, n) {
            Ok(block) => Ok(EcoVec {
                block: Shared::new(block),
                alloc,
            }),
            Err(_) => Err(Rejected::for_memory(value)),
        }
    }

    /// Appends the items of `iter`, one after another, each as `push` does.
    ///
    /// So a shared vector copies its elements at the first item, and nothing changes if there is
    /// none. The size hint isn't asked.
    ///
    /// Takes time linear in the number of items, on average. If the vector is shared, its own
    /// elements are cloned too.
    ///
    /// # Errors
    ///
    /// `Capacity` if the vector has 2^63 - 1 elements and there is another item; `Memory` if there
    /// is no memory for the block, or the clone of an element is refused. The refused item is
    /// dropped; those before it stay, and no further one is asked for.
    pub fn extend<I: IntoIterator<Item = T>>(&mut self, iter: I) -> Result<(), EcoError>
        requires { IsFiniteIterable
            I.into_iter_gives I.IntoIter.can_next I.IntoIter.remaining iter }
        ensures ok { ClonesAreEqual T.is_clone
            → ExtendsWithItems I.into_iter_gives I.IntoIter.next_gives Appends
            iter self.old self.new result }
        ensures kept { ExtendsWithItems I.into_iter_gives I.IntoIter.next_gives
            (AppendsKept T.is_clone) iter self.old self.new result }
        ensures len { ExtendsWithItems I.into_iter_gives I.IntoIter.next_gives Lengthens
            iter self.old self.new result }
        ensures refused { OnErr result
            ((items : List T)
            × GivesFirst I.into_iter_gives I.IntoIter.next_gives iter items
            × (length self.new + 1 ≡ length self.old + length items)) }
        ensures capacity { OnErr result
            (IsErrOf result EcoError.Capacity ↔ (MAX_LEN ≤ length self.new)) }
    {
        let mut items = iter.into_iter();
        match items.next() {
            Some(first) => self.extend_from(first, items),
            None => Ok(()),
        }
    }

    /// Appends `first`, which `iter` has just given, and what it still gives, as `extend` does.
    fn extend_from<I: Iterator<Item = T>>(&mut self, first: T, iter: I) -> Result<(), EcoError>
        requires ends { I.can_next iter × IsFinite (I.remaining iter) }
        ensures kept { (from : I)
            → I.next_gives from (Some first) iter
            → (rest : I) × ExtendsBy I.next_gives
            (AppendsKept T.is_clone) from self.old self.new result rest }
        ensures len { (from : I)
            → I.next_gives from (Some first) iter
            → (rest : I) × ExtendsBy I.next_gives Lengthens from self.old self.new result rest }
        ensures capacity { OnErr result
            (IsErrOf result EcoError.Capacity ↔ (MAX_LEN ≤ length self.new)) }
    {
        let given = (first, iter);
        let added = self.edit(
            Clones,
            Least::Same,
            1,
            given,
            |block, (first, iter)|
                requires room { length block.old.items < block.old.capacity }
                requires ends { I.can_next iter × IsFinite (I.remaining iter) }
                ensures items { IfOk result
                    (λ r. (rest : I) × ExtendsBy I.next_gives Appends
                    iter (block.old.items ++ first ∷ []) block.new.items r rest) }
                ensures ok { IsOk result }
                ensures capacity { IfOk result (λ r. OnErr r
                    (IsErrOf r EcoError.Capacity ↔ (MAX_LEN ≤ length block.new.items))) }
            {
                let mut items = iter;
                Ok(append(block, first, &mut items))
            },
        );
        match added {
            Ok(result) => result,
            Err(rejected) => Err(rejected.error),
        }
    }

    /// Turns the vector into a `Vec`. A vector that doesn't share its block moves its elements, and
    /// a shared one clones them.
    ///
    /// Moves or clones each element once, and takes one allocation.
    ///
    /// # Errors
    ///
    /// `Memory` if there is no memory for the `Vec`, or the clone of an element is refused. The
    /// vector comes back unchanged in the error.
    pub fn into_vec(self) -> Result<Vec<T>, Rejected<Self>>
        ensures ok { ClonesAreEqual T.is_clone → IfOk result (λ elements. elements.items ≡ self) }
        ensures kept { IfOk result (λ elements. IsKept T.is_clone self elements.items) }
        ensures len { IfOk result (λ elements. vec_len elements ≡ length self) }
        ensures value_returned { IfErr result (λ rejected. rejected.value ≡ self) }
        ensures memory { IfErr result (λ rejected. rejected.error ≡ EcoError.Memory) }
    {
        let alloc = self.alloc;
        let mut vector = self;
        let taken = match vector.sole_block() {
            Some(block) => block.take_vec(),
            None => Vec::from_clones(alloc, vector.as_slice()),
        };
        match taken {
            Ok(elements) => Ok(elements),
            Err(_) => Err(Rejected::for_memory(vector)),
        }
    }

    /// Turns the vector into an iterator over its elements by value, in order, from both ends. A
    /// vector that doesn't share its block moves its elements, and a shared one clones them all
    /// first.
    ///
    /// Takes constant time and no memory, or time linear in the length and one allocation if the
    /// vector is shared.
    ///
    /// # Errors
    ///
    /// `Memory` if there is no memory for the copy of a shared vector, or the clone of an element
    /// is refused. The vector comes back unchanged in the error.
    pub fn into_iter(self) -> Result<IntoIter<T>, Rejected<Self>>
        ensures ok { ClonesAreEqual T.is_clone → IfOk result (λ rest. rest ≡ self) }
        ensures kept { IfOk result (IsKept T.is_clone self) }
        ensures len { IfOk result (λ rest. length rest ≡ length self) }
        ensures value_returned { IfErr result (λ rejected. rejected.value ≡ self) }
        ensures memory { IfErr result (λ rejected. rejected.error ≡ EcoError.Memory) }
    {
        let EcoVec { block, alloc } = self;
        match block.try_unwrap() {
            Ok(block) => Ok(IntoIter::new(block.into_rest())),
            Err(block) => {
                let vector = EcoVec { block, alloc };
                match Block::from_clones(alloc, vector.as_slice(), vector.len()) {
                    Ok(copy) => Ok(IntoIter::new(copy.into_rest())),
                    Err(_) => Err(Rejected::for_memory(vector)),
                }
            }
        }
    }

    /// Turns the vector into an array of `N` elements. A vector that doesn't share its block moves
    /// its elements, and a shared one clones them.
    ///
    /// Moves or clones each element into a `Vec` first, which takes one allocation, and then moves
    /// it into the array.
    ///
    /// # Errors
    ///
    /// `Length` if the vector has another length than `N`; `Refused` with `Memory` if there is no
    /// memory for the `Vec`, or the clone of an element is refused. The vector comes back unchanged
    /// in either error.
    pub fn into_array<const N: usize>(self) -> Result<[T; N], IntoArray<T>>
        ensures ok { ClonesAreEqual T.is_clone → IfOk result (λ elements. elements ≡ self) }
        ensures kept { IfOk result (IsKept T.is_clone self) }
        ensures length { IsErrAnd result IsLength ↔ (length self ≢ N) }
        ensures value_returned { IfErr result (λ error. HandsBack error self) }
        ensures memory { IfErr result IsForMemory }
    {
        if self.len() != N {
            return Err(IntoArray::Length(self));
        }
        match self.into_vec() {
            Ok(elements) => Ok(elements.try_into().unwrap()),
            Err(rejected) => Err(IntoArray::Refused(rejected.error, rejected.value)),
        }
    }
}

/// Appends `first`, for which `block` has capacity, and the items of `iter`, one after another. A
/// refused item is dropped, and no further one is asked for.
fn append<T: Drop, I: Iterator<Item = T>>(
    block: &mut Block<T>,
    first: T,
    iter: &mut I,
) -> Result<(), EcoError>
    requires room { length block.old.items < block.old.capacity }
    requires ends { I.can_next iter.old × IsFinite (I.remaining iter.old) }
    ensures items { ExtendsBy I.next_gives Appends
        iter.old (block.old.items ++ first ∷ []) block.new.items result iter.new }
    ensures capacity { OnErr result
        (IsErrOf result EcoError.Capacity ↔ (MAX_LEN ≤ length block.new.items)) }
{
    block.push_within_capacity(first);
    while let Some(item) = iter.next() {
        if block.len() == block.capacity()
            && let Err(error) = enlarge(block, 1)
        {
            return Err(error);
        }
        block.push_within_capacity(item);
    }
    Ok(())
}
