//! Clones of items, which are dropped again where one is refused.
ghost use Rattle.std.specs.Prelude.{◌≡◌, ◌+◌, ◌^◌, ◌<◌, ◌≤◌, ◌++◌, length, take, OnOk, OnErr, IfOk, IsTrue};
ghost use Rattle.std.specs.Mem.{type_size};
ghost use Rattle.ecow_base.specs.Clones.{ClonesAreEqual};
ghost use Rattle.ecow_block.specs.Clones.{AppendsClones};
ghost use Rattle.ecow_block.specs.Rooms.{SamePlaces};

use super::guarded;
use crate::room::{Base, CHUNK, Room};
use std::alloc::AllocError;
use std::mem::size_of_val;

/// How many bytes a small element takes at most.
const SMALL: usize = 64;

/// Whether there are elements, and they are small.
fn are_small<T>(elements: &[T]) -> bool
    ensures { IsTrue result → type_size T.row ≤ SMALL }
{
    match elements.first() {
        Some(first) => size_of_val(first) <= SMALL,
        None => false,
    }
}

impl<T> Room<T> {
    /// Appends clones of `elements`, the first of them in the place numbered `at`. If a clone is
    /// refused, those before it are dropped again.
    ///
    /// Few are cloned one by one where the call stands, and more by a call.
    pub(crate) fn append_clones(
        &mut self,
        base: Base<T>,
        at: usize,
        elements: &[T],
    ) -> Result<(), AllocError>
    where
        T: Clone,
        requires { (base.ptr ≡ self.old.at) × (at ≡ self.old.start + length self.old.items)
            × (length self.old.items + length elements.now ≤ self.old.capacity)
            × (at + length elements.now < 2 ^ 64) }
        ensures clones { OnOk result
            (AppendsClones T.is_clone self.old.items elements.now self.new.items) }
        ensures items { ClonesAreEqual T.is_clone
            → OnOk result (self.new.items ≡ self.old.items ++ elements.now) }
        ensures len { OnOk result (length self.new.items ≡ length self.old.items
            + length elements.now) }

        // The places stay, and a refusal leaves the items.
        ensures places { SamePlaces self.old self.new }
        ensures unchanged { OnErr result (self.new.items ≡ self.old.items) }
    {
        if elements.len() < CHUNK {
            return self.append_each(base, at, elements);
        }
        self.append_many(base, at, elements)
    }

    /// Appends clones of many elements, out of line. Small ones are cloned some at a time, which
    /// the compiler knows as a move of memory where a clone is a copy.
    #[inline(never)]
    fn append_many(&mut self, base: Base<T>, at: usize, elements: &[T]) -> Result<(), AllocError>
    where
        T: Clone,
        requires { (base.ptr ≡ self.old.at) × (at ≡ self.old.start + length self.old.items)
            × (length self.old.items + length elements.now ≤ self.old.capacity)
            × (at + length elements.now < 2 ^ 64) }
        ensures clones { OnOk result
            (AppendsClones T.is_clone self.old.items elements.now self.new.items) }
        ensures len { OnOk result (length self.new.items ≡ length self.old.items
            + length elements.now) }
        ensures places { SamePlaces self.old self.new }
        ensures unchanged { OnErr result (self.new.items ≡ self.old.items) }
    {
        let count = self.append_chunks(base, at, elements)?;
        let others = &elements[count..];
        let put = guarded!(
            self,
            base,
            at,
            count,
            self.append_each(base, at + count, others)
        );
        if let Err(error) = put {
            self.drop_last(base, at, count);
            return Err(error);
        }
        Ok(())
    }

    /// Appends clones of small elements, `CHUNK` at a time, and returns how many: fewer than
    /// `CHUNK` are left then. Of larger elements none is cloned.
    fn append_chunks(
        &mut self,
        base: Base<T>,
        at: usize,
        elements: &[T],
    ) -> Result<usize, AllocError>
    where
        T: Clone,
        requires { (base.ptr ≡ self.old.at) × (at ≡ self.old.start + length self.old.items)
            × (length self.old.items + length elements.now ≤ self.old.capacity)
            × (at + length elements.now < 2 ^ 64) }
        ensures clones { IfOk result
            (λ count. AppendsClones T.is_clone self.old.items
            (take count elements.now) self.new.items) }
        ensures len { IfOk result (λ count. (count ≤ length elements.now)
            × (length self.new.items ≡ length self.old.items + count)) }
        ensures places { SamePlaces self.old self.new }
        ensures unchanged { OnErr result (self.new.items ≡ self.old.items) }
    {
        let mut rest = elements;
        let mut count = 0;
        if !are_small(elements) {
            return Ok(count);
        }
        while let Some((chunk, others)) = rest.split_first_chunk::<CHUNK>() {
            let put = guarded!(
                self,
                base,
                at,
                count,
                self.append_chunk(base, at + count, chunk)
            );
            if let Err(error) = put {
                self.drop_last(base, at, count);
                return Err(error);
            }
            rest = others;
            count += CHUNK;
        }
        Ok(count)
    }

    /// Appends clones of `CHUNK` elements, the first of them in the place numbered `at`.
    fn append_chunk(
        &mut self,
        base: Base<T>,
        at: usize,
        elements: &[T; CHUNK],
    ) -> Result<(), AllocError>
    where
        T: Clone,
        requires room { (base.ptr ≡ self.old.at) × (at ≡ self.old.start + length self.old.items)
            × (length self.old.items + CHUNK ≤ self.old.capacity) × (at + CHUNK < 2 ^ 64) }
        ensures clones { OnOk result
            (AppendsClones T.is_clone self.old.items elements.now self.new.items) }
        ensures len { OnOk result (length self.new.items ≡ length self.old.items + CHUNK) }
        ensures places { SamePlaces self.old self.new }
        ensures unchanged { OnErr result (self.new.items ≡ self.old.items) }
    {
        self.put_chunk(base, at, elements.clone()?);
        Ok(())
    }

    /// Appends clones of `elements` one by one, the first of them in the place numbered `at`. If a
    /// clone is refused, those before it are dropped again.
    fn append_each(&mut self, base: Base<T>, at: usize, elements: &[T]) -> Result<(), AllocError>
    where
        T: Clone,
        requires { (base.ptr ≡ self.old.at) × (at ≡ self.old.start + length self.old.items)
            × (length self.old.items + length elements.now ≤ self.old.capacity)
            × (at + length elements.now < 2 ^ 64) }
        ensures clones { OnOk result
            (AppendsClones T.is_clone self.old.items elements.now self.new.items) }
        ensures len { OnOk result (length self.new.items ≡ length self.old.items
            + length elements.now) }
        ensures places { SamePlaces self.old self.new }
        ensures unchanged { OnErr result (self.new.items ≡ self.old.items) }
    {
        let mut count = 0;
        while count < elements.len() {
            match guarded!(self, base, at, count, elements[count].clone()) {
                Ok(copy) => self.put(base, at + count, copy),
                Err(error) => {
                    self.drop_last(base, at, count);
                    return Err(error);
                }
            }
            count += 1;
        }
        Ok(())
    }
}
