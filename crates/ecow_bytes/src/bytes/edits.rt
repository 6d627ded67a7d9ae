//! The calls that change bytes in place. Inline bytes are changed where they are, and spilled bytes
//! through their vector.
ghost use Rattle.std.specs.Prelude.{◌≡◌, ◌+◌, ◌-◌, ◌<◌, ◌≤◌, ◌↔◌, [], length, take, true, false, IsOk, IfOk, IfErr, OnOk, OnErr, IsErrOf, IsSome, Some, insert, remove, slice_get, slice_set};
ghost use Rattle.std.specs.List.{insert_slice, replace_range};
ghost use Rattle.ecow_base.specs.Range.{range_of};
ghost use Rattle.ecow_list.specs.Ranges.{AtRange};
ghost use Rattle.ecow_list.specs.Refusals.{RefusesForMemory, RefusesPast};
ghost use Rattle.ecow_base.specs.Inline.{Grows, KeepsMode, inline_shrunk};

use crate::bytes::SmallBytes;
use crate::form::Form;
use ecow_base::{MAX_LEN, resolve};
use ecow_list::EcoError;
use std::ops::RangeBounds;

impl<const N: usize> SmallBytes<N> {
    /// Removes the last byte and returns it; `None` if there are no bytes.
    ///
    /// Takes constant time, but shared bytes are copied first.
    ///
    /// # Errors
    ///
    /// `Memory` if there is no memory for the copy of shared bytes. The bytes are unchanged.
    #[inline]
    pub fn pop(&mut self) -> Result<Option<u8>, EcoError>
        ensures value { IfOk result
            (λ last. last ≡ slice_get self.old.bytes (length self.old.bytes - 1)) }
        ensures bytes { OnOk result
            (self.new.bytes ≡ take (length self.old.bytes - 1) self.old.bytes) }
        ensures mode { KeepsMode self.old.inline result self.new.inline }

        // Only a copy of shared bytes is refused, and no bytes need no copy.
        ensures refused { RefusesForMemory self.old result self.new }
        ensures empty { self.old.bytes ≡ [] → IsOk result × (self.new ≡ self.old) }
    {
        match &mut self.form {
            Form::Short(_) | Form::Full(_) => {
                let last = self.form.as_slice().last().copied();
                let len = self.form.len();
                self.form.truncate(len.saturating_sub(1));
                Ok(last)
            }
            Form::Spilled(vec) => vec.pop(),
        }
    }

    /// Keeps the first `target` bytes, or all if there are no more than that.
    ///
    /// Copies nothing, but if the bytes are shared, those that stay are copied into a block of
    /// their own.
    ///
    /// # Errors
    ///
    /// `Memory` if there is no memory for the copy of shared bytes. The bytes are unchanged. If all
    /// bytes stay or none does, nothing is copied and the call is never refused.
    pub fn truncate(&mut self, target: usize) -> Result<(), EcoError>
        ensures bytes { OnOk result (self.new.bytes ≡ take target self.old.bytes) }
        ensures mode { KeepsMode self.old.inline result self.new.inline }

        // Only a copy of shared bytes is refused, and there is none if all bytes stay or none does.
        ensures refused { RefusesForMemory self.old result self.new }
        ensures keeps_all { length self.old.bytes ≤ target → IsOk result × (self.new ≡ self.old) }
        ensures keeps_none { target ≡ 0 → IsOk result × (self.new.bytes ≡ []) }
    {
        match &mut self.form {
            Form::Short(_) | Form::Full(_) => {
                self.form.truncate(target);
                Ok(())
            }
            Form::Spilled(vec) => vec.truncate(target),
        }
    }

    /// Inserts `byte` at `index`, before the byte that is there.
    ///
    /// Moves the bytes from `index` on. Shared bytes are copied first, and all are moved when they
    /// spill or need a larger block.
    ///
    /// # Errors
    ///
    /// `Capacity` if there are 2^63 - 1 bytes already; `Memory` if there is no memory for a larger
    /// block or a copy. The bytes are unchanged. No byte is refused that fits inline.
    #[tactic(auto, using(crate::proofs::Limits::past_limit))]
    pub fn insert(&mut self, index: usize, byte: u8) -> Result<(), EcoError>
        requires { index ≤ length self.old.bytes }
        ensures bytes { OnOk result (self.new.bytes ≡ insert self.old.bytes index byte) }
        ensures mode { Grows N self.old.inline (length self.old.bytes) 1 result self.new.inline }
        ensures refused { RefusesPast (length self.old.bytes + 1) self.old result self.new }
    {
        if let Form::Spilled(vec) = &mut self.form {
            return match vec.insert(index, byte) {
                Ok(()) => Ok(()),
                Err(rejected) => Err(rejected.error),
            };
        }
        self.insert_slice(index, &[byte])
    }

    /// Inserts `bytes` at `index`, before the byte that is there.
    ///
    /// Copies `bytes` and moves the bytes from `index` on. Shared bytes are copied first, even if
    /// `bytes` is empty, and all are moved when they spill or need a larger block.
    ///
    /// # Errors
    ///
    /// `Capacity` if there would be more than 2^63 - 1 bytes; `Memory` if there is no memory for a
    /// larger block or a copy. The bytes are unchanged. No bytes are refused that fit inline.
    #[inline]
    #[tactic(auto, using(crate::proofs::Limits::past_limit))]
    pub fn insert_slice(&mut self, index: usize, bytes: &[u8]) -> Result<(), EcoError>
        requires { index ≤ length self.old.bytes }
        ensures bytes { OnOk result (self.new.bytes ≡ insert_slice self.old.bytes index bytes.now) }
        ensures mode { Grows N self.old.inline (length self.old.bytes) (length bytes.now)
            result self.new.inline }
        ensures refused { RefusesPast (length self.old.bytes + length bytes.now)
            self.old result self.new }
    {
        if let Form::Spilled(vec) = &mut self.form {
            return vec.insert_slice(index, bytes);
        }
        if bytes.len() > N - self.form.len() {
            return self.spill_with(index, index, bytes);
        }
        self.form.replace_range(index, index, bytes);
        Ok(())
    }

    /// Replaces the bytes of `range` with `bytes`. `range_in` tests whether a range is within the
    /// bytes.
    ///
    /// Copies `bytes` and moves the bytes after the range; those before it stay where they are.
    /// Shared bytes are copied first, even if nothing changes, and all are moved when they spill or
    /// need a larger block.
    ///
    /// This project's own, named as that of std's `String`.
    ///
    /// # Errors
    ///
    /// `Capacity` if there would be more than 2^63 - 1 bytes; `Memory` if there is no memory for a
    /// larger block or a copy. The bytes are unchanged. No bytes are refused that fit inline.
    #[inline]
    #[tactic(auto, using(crate::proofs::Limits::past_limit))]
    pub fn replace_range<R: RangeBounds<usize>>(
        &mut self,
        range: R,
        bytes: &[u8],
    ) -> Result<(), EcoError>
        requires known { R.has_bounds range }
        requires in_range { IsSome
            (range_of (R.start_bound range, R.end_bound range) (length self.old.bytes)) }
        ensures bytes { OnOk result
            (AtRange (R.start_bound range, R.end_bound range) (length self.old.bytes)
            (λ start end. self.new.bytes ≡ replace_range self.old.bytes start end bytes.now)) }
        ensures mode { AtRange (R.start_bound range, R.end_bound range) (length self.old.bytes)
            (λ start end.
            Grows N self.old.inline (length self.old.bytes - (end - start)) (length bytes.now)
            result self.new.inline) }

        // A refused call changes nothing. `Capacity` means exactly that the new length passes the
        // limit.
        ensures unchanged { OnErr result (self.new ≡ self.old) }
        ensures capacity { AtRange (R.start_bound range, R.end_bound range) (length self.old.bytes)
            (λ start end. IsErrOf result EcoError.Capacity
            ↔ (MAX_LEN < length self.old.bytes - (end - start) + length bytes.now)) }
    {
        let (start, end) = resolve(&range, self.len()).unwrap();
        if let Form::Spilled(vec) = &mut self.form {
            return vec.replace_range(start..end, bytes);
        }
        if bytes.len() > N - (self.form.len() - (end - start)) {
            return self.spill_with(start, end, bytes);
        }
        self.form.replace_range(start, end, bytes);
        Ok(())
    }

    /// Removes the byte at `index` and returns it.
    ///
    /// Moves the bytes after it. Shared bytes are copied first.
    ///
    /// # Errors
    ///
    /// `Memory` if there is no memory for the copy of shared bytes. The bytes are unchanged.
    pub fn remove(&mut self, index: usize) -> Result<u8, EcoError>
        requires { index < length self.old.bytes }
        ensures value { IfOk result (λ byte. slice_get self.old.bytes index ≡ Some byte) }
        ensures bytes { OnOk result (self.new.bytes ≡ remove self.old.bytes index) }
        ensures mode { KeepsMode self.old.inline result self.new.inline }
        ensures refused { RefusesForMemory self.old result self.new }
    {
        match &mut self.form {
            Form::Short(_) | Form::Full(_) => Ok(self.form.remove(index)),
            Form::Spilled(vec) => vec.remove(index),
        }
    }

    /// Replaces the byte at `index` with `byte`.
    ///
    /// Takes constant time, but shared bytes are copied first.
    ///
    /// This project's own: the original writes through `make_mut`.
    ///
    /// # Errors
    ///
    /// `Memory` if there is no memory for the copy of shared bytes. The bytes are unchanged.
    pub fn set(&mut self, index: usize, byte: u8) -> Result<(), EcoError>
        requires { index < length self.old.bytes }
        ensures bytes { OnOk result (self.new.bytes ≡ slice_set self.old.bytes index byte) }
        ensures mode { KeepsMode self.old.inline result self.new.inline }
        ensures refused { RefusesForMemory self.old result self.new }
    {
        match &mut self.form {
            Form::Short(_) | Form::Full(_) => {
                self.form.inline_mut()[index] = byte;
                Ok(())
            }
            Form::Spilled(vec) => match vec.set(index, byte) {
                Ok(()) => Ok(()),
                Err(rejected) => Err(rejected.error),
            },
        }
    }

    /// Reserves capacity for `additional` more bytes. The capacity that results is not promised.
    ///
    /// Inline bytes spill if they don't fit inline with `additional` more. Shared bytes are copied,
    /// even if `additional` is 0, and other spilled bytes are moved if their block is too small.
    ///
    /// # Errors
    ///
    /// `Capacity` if the length and `additional` together pass 2^63 - 1; `Memory` if there is no
    /// memory for the block. The bytes are unchanged.
    #[tactic(auto, using(crate::proofs::Limits::past_limit))]
    pub fn reserve(&mut self, additional: usize) -> Result<(), EcoError>
        ensures bytes { self.new.bytes ≡ self.old.bytes }
        ensures mode { Grows N self.old.inline (length self.old.bytes) additional
            result self.new.inline }
        ensures refused { RefusesPast (length self.old.bytes + additional)
            self.old result self.new }
    {
        if let Form::Spilled(vec) = &mut self.form {
            return vec.reserve(additional);
        }
        if additional <= N - self.form.len() {
            return Ok(());
        }
        let vec = self.spill(additional)?;
        self.form = Form::Spilled(vec);
        Ok(())
    }

    /// Brings spilled bytes back inline if there are at most `N`. Otherwise nothing changes, and a
    /// shared block stays shared.
    ///
    /// Copies at most `N` bytes, takes no memory and is never refused. Other values that share the
    /// block keep it.
    pub fn shrink_to_fit(&mut self)
        ensures bytes { self.new.bytes ≡ self.old.bytes }
        ensures mode { self.new.inline ≡ inline_shrunk N self.old.inline (length self.old.bytes) }
    {
        if let Form::Spilled(vec) = &self.form {
            if let Some(inline) = Form::inline(vec.as_slice()) {
                self.form = inline;
            }
        }
    }
}
