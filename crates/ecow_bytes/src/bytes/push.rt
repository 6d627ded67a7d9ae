//! Appending bytes. The code for bytes that fit inline is short and is inlined; the rest is out of
//! line.
ghost use Rattle.std.specs.Prelude.{◌≡◌, ℕ, List, ◌+◌, ◌-◌, ◌<◌, ◌≤◌, ◌↔◌, [], ◌∷◌, ◌++◌, length, true, false, IsOk, IfOk, OnOk, OnErr, IsErrOf};
ghost use Rattle.std.specs.Iterator.{IsFinite, IsFiniteIterable, ExtendsWithItems};
ghost use Rattle.std.specs.List.{replace_range};
ghost use Rattle.ecow_list.specs.Vectors.{Appends, ExtendsBy, GivesFirst};
ghost use Rattle.ecow_list.specs.Refusals.{RefusesPast};
ghost use Rattle.ecow_base.specs.Inline.{Grows, inline_after};

use crate::bytes::SmallBytes;
use crate::form::Form;
use ecow_base::{MAX_LEN, room_for};
use ecow_list::{EcoError, EcoVec};

impl<const N: usize> SmallBytes<N> {
    /// Appends `byte`.
    ///
    /// Takes constant time on average, and linear time in the length if the bytes are shared.
    ///
    /// # Errors
    ///
    /// `Capacity` if there are 2^63 - 1 bytes already; `Memory` if there is no memory for a larger
    /// block or a copy. The bytes are unchanged. No byte is refused that fits inline.
    #[inline(always)]
    #[tactic(auto, using(crate::proofs::Limits::past_limit, crate::proofs::Moves::put_at_end))]
    pub fn push(&mut self, byte: u8) -> Result<(), EcoError>
        ensures bytes { OnOk result (self.new.bytes ≡ self.old.bytes ++ byte ∷ []) }
        ensures mode { Grows N self.old.inline (length self.old.bytes) 1 result self.new.inline }
        ensures refused { RefusesPast (length self.old.bytes + 1) self.old result self.new }
    {
        let end = match &mut self.form {
            Form::Spilled(vec) => {
                return match vec.push(byte) {
                    Ok(()) => Ok(()),
                    Err(rejected) => Err(rejected.error),
                };
            }
            Form::Full(cells) => cells.count(),
            Form::Short(few) => {
                let len = few.len();
                self.form.set_len(len + 1);
                self.form.inline_mut()[len] = byte;
                return Ok(());
            }
        };
        self.spill_with(end, end, &[byte])
    }

    /// Appends `bytes`.
    ///
    /// Takes time linear in the number of bytes appended, on average. Shared bytes are copied
    /// first; if `bytes` is empty, nothing changes and they stay shared.
    ///
    /// # Errors
    ///
    /// `Capacity` if there would be more than 2^63 - 1 bytes; `Memory` if there is no memory for a
    /// larger block or a copy. The bytes are unchanged. No bytes are refused that fit inline.
    #[inline]
    #[tactic(auto, using(crate::proofs::Limits::past_limit, crate::proofs::Moves::put_at_end))]
    pub fn extend_from_slice(&mut self, bytes: &[u8]) -> Result<(), EcoError>
        ensures bytes { OnOk result (self.new.bytes ≡ self.old.bytes ++ bytes.now) }
        ensures mode { Grows N self.old.inline (length self.old.bytes) (length bytes.now)
            result self.new.inline }
        ensures refused { RefusesPast (length self.old.bytes + length bytes.now)
            self.old result self.new }

        // An empty `bytes` changes nothing, and shared bytes stay shared.
        ensures nothing { bytes.now ≡ [] → IsOk result × (self.new ≡ self.old) }
    {
        if let [byte] = bytes {
            return self.push(*byte);
        }
        if let Form::Spilled(vec) = &mut self.form {
            return vec.extend_from_copied(bytes);
        }
        let len = self.form.len();
        if bytes.len() > N - len {
            return self.spill_with(len, len, bytes);
        }
        self.form.set_len(len + bytes.len());
        let all = self.form.inline_mut();
        all[len..].copy_from_slice(bytes);
        Ok(())
    }

    /// Appends the bytes of `iter` one after another, each as `push` does. Inline bytes spill at
    /// the byte that makes them more than `N`.
    ///
    /// Each byte takes constant time on average. Shared bytes are copied at the first byte; if
    /// there is none, nothing changes. The size hint of `iter` isn't used.
    ///
    /// # Errors
    ///
    /// `Capacity` if there are 2^63 - 1 bytes; `Memory` if there is no memory for a larger block or
    /// a copy. The bytes appended so far stay, and no further byte is taken from `iter`. No byte is
    /// refused that fits inline.
    pub fn extend<I: IntoIterator<Item = u8>>(&mut self, iter: I) -> Result<(), EcoError>
        requires { IsFiniteIterable
            I.into_iter_gives I.IntoIter.can_next I.IntoIter.remaining iter }
        ensures bytes { ExtendsWithItems I.into_iter_gives I.IntoIter.next_gives Appends iter
            self.old.bytes self.new.bytes result }
        ensures mode { self.new.inline ≡ inline_after N self.old.inline (length self.new.bytes) 0 }

        // A refusal is that of one byte, and the bytes before it stay. No byte is refused that fits
        // inline.
        ensures refused { OnErr result ((items : List ℕ)
            × GivesFirst I.into_iter_gives I.IntoIter.next_gives iter items
            × (length self.new.bytes + 1 ≡ length self.old.bytes + length items)) }
        ensures capacity { OnErr result (IsErrOf result EcoError.Capacity
            ↔ (MAX_LEN ≤ length self.new.bytes)) }
        ensures free { OnErr result (inline_after N self.new.inline (length self.new.bytes) 1
            ≡ false) }
    {
        self.extend_from(&mut iter.into_iter())
    }

    /// Appends the bytes that `iter` still gives, as `extend` does.
    fn extend_from<I: Iterator<Item = u8>>(&mut self, iter: &mut I) -> Result<(), EcoError>
        requires ends { I.can_next iter.old × IsFinite (I.remaining iter.old) }
        ensures bytes { ExtendsBy I.next_gives Appends iter.old
            self.old.bytes self.new.bytes result iter.new }
        ensures mode { self.new.inline ≡ inline_after N self.old.inline (length self.new.bytes) 0 }
        ensures capacity { OnErr result (IsErrOf result EcoError.Capacity
            ↔ (MAX_LEN ≤ length self.new.bytes)) }
        ensures free { OnErr result (inline_after N self.new.inline (length self.new.bytes) 1
            ≡ false) }
    {
        // For the proof alone: there are at most `N` inline bytes.
        let _len = self.len();
        while let Some(byte) = iter.next() {
            self.push(byte)?;
        }
        Ok(())
    }

    /// Spills inline bytes, and replaces those from `start` up to `end` with `bytes`, with which
    /// they don't fit inline.
    #[cold]
    #[inline(never)]
    pub(super) fn spill_with(
        &mut self,
        start: usize,
        end: usize,
        bytes: &[u8],
    ) -> Result<(), EcoError>
        requires ordered { start ≤ end }
        requires in_bounds { end ≤ length self.old.bytes }
        requires inline { self.old.inline ≡ true }
        requires full { N < length self.old.bytes - (end - start) + length bytes.now }

        // All bytes are spilled.
        ensures bytes { OnOk result
            (self.new.bytes ≡ replace_range self.old.bytes start end bytes.now) }
        ensures mode { OnOk result (self.new.inline ≡ false) }
        ensures refused { RefusesPast (length self.old.bytes - (end - start) + length bytes.now)
            self.old result self.new }
    {
        let len = self.form.len();
        let new_len = len - (end - start) + bytes.len();
        let mut vec = self.spill(new_len - len)?;
        if start == len {
            vec.extend_from_copied(bytes)?;
        } else {
            vec.replace_range(start..end, bytes)?;
        }
        self.form = Form::Spilled(vec);
        Ok(())
    }

    /// Copies the bytes to a vector with capacity for `additional` more. Returns `Capacity` if the
    /// length and `additional` together pass 2^63 - 1, and otherwise `Memory` if there is no
    /// memory.
    #[cold]
    #[inline(never)]
    pub(super) fn spill(&self, additional: usize) -> Result<EcoVec<u8>, EcoError>
        ensures bytes { IfOk result (λ vec. vec ≡ self.now.bytes) }
        ensures capacity { IsErrOf result EcoError.Capacity
            ↔ (MAX_LEN < length self.now.bytes + additional) }
    {
        let len = self.len();
        if additional > MAX_LEN - len {
            return Err(EcoError::Capacity);
        }
        let room = room_for(len, additional, len).next_power_of_two();
        let mut vec = EcoVec::with_capacity(self.alloc, room.min(MAX_LEN))?;
        vec.extend_from_copied(self.as_slice())?;
        Ok(vec)
    }
}
