//! Repetition of bytes.
ghost use Rattle.std.specs.Prelude.{◌≡◌, ◌+◌, ◌*◌, ◌<◌, ◌≤◌, ◌↔◌, ◌++◌, false, length, take, IsOk, IfOk, IfErr, OnOk, OnErr, IsErrOf};
ghost use Rattle.std.specs.List.{repeat};
ghost use Rattle.ecow_base.specs.Inline.{Grows};
ghost use Rattle.ecow_bytes.specs.Makes.{MakesBytes};

use crate::bytes::SmallBytes;
use crate::form::Form;
use ecow_base::MAX_LEN;
use ecow_list::EcoError;

impl<const N: usize> SmallBytes<N> {
    /// The bytes repeated `count` times. The result is inline if it has at most `N` bytes, and
    /// otherwise spilled.
    ///
    /// Takes time linear in the length of the result, and at most one allocation. Each step appends
    /// as many copies as there are already. If there are no bytes, it takes constant time for any
    /// `count`.
    ///
    /// # Errors
    ///
    /// `Capacity` if the result would have more than 2^63 - 1 bytes; `Memory` if there is no memory
    /// for it. A result that fits inline is never refused.
    pub fn repeat(&self, count: usize) -> Result<Self, EcoError>
        ensures { MakesBytes N
            (length self.now.bytes * count) (repeat count self.now.bytes)
            result }
    {
        let len = self.len();
        if len == 0 || count == 0 {
            return Ok(Self::new(self.alloc));
        }
        if count > MAX_LEN / len {
            return Err(EcoError::Capacity);
        }
        let mut target = Self::with_capacity(self.alloc, len * count)?;
        target.extend_from_slice(self.as_slice())?;
        let mut copies = 1;
        while copies < count {
            let more = copies.min(count - copies);
            target.append_front(more * len)?;
            copies += more;
        }
        Ok(target)
    }

    /// Appends a copy of the first `len` bytes.
    #[tactic(auto, using(crate::proofs::Limits::past_limit, crate::proofs::Limits::part_fits))]
    fn append_front(&mut self, len: usize) -> Result<(), EcoError>
        requires in_bounds { len ≤ length self.old.bytes }
        requires bounded { length self.old.bytes + len ≤ MAX_LEN }
        ensures bytes { OnOk result (self.new.bytes ≡ self.old.bytes ++ take len self.old.bytes) }
        ensures mode { Grows N self.old.inline (length self.old.bytes) len
            result self.new.inline }
        ensures memory { IfErr result (λ error. error ≡ EcoError.Memory) }
    {
        if let Form::Spilled(vec) = &mut self.form {
            return vec.extend_from_within(..len);
        }
        let front = Self::from_slice(self.alloc, &self.as_slice()[..len])?;
        self.extend_from_slice(front.as_slice())?;
        Ok(())
    }
}
