//! The calls that change a text in place.
ghost use Rattle.std.specs.Prelude.{◌≡◌, ◌+◌, ◌-◌, ◌<◌, ◌≤◌, ◌↔◌, ◌||◌, [], length, take, true, false, IsOk, IfOk, IfErr, OnOk, OnErr, IsErrOf, IsSome, Some, insert, remove, map, nat_lt, slice_get};
ghost use Rattle.std.specs.List.{insert_slice, replace_range};
ghost use Rattle.std.specs.Char.{len_utf8, to_ascii_lowercase, to_ascii_uppercase};
ghost use Rattle.std.specs.Str.{chars};
ghost use Rattle.ecow_base.specs.Range.{range_of};
ghost use Rattle.ecow_list.specs.Ranges.{AtRange};
ghost use Rattle.ecow_base.specs.Inline.{inline_shrunk, Grows, KeepsMode};
ghost use Rattle.ecow_base.specs.Utf8.{utf8_len, chars_before, is_boundary};
ghost use Rattle.ecow_list.specs.Refusals.{RefusesForMemory, RefusesPast};

use crate::string::SmallText;
use ecow_base::{MAX_LEN, resolve};
use ecow_list::EcoError;
use std::ops::RangeBounds;

impl<const N: usize> SmallText<N> {
    /// Removes the last character and returns it; `None` if the text is empty.
    ///
    /// Takes constant time, but if the text is shared, what stays is copied into a block of its
    /// own.
    ///
    /// # Errors
    ///
    /// `Memory` if there is no memory for the copy of a shared text. The text is unchanged.
    pub fn pop(&mut self) -> Result<Option<char>, EcoError>
        ensures value { IfOk result
            (λ last. last ≡ slice_get self.old.chars (length self.old.chars - 1)) }
        ensures chars { OnOk result
            (self.new.chars ≡ take (length self.old.chars - 1) self.old.chars) }
        ensures mode { KeepsMode self.old.inline result self.new.inline }

        // Only a copy of a shared text is refused, and an empty text needs no copy.
        ensures refused { RefusesForMemory self.old result self.new }
        ensures empty { self.old.chars ≡ [] → IsOk result × (self.new ≡ self.old) }
    {
        let mut rest = self.as_str().chars();
        let Some(last) = rest.next_back() else {
            return Ok(None);
        };
        let len = rest.as_str().len();
        self.bytes.truncate(len)?;
        Ok(Some(last))
    }

    /// Keeps the first `target` bytes, or all if there are no more than that. `target` must be a
    /// boundary or past the end.
    ///
    /// Copies nothing, but if the text is shared, what stays is copied into a block of its own.
    ///
    /// # Errors
    ///
    /// `Memory` if there is no memory for the copy of a shared text. The text is unchanged. If all
    /// of it stays or nothing does, nothing is copied and the call is never refused.
    pub fn truncate(&mut self, target: usize) -> Result<(), EcoError>
        requires { target ≤ utf8_len self.old.chars → is_boundary self.old.chars target ≡ true }
        ensures chars { OnOk result
            (self.new.chars ≡ take (chars_before self.old.chars target) self.old.chars) }
        ensures mode { KeepsMode self.old.inline result self.new.inline }

        // Only a copy of a shared text is refused, and there is none if all stays or nothing does.
        ensures refused { RefusesForMemory self.old result self.new }
        ensures keeps_all { utf8_len self.old.chars ≤ target → IsOk result × (self.new ≡ self.old) }
        ensures keeps_none { target ≡ 0 → IsOk result × (self.new.chars ≡ []) }
    {
        self.bytes.truncate(target)?;
        Ok(())
    }

    /// Inserts `c` at the boundary `index`.
    ///
    /// Moves the bytes from `index` on. A shared text is copied first, and all bytes are moved when
    /// the text spills or needs a larger block.
    ///
    /// # Errors
    ///
    /// `Capacity` if there would be more than 2^63 - 1 bytes; `Memory` if there is no memory for a
    /// larger block or a copy. The text is unchanged. No character is refused that fits inline.
    pub fn insert(&mut self, index: usize, c: char) -> Result<(), EcoError>
        requires { is_boundary self.old.chars index ≡ true }
        ensures chars { OnOk result
            (self.new.chars ≡ insert self.old.chars (chars_before self.old.chars index) c) }
        ensures mode { Grows N self.old.inline (utf8_len self.old.chars) (len_utf8 c)
            result self.new.inline }
        ensures refused { RefusesPast (utf8_len self.old.chars + len_utf8 c)
            self.old result self.new }
    {
        let mut buffer = [0; 4];
        self.insert_str(index, c.encode_utf8(&mut buffer))?;
        Ok(())
    }

    /// Inserts `text` at the boundary `index`.
    ///
    /// Copies `text` and moves the bytes from `index` on. A shared text is copied first, even if
    /// `text` is empty, and all bytes are moved when the text spills or needs a larger block.
    ///
    /// # Errors
    ///
    /// `Capacity` if there would be more than 2^63 - 1 bytes; `Memory` if there is no memory for a
    /// larger block or a copy. The text is unchanged. No text is refused that fits inline.
    #[inline]
    pub fn insert_str(&mut self, index: usize, text: &str) -> Result<(), EcoError>
        requires { is_boundary self.old.chars index ≡ true }
        ensures chars { OnOk result
            (self.new.chars ≡ insert_slice self.old.chars (chars_before self.old.chars index)
            (chars text.now)) }
        ensures mode { Grows N self.old.inline (utf8_len self.old.chars) (length text.now)
            result self.new.inline }
        ensures refused { RefusesPast (utf8_len self.old.chars + length text.now)
            self.old result self.new }
    {
        self.bytes.insert_slice(index, text.as_bytes())?;
        Ok(())
    }

    /// Replaces the bytes of `range` with `text`. The range must begin and end at boundaries;
    /// `range_in` tests whether it is within the text.
    ///
    /// Copies `text` and moves the bytes after the range; those before it stay where they are. A
    /// shared text is copied first, even if nothing changes, and all bytes are moved when the text
    /// spills or needs a larger block.
    ///
    /// This project's own: the call of std's `String`, which the original lacks.
    ///
    /// # Errors
    ///
    /// `Capacity` if there would be more than 2^63 - 1 bytes; `Memory` if there is no memory for a
    /// larger block or a copy. The text is unchanged. No text is refused that fits inline.
    #[inline]
    pub fn replace_range<R: RangeBounds<usize>>(
        &mut self,
        range: R,
        text: &str,
    ) -> Result<(), EcoError>
        requires known { R.has_bounds range }
        requires in_range { IsSome
            (range_of (R.start_bound range, R.end_bound range) (utf8_len self.old.chars)) }
        requires boundaries { AtRange (R.start_bound range, R.end_bound range)
            (utf8_len self.old.chars)
            (λ start end. (is_boundary self.old.chars start ≡ true)
            × (is_boundary self.old.chars end ≡ true)) }
        ensures chars { OnOk result
            (AtRange (R.start_bound range, R.end_bound range) (utf8_len self.old.chars)
            (λ start end. self.new.chars ≡ replace_range self.old.chars
            (chars_before self.old.chars start) (chars_before self.old.chars end)
            (chars text.now))) }
        ensures mode { AtRange (R.start_bound range, R.end_bound range) (utf8_len self.old.chars)
            (λ start end.
            Grows N self.old.inline (utf8_len self.old.chars - (end - start)) (length text.now)
            result self.new.inline) }

        // A refused call changes nothing. `Capacity` means exactly that the new length passes the
        // limit.
        ensures unchanged { OnErr result (self.new ≡ self.old) }
        ensures capacity { AtRange (R.start_bound range, R.end_bound range)
            (utf8_len self.old.chars)
            (λ start end. IsErrOf result EcoError.Capacity
            ↔ (MAX_LEN < utf8_len self.old.chars - (end - start) + length text.now)) }
    {
        let (start, end) = resolve(&range, self.len()).unwrap();
        self.bytes.replace_range(start..end, text.as_bytes())?;
        Ok(())
    }

    /// Removes the character at `index` and returns it. `index` must be a boundary below the
    /// length.
    ///
    /// Moves the bytes after it. A shared text is copied first.
    ///
    /// # Errors
    ///
    /// `Memory` if there is no memory for the copy of a shared text. The text is unchanged.
    pub fn remove(&mut self, index: usize) -> Result<char, EcoError>
        requires boundary { is_boundary self.old.chars index ≡ true }
        requires in_bounds { index < utf8_len self.old.chars }

        // The character is removed, and the others stay.
        ensures value { IfOk result
            (λ c. slice_get self.old.chars (chars_before self.old.chars index) ≡ Some c) }
        ensures chars { OnOk result
            (self.new.chars ≡ remove self.old.chars (chars_before self.old.chars index)) }
        ensures mode { KeepsMode self.old.inline result self.new.inline }
        ensures refused { RefusesForMemory self.old result self.new }
    {
        let c = self.as_str()[index..].chars().next().unwrap();
        let end = index + c.len_utf8();
        self.bytes.rewrite(|bytes| {
            bytes.copy_within(end.., index);
            bytes.len() - (end - index)
        })?;
        Ok(c)
    }

    /// Reserves capacity for `additional` more bytes. The capacity that results is not promised.
    ///
    /// An inline text spills if it doesn't fit inline with `additional` more bytes. A shared text
    /// is copied, even if `additional` is 0, and another spilled text is moved if its block is too
    /// small.
    ///
    /// # Errors
    ///
    /// `Capacity` if the length and `additional` together pass 2^63 - 1; `Memory` if there is no
    /// memory for the block. The text is unchanged.
    pub fn reserve(&mut self, additional: usize) -> Result<(), EcoError>
        ensures chars { self.new.chars ≡ self.old.chars }
        ensures mode { Grows N self.old.inline (utf8_len self.old.chars) additional
            result self.new.inline }
        ensures refused { RefusesPast (utf8_len self.old.chars + additional)
            self.old result self.new }
    {
        self.bytes.reserve(additional)?;
        Ok(())
    }

    /// Brings a spilled text back inline if it has at most `N` bytes. Otherwise nothing changes,
    /// and a shared block stays shared.
    ///
    /// Copies at most `N` bytes, takes no memory and is never refused. Other values that share the
    /// block keep it.
    pub fn shrink_to_fit(&mut self)
        ensures chars { self.new.chars ≡ self.old.chars }
        ensures mode { self.new.inline ≡ inline_shrunk N self.old.inline (utf8_len self.old.chars) }
    {
        self.bytes.shrink_to_fit();
    }
}
