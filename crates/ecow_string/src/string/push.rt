//! Appending text.
ghost use Rattle.std.specs.Prelude.{◌≡◌, ◌+◌, ◌<◌, ◌↔◌, [], ◌∷◌, ◌++◌, length, false, IsOk, IfOk, IfErr, OnOk, OnErr, IsErrAnd, IsErrOf};
ghost use Rattle.std.specs.Char.{len_utf8};
ghost use Rattle.std.specs.Str.{chars};
ghost use Rattle.ecow_base.specs.Inline.{inline_after, Grows};
ghost use Rattle.ecow_base.specs.Utf8.{utf8_len};
ghost use Rattle.ecow_list.specs.Refusals.{RefusesPast};

use crate::string::SmallText;
use ecow_base::MAX_LEN;
use ecow_list::{EcoError, Rejected};

impl<const N: usize> SmallText<N> {
    /// Appends `c`.
    ///
    /// Takes constant time on average, and linear time in the length if the text is shared.
    ///
    /// # Errors
    ///
    /// `Capacity` if there would be more than 2^63 - 1 bytes; `Memory` if there is no memory for a
    /// larger block or a copy. The text is unchanged. No character is refused that fits inline.
    #[inline]
    pub fn push(&mut self, c: char) -> Result<(), EcoError>
        ensures chars { OnOk result (self.new.chars ≡ self.old.chars ++ c ∷ []) }
        ensures mode { Grows N self.old.inline (utf8_len self.old.chars) (len_utf8 c)
            result self.new.inline }
        ensures refused { RefusesPast (utf8_len self.old.chars + len_utf8 c)
            self.old result self.new }
    {
        let mut buffer = [0; 4];
        self.push_str(c.encode_utf8(&mut buffer))?;
        Ok(())
    }

    /// Appends `text`.
    ///
    /// Takes time linear in the number of bytes appended, on average. A shared text is copied
    /// first; if `text` is empty, nothing changes and it stays shared.
    ///
    /// # Errors
    ///
    /// `Capacity` if there would be more than 2^63 - 1 bytes; `Memory` if there is no memory for a
    /// larger block or a copy. The text is unchanged. No text is refused that fits inline.
    #[inline]
    pub fn push_str(&mut self, text: &str) -> Result<(), EcoError>
        ensures chars { OnOk result (self.new.chars ≡ self.old.chars ++ chars text.now) }
        ensures mode { Grows N self.old.inline (utf8_len self.old.chars) (length text.now)
            result self.new.inline }
        ensures refused { RefusesPast (utf8_len self.old.chars + length text.now)
            self.old result self.new }

        // An empty `text` changes nothing, and a shared text stays shared.
        ensures nothing { text.now ≡ [] → IsOk result × (self.new ≡ self.old) }
    {
        self.bytes.extend_from_slice(text.as_bytes())?;
        Ok(())
    }

    /// The text with `text` appended, as `push_str` appends it, and at its cost.
    ///
    /// # Errors
    ///
    /// `Capacity` if there would be more than 2^63 - 1 bytes; `Memory` if there is no memory for a
    /// larger block or a copy. The text comes back unchanged in the error. No text is refused that
    /// fits inline.
    pub fn add(self, text: &str) -> Result<Self, Rejected<Self>>
        ensures chars { IfOk result (λ sum. sum.chars ≡ self.entry.chars ++ chars text.now) }
        ensures mode { IfOk result (λ sum. sum.inline
            ≡ inline_after N self.entry.inline (utf8_len self.entry.chars) (length text.now)) }

        // Refused as `push_str` is.
        ensures value_returned { IfErr result (λ rejected. rejected.value ≡ self.entry) }
        ensures capacity { IsErrAnd result (λ rejected. rejected.error ≡ EcoError.Capacity)
            ↔ (MAX_LEN < utf8_len self.entry.chars + length text.now) }
        ensures free { OnErr result (inline_after N self.entry.inline (utf8_len self.entry.chars)
            (length text.now) ≡ false) }
        ensures nothing { text.now ≡ [] → IsOk result }
    {
        let mut sum = self;
        match sum.push_str(text) {
            Ok(()) => Ok(sum),
            Err(error) => Err(Rejected { error, value: sum }),
        }
    }
}
