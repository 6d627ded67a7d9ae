//! Texts with their letters in lower or upper case.
ghost use Rattle.std.specs.Prelude.{◌≡◌, ◌<◌, ◌≤◌, length, true, false, IsOk, IfOk, IfErr, OnOk, OnErr, IsErrOf, map};
ghost use Rattle.std.specs.Char.{to_ascii_lowercase, to_ascii_uppercase};
ghost use Rattle.std.specs.Str.{encode_utf8_all, IsAscii};
ghost use Rattle.std.specs.StrCase.Lower.{str_to_lowercase};
ghost use Rattle.std.specs.StrCase.Upper.{str_to_uppercase};
ghost use Rattle.ecow_base.specs.Inline.{KeepsMode};
ghost use Rattle.ecow_base.specs.Utf8.{utf8_len};
ghost use Rattle.ecow_string.specs.Case.{in_case};
ghost use Rattle.ecow_list.specs.Refusals.{RefusesForMemory};
ghost use Rattle.ecow_string.specs.Makes.{MakesTextIn, MakesCased};

use crate::case::Case;
use crate::string::SmallText;
use ecow_base::MAX_LEN;
use ecow_bytes::SmallBytes;
use ecow_list::{EcoError, EcoVec};

impl<const N: usize> SmallText<N> {
    /// Changes the letters `A` to `Z` to lower case in place, and leaves all other characters as
    /// they are.
    ///
    /// Takes time linear in the length. A shared text is copied first.
    ///
    /// # Errors
    ///
    /// `Memory` if there is no memory for the copy of a shared text. The text is unchanged.
    pub fn make_ascii_lowercase(&mut self) -> Result<(), EcoError>
        ensures chars { OnOk result (self.new.chars ≡ map to_ascii_lowercase self.old.chars) }
        ensures mode { KeepsMode self.old.inline result self.new.inline }
        ensures refused { RefusesForMemory self.old result self.new }
    {
        self.make_ascii(Case::Lower)
    }

    /// Changes the letters `a` to `z` to upper case in place, and leaves all other characters as
    /// they are.
    ///
    /// Takes time linear in the length. A shared text is copied first.
    ///
    /// # Errors
    ///
    /// `Memory` if there is no memory for the copy of a shared text. The text is unchanged.
    pub fn make_ascii_uppercase(&mut self) -> Result<(), EcoError>
        ensures chars { OnOk result (self.new.chars ≡ map to_ascii_uppercase self.old.chars) }
        ensures mode { KeepsMode self.old.inline result self.new.inline }
        ensures refused { RefusesForMemory self.old result self.new }
    {
        self.make_ascii(Case::Upper)
    }

    /// A copy of the text with the letters `A` to `Z` in lower case. It is inline if this text is
    /// inline, and otherwise spilled.
    ///
    /// Takes time linear in the length, and one allocation if the text is spilled.
    ///
    /// # Errors
    ///
    /// `Memory` if there is no memory for the copy. An inline text is never refused.
    pub fn to_ascii_lowercase(&self) -> Result<Self, EcoError>
        ensures { MakesTextIn self.now.inline (map to_ascii_lowercase self.now.chars) result }
    {
        self.to_ascii(Case::Lower)
    }

    /// A copy of the text with the letters `a` to `z` in upper case. It is inline if this text is
    /// inline, and otherwise spilled.
    ///
    /// Takes time linear in the length, and one allocation if the text is spilled.
    ///
    /// # Errors
    ///
    /// `Memory` if there is no memory for the copy. An inline text is never refused.
    pub fn to_ascii_uppercase(&self) -> Result<Self, EcoError>
        ensures { MakesTextIn self.now.inline (map to_ascii_uppercase self.now.chars) result }
    {
        self.to_ascii(Case::Upper)
    }

    /// The text in lower case, as std's `str` maps it. In an ASCII text only the letters `A` to `Z`
    /// change; any other text is mapped by Unicode. The result is inline if it has at most `N`
    /// bytes, and otherwise spilled.
    ///
    /// Copies an ASCII text once. Any other text is mapped into a `String` first, which is then
    /// copied.
    ///
    /// # Errors
    ///
    /// `Memory` if there is no memory for the result or for the `String`. An ASCII text that fits
    /// inline is never refused.
    pub fn to_lowercase(&self) -> Result<Self, EcoError>
        ensures { MakesCased N Case.Lower self.now.chars result }
    {
        self.to_case(Case::Lower)
    }

    /// The text in upper case, as std's `str` maps it. In an ASCII text only the letters `a` to `z`
    /// change; any other text is mapped by Unicode. The result is inline if it has at most `N`
    /// bytes, and otherwise spilled.
    ///
    /// Copies an ASCII text once. Any other text is mapped into a `String` first, which is then
    /// copied.
    ///
    /// # Errors
    ///
    /// `Memory` if there is no memory for the result or for the `String`. An ASCII text that fits
    /// inline is never refused.
    pub fn to_uppercase(&self) -> Result<Self, EcoError>
        ensures { MakesCased N Case.Upper self.now.chars result }
    {
        self.to_case(Case::Upper)
    }

    /// Changes the ASCII letters to one case, in place.
    fn make_ascii(&mut self, case: Case) -> Result<(), EcoError>
        ensures chars { OnOk result (self.new.chars ≡ map (in_case case) self.old.chars) }
        ensures mode { KeepsMode self.old.inline result self.new.inline }
        ensures refused { RefusesForMemory self.old result self.new }
    {
        self.bytes.rewrite(|bytes| {
            case.map(bytes);
            bytes.len()
        })?;
        Ok(())
    }

    /// A copy of the text with its ASCII letters in one case, inline or spilled as this text is.
    fn to_ascii(&self, case: Case) -> Result<Self, EcoError>
        ensures { MakesTextIn self.now.inline (map (in_case case) self.now.chars) result }
    {
        // For the proof alone: an inline text has at most `N` bytes.
        let _len = self.len();
        let mut target = self.copy(self.is_inline())?;
        target.make_ascii(case)?;
        Ok(target)
    }

    /// A copy of the text, inline or spilled.
    fn copy(&self, inline: bool) -> Result<Self, EcoError>
        requires { inline ≡ true → utf8_len self.now.chars ≤ N }
        ensures { MakesTextIn inline self.now.chars result }
    {
        // For the proof alone: the length is bounded.
        let (_len, alloc) = (self.len(), self.bytes.allocator());
        let text = self.bytes.as_slice();
        let bytes = if inline {
            SmallBytes::inline(alloc, text)
        } else {
            SmallBytes::from(EcoVec::from_copied(alloc, text)?)
        };
        Ok(SmallText { bytes })
    }

    /// The text in one case, as std's `str` maps it.
    fn to_case(&self, case: Case) -> Result<Self, EcoError>
        ensures { MakesCased N case self.now.chars result }
    {
        let text = self.as_str();
        if text.is_ascii() {
            let mut ascii = self.copy(self.len() <= N)?;
            ascii.make_ascii(case)?;
            return Ok(ascii);
        }
        let alloc = self.bytes.allocator();
        let cased = case.copy(alloc, text)?;
        let target = Self::from_str(alloc, cased.as_str())?;
        Ok(target)
    }
}
