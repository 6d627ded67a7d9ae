// rust: no file: the original has no such call
//! The call that cuts a text in two.
ghost use Rattle.std.specs.Prelude.{◌≡◌, take, drop, true, IfOk, IsOk, OnOk};
ghost use Rattle.ecow_base.specs.Inline.{inline_for, KeepsMode};
ghost use Rattle.ecow_base.specs.Utf8.{utf8_len, chars_before, is_boundary};
ghost use Rattle.ecow_list.specs.Refusals.{RefusesForMemory};

use crate::string::SmallText;
use ecow_list::EcoError;

impl<const N: usize> SmallText<N> {
    /// Removes what stands from the boundary `at` on, and returns it as another text. That is
    /// inline if it has at most `N` bytes.
    ///
    /// Copies what it returns. If the text is shared, what stays is copied into a block of its own,
    /// unless all of it stays or nothing does.
    ///
    /// This project's own: the call of std's `String`, which the original lacks.
    ///
    /// # Errors
    ///
    /// `Memory` if there is no memory for what is returned, or for the copy of a shared text. The
    /// text is unchanged. The call is never refused if `at` is the length.
    pub fn split_off(&mut self, at: usize) -> Result<Self, EcoError>
        requires { is_boundary self.old.chars at ≡ true }
        ensures stays { OnOk result
            (self.new.chars ≡ take (chars_before self.old.chars at) self.old.chars) }
        ensures goes { IfOk result
            (λ rest. rest.chars ≡ drop (chars_before self.old.chars at) self.old.chars) }
        ensures mode { KeepsMode self.old.inline result self.new.inline }
        ensures mode_of_rest { IfOk result
            (λ rest. rest.inline ≡ inline_for N (utf8_len rest.chars)) }

        // Refused where memory is needed, which isn't so where nothing goes.
        ensures refused { RefusesForMemory self.old result self.new }
        ensures none { at ≡ utf8_len self.old.chars → IsOk result × (self.new ≡ self.old) }
    {
        // The length stands here for the proof alone: an inline text is short.
        let (_len, alloc) = (self.len(), self.bytes.allocator());
        let rest = Self::from_str(alloc, &self.as_str()[at..])?;
        self.truncate(at)?;
        Ok(rest)
    }
}
