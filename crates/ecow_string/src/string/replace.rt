//! Texts in which a pattern is replaced with another text. The length of the result is counted
//! first, so that no memory is asked for if it is too long.
ghost use Rattle.std.specs.Prelude.{◌≡◌, ◌≢◌, ◌+◌, ◌<◌, ◌≤◌, ◌↔◌, [], length, IsOk, IfOk, IsErrOf};
ghost use Rattle.std.specs.Str.{chars};
ghost use Rattle.ecow_base.specs.Replaced.{replacen, replace_all};
ghost use Rattle.ecow_base.specs.Utf8.{utf8_len};
ghost use Rattle.ecow_string.specs.Makes.{MakesText};

mod interleave;
mod parts;
mod pattern;

use crate::string::SmallText;
use crate::string::replace::interleave::{interleaving_len, push_interleaving};
use crate::string::replace::pattern::{push_replacement, replacement_len};
use ecow_base::MAX_LEN;
use ecow_list::EcoError;
use memchr::memmem::Finder;

impl<const N: usize> SmallText<N> {
    /// The text in which the first `count` occurrences of `pattern` are replaced with
    /// `replacement`. Occurrences are found from the left and don't overlap; an empty pattern
    /// occurs at each boundary, including the end.
    ///
    /// The text is searched twice, and the result takes at most one allocation.
    ///
    /// # Errors
    ///
    /// `Capacity` if the result would have more than 2^63 - 1 bytes; `Memory` if there is no memory
    /// for it. A result that fits inline is never refused.
    pub fn replacen(&self, pattern: &str, replacement: &str, count: usize) -> Result<Self, EcoError>
        ensures { MakesText N
            (utf8_len (replacen count (chars pattern.now) (chars replacement.now) self.now.chars))
            (replacen count (chars pattern.now) (chars replacement.now) self.now.chars)
            result }
    {
        if pattern.is_empty() {
            return self.interleave(replacement, count);
        }
        self.replace_pattern(pattern, replacement, count)
    }

    /// The text in which all occurrences of `pattern` are replaced with `replacement`. Occurrences
    /// are found from the left and don't overlap; an empty pattern occurs at each boundary,
    /// including the end.
    ///
    /// The text is searched twice, and the result takes at most one allocation.
    ///
    /// # Errors
    ///
    /// `Capacity` if the result would have more than 2^63 - 1 bytes; `Memory` if there is no memory
    /// for it. A result that fits inline is never refused.
    pub fn replace(&self, pattern: &str, replacement: &str) -> Result<Self, EcoError>
        ensures { MakesText N
            (utf8_len (replace_all (chars pattern.now) (chars replacement.now) self.now.chars))
            (replace_all (chars pattern.now) (chars replacement.now) self.now.chars)
            result }
    {
        self.replacen(pattern, replacement, self.len() + 1)
    }

    /// Does what `replacen` does for a pattern that is not empty.
    fn replace_pattern(
        &self,
        pattern: &str,
        replacement: &str,
        count: usize,
    ) -> Result<Self, EcoError>
        requires { pattern.now ≢ [] }
        ensures { MakesText N
            (utf8_len (replacen count (chars pattern.now) (chars replacement.now) self.now.chars))
            (replacen count (chars pattern.now) (chars replacement.now) self.now.chars)
            result }
    {
        let text = self.as_str();
        let finder = Finder::new(pattern.as_bytes());
        let Some(most) = replacement_len(text, &finder, pattern, replacement, count) else {
            return Err(EcoError::Capacity);
        };
        let mut target = Self::with_capacity(self.bytes.allocator(), most)?;
        push_replacement(
            &mut target,
            text,
            &finder,
            pattern,
            replacement,
            count,
            most,
        )?;
        Ok(target)
    }

    /// Does what `replacen` does for the empty pattern.
    fn interleave(&self, replacement: &str, count: usize) -> Result<Self, EcoError>
        ensures { MakesText N
            (utf8_len (replacen count [] (chars replacement.now) self.now.chars))
            (replacen count [] (chars replacement.now) self.now.chars)
            result }
    {
        let text = self.as_str();
        // For the proof alone: the length is bounded.
        let _len = self.len();
        let Some(most) = interleaving_len(text, replacement, count) else {
            return Err(EcoError::Capacity);
        };
        let mut target = Self::with_capacity(self.bytes.allocator(), most)?;
        push_interleaving(&mut target, text, replacement, count, most)?;
        Ok(target)
    }
}
