//! Repetition of a text.
ghost use Rattle.std.specs.Prelude.{◌≡◌, ◌*◌, ◌<◌, ◌≤◌, ◌↔◌, IsOk, IfOk, IsErrOf};
ghost use Rattle.std.specs.List.{repeat};
ghost use Rattle.ecow_base.specs.Utf8.{utf8_len};
ghost use Rattle.ecow_string.specs.Makes.{MakesText};

use crate::string::SmallText;
use ecow_base::MAX_LEN;
use ecow_list::EcoError;

impl<const N: usize> SmallText<N> {
    /// The text repeated `count` times. The result is inline if it has at most `N` bytes, and
    /// otherwise spilled.
    ///
    /// Takes time linear in the length of the result, and at most one allocation. If the text is
    /// empty, it takes constant time for any `count`.
    ///
    /// # Errors
    ///
    /// `Capacity` if the result would have more than 2^63 - 1 bytes; `Memory` if there is no memory
    /// for it. A result that fits inline is never refused.
    pub fn repeat(&self, count: usize) -> Result<Self, EcoError>
        ensures { MakesText N
            (utf8_len self.now.chars * count) (repeat count self.now.chars)
            result }
    {
        // For the proof alone: the length is bounded.
        let _len = self.bytes.len();
        let bytes = self.bytes.repeat(count)?;
        Ok(SmallText { bytes })
    }
}
