//! The calls that make a text from other values.
ghost use Rattle.std.specs.Prelude.{◌≡◌, ◌<◌, ◌≤◌, ◌↔◌, [], ◌∷◌, length, true, IsOk, IfOk, IfErr, IsErrAnd, IsErrOf, IsSome, IfSome, string_bytes};
ghost use Rattle.std.specs.Char.{len_utf8};
ghost use Rattle.std.specs.Str.{chars};
ghost use Rattle.ecow_base.specs.Inline.{inline_for};
ghost use Rattle.ecow_string.specs.Makes.{MakesText};

use crate::string::SmallText;
use ecow_base::MAX_LEN;
use ecow_bytes::SmallBytes;
use ecow_list::{EcoError, Rejected};
use std::alloc::Global;

impl<const N: usize> SmallText<N> {
    /// A copy of `text`, inline; `None` if it has more than `N` bytes. Takes no memory.
    pub fn try_inline(alloc: Global, text: &str) -> Option<Self>
        ensures fits { IsSome result ↔ (length text.now ≤ N) }
        ensures chars { IfSome result (λ t. t.chars ≡ chars text.now) }
        ensures mode { IfSome result (λ t. t.inline ≡ true) }
    {
        let bytes = SmallBytes::try_inline(alloc, text.as_bytes())?;
        Some(SmallText { bytes })
    }

    /// A copy of `text`, inline. It must have at most `N` bytes. Takes no memory.
    pub fn inline(alloc: Global, text: &str) -> Self
        requires { length text.now ≤ N }
        ensures chars { result.chars ≡ chars text.now }
        ensures mode { result.inline ≡ true }
    {
        SmallText {
            bytes: SmallBytes::inline(alloc, text.as_bytes()),
        }
    }

    /// An empty text. It is inline if `capacity` is at most `N`. Otherwise it is spilled, and makes
    /// one allocation for `capacity` bytes; no capacity is promised.
    ///
    /// # Errors
    ///
    /// `Capacity` if `capacity` passes 2^63 - 1; `Memory` if there is no memory for the block. A
    /// capacity of at most `N` is never refused.
    pub fn with_capacity(alloc: Global, capacity: usize) -> Result<Self, EcoError>
        ensures { MakesText N capacity [] result }
    {
        let bytes = SmallBytes::with_capacity(alloc, capacity)?;
        Ok(SmallText { bytes })
    }

    /// The text of one character. It is inline if the character has at most `N` bytes in UTF-8, and
    /// otherwise spilled, with one allocation.
    ///
    /// # Errors
    ///
    /// `Memory` if there is no memory for the block. A character that fits inline is never refused.
    pub fn from_char(alloc: Global, c: char) -> Result<Self, EcoError>
        ensures text { MakesText N (len_utf8 c) (c ∷ []) result }
        ensures memory { IfErr result (λ error. error ≡ EcoError.Memory) }
    {
        let mut buffer = [0; 4];
        let target = Self::from_str(alloc, c.encode_utf8(&mut buffer))?;
        Ok(target)
    }

    /// A copy of `text`: inline if it has at most `N` bytes, and otherwise spilled, with one
    /// allocation.
    ///
    /// # Errors
    ///
    /// `Capacity` if `text` has more than 2^63 - 1 bytes; `Memory` if there is no memory for the
    /// block. A text that fits inline is never refused.
    #[inline(always)]
    pub fn from_str(alloc: Global, text: &str) -> Result<Self, EcoError>
        ensures { MakesText N (length text.now) (chars text.now) result }
    {
        let bytes = SmallBytes::from_slice(alloc, text.as_bytes())?;
        Ok(SmallText { bytes })
    }

    /// The text of a `String`: inline if it has at most `N` bytes, and otherwise copied into a new
    /// block.
    ///
    /// # Errors
    ///
    /// `Capacity` if there are more than 2^63 - 1 bytes; `Memory` if there is no memory for the
    /// block. The `String` comes back unchanged in the error. A text that fits inline is never
    /// refused.
    pub fn from_string(alloc: Global, text: String) -> Result<Self, Rejected<String>>
        ensures chars { IfOk result (λ t. t.chars ≡ chars (string_bytes text)) }
        ensures mode { IfOk result (λ t. t.inline ≡ inline_for N (length (string_bytes text))) }
        ensures free { length (string_bytes text) ≤ N → IsOk result }

        // A refused call returns the `String`. `Capacity` means exactly that it is longer than the
        // limit.
        ensures value_returned { IfErr result (λ rejected. rejected.value ≡ text) }
        ensures capacity { IsErrAnd result (λ rejected. rejected.error ≡ EcoError.Capacity)
            ↔ (MAX_LEN < length (string_bytes text)) }
    {
        match Self::from_str(alloc, text.as_str()) {
            Ok(target) => Ok(target),
            Err(error) => Err(Rejected { error, value: text }),
        }
    }
}
