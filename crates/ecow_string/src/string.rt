//! `SmallText`: a short text in the value itself, and a longer one in a vector that clones share.
//! `EcoString` is `SmallText` with a limit of 15 bytes.
//!
//! A call that takes memory can be refused: with `Capacity` if there would be more than 2^63 - 1
//! bytes, and else with `Memory`. The text is then unchanged, except that `extend_chars` and
//! `extend_strs` keep what they appended before. No change is refused that leaves the text inline.
ghost use Rattle.std.specs.Prelude.{◌≡◌, ◌≤◌, ◌==◌, [], length, true, false};
ghost use Rattle.std.specs.Str.{chars, encode_utf8_all};
ghost use Rattle.ecow_base.specs.Utf8.{utf8_len, is_boundary};
ghost use Rattle.ecow_string.specs.Text.{AreChars};

mod case;
mod collect;
mod conversions;
mod edits;
mod make;
mod push;
mod repeat;
mod replace;
mod split;

use ecow_base::MAX_LEN;
use ecow_bytes::SmallBytes;
use std::alloc::{AllocError, Global};
use std::marker::Model;
use std::str;

/// A text. Its UTF-8 bytes are inline, in the value itself, if there are at most `N`; more are
/// spilled, in a vector whose block clones share until one of them is changed.
///
/// An inline text spills when it would have more than `N` bytes, or when capacity for more than `N`
/// is reserved. A spilled text stays spilled, however short it becomes: only `shrink_to_fit` brings
/// it back inline. Equality, order and hash depend on the text and not on where it is stored. A
/// clone takes constant time and no memory.
///
/// Lengths and indices count bytes. An index is a boundary if a character begins there or the text
/// ends there.
///
/// ```
/// let mut text = EcoString::from_str(alloc, "fifteen letters")?;
/// assert!(text.is_inline());
/// text.push('!')?;
/// assert!(!text.is_inline());
/// let before = text.clone()?;
/// text.push('!')?;
/// assert_eq!((before.len(), text.len()), (16, 17));
/// ```
#[derive(Drop)]
pub struct SmallText<const N: usize> {
    /// The UTF-8 bytes.
    pub(crate) bytes: SmallBytes<N>,
}

/// Text of which at most 15 bytes are stored in the value itself.
pub type EcoString = SmallText<15>;

impl<const N: usize> Model for SmallText<N> {
    ghost use Rattle.ecow_base.specs.Plain.{text_of};
    ghost use Rattle.ecow_base.specs.declared.plain.PlainText.{PlainText};
    ghost use Rattle.ecow_string.specs.Text.{AreUtf8};

    ghost Value = { PlainText };

    ghost view = { λ t. text_of t.bytes };

    ghost invariant = { λ t. AreUtf8 t.bytes.bytes };
}

impl<const N: usize> SmallText<N> {
    /// The greatest number of bytes that are stored in the value itself.
    pub const INLINE_LIMIT: usize = N;

    /// An empty text, inline. Takes no memory.
    pub fn new(alloc: Global) -> Self
        ensures chars { result.chars ≡ [] }
        ensures mode { result.inline ≡ true }
    {
        SmallText {
            bytes: SmallBytes::new(alloc),
        }
    }

    /// The text.
    #[inline]
    pub fn as_str(&self) -> &str
        ensures bytes { result.now ≡ encode_utf8_all self.now.chars }
        ensures chars { chars result.now ≡ self.now.chars }
        ensures valid { AreChars self.now.chars }
    {
        unsafe { str::from_utf8_unchecked(self.bytes.as_slice()) }
    }

    /// The number of bytes.
    #[inline]
    pub fn len(&self) -> usize
        ensures len { result ≡ utf8_len self.now.chars }
        ensures bounded { result ≤ MAX_LEN }
        ensures fits { self.now.inline ≡ true → result ≤ N }
        ensures valid { AreChars self.now.chars }
    {
        self.bytes.len()
    }

    /// Whether the text has no characters.
    pub fn is_empty(&self) -> bool
        ensures { result ≡ (length self.now.chars == 0) }
    {
        self.bytes.is_empty()
    }

    /// Whether the text is stored in the value itself.
    pub fn is_inline(&self) -> bool
        ensures { result ≡ self.now.inline }
    {
        self.bytes.is_inline()
    }

    /// The number of bytes that the value can hold without a larger block, which is at least the
    /// length. For an inline text it is `N`.
    pub fn capacity(&self) -> usize
        ensures room { utf8_len self.now.chars ≤ result }
        ensures bounded { result ≤ MAX_LEN }
        ensures inline { self.now.inline ≡ true → result ≡ N }
    {
        self.bytes.capacity()
    }

    /// Whether `index` is a boundary: the index of a character's first byte, or the length.
    pub fn is_char_boundary(&self, index: usize) -> bool
        ensures { result ≡ is_boundary self.now.chars index }
    {
        self.as_str().is_char_boundary(index)
    }

    /// Removes all characters. An inline text stays inline, and a spilled text stays spilled.
    ///
    /// Copies nothing and is never refused. A shared block is left to the other values that share
    /// it.
    pub fn clear(&mut self)
        ensures chars { self.new.chars ≡ [] }
        ensures mode { self.new.inline ≡ self.old.inline }
    {
        self.bytes.clear();
    }
}

impl<const N: usize> Clone for SmallText<N> {
    ghost is_clone = { λ t u. u ≡ t };

    #[inline]
    fn clone(&self) -> Result<Self, AllocError> {
        Ok(SmallText {
            bytes: self.bytes.clone()?,
        })
    }
}
