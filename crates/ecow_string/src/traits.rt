//! The traits of std that let a text be used as a `str` and be collected from an iterator, as a
//! `String` can.
ghost use Rattle.std.specs.Prelude.{◌≡◌};
ghost use Rattle.std.specs.Str.{chars, encode_utf8_all};
ghost use Rattle.ecow_base.specs.Inline.{inline_for};
ghost use Rattle.ecow_base.specs.Utf8.{utf8_len};
ghost use Rattle.ecow_string.specs.Appends.{joined_strs, joined_texts};

use crate::string::SmallText;
use std::alloc::{AllocError, Global};
use std::convert::{AsSlice, AsStr};
use std::ops::DerefStr;

/// Dereferences to a `str`: `text.chars()`, `text.find(..)` and all other calls of a `str` can be
/// used.
impl<const N: usize> DerefStr for SmallText<N> {
    ghost deref_gives = { λ text bytes. (bytes ≡ encode_utf8_all text.chars)
        × (chars bytes ≡ text.chars) };

    #[inline]
    fn deref(&self) -> &str {
        self.as_str()
    }
}

impl<const N: usize> AsStr for SmallText<N> {
    ghost text = { λ text. encode_utf8_all text.chars };

    #[inline]
    fn as_str(&self) -> &str {
        SmallText::as_str(self)
    }
}

/// The UTF-8 bytes.
impl<const N: usize> AsSlice<u8> for SmallText<N> {
    ghost items = { λ text. encode_utf8_all text.chars };

    #[inline]
    fn as_slice(&self) -> &[u8] {
        SmallText::as_str(self).as_bytes()
    }
}

/// Collects characters as `SmallText::from_chars` does. `AllocError` stands for both of its errors.
impl<const N: usize> FromIterator<char> for SmallText<N> {
    type Alloc = Global;

    ghost from_iter_gives = { λ items text. (text.chars ≡ items)
        × (text.inline ≡ inline_for N (utf8_len items)) };

    fn from_iter<I: IntoIterator<Item = char>>(alloc: Global, iter: I) -> Result<Self, AllocError> {
        SmallText::from_chars(alloc, iter).map_err(|_| AllocError)
    }
}

/// Collects texts as `SmallText::from_strs` does. `AllocError` stands for both of its errors.
impl<'a, const N: usize> FromIterator<&'a str> for SmallText<N> {
    type Alloc = Global;

    ghost from_iter_gives = { λ items text. (text.chars ≡ joined_strs items)
        × (text.inline ≡ inline_for N (utf8_len text.chars)) };

    fn from_iter<I: IntoIterator<Item = &'a str>>(
        alloc: Global,
        iter: I,
    ) -> Result<Self, AllocError> {
        SmallText::from_strs(alloc, iter).map_err(|_| AllocError)
    }
}

/// Collects texts as `SmallText::from_eco_strings` does. `AllocError` stands for both of its
/// errors.
impl<const N: usize> FromIterator<SmallText<N>> for SmallText<N> {
    type Alloc = Global;

    ghost from_iter_gives = { λ items text. (text.chars ≡ joined_texts items)
        × (text.inline ≡ inline_for N (utf8_len text.chars)) };

    fn from_iter<I: IntoIterator<Item = SmallText<N>>>(
        alloc: Global,
        iter: I,
    ) -> Result<Self, AllocError> {
        SmallText::from_eco_strings(alloc, iter).map_err(|_| AllocError)
    }
}
