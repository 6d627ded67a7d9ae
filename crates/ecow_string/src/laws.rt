//! Equality, order, hash and debug text of a text. They depend on its UTF-8 bytes alone, whether
//! these are inline, spilled or shared. A prefix comes before a longer text that starts with it.
//! The hash is that of a `str`.
ghost use Rattle.std.specs.Prelude.{◌≡◌, ℕ, List, true, nat_eq, Some, refl};
ghost use Rattle.std.specs.Ordering.{nat_cmp};
ghost use Rattle.std.specs.Cmp.{on_equiv, on_total, on_po, on_per, partial_equiv_from_equiv};
ghost use Rattle.std.specs.Cmp.Lexicographic.{pointwise, slice_cmp, nat_list_eq_equiv, nat_list_cmp_total, texts_po, texts_ties, bytes_decides};
ghost use Rattle.std.specs.Hash as fed;
ghost use Rattle.std.specs.Hash.{on_Alike, same_Alike};
ghost use Rattle.std.specs.Str.{chars, encode_utf8_all, is_utf8, IsUtf8};
ghost use Rattle.ecow_base.specs.Plain.{text_of};
ghost use Rattle.ecow_base.specs.declared.plain.PlainBytes.{PlainBytes};
ghost use Rattle.ecow_base.specs.declared.plain.PlainText.{PlainText};
ghost use Rattle.ecow_string.specs.Text.{AreChars, bytes_of};

use crate::string::SmallText;
use std::cmp::Ordering;
use std::fmt;
use std::hash::{Hash, Hasher};

impl<const N: usize> PartialEq for SmallText<N> {
    ghost eq = { λ t u. pointwise nat_eq (encode_utf8_all t.chars) (encode_utf8_all u.chars) };

    ghost laws = { on_per (λ t. encode_utf8_all t.chars)
        (partial_equiv_from_equiv nat_list_eq_equiv) };

    #[inline]
    fn eq(&self, other: &Self) -> bool {
        self.bytes == other.bytes
    }
}

impl<const N: usize> Eq for SmallText<N> {
    ghost laws = { on_equiv (λ t. encode_utf8_all t.chars) nat_list_eq_equiv };
}

impl<const N: usize> PartialOrd for SmallText<N> {
    ghost partial_cmp = { λ t u. Some
        (slice_cmp nat_cmp (encode_utf8_all t.chars) (encode_utf8_all u.chars)) };

    ghost laws = { on_po (λ t. encode_utf8_all t.chars) texts_po };

    #[inline]
    fn partial_cmp(&self, other: &Self) -> Option<Ordering> {
        Some(self.cmp(other))
    }
}

impl<const N: usize> Ord for SmallText<N> {
    ghost cmp = { λ t u. slice_cmp nat_cmp (encode_utf8_all t.chars) (encode_utf8_all u.chars) };

    ghost total = { on_total (λ t. encode_utf8_all t.chars) nat_list_cmp_total };

    ghost matches_partial_cmp = { λ t u. refl };

    ghost matches_eq = { λ t u. texts_ties (encode_utf8_all t.chars) (encode_utf8_all u.chars) };

    #[inline]
    fn cmp(&self, other: &Self) -> Ordering {
        self.bytes.cmp(&other.bytes)
    }
}

impl<const N: usize> Hash for SmallText<N> {
    ghost hash_input = { λ t. fed.str (encode_utf8_all t.chars) };

    ghost respects_eq = { (on_Alike (λ t. encode_utf8_all t.chars)
        (same_Alike (λ bytes. fed.str bytes) bytes_decides)).fed };

    fn hash<H: Hasher>(&self, state: &mut H) {
        self.as_str().hash(state);
    }
}

impl<const N: usize> fmt::Debug for SmallText<N> {
    fn fmt<W: fmt::Write>(&self, f: &mut fmt::Formatter<W>) -> fmt::Result {
        fmt::Debug::fmt(self.as_str(), f)
    }
}

/// `TryFrom` makes a text of bytes exactly if they are UTF-8, and the text has these bytes, inline
/// or spilled as they are. Bytes that were made of a text turn back into that text.
pub fn texts_are_their_bytes()
    ensures passes { (bytes : PlainBytes) → IsUtf8 bytes.bytes → is_utf8 bytes.bytes ≡ true }
    ensures is { (bytes : PlainBytes) → is_utf8 bytes.bytes ≡ true → IsUtf8 bytes.bytes }

    // Bytes that are UTF-8 are the bytes of their text.
    ensures kept { (bytes : PlainBytes) → is_utf8 bytes.bytes ≡ true
        → bytes_of (text_of bytes) ≡ bytes }
    ensures valid { (bytes : PlainBytes) → is_utf8 bytes.bytes ≡ true
        → AreChars (text_of bytes).chars }

    // A text is the text of its bytes.
    ensures again_passes { (text : PlainText) → AreChars text.chars
        → is_utf8 (bytes_of text).bytes ≡ true }
    ensures again { (text : PlainText) → AreChars text.chars → text_of (bytes_of text) ≡ text }
{}

/// A text equals a `str` exactly if both have the same characters, so `text.as_str() == s` decides
/// that.
pub fn a_str_decides_the_characters()
    ensures same { (t : PlainText) (s : List ℕ) → IsUtf8 s
        → pointwise nat_eq (encode_utf8_all t.chars) s ≡ true → t.chars ≡ chars s }
    ensures equal { (t : PlainText) (s : List ℕ) → IsUtf8 s → t.chars ≡ chars s
        → pointwise nat_eq (encode_utf8_all t.chars) s ≡ true }
{}

/// Texts are equal exactly if they have the same characters. A text holds only Unicode scalar
/// values, but the law holds for all numbers.
pub fn equal_texts_have_the_same_characters()
    ensures same { (t : PlainText) (u : PlainText)
        → pointwise nat_eq (encode_utf8_all t.chars) (encode_utf8_all u.chars) ≡ true
        → t.chars ≡ u.chars }
    ensures equal { (t : PlainText) (u : PlainText) → t.chars ≡ u.chars
        → pointwise nat_eq (encode_utf8_all t.chars) (encode_utf8_all u.chars) ≡ true }
{}
