//! Printing a text, and printing to a text.
ghost use Rattle.std.specs.Prelude.{◌≡◌, ◌++◌, length, Some, IsOk, IfOk, IfSome, OnOk, OnErr, true, false};
ghost use Rattle.std.specs.Str.{chars, encode_utf8_all};
ghost use Rattle.ecow_base.specs.Inline.{inline_after, inline_for};
ghost use Rattle.ecow_base.specs.Utf8.{utf8_len};

use crate::string::{EcoString, SmallText};
use std::alloc::Global;
use std::fmt;
use std::fmt::{Display, Write};

/// Prints the text, with padding and truncation as for a `str`.
impl<const N: usize> fmt::Display for SmallText<N> {
    ghost output = { λ t. Some (encode_utf8_all t.chars) };

    fn fmt<W: fmt::Write>(&self, f: &mut fmt::Formatter<W>) -> fmt::Result {
        f.pad(self.as_str())
    }
}

/// Appends what is written. A call appends all of its text, or it appends nothing and returns an
/// error.
impl<const N: usize> fmt::Write for SmallText<N> {
    ghost write_str_gives = { λ old bytes new. encode_utf8_all new.chars
        ≡ encode_utf8_all old.chars ++ bytes };

    fn write_str(&mut self, text: &str) -> fmt::Result
        ensures ok { IsOk result → encode_utf8_all self.new.chars ≡ encode_utf8_all self.old.chars
            ++ text.now }
        ensures chars { OnOk result (self.new.chars ≡ self.old.chars ++ chars text.now) }
        ensures mode { OnOk result
            (self.new.inline ≡ inline_after N self.old.inline (utf8_len self.old.chars)
            (length text.now)) }
        ensures unchanged { OnErr result (self.new ≡ self.old) }
        ensures free { OnErr result (inline_after N self.old.inline (utf8_len self.old.chars)
            (length text.now) ≡ false) }
    {
        match self.push_str(text) {
            Ok(()) => Ok(()),
            Err(_) => Err(fmt::Error),
        }
    }
}

impl<const N: usize> SmallText<N> {
    /// The text that a value prints: inline if it has at most `N` bytes, and otherwise spilled.
    ///
    /// Takes time linear in the length of the text, on average, apart from the printing itself.
    /// `eco_format!` calls it.
    ///
    /// # Errors
    ///
    /// `fmt::Error` if the value returns it, if there is no memory for the text, or if the text
    /// passes 2^63 - 1 bytes.
    pub fn format<T: Display + Drop>(alloc: Global, value: T) -> Result<Self, fmt::Error>
        ensures text { IfOk result
            (λ text. IfSome (T.output value) (λ bytes. encode_utf8_all text.chars ≡ bytes)) }
        ensures mode { IfOk result (λ text. text.inline ≡ inline_for N (utf8_len text.chars)) }
    {
        let mut target = Self::new(alloc);
        target.write(value)?;
        // For the proof alone: an inline text has at most `N` bytes.
        let _len = target.len();
        target.shrink_to_fit();
        Ok(target)
    }
}

/// Turns a value into the text that it prints.
pub trait ToEcoString: Display {
    /// The text that the value prints: inline if it has at most 15 bytes, and otherwise spilled.
    ///
    /// Takes time linear in the length of the text, on average, apart from the printing itself.
    ///
    /// # Errors
    ///
    /// `fmt::Error` if the value returns it, if there is no memory for the text, or if the text
    /// passes 2^63 - 1 bytes.
    fn to_eco_string(&self, alloc: Global) -> Result<EcoString, fmt::Error>
        ensures text { IfOk result
            (λ text. IfSome (Self.output self.now) (λ bytes. encode_utf8_all text.chars ≡ bytes)) }
        ensures mode { IfOk result (λ text. text.inline ≡ inline_for 15 (utf8_len text.chars)) };
}

impl<T: Display> ToEcoString for T {
    fn to_eco_string(&self, alloc: Global) -> Result<EcoString, fmt::Error> {
        EcoString::format(alloc, self)
    }
}
