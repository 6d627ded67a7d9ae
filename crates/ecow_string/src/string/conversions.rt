//! The calls that turn a text into other types, and bytes into a text.
ghost use Rattle.std.specs.Prelude.{◌≡◌, true, false, string_bytes, IfOk, IfErr, OnErr};
ghost use Rattle.std.specs.Str.{encode_utf8_all};
ghost use Rattle.ecow_base.specs.Plain.{plain_bytes};
ghost use Rattle.ecow_string.specs.Text.{TriesText, bytes_of};

use crate::string::SmallText;
use ecow_bytes::SmallBytes;
use ecow_list::{EcoError, EcoVec, Rejected};
use std::str;
use std::str::Utf8Error;

impl<const N: usize> SmallText<N> {
    /// A copy of the text in a `String`. Copies all bytes into one allocation.
    ///
    /// # Errors
    ///
    /// `Memory` if there is no memory for the copy.
    pub fn to_std_string(&self) -> Result<String, EcoError>
        ensures bytes { IfOk result (λ copy. string_bytes copy ≡ encode_utf8_all self.now.chars) }
        ensures memory { IfErr result (λ error. error ≡ EcoError.Memory) }
    {
        Ok(String::from_str(self.bytes.allocator(), self.as_str())?)
    }

    /// Turns the text into a vector of its UTF-8 bytes. A spilled text keeps its block, shared or
    /// not, which takes constant time; an inline text is copied into a new block.
    ///
    /// # Errors
    ///
    /// `Memory` if an inline text gets no block. It comes back unchanged in the error. A spilled
    /// text is never refused.
    pub fn into_eco_vec(self) -> Result<EcoVec<u8>, Rejected<Self>>
        ensures bytes { IfOk result (λ vec. vec ≡ encode_utf8_all self.entry.chars) }
        ensures memory { IfErr result (λ rejected. rejected.error ≡ EcoError.Memory) }
        ensures value_returned { IfErr result (λ rejected. rejected.value ≡ self.entry) }
        ensures free { OnErr result (self.entry.inline ≡ true) }
    {
        match self.bytes.into_eco_vec() {
            Ok(vec) => Ok(vec),
            Err(rejected) => Err(Rejected {
                error: rejected.error,
                value: SmallText {
                    bytes: rejected.value,
                },
            }),
        }
    }
}

/// The text whose UTF-8 bytes these are. It stays where the bytes are stored, inline or spilled.
///
/// Reads all bytes and takes no memory.
///
/// # Errors
///
/// `Utf8Error` if the bytes aren't UTF-8, which has no overlong forms, no surrogates and nothing
/// past U+10FFFF. The bytes are dropped.
impl<const N: usize> TryFrom<SmallBytes<N>> for SmallText<N> {
    type Error = Utf8Error;

    ghost try_from_gives = { TriesText };

    fn try_from(bytes: SmallBytes<N>) -> Result<Self, Utf8Error> {
        str::from_utf8(bytes.as_slice())?;
        Ok(SmallText { bytes })
    }
}

/// The text whose UTF-8 bytes these are. It keeps the block of the vector, shared or not, and is
/// spilled, however short it is.
///
/// Reads all bytes and takes no memory.
///
/// # Errors
///
/// `Utf8Error` if the bytes aren't UTF-8. The vector is dropped.
impl<const N: usize> TryFrom<EcoVec<u8>> for SmallText<N> {
    type Error = Utf8Error;

    ghost try_from_gives = { λ vec result. TriesText (plain_bytes vec false) result };

    fn try_from(vec: EcoVec<u8>) -> Result<Self, Utf8Error> {
        SmallText::try_from(SmallBytes::from(vec))
    }
}

/// The UTF-8 bytes of a text. They stay where the text is stored, inline or spilled. Takes constant
/// time and no memory.
impl<const N: usize> From<SmallText<N>> for SmallBytes<N> {
    ghost from_gives = { λ text bytes. bytes ≡ bytes_of text };

    fn from(text: SmallText<N>) -> Self {
        text.bytes
    }
}
