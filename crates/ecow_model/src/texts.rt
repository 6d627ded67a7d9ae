//! The commands on texts, and their parts.
ghost use Rattle.std.specs.Prelude.{◌≡◌};
ghost use Rattle.ecow_model.specs.Texts.{text_usage};

use crate::command::Name;
use crate::usage::{Usage, usage_of};
use ecow_base::Text;

/// A command on a text, inline or spilled. Counts and indexes are of its UTF-8 bytes.
#[derive(Drop)]
pub enum TextCommand {
    /// An empty text, inline.
    New {
        name: Name,
    },
    /// An inline text. Answers `Flag`: false, and nothing is made, if it is past the inline limit.
    TryInline {
        name: Name,
        text: Text,
    },
    /// An empty text that asks for capacity for `capacity` bytes.
    WithCapacity {
        name: Name,
        capacity: usize,
    },
    /// A copy of `text`.
    FromStr {
        name: Name,
        text: Text,
    },
    /// The text of one character.
    FromChar {
        name: Name,
        c: char,
    },
    /// Under `to`, the text whose UTF-8 bytes are `from`, inline exactly if those are.
    FromBytes {
        from: Name,
        to: Name,
    },
    /// Under `to`, the text of `from`, inline exactly if that is.
    Clone {
        from: Name,
        to: Name,
    },
    /// Drops the text. The name no longer exists.
    Drop {
        name: Name,
    },
    /// Appends `c`.
    Push {
        name: Name,
        c: char,
    },
    /// Takes the last character. Answers `PoppedChar`.
    Pop {
        name: Name,
    },
    /// Appends `text`.
    PushStr {
        name: Name,
        text: Text,
    },
    /// Inserts `c` at the byte index `index`, which is a character boundary.
    Insert {
        name: Name,
        index: usize,
        c: char,
    },
    /// Inserts `text` at the byte index `index`, which is a character boundary.
    InsertStr {
        name: Name,
        index: usize,
        text: Text,
    },
    /// Takes the character at the byte index `index`, which is a character boundary below the
    /// length. Answers `Char`.
    Remove {
        name: Name,
        index: usize,
    },
    /// Keeps the first `target` bytes, or all if there are fewer. A `target` below the length is a
    /// character boundary.
    Truncate {
        name: Name,
        target: usize,
    },
    /// Keeps no character.
    Clear {
        name: Name,
    },
    /// Asks for capacity for `additional` more bytes.
    Reserve {
        name: Name,
        additional: usize,
    },
    /// Under `to`, the text of `from` with `replacement` in place of the first `count` occurrences
    /// of `pattern`.
    Replace {
        from: Name,
        to: Name,
        pattern: Text,
        replacement: Text,
        count: usize,
    },
    /// Under `to`, the text of `from`, `n` times over.
    Repeat {
        from: Name,
        to: Name,
        n: usize,
    },
    /// Maps the letters `A` to `Z` to lower case, in place.
    AsciiLower {
        name: Name,
    },
    /// Maps the letters `a` to `z` to upper case, in place.
    AsciiUpper {
        name: Name,
    },
    /// Under `to`, the text of `from` in ASCII lower case, inline exactly if that is.
    ToAsciiLower {
        from: Name,
        to: Name,
    },
    /// Under `to`, the text of `from` in ASCII upper case, inline exactly if that is.
    ToAsciiUpper {
        from: Name,
        to: Name,
    },
    /// Brings a spilled text back inline if its bytes are within the limit.
    ShrinkToFit {
        name: Name,
    },
    /// Answers the number of bytes: `Count`.
    Len {
        name: Name,
    },
    /// Answers the capacity: `Count`.
    Capacity {
        name: Name,
    },
    /// Answers the text: `Text`.
    Contents {
        name: Name,
    },
    /// Answers whether the text is inline: `Flag`.
    IsInline {
        name: Name,
    },
}

/// How a text is made.
#[derive(Drop)]
pub enum TextMake {
    New,
    TryInline(Text),
    WithCapacity(usize),
    FromStr(Text),
    FromChar(char),
}

/// How a text is made from another value.
#[derive(Drop)]
pub enum TextDerive {
    FromBytes,
    Clone,
    /// `pattern`, `replacement` and the greatest number of occurrences.
    Replace(Text, Text, usize),
    Repeat(usize),
    ToAsciiLower,
    ToAsciiUpper,
}

/// A change of a text.
#[derive(Drop)]
pub enum TextEdit {
    Push(char),
    Pop,
    PushStr(Text),
    Insert(usize, char),
    InsertStr(usize, Text),
    Remove(usize),
    Truncate(usize),
    Clear,
    Reserve(usize),
    AsciiLower,
    AsciiUpper,
    ShrinkToFit,
}

/// A question about a text.
#[derive(Clone, Copy)]
pub enum TextAsk {
    Len,
    Capacity,
    Contents,
    IsInline,
}

/// A command on texts, by its parts.
pub type TextUsage = Usage<TextMake, TextDerive, TextEdit, TextAsk>;

impl TextCommand {
    /// The parts of the command.
    pub fn usage(self) -> TextUsage
        ensures { result ≡ text_usage self }
    {
        usage_of!(self, TextCommand {
            TextMake { New TryInline(text) WithCapacity(capacity) FromStr(text) FromChar(c) }
            TextDerive {
                FromBytes Clone Replace(pattern, replacement, count) Repeat(n)
                ToAsciiLower ToAsciiUpper
            }
            TextEdit {
                Push(c) Pop PushStr(text) Insert(index, c) InsertStr(index, text) Remove(index)
                Truncate(target) Clear Reserve(additional) AsciiLower AsciiUpper ShrinkToFit
            }
            TextAsk { Len Capacity Contents IsInline }
        })
    }
}
