//! Reads the commands of a script: a word, and its arguments.
ghost use Rattle.std.specs.Prelude.{◌≡◌};
ghost use Rattle.ecow_script.specs.Words.{Reads};
ghost use Rattle.ecow_script.specs.VecCommands.{vec_word, vec_form, vec_command};
ghost use Rattle.ecow_script.specs.BytesCommands.{bytes_word, bytes_form, bytes_command};
ghost use Rattle.ecow_script.specs.TextCommands.{text_word, text_form, text_command};

use crate::reason::{Misfit, Reason};
use crate::script::Scripted;
use crate::words::Reader;
use ecow_model::{BytesCommand, Command, TextCommand, VecCommand};

/// The command that a word means, by the rows of its kind of value.
macro_rules! word_in {
    ($text:expr; $word:ident => $command:ident {
        $($text_of:literal $variant:ident { $($fields:tt)* })*
    }) => {
        match $text {
            $($text_of => Some($word::$variant),)*
            _ => None,
        }
    };
}

/// Reads the arguments of a command: its name, and then the other fields of its row in the order of
/// the line, each in its form.
macro_rules! form_of {
    ($reader:ident, $of:expr; $word:ident => $command:ident {
        $($text_of:literal $variant:ident { $name:ident $(, $field:ident: $form:ident)* })*
    }) => {{
        let first = $reader.name()?;
        match $of {
            $($word::$variant => Ok($command::$variant {
                $name: first $(, $field: $reader.$form()?)*
            }),)*
        }
    }};
}

/// The word of a command on lists.
#[derive(Drop)]
enum VecWord {
    New,
    WithCapacity,
    FromList,
    FromElem,
    Clone,
    Drop,
    Push,
    Pop,
    Insert,
    Remove,
    Write,
    Truncate,
    Clear,
    Retain,
    Drain,
    Splice,
    Extend,
    Reserve,
    Read,
    Len,
    Contents,
    Capacity,
    Unique,
}

/// The commands on lists: the word of each, and its arguments.
macro_rules! vec_rows {
    ($use:ident, $($given:tt)*) => {
        $use!($($given)*; VecWord => VecCommand {
            "new" New { name }
            "with_capacity" WithCapacity { name, capacity: count }
            "from_list" FromList { name, items: integers }
            "from_elem" FromElem { name, value: integer, n: count }
            "clone" Clone { from, to: name }
            "drop" Drop { name }
            "push" Push { name, value: integer }
            "pop" Pop { name }
            "insert" Insert { name, index: count, value: integer }
            "remove" Remove { name, index: count }
            "write" Write { name, index: count, value: integer }
            "truncate" Truncate { name, target: count }
            "clear" Clear { name }
            "retain" Retain { name, marks: marks }
            "drain" Drain { name, bounds: bounds }
            "splice" Splice { name, bounds: bounds, items: integers }
            "extend" Extend { name, items: integers }
            "reserve" Reserve { name, additional: count }
            "read" Read { name, index: count }
            "len" Len { name }
            "contents" Contents { name }
            "capacity" Capacity { name }
            "unique" Unique { name }
        })
    };
}

fn vec_word(word: &str) -> Option<VecWord>
    ensures { result ≡ vec_word word.now }
{
    vec_rows!(word_in, word)
}

/// The word of a command on bytes.
#[derive(Drop)]
enum BytesWord {
    New,
    TryInline,
    WithCapacity,
    FromList,
    FromEcoVec,
    FromText,
    Clone,
    Drop,
    Push,
    Pop,
    Insert,
    Remove,
    Extend,
    InsertSlice,
    Truncate,
    Clear,
    Reserve,
    Write,
    Read,
    Repeat,
    ShrinkToFit,
    Len,
    Capacity,
    Contents,
    IsInline,
}

/// The commands on bytes: the word of each, and its arguments.
macro_rules! bytes_rows {
    ($use:ident, $($given:tt)*) => {
        $use!($($given)*; BytesWord => BytesCommand {
            "new" New { name }
            "try_inline" TryInline { name, bytes: bytes }
            "with_capacity" WithCapacity { name, capacity: count }
            "from_list" FromList { name, bytes: bytes }
            "from_eco_vec" FromEcoVec { name, bytes: bytes }
            "from_text" FromText { from, to: name }
            "clone" Clone { from, to: name }
            "drop" Drop { name }
            "push" Push { name, byte: byte }
            "pop" Pop { name }
            "insert" Insert { name, index: count, byte: byte }
            "remove" Remove { name, index: count }
            "extend" Extend { name, bytes: bytes }
            "insert_slice" InsertSlice { name, index: count, bytes: bytes }
            "truncate" Truncate { name, target: count }
            "clear" Clear { name }
            "reserve" Reserve { name, additional: count }
            "write" Write { name, index: count, byte: byte }
            "read" Read { name, index: count }
            "repeat" Repeat { from, to: name, n: count }
            "shrink_to_fit" ShrinkToFit { name }
            "len" Len { name }
            "capacity" Capacity { name }
            "contents" Contents { name }
            "is_inline" IsInline { name }
        })
    };
}

fn bytes_word(word: &str) -> Option<BytesWord>
    ensures { result ≡ bytes_word word.now }
{
    bytes_rows!(word_in, word)
}

/// The word of a command on texts.
#[derive(Drop)]
enum TextWord {
    New,
    TryInline,
    WithCapacity,
    FromStr,
    FromChar,
    FromBytes,
    Clone,
    Drop,
    Push,
    Pop,
    PushStr,
    Insert,
    InsertStr,
    Remove,
    Truncate,
    Clear,
    Reserve,
    Replace,
    Repeat,
    AsciiLower,
    AsciiUpper,
    ToAsciiLower,
    ToAsciiUpper,
    ShrinkToFit,
    Len,
    Capacity,
    Contents,
    IsInline,
}

/// The commands on texts: the word of each, and its arguments.
macro_rules! text_rows {
    ($use:ident, $($given:tt)*) => {
        $use!($($given)*; TextWord => TextCommand {
            "new" New { name }
            "try_inline" TryInline { name, text: text }
            "with_capacity" WithCapacity { name, capacity: count }
            "from_str" FromStr { name, text: text }
            "from_char" FromChar { name, c: character }
            "from_bytes" FromBytes { from, to: name }
            "clone" Clone { from, to: name }
            "drop" Drop { name }
            "push" Push { name, c: character }
            "pop" Pop { name }
            "push_str" PushStr { name, text: text }
            "insert" Insert { name, index: count, c: character }
            "insert_str" InsertStr { name, index: count, text: text }
            "remove" Remove { name, index: count }
            "truncate" Truncate { name, target: count }
            "clear" Clear { name }
            "reserve" Reserve { name, additional: count }
            "replace" Replace { from, to: name, pattern: text, replacement: text, count: count }
            "repeat" Repeat { from, to: name, n: count }
            "ascii_lower" AsciiLower { name }
            "ascii_upper" AsciiUpper { name }
            "to_ascii_lower" ToAsciiLower { from, to: name }
            "to_ascii_upper" ToAsciiUpper { from, to: name }
            "shrink_to_fit" ShrinkToFit { name }
            "len" Len { name }
            "capacity" Capacity { name }
            "contents" Contents { name }
            "is_inline" IsInline { name }
        })
    };
}

fn text_word(word: &str) -> Option<TextWord>
    ensures { result ≡ text_word word.now }
{
    text_rows!(word_in, word)
}

impl<'a> Reader<'a> {
    fn vec_form(&mut self, word: VecWord) -> Result<VecCommand<i64>, Misfit>
        ensures { Reads (vec_form word) self.old result self.new }
    {
        vec_rows!(form_of, self, word)
    }

    fn vec_command(&mut self) -> Result<VecCommand<i64>, Misfit>
        ensures { Reads vec_command self.old result self.new }
    {
        let Some(word) = self.next_word() else {
            return Err(Misfit::Expected(Reason::Command));
        };
        let Some(word) = vec_word(word) else {
            return Err(Misfit::Expected(Reason::Command));
        };
        self.vec_form(word)
    }

    fn bytes_form(&mut self, word: BytesWord) -> Result<BytesCommand, Misfit>
        ensures { Reads (bytes_form word) self.old result self.new }
    {
        bytes_rows!(form_of, self, word)
    }

    fn bytes_command(&mut self) -> Result<BytesCommand, Misfit>
        ensures { Reads bytes_command self.old result self.new }
    {
        let Some(word) = self.next_word() else {
            return Err(Misfit::Expected(Reason::Command));
        };
        let Some(word) = bytes_word(word) else {
            return Err(Misfit::Expected(Reason::Command));
        };
        self.bytes_form(word)
    }

    fn text_form(&mut self, word: TextWord) -> Result<TextCommand, Misfit>
        ensures { Reads (text_form word) self.old result self.new }
    {
        text_rows!(form_of, self, word)
    }

    fn text_command(&mut self) -> Result<TextCommand, Misfit>
        ensures { Reads text_command self.old result self.new }
    {
        let Some(word) = self.next_word() else {
            return Err(Misfit::Expected(Reason::Command));
        };
        let Some(word) = text_word(word) else {
            return Err(Misfit::Expected(Reason::Command));
        };
        self.text_form(word)
    }
}

/// The commands of the counted store, which are on lists only.
impl Scripted for VecCommand<i64> {
    ghost use Rattle.ecow_script.specs.Commands.{counted_form};

    ghost form = { counted_form };

    fn read<'a>(reader: &mut Reader<'a>, kind: &str) -> Result<VecCommand<i64>, Misfit> {
        match kind {
            "vec" => reader.vec_command(),
            _ => Err(Misfit::Expected(Reason::Kind)),
        }
    }
}

/// The commands of the store, which are on all kinds of value.
impl Scripted for Command<i64> {
    ghost use Rattle.ecow_script.specs.Commands.{store_form};

    ghost form = { store_form };

    fn read<'a>(reader: &mut Reader<'a>, kind: &str) -> Result<Command<i64>, Misfit> {
        match kind {
            "vec" => Ok(Command::Vec(reader.vec_command()?)),
            "bytes" => Ok(Command::Bytes(reader.bytes_command()?)),
            "text" => Ok(Command::Text(reader.text_command()?)),
            _ => Err(Misfit::Expected(Reason::Kind)),
        }
    }
}
