//! Reads the words of a line.
ghost use Rattle.std.specs.Prelude.{◌≡◌, []};
ghost use Rattle.std.specs.Option.{option_copied};
ghost use Rattle.std.specs.List.{list_all, position};
ghost use Rattle.ecow_script.specs.Words.{is_blank, is_ink, behind_blanks, word_at, behind_word, next_word, argument, count, integer, integers, byte, bytes, bounds, marks, name, numbered, is_name, is_name_byte, Reads, ReadsRef, place};

use crate::lists::{bounds_in, byte_list, integer_list, marks_in};
use crate::names::Names;
use crate::numbers::{byte_in, count_in, integer_in};
use crate::reason::{Misfit, Reason};
use ecow_model::{Bounds, Items, Name};
use std::alloc::Global;
use std::marker::Model;

/// The part of a line that isn't read yet, and the names that were read so far.
#[derive(Drop)]
pub(crate) struct Reader<'a> {
    /// Where the memory for arguments comes from.
    alloc: Global,
    /// The part of the line that isn't read yet.
    rest: &'a str,
    /// The names that were read so far.
    names: Names<'a>,
}

impl<'a> Model for Reader<'a> {
    ghost use Rattle.ecow_script.specs.Words.{Place, place};

    ghost Value = { Place };

    ghost view = { λ a. place a.rest.now a.names };
}

impl<'a> Reader<'a> {
    /// Makes a reader without a line and without names.
    pub(crate) fn new(alloc: Global) -> Self
        ensures { result ≡ place [] [] }
    {
        Reader {
            alloc,
            rest: "",
            names: Names::new(alloc),
        }
    }

    /// Starts to read a line.
    pub(crate) fn begin(&mut self, line: &'a str)
        ensures { self.new ≡ place line.now self.old.names }
    {
        self.rest = line;
    }

    /// The allocator.
    pub(crate) fn alloc(&self) -> Global {
        self.alloc
    }

    /// The part of the line that isn't read yet, from the next word on.
    pub(crate) fn next_text(&mut self) -> &'a str
        ensures text { result.now ≡ behind_blanks self.old.rest }
        ensures rest { self.new ≡ place (behind_blanks self.old.rest) self.old.names }
    {
        let text = behind_blanks(self.rest);
        self.rest = text;
        text
    }

    /// The next word of the line; `None` if there is none. Blanks separate words.
    pub(crate) fn next_word(&mut self) -> Option<&'a str>
        ensures { next_word self.old ≡ (option_copied result, self.new) }
    {
        let text = behind_blanks(self.rest);
        if text.is_empty() {
            self.rest = text;
            return None;
        }
        let (word, rest) = first_word(text);
        self.rest = rest;
        Some(word)
    }

    /// The next word of the line, which must have one.
    pub(crate) fn argument(&mut self) -> Result<&'a str, Misfit>
        ensures { ReadsRef argument self.old result self.new }
    {
        match self.next_word() {
            Some(word) => Ok(word),
            None => Err(Misfit::Expected(Reason::Arguments)),
        }
    }

    /// NAME: the number of a name.
    pub(crate) fn name(&mut self) -> Result<Name, Misfit>
        ensures { Reads name self.old result self.new }
    {
        let word = self.argument()?;
        self.numbered(word)
    }

    fn numbered(&mut self, word: &'a str) -> Result<Name, Misfit>
        ensures { Reads (numbered word.now) self.old result self.new }
    {
        if let Some(number) = self.names.get(word) {
            return Ok(number);
        }
        if !is_name(word.as_bytes()) {
            return Err(Misfit::Expected(Reason::Name));
        }
        Ok(self.names.add(word)?)
    }

    /// COUNT: a number of 64 bits.
    pub(crate) fn count(&mut self) -> Result<usize, Misfit>
        ensures { Reads count self.old result self.new }
    {
        let word = self.argument()?;
        count_in(word.as_bytes()).ok_or(Misfit::Expected(Reason::Number))
    }

    /// INT: a signed number of 64 bits.
    pub(crate) fn integer(&mut self) -> Result<i64, Misfit>
        ensures { Reads integer self.old result self.new }
    {
        let word = self.argument()?;
        integer_in(word.as_bytes()).ok_or(Misfit::Expected(Reason::Number))
    }

    /// INTS: signed numbers of 64 bits in brackets, separated by commas.
    pub(crate) fn integers(&mut self) -> Result<Items<i64>, Misfit>
        ensures { Reads integers self.old result self.new }
    {
        let word = self.argument()?;
        integer_list(self.alloc, word.as_bytes())
    }

    /// BYTE: a number of 8 bits.
    pub(crate) fn byte(&mut self) -> Result<u8, Misfit>
        ensures { Reads byte self.old result self.new }
    {
        let word = self.argument()?;
        byte_in(word.as_bytes()).ok_or(Misfit::Expected(Reason::Number))
    }

    /// BYTES: numbers of 8 bits in brackets, separated by commas.
    pub(crate) fn bytes(&mut self) -> Result<Items<u8>, Misfit>
        ensures { Reads bytes self.old result self.new }
    {
        let word = self.argument()?;
        byte_list(self.alloc, word.as_bytes())
    }

    /// MARKS: in brackets a `+` for each element that is kept, and a `-` for each other.
    pub(crate) fn marks(&mut self) -> Result<Items<bool>, Misfit>
        ensures { Reads marks self.old result self.new }
    {
        let word = self.argument()?;
        marks_in(self.alloc, word.as_bytes())
    }

    /// BOUNDS: where a range starts and where it ends, separated by `..`.
    pub(crate) fn bounds(&mut self) -> Result<Bounds, Misfit>
        ensures { Reads bounds self.old result self.new }
    {
        let word = self.argument()?;
        bounds_in(word.as_bytes()).ok_or(Misfit::Expected(Reason::Bounds))
    }
}

/// Whether a word is a name: a lower case letter, and then at most 31 letters, digits and
/// underscores.
fn is_name(word: &[u8]) -> bool
    ensures { result ≡ is_name word.now }
{
    let Some((first, rest)) = word.split_first() else {
        return false;
    };
    first.is_ascii_lowercase() && rest.len() < 32 && are_name_bytes(rest)
}

fn are_name_bytes(bytes: &[u8]) -> bool
    ensures { result ≡ list_all is_name_byte bytes.now }
{
    bytes.iter().all(|byte| is_name_byte(*byte))
}

fn is_name_byte(byte: u8) -> bool
    ensures { result ≡ is_name_byte byte }
{
    byte.is_ascii_lowercase() || byte.is_ascii_digit() || byte == b'_'
}

/// Whether a byte is a space or a tab.
pub(crate) fn is_blank(byte: u8) -> bool
    ensures { result ≡ is_blank byte }
{
    byte == b' ' || byte == b'\t'
}

/// The text from its first word on.
#[tactic(auto, using(crate::proofs::Digits::or_all))]
fn behind_blanks(text: &str) -> &str
    ensures { result.now ≡ behind_blanks text.now }
{
    let blanks = first_ink(text.as_bytes()).unwrap_or(text.len());
    text.split_at(blanks).1
}

fn first_ink(bytes: &[u8]) -> Option<usize>
    ensures { result ≡ position is_ink bytes.now }
{
    bytes.iter().position(|byte| !is_blank(*byte))
}

/// The word at the start of a text, and the text after it.
#[tactic(auto, using(crate::proofs::Digits::or_all))]
fn first_word(text: &str) -> (&str, &str)
    ensures word { result.0.now ≡ word_at text.now }
    ensures rest { result.1.now ≡ behind_word text.now }
{
    text.split_at(first_blank(text.as_bytes()).unwrap_or(text.len()))
}

fn first_blank(bytes: &[u8]) -> Option<usize>
    ensures { result ≡ position is_blank bytes.now }
{
    bytes.iter().position(|byte| is_blank(*byte))
}
