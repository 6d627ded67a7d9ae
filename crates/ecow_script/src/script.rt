//! Reads the text of a script into commands.
ghost use Rattle.std.specs.Prelude.{◌≡◌, ◌<◌, ◌+◌, ◌^◌, [], List, ℕ, length, IfOk, IfErr, OnOk, Ok, ◌++◌};
ghost use Rattle.std.specs.Option.{option_to_list};
ghost use Rattle.std.specs.List.{before_first, after_first, position};
ghost use Rattle.ecow_script.specs.Words.{Reading, Reads, place};
ghost use Rattle.ecow_script.specs.Scripts.{without_return, is_feed, is_comment, line_command, ended, commands_ahead, with_front, with_command, unread, IsFaultOf};
ghost use Rattle.ecow_script.specs.declared.script.Fault.TheVariants.{Memory};

use crate::reason::{Misfit, Reason};
use crate::words::Reader;
use memchr::memchr;
use std::alloc::{AllocError, Global};
use std::marker::Model;

/// How many commands are read at a time, before they are carried out.
const COMMANDS_AT_ONCE: usize = 1024;

/// Why a script isn't answered.
#[derive(Clone, Copy, Debug, PartialEq, Eq)]
pub enum Fault {
    /// This line, counted from 1, is wrong.
    Unreadable(usize, Reason),
    /// The allocator refused the memory.
    Memory,
}

/// Commands that can be read from a script.
pub(crate) trait Scripted: Drop + Sized {
    /// The form of a command after its first word.
    ghost form: { List ℕ → Reading Self };

    /// Reads the command on a line whose first word is `kind`.
    fn read<'a>(reader: &mut Reader<'a>, kind: &str) -> Result<Self, Misfit>
        ensures { Reads (form kind.now) reader.old result reader.new };
}

impl From<AllocError> for Fault {
    ghost from_gives = { λ _ fault. fault ≡ Memory };

    fn from(_: AllocError) -> Fault {
        Fault::Memory
    }
}

/// The part of a script that isn't read yet.
#[derive(Drop)]
pub(crate) struct Script<'a> {
    /// Where the memory for commands comes from.
    alloc: Global,
    /// Reads lines, and knows the names.
    reader: Reader<'a>,
    /// The lines that aren't read yet.
    text: &'a str,
    /// The number of the last line that was read.
    number: usize,
    ghost counted: { number + length text.now < 2 ^ 64 },
}

impl<'a> Model for Script<'a> {
    ghost use Rattle.ecow_script.specs.Scripts.{Unread, unread};

    ghost Value = { Unread };

    ghost view = { λ a. unread a.text.now a.number a.reader.names };
}

impl<'a> Script<'a> {
    /// Makes the reader of a whole script.
    pub(crate) fn new(alloc: Global, text: &'a str) -> Self
        requires { length text.now < 2 ^ 63 }
        ensures { result ≡ unread text.now 1 [] }
    {
        Script {
            alloc,
            reader: Reader::new(alloc),
            text,
            number: 1,
        }
    }

    /// Reads the next commands, at most `COMMANDS_AT_ONCE`; none at the end of the script.
    #[tactic(auto, using(crate::proofs::Lines::front_behind, crate::proofs::Lines::front_nil))]
    pub(crate) fn next_piece<C: Scripted>(&mut self) -> Result<Vec<C>, Fault>
        ensures commands { IfOk result
            (λ piece. commands_ahead C.form self.old
            ≡ with_front piece.items (commands_ahead C.form self.new)) }
        ensures end { IfOk result
            (λ piece. length piece.items ≡ 0 → length self.new.text ≡ 0) }
        ensures shorter { IfOk result
            (λ piece. 0 < length piece.items → length self.new.text < length self.old.text) }
        ensures fault { IfErr result (λ fault. IsFaultOf fault (commands_ahead C.form self.old)) }
    {
        let mut piece = Vec::with_capacity(self.alloc, COMMANDS_AT_ONCE)?;
        while piece.len() < COMMANDS_AT_ONCE && !self.text.is_empty() {
            let command = self.next_line()?;
            put(&mut piece, command)?;
        }
        Ok(piece)
    }

    /// Reads the next line; `None` if it has no command.
    #[tactic(auto, using(crate::proofs::Lines::commands_step))]
    fn next_line<C: Scripted>(&mut self) -> Result<Option<C>, Fault>
        requires { 0 < length self.old.text }
        ensures shorter { OnOk result (length self.new.text < length self.old.text) }
        ensures commands { IfOk result
            (λ command. commands_ahead C.form self.old
            ≡ with_command command (commands_ahead C.form self.new)) }
        ensures fault { IfErr result (λ fault. IsFaultOf fault (commands_ahead C.form self.old)) }
    {
        let (line, rest) = first_line(self.text);
        let number = self.number;
        self.text = rest;
        self.number += 1;
        match self.reader.read_line(line) {
            Ok(command) => Ok(command),
            Err(Misfit::Expected(reason)) => Err(Fault::Unreadable(number, reason)),
            Err(Misfit::Memory) => Err(Fault::Memory),
        }
    }
}

fn put<C: Drop>(piece: &mut Vec<C>, command: Option<C>) -> Result<(), AllocError>
    ensures { OnOk result (piece.new.items ≡ piece.old.items ++ option_to_list command) }
{
    if let Some(command) = command {
        piece.push(command)?;
    }
    Ok(())
}

impl<'a> Reader<'a> {
    /// The command on a line; `None` if the line is blank or a comment.
    fn read_line<C: Scripted>(&mut self, line: &'a str) -> Result<Option<C>, Misfit>
        ensures { Reads (line_command C.form) (place line.now self.old.names) result self.new }
    {
        self.begin(line);
        let Some(kind) = self.next_word() else {
            return Ok(None);
        };
        if is_comment(kind) {
            return Ok(None);
        }
        let command = C::read(self, kind)?;
        self.ended(command)
    }

    fn ended<C: Drop>(&mut self, command: C) -> Result<Option<C>, Misfit>
        ensures { Reads (ended (Some command)) self.old result self.new }
    {
        match self.next_word() {
            None => Ok(Some(command)),
            Some(_) => Err(Misfit::Expected(Reason::Arguments)),
        }
    }
}

fn is_comment(kind: &str) -> bool
    ensures { result ≡ is_comment kind.now }
{
    match kind.as_bytes() {
        [b'#', ..] => true,
        _ => false,
    }
}

/// The first line of a text without its line end, and the text after it. A line ends with a line
/// feed, which may have a carriage return before it.
#[tactic(auto, using(crate::proofs::Digits::or_all))]
fn first_line(text: &str) -> (&str, &str)
    requires { 0 < length text.now }
    ensures line { result.0.now ≡ without_return (before_first is_feed text.now) }
    ensures rest { result.1.now ≡ after_first is_feed text.now }
    ensures shorter { length result.1.now < length text.now }
{
    let feed = first_feed(text.as_bytes()).unwrap_or(text.len());
    let line = without_return(text.split_at(feed).0);
    if feed < text.len() {
        (line, text.split_at(feed + 1).1)
    } else {
        (line, "")
    }
}

fn first_feed(bytes: &[u8]) -> Option<usize>
    ensures { result ≡ position is_feed bytes.now }
{
    memchr(b'\n', bytes)
}

#[tactic(auto, using(crate::proofs::Lines::return_push, std::proofs::lemmas::List::take_at))]
fn without_return(line: &str) -> &str
    ensures { result.now ≡ without_return line.now }
{
    let Some((last, kept)) = line.as_bytes().split_last() else {
        return line;
    };
    if *last == b'\r' {
        line.split_at(kept.len()).0
    } else {
        line
    }
}
