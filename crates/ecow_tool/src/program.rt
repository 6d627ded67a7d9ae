//! Runs a script over any reader and writer.
ghost use Rattle.std.specs.Prelude.{◌≡◌, ◌<◌, ◌≤◌, ◌++◌, [], length, List, ℕ, IfOk, OnOk, IfErr, IfSome, IsNone, IsTrue, Some};
ghost use Rattle.std.specs.Io.KnownBytes.{Appends, Consumes, IsAtEnd};
ghost use Rattle.ecow_script.specs.Commands.{counted_form, store_form};
ghost use Rattle.ecow_script.specs.Runs.{Answers, CountedAnswers};
ghost use Rattle.ecow_tool.specs.Programs.{EndsBy, EndsReading, EndsWriting, size_limit};
ghost use Rattle.ecow_tool.specs.Arguments.{request, is_flag};
ghost use Rattle.ecow_tool.specs.declared.program.End.TheVariants.{Memory};
ghost use Rattle.ecow_tool.specs.Ends.{end_for, end_text, exit_text, status_after, status_of};

use ecow_script::{Fault, Reason, answers_to, counted_answers_to};
use std::alloc::{AllocError, Global};
use std::fmt;
use std::io::{ErrorKind, Read, Write};

/// The most bytes that a script has.
pub const SIZE_LIMIT: usize = 16777216;

/// How many bytes are read at a time.
const BYTES_AT_ONCE: usize = 65536;

/// How the program ends after its arguments were read. Its `Display` is the message on standard
/// error, without the program's name.
#[derive(Clone, Copy, Debug, PartialEq, Eq)]
pub enum End {
    /// The whole script was run, and all answer lines are written.
    Done,
    /// This line, counted from 1, is wrong.
    Unreadable(usize, Reason),
    /// The script isn't UTF-8.
    NotUtf8,
    /// The script can't be read.
    File,
    /// The script has more than `SIZE_LIMIT` bytes.
    TooLarge,
    /// Memory was refused for the arguments, the script, the outcomes or the answer lines.
    Memory,
    /// The answer lines can't be written.
    Output,
}

/// How the program ends. Its `Display` is all that is printed to standard error.
#[derive(Clone, Copy, Debug, PartialEq, Eq)]
pub enum Exit {
    /// The words after the program's name aren't as its usage says.
    Usage,
    /// The words were read, and the program ended so after that.
    After(End),
}

impl From<AllocError> for End {
    ghost from_gives = { λ _ end. end ≡ Memory };

    fn from(_: AllocError) -> End {
        End::Memory
    }
}

impl From<Fault> for End {
    ghost from_gives = { λ fault end. end ≡ end_for fault };

    fn from(fault: Fault) -> End {
        match fault {
            Fault::Unreadable(line, reason) => End::Unreadable(line, reason),
            Fault::Memory => End::Memory,
        }
    }
}

/// Reads the words after the program's name: whether the counted store is wanted, and the index of
/// the file's name. `None` if the words aren't as the program's usage says.
pub fn read_arguments(words: &[String]) -> Option<(bool, usize)>
    ensures request { result ≡ request words.now }
    ensures place { IfSome result (λ found. found.1 < length words.now) }
{
    match words {
        [file] if !is_flag(file) => Some((false, 0)),
        [flag, _] if is_flag(flag) => Some((true, 1)),
        _ => None,
    }
}

/// Whether a word is `--counted`.
fn is_flag(word: &String) -> bool
    ensures { result ≡ is_flag word.now }
{
    word.as_str() == "--counted"
}

/// Reads a script, carries out its commands on a new `Store`, and writes an answer line for each.
/// Nothing is written before all lines are made. So only a writer that fails gets some of the lines
/// and not all. A read or a write that is interrupted is tried again.
pub fn run_store<R: Read, W: Write>(alloc: Global, reader: &mut R, writer: &mut W) -> End
    ensures { IfSome (R.remaining reader.old)
        (λ bytes. (written : List ℕ)
        × Appends (W.contents writer.old) (W.contents writer.new) written
        × EndsBy store_form Answers bytes written result) }
{
    let script = match read_script(alloc, reader) {
        Ok(script) => script,
        Err(end) => return end,
    };
    let Ok(text) = str::from_utf8(script.as_slice()) else {
        return End::NotUtf8;
    };
    match answers_to(alloc, text) {
        Ok(answers) => write_out(writer, answers.as_bytes()),
        Err(fault) => End::from(fault),
    }
}

/// Does the same on a new `Counted`. The last line that it writes has the number of blocks, and how
/// many elements were copied and moved.
pub fn run_counted<R: Read, W: Write>(alloc: Global, reader: &mut R, writer: &mut W) -> End
    ensures { IfSome (R.remaining reader.old)
        (λ bytes. (written : List ℕ)
        × Appends (W.contents writer.old) (W.contents writer.new) written
        × EndsBy counted_form CountedAnswers bytes written result) }
{
    let script = match read_script(alloc, reader) {
        Ok(script) => script,
        Err(end) => return end,
    };
    let Ok(text) = str::from_utf8(script.as_slice()) else {
        return End::NotUtf8;
    };
    match counted_answers_to(alloc, text) {
        Ok(answers) => write_out(writer, answers.as_bytes()),
        Err(fault) => End::from(fault),
    }
}

/// Writes all bytes and flushes them, unless the writer fails.
fn write_out<W: Write>(writer: &mut W, answers: &[u8]) -> End
    ensures { (written : List ℕ)
        × Appends (W.contents writer.old) (W.contents writer.new) written
        × EndsWriting answers.now written result }
{
    let mut rest = answers;
    for _ in 0..u64::MAX {
        if rest.is_empty() {
            break;
        }
        let Some(left) = write_some(writer, rest) else {
            return End::Output;
        };
        rest = left;
    }
    if is_flushed(writer, rest) {
        End::Done
    } else {
        End::Output
    }
}

/// Writes some of the bytes, or none after an interruption, and returns the bytes that are left.
/// `None` if the writer fails.
fn write_some<'a, W: Write>(writer: &mut W, bytes: &'a [u8]) -> Option<&'a [u8]>
    ensures written { IfSome result
        (λ rest. (written : List ℕ)
        × Appends (W.contents writer.old) (W.contents writer.new) written
        × (bytes.now ≡ written ++ rest.now)) }
    ensures nothing { IsNone result → Appends (W.contents writer.old) (W.contents writer.new) [] }
{
    match writer.write(bytes) {
        Ok(0) => None,
        Ok(count) => Some(&bytes[count..]),
        Err(error) if error.kind() == ErrorKind::Interrupted => Some(bytes),
        Err(_) => None,
    }
}

/// Flushes what was written. False if bytes are left to write, or flushing fails.
fn is_flushed<W: Write>(writer: &mut W, rest: &[u8]) -> bool
    ensures whole { IsTrue result → rest.now ≡ [] }
    ensures nothing { Appends (W.contents writer.old) (W.contents writer.new) [] }
{
    if !rest.is_empty() {
        return false;
    }
    writer.flush().is_ok()
}

/// Reads everything that the reader gives, up to `SIZE_LIMIT`.
fn read_script<R: Read>(alloc: Global, reader: &mut R) -> Result<Vec<u8>, End>
    ensures script { IfOk result
        (λ script. IfSome (R.remaining reader.old) (λ bytes. script.items ≡ bytes)) }
    ensures fits { IfOk result (λ script. length script.items ≤ size_limit) }
    ensures end { IfErr result
        (λ end. IfSome (R.remaining reader.old) (λ bytes. EndsReading bytes end)) }
{
    let mut script = Vec::new(alloc);
    let mut piece = [0u8; BYTES_AT_ONCE];
    for _ in 0..u64::MAX {
        if read_piece(reader, &mut piece, &mut script)? {
            return Ok(script);
        }
    }
    Err(End::File)
}

/// Appends what one read gives, or nothing after an interruption. Returns whether the reader is at
/// its end.
fn read_piece<R: Read>(reader: &mut R, piece: &mut [u8], script: &mut Vec<u8>) -> Result<bool, End>
    requires room { 0 < length piece.old }
    requires fits { length script.old.items ≤ size_limit }

    // The bytes that were read are appended.
    ensures read { OnOk result ((bytes : List ℕ)
        × (script.new.items ≡ script.old.items ++ bytes)
        × Consumes (R.remaining reader.old) (R.remaining reader.new) bytes) }
    ensures ended { IfOk result (λ ended. IsTrue ended → IsAtEnd (R.remaining reader.new)) }

    // The script stays within its limit, and the piece keeps its length.
    ensures fits { OnOk result (length script.new.items ≤ size_limit) }
    ensures room { length piece.new ≡ length piece.old }
    ensures end { IfErr result (λ end. IfSome (R.remaining reader.old)
        (λ bytes. EndsReading (script.old.items ++ bytes) end)) }
{
    match reader.read(piece) {
        Ok(0) => Ok(true),
        Ok(count) => {
            script.extend_from_slice(&piece[..count])?;
            if script.len() > SIZE_LIMIT {
                return Err(End::TooLarge);
            }
            Ok(false)
        }
        Err(error) if error.kind() == ErrorKind::Interrupted => Ok(false),
        Err(_) => Err(End::File),
    }
}

impl End {
    /// The program's exit status.
    pub fn status(self) -> u8
        ensures { result ≡ status_after self }
    {
        match self {
            End::Done => 0,
            End::Unreadable(_, _) | End::NotUtf8 => 1,
            End::File | End::TooLarge | End::Memory | End::Output => 3,
        }
    }
}

impl Exit {
    /// The program's exit status.
    pub fn status(self) -> u8
        ensures { result ≡ status_of self }
    {
        match self {
            Exit::Usage => 2,
            Exit::After(end) => end.status(),
        }
    }
}

impl fmt::Display for Exit {
    ghost output = { λ exit. Some (exit_text exit) };

    fn fmt<W: fmt::Write>(&self, f: &mut fmt::Formatter<W>) -> fmt::Result {
        match self {
            Exit::Usage => f.write_str("usage: ecow-run [--counted] FILE\n"),
            Exit::After(End::Done) => Ok(()),
            Exit::After(end) => write!(f, "ecow-run: {end}\n"),
        }
    }
}

impl fmt::Display for End {
    ghost output = { λ end. Some (end_text end) };

    fn fmt<W: fmt::Write>(&self, f: &mut fmt::Formatter<W>) -> fmt::Result {
        match self {
            End::Done => Ok(()),
            End::Unreadable(line, reason) => write!(f, "line {line}: {reason}"),
            End::NotUtf8 => f.write_str("not UTF-8"),
            End::File => f.write_str("file"),
            End::TooLarge => f.write_str("too large"),
            End::Memory => f.write_str("memory"),
            End::Output => f.write_str("output"),
        }
    }
}
