//! Reads quoted texts, and the escapes in them.
ghost use Rattle.std.specs.Prelude.{◌≡◌, ◌<◌, ◌≤◌, length, drop, slice_index, IfSome};
ghost use Rattle.ecow_script.specs.Quoted.{scalar_in, plain_escape, hex_behind, escape_at, brace_at, digits_at, is_special, is_close, text_from, behind_bytes};
ghost use Rattle.std.specs.List.{position, position_or_len, before_first};
ghost use Rattle.ecow_script.specs.QuotedViews.{escape_view, TurnIs, GivesText, behind_quote};
ghost use Rattle.ecow_script.specs.Words.{Reads, text, character, only, ends_word};
ghost use Rattle.std.specs.Str.{chars};
ghost use Rattle.std.specs.Option.{option_copied};

use crate::reason::{Misfit, Reason};
use crate::words::{Reader, is_blank};
use ecow_model::Text;
use std::alloc::Global;

/// The most digits of an escaped character.
const DIGITS_LIMIT: usize = 6;

/// The Unicode scalar value that one to six hexadecimal digits spell.
fn scalar_in(digits: &[u8]) -> Option<char>
    ensures { result ≡ scalar_in digits.now }
{
    if digits.is_empty() || digits.len() > DIGITS_LIMIT {
        return None;
    }
    char::from_u32(hex_in(digits)?)
}

/// The number that at most six hexadecimal digits spell.
fn hex_in(digits: &[u8]) -> Option<u32>
    requires { length digits.now ≤ 6 }
    ensures { result ≡ hex_behind 0 digits.now }
{
    let mut number = 0u32;
    for digit in digits {
        number = number * 16 + char::from(*digit).to_digit(16)?;
    }
    Some(number)
}

/// The text after its first character, which has one byte.
fn behind_first(text: &str) -> &str
    requires some { 0 < length text.now }
    requires ascii { slice_index text.now 0 < 128 }
    ensures { result.now ≡ drop 1 text.now }
{
    text.split_at(1).1
}

/// The character that a letter after a backslash means; `None` if it means none.
fn plain_escape(letter: u8) -> Option<char>
    ensures value { result ≡ plain_escape letter }
    ensures ascii { IfSome result (λ c. letter < 128) }
{
    match letter {
        b'\\' => Some('\\'),
        b'"' => Some('"'),
        b'n' => Some('\n'),
        b'r' => Some('\r'),
        b't' => Some('\t'),
        _ => None,
    }
}

/// The character of an escape, and the text after the escape. `text` is what follows the backslash.
fn escape_at(text: &str) -> Option<(char, &str)>
    ensures value { escape_view result ≡ escape_at text.now }
    ensures shorter { IfSome result (λ e. length e.1.now < length text.now) }
{
    match text.as_bytes() {
        [] => None,
        [b'u', ..] => brace_at(behind_first(text)),
        [letter, ..] => match plain_escape(*letter) {
            Some(c) => Some((c, behind_first(text))),
            None => None,
        },
    }
}

fn brace_at(text: &str) -> Option<(char, &str)>
    ensures value { escape_view result ≡ brace_at text.now }
    ensures shorter { IfSome result (λ e. length e.1.now < length text.now) }
{
    match text.as_bytes() {
        [b'{', ..] => digits_at(behind_first(text)),
        _ => None,
    }
}

fn digits_at(text: &str) -> Option<(char, &str)>
    ensures value { escape_view result ≡ digits_at text.now }
    ensures shorter { IfSome result (λ e. length e.1.now < length text.now) }
{
    let bytes = text.as_bytes();
    let close = close_in(bytes)?;
    let c = scalar_in(&bytes[..close])?;
    Some((c, text.split_at(close + 1).1))
}

fn close_in(bytes: &[u8]) -> Option<usize>
    ensures { result ≡ position is_close bytes.now }
{
    bytes.iter().position(|byte| *byte == b'}')
}

/// The text before the first quote or backslash, and the text from there on.
#[tactic(auto, using(crate::proofs::Quotes::plain_front, crate::proofs::Quotes::at_special, crate::proofs::Digits::or_all))]
fn plain_part(text: &str) -> (&str, &str)
    ensures spelling { text_from text.now ≡ behind_bytes result.0.now (text_from result.1.now) }
    ensures special { position_or_len is_special result.1.now ≡ 0 }
    ensures front { result.0.now ≡ before_first is_special text.now }
    ensures back { result.1.now ≡ drop (position_or_len is_special text.now) text.now }
    ensures shorter { length result.1.now ≤ length text.now }
{
    text.split_at(first_special(text.as_bytes()).unwrap_or(text.len()))
}

fn first_special(bytes: &[u8]) -> Option<usize>
    ensures { result ≡ position is_special bytes.now }
{
    bytes
        .iter()
        .position(|byte| *byte == b'"' || *byte == b'\\')
}

/// What is found at a quote, a backslash or the end of the text.
enum Turn<'a> {
    End(&'a str),
    Char(char, &'a str),
    Misfit,
}

#[tactic(auto, using(crate::proofs::Quotes::escape_is))]
fn turn_at<'a>(text: &'a str) -> Turn<'a>
    requires { position_or_len is_special text.now ≡ 0 }
    ensures { TurnIs result text.now }
{
    match text.as_bytes() {
        [] => Turn::Misfit,
        [b'"', ..] => Turn::End(behind_first(text)),
        [b'\\', ..] => match escape_at(behind_first(text)) {
            Some((c, behind)) => Turn::Char(c, behind),
            None => Turn::Misfit,
        },
        _ => Turn::Misfit,
    }
}

/// Reads up to the closing quote. Returns the text, and what is after the quote. Each round of the
/// loop reads one escape and the text before it.
pub(crate) fn read_quoted<'a>(alloc: Global, quoted: &'a str) -> Result<(String, &'a str), Misfit>
    ensures { GivesText result (text_from quoted.now) }
{
    let mut text = String::new(alloc);
    let mut rest = quoted;
    'turns: loop {
        let (plain, special) = plain_part(rest);
        text.push_str(plain)?;
        match turn_at(special) {
            Turn::End(behind) => return Ok((text, behind)),
            Turn::Misfit => return Err(Misfit::Expected(Reason::Text)),
            Turn::Char(c, behind) => {
                text.push(c)?;
                rest = behind;
            }
        }
    }
}

impl<'a> Reader<'a> {
    /// TEXT: characters and escapes in double quotes, and then a blank or the end of the line.
    pub(crate) fn text(&mut self) -> Result<Text, Misfit>
        ensures { Reads text self.old result self.new }
    {
        let line = self.next_text();
        if line.is_empty() {
            return Err(Misfit::Expected(Reason::Arguments));
        }
        let Some(inner) = behind_quote(line) else {
            return Err(Misfit::Expected(Reason::Text));
        };
        let (text, rest) = read_quoted(self.alloc(), inner)?;
        if !ends_word(rest) {
            return Err(Misfit::Expected(Reason::Text));
        }
        self.begin(rest);
        Ok(Text::new(text))
    }
}

impl<'a> Reader<'a> {
    /// CHAR: a quoted text of one character.
    pub(crate) fn character(&mut self) -> Result<char, Misfit>
        ensures { Reads character self.old result self.new }
    {
        let text = self.text()?;
        only_char(text.as_str()).ok_or(Misfit::Expected(Reason::Text))
    }
}

/// The only character of a text; `None` if it has none or more.
fn only_char(text: &str) -> Option<char>
    ensures { result ≡ only (chars text.now) }
{
    let mut chars = text.chars();
    let first = chars.next()?;
    match chars.next() {
        None => Some(first),
        Some(_) => None,
    }
}

fn behind_quote(text: &str) -> Option<&str>
    ensures { option_copied result ≡ behind_quote text.now }
{
    match text.as_bytes() {
        [b'"', ..] => Some(behind_first(text)),
        _ => None,
    }
}

/// Whether a text starts with a blank, or is at the end of the line.
fn ends_word(rest: &str) -> bool
    ensures { result ≡ ends_word rest.now }
{
    match rest.as_bytes() {
        [] => true,
        [byte, ..] => is_blank(*byte),
    }
}
