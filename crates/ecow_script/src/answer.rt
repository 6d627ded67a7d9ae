//! Writes the answer lines of outcomes.
ghost use Rattle.std.specs.Prelude.{◌≡◌, ◌++◌, ◌∷◌, [], OnOk, codes};
ghost use Rattle.std.specs.List.{flat_map};
ghost use Rattle.ecow_script.specs.Answers.{Appended, list_text, items_text, text_form, escaped, refusal_word, answer_line, answer_lines};
ghost use Rattle.std.specs.Str.{chars};

use ecow_model::{Outcome, Refusal};
use itoa::{Buffer, Integer};
use std::alloc::AllocError;

/// Appends the line of an outcome.
fn write_answer(answers: &mut String, outcome: &Outcome<i64>) -> Result<(), AllocError>
    ensures { OnOk result (Appended answers.old answers.new (answer_line outcome.now)) }
{
    match outcome {
        Outcome::Done => answers.push_str("ok")?,
        Outcome::Element(value) => write_number(answers, *value)?,
        Outcome::Popped(Some(value)) => write_number(answers, *value)?,
        Outcome::Popped(None) => answers.push_str("none")?,
        Outcome::Elements(items) => write_list(answers, items.as_slice())?,
        Outcome::Byte(byte) => write_number(answers, *byte)?,
        Outcome::PoppedByte(Some(byte)) => write_number(answers, *byte)?,
        Outcome::PoppedByte(None) => answers.push_str("none")?,
        Outcome::Bytes(items) => write_list(answers, items.as_slice())?,
        Outcome::Char(c) => write_char(answers, *c)?,
        Outcome::PoppedChar(Some(c)) => write_char(answers, *c)?,
        Outcome::PoppedChar(None) => answers.push_str("none")?,
        Outcome::Text(text) => write_text(answers, text.as_str())?,
        Outcome::Count(count) => write_number(answers, *count)?,
        Outcome::Flag(flag) => answers.push_str(if *flag { "true" } else { "false" })?,
        Outcome::Refused(refusal) => write_refusal(answers, *refusal)?,
    }
    answers.push('\n')
}

pub(crate) fn write_number<I: Integer>(answers: &mut String, number: I) -> Result<(), AllocError>
    ensures { OnOk result (Appended answers.old answers.new (I.text number)) }
{
    let mut digits = Buffer::new();
    answers.push_str(digits.format(number))
}

/// Appends numbers in brackets, separated by commas.
fn write_list<I: Integer>(answers: &mut String, items: &[I]) -> Result<(), AllocError>
    ensures { OnOk result (Appended answers.old answers.new (list_text I.text items.now)) }
{
    answers.push('[')?;
    write_items(answers, items)?;
    answers.push(']')
}

/// Appends numbers, separated by commas.
fn write_items<I: Integer>(answers: &mut String, items: &[I]) -> Result<(), AllocError>
    ensures { OnOk result (Appended answers.old answers.new (items_text I.text items.now)) }
{
    let mut separator = "";
    for item in items {
        answers.push_str(separator)?;
        write_number(answers, *item)?;
        separator = ",";
    }
    Ok(())
}

fn write_char(answers: &mut String, c: char) -> Result<(), AllocError>
    ensures { OnOk result (Appended answers.old answers.new (text_form (c ∷ []))) }
{
    answers.push('"')?;
    write_escaped(answers, c)?;
    answers.push('"')
}

fn write_text(answers: &mut String, text: &str) -> Result<(), AllocError>
    ensures { OnOk result (Appended answers.old answers.new (text_form (chars text.now))) }
{
    answers.push('"')?;
    write_inner(answers, text)?;
    answers.push('"')
}

fn write_inner(answers: &mut String, text: &str) -> Result<(), AllocError>
    ensures { OnOk result (Appended answers.old answers.new (flat_map escaped (chars text.now))) }
{
    for c in text.chars() {
        write_escaped(answers, c)?;
    }
    Ok(())
}

/// Appends a character as a quoted text has it.
fn write_escaped(answers: &mut String, c: char) -> Result<(), AllocError>
    ensures { OnOk result (Appended answers.old answers.new (escaped c)) }
{
    match c {
        '\\' => answers.push_str("\\\\"),
        '"' => answers.push_str("\\\""),
        '\n' => answers.push_str("\\n"),
        '\r' => answers.push_str("\\r"),
        '\t' => answers.push_str("\\t"),
        '\0'..='\x1f' | '\x7f' => write!(answers, "\\u{{{:x}}}", u32::from(c)),
        _ => answers.push(c),
    }
}

fn write_refusal(answers: &mut String, refusal: Refusal) -> Result<(), AllocError>
    ensures { OnOk result
        (Appended answers.old answers.new (codes "refused " ++ refusal_word refusal)) }
{
    answers.push_str("refused ")?;
    answers.push_str(refusal_word(refusal))
}

fn refusal_word(refusal: Refusal) -> &'static str
    ensures { result.now ≡ refusal_word refusal }
{
    match refusal {
        Refusal::NoName => "no-name",
        Refusal::Taken => "taken",
        Refusal::Kind => "kind",
        Refusal::Index => "index",
        Refusal::Range => "range",
        Refusal::Boundary => "boundary",
        Refusal::Marks => "marks",
        Refusal::NotUtf8 => "not-utf8",
        Refusal::Capacity => "capacity",
        Refusal::Memory => "memory",
    }
}

/// Appends the answer lines of outcomes.
pub(crate) fn write_answers(
    answers: &mut String,
    outcomes: &[Outcome<i64>],
) -> Result<(), AllocError>
    ensures { OnOk result (Appended answers.old answers.new (answer_lines outcomes.now)) }
{
    for outcome in outcomes {
        write_answer(answers, outcome)?;
    }
    Ok(())
}
