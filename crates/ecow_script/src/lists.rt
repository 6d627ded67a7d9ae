//! Reads lists and bounds.
ghost use Rattle.std.specs.Prelude.{◌≡◌, List, Option, ◌==◌};
ghost use Rattle.std.specs.Option.{option_copied};
ghost use Rattle.std.specs.List.{slice_split, position};
ghost use Rattle.ecow_script.specs.Numbers.{byte_in, integer_in, bracketed, each_in, list_in, marks_in, each_mark, mark_in, bounds_in, start_in, end_in, closed, behind_dots, is_dot};
ghost use Rattle.ecow_script.specs.Outcomes.{Spells, SpellsItems};
ghost use Rattle.ecow_script.specs.declared.reason.Reason.TheVariants as reason;

use crate::numbers::{byte_in, count_in, integer_in};
use crate::reason::{Misfit, Reason};
use ecow_model::{Bounds, Items};
use std::alloc::Global;
use std::ops::Bound;

/// What is between brackets; `None` if the word has none.
fn bracketed(word: &[u8]) -> Option<&[u8]>
    ensures { option_copied result ≡ bracketed word.now }
{
    match word {
        [b'[', inner @ ..] => closed(inner),
        _ => None,
    }
}

/// What is before a closing bracket at the end; `None` if there is none.
#[tactic(auto, using(crate::proofs::Digits::closed_push))]
fn closed(word: &[u8]) -> Option<&[u8]>
    ensures { option_copied result ≡ closed word.now }
{
    let (last, inner) = word.split_last()?;
    if *last == b']' { Some(inner) } else { None }
}

pub(crate) fn integer_list(alloc: Global, word: &[u8]) -> Result<Items<i64>, Misfit>
    ensures { Spells reason.List result (list_in integer_in word.now) }
{
    let Some(inner) = bracketed(word) else {
        return Err(Misfit::Expected(Reason::List));
    };
    if inner.is_empty() {
        return Ok(Items::new(Vec::new(alloc)));
    }
    Ok(Items::new(integers_in(alloc, inner)?))
}

fn integers_in(alloc: Global, inner: &[u8]) -> Result<Vec<i64>, Misfit>
    ensures { SpellsItems reason.List result
        (each_in integer_in (slice_split (λ b. b == 44) inner.now)) }
{
    let mut items = Vec::new(alloc);
    for part in inner.split(|byte| *byte == b',') {
        let Some(item) = integer_in(part) else {
            return Err(Misfit::Expected(Reason::List));
        };
        items.push(item)?;
    }
    Ok(items)
}

pub(crate) fn byte_list(alloc: Global, word: &[u8]) -> Result<Items<u8>, Misfit>
    ensures { Spells reason.List result (list_in byte_in word.now) }
{
    let Some(inner) = bracketed(word) else {
        return Err(Misfit::Expected(Reason::List));
    };
    if inner.is_empty() {
        return Ok(Items::new(Vec::new(alloc)));
    }
    Ok(Items::new(bytes_in(alloc, inner)?))
}

fn bytes_in(alloc: Global, inner: &[u8]) -> Result<Vec<u8>, Misfit>
    ensures { SpellsItems reason.List result
        (each_in byte_in (slice_split (λ b. b == 44) inner.now)) }
{
    let mut items = Vec::new(alloc);
    for part in inner.split(|byte| *byte == b',') {
        let Some(item) = byte_in(part) else {
            return Err(Misfit::Expected(Reason::List));
        };
        items.push(item)?;
    }
    Ok(items)
}

pub(crate) fn marks_in(alloc: Global, word: &[u8]) -> Result<Items<bool>, Misfit>
    ensures { Spells reason.Marks result (marks_in word.now) }
{
    let Some(inner) = bracketed(word) else {
        return Err(Misfit::Expected(Reason::Marks));
    };
    Ok(Items::new(each_mark(alloc, inner)?))
}

fn each_mark(alloc: Global, inner: &[u8]) -> Result<Vec<bool>, Misfit>
    ensures { SpellsItems reason.Marks result (each_mark inner.now) }
{
    let mut marks = Vec::new(alloc);
    for byte in inner {
        let Some(mark) = mark_in(*byte) else {
            return Err(Misfit::Expected(Reason::Marks));
        };
        marks.push(mark)?;
    }
    Ok(marks)
}

fn mark_in(byte: u8) -> Option<bool>
    ensures { result ≡ mark_in byte }
{
    match byte {
        b'+' => Some(true),
        b'-' => Some(false),
        _ => None,
    }
}

#[tactic(auto, using(crate::proofs::Digits::or_all))]
pub(crate) fn bounds_in(word: &[u8]) -> Option<Bounds>
    ensures { result ≡ bounds_in word.now }
{
    let (start, rest) = word.split_at(first_dot(word).unwrap_or(word.len()));
    let end = behind_dots(rest)?;
    Some((start_in(start)?, end_in(end)?))
}

fn first_dot(word: &[u8]) -> Option<usize>
    ensures { result ≡ position is_dot word.now }
{
    word.iter().position(|byte| *byte == b'.')
}

fn behind_dots(rest: &[u8]) -> Option<&[u8]>
    ensures { option_copied result ≡ behind_dots rest.now }
{
    match rest {
        [b'.', b'.', behind @ ..] => Some(behind),
        _ => None,
    }
}

/// The bound that a word spells: none, or an index, which may have a mark before it.
macro_rules! bound_in {
    ($word:expr, $mark:literal => $marked:ident, else $plain:ident) => {
        if $word.is_empty() {
            Some(Bound::Unbounded)
        } else {
            match $word.strip_prefix($mark) {
                Some(index) => Some(Bound::$marked(count_in(index)?)),
                None => Some(Bound::$plain(count_in($word)?)),
            }
        }
    };
}

/// A lower bound: nothing, an included index, or `>` and an excluded index.
fn start_in(word: &[u8]) -> Option<Bound<usize>>
    ensures { result ≡ start_in word.now }
{
    bound_in!(word, b">" => Excluded, else Included)
}

/// An upper bound: nothing, an excluded index, or `=` and an included index.
fn end_in(word: &[u8]) -> Option<Bound<usize>>
    ensures { result ≡ end_in word.now }
{
    bound_in!(word, b"=" => Included, else Excluded)
}
