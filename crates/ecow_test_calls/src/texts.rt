//! The calls of `SmallText`.
ghost use Rattle.std.specs.Prelude.{◌≡◌, ◌≤◌, true, IsTrue};
ghost use Rattle.ecow_base.specs.Utf8.{is_boundary, utf8_len};

use crate::bytes::block_of;
use crate::calls::{Call, LAST, Role, Row};
use crate::elements::{compare, error_if, expect, or_memory, or_put_back};
use crate::letters;
use crate::sequence::Sequence;
use crate::states::State;
use crate::watched::Asks;
use ecow_bytes::SmallBytes;
use ecow_list::{EcoError, EcoVec};
use ecow_string::SmallText;
use std::alloc::{AllocError, Global};
use std::fmt::Write;
use std::iter::repeat_n;
use std::mem;

/// The text that a call gets, and two texts for a call that takes texts.
#[derive(Drop)]
pub struct Gift<V> {
    alloc: Global,
    text: String,
    texts: Vec<V>,
    asks: Asks,
}

/// The character that a call removed, if it removes one.
type Out = Option<char>;

fn string_of(bytes: Vec<u8>) -> Result<String, AllocError> {
    String::from_utf8(bytes).map_err(|_| AllocError)
}

fn read<const N: usize>(text: &SmallText<N>) {
    let _seen = text.as_str().len() == text.len() && text.is_empty();
    let _capacity = text.capacity() > 0 && text.is_inline() && text.is_char_boundary(0);
    compare(text, text);
}

/// Makes a call that gets a character.
fn put<const N: usize>(text: &mut SmallText<N>, row: &Row, c: char) -> Result<(), EcoError> {
    let start = row.start_in(text.len());
    match row.call {
        Call::PushReserved => {
            text.reserve(1)?;
            text.push(c)
        }
        Call::Insert if text.is_char_boundary(start) => text.insert(start, c),
        Call::Push => text.push(c),
        _ => Err(EcoError::Capacity),
    }
}

/// Whether `start` and `end` are character boundaries of the text, in this order.
fn has_range<const N: usize>(text: &SmallText<N>, start: usize, end: usize) -> bool
    ensures boundaries { IsTrue result
        → (is_boundary text.now.chars start ≡ true) × (is_boundary text.now.chars end ≡ true) }
    ensures in_range { IsTrue result → (start ≤ end) × (end ≤ utf8_len text.now.chars) }
{
    start <= end && end <= text.len() && text.is_char_boundary(start) && text.is_char_boundary(end)
}

/// Makes a call that adds a string slice.
fn add<const N: usize>(text: &mut SmallText<N>, row: &Row, more: &str) -> Result<(), EcoError> {
    let (start, end) = (row.start_in(text.len()), row.end_in(text.len()));
    match row.call {
        Call::ExtendFromSlice => text.push_str(more),
        Call::InsertSlice if text.is_char_boundary(start) => text.insert_str(start, more),
        Call::ReplaceRange if has_range(text, start, end) => text.replace_range(start..end, more),
        Call::Write => text.write_str(more).map_err(|_| EcoError::Memory),
        _ => Err(EcoError::Capacity),
    }
}

/// Makes a call that adds what an iterator gives.
fn extend<const N: usize>(
    text: &mut SmallText<N>,
    row: &Row,
    (more, asks): (&str, &Asks),
) -> Result<(), EcoError> {
    match row.call {
        Call::Extend => text.extend_chars(asks.of(more.chars())),
        Call::ExtendHalves => {
            let half = more.get(..more.len() / 2).unwrap_or("");
            text.extend_strs(asks.of([half, "", half].into_iter()))
        }
        Call::ExtendManyStrs(times) => text.extend_strs(asks.of(repeat_n(more, times))),
        _ => text.extend_strs(asks.of(repeat_n(more, 1))),
    }
}

/// Makes a call that removes a character.
fn take<const N: usize>(text: &mut SmallText<N>, row: &Row) -> Result<Out, EcoError> {
    let start = row.start_in(text.len());
    match row.call {
        Call::Pop => text.pop(),
        Call::Remove if start < text.len() && text.is_char_boundary(start) => {
            text.remove(start).map(|c| Some(c))
        }
        _ => Err(EcoError::Capacity),
    }
}

/// Makes a call that adds no text.
fn settle<const N: usize>(text: &mut SmallText<N>, row: &Row) -> Result<(), EcoError> {
    match row.call {
        Call::Truncate if row.count > text.len() || text.is_char_boundary(row.count) => {
            text.truncate(row.count)?
        }
        Call::SplitText => {
            let start = row.start_in(text.len());
            if !text.is_char_boundary(start) {
                return Err(EcoError::Capacity);
            }
            drop(text.split_off(start)?);
        }
        Call::Reserve => text.reserve(row.count)?,
        Call::MakeAsciiLowercase => text.make_ascii_lowercase()?,
        Call::MakeAsciiUppercase => text.make_ascii_uppercase()?,
        Call::Clear => text.clear(),
        Call::ShrinkToFit => text.shrink_to_fit(),
        Call::Read => read(text),
        _ => return Err(EcoError::Capacity),
    }
    Ok(())
}

fn text_of<const N: usize>(bytes: SmallBytes<N>) -> Result<SmallText<N>, EcoError> {
    SmallText::try_from(bytes).map_err(|_| EcoError::Capacity)
}

/// Turns the text into bytes or a vector and back, or appends to it by `add`. If that is refused,
/// the text is unchanged.
fn give<const N: usize>(
    text: &mut SmallText<N>,
    row: &Row,
    (more, alloc): (&str, Global),
) -> Result<(), EcoError> {
    let whole = mem::replace(text, SmallText::new(alloc));
    *text = match row.call {
        Call::Add => or_put_back(text, whole.add(more))?,
        Call::IntoBytes => text_of(SmallBytes::from(whole))?,
        _ => text_of(SmallBytes::from(or_put_back(text, whole.into_eco_vec())?))?,
    };
    Ok(())
}

/// Makes another text from a text.
fn derived<const N: usize>(text: &SmallText<N>, row: &Row) -> Result<SmallText<N>, EcoError> {
    match row.call {
        Call::Repeat => text.repeat(row.count),
        Call::Replace(pattern, by, LAST) => text.replace(pattern, by),
        Call::Replace(pattern, by, times) => text.replacen(pattern, by, times),
        Call::ToAsciiLowercase => text.to_ascii_lowercase(),
        Call::ToAsciiUppercase => text.to_ascii_uppercase(),
        Call::ToLowercase => text.to_lowercase(),
        Call::ToUppercase => text.to_uppercase(),
        _ => or_memory(text.clone()),
    }
}

/// A text made from what an iterator gives.
fn collected<const N: usize>(
    alloc: Global,
    row: &Row,
    (text, asks): (&str, &Asks),
) -> Result<SmallText<N>, EcoError> {
    match row.call {
        Call::FromIter => SmallText::from_chars(alloc, asks.of(text.chars())),
        Call::FromStrs => SmallText::from_strs(alloc, asks.of(repeat_n(text, 1))),
        Call::FromManyStrs(times) => SmallText::from_strs(alloc, asks.of(repeat_n(text, times))),
        Call::Collect => or_memory(asks.of(text.chars()).collect(alloc)),
        _ => Err(EcoError::Capacity),
    }
}

impl<const N: usize> Sequence for SmallText<N> {
    type Source = ();

    type Gift = Gift<SmallText<N>>;

    type Out = Out;

    type Item = u8;

    fn limit() -> Option<usize> {
        Some(N)
    }

    fn is_text() -> bool {
        true
    }

    fn is_plain() -> bool {
        true
    }

    fn letter(state: &State, place: usize) -> i64 {
        i64::from(letters::letter(true, state, place))
    }

    fn given(row: &Row, place: usize) -> i64 {
        i64::from(letters::given(true, row, place))
    }

    fn ends(_out: &mut Out) -> Option<(Option<i64>, Option<i64>)> {
        None
    }

    fn owner(row: &Row) -> &'static str {
        match row.role() {
            Role::Make if N == 15 => "EcoString",
            Role::Make => "SmallText",
            _ if row.call == Call::IntoBytes => "",
            _ => "t.",
        }
    }

    fn made(alloc: Global, _source: &(), state: &State) -> Result<Self, EcoError> {
        let letters = letters::letters(alloc, true, state)?;
        match state.capacity {
            None => SmallText::from_str(alloc, string_of(letters)?.as_str()),
            Some(capacity) => {
                text_of(SmallBytes::from(block_of(alloc, letters.as_slice(), capacity)?))
            }
        }
    }

    fn gift(alloc: Global, _source: &(), row: &Row) -> Result<Gift<SmallText<N>>, AllocError> {
        let text = string_of(letters::gift(alloc, true, row)?)?;
        let mut texts = Vec::new(alloc);
        if row.call == Call::FromEcoStrings {
            for part in [text.as_str(), "12345678"] {
                texts.push(SmallText::from_str(alloc, part).map_err(|_| AllocError)?)?;
            }
        }
        Ok(Gift {
            alloc,
            text,
            texts,
            asks: Asks::new(),
        })
    }

    fn change(&mut self, row: &Row, gift: &mut Gift<SmallText<N>>) -> Result<Out, EcoError> {
        let more = gift.text.as_str();
        match row.call {
            Call::Push | Call::PushReserved | Call::Insert => {
                put(self, row, more.chars().next().ok_or(EcoError::Capacity)?)?
            }
            Call::ExtendFromSlice | Call::InsertSlice | Call::ReplaceRange | Call::Write => {
                add(self, row, more)?
            }
            Call::Extend | Call::ExtendStrs | Call::ExtendHalves | Call::ExtendManyStrs(_) => {
                extend(self, row, (more, &gift.asks))?
            }
            Call::Pop | Call::Remove => return take(self, row),
            Call::IntoEcoVec | Call::IntoBytes | Call::Add => {
                give(self, row, (more, gift.alloc))?
            }
            _ => settle(self, row)?,
        }
        Ok(None)
    }

    fn derive(&self, row: &Row) -> Result<Option<Self>, EcoError> {
        if row.call == Call::ToStd {
            let copy = self.to_std_string()?;
            expect(copy.as_str() == self.as_str() && copy.capacity() == copy.len())?;
            return Ok(None);
        }
        derived(self, row).map(|copy| Some(copy))
    }

    fn make(row: &Row, gift: &mut Gift<SmallText<N>>) -> Result<Self, EcoError> {
        let alloc = gift.alloc;
        let text = gift.text.as_str();
        match row.call {
            Call::Inline if text.len() <= N => Ok(SmallText::inline(alloc, text)),
            Call::TryInline => SmallText::try_inline(alloc, text).ok_or(EcoError::Capacity),
            Call::WithCapacity => SmallText::with_capacity(alloc, row.count),
            Call::FromSlice => SmallText::from_str(alloc, text),
            Call::FromChar => SmallText::from_char(alloc, 'é'),
            Call::FromVec => {
                let text = mem::replace(&mut gift.text, String::new(alloc));
                SmallText::from_string(alloc, text).map_err(|rejected| error_if(
                    rejected.value.len() == row.count,
                    rejected.error,
                ))
            }
            Call::FromEcoStrings => {
                let texts = mem::replace(&mut gift.texts, Vec::new(alloc));
                SmallText::from_eco_strings(alloc, gift.asks.of(texts.into_iter()))
            }
            Call::Format => SmallText::format(alloc, text).map_err(|_| EcoError::Memory),
            Call::New => Ok(SmallText::new(alloc)),
            _ => collected(alloc, row, (text, &gift.asks)),
        }
    }

    fn size(&self) -> (usize, usize, bool) {
        (self.len(), self.capacity(), self.is_inline())
    }

    fn item(&self, place: usize) -> Option<i64> {
        let bytes = self.as_str().as_bytes();
        bytes.get(place).map(|byte| i64::from(*byte))
    }

    fn handed(out: &Out, place: usize) -> Option<i64> {
        let (c, mut bytes) = ((*out)?, [0u8; 4]);
        let text = c.encode_utf8(&mut bytes);
        text.as_bytes().get(place).map(|byte| i64::from(*byte))
    }

    fn asks(gift: &Gift<SmallText<N>>) -> &Asks {
        &gift.asks
    }

    fn into_block(self) -> Option<EcoVec<u8>> {
        if self.is_inline() {
            return None;
        }
        self.into_eco_vec().ok()
    }
}
