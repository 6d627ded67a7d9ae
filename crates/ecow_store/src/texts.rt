//! Commands on texts, carried out on handles. Each `match` is one table of the definitions.
ghost use Rattle.std.specs.Prelude.{◌≡◌, ⊤};
ghost use Rattle.ecow_model.specs.Refusing.{verdict};
ghost use Rattle.ecow_model.specs.Texts.{edit_text, text_rules, text_from_bytes};
ghost use Rattle.ecow_model.specs.Uses.{IsGiven};
ghost use Rattle.ecow_model.proofs.Uses.{text_wraps};

use crate::answers::{answer_change, answer_given, answer_make, refusal_of};
use crate::kinds::ValueKind;
use crate::store::Stored;
use ecow_bytes::SmallBytes;
use ecow_list::EcoError;
use ecow_model::texts::{TextAsk, TextDerive, TextEdit, TextMake};
use ecow_model::usage::{NewValue, allowed};
use ecow_model::value::Value;
use ecow_model::{Outcome, Refusal, Text};
use ecow_string::SmallText;
use std::alloc::{AllocError, Global};

/// The kind of texts, which are inline or in a shared block.
pub(crate) struct TextKind;

impl<T: Clone, const N: usize> ValueKind<T, Stored<T, N>> for TextKind {
    type Payload = SmallText<N>;

    type Make = TextMake;

    type Derive = TextDerive;

    type Edit = TextEdit;

    type Ask = TextAsk;

    ghost rules = { text_rules N };

    ghost premise = { ⊤ };

    #[tactic(auto, using(crate::proofs::Characters::texts))]
    fn make(alloc: Global, how: TextMake) -> Result<NewValue<SmallText<N>>, Refusal> {
        match how {
            TextMake::New => Ok(NewValue::Always(SmallText::new(alloc))),
            TextMake::TryInline(text) => {
                Ok(NewValue::Tried(SmallText::try_inline(alloc, text.as_str())))
            }
            TextMake::WithCapacity(capacity) => answer_make(SmallText::with_capacity(
                alloc, capacity,
            )),
            TextMake::FromStr(text) => answer_make(SmallText::from_str(alloc, text.as_str())),
            TextMake::FromChar(c) => answer_make(SmallText::from_char(alloc, c)),
        }
    }

    #[tactic(auto, using(crate::proofs::Characters::texts))]
    fn derive(
        _alloc: Global,
        how: TextDerive,
        source: &Stored<T, N>,
    ) -> Result<SmallText<N>, Refusal> {
        if let TextDerive::FromBytes = how {
            return match source {
                Value::Bytes(bytes) => from_bytes(bytes),
                _ => Err(Refusal::Kind),
            };
        }
        let Value::Text(text) = source else {
            return Err(Refusal::Kind);
        };
        let derived: Result<SmallText<N>, EcoError> = match how {
            TextDerive::FromBytes => return Err(Refusal::Kind),
            TextDerive::Clone => {
                let copy: Result<SmallText<N>, AllocError> = text.clone();
                match copy {
                    Ok(copy) => Ok(copy),
                    Err(_) => Err(EcoError::Memory),
                }
            }
            TextDerive::Replace(pattern, replacement, count) => {
                text.replacen(pattern.as_str(), replacement.as_str(), count)
            }
            TextDerive::Repeat(count) => text.repeat(count),
            TextDerive::ToAsciiLower => text.to_ascii_lowercase(),
            TextDerive::ToAsciiUpper => text.to_ascii_uppercase(),
        };
        match derived {
            Ok(text) => Ok(text),
            Err(error) => Err(refusal_of(error)),
        }
    }

    #[tactic(auto, using(crate::proofs::Characters::texts))]
    fn edit(_alloc: Global, text: &mut SmallText<N>, edit: TextEdit) -> Outcome<T> {
        if let Err(refusal) = check::<T, N>(text, &edit) {
            return Outcome::Refused(refusal);
        }
        match edit {
            TextEdit::Push(c) => answer_change(text.push(c)),
            TextEdit::Pop => answer_given!(PoppedChar, text.pop()),
            TextEdit::PushStr(more) => answer_change(text.push_str(more.as_str())),
            TextEdit::Insert(index, c) => answer_change(text.insert(index, c)),
            TextEdit::InsertStr(index, more) => answer_change(text.insert_str(
                index,
                more.as_str(),
            )),
            TextEdit::Remove(index) => answer_given!(Char, text.remove(index)),
            TextEdit::Truncate(target) => answer_change(text.truncate(target)),
            TextEdit::Clear => {
                text.clear();
                Outcome::Done
            }
            TextEdit::Reserve(additional) => answer_change(text.reserve(additional)),
            TextEdit::AsciiLower => answer_change(text.make_ascii_lowercase()),
            TextEdit::AsciiUpper => answer_change(text.make_ascii_uppercase()),
            TextEdit::ShrinkToFit => {
                text.shrink_to_fit();
                Outcome::Done
            }
        }
    }

    fn ask(alloc: Global, text: &mut SmallText<N>, question: TextAsk) -> Outcome<T> {
        match question {
            TextAsk::Len => Outcome::Count(text.len()),
            TextAsk::Capacity => Outcome::Count(text.capacity()),
            TextAsk::Contents => match String::from_str(alloc, text.as_str()) {
                Ok(copy) => Outcome::Text(Text::new(copy)),
                Err(_) => Outcome::Refused(Refusal::Memory),
            },
            TextAsk::IsInline => Outcome::Flag(text.is_inline()),
        }
    }

    fn payload_mut(value: &mut Stored<T, N>) -> Result<&mut SmallText<N>, Refusal> {
        match value {
            Value::Vec(_) => Err(Refusal::Kind),
            Value::Bytes(_) => Err(Refusal::Kind),
            Value::Text(text) => Ok(text),
        }
    }

    fn wrap(text: SmallText<N>) -> Stored<T, N> {
        Value::Text(text)
    }

    ghost wraps = { text_wraps N };
}

/// Checks whether a text may be edited so. Returns the first refusal that applies; `Memory` comes
/// later.
#[tactic(auto, using(crate::proofs::Characters::texts))]
fn check<T, const N: usize>(text: &SmallText<N>, edit: &TextEdit) -> Result<(), Refusal>
    ensures { result ≡ verdict (edit_text {T = T} N edit.now text.now) }
{
    let len = text.len();
    match edit {
        TextEdit::Push(c) => allowed(len, c.len_utf8()),
        TextEdit::PushStr(more) => allowed(len, more.as_str().len()),
        TextEdit::Insert(index, c) => {
            if !text.is_char_boundary(*index) {
                return Err(Refusal::Boundary);
            }
            allowed(len, c.len_utf8())
        }
        TextEdit::InsertStr(index, more) => {
            if !text.is_char_boundary(*index) {
                return Err(Refusal::Boundary);
            }
            allowed(len, more.as_str().len())
        }
        TextEdit::Remove(index) => {
            if *index >= len || !text.is_char_boundary(*index) {
                return Err(Refusal::Boundary);
            }
            Ok(())
        }
        TextEdit::Truncate(target) => {
            if *target <= len && !text.is_char_boundary(*target) {
                return Err(Refusal::Boundary);
            }
            Ok(())
        }
        TextEdit::Reserve(additional) => allowed(len, *additional),
        TextEdit::Pop => Ok(()),
        TextEdit::Clear => Ok(()),
        TextEdit::AsciiLower => Ok(()),
        TextEdit::AsciiUpper => Ok(()),
        TextEdit::ShrinkToFit => Ok(()),
    }
}

/// Makes a text from bytes, inline if these are; `NotUtf8` if they are no text.
#[tactic(auto, using(crate::proofs::Characters::texts))]
fn from_bytes<const N: usize>(bytes: &SmallBytes<N>) -> Result<SmallText<N>, Refusal>
    ensures { IsGiven (text_from_bytes bytes.now) result }
{
    let copy: Result<SmallBytes<N>, AllocError> = bytes.clone();
    match copy {
        Ok(copy) => match SmallText::try_from(copy) {
            Ok(text) => Ok(text),
            Err(_) => Err(Refusal::NotUtf8),
        },
        Err(_) if str::from_utf8(bytes.as_slice()).is_err() => Err(Refusal::NotUtf8),
        Err(_) => Err(Refusal::Memory),
    }
}
