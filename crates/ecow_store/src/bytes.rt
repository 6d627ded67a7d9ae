//! Commands on bytes, carried out on handles. Each `match` is one table of the definitions.
ghost use Rattle.std.specs.Prelude.{⊤};
ghost use Rattle.ecow_model.specs.Bytes.{bytes_rules};
ghost use Rattle.ecow_model.proofs.Uses.{bytes_wraps};

use crate::answers::{answer_change, answer_given, answer_make, refusal_of};
use crate::kinds::ValueKind;
use crate::store::Stored;
use ecow_bytes::SmallBytes;
use ecow_list::EcoVec;
use ecow_model::bytes::{BytesAsk, BytesDerive, BytesEdit, BytesMake};
use ecow_model::usage::NewValue;
use ecow_model::value::Value;
use ecow_model::{Items, Outcome, Refusal};
use ecow_string::SmallText;
use std::alloc::{AllocError, Global};

/// The kind of bytes, which are inline or in a shared block.
pub(crate) struct BytesKind;

impl<T: Clone, const N: usize> ValueKind<T, Stored<T, N>> for BytesKind {
    type Payload = SmallBytes<N>;

    type Make = BytesMake;

    type Derive = BytesDerive;

    type Edit = BytesEdit;

    type Ask = BytesAsk;

    ghost rules = { bytes_rules N };

    ghost premise = { ⊤ };

    fn make(alloc: Global, how: BytesMake) -> Result<NewValue<SmallBytes<N>>, Refusal> {
        match how {
            BytesMake::New => Ok(NewValue::Always(SmallBytes::new(alloc))),
            BytesMake::TryInline(bytes) => {
                Ok(NewValue::Tried(SmallBytes::try_inline(alloc, bytes.as_slice())))
            }
            BytesMake::WithCapacity(capacity) => answer_make(SmallBytes::with_capacity(
                alloc, capacity,
            )),
            BytesMake::FromList(bytes) => answer_make(SmallBytes::from_slice(
                alloc,
                bytes.as_slice(),
            )),
            BytesMake::FromEcoVec(bytes) => match EcoVec::from_vec(alloc, bytes.into_vec()) {
                Ok(vec) => Ok(NewValue::Always(SmallBytes::from(vec))),
                Err(rejected) => Err(refusal_of(rejected.error)),
            },
        }
    }

    fn derive(
        _alloc: Global,
        how: BytesDerive,
        source: &Stored<T, N>,
    ) -> Result<SmallBytes<N>, Refusal> {
        match (how, source) {
            (BytesDerive::FromText, Value::Text(text)) => {
                let copy: Result<SmallText<N>, AllocError> = text.clone();
                match copy {
                    Ok(copy) => Ok(SmallBytes::from(copy)),
                    Err(_) => Err(Refusal::Memory),
                }
            }
            (BytesDerive::Clone, Value::Bytes(bytes)) => {
                let copy: Result<SmallBytes<N>, AllocError> = bytes.clone();
                match copy {
                    Ok(copy) => Ok(copy),
                    Err(_) => Err(Refusal::Memory),
                }
            }
            (BytesDerive::Repeat(count), Value::Bytes(bytes)) => match bytes.repeat(count) {
                Ok(copies) => Ok(copies),
                Err(error) => Err(refusal_of(error)),
            },
            (_, _) => Err(Refusal::Kind),
        }
    }

    #[tactic(auto, using(ecow_model::proofs::Lengths::edits, std::proofs::lemmas::Option::slice_get_cases))]
    fn edit(_alloc: Global, bytes: &mut SmallBytes<N>, edit: BytesEdit) -> Outcome<T> {
        if let Err(refusal) = edit.check::<T, N>(bytes.len()) {
            return Outcome::Refused(refusal);
        }
        match edit {
            BytesEdit::Push(byte) => answer_change(bytes.push(byte)),
            BytesEdit::Pop => answer_given!(PoppedByte, bytes.pop()),
            BytesEdit::Insert(index, byte) => answer_change(bytes.insert(index, byte)),
            BytesEdit::Remove(index) => answer_given!(Byte, bytes.remove(index)),
            BytesEdit::Extend(more) => answer_change(bytes.extend_from_slice(more.as_slice())),
            BytesEdit::InsertSlice(index, more) => {
                answer_change(bytes.insert_slice(index, more.as_slice()))
            }
            BytesEdit::Truncate(target) => answer_change(bytes.truncate(target)),
            BytesEdit::Clear => {
                bytes.clear();
                Outcome::Done
            }
            BytesEdit::Reserve(additional) => answer_change(bytes.reserve(additional)),
            BytesEdit::Write(index, byte) => answer_change(bytes.set(index, byte)),
            BytesEdit::ShrinkToFit => {
                bytes.shrink_to_fit();
                Outcome::Done
            }
        }
    }

    fn ask(alloc: Global, bytes: &mut SmallBytes<N>, question: BytesAsk) -> Outcome<T> {
        match question {
            BytesAsk::Read(index) => match bytes.as_slice().get(index) {
                Some(byte) => Outcome::Byte(*byte),
                None => Outcome::Refused(Refusal::Index),
            },
            BytesAsk::Len => Outcome::Count(bytes.len()),
            BytesAsk::Capacity => Outcome::Count(bytes.capacity()),
            BytesAsk::Contents => answer_given!(Bytes, Items::from_slice(alloc, bytes.as_slice())),
            BytesAsk::IsInline => Outcome::Flag(bytes.is_inline()),
        }
    }

    fn payload_mut(value: &mut Stored<T, N>) -> Result<&mut SmallBytes<N>, Refusal> {
        match value {
            Value::Vec(_) => Err(Refusal::Kind),
            Value::Bytes(bytes) => Ok(bytes),
            Value::Text(_) => Err(Refusal::Kind),
        }
    }

    fn wrap(bytes: SmallBytes<N>) -> Stored<T, N> {
        Value::Bytes(bytes)
    }

    ghost wraps = { bytes_wraps N };
}
