//! The calls of `SmallBytes`.
use crate::calls::{Call, Role, Row};
use crate::elements::{array_of, compare, error_if, expect, or_memory, or_put_back};
use crate::letters;
use crate::sequence::Sequence;
use crate::states::State;
use crate::watched::{Asks, Watched};
use ecow_bytes::SmallBytes;
use ecow_list::{EcoError, EcoVec, range_in};
use std::alloc::{AllocError, Global};
use std::io::Write;
use std::iter::Copied;
use std::{mem, slice};

/// The bytes that a call gets, in each form that some call takes.
#[derive(Drop)]
pub struct Gift {
    alloc: Global,
    bytes: Vec<u8>,
    list: EcoVec<u8>,
    asks: Asks,
}

impl Gift {
    /// An iterator over the bytes.
    fn items(&self) -> Watched<'_, Copied<slice::Iter<'_, u8>>> {
        self.asks.of(self.bytes.as_slice().iter().copied())
    }
}

/// A block of the given capacity that holds the letters.
pub(crate) fn block_of(
    alloc: Global,
    letters: &[u8],
    capacity: usize,
) -> Result<EcoVec<u8>, EcoError> {
    let mut list = EcoVec::with_capacity(alloc, capacity)?;
    list.extend_from_slice(letters)?;
    Ok(list)
}

fn read<const N: usize>(value: &SmallBytes<N>) {
    let _seen = value.as_slice().len() == value.len() && value.is_empty();
    let _capacity = value.capacity() > 0 && value.is_inline();
    compare(value, value);
}

/// Makes a call that removes bytes.
fn take<const N: usize>(value: &mut SmallBytes<N>, row: &Row) -> Result<Option<u8>, EcoError> {
    let start = row.start_in(value.len());
    match row.call {
        Call::Pop => value.pop(),
        Call::Remove if start < value.len() => value.remove(start).map(|byte| Some(byte)),
        _ => Err(EcoError::Capacity),
    }
}

/// Makes a call that adds no bytes.
fn settle<const N: usize>(value: &mut SmallBytes<N>, row: &Row) -> Result<(), EcoError> {
    match row.call {
        Call::Truncate => value.truncate(row.count)?,
        Call::Reserve => value.reserve(row.count)?,
        Call::MakeMut => value.make_mut()?.reverse(),
        Call::Rewrite => value.rewrite(|bytes| {
            bytes.reverse();
            row.count
        })?,
        Call::Clear => value.clear(),
        Call::ShrinkToFit => value.shrink_to_fit(),
        Call::Read => read(value),
        _ => return Err(EcoError::Capacity),
    }
    Ok(())
}

/// Makes a call that adds a byte.
fn put<const N: usize>(value: &mut SmallBytes<N>, row: &Row, byte: u8) -> Result<(), EcoError> {
    let start = row.start_in(value.len());
    match row.call {
        Call::Push => value.push(byte),
        Call::PushReserved => {
            value.reserve(1)?;
            value.push(byte)
        }
        Call::Insert if start <= value.len() => value.insert(start, byte),
        Call::Set if start < value.len() => value.set(start, byte),
        _ => Err(EcoError::Capacity),
    }
}

/// Makes a call that adds bytes of a slice.
fn add<const N: usize>(value: &mut SmallBytes<N>, row: &Row, bytes: &[u8]) -> Result<(), EcoError> {
    let (start, end) = (row.start_in(value.len()), row.end_in(value.len()));
    match row.call {
        Call::ExtendFromSlice => value.extend_from_slice(bytes),
        Call::InsertSlice if start <= value.len() => value.insert_slice(start, bytes),
        Call::ReplaceRange if range_in(&(start..end), value.len()) => {
            value.replace_range(start..end, bytes)
        }
        Call::Write => {
            let count = value.write(bytes).map_err(|_| EcoError::Memory)?;
            expect(count == bytes.len())
        }
        _ => Err(EcoError::Capacity),
    }
}

/// Turns the value into a vector and back into bytes. If that is refused, the value is unchanged.
fn give<const N: usize>(value: &mut SmallBytes<N>, alloc: Global) -> Result<(), EcoError> {
    let whole = mem::replace(value, SmallBytes::new(alloc));
    *value = SmallBytes::from(or_put_back(value, whole.into_eco_vec())?);
    Ok(())
}

/// Bytes made of an array of 16, 1000 or `N` bytes.
fn from_array<const N: usize>(alloc: Global, bytes: Vec<u8>) -> Result<SmallBytes<N>, EcoError> {
    match bytes.len() {
        16 => SmallBytes::from_array(alloc, array_of::<u8, 16>(bytes)?),
        1000 => SmallBytes::from_array(alloc, array_of::<u8, 1000>(bytes)?),
        _ => SmallBytes::from_array(alloc, array_of::<u8, N>(bytes)?),
    }
}

impl<const N: usize> Sequence for SmallBytes<N> {
    type Source = ();

    type Gift = Gift;

    type Out = Option<u8>;

    type Item = u8;

    fn limit() -> Option<usize> {
        Some(N)
    }

    fn is_text() -> bool {
        false
    }

    fn is_plain() -> bool {
        true
    }

    fn letter(state: &State, place: usize) -> i64 {
        i64::from(letters::letter(false, state, place))
    }

    fn given(row: &Row, place: usize) -> i64 {
        i64::from(letters::given(false, row, place))
    }

    fn ends(_out: &mut Option<u8>) -> Option<(Option<i64>, Option<i64>)> {
        None
    }

    fn owner(row: &Row) -> &'static str {
        match row.role() {
            Role::Make if N == 15 => "EcoBytes",
            Role::Make => "SmallBytes",
            _ => "b.",
        }
    }

    fn made(alloc: Global, _source: &(), state: &State) -> Result<Self, EcoError> {
        let letters = letters::letters(alloc, false, state)?;
        match state.capacity {
            None => SmallBytes::from_slice(alloc, letters.as_slice()),
            Some(capacity) => Ok(SmallBytes::from(block_of(alloc, letters.as_slice(), capacity)?)),
        }
    }

    fn gift(alloc: Global, _source: &(), row: &Row) -> Result<Gift, AllocError> {
        let bytes = letters::gift(alloc, false, row)?;
        let mut list = EcoVec::new(alloc);
        if row.call == Call::FromEcoVec && list.extend_from_slice(bytes.as_slice()).is_err() {
            return Err(AllocError);
        }
        Ok(Gift {
            alloc,
            bytes,
            list,
            asks: Asks::new(),
        })
    }

    fn change(&mut self, row: &Row, gift: &mut Gift) -> Result<Option<u8>, EcoError> {
        match row.call {
            Call::Push | Call::PushReserved | Call::Insert | Call::Set => {
                let byte = gift.bytes.as_slice().first().copied();
                put(self, row, byte.ok_or(EcoError::Capacity)?)?
            }
            Call::ExtendFromSlice | Call::InsertSlice | Call::ReplaceRange | Call::Write => {
                add(self, row, gift.bytes.as_slice())?
            }
            Call::Extend => self.extend(gift.items())?,
            Call::Pop | Call::Remove => return take(self, row),
            Call::IntoEcoVec => give(self, gift.alloc)?,
            _ => settle(self, row)?,
        }
        Ok(None)
    }

    fn derive(&self, row: &Row) -> Result<Option<Self>, EcoError> {
        match row.call {
            Call::ToStd => {
                let copy = self.to_vec()?;
                expect(copy.as_slice() == self.as_slice() && copy.capacity() == copy.len())?;
                Ok(None)
            }
            Call::Repeat => self.repeat(row.count).map(|copy| Some(copy)),
            _ => or_memory(self.clone()).map(|copy| Some(copy)),
        }
    }

    fn make(row: &Row, gift: &mut Gift) -> Result<Self, EcoError> {
        let alloc = gift.alloc;
        match row.call {
            Call::Inline if gift.bytes.len() <= N => {
                Ok(SmallBytes::inline(alloc, gift.bytes.as_slice()))
            }
            Call::TryInline => {
                SmallBytes::try_inline(alloc, gift.bytes.as_slice()).ok_or(EcoError::Capacity)
            }
            Call::WithCapacity => SmallBytes::with_capacity(alloc, row.count),
            Call::FromSlice => SmallBytes::from_slice(alloc, gift.bytes.as_slice()),
            Call::FromArray => from_array(alloc, mem::replace(&mut gift.bytes, Vec::new(alloc))),
            Call::FromVec => {
                let bytes = mem::replace(&mut gift.bytes, Vec::new(alloc));
                SmallBytes::from_vec(alloc, bytes).map_err(|rejected| error_if(
                    rejected.value.len() == row.count,
                    rejected.error,
                ))
            }
            Call::FromIter => SmallBytes::from_iter(alloc, gift.items()),
            Call::Collect => or_memory(gift.items().collect(alloc)),
            Call::FromEcoVec => {
                Ok(SmallBytes::from(mem::replace(&mut gift.list, EcoVec::new(alloc))))
            }
            _ => Ok(SmallBytes::new(alloc)),
        }
    }

    fn size(&self) -> (usize, usize, bool) {
        (self.len(), self.capacity(), self.is_inline())
    }

    fn item(&self, place: usize) -> Option<i64> {
        self.as_slice().get(place).map(|byte| i64::from(*byte))
    }

    fn handed(out: &Option<u8>, place: usize) -> Option<i64> {
        out.filter(|_| place == 0).map(|byte| i64::from(byte))
    }

    fn asks(gift: &Gift) -> &Asks {
        &gift.asks
    }

    fn into_block(self) -> Option<EcoVec<u8>> {
        if self.is_inline() {
            return None;
        }
        self.into_eco_vec().ok()
    }
}
