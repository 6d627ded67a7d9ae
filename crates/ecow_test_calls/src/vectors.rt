//! The calls of `EcoVec`.
use crate::calls::{Call, Role, Row};
use crate::elements::{Element, error_if, expect, or_memory, or_put_back};
use crate::sequence::Sequence;
use crate::states::State;
use crate::watched::Asks;
use ecow_list::{Drain, EcoError, EcoVec, IntoArray, IntoIter, Rejected, Splice, range_in};
use std::alloc::{AllocError, Global};
use std::{mem, vec};

/// What a call gets: elements, or an iterator over elements.
#[derive(Drop)]
pub struct Gift<T> {
    alloc: Global,
    elements: Vec<T>,
    items: vec::IntoIter<T>,
    asks: Asks,
}

impl<T: Drop> Gift<T> {
    /// Takes all elements out.
    fn take(&mut self) -> Vec<T> {
        mem::replace(&mut self.elements, Vec::new(self.alloc))
    }
}

/// What a call returns.
#[derive(Drop)]
pub enum Out<T: Element> {
    Nothing,
    One(T),
    Split(EcoVec<T>),
    Drained(Drain<T>),
    Spliced(Splice<T>),
    All(Vec<T>),
    Rest(IntoIter<T>),
    Array(T::Array),
}

type Outcome<T> = Result<Out<T>, EcoError>;

fn nothing<T: Element>(done: Result<(), EcoError>) -> Outcome<T> {
    done?;
    Ok(Out::Nothing)
}

/// How many elements a call gets.
fn gift_len(row: &Row) -> usize {
    match row.call {
        Call::Push | Call::PushReserved | Call::Insert | Call::Set | Call::Update | Call::Extend =>
            { row.count.saturating_mul(row.times) }
        Call::Truncate | Call::Reserve | Call::OwnWithRoom => 0,
        Call::WithCapacity | Call::Rewrite => 0,
        Call::FromElem | Call::Fill | Call::Resize => 1,
        _ => row.count,
    }
}

fn number_at(place: usize) -> i64 {
    i64::try_from(place).unwrap_or(0)
}

/// The number of the first element that a call gets.
const FIRST_GIVEN: i64 = 91;

fn elements<T: Element>(
    alloc: Global,
    source: &T::Source,
    first: i64,
    len: usize,
) -> Result<Vec<T>, AllocError> {
    let mut elements = Vec::new(alloc);
    for place in 0..len {
        elements.push(T::of(alloc, source, first.wrapping_add(number_at(place)))?)?;
    }
    Ok(elements)
}

fn is_first_given<T: Element>(element: &T) -> bool {
    element.number() == T::shown(FIRST_GIVEN)
}

/// The error of a refused call, which must give its element back.
fn error_of_one<T: Element>(rejected: Rejected<T>) -> EcoError {
    error_if(is_first_given(&rejected.value), rejected.error)
}

/// The error of a refused call, which must give its elements back.
fn error_of_all<T: Element>(rejected: Rejected<Vec<T>>, row: &Row) -> EcoError {
    let back = rejected.value.as_slice();
    let is_first = back.first().is_none_or(|first| is_first_given(first));
    error_if(back.len() == row.count && is_first, rejected.error)
}

fn returned<T: Element>(put: Result<(), Rejected<T>>) -> Outcome<T> {
    nothing(put.map_err(|rejected| error_of_one(rejected)))
}

/// Makes a call that gets an element.
fn put<T: Element>(list: &mut EcoVec<T>, row: &Row, value: T) -> Outcome<T> {
    let start = row.start_in(list.len());
    match row.call {
        Call::PushReserved => {
            list.reserve(1)?;
            returned(list.push(value))
        }
        Call::Insert if start <= list.len() => returned(list.insert(start, value)),
        Call::Set if start < list.len() => returned(list.set(start, value)),
        Call::Update if start < list.len() => {
            let old = list.update(start, |place| mem::replace(place, value))?;
            Ok(Out::One(old))
        }
        Call::Push => returned(list.push(value)),
        Call::Fill => returned(list.fill(value)),
        Call::Resize => returned(list.resize(row.count, value)),
        _ => Err(EcoError::Capacity),
    }
}

/// Removes the elements of a range by `retain`, whose closure must see each element once, and none
/// if the call is refused.
fn retain<T: Element>(list: &mut EcoVec<T>, row: &Row) -> Result<(), EcoError> {
    let (len, mut place) = (list.len(), 0usize);
    let done = list.retain(|_| {
        let is_kept = place < row.start || place >= row.end;
        place = place.wrapping_add(1);
        is_kept
    });
    let given = if done.is_ok() { len } else { 0 };
    expect(place == given)?;
    done
}

fn own_and_reverse<T: Element>(list: &mut EcoVec<T>) -> Result<(), EcoError> {
    match list.own_mut().map(|block| block.as_mut_slice().reverse()) {
        Err(Some(error)) => Err(error),
        _ => Ok(()),
    }
}

/// Swaps the first and the last element of a range.
fn swap<T: Element>(list: &mut EcoVec<T>, row: &Row) -> Result<(), EcoError> {
    let (start, end) = (row.start_in(list.len()), row.end_in(list.len()));
    if start < end && end <= list.len() {
        return list.swap(start, end - 1);
    }
    Err(EcoError::Capacity)
}

/// Appends given elements, which must be gone from their own vector, or still there if the call is
/// refused.
fn append<T: Element>(list: &mut EcoVec<T>, alloc: Global, given: Vec<T>) -> Outcome<T> {
    let mut other = EcoVec::from_vec(alloc, given).map_err(|_| EcoError::Memory)?;
    let count = other.len();
    let done = list.append(&mut other);
    expect(other.len() == if done.is_ok() { 0 } else { count })?;
    nothing(done)
}

/// Makes a call that takes no element and returns none. `given` is for calls that copy elements.
fn settle<T: Element>(list: &mut EcoVec<T>, row: &Row, given: &[T]) -> Result<(), EcoError> {
    match row.call {
        Call::ExtendFromSlice => list.extend_from_slice(given)?,
        Call::Truncate => list.truncate(row.count)?,
        Call::Clear => list.clear(),
        Call::Retain => retain(list, row)?,
        Call::Swap => swap(list, row)?,
        Call::SortBy => list.sort_by(|a, b| b.number().cmp(&a.number()))?,
        Call::Reserve => list.reserve(row.count)?,
        Call::MakeMut => list.make_mut()?.reverse(),
        Call::OwnMut => own_and_reverse(list)?,
        Call::OwnWithRoom => list.own_with_room(row.count)?.as_mut_slice().reverse(),
        Call::Read => {
            let _seen = list.as_slice().len() == list.iter().count() && list.is_empty();
            let _capacity = list.capacity() > 0 && list.is_unique();
        }
        _ => T::copy(list, row, given)?,
    }
    Ok(())
}

/// Makes a call that returns what it removes.
fn take<T: Element>(list: &mut EcoVec<T>, row: &Row, gift: &mut Gift<T>) -> Outcome<T> {
    let (start, end) = (row.start_in(list.len()), row.end_in(list.len()));
    match row.call {
        Call::Pop => match list.pop()? {
            Some(last) => Ok(Out::One(last)),
            None => Ok(Out::Nothing),
        },
        Call::Remove if start < list.len() => Ok(Out::One(list.remove(start)?)),
        Call::Drain if range_in(&(start..end), list.len()) => {
            Ok(Out::Drained(list.drain(start..end)?))
        }
        Call::SplitOff if start <= list.len() => Ok(Out::Split(list.split_off(start)?)),
        Call::Splice if range_in(&(start..end), list.len()) => {
            let items = gift.asks.of(gift.items.by_ref().take(row.count));
            Ok(Out::Spliced(list.splice(start..end, items)?))
        }
        _ => Err(EcoError::Capacity),
    }
}

/// Makes a call that consumes the vector. If it is refused, the vector is unchanged.
fn give<T: Element>(list: &mut EcoVec<T>, row: &Row, alloc: Global) -> Outcome<T> {
    let whole = mem::replace(list, EcoVec::new(alloc));
    match row.call {
        Call::IntoVec => {
            let all = or_put_back(list, whole.into_vec())?;
            expect(all.capacity() == all.len())?;
            Ok(Out::All(all))
        }
        Call::IntoIter => Ok(Out::Rest(or_put_back(list, whole.into_iter())?)),
        Call::IntoArray | Call::IntoOtherArray => give_array(list, row, T::into_array(whole)),
        _ => {
            drop(whole);
            Ok(Out::Nothing)
        }
    }
}

/// Sees that an array was made, or that the vector came back if its length is another.
fn give_array<T: Element>(
    list: &mut EcoVec<T>,
    row: &Row,
    array: Result<T::Array, IntoArray<T>>,
) -> Outcome<T> {
    match array {
        Ok(array) if row.call == Call::IntoArray => Ok(Out::Array(array)),
        Err(IntoArray::Refused(error, back)) if row.call == Call::IntoArray => {
            *list = back;
            Err(error)
        }
        Err(IntoArray::Length(back)) if row.call == Call::IntoOtherArray => {
            *list = back;
            Ok(Out::Nothing)
        }
        _ => Err(EcoError::Capacity),
    }
}

impl<T: Element> Sequence for EcoVec<T> {
    type Source = T::Source;

    type Gift = Gift<T>;

    type Out = Out<T>;

    type Item = T;

    fn is_plain() -> bool {
        T::is_plain()
    }

    fn owner(row: &Row) -> &'static str {
        match row.role() {
            Role::Make if row.call != Call::Collect => "EcoVec",
            _ => "",
        }
    }

    fn letter(_state: &State, place: usize) -> i64 {
        T::shown(number_at(place).wrapping_add(1))
    }

    fn given(_row: &Row, place: usize) -> i64 {
        T::shown(number_at(place).wrapping_add(FIRST_GIVEN))
    }

    fn made(alloc: Global, source: &T::Source, state: &State) -> Result<Self, EcoError> {
        let elements = elements(alloc, source, 1, state.len)?;
        let mut list = EcoVec::with_capacity(alloc, state.capacity.unwrap_or(0))?;
        list.extend(elements)?;
        Ok(list)
    }

    fn gift(alloc: Global, source: &T::Source, row: &Row) -> Result<Gift<T>, AllocError> {
        let elements = elements(alloc, source, FIRST_GIVEN, gift_len(row))?;
        let (elements, items) = if row.items().is_some() {
            (Vec::new(alloc), elements)
        } else {
            (elements, Vec::new(alloc))
        };
        Ok(Gift {
            alloc,
            elements,
            items: items.into_iter(),
            asks: Asks::new(),
        })
    }

    fn change(&mut self, row: &Row, gift: &mut Gift<T>) -> Outcome<T> {
        match row.call {
            Call::Push
            | Call::PushReserved
            | Call::Insert
            | Call::Set
            | Call::Update
            | Call::Fill
            | Call::Resize => { put(self, row, gift.elements.pop().ok_or(EcoError::Capacity)?) }
            Call::Extend => {
                let items = gift.items.by_ref().take(row.count);
                nothing(self.extend(gift.asks.of(items)))
            }
            Call::Append => append(self, gift.alloc, gift.take()),
            Call::Pop | Call::Remove | Call::Drain | Call::Splice | Call::SplitOff => {
                take(self, row, gift)
            }
            Call::IntoOtherArray => give(self, row, gift.alloc),
            _ if row.gives_away() => give(self, row, gift.alloc),
            _ => nothing(settle(self, row, gift.elements.as_slice())),
        }
    }

    fn derive(&self, _row: &Row) -> Result<Option<Self>, EcoError> {
        or_memory(self.clone()).map(|twin| Some(twin))
    }

    fn make(row: &Row, gift: &mut Gift<T>) -> Result<Self, EcoError> {
        let alloc = gift.alloc;
        match row.call {
            Call::WithCapacity => EcoVec::with_capacity(alloc, row.count),
            Call::FromVec => {
                EcoVec::from_vec(alloc, gift.take()).map_err(|rejected| error_of_all(rejected, row))
            }
            Call::FromArray => T::from_array(alloc, gift.take()),
            Call::FromSlice => EcoVec::from_slice(alloc, gift.elements.as_slice()),
            Call::FromCopied => T::from_copied(alloc, gift.elements.as_slice()),
            Call::FromElem => {
                let value = gift.elements.pop().ok_or(EcoError::Capacity)?;
                EcoVec::from_elem(alloc, value, row.count).map_err(|back| error_of_one(back))
            }
            Call::FromIter => EcoVec::from_iter(alloc, gift.asks.of(gift.items.by_ref())),
            Call::Collect => or_memory(gift.asks.of(gift.items.by_ref()).collect(alloc)),
            _ => Ok(EcoVec::new(alloc)),
        }
    }

    fn size(&self) -> (usize, usize, bool) {
        (EcoVec::len(self), EcoVec::capacity(self), false)
    }

    fn item(&self, place: usize) -> Option<i64> {
        self.as_slice().get(place).map(|element| element.number())
    }

    fn handed(out: &Out<T>, place: usize) -> Option<i64> {
        let handed = match out {
            Out::Nothing => None,
            Out::One(one) => return (place == 0).then_some(one.number()),
            Out::Split(rest) => rest.as_slice().get(place),
            Out::Drained(rest) => rest.as_slice().get(place),
            Out::Spliced(rest) => rest.as_slice().get(place),
            Out::All(all) => all.as_slice().get(place),
            Out::Rest(rest) => rest.as_slice().get(place),
            Out::Array(array) => return T::in_array(array, place),
        };
        handed.map(|element| element.number())
    }

    fn ends(out: &mut Out<T>) -> Option<(Option<i64>, Option<i64>)> {
        let (first, last) = match out {
            Out::Drained(rest) => (rest.next(), rest.next_back()),
            Out::Spliced(rest) => (rest.next(), rest.next_back()),
            Out::Rest(rest) => (rest.next(), rest.next_back()),
            _ => return None,
        };
        let (first, last) = (first.map(|one| one.number()), last.map(|one| one.number()));
        Some((first, last))
    }

    fn asks(gift: &Gift<T>) -> &Asks {
        &gift.asks
    }

    fn into_block(self) -> Option<Self> {
        Some(self)
    }
}
