//! Elements of vectors: numbers, bytes, elements whose clones take memory, and elements that count
//! their clones.
use crate::calls::{Call, Row};
use crate::counting::{Counting, Source, Tally};
use ecow_list::{EcoError, EcoVec, IntoArray, Rejected, range_in};
use std::alloc::{AllocError, Global};
use std::hash::{DefaultHasher, Hash};
use std::io::Write;

/// An element that has a number, by which tests tell it from others.
pub trait Element: Clone + Drop {
    /// What elements are made from, besides memory.
    type Source: Source;

    /// An array of 5 or of 1000 elements. Only some elements are tried in arrays.
    type Array: Drop;

    fn of(alloc: Global, source: &Self::Source, number: i64) -> Result<Self, AllocError>;

    fn number(&self) -> i64;

    /// The number that an element has which is made from `number`.
    fn shown(number: i64) -> i64 {
        number
    }

    /// Whether a clone takes no memory.
    fn is_plain() -> bool {
        true
    }

    fn into_array(list: EcoVec<Self>) -> Result<Self::Array, IntoArray<Self>> {
        Err(IntoArray::Length(list))
    }

    fn in_array(_array: &Self::Array, _place: usize) -> Option<i64> {
        None
    }

    fn from_array(_alloc: Global, _elements: Vec<Self>) -> Result<EcoVec<Self>, EcoError> {
        Err(EcoError::Capacity)
    }

    /// Makes a vector by a call that copies elements as plain memory.
    fn from_copied(_alloc: Global, _elements: &[Self]) -> Result<EcoVec<Self>, EcoError> {
        Err(EcoError::Capacity)
    }

    /// Makes a call that copies elements as plain memory, or that compares them.
    fn copy(_list: &mut EcoVec<Self>, _row: &Row, _given: &[Self]) -> Result<(), EcoError> {
        Err(EcoError::Capacity)
    }
}

/// Why a value came back. The value is dropped.
pub fn error_of<V: Drop>(rejected: Rejected<V>) -> EcoError {
    rejected.error
}

/// The result of a call that only a lack of memory refuses.
pub fn or_memory<V>(value: Result<V, AllocError>) -> Result<V, EcoError> {
    value.map_err(|error| error.into())
}

/// Fails with an error that no call has otherwise, unless what a test sees `is_right`.
pub fn expect(is_right: bool) -> Result<(), EcoError> {
    is_right.then_some(()).ok_or(EcoError::Capacity)
}

/// The error of a refused call, if the call gave back what it got.
pub fn error_if(gave_back: bool, error: EcoError) -> EcoError {
    if gave_back { error } else { EcoError::Capacity }
}

/// What a call made of the value that was at `place`. If it is refused, the value is put back.
pub fn or_put_back<V: Drop, O>(place: &mut V, made: Result<O, Rejected<V>>) -> Result<O, EcoError> {
    match made {
        Ok(made) => Ok(made),
        Err(rejected) => {
            *place = rejected.value;
            Err(rejected.error)
        }
    }
}

/// Compares two values, and hashes one.
pub fn compare<V: Ord + Hash>(value: &V, other: &V) {
    let _equal = value == other;
    let _order = value.cmp(other);
    let mut hasher = DefaultHasher::new();
    value.hash(&mut hasher);
}

/// Makes a call that copies the elements of a slice as plain memory, or sorts those of the vector.
fn copied<T: Copy + Ord>(list: &mut EcoVec<T>, row: &Row, given: &[T]) -> Result<(), EcoError> {
    let (start, end) = (row.start_in(list.len()), row.end_in(list.len()));
    match row.call {
        Call::Sort => {
            list.make_mut()?.reverse();
            list.sort()
        }
        Call::Dedup => list.dedup(),
        Call::ExtendFromCopied => list.extend_from_copied(given),
        Call::InsertSlice if start <= list.len() => list.insert_slice(start, given),
        Call::ExtendFromWithin if range_in(&(start..end), list.len()) => {
            list.extend_from_within(start..end)
        }
        Call::ReplaceRange if range_in(&(start..end), list.len()) => {
            list.replace_range(start..end, given)
        }
        _ => Err(EcoError::Capacity),
    }
}

/// Numbers, and elements made of a number, that are copied as plain memory.
pub trait Plain: Copy + Ord {
    fn of_number(number: i64) -> Self;

    fn as_number(&self) -> i64;

    /// Makes a call that copies elements, or that compares them.
    fn copy_plain(list: &mut EcoVec<Self>, row: &Row, given: &[Self]) -> Result<(), EcoError> {
        copied(list, row, given)
    }
}

impl<T: Plain> Element for T {
    type Source = ();

    type Array = ();

    fn of(_alloc: Global, _source: &(), number: i64) -> Result<Self, AllocError> {
        Ok(T::of_number(number))
    }

    fn number(&self) -> i64 {
        self.as_number()
    }

    fn shown(number: i64) -> i64 {
        T::of_number(number).as_number()
    }

    fn from_copied(alloc: Global, elements: &[Self]) -> Result<EcoVec<Self>, EcoError> {
        EcoVec::from_copied(alloc, elements)
    }

    fn copy(list: &mut EcoVec<Self>, row: &Row, given: &[Self]) -> Result<(), EcoError> {
        T::copy_plain(list, row, given)
    }
}

impl Plain for () {
    fn of_number(_number: i64) -> Self {}

    fn as_number(&self) -> i64 {
        0
    }
}

impl Plain for u32 {
    fn of_number(number: i64) -> Self {
        u32::try_from(number).unwrap_or(0)
    }

    fn as_number(&self) -> i64 {
        i64::from(*self)
    }
}

impl Plain for i64 {
    fn of_number(number: i64) -> Self {
        number
    }

    fn as_number(&self) -> i64 {
        *self
    }
}

impl Plain for [i64; 13] {
    fn of_number(number: i64) -> Self {
        [number; 13]
    }

    fn as_number(&self) -> i64 {
        self[12]
    }
}

impl Plain for u8 {
    fn of_number(number: i64) -> Self {
        u8::try_from(number.wrapping_rem(256)).unwrap_or(0)
    }

    fn as_number(&self) -> i64 {
        i64::from(*self)
    }

    fn copy_plain(list: &mut EcoVec<u8>, row: &Row, given: &[u8]) -> Result<(), EcoError> {
        match row.call {
            Call::Compare => {
                compare(list, list);
                Ok(())
            }
            Call::Write => {
                let count = list.write(given).map_err(|_| EcoError::Memory)?;
                expect(count == given.len())
            }
            _ => copied(list, row, given),
        }
    }
}

/// A number with a name. Its clone takes memory, since it clones the name.
#[derive(Clone, Drop)]
pub struct Named {
    number: i64,
    name: String,
}

impl Element for Named {
    type Source = ();

    type Array = [Named; 5];

    fn of(alloc: Global, _source: &(), number: i64) -> Result<Self, AllocError> {
        Ok(Named {
            number,
            name: String::from_str(alloc, "an element")?,
        })
    }

    fn number(&self) -> i64 {
        if self.name.as_str() == "an element" {
            self.number
        } else {
            -1
        }
    }

    fn is_plain() -> bool {
        false
    }

    fn into_array(list: EcoVec<Named>) -> Result<[Named; 5], IntoArray<Named>> {
        list.into_array::<5>()
    }

    fn in_array(array: &[Named; 5], place: usize) -> Option<i64> {
        array.get(place).map(|element| element.number())
    }

    fn from_array(alloc: Global, elements: Vec<Named>) -> Result<EcoVec<Named>, EcoError> {
        match elements.len() {
            0 => EcoVec::from_array(alloc, []).map_err(error_of),
            _ => EcoVec::from_array(alloc, array_of::<Named, 5>(elements)?).map_err(error_of),
        }
    }
}

/// The arrays of `Counting` that a test makes.
#[derive(Drop)]
pub enum CountingArray {
    Few([Counting; 5]),
    Many([Counting; 1000]),
}

/// An element of 72 bytes that counts its clones and its drop.
#[derive(Clone, Drop)]
pub struct Wide {
    counting: Counting,
    _rest: [u64; 7],
}

impl Element for Wide {
    type Source = Tally;

    type Array = ();

    fn of(_alloc: Global, tally: &Tally, number: i64) -> Result<Self, AllocError> {
        Ok(Wide {
            counting: tally.numbered(number)?,
            _rest: [0; 7],
        })
    }

    fn number(&self) -> i64 {
        self.counting.number
    }

    fn is_plain() -> bool {
        false
    }
}

impl Element for Counting {
    type Source = Tally;

    type Array = CountingArray;

    fn of(_alloc: Global, tally: &Tally, number: i64) -> Result<Self, AllocError> {
        tally.numbered(number)
    }

    fn number(&self) -> i64 {
        self.number
    }

    fn is_plain() -> bool {
        false
    }

    fn into_array(list: EcoVec<Counting>) -> Result<CountingArray, IntoArray<Counting>> {
        if list.len() == 5 {
            return list
                .into_array::<5>()
                .map(|array| CountingArray::Few(array));
        }
        list.into_array::<1000>()
            .map(|array| CountingArray::Many(array))
    }

    fn in_array(array: &CountingArray, place: usize) -> Option<i64> {
        let element = match array {
            CountingArray::Few(few) => few.get(place),
            CountingArray::Many(many) => many.get(place),
        };
        element.map(|element| element.number)
    }

    fn from_array(alloc: Global, elements: Vec<Counting>) -> Result<EcoVec<Counting>, EcoError> {
        match elements.len() {
            0 => EcoVec::from_array(alloc, []).map_err(error_of),
            5 => EcoVec::from_array(alloc, array_of::<Counting, 5>(elements)?).map_err(error_of),
            _ => EcoVec::from_array(alloc, array_of::<Counting, 1000>(elements)?).map_err(error_of),
        }
    }
}

/// These elements as an array, if there are `N`.
pub fn array_of<T: Drop, const N: usize>(elements: Vec<T>) -> Result<[T; N], EcoError> {
    elements.try_into().map_err(|_| EcoError::Capacity)
}
