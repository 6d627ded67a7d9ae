//! What a test sees of a vector, of bytes or of a text.
use crate::calls::Row;
use crate::counting::Source;
use crate::model::Case;
use crate::states::State;
use crate::watched::Asks;
use ecow_list::{EcoError, EcoVec};
use std::alloc::{AllocError, Global};

/// A vector, bytes or a text. If a refused call doesn't give back what it got, its error here is
/// `Capacity`, which no call has otherwise.
pub trait Sequence: Clone + Drop {
    /// What elements are made from, besides memory.
    type Source: Source;

    /// What a call gets. It is made before the call.
    type Gift: Drop;

    /// What a call returns.
    type Out: Drop;

    /// The items of its block.
    type Item: Drop;

    /// The inline limit; `None` for vectors.
    fn limit() -> Option<usize> {
        None
    }

    fn is_text() -> bool {
        false
    }

    /// Whether clones of items can't be refused.
    fn is_plain() -> bool;

    /// What the tables of costs write before a call's name.
    fn owner(row: &Row) -> &'static str;

    /// The item at a place of a value in this state.
    fn letter(state: &State, place: usize) -> i64;

    /// The item at a place of what a call gets.
    fn given(row: &Row, place: usize) -> i64;

    fn made(alloc: Global, source: &Self::Source, state: &State) -> Result<Self, EcoError>;

    fn gift(alloc: Global, source: &Self::Source, row: &Row) -> Result<Self::Gift, AllocError>;

    /// Makes a call that changes, reads or consumes the value.
    fn change(&mut self, row: &Row, gift: &mut Self::Gift) -> Result<Self::Out, EcoError>;

    /// Makes another value from this one; `None` if the call makes a value of std's.
    fn derive(&self, row: &Row) -> Result<Option<Self>, EcoError>;

    /// Makes a value from what the call gets.
    fn make(row: &Row, gift: &mut Self::Gift) -> Result<Self, EcoError>;

    /// The length, the capacity, and whether the value is inline.
    fn size(&self) -> (usize, usize, bool);

    fn len(&self) -> usize {
        self.size().0
    }

    fn capacity(&self) -> usize {
        self.size().1
    }

    fn is_inline(&self) -> bool {
        self.size().2
    }

    fn item(&self, place: usize) -> Option<i64>;

    fn handed(out: &Self::Out, place: usize) -> Option<i64>;

    /// Takes the first and the last item of what a call returned, if that is an iterator.
    fn ends(out: &mut Self::Out) -> Option<(Option<i64>, Option<i64>)>;

    /// What the call asked its iterator for.
    fn asks(gift: &Self::Gift) -> &Asks;

    /// The block of the value; `None` if the value is inline.
    fn into_block(self) -> Option<EcoVec<Self::Item>>;
}

/// The model of a call on a value in a state.
pub fn case_of<V: Sequence>(row: &Row, state: &State) -> Case {
    Case {
        row: *row,
        state: *state,
        limit: V::limit(),
        is_text: V::is_text(),
        is_plain: V::is_plain(),
    }
}
