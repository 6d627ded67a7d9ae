//! `Fields`: values with names, in order.
ghost use Rattle.std.specs.Prelude.{◌≡◌, ◌≤◌, ◌<◌, [], length, slice_get, MatchOption, Some, position};
ghost use Rattle.ecow_nested.specs.Names.{has_name};

mod edits;
pub(crate) mod gaps;
pub(crate) mod index;

use crate::fields::gaps::{gaps_of, index_of_place, place_of_index};
use crate::fields::index::find_place;
use ecow_list::EcoVec;
use ecow_string::EcoString;
use std::alloc::{AllocError, Global};
use std::marker::Model;

/// A value with a name.
#[derive(Drop)]
pub struct Field<T> {
    pub name: EcoString,
    pub value: T,
}

/// A field, or the gap that a removed one left. The type is public because `Fields` holds it.
#[derive(Drop)]
pub struct Entry<T> {
    pub(crate) field: Option<Field<T>>,
    /// The places of two later entries, where the search for a name continues; 0 if there is none.
    pub(crate) left: usize,
    pub(crate) right: usize,
    /// Whether a later field has the same name.
    pub(crate) again: bool,
    /// In the first entry, the places of all gaps, in rising order.
    pub(crate) gaps: EcoVec<usize>,
}

/// Fields in order. If a name occurs twice, calls by that name mean the first field.
///
/// From 16 fields on, an index finds a name without looking at each field. There a removed field
/// leaves a gap. Once a quarter of the places are gaps, all are closed, and the index is made anew.
/// If a field is removed whose name comes again, the index is dropped, and calls look at each
/// field. After some more fields were appended, the index is made anew.
///
/// ```
/// let mut fields = Fields::new(alloc);
/// fields.push(EcoString::inline(alloc, "width"), Value::Number(3))?;
/// assert_eq!(fields.position("width"), Some(0));
/// ```
#[derive(Drop)]
pub struct Fields<T> {
    pub(crate) entries: EcoVec<Entry<T>>,
}

/// The number of fields from which on there is an index.
pub const INDEXED: usize = 16;

impl<T> Model for Fields<T> {
    ghost use Rattle.std.specs.Prelude.{List};
    ghost use Rattle.ecow_nested.specs.declared.fields.Field.{Field};
    ghost use Rattle.ecow_nested.specs.Index.{fields_in, IsFoundFrom, NotesGaps};

    ghost Value = { List (Field T) };

    ghost view = { λ a. fields_in a.entries };

    ghost invariant = { λ a. IsFoundFrom 16 a.entries × NotesGaps a.entries };
}

impl<T: Drop> Fields<T> {
    /// Makes empty fields. Takes no memory.
    // rust: const
    pub fn new(alloc: Global) -> Self
        ensures { result ≡ [] }
    {
        Fields {
            entries: EcoVec::new(alloc),
        }
    }

    /// The allocator that the memory comes from.
    pub fn allocator(&self) -> Global {
        self.entries.allocator()
    }

    /// The number of fields.
    pub fn len(&self) -> usize
        ensures { result ≡ length self.now }
    {
        let entries = self.entries.as_slice();
        entries.len() - gaps_of(entries).len()
    }

    /// The field at `index`; `None` if there are no more than `index` fields.
    pub fn get(&self, index: usize) -> Option<&Field<T>>
        ensures { MatchOption result (length self.now ≤ index)
            (λ field. (index < length self.now) × (slice_get self.now index ≡ Some field.now)) }
    {
        if index < self.len() {
            return Some(self.field_at(index));
        }
        None
    }
}

impl<T> Fields<T> {
    /// The field at `index`.
    pub fn field_at(&self, index: usize) -> &Field<T>
        requires { index < length self.now }
        ensures { slice_get self.now index ≡ Some result.now }
    {
        let entries = self.entries.as_slice();
        match &entries[place_of_index(entries, index)].field {
            Some(field) => field,
            None => unreachable!(),
        }
    }

    /// The index of the first field with this name.
    pub fn position(&self, name: &str) -> Option<usize>
        ensures { result ≡ position (has_name name.now) self.now }
    {
        let entries = self.entries.as_slice();
        match find_place(entries, name) {
            Some(place) => Some(index_of_place(entries, place)),
            None => None,
        }
    }
}

impl<T: Drop> Clone for Fields<T> {
    ghost is_clone = { λ fields copy. copy ≡ fields };

    fn clone(&self) -> Result<Self, AllocError> {
        Ok(Fields {
            entries: self.entries.clone()?,
        })
    }
}
