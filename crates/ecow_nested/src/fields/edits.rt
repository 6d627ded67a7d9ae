//! Edits of fields by their index. A refused call changes nothing.
ghost use Rattle.std.specs.Prelude.{◌≡◌, ◌<◌, ◌∷◌, ◌++◌, [], length, map, remove, slice_get, IfErr, IfOk, OnErr, OnOk, Some};
ghost use Rattle.ecow_nested.specs.Index.{fields_in, gaps_from, slots_in, IsFoundFrom, IsPlaceOf, NotesGaps};
ghost use Rattle.ecow_nested.specs.Depths.{largest};
ghost use Rattle.ecow_nested.specs.Values.{deepest_field, slot_depth};
ghost use Rattle.ecow_nested.specs.Names.{named, Revalues};

use crate::fields::gaps::{clear_gaps, gaps_of, note_gap, place_of_index};
use crate::fields::index::{drop_index, include_last, index_from, lacks_index};
use crate::fields::{Entry, Field, Fields, INDEXED};
use crate::value::Value;
use ecow_block::Block;
use ecow_list::{EcoError, EcoVec};
use ecow_string::EcoString;
use std::alloc::{AllocError, Global};
use std::mem::replace;

impl Clone for Entry<Value> {
    ghost is_clone = { λ entry copy. copy ≡ entry };

    fn clone(&self) -> Result<Self, AllocError> {
        Ok(Entry {
            field: match &self.field {
                Some(field) => Some(Field {
                    name: field.name.clone()?,
                    value: field.value.clone()?,
                }),
                None => None,
            },
            left: self.left,
            right: self.right,
            again: self.again,
            gaps: self.gaps.clone()?,
        })
    }
}

/// Removes the entry at `index` from a block without gaps, and drops the index of names.
fn take_out<T: Drop>(block: &mut Block<Entry<T>>, index: usize, alloc: Global) -> Field<T>
    requires within { index < length (fields_in block.old.items) }
    requires whole { gaps_from 0 (slots_in block.old.items) ≡ [] }
    ensures value { slice_get (fields_in block.old.items) index ≡ Some result }
    ensures fields { fields_in block.new.items ≡ remove (fields_in block.old.items) index }
    ensures found { IsFoundFrom INDEXED block.new.items }
    ensures noted { NotesGaps block.new.items }
{
    let Entry { field, .. } = block.remove(index);
    let entries = block.as_mut_slice();
    drop_index(entries);
    clear_gaps(entries, alloc);
    match field {
        Some(field) => field,
        None => unreachable!(),
    }
}

/// Takes the field out of the entry at `place`, which becomes a gap. A refused call changes
/// nothing.
fn leave_gap<T>(
    entries: &mut [Entry<T>],
    index: usize,
    place: usize,
) -> Result<Field<T>, AllocError>
    requires place { IsPlaceOf entries.old index place }
    requires within { place < length entries.old }
    requires noted { NotesGaps entries.old }
    requires found { IsFoundFrom INDEXED entries.old }
    ensures value { IfOk result
        (λ field. slice_get (fields_in entries.old) index ≡ Some field) }
    ensures fields { OnOk result (fields_in entries.new ≡ remove (fields_in entries.old) index) }
    ensures noted { OnOk result (NotesGaps entries.new) }
    ensures found { OnOk result (IsFoundFrom INDEXED entries.new) }
    ensures unchanged { OnErr result (entries.new ≡ entries.old) }
    ensures len { length entries.new ≡ length entries.old }
{
    note_gap(entries, place - index, place)?;
    let entry = &mut entries[place];
    let field = entry.field.take();
    if entry.again {
        drop_index(entries);
    }
    match field {
        Some(field) => Ok(field),
        None => unreachable!(),
    }
}

/// Appends a field to the entries of a block.
fn append<T>(block: &mut Block<Entry<T>>, field: Field<T>, alloc: Global)
    requires room { length block.old.items < block.old.capacity }
    requires noted { NotesGaps block.old.items }
    requires found { IsFoundFrom INDEXED block.old.items }
    ensures fields { fields_in block.new.items ≡ fields_in block.old.items ++ field ∷ [] }
    ensures noted { NotesGaps block.new.items }
    ensures found { IsFoundFrom INDEXED block.new.items }
{
    block.push_within_capacity(Entry {
        field: Some(field),
        left: 0,
        right: 0,
        again: false,
        gaps: EcoVec::new(alloc),
    });
    include_last(block.as_mut_slice(), INDEXED);
}

/// Replaces the value of the field at `place` by `value`, and returns the old one.
fn put<T>(entries: &mut [Entry<T>], index: usize, place: usize, value: T) -> T
    requires place { IsPlaceOf entries.old index place }
    requires within { place < length entries.old }
    requires noted { NotesGaps entries.old }
    requires found { IsFoundFrom INDEXED entries.old }
    ensures change { Revalues (fields_in entries.old) index result value (fields_in entries.new) }
    ensures noted { NotesGaps entries.new }
    ensures found { IsFoundFrom INDEXED entries.new }
    ensures len { length entries.new ≡ length entries.old }
{
    match &mut entries[place].field {
        Some(field) => replace(&mut field.value, value),
        None => unreachable!(),
    }
}

/// Closes all gaps, and makes the index anew.
fn close_gaps<T: Drop>(block: &mut Block<Entry<T>>, alloc: Global)
    ensures fields { fields_in block.new.items ≡ fields_in block.old.items }
    ensures found { IsFoundFrom INDEXED block.new.items }
    ensures noted { NotesGaps block.new.items }
{
    block.retain(|entry| entry.is_filled());
    let entries = block.as_mut_slice();
    clear_gaps(entries, alloc);
    index_from(entries, 0);
}

impl Fields<Value> {
    /// The fields, each with its part of the index of names.
    #[tactic(auto, using(crate::proofs::Depths::entry_depths))]
    pub(crate) fn entries(&self) -> &[Entry<Value>]
        ensures fields { fields_in result.now ≡ self.now }
        ensures depths { largest (map (λ entry. slot_depth entry.field) result.now)
            ≡ deepest_field self.now }
    {
        self.entries.as_slice()
    }

    /// Appends a field.
    ///
    /// # Errors
    ///
    /// `Capacity` or `Memory`; the field is dropped.
    pub fn push(&mut self, name: EcoString, value: Value) -> Result<(), EcoError>
        ensures ok { OnOk result (self.new ≡ self.old ++ named name value ∷ []) }
        ensures unchanged { OnErr result (self.new ≡ self.old) }
        ensures memory { IfErr result (λ error. error ≡ EcoError.Memory) }
    {
        // Only for the proof: a slice of fields is shorter than the greatest length.
        let _entries = self.entries.as_slice();
        let alloc = self.allocator();
        let block = self.entries.own_with_room(1)?;
        append(block, Field { name, value }, alloc);
        Ok(())
    }

    /// Replaces the value of the field at `index` by `value`, and returns the old one.
    ///
    /// # Errors
    ///
    /// `Memory`; `value` is dropped.
    pub fn replace(&mut self, index: usize, value: Value) -> Result<Value, EcoError>
        requires { index < length self.old }
        ensures ok { IfOk result (λ was. Revalues self.old index was value self.new) }
        ensures unchanged { OnErr result (self.new ≡ self.old) }
        ensures memory { IfErr result (λ error. error ≡ EcoError.Memory) }
    {
        let place = place_of_index(self.entries.as_slice(), index);
        let block = match self.entries.own_mut() {
            Ok(block) => block,
            Err(Some(error)) => return Err(error),
            Err(None) => return Err(EcoError::Memory),
        };
        Ok(put(block.as_mut_slice(), index, place, value))
    }

    /// Removes the field at `index` and returns it.
    ///
    /// # Errors
    ///
    /// `Memory`.
    pub fn remove(&mut self, index: usize) -> Result<Field<Value>, EcoError>
        requires { index < length self.old }
        ensures ok { IfOk result (λ field. (slice_get self.old index ≡ Some field)
            × (self.new ≡ remove self.old index)) }
        ensures unchanged { OnErr result (self.new ≡ self.old) }
        ensures memory { IfErr result (λ error. error ≡ EcoError.Memory) }
    {
        let alloc = self.allocator();
        let entries = self.entries.as_slice();
        let (whole, place) = (gaps_of(entries).is_empty(), place_of_index(entries, index));
        let block = match self.entries.own_mut() {
            Ok(block) => block,
            Err(Some(error)) => return Err(error),
            Err(None) => return Err(EcoError::Memory),
        };
        if whole && lacks_index(block.as_slice()) {
            return Ok(take_out(block, index, alloc));
        }
        let Ok(field) = leave_gap(block.as_mut_slice(), index, place) else {
            return Err(EcoError::Memory);
        };
        let entries = block.as_slice();
        if gaps_of(entries).len() > entries.len() / 4 {
            close_gaps(block, alloc);
        }
        Ok(field)
    }
}
