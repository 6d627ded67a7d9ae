//! The gaps that removed fields left: which place the field at an index has, and the reverse.
//!
//! The first entry notes the places of all gaps, in rising order. So a binary search finds how many
//! gaps there are before a place.
ghost use Rattle.std.specs.Prelude.{◌≡◌, ◌<◌, ◌≤◌, [], insert, length, OnErr, OnOk};
ghost use Rattle.ecow_nested.specs.Index.{fields_before, fields_in, gaps_in, is_there, nodes_in, slots_in, IsPlaceOf, NotesGaps};

use crate::fields::Entry;
use ecow_list::EcoVec;
use std::alloc::{AllocError, Global};

impl<T> Entry<T> {
    /// Whether there is a field.
    pub(crate) fn is_filled(&self) -> bool
        ensures { result ≡ is_there self.now.field }
    {
        self.field.is_some()
    }
}

/// The places of the gaps.
pub(crate) fn gaps_of<T>(entries: &[Entry<T>]) -> &[usize]
    ensures { result.now ≡ gaps_in entries.now }
{
    match entries {
        [first, ..] => first.gaps.as_slice(),
        [] => &[],
    }
}

/// The number of entries.
#[inline]
fn count_of<T>(entries: &[Entry<T>]) -> usize
    ensures { result ≡ length entries.now }
{
    entries.len()
}

/// The place of the field at `index`.
pub(crate) fn place_of_index<T>(entries: &[Entry<T>], index: usize) -> usize
    requires within { index < length (fields_in entries.now) }
    requires noted { NotesGaps entries.now }
    ensures place { IsPlaceOf entries.now index result }
    ensures within { result < length entries.now }
{
    // Only for the proof: a `usize` counts the entries.
    let _count = count_of(entries);
    let gaps = gaps_of(entries);
    let mut low = 0;
    let mut high = gaps.len();
    while low < high {
        let middle = low + (high - low) / 2;
        if gaps[middle] - middle <= index {
            low = middle + 1;
        } else {
            high = middle;
        }
    }
    index + low
}

/// The index of the field at `place`, which is the number of fields before it.
pub(crate) fn index_of_place<T>(entries: &[Entry<T>], place: usize) -> usize
    requires within { place < length entries.now }
    requires noted { NotesGaps entries.now }
    ensures { result ≡ fields_before entries.now place }
{
    let gaps = gaps_of(entries);
    let mut low = 0;
    let mut high = gaps.len();
    while low < high {
        let middle = low + (high - low) / 2;
        if gaps[middle] < place {
            low = middle + 1;
        } else {
            high = middle;
        }
    }
    place - low
}

/// Forgets all gaps.
pub(crate) fn clear_gaps<T>(entries: &mut [Entry<T>], alloc: Global)
    ensures none { gaps_in entries.new ≡ [] }
    ensures len { length entries.new ≡ length entries.old }
    ensures slots { slots_in entries.new ≡ slots_in entries.old }
    ensures nodes { nodes_in entries.new ≡ nodes_in entries.old }
{
    if let [first, ..] = entries {
        first.gaps = EcoVec::new(alloc);
    }
}

/// Notes a gap at `place`, before which there are `before` gaps. A refused call changes nothing.
pub(crate) fn note_gap<T>(
    entries: &mut [Entry<T>],
    before: usize,
    place: usize,
) -> Result<(), AllocError>
    requires some { 0 < length entries.old }
    requires within { before ≤ length (gaps_in entries.old) }
    ensures noted { OnOk result (gaps_in entries.new ≡ insert (gaps_in entries.old) before place) }
    ensures slots { slots_in entries.new ≡ slots_in entries.old }
    ensures nodes { nodes_in entries.new ≡ nodes_in entries.old }
    ensures len { length entries.new ≡ length entries.old }
    ensures unchanged { OnErr result (entries.new ≡ entries.old) }
{
    match entries[0].gaps.insert(before, place) {
        Ok(()) => Ok(()),
        Err(_) => Err(AllocError),
    }
}
