//! What a change of a list costs when other names may share its block.
ghost use Rattle.std.specs.Prelude.{◌≡◌, ◌≤◌, true, false, nat_lt, if◌then◌else◌};
ghost use Rattle.ecow_model.specs.Costs.{capacity_after, copies as are_copied, unshares as is_unshared};
ghost use Rattle.ecow_counted.specs.Edits.{asked_length, length_after, staying as are_staying};

use crate::blocks::Size;
use ecow_base::{MAX_LEN, fresh_capacity, resolve, room_for};
use ecow_model::vecs::VecEdit;

/// Whether a name that shares its block gets a block of its own for the change.
pub(crate) fn unshares<T>(edit: &VecEdit<T>, len: usize) -> bool
    ensures { result ≡ is_unshared edit.now len }
{
    match edit {
        VecEdit::Pop => len > 0,
        VecEdit::Clear => len > 0,
        VecEdit::Truncate(target) => *target < len,
        VecEdit::Extend(items) => items.len() > 0,
        _ => true,
    }
}

/// How many elements are copied if the name leaves its shared block for the change.
pub(crate) fn copies<T>(edit: &VecEdit<T>, len: usize) -> usize
    ensures copies { result ≡ are_copied edit.now len }
    ensures bounded { is_unshared edit.now len ≡ true → result ≤ len }
{
    match edit {
        VecEdit::Truncate(target) => *target,
        VecEdit::Clear => 0,
        _ => len,
    }
}

/// How many elements stay in the list if it is moved to a larger block.
pub(crate) fn staying<T>(edit: &VecEdit<T>, len: usize) -> usize
    ensures staying { result ≡ are_staying edit.now len }
    ensures bounded { result ≤ len }
{
    match edit {
        VecEdit::Splice(bounds, _) => match resolve(bounds, len) {
            Some((start, end)) => len - (end - start),
            None => len,
        },
        _ => len,
    }
}

/// The capacity after the change.
pub(crate) fn capacity<T>(edit: &VecEdit<T>, size: Size) -> usize
    requires fits { size.len ≤ size.capacity }
    requires bounded { size.capacity ≤ MAX_LEN }
    requires length { asked_length edit.now size.len ≤ MAX_LEN }
    requires leaves { nat_lt 1 size.owners ≡ true → is_unshared edit.now size.len ≡ true }
    ensures capacity { result
        ≡ capacity_after edit.now (nat_lt 1 size.owners) size.len size.capacity }

    // It is within the limit, and enough for the elements that are copied or stay.
    ensures bounded { result ≤ MAX_LEN }
    ensures grows { nat_lt 1 size.owners ≡ false → size.capacity ≤ result }
    ensures holds { nat_lt 1 size.owners ≡ true → are_copied edit.now size.len ≤ result }
    ensures room { length_after edit.now
        (if nat_lt 1 size.owners then are_copied edit.now size.len else size.len) ≤ result }
{
    let shared = size.owners > 1;
    match edit {
        VecEdit::Push(_) => room_for(size.len, 1, size.capacity),
        VecEdit::Insert(_, _) => room_for(size.len, 1, size.capacity),
        VecEdit::Extend(items) => room_for(size.len, items.len(), size.capacity),
        VecEdit::Reserve(additional) => room_for(size.len, *additional, size.capacity),
        VecEdit::Splice(_, items) => {
            let least = if shared {
                fresh_capacity(size.len)
            } else {
                size.capacity
            };
            room_for(staying(edit, size.len), items.len(), least)
        }
        VecEdit::Clear => if shared { 0 } else { size.capacity },
        VecEdit::Truncate(target) => if shared {
            fresh_capacity(*target)
        } else {
            size.capacity
        },
        _ => if shared {
            fresh_capacity(size.len)
        } else {
            size.capacity
        },
    }
}
