//! The calls on the items of an array. All items have one size in bytes, which each call is given;
//! one item is given as its bytes, so their number is the size.
ghost use Rattle.std.specs.Prelude.{◌≡◌, ◌↔◌, ◌≤◌, ◌<◌, ◌+◌, ◌*◌, ◌∷◌, ◌++◌, [], length, take, remove, slice_get, slice_set, true, Some, IfErr, MatchOption, OnErr};
ghost use Rattle.std.specs.List.{replace_range};
ghost use Rattle.ecow_c.specs.Answers.{IsAmong, Writes};
ghost use Rattle.ecow_c.specs.Arrays.{AltersItems, BothHaveItemsAnd, HasItemsAnd, ItemsPass, RefusesSize, RefusesSizes, are_items, count_in, items_in};
ghost use Rattle.ecow_c.specs.Indices.{is_outside};

use crate::pointer::ArrayPointer;
use crate::status::{
    CAPACITY, INDEX, IntoStatus, KIND, MEMORY, NULL, OK, ok_or_status, some_or, status,
};
use ecow_base::MAX_LEN;
use ecow_list::{EcoError, EcoVec};

/// Whether the bytes are items of `size` bytes, with none left over. Powers of two have branches of
/// their own, since a division by a constant takes much less time.
#[inline]
pub(crate) fn are_items(bytes: &[u8], size: usize) -> bool
    ensures { result ≡ are_items size bytes.now }
{
    let len = bytes.len();
    match size {
        0 => false,
        1 => true,
        2 => len % 2 == 0,
        4 => len % 4 == 0,
        8 => len % 8 == 0,
        16 => len % 16 == 0,
        _ => len % size == 0,
    }
}

/// Where the item at `index` begins, in bytes that are items of `size` bytes.
#[inline]
fn start_of(bytes: &[u8], size: usize, index: usize) -> Option<usize>
    requires { are_items size bytes.now ≡ true }
    ensures { MatchOption result (count_in size bytes.now ≤ index) (λ start.
        (start ≡ index * size) × (index < count_in size bytes.now)
        × (start + size ≤ length bytes.now)) }
{
    match index.checked_mul(size) {
        Some(start) if start < bytes.len() => Some(start),
        _ => None,
    }
}

/// Reserves capacity for `added` bytes, and for at least 4 items, in an array without capacity.
/// There is nothing to reserve for no bytes.
pub(crate) fn reserve_first(
    array: &mut EcoVec<u8>,
    size: usize,
    added: usize,
) -> Result<(), EcoError>
    ensures bytes { array.new ≡ array.old }
    ensures refused { IfErr result
        (λ error. error ≡ EcoError.Capacity ↔ (MAX_LEN < length array.old + added)) }
    ensures empty { OnErr result (array.old ≡ []) }
{
    if added == 0 || array.capacity() > 0 {
        return Ok(());
    }
    array.reserve(size.saturating_mul(4).min(MAX_LEN).max(added))
}

/// Replaces the item at `index` by `item`.
#[unsafe(no_mangle)]
pub extern "C" fn ecow_proved_array_set(
    pointer: &mut ArrayPointer,
    index: usize,
    item: &[u8],
) -> u32
    ensures items { AltersItems (length item.now) (λ xs. slice_set xs index item.now)
        pointer.old.value result pointer.new.value }
    ensures statuses { IsAmong (OK ∷ MEMORY ∷ INDEX ∷ KIND ∷ NULL ∷ []) result }
    ensures kind { RefusesSize (length item.now) pointer.old.value result }
    ensures index { result ≡ INDEX ↔ HasItemsAnd (length item.now) pointer.old.value
        (λ bytes. count_in (length item.now) bytes ≤ index) }
{
    let array = some_or!(pointer.array(), NULL);
    let size = item.len();
    if !are_items(array.as_slice(), size) {
        return KIND;
    }
    let start = some_or!(start_of(array.as_slice(), size, index), INDEX);
    let Ok(block) = array.own_mut() else {
        return MEMORY;
    };
    block.as_mut_slice()[start..start + size].copy_from_slice(item);
    OK
}

/// Appends a copy of `item`.
#[unsafe(no_mangle)]
pub extern "C" fn ecow_proved_array_push(pointer: &mut ArrayPointer, item: &[u8]) -> u32
    ensures items { AltersItems (length item.now) (λ xs. xs ++ item.now ∷ [])
        pointer.old.value result pointer.new.value }
    ensures statuses { IsAmong (OK ∷ MEMORY ∷ CAPACITY ∷ KIND ∷ NULL ∷ []) result }
    ensures kind { RefusesSize (length item.now) pointer.old.value result }
    ensures capacity { result ≡ CAPACITY ↔ HasItemsAnd (length item.now) pointer.old.value
        (λ bytes. MAX_LEN < length bytes + length item.now) }
{
    let array = some_or!(pointer.array(), NULL);
    if !are_items(array.as_slice(), item.len()) {
        return KIND;
    }
    ok_or_status!(reserve_first(array, item.len(), item.len()));
    status(array.extend_from_copied(item))
}

/// Removes the item at `index` and writes it to `out`, which has its size.
#[unsafe(no_mangle)]
pub extern "C" fn ecow_proved_array_remove(
    pointer: &mut ArrayPointer,
    index: usize,
    out: &mut [u8],
) -> u32
    ensures items { AltersItems (length out.old) (λ xs. remove xs index)
        pointer.old.value result pointer.new.value }
    ensures out { Writes (λ bytes. slice_get (items_in (length out.old) bytes) index)
        pointer.old.value result out.old out.new }
    ensures statuses { IsAmong (OK ∷ MEMORY ∷ INDEX ∷ KIND ∷ NULL ∷ []) result }
    ensures kind { RefusesSize (length out.old) pointer.old.value result }
    ensures index { result ≡ INDEX ↔ HasItemsAnd (length out.old) pointer.old.value
        (λ bytes. count_in (length out.old) bytes ≤ index) }
{
    let array = some_or!(pointer.array(), NULL);
    let (len, size) = (array.len(), out.len());
    if !are_items(array.as_slice(), size) {
        return KIND;
    }
    let start = some_or!(start_of(array.as_slice(), size, index), INDEX);
    let Ok(block) = array.own_mut() else {
        return MEMORY;
    };
    let all = block.as_mut_slice();
    out.copy_from_slice(&all[start..start + size]);
    all.copy_within(start + size..len, start);
    block.truncate(len - size);
    OK
}

/// Keeps the first `len` items; all if there are fewer.
#[unsafe(no_mangle)]
pub extern "C" fn ecow_proved_array_truncate(
    pointer: &mut ArrayPointer,
    size: usize,
    len: usize,
) -> u32
    ensures items { AltersItems size (λ xs. take len xs)
        pointer.old.value result pointer.new.value }
    ensures statuses { IsAmong (OK ∷ MEMORY ∷ KIND ∷ NULL ∷ []) result }
    ensures kind { RefusesSize size pointer.old.value result }
{
    let array = some_or!(pointer.array(), NULL);
    if !are_items(array.as_slice(), size) {
        return KIND;
    }
    status(array.truncate(len.saturating_mul(size)))
}

/// Appends copies of the items `added`.
#[unsafe(no_mangle)]
pub extern "C" fn ecow_proved_array_extend(
    pointer: &mut ArrayPointer,
    size: usize,
    added: &[u8],
) -> u32
    ensures items { AltersItems size (λ xs. xs ++ items_in size added.now)
        pointer.old.value result pointer.new.value }
    ensures statuses { IsAmong (OK ∷ MEMORY ∷ CAPACITY ∷ KIND ∷ NULL ∷ []) result }
    ensures kind { RefusesSizes size added.now pointer.old.value result }
    ensures capacity { result ≡ CAPACITY ↔ BothHaveItemsAnd size added.now pointer.old.value
        (λ bytes. MAX_LEN < length bytes + length added.now) }
{
    let array = some_or!(pointer.array(), NULL);
    if !are_items(array.as_slice(), size) || !are_items(added, size) {
        return KIND;
    }
    ok_or_status!(reserve_first(array, size, added.len()));
    status(array.extend_from_copied(added))
}

/// Replaces the items from `start` up to `end` by copies of the items `added`.
#[unsafe(no_mangle)]
pub extern "C" fn ecow_proved_array_splice(
    pointer: &mut ArrayPointer,
    size: usize,
    start: usize,
    end: usize,
    added: &[u8],
) -> u32
    ensures items { AltersItems size (λ xs. replace_range xs start end (items_in size added.now))
        pointer.old.value result pointer.new.value }
    ensures statuses { IsAmong (OK ∷ MEMORY ∷ CAPACITY ∷ INDEX ∷ KIND ∷ NULL ∷ []) result }
    ensures kind { RefusesSizes size added.now pointer.old.value result }
    ensures index { result ≡ INDEX ↔ BothHaveItemsAnd size added.now pointer.old.value
        (λ bytes. is_outside start end (count_in size bytes) ≡ true) }
    ensures capacity { result ≡ CAPACITY ↔ BothHaveItemsAnd size added.now pointer.old.value
        (λ bytes. ItemsPass size start end added.now bytes) }
{
    let array = some_or!(pointer.array(), NULL);
    if !are_items(array.as_slice(), size) || !are_items(added, size) {
        return KIND;
    }
    if start > end || end > array.len() / size {
        return INDEX;
    }
    ok_or_status!(reserve_first(array, size, added.len()));
    status(array.replace_range(start * size..end * size, added))
}
