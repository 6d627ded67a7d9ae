//! The calls on the numbers of a list.
ghost use Rattle.std.specs.Prelude.{◌≡◌, ◌↔◌, ◌≤◌, ◌<◌, ◌+◌, ◌-◌, ◌∷◌, ◌++◌, [], length, take, insert, remove, slice_get, slice_set, true, Some, IsSomeAnd};
ghost use Rattle.std.specs.List.{replace_range};
ghost use Rattle.ecow_c.specs.Answers.{AltersList, IsAmong, Reads, RefusesPast, Writes};
ghost use Rattle.ecow_c.specs.Indices.{InsertPasses, SplicePasses, is_outside};

use crate::pointer::ListPointer;
use crate::status::{
    CAPACITY, INDEX, IntoStatus, MEMORY, NULL, OK, ok_or_status, put, some_or, status,
};

/// Writes the number at `index` to `out`.
#[unsafe(no_mangle)]
pub extern "C" fn ecow_proved_list_get(
    pointer: &mut ListPointer,
    index: usize,
    out: &mut i64,
) -> u32
    ensures out { Reads (λ xs. slice_get xs index)
        pointer.old.value result pointer.new.value out.old out.new }
    ensures statuses { IsAmong (OK ∷ INDEX ∷ NULL ∷ []) result }
    ensures index { result ≡ INDEX ↔ IsSomeAnd pointer.old.value (λ xs. length xs ≤ index) }
{
    let list = some_or!(pointer.list(), NULL);
    *out = *some_or!(list.as_slice().get(index), INDEX);
    OK
}

/// Appends a number.
#[unsafe(no_mangle)]
pub extern "C" fn ecow_proved_list_push(pointer: &mut ListPointer, number: i64) -> u32
    ensures list { AltersList (λ xs. xs ++ number ∷ []) pointer.old.value result pointer.new.value }
    ensures statuses { IsAmong (OK ∷ MEMORY ∷ CAPACITY ∷ NULL ∷ []) result }
    ensures capacity { RefusesPast (λ xs. length xs + 1) pointer.old.value result }
{
    status(some_or!(pointer.list(), NULL).push(number))
}

/// Removes the last number and writes it to `out`; `INDEX` if there is none.
#[unsafe(no_mangle)]
pub extern "C" fn ecow_proved_list_pop(pointer: &mut ListPointer, out: &mut i64) -> u32
    ensures list { AltersList (λ xs. take (length xs - 1) xs)
        pointer.old.value result pointer.new.value }
    ensures out { Writes (λ xs. slice_get xs (length xs - 1))
        pointer.old.value result out.old out.new }
    ensures statuses { IsAmong (OK ∷ MEMORY ∷ INDEX ∷ NULL ∷ []) result }
    ensures index { result ≡ INDEX ↔ pointer.old.value ≡ Some [] }
{
    let list = some_or!(pointer.list(), NULL);
    *out = some_or!(ok_or_status!(list.pop()), INDEX);
    OK
}

/// Replaces the number at `index` by `number`.
#[unsafe(no_mangle)]
pub extern "C" fn ecow_proved_list_set(pointer: &mut ListPointer, index: usize, number: i64) -> u32
    ensures list { AltersList (λ xs. slice_set xs index number)
        pointer.old.value result pointer.new.value }
    ensures statuses { IsAmong (OK ∷ MEMORY ∷ INDEX ∷ NULL ∷ []) result }
    ensures index { result ≡ INDEX ↔ IsSomeAnd pointer.old.value (λ xs. length xs ≤ index) }
{
    let list = some_or!(pointer.list(), NULL);
    if index >= list.len() {
        return INDEX;
    }
    status(list.set(index, number))
}

/// Inserts `number` before the number at `index`; at the length, appends it.
#[unsafe(no_mangle)]
pub extern "C" fn ecow_proved_list_insert(
    pointer: &mut ListPointer,
    index: usize,
    number: i64,
) -> u32
    ensures list { AltersList (λ xs. insert xs index number)
        pointer.old.value result pointer.new.value }
    ensures statuses { IsAmong (OK ∷ MEMORY ∷ CAPACITY ∷ INDEX ∷ NULL ∷ []) result }
    ensures index { result ≡ INDEX ↔ IsSomeAnd pointer.old.value (λ xs. length xs < index) }
    ensures capacity { result ≡ CAPACITY
        ↔ IsSomeAnd pointer.old.value (λ xs. InsertPasses index (length xs)) }
{
    let list = some_or!(pointer.list(), NULL);
    if index > list.len() {
        return INDEX;
    }
    status(list.insert(index, number))
}

/// Removes the number at `index` and writes it to `out`.
#[unsafe(no_mangle)]
pub extern "C" fn ecow_proved_list_remove(
    pointer: &mut ListPointer,
    index: usize,
    out: &mut i64,
) -> u32
    ensures list { AltersList (λ xs. remove xs index) pointer.old.value result pointer.new.value }
    ensures out { Writes (λ xs. slice_get xs index) pointer.old.value result out.old out.new }
    ensures statuses { IsAmong (OK ∷ MEMORY ∷ INDEX ∷ NULL ∷ []) result }
    ensures index { result ≡ INDEX ↔ IsSomeAnd pointer.old.value (λ xs. length xs ≤ index) }
{
    let list = some_or!(pointer.list(), NULL);
    if index >= list.len() {
        return INDEX;
    }
    put(list.remove(index), out)
}

/// Keeps the first `len` numbers; all if there are fewer.
#[unsafe(no_mangle)]
pub extern "C" fn ecow_proved_list_truncate(pointer: &mut ListPointer, len: usize) -> u32
    ensures list { AltersList (λ xs. take len xs) pointer.old.value result pointer.new.value }
    ensures statuses { IsAmong (OK ∷ MEMORY ∷ NULL ∷ []) result }
{
    status(some_or!(pointer.list(), NULL).truncate(len))
}

/// Appends copies of `numbers`.
#[unsafe(no_mangle)]
pub extern "C" fn ecow_proved_list_extend(pointer: &mut ListPointer, numbers: &[i64]) -> u32
    ensures list { AltersList (λ xs. xs ++ numbers.now) pointer.old.value result pointer.new.value }
    ensures statuses { IsAmong (OK ∷ MEMORY ∷ CAPACITY ∷ NULL ∷ []) result }
    ensures capacity { RefusesPast (λ xs. length xs + length numbers.now)
        pointer.old.value result }
{
    status(some_or!(pointer.list(), NULL).extend_from_copied(numbers))
}

/// Replaces the numbers from `start` up to `end` by copies of `numbers`.
#[unsafe(no_mangle)]
pub extern "C" fn ecow_proved_list_splice(
    pointer: &mut ListPointer,
    start: usize,
    end: usize,
    numbers: &[i64],
) -> u32
    ensures list { AltersList (λ xs. replace_range xs start end numbers.now)
        pointer.old.value result pointer.new.value }
    ensures statuses { IsAmong (OK ∷ MEMORY ∷ CAPACITY ∷ INDEX ∷ NULL ∷ []) result }
    ensures index { result ≡ INDEX
        ↔ IsSomeAnd pointer.old.value (λ xs. is_outside start end (length xs) ≡ true) }
    ensures capacity { result ≡ CAPACITY ↔ IsSomeAnd pointer.old.value
        (λ xs. SplicePasses start end (length numbers.now) (length xs)) }
{
    let list = some_or!(pointer.list(), NULL);
    if start > end || end > list.len() {
        return INDEX;
    }
    status(list.replace_range(start..end, numbers))
}
