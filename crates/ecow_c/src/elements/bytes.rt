//! The calls on bytes.
ghost use Rattle.std.specs.Prelude.{◌≡◌, ◌↔◌, ◌≤◌, ◌<◌, ◌+◌, ◌-◌, ◌∷◌, ◌++◌, [], length, take, insert, remove, slice_get, slice_set, true, IsSomeAnd};
ghost use Rattle.std.specs.List.{replace_range};
ghost use Rattle.ecow_c.specs.Answers.{AltersBytes, IsAmong, Reads, RefusesPast, Writes};
ghost use Rattle.ecow_c.specs.Indices.{InsertPasses, SplicePasses, is_outside};

use crate::pointer::BytesPointer;
use crate::status::{
    CAPACITY, INDEX, IntoStatus, MEMORY, NULL, OK, ok_or_status, put, some_or, status,
};

/// Writes the byte at `index` to `out`.
#[unsafe(no_mangle)]
pub extern "C" fn ecow_proved_bytes_get(
    pointer: &mut BytesPointer,
    index: usize,
    out: &mut u8,
) -> u32
    ensures out { Reads (λ value. slice_get value.bytes index)
        pointer.old.value result pointer.new.value out.old out.new }
    ensures statuses { IsAmong (OK ∷ INDEX ∷ NULL ∷ []) result }
    ensures index { result ≡ INDEX
        ↔ IsSomeAnd pointer.old.value (λ value. length value.bytes ≤ index) }
{
    let bytes = some_or!(pointer.bytes(), NULL);
    *out = *some_or!(bytes.as_slice().get(index), INDEX);
    OK
}

/// Appends a byte.
#[unsafe(no_mangle)]
pub extern "C" fn ecow_proved_bytes_push(pointer: &mut BytesPointer, byte: u8) -> u32
    ensures bytes { AltersBytes (λ xs. xs ++ byte ∷ []) pointer.old.value result pointer.new.value }
    ensures statuses { IsAmong (OK ∷ MEMORY ∷ CAPACITY ∷ NULL ∷ []) result }
    ensures capacity { RefusesPast (λ value. length value.bytes + 1) pointer.old.value result }
{
    status(some_or!(pointer.bytes(), NULL).push(byte))
}

/// Removes the last byte and writes it to `out`; `INDEX` if there is none.
#[unsafe(no_mangle)]
pub extern "C" fn ecow_proved_bytes_pop(pointer: &mut BytesPointer, out: &mut u8) -> u32
    ensures bytes { AltersBytes (λ xs. take (length xs - 1) xs)
        pointer.old.value result pointer.new.value }
    ensures out { Writes (λ value. slice_get value.bytes (length value.bytes - 1))
        pointer.old.value result out.old out.new }
    ensures statuses { IsAmong (OK ∷ MEMORY ∷ INDEX ∷ NULL ∷ []) result }
    ensures index { result ≡ INDEX
        ↔ IsSomeAnd pointer.old.value (λ value. value.bytes ≡ []) }
{
    let bytes = some_or!(pointer.bytes(), NULL);
    *out = some_or!(ok_or_status!(bytes.pop()), INDEX);
    OK
}

/// Replaces the byte at `index` by `byte`.
#[unsafe(no_mangle)]
pub extern "C" fn ecow_proved_bytes_set(pointer: &mut BytesPointer, index: usize, byte: u8) -> u32
    ensures bytes { AltersBytes (λ xs. slice_set xs index byte)
        pointer.old.value result pointer.new.value }
    ensures statuses { IsAmong (OK ∷ MEMORY ∷ INDEX ∷ NULL ∷ []) result }
    ensures index { result ≡ INDEX
        ↔ IsSomeAnd pointer.old.value (λ value. length value.bytes ≤ index) }
{
    let bytes = some_or!(pointer.bytes(), NULL);
    if index >= bytes.len() {
        return INDEX;
    }
    status(bytes.set(index, byte))
}

/// Inserts `byte` before the byte at `index`; at the length, appends it.
#[unsafe(no_mangle)]
pub extern "C" fn ecow_proved_bytes_insert(
    pointer: &mut BytesPointer,
    index: usize,
    byte: u8,
) -> u32
    ensures bytes { AltersBytes (λ xs. insert xs index byte)
        pointer.old.value result pointer.new.value }
    ensures statuses { IsAmong (OK ∷ MEMORY ∷ CAPACITY ∷ INDEX ∷ NULL ∷ []) result }
    ensures index { result ≡ INDEX
        ↔ IsSomeAnd pointer.old.value (λ value. length value.bytes < index) }
    ensures capacity { result ≡ CAPACITY
        ↔ IsSomeAnd pointer.old.value (λ value. InsertPasses index (length value.bytes)) }
{
    let bytes = some_or!(pointer.bytes(), NULL);
    if index > bytes.len() {
        return INDEX;
    }
    status(bytes.insert(index, byte))
}

/// Removes the byte at `index` and writes it to `out`.
#[unsafe(no_mangle)]
pub extern "C" fn ecow_proved_bytes_remove(
    pointer: &mut BytesPointer,
    index: usize,
    out: &mut u8,
) -> u32
    ensures bytes { AltersBytes (λ xs. remove xs index) pointer.old.value result pointer.new.value }
    ensures out { Writes (λ value. slice_get value.bytes index)
        pointer.old.value result out.old out.new }
    ensures statuses { IsAmong (OK ∷ MEMORY ∷ INDEX ∷ NULL ∷ []) result }
    ensures index { result ≡ INDEX
        ↔ IsSomeAnd pointer.old.value (λ value. length value.bytes ≤ index) }
{
    let bytes = some_or!(pointer.bytes(), NULL);
    if index >= bytes.len() {
        return INDEX;
    }
    put(bytes.remove(index), out)
}

/// Keeps the first `len` bytes; all if there are fewer.
#[unsafe(no_mangle)]
pub extern "C" fn ecow_proved_bytes_truncate(pointer: &mut BytesPointer, len: usize) -> u32
    ensures bytes { AltersBytes (λ xs. take len xs) pointer.old.value result pointer.new.value }
    ensures statuses { IsAmong (OK ∷ MEMORY ∷ NULL ∷ []) result }
{
    status(some_or!(pointer.bytes(), NULL).truncate(len))
}

/// Appends copies of `added`.
#[unsafe(no_mangle)]
pub extern "C" fn ecow_proved_bytes_extend(pointer: &mut BytesPointer, added: &[u8]) -> u32
    ensures bytes { AltersBytes (λ xs. xs ++ added.now) pointer.old.value result pointer.new.value }
    ensures statuses { IsAmong (OK ∷ MEMORY ∷ CAPACITY ∷ NULL ∷ []) result }
    ensures capacity { RefusesPast (λ value. length value.bytes + length added.now)
        pointer.old.value result }
{
    status(some_or!(pointer.bytes(), NULL).extend_from_slice(added))
}

/// Replaces the bytes from `start` up to `end` by copies of `added`.
#[unsafe(no_mangle)]
pub extern "C" fn ecow_proved_bytes_splice(
    pointer: &mut BytesPointer,
    start: usize,
    end: usize,
    added: &[u8],
) -> u32
    ensures bytes { AltersBytes (λ xs. replace_range xs start end added.now)
        pointer.old.value result pointer.new.value }
    ensures statuses { IsAmong (OK ∷ MEMORY ∷ CAPACITY ∷ INDEX ∷ NULL ∷ []) result }
    ensures index { result ≡ INDEX ↔ IsSomeAnd pointer.old.value
        (λ value. is_outside start end (length value.bytes) ≡ true) }
    ensures capacity { result ≡ CAPACITY ↔ IsSomeAnd pointer.old.value
        (λ value. SplicePasses start end (length added.now) (length value.bytes)) }
{
    let bytes = some_or!(pointer.bytes(), NULL);
    if start > end || end > bytes.len() {
        return INDEX;
    }
    status(bytes.replace_range(start..end, added))
}
