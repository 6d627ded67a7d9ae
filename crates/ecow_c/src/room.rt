//! The calls that tell the capacity, reserve more, and shrink it. The capacity of a text counts
//! bytes.
ghost use Rattle.std.specs.Prelude.{◌≡◌, ◌↔◌, ◌≤◌, ◌<◌, ◌+◌, ◌*◌, ◌∷◌, [], length};
ghost use Rattle.ecow_base.specs.Utf8.{utf8_len};
ghost use Rattle.ecow_c.specs.Arrays.{AltersArray, HasItemsAnd, RefusesSize, are_items, array_at, count_in};
ghost use Rattle.ecow_c.specs.Answers.{AltersBytes, AltersList, AltersText, AltersTexts, IsAmong, RefusesPast, bytes_at, chars_at, numbers_at, texts_at};

use crate::elements::arrays::{are_items, reserve_first};
use crate::pointer::{ArrayPointer, BytesPointer, ListPointer, TextPointer, TextsPointer};
use crate::status::{CAPACITY, IntoStatus, KIND, MEMORY, NULL, OK, ok_or_status, some_or, status};
use ecow_base::MAX_LEN;
use ecow_list::EcoVec;
use std::alloc::Global;

/// The capacity in numbers, which is at least the length; 0 for a null pointer.
#[unsafe(no_mangle)]
pub extern "C" fn ecow_proved_list_capacity(pointer: &mut ListPointer) -> usize
    ensures room { length (numbers_at pointer.old.value) ≤ result }
    ensures unchanged { pointer.new.value ≡ pointer.old.value }
{
    some_or!(pointer.list(), 0).capacity()
}

/// The capacity in items of `size` bytes, which is at least the length; 0 for a null pointer, and
/// for a size of 0.
#[unsafe(no_mangle)]
pub extern "C" fn ecow_proved_array_capacity(pointer: &mut ArrayPointer, size: usize) -> usize
    ensures room { 0 < size → count_in size (array_at pointer.old.value) ≤ result }
    ensures unchanged { pointer.new.value ≡ pointer.old.value }
{
    some_or!(pointer.array(), 0)
        .capacity()
        .checked_div(size)
        .unwrap_or(0)
}

/// The capacity in bytes, which is at least the length; 0 for a null pointer.
#[unsafe(no_mangle)]
pub extern "C" fn ecow_proved_bytes_capacity(pointer: &mut BytesPointer) -> usize
    ensures room { length (bytes_at pointer.old.value) ≤ result }
    ensures unchanged { pointer.new.value ≡ pointer.old.value }
{
    some_or!(pointer.bytes(), 0).capacity()
}

/// The capacity in bytes, which is at least the length; 0 for a null pointer.
#[unsafe(no_mangle)]
pub extern "C" fn ecow_proved_text_capacity(pointer: &mut TextPointer) -> usize
    ensures room { utf8_len (chars_at pointer.old.value) ≤ result }
    ensures unchanged { pointer.new.value ≡ pointer.old.value }
{
    some_or!(pointer.text(), 0).capacity()
}

/// The capacity in texts, which is at least the length; 0 for a null pointer.
#[unsafe(no_mangle)]
pub extern "C" fn ecow_proved_texts_capacity(pointer: &mut TextsPointer) -> usize
    ensures room { length (texts_at pointer.old.value) ≤ result }
    ensures unchanged { pointer.new.value ≡ pointer.old.value }
{
    some_or!(pointer.texts(), 0).capacity()
}

/// Reserves capacity for `additional` more numbers.
#[unsafe(no_mangle)]
pub extern "C" fn ecow_proved_list_reserve(pointer: &mut ListPointer, additional: usize) -> u32
    ensures list { AltersList (λ xs. xs) pointer.old.value result pointer.new.value }
    ensures statuses { IsAmong (OK ∷ MEMORY ∷ CAPACITY ∷ NULL ∷ []) result }
    ensures capacity { RefusesPast (λ xs. length xs + additional) pointer.old.value result }
{
    status(some_or!(pointer.list(), NULL).reserve(additional))
}

/// Reserves capacity for `additional` more items of `size` bytes.
#[unsafe(no_mangle)]
pub extern "C" fn ecow_proved_array_reserve(
    pointer: &mut ArrayPointer,
    size: usize,
    additional: usize,
) -> u32
    ensures array { AltersArray (λ bytes. bytes) pointer.old.value result pointer.new.value }
    ensures statuses { IsAmong (OK ∷ MEMORY ∷ CAPACITY ∷ KIND ∷ NULL ∷ []) result }
    ensures kind { RefusesSize size pointer.old.value result }
    ensures capacity { result ≡ CAPACITY ↔ HasItemsAnd size pointer.old.value
        (λ bytes. MAX_LEN < length bytes + additional * size) }
{
    let array = some_or!(pointer.array(), NULL);
    if !are_items(array.as_slice(), size) {
        return KIND;
    }
    let added = some_or!(additional.checked_mul(size), CAPACITY);
    ok_or_status!(reserve_first(array, size, added));
    status(array.reserve(added))
}

/// Reserves capacity for `additional` more bytes.
#[unsafe(no_mangle)]
pub extern "C" fn ecow_proved_bytes_reserve(pointer: &mut BytesPointer, additional: usize) -> u32
    ensures bytes { AltersBytes (λ xs. xs) pointer.old.value result pointer.new.value }
    ensures statuses { IsAmong (OK ∷ MEMORY ∷ CAPACITY ∷ NULL ∷ []) result }
    ensures capacity { RefusesPast (λ value. length value.bytes + additional)
        pointer.old.value result }
{
    status(some_or!(pointer.bytes(), NULL).reserve(additional))
}

/// Reserves capacity for `additional` more bytes.
#[unsafe(no_mangle)]
pub extern "C" fn ecow_proved_text_reserve(pointer: &mut TextPointer, additional: usize) -> u32
    ensures text { AltersText (λ cs. cs) pointer.old.value result pointer.new.value }
    ensures statuses { IsAmong (OK ∷ MEMORY ∷ CAPACITY ∷ NULL ∷ []) result }
    ensures capacity { RefusesPast (λ text. utf8_len text.chars + additional)
        pointer.old.value result }
{
    status(some_or!(pointer.text(), NULL).reserve(additional))
}

/// Reserves capacity for `additional` more texts.
#[unsafe(no_mangle)]
pub extern "C" fn ecow_proved_texts_reserve(pointer: &mut TextsPointer, additional: usize) -> u32
    ensures texts { AltersTexts (λ xs. xs) pointer.old.value result pointer.new.value }
    ensures statuses { IsAmong (OK ∷ MEMORY ∷ CAPACITY ∷ NULL ∷ []) result }
    ensures capacity { RefusesPast (λ xs. length xs + additional) pointer.old.value result }
{
    status(some_or!(pointer.texts(), NULL).reserve(additional))
}

/// Shrinks the capacity to what the list needs, unless another list shares the block.
#[unsafe(no_mangle)]
pub extern "C" fn ecow_proved_list_shrink_to_fit(alloc: Global, pointer: &mut ListPointer) -> u32
    ensures list { AltersList (λ xs. xs) pointer.old.value result pointer.new.value }
    ensures statuses { IsAmong (OK ∷ MEMORY ∷ NULL ∷ []) result }
{
    let list = some_or!(pointer.list(), NULL);
    if list.capacity() == list.len() || !list.is_unique() {
        return OK;
    }
    let mut copy = ok_or_status!(EcoVec::with_capacity(alloc, list.len()));
    ok_or_status!(copy.extend_from_copied(list.as_slice()));
    *list = copy;
    OK
}

/// Shrinks the capacity to what the array needs, unless another array shares the block.
#[unsafe(no_mangle)]
pub extern "C" fn ecow_proved_array_shrink_to_fit(alloc: Global, pointer: &mut ArrayPointer) -> u32
    ensures array { AltersArray (λ bytes. bytes) pointer.old.value result pointer.new.value }
    ensures statuses { IsAmong (OK ∷ MEMORY ∷ NULL ∷ []) result }
{
    let array = some_or!(pointer.array(), NULL);
    if array.capacity() == array.len() || !array.is_unique() {
        return OK;
    }
    let mut copy = ok_or_status!(EcoVec::with_capacity(alloc, array.len()));
    ok_or_status!(copy.extend_from_copied(array.as_slice()));
    *array = copy;
    OK
}

/// Brings spilled bytes back inline if there are at most 15.
#[unsafe(no_mangle)]
pub extern "C" fn ecow_proved_bytes_shrink_to_fit(pointer: &mut BytesPointer) -> u32
    ensures bytes { AltersBytes (λ xs. xs) pointer.old.value result pointer.new.value }
    ensures statuses { IsAmong (OK ∷ NULL ∷ []) result }
{
    some_or!(pointer.bytes(), NULL).shrink_to_fit();
    OK
}

/// Brings a spilled text back inline if it has at most 15 bytes.
#[unsafe(no_mangle)]
pub extern "C" fn ecow_proved_text_shrink_to_fit(pointer: &mut TextPointer) -> u32
    ensures text { AltersText (λ cs. cs) pointer.old.value result pointer.new.value }
    ensures statuses { IsAmong (OK ∷ NULL ∷ []) result }
{
    some_or!(pointer.text(), NULL).shrink_to_fit();
    OK
}

/// Shrinks the capacity to what the list needs, unless another list shares the block.
#[unsafe(no_mangle)]
pub extern "C" fn ecow_proved_texts_shrink_to_fit(alloc: Global, pointer: &mut TextsPointer) -> u32
    ensures texts { AltersTexts (λ xs. xs) pointer.old.value result pointer.new.value }
    ensures statuses { IsAmong (OK ∷ MEMORY ∷ NULL ∷ []) result }
{
    let texts = some_or!(pointer.texts(), NULL);
    if texts.capacity() == texts.len() || !texts.is_unique() {
        return OK;
    }
    let mut copy = ok_or_status!(EcoVec::with_capacity(alloc, texts.len()));
    ok_or_status!(copy.extend_from_slice(texts.as_slice()));
    *texts = copy;
    OK
}
