//! The calls that replace a whole value: by a copy of what C passes, by a clone, or by an empty
//! one.
ghost use Rattle.std.specs.Prelude.{◌≡◌, ◌↔◌, ◌<◌, ◌∷◌, [], length, Some, IsSomeAnd, true, false};
ghost use Rattle.std.specs.Str.{chars, is_utf8};
ghost use Rattle.ecow_nested.specs.Values.{kind_of};
ghost use Rattle.ecow_nested.specs.declared.value.Kind.TheVariants as kind;
ghost use Rattle.ecow_c.specs.Arrays.{AltersArray, are_items};
ghost use Rattle.ecow_c.specs.Answers.{Alters, AltersBytes, AltersList, AltersText, AltersTexts, IsAmong, ReadsTo, RefusesPast};

use crate::elements::arrays::are_items;
use crate::pointer::{
    ArrayPointer, BytesPointer, ListPointer, TextPointer, TextsPointer, ValuePointer,
};
use crate::status::{CAPACITY, KIND, MEMORY, NULL, OK, UTF8, put, some_or};
use crate::text::to_str;
use crate::value::assign;
use ecow_base::MAX_LEN;
use ecow_bytes::EcoBytes;
use ecow_list::EcoVec;
use ecow_nested::Value;
use ecow_string::EcoString;
use std::alloc::Global;

/// Replaces the list by a copy of `numbers`.
#[unsafe(no_mangle)]
pub extern "C" fn ecow_proved_list_assign(
    alloc: Global,
    pointer: &mut ListPointer,
    numbers: &[i64],
) -> u32
    ensures list { AltersList (λ _. numbers.now) pointer.old.value result pointer.new.value }
    ensures statuses { IsAmong (OK ∷ MEMORY ∷ CAPACITY ∷ NULL ∷ []) result }
    ensures capacity { RefusesPast (λ _. length numbers.now) pointer.old.value result }
{
    let list = some_or!(pointer.list(), NULL);
    put(EcoVec::from_copied(alloc, numbers), list)
}

/// Replaces the items by copies of the items `added`, of `size` bytes each.
#[unsafe(no_mangle)]
pub extern "C" fn ecow_proved_array_assign(
    alloc: Global,
    pointer: &mut ArrayPointer,
    size: usize,
    added: &[u8],
) -> u32
    ensures bytes { AltersArray (λ _. added.now) pointer.old.value result pointer.new.value }
    ensures statuses { IsAmong (OK ∷ MEMORY ∷ CAPACITY ∷ KIND ∷ NULL ∷ []) result }
    ensures kind { result ≡ KIND
        ↔ IsSomeAnd pointer.old.value (λ _. are_items size added.now ≡ false) }
    ensures capacity { result ≡ CAPACITY ↔ IsSomeAnd pointer.old.value
        (λ _. (are_items size added.now ≡ true) × (MAX_LEN < length added.now)) }
{
    let array = some_or!(pointer.array(), NULL);
    if !are_items(added, size) {
        return KIND;
    }
    put(EcoVec::from_copied(alloc, added), array)
}

/// Replaces the bytes by a copy of `added`.
#[unsafe(no_mangle)]
pub extern "C" fn ecow_proved_bytes_assign(
    alloc: Global,
    pointer: &mut BytesPointer,
    added: &[u8],
) -> u32
    ensures bytes { AltersBytes (λ _. added.now) pointer.old.value result pointer.new.value }
    ensures statuses { IsAmong (OK ∷ MEMORY ∷ CAPACITY ∷ NULL ∷ []) result }
    ensures capacity { RefusesPast (λ _. length added.now) pointer.old.value result }
{
    let bytes = some_or!(pointer.bytes(), NULL);
    put(EcoBytes::from_slice(alloc, added), bytes)
}

/// Replaces the text by a copy of the bytes `added`, which must be UTF-8.
#[unsafe(no_mangle)]
pub extern "C" fn ecow_proved_text_assign(
    alloc: Global,
    pointer: &mut TextPointer,
    added: &[u8],
) -> u32
    ensures text { AltersText (λ _. chars added.now) pointer.old.value result pointer.new.value }
    ensures statuses { IsAmong (OK ∷ MEMORY ∷ CAPACITY ∷ UTF8 ∷ NULL ∷ []) result }
    ensures utf8 { result ≡ UTF8 ↔ IsSomeAnd pointer.old.value (λ _. is_utf8 added.now ≡ false) }
    ensures capacity { result ≡ CAPACITY ↔ IsSomeAnd pointer.old.value
        (λ _. (is_utf8 added.now ≡ true) × (MAX_LEN < length added.now)) }
{
    let text = some_or!(pointer.text(), NULL);
    let added = some_or!(to_str(added), UTF8);
    put(EcoString::from_str(alloc, added), text)
}

/// Replaces the list at `to` by a clone of the list at `from`, which shares its block.
#[unsafe(no_mangle)]
pub extern "C" fn ecow_proved_list_clone(from: &mut ListPointer, to: &mut ListPointer) -> u32
    ensures list { ReadsTo Some from.old.value result from.new.value to.old.value to.new.value }
    ensures statuses { IsAmong (OK ∷ MEMORY ∷ NULL ∷ []) result }
{
    let to = some_or!(to.list(), NULL);
    put(some_or!(from.list(), NULL).clone(), to)
}

/// Replaces the array at `to` by a clone of the array at `from`, which shares its block.
#[unsafe(no_mangle)]
pub extern "C" fn ecow_proved_array_clone(from: &mut ArrayPointer, to: &mut ArrayPointer) -> u32
    ensures array { ReadsTo Some from.old.value result from.new.value to.old.value to.new.value }
    ensures statuses { IsAmong (OK ∷ MEMORY ∷ NULL ∷ []) result }
{
    let to = some_or!(to.array(), NULL);
    put(some_or!(from.array(), NULL).clone(), to)
}

/// Replaces the bytes at `to` by a clone of the bytes at `from`, which shares their block.
#[unsafe(no_mangle)]
pub extern "C" fn ecow_proved_bytes_clone(from: &mut BytesPointer, to: &mut BytesPointer) -> u32
    ensures bytes { ReadsTo Some from.old.value result from.new.value to.old.value to.new.value }
    ensures statuses { IsAmong (OK ∷ MEMORY ∷ NULL ∷ []) result }
{
    let to = some_or!(to.bytes(), NULL);
    put(some_or!(from.bytes(), NULL).clone(), to)
}

/// Replaces the text at `to` by a clone of the text at `from`, which shares its block.
#[unsafe(no_mangle)]
pub extern "C" fn ecow_proved_text_clone(from: &mut TextPointer, to: &mut TextPointer) -> u32
    ensures text { ReadsTo Some from.old.value result from.new.value to.old.value to.new.value }
    ensures statuses { IsAmong (OK ∷ MEMORY ∷ NULL ∷ []) result }
{
    let to = some_or!(to.text(), NULL);
    put(some_or!(from.text(), NULL).clone(), to)
}

/// Replaces the list at `to` by a clone of the list at `from`, which shares its block.
#[unsafe(no_mangle)]
pub extern "C" fn ecow_proved_texts_clone(from: &mut TextsPointer, to: &mut TextsPointer) -> u32
    ensures texts { ReadsTo Some from.old.value result from.new.value to.old.value to.new.value }
    ensures statuses { IsAmong (OK ∷ MEMORY ∷ NULL ∷ []) result }
{
    let to = some_or!(to.texts(), NULL);
    put(some_or!(from.texts(), NULL).clone(), to)
}

/// Replaces the value at `to` by a clone of the value at `from`, which shares its memory.
#[unsafe(no_mangle)]
pub extern "C" fn ecow_proved_value_clone(from: &mut ValuePointer, to: &mut ValuePointer) -> u32
    ensures value { ReadsTo Some from.old.value result from.new.value to.old.value to.new.value }
    ensures statuses { IsAmong (OK ∷ MEMORY ∷ NULL ∷ []) result }
{
    let to = some_or!(to.value(), NULL);
    put(some_or!(from.value(), NULL).clone(), to)
}

/// Drops the list and leaves an empty one.
#[unsafe(no_mangle)]
pub extern "C" fn ecow_proved_list_drop(alloc: Global, pointer: &mut ListPointer) -> u32
    ensures list { AltersList (λ _. []) pointer.old.value result pointer.new.value }
    ensures statuses { IsAmong (OK ∷ NULL ∷ []) result }
{
    let list = some_or!(pointer.list(), NULL);
    *list = EcoVec::new(alloc);
    OK
}

/// Drops the array and leaves an empty one.
#[unsafe(no_mangle)]
pub extern "C" fn ecow_proved_array_drop(alloc: Global, pointer: &mut ArrayPointer) -> u32
    ensures array { AltersArray (λ _. []) pointer.old.value result pointer.new.value }
    ensures statuses { IsAmong (OK ∷ NULL ∷ []) result }
{
    let array = some_or!(pointer.array(), NULL);
    *array = EcoVec::new(alloc);
    OK
}

/// Drops the bytes and leaves empty ones.
#[unsafe(no_mangle)]
pub extern "C" fn ecow_proved_bytes_drop(alloc: Global, pointer: &mut BytesPointer) -> u32
    ensures bytes { AltersBytes (λ _. []) pointer.old.value result pointer.new.value }
    ensures statuses { IsAmong (OK ∷ NULL ∷ []) result }
{
    let bytes = some_or!(pointer.bytes(), NULL);
    *bytes = EcoBytes::new(alloc);
    OK
}

/// Drops the text and leaves an empty one.
#[unsafe(no_mangle)]
pub extern "C" fn ecow_proved_text_drop(alloc: Global, pointer: &mut TextPointer) -> u32
    ensures text { AltersText (λ _. []) pointer.old.value result pointer.new.value }
    ensures statuses { IsAmong (OK ∷ NULL ∷ []) result }
{
    let text = some_or!(pointer.text(), NULL);
    *text = EcoString::new(alloc);
    OK
}

/// Drops the list and leaves an empty one.
#[unsafe(no_mangle)]
pub extern "C" fn ecow_proved_texts_drop(alloc: Global, pointer: &mut TextsPointer) -> u32
    ensures texts { AltersTexts (λ _. []) pointer.old.value result pointer.new.value }
    ensures statuses { IsAmong (OK ∷ NULL ∷ []) result }
{
    let texts = some_or!(pointer.texts(), NULL);
    *texts = EcoVec::new(alloc);
    OK
}

/// Drops the value and leaves `nothing`.
#[unsafe(no_mangle)]
pub extern "C" fn ecow_proved_value_drop(pointer: &mut ValuePointer) -> u32
    ensures value { Alters kind_of (λ _. kind.Nothing) pointer.old.value result pointer.new.value }
    ensures statuses { IsAmong (OK ∷ NULL ∷ []) result }
{
    assign(pointer, Value::Nothing)
}

/// Removes all numbers. A block that no other list shares is kept, with its capacity.
#[unsafe(no_mangle)]
pub extern "C" fn ecow_proved_list_clear(pointer: &mut ListPointer) -> u32
    ensures list { AltersList (λ _. []) pointer.old.value result pointer.new.value }
    ensures statuses { IsAmong (OK ∷ NULL ∷ []) result }
{
    some_or!(pointer.list(), NULL).clear();
    OK
}

/// Removes all items. A block that no other array shares is kept, with its capacity.
#[unsafe(no_mangle)]
pub extern "C" fn ecow_proved_array_clear(pointer: &mut ArrayPointer) -> u32
    ensures array { AltersArray (λ _. []) pointer.old.value result pointer.new.value }
    ensures statuses { IsAmong (OK ∷ NULL ∷ []) result }
{
    some_or!(pointer.array(), NULL).clear();
    OK
}

/// Removes all bytes. A block that no other value shares is kept, with its capacity.
#[unsafe(no_mangle)]
pub extern "C" fn ecow_proved_bytes_clear(pointer: &mut BytesPointer) -> u32
    ensures bytes { AltersBytes (λ _. []) pointer.old.value result pointer.new.value }
    ensures statuses { IsAmong (OK ∷ NULL ∷ []) result }
{
    some_or!(pointer.bytes(), NULL).clear();
    OK
}

/// Removes all characters. A block that no other text shares is kept, with its capacity.
#[unsafe(no_mangle)]
pub extern "C" fn ecow_proved_text_clear(pointer: &mut TextPointer) -> u32
    ensures text { AltersText (λ _. []) pointer.old.value result pointer.new.value }
    ensures statuses { IsAmong (OK ∷ NULL ∷ []) result }
{
    some_or!(pointer.text(), NULL).clear();
    OK
}

/// Removes all texts. A block that no other list shares is kept, with its capacity.
#[unsafe(no_mangle)]
pub extern "C" fn ecow_proved_texts_clear(pointer: &mut TextsPointer) -> u32
    ensures texts { AltersTexts (λ _. []) pointer.old.value result pointer.new.value }
    ensures statuses { IsAmong (OK ∷ NULL ∷ []) result }
{
    some_or!(pointer.texts(), NULL).clear();
    OK
}
