//! The calls on the texts of a list. Texts are passed and returned as clones, which share memory.
ghost use Rattle.std.specs.Prelude.{◌≡◌, ◌↔◌, ◌≤◌, ◌<◌, ◌+◌, ◌-◌, ◌∷◌, ◌++◌, [], length, take, insert, remove, slice_get, slice_set, true};
ghost use Rattle.std.specs.List.{splice};
ghost use Rattle.ecow_c.specs.Answers.{AltersTexts, AltersTextsBy, AreBothAnd, IsAmong, ReadsTo, WritesTo};
ghost use Rattle.ecow_c.specs.Indices.{InsertPasses, SplicePasses, is_outside};

use crate::pointer::{TextPointer, TextsPointer};
use crate::status::{
    CAPACITY, INDEX, IntoStatus, MEMORY, NULL, OK, ok_or_status, put, some_or, status,
};
use ecow_base::MAX_LEN;
use std::alloc::Global;

/// Replaces the text at `out` by a clone of the text at `index`.
#[unsafe(no_mangle)]
pub extern "C" fn ecow_proved_texts_get(
    pointer: &mut TextsPointer,
    index: usize,
    out: &mut TextPointer,
) -> u32
    ensures out { ReadsTo (λ xs. slice_get xs index)
        pointer.old.value result pointer.new.value out.old.value out.new.value }
    ensures statuses { IsAmong (OK ∷ MEMORY ∷ INDEX ∷ NULL ∷ []) result }
    ensures index { result ≡ INDEX
        ↔ AreBothAnd pointer.old.value out.old.value (λ xs _. length xs ≤ index) }
{
    let texts = some_or!(pointer.texts(), NULL);
    let out = some_or!(out.text(), NULL);
    let text = some_or!(texts.as_slice().get(index), INDEX);
    put(text.clone(), out)
}

/// Appends a clone of the text at `item`.
#[unsafe(no_mangle)]
pub extern "C" fn ecow_proved_texts_push(pointer: &mut TextsPointer, item: &mut TextPointer) -> u32
    ensures texts { AltersTextsBy (λ text xs. xs ++ text ∷ [])
        pointer.old.value item.old.value result pointer.new.value }
    ensures item { item.new.value ≡ item.old.value }
    ensures statuses { IsAmong (OK ∷ MEMORY ∷ CAPACITY ∷ NULL ∷ []) result }
    ensures capacity { result ≡ CAPACITY
        ↔ AreBothAnd pointer.old.value item.old.value (λ xs _. MAX_LEN ≤ length xs) }
{
    let texts = some_or!(pointer.texts(), NULL);
    let text = some_or!(item.text(), NULL);
    if texts.len() >= MAX_LEN {
        return CAPACITY;
    }
    let clone = ok_or_status!(text.clone());
    status(texts.push(clone))
}

/// Removes the last text, which replaces the text at `out`; `INDEX` if there is none.
#[unsafe(no_mangle)]
pub extern "C" fn ecow_proved_texts_pop(pointer: &mut TextsPointer, out: &mut TextPointer) -> u32
    ensures texts { AltersTextsBy (λ _ xs. take (length xs - 1) xs)
        pointer.old.value out.old.value result pointer.new.value }
    ensures out { WritesTo (λ xs. slice_get xs (length xs - 1))
        pointer.old.value result out.old.value out.new.value }
    ensures statuses { IsAmong (OK ∷ MEMORY ∷ INDEX ∷ NULL ∷ []) result }
    ensures index { result ≡ INDEX
        ↔ AreBothAnd pointer.old.value out.old.value (λ xs _. xs ≡ []) }
{
    let texts = some_or!(pointer.texts(), NULL);
    let out = some_or!(out.text(), NULL);
    *out = some_or!(ok_or_status!(texts.pop()), INDEX);
    OK
}

/// Replaces the text at `index` by a clone of the text at `item`.
#[unsafe(no_mangle)]
pub extern "C" fn ecow_proved_texts_set(
    pointer: &mut TextsPointer,
    index: usize,
    item: &mut TextPointer,
) -> u32
    ensures texts { AltersTextsBy (λ text xs. slice_set xs index text)
        pointer.old.value item.old.value result pointer.new.value }
    ensures item { item.new.value ≡ item.old.value }
    ensures statuses { IsAmong (OK ∷ MEMORY ∷ INDEX ∷ NULL ∷ []) result }
    ensures index { result ≡ INDEX
        ↔ AreBothAnd pointer.old.value item.old.value (λ xs _. length xs ≤ index) }
{
    let texts = some_or!(pointer.texts(), NULL);
    let text = some_or!(item.text(), NULL);
    if index >= texts.len() {
        return INDEX;
    }
    let clone = ok_or_status!(text.clone());
    status(texts.set(index, clone))
}

/// Inserts a clone of the text at `item` before the text at `index`; at the length, appends it.
#[unsafe(no_mangle)]
pub extern "C" fn ecow_proved_texts_insert(
    pointer: &mut TextsPointer,
    index: usize,
    item: &mut TextPointer,
) -> u32
    ensures texts { AltersTextsBy (λ text xs. insert xs index text)
        pointer.old.value item.old.value result pointer.new.value }
    ensures item { item.new.value ≡ item.old.value }
    ensures statuses { IsAmong (OK ∷ MEMORY ∷ CAPACITY ∷ INDEX ∷ NULL ∷ []) result }
    ensures index { result ≡ INDEX
        ↔ AreBothAnd pointer.old.value item.old.value (λ xs _. length xs < index) }
    ensures capacity { result ≡ CAPACITY ↔ AreBothAnd pointer.old.value item.old.value
        (λ xs _. InsertPasses index (length xs)) }
{
    let texts = some_or!(pointer.texts(), NULL);
    let text = some_or!(item.text(), NULL);
    if index > texts.len() {
        return INDEX;
    }
    if texts.len() >= MAX_LEN {
        return CAPACITY;
    }
    let clone = ok_or_status!(text.clone());
    status(texts.insert(index, clone))
}

/// Removes the text at `index`, which replaces the text at `out`.
#[unsafe(no_mangle)]
pub extern "C" fn ecow_proved_texts_remove(
    pointer: &mut TextsPointer,
    index: usize,
    out: &mut TextPointer,
) -> u32
    ensures texts { AltersTextsBy (λ _ xs. remove xs index)
        pointer.old.value out.old.value result pointer.new.value }
    ensures out { WritesTo (λ xs. slice_get xs index)
        pointer.old.value result out.old.value out.new.value }
    ensures statuses { IsAmong (OK ∷ MEMORY ∷ INDEX ∷ NULL ∷ []) result }
    ensures index { result ≡ INDEX
        ↔ AreBothAnd pointer.old.value out.old.value (λ xs _. length xs ≤ index) }
{
    let texts = some_or!(pointer.texts(), NULL);
    let out = some_or!(out.text(), NULL);
    if index >= texts.len() {
        return INDEX;
    }
    put(texts.remove(index), out)
}

/// Keeps the first `len` texts; all if there are fewer.
#[unsafe(no_mangle)]
pub extern "C" fn ecow_proved_texts_truncate(pointer: &mut TextsPointer, len: usize) -> u32
    ensures texts { AltersTexts (λ xs. take len xs) pointer.old.value result pointer.new.value }
    ensures statuses { IsAmong (OK ∷ MEMORY ∷ NULL ∷ []) result }
{
    status(some_or!(pointer.texts(), NULL).truncate(len))
}

/// Appends clones of the texts at `added`.
#[unsafe(no_mangle)]
pub extern "C" fn ecow_proved_texts_extend(
    pointer: &mut TextsPointer,
    added: &mut TextsPointer,
) -> u32
    ensures texts { AltersTextsBy (λ ys xs. xs ++ ys)
        pointer.old.value added.old.value result pointer.new.value }
    ensures added { added.new.value ≡ added.old.value }
    ensures statuses { IsAmong (OK ∷ MEMORY ∷ CAPACITY ∷ NULL ∷ []) result }
    ensures capacity { result ≡ CAPACITY ↔ AreBothAnd pointer.old.value added.old.value
        (λ xs ys. MAX_LEN < length xs + length ys) }
{
    let texts = some_or!(pointer.texts(), NULL);
    let added = some_or!(added.texts(), NULL);
    status(texts.extend_from_slice(added.as_slice()))
}

/// Replaces the texts from `start` up to `end` by clones of the texts at `added`.
#[unsafe(no_mangle)]
pub extern "C" fn ecow_proved_texts_splice(
    alloc: Global,
    pointer: &mut TextsPointer,
    start: usize,
    end: usize,
    added: &mut TextsPointer,
) -> u32
    ensures texts { AltersTextsBy (λ ys xs. splice xs start end ys)
        pointer.old.value added.old.value result pointer.new.value }
    ensures added { added.new.value ≡ added.old.value }
    ensures statuses { IsAmong (OK ∷ MEMORY ∷ CAPACITY ∷ INDEX ∷ NULL ∷ []) result }
    ensures index { result ≡ INDEX ↔ AreBothAnd pointer.old.value added.old.value
        (λ xs _. is_outside start end (length xs) ≡ true) }
    ensures capacity { result ≡ CAPACITY ↔ AreBothAnd pointer.old.value added.old.value
        (λ xs ys. SplicePasses start end (length ys) (length xs)) }
{
    let texts = some_or!(pointer.texts(), NULL);
    let added = some_or!(added.texts(), NULL);
    if start > end || end > texts.len() {
        return INDEX;
    }
    if texts.len() - (end - start) > MAX_LEN - added.len() {
        return CAPACITY;
    }
    let clones = ok_or_status!(Vec::from_clones(alloc, added.as_slice()));
    match texts.splice(start..end, clones) {
        Ok(_removed) => OK,
        Err(_) => MEMORY,
    }
}
