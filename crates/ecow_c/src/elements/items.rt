//! The calls on the items of a nested value. Values are passed and returned as clones, which share
//! memory.
ghost use Rattle.std.specs.Prelude.{◌≡◌, ◌↔◌, ◌≤◌, ◌<◌, ◌-◌, ◌∷◌, ◌++◌, [], length, take, insert, remove, slice_set, None, Some, IsSomeAnd};
ghost use Rattle.std.specs.Option.{option_map};
ghost use Rattle.ecow_nested.specs.Values.{depth_of, items_of, len_of, part_of};
ghost use Rattle.ecow_c.specs.Answers.{Alters, AltersBy, AreBothAnd, IsAmong, ReadsTo, WritesTo};
ghost use Rattle.ecow_c.specs.Indices.{InsertPasses};
ghost use Rattle.ecow_c.specs.Values.{CoversAt, IsDeepest, RisesAtMostBy, depth_at, item_at, last_item};

use crate::pointer::ValuePointer;
use crate::status::{
    CAPACITY, DEPTH, INDEX, IntoStatus, KIND, MEMORY, NULL, OK, ok_or_status, put, some_or, status,
};
use ecow_base::MAX_LEN;
use ecow_nested::MAX_DEPTH;

/// Replaces the value at `out` by a clone of the item, or of the field's value, at `index`.
#[unsafe(no_mangle)]
pub extern "C" fn ecow_proved_value_get(
    pointer: &mut ValuePointer,
    index: usize,
    out: &mut ValuePointer,
) -> u32
    ensures out { ReadsTo (λ value. part_of value index)
        pointer.old.value result pointer.new.value out.old.value out.new.value }
    ensures statuses { IsAmong (OK ∷ MEMORY ∷ INDEX ∷ KIND ∷ NULL ∷ []) result }
    ensures kind { result ≡ KIND
        ↔ AreBothAnd pointer.old.value out.old.value (λ value _. len_of value ≡ None) }
    ensures index { result ≡ INDEX ↔ AreBothAnd pointer.old.value out.old.value
        (λ value _. IsSomeAnd (len_of value) (λ len. len ≤ index)) }
{
    let value = some_or!(pointer.value(), NULL);
    let out = some_or!(out.value(), NULL);
    put(ok_or_status!(value.part(index)).clone(), out)
}

/// Appends a clone of the value at `item`.
#[unsafe(no_mangle)]
pub extern "C" fn ecow_proved_value_push(pointer: &mut ValuePointer, item: &mut ValuePointer) -> u32
    ensures value { AltersBy items_of (λ item. option_map (λ xs. xs ++ item ∷ []))
        pointer.old.value item.old.value result pointer.new.value }
    ensures covers { CoversAt pointer.old.value → CoversAt pointer.new.value }
    ensures bound { RisesAtMostBy pointer.old.value item.old.value result pointer.new.value }
    ensures item { item.new.value ≡ item.old.value }

    // When each status is returned.
    ensures statuses { IsAmong (OK ∷ MEMORY ∷ CAPACITY ∷ DEPTH ∷ KIND ∷ NULL ∷ []) result }
    ensures kind { result ≡ KIND
        ↔ AreBothAnd pointer.old.value item.old.value (λ value _. items_of value ≡ None) }
    ensures depth { result ≡ DEPTH ↔ AreBothAnd pointer.old.value item.old.value
        (λ value item. IsSomeAnd (items_of value) (λ _. IsDeepest item)) }
    ensures capacity { result ≡ CAPACITY ↔ AreBothAnd pointer.old.value item.old.value
        (λ value item. IsSomeAnd (items_of value)
        (λ xs. (depth_of item < MAX_DEPTH) × (MAX_LEN ≤ length xs))) }
{
    let value = some_or!(pointer.value(), NULL);
    let item = some_or!(item.value(), NULL);
    let items = some_or!(value.items(), KIND);
    if item.depth() >= MAX_DEPTH {
        return DEPTH;
    }
    if items.len() >= MAX_LEN {
        return CAPACITY;
    }
    let clone = ok_or_status!(item.clone());
    status(value.push(clone))
}

/// Removes the last item, which replaces the value at `out`; `INDEX` if there is none.
#[unsafe(no_mangle)]
pub extern "C" fn ecow_proved_value_pop(pointer: &mut ValuePointer, out: &mut ValuePointer) -> u32
    ensures value { AltersBy items_of (λ _. option_map (λ xs. take (length xs - 1) xs))
        pointer.old.value out.old.value result pointer.new.value }
    ensures out { WritesTo last_item pointer.old.value result out.old.value out.new.value }
    ensures covers { CoversAt pointer.old.value → CoversAt pointer.new.value }
    ensures bound { depth_at pointer.new.value ≤ depth_at pointer.old.value }

    // When each status is returned.
    ensures statuses { IsAmong (OK ∷ MEMORY ∷ INDEX ∷ KIND ∷ NULL ∷ []) result }
    ensures kind { result ≡ KIND
        ↔ AreBothAnd pointer.old.value out.old.value (λ value _. items_of value ≡ None) }
    ensures index { result ≡ INDEX
        ↔ AreBothAnd pointer.old.value out.old.value (λ value _. items_of value ≡ Some []) }
{
    let value = some_or!(pointer.value(), NULL);
    let out = some_or!(out.value(), NULL);
    put(value.pop(), out)
}

/// Replaces the item at `index` by a clone of the value at `item`.
#[unsafe(no_mangle)]
pub extern "C" fn ecow_proved_value_set(
    pointer: &mut ValuePointer,
    index: usize,
    item: &mut ValuePointer,
) -> u32
    ensures value { AltersBy items_of (λ item. option_map (λ xs. slice_set xs index item))
        pointer.old.value item.old.value result pointer.new.value }
    ensures covers { CoversAt pointer.old.value → CoversAt pointer.new.value }
    ensures bound { RisesAtMostBy pointer.old.value item.old.value result pointer.new.value }
    ensures item { item.new.value ≡ item.old.value }

    // When each status is returned.
    ensures statuses { IsAmong (OK ∷ MEMORY ∷ DEPTH ∷ INDEX ∷ KIND ∷ NULL ∷ []) result }
    ensures kind { result ≡ KIND
        ↔ AreBothAnd pointer.old.value item.old.value (λ value _. items_of value ≡ None) }
    ensures index { result ≡ INDEX ↔ AreBothAnd pointer.old.value item.old.value
        (λ value _. IsSomeAnd (items_of value) (λ xs. length xs ≤ index)) }
    ensures depth { result ≡ DEPTH ↔ AreBothAnd pointer.old.value item.old.value
        (λ value item. IsSomeAnd (items_of value)
        (λ xs. (index < length xs) × IsDeepest item)) }
{
    let value = some_or!(pointer.value(), NULL);
    let item = some_or!(item.value(), NULL);
    let items = some_or!(value.items(), KIND);
    if index >= items.len() {
        return INDEX;
    }
    if item.depth() >= MAX_DEPTH {
        return DEPTH;
    }
    let clone = ok_or_status!(item.clone());
    status(value.set(index, clone))
}

/// Exchanges the item at `index` with the value at `other`.
#[unsafe(no_mangle)]
pub extern "C" fn ecow_proved_value_swap(
    pointer: &mut ValuePointer,
    index: usize,
    other: &mut ValuePointer,
) -> u32
    ensures value { AltersBy items_of (λ item. option_map (λ xs. slice_set xs index item))
        pointer.old.value other.old.value result pointer.new.value }
    ensures other { WritesTo (item_at index)
        pointer.old.value result other.old.value other.new.value }
    ensures covers { CoversAt pointer.old.value → CoversAt pointer.new.value }
    ensures bound { RisesAtMostBy pointer.old.value other.old.value result pointer.new.value }

    // When each status is returned.
    ensures statuses { IsAmong (OK ∷ MEMORY ∷ DEPTH ∷ INDEX ∷ KIND ∷ NULL ∷ []) result }
    ensures kind { result ≡ KIND
        ↔ AreBothAnd pointer.old.value other.old.value (λ value _. items_of value ≡ None) }
    ensures index { result ≡ INDEX ↔ AreBothAnd pointer.old.value other.old.value
        (λ value _. IsSomeAnd (items_of value) (λ xs. length xs ≤ index)) }
    ensures depth { result ≡ DEPTH ↔ AreBothAnd pointer.old.value other.old.value
        (λ value other. IsSomeAnd (items_of value)
        (λ xs. (index < length xs) × IsDeepest other)) }
{
    let value = some_or!(pointer.value(), NULL);
    let other = some_or!(other.value(), NULL);
    status(value.swap(index, other))
}

/// Inserts a clone of the value at `item` before the item at `index`; at the length, appends it.
#[unsafe(no_mangle)]
pub extern "C" fn ecow_proved_value_insert(
    pointer: &mut ValuePointer,
    index: usize,
    item: &mut ValuePointer,
) -> u32
    ensures value { AltersBy items_of (λ item. option_map (λ xs. insert xs index item))
        pointer.old.value item.old.value result pointer.new.value }
    ensures covers { CoversAt pointer.old.value → CoversAt pointer.new.value }
    ensures bound { RisesAtMostBy pointer.old.value item.old.value result pointer.new.value }
    ensures item { item.new.value ≡ item.old.value }

    // When each status is returned.
    ensures statuses { IsAmong
        (OK ∷ MEMORY ∷ CAPACITY ∷ DEPTH ∷ INDEX ∷ KIND ∷ NULL ∷ []) result }
    ensures kind { result ≡ KIND
        ↔ AreBothAnd pointer.old.value item.old.value (λ value _. items_of value ≡ None) }
    ensures index { result ≡ INDEX ↔ AreBothAnd pointer.old.value item.old.value
        (λ value _. IsSomeAnd (items_of value) (λ xs. length xs < index)) }
    ensures depth { result ≡ DEPTH ↔ AreBothAnd pointer.old.value item.old.value
        (λ value item. IsSomeAnd (items_of value)
        (λ xs. (index ≤ length xs) × IsDeepest item)) }
    ensures capacity { result ≡ CAPACITY ↔ AreBothAnd pointer.old.value item.old.value
        (λ value item. IsSomeAnd (items_of value)
        (λ xs. (depth_of item < MAX_DEPTH) × InsertPasses index (length xs))) }
{
    let value = some_or!(pointer.value(), NULL);
    let item = some_or!(item.value(), NULL);
    let items = some_or!(value.items(), KIND);
    if index > items.len() {
        return INDEX;
    }
    if item.depth() >= MAX_DEPTH {
        return DEPTH;
    }
    if items.len() >= MAX_LEN {
        return CAPACITY;
    }
    let clone = ok_or_status!(item.clone());
    status(value.insert(index, clone))
}

/// Removes the item at `index`, which replaces the value at `out`.
#[unsafe(no_mangle)]
pub extern "C" fn ecow_proved_value_remove(
    pointer: &mut ValuePointer,
    index: usize,
    out: &mut ValuePointer,
) -> u32
    ensures value { AltersBy items_of (λ _. option_map (λ xs. remove xs index))
        pointer.old.value out.old.value result pointer.new.value }
    ensures out { WritesTo (item_at index) pointer.old.value result out.old.value out.new.value }
    ensures covers { CoversAt pointer.old.value → CoversAt pointer.new.value }
    ensures bound { depth_at pointer.new.value ≤ depth_at pointer.old.value }

    // When each status is returned.
    ensures statuses { IsAmong (OK ∷ MEMORY ∷ INDEX ∷ KIND ∷ NULL ∷ []) result }
    ensures kind { result ≡ KIND
        ↔ AreBothAnd pointer.old.value out.old.value (λ value _. items_of value ≡ None) }
    ensures index { result ≡ INDEX ↔ AreBothAnd pointer.old.value out.old.value
        (λ value _. IsSomeAnd (items_of value) (λ xs. length xs ≤ index)) }
{
    let value = some_or!(pointer.value(), NULL);
    let out = some_or!(out.value(), NULL);
    put(value.remove(index), out)
}

/// Keeps the first `len` items; all if there are fewer.
#[unsafe(no_mangle)]
pub extern "C" fn ecow_proved_value_truncate(pointer: &mut ValuePointer, len: usize) -> u32
    ensures value { Alters items_of (option_map (λ xs. take len xs))
        pointer.old.value result pointer.new.value }
    ensures covers { CoversAt pointer.old.value → CoversAt pointer.new.value }
    ensures bound { depth_at pointer.new.value ≤ depth_at pointer.old.value }
    ensures statuses { IsAmong (OK ∷ MEMORY ∷ KIND ∷ NULL ∷ []) result }
    ensures kind { result ≡ KIND ↔ IsSomeAnd pointer.old.value (λ value. items_of value ≡ None) }
{
    status(some_or!(pointer.value(), NULL).truncate(len))
}
