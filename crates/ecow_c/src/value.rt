//! The calls on nested values: their kinds, what each kind holds, and fields. Values are passed and
//! returned as clones, which share memory.
ghost use Rattle.std.specs.Prelude.{◌≡◌, ◌≢◌, ◌↔◌, ◌≤◌, ◌∷◌, ◌++◌, [], length, false, true, None, Some, IsSomeAnd};
ghost use Rattle.std.specs.Option.{option_map};
ghost use Rattle.std.specs.Str.{is_utf8};
ghost use Rattle.ecow_nested.specs.Values.{truth_of, number_of, real_of, text_of, items_of, fields_of, new_field, with_field, without_field};
ghost use Rattle.ecow_c.specs.Answers.{Alters, AltersBy, AreBothAnd, IsAmong, Reads, ReadsTo, WritesTo};
ghost use Rattle.ecow_c.specs.Values.{CoversAt, HasNoFields, HasField, IsDeepest, LacksField, LacksPosition, RisesAtMostBy, depth_at, field_at, kind_at, kind_number, len_at, name_at, position_at};

use crate::pointer::{TextPointer, ValuePointer};
use crate::status::{
    CAPACITY, DEPTH, INDEX, IntoStatus, KIND, MEMORY, NULL, OK, UTF8, ok_or_status, put, some_or,
    status,
};
use crate::text::to_str;
use ecow_nested::{Kind, MAX_DEPTH, Value};
use std::alloc::Global;

/// Replaces the value by `new`.
pub(crate) fn assign(pointer: &mut ValuePointer, new: Value) -> u32
    ensures value { Alters (λ value. value) (λ _. new) pointer.old.value result pointer.new.value }
    ensures statuses { IsAmong (OK ∷ NULL ∷ []) result }
{
    let value = some_or!(pointer.value(), NULL);
    *value = new;
    OK
}

/// The number of a kind.
fn number(kind: Kind) -> u32
    ensures { result ≡ kind_number kind }
{
    match kind {
        Kind::Nothing => 0,
        Kind::Truth => 1,
        Kind::Number => 2,
        Kind::Real => 3,
        Kind::Text => 4,
        Kind::List => 5,
        Kind::Fields => 6,
    }
}

/// The kind of the value; for a null pointer that of `nothing`.
#[unsafe(no_mangle)]
pub extern "C" fn ecow_proved_value_kind(pointer: &mut ValuePointer) -> u32
    ensures kind { result ≡ kind_at pointer.old.value }
    ensures unchanged { pointer.new.value ≡ pointer.old.value }
{
    number(some_or!(pointer.value(), 0).kind())
}

/// The number of items or fields; 0 for a value of another kind and for a null pointer.
#[unsafe(no_mangle)]
pub extern "C" fn ecow_proved_value_len(pointer: &mut ValuePointer) -> usize
    ensures len { result ≡ len_at pointer.old.value }
    ensures unchanged { pointer.new.value ≡ pointer.old.value }
{
    some_or!(pointer.value(), 0).len().unwrap_or(0)
}

/// The depth of the value; 0 for a null pointer.
#[unsafe(no_mangle)]
pub extern "C" fn ecow_proved_value_depth(pointer: &mut ValuePointer) -> u32
    ensures depth { result ≡ depth_at pointer.old.value }
    ensures unchanged { pointer.new.value ≡ pointer.old.value }
{
    some_or!(pointer.value(), 0).depth()
}

/// Replaces the value by a truth value.
#[unsafe(no_mangle)]
pub extern "C" fn ecow_proved_value_set_truth(pointer: &mut ValuePointer, truth: bool) -> u32
    ensures value { Alters truth_of (λ _. Some truth) pointer.old.value result pointer.new.value }
    ensures statuses { IsAmong (OK ∷ NULL ∷ []) result }
{
    assign(pointer, Value::Truth(truth))
}

/// Replaces the value by a number.
#[unsafe(no_mangle)]
pub extern "C" fn ecow_proved_value_set_number(pointer: &mut ValuePointer, number: i64) -> u32
    ensures value { Alters number_of (λ _. Some number) pointer.old.value result pointer.new.value }
    ensures statuses { IsAmong (OK ∷ NULL ∷ []) result }
{
    assign(pointer, Value::Number(number))
}

/// Replaces the value by a floating-point number.
#[unsafe(no_mangle)]
pub extern "C" fn ecow_proved_value_set_real(pointer: &mut ValuePointer, real: f64) -> u32
    ensures value { Alters real_of (λ _. Some real) pointer.old.value result pointer.new.value }
    ensures statuses { IsAmong (OK ∷ NULL ∷ []) result }
{
    assign(pointer, Value::Real(real))
}

/// Replaces the value by a clone of the text at `from`.
#[unsafe(no_mangle)]
pub extern "C" fn ecow_proved_value_set_text(
    pointer: &mut ValuePointer,
    from: &mut TextPointer,
) -> u32
    ensures value { AltersBy text_of (λ text _. Some text)
        pointer.old.value from.old.value result pointer.new.value }
    ensures from { from.new.value ≡ from.old.value }
    ensures statuses { IsAmong (OK ∷ MEMORY ∷ NULL ∷ []) result }
{
    let value = some_or!(pointer.value(), NULL);
    let text = some_or!(from.text(), NULL);
    *value = Value::Text(ok_or_status!(text.clone()));
    OK
}

/// Replaces the value by an empty list.
#[unsafe(no_mangle)]
pub extern "C" fn ecow_proved_value_set_list(alloc: Global, pointer: &mut ValuePointer) -> u32
    ensures value { Alters items_of (λ _. Some []) pointer.old.value result pointer.new.value }
    ensures depth { result ≡ OK → depth_at pointer.new.value ≡ 1 }
    ensures statuses { IsAmong (OK ∷ NULL ∷ []) result }
{
    assign(pointer, Value::new_list(alloc))
}

/// Replaces the value by one with empty fields.
#[unsafe(no_mangle)]
pub extern "C" fn ecow_proved_value_set_fields(alloc: Global, pointer: &mut ValuePointer) -> u32
    ensures value { Alters fields_of (λ _. Some []) pointer.old.value result pointer.new.value }
    ensures depth { result ≡ OK → depth_at pointer.new.value ≡ 1 }
    ensures statuses { IsAmong (OK ∷ NULL ∷ []) result }
{
    assign(pointer, Value::new_fields(alloc))
}

/// Writes the truth value to `out`.
#[unsafe(no_mangle)]
pub extern "C" fn ecow_proved_value_truth(pointer: &mut ValuePointer, out: &mut bool) -> u32
    ensures out { Reads truth_of pointer.old.value result pointer.new.value out.old out.new }
    ensures statuses { IsAmong (OK ∷ KIND ∷ NULL ∷ []) result }
    ensures kind { result ≡ KIND ↔ IsSomeAnd pointer.old.value (λ value. truth_of value ≡ None) }
{
    let value = some_or!(pointer.value(), NULL);
    *out = some_or!(value.truth(), KIND);
    OK
}

/// Writes the number to `out`.
#[unsafe(no_mangle)]
pub extern "C" fn ecow_proved_value_number(pointer: &mut ValuePointer, out: &mut i64) -> u32
    ensures out { Reads number_of pointer.old.value result pointer.new.value out.old out.new }
    ensures statuses { IsAmong (OK ∷ KIND ∷ NULL ∷ []) result }
    ensures kind { result ≡ KIND ↔ IsSomeAnd pointer.old.value (λ value. number_of value ≡ None) }
{
    let value = some_or!(pointer.value(), NULL);
    *out = some_or!(value.number(), KIND);
    OK
}

/// Writes the floating-point number to `out`.
#[unsafe(no_mangle)]
pub extern "C" fn ecow_proved_value_real(pointer: &mut ValuePointer, out: &mut f64) -> u32
    ensures out { Reads real_of pointer.old.value result pointer.new.value out.old out.new }
    ensures statuses { IsAmong (OK ∷ KIND ∷ NULL ∷ []) result }
    ensures kind { result ≡ KIND ↔ IsSomeAnd pointer.old.value (λ value. real_of value ≡ None) }
{
    let value = some_or!(pointer.value(), NULL);
    *out = some_or!(value.real(), KIND);
    OK
}

/// Replaces the text at `out` by a clone of the text.
#[unsafe(no_mangle)]
pub extern "C" fn ecow_proved_value_text(pointer: &mut ValuePointer, out: &mut TextPointer) -> u32
    ensures out { ReadsTo text_of
        pointer.old.value result pointer.new.value out.old.value out.new.value }
    ensures statuses { IsAmong (OK ∷ MEMORY ∷ KIND ∷ NULL ∷ []) result }
    ensures kind { result ≡ KIND
        ↔ AreBothAnd pointer.old.value out.old.value (λ value _. text_of value ≡ None) }
{
    let value = some_or!(pointer.value(), NULL);
    let out = some_or!(out.text(), NULL);
    let text = some_or!(value.text(), KIND);
    put(text.clone(), out)
}

/// Replaces the value at `out` by a clone of the value of the first field with this name; `INDEX`
/// if there is none.
#[unsafe(no_mangle)]
pub extern "C" fn ecow_proved_value_get_field(
    pointer: &mut ValuePointer,
    name: &[u8],
    out: &mut ValuePointer,
) -> u32
    ensures out { ReadsTo (field_at name.now)
        pointer.old.value result pointer.new.value out.old.value out.new.value }
    ensures statuses { IsAmong (OK ∷ MEMORY ∷ INDEX ∷ UTF8 ∷ KIND ∷ NULL ∷ []) result }
    ensures utf8 { result ≡ UTF8
        ↔ AreBothAnd pointer.old.value out.old.value (λ _ _. is_utf8 name.now ≡ false) }
    ensures kind { result ≡ KIND
        ↔ AreBothAnd pointer.old.value out.old.value (λ value _. HasNoFields name.now value) }
    ensures index { result ≡ INDEX
        ↔ AreBothAnd pointer.old.value out.old.value (λ value _. LacksField name.now value) }
{
    let value = some_or!(pointer.value(), NULL);
    let out = some_or!(out.value(), NULL);
    let name = some_or!(to_str(name), UTF8);
    put(ok_or_status!(value.field(name)).clone(), out)
}

/// Writes the index of the first field with this name to `out`; `INDEX` if there is none.
#[unsafe(no_mangle)]
pub extern "C" fn ecow_proved_value_position(
    pointer: &mut ValuePointer,
    name: &[u8],
    out: &mut usize,
) -> u32
    ensures out { Reads (position_at name.now)
        pointer.old.value result pointer.new.value out.old out.new }
    ensures statuses { IsAmong (OK ∷ INDEX ∷ UTF8 ∷ KIND ∷ NULL ∷ []) result }
    ensures utf8 { result ≡ UTF8
        ↔ IsSomeAnd pointer.old.value (λ _. is_utf8 name.now ≡ false) }
    ensures kind { result ≡ KIND ↔ IsSomeAnd pointer.old.value (HasNoFields name.now) }
    ensures index { result ≡ INDEX ↔ IsSomeAnd pointer.old.value (LacksPosition name.now) }
{
    let value = some_or!(pointer.value(), NULL);
    let name = some_or!(to_str(name), UTF8);
    let fields = some_or!(value.fields(), KIND);
    *out = some_or!(fields.position(name), INDEX);
    OK
}

/// A clone of `$item` for a field of `$value`. If it can't be in one, the function returns the
/// status.
macro_rules! clone_for_field {
    ($value:expr, $item:expr) => {{
        if $value.fields().is_none() {
            return KIND;
        }
        if $item.depth() >= MAX_DEPTH {
            return DEPTH;
        }
        ok_or_status!($item.clone())
    }};
}

/// Replaces the value of the first field with this name by a clone of the value at `item`, or
/// appends a field if there is none.
#[unsafe(no_mangle)]
pub extern "C" fn ecow_proved_value_set_field(
    pointer: &mut ValuePointer,
    name: &[u8],
    item: &mut ValuePointer,
) -> u32
    ensures value { AltersBy fields_of (λ item. option_map (with_field name.now item))
        pointer.old.value item.old.value result pointer.new.value }
    ensures covers { CoversAt pointer.old.value → CoversAt pointer.new.value }
    ensures bound { RisesAtMostBy pointer.old.value item.old.value result pointer.new.value }
    ensures item { item.new.value ≡ item.old.value }

    // When each status is returned.
    ensures statuses { IsAmong (OK ∷ MEMORY ∷ DEPTH ∷ UTF8 ∷ KIND ∷ NULL ∷ []) result }
    ensures utf8 { result ≡ UTF8
        ↔ AreBothAnd pointer.old.value item.old.value (λ _ _. is_utf8 name.now ≡ false) }
    ensures kind { result ≡ KIND
        ↔ AreBothAnd pointer.old.value item.old.value (λ value _. HasNoFields name.now value) }
    ensures depth { result ≡ DEPTH ↔ AreBothAnd pointer.old.value item.old.value
        (λ value item. (is_utf8 name.now ≡ true) × (fields_of value ≢ None) × IsDeepest item) }
{
    let value = some_or!(pointer.value(), NULL);
    let item = some_or!(item.value(), NULL);
    let name = some_or!(to_str(name), UTF8);
    let clone = clone_for_field!(value, item);
    status(value.set_field(name, clone))
}

/// Appends a field with a clone of the value at `item`, without looking for its name.
#[unsafe(no_mangle)]
pub extern "C" fn ecow_proved_value_push_field(
    pointer: &mut ValuePointer,
    name: &[u8],
    item: &mut ValuePointer,
) -> u32
    ensures value { AltersBy fields_of
        (λ item. option_map (λ fields. fields ++ new_field name.now item ∷ []))
        pointer.old.value item.old.value result pointer.new.value }
    ensures covers { CoversAt pointer.old.value → CoversAt pointer.new.value }
    ensures bound { RisesAtMostBy pointer.old.value item.old.value result pointer.new.value }
    ensures item { item.new.value ≡ item.old.value }

    // When each status is returned.
    ensures statuses { IsAmong (OK ∷ MEMORY ∷ DEPTH ∷ UTF8 ∷ KIND ∷ NULL ∷ []) result }
    ensures utf8 { result ≡ UTF8
        ↔ AreBothAnd pointer.old.value item.old.value (λ _ _. is_utf8 name.now ≡ false) }
    ensures kind { result ≡ KIND
        ↔ AreBothAnd pointer.old.value item.old.value (λ value _. HasNoFields name.now value) }
    ensures depth { result ≡ DEPTH ↔ AreBothAnd pointer.old.value item.old.value
        (λ value item. (is_utf8 name.now ≡ true) × (fields_of value ≢ None) × IsDeepest item) }
{
    let value = some_or!(pointer.value(), NULL);
    let item = some_or!(item.value(), NULL);
    let name = some_or!(to_str(name), UTF8);
    let clone = clone_for_field!(value, item);
    status(value.push_field(name, clone))
}

/// Exchanges the value of the first field with this name with the value at `other`; `INDEX` if
/// there is none.
#[unsafe(no_mangle)]
pub extern "C" fn ecow_proved_value_swap_field(
    pointer: &mut ValuePointer,
    name: &[u8],
    other: &mut ValuePointer,
) -> u32
    ensures value { AltersBy fields_of (λ item. option_map (with_field name.now item))
        pointer.old.value other.old.value result pointer.new.value }
    ensures other { WritesTo (field_at name.now)
        pointer.old.value result other.old.value other.new.value }
    ensures covers { CoversAt pointer.old.value → CoversAt pointer.new.value }
    ensures bound { RisesAtMostBy pointer.old.value other.old.value result pointer.new.value }

    // When each status is returned.
    ensures statuses { IsAmong (OK ∷ MEMORY ∷ DEPTH ∷ INDEX ∷ UTF8 ∷ KIND ∷ NULL ∷ []) result }
    ensures depth { result ≡ DEPTH ↔ AreBothAnd pointer.old.value other.old.value
        (λ value other. HasField name.now value × IsDeepest other) }
    ensures utf8 { result ≡ UTF8
        ↔ AreBothAnd pointer.old.value other.old.value (λ _ _. is_utf8 name.now ≡ false) }
    ensures kind { result ≡ KIND
        ↔ AreBothAnd pointer.old.value other.old.value (λ value _. HasNoFields name.now value) }
    ensures index { result ≡ INDEX
        ↔ AreBothAnd pointer.old.value other.old.value (λ value _. LacksField name.now value) }
{
    let value = some_or!(pointer.value(), NULL);
    let other = some_or!(other.value(), NULL);
    let name = some_or!(to_str(name), UTF8);
    status(value.swap_field(name, other))
}

/// Removes the first field with this name, whose value replaces the value at `out`; `INDEX` if
/// there is none.
#[unsafe(no_mangle)]
pub extern "C" fn ecow_proved_value_remove_field(
    pointer: &mut ValuePointer,
    name: &[u8],
    out: &mut ValuePointer,
) -> u32
    ensures value { AltersBy fields_of (λ _. option_map (without_field name.now))
        pointer.old.value out.old.value result pointer.new.value }
    ensures out { WritesTo (field_at name.now)
        pointer.old.value result out.old.value out.new.value }
    ensures covers { CoversAt pointer.old.value → CoversAt pointer.new.value }
    ensures bound { depth_at pointer.new.value ≤ depth_at pointer.old.value }

    // When each status is returned.
    ensures statuses { IsAmong (OK ∷ MEMORY ∷ INDEX ∷ UTF8 ∷ KIND ∷ NULL ∷ []) result }
    ensures utf8 { result ≡ UTF8
        ↔ AreBothAnd pointer.old.value out.old.value (λ _ _. is_utf8 name.now ≡ false) }
    ensures kind { result ≡ KIND
        ↔ AreBothAnd pointer.old.value out.old.value (λ value _. HasNoFields name.now value) }
    ensures index { result ≡ INDEX
        ↔ AreBothAnd pointer.old.value out.old.value (λ value _. LacksField name.now value) }
{
    let value = some_or!(pointer.value(), NULL);
    let out = some_or!(out.value(), NULL);
    let name = some_or!(to_str(name), UTF8);
    put(value.remove_field(name), out)
}

/// Replaces the text at `out` by a clone of the name of the field at `index`.
#[unsafe(no_mangle)]
pub extern "C" fn ecow_proved_value_field_name(
    pointer: &mut ValuePointer,
    index: usize,
    out: &mut TextPointer,
) -> u32
    ensures out { ReadsTo (name_at index)
        pointer.old.value result pointer.new.value out.old.value out.new.value }
    ensures statuses { IsAmong (OK ∷ MEMORY ∷ INDEX ∷ KIND ∷ NULL ∷ []) result }
    ensures kind { result ≡ KIND
        ↔ AreBothAnd pointer.old.value out.old.value (λ value _. fields_of value ≡ None) }
    ensures index { result ≡ INDEX ↔ AreBothAnd pointer.old.value out.old.value
        (λ value _. IsSomeAnd (fields_of value) (λ fields. length fields ≤ index)) }
{
    let value = some_or!(pointer.value(), NULL);
    let out = some_or!(out.text(), NULL);
    put(ok_or_status!(value.name(index)).clone(), out)
}
