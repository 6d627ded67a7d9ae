//! The calls on texts. Indices and lengths count bytes.
ghost use Rattle.std.specs.Prelude.{◌≡◌, ◌↔◌, ◌≤◌, ◌<◌, ◌+◌, ◌-◌, ◌*◌, ◌&&◌, ◌∷◌, ◌++◌, [], length, take, remove, slice_get, true, false, Some, IfSome, IsSomeAnd, is_some};
ghost use Rattle.std.specs.Char.{IsScalar, len_utf8};
ghost use Rattle.std.specs.List.{insert_slice, repeat, replace_range};
ghost use Rattle.std.specs.Option.{option_map_or};
ghost use Rattle.std.specs.Str.{chars, encode_utf8_all, is_utf8};
ghost use Rattle.std.specs.StrCase.Lower.{str_to_lowercase};
ghost use Rattle.std.specs.StrCase.Upper.{str_to_uppercase};
ghost use Rattle.ecow_base.specs.Replaced.{replace_all};
ghost use Rattle.ecow_base.specs.Utf8.{utf8_len, is_boundary, chars_before};
ghost use Rattle.ecow_c.specs.Answers.{Alters, AltersText, IsAmong, Reads, RefusesPast, Writes};
ghost use Rattle.ecow_c.specs.Indices.{Heeds, IsInside, index_status, range_status};
ghost use Rattle.ecow_c.specs.Texts.{char_from};

use crate::pointer::TextPointer;
use crate::status::{
    BOUNDARY, CAPACITY, INDEX, IntoStatus, MEMORY, NULL, OK, UTF8, ok_or_status, put, some_or,
    status,
};
use ecow_base::MAX_LEN;
use ecow_bytes::are_few_ascii;
use ecow_string::EcoString;

/// `OK` if the text may be cut at `index`, or else the status that says why not.
fn cut_at(text: &EcoString, index: usize) -> u32
    ensures { result ≡ index_status text.now.chars index }
{
    if index > text.len() {
        INDEX
    } else if text.is_char_boundary(index) {
        OK
    } else {
        BOUNDARY
    }
}

/// The bytes as a `str`, if they are UTF-8. A few bytes of ASCII, which most names are, are
/// recognized by two machine words.
#[inline(always)]
pub(crate) fn to_str(bytes: &[u8]) -> Option<&str>
    ensures bytes { IfSome result (λ text. text.now ≡ bytes.now) }
    ensures utf8 { is_utf8 bytes.now ≡ is_some result }
{
    if are_few_ascii(bytes) {
        return Some(unsafe { str::from_utf8_unchecked(bytes) });
    }
    match str::from_utf8(bytes) {
        Ok(text) => Some(text),
        Err(_) => None,
    }
}

/// Whether the bytes are UTF-8.
#[unsafe(no_mangle)]
pub extern "C" fn ecow_proved_is_utf8(bytes: &[u8]) -> bool
    ensures { result ≡ is_utf8 bytes.now }
{
    to_str(bytes).is_some()
}

/// Whether a character begins at `index` or the text ends there; false for a null pointer.
#[unsafe(no_mangle)]
pub extern "C" fn ecow_proved_text_is_boundary(pointer: &mut TextPointer, index: usize) -> bool
    ensures boundary { result
        ≡ option_map_or (λ text. is_boundary text.chars index) pointer.old.value false }
    ensures unchanged { pointer.new.value ≡ pointer.old.value }
{
    some_or!(pointer.text(), false).is_char_boundary(index)
}

/// Writes the number of the character that begins at `index` to `out`; `INDEX` at the end.
#[unsafe(no_mangle)]
pub extern "C" fn ecow_proved_text_get(
    pointer: &mut TextPointer,
    index: usize,
    out: &mut u32,
) -> u32
    ensures out { Reads (char_from index)
        pointer.old.value result pointer.new.value out.old out.new }
    ensures statuses { IsAmong (OK ∷ INDEX ∷ BOUNDARY ∷ NULL ∷ []) result }
    ensures index { result ≡ INDEX
        ↔ IsSomeAnd pointer.old.value (λ text. utf8_len text.chars ≤ index) }
    ensures boundary { result ≡ BOUNDARY
        ↔ IsSomeAnd pointer.old.value (λ text. IsInside text.chars index) }
{
    let text = some_or!(pointer.text(), NULL);
    if index >= text.len() {
        return INDEX;
    }
    if !text.is_char_boundary(index) {
        return BOUNDARY;
    }
    *out = char_at(text, index) as u32;
    OK
}

/// The character that begins at `index`.
fn char_at(text: &EcoString, index: usize) -> char
    requires boundary { is_boundary text.now.chars index ≡ true }
    requires in_bounds { index < utf8_len text.now.chars }
    ensures { slice_get text.now.chars (chars_before text.now.chars index) ≡ Some result }
{
    text.as_str()[index..].chars().next().unwrap()
}

/// Appends a character, given by its number.
#[unsafe(no_mangle)]
pub extern "C" fn ecow_proved_text_push(pointer: &mut TextPointer, character: u32) -> u32
    ensures text { AltersText (λ cs. cs ++ character ∷ [])
        pointer.old.value result pointer.new.value }
    ensures statuses { IsAmong (OK ∷ MEMORY ∷ CAPACITY ∷ UTF8 ∷ NULL ∷ []) result }
    ensures utf8 { result ≡ UTF8 ↔ IsSomeAnd pointer.old.value (λ _. IsScalar character → ⊥) }
    ensures capacity { result ≡ CAPACITY ↔ IsSomeAnd pointer.old.value (λ text.
        IsScalar character × (MAX_LEN < utf8_len text.chars + len_utf8 character)) }
{
    let text = some_or!(pointer.text(), NULL);
    let c = some_or!(char::from_u32(character), UTF8);
    status(text.push(c))
}

/// Removes the last character and writes its number to `out`; `INDEX` if there is none.
#[unsafe(no_mangle)]
pub extern "C" fn ecow_proved_text_pop(pointer: &mut TextPointer, out: &mut u32) -> u32
    ensures text { AltersText (λ cs. take (length cs - 1) cs)
        pointer.old.value result pointer.new.value }
    ensures out { Writes (λ text. slice_get text.chars (length text.chars - 1))
        pointer.old.value result out.old out.new }
    ensures statuses { IsAmong (OK ∷ MEMORY ∷ INDEX ∷ NULL ∷ []) result }
    ensures index { result ≡ INDEX
        ↔ IsSomeAnd pointer.old.value (λ text. text.chars ≡ []) }
{
    let text = some_or!(pointer.text(), NULL);
    *out = some_or!(ok_or_status!(text.pop()), INDEX) as u32;
    OK
}

/// Inserts the bytes `added`, which must be UTF-8, at `index`.
#[unsafe(no_mangle)]
pub extern "C" fn ecow_proved_text_insert(
    pointer: &mut TextPointer,
    index: usize,
    added: &[u8],
) -> u32
    ensures text { AltersText (λ cs. insert_slice cs (chars_before cs index) (chars added.now))
        pointer.old.value result pointer.new.value }
    ensures statuses { IsAmong (OK ∷ MEMORY ∷ CAPACITY ∷ INDEX ∷ BOUNDARY ∷ UTF8 ∷ NULL ∷ [])
        result }
    ensures utf8 { result ≡ UTF8 ↔ IsSomeAnd pointer.old.value (λ _. is_utf8 added.now ≡ false) }
    ensures index { IfSome pointer.old.value
        (λ text. is_utf8 added.now ≡ true → Heeds (index_status text.chars index) result) }
    ensures capacity { result ≡ CAPACITY ↔ IsSomeAnd pointer.old.value (λ text.
        (is_utf8 added.now ≡ true) × (index_status text.chars index ≡ OK)
        × (MAX_LEN < utf8_len text.chars + length added.now)) }
{
    let text = some_or!(pointer.text(), NULL);
    let added = some_or!(to_str(added), UTF8);
    let cut = cut_at(text, index);
    if cut != OK {
        return cut;
    }
    status(text.insert_str(index, added))
}

/// Removes the character that begins at `index` and writes its number to `out`; `INDEX` at the end.
#[unsafe(no_mangle)]
pub extern "C" fn ecow_proved_text_remove(
    pointer: &mut TextPointer,
    index: usize,
    out: &mut u32,
) -> u32
    ensures text { AltersText (λ cs. remove cs (chars_before cs index))
        pointer.old.value result pointer.new.value }
    ensures out { Writes (char_from index) pointer.old.value result out.old out.new }
    ensures statuses { IsAmong (OK ∷ MEMORY ∷ INDEX ∷ BOUNDARY ∷ NULL ∷ []) result }
    ensures index { result ≡ INDEX
        ↔ IsSomeAnd pointer.old.value (λ text. utf8_len text.chars ≤ index) }
    ensures boundary { result ≡ BOUNDARY
        ↔ IsSomeAnd pointer.old.value (λ text. IsInside text.chars index) }
{
    let text = some_or!(pointer.text(), NULL);
    if index >= text.len() {
        return INDEX;
    }
    if !text.is_char_boundary(index) {
        return BOUNDARY;
    }
    *out = ok_or_status!(text.remove(index)) as u32;
    OK
}

/// Keeps the first `len` bytes; all if there are fewer.
#[unsafe(no_mangle)]
pub extern "C" fn ecow_proved_text_truncate(pointer: &mut TextPointer, len: usize) -> u32
    ensures text { AltersText (λ cs. take (chars_before cs len) cs)
        pointer.old.value result pointer.new.value }
    ensures statuses { IsAmong (OK ∷ MEMORY ∷ BOUNDARY ∷ NULL ∷ []) result }
    ensures boundary { result ≡ BOUNDARY ↔ IsSomeAnd pointer.old.value
        (λ text. (len ≤ utf8_len text.chars) × (is_boundary text.chars len ≡ false)) }
{
    let text = some_or!(pointer.text(), NULL);
    if len <= text.len() && !text.is_char_boundary(len) {
        return BOUNDARY;
    }
    status(text.truncate(len))
}

/// Appends the bytes `added`, which must be UTF-8.
#[unsafe(no_mangle)]
pub extern "C" fn ecow_proved_text_extend(pointer: &mut TextPointer, added: &[u8]) -> u32
    ensures text { AltersText (λ cs. cs ++ chars added.now)
        pointer.old.value result pointer.new.value }
    ensures statuses { IsAmong (OK ∷ MEMORY ∷ CAPACITY ∷ UTF8 ∷ NULL ∷ []) result }
    ensures utf8 { result ≡ UTF8 ↔ IsSomeAnd pointer.old.value (λ _. is_utf8 added.now ≡ false) }
    ensures capacity { result ≡ CAPACITY ↔ IsSomeAnd pointer.old.value (λ text.
        (is_utf8 added.now ≡ true) × (MAX_LEN < utf8_len text.chars + length added.now)) }
{
    let text = some_or!(pointer.text(), NULL);
    let added = some_or!(to_str(added), UTF8);
    status(text.push_str(added))
}

/// Replaces the bytes from `start` up to `end` by the bytes `added`, which must be UTF-8.
#[unsafe(no_mangle)]
pub extern "C" fn ecow_proved_text_splice(
    pointer: &mut TextPointer,
    start: usize,
    end: usize,
    added: &[u8],
) -> u32
    ensures text { AltersText (λ cs. replace_range cs (chars_before cs start)
        (chars_before cs end) (chars added.now))
        pointer.old.value result pointer.new.value }
    ensures statuses { IsAmong (OK ∷ MEMORY ∷ CAPACITY ∷ INDEX ∷ BOUNDARY ∷ UTF8 ∷ NULL ∷ [])
        result }
    ensures utf8 { result ≡ UTF8 ↔ IsSomeAnd pointer.old.value (λ _. is_utf8 added.now ≡ false) }
    ensures index { IfSome pointer.old.value
        (λ text. is_utf8 added.now ≡ true → Heeds (range_status text.chars start end) result) }
    ensures capacity { result ≡ CAPACITY ↔ IsSomeAnd pointer.old.value (λ text.
        (is_utf8 added.now ≡ true) × (range_status text.chars start end ≡ OK)
        × (MAX_LEN < utf8_len text.chars - (end - start) + length added.now)) }
{
    let text = some_or!(pointer.text(), NULL);
    let added = some_or!(to_str(added), UTF8);
    if start > end {
        return INDEX;
    }
    let cut = cut_at(text, end);
    if cut != OK {
        return cut;
    }
    let cut = cut_at(text, start);
    if cut != OK {
        return cut;
    }
    status(text.replace_range(start..end, added))
}

/// Changes the text to lower case, as std's `str` does.
#[unsafe(no_mangle)]
pub extern "C" fn ecow_proved_text_to_lowercase(pointer: &mut TextPointer) -> u32
    ensures text { Alters (λ text. encode_utf8_all text.chars) str_to_lowercase
        pointer.old.value result pointer.new.value }
    ensures statuses { IsAmong (OK ∷ MEMORY ∷ NULL ∷ []) result }
{
    let text = some_or!(pointer.text(), NULL);
    put(text.to_lowercase(), text)
}

/// Changes the text to upper case, as std's `str` does.
#[unsafe(no_mangle)]
pub extern "C" fn ecow_proved_text_to_uppercase(pointer: &mut TextPointer) -> u32
    ensures text { Alters (λ text. encode_utf8_all text.chars) str_to_uppercase
        pointer.old.value result pointer.new.value }
    ensures statuses { IsAmong (OK ∷ MEMORY ∷ NULL ∷ []) result }
{
    let text = some_or!(pointer.text(), NULL);
    put(text.to_uppercase(), text)
}

/// Replaces the text by itself repeated `count` times.
#[unsafe(no_mangle)]
pub extern "C" fn ecow_proved_text_repeat(pointer: &mut TextPointer, count: usize) -> u32
    ensures text { AltersText (repeat count) pointer.old.value result pointer.new.value }
    ensures statuses { IsAmong (OK ∷ MEMORY ∷ CAPACITY ∷ NULL ∷ []) result }
    ensures capacity { RefusesPast (λ text. utf8_len text.chars * count) pointer.old.value result }
{
    let text = some_or!(pointer.text(), NULL);
    put(text.repeat(count), text)
}

/// Replaces each occurrence of the bytes `pattern` by the bytes `replacement`, from the left and
/// without overlap. Both must be UTF-8.
#[unsafe(no_mangle)]
pub extern "C" fn ecow_proved_text_replace(
    pointer: &mut TextPointer,
    pattern: &[u8],
    replacement: &[u8],
) -> u32
    ensures text { AltersText (replace_all (chars pattern.now) (chars replacement.now))
        pointer.old.value result pointer.new.value }
    ensures statuses { IsAmong (OK ∷ MEMORY ∷ CAPACITY ∷ UTF8 ∷ NULL ∷ []) result }
    ensures utf8 { result ≡ UTF8 ↔ IsSomeAnd pointer.old.value
        (λ _. is_utf8 pattern.now && is_utf8 replacement.now ≡ false) }
    ensures capacity { result ≡ CAPACITY ↔ IsSomeAnd pointer.old.value (λ text.
        (is_utf8 pattern.now && is_utf8 replacement.now ≡ true)
        × (MAX_LEN < utf8_len
        (replace_all (chars pattern.now) (chars replacement.now) text.chars))) }
{
    let text = some_or!(pointer.text(), NULL);
    let pattern = some_or!(to_str(pattern), UTF8);
    let replacement = some_or!(to_str(replacement), UTF8);
    put(text.replace(pattern, replacement), text)
}
