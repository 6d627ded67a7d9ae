//! The calls that compare two values, and hash one.
ghost use Rattle.std.specs.Prelude.{◌≡◌, nat_eq};
ghost use Rattle.std.specs.Cmp.Lexicographic.{pointwise, slice_cmp};
ghost use Rattle.std.specs.Hash as fed;
ghost use Rattle.std.specs.Ordering.{int_eq, int_cmp, nat_cmp};
ghost use Rattle.std.specs.Str.{encode_utf8_all};
ghost use Rattle.ecow_bytes.specs.Hashes.{hash_writes};
ghost use Rattle.ecow_nested.specs.Values.{value_eq};
ghost use Rattle.ecow_c.specs.Arrays.{array_at};
ghost use Rattle.ecow_c.specs.Answers.{are_equal, bytes_at, chars_at, hash_of, numbers_at, order_of, texts_at};
ghost use Rattle.ecow_c.specs.Texts.{text_cmp, text_eq, text_fed};

use crate::pointer::{
    ArrayPointer, BytesPointer, ListPointer, TextPointer, TextsPointer, ValuePointer,
};
use crate::status::{order, some_or};
use ecow_bytes::EcoBytes;
use ecow_list::EcoVec;
use ecow_string::EcoString;
use std::alloc::Global;
use std::hash::{DefaultHasher, Hash, Hasher};

/// Whether two values are equal, each of which may be missing.
macro_rules! equal {
    ($left:expr, $right:expr; $one:ident, $other:ident => $equal:expr) => {
        match $left {
            Some($one) => {
                let $other = some_or!($right, false);
                $equal
            }
            None => matches!($right, None),
        }
    };
}

/// How two values compare, each of which may be missing. A missing value comes first.
macro_rules! compare {
    ($left:expr, $right:expr, $shown:ident) => {
        match $left {
            Some(left) => order(left.$shown().cmp(&some_or!($right, 1).$shown())),
            None => if matches!($right, None) { 0 } else { -1 },
        }
    };
}

/// The hash of a value, or `$none` if it is missing.
macro_rules! hash {
    ($value:expr, $none:expr) => {{
        let mut hasher = DefaultHasher::new();
        match $value {
            Some(value) => value.hash(&mut hasher),
            None => $none.hash(&mut hasher),
        }
        hasher.finish()
    }};
}

/// Whether two lists hold the same numbers. A null pointer equals only a null pointer.
#[unsafe(no_mangle)]
pub extern "C" fn ecow_proved_list_equal(left: &mut ListPointer, right: &mut ListPointer) -> bool
    ensures equal { result
        ≡ are_equal (pointwise int_eq) left.old.value right.old.value }
    ensures unchanged { (left.new.value ≡ left.old.value) × (right.new.value ≡ right.old.value) }
{
    equal!(left.list(), right.list(); one, other => *one == *other)
}

/// Whether two arrays have the same bytes. A null pointer equals only a null pointer.
#[unsafe(no_mangle)]
pub extern "C" fn ecow_proved_array_equal(left: &mut ArrayPointer, right: &mut ArrayPointer) -> bool
    ensures equal { result
        ≡ are_equal (pointwise nat_eq) left.old.value right.old.value }
    ensures unchanged { (left.new.value ≡ left.old.value) × (right.new.value ≡ right.old.value) }
{
    equal!(left.array(), right.array(); one, other => one.as_slice() == other.as_slice())
}

/// Whether two values hold the same bytes. A null pointer equals only a null pointer.
#[unsafe(no_mangle)]
pub extern "C" fn ecow_proved_bytes_equal(left: &mut BytesPointer, right: &mut BytesPointer) -> bool
    ensures equal { result
        ≡ are_equal (λ x y. pointwise nat_eq x.bytes y.bytes) left.old.value right.old.value }
    ensures unchanged { (left.new.value ≡ left.old.value) × (right.new.value ≡ right.old.value) }
{
    equal!(left.bytes(), right.bytes(); one, other => one.as_slice() == other.as_slice())
}

/// Whether two texts are equal. A null pointer equals only a null pointer.
#[unsafe(no_mangle)]
pub extern "C" fn ecow_proved_text_equal(left: &mut TextPointer, right: &mut TextPointer) -> bool
    ensures equal { result ≡ are_equal text_eq left.old.value right.old.value }
    ensures unchanged { (left.new.value ≡ left.old.value) × (right.new.value ≡ right.old.value) }
{
    equal!(left.text(), right.text(); one, other => one.as_str() == other.as_str())
}

/// Whether two lists hold the same texts. A null pointer equals only a null pointer.
#[unsafe(no_mangle)]
pub extern "C" fn ecow_proved_texts_equal(left: &mut TextsPointer, right: &mut TextsPointer) -> bool
    ensures equal { result
        ≡ are_equal (pointwise text_eq) left.old.value right.old.value }
    ensures unchanged { (left.new.value ≡ left.old.value) × (right.new.value ≡ right.old.value) }
{
    equal!(left.texts(), right.texts(); one, other => one.as_slice() == other.as_slice())
}

/// Whether two values are equal. A null pointer equals only a null pointer.
#[unsafe(no_mangle)]
pub extern "C" fn ecow_proved_value_equal(left: &mut ValuePointer, right: &mut ValuePointer) -> bool
    ensures equal { result ≡ are_equal value_eq left.old.value right.old.value }
    ensures unchanged { (left.new.value ≡ left.old.value) × (right.new.value ≡ right.old.value) }
{
    equal!(left.value(), right.value(); one, other => one.equals(other))
}

/// How two lists compare: below 0 if the left one comes first, 0 if they are equal. A null pointer
/// comes before every list.
#[unsafe(no_mangle)]
pub extern "C" fn ecow_proved_list_compare(left: &mut ListPointer, right: &mut ListPointer) -> i32
    ensures order { result ≡ order_of (slice_cmp int_cmp) left.old.value right.old.value }
    ensures unchanged { (left.new.value ≡ left.old.value) × (right.new.value ≡ right.old.value) }
{
    compare!(left.list(), right.list(), as_slice)
}

/// How the bytes of two values compare: below 0 if the left ones come first, 0 if they are equal. A
/// null pointer comes before every value.
#[unsafe(no_mangle)]
pub extern "C" fn ecow_proved_bytes_compare(
    left: &mut BytesPointer,
    right: &mut BytesPointer,
) -> i32
    ensures order { result ≡ order_of (λ x y. slice_cmp nat_cmp x.bytes y.bytes)
        left.old.value right.old.value }
    ensures unchanged { (left.new.value ≡ left.old.value) × (right.new.value ≡ right.old.value) }
{
    compare!(left.bytes(), right.bytes(), as_slice)
}

/// How two texts compare: below 0 if the left one comes first, 0 if they are equal. A null pointer
/// comes before every text.
#[unsafe(no_mangle)]
pub extern "C" fn ecow_proved_text_compare(left: &mut TextPointer, right: &mut TextPointer) -> i32
    ensures order { result ≡ order_of text_cmp left.old.value right.old.value }
    ensures unchanged { (left.new.value ≡ left.old.value) × (right.new.value ≡ right.old.value) }
{
    compare!(left.text(), right.text(), as_str)
}

/// How two lists compare: below 0 if the left one comes first, 0 if they are equal. A null pointer
/// comes before every list.
#[unsafe(no_mangle)]
pub extern "C" fn ecow_proved_texts_compare(
    left: &mut TextsPointer,
    right: &mut TextsPointer,
) -> i32
    ensures order { result
        ≡ order_of (slice_cmp text_cmp) left.old.value right.old.value }
    ensures unchanged { (left.new.value ≡ left.old.value) × (right.new.value ≡ right.old.value) }
{
    compare!(left.texts(), right.texts(), as_slice)
}

/// The hash of the numbers, by std's hasher. Equal lists have equal hashes.
#[unsafe(no_mangle)]
pub extern "C" fn ecow_proved_list_hash(alloc: Global, pointer: &mut ListPointer) -> u64
    ensures hash { result ≡ hash_of (fed.slice fed.i64 (numbers_at pointer.old.value)) }
    ensures unchanged { pointer.new.value ≡ pointer.old.value }
{
    hash!(pointer.list(), EcoVec::<i64>::new(alloc))
}

/// The hash of some bytes, as an `EcoBytes` has it: their number, and then all in one write.
fn hash_bytes(bytes: &[u8]) -> u64
    ensures { result ≡ hash_of (hash_writes bytes.now) }
{
    let mut hasher = DefaultHasher::new();
    hasher.write_usize(bytes.len());
    hasher.write(bytes);
    hasher.finish()
}

/// The hash of the bytes of the items, by std's hasher. Equal arrays have equal hashes.
#[unsafe(no_mangle)]
pub extern "C" fn ecow_proved_array_hash(pointer: &mut ArrayPointer) -> u64
    ensures hash { result ≡ hash_of (hash_writes (array_at pointer.old.value)) }
    ensures unchanged { pointer.new.value ≡ pointer.old.value }
{
    match pointer.array() {
        Some(array) => hash_bytes(array.as_slice()),
        None => hash_bytes(&[]),
    }
}

/// The hash of the bytes, by std's hasher. Equal bytes have equal hashes.
#[unsafe(no_mangle)]
pub extern "C" fn ecow_proved_bytes_hash(alloc: Global, pointer: &mut BytesPointer) -> u64
    ensures hash { result ≡ hash_of (hash_writes (bytes_at pointer.old.value)) }
    ensures unchanged { pointer.new.value ≡ pointer.old.value }
{
    hash!(pointer.bytes(), EcoBytes::new(alloc))
}

/// The hash of the text, by std's hasher. Equal texts have equal hashes.
#[unsafe(no_mangle)]
pub extern "C" fn ecow_proved_text_hash(alloc: Global, pointer: &mut TextPointer) -> u64
    ensures hash { result ≡ hash_of (fed.str (encode_utf8_all (chars_at pointer.old.value))) }
    ensures unchanged { pointer.new.value ≡ pointer.old.value }
{
    hash!(pointer.text(), EcoString::new(alloc))
}

/// The hash of the texts, by std's hasher. Equal lists have equal hashes.
#[unsafe(no_mangle)]
pub extern "C" fn ecow_proved_texts_hash(alloc: Global, pointer: &mut TextsPointer) -> u64
    ensures hash { result ≡ hash_of (fed.slice text_fed (texts_at pointer.old.value)) }
    ensures unchanged { pointer.new.value ≡ pointer.old.value }
{
    hash!(pointer.texts(), EcoVec::<EcoString>::new(alloc))
}
