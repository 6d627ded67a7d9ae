//! Tries each call of the tables in each state of vectors, bytes and texts. In the strict run, in
//! which no request is refused, it also refuses clones of elements, and makes calls on values of
//! many items and on random lengths.
mod clones;
mod each_call;
mod owners;
mod seeds;
mod units;

use crate::values::each_call::{
    arrays_hold, bytes_hold, copies_hold, many_hold, texts_hold, vectors_hold,
};
use ecow_bytes::SmallBytes;
use ecow_string::SmallText;
use ecow_test_calls::elements::Named;
use ecow_test_calls::watch::Watch;
use ecow_test_calls::{prints, tables};

/// Values with inline limits that no other part has. Requests are refused for only one of them.
fn limits_hold(watch: &Watch) -> bool {
    bytes_hold::<SmallBytes<64>>(watch)
        && (!watch.is_strict()
            || bytes_hold::<SmallBytes<7>>(watch)
                && bytes_hold::<SmallBytes<31>>(watch)
                && texts_hold::<SmallText<31>>(watch)
                && texts_hold::<SmallText<64>>(watch))
}

/// Tries the values of one type, at the inline limit beside the part's number.
macro_rules! hold_at {
    ($part:expr, $hold:ident $value:ident($watch:expr): [
        $($number:literal: $limit:literal),*
    ]) => {
        match $part {
            $($number => $hold::<$value<$limit>>($watch),)*
            _ => false,
        }
    };
}

/// What each part is about.
pub(crate) const NAMES: [&str; 25] = [
    "vectors of numbers",
    "vectors of bytes",
    "vectors of names",
    "vectors of many elements",
    "bytes, none inline",
    "bytes, 1 inline",
    "bytes, 3 inline",
    "bytes, 15 inline",
    "bytes, 23 inline",
    "bytes, 255 inline",
    "bytes, 257 inline",
    "bytes, 600 inline",
    "texts, none inline",
    "texts, 1 inline",
    "texts, 3 inline",
    "texts, 15 inline",
    "texts, 23 inline",
    "texts, 255 inline",
    "printed texts",
    "clones of elements",
    "values by a seed",
    "many owners",
    "vectors of elements of no bytes",
    "elements of no bytes, again and again",
    "bytes and texts, others inline",
];

/// Whether the part with this number, counted from 0, holds. The copies after the first eleven are
/// for bytes only.
pub(crate) fn part_holds(part: usize, watch: &Watch) -> bool {
    match part {
        0 => vectors_hold::<i64>(watch) && copies_hold::<i64>(watch, &tables::COPIES[..11]),
        1 => vectors_hold::<u8>(watch) && copies_hold::<u8>(watch, tables::COPIES),
        2 => vectors_hold::<Named>(watch) && arrays_hold::<Named>(watch),
        3 => many_hold(watch),
        4..=11 => hold_at!(part, bytes_hold SmallBytes(watch): [
            4: 0, 5: 1, 6: 3, 7: 15, 8: 23, 9: 255, 10: 257, 11: 600
        ]),
        12..=17 => hold_at!(part, texts_hold SmallText(watch): [
            12: 0, 13: 1, 14: 3, 15: 15, 16: 23, 17: 255
        ]),
        18 => prints::printing_holds(watch),
        19 => clones::clones_hold(watch),
        20 => seeds::values_hold(watch),
        21 => owners::owners_hold(watch),
        22 => vectors_hold::<()>(watch),
        23 => units::units_hold(watch),
        _ => limits_hold(watch),
    }
}
