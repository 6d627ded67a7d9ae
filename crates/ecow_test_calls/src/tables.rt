//! The tables of calls: first those of vectors, then those of bytes and texts. A table whose name
//! has `FURTHER` in it has no rows in the documented tables of costs.
use crate::calls::{Call, LAST, Row};

/// How many times a call of seven items is made, for 100,000 items in all.
pub const TIMES: usize = 14286;

/// What is between the parentheses, or the default if they are empty.
macro_rules! given {
    (() $default:expr) => { $default };
    (($given:expr) $default:expr) => { $given };
}

/// A row: a call, its name, the range that it is about, if any, and a count of items. The value
/// must have the items of the range, or as many as `at` says. The call is made once, or `times`
/// times.
macro_rules! row {
    (
        $call:expr, $name:expr, ($start:expr, $end:expr), $count:expr
        $(, at $needs:expr)? $(, times $times:expr)?
    ) => {
        Row {
            call: $call,
            name: $name,
            start: $start,
            end: $end,
            count: $count,
            needs: given!(($($needs)?) $end),
            times: given!(($($times)?) 1),
        }
    };
    ($call:expr, $name:expr, $count:expr $(, at $needs:expr)? $(, times $times:expr)?) => {
        row!($call, $name, (0, 0), $count $(, at $needs)? $(, times $times)?)
    };
}

/// Calls that change, read or consume a vector.
pub static VECTOR_CHANGES: &[Row] = &[
    row!(Call::Read, "as_slice, iter, len, is_empty, capacity, is_unique", 0, at 0),
    row!(Call::Push, "push(x)", 1),
    row!(Call::Insert, "insert(0, x)", 1),
    row!(Call::Set, "set(0, x)", (0, 1), 1),
    row!(Call::Update, "update(0, f)", (0, 1), 1),
    row!(Call::Pop, "pop()", 0),
    row!(Call::Remove, "remove(0)", (0, 1), 0),
    row!(Call::Truncate, "truncate(3)", 3, at 3),
    row!(Call::Truncate, "truncate(0)", 0),
    row!(Call::Truncate, "truncate(1001)", 1001),
    row!(Call::Clear, "clear()", 0),
    row!(Call::Retain, "retain(all but 2)", (0, 2), 0, at 0),
    row!(Call::MakeMut, "make_mut()", 0),
    row!(Call::OwnMut, "own_mut()", 0),
    row!(Call::OwnWithRoom, "own_with_room(1)", 1),
    row!(Call::OwnWithRoom, "own_with_room(20)", 20),
    row!(Call::Reserve, "reserve(0)", 0),
    row!(Call::Reserve, "reserve(1)", 1),
    row!(Call::Reserve, "reserve(20)", 20),
    row!(Call::ExtendFromSlice, "extend_from_slice(2)", 2),
    row!(Call::ExtendFromSlice, "extend_from_slice(none)", 0),
    row!(Call::Extend, "extend(2)", 2),
    row!(Call::Extend, "extend(none)", 0),
    row!(Call::Drain, "drain(1..3)", (1, 3), 0),
    row!(Call::Drain, "drain(0..0)", (0, 0), 0),
    row!(Call::Splice, "splice(1..3, 2)", (1, 3), 2),
    row!(Call::Splice, "splice(1..3, 4)", (1, 3), 4),
    row!(Call::Splice, "splice(0..0, none)", (0, 0), 0),
    row!(Call::Splice, "splice(0..0, 2)", (0, 0), 2),
    row!(Call::IntoVec, "into_vec()", 0),
    row!(Call::IntoIter, "into_iter()", 0),
    row!(Call::Drop, "drop(v)", 0),
    row!(Call::Truncate, "truncate(900)", 900, at 1000),
    row!(Call::Reserve, "reserve(1000)", 1000, at 1000),
    row!(Call::ExtendFromSlice, "extend_from_slice(1000)", 1000, at 1000),
    row!(Call::Extend, "extend(1000)", 1000, at 1000),
    row!(Call::Drain, "drain(100..900)", (100, 900), 0, at 1000),
    row!(Call::Splice, "splice(100..900, 1000)", (100, 900), 1000, at 1000),
];

/// More changes of vectors, on few elements.
pub static FURTHER_VECTOR_CHANGES: &[Row] = &[
    row!(Call::Insert, "insert(3, x)", (3, 3), 1),
    row!(Call::Insert, "insert(len, x)", (LAST, LAST), 1, at 0),
    row!(Call::Set, "set(3, x)", (3, 4), 1),
    row!(Call::Update, "update(3, f)", (3, 4), 1),
    row!(Call::Remove, "remove(3)", (3, 4), 0),
    row!(Call::Truncate, "truncate(4)", 4),
    row!(Call::Truncate, "truncate(5)", 5),
    row!(Call::Retain, "retain(all)", (0, 0), 0),
    row!(Call::Retain, "retain(all but 1..3)", (1, 3), 0),
    row!(Call::Retain, "retain(none)", (0, LAST), 0, at 0),
    row!(Call::Fill, "fill(x)", 1),
    row!(Call::Resize, "resize(0, x)", 0),
    row!(Call::Resize, "resize(3, x)", 3),
    row!(Call::Resize, "resize(5, x)", 5),
    row!(Call::Resize, "resize(8, x)", 8),
    row!(Call::Resize, "resize(40, x)", 40),
    row!(Call::Swap, "swap(1, 3)", (1, 4), 0),
    row!(Call::Swap, "swap(0, 0)", (0, 1), 0),
    row!(Call::SortBy, "sort_by(falling)", 0, at 0),
    row!(Call::SplitOff, "split_off(3)", (3, 5), 0),
    row!(Call::SplitOff, "split_off(0)", (0, 5), 0, at 0),
    row!(Call::SplitOff, "split_off(len)", (LAST, LAST), 0, at 0),
    row!(Call::Append, "append(2)", 2),
    row!(Call::Append, "append(none)", 0),
    row!(Call::Reserve, "reserve(2)", 2),
    row!(Call::Reserve, "reserve(4)", 4),
    row!(Call::ExtendFromSlice, "extend_from_slice(1)", 1),
    row!(Call::ExtendFromSlice, "extend_from_slice(6)", 6),
    row!(Call::Extend, "extend(1)", 1),
    row!(Call::Extend, "extend(3)", 3),
    row!(Call::Extend, "extend(40)", 40),
    row!(Call::Drain, "drain(0..4)", (0, 4), 0),
    row!(Call::Drain, "drain(4..5)", (4, 5), 0),
    row!(Call::Splice, "splice(1..2, 3)", (1, 2), 3),
    row!(Call::Splice, "splice(1..3, 1)", (1, 3), 1),
    row!(Call::Splice, "splice(0..5, none)", (0, 5), 0),
    row!(Call::Splice, "splice(0..0, 9)", (0, 0), 9),
    row!(Call::Splice, "splice(0..2, 40)", (0, 2), 40),
    row!(Call::PushReserved, "reserve(1), push(x)", 1),
    row!(Call::OwnWithRoom, "own_with_room(0)", 0),
    row!(Call::OwnWithRoom, "own_with_room(4)", 4),
];

/// Calls that grow a vector from no block.
pub static VECTOR_GROWTH: &[Row] = &[
    row!(Call::Push, "push(x)", 1, times 100000),
    row!(Call::PushReserved, "reserve(1), push(x)", 1, times 100000),
    row!(Call::Insert, "insert(len, x)", (LAST, LAST), 1, at 0, times 100000),
    row!(Call::Extend, "extend(1)", 1, times 100000),
    row!(Call::ExtendFromSlice, "extend_from_slice(7)", 7, times TIMES),
    row!(Call::Extend, "extend(100000)", 100000),
    row!(Call::Splice, "splice(0..0, 100000)", (0, 0), 100000),
];

/// Calls that grow a vector of zero-sized elements.
pub static UNIT_GROWTH: &[Row] = &[
    row!(Call::Push, "push(())", 1, times 100000),
    row!(Call::PushReserved, "reserve(1), push(())", 1, times 100000),
    row!(Call::ExtendFromSlice, "extend_from_slice(7 of ())", 7, times TIMES),
];

/// Calls that make a vector of zero-sized elements.
pub static UNIT_MAKERS: &[Row] = &[
    row!(Call::FromElem, "::from_elem((), 1)", 1),
    row!(Call::FromElem, "::from_elem((), 100000)", 100000),
];

/// Calls that return 1024 elements in another block. Capacity for one more would take two requests.
pub static HANDED_OUT: &[Row] = &[
    row!(Call::Drain, "drain(..)", (0, LAST), 0, at 1024),
    row!(Call::IntoIter, "into_iter()", 0, at 1024),
];

/// Calls that make another vector from a vector.
pub static VECTOR_DERIVATIONS: &[Row] = &[row!(Call::Clone, "clone()", 0)];

/// Calls that make a vector of few elements from something else.
pub static VECTOR_MAKERS: &[Row] = &[
    row!(Call::FromVec, "::from_vec(none)", 0),
    row!(Call::FromVec, "::from_vec(5)", 5),
    row!(Call::WithCapacity, "::with_capacity(0)", 0),
    row!(Call::WithCapacity, "::with_capacity(3)", 3),
    row!(Call::FromSlice, "::from_slice(none)", 0),
    row!(Call::FromSlice, "::from_slice(2)", 2),
    row!(Call::FromSlice, "::from_slice(5)", 5),
    row!(Call::FromElem, "::from_elem(x, 0)", 0),
    row!(Call::FromElem, "::from_elem(x, 2)", 2),
    row!(Call::FromElem, "::from_elem(x, 5)", 5),
    row!(Call::FromIter, "::from_iter(none)", 0),
    row!(Call::FromIter, "::from_iter(5)", 5),
    row!(Call::Collect, "collect(5)", 5),
    row!(Call::New, "::new()", 0),
];

/// Calls that make an array from a vector.
pub static INTO_ARRAYS: &[Row] = &[row!(Call::IntoArray, "into_array()", 0, at 5)];

/// Calls that refuse to make an array, since the length differs.
pub static INTO_OTHER_ARRAYS: &[Row] = &[
    row!(Call::IntoOtherArray, "into_array of another length", 0, at 0),
];

/// Calls that make a vector from an array.
pub static ARRAY_MAKERS: &[Row] = &[
    row!(Call::FromArray, "::from_array(none)", 0),
    row!(Call::FromArray, "::from_array(5)", 5),
];

/// More calls that make a vector of few elements.
pub static FURTHER_VECTOR_MAKERS: &[Row] = &[
    row!(Call::FromVec, "::from_vec(1)", 1),
    row!(Call::FromSlice, "::from_slice(9)", 9),
    row!(Call::FromElem, "::from_elem(x, 9)", 9),
    row!(Call::FromIter, "::from_iter(9)", 9),
    row!(Call::Collect, "collect(none)", 0),
    row!(Call::Collect, "collect(40)", 40),
];

/// Calls that make a vector of many elements.
pub static VECTOR_MAKERS_OF_MANY: &[Row] = &[
    row!(Call::FromVec, "::from_vec(1000)", 1000),
    row!(Call::WithCapacity, "::with_capacity(1000)", 1000),
    row!(Call::WithCapacity, "::with_capacity(1024)", 1024),
    row!(Call::WithCapacity, "::with_capacity(1025)", 1025),
    row!(Call::FromSlice, "::from_slice(1000)", 1000),
    row!(Call::FromElem, "::from_elem(x, 1000)", 1000),
    row!(Call::FromIter, "::from_iter(1000)", 1000),
    row!(Call::Collect, "collect(1000)", 1000),
    row!(Call::FromArray, "::from_array(1000)", 1000),
    row!(Call::FromIter, "::from_iter(100000)", 100000),
    row!(Call::Collect, "collect(100000)", 100000),
];

/// Calls that copy elements as plain memory, and calls that compare. `write` and the last row are
/// for bytes only.
pub static COPIES: &[Row] = &[
    row!(Call::ExtendFromCopied, "extend_from_copied(2)", 2),
    row!(Call::ExtendFromCopied, "extend_from_copied(none)", 0),
    row!(Call::ExtendFromWithin, "extend_from_within(..2)", (0, 2), 0),
    row!(Call::ExtendFromWithin, "extend_from_within(..0)", (0, 0), 0),
    row!(Call::InsertSlice, "insert_slice(0, 2)", (0, 0), 2),
    row!(Call::InsertSlice, "insert_slice(0, none)", (0, 0), 0),
    row!(Call::ReplaceRange, "replace_range(..2, 4)", (0, 2), 4, at 0),
    row!(Call::ReplaceRange, "replace_range(..2, none)", (0, 2), 0, at 0),
    row!(Call::ExtendFromCopied, "extend_from_copied(1000)", 1000, at 1000),
    row!(Call::ExtendFromWithin, "extend_from_within(..1000)", (0, 1000), 0, at 1000),
    row!(Call::InsertSlice, "insert_slice(0, 1000)", (0, 0), 1000, at 1000),
    row!(Call::Write, "write(2)", 2),
    row!(Call::Write, "write(none)", 0),
    row!(Call::Write, "write(1000)", 1000, at 1000),
    row!(Call::Compare, "==, cmp, hash", 0),
];

/// More calls that copy elements as plain memory, or that compare them.
pub static FURTHER_COPIES: &[Row] = &[
    row!(Call::Sort, "sort()", 0, at 0),
    row!(Call::Dedup, "dedup()", 0, at 0),
    row!(Call::ExtendFromCopied, "extend_from_copied(6)", 6),
    row!(Call::ExtendFromWithin, "extend_from_within(1..4)", (1, 4), 0, at 4),
    row!(Call::ExtendFromWithin, "extend_from_within(..5)", (0, 5), 0),
    row!(Call::InsertSlice, "insert_slice(1, 2)", (1, 1), 2),
    row!(Call::InsertSlice, "insert_slice(len, 2)", (LAST, LAST), 2, at 0),
    row!(Call::InsertSlice, "insert_slice(0, 6)", (0, 0), 6),
    row!(Call::ReplaceRange, "replace_range(1..3, 1)", (1, 3), 1),
    row!(Call::ReplaceRange, "replace_range(1..3, 2)", (1, 3), 2),
    row!(Call::ReplaceRange, "replace_range(2..2, 3)", (2, 2), 3),
    row!(Call::ReplaceRange, "replace_range(..4, 9)", (0, 4), 9),
    row!(Call::ReplaceRange, "replace_range(1..5, none)", (1, 5), 0),
];

/// Calls that grow a vector of bytes.
pub static COPIES_GROWTH: &[Row] = &[
    row!(Call::ExtendFromCopied, "extend_from_copied(7)", 7, times TIMES),
    row!(Call::InsertSlice, "insert_slice(len, 7)", (LAST, LAST), 7, at 0, times TIMES),
    row!(Call::Write, "write(7)", 7, times TIMES),
    row!(Call::Write, "write(16)", 16, times 6250),
];

/// A vector of a thousand elements or more that appends its own first seven again and again.
pub static COPIES_WITHIN: &[Row] = &[
    row!(Call::ExtendFromWithin, "extend_from_within(..7)", (0, 7), 0, at 1000, times TIMES),
];

/// Calls that make a vector and copy its elements as plain memory.
pub static COPIES_MAKERS: &[Row] = &[
    row!(Call::FromCopied, "::from_copied(none)", 0),
    row!(Call::FromCopied, "::from_copied(2)", 2),
    row!(Call::FromCopied, "::from_copied(5)", 5),
    row!(Call::FromCopied, "::from_copied(1000)", 1000),
];

/// Calls of both bytes and texts that remove items or reserve capacity.
pub static REDUCTIONS: &[Row] = &[
    row!(Call::Pop, "pop()", 0),
    row!(Call::Remove, "remove(0)", (0, 1), 0),
    row!(Call::Truncate, "truncate(3)", 3, at 3),
    row!(Call::Truncate, "truncate(900)", 900, at 1000),
    row!(Call::Truncate, "truncate(0)", 0),
    row!(Call::Clear, "clear()", 0),
    row!(Call::Reserve, "reserve(0)", 0),
    row!(Call::Reserve, "reserve(1)", 1),
    row!(Call::Reserve, "reserve(20)", 20),
    row!(Call::Reserve, "reserve(1000)", 1000, at 1000),
    row!(Call::ShrinkToFit, "shrink_to_fit()", 0),
    row!(Call::IntoEcoVec, "into_eco_vec()", 0),
];

/// Calls that bring few spilled bytes back inline.
pub static SHRINKING: &[Row] = &[row!(Call::ShrinkToFit, "shrink_to_fit()", 0)];

/// More of these calls, for letters that differ.
pub static FURTHER_REDUCTIONS: &[Row] = &[
    row!(Call::Reserve, "reserve(2)", 2),
    row!(Call::Reserve, "reserve(12)", 12),
    row!(Call::Truncate, "truncate(2)", 2),
    row!(Call::Truncate, "truncate(5)", 5),
    row!(Call::Truncate, "truncate(1001)", 1001),
];

/// Calls that read or change bytes.
pub static BYTES_CHANGES: &[Row] = &[
    row!(Call::Read, "as_slice, len, is_empty, capacity, is_inline, ==, cmp, hash", 0, at 0),
    row!(Call::Push, "push(x)", 1),
    row!(Call::Insert, "insert(0, x)", 1),
    row!(Call::InsertSlice, "insert_slice(0, 2)", (0, 0), 2),
    row!(Call::InsertSlice, "insert_slice(0, none)", (0, 0), 0),
    row!(Call::InsertSlice, "insert_slice(0, 1000)", (0, 0), 1000, at 1000),
    row!(Call::ReplaceRange, "replace_range(..2, 4)", (0, 2), 4, at 0),
    row!(Call::ReplaceRange, "replace_range(..2, none)", (0, 2), 0, at 0),
    row!(Call::ExtendFromSlice, "extend_from_slice(2)", 2),
    row!(Call::ExtendFromSlice, "extend_from_slice(none)", 0),
    row!(Call::ExtendFromSlice, "extend_from_slice(1000)", 1000, at 1000),
    row!(Call::Extend, "extend(2)", 2),
    row!(Call::Extend, "extend(none)", 0),
    row!(Call::Extend, "extend(1000)", 1000, at 1000),
    row!(Call::Write, "write(2)", 2),
    row!(Call::Write, "write(1000)", 1000, at 1000),
    row!(Call::Set, "set(0, x)", (0, 1), 1),
    row!(Call::MakeMut, "make_mut()", 0),
    row!(Call::Rewrite, "rewrite(f)", LAST),
];

/// More changes of bytes, on few bytes.
pub static FURTHER_BYTES_CHANGES: &[Row] = &[
    row!(Call::Insert, "insert(2, x)", (2, 2), 1),
    row!(Call::Insert, "insert(len, x)", (LAST, LAST), 1, at 0),
    row!(Call::Set, "set(2, x)", (2, 3), 1),
    row!(Call::Remove, "remove(2)", (2, 3), 0),
    row!(Call::Rewrite, "rewrite(to none)", 0),
    row!(Call::Rewrite, "rewrite(to 2)", 2),
    row!(Call::ExtendFromSlice, "extend_from_slice(1)", 1),
    row!(Call::ExtendFromSlice, "extend_from_slice(12)", 12),
    row!(Call::Extend, "extend(1)", 1),
    row!(Call::Extend, "extend(12)", 12),
    row!(Call::Write, "write(none)", 0),
    row!(Call::Write, "write(12)", 12),
    row!(Call::InsertSlice, "insert_slice(2, 1)", (2, 2), 1),
    row!(Call::InsertSlice, "insert_slice(0, 12)", (0, 0), 12),
    row!(Call::ReplaceRange, "replace_range(..1, 1)", (0, 1), 1),
    row!(Call::ReplaceRange, "replace_range(1..3, 1)", (1, 3), 1),
    row!(Call::ReplaceRange, "replace_range(..2, 12)", (0, 2), 12),
    row!(Call::PushReserved, "reserve(1), push(x)", 1),
];

/// Calls that grow bytes.
pub static BYTES_GROWTH: &[Row] = &[
    row!(Call::Push, "push(x)", 1, times 100000),
    row!(Call::PushReserved, "reserve(1), b.push(x)", 1, times 100000),
    row!(Call::Insert, "insert(len, x)", (LAST, LAST), 1, at 0, times 100000),
    row!(Call::InsertSlice, "insert_slice(len, 7)", (LAST, LAST), 7, at 0, times TIMES),
    row!(Call::ExtendFromSlice, "extend_from_slice(7)", 7, times TIMES),
    row!(Call::Write, "write(7)", 7, times TIMES),
    row!(Call::Write, "write(16)", 16, times 6250),
    row!(Call::Extend, "extend(7)", 7, times TIMES),
    row!(Call::Extend, "extend(100000)", 100000),
];

/// Calls that make something else from bytes.
pub static BYTES_DERIVATIONS: &[Row] = &[
    row!(Call::Clone, "clone()", 0),
    row!(Call::ToStd, "to_vec()", 0),
    row!(Call::Repeat, "repeat(0)", 0),
    row!(Call::Repeat, "repeat(1)", 1),
    row!(Call::Repeat, "repeat(3)", 3),
];

/// Calls that make empty bytes or an empty text, or inline ones, at the inline limit 15.
pub static FIRST_MAKERS: &[Row] = &[
    row!(Call::New, "::new()", 0),
    row!(Call::Inline, "::inline(15)", 15),
    row!(Call::TryInline, "::try_inline(15)", 15),
    row!(Call::WithCapacity, "::with_capacity(15)", 15),
    row!(Call::WithCapacity, "::with_capacity(16)", 16),
    row!(Call::WithCapacity, "::with_capacity(1000)", 1000),
];

/// Calls that make bytes or a text at another inline limit, on both sides of it.
pub fn first_makers_at(limit: usize) -> [Row; 5] {
    let more = limit.saturating_add(1);
    [
        row!(Call::New, "::new()", 0),
        row!(Call::Inline, "::inline(limit)", limit),
        row!(Call::TryInline, "::try_inline(limit)", limit),
        row!(Call::WithCapacity, "::with_capacity(limit)", limit),
        row!(Call::WithCapacity, "::with_capacity(limit + 1)", more),
    ]
}

/// Calls that make bytes from something else, at the inline limit 15.
pub static BYTES_MAKERS: &[Row] = &[
    row!(Call::FromSlice, "::from_slice(15)", 15),
    row!(Call::FromSlice, "::from_slice(16)", 16),
    row!(Call::FromSlice, "::from_slice(1000)", 1000),
    row!(Call::FromArray, "::from_array(16)", 16),
    row!(Call::FromArray, "::from_array(1000)", 1000),
    row!(Call::FromVec, "::from_vec(15)", 15),
    row!(Call::FromVec, "::from_vec(16)", 16),
    row!(Call::FromVec, "::from_vec(1000)", 1000),
    row!(Call::FromIter, "::from_iter(15)", 15),
    row!(Call::FromIter, "::from_iter(16)", 16),
    row!(Call::FromIter, "::from_iter(33)", 33),
    row!(Call::FromIter, "::from_iter(1000)", 1000),
    row!(Call::Collect, ": collect(16)", 16),
    row!(Call::Collect, ": collect(1000)", 1000),
    row!(Call::FromIter, "::from_iter(100000)", 100000),
    row!(Call::Collect, ": collect(100000)", 100000),
    row!(Call::FromEcoVec, "::from(vector of 5)", 5),
    row!(Call::FromEcoVec, "::from(vector of 1000)", 1000),
];

/// Calls that make bytes from something else, at another inline limit, on both sides of it.
pub fn bytes_makers_at(limit: usize) -> [Row; 11] {
    let more = limit.saturating_add(1);
    [
        row!(Call::FromSlice, "::from_slice(limit)", limit),
        row!(Call::FromSlice, "::from_slice(limit + 1)", more),
        row!(Call::FromArray, "::from_array(limit)", limit),
        row!(Call::FromArray, "::from_array(1000)", 1000),
        row!(Call::FromVec, "::from_vec(limit)", limit),
        row!(Call::FromVec, "::from_vec(limit + 1)", more),
        row!(Call::FromIter, "::from_iter(limit)", limit),
        row!(Call::FromIter, "::from_iter(limit + 1)", more),
        row!(Call::Collect, ": collect(limit)", limit),
        row!(Call::Collect, ": collect(limit + 1)", more),
        row!(Call::FromEcoVec, "::from(vector of limit)", limit),
    ]
}

/// Calls that read or change a text.
pub static TEXT_CHANGES: &[Row] = &[
    row!(
        Call::Read,
        "as_str, len, is_empty, capacity, is_inline, is_char_boundary, ==, cmp, hash",
        0
    ),
    row!(Call::Push, "push(c)", 1),
    row!(Call::Push, "push(é)", 2),
    row!(Call::ExtendFromSlice, "push_str(2)", 2),
    row!(Call::ExtendFromSlice, "push_str(none)", 0),
    row!(Call::ExtendFromSlice, "push_str(1000)", 1000, at 1000),
    row!(Call::Insert, "insert(0, c)", 1),
    row!(Call::Insert, "insert(0, é)", 2),
    row!(Call::InsertSlice, "insert_str(0, 2)", (0, 0), 2),
    row!(Call::InsertSlice, "insert_str(0, none)", (0, 0), 0),
    row!(Call::InsertSlice, "insert_str(0, 1000)", (0, 0), 1000, at 1000),
    row!(Call::ReplaceRange, "replace_range(..2, 4)", (0, 2), 4, at 0),
    row!(Call::ReplaceRange, "replace_range(..2, none)", (0, 2), 0, at 0),
    row!(Call::Extend, "extend_chars(2)", 2),
    row!(Call::Extend, "extend_chars(none)", 0),
    row!(Call::Extend, "extend_chars(1000)", 1000, at 1000),
    row!(Call::ExtendStrs, "extend_strs(one of 2)", 2),
    row!(Call::ExtendStrs, "extend_strs(one of none)", 0),
    row!(Call::ExtendStrs, "extend_strs(one of 1000)", 1000, at 1000),
    row!(Call::Write, "write_str(2)", 2),
    row!(Call::Write, "write_str(1000)", 1000, at 1000),
    row!(Call::Add, "add(2)", 2),
    row!(Call::Add, "add(1000)", 1000, at 1000),
    row!(Call::IntoBytes, "EcoBytes::from(t)", 0),
    row!(Call::IntoBytes, "EcoString::try_from(bytes)", 0),
    row!(Call::MakeAsciiLowercase, "make_ascii_lowercase()", 0),
    row!(Call::MakeAsciiUppercase, "make_ascii_uppercase()", 0),
    row!(Call::SplitText, "split_off(3)", (3, LAST), 0, at 3),
    row!(Call::SplitText, "split_off(700)", (700, LAST), 0, at 1000),
    row!(Call::SplitText, "split_off(0)", (0, LAST), 0, at 0),
    row!(Call::SplitText, "split_off(len)", (LAST, LAST), 0, at 0),
];

/// More changes of texts, on few letters that differ.
pub static FURTHER_TEXT_CHANGES: &[Row] = &[
    row!(Call::Push, "push(😀)", 4),
    row!(Call::Insert, "insert(2, c)", (2, 2), 1),
    row!(Call::Insert, "insert(2, 😀)", (2, 2), 4),
    row!(Call::Insert, "insert(len, c)", (LAST, LAST), 1, at 0),
    row!(Call::Remove, "remove(3)", (3, 5), 0, at 6),
    row!(Call::ExtendFromSlice, "push_str(1)", 1),
    row!(Call::ExtendFromSlice, "push_str(😀)", 4),
    row!(Call::ExtendFromSlice, "push_str(12)", 12),
    row!(Call::Extend, "extend_chars(1)", 1),
    row!(Call::Extend, "extend_chars(12)", 12),
    row!(Call::ExtendHalves, "extend_strs(2)", 2),
    row!(Call::ExtendHalves, "extend_strs(12)", 12),
    row!(Call::Write, "write_str(none)", 0),
    row!(Call::Write, "write_str(12)", 12),
    row!(Call::InsertSlice, "insert_str(2, 1)", (2, 2), 1),
    row!(Call::InsertSlice, "insert_str(2, 😀)", (2, 2), 4),
    row!(Call::InsertSlice, "insert_str(len, 12)", (LAST, LAST), 12, at 0),
    row!(Call::ReplaceRange, "replace_range(..1, 1)", (0, 1), 1),
    row!(Call::ReplaceRange, "replace_range(3..5, 😀)", (3, 5), 4, at 6),
    row!(Call::ReplaceRange, "replace_range(3..5, 1)", (3, 5), 1, at 6),
    row!(Call::ReplaceRange, "replace_range(..2, 12)", (0, 2), 12),
    row!(Call::Add, "add(none)", 0),
    row!(Call::Add, "add(😀)", 4),
    row!(Call::Add, "add(12)", 12),
    row!(Call::PushReserved, "reserve(1), push(c)", 1),
];

/// Calls that grow a text.
pub static TEXT_GROWTH: &[Row] = &[
    row!(Call::Push, "push(c)", 1, times 100000),
    row!(Call::PushReserved, "reserve(1), t.push(c)", 1, times 100000),
    row!(Call::Insert, "insert(len, c)", (LAST, LAST), 1, at 0, times 100000),
    row!(Call::InsertSlice, "insert_str(len, 7)", (LAST, LAST), 7, at 0, times TIMES),
    row!(Call::ExtendFromSlice, "push_str(7)", 7, times TIMES),
    row!(Call::Write, "write_str(7)", 7, times TIMES),
    row!(Call::Write, "write_str(16)", 16, times 6250),
    row!(Call::Add, "add(7)", 7, times TIMES),
    row!(Call::Extend, "extend_chars(7)", 7, times TIMES),
    row!(Call::ExtendStrs, "extend_strs(one of 7)", 7, times TIMES),
    row!(Call::Extend, "extend_chars(100000)", 100000),
    row!(Call::ExtendManyStrs(TIMES), "extend_strs(14286 of 7)", 7),
    row!(Call::Push, "push(é)", 2, times 50000),
];

/// Calls that make something else from a text.
pub static TEXT_DERIVATIONS: &[Row] = &[
    row!(Call::ToStd, "to_std_string()", 0),
    row!(Call::Clone, "clone()", 0),
    row!(Call::Repeat, "repeat(0)", 0),
    row!(Call::Repeat, "repeat(1)", 1),
    row!(Call::Repeat, "repeat(3)", 3),
    row!(Call::Replace("A", "aa", LAST), "replace(1, 2)", 0),
    row!(Call::Replace("b", "bb", LAST), "replace(all but 1, 2)", 0),
    row!(Call::Replace("", "-", LAST), "replace(none, 1)", 0),
    row!(Call::Replace("", "--", 1), "replacen(none, 2, 1)", 0),
    row!(Call::ToAsciiLowercase, "to_ascii_lowercase()", 0),
    row!(Call::ToAsciiUppercase, "to_ascii_uppercase()", 0),
    row!(Call::ToLowercase, "to_lowercase()", 0),
    row!(Call::ToUppercase, "to_uppercase()", 0),
];

/// More replacements, in texts whose letters don't differ.
pub static FURTHER_TEXT_DERIVATIONS: &[Row] = &[
    row!(Call::Replace("A", "", 9), "replacen(1, none, 9)", 0),
    row!(Call::Replace("A", "é.😀", 9), "replacen(1, 7, 9)", 0),
    row!(Call::Replace("A", "A", 1), "replacen(1, 1, 1)", 0),
    row!(Call::Replace("A", "é", 0), "replacen(1, 2, 0)", 0),
    row!(Call::Replace("!", "é", 9), "replacen(no such, 2, 9)", 0),
    row!(Call::Replace("b", "é", LAST), "replace(all but 1, é)", 0),
];

/// Calls that make a text from something else, at the inline limit 15.
pub static TEXT_MAKERS: &[Row] = &[
    row!(Call::FromChar, "::from_char(c)", 2),
    row!(Call::FromSlice, "::from_str(15)", 15),
    row!(Call::FromSlice, "::from_str(16)", 16),
    row!(Call::FromSlice, "::from_str(1000)", 1000),
    row!(Call::FromVec, "::from_string(15)", 15),
    row!(Call::FromVec, "::from_string(16)", 16),
    row!(Call::FromVec, "::from_string(1000)", 1000),
    row!(Call::FromIter, "::from_chars(15)", 15),
    row!(Call::FromIter, "::from_chars(16)", 16),
    row!(Call::FromIter, "::from_chars(1000)", 1000),
    row!(Call::FromStrs, "::from_strs(one of 16)", 16),
    row!(Call::FromStrs, "::from_strs(one of 1000)", 1000),
    row!(Call::FromEcoStrings, "::from_eco_strings(16, 8)", 16),
    row!(Call::FromEcoStrings, "::from_eco_strings(1000, 8)", 1000),
    row!(Call::Collect, ": collect(16 chars)", 16),
    row!(Call::Collect, ": collect(1000 chars)", 1000),
    row!(Call::FromIter, "::from_chars(100000)", 100000),
    row!(Call::FromManyStrs(TIMES), "::from_strs(14286 of 7)", 7),
    row!(Call::Collect, ": collect(100000 chars)", 100000),
    row!(Call::FromSlice, "::from_str(100000)", 100000),
    row!(Call::Format, "::format(15)", 15),
    row!(Call::Format, "::format(16)", 16),
];

/// Calls that make a text from something else, at another inline limit, on both sides of it.
pub fn text_makers_at(limit: usize) -> [Row; 15] {
    let more = limit.saturating_add(1);
    [
        row!(Call::FromChar, "::from_char(é)", 2),
        row!(Call::FromSlice, "::from_str(limit)", limit),
        row!(Call::FromSlice, "::from_str(limit + 1)", more),
        row!(Call::FromVec, "::from_string(limit)", limit),
        row!(Call::FromVec, "::from_string(limit + 1)", more),
        row!(Call::FromIter, "::from_chars(limit)", limit),
        row!(Call::FromIter, "::from_chars(limit + 1)", more),
        row!(Call::FromStrs, "::from_strs(one of limit)", limit),
        row!(Call::FromStrs, "::from_strs(one of limit + 1)", more),
        row!(Call::FromEcoStrings, "::from_eco_strings(limit, 8)", limit),
        row!(Call::FromEcoStrings, "::from_eco_strings(limit + 1, 8)", more, at 0),
        row!(Call::Collect, ": collect(limit chars)", limit),
        row!(Call::Collect, ": collect(limit + 1 chars)", more),
        row!(Call::Format, "::format(limit)", limit),
        row!(Call::Format, "::format(limit + 1)", more),
    ]
}
