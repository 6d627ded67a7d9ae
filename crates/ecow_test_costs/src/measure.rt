//! Measures the calls of vectors, bytes and texts.
use crate::marks::Meter;
use crate::rows::{Cost, Form, Rows, Standing, USUAL};
use ecow_list::{EcoError, EcoVec};
use ecow_test_calls::calls::{Role, Row};
use ecow_test_calls::counting::{Counting, Source, Tally};
use ecow_test_calls::elements::Element;
use ecow_test_calls::numbers::{self, Numbers};
use ecow_test_calls::sequence::{Sequence, case_of};
use ecow_test_calls::states::{
    State, brimful, edge, few_bytes, few_elements, few_spilled, no_byte, thousand,
};
use ecow_test_calls::tables;
use ecow_test_calls::trials::twin_of;

/// Where the elements of a value are that was given away as a block. There may be no value.
fn form_of<T: Drop>(block: &mut Option<Option<EcoVec<T>>>) -> Form {
    match block {
        None => Form::Absent,
        Some(None) => Form::Inline,
        Some(Some(block)) => if block.is_unique() {
            Form::Sole
        } else {
            Form::Shared
        },
    }
}

/// Where the elements of a value and of another are. There may be neither.
fn standing<V: Sequence>(value: Option<V>, other: Option<V>) -> Standing {
    let capacity = value.as_ref().map_or(0, |value| value.capacity());
    let mut block = value.map(|value| value.into_block());
    let mut other = other.map(|other| other.into_block());
    Standing::of(form_of(&mut block), form_of(&mut other), capacity)
}

/// Where the elements of the value and of its clone, or of the value that it is made from, are
/// before the call.
fn before<V: Sequence>(role: Role, state: &State) -> Standing {
    let form = match state.capacity {
        None => Form::Inline,
        Some(_) if state.shared => Form::Shared,
        Some(_) => Form::Sole,
    };
    let capacity = state.capacity.or(V::limit()).unwrap_or(0);
    match role {
        Role::Change if state.shared => Standing::of(form, form, capacity),
        Role::Change => Standing::of(form, Form::Absent, capacity),
        Role::Derive => Standing::of(Form::Absent, form, capacity),
        Role::Make => Standing::of(Form::Absent, Form::Absent, capacity),
    }
}

/// The clones and drops between two counts.
fn since(before: Option<(u64, u64)>, after: Option<(u64, u64)>) -> Option<(u64, u64)> {
    let ((clones, drops), after) = (before?, after?);
    Some((after.0.wrapping_sub(clones), after.1.wrapping_sub(drops)))
}

/// Where the elements are after a call, and how many were cloned and dropped in it.
type Measured = Result<(Standing, Option<(u64, u64)>), EcoError>;

/// Makes a call on a value in a state. A call that needs no value leaves that value out.
fn measured<V: Sequence>(meter: Meter, source: &V::Source, row: &Row, state: &State) -> Measured {
    let mut value = V::made(meter.alloc, source, state)?;
    let twin = twin_of(&value, state)?;
    let mut gift = V::gift(meter.alloc, source, row)?;
    let (counted, _begun) = (source.counts(), meter.begin());
    let (mut out, mut made) = (None, None);
    match row.role() {
        Role::Change => {
            for _ in 0..row.times {
                out = Some(value.change(row, &mut gift)?);
            }
        }
        Role::Derive => made = value.derive(row)?,
        Role::Make => made = Some(V::make(row, &mut gift)?),
    }
    let (_ended, counts) = (meter.end(), since(counted, source.counts()));
    drop(out);
    let after = match row.role() {
        Role::Change if row.gives_away() => standing(None, twin),
        Role::Change => standing(Some(value), twin),
        Role::Derive => {
            let after = standing(made, Some(value));
            drop(twin);
            after
        }
        Role::Make => standing(made, None),
    };
    Ok((after, counts))
}

/// Adds a row for each call of these tables and each state that has the items which the call needs.
fn add<V: Sequence>(rows: &mut Rows, source: &V::Source, tables: &[&[Row]], states: &[State]) {
    for table in tables {
        for row in *table {
            for state in row.states(states) {
                if row.needs <= state.len {
                    let cost = Cost::of::<V>(row, state, before::<V>(row.role(), state));
                    let measured = measured::<V>(rows.meter, source, row, state);
                    rows.add(measured.map(|(after, counts)| Cost {
                        after,
                        counts,
                        ..cost
                    }));
                }
            }
        }
    }
}

/// Makes fifty values that a seed decides, and then requests memory as often as makes 1000 requests
/// in all, if the fifty made as many as the rules say.
fn drawn<V: Sequence>(
    meter: Meter,
    numbers: &mut Numbers,
    source: &V::Source,
    row: &Row,
) -> Result<Cost, EcoError> {
    let (mut drawn, mut left) = (Vec::new(meter.alloc), 1000usize);
    for _ in 0..50 {
        let (row, state) = numbers::drawn(numbers, row, V::limit());
        left = left.saturating_sub(case_of::<V>(&row, &state).made_capacity().1);
        let value = V::made(meter.alloc, source, &state)?;
        drawn.push((row, value, V::gift(meter.alloc, source, &row)?))?;
    }
    let _begun = meter.begin();
    for (row, value, gift) in drawn.as_mut_slice() {
        let _made = match row.role() {
            Role::Make => Some(V::make(row, gift)?),
            _ => value.derive(row)?,
        };
    }
    for _ in 0..left {
        let _asked: Vec<u8> = Vec::with_capacity(meter.alloc, 1)?;
    }
    let _ended = meter.end();
    let (_, state) = numbers::drawn(numbers, row, V::limit());
    let mut cost = Cost::of::<V>(row, &state, Standing::none());
    cost.role = Role::Derive;
    Ok(cost)
}

/// Adds a row for each call, made with arguments that a seed decides.
fn add_drawn<V: Sequence>(rows: &mut Rows, source: &V::Source, calls: &[Row]) {
    let mut numbers = Numbers::new(5);
    for row in calls {
        rows.add(drawn::<V>(rows.meter, &mut numbers, source, row));
    }
}

/// Adds the rows of vectors of `Counting`.
pub(crate) fn add_vectors(rows: &mut Rows) {
    let Ok(tally) = Tally::new(rows.meter.alloc) else {
        return;
    };
    let (changes, arrays) = (tables::VECTOR_CHANGES, tables::INTO_ARRAYS);
    let in_states = [changes, arrays, tables::VECTOR_DERIVATIONS];
    let from_none = [
        tables::VECTOR_GROWTH,
        tables::VECTOR_MAKERS,
        tables::VECTOR_MAKERS_OF_MANY,
        tables::ARRAY_MAKERS,
    ];
    add::<EcoVec<Counting>>(rows, &tally, &in_states, &few_elements());
    add::<EcoVec<Counting>>(rows, &tally, &in_states, &thousand());
    add::<EcoVec<Counting>>(rows, &tally, &from_none, &few_elements()[..1]);
    add::<EcoVec<Counting>>(rows, &tally, &[tables::HANDED_OUT], &brimful());
    add_drawn::<EcoVec<Counting>>(rows, &tally, tables::VECTOR_MAKERS);
}

/// Adds the rows of vectors of other elements. Their calls cost the same as those of `Counting`.
pub(crate) fn add_elements<T: Element<Source = ()>>(rows: &mut Rows, element: &'static str) {
    // The rows after these are for bytes only, for arrays, or for too many elements.
    let (copies, many) = (&tables::COPIES[..11], &tables::VECTOR_MAKERS_OF_MANY[..8]);
    let in_states = [tables::VECTOR_CHANGES, copies, tables::VECTOR_DERIVATIONS];
    let makers = [tables::VECTOR_MAKERS, many, tables::COPIES_MAKERS];
    rows.element = element;
    add::<EcoVec<T>>(rows, &(), &in_states, &few_elements());
    add::<EcoVec<T>>(rows, &(), &in_states, &thousand());
    add::<EcoVec<T>>(rows, &(), &makers, &few_elements());
    rows.element = "";
}

/// Adds the rows of vectors of bytes for calls that copy elements as plain memory.
pub(crate) fn add_copies(rows: &mut Rows) {
    let (few, many, copies) = (few_elements(), thousand(), tables::COPIES);
    let from_none = [tables::COPIES_GROWTH, tables::COPIES_MAKERS];
    add::<EcoVec<u8>>(rows, &(), &[copies], &few);
    add::<EcoVec<u8>>(rows, &(), &[copies, tables::COPIES_WITHIN], &many);
    add::<EcoVec<u8>>(rows, &(), &from_none, &few[..1]);
}

/// Adds the rows of zero-sized elements.
pub(crate) fn add_units(rows: &mut Rows) {
    let calls = [tables::UNIT_GROWTH, tables::UNIT_MAKERS];
    add::<EcoVec<()>>(rows, &(), &calls, &few_elements()[..1]);
}

/// Adds the rows of calls that change bytes or a text, and that make a value from them.
fn add_in<V: Sequence<Source = ()>>(
    rows: &mut Rows,
    changes: &[Row],
    derivations: &[Row],
    states: &[State],
) {
    add::<V>(rows, &(), &[changes], states);
    add::<V>(rows, &(), &[tables::REDUCTIONS], states);
    add::<V>(rows, &(), &[derivations], states);
}

/// Adds the rows of bytes or a text: of calls that change them, that make a value from them, and
/// that make them. At the inline limit 15 it also adds those of `growth`.
fn add_small<V: Sequence<Source = ()>>(
    rows: &mut Rows,
    (changes, derivations): (&[Row], &[Row]),
    (makers, makers_at): (&[Row], &[Row]),
    growth: &[Row],
) {
    let limit = V::limit().unwrap_or(0);
    match limit {
        USUAL => add_in::<V>(rows, changes, derivations, &few_bytes()),
        0 => add_in::<V>(rows, changes, derivations, &edge(limit)[..1]),
        _ => add_in::<V>(rows, changes, derivations, &edge(limit)),
    }
    add_in::<V>(rows, changes, derivations, &thousand());
    add::<V>(rows, &(), &[tables::SHRINKING], &few_spilled(limit));
    add_drawn::<V>(rows, &(), derivations);
    if limit == USUAL {
        add::<V>(rows, &(), &[tables::FIRST_MAKERS], &no_byte());
        add::<V>(rows, &(), &[makers], &no_byte());
        add::<V>(rows, &(), &[growth], &no_byte());
        add_drawn::<V>(rows, &(), makers_at);
    } else {
        let first_makers = tables::first_makers_at(limit);
        add::<V>(rows, &(), &[first_makers.as_slice()], &no_byte());
        add::<V>(rows, &(), &[makers_at], &no_byte());
    }
}

pub(crate) fn add_bytes<V: Sequence<Source = ()>>(rows: &mut Rows) {
    let makers_at = tables::bytes_makers_at(V::limit().unwrap_or(0));
    let (changes, derivations) = (tables::BYTES_CHANGES, tables::BYTES_DERIVATIONS);
    let makers = (tables::BYTES_MAKERS, makers_at.as_slice());
    add_small::<V>(rows, (changes, derivations), makers, tables::BYTES_GROWTH);
}

pub(crate) fn add_texts<V: Sequence<Source = ()>>(rows: &mut Rows) {
    let makers_at = tables::text_makers_at(V::limit().unwrap_or(0));
    let (changes, derivations) = (tables::TEXT_CHANGES, tables::TEXT_DERIVATIONS);
    let makers = (tables::TEXT_MAKERS, makers_at.as_slice());
    add_small::<V>(rows, (changes, derivations), makers, tables::TEXT_GROWTH);
}
