//! Makes each call of the tables in each state.
use ecow_list::EcoVec;
use ecow_test_calls::calls::Row;
use ecow_test_calls::counting::{Counting, Tally};
use ecow_test_calls::elements::Element;
use ecow_test_calls::sequence::Sequence;
use ecow_test_calls::states::{State, around, few_elements, few_spilled, thousand};
use ecow_test_calls::tables;
use ecow_test_calls::trials::tables_hold;
use ecow_test_calls::watch::Watch;

/// Tries vectors of a thousand `Counting`, in the strict run only.
pub(crate) fn many_hold(watch: &Watch) -> bool {
    let Ok(tally) = Tally::new(watch.alloc) else {
        return watch.may_refuse();
    };
    let calls = [
        tables::VECTOR_CHANGES,
        tables::INTO_ARRAYS,
        tables::VECTOR_MAKERS_OF_MANY,
    ];
    !watch.is_strict() || tables_hold::<EcoVec<Counting>>(&tally, watch, &calls, &thousand())
}

/// Tries vectors of few elements in each state.
pub(crate) fn vectors_hold<T: Element<Source = ()>>(watch: &Watch) -> bool {
    let calls = [
        tables::VECTOR_CHANGES,
        tables::FURTHER_VECTOR_CHANGES,
        tables::VECTOR_DERIVATIONS,
        tables::VECTOR_MAKERS,
        tables::FURTHER_VECTOR_MAKERS,
    ];
    tables_hold::<EcoVec<T>>(&(), watch, &calls, &few_elements())
}

/// Tries arrays that are made from vectors, and vectors that are made from arrays.
pub(crate) fn arrays_hold<T: Element<Source = ()>>(watch: &Watch) -> bool {
    let (calls, few) = ([tables::INTO_ARRAYS, tables::ARRAY_MAKERS], few_elements());
    tables_hold::<EcoVec<T>>(&(), watch, &calls, &few)
        && tables_hold::<EcoVec<T>>(&(), watch, &[tables::INTO_OTHER_ARRAYS], &few[..2])
}

/// Tries calls that copy elements as plain memory: `copies`, on few elements and on many, and
/// further ones.
pub(crate) fn copies_hold<T: Element<Source = ()>>(watch: &Watch, copies: &[Row]) -> bool {
    let calls = [copies, tables::FURTHER_COPIES, tables::COPIES_MAKERS];
    tables_hold::<EcoVec<T>>(&(), watch, &calls, &few_elements())
        && tables_hold::<EcoVec<T>>(&(), watch, &[copies], &thousand())
}

/// These states with letters that differ.
fn varied(states: [State; 7]) -> [State; 7] {
    let mut states = states;
    for state in &mut states {
        *state = state.varied();
    }
    states
}

/// Tries bytes or texts around the inline limit: changes, which are tried on a thousand bytes too,
/// further changes, on letters that differ, and calls that make a value.
fn small_hold<V: Sequence<Source = ()>>(
    watch: &Watch,
    changes: &[Row],
    further: &[Row],
    (derivations, makers): (&[Row], &[Row]),
) -> bool {
    let limit = V::limit().unwrap_or(0);
    let (few, first_makers) = (few_spilled(limit), tables::first_makers_at(limit));
    let all = [
        tables::REDUCTIONS,
        changes,
        tables::FURTHER_REDUCTIONS,
        further,
    ];
    tables_hold::<V>(&(), watch, &all, &varied(around(limit)))
        && tables_hold::<V>(&(), watch, &all[..2], &few)
        && tables_hold::<V>(&(), watch, &all[..2], &thousand())
        && tables_hold::<V>(
            &(),
            watch,
            &[derivations, makers, &first_makers],
            &around(limit),
        )
}

pub(crate) fn bytes_hold<V: Sequence<Source = ()>>(watch: &Watch) -> bool {
    let makers = tables::bytes_makers_at(V::limit().unwrap_or(0));
    let (changes, further) = (tables::BYTES_CHANGES, tables::FURTHER_BYTES_CHANGES);
    small_hold::<V>(
        watch,
        changes,
        further,
        (tables::BYTES_DERIVATIONS, &makers),
    )
}

pub(crate) fn texts_hold<V: Sequence<Source = ()>>(watch: &Watch) -> bool {
    let (limit, derivations) = (V::limit().unwrap_or(0), tables::TEXT_DERIVATIONS);
    let makers = tables::text_makers_at(limit);
    let (changes, further) = (tables::TEXT_CHANGES, tables::FURTHER_TEXT_CHANGES);
    small_hold::<V>(watch, changes, further, (derivations, &makers))
        && tables_hold::<V>(
            &(),
            watch,
            &[tables::FURTHER_TEXT_DERIVATIONS],
            &around(limit),
        )
        // Past ASCII, changing the case of letters makes a `String` first.
        && tables_hold::<V>(&(), watch, &[&derivations[9..]], &varied(around(limit)))
}
