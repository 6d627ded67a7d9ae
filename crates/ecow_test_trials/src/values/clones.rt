//! Refuses each clone of an element that a call makes: the first, the second and so on.
use ecow_list::EcoVec;
use ecow_test_calls::calls::Row;
use ecow_test_calls::counting::{Counting, Tally};
use ecow_test_calls::elements::{Element, Wide};
use ecow_test_calls::states::{State, few_elements};
use ecow_test_calls::tables;
use ecow_test_calls::trials::trial;
use ecow_test_calls::watch::Watch;
use std::alloc::Global;

/// Refuses each clone of a call in turn, until no clone is left to refuse. `None` if the elements
/// can't be made.
fn each_clone_is_refused<E: Element<Source = Tally>>(
    alloc: Global,
    row: &Row,
    state: &State,
) -> Option<bool> {
    for refused in 1..100 {
        let (tally, watch) = (
            Tally::refusing(alloc, refused).ok()?,
            Watch::new(alloc, false),
        );
        if !trial::<EcoVec<E>>(&tally, &watch, row, state) {
            return Some(false);
        }
        if watch.is_untouched() {
            return Some(true);
        }
    }
    Some(false)
}

fn rows_hold<E: Element<Source = Tally>>(watch: &Watch, tables: &[&[Row]]) -> bool {
    let (states, mut hold) = (few_elements(), true);
    for table in tables {
        for row in *table {
            for state in row.states(&states) {
                let is_right = each_clone_is_refused::<E>(watch.alloc, row, state) == Some(true);
                hold = watch.sees(is_right, row, state) && hold;
            }
        }
    }
    hold
}

/// Tries this in the strict run only, since no request for memory may be refused here.
pub(crate) fn clones_hold(watch: &Watch) -> bool {
    let calls = [
        tables::VECTOR_CHANGES,
        tables::VECTOR_MAKERS,
        tables::FURTHER_VECTOR_CHANGES,
        tables::VECTOR_DERIVATIONS,
        tables::FURTHER_VECTOR_MAKERS,
        tables::INTO_ARRAYS,
        tables::ARRAY_MAKERS,
    ];
    !watch.is_strict()
        || rows_hold::<Wide>(watch, &calls[..2]) && rows_hold::<Counting>(watch, &calls)
}
