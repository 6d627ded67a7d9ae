//! Makes each call of the tables with random ranges, counts and lengths.
use ecow_bytes::SmallBytes;
use ecow_list::EcoVec;
use ecow_string::SmallText;
use ecow_test_calls::calls::{Call, Row};
use ecow_test_calls::counting::{Counting, Tally};
use ecow_test_calls::numbers::{Numbers, drawn};
use ecow_test_calls::sequence::Sequence;
use ecow_test_calls::tables;
use ecow_test_calls::trials::trial;
use ecow_test_calls::watch::Watch;

/// How many times each call of a table is made.
const ROUNDS: usize = 600;

fn rows_hold<V: Sequence>(
    source: &V::Source,
    watch: &Watch,
    numbers: &mut Numbers,
    tables: &[&[Row]],
) -> bool {
    let mut hold = true;
    for table in tables {
        for row in *table {
            for _ in 0..ROUNDS {
                let (row, mut state) = drawn(numbers, row, V::limit());
                // Half of the texts have letters past ASCII.
                if matches!(row.call, Call::ToLowercase | Call::ToUppercase) && state.len % 2 == 0 {
                    state = state.varied();
                }
                hold = trial::<V>(source, watch, &row, &state) && hold;
            }
        }
    }
    hold
}

fn vectors_hold(watch: &Watch, numbers: &mut Numbers) -> bool {
    let Ok(tally) = Tally::new(watch.alloc) else {
        return false;
    };
    let all = [
        tables::FURTHER_COPIES,
        tables::COPIES_MAKERS,
        tables::VECTOR_CHANGES,
        tables::FURTHER_VECTOR_CHANGES,
        tables::VECTOR_MAKERS,
        tables::FURTHER_VECTOR_MAKERS,
    ];
    rows_hold::<EcoVec<i64>>(&(), watch, numbers, &all)
        && rows_hold::<EcoVec<u8>>(&(), watch, numbers, &[tables::COPIES])
        && rows_hold::<EcoVec<Counting>>(&tally, watch, numbers, &all[2..])
}

fn bytes_hold<V: Sequence<Source = ()>>(watch: &Watch, numbers: &mut Numbers) -> bool {
    let makers = tables::bytes_makers_at(V::limit().unwrap_or(0));
    let all = [
        tables::BYTES_CHANGES,
        tables::FURTHER_BYTES_CHANGES,
        tables::REDUCTIONS,
        tables::BYTES_DERIVATIONS,
    ];
    rows_hold::<V>(&(), watch, numbers, &all)
        && rows_hold::<V>(&(), watch, numbers, &[makers.as_slice()])
}

fn texts_hold<V: Sequence<Source = ()>>(watch: &Watch, numbers: &mut Numbers) -> bool {
    let makers = tables::text_makers_at(V::limit().unwrap_or(0));
    let all = [
        tables::TEXT_CHANGES,
        tables::REDUCTIONS,
        tables::TEXT_DERIVATIONS,
        tables::FURTHER_TEXT_DERIVATIONS,
    ];
    rows_hold::<V>(&(), watch, numbers, &all)
        && rows_hold::<V>(&(), watch, numbers, &[makers.as_slice()])
}

/// Tries this in the strict run only.
pub(crate) fn values_hold(watch: &Watch) -> bool {
    let mut numbers = Numbers::new(11);
    !watch.is_strict()
        || vectors_hold(watch, &mut numbers)
            && bytes_hold::<SmallBytes<1>>(watch, &mut numbers)
            && bytes_hold::<SmallBytes<7>>(watch, &mut numbers)
            && bytes_hold::<SmallBytes<15>>(watch, &mut numbers)
            && bytes_hold::<SmallBytes<16>>(watch, &mut numbers)
            && bytes_hold::<SmallBytes<255>>(watch, &mut numbers)
            && bytes_hold::<SmallBytes<256>>(watch, &mut numbers)
            && bytes_hold::<SmallBytes<257>>(watch, &mut numbers)
            && bytes_hold::<SmallBytes<600>>(watch, &mut numbers)
            && texts_hold::<SmallText<3>>(watch, &mut numbers)
            && texts_hold::<SmallText<15>>(watch, &mut numbers)
            && texts_hold::<SmallText<255>>(watch, &mut numbers)
}
