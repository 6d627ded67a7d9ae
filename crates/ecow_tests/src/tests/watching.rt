//! The functions that watch a call must refuse a call with one fault.
use ecow_list::{EcoError, EcoVec};
use ecow_test_calls::calls::{Call, Row};
use ecow_test_calls::counting::{Counting, Tally};
use ecow_test_calls::elements::{Element, or_memory};
use ecow_test_calls::states::few_elements;
use ecow_test_calls::trials::trial;
use ecow_test_calls::watch::Watch;
use ecow_test_calls::watched::Asks;
use std::alloc::{AllocError, Global};
use std::test::Fail;

/// An element that counts. Its call should change nothing, and has the fault that `needs` numbers; 0
/// is none.
#[derive(Clone, Drop)]
struct Faulty(Counting);

impl Element for Faulty {
    type Source = Tally;

    type Array = ();

    fn of(_alloc: Global, tally: &Tally, number: i64) -> Result<Self, AllocError> {
        Ok(Faulty(tally.numbered(number)?))
    }

    fn number(&self) -> i64 {
        self.0.number
    }

    fn copy(list: &mut EcoVec<Self>, row: &Row, _given: &[Self]) -> Result<(), EcoError> {
        match (row.needs, list.as_slice().first()) {
            (0, _) => Ok(()),
            (1, _) => list.reserve(100),
            (2, _) => list.make_mut().map(|items| items.reverse()),
            (3, _) => list.pop().map(drop),
            (4, Some(first)) => or_memory(first.clone()).map(drop),
            _ => Err(EcoError::Memory),
        }
    }
}

/// Whether a trial passes a call with this fault.
fn passes(alloc: Global, tally: &Tally, needs: usize) -> bool {
    let (name, call, start, end, count, times) = ("", Call::ReplaceRange, 0, 0, 0, 1);
    let row = Row {
        call,
        name,
        start,
        end,
        count,
        needs,
        times,
    };
    trial::<EcoVec<Faulty>>(tally, &Watch::new(alloc, true), &row, &few_elements()[2])
}

#[test]
fn a_trial_refuses_a_call_that_is_wrong_in_one_thing(rt: HostRuntime) -> Result<(), Fail> {
    let (alloc, tally) = (rt.alloc(), Tally::new(rt.alloc())?);
    assert!(rt; passes(alloc, &tally, 0));
    for fault in 1..6 {
        assert!(rt; !passes(alloc, &tally, fault));
    }
    let _kept = tally.element()?;
    assert!(rt; !passes(alloc, &tally, 0));
    let (strict, once, asks) = (
        Watch::new(alloc, true),
        Watch::new(alloc, false),
        Asks::new(),
    );
    assert!(rt; !strict.may_refuse() && !strict.is_kept());
    assert!(rt; once.may_refuse() && once.is_kept() && !once.may_refuse() && !once.is_kept());
    let numbers = [1, 2];
    let mut items = asks.of(numbers.iter());
    assert!(rt; items.next().is_some() && asks.times() == Some(1));
    let _hint = items.size_hint();
    assert!(rt; asks.times().is_none());
    Ok(())
}
