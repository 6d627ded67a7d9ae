//! When a splice of a shared vector clones its elements: not before its iterator has ended.
ghost use Rattle.std.specs.Prelude.{vec_len};
ghost use Rattle.std.specs.Iterator.{at_most};

use crate::tests::calls::shared;
use ecow_list::{EcoError, EcoVec, range_in};
use ecow_test_calls::counting::{Counting, Tally};
use std::test::Fail;

/// An iterator that also sees whether an element was cloned before the iterator was asked.
#[derive(Drop)]
struct Watching {
    items: Vec<Counting>,
    tally: Tally,
    saw_a_clone: bool,
}

impl Watching {
    fn sees_a_clone(&self) -> bool {
        self.saw_a_clone || self.tally.clones() > 0
    }
}

impl Iterator for &mut Watching {
    type Item = Counting;

    ghost remaining = { λ it. at_most (vec_len it.now.items) };

    fn next(&mut self) -> Option<Counting> {
        self.saw_a_clone = self.sees_a_clone();
        self.items.pop()
    }
}

fn watched(list: &mut EcoVec<Counting>, items: &mut Watching) -> Result<(), EcoError> {
    if !range_in(&(1..2), list.len()) {
        return Ok(());
    }
    list.splice(1..2, items).map(drop)
}

#[test]
fn splice_clones_nothing_before_the_end_of_its_items(rt: HostRuntime) -> Result<(), Fail> {
    let tally = Tally::new(rt.alloc())?;
    let mut list = tally.list(rt.alloc(), 3)?;
    let _clone = shared(&list)?;
    let mut items = Watching {
        items: tally.elements(rt.alloc(), 2)?,
        tally,
        saw_a_clone: false,
    };
    watched(&mut list, &mut items)?;
    assert!(rt; !items.saw_a_clone && items.tally.clones() == 3 && list.len() == 4);
    Ok(())
}
