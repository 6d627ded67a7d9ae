//! Tries vectors of zero-sized elements, which request memory for one block however long they grow.
use ecow_list::EcoVec;
use ecow_test_calls::watch::Watch;

/// How many elements are added.
const MANY: usize = 1000;

/// Pushes one by one. Only the first may be refused.
fn pushes_hold(watch: &Watch) -> bool {
    let mut list = EcoVec::new(watch.alloc);
    for _ in 0..MANY {
        if list.push(()).is_err() {
            return list.is_empty() && watch.may_refuse();
        }
    }
    list.len() == MANY && list.capacity() >= MANY
}

/// Appends slices to a vector that shares its block.
fn extensions_hold(watch: &Watch) -> bool {
    let Ok(mut list) = EcoVec::from_slice(watch.alloc, &[(), (), ()]) else {
        return watch.may_refuse();
    };
    let Ok(twin) = list.clone() else {
        return false;
    };
    if list.extend_from_slice(&[(); MANY]).is_err() {
        return list.len() == 3 && watch.may_refuse();
    }
    // The copy has a block of its own.
    let is_done = list.extend_from_slice(&[(); MANY]).is_ok() && list.reserve(MANY).is_ok();
    is_done && list.len() == 2003 && twin.len() == 3
}

pub(crate) fn units_hold(watch: &Watch) -> bool {
    pushes_hold(watch) && extensions_hold(watch)
}
