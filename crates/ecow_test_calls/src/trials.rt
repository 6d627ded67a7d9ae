//! Makes a call on a value in a state, and compares what can be seen afterwards with the model. A
//! call that is refused must leave everything as it was.
use crate::calls::{Call, Role, Row};
use crate::counting::Source;
use crate::elements::or_memory;
use crate::model::{Case, Edit, Origin};
use crate::sequence::{Sequence, case_of};
use crate::states::State;
use crate::watch::Watch;
use ecow_list::EcoError;

/// An item as the call leaves it, which may change the case of a letter.
fn recased(row: &Row, item: i64) -> i64 {
    match row.call {
        Call::MakeAsciiUppercase | Call::ToAsciiUppercase if item >= 97 && item <= 122 => item - 32,
        Call::ToUppercase if item >= 97 && item <= 122 => item - 32,
        // The second byte of `é`, and of `É`.
        Call::ToUppercase if item == 169 => 137,
        Call::MakeAsciiLowercase | Call::ToAsciiLowercase if item >= 65 && item <= 90 => item + 32,
        Call::ToLowercase if item >= 65 && item <= 90 => item + 32,
        _ => item,
    }
}

fn item_of<V: Sequence>(case: &Case, origin: Origin) -> i64 {
    match origin {
        Origin::Before(place) => recased(&case.row, V::letter(&case.state, place)),
        Origin::Given(place) => V::given(&case.row, place),
        Origin::Byte(byte) => i64::from(byte),
    }
}

/// Whether a value has `len` items, at each place the one that `item` names.
fn has_items<V: Sequence, F: FnMut(usize) -> i64>(value: &V, len: usize, mut item: F) -> bool
    requires { F.IsAlwaysCallable item }
{
    let mut hold = value.len() == len;
    for place in 0..value.len() {
        hold = hold && value.item(place) == Some(item(place));
    }
    hold
}

/// Whether a value has `len` items, each from where the model says.
fn holds_change<V: Sequence>(case: &Case, value: &V, len: usize) -> bool {
    has_items(value, len, |place| {
        item_of::<V>(case, case.row.origin(case.state.len, place))
    })
}

/// Whether a value is unchanged since it was made.
fn is_before<V: Sequence>(case: &Case, value: &V) -> bool {
    has_items(value, case.state.len, |place| V::letter(&case.state, place))
        && value.is_inline() == case.state.capacity.is_none()
        && value.capacity() == capacity_before(case)
}

fn capacity_before(case: &Case) -> usize {
    case.state.capacity.or(case.limit).unwrap_or(0)
}

/// Whether the call returned exactly the items that it removed.
fn hands_out<V: Sequence>(case: &Case, out: &V::Out) -> bool {
    let edit = case.edit();
    let count = if case.row.hands_out() {
        edit.end.saturating_sub(edit.start)
    } else {
        0
    };
    let mut hold = V::handed(out, count).is_none();
    for place in 0..count {
        let item = V::letter(&case.state, edit.start.saturating_add(place));
        hold = hold && V::handed(out, place) == Some(item);
    }
    hold
}

/// Whether an iterator that the call returned gives its first and its last item, if it has more
/// than two. The caller drops it with the others still in it.
fn gives_ends<V: Sequence>(case: &Case, out: &mut V::Out) -> bool {
    let Edit { start, end, .. } = case.edit();
    if !case.row.hands_out() || end.saturating_sub(start) < 3 {
        return true;
    }
    let first = V::letter(&case.state, start);
    let last = V::letter(&case.state, end - 1);
    V::ends(out).is_none_or(|ends| ends == (Some(first), Some(last)))
}

/// Whether a call asked its iterator for each item and then once more, and never for a hint. A call
/// without an iterator is right, too.
fn is_asked<V: Sequence>(gift: &V::Gift, items: Option<usize>) -> bool {
    match (V::asks(gift).times(), items) {
        (Some(times), Some(items)) => times == items.saturating_add(1),
        (times, None) => times.is_some(),
        (None, _) => false,
    }
}

/// Whether a refused call may have added `count` items. A call that adds items piece by piece keeps
/// the pieces before the one that found no capacity.
fn is_cut(case: &Case, count: usize) -> bool {
    let Some(piece) = case.row.piece() else {
        return count == 0;
    };
    let len = case.state.len.saturating_add(count);
    let is_full = len.saturating_add(piece) > case.capacity_by_pieces(count);
    let is_whole = count.checked_rem(piece).unwrap_or(0) == 0;
    count < case.edit().count && is_whole && (is_full || case.state.shared && count == 0)
}

/// Whether the capacity is right after a refused call that added `count` items.
fn is_capacity_left(case: &Case, count: usize, capacity: usize) -> bool {
    if count > 0 {
        return capacity == case.capacity_by_pieces(count);
    }
    // The block grows before the first clone. If a clone is refused, it stays large.
    let has_grown = case.row.call == Call::ExtendFromSlice && !case.state.shared;
    capacity == capacity_before(case)
        || has_grown && !case.is_plain && capacity == case.capacity_after()
}

/// Whether a change did what the model says, or was refused and left everything as it was; and
/// whether the value left the block that it shared.
fn change_holds<V: Sequence>(
    watch: &Watch,
    case: &Case,
    done: &Result<V::Out, EcoError>,
    value: &V,
    gift: &V::Gift,
) -> (bool, bool) {
    match done {
        Ok(out) => {
            let hold = holds_change(case, value, case.len_after())
                && hands_out::<V>(case, out)
                && value.is_inline() == case.is_inline_after()
                && value.capacity() == case.capacity_after()
                && is_asked::<V>(gift, case.row.items());
            (hold, case.leaves())
        }
        Err(EcoError::Memory) if !case.is_free() && watch.may_refuse() => {
            let count = value.len().saturating_sub(case.state.len);
            let asked = (case.row.call == Call::Extend).then_some(count);
            let hold = is_cut(case, count)
                && holds_front(case, value, count)
                && is_capacity_left(case, count, value.capacity())
                && is_asked::<V>(gift, asked);
            (hold, count > 0)
        }
        Err(_) => (false, false),
    }
}

/// Whether a value is as before but for `count` of the given items, which are appended.
fn holds_front<V: Sequence>(case: &Case, value: &V, count: usize) -> bool {
    let before = case.state.len;
    let len = before.saturating_add(count);
    has_items(value, len, |place| {
        if place < before {
            return V::letter(&case.state, place);
        }
        item_of::<V>(case, case.row.origin(before, place))
    }) && value.is_inline() == (case.state.capacity.is_none() && case.fits_inline(len))
}

/// A clone of the value, if the state is a shared one.
pub fn twin_of<V: Sequence>(value: &V, state: &State) -> Result<Option<V>, EcoError> {
    if !state.shared {
        return Ok(None);
    }
    or_memory(value.clone()).map(|twin| Some(twin))
}

/// Whether the clone is unchanged, and is the only owner of its block if the value left it.
fn twin_holds<V: Sequence>(case: &Case, twin: Option<V>, has_left: bool) -> bool {
    let Some(twin) = twin else {
        return true;
    };
    let is_kept = is_before(case, &twin);
    match twin.into_block() {
        Some(mut block) => is_kept && block.is_unique() == has_left,
        None => is_kept,
    }
}

/// Makes a change to a value in a state.
fn change_trial<V: Sequence>(source: &V::Source, watch: &Watch, case: &Case) -> bool {
    let Ok(mut value) = V::made(watch.alloc, source, &case.state) else {
        return watch.may_refuse();
    };
    let Ok(mut gift) = V::gift(watch.alloc, source, &case.row) else {
        return watch.may_refuse();
    };
    let Ok(twin) = twin_of(&value, &case.state) else {
        return false;
    };
    let counts = source.counts();
    let mut done = value.change(&case.row, &mut gift);
    let is_cloned = done.is_err() || source.has_cloned(counts, case.clones() as u64);
    let (hold, has_left) = change_holds(watch, case, &done, &value, &gift);
    let gives_ends = match &mut done {
        Ok(out) => gives_ends::<V>(case, out),
        Err(_) => true,
    };
    hold && is_cloned && gives_ends && twin_holds(case, twin, has_left)
}

/// Makes a value from another in a state, which must stay as it was.
fn derive_trial<V: Sequence>(source: &V::Source, watch: &Watch, case: &Case) -> bool {
    let Ok(value) = V::made(watch.alloc, source, &case.state) else {
        return watch.may_refuse();
    };
    let Ok(twin) = twin_of(&value, &case.state) else {
        return false;
    };
    let counts = source.counts();
    let hold = match value.derive(&case.row) {
        Ok(Some(made)) => is_made(case, &made) && is_shared_by_clones(case, made),
        Ok(None) => case.row.call == Call::ToStd,
        Err(EcoError::Memory) => !case.is_made_free() && watch.may_refuse(),
        Err(_) => false,
    };
    let is_cloned = source.has_cloned(counts, 0);
    hold && is_cloned && is_before(case, &value) && twin_holds(case, twin, false)
}

/// Whether a new value is as the model says.
fn is_made<V: Sequence>(case: &Case, value: &V) -> bool {
    has_items(value, case.made_len(), |place| {
        item_of::<V>(case, case.row.made_of(case.state.len, place))
    }) && value.is_inline() == case.is_made_inline()
        && value.capacity() == case.made_capacity().0
}

/// Whether the new value shares the block of the old one if it is a clone, and has its own if not.
fn is_shared_by_clones<V: Sequence>(case: &Case, made: V) -> bool {
    let has_block = case.state.capacity.is_some_and(|capacity| capacity > 0);
    match made.into_block() {
        Some(mut block) => block.is_unique() != (case.row.call == Call::Clone && has_block),
        None => true,
    }
}

/// Makes a value from what the call gets.
fn make_trial<V: Sequence>(source: &V::Source, watch: &Watch, case: &Case) -> bool {
    let Ok(mut gift) = V::gift(watch.alloc, source, &case.row) else {
        return watch.may_refuse();
    };
    let counts = source.counts();
    match V::make(&case.row, &mut gift) {
        Ok(made) => {
            is_made(case, &made)
                && source.has_cloned(counts, case.clones() as u64)
                && is_asked::<V>(&gift, case.row.items())
        }
        Err(EcoError::Memory) => !case.is_made_free() && watch.may_refuse(),
        Err(_) => false,
    }
}

/// Whether a call does what it must in a state. A call that needs more items than there are is
/// skipped.
pub fn trial<V: Sequence>(source: &V::Source, watch: &Watch, row: &Row, state: &State) -> bool {
    let case = case_of::<V>(row, state);
    if !case.fits() {
        return true;
    }
    let hold = match row.role() {
        Role::Change => change_trial::<V>(source, watch, &case),
        Role::Derive => derive_trial::<V>(source, watch, &case),
        Role::Make => make_trial::<V>(source, watch, &case),
    };
    watch.sees(hold && source.has_live(0), row, state)
}

/// Whether each call of these tables does what it must in each state. After a refused request the
/// rest is skipped: the run in which no request is refused makes those calls.
pub fn tables_hold<V: Sequence>(
    source: &V::Source,
    watch: &Watch,
    tables: &[&[Row]],
    states: &[State],
) -> bool {
    let mut hold = true;
    for table in tables {
        for row in *table {
            for state in row.states(states) {
                if watch.is_untouched() {
                    hold = trial::<V>(source, watch, row, state) && hold;
                }
            }
        }
    }
    hold
}
