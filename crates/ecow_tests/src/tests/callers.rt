//! Generic callers, which know their elements only by a bound. Their contracts rest on those of the
//! vector.
ghost use Rattle.std.specs.Prelude.{◌≡◌, ◌+◌, [], ◌∷◌, ◌++◌, length, take, IfOk};
ghost use Rattle.ecow_base.specs.Clones.{ClonesAreEqual};

use ecow_list::{EcoError, EcoVec};
use ecow_test_calls::counting::Tally;
use std::test::Fail;

/// A new vector of the elements of `list` and of one more.
fn with_last<T: Clone>(list: &EcoVec<T>, last: T) -> Result<EcoVec<T>, EcoError>
    ensures items { ClonesAreEqual T.is_clone
        → IfOk result (λ longer. longer ≡ list.now ++ last ∷ []) }
    ensures len { IfOk result (λ longer. length longer ≡ length list.now + 1) }
{
    let mut longer = list.clone()?;
    longer.push(last).map_err(|rejected| rejected.error)?;
    Ok(longer)
}

/// A vector of the first `len` elements of `list`, and its length.
fn front<T: Clone>(list: &EcoVec<T>, len: usize) -> Result<(EcoVec<T>, usize), EcoError>
    ensures items { ClonesAreEqual T.is_clone → IfOk result (λ part. part.0 ≡ take len list.now) }
    ensures len { IfOk result (λ part. part.1 ≡ length part.0) }
{
    let mut part = list.clone()?;
    part.truncate(len)?;
    let len = part.len();
    Ok((part, len))
}

/// An empty vector that is made from a clone of `list`, and `list`. Its elements need no clone.
fn empty_clones<T: Drop>(list: EcoVec<T>) -> Result<(EcoVec<T>, EcoVec<T>), EcoError>
    ensures { IfOk result (λ both. (both.0 ≡ []) × (both.1 ≡ list)) }
{
    let mut first = list.clone()?;
    first.clear();
    Ok((first, list))
}

#[test]
fn what_is_made_of_a_vector_has_clones(rt: HostRuntime) -> Result<(), Fail> {
    let tally = Tally::new(rt.alloc())?;
    let list = tally.list(rt.alloc(), 3)?;
    let longer = with_last(&list, tally.element()?)?;
    let (part, len) = front(&list, 2)?;
    assert!(rt; longer.len() == 4 && len == 2 && tally.has(5, 0));
    let counts = (tally.counts_without(longer), tally.counts_without(part));
    assert_eq!(rt;
        (counts, tally.counts_without(list)),
        (((5, 4), (5, 6)), (5, 9))
    );
    Ok(())
}

#[test]
fn no_element_is_cloned_for_none(rt: HostRuntime) -> Result<(), Fail> {
    let tally = Tally::new(rt.alloc())?;
    let (none, all) = empty_clones(tally.list(rt.alloc(), 3)?)?;
    assert!(rt; none.is_empty() && all.len() == 3 && tally.has(0, 0));
    assert_eq!(rt; tally.counts_without(all), (0, 3));
    Ok(())
}
