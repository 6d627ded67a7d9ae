//! Who shares a block, and what is cloned and dropped, as far as no script can say it.
use crate::tests::calls::{error_of, is_unique, shared};
use ecow_block::Block;
use ecow_bytes::EcoBytes;
use ecow_counted::Counted;
use ecow_list::{EcoError, EcoVec};
use ecow_model::{Outcome, Refusal};
use ecow_string::EcoString;
use ecow_test_calls::counting::Single;
use std::alloc::Global;
use std::test::Fail;

/// A vector of capacity 3 that shares its block.
fn with_clone(alloc: Global, values: &[u8]) -> Result<(EcoVec<u8>, EcoVec<u8>), EcoError> {
    let mut first = EcoVec::with_capacity(alloc, 3)?;
    first.extend_from_slice(values)?;
    let second = shared(&first)?;
    Ok((first, second))
}

/// The capacity of a vector that shares no block.
fn room_of_a_unique(list: &mut EcoVec<u8>) -> Option<usize> {
    if list.is_unique() {
        return Some(list.capacity());
    }
    None
}

/// Replaces the block of a vector by one without capacity.
fn give_its_block_away(alloc: Global, list: &mut EcoVec<u8>) -> Result<(), EcoError> {
    match list.own_mut() {
        Ok(block) => {
            *block = Block::new(alloc);
            Ok(())
        }
        Err(Some(error)) => Err(error),
        Err(None) => Ok(()),
    }
}

#[test]
fn a_vector_has_the_block_that_is_put_in_its_place(rt: HostRuntime) -> Result<(), Fail> {
    let (mut list, whole) = with_clone(rt.alloc(), &[1, 2, 3])?;
    give_its_block_away(rt.alloc(), &mut list)?;
    assert_eq!(rt; room_of_a_unique(&mut list), Some(0));
    assert!(rt; list.is_empty() && whole.as_slice() == [1, 2, 3].as_slice());
    let mut none = shared(&list)?;
    list.push(4).map_err(error_of)?;
    assert_eq!(rt; room_of_a_unique(&mut list), Some(4));
    assert!(rt; list.as_slice() == [4].as_slice() && none.is_empty() && is_unique(&mut none));
    assert_eq!(rt; none.pop()?, None);
    Ok(())
}

fn two_singles(alloc: Global) -> Result<EcoVec<Single>, EcoError> {
    let mut two = Vec::new(alloc);
    two.push(Single)?;
    two.push(Single)?;
    EcoVec::from_vec(alloc, two).map_err(error_of)
}

#[test]
fn elements_without_a_clone_are_shared(rt: HostRuntime) -> Result<(), Fail> {
    let mut first = two_singles(rt.alloc())?;
    let mut second = shared(&first)?;
    assert!(rt; first.len() == 2 && second.len() == 2 && second.capacity() == 4);
    assert!(rt; !is_unique(&mut first) && !is_unique(&mut second));
    Ok(())
}

#[test]
fn a_store_shares_elements_without_a_clone(rt: HostRuntime) {
    let mut lists: Counted<Single> = Counted::new(rt.alloc());
    let shared = lists.share(0, 1);
    assert!(rt; matches!(&shared, Outcome::Refused(Refusal::NoName)) && lists.owners(0).is_none());
}

/// Whether bytes that were made from a vector have its block.
fn is_block_of(list: &mut EcoVec<u8>, bytes: EcoBytes) -> bool {
    match bytes.into_eco_vec() {
        Ok(block) => !is_unique(list) && block.capacity() == list.capacity(),
        Err(_) => false,
    }
}

#[test]
fn bytes_and_texts_of_a_vector_share_its_block(rt: HostRuntime) -> Result<(), Fail> {
    let mut list = EcoVec::with_capacity(rt.alloc(), 9)?;
    list.extend_from_slice(b"abc")?;
    assert!(rt; is_unique(&mut list));
    let bytes = EcoBytes::from(shared(&list)?);
    assert!(rt; is_block_of(&mut list, bytes));
    let Ok(text) = EcoString::try_from(shared(&list)?) else {
        return Err("three letters".into());
    };
    assert!(rt; is_block_of(&mut list, EcoBytes::from(text)) && is_unique(&mut list));
    Ok(())
}
