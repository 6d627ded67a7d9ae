//! Names everything that `ecow` re-exports by the original's paths, and what `ecow_list` exports
//! besides.
use ecow::bytes::EcoBytes;
use ecow::string::{EcoString, ToEcoString};
use ecow::vec::{Drain, EcoVec, IntoIter, Splice};
use ecow::{EcoError, IntoArray, Rejected};
use std::alloc::Global;
use std::test::Fail;

/// Drains the first element, and replaces the next one.
fn changed(list: EcoVec<u8>) -> Result<EcoVec<u8>, EcoError> {
    let mut list = list;
    if ecow::range_in(&(..1), list.len()) {
        let first: Drain<u8> = list.drain(..1)?;
        drop(first);
    }
    if ecow::resolve(&(..1), list.len()).is_some() {
        let second: Splice<u8> = list.splice(..1, [7, 8])?;
        drop(second);
    }
    Ok(list)
}

/// Writes to the elements in their block, by the paths of `ecow_list`.
fn reversed(
    list: ecow_list::vec::EcoVec<u8>,
) -> Result<ecow_list::vec::EcoVec<u8>, ecow_list::error::EcoError> {
    let mut list = list;
    let owned: Result<&mut ecow_list::block::Block<u8>, Option<EcoError>> = list.own_mut();
    if let Ok(block) = owned {
        block.as_mut_slice().reverse();
    }
    Ok(list)
}

#[test]
fn vectors_and_their_iterators_are_found(rt: HostRuntime) -> Result<(), Fail> {
    let list = reversed(changed(ecow::eco_vec![in rt.alloc(); 1u8, 2, 3]?)?)?;
    assert_eq!(rt; list.as_slice(), [3u8, 8, 7].as_slice());
    assert_eq!(rt; ecow_list::range::resolve(&(1..), list.len()), Some((1, 3)));
    Ok(())
}

#[test]
fn arrays_and_iterators_are_found(rt: HostRuntime) -> Result<(), Fail> {
    let list = ecow::eco_vec![in rt.alloc(); 1u8, 2, 3]?;
    let array: Result<[u8; 3], IntoArray<u8>> = list.clone()?.into_array::<3>();
    let items: Result<ecow_list::iter::IntoIter<u8>, Rejected<EcoVec<u8>>> = list.into_iter();
    let items: Result<IntoIter<u8>, Rejected<EcoVec<u8>>> = items;
    assert!(rt; array.is_ok() && items.is_ok());
    Ok(())
}

/// The digits of twelve as bytes with the limit `N`, if a text with this limit is empty.
fn twelve<const N: usize>(
    alloc: Global,
    none: ecow::SmallText<N>,
) -> Result<ecow::SmallBytes<N>, EcoError> {
    ecow::SmallBytes::<N>::from_slice(alloc, if none.is_empty() { b"12" } else { b"" })
}

/// The digits of twelve, made in two ways.
fn printed(alloc: Global) -> Result<(EcoString, EcoString), EcoError> {
    let text: EcoString = ecow::eco_format!(in alloc; "{}", 12)?;
    Ok((text, 12.to_eco_string(alloc)?))
}

#[test]
fn bytes_and_texts_are_found(rt: HostRuntime) -> Result<(), Fail> {
    assert_eq!(rt; ecow::INLINE_LIMIT, 15);
    let bytes = twelve(rt.alloc(), ecow::SmallText::<3>::new(rt.alloc()))?;
    assert!(rt; bytes.as_slice() == b"12".as_slice());
    let (first, second) = printed(rt.alloc())?;
    assert!(rt; first.as_str() == "12" && second.as_str() == "12");
    assert!(rt; ecow::EcoBytes::from_slice(rt.alloc(), b"12")? == EcoBytes::from(first));
    Ok(())
}
