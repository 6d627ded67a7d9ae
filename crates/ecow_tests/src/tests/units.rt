//! The forms of `eco_vec!`, and zero-sized elements.
use crate::tests::calls::{error_of, push};
use ecow_list::{EcoError, EcoVec, eco_vec};
use std::test::Fail;

#[test]
fn all_forms_of_eco_vec(rt: HostRuntime) -> Result<(), Fail> {
    let alloc = rt.alloc();
    let equal = eco_vec![in alloc; 1; 4]?;
    let listed = eco_vec![in alloc; 1, 2, 3]?;
    let none: EcoVec<u8> = eco_vec![in alloc]?;
    let same = equal.as_slice() == [1, 1, 1, 1].as_slice();
    assert!(rt; same && listed.as_slice() == [1, 2, 3].as_slice() && none.is_empty());
    Ok(())
}

#[test]
fn elements_of_no_bytes(rt: HostRuntime) -> Result<(), Fail> {
    let hundred = vec![in rt.alloc(); (); 100]?;
    let mut list = EcoVec::from_vec(rt.alloc(), hundred).map_err(error_of)?;
    for _ in 0..900 {
        push(&mut list, ()).map_err(error_of)?;
    }
    assert_eq!(rt; list.iter().count(), 1000);
    let many = EcoVec::from_elem(rt.alloc(), (), 9223372036854775808);
    assert!(rt; matches!(&many, Err(rejected) if rejected.error == EcoError::Capacity));
    Ok(())
}
