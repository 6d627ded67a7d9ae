//! Tries values with more owners than a number of two bytes can count.
use ecow_bytes::EcoBytes;
use ecow_list::{EcoError, EcoVec};
use ecow_string::EcoString;
use ecow_test_calls::sequence::Sequence;
use ecow_test_calls::states::thousand;
use ecow_test_calls::watch::Watch;
use std::alloc::Global;

const OWNERS: usize = 70_000;

/// Whether a block is shared for exactly as long as it has another owner.
fn many_hold<V: Sequence<Source = ()>>(alloc: Global) -> Result<bool, EcoError> {
    let state = thousand()[0];
    let first = V::made(alloc, &(), &state)?;
    let mut owners = Vec::new(alloc);
    for _ in 0..OWNERS {
        // A clone takes no memory.
        let Ok(owner) = first.clone() else {
            return Ok(false);
        };
        owners.push(owner)?;
    }
    let mut is_right = first.len() == 1000 && first.capacity() == 1600;
    let Some(mut block) = first.into_block() else {
        return Ok(false);
    };
    for owner in owners {
        let last = owner.item(999) == Some(V::letter(&state, 999));
        is_right = is_right && last && !block.is_unique();
        drop(owner);
    }
    Ok(is_right && block.is_unique())
}

fn all_hold(alloc: Global) -> Result<bool, EcoError> {
    let vectors = many_hold::<EcoVec<u8>>(alloc)?;
    Ok(vectors && many_hold::<EcoBytes>(alloc)? && many_hold::<EcoString>(alloc)?)
}

/// Whether values can have many clones, and are the only owners again once those are dropped.
pub(crate) fn owners_hold(watch: &Watch) -> bool {
    all_hold(watch.alloc).unwrap_or_else(|_| watch.may_refuse())
}
