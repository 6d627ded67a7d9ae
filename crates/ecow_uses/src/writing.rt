//! Writes to the elements of a vector in their place.
ghost use Rattle.std.specs.Prelude.{◌≡◌, ◌+◌, ◌<◌, ◌^◌, length, slice_index, slice_set, OnErr, OnOk};
ghost use Rattle.std.specs.List.Sorted.{IsNonDecreasing, IsPermutation};

use ecow_list::{EcoError, EcoVec};

/// Adds one to the number at `at`. If it is refused, nothing changes.
#[tactic(auto, using(ecow_list::proofs::Views::refilled))]
pub fn count_up(list: &mut EcoVec<u64>, at: usize) -> Result<(), EcoError>
    requires bound { at < length list.old }
    requires small { slice_index list.old at + 1 < 2 ^ 64 }
    ensures ok { OnOk result (list.new ≡ slice_set list.old at (slice_index list.old at + 1)) }
    ensures unchanged { OnErr result (list.new ≡ list.old) }
{
    match list.own_mut() {
        Ok(block) => {
            block.as_mut_slice()[at] += 1;
            Ok(())
        }
        Err(Some(error)) => Err(error),
        Err(None) => Ok(()),
    }
}

/// Sorts the numbers in place. If it is refused, nothing changes.
#[tactic(auto, using(ecow_list::proofs::Views::refilled))]
pub fn sort(list: &mut EcoVec<u64>) -> Result<(), EcoError>
    ensures ok { OnOk result (IsNonDecreasing list.new) }
    ensures permutation { OnOk result (IsPermutation list.old list.new) }
    ensures unchanged { OnErr result (list.new ≡ list.old) }
{
    match list.own_mut() {
        Ok(block) => {
            block.as_mut_slice().sort_unstable();
            Ok(())
        }
        Err(Some(error)) => Err(error),
        Err(None) => Ok(()),
    }
}
