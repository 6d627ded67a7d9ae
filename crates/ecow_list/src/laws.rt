// rust: no file: laws alone
//! Laws of the conversions: a list that goes into a vector comes out of it again.
ghost use Rattle.std.specs.Prelude.{◌≡◌, ◌<◌, ◌↔◌, vec_len, IfOk, IsErrOf};
ghost use Rattle.ecow_base.specs.Clones.{ClonesAreEqual};
ghost use Rattle.ecow_list.specs.Vectors.{IsKept};

use crate::error::EcoError;
use crate::vec::EcoVec;
use ecow_base::MAX_LEN;
use std::alloc::Global;

/// Makes a vector of a `Vec`, and a `Vec` of that. A refusal drops the elements: it is `Capacity`
/// past 2^63 - 1 elements, and else `Memory`.
pub fn vec_round_trip<T: Clone>(alloc: Global, elements: Vec<T>) -> Result<Vec<T>, EcoError>
    ensures ok { ClonesAreEqual T.is_clone → IfOk result (λ back. back.items ≡ elements.items) }
    ensures kept { IfOk result (λ back. IsKept T.is_clone elements.items back.items) }
    ensures capacity { IsErrOf result EcoError.Capacity ↔ (MAX_LEN < vec_len elements) }
{
    match EcoVec::from_vec(alloc, elements) {
        Ok(vector) => match vector.into_vec() {
            Ok(back) => Ok(back),
            Err(rejected) => Err(rejected.error),
        },
        Err(rejected) => Err(rejected.error),
    }
}

/// Makes a vector of an array, and an array of that. A refusal drops the elements: it is
/// `Capacity` past 2^63 - 1 elements, and else `Memory`.
pub fn array_round_trip<T: Clone, const N: usize>(
    alloc: Global,
    elements: [T; N],
) -> Result<[T; N], EcoError>
    ensures ok { ClonesAreEqual T.is_clone → IfOk result (λ back. back ≡ elements) }
    ensures kept { IfOk result (IsKept T.is_clone elements) }
    ensures capacity { IsErrOf result EcoError.Capacity ↔ (MAX_LEN < N) }
{
    match EcoVec::from_array(alloc, elements) {
        Ok(vector) => match vector.into_array() {
            Ok(back) => Ok(back),
            Err(_) => Err(EcoError::Memory),
        },
        Err(rejected) => Err(rejected.error),
    }
}
