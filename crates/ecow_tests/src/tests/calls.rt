//! Calls of vectors without their contracts. A test that makes many calls is proved faster over
//! these.
use ecow_list::{EcoError, EcoVec, Rejected};

/// The error of a refused call, without the value.
pub(crate) fn error_of<V: Drop>(rejected: Rejected<V>) -> EcoError {
    rejected.error
}

/// A second vector over the same block.
pub(crate) fn shared<T: Drop>(list: &EcoVec<T>) -> Result<EcoVec<T>, EcoError> {
    Ok(list.clone()?)
}

pub(crate) fn is_unique<T: Drop>(list: &mut EcoVec<T>) -> bool {
    list.is_unique()
}

pub(crate) fn push<T: Clone>(list: &mut EcoVec<T>, value: T) -> Result<(), Rejected<T>> {
    list.push(value)
}
