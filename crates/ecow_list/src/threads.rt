//! Which types may be sent to another thread, and which several threads may read at once, where the
//! count of owners is atomic. The last owner of a block may be in any thread, so elements must
//! allow both.
use crate::error::{EcoError, IntoArray, Rejected};
use crate::iter::{Drain, IntoIter, Splice};
use crate::vec::EcoVec;
use ecow_shared::{may_be_sent, may_be_shared};
use std::marker::{Send, Sync};

/// Vectors.
fn vectors<T: Send + Sync>() {
    may_be_sent::<EcoVec<T>>();
    may_be_shared::<EcoVec<T>>();
}

/// Iterators, whose elements no vector shares.
fn iterators<T: Send + Sync>() {
    may_be_sent::<IntoIter<T>>();
    may_be_shared::<IntoIter<T>>();
    may_be_sent::<Drain<T>>();
    may_be_shared::<Drain<T>>();
    may_be_sent::<Splice<T>>();
    may_be_shared::<Splice<T>>();
}

/// Errors, also those that hand a vector back.
fn errors<T: Send + Sync>() {
    may_be_sent::<EcoError>();
    may_be_shared::<EcoError>();
    may_be_sent::<Rejected<EcoVec<T>>>();
    may_be_shared::<Rejected<EcoVec<T>>>();
    may_be_sent::<IntoArray<T>>();
    may_be_shared::<IntoArray<T>>();
}
