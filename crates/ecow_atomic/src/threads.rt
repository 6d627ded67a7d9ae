//! The crates above show by these functions that their types are `Send` and `Sync`.
use crate::shared::Shared;
use std::marker::{Send, Sync};

/// Takes a type that is `Send`.
pub fn may_be_sent<V: Send>() {}

/// Takes a type that is `Sync`.
pub fn may_be_shared<V: Sync>() {}

/// An owner is `Send` and `Sync` where its elements are both.
fn owners<T: Send + Sync>() {
    may_be_sent::<Shared<T>>();
    may_be_shared::<Shared<T>>();
}
