//! Shows that blocks are `Send` and `Sync` where their elements are.
use crate::block::Block;
use crate::rest::Rest;
use std::marker::{Send, Sync};

/// Takes a type whose values may be given to another thread.
fn may_be_sent<V: Send>() {}

/// Takes a type whose values several threads may look at.
fn may_be_shared<V: Sync>() {}

/// A list may be given to another thread where its elements may.
fn sent<T: Send>() {
    may_be_sent::<Block<T>>();
    may_be_sent::<Rest<T>>();
}

/// Several threads may look at a list where they may look at its elements.
fn shared<T: Sync>() {
    may_be_shared::<Block<T>>();
    may_be_shared::<Rest<T>>();
}
