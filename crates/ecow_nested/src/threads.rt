//! With the atomic owner count, nested values may be sent to other threads and shared between them.
use crate::value::Value;
use ecow_shared::{may_be_sent, may_be_shared};

fn values() {
    may_be_sent::<Value>();
    may_be_shared::<Value>();
}
