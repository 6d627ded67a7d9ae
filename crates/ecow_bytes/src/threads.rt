//! Bytes can be sent to another thread and read by several threads if the count of owners is
//! atomic.
use crate::bytes::SmallBytes;
use ecow_shared::{may_be_sent, may_be_shared};

/// Bytes with any limit.
fn bytes<const N: usize>() {
    may_be_sent::<SmallBytes<N>>();
    may_be_shared::<SmallBytes<N>>();
}
