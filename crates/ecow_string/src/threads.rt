//! Texts can be sent to another thread and read by several threads if the count of owners is
//! atomic.
use crate::string::SmallText;
use ecow_shared::{may_be_sent, may_be_shared};

/// Texts with any limit.
fn texts<const N: usize>() {
    may_be_sent::<SmallText<N>>();
    may_be_shared::<SmallText<N>>();
}
