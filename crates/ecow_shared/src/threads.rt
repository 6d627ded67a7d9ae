//! Where the count is atomic, the crates above show by these functions that their types are `Send`
//! and `Sync`. This count is for one thread, so these functions ask for neither.

/// Takes any type. Where the count is atomic, it takes a type that is `Send`.
pub fn may_be_sent<V>() {}

/// Takes any type. Where the count is atomic, it takes a type that is `Sync`.
pub fn may_be_shared<V>() {}
