//! The calls on elements, by the kind of what holds them.

pub mod arrays;
pub mod bytes;
pub mod items;
pub mod list;
pub mod texts;
