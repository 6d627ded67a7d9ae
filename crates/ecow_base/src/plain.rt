// rust: no file: what contracts and the stores speak of
//! Bytes and texts as contracts see them: their contents, and whether these are inline, which is
//! to say in the value itself.
use crate::items::{Items, Text};

/// Bytes, and whether they are inline.
#[derive(Drop)]
pub struct PlainBytes {
    /// The bytes, in order.
    pub bytes: Items<u8>,
    /// Whether the bytes are inline.
    pub inline: bool,
}

/// Characters, and whether their UTF-8 bytes are inline.
#[derive(Drop)]
pub struct PlainText {
    /// The characters, in order.
    pub chars: Text,
    /// Whether the text's bytes are inline.
    pub inline: bool,
}
