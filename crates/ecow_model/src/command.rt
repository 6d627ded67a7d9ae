//! The commands on named values, their outcomes and their refusals.
use crate::bytes::BytesCommand;
use crate::texts::TextCommand;
use crate::vecs::VecCommand;
use ecow_base::{Items, Text};
use std::ops::Bound;

/// The name of a value.
pub type Name = u32;

/// Where a range starts, and where it ends.
pub type Bounds = (Bound<usize>, Bound<usize>);

/// A command on a value of one of three kinds.
///
/// A command that makes a value makes a name too, which must not exist yet: its `to` or, if it has
/// none, its `name`. `from` names a value that stays as it is. Every other `name` is that of a
/// value that exists.
#[derive(Drop)]
pub enum Command<T> {
    Vec(VecCommand<T>),
    Bytes(BytesCommand),
    Text(TextCommand),
}

/// What a command answers.
#[derive(Drop)]
pub enum Outcome<T> {
    /// The command is done.
    Done,
    /// The element that was taken or read.
    Element(T),
    /// The last element, if there was one.
    Popped(Option<T>),
    /// The elements that were taken or read, in order.
    Elements(Items<T>),
    /// The byte that was taken or read.
    Byte(u8),
    /// The last byte, if there was one.
    PoppedByte(Option<u8>),
    /// The bytes that were read, in order.
    Bytes(Items<u8>),
    /// The character that was taken.
    Char(char),
    /// The last character, if there was one.
    PoppedChar(Option<char>),
    /// The text that was read.
    Text(Text),
    /// A length or a capacity.
    Count(usize),
    /// Whether what was asked holds.
    Flag(bool),
    /// The command was refused, and changed nothing.
    Refused(Refusal),
}

/// Why a command was refused: the first of these that applies. A refused command changes nothing.
#[derive(Clone, Copy, Debug, PartialEq, Eq)]
pub enum Refusal {
    /// The name that the command uses does not exist.
    NoName,
    /// The name that the command makes exists already.
    Taken,
    /// The value is of another kind.
    Kind,
    /// The index is past the end, or at the end where an element is asked for.
    Index,
    /// The bounds are no range of the list.
    Range,
    /// No character begins at the byte index.
    Boundary,
    /// There are not as many marks as elements.
    Marks,
    /// The bytes are not UTF-8.
    NotUtf8,
    /// The requested capacity or the new length passes 2^63 - 1.
    Capacity,
    /// There was no memory, or the clone of an element was refused.
    Memory,
}
