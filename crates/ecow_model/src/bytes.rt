//! The commands on bytes, and their parts.
ghost use Rattle.std.specs.Prelude.{◌≡◌, length};
ghost use Rattle.ecow_model.specs.Bytes.{edit_bytes, bytes_usage};
ghost use Rattle.ecow_model.specs.Refusing.{verdict};
ghost use Rattle.ecow_base.specs.declared.plain.PlainBytes.{PlainBytes};

use crate::command::{Name, Refusal};
use crate::usage::{Usage, allowed, in_bounds, usage_of};
use ecow_base::Items;

/// A command on bytes, inline or spilled. Counts and indexes are of bytes.
#[derive(Drop)]
pub enum BytesCommand {
    /// No bytes, inline.
    New {
        name: Name,
    },
    /// Inline bytes. Answers `Flag`: false, and nothing is made, if they are past the inline limit.
    TryInline {
        name: Name,
        bytes: Items<u8>,
    },
    /// No bytes. Asks for capacity for `capacity` bytes.
    WithCapacity {
        name: Name,
        capacity: usize,
    },
    /// A copy of `bytes`.
    FromList {
        name: Name,
        bytes: Items<u8>,
    },
    /// The bytes of a vector: spilled, however few.
    FromEcoVec {
        name: Name,
        bytes: Items<u8>,
    },
    /// Under `to`, the UTF-8 bytes of the text `from`, inline exactly if the text is.
    FromText {
        from: Name,
        to: Name,
    },
    /// Under `to`, the bytes of `from`, inline exactly if those are.
    Clone {
        from: Name,
        to: Name,
    },
    /// Drops the bytes. The name no longer exists.
    Drop {
        name: Name,
    },
    /// Appends `byte`.
    Push {
        name: Name,
        byte: u8,
    },
    /// Takes the last byte. Answers `PoppedByte`.
    Pop {
        name: Name,
    },
    /// Inserts `byte` at `index`, which is at most the length.
    Insert {
        name: Name,
        index: usize,
        byte: u8,
    },
    /// Takes the byte at `index`. Answers `Byte`.
    Remove {
        name: Name,
        index: usize,
    },
    /// Appends `bytes`.
    Extend {
        name: Name,
        bytes: Items<u8>,
    },
    /// Inserts `bytes` at `index`, which is at most the length.
    InsertSlice {
        name: Name,
        index: usize,
        bytes: Items<u8>,
    },
    /// Keeps the first `target` bytes, or all if there are fewer.
    Truncate {
        name: Name,
        target: usize,
    },
    /// Keeps no byte.
    Clear {
        name: Name,
    },
    /// Asks for capacity for `additional` more bytes.
    Reserve {
        name: Name,
        additional: usize,
    },
    /// Replaces the byte at `index` with `byte`.
    Write {
        name: Name,
        index: usize,
        byte: u8,
    },
    /// Answers the byte at `index`: `Byte`.
    Read {
        name: Name,
        index: usize,
    },
    /// Under `to`, the bytes of `from`, `n` times over.
    Repeat {
        from: Name,
        to: Name,
        n: usize,
    },
    /// Brings spilled bytes back inline if they are within the limit.
    ShrinkToFit {
        name: Name,
    },
    /// Answers the number of bytes: `Count`.
    Len {
        name: Name,
    },
    /// Answers the capacity: `Count`.
    Capacity {
        name: Name,
    },
    /// Answers the bytes: `Bytes`.
    Contents {
        name: Name,
    },
    /// Answers whether the bytes are inline: `Flag`.
    IsInline {
        name: Name,
    },
}

/// How bytes are made.
#[derive(Drop)]
pub enum BytesMake {
    New,
    TryInline(Items<u8>),
    WithCapacity(usize),
    FromList(Items<u8>),
    FromEcoVec(Items<u8>),
}

/// How bytes are made from another value.
#[derive(Clone, Copy)]
pub enum BytesDerive {
    FromText,
    Clone,
    Repeat(usize),
}

/// A change of bytes.
#[derive(Drop)]
pub enum BytesEdit {
    Push(u8),
    Pop,
    Insert(usize, u8),
    Remove(usize),
    Extend(Items<u8>),
    InsertSlice(usize, Items<u8>),
    Truncate(usize),
    Clear,
    Reserve(usize),
    Write(usize, u8),
    ShrinkToFit,
}

/// A question about bytes.
#[derive(Clone, Copy)]
pub enum BytesAsk {
    Read(usize),
    Len,
    Capacity,
    Contents,
    IsInline,
}

/// A command on bytes, by its parts.
pub type BytesUsage = Usage<BytesMake, BytesDerive, BytesEdit, BytesAsk>;

impl BytesCommand {
    /// The parts of the command.
    pub fn usage(self) -> BytesUsage
        ensures { result ≡ bytes_usage self }
    {
        usage_of!(self, BytesCommand {
            BytesMake {
                New TryInline(bytes) WithCapacity(capacity) FromList(bytes) FromEcoVec(bytes)
            }
            BytesDerive { FromText Clone Repeat(n) }
            BytesEdit {
                Push(byte) Pop Insert(index, byte) Remove(index) Extend(bytes)
                InsertSlice(index, bytes) Truncate(target) Clear Reserve(additional)
                Write(index, byte) ShrinkToFit
            }
            BytesAsk { Read(index) Len Capacity Contents IsInline }
        })
    }
}

impl BytesEdit {
    /// Checks whether the edit may be made in `len` bytes. If not, it answers the first refusal
    /// that applies, other than `Memory`.
    ///
    /// Up to `N` bytes are inline. `T` is the type of the elements of the store's lists.
    pub fn check<T, const N: usize>(&self, len: usize) -> Result<(), Refusal>
        ensures { (b : PlainBytes) → length b.bytes ≡ len
            → result ≡ verdict (edit_bytes {T = T} N self.now b) }
    {
        match self {
            BytesEdit::Push(_) => allowed(len, 1),
            BytesEdit::Insert(index, _) => {
                if *index > len {
                    return Err(Refusal::Index);
                }
                allowed(len, 1)
            }
            BytesEdit::InsertSlice(index, bytes) => {
                if *index > len {
                    return Err(Refusal::Index);
                }
                allowed(len, bytes.len())
            }
            BytesEdit::Remove(index) => in_bounds(*index, len),
            BytesEdit::Write(index, _) => in_bounds(*index, len),
            BytesEdit::Extend(bytes) => allowed(len, bytes.len()),
            BytesEdit::Reserve(additional) => allowed(len, *additional),
            BytesEdit::Pop => Ok(()),
            BytesEdit::Truncate(_) => Ok(()),
            BytesEdit::Clear => Ok(()),
            BytesEdit::ShrinkToFit => Ok(()),
        }
    }
}
