//! Calls as data: which method is called, and with which arguments.
use crate::states::State;

/// A method of vectors, bytes or texts. The comment gives the names if these types name it
/// differently.
#[derive(Clone, Copy, PartialEq, Eq)]
pub enum Call {
    /// All methods that only read.
    Read,
    /// `==`, `cmp` and `hash`.
    Compare,
    Push,
    /// Reserves capacity for one more item and pushes it.
    PushReserved,
    Insert,
    Set,
    Update,
    Pop,
    Remove,
    Truncate,
    Clear,
    Retain,
    Fill,
    /// Makes the length `count`.
    Resize,
    /// Swaps the first and the last item of the range.
    Swap,
    /// Removes each item that equals the one before it; there is none in these tests.
    Dedup,
    /// Reverses the items, and sorts them.
    Sort,
    /// Sorts the items in falling order.
    SortBy,
    /// Cuts off the items from the start of the range on.
    SplitOff,
    /// Splits a text, and drops the part behind.
    SplitText,
    Append,
    Reserve,
    /// Borrows the items and reverses them.
    MakeMut,
    /// Borrows the block and reverses its items.
    OwnMut,
    /// Borrows the block with capacity for more items and reverses its items.
    OwnWithRoom,
    /// Borrows the items, reverses them, and keeps the first `count`.
    Rewrite,
    Drain,
    Splice,
    /// `extend_from_slice`, `push_str`.
    ExtendFromSlice,
    /// `extend`, `extend_chars`.
    Extend,
    /// One piece, which is the whole given text.
    ExtendStrs,
    /// Half of the given text, an empty piece, and the same half again.
    ExtendHalves,
    /// The whole given text, this many times.
    ExtendManyStrs(usize),
    ExtendFromCopied,
    ExtendFromWithin,
    /// `insert_slice`, `insert_str`.
    InsertSlice,
    ReplaceRange,
    /// `write`, `write_str`.
    Write,
    Add,
    ShrinkToFit,
    MakeAsciiLowercase,
    MakeAsciiUppercase,
    IntoVec,
    IntoIter,
    /// An array of 5 or of 1000 elements.
    IntoArray,
    /// An array of a length that the vector doesn't have.
    IntoOtherArray,
    /// Turns the value into a vector, and makes bytes or a text of that again.
    IntoEcoVec,
    /// Turns a text into bytes and back.
    IntoBytes,
    Drop,
    Clone,
    /// `to_vec`, `to_std_string`.
    ToStd,
    Repeat,
    /// The pattern, its replacement, and the most occurrences that are replaced.
    Replace(&'static str, &'static str, usize),
    ToAsciiLowercase,
    ToAsciiUppercase,
    ToLowercase,
    ToUppercase,
    New,
    Inline,
    TryInline,
    WithCapacity,
    FromVec,
    FromArray,
    /// `from_slice`, `from_str`.
    FromSlice,
    FromCopied,
    FromElem,
    /// `from_iter`, `from_chars`.
    FromIter,
    Collect,
    FromEcoVec,
    /// The text `é`.
    FromChar,
    FromStrs,
    /// The whole given text, this many times.
    FromManyStrs(usize),
    /// The given text, and then eight letters.
    FromEcoStrings,
    Format,
}

/// What a call does to a value.
#[derive(Clone, Copy, PartialEq, Eq)]
pub enum Role {
    /// It changes, reads or consumes the value.
    Change,
    /// It makes another value from the value.
    Derive,
    /// It makes a value and needs none.
    Make,
}

/// As an index, the end of a value, whatever its length.
pub const LAST: usize = 18446744073709551615;

/// A row of the tables of calls.
#[derive(Clone, Copy)]
pub struct Row {
    pub call: Call,
    /// How the tables of costs write the call, without what stands before its dot.
    pub name: &'static str,
    /// The range of the value that the call is about; both are 0 if there is none.
    pub start: usize,
    pub end: usize,
    /// How many items the call gets, keeps, or reserves capacity for.
    pub count: usize,
    /// The least number of items that the value must have.
    pub needs: usize,
    /// How many times in a row the call is made.
    pub times: usize,
}

impl Row {
    pub fn role(&self) -> Role {
        match self.call {
            Call::Clone | Call::ToStd | Call::Repeat | Call::Replace(_, _, _) => Role::Derive,
            Call::ToAsciiLowercase | Call::ToAsciiUppercase => Role::Derive,
            Call::ToLowercase | Call::ToUppercase => Role::Derive,
            Call::New | Call::Inline | Call::TryInline | Call::WithCapacity => Role::Make,
            Call::FromVec | Call::FromArray | Call::FromSlice | Call::FromCopied => Role::Make,
            Call::FromElem | Call::FromIter | Call::Collect | Call::FromEcoVec => Role::Make,
            Call::FromChar | Call::FromStrs | Call::FromManyStrs(_) => Role::Make,
            Call::FromEcoStrings | Call::Format => Role::Make,
            _ => Role::Change,
        }
    }

    /// The states in which the call is made. A call that needs no value is made once.
    pub fn states<'a>(&self, states: &'a [State]) -> &'a [State] {
        if self.role() == Role::Make {
            return states.get(..1).unwrap_or(states);
        }
        states
    }

    /// Where the range starts in a value of `len` items.
    pub fn start_in(&self, len: usize) -> usize {
        self.start.min(len)
    }

    /// Where the range ends in a value of `len` items.
    pub fn end_in(&self, len: usize) -> usize {
        self.end.min(len)
    }
}
