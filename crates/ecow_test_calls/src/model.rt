//! A model of each call, written by hand from the rules in `docs/COSTS.md` and of the values: which
//! items the value has afterwards, what the call returns, whether the value is inline, its
//! capacity, and who shares its block.
use crate::calls::{Call, Role, Row};
use crate::states::State;

/// A change: `count` items replace those from `start` up to `end`.
#[derive(Clone, Copy)]
pub struct Edit {
    pub start: usize,
    pub end: usize,
    pub count: usize,
}

/// Where an item of a value comes from after a call.
#[derive(Clone, Copy)]
pub enum Origin {
    /// From this index of the value before the call.
    Before(usize),
    /// From this index of the items that the call got.
    Given(usize),
    Byte(u8),
}

/// A call in a state.
#[derive(Clone, Copy)]
pub struct Case {
    pub row: Row,
    pub state: State,
    /// The inline limit; `None` for vectors.
    pub limit: Option<usize>,
    /// Whether the items are a text's bytes.
    pub is_text: bool,
    /// Whether clones of items can't be refused.
    pub is_plain: bool,
}

/// The capacity of a new block for `len` items.
fn fresh(len: usize) -> usize {
    if len == 0 { 0 } else { len.max(4) }
}

/// The capacity of a block that had `capacity` and needs `needed`: the same, or that of a larger block.
fn grown_capacity(needed: usize, capacity: usize) -> usize {
    if needed <= capacity {
        capacity
    } else {
        needed.max(capacity.saturating_mul(2)).max(4)
    }
}

/// How many requests for memory take a block from one capacity to another; one of 0 is no block.
fn requests(before: usize, after: usize) -> usize {
    match after {
        _ if after <= before => 0,
        1025.. if before <= 1024 => 2,
        _ => 1,
    }
}

/// The capacity of the block that `needed` bytes spill to from an inline value of `len` bytes.
fn spilled(needed: usize, len: usize) -> usize {
    let least = needed.max(len.saturating_mul(2)).max(4);
    least.checked_next_power_of_two().unwrap_or(least)
}

impl Row {
    /// What the call changes in a value of `len` items.
    pub fn edit(&self, len: usize) -> Edit {
        let (start, end) = (self.start_in(len), self.end_in(len));
        let (start, end, count) = match self.call {
            Call::ExtendHalves => (len, len, self.count / 2 * 2),
            Call::ExtendManyStrs(times) => (len, len, self.count.saturating_mul(times)),
            Call::ExtendFromWithin => (len, len, end.saturating_sub(start)),
            Call::Push | Call::PushReserved => (len, len, self.count),
            _ if self.appends() => (len, len, self.count),
            Call::Insert | Call::InsertSlice => (start, start, self.count),
            Call::Set | Call::Update => (start, end, self.count),
            Call::Splice | Call::ReplaceRange => (start, end, self.count),
            Call::Remove | Call::Retain | Call::Drain => (start, end, 0),
            Call::Pop => (len.saturating_sub(1), len, 0),
            Call::SplitOff | Call::SplitText => (start, len, 0),
            Call::Truncate | Call::Rewrite => (self.count.min(len), len, 0),
            Call::Resize => (self.count.min(len), len, self.count.saturating_sub(len)),
            Call::Fill => (0, len, len),
            Call::Clear => (0, len, 0),
            _ if self.gives_away() => (0, len, 0),
            _ => (len, len, 0),
        };
        Edit { start, end, count }
    }

    /// Whether the call adds items behind those of the value, which may be none.
    fn appends(&self) -> bool {
        match self.call {
            Call::ExtendFromSlice | Call::Extend | Call::ExtendStrs | Call::ExtendHalves => true,
            Call::ExtendManyStrs(_) | Call::ExtendFromCopied | Call::ExtendFromWithin => true,
            call => matches!(call, Call::Append | Call::Write | Call::Add),
        }
    }

    /// Whether the call returns the items that it removes.
    pub fn hands_out(&self) -> bool {
        match self.call {
            Call::Update | Call::Pop | Call::Remove | Call::Drain | Call::Splice => true,
            Call::SplitOff => true,
            call => self.gives_away() && call != Call::Drop,
        }
    }

    /// Whether the call consumes the vector.
    pub fn gives_away(&self) -> bool {
        matches!(
            self.call,
            Call::IntoVec | Call::IntoIter | Call::IntoArray | Call::Drop
        )
    }

    /// Whether a shared value stays shared if the call changes nothing.
    fn is_lazy(&self) -> bool {
        match self.call {
            Call::Pop | Call::Truncate | Call::Clear | Call::Read | Call::Compare => true,
            Call::IntoBytes | Call::IntoOtherArray | Call::SplitOff | Call::SplitText => true,
            Call::Fill | Call::Resize => true,
            _ => self.appends(),
        }
    }

    /// Whether the copy of a shared block has at least the block's capacity.
    fn keeps_capacity(&self) -> bool {
        match self.call {
            Call::Push | Call::PushReserved | Call::Insert | Call::InsertSlice => true,
            Call::Reserve | Call::ReplaceRange | Call::OwnWithRoom => true,
            _ => self.appends(),
        }
    }

    /// How many items each piece has, if the call adds items piece by piece.
    pub fn piece(&self) -> Option<usize> {
        match self.call {
            Call::Extend => Some(1),
            Call::ExtendHalves => Some(self.count / 2),
            Call::ExtendManyStrs(_) => Some(self.count),
            _ => None,
        }
    }

    /// How many items the iterator has that the call gets, if it gets one.
    pub fn items(&self) -> Option<usize> {
        match self.call {
            Call::Extend | Call::Splice | Call::FromIter | Call::Collect => Some(self.count),
            Call::ExtendStrs | Call::FromStrs => Some(1),
            Call::ExtendHalves => Some(3),
            Call::ExtendManyStrs(times) | Call::FromManyStrs(times) => Some(times),
            Call::FromEcoStrings => Some(2),
            _ => None,
        }
    }

    /// The length of the value that the call makes, from a value of `len` items if it needs one.
    pub fn made_len(&self, len: usize) -> usize {
        match self.call {
            Call::New | Call::WithCapacity => 0,
            Call::FromChar => 2,
            Call::FromManyStrs(times) => self.count.saturating_mul(times),
            Call::FromEcoStrings => self.count.saturating_add(8),
            Call::Repeat => len.saturating_mul(self.count),
            Call::Replace(pattern, by, times) => replaced_len(len, pattern, by.len(), times),
            Call::Clone | Call::ToAsciiLowercase | Call::ToAsciiUppercase => len,
            Call::ToLowercase | Call::ToUppercase => len,
            _ => self.count,
        }
    }

    /// Where the item at a place of the value that the call makes comes from.
    pub fn made_of(&self, len: usize, place: usize) -> Origin {
        let eight = |place: usize| b"12345678".get(place).copied().unwrap_or(0);
        match self.call {
            Call::Repeat => Origin::Before(place.checked_rem(len).unwrap_or(0)),
            Call::Replace(pattern, by, times) => replaced(place, pattern, by, times),
            Call::Clone | Call::ToAsciiLowercase | Call::ToAsciiUppercase => Origin::Before(place),
            Call::ToLowercase | Call::ToUppercase => Origin::Before(place),
            Call::FromElem => Origin::Given(0),
            Call::FromChar => Origin::Byte(if place == 0 { 195 } else { 169 }),
            Call::FromManyStrs(_) => Origin::Given(place.checked_rem(self.count).unwrap_or(0)),
            Call::FromEcoStrings if place >= self.count => Origin::Byte(eight(place - self.count)),
            _ => Origin::Given(place),
        }
    }

    /// Where the item at a place comes from after a change.
    pub fn origin(&self, len: usize, place: usize) -> Origin {
        let Edit { start, end, count } = self.edit(len);
        match self.call {
            Call::Swap if place == self.start_in(len) => {
                Origin::Before(self.end_in(len).saturating_sub(1))
            }
            Call::Swap if place.saturating_add(1) == self.end_in(len) => {
                Origin::Before(self.start_in(len))
            }
            Call::MakeMut | Call::OwnMut | Call::OwnWithRoom | Call::Rewrite | Call::SortBy => {
                Origin::Before(len.saturating_sub(1).saturating_sub(place))
            }
            Call::ExtendFromWithin if place >= len => {
                Origin::Before(self.start_in(len).saturating_add(place - len))
            }
            Call::ExtendManyStrs(_) if place >= len => {
                Origin::Given((place - len).checked_rem(self.count).unwrap_or(0))
            }
            _ if place < start => Origin::Before(place),
            Call::Fill | Call::Resize => Origin::Given(0),
            _ if place - start < count => Origin::Given(place - start),
            _ => Origin::Before((place - count).saturating_add(end.saturating_sub(start))),
        }
    }
}

/// The length of a text of an `A` and then only `b` in which a pattern was replaced.
fn replaced_len(len: usize, pattern: &str, by: usize, times: usize) -> usize {
    match (pattern, times) {
        (_, 0) => len,
        ("A", _) if len > 0 => (len - 1).saturating_add(by),
        ("b", _) if len > 0 => (len - 1).saturating_mul(by).saturating_add(1),
        ("", 1) => len.saturating_add(by),
        ("", _) => len.saturating_add(len.saturating_add(1).saturating_mul(by)),
        _ => len,
    }
}

/// Where the byte at a place of such a text comes from. One `b` is as good as another.
fn replaced(place: usize, pattern: &str, by: &str, times: usize) -> Origin {
    let new = |place: usize| Origin::Byte(by.as_bytes().get(place).copied().unwrap_or(0));
    let rest = Origin::Before(place.saturating_sub(by.len()));
    match (pattern, times) {
        (_, 0) => Origin::Before(place),
        ("A", _) if place < by.len() => new(place),
        ("A", _) => Origin::Before((place - by.len()).saturating_add(1)),
        ("b", _) if place > 0 => new((place - 1).checked_rem(by.len()).unwrap_or(0)),
        ("", 1) if place < by.len() => new(place),
        ("", 1) => rest,
        // The replacement has one byte here. It comes before each letter and after the last.
        ("", _) if place % 2 == 0 => new(0),
        ("", _) => Origin::Before(place / 2),
        _ => Origin::Before(place),
    }
}

impl Case {
    pub fn edit(&self) -> Edit {
        self.row.edit(self.state.len)
    }

    /// Whether the value has the items that the call needs.
    pub fn fits(&self) -> bool {
        self.row.needs <= self.state.len
    }

    pub fn len_after(&self) -> usize {
        let Edit { start, end, count } = self.edit();
        let kept = self.state.len.saturating_sub(end.saturating_sub(start));
        kept.saturating_add(count)
    }

    /// The least capacity that the value has after the call.
    fn needed(&self) -> usize {
        match self.row.call {
            Call::Reserve => self.state.len.saturating_add(self.row.count),
            // A vector has a block then, even an empty one.
            Call::OwnWithRoom => self.state.len.saturating_add(self.row.count).max(1),
            _ => self.len_after(),
        }
    }

    pub fn fits_inline(&self, len: usize) -> bool {
        self.limit.is_some_and(|limit| len <= limit)
    }

    pub fn is_inline_after(&self) -> bool {
        let is_inline = self.state.capacity.is_none();
        match self.row.call {
            Call::IntoEcoVec => false,
            Call::ShrinkToFit => is_inline || self.fits_inline(self.state.len),
            _ => is_inline && self.fits_inline(self.needed()),
        }
    }

    /// Whether the call takes a shared value out of the block that it shared.
    pub fn leaves(&self) -> bool {
        let Edit { start, end, count } = self.edit();
        self.state.shared
            && match self.row.call {
                Call::ShrinkToFit => self.is_inline_after(),
                Call::IntoEcoVec => false,
                // The other vector gets the block.
                Call::SplitOff if start == 0 => false,
                _ => !self.row.is_lazy() || start < end || count > 0,
            }
    }

    /// Whether another vector gets the block with all items.
    fn is_split_whole(&self) -> bool {
        self.row.call == Call::SplitOff && self.row.start == 0 && self.state.len > 0
    }

    /// How many items the call copies out of a shared block.
    fn copied(&self) -> usize {
        match self.row.call {
            _ if !self.leaves() => 0,
            Call::Clear | Call::Fill | Call::Drop | Call::ShrinkToFit => 0,
            Call::Truncate | Call::SplitText => self.len_after(),
            Call::Resize => self.len_after().min(self.state.len),
            Call::Pop if self.is_text => self.len_after(),
            _ => self.state.len,
        }
    }

    /// How many elements the call clones.
    pub fn clones(&self) -> usize {
        match (self.row.role(), self.row.call) {
            (Role::Derive, _) => 0,
            (_, Call::FromSlice | Call::FromElem) => self.row.count,
            (Role::Make, _) => 0,
            (_, Call::ExtendFromSlice) => self.copied().saturating_add(self.row.count),
            (_, Call::Fill | Call::Resize) => self.copied().saturating_add(self.edit().count),
            _ => self.copied(),
        }
    }

    /// The capacity after `times` pieces were added to `len` items, and how many requests that
    /// took. `capacity` is the capacity before; `None` says that the value is inline.
    fn grown(
        &self,
        len: usize,
        capacity: Option<usize>,
        piece: usize,
        times: usize,
    ) -> (usize, usize) {
        let (mut len, mut capacity, mut asked) = (len, capacity, 0usize);
        for _ in 0..times {
            let needed = len.saturating_add(piece);
            let (before, after) = match capacity {
                Some(capacity) => (capacity, Some(grown_capacity(needed, capacity))),
                None if self.fits_inline(needed) => (0, None),
                None => (0, Some(spilled(needed, len))),
            };
            asked = asked.saturating_add(requests(before, after.unwrap_or(0)));
            (len, capacity) = (needed, after);
        }
        (capacity.or(self.limit).unwrap_or(0), asked)
    }

    /// The capacity after `count` items were added piece by piece.
    pub fn capacity_by_pieces(&self, count: usize) -> usize {
        let piece = self.row.piece().unwrap_or(count).max(1);
        self.grown(self.state.len, self.state.capacity, piece, count / piece)
            .0
    }

    /// The capacity after the call.
    pub fn capacity_after(&self) -> usize {
        let len = self.state.len;
        let (needed, limit) = (self.needed(), self.limit.unwrap_or(0));
        if self.row.piece().is_some() {
            return self.capacity_by_pieces(self.edit().count);
        }
        match (self.row.call, self.state.capacity) {
            _ if self.is_inline_after() => limit,
            (_, Some(_)) if self.row.gives_away() || self.is_split_whole() => 0,
            (Call::Fill, Some(_)) if len > 0 => len,
            (Call::IntoEcoVec, None) => fresh(len),
            (_, None) => spilled(needed, len),
            (_, Some(capacity)) if !self.state.shared => grown_capacity(needed, capacity),
            (_, Some(capacity)) if !self.leaves() => capacity,
            (Call::Splice, _) => grown_capacity(needed, fresh(len)),
            (_, Some(capacity)) if self.row.keeps_capacity() => grown_capacity(needed, capacity),
            (Call::Resize, Some(capacity)) if needed > len => grown_capacity(needed, capacity),
            (Call::SplitOff, _) => fresh(self.len_after()),
            _ => fresh(self.copied()),
        }
    }

    /// Whether the call needs another block for the items that it adds or removes.
    fn asks_beside(&self) -> bool {
        let Edit { start, end, count } = self.edit();
        match self.row.call {
            Call::Drain => start < end,
            Call::SplitOff => 0 < start && start < end,
            Call::SplitText => !self.fits_inline(end.saturating_sub(start)),
            Call::Splice => start < end || count > 0,
            Call::IntoVec | Call::IntoArray => self.state.len > 0,
            Call::IntoEcoVec => self.state.capacity.is_none() && self.state.len > 0,
            // The vector whose elements are appended is made by the call here.
            Call::Append => count > 0,
            Call::Fill | Call::Resize => count > 0,
            Call::ExtendFromSlice => !self.is_plain && count > 0,
            _ => false,
        }
    }

    /// Whether the call can't be refused for memory.
    pub fn is_free(&self) -> bool {
        match self.state.capacity {
            _ if self.asks_beside() => false,
            None => self.is_inline_after() || self.row.call == Call::IntoEcoVec,
            Some(_) if self.row.call == Call::IntoIter => self.copied() == 0,
            Some(_) if !self.state.shared && self.row.gives_away() => true,
            Some(capacity) if !self.leaves() => self.capacity_after() == capacity
                || self.is_inline_after(),
            Some(_) => self.copied() == 0 && (self.capacity_after() == 0 || self.is_inline_after()),
        }
    }

    /// The length of the value that the call makes.
    pub fn made_len(&self) -> usize {
        self.row.made_len(self.state.len)
    }

    /// Whether the value that the call makes is inline.
    pub fn is_made_inline(&self) -> bool {
        match self.row.call {
            Call::Clone | Call::ToAsciiLowercase | Call::ToAsciiUppercase => {
                self.state.capacity.is_none()
            }
            Call::FromEcoVec => false,
            Call::WithCapacity => self.fits_inline(self.row.count),
            _ => self.fits_inline(self.made_len()),
        }
    }

    /// The capacity of the value that the call makes, and how many requests that takes. A `Vec` or
    /// a `String` takes requests too, and has no capacity here.
    pub fn made_capacity(&self) -> (usize, usize) {
        let (len, limit, count) = (self.made_len(), self.limit.unwrap_or(0), self.row.count);
        let none = if self.limit.is_some() { None } else { Some(0) };
        let capacity = match self.row.call {
            Call::Clone => return (self.state.capacity.unwrap_or(limit), 0),
            Call::FromEcoVec => return (fresh(len), 0),
            Call::ToStd => return (0, self.state.len.min(1)),
            _ if self.is_made_inline() => return (limit, 0),
            Call::FromIter | Call::Collect => return self.grown(0, none, 1, len),
            Call::FromManyStrs(times) => return self.grown(0, none, count, times),
            Call::FromEcoStrings if count > limit => {
                let first = spilled(count, 0);
                let (capacity, asked) = self.grown(count, Some(first), 8, 1);
                return (capacity, asked.saturating_add(requests(0, first)));
            }
            Call::FromEcoStrings => spilled(len, count),
            Call::FromStrs | Call::Format => spilled(len, 0),
            Call::WithCapacity | Call::FromElem => count,
            Call::Repeat | Call::Replace(_, _, _) => len,
            _ => fresh(len),
        };
        (capacity, requests(0, capacity))
    }

    /// Whether the call, which makes a value, can't be refused for memory.
    pub fn is_made_free(&self) -> bool {
        match self.row.call {
            Call::Clone | Call::FromEcoVec => true,
            // Both make a value of std's first.
            Call::FromArray if self.limit.is_none() => false,
            Call::ToLowercase | Call::ToUppercase if self.state.is_varied => false,
            Call::ToStd => self.state.len == 0,
            Call::WithCapacity => self.is_made_inline() || self.row.count == 0,
            _ => self.is_made_inline() || self.made_len() == 0,
        }
    }
}
