//! The states in which a value is before a call.

/// How many items a value has, where they are, and whether a clone shares its block.
#[derive(Clone, Copy)]
pub struct State {
    pub name: &'static str,
    pub len: usize,
    /// The capacity of the block; `None` if the value is inline. A vector of capacity 0 has no
    /// block.
    pub capacity: Option<usize>,
    pub shared: bool,
    /// Whether each letter differs from the next. Otherwise they are an `A` and then only `b`.
    pub is_varied: bool,
}

/// A value that shares its block with none.
fn sole(name: &'static str, len: usize, capacity: usize) -> State {
    State {
        name,
        len,
        capacity: Some(capacity),
        shared: false,
        is_varied: false,
    }
}

fn shared(name: &'static str, len: usize, capacity: usize) -> State {
    State {
        shared: true,
        ..sole(name, len, capacity)
    }
}

fn inline(name: &'static str, len: usize) -> State {
    State {
        capacity: None,
        ..sole(name, len, 0)
    }
}

impl State {
    /// This state with letters that differ.
    pub fn varied(self) -> State {
        State {
            is_varied: true,
            ..self
        }
    }
}

/// Vectors of few elements.
pub fn few_elements() -> [State; 7] {
    [
        sole("no block", 0, 0),
        sole("empty", 0, 8),
        sole("room", 5, 8),
        sole("full", 5, 5),
        shared("shared room", 5, 8),
        shared("shared full", 5, 5),
        shared("shared empty", 0, 8),
    ]
}

/// Values of a thousand items, of any type.
pub fn thousand() -> [State; 4] {
    [
        sole("room of 1000", 1000, 1600),
        sole("full of 1000", 1000, 1000),
        shared("shared room of 1000", 1000, 1600),
        shared("shared full of 1000", 1000, 1000),
    ]
}

/// As many items as fit behind a block's head; with one more they are apart from it.
pub fn brimful() -> [State; 2] {
    [
        sole("full of 1024", 1024, 1024),
        shared("shared full of 1024", 1024, 1024),
    ]
}

/// Few bytes, at the inline limit 15.
pub fn few_bytes() -> [State; 7] {
    [
        inline("inline", 5),
        inline("inline full", 15),
        sole("room", 20, 32),
        sole("full", 20, 20),
        shared("shared room", 20, 32),
        shared("shared full", 20, 20),
        shared("shared empty", 0, 32),
    ]
}

/// Inline values with no place left, and with one. At a limit of 0 the second is like the first.
pub fn edge(limit: usize) -> [State; 2] {
    [
        inline("inline full", limit),
        inline("one left", limit.saturating_sub(1)),
    ]
}

/// An empty inline value.
pub fn no_byte() -> [State; 1] {
    [inline("empty", 0)]
}

/// Spilled bytes that would fit inline, and one byte more than that.
pub fn few_spilled(limit: usize) -> [State; 3] {
    let (more, capacity) = (limit.saturating_add(1), limit.saturating_add(17));
    [
        sole("few", limit, capacity),
        shared("shared few", limit, capacity),
        sole("one too many", more, capacity),
    ]
}

/// Values around an inline limit: inline with a place left, inline and full, spilled with capacity
/// to spare, spilled and full, and shared ones.
pub fn around(limit: usize) -> [State; 7] {
    let (more, roomy) = (limit.saturating_add(5), limit.saturating_add(8));
    [
        inline("one left", limit.saturating_sub(1)),
        inline("inline full", limit),
        sole("few in room", limit, roomy),
        sole("full", more, more),
        shared("shared few in room", limit, roomy),
        shared("shared full", more, more),
        shared("shared empty", 0, roomy),
    ]
}
