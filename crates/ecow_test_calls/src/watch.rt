//! The allocator of a run, how many calls were refused for memory, and the first call that was wrong.
use crate::calls::Row;
use crate::states::State;
use std::alloc::Global;
use std::cell::Cell;

/// Counts the calls that are refused for memory. In a run at most one request is refused; in a
/// strict run none is.
#[derive(Drop)]
pub struct Watch {
    pub alloc: Global,
    strict: bool,
    refusals: Cell<u32>,
    wrong: Cell<Option<(&'static str, &'static str)>>,
}

impl Watch {
    pub fn new(alloc: Global, strict: bool) -> Self {
        Watch {
            alloc,
            strict,
            refusals: Cell::new(0),
            wrong: Cell::new(None),
        }
    }

    /// Whether no request may be refused in this run.
    pub fn is_strict(&self) -> bool {
        self.strict
    }

    /// Counts a call that was refused for memory, and tells whether it may have been.
    pub fn may_refuse(&self) -> bool {
        let refusals = self.refusals.get().saturating_add(1);
        self.refusals.set(refusals);
        !self.strict && refusals == 1
    }

    /// Whether no more calls were refused than may be.
    pub fn is_kept(&self) -> bool {
        self.refusals.get() == 0 || !self.strict && self.refusals.get() == 1
    }

    /// Whether no call was refused so far.
    pub fn is_untouched(&self) -> bool {
        self.refusals.get() == 0
    }

    /// Returns `is_right`. The first time that it is false, remembers the call and its state.
    pub fn sees(&self, is_right: bool, row: &Row, state: &State) -> bool {
        if !is_right && self.wrong.get().is_none() {
            self.wrong.set(Some((row.name, state.name)));
        }
        is_right
    }

    /// The first call that was wrong, and its state.
    pub fn wrong(&self) -> Option<(&'static str, &'static str)> {
        self.wrong.get()
    }
}
