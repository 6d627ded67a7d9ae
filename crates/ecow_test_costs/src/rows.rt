//! The rows of the tables of costs, and where the elements of values are.
use crate::marks::Meter;
use ecow_list::EcoError;
use ecow_test_calls::calls::{Role, Row};
use ecow_test_calls::sequence::Sequence;
use ecow_test_calls::states::State;
use std::alloc::{AllocError, Global};

/// Where the elements of a value are.
#[derive(Clone, Copy, PartialEq)]
pub(crate) enum Form {
    /// There is no such value.
    Absent,
    /// In the value itself.
    Inline,
    /// In a block that no other value shares. A value without a block counts as such.
    Sole,
    /// In a block that another value shares.
    Shared,
}

impl Form {
    /// How a table writes it, if it was `before` ahead of the call.
    fn now(self, before: Form) -> &'static str {
        if self == before {
            return "same";
        }
        match self {
            Form::Absent => "–",
            Form::Inline => "inline",
            Form::Sole => "sole",
            Form::Shared => "shared",
        }
    }
}

/// Where the elements of a value, and of its clone or of the value that it was made from, are; and
/// the capacity of the value.
#[derive(Clone, Copy)]
pub(crate) struct Standing {
    pub(crate) form: Form,
    pub(crate) twin: Form,
    pub(crate) capacity: usize,
}

impl Standing {
    pub(crate) fn of(form: Form, twin: Form, capacity: usize) -> Self {
        Standing {
            form,
            twin,
            capacity,
        }
    }

    /// There is no value.
    pub(crate) fn none() -> Self {
        Standing::of(Form::Absent, Form::Absent, 0)
    }
}

/// The inline limit of `EcoBytes` and `EcoString`. The tables don't write it behind a state.
pub(crate) const USUAL: usize = 15;

/// A call, the state before it, and what it cost. Clones and drops are counted for `Counting` only.
/// `limit` is the inline limit of bytes and texts, and 15 for vectors.
#[derive(Clone, Copy)]
pub(crate) struct Cost {
    pub(crate) role: Role,
    pub(crate) limit: usize,
    /// What a table writes before the call's name.
    pub(crate) owner: &'static str,
    pub(crate) name: &'static str,
    /// How many times the call is made.
    pub(crate) times: usize,
    pub(crate) state: &'static str,
    pub(crate) counts: Option<(u64, u64)>,
    pub(crate) before: Standing,
    pub(crate) after: Standing,
}

impl Cost {
    /// The row of a call in a state, as if the call had changed nothing. The caller puts in what is
    /// measured.
    pub(crate) fn of<V: Sequence>(row: &Row, state: &State, before: Standing) -> Self {
        Cost {
            role: row.role(),
            limit: V::limit().unwrap_or(USUAL),
            owner: V::owner(row),
            name: row.name,
            times: row.times,
            state: state.name,
            counts: None,
            before,
            after: before,
        }
    }

    /// The row of a call that made a value.
    pub(crate) fn of_making(name: &'static str, form: Form, capacity: usize) -> Self {
        Cost {
            role: Role::Make,
            limit: USUAL,
            owner: "",
            name,
            times: 1,
            state: "",
            counts: None,
            before: Standing::none(),
            after: Standing::of(form, Form::Absent, capacity),
        }
    }

    fn call(&self, alloc: Global) -> Result<String, AllocError> {
        if self.times == 1 {
            return format!(in alloc; "{}{}", self.owner, self.name);
        }
        format!(in alloc; "{}{}, {} times", self.owner, self.name, self.times)
    }

    /// Whether the elements are where they were, with the same capacity.
    fn keeps_capacity(&self) -> bool {
        let keeps = self.after.form == self.before.form || self.after.form == Form::Shared;
        keeps && self.after.capacity == self.before.capacity
    }

    /// How a table writes the state before the call; a call that makes a value has none.
    fn state(&self, alloc: Global) -> Result<String, AllocError> {
        match (self.role, self.limit) {
            (Role::Make, USUAL) => format!(in alloc; "–"),
            (_, USUAL) => format!(in alloc; "{}", self.state),
            (Role::Make, limit) => format!(in alloc; "limit: {limit}"),
            (_, limit) => format!(in alloc; "{}: {limit}", self.state),
        }
    }

    fn capacity(&self, alloc: Global) -> Result<String, AllocError> {
        match self.after.form {
            Form::Absent => format!(in alloc; "–"),
            _ if self.keeps_capacity() => format!(in alloc; "same"),
            Form::Inline if self.after.capacity == self.limit => format!(in alloc; "limit"),
            _ => format!(in alloc; "{}", self.after.capacity),
        }
    }

    fn counted(&self, alloc: Global) -> Result<String, AllocError> {
        match self.counts {
            Some((clones, drops)) => format!(in alloc; " {clones} | {drops} |"),
            None => Ok(String::new(alloc)),
        }
    }

    fn line(&self, alloc: Global, element: &str) -> Result<String, AllocError> {
        let (capacity, counted) = (self.capacity(alloc)?, self.counted(alloc)?);
        let (call, state) = (self.call(alloc)?, self.state(alloc)?);
        let twin = match self.role {
            Role::Make => "–",
            _ => self.after.twin.now(self.before.twin),
        };
        let form = match self.after.form {
            Form::Absent => "–",
            form => form.now(self.before.form),
        };
        format!(in alloc;
            "| `{call}` | {state}{element} |{counted} {form} | {twin} | {capacity} |\n"
        )
    }
}

/// The rows so far.
#[derive(Drop)]
pub(crate) struct Rows {
    pub(crate) text: String,
    /// Which elements the next rows are for. The tables write it behind the state.
    pub(crate) element: &'static str,
    pub(crate) meter: Meter,
}

impl Rows {
    pub(crate) fn new(meter: Meter) -> Self {
        Rows {
            text: String::new(meter.alloc),
            element: "",
            meter,
        }
    }

    /// Adds the row of a call. If the call was refused, the row says so.
    pub(crate) fn add(&mut self, cost: Result<Cost, EcoError>) {
        let _done = match cost {
            Ok(cost) => self.add_line(cost),
            Err(_) => self.text.push_str("out of memory\n"),
        };
    }

    fn add_line(&mut self, cost: Cost) -> Result<(), AllocError> {
        let line = cost.line(self.meter.alloc, self.element)?;
        self.text.push_str(line.as_str())
    }
}
