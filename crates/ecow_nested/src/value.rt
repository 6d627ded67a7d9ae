//! `Value`, and what it tells of itself.
ghost use Rattle.std.specs.Prelude.{◌≡◌, ◌<◌, ◌≤◌, MatchOption, MatchResult, None, Some};
ghost use Rattle.ecow_nested.specs.Values.{depth_of, kind_of, truth_of, number_of, real_of, text_of, items_of, fields_of, slot_depth};

mod equality;
mod fields;
mod lists;
mod make;
mod parts;
mod paths;

use crate::fields::{Entry, Fields};
use crate::nested::{MAX_DEPTH, Nested, Part};
use crate::refusal::Refusal;
use ecow_list::EcoVec;
use ecow_string::EcoString;
pub use paths::Step;
use std::alloc::AllocError;

/// A nested value. Its clones share all its lists and texts, and take no memory.
///
/// ```
/// let mut list = Value::new_list(alloc);
/// list.push(Value::Number(1))?;
/// let before = list.clone()?;
/// list.push(Value::Truth(true))?;
/// assert_eq!((before.len(), list.len()), (Some(1), Some(2)));
/// ```
#[derive(Drop)]
pub enum Value {
    Nothing,
    Truth(bool),
    Number(i64),
    Real(f64),
    Text(EcoString),
    List(Nested<EcoVec<Value>>),
    Fields(Nested<Fields<Value>>),
}

/// The kind of a value.
#[derive(Clone, Copy, Debug, PartialEq, Eq)]
pub enum Kind {
    Nothing,
    Truth,
    Number,
    Real,
    Text,
    List,
    Fields,
}

impl Clone for Value {
    ghost is_clone = { λ value copy. copy ≡ value };

    fn clone(&self) -> Result<Self, AllocError> {
        match self {
            Value::Nothing => Ok(Value::Nothing),
            Value::Truth(truth) => Ok(Value::Truth(*truth)),
            Value::Number(number) => Ok(Value::Number(*number)),
            Value::Real(real) => Ok(Value::Real(*real)),
            Value::Text(text) => Ok(Value::Text(text.clone()?)),
            Value::List(items) => Ok(Value::List(items.clone()?)),
            Value::Fields(fields) => Ok(Value::Fields(fields.clone()?)),
        }
    }
}

impl Part for Value {
    ghost depth_in = { depth_of };

    fn depth_in(&self) -> u32 {
        self.depth()
    }
}

impl Part for Entry<Value> {
    ghost depth_in = { λ entry. slot_depth entry.field };

    fn depth_in(&self) -> u32 {
        match &self.field {
            Some(field) => field.value.depth(),
            None => 0,
        }
    }
}

impl Value {
    /// The depth of the value: 0 if it is no container, else one more than that of its deepest
    /// part. It is at most `MAX_DEPTH`. Takes constant time.
    pub fn depth(&self) -> u32
        ensures { result ≡ depth_of self.now }
    {
        match self {
            Value::List(nested) => nested.depth,
            Value::Fields(nested) => nested.depth,
            _ => 0,
        }
    }

    /// The depth of the value, or `Depth` if it is `MAX_DEPTH`, so that no container can hold it.
    pub(super) fn depth_as_part(&self) -> Result<u32, Refusal>
        ensures { MatchResult result
            (λ depth. (depth ≡ depth_of self.now) × (depth < MAX_DEPTH))
            (λ refusal. (refusal ≡ Refusal.Depth) × (MAX_DEPTH ≤ depth_of self.now)) }
    {
        let depth = self.depth();
        if depth >= MAX_DEPTH {
            return Err(Refusal::Depth);
        }
        Ok(depth)
    }

    /// The kind of the value.
    pub fn kind(&self) -> Kind
        ensures { result ≡ kind_of self.now }
    {
        match self {
            Value::Nothing => Kind::Nothing,
            Value::Truth(_) => Kind::Truth,
            Value::Number(_) => Kind::Number,
            Value::Real(_) => Kind::Real,
            Value::Text(_) => Kind::Text,
            Value::List(_) => Kind::List,
            Value::Fields(_) => Kind::Fields,
        }
    }

    /// The truth value; `None` if the value is of another kind.
    pub fn truth(&self) -> Option<bool>
        ensures { result ≡ truth_of self.now }
    {
        match self {
            Value::Truth(truth) => Some(*truth),
            _ => None,
        }
    }

    /// The number; `None` if the value is of another kind.
    pub fn number(&self) -> Option<i64>
        ensures { result ≡ number_of self.now }
    {
        match self {
            Value::Number(number) => Some(*number),
            _ => None,
        }
    }

    /// The floating-point number; `None` if the value is of another kind.
    pub fn real(&self) -> Option<f64>
        ensures { result ≡ real_of self.now }
    {
        match self {
            Value::Real(real) => Some(*real),
            _ => None,
        }
    }

    /// The text; `None` if the value is of another kind.
    pub fn text(&self) -> Option<&EcoString>
        ensures { MatchOption result (text_of self.now ≡ None)
            (λ text. text_of self.now ≡ Some text.now) }
    {
        match self {
            Value::Text(text) => Some(text),
            _ => None,
        }
    }

    /// The items of a list; `None` if the value is of another kind.
    pub fn items(&self) -> Option<&EcoVec<Value>>
        ensures { MatchOption result (items_of self.now ≡ None)
            (λ items. items_of self.now ≡ Some items.now) }
    {
        match self {
            Value::List(Nested { items, .. }) => Some(items),
            _ => None,
        }
    }

    /// The fields; `None` if the value is of another kind.
    pub fn fields(&self) -> Option<&Fields<Value>>
        ensures { MatchOption result (fields_of self.now ≡ None)
            (λ fields. fields_of self.now ≡ Some fields.now) }
    {
        match self {
            Value::Fields(Nested { items, .. }) => Some(items),
            _ => None,
        }
    }
}
