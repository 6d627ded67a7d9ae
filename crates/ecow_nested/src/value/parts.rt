//! The parts of a value: the items of a list, and the values of fields, by index.
ghost use Rattle.std.specs.Prelude.{◌≡◌, ◌≤◌, ◌<◌, ◌↔◌, [], ◌∷◌, None, Some, length, slice_get, IfOk, IfSome, IsErrOf, IsSomeAnd, MatchOption};
ghost use Rattle.ecow_nested.specs.Values.{len_of, part_of, fields_of, value_in, name_in, IsErrAmong};

use crate::refusal::Refusal;
use crate::value::Value;
use ecow_string::EcoString;

impl Value {
    /// The number of items of a list, or of fields; `None` if the value is no container.
    pub fn len(&self) -> Option<usize>
        ensures { result ≡ len_of self.now }
    {
        match self {
            Value::List(nested) => Some(nested.items.len()),
            Value::Fields(nested) => Some(nested.items.len()),
            _ => None,
        }
    }

    /// The item of a list, or the value of the field, at `index`.
    ///
    /// # Errors
    ///
    /// `Kind` if the value is no container; `Index` if it has no such part.
    pub fn part(&self, index: usize) -> Result<&Value, Refusal>
        ensures ok { IfOk result (λ part. part_of self.now index ≡ Some part.now) }
        ensures kind { IsErrOf result Refusal.Kind ↔ (len_of self.now ≡ None) }
        ensures index { IsErrOf result Refusal.Index
            ↔ IsSomeAnd (len_of self.now) (λ len. len ≤ index) }
        ensures codes { IsErrAmong (Refusal.Kind ∷ Refusal.Index ∷ []) result }
    {
        match self {
            Value::List(nested) => match at(nested.items.as_slice(), index) {
                Some(item) => Ok(item),
                None => Err(Refusal::Index),
            },
            Value::Fields(nested) => match nested.items.get(index) {
                Some(field) => Ok(&field.value),
                None => Err(Refusal::Index),
            },
            _ => Err(Refusal::Kind),
        }
    }

    /// The name of the field at `index`.
    ///
    /// # Errors
    ///
    /// `Kind` if the value has no fields; `Index` if there is no such field.
    pub fn name(&self, index: usize) -> Result<&EcoString, Refusal>
        ensures ok { IfOk result (λ name. IfSome (fields_of self.now)
            (λ fields. name_in (slice_get fields index) ≡ Some name.now)) }
        ensures kind { IsErrOf result Refusal.Kind ↔ (fields_of self.now ≡ None) }
        ensures index { IsErrOf result Refusal.Index
            ↔ IsSomeAnd (fields_of self.now) (λ fields. length fields ≤ index) }
        ensures codes { IsErrAmong (Refusal.Kind ∷ Refusal.Index ∷ []) result }
    {
        let Value::Fields(nested) = self else {
            return Err(Refusal::Kind);
        };
        match nested.items.get(index) {
            Some(field) => Ok(&field.name),
            None => Err(Refusal::Index),
        }
    }
}

/// The item, or the field, at `index`.
pub(super) fn at<T>(items: &[T], index: usize) -> Option<&T>
    ensures { MatchOption result (length items.now ≤ index) (λ item. (index < length items.now)
        × (slice_get items.now index ≡ Some item.now)) }
{
    items.get(index)
}
