//! Fields by name. A refused call changes nothing. If several errors apply, the call returns the
//! first of `Kind`, `Index`, `Depth` and `Memory`.
ghost use Rattle.std.specs.Prelude.{◌≡◌, ◌≢◌, ◌≤◌, ◌↔◌, [], ◌∷◌, ◌++◌, None, Some, IfOk, IfSome, OnOk, OnErr, IsErrOf, IsSomeAnd, MatchOption};
ghost use Rattle.ecow_nested.specs.Values.{depth_of, fields_of, look_up, new_field, with_field, without_field, EditsFields, Covers, IsErrAmong, RisesAtMost};

use crate::fields::Fields;
use crate::nested::{MAX_DEPTH, Nested, raise, settle};
use crate::refusal::Refusal;
use crate::value::Value;
use ecow_string::EcoString;

/// The value of the first field with this name.
pub(super) fn find<'a>(fields: &'a Fields<Value>, name: &str) -> Option<&'a Value>
    ensures { MatchOption result (look_up name.now fields.now ≡ None)
        (λ value. look_up name.now fields.now ≡ Some value.now) }
{
    match fields.position(name) {
        Some(at) => Some(&fields.field_at(at).value),
        None => None,
    }
}

/// Appends a field. A refused call changes nothing.
fn append(fields: &mut Fields<Value>, name: &str, value: Value) -> Result<(), Refusal>
    ensures ok { OnOk result (fields.new ≡ fields.old ++ new_field name.now value ∷ []) }
    ensures unchanged { OnErr result (fields.new ≡ fields.old) }
    ensures codes { IsErrAmong (Refusal.Memory ∷ []) result }
{
    let name = EcoString::from_str(fields.allocator(), name)?;
    fields.push(name, value)?;
    Ok(())
}

/// Replaces the value of the first field with this name, or appends a field if there is none. A
/// refused call changes nothing.
fn put(fields: &mut Fields<Value>, name: &str, value: Value) -> Result<(), Refusal>
    ensures ok { OnOk result (fields.new ≡ with_field name.now value fields.old) }
    ensures unchanged { OnErr result (fields.new ≡ fields.old) }
    ensures codes { IsErrAmong (Refusal.Memory ∷ []) result }
{
    match fields.position(name) {
        Some(at) => {
            fields.replace(at, value)?;
            Ok(())
        }
        None => append(fields, name, value),
    }
}

/// Removes the first field with this name and returns its value. A refused call changes nothing.
fn take(fields: &mut Fields<Value>, name: &str) -> Result<Value, Refusal>
    ensures ok { OnOk result (fields.new ≡ without_field name.now fields.old) }
    ensures value { IfOk result (λ value. look_up name.now fields.old ≡ Some value) }
    ensures unchanged { OnErr result (fields.new ≡ fields.old) }
    ensures index { IsErrOf result Refusal.Index ↔ (look_up name.now fields.old ≡ None) }
    ensures codes { IsErrAmong (Refusal.Index ∷ Refusal.Memory ∷ []) result }
{
    let Some(at) = fields.position(name) else {
        return Err(Refusal::Index);
    };
    match fields.remove(at) {
        Ok(field) => Ok(field.value),
        Err(_) => Err(Refusal::Memory),
    }
}

/// Exchanges the value of the first field with this name with `other`. A refused call changes
/// neither.
fn exchange(fields: &mut Fields<Value>, name: &str, other: &mut Value) -> Result<(), Refusal>
    ensures ok { OnOk result (fields.new ≡ with_field name.now other.old fields.old) }
    ensures other { OnOk result (look_up name.now fields.old ≡ Some other.new) }
    ensures unchanged { OnErr result (fields.new ≡ fields.old) }
    ensures kept { OnErr result (other.new ≡ other.old) }
    ensures index { IsErrOf result Refusal.Index ↔ (look_up name.now fields.old ≡ None) }
    ensures depth { IsErrOf result Refusal.Depth
        ↔ (look_up name.now fields.old ≢ None) × (MAX_DEPTH ≤ depth_of other.old) }
    ensures codes { IsErrAmong (Refusal.Index ∷ Refusal.Depth ∷ Refusal.Memory ∷ []) result }
{
    let Some(at) = fields.position(name) else {
        return Err(Refusal::Index);
    };
    other.depth_as_part()?;
    let value = other.clone()?;
    match fields.replace(at, value) {
        Ok(was) => {
            *other = was;
            Ok(())
        }
        Err(_) => Err(Refusal::Memory),
    }
}

impl Value {
    /// The value of the first field with this name.
    ///
    /// With 16 fields or more, the time grows as the logarithm of their number. With fewer, each
    /// field is looked at. So it is after a field was removed whose name comes again, until some
    /// more fields have been added.
    ///
    /// # Errors
    ///
    /// `Kind` if the value has no fields; `Index` if no field has the name.
    pub fn field(&self, name: &str) -> Result<&Value, Refusal>
        ensures ok { IfOk result (λ value. IfSome (fields_of self.now)
            (λ fields. look_up name.now fields ≡ Some value.now)) }
        ensures kind { IsErrOf result Refusal.Kind ↔ (fields_of self.now ≡ None) }
        ensures index { IsErrOf result Refusal.Index
            ↔ IsSomeAnd (fields_of self.now) (λ fields. look_up name.now fields ≡ None) }
        ensures codes { IsErrAmong (Refusal.Kind ∷ Refusal.Index ∷ []) result }
    {
        let Value::Fields(nested) = self else {
            return Err(Refusal::Kind);
        };
        match find(&nested.items, name) {
            Some(value) => Ok(value),
            None => Err(Refusal::Index),
        }
    }

    /// Replaces the value of the first field with this name, or appends a field if there is none.
    ///
    /// Finds the name as `field` does. Shared fields are copied first. If the old value was the
    /// deepest, the depth of each field is read.
    ///
    /// # Errors
    ///
    /// `Kind` if the value has no fields; `Depth` if `value` nests as deep as a value may;
    /// `Memory`. `value` is dropped. No call gives `Capacity`, since no memory holds so long a name
    /// or so many fields.
    #[tactic(auto, using(crate::proofs::Parts::out_of_fields, crate::proofs::Depths::with_less))]
    pub fn set_field(&mut self, name: &str, value: Value) -> Result<(), Refusal>
        ensures change { EditsFields (with_field name.now value) self.old result self.new }
        ensures covers { Covers self.old → Covers self.new }
        ensures bound { OnOk result (RisesAtMost value self.old self.new) }
        ensures depth { IsErrOf result Refusal.Depth
            ↔ (fields_of self.old ≢ None) × (MAX_DEPTH ≤ depth_of value) }
        ensures codes { IsErrAmong (Refusal.Kind ∷ Refusal.Depth ∷ Refusal.Memory ∷ []) result }
    {
        let Value::Fields(Nested { items, depth }) = self else {
            return Err(Refusal::Kind);
        };
        let below = value.depth_as_part()?;
        let gone = find(items, name).map_or(0, |value| value.depth());
        put(items, name, value)?;
        raise(depth, below);
        settle(depth, items.entries(), gone, below);
        Ok(())
    }

    /// Appends a field without looking for its name. If another field has the name already, calls
    /// by that name still mean the first.
    ///
    /// Takes constant time on average, and with 16 fields or more as long as a search for the name.
    /// Shared fields are copied first.
    ///
    /// # Errors
    ///
    /// As `set_field`.
    #[tactic(auto, using(crate::proofs::Parts::out_of_fields, crate::proofs::Depths::pushed))]
    pub fn push_field(&mut self, name: &str, value: Value) -> Result<(), Refusal>
        ensures change { EditsFields (λ fields. fields ++ new_field name.now value ∷ [])
            self.old result self.new }
        ensures covers { Covers self.old → Covers self.new }
        ensures bound { OnOk result (RisesAtMost value self.old self.new) }
        ensures depth { IsErrOf result Refusal.Depth
            ↔ (fields_of self.old ≢ None) × (MAX_DEPTH ≤ depth_of value) }
        ensures codes { IsErrAmong (Refusal.Kind ∷ Refusal.Depth ∷ Refusal.Memory ∷ []) result }
    {
        let Value::Fields(Nested { items, depth }) = self else {
            return Err(Refusal::Kind);
        };
        let below = value.depth_as_part()?;
        append(items, name, value)?;
        raise(depth, below);
        Ok(())
    }

    /// Exchanges the value of the first field with this name with `other`.
    ///
    /// Costs what `set_field` costs.
    ///
    /// # Errors
    ///
    /// `Kind` if the value has no fields; `Index` if no field has the name; `Depth` if `other`
    /// nests as deep as a value may; `Memory`. `other` is unchanged.
    #[tactic(auto, using(crate::proofs::Parts::out_of_fields, crate::proofs::Depths::with_less))]
    pub fn swap_field(&mut self, name: &str, other: &mut Value) -> Result<(), Refusal>
        ensures change { EditsFields (with_field name.now other.old) self.old result self.new }
        ensures other { OnOk result (IfSome (fields_of self.old)
            (λ fields. look_up name.now fields ≡ Some other.new)) }
        ensures kept { OnErr result (other.new ≡ other.old) }
        ensures covers { Covers self.old → Covers self.new }
        ensures bound { OnOk result (RisesAtMost other.old self.old self.new) }
        ensures index { IsErrOf result Refusal.Index
            ↔ IsSomeAnd (fields_of self.old) (λ fields. look_up name.now fields ≡ None) }
        ensures depth { IsErrOf result Refusal.Depth ↔ IsSomeAnd (fields_of self.old)
            (λ fields. (look_up name.now fields ≢ None) × (MAX_DEPTH ≤ depth_of other.old)) }
        ensures codes { IsErrAmong
            (Refusal.Kind ∷ Refusal.Index ∷ Refusal.Depth ∷ Refusal.Memory ∷ []) result }
    {
        let Value::Fields(Nested { items, depth }) = self else {
            return Err(Refusal::Kind);
        };
        let below = other.depth();
        exchange(items, name, other)?;
        raise(depth, below);
        settle(depth, items.entries(), other.depth(), below);
        Ok(())
    }

    /// Removes the first field with this name and returns its value.
    ///
    /// With 16 fields or more, the time grows on average as the logarithm of their number. With
    /// fewer, the fields after it are moved. Shared fields are copied first. If the value was the
    /// deepest, the depth of each field is read.
    ///
    /// # Errors
    ///
    /// `Kind` if the value has no fields; `Index` if no field has the name; `Memory`.
    #[tactic(auto, using(crate::proofs::Parts::out_of_fields, crate::proofs::Depths::without_less))]
    pub fn remove_field(&mut self, name: &str) -> Result<Value, Refusal>
        ensures change { EditsFields (without_field name.now) self.old result self.new }
        ensures value { IfOk result (λ value. IfSome (fields_of self.old)
            (λ fields. look_up name.now fields ≡ Some value)) }
        ensures covers { Covers self.old → Covers self.new }
        ensures bound { depth_of self.new ≤ depth_of self.old }
        ensures index { IsErrOf result Refusal.Index
            ↔ IsSomeAnd (fields_of self.old) (λ fields. look_up name.now fields ≡ None) }
        ensures codes { IsErrAmong (Refusal.Kind ∷ Refusal.Index ∷ Refusal.Memory ∷ []) result }
    {
        let Value::Fields(Nested { items, depth }) = self else {
            return Err(Refusal::Kind);
        };
        let value = take(items, name)?;
        settle(depth, items.entries(), value.depth(), 0);
        Ok(value)
    }
}
