//! Parts by lookup paths. What a path leads to is read, or replaced in its place. A refused call
//! changes nothing.
ghost use Rattle.std.specs.Prelude.{◌≡◌, ◌≢◌, ◌+◌, ◌≤◌, ◌<◌, ◌↔◌, length, max, [], ◌∷◌, List, None, Some, IfSome, OnOk, OnErr, IsErrOf, MatchOption, slice_get, slice_set};
ghost use Rattle.std.specs.Option.{option_and_then};
ghost use Rattle.ecow_nested.specs.Names.{named};
ghost use Rattle.ecow_nested.specs.Paths.{part_at, value_at, IsSet};
ghost use Rattle.ecow_nested.specs.Values.{deepest, deepest_field, depth_of, look_up, with_field, Covers, IsErrAmong};
ghost use Rattle.ecow_nested.specs.declared.fields.Field.{Field};
ghost use Rattle.ecow_nested.specs.declared.value.Value.{Value};

use crate::fields::Fields;
use crate::fields::gaps::place_of_index;
use crate::nested::{MAX_DEPTH, Nested, raise, settle};
use crate::refusal::Refusal;
use crate::value::Value;
use crate::value::fields::find;
use ecow_list::EcoVec;
use ecow_string::EcoString;
use std::mem::swap;

/// A step from a value to one of its parts.
#[derive(Clone, Debug, Drop, PartialEq)]
pub enum Step {
    /// To the item of a list at this index.
    Index(usize),
    /// To the value of the first field with this name.
    Name(EcoString),
}

impl Value {
    /// The part that a step leads to; `None` if there is none.
    fn step(&self, step: &Step) -> Option<&Value>
        ensures { MatchOption result (part_at self.now step.now ≡ None)
            (λ part. part_at self.now step.now ≡ Some part.now) }
    {
        match step {
            Step::Index(index) => self.items()?.as_slice().get(*index),
            Step::Name(name) => find(self.fields()?, name.as_str()),
        }
    }

    /// The value that a path leads to; `None` if there is none. The empty path leads to the value
    /// itself.
    pub fn at(&self, path: &[Step]) -> Option<&Value>
        ensures { MatchOption result (value_at self.now path.now ≡ None)
            (λ value. value_at self.now path.now ≡ Some value.now) }
    {
        match path {
            [] => Some(self),
            [step, rest @ ..] => self.step(step)?.at(rest),
        }
    }

    /// Exchanges the value that a path leads to with `other`, in its place.
    ///
    /// Copies only the shared lists and fields on the path, and none below its end.
    ///
    /// # Errors
    ///
    /// `Index` if the path leads to no value; `Depth` if the number of steps and the depth of
    /// `other` add up to more than `MAX_DEPTH`; `Memory`. `other` is unchanged.
    pub fn swap_at(&mut self, path: &[Step], other: &mut Value) -> Result<(), Refusal>
        ensures set { OnOk result (IsSet path.now other.old self.old self.new) }
        ensures other { OnOk result (value_at self.old path.now ≡ Some other.new) }
        ensures kept { OnErr result (other.new ≡ other.old) }
        ensures covers { Covers self.old → Covers other.old → Covers self.new }
        ensures bound { OnOk result (depth_of self.new
            ≤ max (depth_of self.old) (length path.now + depth_of other.old)) }
        ensures unchanged { OnErr result (self.new ≡ self.old) }
        ensures index { IsErrOf result Refusal.Index ↔ (value_at self.old path.now ≡ None) }
        ensures depth { IsErrOf result Refusal.Depth ↔ (value_at self.old path.now ≢ None)
            × (MAX_DEPTH < length path.now + depth_of other.old) }
        ensures codes { IsErrAmong (Refusal.Index ∷ Refusal.Depth ∷ Refusal.Memory ∷ []) result }
    {
        if self.at(path).is_none() {
            return Err(Refusal::Index);
        }
        let below = other.depth();
        if below > MAX_DEPTH || path.len() > (MAX_DEPTH - below) as usize {
            return Err(Refusal::Depth);
        }
        self.exchange_at(path, other)
    }

    /// Replaces the value that a path leads to.
    ///
    /// Costs what `swap_at` costs.
    ///
    /// # Errors
    ///
    /// As `swap_at`; `value` is dropped.
    pub fn set_at(&mut self, path: &[Step], mut value: Value) -> Result<(), Refusal>
        ensures set { OnOk result (IsSet path.now value self.old self.new) }
        ensures covers { Covers self.old → Covers value → Covers self.new }
        ensures bound { OnOk result (depth_of self.new
            ≤ max (depth_of self.old) (length path.now + depth_of value)) }
        ensures unchanged { OnErr result (self.new ≡ self.old) }
        ensures index { IsErrOf result Refusal.Index ↔ (value_at self.old path.now ≡ None) }
        ensures depth { IsErrOf result Refusal.Depth ↔ (value_at self.old path.now ≢ None)
            × (MAX_DEPTH < length path.now + depth_of value) }
        ensures codes { IsErrAmong (Refusal.Index ∷ Refusal.Depth ∷ Refusal.Memory ∷ []) result }
    {
        self.swap_at(path, &mut value)
    }

    /// Does what `swap_at` does, but may copy shared lists before it finds that the path leads to
    /// no value.
    #[cycle(exchange)]
    fn exchange_at(&mut self, path: &[Step], other: &mut Value) -> Result<(), Refusal>
        requires { length path.now + depth_of other.old ≤ MAX_DEPTH }
        ensures set { OnOk result (IsSet path.now other.old self.old self.new) }
        ensures other { OnOk result (value_at self.old path.now ≡ Some other.new) }
        ensures kept { OnErr result (other.new ≡ other.old) }
        ensures covers { Covers self.old → Covers other.old → Covers self.new }
        ensures bound { OnOk result (depth_of self.new
            ≤ max (depth_of self.old) (length path.now + depth_of other.old)) }
        ensures unchanged { OnErr result (self.new ≡ self.old) }
        ensures index { IsErrOf result Refusal.Index → value_at self.old path.now ≡ None }
        ensures codes { IsErrAmong (Refusal.Index ∷ Refusal.Memory ∷ []) result }
    {
        match path {
            [] => {
                swap(self, other);
                Ok(())
            }
            [step, rest @ ..] => match step {
                Step::Index(index) => {
                    let Value::List(nested) = self else {
                        return Err(Refusal::Index);
                    };
                    exchange_in_item(nested, *index, rest, other)
                }
                Step::Name(name) => {
                    let Value::Fields(nested) = self else {
                        return Err(Refusal::Index);
                    };
                    exchange_in_field(nested, name.as_str(), rest, other)
                }
            },
        }
    }
}

/// Exchanges the value that a path leads to from the item at `index` with `other`.
#[cycle(exchange)]
fn exchange_in_item(
    nested: &mut Nested<EcoVec<Value>>,
    index: usize,
    rest: &[Step],
    other: &mut Value,
) -> Result<(), Refusal>
    requires { length rest.now + depth_of other.old < MAX_DEPTH }
    ensures set { OnOk result ((before : Value) × (after : Value)
        × (slice_get nested.old.items index ≡ Some before)
        × IsSet rest.now other.old before after
        × (nested.new.items ≡ slice_set nested.old.items index after)) }
    ensures other { OnOk result (option_and_then (λ part. value_at part rest.now)
        (slice_get nested.old.items index) ≡ Some other.new) }
    ensures kept { OnErr result (other.new ≡ other.old) }
    ensures covers { deepest nested.old.items < nested.old.depth
        → deepest nested.new.items < nested.new.depth }
    ensures bound { OnOk result (nested.new.depth
        ≤ max nested.old.depth (length rest.now + depth_of other.old + 1)) }
    ensures unchanged { OnErr result (nested.new ≡ nested.old) }
    ensures index { IsErrOf result Refusal.Index
        → option_and_then (λ part. value_at part rest.now) (slice_get nested.old.items index)
        ≡ None }
    ensures codes { IsErrAmong (Refusal.Index ∷ Refusal.Memory ∷ []) result }
{
    if index >= nested.items.len() {
        return Err(Refusal::Index);
    }
    let below = rest.len() as u32 + other.depth();
    let gone = nested.items.as_slice()[index].depth();
    let Ok(block) = nested.items.own_mut() else {
        return Err(Refusal::Memory);
    };
    block.as_mut_slice()[index].exchange_at(rest, other)?;
    raise(&mut nested.depth, below);
    let came = nested.items.as_slice()[index].depth();
    settle(&mut nested.depth, nested.items.as_slice(), gone, came);
    Ok(())
}

/// Exchanges the value that a path leads to from the first field with this name with `other`.
#[cycle(exchange)]
fn exchange_in_field(
    nested: &mut Nested<Fields<Value>>,
    name: &str,
    rest: &[Step],
    other: &mut Value,
) -> Result<(), Refusal>
    requires { length rest.now + depth_of other.old < MAX_DEPTH }
    ensures set { OnOk result ((before : Value) × (after : Value)
        × (look_up name.now nested.old.items ≡ Some before)
        × IsSet rest.now other.old before after
        × (nested.new.items ≡ with_field name.now after nested.old.items)) }
    ensures other { OnOk result (option_and_then (λ part. value_at part rest.now)
        (look_up name.now nested.old.items) ≡ Some other.new) }
    ensures kept { OnErr result (other.new ≡ other.old) }
    ensures covers { deepest_field nested.old.items < nested.old.depth
        → deepest_field nested.new.items < nested.new.depth }
    ensures bound { OnOk result (nested.new.depth
        ≤ max nested.old.depth (length rest.now + depth_of other.old + 1)) }
    ensures unchanged { OnErr result (nested.new ≡ nested.old) }
    ensures index { IsErrOf result Refusal.Index
        → option_and_then (λ part. value_at part rest.now) (look_up name.now nested.old.items)
        ≡ None }
    ensures codes { IsErrAmong (Refusal.Index ∷ Refusal.Memory ∷ []) result }
{
    let Some(at) = nested.items.position(name) else {
        return Err(Refusal::Index);
    };
    let below = rest.len() as u32 + other.depth();
    let gone = nested.items.field_at(at).value.depth();
    exchange_in_place(&mut nested.items, at, rest, other)?;
    raise(&mut nested.depth, below);
    let came = nested.items.field_at(at).value.depth();
    settle(&mut nested.depth, nested.items.entries(), gone, came);
    Ok(())
}

/// Exchanges the value that a path leads to from the field at `at` with `other`.
#[cycle(exchange)]
fn exchange_in_place(
    fields: &mut Fields<Value>,
    at: usize,
    rest: &[Step],
    other: &mut Value,
) -> Result<(), Refusal>
    requires within { at < length fields.old }
    requires shallow { length rest.now + depth_of other.old ≤ MAX_DEPTH }
    ensures set { OnOk result ((field : Field Value) × (after : Value)
        × (slice_get fields.old at ≡ Some field)
        × IsSet rest.now other.old field.value after
        × (fields.new ≡ slice_set fields.old at (named field.name after))
        × (depth_of after ≤ max (depth_of field.value) (length rest.now + depth_of other.old))) }
    ensures other { OnOk result (IfSome (slice_get fields.old at)
        (λ field. value_at field.value rest.now ≡ Some other.new)) }
    ensures kept { OnErr result (other.new ≡ other.old) }
    ensures unchanged { OnErr result (fields.new ≡ fields.old) }
    ensures index { IsErrOf result Refusal.Index → IfSome (slice_get fields.old at)
        (λ field. value_at field.value rest.now ≡ None) }
    ensures codes { IsErrAmong (Refusal.Index ∷ Refusal.Memory ∷ []) result }
{
    let place = place_of_index(fields.entries.as_slice(), at);
    let Ok(block) = fields.entries.own_mut() else {
        return Err(Refusal::Memory);
    };
    match &mut block.as_mut_slice()[place].field {
        Some(field) => {
            field.value.exchange_at(rest, other)?;
            Ok(())
        }
        None => unreachable!(),
    }
}
