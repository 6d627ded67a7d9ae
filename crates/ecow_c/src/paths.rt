//! The calls on nested values by lookup paths. A path is itself a nested value: a list of texts,
//! each the name of a field, and of numbers, each the index of an item. A call may return `MEMORY`
//! instead of any other status than `NULL` and `KIND`.
ghost use Rattle.std.specs.Prelude.{◌≡◌, ◌↔◌, ◌∷◌, [], None, Some, map, IfOk, IsErrOf};
ghost use Rattle.std.specs.List.{list_all};
ghost use Rattle.std.specs.Option.{option_zip};
ghost use Rattle.ecow_nested.specs.Values.{IsErrAmong};
ghost use Rattle.ecow_c.specs.Answers.{IsAmong, WritesTo};
ghost use Rattle.ecow_c.specs.Paths.{AnswersAt, SetsAt, is_step, part_by, step_of, steps_of};

use crate::pointer::ValuePointer;
use crate::status::{
    DEPTH, INDEX, IntoStatus, KIND, MEMORY, NULL, OK, ok_or_status, put, some_or, status,
};
use ecow_nested::{Refusal, Step, Value};
use std::alloc::{AllocError, Global};

/// Whether an item of a path is a step.
fn is_step(item: &Value) -> bool
    ensures { result ≡ is_step item.now }
{
    matches!(item, Value::Text(_) | Value::Number(_))
}

/// Whether each of the items is a step.
fn are_steps(items: &[Value]) -> bool
    ensures { result ≡ list_all is_step items.now }
{
    items.iter().all(is_step)
}

/// The step that an item of a path means. An item that is no step gives a step that leads nowhere.
fn step(item: &Value) -> Result<Step, AllocError>
    ensures { IfOk result (λ step. step ≡ step_of item.now) }
{
    match item {
        Value::Text(name) => Ok(Step::Name(name.clone()?)),
        Value::Number(number) => Ok(Step::Index(usize::try_from(*number).unwrap_or(usize::MAX))),
        _ => Ok(Step::Index(usize::MAX)),
    }
}

/// The steps that the items of a path mean.
fn steps_for(alloc: Global, items: &[Value]) -> Result<Vec<Step>, AllocError>
    ensures { IfOk result (λ steps. steps.items ≡ map step_of items.now) }
{
    let mut steps = Vec::new(alloc);
    for item in items {
        steps.push(step(item)?)?;
    }
    Ok(steps)
}

/// The steps of a path.
fn steps(path: &Value) -> Result<Vec<Step>, Refusal>
    ensures ok { IfOk result (λ steps. steps_of path.now ≡ Some steps.items) }
    ensures kind { IsErrOf result Refusal.Kind ↔ (steps_of path.now ≡ None) }
    ensures codes { IsErrAmong (Refusal.Kind ∷ Refusal.Memory ∷ []) result }
{
    let Some(items) = path.items() else {
        return Err(Refusal::Kind);
    };
    if !are_steps(items.as_slice()) {
        return Err(Refusal::Kind);
    }
    Ok(steps_for(items.allocator(), items.as_slice())?)
}

/// Replaces the value at `out` by a clone of the part that the path leads to; `INDEX` if there is
/// none.
#[unsafe(no_mangle)]
pub extern "C" fn ecow_proved_value_get_at(
    pointer: &mut ValuePointer,
    path: &mut ValuePointer,
    out: &mut ValuePointer,
) -> u32
    ensures out { WritesTo part_by (option_zip pointer.old.value path.old.value)
        result out.old.value out.new.value }
    ensures unchanged { pointer.new.value ≡ pointer.old.value }
    ensures path { path.new.value ≡ path.old.value }
    ensures refusals { AnswersAt pointer.old.value path.old.value out.old.value result }
    ensures statuses { IsAmong (OK ∷ MEMORY ∷ INDEX ∷ KIND ∷ NULL ∷ []) result }
{
    let value = some_or!(pointer.value(), NULL);
    let path = some_or!(path.value(), NULL);
    let out = some_or!(out.value(), NULL);
    let steps = ok_or_status!(steps(path));
    put(some_or!(value.at(steps.as_slice()), INDEX).clone(), out)
}

/// Replaces the part that the path leads to by a clone of the value at `item`; `INDEX` if there is
/// none.
#[unsafe(no_mangle)]
pub extern "C" fn ecow_proved_value_set_at(
    pointer: &mut ValuePointer,
    path: &mut ValuePointer,
    item: &mut ValuePointer,
) -> u32
    ensures value { SetsAt pointer.old.value path.old.value item.old.value
        result pointer.new.value }
    ensures path { path.new.value ≡ path.old.value }
    ensures item { item.new.value ≡ item.old.value }
    ensures refusals { AnswersAt pointer.old.value path.old.value item.old.value result }
    ensures statuses { IsAmong (OK ∷ MEMORY ∷ DEPTH ∷ INDEX ∷ KIND ∷ NULL ∷ []) result }
{
    let value = some_or!(pointer.value(), NULL);
    let path = some_or!(path.value(), NULL);
    let item = some_or!(item.value(), NULL);
    let steps = ok_or_status!(steps(path));
    let clone = ok_or_status!(item.clone());
    status(value.set_at(steps.as_slice(), clone))
}

/// Exchanges the part that the path leads to with the value at `other`; `INDEX` if there is none.
#[unsafe(no_mangle)]
pub extern "C" fn ecow_proved_value_swap_at(
    pointer: &mut ValuePointer,
    path: &mut ValuePointer,
    other: &mut ValuePointer,
) -> u32
    ensures value { SetsAt pointer.old.value path.old.value other.old.value
        result pointer.new.value }
    ensures other { WritesTo part_by (option_zip pointer.old.value path.old.value)
        result other.old.value other.new.value }
    ensures path { path.new.value ≡ path.old.value }
    ensures refusals { AnswersAt pointer.old.value path.old.value other.old.value result }
    ensures statuses { IsAmong (OK ∷ MEMORY ∷ DEPTH ∷ INDEX ∷ KIND ∷ NULL ∷ []) result }
{
    let value = some_or!(pointer.value(), NULL);
    let path = some_or!(path.value(), NULL);
    let other = some_or!(other.value(), NULL);
    let steps = ok_or_status!(steps(path));
    status(value.swap_at(steps.as_slice(), other))
}
