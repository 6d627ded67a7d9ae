//! Loops of calls of nested values. Their lists and fields have a number of parts and a last one.

use ecow_nested::{Refusal, Step, Value};
use ecow_string::{EcoString, ToEcoString};
use std::alloc::Global;

const LAST: &str = "last";

fn list(alloc: Global, len: usize, last: Value) -> Result<Value, Refusal> {
    let mut list = Value::new_list(alloc);
    for _ in 0..len {
        list.push(Value::Number(0))?;
    }
    list.push(last)?;
    Ok(list)
}

/// Fields of which the first was removed halfway and appended again, so that there is a gap.
fn fields(alloc: Global, len: usize, last: Value) -> Result<Value, Refusal> {
    let mut fields = Value::new_fields(alloc);
    for number in 0..len {
        let name = number.to_eco_string(alloc).map_err(|_| Refusal::Memory)?;
        fields.push_field(name.as_str(), Value::Number(0))?;
        if number == len / 2 {
            let first = fields.remove_field("0")?;
            fields.push_field("0", first)?;
        }
    }
    fields.push_field(LAST, last)?;
    Ok(fields)
}

/// Makes rounds of one call, and adds up how many parts the value has after each. The item that
/// `nested_set` replaces is the only one of the list that is a list itself.
pub(crate) fn sum(alloc: Global, call: &str, len: usize, count: u64) -> Result<u64, Refusal> {
    let name = Step::Name(EcoString::inline(alloc, LAST));
    let path = [Step::Index(len), name.clone()?, Step::Index(len), name];
    let mut value = match call {
        "nested_set" => list(alloc, len, Value::new_list(alloc))?,
        "nested_set_at" => {
            let inner = list(alloc, len, fields(alloc, len, Value::Nothing)?)?;
            list(alloc, len, fields(alloc, len, inner)?)?
        }
        _ => fields(alloc, len, Value::Nothing)?,
    };
    let mut sum = 0u64;
    for _ in 0..count {
        match call {
            "nested_set" => value.set(len, Value::new_list(alloc))?,
            "nested_set_field" => value.set_field(LAST, Value::Nothing)?,
            "nested_set_at" => value.set_at(&path, Value::Nothing)?,
            "nested_push_field" => value = fields(alloc, len, Value::Nothing)?,
            "nested_remove_field" => {
                // The oldest goes, and comes again as the newest.
                let name = value.name(0)?.clone()?;
                let oldest = value.remove_field(name.as_str())?;
                value.push_field(name.as_str(), oldest)?;
            }
            _ => drop(value.clone()?),
        }
        sum = sum.wrapping_add(value.len().unwrap_or(0) as u64);
    }
    Ok(sum)
}
