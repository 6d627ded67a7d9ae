//! Containers that are made from their parts. A refused call drops the parts.
ghost use Rattle.std.specs.Prelude.{◌≡◌, ◌+◌, ◌≤◌, ◌↔◌, [], Some, IfErr, IfOk, IsErr};
ghost use Rattle.ecow_nested.specs.Values.{depth_of, deepest, deepest_field, fields_of, items_of};

use crate::fields::Fields;
use crate::nested::{MAX_DEPTH, Nested, deepest};
use crate::refusal::Refusal;
use crate::value::Value;
use ecow_list::EcoVec;
use std::alloc::Global;

impl Value {
    /// Makes an empty list. Takes no memory.
    #[tactic(auto, using(crate::proofs::Parts::out_of_list))]
    // rust: const
    pub fn new_list(alloc: Global) -> Value
        ensures items { items_of result ≡ Some [] }
        ensures depth { depth_of result ≡ 1 }
    {
        Value::List(Nested {
            items: EcoVec::new(alloc),
            depth: 1,
        })
    }

    /// Makes a value with empty fields. Takes no memory.
    #[tactic(auto, using(crate::proofs::Parts::out_of_fields))]
    // rust: const
    pub fn new_fields(alloc: Global) -> Value
        ensures fields { fields_of result ≡ Some [] }
        ensures depth { depth_of result ≡ 1 }
    {
        Value::Fields(Nested {
            items: Fields::new(alloc),
            depth: 1,
        })
    }

    /// Makes a list of these items.
    ///
    /// Reads the depth of each item, and takes no memory.
    ///
    /// # Errors
    ///
    /// `Depth` if an item nests as deep as a value may.
    #[tactic(auto, using(crate::proofs::Parts::out_of_list))]
    pub fn from_items(items: EcoVec<Value>) -> Result<Value, Refusal>
        ensures items { IfOk result (λ list. items_of list ≡ Some items) }
        ensures exact { IfOk result (λ list. depth_of list ≡ deepest items + 1) }
        ensures depth { IsErr result ↔ MAX_DEPTH ≤ deepest items }
        ensures code { IfErr result (λ refusal. refusal ≡ Refusal.Depth) }
    {
        let below = deepest(items.as_slice(), MAX_DEPTH);
        if below >= MAX_DEPTH {
            return Err(Refusal::Depth);
        }
        let depth = below + 1;
        Ok(Value::List(Nested { items, depth }))
    }

    /// Makes a value with these fields.
    ///
    /// Reads the depth of each field, and takes no memory.
    ///
    /// # Errors
    ///
    /// `Depth` if the value of a field nests as deep as a value may.
    #[tactic(auto, using(crate::proofs::Parts::out_of_fields))]
    pub fn from_fields(fields: Fields<Value>) -> Result<Value, Refusal>
        ensures fields { IfOk result (λ value. fields_of value ≡ Some fields) }
        ensures exact { IfOk result (λ value. depth_of value ≡ deepest_field fields + 1) }
        ensures depth { IsErr result ↔ MAX_DEPTH ≤ deepest_field fields }
        ensures code { IfErr result (λ refusal. refusal ≡ Refusal.Depth) }
    {
        let below = deepest(fields.entries(), MAX_DEPTH);
        if below >= MAX_DEPTH {
            return Err(Refusal::Depth);
        }
        let (items, depth) = (fields, below + 1);
        Ok(Value::Fields(Nested { items, depth }))
    }
}
