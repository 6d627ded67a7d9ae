//! Equality of values.
ghost use Rattle.std.specs.Prelude.{◌≡◌};
ghost use Rattle.ecow_nested.specs.Values.{value_eq};

use crate::value::Value;

/// Whether both are at one address, so that they hold the same. Here nobody asks, and the answer is
/// `false`. In Rust this spares the parts that two values share.
macro_rules! are_one {
    ($left:expr, $right:expr) => {
        // rust: core::ptr::eq($left, $right)
        false
    };
}

impl Value {
    /// Whether two values have the same kind and equal contents; items and fields are compared in
    /// order. Every NaN equals every other, so a value equals its clones. An inline text can equal
    /// a spilled one. Stops at the first difference.
    pub fn equals(&self, other: &Value) -> bool
        ensures { result ≡ value_eq self.now other.now }
    {
        match (self, other) {
            (Value::Nothing, Value::Nothing) => true,
            (Value::Truth(left), Value::Truth(right)) => left == right,
            (Value::Number(left), Value::Number(right)) => left == right,
            (Value::Real(left), Value::Real(right)) => {
                left == right || (left.is_nan() && right.is_nan())
            }
            (Value::Text(left), Value::Text(right)) => left == right,
            (Value::List(left), Value::List(right)) => {
                let others = right.items.as_slice();
                if left.items.len() != others.len() {
                    return false;
                }
                if are_one!(left.items.as_slice(), others) {
                    return true;
                }
                let mut index = 0;
                for item in left.items.as_slice() {
                    if !item.equals(&others[index]) {
                        return false;
                    }
                    index += 1;
                }
                true
            }
            (Value::Fields(left), Value::Fields(right)) => {
                if left.items.len() != right.items.len() {
                    return false;
                }
                for index in 0..left.items.len() {
                    let (field, other) = (left.items.field_at(index), right.items.field_at(index));
                    if are_one!(field, other) {
                        return true;
                    }
                    if field.name != other.name {
                        return false;
                    }
                    if !field.value.equals(&other.value) {
                        return false;
                    }
                }
                true
            }
            _ => false,
        }
    }
}
