//! Reads the value under a name without a command.
ghost use Rattle.std.specs.Prelude.{◌≡◌};
ghost use Rattle.std.specs.Option.{option_copied, option_map};
ghost use Rattle.std.specs.Str.{encode_utf8_all};
ghost use Rattle.ecow_store.specs.Reading.{bytes_under, vec_under, text_under};

use crate::store::{NamedValues, Stored};
use ecow_model::Name;
use ecow_model::value::Value;

impl<T, const N: usize> NamedValues<Stored<T, N>> {
    /// The list under a name; `None` if there is none. Takes no memory.
    pub fn get(&self, name: Name) -> Option<&[T]>
        ensures { option_copied result ≡ vec_under self.now name }
    {
        match self.values.get(name)? {
            Value::Vec(list) => Some(list.as_slice()),
            _ => None,
        }
    }

    /// The bytes under a name; `None` if there are none. Takes no memory.
    pub fn get_bytes(&self, name: Name) -> Option<&[u8]>
        ensures { option_copied result ≡ option_map (λ value. value.bytes)
            (bytes_under self.now name) }
    {
        match self.values.get(name)? {
            Value::Bytes(bytes) => Some(bytes.as_slice()),
            _ => None,
        }
    }

    /// The text under a name; `None` if there is none. Takes no memory.
    pub fn get_str(&self, name: Name) -> Option<&str>
        ensures { option_copied result ≡ option_map (λ text. encode_utf8_all text.chars)
            (text_under self.now name) }
    {
        match self.values.get(name)? {
            Value::Text(text) => Some(text.as_str()),
            _ => None,
        }
    }
}
