// rust: no file: what contracts and the stores speak of
//! Lists and texts in commands and answers. A contract sees their contents alone.
ghost use Rattle.std.specs.Prelude.{◌≡◌, length, string_bytes, IfOk};
ghost use Rattle.std.specs.Str.{chars, encode_utf8_all};
ghost use Rattle.ecow_base.specs.Clones.{ClonesAreEqual};

use std::alloc::{AllocError, Global};
use std::marker::Model;

/// A list: a `Vec` whose elements are all that a contract sees, without its pointer and capacity.
#[derive(Drop)]
pub struct Items<T> {
    elements: Vec<T>,
}

impl<T> Model for Items<T> {
    ghost use Rattle.std.specs.Prelude.{List};

    ghost Value = { List T };

    ghost view = { λ a. a.elements.items };
}

impl<T> Items<T> {
    /// Wraps a `Vec`, without a copy.
    pub fn new(elements: Vec<T>) -> Self
        ensures { result ≡ elements.items }
    {
        Items { elements }
    }

    /// Returns the `Vec`, without a copy.
    pub fn into_vec(self) -> Vec<T>
        ensures { result.items ≡ self }
    {
        let Items { elements } = self;
        elements
    }

    /// The elements, in order.
    pub fn as_slice(&self) -> &[T]
        ensures { result.now ≡ self.now }
    {
        self.elements.as_slice()
    }

    /// The number of elements.
    pub fn len(&self) -> usize
        ensures { result ≡ length self.now }
    {
        self.elements.len()
    }
}

impl<T: Clone> Items<T> {
    /// Clones the elements of a slice. An error says that there is no memory, or that an element's
    /// clone was refused.
    pub fn from_slice(alloc: Global, elements: &[T]) -> Result<Self, AllocError>
        ensures { ClonesAreEqual T.is_clone → IfOk result (λ copy. copy ≡ elements.now) }
    {
        let mut copy = Vec::new(alloc);
        copy.extend_with_clones(elements)?;
        Ok(Items { elements: copy })
    }
}

/// A text: a `String` whose characters are all that a contract sees.
#[derive(Drop)]
pub struct Text {
    text: String,
}

impl Model for Text {
    ghost use Rattle.std.specs.Prelude.{List, ℕ, string_bytes};
    ghost use Rattle.std.specs.Str.{chars};

    ghost Value = { List ℕ };

    ghost view = { λ a. chars (string_bytes a.text) };
}

impl Text {
    /// Wraps a `String`, without a copy.
    pub fn new(text: String) -> Self
        ensures { result ≡ chars (string_bytes text) }
    {
        Text { text }
    }

    /// The text. A contract sees a `&str` as its UTF-8 bytes.
    pub fn as_str(&self) -> &str
        ensures chars { chars result.now ≡ self.now }
        ensures bytes { encode_utf8_all self.now ≡ result.now }
    {
        self.text.as_str()
    }

    /// Returns the `String`, without a copy.
    pub fn into_string(self) -> String
        ensures { chars (string_bytes result) ≡ self }
    {
        let Text { text } = self;
        text
    }
}
