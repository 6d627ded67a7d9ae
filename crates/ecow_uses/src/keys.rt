//! Texts as keys: `==` decides whether their characters are the same, by the laws of texts.
ghost use Rattle.std.specs.Prelude.{◌≡◌, ◌↔◌, true};
ghost use Rattle.std.specs.Str.{chars};

use ecow_string::EcoString;
use ecow_string::laws::{a_str_decides_the_characters, equal_texts_have_the_same_characters};

/// Whether two texts have the same characters, inline or spilled. `==` decides it.
pub fn are_same(left: &EcoString, right: &EcoString) -> bool
    ensures { (result ≡ true) ↔ (left.now.chars ≡ right.now.chars) }
{
    equal_texts_have_the_same_characters();
    *left == *right
}

/// Whether a text has the characters of a `str`.
pub fn spells(text: &EcoString, word: &str) -> bool
    ensures { (result ≡ true) ↔ (text.now.chars ≡ chars word.now) }
{
    a_str_decides_the_characters();
    text.as_str() == word
}
