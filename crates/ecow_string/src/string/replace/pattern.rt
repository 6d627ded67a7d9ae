//! The occurrences of a pattern that is not empty. A finder searches for its bytes. Every place
//! where it finds them is a boundary, since the first byte of a character can't be a later byte of
//! another.
ghost use Rattle.std.specs.Prelude.{◌≡◌, ◌≢◌, ◌+◌, ◌≤◌, [], SomeIff};
ghost use Rattle.std.specs.Str.{chars};
ghost use Rattle.ecow_base.specs.Inline.{inline_for};
ghost use Rattle.ecow_base.specs.Replaced.{replacen};
ghost use Rattle.ecow_base.specs.Utf8.{utf8_len};
ghost use Rattle.ecow_string.specs.Replace.{AppendsWithin, SplitsFirst};

use crate::string::SmallText;
use crate::string::replace::parts::{push_both, push_part, total_with};
use ecow_base::MAX_LEN;
use ecow_list::EcoError;
use memchr::memmem::Finder;

/// The text before the first occurrence of `pattern`, and the text after it; `None` if there is
/// none.
fn split_first<'a>(text: &'a str, finder: &Finder, pattern: &str) -> Option<(&'a str, &'a str)>
    requires finder { finder.now ≡ pattern.now }
    requires some { pattern.now ≢ [] }
    ensures { SplitsFirst pattern.now text.now result }
{
    let start = finder.find(text.as_bytes())?;
    Some((&text[..start], &text[start + pattern.len()..]))
}

/// The length in bytes of what `replacen` makes; `None` if a text can't be that long.
pub(super) fn replacement_len(
    text: &str,
    finder: &Finder,
    pattern: &str,
    replacement: &str,
    count: usize,
) -> Option<usize>
    requires finder { finder.now ≡ pattern.now }
    requires some { pattern.now ≢ [] }
    ensures { let target = replacen count (chars pattern.now) (chars replacement.now)
        (chars text.now) in SomeIff result (utf8_len target ≤ MAX_LEN) (utf8_len target) }
{
    let mut total = 0usize;
    let mut rest = text;
    let mut left = count;
    while left > 0 {
        match split_first(rest, finder, pattern) {
            None => left = 0,
            Some((before, behind)) => {
                total = total_with(total, before.len())?;
                total = total_with(total, replacement.len())?;
                rest = behind;
                left -= 1;
            }
        }
    }
    total_with(total, rest.len())
}

/// Appends what `replacen` makes of `text`. `target` was made for `most` bytes.
pub(super) fn push_replacement<const N: usize>(
    target: &mut SmallText<N>,
    text: &str,
    finder: &Finder,
    pattern: &str,
    replacement: &str,
    count: usize,
    most: usize,
) -> Result<(), EcoError>
    requires finder { finder.now ≡ pattern.now }
    requires some { pattern.now ≢ [] }
    requires bounded { most ≤ MAX_LEN }
    requires fits { utf8_len target.old.chars
        + utf8_len (replacen count (chars pattern.now) (chars replacement.now) (chars text.now))
        ≤ most }
    requires mode { target.old.inline ≡ inline_for N most }
    ensures { AppendsWithin N most target.old
        (replacen count (chars pattern.now) (chars replacement.now) (chars text.now))
        result target.new }
{
    let mut rest = text;
    let mut left = count;
    while left > 0 {
        match split_first(rest, finder, pattern) {
            None => left = 0,
            Some((before, behind)) => {
                push_both(target, before, replacement, most)?;
                rest = behind;
                left -= 1;
            }
        }
    }
    push_part(target, rest, most)
}
