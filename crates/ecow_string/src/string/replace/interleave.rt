//! The occurrences of the empty pattern: one before each character, and one at the end.
ghost use Rattle.std.specs.Prelude.{◌≡◌, ◌+◌, ◌≤◌, [], length, SomeIff};
ghost use Rattle.std.specs.Str.{chars};
ghost use Rattle.ecow_base.specs.Inline.{inline_for};
ghost use Rattle.ecow_base.specs.Replaced.{replacen};
ghost use Rattle.ecow_base.specs.Utf8.{utf8_len};
ghost use Rattle.ecow_string.specs.Replace.{AppendsWithin, SplitsChar};

use crate::string::SmallText;
use crate::string::replace::parts::{push_both, push_part, total_with};
use ecow_base::MAX_LEN;
use ecow_list::EcoError;

/// The first character, and the text after it; `None` if the text is empty.
fn split_char(text: &str) -> Option<(&str, &str)>
    ensures { SplitsChar text.now result }
{
    let end = text.chars().next()?.len_utf8();
    Some((&text[..end], &text[end..]))
}

/// The length in bytes of what `replacen` makes with the empty pattern; `None` if a text can't be
/// that long.
pub(super) fn interleaving_len(text: &str, replacement: &str, count: usize) -> Option<usize>
    requires { length text.now ≤ MAX_LEN }
    ensures { let target = replacen count [] (chars replacement.now)
        (chars text.now) in SomeIff result (utf8_len target ≤ MAX_LEN) (utf8_len target) }
{
    let places = count.min(text.chars().count() + 1);
    let added = places.checked_mul(replacement.len())?;
    total_with(text.len(), added)
}

/// Appends what `replacen` makes of `text` with the empty pattern. `target` was made for `most`
/// bytes.
pub(super) fn push_interleaving<const N: usize>(
    target: &mut SmallText<N>,
    text: &str,
    replacement: &str,
    count: usize,
    most: usize,
) -> Result<(), EcoError>
    requires bounded { most ≤ MAX_LEN }
    requires fits { utf8_len target.old.chars
        + utf8_len (replacen count [] (chars replacement.now) (chars text.now)) ≤ most }
    requires mode { target.old.inline ≡ inline_for N most }
    ensures { AppendsWithin N most target.old
        (replacen count [] (chars replacement.now) (chars text.now)) result target.new }
{
    let mut rest = text;
    let mut left = count;
    while left > 0 {
        match split_char(rest) {
            None => {
                push_part(target, replacement, most)?;
                left = 0;
            }
            Some((first, behind)) => {
                push_both(target, replacement, first, most)?;
                rest = behind;
                left -= 1;
            }
        }
    }
    push_part(target, rest, most)
}
