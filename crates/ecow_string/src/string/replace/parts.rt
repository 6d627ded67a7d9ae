//! Appending to a text that was made for a given number of bytes. It stays inline or spilled as
//! long as it gets no more than that.
ghost use Rattle.std.specs.Prelude.{◌≡◌, ◌+◌, ◌≤◌, ◌++◌, length, SomeIff};
ghost use Rattle.std.specs.Str.{chars};
ghost use Rattle.ecow_base.specs.Inline.{inline_for};
ghost use Rattle.ecow_base.specs.Utf8.{utf8_len};
ghost use Rattle.ecow_string.specs.Replace.{AppendsWithin};

use crate::string::SmallText;
use ecow_base::MAX_LEN;
use ecow_list::EcoError;

/// The sum of `total` and `more`; `None` if a text can't have so many bytes.
pub(super) fn total_with(total: usize, more: usize) -> Option<usize>
    requires { total ≤ MAX_LEN }
    ensures { SomeIff result (total + more ≤ MAX_LEN) (total + more) }
{
    if more > MAX_LEN - total {
        return None;
    }
    Some(total + more)
}

/// Appends `text` to `target`, which was made for `most` bytes.
#[tactic(auto, using(crate::proofs::Limits::keeps_mode, crate::proofs::Limits::none_refused))]
pub(super) fn push_part<const N: usize>(
    target: &mut SmallText<N>,
    text: &str,
    most: usize,
) -> Result<(), EcoError>
    requires bounded { most ≤ MAX_LEN }
    requires fits { utf8_len target.old.chars + length text.now ≤ most }
    requires mode { target.old.inline ≡ inline_for N most }

    ensures { AppendsWithin N most target.old (chars text.now) result target.new }
{
    target.push_str(text)?;
    Ok(())
}

/// Appends one text and then another to `target`, which was made for `most` bytes.
pub(super) fn push_both<const N: usize>(
    target: &mut SmallText<N>,
    first: &str,
    second: &str,
    most: usize,
) -> Result<(), EcoError>
    requires bounded { most ≤ MAX_LEN }
    requires fits { utf8_len target.old.chars + length first.now + length second.now ≤ most }
    requires mode { target.old.inline ≡ inline_for N most }

    ensures { AppendsWithin N most target.old (chars first.now ++ chars second.now)
        result target.new }
{
    push_part(target, first, most)?;
    push_part(target, second, most)?;
    Ok(())
}
