//! Lines that are std's `String`s. A clone has the same bytes, and perhaps another capacity.
ghost use Rattle.std.specs.Prelude.{◌≡◌, [], ◌∷◌, ◌++◌, map, OnErr, OnOk};
ghost use Rattle.std.specs.String.{string_bytes};

use ecow_list::{EcoError, EcoVec};

/// Appends a line. The text of the other lines stays. If it is refused, nothing changes.
#[tactic(auto, using(crate::proofs::Said::pushed))]
pub fn append(lines: &mut EcoVec<String>, line: String) -> Result<(), EcoError>
    ensures ok { OnOk result (map string_bytes lines.new ≡ map string_bytes lines.old
        ++ string_bytes line ∷ []) }
    ensures unchanged { OnErr result (lines.new ≡ lines.old) }
{
    lines.push(line)?;
    Ok(())
}
