//! A long text with undo. Each version is a clone of a tree of lines, so an edit copies the blocks
//! on the way to its line alone.
ghost use Rattle.std.specs.Prelude.{◌≡◌, ◌<◌, ◌≤◌, true, length, IfOk, OnErr, OnOk, insert, remove, slice_set};
ghost use Rattle.ecow_uses.specs.History.{edited};

use crate::versions::Versions;
use ecow_list::EcoError;
use ecow_string::EcoString;
use ecow_tree::EcoTree;

/// Inserts a line before the one at `index`, or at the end. If it is refused, nothing changes.
pub fn insert(
    text: &mut Versions<EcoTree<EcoString>>,
    index: usize,
    line: EcoString,
) -> Result<(), EcoError>
    requires { index ≤ length text.old.present }
    ensures ok { OnOk result (text.new ≡ edited text.old (insert text.old.present index line)) }
    ensures unchanged { OnErr result (text.new ≡ text.old) }
{
    let mut lines = text.present().clone()?;
    lines.insert(index, line)?;
    text.set(lines)
}

/// Removes the line at `index`. If it is refused, nothing changes.
pub fn remove(text: &mut Versions<EcoTree<EcoString>>, index: usize) -> Result<(), EcoError>
    requires { index < length text.old.present }
    ensures ok { OnOk result (text.new ≡ edited text.old (remove text.old.present index)) }
    ensures unchanged { OnErr result (text.new ≡ text.old) }
{
    let mut lines = text.present().clone()?;
    lines.remove(index)?;
    text.set(lines)
}

/// Replaces the line at `index`. If it is refused, nothing changes.
pub fn edit(
    text: &mut Versions<EcoTree<EcoString>>,
    index: usize,
    line: EcoString,
) -> Result<(), EcoError>
    requires { index < length text.old.present }
    ensures ok { OnOk result (text.new ≡ edited text.old (slice_set text.old.present index line)) }
    ensures unchanged { OnErr result (text.new ≡ text.old) }
{
    let mut lines = text.present().clone()?;
    lines.set(index, line)?;
    text.set(lines)
}

/// The law: after an edit is undone, the lines and their past are those before the edit.
pub fn edit_and_undo(
    text: &mut Versions<EcoTree<EcoString>>,
    index: usize,
    line: EcoString,
) -> Result<bool, EcoError>
    requires { index < length text.old.present }
    ensures undone { IfOk result (λ done. done ≡ true) }
    ensures lines { OnOk result (text.new.present ≡ text.old.present) }
    ensures past { OnOk result (text.new.past ≡ text.old.past) }
{
    edit(text, index, line)?;
    Ok(text.undo()?)
}
