//! A document of nested values. A clone of a document shares all its vectors. Setting a value deep
//! in it copies only the vectors on the path.
ghost use Rattle.std.specs.Prelude.{◌≡◌, List, None, Some, IfOk, IsErrOf};
ghost use Rattle.ecow_nested.specs.Paths.{value_at, IsApart};
ghost use Rattle.ecow_nested.specs.declared.refusal.Refusal.TheVariants.{Index};
ghost use Rattle.ecow_nested.specs.declared.value.paths.Step.{Step};

use ecow_nested::{Refusal, Step, Value};

/// The law: the path leads to the new value, each path that leaves it leads where it led before,
/// and the kept clone is unchanged. `Index` if the path leads to no value.
#[tactic(auto, using(ecow_nested::proofs::Paths::set_there, ecow_nested::proofs::Paths::set_elsewhere))]
pub fn set_and_keep(
    document: &Value,
    path: &[Step],
    value: Value,
) -> Result<(Value, Value), Refusal>
    ensures kept { IfOk result (λ both. both.0 ≡ document.now) }
    ensures there { IfOk result (λ both. value_at both.1 path.now ≡ Some value) }
    ensures elsewhere { IfOk result (λ both. (other : List Step) → IsApart path.now other
        → value_at both.1 other ≡ value_at document.now other) }
    ensures index { IsErrOf result Index → value_at document.now path.now ≡ None }
{
    let kept = document.clone()?;
    let mut changed = document.clone()?;
    changed.set_at(path, value)?;
    Ok((kept, changed))
}
