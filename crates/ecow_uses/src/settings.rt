//! Versions of numbered settings, on the counted store. A fork copies nothing. The first write to a
//! version that shares its settings copies them once.
ghost use Rattle.std.specs.Prelude.{◌≡◌, ◌≢◌, ℕ, true, All, IfOk, OnErr, OnOk, slice_get, slice_set};
ghost use Rattle.std.specs.Option.{option_and_then, option_map};
ghost use Rattle.ecow_model.specs.Callers.{LeavesName};
ghost use Rattle.ecow_model.specs.Names.{list_of};
ghost use Rattle.ecow_model.specs.Vecs.{vec_usage};

use ecow_counted::Counted;
use ecow_list::EcoError;
use ecow_model::{Name, Outcome, Refusal, VecCommand};
use std::alloc::Global;

/// One setting of a version; `None` if there is no such version or setting.
pub fn value(settings: &Counted<u64>, version: Name, setting: usize) -> Option<u64>
    ensures { result ≡ option_and_then (λ values. slice_get values setting)
        (list_of settings.now.names version) }
{
    settings.get(version)?.get(setting).copied()
}

/// Makes the version `to`, which shares the settings of `from`. It copies and moves nothing. If it
/// is refused, nothing changes.
#[tactic(auto, using(ecow_model::proofs::CallerLemmas::share_reads))]
pub fn fork(settings: &mut Counted<u64>, from: Name, to: Name) -> Result<(), Refusal>
    ensures reads { OnOk result (list_of settings.new.names to ≡ list_of settings.old.names from) }
    ensures others { (version : ℕ) → version ≢ to → list_of settings.new.names version
        ≡ list_of settings.old.names version }
    ensures copied { settings.new.copied ≡ settings.old.copied }
    ensures moved { settings.new.moved ≡ settings.old.moved }
    ensures unchanged { OnErr result (settings.new ≡ settings.old) }
{
    match settings.share(from, to) {
        Outcome::Done => Ok(()),
        Outcome::Refused(refusal) => Err(refusal),
        _ => Err(Refusal::Memory),
    }
}

/// Sets one setting of a version. If it is refused, nothing changes.
#[tactic(auto, using(ecow_model::proofs::CallerLemmas::shared_write_sets))]
pub fn set(
    settings: &mut Counted<u64>,
    version: Name,
    setting: usize,
    value: u64,
) -> Result<(), Refusal>
    ensures sets { OnOk result (list_of settings.new.names version
        ≡ option_map (λ values. slice_set values setting value)
        (list_of settings.old.names version)) }
    ensures others { (other : ℕ) → other ≢ version
        → list_of settings.new.names other ≡ list_of settings.old.names other }
    ensures unchanged { OnErr result (settings.new ≡ settings.old) }
{
    let command = VecCommand::Write {
        name: version,
        index: setting,
        value,
    };
    match settings.step(command) {
        Outcome::Done => Ok(()),
        Outcome::Refused(refusal) => Err(refusal),
        _ => Err(Refusal::Memory),
    }
}

/// The law: whatever happens to a fork, the version that it was made from stays as it was.
pub fn try_out(
    settings: &mut Counted<u64>,
    from: Name,
    to: Name,
    setting: usize,
    value: u64,
) -> Result<(), Refusal>
    requires { from ≢ to }
    ensures stays { list_of settings.new.names from ≡ list_of settings.old.names from }
    ensures tried { OnOk result (list_of settings.new.names to
        ≡ option_map (λ values. slice_set values setting value) (list_of settings.old.names from)) }
{
    fork(settings, from, to)?;
    set(settings, to, setting, value)
}

/// Carries out commands, and returns the number of outcomes. A version that no command makes,
/// changes or drops keeps its settings. Without memory for the outcomes, no command is carried out.
#[tactic(auto, using(ecow_model::proofs::CallerLemmas::shared_run_stays))]
pub fn replay(
    settings: &mut Counted<u64>,
    commands: Vec<VecCommand<u64>>,
) -> Result<usize, EcoError>
    ensures stays { (version : ℕ) → All (λ c. LeavesName (vec_usage c) version) commands.items
        → list_of settings.new.names version ≡ list_of settings.old.names version }
    ensures unchanged { OnErr result (settings.new ≡ settings.old) }
{
    let outcomes = settings.run(commands)?;
    Ok(outcomes.len())
}

/// Makes a version from another one with one setting changed, by two commands in one run. Returns
/// whether both are done.
#[tactic(auto, using(ecow_model::proofs::CallerLemmas::shared_run_stays, crate::proofs::Runs::branched))]
pub fn branch(
    settings: &mut Counted<u64>,
    alloc: Global,
    from: Name,
    to: Name,
    setting: usize,
    value: u64,
) -> Result<bool, EcoError>
    requires { from ≢ to }
    ensures branch { IfOk result (λ done. done ≡ true → list_of settings.new.names to
        ≡ option_map (λ values. slice_set values setting value)
        (list_of settings.old.names from)) }
    ensures others { (version : ℕ) → version ≢ to
        → list_of settings.new.names version ≡ list_of settings.old.names version }
    ensures unchanged { OnErr result (settings.new ≡ settings.old) }
{
    let commands = vec![in alloc;
        VecCommand::Clone { from, to },
        VecCommand::Write {
            name: to,
            index: setting,
            value
        },
    ]?;
    let outcomes = settings.run(commands)?;
    match outcomes.as_slice() {
        [Outcome::Done, Outcome::Done] => Ok(true),
        _ => Ok(false),
    }
}
