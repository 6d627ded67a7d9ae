//! Carries out the parts of a command on named values, in the same way for all kinds of value.
ghost use Rattle.std.specs.Prelude.{◌≡◌, ◌⊎◌, MatchResult, Ok, Err};
ghost use Rattle.std.specs.Borrow.{sem};
ghost use Rattle.std.specs.FinMap as map;
ghost use Rattle.ecow_store.specs.Loans.{LendsPayload, LendsPayloadAt};
ghost use Rattle.ecow_model.specs.Refusing.{OnRefused};
ghost use Rattle.ecow_model.specs.Uses.{Rules, WrapsPayloads, IsMade, IsMadeOrRefused, IsDerived, IsDerivedOrRefused, IsEdit, IsEditVerdict, IsAnswer, IsAnswerVerdict, IsUse, IsUseVerdict, value_at};
ghost use Rattle.ecow_model.specs.declared.command.Outcome.{Outcome};
ghost use Rattle.ecow_model.specs.declared.command.Refusal.{Refusal};

use ecow_model::usage::{NewValue, Usage};
use ecow_model::{Name, Outcome, Refusal};
use ecow_table::Table;
use std::alloc::Global;

/// A kind of value, and what each part of a command does to a value of this kind. Values under
/// names have the type `V`, and lists have elements of type `T`.
///
/// The kind follows the definitions `rules` if `premise` holds. Which refusal comes doesn't depend
/// on `premise`. `wraps` says that a value under a name consists of its payload only.
pub(crate) trait ValueKind<T: Clone, V: Drop> {
    /// The values of this kind.
    type Payload: Drop;

    /// The commands that make a value of this kind.
    type Make: Drop;

    /// The commands that make a value of this kind from a value of any kind.
    type Derive: Drop;

    /// The commands that change a value of this kind.
    type Edit: Drop;

    /// The commands that read a value of this kind.
    type Ask: Drop;

    ghost rules: { Rules T V Self.Payload Self.Make Self.Derive Self.Edit Self.Ask };

    ghost premise: { Type 0 };

    /// Makes a value, or returns the refusal.
    fn make(alloc: Global, how: Self::Make) -> Result<NewValue<Self::Payload>, Refusal>
        ensures value { premise → IsMade rules how result }
        ensures verdict { IsMadeOrRefused rules how result };

    /// Makes a value from `source`, which stays as it is, or returns the refusal.
    fn derive(alloc: Global, how: Self::Derive, source: &V) -> Result<Self::Payload, Refusal>
        ensures derived { premise → IsDerived rules how source.now result }
        ensures verdict { IsDerivedOrRefused rules how source.now result };

    /// Carries out one change.
    fn edit(alloc: Global, payload: &mut Self::Payload, edit: Self::Edit) -> Outcome<T>
        ensures step { premise → IsEdit rules edit payload.old result payload.new }
        ensures verdict { IsEditVerdict rules edit payload.old result }
        ensures unchanged { OnRefused result (payload.new ≡ payload.old) };

    /// Answers one question.
    fn ask(alloc: Global, payload: &mut Self::Payload, question: Self::Ask) -> Outcome<T>
        ensures answer { premise → IsAnswer rules question payload.old result }
        ensures verdict { IsAnswerVerdict rules question payload.old result }
        ensures unchanged { payload.new ≡ payload.old };

    /// Borrows a value of this kind; the refusal `Kind` if `value` is of another kind.
    fn payload_mut(value: &mut V) -> Result<&mut Self::Payload, Refusal>
        ensures* writes_back { sem 𝓛
            (LendsPayload V.row Self.Payload.row rules.wrap value.entry result) }
        ensures value { MatchResult result (λ x. rules.payload value.old ≡ Ok x.now)
            (λ refusal. rules.payload value.old ≡ Err refusal) };

    /// Turns `payload` into a value for a name.
    fn wrap(payload: Self::Payload) -> V
        ensures { result ≡ rules.wrap payload };

    ghost wraps: { WrapsPayloads rules };
}

/// Borrows the value of this kind under a name for writing. Returns `NoName` if there is no such
/// name, and the refusal of `K::payload_mut` if the value is of another kind.
fn payload_at<T: Clone, V: Drop, K: ValueKind<T, V>>(
    values: &mut Table<V>,
    name: Name,
) -> Result<&mut K::Payload, Refusal>
    ensures* writes_back { sem 𝓛
        (LendsPayloadAt V.row K.Payload.row K.rules.wrap values.entry name result) }
    ensures value { MatchResult result (λ x. value_at K.rules values.old name ≡ Ok x.now)
        (λ refusal. value_at K.rules values.old name ≡ Err refusal) }
{
    match values.get_mut(name) {
        Some(value) => K::payload_mut(value),
        None => Err(Refusal::NoName),
    }
}

/// Puts a value under a name and answers `outcome`; `Memory` if there is no memory for the name.
fn put<T: Drop, V: Drop>(
    values: &mut Table<V>,
    name: Name,
    value: V,
    outcome: Outcome<T>,
) -> Outcome<T>
    ensures { ((result ≡ outcome) × (values.new ≡ map.insert values.old name value))
        ⊎ ((result ≡ Outcome.Refused Refusal.Memory) × (values.new ≡ values.old)) }
{
    match values.insert(name, value) {
        Ok(()) => outcome,
        Err(_) => Outcome::Refused(Refusal::Memory),
    }
}

/// Carries out one command, given in parts, on a value of this kind.
pub(crate) fn carry_out<T: Clone, V: Drop, K: ValueKind<T, V>>(
    alloc: Global,
    values: &mut Table<V>,
    usage: Usage<K::Make, K::Derive, K::Edit, K::Ask>,
) -> Outcome<T>
    ensures step { K.premise → IsUse K.rules values.old usage result values.new }
    ensures verdict { IsUseVerdict K.rules values.old usage result }
    ensures unchanged { OnRefused result (values.new ≡ values.old) }
{
    match usage {
        Usage::Make { name, how } => {
            if values.contains(name) {
                return Outcome::Refused(Refusal::Taken);
            }
            let value: NewValue<K::Payload> = match K::make(alloc, how) {
                Ok(value) => value,
                Err(refusal) => return Outcome::Refused(refusal),
            };
            match value {
                NewValue::Always(value) => put(values, name, K::wrap(value), Outcome::Done),
                NewValue::Tried(Some(value)) => put(
                    values,
                    name,
                    K::wrap(value),
                    Outcome::Flag(true),
                ),
                NewValue::Tried(None) => Outcome::Flag(false),
            }
        }
        Usage::Derive { from, to, how } => {
            let Some(source) = values.get(from) else {
                return Outcome::Refused(Refusal::NoName);
            };
            if values.contains(to) {
                return Outcome::Refused(Refusal::Taken);
            }
            let derived: Result<K::Payload, Refusal> = K::derive(alloc, how, source);
            match derived {
                Ok(value) => put(values, to, K::wrap(value), Outcome::Done),
                Err(refusal) => Outcome::Refused(refusal),
            }
        }
        Usage::Drop { name } => {
            let payload: Result<&mut K::Payload, Refusal> = payload_at::<T, V, K>(values, name);
            if let Err(refusal) = payload {
                return Outcome::Refused(refusal);
            }
            let _ = values.remove(name);
            Outcome::Done
        }
        Usage::Edit { name, edit } => {
            let payload: Result<&mut K::Payload, Refusal> = payload_at::<T, V, K>(values, name);
            match payload {
                Ok(payload) => K::edit(alloc, payload, edit),
                Err(refusal) => Outcome::Refused(refusal),
            }
        }
        Usage::Ask { name, question } => {
            let payload: Result<&mut K::Payload, Refusal> = payload_at::<T, V, K>(values, name);
            match payload {
                Ok(payload) => K::ask(alloc, payload, question),
                Err(refusal) => Outcome::Refused(refusal),
            }
        }
    }
}
