//! Turns what the calls of values return into outcomes and refusals.
ghost use Rattle.std.specs.Prelude.{◌≡◌, Ok, Err, MatchResult};
ghost use Rattle.ecow_model.specs.declared.command.Outcome.{Outcome};
ghost use Rattle.ecow_model.specs.declared.command.Refusal.{Refusal};
ghost use Rattle.ecow_model.specs.declared.usage.NewValue.{NewValue};
ghost use Rattle.ecow_store.specs.Refusals.{refusal_for};

use ecow_list::EcoError;
use ecow_model::usage::NewValue;
use ecow_model::{Outcome, Refusal};

/// The refusal of a command whose call returned this error.
pub(crate) fn refusal_of(error: EcoError) -> Refusal
    ensures { result ≡ refusal_for error }
{
    match error {
        EcoError::Capacity => Refusal::Capacity,
        EcoError::Memory => Refusal::Memory,
    }
}

/// The outcome of a change: done, or refused for memory.
pub(crate) fn answer_change<T: Drop, E: Drop>(change: Result<(), E>) -> Outcome<T>
    ensures { MatchResult change (λ _. result ≡ Outcome.Done)
        (λ _. result ≡ Outcome.Refused Refusal.Memory) }
{
    match change {
        Ok(()) => Outcome::Done,
        Err(_) => Outcome::Refused(Refusal::Memory),
    }
}

/// The outcome of a call that returns a value and is refused only for memory.
macro_rules! answer_given {
    ($answer:ident, $given:expr) => {
        match $given {
            Ok(given) => Outcome::$answer(given),
            Err(_) => Outcome::Refused(Refusal::Memory),
        }
    };
}

pub(crate) use answer_given;

/// A new value, or the refusal of the command that makes it.
pub(crate) fn answer_make<V>(value: Result<V, EcoError>) -> Result<NewValue<V>, Refusal>
    ensures { MatchResult value (λ value. result ≡ Ok (NewValue.Always value))
        (λ error. result ≡ Err (refusal_for error)) }
{
    match value {
        Ok(value) => Ok(NewValue::Always(value)),
        Err(error) => Err(refusal_of(error)),
    }
}
