//! Carries out a script.
ghost use Rattle.std.specs.Prelude.{◌≡◌, ◌<◌, ◌^◌, [], ◌++◌, List, length, IfOk, IfErr, Ok, string_bytes, ℤ, IsTrue};
ghost use Rattle.ecow_script.specs.Scripts.{script_commands, IsFaultOf};
ghost use Rattle.ecow_script.specs.Answers.{Appended, answer_lines};
ghost use Rattle.ecow_model.specs.declared.command.Outcome.{Outcome};

use crate::answer::write_answers;
use crate::script::{Fault, Script, Scripted};
use ecow_model::Outcome;
use std::alloc::{AllocError, Global};

/// What carries out commands: one of the stores.
pub(crate) trait NamedStore<C: Scripted>: Drop {
    /// Whether commands with these outcomes lead from one state to another.
    ghost runs: { Self → List C → List (Outcome ℤ) → Self → Type 0 };

    /// No commands.
    ghost runs_none: { (a : Self) → runs a [] [] a };

    /// Commands after other commands.
    ghost runs_on: { (a b d : Self) (cs ds : List C) (os ps : List (Outcome ℤ))
        → runs a cs os b → runs b ds ps d → runs a (cs ++ ds) (os ++ ps) d };

    fn run(&mut self, commands: Vec<C>) -> Result<Vec<Outcome<i64>>, AllocError>
        ensures { IfOk result (λ outcomes. runs self.old commands.items outcomes.items self.new) };
}

/// The answers to a script.
pub(crate) fn answers_of<C: Scripted, K: NamedStore<C>>(
    alloc: Global,
    store: &mut K,
    script: &str,
) -> Result<String, Fault>
    requires { length script.now < 2 ^ 63 }
    ensures answers { IfOk result
        (λ answers.
        (commands : List C) × (outcomes : List (Outcome ℤ))
        × (script_commands C.form script.now ≡ Ok commands)
        × K.runs store.old commands outcomes store.new
        × (string_bytes answers ≡ answer_lines outcomes)) }
    ensures fault { IfErr result (λ fault. IsFaultOf fault (script_commands C.form script.now)) }
{
    let mut answers = String::new(alloc);
    let mut rest = Script::new(alloc, script);
    let mut ran = true;
    'pieces: loop {
        let piece = rest.next_piece::<C>()?;
        if piece.is_empty() {
            break 'pieces;
        }
        ran = run_piece(ran, store, piece, &mut answers);
    }
    if ran { Ok(answers) } else { Err(Fault::Memory) }
}

/// Carries out commands and appends their answers, unless memory was refused before.
fn run_piece<C: Scripted, K: NamedStore<C>>(
    ran: bool,
    store: &mut K,
    piece: Vec<C>,
    answers: &mut String,
) -> bool
    ensures { IsTrue result
        → (outcomes : List (Outcome ℤ)) × IsTrue ran
        × K.runs store.old piece.items outcomes store.new
        × Appended answers.old answers.new (answer_lines outcomes) }
{
    if !ran {
        return false;
    }
    let Ok(outcomes) = store.run(piece) else {
        return false;
    };
    write_answers(answers, outcomes.as_slice()).is_ok()
}
