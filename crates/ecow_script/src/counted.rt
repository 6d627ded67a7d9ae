//! Carries out a script on the counted store.
ghost use Rattle.std.specs.Prelude.{◌<◌, ◌^◌, length, IfOk, IfErr, OnOk, string_bytes};
ghost use Rattle.ecow_script.specs.Answers.{Appended};
ghost use Rattle.ecow_script.specs.Scripts.{script_commands, IsFaultOf};
ghost use Rattle.ecow_script.specs.Commands.{counted_form};
ghost use Rattle.ecow_script.specs.Runs.{CountedAnswers, totals_line};

use crate::answer::write_number;
use crate::run::{NamedStore, answers_of};
use crate::script::Fault;
use ecow_counted::Counted;
use ecow_model::{Outcome, VecCommand};
use std::alloc::{AllocError, Global};

impl NamedStore<VecCommand<i64>> for Counted<i64> {
    ghost use Rattle.std.specs.Prelude.{IfOk};
    ghost use Rattle.ecow_script.specs.RunLaws.{CountedRuns, no_counted_run, counted_run_on};

    ghost runs = { CountedRuns };

    ghost runs_none = { no_counted_run };

    ghost runs_on = { counted_run_on };

    fn run(&mut self, commands: Vec<VecCommand<i64>>) -> Result<Vec<Outcome<i64>>, AllocError>
        ensures { IfOk result
            (λ outcomes. CountedRuns self.old commands.items outcomes.items self.new) }
    {
        Counted::run(self, commands).map_err(|_| AllocError)
    }
}

/// Carries out a script on a new `Counted`, and returns the answer lines. Its commands are all on
/// lists. The last line has the number of blocks, and how many elements were copied and moved. The
/// script has fewer than 2^63 bytes.
///
/// # Errors
///
/// As `answers_to`.
pub fn counted_answers_to(alloc: Global, script: &str) -> Result<String, Fault>
    requires { length script.now < 2 ^ 63 }
    ensures answers { IfOk result (λ answers. CountedAnswers script.now (string_bytes answers)) }
    ensures fault { IfErr result
        (λ fault. IsFaultOf fault (script_commands counted_form script.now)) }
{
    let mut counted = Counted::new(alloc);
    let mut answers = answers_of(alloc, &mut counted, script)?;
    write_totals(&mut answers, &counted)?;
    Ok(answers)
}

/// Appends the line with the number of blocks and both totals.
fn write_totals(answers: &mut String, counted: &Counted<i64>) -> Result<(), AllocError>
    ensures { OnOk result (Appended answers.old answers.new (totals_line counted.now)) }
{
    answers.push_str("blocks ")?;
    write_number(answers, counted.blocks())?;
    answers.push_str(" copied ")?;
    write_number(answers, counted.copied())?;
    answers.push_str(" moved ")?;
    write_number(answers, counted.moved())?;
    answers.push('\n')
}
