//! The theorem about the first example, from the characters of its file to its answer lines.
ghost use Rattle.std.specs.Prelude.{◌≡◌, ◌++◌, ℤ, List, Ok};
ghost use Rattle.std.specs.FinMap as finite;
ghost use Rattle.ecow_counted.specs.Filling.{IsRunOf};
ghost use Rattle.ecow_counted.specs.State.{CountedState};
ghost use Rattle.ecow_model.specs.Run.{Run};
ghost use Rattle.ecow_model.specs.State.{State};
ghost use Rattle.ecow_model.specs.declared.command.Outcome.{Outcome};
ghost use Rattle.ecow_script.specs.Answers.{answer_lines};
ghost use Rattle.ecow_script.specs.Commands.{counted_form, store_form};
ghost use Rattle.ecow_script.specs.FirstExample.{LackNothing, first_answers, first_commands, first_vec_commands, first_script, first_totals};
ghost use Rattle.ecow_script.specs.Runs.{new_table, totals_line};
ghost use Rattle.ecow_script.specs.Scripts.{script_commands};

/// The file `examples/first.eco` has nine commands. Unless memory is refused, the store answers
/// them with the nine lines that stand in the file's comments, and the counted store adds its
/// totals.
pub fn first_example()
    ensures commands { script_commands store_form first_script ≡ Ok first_commands }
    ensures answers { (outcomes : List (Outcome ℤ)) (last : State ℤ)
        → Run 15 finite.empty first_commands outcomes last → LackNothing outcomes
        → answer_lines outcomes ≡ first_answers }
    ensures vec_commands { script_commands counted_form first_script ≡ Ok first_vec_commands }
    ensures counted_answers { (outcomes : List (Outcome ℤ)) (last : CountedState ℤ)
        → IsRunOf new_table first_vec_commands outcomes last → LackNothing outcomes
        → answer_lines outcomes ++ totals_line last ≡ first_answers ++ first_totals }
{}
