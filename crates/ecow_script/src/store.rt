//! Carries out a script on the store.
ghost use Rattle.std.specs.Prelude.{◌<◌, ◌^◌, length, IfOk, IfErr, string_bytes};
ghost use Rattle.ecow_script.specs.Scripts.{script_commands, IsFaultOf};
ghost use Rattle.ecow_script.specs.Commands.{store_form};
ghost use Rattle.ecow_script.specs.Runs.{Answers};

use crate::run::{NamedStore, answers_of};
use crate::script::Fault;
use ecow_model::{Command, Outcome};
use ecow_store::Store;
use std::alloc::{AllocError, Global};

impl NamedStore<Command<i64>> for Store<i64> {
    ghost use Rattle.std.specs.Prelude.{refl, IfOk};
    ghost use Rattle.ecow_model.specs.Run.{Run};
    ghost use Rattle.ecow_script.specs.RunLaws.{run_on};

    ghost runs = { Run 15 };

    ghost runs_none = { λ a. refl };

    ghost runs_on = { run_on };

    fn run(&mut self, commands: Vec<Command<i64>>) -> Result<Vec<Outcome<i64>>, AllocError>
        ensures { IfOk result
            (λ outcomes. Run 15 self.old commands.items outcomes.items self.new) }
    {
        Store::run(self, commands).map_err(|_| AllocError)
    }
}

/// Carries out a script on a new `Store`, and returns the answer lines. The script has fewer than
/// 2^63 bytes, as every text in memory has.
///
/// # Errors
///
/// `Unreadable` for the first line that is wrong, even if memory was refused for a command before
/// it; `Memory` if no line is wrong.
pub fn answers_to(alloc: Global, script: &str) -> Result<String, Fault>
    requires { length script.now < 2 ^ 63 }
    ensures answers { IfOk result (λ answers. Answers script.now (string_bytes answers)) }
    ensures fault { IfErr result
        (λ fault. IsFaultOf fault (script_commands store_form script.now)) }
{
    let mut store = Store::new(alloc);
    answers_of(alloc, &mut store, script)
}
