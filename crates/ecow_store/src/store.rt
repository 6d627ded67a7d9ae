//! `Store`, and what its commands do.
ghost use Rattle.std.specs.Prelude.{◌≡◌, IfOk};
ghost use Rattle.std.specs.FinMap as map;
ghost use Rattle.ecow_base.specs.Clones.{ClonesAreEqual};
ghost use Rattle.ecow_list.specs.Refusals.{RejectsForMemory};
ghost use Rattle.ecow_model.specs.Refusing.{OnRefused};
ghost use Rattle.ecow_model.specs.Run.{Run, RunBy, Step, StepVerdict, StepWhere};

mod read;

use crate::bytes::BytesKind;
use crate::kinds::carry_out;
use crate::texts::TextKind;
use crate::vecs::VecKind;
use ecow_bytes::SmallBytes;
use ecow_list::{EcoError, EcoVec, Rejected};
use ecow_model::value::Value;
use ecow_model::{Command, Outcome};
use ecow_string::SmallText;
use ecow_table::Table;
use std::alloc::Global;
use std::marker::Model;

/// A value under a name.
pub type Stored<T, const N: usize> = Value<EcoVec<T>, SmallBytes<N>, SmallText<N>>;

/// Values of type `V` under names.
#[derive(Drop)]
pub struct NamedValues<V> {
    /// Where all memory comes from.
    alloc: Global,
    /// The value under each name.
    values: Table<V>,
}

/// Named lists, bytes and texts, whose clones share their blocks. Bytes and texts keep up to `N`
/// bytes inline.
pub type SmallStore<T, const N: usize> = NamedValues<Stored<T, N>>;

/// A store with an inline limit of 15 bytes.
///
/// ```
/// let mut store = Store::new(alloc);
/// store.step(Command::Vec(VecCommand::New { name: 0 }));
/// store.step(Command::Vec(VecCommand::Push { name: 0, value: 7 }));
/// store.step(Command::Vec(VecCommand::Clone { from: 0, to: 1 }));
/// store.step(Command::Vec(VecCommand::Clear { name: 0 }));
/// assert!(store.get(0) == Some(&[]) && store.get(1) == Some(&[7]));
/// ```
pub type Store<T> = SmallStore<T, 15>;

impl<V> Model for NamedValues<V> {
    ghost use Rattle.std.specs.FinMap.{code};
    ghost use Rattle.std.specs.Coded.{coded_ℕ};
    ghost use Rattle.ecow_model.specs.Values.{Named};

    ghost Value = { Named V };

    ghost coded = { code coded_ℕ V.code };

    ghost view = { λ a. a.values };
}

impl<V> NamedValues<V> {
    /// Makes a store without names. Takes no memory.
    pub fn new(alloc: Global) -> Self
        ensures { result ≡ map.empty }
    {
        NamedValues {
            alloc,
            values: Table::new(alloc),
        }
    }
}

impl<T: Clone, const N: usize> NamedValues<Stored<T, N>> {
    /// Carries out one command.
    ///
    /// Costs what the call of the value costs, and a look-up of each name.
    ///
    /// # Errors
    ///
    /// `Outcome::Refused` with the first refusal that applies. The command changes nothing then,
    /// and what it carried is dropped.
    pub fn step(&mut self, command: Command<T>) -> Outcome<T>
        ensures step { ClonesAreEqual T.is_clone → Step N self.old command result self.new }
        ensures bytes_and_texts { StepWhere N
            (ClonesAreEqual T.is_clone) self.old command result self.new }
        ensures verdict { StepVerdict N self.old command result self.new }
        ensures unchanged { OnRefused result (self.new ≡ self.old) }
    {
        match command {
            Command::Vec(command) => carry_out::<T, Stored<T, N>, VecKind>(
                self.alloc,
                &mut self.values,
                command.usage(),
            ),
            Command::Bytes(command) => carry_out::<T, Stored<T, N>, BytesKind>(
                self.alloc,
                &mut self.values,
                command.usage(),
            ),
            Command::Text(command) => carry_out::<T, Stored<T, N>, TextKind>(
                self.alloc,
                &mut self.values,
                command.usage(),
            ),
        }
    }

    /// Carries out commands in order, and returns the outcome of each.
    ///
    /// Takes memory for all outcomes first, and then what each command takes.
    ///
    /// # Errors
    ///
    /// `Memory` if there is no memory for the outcomes. Then no command is carried out, and the
    /// commands come back.
    pub fn run(
        &mut self,
        commands: Vec<Command<T>>,
    ) -> Result<Vec<Outcome<T>>, Rejected<Vec<Command<T>>>>
        ensures run { ClonesAreEqual T.is_clone
            → IfOk result (λ outcomes. Run N self.old commands.items outcomes.items self.new) }
        ensures bytes_and_texts { IfOk result
            (λ outcomes. RunBy (StepWhere N (ClonesAreEqual T.is_clone))
            self.old commands.items outcomes.items self.new) }
        ensures verdicts { IfOk result
            (λ outcomes. RunBy (StepVerdict N) self.old commands.items outcomes.items self.new) }

        // Without memory for the outcomes, nothing is carried out.
        ensures refused { RejectsForMemory commands self.old result self.new }
    {
        let Ok(mut outcomes) = Vec::with_capacity(self.alloc, commands.len()) else {
            return Err(Rejected {
                error: EcoError::Memory,
                value: commands,
            });
        };
        let mut rest = commands.into_iter();
        while let Some(command) = rest.next() {
            let outcome = self.step(command);
            outcomes.push_reserved(outcome);
        }
        Ok(outcomes)
    }
}
