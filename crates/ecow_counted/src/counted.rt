//! Commands on named lists whose clones share a block until one of them is changed.
ghost use Rattle.std.specs.Prelude.{◌≡◌, [], ◌∷◌, not, OnErr, IfOk, IfErr};
ghost use Rattle.std.specs.FinMap as finite;
ghost use Rattle.std.specs.Option.{option_map};
ghost use Rattle.ecow_base.specs.Clones.{ClonesAreEqual};
ghost use Rattle.ecow_list.specs.Refusals.{RejectsForMemory};
ghost use Rattle.ecow_model.specs.CountedRun.{ContentsStep, CountedRun, CountedStep, CountedVerdict, copied_in, if_accepted, moved_in, saturating};
ghost use Rattle.ecow_model.specs.Vecs.{vec_usage};
ghost use Rattle.ecow_model.specs.Names.{IsSharing, blocks, is_shared, owners_of};
ghost use Rattle.ecow_model.specs.Refusing.{OnRefused};
ghost use Rattle.ecow_model.specs.Run.{RunBy};
ghost use Rattle.ecow_model.specs.declared.vecs.VecCommand.{VecCommand};
ghost use Rattle.ecow_counted.specs.Totals.{TotalsArePaid};

mod read;

use crate::blocks::Blocks;
use crate::commands::Carried;
use ecow_list::{EcoError, Rejected};
use ecow_model::{Name, Outcome, VecCommand};
use std::alloc::Global;
use std::marker::Model;

/// Named lists whose clones share a block until one of them is changed, with totals of the elements
/// that were copied and moved. The totals stop at the greatest `u64`.
///
/// ```
/// let mut lists = Counted::new(alloc);
/// lists.step(VecCommand::New { name: 0 });
/// lists.step(VecCommand::Push { name: 0, value: 7 });
/// lists.share(0, 1);
/// assert_eq!((lists.owners(1), lists.copied()), (Some(2), 0));
/// lists.step(VecCommand::Push { name: 1, value: 8 });
/// assert_eq!((lists.owners(1), lists.copied()), (Some(1), 1));
/// ```
#[derive(Drop)]
pub struct Counted<T> {
    /// The allocator that gives all memory.
    alloc: Global,
    /// The list and the block of each name.
    blocks: Blocks<T>,
    /// How many elements were cloned because a name left a block that it shared.
    copied: u64,
    /// How many elements were moved because the block of a name had to grow.
    moved: u64,
}

impl<T> Model for Counted<T> {
    ghost use Rattle.ecow_counted.specs.State.{CountedState, counted_code};

    ghost Value = { CountedState T };

    ghost coded = { counted_code T.code };

    ghost view = { λ a. record { names = a.blocks.names; copied = a.copied; moved = a.moved } };

    ghost use Rattle.ecow_counted.specs.State.{IsValid};

    ghost invariant = { λ a. IsValid
        (record { names = a.blocks.names; copied = a.copied; moved = a.moved }) };
}

/// The sum of `total` and `count`, or the greatest `u64` if it is greater.
fn added(total: u64, count: usize) -> u64
    ensures { result ≡ saturating total count }
{
    total.saturating_add(count as u64)
}

impl<T> Counted<T> {
    /// A store without names, with both totals 0. Takes no memory.
    pub fn new(alloc: Global) -> Self
        ensures names { result.names ≡ finite.empty }
        ensures copied { result.copied ≡ 0 }
        ensures moved { result.moved ≡ 0 }
    {
        Counted {
            alloc,
            blocks: Blocks::new(alloc),
            copied: 0,
            moved: 0,
        }
    }

    /// The number of names that share the block of `name`, itself included. `None` if the name
    /// doesn't exist or has no block.
    pub fn owners(&self, name: Name) -> Option<usize>
        ensures { result ≡ owners_of (finite.get self.now.names name) }
    {
        let size = self.blocks.size(name)?;
        if size.owners > 0 {
            Some(size.owners)
        } else {
            None
        }
    }

    /// The number of elements that the block of `name` has places for; 0 if the name has no block.
    /// `None` if the name doesn't exist.
    pub fn capacity(&self, name: Name) -> Option<usize>
        ensures { result ≡ option_map (λ h. h.capacity) (finite.get self.now.names name) }
    {
        let size = self.blocks.size(name)?;
        Some(size.capacity)
    }

    /// Whether no other name shares the block of `name`; also true if the name has no block. `None`
    /// if the name doesn't exist.
    pub fn is_unique(&self, name: Name) -> Option<bool>
        ensures { result ≡ option_map (λ h. not (is_shared h)) (finite.get self.now.names name) }
    {
        let size = self.blocks.size(name)?;
        Some(size.owners <= 1)
    }

    /// The number of blocks. A block that no name has is dropped.
    pub fn blocks(&self) -> usize
        ensures count { result ≡ blocks self.now.names }
        ensures sharing { IsSharing self.now.names }
    {
        self.blocks.count()
    }

    /// How many elements the accepted commands copied. The total stops at the greatest `u64`.
    pub fn copied(&self) -> u64
        ensures { result ≡ self.now.copied }
    {
        self.copied
    }

    /// How many elements the accepted commands moved because a block had to grow. The total stops
    /// at the greatest `u64`.
    pub fn moved(&self) -> u64
        ensures { result ≡ self.now.moved }
    {
        self.moved
    }
}

impl<T> Counted<T> {
    /// Gives the new name `to` the list of `from`, in the block of `from`. It does what the command
    /// `Clone` does, and clones no element.
    ///
    /// Takes memory for the name alone.
    ///
    /// # Errors
    ///
    /// `NoName` if `from` doesn't exist; `Taken` if `to` exists; `Memory` if there is no memory for
    /// the name. Nothing changes then.
    pub fn share(&mut self, from: Name, to: Name) -> Outcome<T>
        ensures step { CountedStep self.old.names (VecCommand.Clone from to) result self.new.names }
        ensures verdict { CountedVerdict self.old.names
            (VecCommand.Clone from to) result self.new.names }
        ensures unchanged { OnRefused result (self.new ≡ self.old) }
        ensures sharing { IsSharing self.new.names }

        // The totals don't change, and what they count is paid for.
        ensures copied { self.new.copied ≡ self.old.copied }
        ensures moved { self.new.moved ≡ self.old.moved }
        ensures totals { TotalsArePaid self.old
            (VecCommand.Clone from to ∷ []) (result ∷ []) self.new }
    {
        self.blocks.join(from, to)
    }
}

impl<T: Clone> Counted<T> {
    /// Carries out one command.
    ///
    /// Costs what the command costs on a vector, and a look-up of each name. If a shared list is
    /// changed, its elements are copied first; `Truncate` and `Clear` copy only those that stay.
    ///
    /// # Errors
    ///
    /// `Outcome::Refused` with the first refusal that applies. Nothing changes then, and what the
    /// command carried is dropped.
    pub fn step(&mut self, command: VecCommand<T>) -> Outcome<T>
        ensures step { ClonesAreEqual T.is_clone
            → CountedStep self.old.names command result self.new.names }
        ensures verdict { CountedVerdict self.old.names command result self.new.names }
        ensures unchanged { OnRefused result (self.new ≡ self.old) }
        ensures sharing { IsSharing self.new.names }

        // If the command is accepted, the totals rise by what it cost.
        ensures copied { self.new.copied
            ≡ saturating self.old.copied
            (if_accepted result (copied_in (vec_usage command) self.old.names)) }
        ensures moved { self.new.moved
            ≡ saturating self.old.moved
            (if_accepted result (moved_in (vec_usage command) self.old.names)) }
        ensures totals { ClonesAreEqual T.is_clone
            → TotalsArePaid self.old (command ∷ []) (result ∷ []) self.new }
    {
        let Carried {
            outcome,
            copied,
            moved,
        } = self.blocks.carry_out(self.alloc, command.usage());
        self.copied = added(self.copied, copied);
        self.moved = added(self.moved, moved);
        outcome
    }

    /// Carries out commands in order, and returns the outcome of each.
    ///
    /// Takes memory for all outcomes first, and then what each command takes.
    ///
    /// # Errors
    ///
    /// `Memory` if there is no memory for the outcomes. No command is carried out then, and the
    /// commands come back in the error.
    pub fn run(
        &mut self,
        commands: Vec<VecCommand<T>>,
    ) -> Result<Vec<Outcome<T>>, Rejected<Vec<VecCommand<T>>>>
        ensures run { ClonesAreEqual T.is_clone
            → IfOk result
            (λ outcomes. CountedRun self.old.names commands.items outcomes.items self.new.names) }
        ensures contents { ClonesAreEqual T.is_clone
            → IfOk result
            (λ outcomes.
            RunBy ContentsStep self.old.names commands.items outcomes.items self.new.names) }
        ensures verdicts { IfOk result
            (λ outcomes.
            RunBy CountedVerdict self.old.names commands.items outcomes.items self.new.names) }
        ensures totals { ClonesAreEqual T.is_clone
            → IfOk result
            (λ outcomes. TotalsArePaid self.old commands.items outcomes.items self.new) }

        // Without memory for the outcomes, nothing is carried out.
        ensures refused { RejectsForMemory commands self.old result self.new }
    {
        let Ok(mut outcomes) = Vec::with_capacity(self.alloc, commands.len()) else {
            return Err(Rejected {
                error: EcoError::Memory,
                value: commands,
            });
        };
        let mut rest = commands.into_iter();
        while let Some(command) = rest.next() {
            let outcome = self.step(command);
            outcomes.push_reserved(outcome);
        }
        Ok(outcomes)
    }
}
