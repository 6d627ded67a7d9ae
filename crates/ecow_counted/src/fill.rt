//! Making a new list and filling it item by item.
ghost use Rattle.std.specs.Prelude.{◌≡◌, ◌+◌, ◌*◌, ◌≤◌, None, Some, IsSome, IfNone, length};
ghost use Rattle.std.specs.FinMap as finite;
ghost use Rattle.ecow_base.specs.Clones.{ClonesAreEqual};
ghost use Rattle.ecow_counted.specs.Filling.{IsFilled};
ghost use Rattle.ecow_model.specs.declared.command.Refusal.{Refusal};

use crate::Counted;
use ecow_model::{Name, Outcome, Refusal, VecCommand};

/// How many items were put into a new list, and why no more were.
#[derive(Clone, Copy, Drop)]
pub struct Filled {
    /// How many items were pushed.
    pub accepted: usize,
    /// Why the name could not be made, or the next item could not be pushed; `None` if all items
    /// were pushed.
    pub refusal: Option<Refusal>,
}

impl<T: Clone> Counted<T> {
    /// Makes the new name `name` with an empty list, and pushes the items one by one until one is
    /// refused. The items from there on are dropped.
    ///
    /// Takes constant time for each item on average, and a look-up of the name.
    ///
    /// # Errors
    ///
    /// The result has the first refusal: `Taken` if the name exists; `Memory` if there is no memory
    /// for the name or for a larger block; `Capacity` if the list has 2^63 - 1 items. If the name
    /// can't be made, nothing changes. If an item is refused, the name and the items before it
    /// stay.
    pub fn fill(&mut self, name: Name, items: Vec<T>) -> Filled
        ensures run { ClonesAreEqual T.is_clone
            → IsFilled self.old name items.items result self.new }
        ensures taken { IsSome (finite.get self.old.names name) → (result.accepted ≡ 0)
            × (result.refusal ≡ Some Refusal.Taken) × (self.new ≡ self.old) }
        ensures unchanged { result.refusal ≡ Some Refusal.Memory
            → finite.get self.new.names name ≡ None → self.new ≡ self.old }
        ensures bounded { result.accepted ≤ length items.items }
        ensures all { IfNone result.refusal (result.accepted ≡ length items.items) }
        ensures moves { ClonesAreEqual T.is_clone
            → self.new.moved ≤ self.old.moved + 2 * result.accepted }
    {
        // For the proof alone: a property that a table of blocks always has.
        let _sharing = self.blocks();
        if let Outcome::Refused(refusal) = self.step(VecCommand::New { name }) {
            return Filled {
                accepted: 0,
                refusal: Some(refusal),
            };
        }
        let mut accepted = 0;
        let mut rest = items.into_iter();
        while let Some(value) = rest.next() {
            if let Outcome::Refused(refusal) = self.step(VecCommand::Push { name, value }) {
                return Filled {
                    accepted,
                    refusal: Some(refusal),
                };
            }
            accepted += 1;
        }
        Filled {
            accepted,
            refusal: None,
        }
    }
}
