//! A value with its past and its future, in two vectors. A step changes both or neither: it
//! reserves the capacity that it needs before it writes anything.
ghost use Rattle.std.specs.Prelude.{◌≡◌, [], true, false, IfOk, OnErr, OnOk};
ghost use Rattle.ecow_base.specs.Clones.{ClonesAreEqual};
ghost use Rattle.ecow_uses.specs.History.{edited, IsUndone};

use ecow_list::{EcoError, EcoVec};
use std::alloc::Global;
use std::marker::Model;
use std::mem::{replace, swap};

/// A value, with its earlier values and its undone values, each with the latest last.
#[derive(Drop)]
pub struct Versions<T> {
    past: EcoVec<T>,
    present: T,
    future: EcoVec<T>,
}

impl<T> Model for Versions<T> {
    ghost use Rattle.ecow_uses.specs.History.{Timeline};

    ghost Value = { Timeline T };

    ghost view = { λ v. record { present = v.present; past = v.past; future = v.future } };
}

impl<T: Clone> Versions<T> {
    /// Makes a value without a past. Takes no memory.
    pub fn new(alloc: Global, present: T) -> Self
        ensures past { result.past ≡ [] }
        ensures present { result.present ≡ present }
        ensures future { result.future ≡ [] }
    {
        Versions {
            past: EcoVec::new(alloc),
            present,
            future: EcoVec::new(alloc),
        }
    }

    /// The present value.
    pub fn present(&self) -> &T
        ensures { result.now ≡ self.now.present }
    {
        &self.present
    }

    /// Sets another value. The old one goes to the past, and nothing can be redone any more. If it
    /// is refused, nothing changes.
    pub fn set(&mut self, value: T) -> Result<(), EcoError>
        ensures done { ClonesAreEqual T.is_clone → OnOk result (self.new ≡ edited self.old value) }
        ensures unchanged { ClonesAreEqual T.is_clone → OnErr result (self.new ≡ self.old) }
    {
        let past = self.past.own_with_room(1)?;
        past.push_within_capacity(replace(&mut self.present, value));
        self.future.clear();
        Ok(())
    }

    /// Goes back by one: the last of the past is the present again, and the old present goes to the
    /// future. `false` if there is no past. If it is refused, nothing changes.
    #[tactic(auto, using(ecow_list::proofs::Popped::popped))]
    pub fn undo(&mut self) -> Result<bool, EcoError>
        ensures undone { ClonesAreEqual T.is_clone
            → IfOk result (λ done. done ≡ true → IsUndone self.old self.new) }
        ensures nothing { ClonesAreEqual T.is_clone → IfOk result (λ done. done ≡ false
            → (self.old.past ≡ []) × (self.new ≡ self.old)) }
        ensures unchanged { ClonesAreEqual T.is_clone → OnErr result (self.new ≡ self.old) }
    {
        let past = match self.past.own_mut() {
            Ok(block) => block,
            Err(None) => return Ok(false),
            Err(Some(error)) => return Err(error),
        };
        let future = self.future.own_with_room(1)?;
        if let Some(last) = past.pop() {
            future.push_within_capacity(replace(&mut self.present, last));
        }
        Ok(true)
    }

    /// Goes forward by one: what was undone last is the present again, and the old present goes to
    /// the past. `false` if there is no future. If it is refused, nothing changes.
    pub fn redo(&mut self) -> Result<bool, EcoError>
        ensures redone { ClonesAreEqual T.is_clone
            → IfOk result (λ done. done ≡ true → IsUndone self.new self.old) }
        ensures nothing { ClonesAreEqual T.is_clone → IfOk result (λ done. done ≡ false
            → (self.old.future ≡ []) × (self.new ≡ self.old)) }
        ensures unchanged { ClonesAreEqual T.is_clone → OnErr result (self.new ≡ self.old) }
    {
        // A step forward is a step back with the two vectors exchanged.
        swap(&mut self.past, &mut self.future);
        let done = self.undo();
        swap(&mut self.past, &mut self.future);
        done
    }
}
