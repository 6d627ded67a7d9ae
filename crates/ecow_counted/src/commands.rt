//! Commands by their parts, on names in a table of blocks.
ghost use Rattle.std.specs.Prelude.{◌≡◌, [], Ok, IfOk, IfErr};
ghost use Rattle.ecow_base.specs.Clones.{ClonesAreEqual};
ghost use Rattle.ecow_block.specs.Contents.{contents};
ghost use Rattle.ecow_model.specs.Costs.{make_capacity};
ghost use Rattle.ecow_model.specs.CountedRun.{IsCountedUse, IsCountedVerdict};
ghost use Rattle.ecow_model.specs.Vecs.{make_vec};
ghost use Rattle.ecow_model.specs.Names.{IsSharing};
ghost use Rattle.ecow_model.specs.Refusing.{OnRefused};
ghost use Rattle.ecow_model.specs.Uses.{IsRefusedAlike};
ghost use Rattle.ecow_model.specs.declared.command.Refusal.{Refusal};
ghost use Rattle.ecow_model.specs.declared.vecs.VecDerive.{VecDerive};
ghost use Rattle.ecow_model.specs.declared.usage.Usage.{Usage};
ghost use Rattle.ecow_counted.specs.Carrying.{IsCarried, still};
ghost use Rattle.ecow_counted.specs.Edits.{unchanged as is_unchanged};

use crate::apply::{Spare, apply};
use crate::blocks::Blocks;
use crate::costs::{capacity, copies, staying, unshares};
use crate::own::{Owned, Want};
use ecow_base::{MAX_LEN, fresh_capacity};
use ecow_block::Block;
use ecow_model::usage::Usage;
use ecow_model::vecs::{VecAsk, VecEdit, VecMake, VecUsage};
use ecow_model::{Items, Name, Outcome, Refusal};
use std::alloc::Global;

/// The outcome of a command, and how many elements it copied and moved.
#[derive(Drop)]
pub(crate) struct Carried<T> {
    /// The outcome of the command.
    pub outcome: Outcome<T>,
    /// How many elements it copied.
    pub copied: usize,
    /// How many elements it moved to a larger block.
    pub moved: usize,
}

impl<T> Carried<T> {
    /// An outcome of a command that copied and moved nothing.
    fn still(outcome: Outcome<T>) -> Self
        ensures { result ≡ still outcome }
    {
        Carried {
            outcome,
            copied: 0,
            moved: 0,
        }
    }
}

impl<T> Blocks<T> {
    /// Puts the new name `to` into the group of `from`, as the command `Clone` does.
    pub fn join(&mut self, from: Name, to: Name) -> Outcome<T>
        ensures step { IsCountedUse self.old.names
            (Usage.Derive from to VecDerive.Clone) result self.new.names }
        ensures verdict { IsCountedVerdict self.old.names
            (Usage.Derive from to VecDerive.Clone) result }
        ensures unchanged { OnRefused result (self.new.names ≡ self.old.names) }
        ensures sharing { IsSharing self.old.names → IsSharing self.new.names }
    {
        if !self.contains(from) {
            return Outcome::Refused(Refusal::NoName);
        }
        if self.contains(to) {
            return Outcome::Refused(Refusal::Taken);
        }
        match self.share(from, to) {
            Ok(()) => Outcome::Done,
            Err(_) => Outcome::Refused(Refusal::Memory),
        }
    }
}

impl<T: Drop> Blocks<T> {
    /// Removes a name.
    fn leave(&mut self, name: Name) -> Outcome<T>
        ensures step { IsCountedUse self.old.names (Usage.Drop name) result self.new.names }
        ensures verdict { IsCountedVerdict self.old.names (Usage.Drop name) result }
        ensures unchanged { OnRefused result (self.new.names ≡ self.old.names) }
        ensures sharing { IsSharing self.old.names → IsSharing self.new.names }
    {
        if !self.contains(name) {
            return Outcome::Refused(Refusal::NoName);
        }
        self.drop_name(name);
        Outcome::Done
    }
}

impl<T: Clone> Blocks<T> {
    /// Makes a list under a new name.
    fn begin_list(&mut self, alloc: Global, name: Name, how: VecMake<T>) -> Outcome<T>
        ensures step { ClonesAreEqual T.is_clone
            → IsCountedUse self.old.names (Usage.Make name how) result self.new.names }
        ensures verdict { IsCountedVerdict self.old.names (Usage.Make name how) result }
        ensures unchanged { OnRefused result (self.new.names ≡ self.old.names) }
        ensures sharing { IsSharing self.old.names → IsSharing self.new.names }
    {
        if self.contains(name) {
            return Outcome::Refused(Refusal::Taken);
        }
        let block = match new_block(alloc, how) {
            Ok(block) => block,
            Err(refusal) => return Outcome::Refused(refusal),
        };
        match self.make(name, block) {
            Ok(()) => Outcome::Done,
            Err(_) => Outcome::Refused(Refusal::Memory),
        }
    }

    /// Answers a question about the list of a name.
    fn ask(&self, alloc: Global, name: Name, question: VecAsk) -> Outcome<T>
        ensures step { ClonesAreEqual T.is_clone
            → IsCountedUse self.now.names (Usage.Ask name question) result self.now.names }
        ensures verdict { IsCountedVerdict self.now.names (Usage.Ask name question) result }
    {
        let Some(size) = self.size(name) else {
            return Outcome::Refused(Refusal::NoName);
        };
        match question {
            VecAsk::Len => Outcome::Count(size.len),
            VecAsk::Capacity => Outcome::Count(size.capacity),
            VecAsk::Unique => Outcome::Flag(size.owners <= 1),
            VecAsk::Read(index) => match self.elements(name).get(index) {
                None => Outcome::Refused(Refusal::Index),
                Some(element) => match element.clone() {
                    Ok(copy) => Outcome::Element(copy),
                    Err(_) => Outcome::Refused(Refusal::Memory),
                },
            },
            VecAsk::Contents => match Items::from_slice(alloc, self.elements(name)) {
                Ok(elements) => Outcome::Elements(elements),
                Err(_) => Outcome::Refused(Refusal::Memory),
            },
        }
    }

    /// Changes the list of a name, in a block of its own. All memory and all clones that could be
    /// refused are taken before the change.
    fn edit(&mut self, alloc: Global, name: Name, edit: VecEdit<T>) -> Carried<T>
        ensures carried { IsCarried (ClonesAreEqual T.is_clone) self.old.names
            (Usage.Edit name edit) result self.new.names }
        ensures sharing { IsSharing self.old.names → IsSharing self.new.names }
    {
        let Some(size) = self.size(name) else {
            return Carried::still(Outcome::Refused(Refusal::NoName));
        };
        if let Err(refusal) = edit.check(size.len) {
            return Carried::still(Outcome::Refused(refusal));
        }
        if size.owners > 1 && !unshares(&edit, size.len) {
            return Carried::still(no_change(edit));
        }
        let want = Want {
            copies: copies(&edit, size.len),
            staying: staying(&edit, size.len),
            capacity: capacity(&edit, size),
        };
        let Ok(spare) = Spare::new(alloc, &edit, size.len) else {
            return Carried::still(Outcome::Refused(Refusal::Memory));
        };
        let Ok(own) = self.own(alloc, name, want) else {
            return Carried::still(Outcome::Refused(Refusal::Memory));
        };
        let Owned {
            block,
            copied,
            moved,
        } = own;
        let mut block = block;
        let outcome = apply(&mut block, edit, spare);
        self.settle(name, block);
        Carried {
            outcome,
            copied,
            moved,
        }
    }

    /// Carries out one command by its parts. A refused command changes nothing.
    pub fn carry_out(&mut self, alloc: Global, usage: VecUsage<T>) -> Carried<T>
        ensures carried { IsCarried
            (ClonesAreEqual T.is_clone) self.old.names usage result self.new.names }
        ensures sharing { IsSharing self.old.names → IsSharing self.new.names }
    {
        match usage {
            Usage::Make { name, how } => Carried::still(self.begin_list(alloc, name, how)),
            Usage::Derive { from, to, how: _ } => Carried::still(self.join(from, to)),
            Usage::Drop { name } => Carried::still(self.leave(name)),
            Usage::Edit { name, edit } => self.edit(alloc, name, edit),
            Usage::Ask { name, question } => Carried::still(self.ask(alloc, name, question)),
        }
    }
}

/// The outcome of a change that changes nothing and leaves a shared block as it is.
fn no_change<T: Drop>(edit: VecEdit<T>) -> Outcome<T>
    ensures outcome { result ≡ is_unchanged edit }
    ensures accepted { OnRefused result ⊥ }
{
    match edit {
        VecEdit::Pop => Outcome::Popped(None),
        _ => Outcome::Done,
    }
}

/// A new list in a block with exactly the capacity that the command asks for, or the refusal.
fn new_block<T: Clone>(alloc: Global, how: VecMake<T>) -> Result<Block<T>, Refusal>
    ensures items { ClonesAreEqual T.is_clone
        → IfOk result (λ block. make_vec how ≡ Ok block.items) }
    ensures verdict { IsRefusedAlike (make_vec how) result }
    ensures capacity { IfOk result (λ block. block.capacity ≡ make_capacity how) }
{
    match how {
        VecMake::New => Ok(Block::new(alloc)),
        VecMake::WithCapacity(capacity) => {
            if capacity > MAX_LEN {
                return Err(Refusal::Capacity);
            }
            empty(alloc, capacity)
        }
        VecMake::FromList(items) => {
            let len = items.len();
            if len > MAX_LEN {
                return Err(Refusal::Capacity);
            }
            let mut block = empty(alloc, fresh_capacity(len))?;
            block.fill_within_capacity(items.into_vec());
            Ok(block)
        }
        VecMake::FromElem(value, n) => {
            if n > MAX_LEN {
                return Err(Refusal::Capacity);
            }
            match Block::from_elem(alloc, &value, n) {
                Ok(block) => Ok(block),
                Err(_) => Err(Refusal::Memory),
            }
        }
    }
}

/// An empty block with exactly this capacity.
fn empty<T>(alloc: Global, capacity: usize) -> Result<Block<T>, Refusal>
    ensures block { IfOk result (λ block. block ≡ contents [] capacity) }
    ensures memory { IfErr result (λ refusal. refusal ≡ Refusal.Memory) }
{
    match Block::with_capacity(alloc, capacity) {
        Ok(block) => Ok(block),
        Err(_) => Err(Refusal::Memory),
    }
}
