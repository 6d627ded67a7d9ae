//! Named lists in shared blocks. A table has each block with the number of names that share it, and
//! each name has the place of its block in the table. The names that share a block are a group.
ghost use Rattle.std.specs.Prelude.{◌≡◌, ◌≢◌, ℕ, ◌+◌, ◌-◌, ◌<◌, ◌≤◌, ◌^◌, [], length, true, IsSome, IsOk, IfSome, OnOk, OnErr, Some, None};
ghost use Rattle.std.specs.FinMap as finite;
ghost use Rattle.std.specs.Option.{option_copied, option_map};
ghost use Rattle.slab.specs.Slab.{ContainsKey, HasRoomFor, get, slab_len};
ghost use Rattle.ecow_model.specs.CountedRun.{holding_at, nothing};
ghost use Rattle.ecow_model.specs.Names.{IsSharing, blocks, forget, join, settle};
ghost use Rattle.ecow_counted.specs.declared.blocks.Entry.{Entry};
ghost use Rattle.ecow_counted.specs.Places.{entry_in};
ghost use Rattle.ecow_counted.specs.Sizes.{size_of, sole_block};

use ecow_base::MAX_LEN;
use ecow_block::Block;
use ecow_model::Name;
use ecow_table::Table;
use slab::Slab;
use std::alloc::{AllocError, Global};
use std::marker::Model;

/// A block, and how many names share it.
#[derive(Drop)]
struct Entry<T> {
    /// Its capacity isn't 0: a name without capacity has no entry.
    block: Block<T>,
    /// It is at least 1.
    owners: usize,
}

/// The length and the capacity of a name's list, and how many names share its block. All three are
/// 0 if the name has no block.
#[derive(Clone, Copy)]
pub(crate) struct Size {
    pub len: usize,
    pub capacity: usize,
    pub owners: usize,
}

/// Named lists. Several names can share a block.
#[derive(Drop)]
pub(crate) struct Blocks<T> {
    /// For each name, the place of its block in `table`, if it has one.
    places: Table<Option<usize>>,
    /// All blocks, each of them once.
    table: Slab<Entry<T>>,
}

impl<T> Model for Blocks<T> {
    ghost use Rattle.ecow_counted.specs.Standing.{Standing, standing_code};

    ghost Value = { Standing T };

    ghost coded = { standing_code T.code };

    ghost use Rattle.ecow_counted.specs.Places.{names_of, has_room, IsTable};

    ghost view = { λ a. record { names = names_of a.places a.table; has_room = has_room a.table } };

    ghost invariant = { λ a. IsTable a.places a.table };
}

impl<T> Blocks<T> {
    /// A table without names. Takes no memory.
    pub fn new(alloc: Global) -> Self
        ensures { result.names ≡ finite.empty }
    {
        Blocks {
            places: Table::new(alloc),
            table: Slab::new(alloc),
        }
    }

    /// The number of blocks.
    pub fn count(&self) -> usize
        ensures count { result ≡ blocks self.now.names }
        ensures sharing { IsSharing self.now.names }
    {
        self.table.len()
    }

    /// Whether the name exists.
    pub fn contains(&self, name: Name) -> bool
        ensures { result ≡ finite.contains_key self.now.names name }
    {
        self.places.contains(name)
    }

    /// The size of the list of a name, if the name exists.
    pub fn size(&self, name: Name) -> Option<Size>
        ensures size { result ≡ option_map size_of (finite.get self.now.names name) }
        ensures bounds { IfSome result (λ size. (size.len ≤ size.capacity)
            × (size.capacity ≤ MAX_LEN)) }
        ensures backed { IfSome result (λ size. 0 < size.owners → 0 < size.capacity) }
        ensures sharing { IsSharing self.now.names }
    {
        if !self.places.contains(name) {
            return None;
        }
        match entry_of(&self.places, &self.table, name) {
            Some(entry) => Some(Size {
                len: entry.block.len(),
                capacity: entry.block.capacity(),
                owners: entry.owners,
            }),
            None => Some(Size {
                len: 0,
                capacity: 0,
                owners: 0,
            }),
        }
    }

    /// The elements of the list of a name. There are none if the name doesn't exist.
    pub fn elements(&self, name: Name) -> &[T]
        ensures { result.now ≡ (holding_at self.now.names name).items }
    {
        match entry_of(&self.places, &self.table, name) {
            Some(entry) => entry.block.as_slice(),
            None => &[],
        }
    }

    /// Makes sure that the table has a free place for another block. Never refused if it has one.
    pub fn reserve(&mut self) -> Result<(), AllocError>
        ensures names { self.new.names ≡ self.old.names }
        ensures room { OnOk result (self.new.has_room ≡ true) }
        ensures free { self.old.has_room ≡ true → IsOk result }
    {
        self.table.reserve(1)
    }

    /// Makes a name with an empty list and no block. If there is no memory, nothing changes.
    pub fn begin(&mut self, name: Name) -> Result<(), AllocError>
        requires free { finite.get self.old.names name ≡ None }
        ensures ok { OnOk result (self.new.names ≡ settle name [] 0 self.old.names) }
        ensures unchanged { OnErr result (self.new.names ≡ self.old.names) }
        ensures room { self.new.has_room ≡ self.old.has_room }
        ensures sharing { IsSharing self.new.names }
    {
        self.places.insert(name, None)?;
        Ok(())
    }

    /// Removes a name that has no block. Takes no memory.
    pub fn remove(&mut self, name: Name)
        requires bare { finite.get self.old.names name ≡ Some nothing }
        ensures names { self.new.names ≡ forget name self.old.names }
        ensures sharing { IsSharing self.new.names }
    {
        let _none = self.places.remove(name);
    }

    /// Gives a name without a block a block of its own. The table must have a free place for it.
    pub fn place(&mut self, name: Name, block: Block<T>)
        requires bare { finite.get self.old.names name ≡ Some nothing }
        requires room { self.old.has_room ≡ true }
        requires backed { 0 < block.capacity }
        ensures names { self.new.names ≡ settle name block.items block.capacity self.old.names }
        ensures sharing { IsSharing self.new.names }
    {
        // For the proof alone: a block has no more elements than places.
        let _fits = block.len();
        let place = self.table.insert_reserved(Entry { block, owners: 1 });
        set_place(&mut self.places, name, Some(place));
    }

    /// Takes a name out of its group, so that it has an empty list and no block. Returns the block
    /// if no other name has it, and the table then has a free place for another. Takes no memory.
    pub fn take(&mut self, name: Name) -> Option<Block<T>>
        requires there { IsSome (finite.get self.old.names name) }
        ensures names { self.new.names ≡ settle name [] 0 self.old.names }
        ensures block { result ≡ sole_block (finite.get self.old.names name) }

        // The table has a free place if it had one before, or if the block is returned.
        ensures room { IsSome result → self.new.has_room ≡ true }
        ensures room_kept { self.old.has_room ≡ true → self.new.has_room ≡ true }
        ensures sharing { IsSharing self.new.names }
    {
        match place_of(&self.places, name) {
            Some(place) => {
                set_place(&mut self.places, name, None);
                drop_owner(&mut self.table, place)
            }
            None => None,
        }
    }

    /// Puts the new name `to` into the group of `from`, with its list and its block. If there is no
    /// memory, nothing changes.
    pub fn share(&mut self, from: Name, to: Name) -> Result<(), AllocError>
        requires there { IsSome (finite.get self.old.names from) }
        requires free { finite.get self.old.names to ≡ None }
        ensures ok { OnOk result
            (self.new.names ≡ join from to (holding_at self.old.names from) self.old.names) }
        ensures unchanged { OnErr result (self.new.names ≡ self.old.names) }
        ensures sharing { IsSharing self.new.names }
    {
        let place = place_of(&self.places, from);
        self.places.insert(to, place)?;
        if let Some(place) = place {
            add_owner(&mut self.table, place);
        }
        Ok(())
    }
}

impl<T: Drop> Blocks<T> {
    /// Makes a name with this block, or without a block if its capacity is 0. If there is no
    /// memory, nothing changes.
    pub fn make(&mut self, name: Name, block: Block<T>) -> Result<(), AllocError>
        requires free { finite.get self.old.names name ≡ None }
        ensures ok { OnOk result
            (self.new.names ≡ settle name block.items block.capacity self.old.names) }
        ensures unchanged { OnErr result (self.new.names ≡ self.old.names) }
        ensures sharing { IsSharing self.old.names → IsSharing self.new.names }
    {
        if block.capacity() == 0 {
            return self.begin(name);
        }
        self.reserve()?;
        self.begin(name)?;
        self.place(name, block);
        Ok(())
    }

    /// Gives a name this block in place of its old one, or no block if the capacity is 0. The table
    /// must have a free place for the block. Takes no memory.
    pub fn settle(&mut self, name: Name, block: Block<T>)
        requires there { IsSome (finite.get self.old.names name) }
        requires room { 0 < block.capacity → self.old.has_room ≡ true }
        ensures names { self.new.names ≡ settle name block.items block.capacity self.old.names }
        ensures sharing { IsSharing self.new.names }
    {
        let _old = self.take(name);
        if block.capacity() > 0 {
            self.place(name, block);
        }
    }

    /// Removes a name, and drops its block if no other name has it. Takes no memory.
    pub fn drop_name(&mut self, name: Name)
        requires there { IsSome (finite.get self.old.names name) }
        ensures names { self.new.names ≡ forget name self.old.names }
        ensures sharing { IsSharing self.new.names }
    {
        let _last = self.take(name);
        self.remove(name);
    }
}

/// The place of the block of a name that exists, if it has a block.
fn place_of(places: &Table<Option<usize>>, name: Name) -> Option<usize>
    requires { IsSome (finite.get places.now name) }
    ensures { finite.get places.now name ≡ Some result }
{
    *places.get(name).unwrap()
}

/// Sets the place of the block of a name that exists.
fn set_place(places: &mut Table<Option<usize>>, name: Name, place: Option<usize>)
    requires { IsSome (finite.get places.old name) }
    ensures { places.new ≡ finite.insert places.old name place }
{
    if let Some(own) = places.get_mut(name) {
        *own = place;
    }
}

/// The entry of a name, if the name exists and has a block.
fn entry_of<'a, T>(
    places: &Table<Option<usize>>,
    table: &'a Slab<Entry<T>>,
    name: Name,
) -> Option<&'a Entry<T>>
    ensures { option_copied result ≡ entry_in table.now (finite.get places.now name) }
{
    match places.get(name) {
        Some(Some(place)) => table.get(*place),
        _ => None,
    }
}

/// Counts one more name for the block at `place`.
fn add_owner<T>(table: &mut Slab<Entry<T>>, place: usize)
    requires there { ContainsKey table.old place }
    requires room { (entry : Entry T) → get table.old place ≡ Some entry
        → entry.owners + 1 < 2 ^ 64 }
    ensures counted { (entry : Entry T) → get table.old place ≡ Some entry
        → get table.new place ≡ Some (record { block = entry.block; owners = entry.owners + 1 }) }
    ensures others { (other : ℕ) → other ≢ place → get table.new other ≡ get table.old other }
    ensures len { slab_len table.new ≡ slab_len table.old }
{
    if let Some(entry) = table.get_mut(place) {
        entry.owners += 1;
    }
}

/// Counts one name less for the block at `place`, and takes the block out if it has no name left.
fn drop_owner<T>(table: &mut Slab<Entry<T>>, place: usize) -> Option<Block<T>>
    requires there { ContainsKey table.old place }
    requires some { (entry : Entry T) → get table.old place ≡ Some entry → 0 < entry.owners }

    // The block is returned only when its last name leaves it.
    ensures last { (entry : Entry T) → get table.old place ≡ Some entry → entry.owners ≡ 1
        → (result ≡ Some entry.block) × (get table.new place ≡ None)
        × (slab_len table.new + 1 ≡ slab_len table.old) × HasRoomFor table.new 1 }
    ensures counted { (entry : Entry T) → get table.old place ≡ Some entry → 1 < entry.owners
        → (result ≡ None)
        × (get table.new place ≡ Some (record { block = entry.block; owners = entry.owners - 1 }))
        × (slab_len table.new ≡ slab_len table.old) }

    // All other places stay as they are.
    ensures others { (other : ℕ) → other ≢ place → get table.new other ≡ get table.old other }
    ensures room { HasRoomFor table.old 1 → HasRoomFor table.new 1 }
{
    let Entry { block, owners } = table.remove(place);
    if owners == 1 {
        return Some(block);
    }
    table.insert_reserved(Entry {
        block,
        owners: owners - 1,
    });
    None
}
