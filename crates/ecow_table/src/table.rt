//! A finite map from names to values.
ghost use Rattle.std.specs.Prelude.{◌≡◌, ◌<◌, ◌^◌, ℕ, List, OnOk, OnErr, length};
ghost use Rattle.std.specs.Borrow.{sem};
ghost use Rattle.std.specs.FinMap as map;
ghost use Rattle.std.specs.Option.{option_copied, option_copied_mut};
ghost use Rattle.ecow_table.specs.Loans.{LendsValue};
ghost use Rattle.ecow_table.specs.Tables.{values_of};

use crate::Name;
use std::alloc::{AllocError, Global};
use std::collections::BTreeMap;
use std::marker::Model;

/// The number of names that have slots, which are the names below it.
const SLOTS: Name = 65536;

/// A finite map from names to values. Contracts see the value of each name.
///
/// A name below 65536 has the slot of its number, so names numbered from 0 are found at once,
/// whoever chose them. The other names are in a tree.
#[derive(Drop)]
pub struct Table<V> {
    /// The values of the names below 65536, each in the slot of its name.
    slots: Vec<Option<V>>,
    /// The values of the other names.
    others: BTreeMap<Name, V>,
}

impl<V> Model for Table<V> {
    ghost use Rattle.std.specs.Coded.{coded_ℕ};
    ghost use Rattle.std.specs.FinMap as map;
    ghost use Rattle.std.specs.Ordering.{nat_cmp};
    ghost use Rattle.ecow_table.specs.Tables.{values_of};

    ghost Value = { map.FinMap nat_cmp V };

    ghost coded = { map.code coded_ℕ V.code };

    ghost view = { λ a. values_of a.slots.items a.others.entries };
}

impl<V> Table<V> {
    /// Makes an empty map. Takes no memory.
    pub fn new(alloc: Global) -> Self
        ensures { result ≡ map.empty }
    {
        Table {
            slots: Vec::new(alloc),
            others: BTreeMap::new(alloc),
        }
    }

    /// Whether the name has a value.
    #[inline]
    pub fn contains(&self, name: Name) -> bool
        ensures { result ≡ map.contains_key self.now name }
    {
        self.get(name).is_some()
    }

    /// The value of the name, or `None` if it has none.
    #[inline]
    pub fn get(&self, name: Name) -> Option<&V>
        ensures { option_copied result ≡ map.get self.now name }
    {
        if name < SLOTS {
            self.slots.as_slice().get(name as usize)?.as_ref()
        } else {
            self.others.get(&name)
        }
    }

    /// The value of the name, for writing, or `None` if it has none.
    #[inline]
    pub fn get_mut(&mut self, name: Name) -> Option<&mut V>
        ensures* writes_back { sem 𝓛 (LendsValue V.row self.entry name result) }
        ensures value { option_copied_mut result ≡ map.get self.old name }
    {
        if name < SLOTS {
            self.slots.get_mut(name as usize)?.as_mut()
        } else {
            self.others.get_mut(&name)
        }
    }
}

impl<V: Drop> Table<V> {
    /// Gives the name the value `value`, in place of its old value if it has one. There are always
    /// fewer than 2^64 names.
    ///
    /// If there is no memory for the name, no name's value changes, and `value` is dropped.
    #[inline]
    pub fn insert(&mut self, name: Name, value: V) -> Result<(), AllocError>
        ensures ok { OnOk result (self.new ≡ map.insert self.old name value) }
        ensures unchanged { OnErr result (self.new ≡ self.old) }
        ensures countable { map.len self.new < 2 ^ 64 }
    {
        // For the proof: a tree has fewer than 2^63 names.
        let _others = self.others.len();
        if name < SLOTS {
            reach(&mut self.slots, name as usize)?;
            self.slots[name as usize] = Some(value);
        } else {
            self.others.insert(name, value)?;
        }
        Ok(())
    }

    /// Removes the name and returns its value, or `None` if it has none. Takes no memory.
    #[inline]
    pub fn remove(&mut self, name: Name) -> Option<V>
        ensures value { result ≡ map.get self.old name }
        ensures removed { self.new ≡ map.remove self.old name }
    {
        if name < SLOTS {
            self.slots.get_mut(name as usize)?.take()
        } else {
            self.others.remove(&name)
        }
    }
}

/// Adds empty slots until there is one at `place`. If there is no memory for all, those that were
/// added stay.
#[inline]
fn reach<V: Drop>(slots: &mut Vec<Option<V>>, place: usize) -> Result<(), AllocError>
    ensures there { OnOk result (place < length slots.new.items) }
    ensures kept { (others : List (ℕ × V))
        → values_of slots.new.items others ≡ values_of slots.old.items others }
{
    while slots.len() <= place {
        slots.push(None)?;
    }
    Ok(())
}
