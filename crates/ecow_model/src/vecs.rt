//! The commands on lists, and their parts.
ghost use Rattle.std.specs.Prelude.{◌≡◌, List, length};
ghost use Rattle.ecow_model.specs.Vecs.{edit_vec, vec_usage};
ghost use Rattle.ecow_model.specs.Refusing.{verdict};

use crate::command::{Bounds, Name, Refusal};
use crate::usage::{Usage, allowed, in_bounds, usage_of};
use ecow_base::{Items, resolve};

/// A command on a list of elements. Counts and indexes are of elements.
#[derive(Drop)]
pub enum VecCommand<T> {
    /// An empty list without capacity.
    New {
        name: Name,
    },
    /// An empty list that asks for capacity for `capacity` elements.
    WithCapacity {
        name: Name,
        capacity: usize,
    },
    /// A list of `items`, none of them cloned.
    FromList {
        name: Name,
        items: Items<T>,
    },
    /// A list of `n` clones of `value`.
    FromElem {
        name: Name,
        value: T,
        n: usize,
    },
    /// Under `to`, a clone of the list of `from`.
    Clone {
        from: Name,
        to: Name,
    },
    /// Drops the list. The name no longer exists.
    Drop {
        name: Name,
    },
    /// Appends `value`.
    Push {
        name: Name,
        value: T,
    },
    /// Takes the last element. Answers `Popped`.
    Pop {
        name: Name,
    },
    /// Inserts `value` at `index`, which is at most the length.
    Insert {
        name: Name,
        index: usize,
        value: T,
    },
    /// Takes the element at `index`. Answers `Element`.
    Remove {
        name: Name,
        index: usize,
    },
    /// Keeps the first `target` elements, or all if there are fewer.
    Truncate {
        name: Name,
        target: usize,
    },
    /// Keeps no element.
    Clear {
        name: Name,
    },
    /// Keeps the elements that are marked true; there is a mark for each element.
    Retain {
        name: Name,
        marks: Items<bool>,
    },
    /// Takes the elements within `bounds`. Answers `Elements`.
    Drain {
        name: Name,
        bounds: Bounds,
    },
    /// Replaces the elements within `bounds` with `items`. Answers the old ones: `Elements`.
    Splice {
        name: Name,
        bounds: Bounds,
        items: Items<T>,
    },
    /// Appends clones of `items`.
    Extend {
        name: Name,
        items: Items<T>,
    },
    /// Asks for capacity for `additional` more elements.
    Reserve {
        name: Name,
        additional: usize,
    },
    /// Replaces the element at `index` with `value`.
    Write {
        name: Name,
        index: usize,
        value: T,
    },
    /// Answers a clone of the element at `index`: `Element`.
    Read {
        name: Name,
        index: usize,
    },
    /// Answers the number of elements: `Count`.
    Len {
        name: Name,
    },
    /// Answers clones of all elements: `Elements`.
    Contents {
        name: Name,
    },
    /// Answers the capacity: `Count`.
    Capacity {
        name: Name,
    },
    /// Answers whether no other name shares the block: `Flag`.
    Unique {
        name: Name,
    },
}

/// How a list is made.
#[derive(Drop)]
pub enum VecMake<T> {
    New,
    WithCapacity(usize),
    FromList(Items<T>),
    FromElem(T, usize),
}

/// How a list is made from another value.
#[derive(Clone, Copy)]
pub enum VecDerive {
    Clone,
}

/// A change of a list.
#[derive(Drop)]
pub enum VecEdit<T> {
    Push(T),
    Pop,
    Insert(usize, T),
    Remove(usize),
    Truncate(usize),
    Clear,
    Retain(Items<bool>),
    Drain(Bounds),
    Splice(Bounds, Items<T>),
    Extend(Items<T>),
    Reserve(usize),
    Write(usize, T),
}

/// A question about a list.
#[derive(Clone, Copy)]
pub enum VecAsk {
    Read(usize),
    Len,
    Contents,
    Capacity,
    Unique,
}

/// A command on lists, by its parts.
pub type VecUsage<T> = Usage<VecMake<T>, VecDerive, VecEdit<T>, VecAsk>;

impl<T> VecCommand<T> {
    /// The parts of the command.
    pub fn usage(self) -> VecUsage<T>
        ensures { result ≡ vec_usage self }
    {
        usage_of!(self, VecCommand {
            VecMake { New WithCapacity(capacity) FromList(items) FromElem(value, n) }
            VecDerive { Clone }
            VecEdit {
                Push(value) Pop Insert(index, value) Remove(index) Truncate(target) Clear
                Retain(marks) Drain(bounds) Splice(bounds, items) Extend(items) Reserve(additional)
                Write(index, value)
            }
            VecAsk { Read(index) Len Contents Capacity Unique }
        })
    }
}

impl<T> VecEdit<T> {
    /// Checks whether the edit may be made in a list of `len` elements. If not, it answers the
    /// first refusal that applies, other than `Memory`.
    pub fn check(&self, len: usize) -> Result<(), Refusal>
        ensures { (xs : List T) → length xs ≡ len → result ≡ verdict (edit_vec self.now xs) }
    {
        match self {
            VecEdit::Push(_) => allowed(len, 1),
            VecEdit::Insert(index, _) => {
                if *index > len {
                    return Err(Refusal::Index);
                }
                allowed(len, 1)
            }
            VecEdit::Remove(index) => in_bounds(*index, len),
            VecEdit::Write(index, _) => in_bounds(*index, len),
            VecEdit::Retain(marks) => {
                if marks.len() != len {
                    return Err(Refusal::Marks);
                }
                Ok(())
            }
            VecEdit::Drain(bounds) => match resolve(bounds, len) {
                Some(_) => Ok(()),
                None => Err(Refusal::Range),
            },
            VecEdit::Splice(bounds, items) => match resolve(bounds, len) {
                Some((start, end)) => allowed(len - (end - start), items.len()),
                None => Err(Refusal::Range),
            },
            VecEdit::Extend(items) => allowed(len, items.len()),
            VecEdit::Reserve(additional) => allowed(len, *additional),
            VecEdit::Pop => Ok(()),
            VecEdit::Truncate(_) => Ok(()),
            VecEdit::Clear => Ok(()),
        }
    }
}
