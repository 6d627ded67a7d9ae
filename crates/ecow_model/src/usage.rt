//! How commands use names, whatever kind of value stands under them.
ghost use Rattle.std.specs.Prelude.{◌≡◌, ◌+◌, nat_lt};
ghost use Rattle.ecow_model.specs.Refusing.{allowed as is_allowed, check as is_checked};

use crate::command::{Name, Refusal};
use ecow_base::MAX_LEN;

/// A command by its parts: how it uses names, and what it does to the value of a name. Each kind of
/// value has its own ways to make a value and to derive one from another, and its own edits and
/// questions.
#[derive(Drop)]
pub enum Usage<Make, Derive, Edit, Ask> {
    /// Makes a value under a new name.
    Make { name: Name, how: Make },
    /// Makes a value under a new name from another value, which stays as it is.
    Derive { from: Name, to: Name, how: Derive },
    /// Removes the name and its value.
    Drop { name: Name },
    /// Changes the value of the name.
    Edit { name: Name, edit: Edit },
    /// Asks a question about the value of the name.
    Ask { name: Name, question: Ask },
}

/// What a command that makes a value gives.
#[derive(Drop)]
pub enum NewValue<V> {
    /// The value. The command answers `Done`.
    Always(V),
    /// The value, if it could be made. The command answers `Flag`.
    Tried(Option<V>),
}

impl<Make, Derive, Edit, Ask> Usage<Make, Derive, Edit, Ask> {
    pub(crate) fn make(name: Name, how: Make) -> Self
        ensures { result ≡ Usage.Make name how }
    {
        Usage::Make { name, how }
    }

    pub(crate) fn derive(from: Name, to: Name, how: Derive) -> Self
        ensures { result ≡ Usage.Derive from to how }
    {
        Usage::Derive { from, to, how }
    }

    pub(crate) fn edit(name: Name, edit: Edit) -> Self
        ensures { result ≡ Usage.Edit name edit }
    {
        Usage::Edit { name, edit }
    }

    pub(crate) fn ask(name: Name, question: Ask) -> Self
        ensures { result ≡ Usage.Ask name question }
    {
        Usage::Ask { name, question }
    }
}

/// The parts of a command. Each variant is listed under its part, with its fields other than names,
/// in their order.
macro_rules! usage_of {
    ($command:expr, $words:ident {
        $make:ident { $($made:ident $(($($making:ident),*))?)* }
        $derive:ident { $($derived:ident $(($($deriving:ident),*))?)* }
        $edit:ident { $($edited:ident $(($($editing:ident),*))?)* }
        $ask:ident { $($asked:ident $(($($asking:ident),*))?)* }
    }) => {
        match $command {
            $($words::$made { name $($(, $making)*)? } => {
                Usage::make(name, $make::$made $(($($making),*))?)
            })*
            $($words::$derived { from, to $($(, $deriving)*)? } => {
                Usage::derive(from, to, $derive::$derived $(($($deriving),*))?)
            })*
            $words::Drop { name } => Usage::Drop { name },
            $($words::$edited { name $($(, $editing)*)? } => {
                Usage::edit(name, $edit::$edited $(($($editing),*))?)
            })*
            $($words::$asked { name $($(, $asking)*)? } => {
                Usage::ask(name, $ask::$asked $(($($asking),*))?)
            })*
        }
    };
}

pub(crate) use usage_of;

/// Whether a value of `len` items may have `additional` more.
pub fn allowed(len: usize, additional: usize) -> Result<(), Refusal>
    ensures { result ≡ is_allowed (len + additional) }
{
    if len > MAX_LEN || additional > MAX_LEN - len {
        return Err(Refusal::Capacity);
    }
    Ok(())
}

/// Whether `index` is the index of one of `len` items.
pub(crate) fn in_bounds(index: usize, len: usize) -> Result<(), Refusal>
    ensures { result ≡ is_checked (nat_lt index len) Refusal.Index }
{
    if index >= len {
        return Err(Refusal::Index);
    }
    Ok(())
}
