//! Why a line can't be read.
ghost use Rattle.std.specs.Prelude.{◌≡◌};
ghost use Rattle.ecow_script.specs.declared.reason.Misfit.TheVariants.{Memory};

use std::alloc::{AllocError, AllocFailed};
use std::fmt;

/// What was expected at the first word of a line that is wrong.
#[derive(Clone, Copy, Debug, PartialEq, Eq)]
pub enum Reason {
    /// The kind of value of the command.
    Kind,
    /// A command on this kind of value.
    Command,
    /// The name of a value.
    Name,
    /// A number in its range.
    Number,
    /// A list of numbers.
    List,
    /// The marks of what is kept.
    Marks,
    /// A pair of bounds.
    Bounds,
    /// A quoted text.
    Text,
    /// One more word, or the end of the line.
    Arguments,
}

impl fmt::Display for Reason {
    ghost use Rattle.std.specs.Prelude.{Some};
    ghost use Rattle.ecow_script.specs.Reasons.{reason_text};

    ghost output = { λ reason. Some (reason_text reason) };

    fn fmt<W: fmt::Write>(&self, f: &mut fmt::Formatter<W>) -> fmt::Result {
        f.write_str(match self {
            Reason::Kind => "kind",
            Reason::Command => "command",
            Reason::Name => "name",
            Reason::Number => "number",
            Reason::List => "list",
            Reason::Marks => "marks",
            Reason::Bounds => "bounds",
            Reason::Text => "text",
            Reason::Arguments => "arguments",
        })
    }
}

/// Why a line can't be read.
#[derive(Clone, Copy)]
pub(crate) enum Misfit {
    /// This was expected instead of a word.
    Expected(Reason),
    /// The allocator refused the memory.
    Memory,
}

impl<T: Drop> From<AllocFailed<T>> for Misfit {
    ghost from_gives = { λ _ misfit. misfit ≡ Memory };

    fn from(_: AllocFailed<T>) -> Misfit {
        Misfit::Memory
    }
}

impl From<AllocError> for Misfit {
    ghost from_gives = { λ _ misfit. misfit ≡ Memory };

    fn from(_: AllocError) -> Self {
        Self::Memory
    }
}
