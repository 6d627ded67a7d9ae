//! Letters in lower or upper case.
ghost use Rattle.std.specs.Prelude.{◌≡◌, map, string_bytes, IfOk};
ghost use Rattle.ecow_string.specs.Case.{in_case, str_in_case};

use std::alloc::{AllocError, Global};

/// Lower or upper case.
#[derive(Clone, Copy)]
pub(crate) enum Case {
    Lower,
    Upper,
}

impl Case {
    /// Changes the ASCII letters among `bytes` to this case, in place.
    pub(crate) fn map(self, bytes: &mut [u8])
        ensures { bytes.new ≡ map (in_case self) bytes.old }
    {
        match self {
            Case::Lower => bytes.make_ascii_lowercase(),
            Case::Upper => bytes.make_ascii_uppercase(),
        }
    }

    /// A copy of `text` in this case, as std's `str` maps it.
    pub(crate) fn copy(self, alloc: Global, text: &str) -> Result<String, AllocError>
        ensures { IfOk result (λ copy. string_bytes copy ≡ str_in_case self text.now) }
    {
        match self {
            Case::Lower => text.to_lowercase(alloc),
            Case::Upper => text.to_uppercase(alloc),
        }
    }
}
