//! The bytes, borrowed for writing.
ghost use Rattle.std.specs.Prelude.{◌≡◌, [], false, IsOk, IfOk, IfErr, OnErr};
ghost use Rattle.std.specs.Borrow.{sem};
ghost use Rattle.ecow_bytes.specs.Form.{plain_of};

use crate::bytes::SmallBytes;
use crate::form::Form;
use ecow_list::EcoError;

impl<const N: usize> SmallBytes<N> {
    ghost use Rattle.ecow_bytes.specs.Lends.{lends_whole, lends_bytes};

    /// Borrows the bytes for writing. Inline bytes stay inline, and spilled bytes stay spilled.
    ///
    /// Takes constant time, but shared bytes are copied first.
    ///
    /// # Errors
    ///
    /// `Memory` if there is no memory for the copy of shared bytes. The bytes are unchanged. Inline
    /// bytes and no bytes are never refused.
    pub fn make_mut(&mut self) -> Result<&mut [u8], EcoError>
        ensures* writes_back { sem 𝓛 (lends_bytes N.row self.entry result) }
        ensures value { IfOk result (λ bytes. bytes.now ≡ self.old.bytes) }
        ensures memory { IfErr result (λ error. error ≡ EcoError.Memory) }
        ensures free { OnErr result (self.old.inline ≡ false) }
        ensures empty { self.old.bytes ≡ [] → IsOk result }
    {
        self.form_mut().make_mut()
    }

    /// The place where the bytes are stored, borrowed for writing.
    fn form_mut(&mut self) -> &mut Form<N>
        ensures* writes_back { sem 𝓛 (lends_whole N.row self.entry result) }
        ensures value { plain_of result.now ≡ self.old }
    {
        &mut self.form
    }
}
