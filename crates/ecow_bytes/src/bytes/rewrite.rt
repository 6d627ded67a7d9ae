//! The bytes, handed to a closure for writing.
ghost use Rattle.std.specs.Prelude.{◌≡◌, [], false, IsOk, IfErr, OnOk, OnErr};
ghost use Rattle.std.specs.Fn.{FnOnceTakesAtMut};
ghost use Rattle.ecow_bytes.specs.Rewrites.{Rewrites};
ghost use Rattle.ecow_list.specs.Refusals.{RefusesForMemory};
ghost use Rattle.ecow_base.specs.Inline.{KeepsMode};

use crate::bytes::SmallBytes;
use crate::form::Form;
use ecow_list::EcoError;

impl<const N: usize> SmallBytes<N> {
    /// Calls `f` once with the bytes for writing, and then keeps as many bytes from the front as
    /// `f` returns, or all if it returns more. If there are no bytes, `f` gets an empty slice.
    ///
    /// Copies nothing, but shared bytes are copied first.
    ///
    /// This project's own: the original writes through `make_mut`, and a proved caller learns less
    /// about that borrow.
    ///
    /// # Errors
    ///
    /// `Memory` if there is no memory for the copy of shared bytes. The bytes are unchanged, and
    /// `f` isn't called. Inline bytes and no bytes are never refused.
    pub fn rewrite<F: FnOnce(&mut [u8]) -> usize>(&mut self, f: F) -> Result<(), EcoError>
        requires callable { FnOnceTakesAtMut F.FnOnce f self.old.bytes }
        ensures bytes { OnOk result (Rewrites F.FnOnce f self.old.bytes self.new.bytes) }
        ensures mode { KeepsMode self.old.inline result self.new.inline }

        // Only a copy of shared bytes is refused, and no bytes need no copy.
        ensures refused { RefusesForMemory self.old result self.new }
        ensures empty { self.old.bytes ≡ [] → IsOk result }
    {
        match &mut self.form {
            Form::Short(_) | Form::Full(_) => {
                let len = f(self.form.inline_mut());
                self.form.truncate(len);
                Ok(())
            }
            Form::Spilled(vec) => match vec.own_mut() {
                Ok(block) => {
                    let len = f(block.as_mut_slice());
                    block.truncate(len);
                    Ok(())
                }
                Err(None) => {
                    f(&mut []);
                    Ok(())
                }
                Err(Some(error)) => Err(error),
            },
        }
    }
}
