//! The calls that turn bytes into other types.
ghost use Rattle.std.specs.Prelude.{◌≡◌, true, IfOk, IfErr, OnErr};

use crate::bytes::SmallBytes;
use crate::form::Form;
use ecow_list::{EcoError, EcoVec, Rejected};

impl<const N: usize> SmallBytes<N> {
    /// A copy of the bytes in a `Vec`. Copies all bytes into one allocation.
    ///
    /// # Errors
    ///
    /// `Memory` if there is no memory for the copy.
    pub fn to_vec(&self) -> Result<Vec<u8>, EcoError>
        ensures bytes { IfOk result (λ copy. copy.items ≡ self.now.bytes) }
        ensures memory { IfErr result (λ error. error ≡ EcoError.Memory) }
    {
        Ok(Vec::from_clones(self.alloc, self.as_slice())?)
    }

    /// Turns the bytes into a vector. Spilled bytes keep their block, shared or not, which takes
    /// constant time; inline bytes are copied into a new block.
    ///
    /// # Errors
    ///
    /// `Memory` if inline bytes get no block. They come back unchanged in the error. Spilled bytes
    /// are never refused.
    pub fn into_eco_vec(self) -> Result<EcoVec<u8>, Rejected<Self>>
        ensures bytes { IfOk result (λ vec. vec ≡ self.entry.bytes) }
        ensures memory { IfErr result (λ rejected. rejected.error ≡ EcoError.Memory) }
        ensures value_returned { IfErr result (λ rejected. rejected.value ≡ self.entry) }
        ensures free { OnErr result (self.entry.inline ≡ true) }
    {
        let SmallBytes { form, alloc } = self;
        match form {
            Form::Spilled(vec) => Ok(vec),
            inline => match EcoVec::from_copied(alloc, inline.as_slice()) {
                Ok(vec) => Ok(vec),
                Err(error) => Err(Rejected {
                    error,
                    value: SmallBytes {
                        form: inline,
                        alloc,
                    },
                }),
            },
        }
    }
}
