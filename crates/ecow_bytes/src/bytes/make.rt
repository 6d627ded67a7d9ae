//! The calls that make bytes from other values.
ghost use Rattle.std.specs.Prelude.{◌≡◌, ℕ, ◌<◌, ◌≤◌, ◌↔◌, [], List, length, vec_len, true, false, IsOk, IfOk, IfErr, OnErr, IsErrAnd, IsErrOf, IsSome, IfSome};
ghost use Rattle.std.specs.Iterator.{IsFiniteIterable};
ghost use Rattle.ecow_list.specs.Vectors.{GivesFirst, GivesItems};
ghost use Rattle.ecow_base.specs.Plain.{plain_bytes};
ghost use Rattle.ecow_base.specs.Inline.{inline_for};
ghost use Rattle.ecow_bytes.specs.Makes.{MakesBytes};

use crate::bytes::SmallBytes;
use crate::form::Form;
use ecow_base::MAX_LEN;
use ecow_list::{EcoError, EcoVec, Rejected};
use std::alloc::Global;

impl<const N: usize> SmallBytes<N> {
    /// A copy of `bytes`, inline; `None` if there are more than `N`. Takes no memory.
    pub fn try_inline(alloc: Global, bytes: &[u8]) -> Option<Self>
        ensures fits { IsSome result ↔ (length bytes.now ≤ N) }
        ensures bytes { IfSome result (λ b. b.bytes ≡ bytes.now) }
        ensures mode { IfSome result (λ b. b.inline ≡ true) }
    {
        match Form::inline(bytes) {
            Some(form) => Some(SmallBytes { form, alloc }),
            None => None,
        }
    }

    /// A copy of `bytes`, inline. There must be at most `N` bytes. Takes no memory.
    pub fn inline(alloc: Global, bytes: &[u8]) -> Self
        requires { length bytes.now ≤ N }
        ensures bytes { result.bytes ≡ bytes.now }
        ensures mode { result.inline ≡ true }
    {
        Self::try_inline(alloc, bytes).unwrap()
    }

    /// No bytes. The value is inline if `capacity` is at most `N`. Otherwise it is spilled, and
    /// makes one allocation for `capacity` bytes; no capacity is promised.
    ///
    /// # Errors
    ///
    /// `Capacity` if `capacity` passes 2^63 - 1; `Memory` if there is no memory for the block. A
    /// capacity of at most `N` is never refused.
    pub fn with_capacity(alloc: Global, capacity: usize) -> Result<Self, EcoError>
        ensures { MakesBytes N capacity [] result }
    {
        let target = Self::new(alloc);
        if capacity <= target.capacity() {
            return Ok(target);
        }
        let vec = EcoVec::with_capacity(alloc, capacity)?;
        Ok(SmallBytes {
            form: Form::Spilled(vec),
            alloc,
        })
    }

    /// A copy of `bytes`: inline if there are at most `N`, and otherwise spilled, with one
    /// allocation.
    ///
    /// # Errors
    ///
    /// `Capacity` if there are more than 2^63 - 1 bytes; `Memory` if there is no memory for the
    /// block. At most `N` bytes are never refused.
    #[inline(always)]
    pub fn from_slice(alloc: Global, bytes: &[u8]) -> Result<Self, EcoError>
        ensures { MakesBytes N (length bytes.now) bytes.now result }
    {
        let form = match Form::inline(bytes) {
            Some(inline) => inline,
            None => Form::Spilled(EcoVec::from_copied(alloc, bytes)?),
        };
        Ok(SmallBytes { form, alloc })
    }

    /// The bytes of an array: inline if there are at most `N`, and otherwise spilled, with one
    /// allocation.
    ///
    /// # Errors
    ///
    /// `Capacity` if there are more than 2^63 - 1 bytes; `Memory` if there is no memory for the
    /// block. At most `N` bytes are never refused.
    pub fn from_array<const M: usize>(alloc: Global, bytes: [u8; M]) -> Result<Self, EcoError>
        ensures { MakesBytes N M bytes.entry result }
    {
        Self::from_slice(alloc, &bytes)
    }

    /// The bytes that `iter` gives, each appended as `push` does. They are inline if there are at
    /// most `N`, and otherwise spilled. The size hint of `iter` isn't used.
    ///
    /// # Errors
    ///
    /// `Capacity` at the byte past 2^63 - 1; `Memory` if there is no memory for a block. No further
    /// byte is taken from `iter` then, and the bytes so far are dropped. At most `N` bytes are
    /// never refused.
    pub fn from_iter<I: IntoIterator<Item = u8>>(alloc: Global, iter: I) -> Result<Self, EcoError>
        requires { IsFiniteIterable
            I.into_iter_gives I.IntoIter.can_next I.IntoIter.remaining iter }
        ensures bytes { IfOk result
            (λ b. GivesItems I.into_iter_gives I.IntoIter.next_gives iter b.bytes) }
        ensures mode { IfOk result (λ b. b.inline ≡ inline_for N (length b.bytes)) }
        ensures refused { OnErr result ((items : List ℕ)
            × GivesFirst I.into_iter_gives I.IntoIter.next_gives iter items × (N < length items)
            × (IsErrOf result EcoError.Capacity ↔ (MAX_LEN < length items))) }
    {
        let mut target = Self::new(alloc);
        target.extend(iter)?;
        Ok(target)
    }

    /// The bytes of a `Vec`: inline if there are at most `N`, and otherwise moved into a new block.
    ///
    /// # Errors
    ///
    /// `Capacity` if there are more than 2^63 - 1 bytes; `Memory` if there is no memory for the
    /// block. The `Vec` comes back unchanged in the error. At most `N` bytes are never refused.
    pub fn from_vec(alloc: Global, bytes: Vec<u8>) -> Result<Self, Rejected<Vec<u8>>>
        ensures bytes { IfOk result (λ b. b.bytes ≡ bytes.items) }
        ensures mode { IfOk result (λ b. b.inline ≡ inline_for N (vec_len bytes)) }
        ensures free { vec_len bytes ≤ N → IsOk result }

        // A refused call returns the `Vec`. `Capacity` means exactly that it is longer than the
        // limit.
        ensures value_returned { IfErr result (λ rejected. rejected.value.items ≡ bytes.items) }
        ensures capacity { IsErrAnd result (λ rejected. rejected.error ≡ EcoError.Capacity)
            ↔ (MAX_LEN < vec_len bytes) }
    {
        let form = match Form::inline(bytes.as_slice()) {
            Some(inline) => inline,
            None => match EcoVec::from_vec(alloc, bytes) {
                Ok(vec) => Form::Spilled(vec),
                Err(rejected) => return Err(rejected),
            },
        };
        Ok(SmallBytes { form, alloc })
    }
}

/// The bytes of a vector, which keep its block, shared or not. They are spilled, however few there
/// are. Takes constant time and no memory.
impl<const N: usize> From<EcoVec<u8>> for SmallBytes<N> {
    ghost from_gives = { λ vec target. target ≡ plain_bytes vec false };

    fn from(vec: EcoVec<u8>) -> Self {
        let alloc = vec.allocator();
        SmallBytes {
            form: Form::Spilled(vec),
            alloc,
        }
    }
}
