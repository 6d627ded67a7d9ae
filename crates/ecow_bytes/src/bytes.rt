//! `SmallBytes`: a few bytes in the value itself, and more in a vector that clones share.
//! `EcoBytes` is `SmallBytes` with a limit of 15 bytes.
//!
//! A call that takes memory can be refused: with `Capacity` if there would be more than 2^63 - 1
//! bytes, and else with `Memory`. The value is then unchanged, except that `extend` keeps the bytes
//! that it appended before. No change is refused that leaves the bytes inline.
ghost use Rattle.std.specs.Prelude.{◌≡◌, ◌≤◌, ◌==◌, [], length, true, false};

mod allocator;
mod conversions;
mod edits;
mod make;
mod make_mut;
mod push;
mod repeat;
mod rewrite;

use crate::form::Form;
use ecow_base::MAX_LEN;
use std::alloc::{AllocError, Global};
use std::marker::Model;

/// A sequence of bytes. At most `N` bytes are inline, in the value itself; more are spilled, in a
/// vector whose block clones share until one of them is changed.
///
/// Inline bytes spill when there would be more than `N` of them, or when capacity for more than `N`
/// is reserved. Spilled bytes stay spilled, however few are left: only `shrink_to_fit` brings them
/// back inline. Equality, order and hash depend on the bytes and not on where they are stored. A
/// clone takes constant time and no memory.
///
/// ```
/// let mut bytes = EcoBytes::from_array(alloc, [7; 15])?;
/// assert!(bytes.is_inline());
/// bytes.push(8)?;
/// assert!(!bytes.is_inline());
/// let before = bytes.clone()?;
/// bytes.push(9)?;
/// assert_eq!((before.len(), bytes.len()), (16, 17));
/// ```
#[derive(Drop)]
pub struct SmallBytes<const N: usize> {
    /// The bytes, inline or spilled.
    // rust: pub(crate)
    form: Form<N>,
    /// The allocator that gives the memory when the bytes spill.
    // rust: pub(crate)
    alloc: Global,
}

/// Bytes of which at most 15 are stored in the value itself.
pub type EcoBytes = SmallBytes<15>;

/// The greatest number of bytes that an `EcoBytes` or an `EcoString` stores in itself.
pub const INLINE_LIMIT: usize = 15;

impl<const N: usize> Model for SmallBytes<N> {
    ghost use Rattle.ecow_base.specs.declared.plain.PlainBytes.{PlainBytes};
    ghost use Rattle.ecow_bytes.specs.Form.{plain_of};

    ghost Value = { PlainBytes };

    ghost view = { λ b. plain_of b.form };
}

impl<const N: usize> SmallBytes<N> {
    /// The greatest number of bytes that are stored in the value itself.
    pub const INLINE_LIMIT: usize = N;

    /// No bytes, inline. Takes no memory.
    pub fn new(alloc: Global) -> Self
        ensures bytes { result.bytes ≡ [] }
        ensures mode { result.inline ≡ true }
    {
        SmallBytes {
            form: Form::new(),
            alloc,
        }
    }

    /// The bytes, in order.
    #[inline]
    pub fn as_slice(&self) -> &[u8]
        ensures { result.now ≡ self.now.bytes }
    {
        self.form.as_slice()
    }

    /// The number of bytes.
    #[inline]
    pub fn len(&self) -> usize
        ensures len { result ≡ length self.now.bytes }
        ensures bounded { result ≤ MAX_LEN }
        ensures fits { self.now.inline ≡ true → result ≤ N }
    {
        self.form.len()
    }

    /// Whether there are no bytes.
    pub fn is_empty(&self) -> bool
        ensures { result ≡ (length self.now.bytes == 0) }
    {
        self.len() == 0
    }

    /// Whether the bytes are stored in the value itself.
    pub fn is_inline(&self) -> bool
        ensures { result ≡ self.now.inline }
    {
        match &self.form {
            Form::Short(_) | Form::Full(_) => true,
            Form::Spilled(_) => false,
        }
    }

    /// The number of bytes that the value can hold without a larger block, which is at least the
    /// length. For inline bytes it is `N`.
    pub fn capacity(&self) -> usize
        ensures room { length self.now.bytes ≤ result }
        ensures bounded { result ≤ MAX_LEN }
        ensures inline { self.now.inline ≡ true → result ≡ N }
    {
        match &self.form {
            Form::Short(few) => few.cells.count(),
            Form::Full(cells) => cells.count(),
            Form::Spilled(vec) => vec.capacity(),
        }
    }

    /// Removes all bytes. Inline bytes stay inline, and spilled bytes stay spilled.
    ///
    /// Copies nothing and is never refused. A shared block is left to the other values that share
    /// it.
    pub fn clear(&mut self)
        ensures bytes { self.new.bytes ≡ [] }
        ensures mode { self.new.inline ≡ self.old.inline }
    {
        match &mut self.form {
            Form::Short(_) | Form::Full(_) => self.form.truncate(0),
            Form::Spilled(vec) => vec.clear(),
        }
    }
}

impl<const N: usize> Clone for SmallBytes<N> {
    ghost is_clone = { λ b c. c ≡ b };

    #[inline]
    fn clone(&self) -> Result<Self, AllocError> {
        let form = match &self.form {
            Form::Short(few) => Form::Short(few.copy()),
            Form::Full(cells) => Form::Full(cells.copy()),
            Form::Spilled(vec) => Form::Spilled(vec.clone()?),
        };
        Ok(SmallBytes {
            form,
            alloc: self.alloc,
        })
    }
}
