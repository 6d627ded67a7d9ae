//! Where bytes are stored: in the value itself, or in a vector.
ghost use Rattle.std.specs.Prelude.{◌≡◌, ◌+◌, ◌-◌, ◌<◌, ◌≤◌, ◌↔◌, [], length, take, remove, slice_get, Some, true, false, IsOk, IfOk, IfErr, OnErr, IsSome, IfSome};
ghost use Rattle.std.specs.Borrow.{sem};
ghost use Rattle.std.specs.List.{replace_range};
ghost use Rattle.ecow_base.specs.Plain.{plain_bytes};

use crate::cells::Cells;
use crate::few::Few;
use crate::words::words_of;
use ecow_base::MAX_LEN;
use ecow_list::{EcoError, EcoVec};

/// Where bytes are stored. The compiler puts a tag of one byte before them, so that 15 bytes take
/// two words.
#[derive(Drop)]
pub(crate) enum Form<const N: usize> {
    /// Fewer than `N` bytes, in the value itself. This variant comes first, so that its tag is 0
    /// and zeroed memory is an empty value if `N` is from 1 to 256.
    Short(Few<N>),
    /// Exactly `N` bytes, in the value itself.
    Full(Cells<N>),
    /// Bytes in a vector.
    Spilled(EcoVec<u8>),
}

impl<const N: usize> Form<N> {
    ghost use Rattle.ecow_bytes.specs.Form.{plain_of};
    ghost use Rattle.ecow_bytes.specs.Lends.{lends_form, lends_inline};

    /// No bytes, inline.
    #[inline]
    pub(crate) fn new() -> Self
        ensures { plain_of result ≡ plain_bytes [] true }
    {
        Self::inline(&[]).unwrap()
    }

    /// A copy of `bytes`, inline; `None` if there are more than `N`.
    #[inline(always)]
    pub(crate) fn inline(bytes: &[u8]) -> Option<Self>
        ensures fits { IsSome result ↔ (length bytes.now ≤ N) }
        ensures bytes { IfSome result (λ form. plain_of form ≡ plain_bytes bytes.now true) }
    {
        if bytes.len() > N {
            return None;
        }
        if N == 15 {
            let (low, high) = words_of(bytes);
            if bytes.len() == N {
                return Some(Form::Full(Cells::of_words(low, high).copy()));
            }
            return Some(Form::Short(Few::of_words(low, high, bytes.len())));
        }
        let mut cells = Cells { bytes: [0; N] };
        cells.put(bytes);
        if bytes.len() == N {
            return Some(Form::Full(cells.copy()));
        }
        Some(Form::Short(Few::of(cells, bytes.len())))
    }

    /// The number of bytes.
    #[inline]
    pub(crate) fn len(&self) -> usize
        ensures len { result ≡ length (plain_of self.now).bytes }
        ensures bounded { result ≤ MAX_LEN }
        ensures fits { (plain_of self.now).inline ≡ true → result ≤ N }
    {
        match self {
            Form::Short(few) => few.len(),
            Form::Full(cells) => cells.count(),
            Form::Spilled(vec) => vec.len(),
        }
    }

    /// The bytes, in order.
    #[inline]
    pub(crate) fn as_slice(&self) -> &[u8]
        ensures { result.now ≡ (plain_of self.now).bytes }
    {
        match self {
            Form::Short(few) => few.as_slice(),
            Form::Full(cells) => &cells.bytes[..],
            Form::Spilled(vec) => vec.as_slice(),
        }
    }

    /// Inline bytes, borrowed for writing.
    #[inline]
    pub(crate) fn inline_mut(&mut self) -> &mut [u8]
        requires { (plain_of self.old).inline ≡ true }
        ensures* writes_back { sem 𝓛 (lends_inline N.row self.entry result) }
        ensures value { result.now ≡ (plain_of self.old).bytes }
    {
        // Each arm has a `return`, since a proof follows a borrow from where it begins to a
        // `return`.
        match self {
            Form::Short(few) => return few.as_mut_slice(),
            Form::Full(cells) => return cells.all_mut(),
            Form::Spilled(_) => unreachable!(),
        }
    }

    /// Sets the length of inline bytes to `len`. The first bytes stay up to the new length, and if
    /// it is greater, the bytes that are added are unspecified.
    #[inline]
    pub(crate) fn set_len(&mut self, len: usize)
        requires inline { (plain_of self.old).inline ≡ true }
        requires fits { len ≤ N }
        ensures mode { (plain_of self.new).inline ≡ true }
        ensures len { length (plain_of self.new).bytes ≡ len }
        ensures kept { take (length (plain_of self.old).bytes) (plain_of self.new).bytes
            ≡ take len (plain_of self.old).bytes }
    {
        match self {
            Form::Short(few) => {
                if len == few.cells.count() {
                    *self = Form::Full(few.cells);
                } else {
                    few.set_len(len);
                }
            }
            Form::Full(cells) => {
                if len < cells.count() {
                    *self = Form::Short(Few::of(*cells, len));
                }
            }
            Form::Spilled(_) => unreachable!(),
        }
    }

    /// Keeps the first `target` inline bytes, or all if there are no more than that.
    #[inline]
    pub(crate) fn truncate(&mut self, target: usize)
        requires { (plain_of self.old).inline ≡ true }
        ensures { plain_of self.new ≡ plain_bytes (take target (plain_of self.old).bytes) true }
    {
        if target < self.len() {
            self.set_len(target);
        }
    }

    /// Replaces the inline bytes from `start` up to `end` with `bytes`.
    pub(crate) fn replace_range(&mut self, start: usize, end: usize, bytes: &[u8])
        requires inline { (plain_of self.old).inline ≡ true }
        requires ordered { start ≤ end }
        requires in_bounds { end ≤ length (plain_of self.old).bytes }
        requires fits { length (plain_of self.old).bytes - (end - start) + length bytes.now ≤ N }
        ensures { plain_of self.new
            ≡ plain_bytes (replace_range (plain_of self.old).bytes start end bytes.now) true }
    {
        let len = self.len();
        let new_len = len - (end - start) + bytes.len();
        self.set_len(len.max(new_len));
        let all = self.inline_mut();
        all.copy_within(end..len, start + bytes.len());
        all[start..start + bytes.len()].copy_from_slice(bytes);
        self.truncate(new_len);
    }

    /// Removes the inline byte at `index` and returns it.
    pub(crate) fn remove(&mut self, index: usize) -> u8
        requires inline { (plain_of self.old).inline ≡ true }
        requires in_bounds { index < length (plain_of self.old).bytes }
        ensures value { slice_get (plain_of self.old).bytes index ≡ Some result }
        ensures bytes { plain_of self.new
            ≡ plain_bytes (remove (plain_of self.old).bytes index) true }
    {
        let all = self.inline_mut();
        let len = all.len();
        let byte = all[index];
        all.copy_within(index + 1..len, index);
        self.truncate(len - 1);
        byte
    }

    /// The bytes, borrowed for writing. Shared bytes are copied first.
    #[inline]
    pub(crate) fn make_mut(&mut self) -> Result<&mut [u8], EcoError>
        ensures* writes_back { sem 𝓛 (lends_form N.row self.entry result) }
        ensures value { IfOk result (λ bytes. bytes.now ≡ (plain_of self.old).bytes) }
        ensures memory { IfErr result (λ error. error ≡ EcoError.Memory) }
        ensures free { OnErr result ((plain_of self.old).inline ≡ false) }
        ensures empty { (plain_of self.old).bytes ≡ [] → IsOk result }
    {
        match self {
            Form::Short(few) => Ok(few.as_mut_slice()),
            Form::Full(cells) => Ok(cells.all_mut()),
            Form::Spilled(vec) => vec.make_mut(),
        }
    }
}
