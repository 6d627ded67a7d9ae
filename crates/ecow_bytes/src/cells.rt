//! The memory of inline bytes.
ghost use Rattle.std.specs.Prelude.{◌≡◌, ◌+◌, ◌*◌, ◌^◌, ◌<◌, ◌≤◌, length, take};
ghost use Rattle.std.specs.Borrow.{sem};
ghost use Rattle.ecow_bytes.specs.Lends.{lends_first};

use ecow_base::MAX_LEN;

/// An array of `N` bytes in a struct of its own, so that a contract can say what a borrow of the
/// bytes leaves in it. It has no model, so that a copy of it is a copy of memory.
#[derive(Clone, Copy, Drop)]
pub(crate) struct Cells<const N: usize> {
    /// One byte for each cell.
    pub(crate) bytes: [u8; N],
}

/// The greatest number that a cell can hold. In an array of at most `MANY + 1` cells, the last cell
/// says how many are used. `N` is known to the compiler, so it leaves out the branches for other
/// lengths.
const MANY: usize = u8::MAX as usize;

impl<const N: usize> Cells<N> {
    ghost use Rattle.ecow_bytes.specs.Counts.{counted};
    ghost use Rattle.ecow_bytes.specs.Lends.{lends_all, lends_front};
    ghost use Rattle.ecow_bytes.specs.Digits.{digits};

    /// Puts `bytes` into the first cells.
    #[inline]
    pub(crate) fn put(&mut self, bytes: &[u8])
        requires { length bytes.now ≤ N }
        ensures front { take (length bytes.now) self.new.bytes ≡ bytes.now }
        ensures size { length self.new.bytes ≡ N }
    {
        let all = &mut self.bytes[..];
        all[0..bytes.len()].copy_from_slice(bytes);
    }

    /// The number of cells.
    #[inline]
    pub(crate) fn count(&self) -> usize
        ensures count { result ≡ N }
        ensures size { length self.now.bytes ≡ N }
        ensures bounded { N ≤ MAX_LEN }
    {
        self.bytes[..].len()
    }

    /// The lowest 15 bytes of two words. They are stored in the same pieces that `copy` reads,
    /// since a read has to wait if the stores overlap, as those of an array of zeros would.
    #[inline(always)]
    pub(crate) fn of_words(low: u64, high: u64) -> Self
        requires cells { N ≡ 15 }
        requires fits { high < 2 ^ 56 }
        ensures bytes { result.bytes ≡ digits 15 (low + 2 ^ 64 * high) }
    {
        let mut cells = Cells { bytes: [0; N] };
        let to = &mut cells.bytes[..];
        to[0] = (low % (1 << 8)) as u8;
        to[1..3].copy_from_slice(&(((low >> 8) % (1 << 16)) as u16).to_le_bytes());
        to[3..7].copy_from_slice(&(((low >> 24) % (1 << 32)) as u32).to_le_bytes());
        to[7..].copy_from_slice(&((low >> 56) + (high << 8)).to_le_bytes());
        cells
    }

    /// A copy, made in pieces of one, two, four and more bytes. In a `Form` the cells follow a tag
    /// of one byte, and a pointer is stored eight bytes from the start. The compiler would move the
    /// seven bytes before it as two overlapping numbers of four bytes, and the next move would have
    /// to wait for both.
    #[inline(always)]
    pub(crate) fn copy(&self) -> Self
        ensures { result ≡ self.now }
    {
        let mut copy = *self;
        if N >= 7 {
            let from = &self.bytes[..];
            let to = &mut copy.bytes[..];
            to[0] = from[0];
            to[1..3].copy_from_slice(&from[1..3]);
            to[3..7].copy_from_slice(&from[3..7]);
            to[7..].copy_from_slice(&from[7..]);
        }
        copy
    }

    /// The number of cells that are used, which the last cells say.
    #[inline]
    #[tactic(auto, unfolding(crate::specs::Counts::counted, crate::specs::Counts::before_last))]
    pub(crate) fn len(&self) -> usize
        requires { 0 < N }
        ensures { result ≡ counted N self.now.bytes }
    {
        let last = self.bytes[N - 1] as usize;
        if N <= MANY + 1 {
            return last;
        }
        if last < MANY {
            return N - 1 - last;
        }
        let mut before = [0; 8];
        let cells = &self.bytes[..];
        before.copy_from_slice(&cells[N - 9..N - 1]);
        usize::from_le_bytes(before).min(N - 1 - MANY)
    }

    /// Sets the last cells so that they say that the first `len` are used.
    #[inline]
    #[tactic(auto, unfolding(crate::specs::Counts::counted, crate::specs::Counts::before_last))]
    pub(crate) fn set_len(&mut self, len: usize)
        requires { len < N }
        ensures count { counted N self.new.bytes ≡ len }
        ensures front { take len self.new.bytes ≡ take len self.old.bytes }
        ensures size { length self.new.bytes ≡ N }
    {
        if N <= MANY + 1 {
            self.bytes[N - 1] = len as u8;
            return;
        }
        if N - 1 - len < MANY {
            self.bytes[N - 1] = (N - 1 - len) as u8;
            return;
        }
        self.bytes[N - 1] = u8::MAX;
        let cells = &mut self.bytes[..];
        cells[N - 9..N - 1].copy_from_slice(&len.to_le_bytes());
    }

    /// All bytes, borrowed for writing.
    #[inline]
    pub(crate) fn all_mut(&mut self) -> &mut [u8]
        ensures* writes_back { sem 𝓛 (lends_all N.row self.entry result) }
        ensures value { result.now ≡ self.old.bytes }
        ensures len { length result.now ≡ N }
    {
        &mut self.bytes
    }

    /// The first `len` bytes, borrowed for writing.
    pub(crate) fn front_mut(&mut self, len: usize) -> &mut [u8]
        requires { len ≤ N }
        ensures* writes_back { sem 𝓛 (lends_front N.row self.entry len result) }
        ensures value { result.now ≡ take len self.old.bytes }
    {
        first_bytes(self.all_mut(), len)
    }
}

/// The first `len` bytes of a slice, borrowed for writing.
fn first_bytes(all: &mut [u8], len: usize) -> &mut [u8]
    requires { len ≤ length all.old }
    ensures* writes_back { sem 𝓛 (lends_first all.entry len result) }
    ensures value { result.now ≡ take len all.old }
{
    &mut all[..len]
}
