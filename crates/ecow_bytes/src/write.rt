//! Writing to a `SmallBytes` appends to it. A call appends all of its bytes, or it appends none and
//! returns an error of the kind `OutOfMemory`.
ghost use Rattle.std.specs.Prelude.{◌≡◌, ◌++◌, length, false, Some, IsOk, IfOk, IfErr, OnOk, OnErr};
ghost use Rattle.std.specs.Io.{WritesAtMost};
ghost use Rattle.std.specs.Io.KnownBytes.{Keeps, WriteAppends};
ghost use Rattle.std.specs.IoError.{error_kind};
ghost use Rattle.std.specs.declared.io.ErrorKind.TheVariants.{OutOfMemory};
ghost use Rattle.ecow_base.specs.Inline.{inline_after};

use crate::bytes::SmallBytes;
use std::alloc::AllocError;
use std::io;

impl<const N: usize> io::Write for SmallBytes<N> {
    ghost contents = { λ b. Some b.bytes };

    fn write(&mut self, buf: &[u8]) -> io::Result<usize>

        // What std asks of a writer.
        ensures bound { WritesAtMost result buf.now }
        ensures bytes { WriteAppends (Some self.old.bytes) (Some self.new.bytes) result buf.now }

        // All bytes are appended, or none if there is no memory.
        ensures mode { OnOk result
            (self.new.inline ≡ inline_after N self.old.inline (length self.old.bytes)
            (length buf.now)) }
        ensures count { IfOk result (λ n. n ≡ length buf.now) }
        ensures memory { IfErr result (λ error. error_kind error ≡ OutOfMemory) }
        ensures unchanged { OnErr result (self.new ≡ self.old) }
        ensures free { OnErr result (inline_after N self.old.inline (length self.old.bytes)
            (length buf.now) ≡ false) }
    {
        match self.extend_from_slice(buf) {
            Ok(()) => Ok(buf.len()),
            Err(_) => Err(AllocError.into()),
        }
    }

    fn flush(&mut self) -> io::Result<()>
        ensures bytes { Keeps (Some self.old.bytes) (Some self.new.bytes) }
        ensures ok { IsOk result }
        ensures unchanged { self.new ≡ self.old }
    {
        Ok(())
    }
}
