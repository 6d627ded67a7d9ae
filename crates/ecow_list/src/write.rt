//! Bytes that are written to an `EcoVec<u8>` are appended to it. Either a whole piece is appended,
//! or nothing is, with the error `OutOfMemory`.
ghost use Rattle.std.specs.Prelude.{◌≡◌, ◌++◌, length, Some, IsOk, IfOk, IfErr, OnErr};
ghost use Rattle.std.specs.Io.{WritesAtMost};
ghost use Rattle.std.specs.Io.KnownBytes.{Keeps, WriteAppends};
ghost use Rattle.std.specs.IoError.{error_kind};
ghost use Rattle.std.specs.declared.io.ErrorKind.TheVariants.{OutOfMemory};

use crate::error::EcoError;
use crate::vec::EcoVec;
use std::alloc::AllocError;
use std::io;

impl io::Write for EcoVec<u8> {
    ghost contents = { λ v. Some v };

    fn write(&mut self, buf: &[u8]) -> io::Result<usize>
        ensures bound { WritesAtMost result buf.now }
        ensures bytes { WriteAppends (Some self.old) (Some self.new) result buf.now }
        ensures count { IfOk result (λ n. n ≡ length buf.now) }
        ensures memory { IfErr result (λ error. error_kind error ≡ OutOfMemory) }
        ensures unchanged { OnErr result (self.new ≡ self.old) }
    {
        match self.extend_from_copied(buf) {
            Ok(()) => Ok(buf.len()),
            Err(_) => Err(AllocError.into()),
        }
    }

    fn flush(&mut self) -> io::Result<()>
        ensures bytes { Keeps (Some self.old) (Some self.new) }
        ensures ok { IsOk result }
        ensures unchanged { self.new ≡ self.old }
    {
        Ok(())
    }
}
