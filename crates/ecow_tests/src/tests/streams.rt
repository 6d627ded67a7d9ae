//! Readers and writers that are slow, fail or lose what they take.
use ecow_tool::{End, run_counted, run_store};
use std::alloc::Global;
use std::io;
use std::io::{ErrorKind, Read, Write};

/// A reader that gives a number of bytes at a time, and counts how many times it was asked at its
/// end. It may be interrupted before each piece, and fail at one read, counted from 1.
#[derive(Drop)]
pub(crate) struct Reader<'a> {
    left: &'a [u8],
    size: usize,
    pub(crate) interrupts: bool,
    interrupted: bool,
    pub(crate) failing: usize,
    pub(crate) ends: usize,
}

impl<'a> Reader<'a> {
    pub(crate) fn new(left: &'a [u8], size: usize) -> Self {
        Reader {
            left,
            size,
            interrupts: false,
            interrupted: false,
            failing: 0,
            ends: 0,
        }
    }
}

impl<'a> Read for Reader<'a> {
    fn read(&mut self, buf: &mut [u8]) -> io::Result<usize> {
        if self.interrupts && !self.interrupted {
            self.interrupted = true;
            return Err(ErrorKind::Interrupted.into());
        }
        self.interrupted = false;
        self.failing = self.failing.wrapping_sub(1);
        if self.failing == 0 {
            return Err(ErrorKind::Other.into());
        }
        let count = self.size.min(self.left.len()).min(buf.len());
        buf[..count].copy_from_slice(&self.left[..count]);
        self.left = &self.left[count..];
        if count == 0 {
            self.ends = self.ends.wrapping_add(1);
        }
        Ok(count)
    }
}

/// A writer that takes a number of bytes at a time, and refuses one write, counted from 1. Flushing
/// it may fail.
#[derive(Drop)]
pub(crate) struct Writer {
    pub(crate) taken: Vec<u8>,
    size: usize,
    refused: usize,
    pub(crate) loses: bool,
}

impl Writer {
    pub(crate) fn new(alloc: Global, size: usize, refused: usize) -> Self {
        Writer {
            taken: Vec::new(alloc),
            size,
            refused,
            loses: false,
        }
    }
}

impl Write for Writer {
    fn write(&mut self, buf: &[u8]) -> io::Result<usize> {
        self.refused = self.refused.wrapping_sub(1);
        if self.refused == 0 {
            return Err(ErrorKind::Other.into());
        }
        let count = self.size.min(buf.len());
        self.taken.extend_from_slice(&buf[..count])?;
        Ok(count)
    }

    fn flush(&mut self) -> io::Result<()> {
        if self.loses {
            return Err(ErrorKind::Other.into());
        }
        Ok(())
    }
}

/// Runs the script that a reader gives, with `--counted` or without.
pub(crate) fn ended(
    alloc: Global,
    counted: bool,
    reader: &mut Reader<'_>,
    writer: &mut Writer,
) -> End {
    if counted {
        run_counted(alloc, reader, writer)
    } else {
        run_store(alloc, reader, writer)
    }
}
