//! Readers and writers that fail where they are told to, and then go on, so that a read or a write
//! that is made again shows.

use std::alloc::Global;
use std::io;
use std::io::{ErrorKind, Read, Write};

/// A reader of zeros, as many as there are addresses, whose read before byte `fails_at` fails once.
/// The next read goes on from there.
#[derive(Drop)]
pub struct Failing {
    pub given: usize,
    pub fails_at: usize,
    pub kind: ErrorKind,
    pub has_failed: bool,
}

impl Read for Failing {
    fn read(&mut self, buf: &mut [u8]) -> io::Result<usize> {
        if self.given == self.fails_at && !self.has_failed {
            self.has_failed = true;
            return Err(io::Error::from(self.kind));
        }
        if buf.is_empty() || self.given >= 65536 {
            return Ok(0);
        }
        self.given += 1;
        buf[0] = 0;
        Ok(1)
    }
}

/// A writer that takes so many bytes a write at most. Its write before byte `fails_at` fails once,
/// or is interrupted, and the next one goes on. A flush may fail, each time.
#[derive(Drop)]
pub struct Output {
    pub written: Vec<u8>,
    pub most: usize,
    pub fails_at: usize,
    pub kind: ErrorKind,
    pub has_failed: bool,
    pub fails_to_flush: bool,
}

impl Output {
    /// A writer that takes all.
    pub fn new(alloc: Global) -> Output {
        Output {
            written: Vec::new(alloc),
            most: usize::MAX,
            fails_at: usize::MAX,
            kind: ErrorKind::StorageFull,
            has_failed: false,
            fails_to_flush: false,
        }
    }

    /// How many more bytes are taken before the write that fails.
    fn room(&self) -> usize {
        if self.has_failed {
            usize::MAX
        } else {
            self.fails_at.saturating_sub(self.written.len())
        }
    }
}

impl Write for Output {
    fn write(&mut self, buf: &[u8]) -> io::Result<usize> {
        let room = self.room();
        if room == 0 {
            self.has_failed = true;
            return Err(io::Error::from(self.kind));
        }
        let count = buf.len().min(self.most).min(room);
        self.written.write(&buf[..count])
    }

    fn flush(&mut self) -> io::Result<()> {
        if self.fails_to_flush {
            return Err(io::Error::from(ErrorKind::StorageFull));
        }
        Ok(())
    }
}
