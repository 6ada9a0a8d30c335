//! A writer of the host: how many of its writes were short, and whether anybody reads it.

ghost use Rattle.std.specs.Prelude.{◌≡◌, ◌≢◌, ◌≤◌, ◌<◌, ◌+◌, ◌%◌, ◌^◌, IfErr, length, take};
ghost use Rattle.std.specs.IoError.{error_kind};
ghost use Rattle.std.specs.Io.{WritesAtMost};
ghost use Rattle.std.specs.Io.KnownBytes.{Appends, WriteAppends};

use std::io::{self, ErrorKind, Write};

/// A writer of the host as a standard output or a standard error of a program.
#[derive(Drop)]
pub struct HostWriter<W> {
    /// The writer.
    pub stream: W,
    /// How many of its writes were short, modulo 2^64: they failed, or took fewer bytes than they
    /// were offered.
    short_writes: u64,
    /// Whether the latest short write failed because nobody reads what is written any more.
    is_broken: bool,
}

impl<W> HostWriter<W> {
    /// The writer, of which no write was short yet.
    pub fn new(stream: W) -> HostWriter<W>
        ensures stream { result.stream ≡ stream }
        ensures short_writes { result.short_writes ≡ 0 }
    {
        HostWriter {
            stream,
            short_writes: 0,
            is_broken: false,
        }
    }

    /// How many of its writes were short, modulo 2^64: they failed, or took fewer bytes than they
    /// were offered.
    pub fn short_writes(&self) -> u64
        ensures { result ≡ self.now.short_writes }
    {
        self.short_writes
    }

    /// Whether the latest short write failed because nobody reads what is written any more: a pipe
    /// whose reader is closed (`ErrorKind::BrokenPipe`).
    pub fn is_broken(&self) -> bool
        ensures { result ≡ self.now.is_broken }
    {
        self.is_broken
    }
}

impl<W: Write> HostWriter<W> {
    /// Offers bytes to the writer in one write, and gives how many it took: none where the write
    /// failed. A write that is short is counted.
    pub(crate) fn offer(&mut self, bytes: &[u8]) -> u32
        requires { length bytes.now ≤ 65536 }
        ensures within { result ≤ length bytes.now }
        ensures appended { Appends (W.contents self.old.stream) (W.contents self.new.stream)
            (take result bytes.now) }
        ensures whole { length bytes.now ≤ result
            → self.new.short_writes ≡ self.old.short_writes }
        ensures short { result < length bytes.now
            → self.new.short_writes ≡ (self.old.short_writes + 1) % 2 ^ 64 }
    {
        if bytes.is_empty() {
            return 0;
        }
        let (taken, is_broken) = match write_once(&mut self.stream, bytes) {
            Ok(taken) => (taken, false),
            Err(error) => (0, error.kind() == ErrorKind::BrokenPipe),
        };
        if taken < bytes.len() {
            self.short_writes = self.short_writes.wrapping_add(1);
            self.is_broken = is_broken;
        }
        taken as u32
    }
}

/// Writes once. A write that is interrupted is made again.
fn write_once<W: Write>(out: &mut W, bytes: &[u8]) -> io::Result<usize>
    ensures bound { WritesAtMost result bytes.now }
    ensures bytes { WriteAppends (W.contents out.old) (W.contents out.new) result bytes.now }
    ensures again { IfErr result (λ e. error_kind e ≢ ErrorKind.Interrupted) }
{
    for _ in 0..u64::MAX {
        match out.write(bytes) {
            Ok(count) => return Ok(count),
            Err(error) => {
                if error.kind() != ErrorKind::Interrupted {
                    return Err(error);
                }
            }
        }
    }
    Err(io::Error::from(ErrorKind::TimedOut))
}
