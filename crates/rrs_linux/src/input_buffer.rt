//! Bytes of the input that were read and not given to the program yet.

ghost use Rattle.std.specs.Prelude.{◌≡◌, ◌≢◌, ◌≤◌, ◌<◌, ◌+◌, ◌%◌, ◌^◌, [], drop, length, IfSome, IfNone, IfErr, IsTrue, ◌↔◌};
ghost use Rattle.std.specs.Io.{ReadsAtMost};
ghost use Rattle.std.specs.Io.KnownBytes.{Keeps, IsAtEnd, ReadConsumes, prepend_known};
ghost use Rattle.std.specs.IoError.{error_kind};
ghost use Rattle.rrs_linux.specs.Transfers.{Fills};

use std::io::{self, ErrorKind, Read};

/// The most bytes that are read of the input at a time.
const CHUNK: usize = 256;

/// Bytes of the input that were read and not given to the program yet.
#[derive(Drop)]
pub struct InputBuffer {
    /// The bytes that the latest read gave, and others after them.
    bytes: [u8; CHUNK],
    /// The place of the first that was not given.
    start: usize,
    /// The place after the last that was read.
    end: usize,
    /// How many reads of the input failed, modulo 2^64.
    failures: u64,
    ghost ordered: { start ≤ end },
    ghost within: { end ≤ 256 },
}

impl InputBuffer {
    ghost use Rattle.rrs_linux.specs.BufferedBytes.{buffered_bytes};

    /// No bytes.
    pub fn new() -> InputBuffer
        ensures { buffered_bytes result ≡ [] }
    {
        InputBuffer {
            bytes: [0; CHUNK],
            start: 0,
            end: 0,
            failures: 0,
        }
    }

    /// Whether there are none.
    pub fn is_empty(&self) -> bool
        ensures { IsTrue result ↔ (buffered_bytes self.now ≡ []) }
    {
        self.start == self.end
    }

    /// How many reads of the input failed, modulo 2^64.
    pub fn failures(&self) -> u64
        ensures { result ≡ self.now.failures }
    {
        self.failures
    }

    /// The bytes that were not given yet.
    pub fn as_slice(&self) -> &[u8]
        ensures { result.now ≡ buffered_bytes self.now }
    {
        &self.bytes[self.start..self.end]
    }

    /// Lets the first bytes go, which are given.
    pub fn skip(&mut self, count: usize)
        requires { count ≤ length (buffered_bytes self.old) }
        ensures bytes { buffered_bytes self.new ≡ drop count (buffered_bytes self.old) }
        ensures failures { self.new.failures ≡ self.old.failures }
    {
        self.start += count;
    }

    /// Reads once, so many bytes at most, if none are held. Gives how many are held then, or `None`
    /// where the read failed, which is counted.
    pub(crate) fn hold<R: Read>(&mut self, input: &mut R, most: usize) -> Option<usize>
        requires { 0 < most }
        ensures kept { Keeps (prepend_known (buffered_bytes self.old) (R.remaining input.old))
            (prepend_known (buffered_bytes self.new) (R.remaining input.new)) }
        ensures count { IfSome result (λ count. count ≡ length (buffered_bytes self.new)) }
        ensures end { IfSome result (λ count. count ≡ 0 → IsAtEnd (R.remaining input.new)) }
        ensures failed { IfNone result (buffered_bytes self.new ≡ []) }
        ensures counted { IfNone result (self.new.failures ≡ (self.old.failures + 1) % 2 ^ 64) }
        ensures filled { Fills most (buffered_bytes self.old) (buffered_bytes self.new)
            (R.remaining input.old) (R.remaining input.new) }
    {
        if self.is_empty() {
            return self.fill(input, most);
        }
        Some(self.as_slice().len())
    }

    /// Reads once, so many bytes at most, where there are none, and gives how many were read, or
    /// `None` where the read failed, which is counted. An interrupted read is made again.
    pub fn fill<R: Read>(&mut self, input: &mut R, most: usize) -> Option<usize>
        requires some { 0 < most }
        requires empty { buffered_bytes self.old ≡ [] }
        ensures kept { Keeps (R.remaining input.old)
            (prepend_known (buffered_bytes self.new) (R.remaining input.new)) }
        ensures count { IfSome result (λ count. count ≡ length (buffered_bytes self.new)) }
        ensures end { IfSome result (λ count. count ≡ 0 → IsAtEnd (R.remaining input.new)) }
        ensures failed { IfNone result (buffered_bytes self.new ≡ []) }
        ensures counted { IfNone result (self.new.failures ≡ (self.old.failures + 1) % 2 ^ 64) }
        ensures within { length (buffered_bytes self.new) ≤ most }
    {
        let mut bytes = [0; CHUNK];
        match read_once(input, &mut bytes[..most.min(CHUNK)]) {
            Ok(count) => {
                *self = InputBuffer {
                    bytes,
                    start: 0,
                    end: count,
                    failures: self.failures,
                };
                Some(count)
            }
            Err(_) => {
                self.failures = self.failures.wrapping_add(1);
                None
            }
        }
    }
}

/// Reads once. A read that is interrupted is made again.
fn read_once<R: Read>(input: &mut R, buf: &mut [u8]) -> io::Result<usize>
    ensures bound { ReadsAtMost result buf.new }
    ensures bytes { ReadConsumes (R.remaining input.old) (R.remaining input.new) result buf.new }
    ensures again { IfErr result (λ e. error_kind e ≢ ErrorKind.Interrupted) }
{
    for _ in 0..u64::MAX {
        match input.read(buf) {
            Ok(count) => return Ok(count),
            Err(error) => {
                if error.kind() != ErrorKind::Interrupted {
                    return Err(error);
                }
            }
        }
    }
    Err(io::Error::from(ErrorKind::TimedOut))
}
