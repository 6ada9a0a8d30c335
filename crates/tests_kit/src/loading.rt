//! What `read_to_memory` writes, where it stops, and what it says of a failing reader.

use crate::machines::{memory_of, space_of, word_at};
use rrs_lib::Memory;
use rrs_lib::memories::{LoadFault, read_to_memory};
use std::alloc::{AllocError, Global};
use std::io::{self, Read};
use std::process::Abort;
use std::test::Fail;

// A reader of bytes whose read before byte `fails_at` fails once. The next read goes on from there.
#[derive(Drop)]
struct Failing<'a> {
    bytes: &'a [u8],
    given: usize,
    fails_at: usize,
    kind: io::ErrorKind,
    has_failed: bool,
}

impl Read for Failing<'_> {
    fn read(&mut self, buf: &mut [u8]) -> io::Result<usize> {
        if self.given == self.fails_at && !self.has_failed {
            self.has_failed = true;
            return Err(io::Error::from(self.kind));
        }
        let count = buf.len().min(self.bytes.len()).min(1);
        buf[..count].copy_from_slice(&self.bytes[..count]);
        self.bytes = &self.bytes[count..];
        self.given = self.given.saturating_add(count);
        Ok(count)
    }
}

/// A reader that counts its calls. The second tells the end, and each later one gives a byte more.
#[derive(Drop)]
struct Resuming {
    calls: u8,
}

impl Read for Resuming {
    fn read(&mut self, buf: &mut [u8]) -> io::Result<usize> {
        self.calls = self.calls.saturating_add(1);
        let count = if self.calls == 2 { 0 } else { buf.len().min(1) };
        buf[..count].copy_from_slice(&[self.calls][..count]);
        Ok(count)
    }
}

/// A reader of bytes that does not fail.
fn reader_of(bytes: &[u8]) -> Failing {
    Failing {
        bytes,
        given: 0,
        fails_at: usize::MAX,
        kind: io::ErrorKind::Other,
        has_failed: false,
    }
}

/// The text of an error, or `loaded`.
fn text_of(alloc: Global, answer: Result<(), LoadFault>) -> Result<String, AllocError> {
    match answer {
        Err(fault) => format!(in alloc; "{fault}"),
        Ok(()) => format!(in alloc; "loaded"),
    }
}

/// Loads from a reader. Returns the text of the answer, and how many bytes were taken.
fn load<M: Memory>(
    alloc: Global,
    reader: &mut Failing,
    memory: &mut M,
    addr: u32,
) -> Result<(String, usize), AllocError> {
    let answer = read_to_memory(reader, memory, addr);
    Ok((text_of(alloc, answer)?, reader.given))
}

/// Asserts what was said, how many bytes were taken, and what is in memory.
fn same_load(
    rt: &impl Abort,
    case: usize,
    seen: (&str, usize, &[u32]),
    expected: (&str, usize, &[u32]),
) {
    assert!(rt; seen == expected, "at {case}");
}

const LOADED: &str = "loaded";

const REFUSED: &str = "Could not write byte at address 0x00000004";

const PAST: &str = "Could not write byte past address 0xffffffff";

/// Bytes, an address, and the words before; what is said, how many bytes are taken, and the words
/// after it.
static IN_ORDER: [(&[u8], u32, &[u32], &str, usize, &[u32]); 3] = [
    (&[0xaa, 0xbb], 3, &[0, 0], LOADED, 2, &[0xaa00_0000, 0xbb]),
    (&[1, 2, 3, 4, 5, 6], 0, &[0], REFUSED, 5, &[0x0403_0201]),
    (&[], u32::MAX, &[], LOADED, 0, &[]),
];

/// Bytes to an address of a memory of these words, and the words after it. The first is the example
/// of `read_to_memory`.
#[test]
fn loads_bytes_in_order(rt: HostRuntime) -> Result<(), Fail> {
    for &(bytes, addr, before, said, taken, words) in &IN_ORDER {
        let mut memory = memory_of(rt.alloc(), before)?;
        let mut reader = reader_of(bytes);
        let (text, given) = load(rt.alloc(), &mut reader, &mut memory, addr)?;
        let seen = (text.as_str(), given, memory.mem.as_slice());
        same_load(&rt, bytes.len(), seen, (said, taken, words));
    }
    Ok(())
}

/// The words that are read before the read of each of the bytes 1 to 8, and after them.
static READ_BEFORE: [[u32; 2]; 9] = [
    [0, 0],
    [0x01, 0],
    [0x0201, 0],
    [0x03_0201, 0],
    [0x0403_0201, 0],
    [0x0403_0201, 0x05],
    [0x0403_0201, 0x0605],
    [0x0403_0201, 0x07_0605],
    [0x0403_0201, 0x0807_0605],
];

/// Asserts that a read of this kind that fails before a byte is told, and leaves these words.
fn is_told(
    rt: &impl Abort,
    alloc: Global,
    kind: io::ErrorKind,
    fails_at: usize,
    words: &[u32],
) -> Result<(), AllocError> {
    let mut memory = memory_of(alloc, &[0, 0])?;
    let mut reader = reader_of(&[1, 2, 3, 4, 5, 6, 7, 8]);
    reader.fails_at = fails_at;
    reader.kind = kind;
    let (text, taken) = load(alloc, &mut reader, &mut memory, 0)?;
    let seen = (text.as_str(), taken, memory.mem.as_slice());
    same_load(rt, fails_at, seen, ("Could not read byte", fails_at, words));
    Ok(())
}

/// Before each of the bytes 1 to 8 in turn, and after them, a read fails once. No byte is taken
/// after the failure.
#[test]
fn tells_a_failing_read(rt: HostRuntime) -> Result<(), Fail> {
    for kind in [io::ErrorKind::BrokenPipe, io::ErrorKind::Interrupted] {
        for (fails_at, words) in READ_BEFORE.iter().enumerate() {
            is_told(&rt, rt.alloc(), kind, fails_at, words)?;
        }
    }
    Ok(())
}

/// Regions, bytes and an address; what is said, how many bytes are taken, and the word at the
/// address after it: up to the last address, one byte more, and into a gap between two regions.
static ENDS: [(&[(u32, u32, &[u32])], &[u8], u32, &str, usize, u32); 3] = [
    (AT_THE_END, &[0xab], u32::MAX, LOADED, 1, 0xab00_0000),
    (AT_THE_END, &[0xab, 0xcd], u32::MAX, PAST, 2, 0xab00_0000),
    (WITH_A_GAP, &[1, 2, 3, 4, 5, 6], 0, REFUSED, 5, 0x0403_0201),
];

const AT_THE_END: &[(u32, u32, &[u32])] = &[(0xffff_fffc, 4, &[0])];

const WITH_A_GAP: &[(u32, u32, &[u32])] = &[(0, 4, &[0]), (8, 4, &[0])];

#[test]
fn stops_where_regions_or_addresses_end(rt: HostRuntime) -> Result<(), Fail> {
    for &(regions, bytes, addr, said, taken, word) in &ENDS {
        let mut space = space_of(rt.alloc(), regions)?;
        let mut reader = reader_of(bytes);
        let (text, given) = load(rt.alloc(), &mut reader, &mut space, addr)?;
        let left = [word_at(&mut space, addr).unwrap_or(0)];
        let seen = (text.as_str(), given, left.as_slice());
        same_load(&rt, bytes.len(), seen, (said, taken, &[word]));
    }
    Ok(())
}

/// After its end a reader is not asked again, also where it would have more to give.
#[test]
fn is_not_asked_after_the_end(rt: HostRuntime) -> Result<(), Fail> {
    let mut memory = memory_of(rt.alloc(), &[0])?;
    let mut reader = Resuming { calls: 0 };
    let answer = read_to_memory(&mut reader, &mut memory, 0);
    let text = text_of(rt.alloc(), answer)?;
    let seen = (
        text.as_str(),
        usize::from(reader.calls),
        memory.mem.as_slice(),
    );
    same_load(&rt, 1, seen, (LOADED, 2, &[0x01]));
    Ok(())
}
