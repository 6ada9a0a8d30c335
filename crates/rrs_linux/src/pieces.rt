//! The pieces of a vector, which one call writes one after another.

ghost use Rattle.std.specs.Prelude.{◌≡◌, ◌≤◌, ◌<◌, ◌+◌, ◌*◌, ◌^◌, ℕ, Option, Some, length};
ghost use Rattle.std.specs.Bool.{OnTrue, OnFalse};
ghost use Rattle.rrs_lib.specs.Bytes.{little_endian};
ghost use Rattle.rrs_fast.specs.Serving.{MakesSome};
ghost use Rattle.rrs_linux.specs.Transfers.{Stands};
ghost use Rattle.rrs_linux.specs.Vectors.{HasNegative, HasNoNegative, WritesPieces, WritesVector, together};

use crate::buffers::{BAD_ADDRESS, BAD_ARGUMENT, MOST_BYTES, answer_of, copy_chunk};
use crate::streams::Output;
use rrs_lib::Memory;

/// The most pieces that one call takes, `IOV_MAX`.
const MOST_PIECES: u32 = 1024;
/// The pieces for which a call has room where there are few.
const FEW_PIECES: u32 = 16;

/// Writes the pieces of a vector in memory, and gives the answer of the call.
pub fn write_pieces<W: Output, M: Memory>(
    out: &mut W,
    memory: &mut M,
    address: u32,
    count: u32,
) -> u32
    ensures taken { MakesSome M.reads M.writes
        (WritesVector W.takes (M.bytes memory.old) address count out.old out.new result)
        memory.old memory.new }
    ensures bytes_kept { M.bytes memory.new ≡ M.bytes memory.old }
    ensures writable_kept { M.writable memory.new ≡ M.writable memory.old }
    ensures layout_kept { M.layout memory.new ≡ M.layout memory.old }
{
    if count > MOST_PIECES {
        return BAD_ARGUMENT;
    }
    if count <= FEW_PIECES {
        write_of::<W, M, 128>(out, memory, address, count)
    } else {
        write_of::<W, M, 8192>(out, memory, address, count)
    }
}

/// Writes the pieces of a vector of at most `N` bytes, and gives the answer of the call.
#[inline(never)]
fn write_of<W: Output, M: Memory, const N: usize>(
    out: &mut W,
    memory: &mut M,
    address: u32,
    count: u32,
) -> u32
    requires { (8 * count ≤ N) × (N ≤ 8192) }
    ensures taken { MakesSome M.reads M.writes
        (WritesVector W.takes (M.bytes memory.old) address count out.old out.new result)
        memory.old memory.new }
    ensures bytes_kept { M.bytes memory.new ≡ M.bytes memory.old }
    ensures writable_kept { M.writable memory.new ≡ M.writable memory.old }
    ensures layout_kept { M.layout memory.new ≡ M.layout memory.old }
{
    let size = 8 * count;
    if u64::from(address) + u64::from(size) > 1 << 32 {
        return BAD_ADDRESS;
    }
    let mut vector = [0; N];
    if copy_chunk(memory, address, size, &mut vector) < size {
        return BAD_ADDRESS;
    }
    let vector = &vector[..size as usize];
    if has_negative(vector) {
        return BAD_ARGUMENT;
    }
    write_each(out, memory, vector)
}

/// Writes the pieces of a vector that stands in the memory, in order, up to the first that is not
/// written whole.
fn write_each<W: Output, M: Memory>(out: &mut W, memory: &mut M, vector: &[u8]) -> u32
    requires { length vector.now ≤ 8192 }
    ensures taken { (a n : ℕ) → Stands (M.bytes memory.old) a vector.now
        → length vector.now ≡ 8 * n → MakesSome M.reads M.writes
        (WritesPieces W.takes (M.bytes memory.old) a n 0 out.old out.new result)
        memory.old memory.new }
    ensures bytes_kept { M.bytes memory.new ≡ M.bytes memory.old }
    ensures writable_kept { M.writable memory.new ≡ M.writable memory.old }
    ensures layout_kept { M.layout memory.new ≡ M.layout memory.old }
{
    let mut done = 0;
    for index in 0..vector.len() / 8 {
        let base = word_of(vector, 8 * index);
        let size = word_of(vector, 8 * index + 4);
        let wanted = size.min(MOST_BYTES - done);
        let answer = out.write_from(memory, base, wanted);
        if answer != wanted {
            return together(done, wanted, answer);
        }
        done += wanted;
    }
    done
}

/// The answer of a call whose pieces so far have so many bytes, where the write of the next, of
/// more bytes than it answers, or of an error, ends it.
fn together(done: u32, wanted: u32, answer: u32) -> u32
    requires { done + wanted < 2 ^ 31 }
    ensures { result ≡ together done wanted answer }
{
    if answer < wanted {
        done + answer
    } else {
        answer_of(done, answer)
    }
}

/// Whether a piece of a vector has a length that is negative as a `ssize_t`.
fn has_negative(vector: &[u8]) -> bool
    ensures some { OnTrue result ((bytes : ℕ → Option ℕ) (a n : ℕ) → Stands bytes a vector.now
        → length vector.now ≡ 8 * n → HasNegative bytes a n) }
    ensures none { OnFalse result ((bytes : ℕ → Option ℕ) (a n : ℕ) → Stands bytes a vector.now
        → length vector.now ≡ 8 * n → HasNoNegative bytes a n) }
{
    for index in 0..vector.len() / 8 {
        if word_of(vector, 8 * index + 4) >= 1 << 31 {
            return true;
        }
    }
    false
}

/// The word at a place of a vector, the lowest byte first.
fn word_of(vector: &[u8], index: usize) -> u32
    requires { index + 4 ≤ length vector.now }
    ensures { (bytes : ℕ → Option ℕ) (a : ℕ) → Stands bytes a vector.now
        → little_endian bytes (a + index) 4 ≡ Some result }
{
    let low = u32::from(vector[index]) + 256 * u32::from(vector[index + 1]);
    let high = u32::from(vector[index + 2]) + 256 * u32::from(vector[index + 3]);
    low + 65536 * high
}
