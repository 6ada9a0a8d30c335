//! The bytes of a program's buffers, and the answers of the calls that transfer them.

ghost use Rattle.std.specs.Prelude.{◌≡◌, ◌≤◌, ◌<◌, ◌+◌, ◌^◌, min, take, drop, length, None, MatchOption};
ghost use Rattle.rrs_lib.specs.AccessLists.{Makes};
ghost use Rattle.rrs_fast.specs.Serving.{MakesSome};
ghost use Rattle.rrs_linux.specs.Giving.{GivesText};
ghost use Rattle.rrs_linux.specs.Statuses.{PutsBytes};
ghost use Rattle.rrs_linux.specs.Transfers.{Stands, byte_reads, counted, most_bytes};

use rrs_lib::{MemAccessSize, Memory};

/// The most bytes that one call reads or writes, as on Linux.
pub const MOST_BYTES: u32 = 0x7fff_f000;

/// The answer where a buffer's first byte can't be accessed, or the buffer passes the last address:
/// -14, `EFAULT`.
pub const BAD_ADDRESS: u32 = 0xffff_fff2;

/// The answer where an argument is none that the call takes: -22, `EINVAL`.
pub const BAD_ARGUMENT: u32 = 0xffff_ffea;

/// How many bytes of a buffer may be transferred, or `None` where it passes the last address.
pub fn most_of(address: u32, count: u32) -> Option<u32>
    ensures { MatchOption result (2 ^ 32 < address + count)
        (λ most. (address + count ≤ 2 ^ 32) × (most ≡ min count most_bytes)) }
{
    if u64::from(address) + u64::from(count) > 1 << 32 {
        return None;
    }
    Some(count.min(MOST_BYTES))
}

/// The answer of a call that transferred so many bytes and then met an error.
pub fn answer_of(done: u32, error: u32) -> u32
    ensures { result ≡ counted done error }
{
    if done == 0 { error } else { done }
}

/// Copies bytes of the memory from an address on, up to the first that is not mapped.
pub fn copy_chunk<M: Memory>(memory: &mut M, address: u32, wanted: u32, chunk: &mut [u8]) -> u32
    requires room { wanted ≤ length chunk.old }
    requires in_range { address + wanted ≤ 2 ^ 32 }
    ensures stands { Stands (M.bytes memory.old) address (take result chunk.new) }
    ensures within { result ≤ wanted }
    ensures ended { result < wanted → M.bytes memory.old (address + result) ≡ None }
    ensures read { Makes M.reads M.writes
        (byte_reads (M.bytes memory.old) address (min wanted (result + 1)))
        memory.old memory.new }
    ensures bytes_kept { M.bytes memory.new ≡ M.bytes memory.old }
    ensures writable_kept { M.writable memory.new ≡ M.writable memory.old }
    ensures layout_kept { M.layout memory.new ≡ M.layout memory.old }
{
    for index in 0..wanted {
        match memory.read_mem(address + index, MemAccessSize::Byte) {
            Some(byte) => chunk[index as usize] = byte as u8,
            None => return index,
        }
    }
    wanted
}

/// Gives bytes of the input to a buffer in memory, as many as there are and were asked for. The
/// answer is how many were given, and the answer of the call.
pub fn give_bytes<M: Memory>(input: &[u8], memory: &mut M, address: u32, count: u32) -> (usize, u32)
    ensures given { MakesSome M.reads M.writes
        (GivesText (M.writable memory.old) (M.bytes memory.old) (M.bytes memory.new) address count
        input.now (drop result.0 input.now) result.1)
        memory.old memory.new }
    ensures within { result.0 ≤ length input.now }
    ensures writable_kept { M.writable memory.new ≡ M.writable memory.old }
    ensures layout_kept { M.layout memory.new ≡ M.layout memory.old }
{
    let Some(count) = most_of(address, count) else {
        return (0, BAD_ADDRESS);
    };
    let most = input.len().min(count as usize) as u32;
    for done in 0..most {
        let byte = input[done as usize];
        if !memory.write_mem(address + done, MemAccessSize::Byte, u32::from(byte)) {
            return (done as usize, answer_of(done, BAD_ADDRESS));
        }
    }
    (most as usize, most)
}

/// Puts the bytes of a structure into memory, and gives the answer of the call.
pub fn put_bytes<M: Memory>(structure: &[u8], memory: &mut M, address: u32) -> u32
    requires some { 0 < length structure.now }
    requires small { length structure.now ≤ most_bytes }
    ensures put { MakesSome M.reads M.writes
        (λ accesses. PutsBytes (M.writable memory.old) (M.bytes memory.old) (M.bytes memory.new)
        address structure.now accesses result)
        memory.old memory.new }
    ensures writable_kept { M.writable memory.new ≡ M.writable memory.old }
    ensures layout_kept { M.layout memory.new ≡ M.layout memory.old }
{
    let (given, _answer) = give_bytes(structure, memory, address, structure.len() as u32);
    if given == structure.len() {
        0
    } else {
        BAD_ADDRESS
    }
}
