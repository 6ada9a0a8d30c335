//! Streams of the host.

ghost use Rattle.std.specs.Prelude.{◌≡◌, ◌<◌, ◌≤◌};
ghost use Rattle.rrs_fast.specs.Serving.{MakesSome};
ghost use Rattle.rrs_linux.specs.SystemCalls.{ReadsInput, WritesOutput};
ghost use Rattle.rrs_linux.specs.Transfers;

use crate::buffers::{BAD_ADDRESS, answer_of, copy_chunk, give_bytes, most_of};
use crate::host_side::HostSide;
use crate::host_writer::HostWriter;
use crate::streams::{Input, Output};
use rrs_lib::Memory;
use std::io::{Read, Write};

/// The answer where the host's read or write failed, or a clock can't be read: -5, `EIO`.
pub const HOST_FAILED: u32 = 0xffff_fffb;

/// The answer where nobody reads what is written: -32, `EPIPE`.
pub const NOBODY_READS: u32 = 0xffff_ffe0;

/// The bytes that the host is offered in one write at most: of a short buffer, of a usual one, and
/// of a long one. A call clears so many.
const SHORT: usize = 256;

const USUAL: usize = 4096;

const LONG: usize = 65_536;

impl<W: Write> Output for HostWriter<W> {
    ghost takes = { WritesOutput W.contents };

    /// Writes the bytes of a buffer in memory, by one write of the host for each 64 KiB.
    fn write_from<M: Memory>(&mut self, memory: &mut M, address: u32, count: u32) -> u32 {
        if count as usize <= SHORT {
            write_by::<W, M, SHORT>(self, memory, address, count)
        } else if count as usize <= USUAL {
            write_by::<W, M, USUAL>(self, memory, address, count)
        } else {
            write_by::<W, M, LONG>(self, memory, address, count)
        }
    }
}

/// Writes the bytes of a buffer in memory, `N` at a time.
#[inline(never)]
fn write_by<W: Write, M: Memory, const N: usize>(
    out: &mut HostWriter<W>,
    memory: &mut M,
    address: u32,
    count: u32,
) -> u32
    requires { (0 < N) × (N ≤ 65536) }
    ensures taken { MakesSome M.reads M.writes
        (WritesOutput W.contents (M.bytes memory.old) address count out.old out.new result)
        memory.old memory.new }
    ensures bytes_kept { M.bytes memory.new ≡ M.bytes memory.old }
    ensures writable_kept { M.writable memory.new ≡ M.writable memory.old }
    ensures layout_kept { M.layout memory.new ≡ M.layout memory.old }
{
    let Some(count) = most_of(address, count) else {
        return BAD_ADDRESS;
    };
    let mut done = 0;
    let mut chunk = [0; N];
    'chunks: while done < count {
        let wanted = (count - done).min(N as u32);
        let copied = copy_chunk(memory, address + done, wanted, &mut chunk);
        let taken = out.offer(&chunk[..copied as usize]);
        done += taken;
        if taken < copied {
            return answer_of(done, failure(out.is_broken()));
        }
        if copied < wanted {
            return answer_of(done, BAD_ADDRESS);
        }
    }
    done
}

/// The answer where a write of the host failed.
fn failure(is_broken: bool) -> u32
    ensures { result ≡ Transfers.failure is_broken }
{
    if is_broken { NOBODY_READS } else { HOST_FAILED }
}

impl<R: Read> Input<HostSide> for R {
    ghost gives = { ReadsInput R.remaining };

    /// Gives bytes that are held, and reads once before, where none are.
    fn read_to<M: Memory>(
        &mut self,
        held: &mut HostSide,
        memory: &mut M,
        address: u32,
        count: u32,
    ) -> u32 {
        let Some(most) = most_of(address, count) else {
            return BAD_ADDRESS;
        };
        if most == 0 {
            return 0;
        }
        match held.buffer.hold(self, most as usize) {
            None => HOST_FAILED,
            Some(0) => 0,
            Some(_) => {
                let (given, answer) = give_bytes(held.buffer.as_slice(), memory, address, count);
                held.buffer.skip(given);
                answer
            }
        }
    }
}
