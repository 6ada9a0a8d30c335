//! System calls of Linux, served for a program: those that a C library makes to print, to read and
//! to end.
//!
//! [Process] is an [Environment] of `run_served`, over three streams that are the program's
//! standard input, output and error. What each call does is written in `specs/SystemCalls.antt`, by
//! what the streams do with the bytes of a buffer ([Input], [Output]). No call allocates. The
//! streams of [Linux] are a reader and two writers of the host (`specs/Transfers.antt`); those of
//! [OutputRecorder] are bytes in the host's memory (`specs/Recording.antt`).

#![tactic(auto)]

mod buffers;
mod clocks;
mod host;
mod host_side;
mod host_writer;
mod input_buffer;
mod names;
mod pieces;
mod random;
mod recorder;
mod requests;
mod statuses;
mod streams;
mod unserved;

ghost use Rattle.std.specs.Prelude.{◌≡◌, ℕ, Bool, Option, None, slice_index, []};
ghost use Rattle.rrs_lib.specs.Machine.{state_of};
ghost use Rattle.rrs_linux.specs.BufferedBytes.{buffered_bytes};
ghost use Rattle.rrs_linux.specs.SystemCalls.{ServesBy, AreAlike, moved, answered, ended_by};

use crate::clocks::put_time;
use crate::host::NOBODY_READS;
use crate::names::put_names;
use crate::random::give_random;
use crate::requests::{NO_SUCH_CALL, system_call_of};
use crate::statuses::{put_extended_status, put_named_status, put_status};
use crate::unserved::{keep_number, note_break};
use arrayvec::ArrayVec;
pub use buffers::{copy_chunk, give_bytes, most_of, put_bytes};
pub use clocks::{Clocks, LinuxClocks, StoppedClocks, TimeForm};
pub use host_side::HostSide;
pub use host_writer::HostWriter;
pub use input_buffer::InputBuffer;
pub use pieces::write_pieces;
pub use recorder::{Known, OutputRecorder, records_determined};
pub use requests::{BRK, Request};
use rrs_fast::Environment;
use rrs_lib::instruction_executor::InstructionExecutor;
use rrs_lib::{HartState, Memory};
pub use statuses::Lookup;
pub use streams::{Input, Output};
pub use unserved::MOST_UNSERVED;

/// The status of a program that writes what nobody reads: 128 and the number of `SIGPIPE`.
const ENDED_BY_SIGPIPE: u32 = 141;

/// Where a program's heap lies, and where it ends at present.
#[derive(Clone, Copy, Debug, PartialEq)]
pub struct Heap {
    /// The lowest break.
    pub start: u32,
    /// The highest break.
    pub end: u32,
    /// The break: the first address after the heap.
    pub top: u32,
}

impl Heap {
    /// An empty heap, which may grow from `start` to `end`.
    pub fn new(start: u32, end: u32) -> Heap
        ensures { result ≡ record { start = start; end = end; top = start } }
    {
        Heap {
            start,
            end,
            top: start,
        }
    }

    /// Moves the break to an address, if it may lie there, and gives the break.
    fn set_break(&mut self, address: u32) -> u32
        ensures moved { self.new ≡ moved self.old address }
        ensures answer { result ≡ (moved self.old address).top }
    {
        if self.start <= address && address <= self.end {
            self.top = address;
        }
        self.top
    }
}

/// The environment of a program that makes system calls of Linux: its streams and its heap.
#[derive(Drop)]
pub struct Process<R, W, E, K> {
    /// Standard input, descriptor 0.
    pub input: R,
    /// Standard output, descriptor 1.
    pub output: W,
    /// Standard error, descriptor 2.
    pub errors: E,
    /// The program's heap.
    pub heap: Heap,
    /// The numbers of the calls that it made and that are not served: each once, in the order in
    /// which they were first made, and 16 at most. That of `brk` is among them where the program was
    /// refused memory.
    pub unserved: ArrayVec<u32, MOST_UNSERVED>,
    /// The state of the pseudo-random numbers that `getrandom` gives: those of SplitMix64, of which
    /// a call takes the next 32. They are the same in each run from one seed, and no keys.
    pub random: u64,
    /// What is kept between two calls, which says of what kind the environment is: of a [Linux]
    /// what was read of its input and not given to the program yet, and its clocks.
    pub held: K,
}

/// The environment of a program whose standard input is a reader of the host, and whose standard
/// output and standard error are writers.
pub type Linux<R, W, E> = Process<R, HostWriter<W>, HostWriter<E>, HostSide>;

impl<R, W, E> Process<R, HostWriter<W>, HostWriter<E>, HostSide> {
    /// An environment with these streams, this heap, these clocks, and this seed of its
    /// pseudo-random numbers, which holds nothing of the input yet, and of which each call was
    /// served so far.
    pub fn new(input: R, output: W, errors: E, heap: Heap, clocks: LinuxClocks, random: u64) -> Self
        ensures input { result.input ≡ input }
        ensures output { result.output.stream ≡ output }
        ensures errors { result.errors.stream ≡ errors }
        ensures heap { result.heap ≡ heap }
        ensures unserved { result.unserved.items ≡ [] }
        ensures random { result.random ≡ random }
        ensures held { buffered_bytes result.held.buffer ≡ [] }
        ensures clocks { result.held.clocks ≡ clocks }
    {
        Process {
            input,
            output: HostWriter::new(output),
            errors: HostWriter::new(errors),
            heap,
            unserved: ArrayVec::new(),
            random,
            held: HostSide {
                buffer: InputBuffer::new(),
                clocks,
            },
        }
    }
}

impl<R: Input<K>, W: Output, E: Output, K: Clocks> Environment for Process<R, W, E, K> {
    ghost serves = { ServesBy R.gives W.takes E.takes K.tells };

    ghost alike = { AreAlike R.alike W.alike E.alike };

    /// Serves a system call: the number is in a7, the arguments in a0 to a4, the answer in a0.
    fn serve<M: Memory>(&mut self, executor: &mut InstructionExecutor<M>) -> Option<u32> {
        let hart = &mut *executor.hart_state;
        let mem = &mut *executor.mem;
        match system_call_of(hart) {
            Request::Exit(status) => Some(status),
            Request::Answer(answer) => go_on(hart, answer),
            Request::NoCall(number) => {
                keep_number(&mut self.unserved, number);
                go_on(hart, NO_SUCH_CALL)
            }
            Request::Status(address) => go_on(hart, put_status(mem, address)),
            Request::NamedStatus(lookup, address) => {
                go_on(hart, put_named_status(mem, lookup, address))
            }
            Request::ExtendedStatus(lookup, address) => {
                go_on(hart, put_extended_status(mem, lookup, address))
            }
            Request::Time(clock, form, address) => {
                go_on(hart, put_time(self.held.tell(clock), form, mem, address))
            }
            Request::SetBreak(address) => {
                note_break(self.heap, &mut self.unserved, address);
                go_on(hart, self.heap.set_break(address))
            }
            Request::Names(address) => go_on(hart, put_names(mem, address)),
            Request::Random(address, count) => {
                go_on(hart, give_random(&mut self.random, mem, address, count))
            }
            Request::Read(address, count) => {
                let answer = self.input.read_to(&mut self.held, mem, address, count);
                go_on(hart, answer)
            }
            Request::WriteOutput(address, count) => {
                go_on_if_read(hart, self.output.write_from(mem, address, count))
            }
            Request::WriteErrors(address, count) => {
                go_on_if_read(hart, self.errors.write_from(mem, address, count))
            }
            Request::WriteOutputPieces(address, count) => {
                go_on_if_read(hart, write_pieces(&mut self.output, mem, address, count))
            }
            Request::WriteErrorPieces(address, count) => {
                go_on_if_read(hart, write_pieces(&mut self.errors, mem, address, count))
            }
        }
    }
}

/// Puts the answer of a call into a0. The program goes on.
fn go_on(hart: &mut HartState, answer: u32) -> Option<u32>
    ensures goes_on { result ≡ None }
    ensures answered { (bytes : ℕ → Option ℕ) (writable : ℕ → Bool)
        → state_of hart.new bytes writable ≡ answered (state_of hart.old bytes writable) answer }
    ensures zero_kept { slice_index hart.new.registers 0 ≡ slice_index hart.old.registers 0 }
{
    hart.write_register(10, answer);
    None
}

/// Puts the answer of a write into a0. The program goes on, unless nobody reads what it writes.
fn go_on_if_read(hart: &mut HartState, answer: u32) -> Option<u32>
    ensures ends { result ≡ ended_by answer }
    ensures answered { (bytes : ℕ → Option ℕ) (writable : ℕ → Bool)
        → state_of hart.new bytes writable ≡ answered (state_of hart.old bytes writable) answer }
    ensures zero_kept { slice_index hart.new.registers 0 ≡ slice_index hart.old.registers 0 }
{
    hart.write_register(10, answer);
    if answer == NOBODY_READS {
        return Some(ENDED_BY_SIGPIPE);
    }
    None
}
