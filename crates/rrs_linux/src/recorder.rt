//! Streams that are bytes in the host's memory.

ghost use Rattle.std.specs.Prelude.{◌≡◌, [], IfOk, vec_capacity};
ghost use Rattle.rrs_fast.specs.Serving.{IsDeterminedBy};
ghost use Rattle.rrs_linux.specs.Recording.{GivesInput, TakesOutput, TellsKnown, AlikeInputs, AlikeRecords, Records, AlikeRecordings};

use crate::buffers::{BAD_ADDRESS, answer_of, give_bytes, most_of};
use crate::clocks::{Clocks, StoppedClocks};
use crate::streams::{Input, Output};
use crate::{Heap, Process};
use arrayvec::ArrayVec;
use rrs_lib::{MemAccessSize, Memory};
use std::alloc::{AllocError, Global};
use std::time::Duration;

/// The answer where a record has no room for a byte: -28, `ENOSPC`.
const NO_ROOM: u32 = 0xffff_ffe4;

/// Says of an environment that its input is known bytes, and has its clocks, which stand still.
#[derive(Drop)]
pub struct Known {
    /// The clocks.
    pub clocks: StoppedClocks,
}

impl Clocks for Known {
    ghost tells = { TellsKnown };

    fn tell(&self, clock: u32) -> Option<Duration> {
        self.clocks.tell(clock)
    }
}

/// The environment of a program that reads its input from bytes that are given beforehand, and
/// whose output is recorded.
///
/// It serves the calls of [Linux](crate::Linux), and depends on nothing of the host: no call
/// allocates or fails, so what each does follows from the environment and the machine. A read gives
/// as many bytes as there are and were asked for: `input` is what the program has not got yet. A
/// write takes all of its bytes, as far as the record has room: `output` and `errors` are what was
/// written, and their capacity is the room that they have.
pub type OutputRecorder<'a> = Process<&'a [u8], Vec<u8>, Vec<u8>, Known>;

impl<'a> Process<&'a [u8], Vec<u8>, Vec<u8>, Known> {
    /// An environment with this input, with room for so many bytes of the output and of the errors
    /// each, with this heap, with clocks that stand at 0, and with pseudo-random numbers whose seed
    /// is 0. Nothing is written yet, and each call was served so far.
    ///
    /// # Errors
    ///
    /// There is no memory for the record.
    pub fn new(
        alloc: Global,
        input: &'a [u8],
        room: usize,
        heap: Heap,
    ) -> Result<OutputRecorder<'a>, AllocError>
        ensures input { IfOk result (λ made. made.input ≡ input.entry) }
        ensures output { IfOk result (λ made. made.output.items ≡ []) }
        ensures errors { IfOk result (λ made. made.errors.items ≡ []) }
        ensures room { IfOk result (λ made.
            (vec_capacity made.output ≡ room) × (vec_capacity made.errors ≡ room)) }
        ensures heap { IfOk result (λ made. made.heap ≡ heap) }
        ensures unserved { IfOk result (λ made. made.unserved.items ≡ []) }
        ensures random { IfOk result (λ made. made.random ≡ 0) }
        ensures clocks { IfOk result (λ made. made.held.clocks ≡ StoppedClocks.ZERO) }
    {
        Ok(Process {
            input,
            output: Vec::with_capacity(alloc, room)?,
            errors: Vec::with_capacity(alloc, room)?,
            heap,
            unserved: ArrayVec::new(),
            random: 0,
            held: Known {
                clocks: StoppedClocks::ZERO,
            },
        })
    }
}

/// The law that the calls of an [OutputRecorder] are determined: two that are alike, at one state,
/// make the same accesses, leave one state, give one answer, and are alike again.
///
/// They are alike if they have the same input left, the same output and errors, room for as many
/// bytes, one heap, the same numbers of calls that are not served, and one state of the
/// pseudo-random numbers. So each run over them is the only one (`only_alike` of `run_served`).
pub fn records_determined()
    ensures { IsDeterminedBy Records AlikeRecordings }
{}

impl Input<Known> for &[u8] {
    ghost gives = { GivesInput };

    ghost alike = { AlikeInputs };

    /// Gives as many bytes as there are and were asked for.
    fn read_to<M: Memory>(
        &mut self,
        _held: &mut Known,
        memory: &mut M,
        address: u32,
        count: u32,
    ) -> u32 {
        let input = *self;
        let (given, answer) = give_bytes(input, memory, address, count);
        *self = &input[given..];
        answer
    }
}

impl Output for Vec<u8> {
    ghost takes = { TakesOutput };

    ghost alike = { AlikeRecords };

    /// Takes the bytes of a buffer one by one, as far as there is room.
    fn write_from<M: Memory>(&mut self, memory: &mut M, address: u32, count: u32) -> u32 {
        let Some(count) = most_of(address, count) else {
            return BAD_ADDRESS;
        };
        for done in 0..count {
            if self.len() >= self.capacity() {
                return answer_of(done, NO_ROOM);
            }
            match memory.read_mem(address + done, MemAccessSize::Byte) {
                Some(byte) => self.push_reserved(byte as u8),
                None => return answer_of(done, BAD_ADDRESS),
            }
        }
        count
    }
}
