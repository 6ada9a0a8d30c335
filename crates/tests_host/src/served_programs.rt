//! The programs that make system calls: called with their premises proved, and run on chosen texts
//! and inputs over both environments.

ghost use Rattle.std.specs.Prelude.{◌≡◌, ◌+◌, ◌*◌, ◌<◌, ◌≤◌, ◌++◌, length, vec_capacity, IfOk};
ghost use Rattle.rrs_extra.specs.Programs.{HoldsWords, IsWritable};
ghost use Rattle.rrs_linux.specs.Transfers.{Stands};
ghost use Rattle.rrs_programs.specs.Echoing.{echo_program};
ghost use Rattle.rrs_programs.specs.WritingAndExiting.{write_and_exit_program};
ghost use Rattle.tests_host.specs.ProgramExamples.{words_to_write, words_to_echo};

use crate::machines::streams_of;
use rrs_fast::{DecodeCache, Ending, Environment, ServedEnd, run_served};
use rrs_lib::instruction_executor::InstructionExecutor;
use rrs_lib::memories::VecMemory;
use rrs_lib::{HartState, Memory};
use rrs_linux::{Heap, Linux, LinuxClocks, OutputRecorder, StoppedClocks};
use rrs_programs::{echo, write_and_exit, write_and_exit_over};
use std::alloc::{AllocError, Global};
use std::test::Fail;
use tests_shared::hart_of;

/// The words of `write_and_exit`.
const WRITE_AND_EXIT: [u32; 13] = [
    0x00050693, 0x00058713, 0x00060793, 0x00100513, 0x00068593, 0x00070613, 0x04000893, 0x00000073,
    0x00000593, 0x00078513, 0x00000613, 0x05d00893, 0x00000073,
];

/// The words of `echo`.
const ECHO: [u32; 18] = [
    0x00050793, 0x00058713, 0x00000513, 0x00078593, 0x00070613, 0x03f00893, 0x00000073, 0x00050613,
    0x00a04c63, 0x00000513, 0x00000593, 0x00000613, 0x05d00893, 0x00000073, 0x00100513, 0x04000893,
    0x00000073, 0xfc5ff06f,
];

/// So many steps, and then the end with a status.
fn exit_at(steps: u64, status: u32) -> ServedEnd {
    ServedEnd {
        steps,
        ending: Ending::Exit(status),
    }
}

/// The program that writes, and a text of 14 bytes after it, at 52.
fn words_to_write(alloc: Global) -> Result<VecMemory, AllocError>
    ensures { IfOk result (λ memory. memory.mem.items ≡ words_to_write) }
{
    let words = [
        0x00050693, 0x00058713, 0x00060793, 0x00100513, 0x00068593, 0x00070613, 0x04000893,
        0x00000073, 0x00000593, 0x00078513, 0x00000613, 0x05d00893, 0x00000073, 0x6c6c6548,
        0x52202c6f, 0x2d435349, 0x00002156,
    ];
    Ok(VecMemory::new(words.to_vec(alloc)?))
}

/// Calls the program at 0 to write the text at an address and to exit with a status.
fn write<M: Memory>(
    mem: &mut M,
    hart_state: &mut HartState,
    recorder: &mut OutputRecorder,
    from: u32,
    text: &[u8],
    status: u32,
) -> ServedEnd
    requires program { HoldsWords (M.bytes mem.old) 0 write_and_exit_program }
    requires there { Stands (M.bytes mem.old) from text.now }
    requires short { length text.now ≤ 100 }
    requires room { length recorder.old.output.items + length text.now
        ≤ vec_capacity recorder.old.output }
    ensures output { recorder.new.output.items ≡ recorder.old.output.items ++ text.now }
{
    hart_state.pc = 0;
    hart_state.registers[10] = from;
    hart_state.registers[11] = text.len() as u32;
    hart_state.registers[12] = status;
    let mut executor = InstructionExecutor { mem, hart_state };
    write_and_exit(&mut executor, recorder, text, 13)
}

#[test]
fn writes_a_text_and_exits(rt: HostRuntime) -> Result<(), Fail> {
    let mut memory = words_to_write(rt.alloc())?;
    let mut hart = HartState::new();
    let mut recorder = OutputRecorder::new(rt.alloc(), &[], 14, Heap::new(0, 0))?;
    let text = b"Hello, RISC-V!";
    let end = write(&mut memory, &mut hart, &mut recorder, 52, text, 0x103);
    assert!(rt; end == exit_at(13, 3) && recorder.output.as_slice() == text.as_slice());
    Ok(())
}

/// Calls the same over streams of the host.
fn write_over<M: Memory>(
    mem: &mut M,
    hart_state: &mut HartState,
    linux: &mut Linux<&[u8], Vec<u8>, Vec<u8>>,
    from: u32,
    text: &[u8],
) -> ServedEnd
    requires program { HoldsWords (M.bytes mem.old) 0 write_and_exit_program }
    requires there { Stands (M.bytes mem.old) from text.now }
    requires short { length text.now ≤ 100 }
{
    hart_state.pc = 0;
    hart_state.registers[10] = from;
    hart_state.registers[11] = text.len() as u32;
    hart_state.registers[12] = 7;
    let mut executor = InstructionExecutor { mem, hart_state };
    write_and_exit_over(&mut executor, linux, text, 13)
}

#[test]
fn writes_a_text_to_a_stream(rt: HostRuntime) -> Result<(), Fail> {
    let mut memory = words_to_write(rt.alloc())?;
    let mut hart = HartState::new();
    let clocks = LinuxClocks::Stopped(StoppedClocks::ZERO);
    let mut linux = streams_of(rt.alloc(), &[], clocks);
    let text = b"Hello, RISC-V!";
    let end = write_over(&mut memory, &mut hart, &mut linux, 52, text);
    assert!(rt; end == exit_at(13, 7) && linux.output.stream.as_slice() == text.as_slice());
    Ok(())
}

/// The program that echoes, and room for eight bytes after it, at 72.
fn words_to_echo(alloc: Global) -> Result<VecMemory, AllocError>
    ensures { IfOk result (λ memory. memory.mem.items ≡ words_to_echo) }
{
    let words = [
        0x00050793, 0x00058713, 0x00000513, 0x00078593, 0x00070613, 0x03f00893, 0x00000073,
        0x00050613, 0x00a04c63, 0x00000513, 0x00000593, 0x00000613, 0x05d00893, 0x00000073,
        0x00100513, 0x04000893, 0x00000073, 0xfc5ff06f, 0, 0,
    ];
    Ok(VecMemory::new(words.to_vec(alloc)?))
}

/// Calls the program at 0 to echo the input, by a buffer of so many bytes at 72.
fn echo_by<M: Memory>(
    mem: &mut M,
    hart_state: &mut HartState,
    recorder: &mut OutputRecorder,
    size: u32,
) -> ServedEnd
    requires program { HoldsWords (M.bytes mem.old) 0 echo_program }
    requires buffer { IsWritable (M.writable mem.old) 72 size }
    requires some { 0 < size }
    requires short { length recorder.old.input.now ≤ 100 }
    requires room { length recorder.old.output.items + length recorder.old.input.now
        ≤ vec_capacity recorder.old.output }
    ensures output { recorder.new.output.items
        ≡ recorder.old.output.items ++ recorder.old.input.now }
{
    hart_state.pc = 0;
    hart_state.registers[10] = 72;
    hart_state.registers[11] = size;
    let mut executor = InstructionExecutor { mem, hart_state };
    let limit = 11 * recorder.input.len() as u64 + 14;
    echo(&mut executor, recorder, limit)
}

#[test]
fn echoes_its_input(rt: HostRuntime) -> Result<(), Fail> {
    let mut memory = words_to_echo(rt.alloc())?;
    let mut hart = HartState::new();
    let text = b"Hello, RISC-V!";
    let mut recorder = OutputRecorder::new(rt.alloc(), text, 14, Heap::new(0, 0))?;
    let end = echo_by(&mut memory, &mut hart, &mut recorder, 8);
    assert!(rt; end == exit_at(36, 0) && recorder.output.as_slice() == text.as_slice());
    Ok(())
}

/// Runs a hart over a memory and an environment.
fn served_over<M: Memory, E: Environment>(
    mem: &mut M,
    hart_state: &mut HartState,
    environment: &mut E,
    limit: u64,
) -> ServedEnd {
    let mut executor = InstructionExecutor { mem, hart_state };
    run_served(&mut DecodeCache::new(), &mut executor, environment, limit)
}

/// A program's run: its words at 0, its arguments, its input, and the room of a recorder; and what
/// it writes, the status with which it ends, and its steps over a recorder and over streams.
#[derive(Clone, Copy)]
struct Run<'a> {
    program: &'a [u32],
    arguments: (u32, u32, u32),
    input: &'a [u8],
    room: usize,
    text: &'a [u8],
    status: u32,
    steps: u64,
    of_stream: u64,
}

/// Makes a run over an environment, in a memory of 200 words.
fn run_words<E: Environment>(
    alloc: Global,
    run: &Run<'_>,
    environment: &mut E,
) -> Result<ServedEnd, AllocError> {
    let mut words = run.program.to_vec(alloc)?;
    words.resize(200, 0x4443_4241)?;
    let mut memory = VecMemory::new(words);
    let (first, second, third) = run.arguments;
    let mut hart = hart_of(0, &[(10, first), (11, second), (12, third)]);
    Ok(served_over(&mut memory, &mut hart, environment, 10_000))
}

/// Whether a run over a recorder ends as it has to, and writes its text.
fn is_recorded(alloc: Global, run: &Run<'_>) -> Result<bool, AllocError> {
    let mut recorder = OutputRecorder::new(alloc, run.input, run.room, Heap::new(0, 0))?;
    let end = run_words(alloc, run, &mut recorder)?;
    Ok(end == exit_at(run.steps, run.status) && recorder.output.as_slice() == run.text)
}

/// The same over streams.
fn is_streamed(alloc: Global, run: &Run<'_>) -> Result<bool, AllocError> {
    let clocks = LinuxClocks::Stopped(StoppedClocks::ZERO);
    let mut linux = streams_of(alloc, run.input, clocks);
    let end = run_words(alloc, run, &mut linux)?;
    Ok(end == exit_at(run.of_stream, run.status) && linux.output.stream.as_slice() == run.text)
}

/// 700 bytes, which from this one on repeat after so many.
fn repeated(first: u8, period: usize) -> [u8; 700]
    requires { 0 < period }
{
    let mut bytes = [0; 700];
    for (index, byte) in bytes.iter_mut().enumerate() {
        *byte = first.wrapping_add((index % period % 256) as u8);
    }
    bytes
}

/// The length of a text and a status, with its low byte.
static WRITTEN: [(u32, u32, u32); 4] = [(0, 0, 0), (1, 7, 7), (5, 0x103, 3), (300, u32::MAX, 255)];

// Texts of 0, 1, 5 and 300 bytes, written over both environments.
#[test]
fn texts_of_many_lengths_are_written(rt: HostRuntime) -> Result<(), Fail> {
    let letters = repeated(0x41, 4);
    for (row, &(count, status, low)) in WRITTEN.iter().enumerate() {
        let run = Run {
            program: &WRITE_AND_EXIT,
            arguments: (52, count, status),
            input: &[],
            room: 300,
            text: &letters[..count as usize],
            status: low,
            steps: 13,
            of_stream: 13,
        };
        let is_right = is_recorded(rt.alloc(), &run)? && is_streamed(rt.alloc(), &run)?;
        assert!(rt; is_right, "run {row}");
    }
    Ok(())
}

/// The length of an input and the size of the buffer, with the steps over a recorder and over
/// streams.
static ECHOED: [(usize, u32, u64, u64); 7] = [
    (0, 4, 14, 14),
    (1, 4, 25, 25),
    (4, 4, 25, 25),
    (5, 4, 36, 36),
    (9, 1, 113, 113),
    (700, 300, 47, 47),
    (700, 700, 25, 47),
];

// Inputs that fill a buffer not at all, in part, exactly, and more than once, over both
// environments. The one that reads from a stream reads no more than 256 bytes at a time, and so in
// more rounds.
#[test]
fn inputs_of_many_lengths_are_echoed(rt: HostRuntime) -> Result<(), Fail> {
    let bytes = repeated(0, 251);
    for (row, &(count, size, steps, of_stream)) in ECHOED.iter().enumerate() {
        let input = &bytes[..count];
        let run = Run {
            program: &ECHO,
            arguments: (72, size, 0),
            input,
            room: 700,
            text: input,
            status: 0,
            steps,
            of_stream,
        };
        let is_right = is_recorded(rt.alloc(), &run)? && is_streamed(rt.alloc(), &run)?;
        assert!(rt; is_right, "run {row}");
    }
    Ok(())
}
