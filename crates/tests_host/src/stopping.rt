//! Runs to stops, over words that are fetched at each step and over words that are kept.

ghost use Rattle.std.specs.Prelude.{◌≡◌};
ghost use Rattle.rrs_lib.specs.VecBytes.{vec_bytes, vec_writable, vec_layout};

use crate::machines::{add_region, memory_of};
use rrs_fast::{CachedMemory, Halt, HaltEnd, run_before};
use rrs_lib::instruction_executor::{InstructionException, InstructionExecutor};
use rrs_lib::memories::{MemorySpace, VecMemory};
use rrs_lib::{HartState, MemAccessSize, Memory};
use rrs_trace::{StopEnd, StopReason, run_until, run_until_cached};
use std::alloc::{AllocError, Global};
use std::process::Abort;
use std::test::Fail;
use tests_shared::hart_of;

/// addi x5, x5, 1
const ADD: u32 = 0x0012_8293;

/// addi x5, x5, 100
const ADD_100: u32 = 0x0642_8293;

/// xor x6, x6, x7: x6 has the other one of two values.
const EXCHANGE: u32 = 0x0073_4333;

/// addi x0, x0, 0
const NOTHING: u32 = 0x0000_0013;

/// jal x0, -16
const BACK: u32 = 0xff1f_f06f;

/// A loop that changes itself, and the two values that x6 has in turn.
type Changing = ([u32; 5], u32, u32);

/// A store over the first word, over the next word, over itself, over the word that is jumped to
/// next, and over a half-word and a byte of the next word.
const LOOPS: [Changing; 6] = [
    ([ADD, 0x0060_2023, EXCHANGE, NOTHING, BACK], ADD_100, ADD), // sw x6, 0(x0)
    ([0x0060_2223, ADD, EXCHANGE, NOTHING, BACK], ADD_100, ADD), // sw x6, 4(x0)
    ([ADD, 0x0060_2223, EXCHANGE, NOTHING, BACK], ADD_100, ADD), // sw x6, 4(x0)
    ([ADD, EXCHANGE, NOTHING, 0x0060_2023, BACK], ADD_100, ADD), // sw x6, 0(x0)
    ([0x0060_1323, ADD, EXCHANGE, NOTHING, BACK], 0x0642, 0x0012), // sh x6, 6(x0)
    ([0x0060_03a3, ADD, EXCHANGE, NOTHING, BACK], 0x06, 0x00), // sb x6, 7(x0)
];

/// The stops of the runs: within the loop, at its first word, after it, at no multiple of 4, and
/// none.
const STOPS: [&[u32]; 6] = [&[12], &[0], &[8, 0, 4, 12], &[20, 400], &[2, 6], &[]];

/// What is seen after a run: how it ended, the registers, the pc, and the register written last.
type Seen = (Option<StopEnd>, [u32; 32], u32, Option<usize>);

/// Runs of a loop to stops and a limit.
#[derive(Clone, Copy)]
struct Runs<'a> {
    changing: &'a Changing,
    stops: &'a [u32],
    limit: u64,
}

/// The hart that runs a loop.
fn hart_for(changing: &Changing) -> HartState {
    let (_, first, second) = *changing;
    hart_of(0, &[(6, first), (7, first ^ second)])
}

/// A loop in 16 words.
fn words_of(alloc: Global, changing: &Changing) -> Result<VecMemory, AllocError> {
    memory_of(alloc, &changing.0, 16)
}

/// Words whose reads are called pure below an address alone.
#[derive(Drop)]
struct PartlyPure {
    words: VecMemory,
    pure_below: u32,
}

impl Memory for PartlyPure {
    ghost bytes = { λ m. vec_bytes m.words };

    ghost writable = { λ m. vec_writable m.words };

    ghost layout = { λ m. vec_layout m.words };

    ghost reads = { λ old address size new answer. new ≡ old };

    ghost writes = { λ old address size value new answer. Unit {0} };

    fn read_mem(&mut self, addr: u32, size: MemAccessSize) -> Option<u32> {
        self.words.read_mem(addr, size)
    }

    fn write_mem(&mut self, addr: u32, size: MemAccessSize, store_data: u32) -> bool {
        self.words.write_mem(addr, size, store_data)
    }

    fn reads_are_pure(&self, addr: u32) -> bool {
        addr < self.pure_below
    }
}

/// Goes on three times to a stop, over words that are fetched.
fn stopped<M: Memory>(mem: &mut M, runs: Runs<'_>) -> Seen {
    let mut hart_state = hart_for(runs.changing);
    let mut executor = InstructionExecutor {
        mem,
        hart_state: &mut hart_state,
    };
    let mut end = None;
    for _ in 0..3 {
        end = Some(run_until(&mut executor, runs.limit, runs.stops));
    }
    let hart = executor.hart_state;
    (end, hart.registers, hart.pc, hart.last_register_write)
}

/// The same over words that are kept.
fn stopped_cached<M: Memory, const N: usize>(mem: &mut CachedMemory<M, N>, runs: Runs<'_>) -> Seen {
    let mut hart_state = hart_for(runs.changing);
    let mut executor = InstructionExecutor {
        mem,
        hart_state: &mut hart_state,
    };
    let mut end = None;
    for _ in 0..3 {
        end = Some(run_until_cached(&mut executor, runs.limit, runs.stops));
    }
    let hart = executor.hart_state;
    (end, hart.registers, hart.pc, hart.last_register_write)
}

/// Asserts that runs over words of a memory that are kept leave what is expected.
fn stops_so<M: Memory, const N: usize>(
    rt: &impl Abort,
    name: &str,
    cached: &mut CachedMemory<M, N>,
    runs: Runs<'_>,
    expected: &Seen,
) {
    let seen = stopped_cached(cached, runs);
    assert!(rt; seen == *expected, "{name}");
}

/// Asserts that runs over kept words of several memories end as runs over fetched words.
fn stops_alike(rt: &impl Abort, alloc: Global, runs: Runs<'_>) -> Result<(), Fail> {
    let expected = stopped(&mut words_of(alloc, runs.changing)?, runs);
    let words = words_of(alloc, runs.changing)?;
    stops_so::<_, 64>(rt, "words", &mut CachedMemory::new(words), runs, &expected);
    let words = words_of(alloc, runs.changing)?;
    stops_so::<_, 2>(
        rt,
        "few words",
        &mut CachedMemory::new(words),
        runs,
        &expected,
    );
    let mut space = MemorySpace::new(alloc);
    add_region(&mut space, 0, 64, words_of(alloc, runs.changing)?)?;
    stops_so::<_, 64>(
        rt,
        "a space",
        &mut CachedMemory::new(space),
        runs,
        &expected,
    );
    for &pure_below in &[0, 4, 8, 12] {
        let words = words_of(alloc, runs.changing)?;
        let partly = PartlyPure { words, pure_below };
        stops_so::<_, 64>(
            rt,
            "partly pure words",
            &mut CachedMemory::new(partly),
            runs,
            &expected,
        );
    }
    Ok(())
}

#[test]
fn kept_words_stop_where_fetched_ones_do(rt: HostRuntime) -> Result<(), Fail> {
    for changing in &LOOPS {
        for stops in &STOPS {
            for &limit in &[0, 1, 2, 4, 5, 100] {
                let runs = Runs {
                    changing,
                    stops,
                    limit,
                };
                stops_alike(&rt, rt.alloc(), runs)?;
            }
        }
    }
    Ok(())
}

// The turns add 1, 100, 1: the first call stops after four steps, and the others after five.
#[test]
fn a_run_goes_on_from_a_stop(rt: HostRuntime) -> Result<(), Fail> {
    let [changing, ..] = &LOOPS;
    let runs = Runs {
        changing,
        stops: &[12],
        limit: 100,
    };
    let mut words: CachedMemory<_, 64> = CachedMemory::new(words_of(rt.alloc(), changing)?);
    let (end, registers, pc, last) = stopped_cached(&mut words, runs);
    let expected = StopEnd {
        steps: 5,
        reason: StopReason::AtStop,
    };
    assert!(rt; end == Some(expected) && registers[5] == 102 && pc == 12 && last == Some(6));
    Ok(())
}

/// A jump or a branch, the value of x8, and where it strays to, if it does.
static STRAYING: [(u32, u32, Option<u32>); 9] = [
    (0x0060_00ef, 0, Some(6)), // jal x1, 6
    (0x0084_00e7, 6, Some(14)), // jalr x1, 8(x8)
    (0x0084_00e7, 5, None), // the same to 12, for 13
    (0x0000_0363, 0, Some(6)), // beq x0, x0, 6
    (0x0000_1363, 0, None), // bne x0, x0, 6: not taken
    (0x0080_5363, 0, Some(6)), // bge x0, x8, 6
    (0x0080_5363, 1, None), // the same, not taken
    (0x0000_4363, 0, None), // blt x0, x0, 6: not taken
    (0x0000_006f, 0, None), // jal x0, 0
];

/// How a run of one step over an instruction ends that goes to no misaligned address.
fn aligned_end(alloc: Global, word: u32, x8: u32) -> Result<(HaltEnd, HartState), AllocError> {
    let mut cached: CachedMemory<_, 64> = CachedMemory::new(memory_of(alloc, &[word], 4)?);
    let mut hart_state = hart_of(0, &[(1, 77), (8, x8)]);
    let mut executor = InstructionExecutor {
        mem: &mut cached,
        hart_state: &mut hart_state,
    };
    let end = run_before::<_, 64, true>(&mut executor, 1, &[]);
    Ok((end, hart_state))
}

#[test]
fn a_jump_that_strays_is_not_made(rt: HostRuntime) -> Result<(), Fail> {
    for &(word, x8, target) in &STRAYING {
        let (end, hart) = aligned_end(rt.alloc(), word, x8)?;
        assert!(rt; is_right(&end, &hart, target), "{word:#x} with {x8}");
    }
    Ok(())
}

/// Whether a run of one step strays to a target and leaves its hart as it was, or ends aligned.
fn is_right(end: &HaltEnd, hart: &HartState, target: Option<u32>) -> bool {
    let is_kept = hart.pc == 0 && hart.registers[1] == 77 && hart.last_register_write.is_none();
    match target {
        Some(target) => *end == halted(0, Halt::Stray(target)) && is_kept,
        None => end.steps == 1 && end.halt.is_none() && hart.pc % 4 == 0,
    }
}

/// So many steps, and what ended them.
fn halted(steps: u64, halt: Halt) -> HaltEnd {
    HaltEnd {
        steps,
        halt: Some(halt),
    }
}

/// Runs ten steps at most, and none at a stop.
fn before<M: Memory, const N: usize>(
    mem: &mut CachedMemory<M, N>,
    hart_state: &mut HartState,
    stops: &[u32],
) -> HaltEnd {
    let mut executor = InstructionExecutor { mem, hart_state };
    run_before::<_, N, false>(&mut executor, 10, stops)
}

/// Where runs begin and their stops; how many steps they make, what ends them, and the pc after
/// them.
static BEFORE: [(u32, &[u32], u64, Halt, u32); 3] = [
    (0, &[0, 4], 0, Halt::Stop, 0),
    (0, &[4], 1, Halt::Stop, 4),
    (
        20,
        &[4],
        0,
        Halt::Fault(InstructionException::IllegalInstruction(20, 0)),
        20,
    ),
];

#[test]
fn a_run_before_a_stop_makes_no_step_there(rt: HostRuntime) -> Result<(), Fail> {
    let [changing, ..] = &LOOPS;
    let mut words: CachedMemory<_, 64> = CachedMemory::new(words_of(rt.alloc(), changing)?);
    let mut hart = hart_for(changing);
    for (row, &(pc, stops, steps, halt, after)) in BEFORE.iter().enumerate() {
        hart.pc = pc;
        let end = before(&mut words, &mut hart, stops);
        assert!(rt; end == halted(steps, halt) && hart.pc == after, "run {row}");
    }
    Ok(())
}
