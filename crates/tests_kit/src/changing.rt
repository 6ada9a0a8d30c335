//! Programs that change themselves, in long runs over memories of different kinds.

ghost use Rattle.std.specs.Prelude.{◌<◌};

use crate::machines::space_of;
use rrs_extra::PagedMemory;
use rrs_fast::{CachedMemory, DecodeCache, OwnCache, Runner, WordCache, run_cached};
use rrs_lib::instruction_executor::{InstructionExecutor, RunEnd};
use rrs_lib::memories::{BoxedMemory, MemorySpace, VecMemory};
use rrs_lib::{HartState, MemAccessSize, Memory};
use std::alloc::{AllocError, Global};
use std::process::Abort;
use std::test::Fail;
use tests_shared::hart_of;

/// addi x5, x5, 1
const ADD: u32 = 0x0012_8293;

/// addi x5, x5, 100
const ADD_100: u32 = 0x0642_8293;

/// xor x6, x6, x7: x6 has the other one of two values.
const EXCHANGE: u32 = 0x0073_4333;

/// jal x0, -12
const BACK: u32 = 0xff5f_f06f;

/// In the place of the last word of a loop: a jump to two words that are as far after its first
/// one as the table is long. They add 16 to x5, and jump back.
const AWAY: u32 = 0;

/// A table: its length in words and in bytes, and the jumps from a loop to the two words that are
/// so far after it, and back.
struct Table {
    words: u32,
    bytes: u32,
    away: u32,
    home: u32,
}

/// The table of a `DecodeCache`.
static SMALL: Table = Table {
    words: 1024,
    bytes: 4096,
    away: 0x7f50_006f, // jal x0, 4084
    home: 0xffdf_e06f, // jal x0, -4100
};

/// The table of `rrs run` and `rrs exec`.
static LARGE: Table = Table {
    words: 16384,
    bytes: 0x1_0000,
    away: 0x7f50_f06f, // jal x0, 65524
    home: 0xffde_f06f, // jal x0, -65540
};

/// A loop that changes itself: how many of its words stand before the table's end, where it does
/// not begin at 0; the words; and the two values that x6 has in turn. x8 is the length of the table
/// in bytes.
type Change = (u32, [u32; 4], u32, u32);

/// A word of the loop, a half-word, each byte that can be changed and leaves an `addi`; the next
/// word, and a half-word and a byte of it; the store itself; the word that is jumped to next; the
/// same over the table's end; words after the loop; and a loop of words that have one place.
static CHANGES: [Change; 19] = [
    (0, [ADD, 0x0060_2023, EXCHANGE, BACK], ADD_100, ADD), // sw x6, 0(x0)
    (0, [ADD, 0x0060_1123, EXCHANGE, BACK], 0x0642, 0x0012), // sh x6, 2(x0): its upper half
    (0, [ADD, 0x0060_0123, EXCHANGE, BACK], 0x72, 0x12), // sb x6, 2(x0): four bits of its immediate
    (0, [ADD, 0x0060_01a3, EXCHANGE, BACK], 0x06, 0x00), // sb x6, 3(x0): the eight high ones
    (0, [ADD, 0x0060_00a3, EXCHANGE, BACK], 0xc2, 0x82), // sb x6, 1(x0): xori, by funct3
    (0, [0x0060_2223, ADD, EXCHANGE, BACK], ADD_100, ADD), // sw x6, 4(x0)
    (0, [0x0060_1323, ADD, EXCHANGE, BACK], 0x0642, 0x0012), // sh x6, 6(x0)
    (0, [0x0060_03a3, ADD, EXCHANGE, BACK], 0x06, 0x00), // sb x6, 7(x0)
    (0, [ADD, 0x0060_2223, EXCHANGE, BACK], ADD_100, ADD), // sw x6, 4(x0)
    (0, [ADD, EXCHANGE, 0x0060_2023, BACK], ADD_100, ADD), // sw x6, 0(x0)
    (0, [ADD, EXCHANGE, 0x0060_01a3, BACK], 0x06, 0x00), // sb x6, 3(x0)
    (1, [0x0064_2023, ADD, EXCHANGE, BACK], ADD_100, ADD), // sw x6, 0(x8): the next word
    (2, [ADD, 0xfe64_2c23, EXCHANGE, BACK], ADD_100, ADD), // sw x6, -8(x8): the first word
    (3, [ADD, EXCHANGE, 0xfe64_2a23, BACK], ADD_100, ADD), // sw x6, -12(x8): the first word
    (0, [ADD, 0x0060_2823, EXCHANGE, BACK], 1, 2), // sw x6, 16(x0): behind the loop
    (0, [ADD, 0x0064_2023, EXCHANGE, BACK], ADD_100, ADD), // sw x6, 0(x8): no word of the loop
    (0, [ADD, 0x0064_2023, EXCHANGE, AWAY], ADD_100, ADD), // sw x6, 0(x8): a word of it
    (0, [ADD, 0x0060_2023, EXCHANGE, AWAY], ADD_100, ADD), // sw x6, 0(x0): the first word
    (2, [ADD, 0xfe64_2c23, EXCHANGE, AWAY], ADD_100, ADD), // sw x6, -8(x8): the first word
];

/// How many steps are made.
const LIMIT: u64 = 4001;

/// The number of a loop's first word.
fn first_of(change: &Change, table: &Table) -> u32 {
    match change.0 {
        0 => 0,
        before => table.words.saturating_sub(before),
    }
}

/// The words of a loop, and those far after it, each with its number.
fn words_at(change: &Change, table: &Table) -> [(u32, u32); 6] {
    let first = first_of(change, table);
    let [one, two, three, last] = change.1;
    let last = if last == AWAY { table.away } else { last };
    let behind = first.wrapping_add(table.words);
    [
        (first, one),
        (first.wrapping_add(1), two),
        (first.wrapping_add(2), three),
        (first.wrapping_add(3), last),
        (behind, 0x0102_8293), // addi x5, x5, 16
        (behind.wrapping_add(1), table.home),
    ]
}

/// Puts them into words that begin with the one of this number.
fn put_words(words: &mut [u32], from: u32, change: &Change, table: &Table) {
    for (number, word) in &words_at(change, table) {
        if let Some(entry) = words.get_mut(number.wrapping_sub(from) as usize) {
            *entry = *word;
        }
    }
}

/// The words of a loop, beside zeros. There are twice as many as the table has.
fn words_of(alloc: Global, change: &Change, table: &Table) -> Result<Vec<u32>, AllocError> {
    let mut words = vec![in alloc; 0; table.words.saturating_mul(2) as usize]?;
    put_words(&mut words, 0, change, table);
    Ok(words)
}

/// The hart that makes it.
fn hart_for(change: &Change, table: &Table) -> HartState {
    let (_, _, first, second) = *change;
    let pc = first_of(change, table).wrapping_mul(4);
    hart_of(pc, &[(6, first), (7, first ^ second), (8, table.bytes)])
}

/// How a run ended, and the registers and the pc after it.
type Seen = (RunEnd, [u32; 32], u32);

/// What a hart has after runs of so many steps each.
fn run_in_parts<M: Memory, R: Runner<M>>(
    runner: &mut R,
    mem: &mut M,
    mut hart_state: HartState,
    part: u64,
) -> Seen {
    let mut executor = InstructionExecutor {
        mem,
        hart_state: &mut hart_state,
    };
    let mut end = RunEnd {
        steps: LIMIT,
        exception: None,
    };
    let mut left = LIMIT;
    for _ in 0..LIMIT {
        let last = runner.run(&mut executor, part.min(left));
        if last.exception.is_some() {
            end = last;
            break;
        }
        left = left.saturating_sub(part);
    }
    (end, hart_state.registers, hart_state.pc)
}

/// What it has after as many steps, each made by itself.
fn step_by_step<M: Memory>(mem: &mut M, mut hart_state: HartState) -> Seen {
    let mut executor = InstructionExecutor {
        mem,
        hart_state: &mut hart_state,
    };
    let mut end = RunEnd {
        steps: LIMIT,
        exception: None,
    };
    for steps in 0..LIMIT {
        if let Err(exception) = executor.step() {
            end = RunEnd {
                steps,
                exception: Some(exception),
            };
            break;
        }
    }
    (end, hart_state.registers, hart_state.pc)
}

/// The half of a loop's words from one on, for the table of 1,024.
fn half_of(change: &Change, from: u32) -> [u32; 1024] {
    let mut half = [0; 1024];
    put_words(&mut half, from, change, &SMALL);
    half
}

/// A memory of two pages.
fn pages_of(alloc: Global, change: &Change) -> Result<PagedMemory, AllocError> {
    let mut pages = PagedMemory::new(alloc);
    add_page(alloc, &mut pages, 0, change)?;
    add_page(alloc, &mut pages, 1, change)?;
    Ok(pages)
}

/// Adds a page that is writable.
fn add_page(
    alloc: Global,
    pages: &mut PagedMemory,
    number: u32,
    change: &Change,
) -> Result<(), AllocError>
    requires { number < 2 }
{
    let words = half_of(change, number * 1024).to_vec(alloc)?;
    let marks = vec![in alloc; false; 1024]?;
    match pages.add_page(number, words, marks) {
        Ok(()) => Ok(()),
        Err(_) => Err(AllocError),
    }
}

/// A space of two regions.
fn space_of_halves(alloc: Global, change: &Change) -> Result<MemorySpace<VecMemory>, Fail> {
    let low = half_of(change, 0);
    let high = half_of(change, 1024);
    space_of(alloc, &[(0, 4096, &low), (4096, 4096, &high)])
}

/// A memory of words.
fn words_over(alloc: Global, change: &Change) -> Result<VecMemory, AllocError> {
    Ok(VecMemory::new(words_of(alloc, change, &SMALL)?))
}

/// A memory of words, in a box.
fn box_of(alloc: Global, change: &Change) -> Result<BoxedMemory, AllocError> {
    let memory = Box::new(alloc, words_over(alloc, change)?)?;
    Ok(BoxedMemory { memory })
}

/// What a hart has after steps over words that are fetched.
fn stepped(alloc: Global, change: &Change, table: &Table) -> Result<Seen, AllocError> {
    let mut memory = VecMemory::new(words_of(alloc, change, table)?);
    Ok(step_by_step(&mut memory, hart_for(change, table)))
}

/// Asserts that a run leaves what is expected.
fn same_seen(rt: &impl Abort, seen: &Seen, expected: &Seen) {
    assert!(rt; seen == expected);
}

/// Asserts that runs of so many steps each, with a cache that is lent, leave what is expected.
fn runs_leave<M: Memory + Drop, R: Runner<M>>(
    rt: &impl Abort,
    cache: &mut R,
    memory: M,
    change: &Change,
    part: u64,
    expected: &Seen,
) {
    let mut memory = memory;
    let seen = run_in_parts(cache, &mut memory, hart_for(change, &SMALL), part);
    same_seen(rt, &seen, expected);
}

/// Asserts that such runs over a memory whose words are kept leave what is expected.
fn kept_runs_leave<M: Memory, const N: usize>(
    rt: &impl Abort,
    cached: &mut CachedMemory<M, N>,
    change: &Change,
    part: u64,
    expected: &Seen,
) {
    let seen = run_in_parts(&mut OwnCache, cached, hart_for(change, &SMALL), part);
    same_seen(rt, &seen, expected);
}

#[test]
fn each_change_is_seen_by_the_next_fetch(rt: HostRuntime) -> Result<(), Fail> {
    let alloc = rt.alloc();
    // One cache is lent to all of the runs.
    let mut cache = DecodeCache::new();
    for change in &CHANGES {
        let expected = stepped(alloc, change, &SMALL)?;
        let words = words_over(alloc, change)?;
        runs_leave(&rt, &mut cache, words, change, LIMIT, &expected);
        let pages = pages_of(alloc, change)?;
        runs_leave(&rt, &mut cache, pages, change, LIMIT, &expected);
        let space = space_of_halves(alloc, change)?;
        runs_leave(&rt, &mut cache, space, change, LIMIT, &expected);
        let boxed = box_of(alloc, change)?;
        runs_leave(&rt, &mut cache, boxed, change, LIMIT, &expected);
    }
    Ok(())
}

#[test]
fn a_word_that_is_changed_in_each_turn_adds_both_numbers(rt: HostRuntime) -> Result<(), Fail> {
    let alloc = rt.alloc();
    let [change, ..] = &CHANGES;
    let mut memory = words_over(alloc, change)?;
    let hart = hart_for(change, &SMALL);
    let (end, registers, pc) = run_in_parts(&mut DecodeCache::new(), &mut memory, hart, LIMIT);
    // 1,000 turns of four steps, and the first step of the next one
    assert!(rt; (end.steps, end.exception, registers[5], pc) == (LIMIT, None, 50_501, 4));
    Ok(())
}

#[test]
fn each_change_is_seen_by_the_next_run(rt: HostRuntime) -> Result<(), Fail> {
    let alloc = rt.alloc();
    // A cache of words is lent to runs of all of the loops.
    let mut cache = WordCache::new();
    for change in &CHANGES {
        let expected = stepped(alloc, change, &SMALL)?;
        let words = words_over(alloc, change)?;
        kept_runs_leave::<_, 1024>(&rt, &mut CachedMemory::new(words), change, 7, &expected);
        // Each even word has the place of each other one.
        let pages = pages_of(alloc, change)?;
        kept_runs_leave::<_, 2>(&rt, &mut CachedMemory::new(pages), change, 1000, &expected);
        let space = space_of_halves(alloc, change)?;
        kept_runs_leave::<_, 64>(&rt, &mut CachedMemory::new(space), change, 1000, &expected);
        let lent = words_over(alloc, change)?;
        runs_leave(&rt, &mut cache, lent, change, 7, &expected);
    }
    Ok(())
}

#[test]
fn each_change_is_seen_over_the_table_of_programs(rt: HostRuntime) -> Result<(), Fail> {
    let alloc = rt.alloc();
    for change in &CHANGES {
        let expected = stepped(alloc, change, &LARGE)?;
        let words = VecMemory::new(words_of(alloc, change, &LARGE)?);
        let mut kept: CachedMemory<_, 16384> = CachedMemory::new(words);
        let seen = run_in_parts(&mut OwnCache, &mut kept, hart_for(change, &LARGE), 1000);
        same_seen(&rt, &seen, &expected);
    }
    Ok(())
}

#[test]
fn what_the_owner_writes_between_two_runs_is_executed(rt: HostRuntime) -> Result<(), Fail> {
    let alloc = rt.alloc();
    let add_one_and_jump_back = vec![in alloc; 0x0012_8293, 0xffdf_f06f]?;
    let mut cached: CachedMemory<_, 16> = CachedMemory::new(VecMemory::new(add_one_and_jump_back));
    let mut hart_state = HartState::new();
    let mut executor = InstructionExecutor {
        mem: &mut cached,
        hart_state: &mut hart_state,
    };
    let _ = run_cached(&mut executor, 100);
    // addi x5, x5, 100, by its upper half
    let is_written = executor.mem.write_mem(2, MemAccessSize::HalfWord, 0x0642);
    let _ = run_cached(&mut executor, 100);
    let word = cached.into_memory().mem[0];
    assert!(rt; is_written && hart_state.registers[5] == 5050 && word == 0x0642_8293);
    Ok(())
}
