//! The program that adds up words: run on chosen words, and called with its premises proved.

ghost use Rattle.std.specs.Prelude.{◌≡◌, ◌+◌, ◌*◌, ◌≤◌, IfOk, IfSome};
ghost use Rattle.rrs_extra.specs.Programs.{HoldsWords, HoldsIllegal, IsMapped, sum_loop_program};
ghost use Rattle.tests_kit.specs.SumLoopExamples.{words_to_add, words_of_program, three_words, two_regions};

use rrs_extra::laws::sum_loop;
use rrs_lib::instruction_executor::{InstructionException, InstructionExecutor, RunEnd};
use rrs_lib::memories::{MemorySpace, VecMemory};
use rrs_lib::{HartState, Memory};
use std::alloc::{AllocError, Global};
use std::test::Fail;
use tests_shared::{end_at, hart_of, run_over};

/// The program that adds up words, an illegal instruction, and three words.
fn words_to_add(alloc: Global) -> Result<VecMemory, AllocError>
    ensures { IfOk result (λ memory. memory.mem.items ≡ words_to_add) }
{
    let words = [
        0x00000613, 0x00058c63, 0x00052683, 0x00d60633, 0x00450513, 0xfff58593, 0xfedff06f, 0, 5,
        7, 0xffffffff,
    ];
    Ok(VecMemory::new(words.to_vec(alloc)?))
}

/// The program and the word after it, without the words to add up.
fn words_of_program(alloc: Global) -> Result<VecMemory, AllocError>
    ensures { IfOk result (λ memory. memory.mem.items ≡ words_of_program) }
{
    let words = [
        0x00000613, 0x00058c63, 0x00052683, 0x00d60633, 0x00450513, 0xfff58593, 0xfedff06f, 0,
    ];
    Ok(VecMemory::new(words.to_vec(alloc)?))
}

/// Three words to add up.
fn three_words(alloc: Global) -> Result<VecMemory, AllocError>
    ensures { IfOk result (λ memory. memory.mem.items ≡ three_words) }
{
    Ok(VecMemory::new([5, 7, 0xffffffff].to_vec(alloc)?))
}

/// A space of two regions, at 0 and at 0x20. There is none where memory runs out.
fn space_of_two(alloc: Global, low: VecMemory, high: VecMemory) -> Option<MemorySpace<VecMemory>>
    ensures { IfSome result (λ space. space.regions ≡ two_regions low high) }
{
    let mut space = MemorySpace::new(alloc);
    if space.add_memory(0, 0x20, low).is_err() {
        return None;
    }
    if space.add_memory(0x20, 12, high).is_err() {
        return None;
    }
    Some(space)
}

/// Adds up as many of three words as are asked for, over a memory that holds them after the
/// program.
fn add_up<M: Memory>(mem: &mut M, hart_state: &mut HartState, count: u32) -> RunEnd
    requires program { HoldsWords (M.bytes mem.old) 0 sum_loop_program }
    requires behind { HoldsIllegal (M.bytes mem.old) 0x1c }
    requires words { IsMapped (M.bytes mem.old) 0x20 12 }
    requires count { count ≤ 3 }
    ensures steps { result.steps ≡ 6 * count + 2 }
{
    hart_state.pc = 0;
    hart_state.registers[10] = 0x20;
    hart_state.registers[11] = count;
    let mut executor = InstructionExecutor { mem, hart_state };
    sum_loop(&mut executor)
}

#[test]
fn adds_up_words(rt: HostRuntime) -> Result<(), Fail> {
    let mut memory = words_to_add(rt.alloc())?;
    let mut hart = HartState::new();
    let end = add_up(&mut memory, &mut hart, 3);
    assert!(rt; (end, hart.registers[12]) == (end_at(20, 0x1c), 11));
    Ok(())
}

#[test]
fn adds_up_words_of_a_space(rt: HostRuntime) -> Result<(), Fail> {
    let low = words_of_program(rt.alloc())?;
    let high = three_words(rt.alloc())?;
    let Some(mut space) = space_of_two(rt.alloc(), low, high) else {
        return Err(Fail::from("no memory for the space"));
    };
    let mut hart = HartState::new();
    let end = add_up(&mut space, &mut hart, 3);
    assert!(rt; (end, hart.registers[12]) == (end_at(20, 0x1c), 11));
    Ok(())
}

/// The exception at the end of the program.
const FAULT: Option<InstructionException> = Some(InstructionException::IllegalInstruction(0x1c, 0));

/// How many words, and a limit; how the run ends, and the sum.
static LIMITS: [(u32, u64, u64, Option<InstructionException>, u32); 4] = [
    (3, 21, 20, FAULT, 11),
    (3, 20, 20, None, 11),
    (3, 7, 7, None, 5),
    (0, 3, 2, FAULT, 0),
];

// Runs of the program, with x12 9 before: how many of the words, to a limit.
#[test]
fn adds_up_within_a_limit(rt: HostRuntime) -> Result<(), Fail> {
    for &(count, limit, steps, exception, sum) in &LIMITS {
        let mut memory = words_to_add(rt.alloc())?;
        let mut hart = hart_of(0, &[(10, 0x20), (11, count), (12, 9)]);
        let end = run_over(&mut memory, &mut hart, limit);
        let seen = (end.steps, end.exception, hart.registers[12]);
        assert!(rt; seen == (steps, exception, sum), "limit {limit}");
    }
    Ok(())
}
