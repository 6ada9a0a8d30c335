//! What the tests share: memories, harts and their steps, and the comparison of what is seen.

use rrs_lib::instruction::decode;
use rrs_lib::instruction_executor::{
    InstructionException, InstructionExecutor, RunEnd, StepEnd, execute_parts, fetch_word,
    step_parts,
};
use rrs_lib::memories::{MemorySpace, MemorySpaceError, VecMemory};
use rrs_lib::{HartState, MemAccessSize, Memory};
use std::alloc::{AllocError, Global};
use std::process::Abort;
use std::test::Fail;

/// A memory with these words.
pub(crate) fn memory_of(alloc: Global, words: &[u32]) -> Result<VecMemory, AllocError> {
    Ok(VecMemory::new(words.to_vec(alloc)?))
}

/// A space with these regions: a base, a size and the words of its memory each. They get the
/// indexes 0, 1 and so on.
pub(crate) fn space_of(
    alloc: Global,
    regions: &[(u32, u32, &[u32])],
) -> Result<MemorySpace<VecMemory>, Fail> {
    let mut space = MemorySpace::new(alloc);
    for (index, (base, size, words)) in regions.iter().enumerate() {
        add_as(&mut space, index, *base, *size, memory_of(alloc, words)?)?;
    }
    Ok(space)
}

/// Adds a region, which gets this index.
pub(crate) fn add_as<M: Memory + Drop>(
    space: &mut MemorySpace<M>,
    index: usize,
    base: u32,
    size: u32,
    memory: M,
) -> Result<(), Fail> {
    let answer = add_region(space, base, size, memory);
    same_answer_at(base, size, &answer, &Ok(index))
}

/// Adds a region to a space.
pub(crate) fn add_region<M: Memory + Drop>(
    space: &mut MemorySpace<M>,
    base: u32,
    size: u32,
    memory: M,
) -> Result<usize, MemorySpaceError> {
    space.add_memory(base, size, memory)
}

/// Fails where the answer to a region is not the one that is expected.
pub(crate) fn same_answer_at(
    base: u32,
    size: u32,
    answer: &Result<usize, MemorySpaceError>,
    expected: &Result<usize, MemorySpaceError>,
) -> Result<(), Fail> {
    if answer != expected {
        return Err(Fail::new(format_args!(
            "a region at {base:#x}, of {size} bytes: {answer:?}, and not {expected:?}"
        )));
    }
    Ok(())
}

/// The word of the four bytes of which this address is one.
pub(crate) fn word_at<M: Memory>(memory: &mut M, addr: u32) -> Option<u32> {
    memory.read_mem(addr - addr % 4, MemAccessSize::Word)
}

/// What is seen of a machine after some steps: how they ended, the pc, the entries of the
/// registers, and the register written last.
pub(crate) type Seen = (RunEnd, u32, [u32; 32], Option<usize>);

/// The entries of a hart's registers: these, 77 in entry 0, which no instruction uses, and 0 else.
fn entries(registers: &[(usize, u32)]) -> [u32; 32] {
    let mut entries = [0; 32];
    entries[0] = 77;
    for (index, value) in registers {
        if let Some(entry) = entries.get_mut(*index) {
            *entry = *value;
        }
    }
    entries
}

/// A hart at a pc, with these registers. x9 counts as written last, so that it shows if that stays.
pub(crate) fn hart_of(pc: u32, registers: &[(usize, u32)]) -> HartState {
    let mut hart = HartState::default();
    hart.registers = entries(registers);
    hart.pc = pc;
    hart.last_register_write = Some(9);
    hart
}

/// So many steps that were `Ok`, and then an exception, or none at the limit.
pub(crate) fn ended(steps: u64, exception: Option<InstructionException>) -> RunEnd {
    RunEnd { steps, exception }
}

/// What is to be seen after steps of a hart of `hart_of`.
pub(crate) fn left(end: RunEnd, pc: u32, registers: &[(usize, u32)], last: Option<usize>) -> Seen {
    (end, pc, entries(registers), last)
}

/// Makes one step, told as a run of one.
pub(crate) fn step_over<M: Memory>(mem: &mut M, hart: HartState) -> Seen {
    let mut hart = hart;
    let mut executor = InstructionExecutor {
        mem,
        hart_state: &mut hart,
    };
    let end = match executor.step() {
        Ok(()) => ended(1, None),
        Err(fault) => ended(0, Some(fault)),
    };
    (end, hart.pc, hart.registers, hart.last_register_write)
}

/// What a step left, told as a run of one.
fn seen_of(end: StepEnd, registers: [u32; 32]) -> Seen {
    let run = match end.answer {
        Ok(()) => ended(1, None),
        Err(exception) => ended(0, Some(exception)),
    };
    (run, end.pc, registers, end.last_register_write)
}

/// Makes the step of a hart whose registers and pc are arguments.
pub(crate) fn step_of_parts<M: Memory>(mem: &mut M, hart: HartState) -> Seen {
    let mut registers = hart.registers;
    let end = step_parts(mem, &mut registers, hart.pc);
    seen_of(end, registers)
}

/// Makes the step in three parts: fetches the word, decodes it, and executes the instruction.
pub(crate) fn step_in_parts<M: Memory>(mem: &mut M, hart: HartState) -> Seen {
    let mut registers = hart.registers;
    let fetched = fetch_word(mem, hart.pc);
    let found = match fetched {
        Ok(word) => decode(word).ok_or(InstructionException::IllegalInstruction(hart.pc, word)),
        Err(exception) => Err(exception),
    };
    match found {
        Ok(instruction) => {
            let end = execute_parts(mem, &mut registers, hart.pc, &instruction);
            seen_of(end, registers)
        }
        Err(exception) => (ended(0, Some(exception)), hart.pc, registers, None),
    }
}

/// Makes a run to a limit.
pub(crate) fn run_over<M: Memory>(mem: &mut M, hart: HartState, limit: u64) -> Seen {
    let mut hart = hart;
    let mut executor = InstructionExecutor {
        mem,
        hart_state: &mut hart,
    };
    let end = executor.run(limit);
    (end, hart.pc, hart.registers, hart.last_register_write)
}

/// Asserts that what is seen of a machine is what is expected.
pub(crate) fn same_at(rt: &impl Abort, case: u32, seen: Seen, expected: Seen) {
    assert!(rt; seen == expected, "at {case:#x}: {seen:?}");
}

/// Asserts that what is read, or a count, is what is expected.
pub(crate) fn same_word_at(rt: &impl Abort, case: u32, seen: Option<u32>, expected: Option<u32>) {
    assert!(rt; seen == expected, "at {case:#x}");
}

/// Asserts that a text is the expected one.
pub(crate) fn same_text_at(rt: &impl Abort, case: u32, seen: &str, expected: &str) {
    assert_eq!(rt; seen, expected, "at {case:#x}");
}
