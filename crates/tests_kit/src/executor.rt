//! What steps and runs of chosen words do to a hart, and which exception they return.

use crate::machines::{
    Seen, ended, hart_of, left, memory_of, run_over, same_at, step_in_parts, step_of_parts,
    step_over,
};
use rrs_lib::instruction_executor::InstructionException::{
    AlignmentFault, Breakpoint, EnvironmentCall, FetchError, IllegalInstruction, LoadAccessFault,
    StoreAccessFault,
};
use rrs_lib::instruction_executor::{InstructionException, InstructionExecutor};
use rrs_lib::{Memory, process_instruction};
use std::alloc::{AllocError, Global};
use std::process::Abort;
use std::test::Fail;

/// Asserts what a step of a word alone at 0, from a pc, leaves of a hart with these registers: the
/// step of an executor, that of a hart whose parts are arguments, and the step in parts.
fn step_leaves(
    rt: &impl Abort,
    alloc: Global,
    word: u32,
    pc: u32,
    registers: &[(usize, u32)],
    expected: Seen,
) -> Result<(), AllocError> {
    let mut memory = memory_of(alloc, &[word])?;
    let seen = step_over(&mut memory, hart_of(pc, registers));
    let of_parts = step_of_parts(&mut memory, hart_of(pc, registers));
    let in_parts = step_in_parts(&mut memory, hart_of(pc, registers));
    assert!(rt;
        of_parts == seen && in_parts == seen,
        "in parts, at {word:#x}"
    );
    same_at(rt, word, seen, expected);
    Ok(())
}

/// Registers, by their numbers.
type Registers = &'static [(usize, u32)];

/// A program at 0 and a limit; the steps of the run, its exception, and the pc after it; the
/// registers before and after it, and the last written register.
type ProgramRun = (
    (&'static [u32], u64),
    (u64, Option<InstructionException>, u32),
    (Registers, Registers, Option<usize>),
);

/// lui x2, 0x1234b000; lui x3, 0xf387e000; add x1, x2, x3: the program of the original's
/// documentation, and of this repository's README.
const THREE_WORDS: &[u32] = &[0x1234b137, 0xf387e1b7, 0x003100b3];

/// The registers after it.
const SUM: Registers = &[(1, 0x05bc9000), (2, 0x1234b000), (3, 0xf387e000)];

/// The word addi x2, x0, 1 in x1, and what it does.
const STORED: Registers = &[(1, 0x00100113)];

const EXECUTED: Registers = &[(1, 0x00100113), (2, 1)];

/// Limits before, at and after the end of a program; the first program that stores its second
/// instruction, and the one that replaces its own first word and goes back to it; a load of a
/// half-word; an environment call; jumps and a branch to where no instruction can be or is mapped;
/// a branch to itself; and no memory at all.
static RUNS: [ProgramRun; 15] = [
    ((THREE_WORDS, 0), (0, None, 0), (&[], &[], Some(9))),
    (
        (THREE_WORDS, 1),
        (1, None, 4),
        (&[], &[(2, 0x1234b000)], Some(2)),
    ),
    (
        (THREE_WORDS, 2),
        (2, None, 8),
        (&[], &[(2, 0x1234b000), (3, 0xf387e000)], Some(3)),
    ),
    ((THREE_WORDS, 3), (3, None, 0xc), (&[], SUM, Some(1))),
    (
        (THREE_WORDS, 10),
        (3, Some(FetchError(0xc)), 0xc),
        (&[], SUM, None),
    ),
    (
        (&[0x00102223, 0], 2),
        (2, None, 8),
        (STORED, EXECUTED, Some(2)),
    ),
    (
        (&[0x00102023, 0xffdff06f], 3),
        (3, None, 4),
        (STORED, EXECUTED, Some(2)),
    ),
    (
        (&[0x00601183, 0x80017fff], 1),
        (1, None, 4),
        (&[], &[(3, 0xffff8001)], Some(3)),
    ),
    (
        (&[0x00500093, 0x00000073], 10),
        (1, Some(EnvironmentCall(4)), 4),
        (&[], &[(1, 5)], None),
    ),
    (
        (&[0x800000ef], 10),
        (1, Some(FetchError(0xfff00000)), 0xfff00000),
        (&[], &[(1, 4)], None),
    ),
    (
        (&[0xfff00067], 10),
        (1, Some(AlignmentFault(0xfffffffe)), 0xfffffffe),
        (&[], &[], None),
    ),
    (
        (&[0xfe000ee3], 10),
        (1, Some(FetchError(0xfffffffc)), 0xfffffffc),
        (&[], &[], None),
    ),
    (
        (&[0x002000ef], 10),
        (1, Some(AlignmentFault(2)), 2),
        (&[], &[(1, 4)], None),
    ),
    ((&[0x00000063], 2), (2, None, 0), (&[], &[], None)),
    ((&[], 10), (0, Some(FetchError(0)), 0), (&[], &[], None)),
];

#[test]
fn runs_to_a_limit_or_a_fault(rt: HostRuntime) -> Result<(), Fail> {
    for (case, &(program, end, left_by)) in RUNS.iter().enumerate() {
        let ((words, limit), (steps, exception, pc)) = (program, end);
        let (before, after, last) = left_by;
        let mut memory = memory_of(rt.alloc(), words)?;
        let seen = run_over(&mut memory, hart_of(0, before), limit);
        let expected = left(ended(steps, exception), pc, after, last);
        same_at(&rt, case as u32, seen, expected);
    }
    Ok(())
}

/// Words, each with x1 and x2 before it, and x3 after it.
static COMPUTED: [(u32, u32, u32, u32); 31] = [
    (0x402081b3, 0, 1, 0xffffffff),
    (0x002091b3, 1, 0xffffffe1, 2),
    (0x0020a1b3, 0x80000000, 0, 1),
    (0x0020b1b3, 0x80000000, 0, 0),
    (0x0070d193, 0x80000000, 0, 0x01000000),
    (0x4070d193, 0x80000000, 0, 0xff000000),
    (0xffb0c193, 15, 0, 0xfffffff4),
    (0xffb0e193, 15, 0, 0xffffffff),
    (0xffb0f193, 15, 0, 0x0000000b),
    (0x022091b3, 0x80000000, 0xffffffff, 0),
    (0x0220b1b3, 0x80000000, 0xffffffff, 0x7fffffff),
    (0x0220a1b3, 0x80000000, 0xffffffff, 0x80000000),
    (0x022091b3, 0xffffffff, 0xffffffff, 0),
    (0x0220b1b3, 0xffffffff, 0xffffffff, 0xfffffffe),
    (0x0220a1b3, 0xffffffff, 0xffffffff, 0xffffffff),
    (0x022081b3, 0xffffffff, 0xffffffff, 1),
    (0x0220d1b3, 0xfffffff9, 2, 0x7ffffffc),
    (0x0220f1b3, 0xfffffff9, 2, 1),
    (0x0220d1b3, 7, 0, 0xffffffff),
    (0x0220f1b3, 7, 0, 7),
    (0x0220c1b3, 0x80000000, 0xffffffff, 0x80000000),
    (0x0220c1b3, 0x80000000, 0, 0xffffffff),
    (0x0220c1b3, 0xfffffff9, 2, 0xfffffffd),
    (0x0220e1b3, 0x80000000, 0xffffffff, 0),
    (0x0220e1b3, 0x80000000, 0, 0x80000000),
    (0x0220e1b3, 0xfffffff9, 2, 0xffffffff),
    (0x4020d1b3, 0x80000000, 33, 0xc0000000),
    (0xfff0b193, 5, 0, 1),
    (0xffc0c183, 7, 0, 0xff),
    (0xffc08183, 7, 0, 0xffffffff),
    (0x0040a183, 0xfffffffc, 0, 0x0040a183),
];

// Each word with x1 and x2 before it, and x3 after it.
#[test]
fn computes(rt: HostRuntime) -> Result<(), Fail> {
    for &(word, x1, x2, x3) in &COMPUTED {
        let expected = left(ended(1, None), 4, &[(1, x1), (2, x2), (3, x3)], Some(3));
        step_leaves(&rt, rt.alloc(), word, 0, &[(1, x1), (2, x2)], expected)?;
    }
    Ok(())
}

/// Words, each with x1 and x2 before it, and the pc, x1 and the last written register after it.
static GOES_ON: [(u32, u32, u32, u32, u32, Option<usize>); 12] = [
    (0xfff00093, 0, 0, 4, 0xffffffff, Some(1)),
    (0x00500013, 7, 0, 4, 7, None),
    (0x00500093, 7, 0, 4, 5, Some(1)),
    (0x0020c463, 0xffffffff, 0, 8, 0xffffffff, None),
    (0x0020e463, 0xffffffff, 0, 4, 0xffffffff, None),
    (0x800000ef, 0, 0, 0xfff00000, 4, Some(1)),
    (0x00000063, 0, 0, 0, 0, None),
    (0x000080e7, 0x11, 0, 0x10, 4, Some(1)),
    (0x002000ef, 0, 0, 2, 4, Some(1)),
    (0xfff00067, 0, 0, 0xfffffffe, 0, None),
    (0xfe000ee3, 0, 0, 0xfffffffc, 0, None),
    (0x0ff0000f, 9, 0, 4, 9, None),
];

// Each word alone at 0 with x1 and x2: the pc, x1 and the last written register after it.
#[test]
fn goes_on(rt: HostRuntime) -> Result<(), Fail> {
    for &(word, before, x2, pc, x1, last) in &GOES_ON {
        let expected = left(ended(1, None), pc, &[(1, x1), (2, x2)], last);
        step_leaves(&rt, rt.alloc(), word, 0, &[(1, before), (2, x2)], expected)?;
    }
    Ok(())
}

/// Words, each with the pc before it, and its exception.
static FAULTS: [(u32, u32, InstructionException); 18] = [
    (0x00202083, 0, AlignmentFault(2)),
    (0x00002223, 0, StoreAccessFault(4)),
    (0xfe000fa3, 0, StoreAccessFault(0xffffffff)),
    (0x00402003, 0, LoadAccessFault(4)),
    (0x00000073, 0, EnvironmentCall(0)),
    (0x00100073, 0, Breakpoint(0)),
    (0x00200073, 0, IllegalInstruction(0, 0x200073)),
    (0x000000f3, 0, IllegalInstruction(0, 0xf3)),
    (0x00008073, 0, IllegalInstruction(0, 0x8073)),
    (0x00001073, 0, IllegalInstruction(0, 0x1073)),
    (0x00009067, 0, IllegalInstruction(0, 0x9067)),
    (0xfe109093, 0, IllegalInstruction(0, 0xfe109093)),
    (0x00000013, 1, AlignmentFault(1)),
    (0x00000013, 2, AlignmentFault(2)),
    (0x00000013, 3, AlignmentFault(3)),
    (0x00000013, 4, FetchError(4)),
    (0x00000013, 0xfffffffc, FetchError(0xfffffffc)),
    (0x00000013, 0xfffffffe, AlignmentFault(0xfffffffe)),
];

// Each word alone at 0, at a pc: the exception. SYSTEM words beside ecall and ebreak, slli with
// another funct7 and jalr with another funct3 are illegal instructions.
#[test]
fn faults(rt: HostRuntime) -> Result<(), Fail> {
    for &(word, pc, fault) in &FAULTS {
        let registers = [(1, 3), (2, 5)];
        let expected = left(ended(0, Some(fault)), pc, &registers, None);
        step_leaves(&rt, rt.alloc(), word, pc, &registers, expected)?;
    }
    Ok(())
}

/// What an instruction does: whether it set the pc, or its exception.
type Done = Result<bool, InstructionException>;

// What processing a word does, without a step, and x3 after it.
fn process_word<M: Memory>(mem: &mut M, word: u32) -> (Option<Done>, u32) {
    let mut hart = hart_of(0x100, &[]);
    let mut executor = InstructionExecutor {
        mem,
        hart_state: &mut hart,
    };
    let done = process_instruction(&mut executor, word);
    (done, hart.registers[3])
}

// auipc x3, 0x12345000 is processed at 0x100, and fence.i is an illegal instruction.
#[test]
fn processes_one_word(rt: HostRuntime) -> Result<(), Fail> {
    let mut memory = memory_of(rt.alloc(), &[])?;
    let (done, x3) = process_word(&mut memory, 0x12345197);
    let (outside, _) = process_word(&mut memory, 0x0000100f);
    assert!(rt; done == Some(Ok(false)) && x3 == 0x12345100 && outside.is_none());
    Ok(())
}
