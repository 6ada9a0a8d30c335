//! The hart, the calls of the executor, and their exceptions.

use crate::surface::is_shown_and_compared;
use rrs_lib::instruction_executor::{InstructionException, InstructionExecutor, RunEnd};
use rrs_lib::memories::VecMemory;
use rrs_lib::{HartState, Memory};
use std::test::Fail;

#[test]
fn a_new_hart(rt: HostRuntime) {
    let HartState {
        registers,
        pc,
        last_register_write,
    }: HartState = HartState::new();
    let new: ([u32; 32], u32, Option<usize>) = (registers, pc, last_register_write);
    let hart: HartState = HartState::default();
    let default = (hart.registers, hart.pc, hart.last_register_write);
    assert!(rt; new == ([0; 32], 0, None) && default == new);
}

/// What an exception holds, after its number.
fn parts_of(fault: InstructionException) -> [u32; 3] {
    match fault {
        InstructionException::IllegalInstruction(pc, word) => [1, pc, word],
        InstructionException::FetchError(pc) => [2, pc, 0],
        InstructionException::LoadAccessFault(address) => [3, address, 0],
        InstructionException::StoreAccessFault(address) => [4, address, 0],
        InstructionException::AlignmentFault(address) => [5, address, 0],
        InstructionException::EnvironmentCall(pc) => [6, pc, 0],
        InstructionException::Breakpoint(pc) => [7, pc, 0],
    }
}

/// What a step, two steps into a slice, and a run answer.
pub(crate) type Answers = ([Result<(), InstructionException>; 3], RunEnd);

/// Makes them, from a pc.
pub(crate) fn steps_and_run<M: Memory>(mem: &mut M, pc: u32) -> Answers {
    let mut hart = HartState {
        registers: [0; 32],
        pc,
        last_register_write: None,
    };
    let mut executor: InstructionExecutor<M> = InstructionExecutor {
        mem,
        hart_state: &mut hart,
    };
    let first: Result<(), InstructionException> = executor.step();
    let mut answers: [Result<(), InstructionException>; 2] = [Ok(()), Ok(())];
    let () = executor.step_each(&mut answers);
    let end: RunEnd = executor.run(0xffff_ffff_ffff_ffff);
    let [second, third] = answers;
    ([first, second, third], end)
}

// jal x1, 2: the steps after it, and the run, raise the exception of a misaligned address.
#[test]
fn a_program_is_stepped_and_run(rt: HostRuntime) -> Result<(), Fail> {
    is_shown_and_compared::<InstructionException>();
    is_shown_and_compared::<RunEnd>();
    let words: Vec<u32> = vec![in rt.alloc(); 0x002000ef]?;
    let mut memory: VecMemory = VecMemory::new(words);
    let (answers, end) = steps_and_run(&mut memory, 0);
    let RunEnd { steps, exception }: RunEnd = end;
    let end: (u64, Option<InstructionException>) = (steps, exception);
    let misaligned = InstructionException::AlignmentFault(2);
    let is_right = answers == [Ok(()), Err(misaligned), Err(misaligned)];
    assert!(rt; is_right && end == (0, Some(misaligned)) && parts_of(misaligned) == [5, 2, 0]);
    Ok(())
}
