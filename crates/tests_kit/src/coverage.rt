//! A processor beside the executor, as a tool that measures coverage runs it: the row of each
//! instruction is counted before the instruction is executed.

ghost use Rattle.std.specs.Prelude.{◌≡◌, IfSome, IfNone};
ghost use Rattle.rrs_lib.specs.Encodings.{Fields};
ghost use Rattle.rrs_lib.specs.Table.{Row, Decodes, IsIllegal};
ghost use Rattle.rrs_lib.specs.Executor.{state_in};
ghost use Rattle.rrs_lib.specs.Steps.{Step, next_word};
ghost use Rattle.tests_kit.specs.Counting.{CountsOnce};

use crate::call_counter::CallCounter;
use rrs_extra::ROW_COUNT;
use rrs_lib::instruction_executor::{InstructionException, InstructionExecutor};
use rrs_lib::memories::VecMemory;
use rrs_lib::{HartState, Memory, process_instruction};
use std::test::Fail;

/// Counts the row of the instruction at the pc, where there is one, and makes a step.
/// An illegal instruction leaves the counts.
fn counted_step<M: Memory>(
    executor: &mut InstructionExecutor<M>,
    counter: &mut CallCounter,
) -> Result<(), InstructionException>
    ensures step { Step (state_in M.bytes M.writable executor.old)
        (state_in M.bytes M.writable executor.new) result }
    ensures counted { IfSome (next_word (state_in M.bytes M.writable executor.old)) (λ word.
        (row : Row) (f : Fields) → Decodes word row f
        → CountsOnce row counter.old.counts counter.new.counts) }
    ensures outside { IfSome (next_word (state_in M.bytes M.writable executor.old)) (λ word.
        IsIllegal word → counter.new ≡ counter.old) }
    ensures unmapped { IfNone (next_word (state_in M.bytes M.writable executor.old))
        (counter.new ≡ counter.old) }
{
    if let Some(word) = executor.word_at_pc() {
        let _counted = process_instruction(counter, word);
    }
    executor.step()
}

#[test]
fn counts_what_is_executed(rt: HostRuntime) -> Result<(), Fail> {
    // lui x2, 0x1234b000; lui x3, 0xf387e000; add x1, x2, x3; no row
    let words = vec![in rt.alloc(); 0x1234b137, 0xf387e1b7, 0x003100b3, 0]?;
    let mut memory = VecMemory::new(words);
    let mut hart = HartState::new();
    let mut executor = InstructionExecutor {
        mem: &mut memory,
        hart_state: &mut hart,
    };
    let mut counter = CallCounter::new();
    let illegal = Err(InstructionException::IllegalInstruction(0xc, 0));
    for answer in [Ok(()), Ok(()), Ok(()), illegal] {
        let seen = counted_step(&mut executor, &mut counter);
        assert!(rt; seen == answer);
    }
    let mut wanted = [0; ROW_COUNT];
    wanted[0] = 1;
    wanted[19] = 2;
    assert!(rt; counter.counts == wanted);
    Ok(())
}
