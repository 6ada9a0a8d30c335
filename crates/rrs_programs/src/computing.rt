//! Two programs that compute, over every memory that keeps the laws of [Memory].
//!
//! Each call makes one `run` of words in memory. Its clauses say how many steps it has, where it
//! ends, what it computes, what stays, and that exactly the accesses of the run are made.

ghost use Rattle.std.specs.Prelude.{◌≡◌, ℕ, ◌+◌, ◌*◌, ◌≤◌, Some};
ghost use Rattle.std.specs.Int.{IsGcd};
ghost use Rattle.rrs_lib.specs.Accesses.{AccessesOfRun, answers_of_run, MakesExactly};
ghost use Rattle.rrs_lib.specs.declared.instruction_executor.InstructionException.TheVariants.{IllegalInstruction};
ghost use Rattle.rrs_lib.specs.Executor.{state_in, KeepsTheRest};
ghost use Rattle.rrs_lib.specs.Machine.{reg};
ghost use Rattle.rrs_lib.specs.Steps.{RunUntil};
ghost use Rattle.rrs_extra.specs.Programs.{word_at};
ghost use Rattle.rrs_programs.specs.Computing.{IsCalled, gcd_program, CopyWordsStarts, CopiesWords, copy_steps};

use crate::writing::arguments_of_call;
use rrs_lib::Memory;
use rrs_lib::instruction_executor::{InstructionExecutor, RunEnd};

/// Calls a program of six words that computes the greatest common divisor of x10 and x11.
///
/// The program is at the pc. The answer is how many steps were made before the exception, at the
/// address in x1 to which it returns. Then x10 is the divisor, 0 where both were 0, and the bytes
/// of memory are as before. It makes five steps for each remainder, of which there are at most x11.
pub fn gcd<M: Memory>(executor: &mut InstructionExecutor<M>) -> RunEnd
    requires { IsCalled gcd_program (state_in M.bytes M.writable executor.old) }
    ensures run { RunUntil (5 * reg (state_in M.bytes M.writable executor.old) 11 + 3)
        (state_in M.bytes M.writable executor.old) result.steps result.exception
        (state_in M.bytes M.writable executor.new) }
    ensures steps { (k : ℕ) × (k ≤ reg (state_in M.bytes M.writable executor.old) 11)
        × (result.steps ≡ 5 * k + 2) }
    ensures fault { result.exception ≡ Some (IllegalInstruction
        (reg (state_in M.bytes M.writable executor.old) 1)
        (word_at (M.bytes executor.old.mem.now)
        (reg (state_in M.bytes M.writable executor.old) 1))) }
    ensures divisor { IsGcd (reg (state_in M.bytes M.writable executor.old) 10)
        (reg (state_in M.bytes M.writable executor.old) 11)
        (reg (state_in M.bytes M.writable executor.new) 10) }
    ensures bytes_kept { M.bytes executor.new.mem.now ≡ M.bytes executor.old.mem.now }
    ensures rest { KeepsTheRest M.layout executor.old executor.new }
    ensures accesses { MakesExactly M.reads M.writes
        (AccessesOfRun (state_in M.bytes M.writable executor.old)
        (answers_of_run result.steps result.exception))
        executor.old.mem.now executor.new.mem.now }
{
    let divisor = executor.hart_state.read_register(11);
    executor.run(5 * u64::from(divisor) + 3)
}

/// Calls a program of nine words that copies the x12 words from the address in x11 on to that in
/// x10.
///
/// The program is at the pc. The answer is how many steps were made before the exception, at the
/// address in x1 to which it returns. Then the words are in both places, and all other bytes are as
/// before.
pub fn copy_words<M: Memory>(executor: &mut InstructionExecutor<M>) -> RunEnd
    requires { CopyWordsStarts (state_in M.bytes M.writable executor.old) }
    ensures run { RunUntil (5 * reg (state_in M.bytes M.writable executor.old) 12 + 5)
        (state_in M.bytes M.writable executor.old) result.steps result.exception
        (state_in M.bytes M.writable executor.new) }
    ensures steps { result.steps
        ≡ copy_steps (reg (state_in M.bytes M.writable executor.old) 12) }
    ensures fault { result.exception ≡ Some (IllegalInstruction
        (reg (state_in M.bytes M.writable executor.old) 1)
        (word_at (M.bytes executor.old.mem.now)
        (reg (state_in M.bytes M.writable executor.old) 1))) }
    ensures copied { CopiesWords (M.bytes executor.old.mem.now) (M.bytes executor.new.mem.now)
        (reg (state_in M.bytes M.writable executor.old) 10)
        (reg (state_in M.bytes M.writable executor.old) 11)
        (reg (state_in M.bytes M.writable executor.old) 12) }
    ensures rest { KeepsTheRest M.layout executor.old executor.new }
    ensures accesses { MakesExactly M.reads M.writes
        (AccessesOfRun (state_in M.bytes M.writable executor.old)
        (answers_of_run result.steps result.exception))
        executor.old.mem.now executor.new.mem.now }
{
    arguments_of_call(executor.hart_state);
    let count = executor.hart_state.read_register(12);
    executor.run(5 * u64::from(count) + 5)
}
