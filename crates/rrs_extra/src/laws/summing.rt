//! A program that adds up words, over every memory that keeps the laws of [Memory].

ghost use Rattle.std.specs.Prelude.{◌≡◌, ◌+◌, ◌*◌, ◌%◌, ◌^◌, Some};
ghost use Rattle.rrs_lib.specs.Accesses.{AccessesOfRun, answers_of_run, MakesExactly};
ghost use Rattle.rrs_lib.specs.declared.instruction_executor.InstructionException.TheVariants.{IllegalInstruction};
ghost use Rattle.rrs_lib.specs.Executor.{state_in, KeepsTheRest};
ghost use Rattle.rrs_lib.specs.Machine.{reg};
ghost use Rattle.rrs_lib.specs.Steps.{RunUntil};
ghost use Rattle.rrs_extra.specs.Programs.{word_at, sum_of_words, SumLoopStarts};

use rrs_lib::Memory;
use rrs_lib::instruction_executor::{InstructionExecutor, RunEnd};

/// Runs a program of seven words at 0 that adds up the x11 words from the address in x10 on.
///
/// The answer is how many steps were made before the exception, at 0x1c, on the word behind the
/// program. Then x12 is the sum modulo 2^32, and the bytes of memory are as before.
pub fn sum_loop<M: Memory>(executor: &mut InstructionExecutor<M>) -> RunEnd
    requires { SumLoopStarts (state_in M.bytes M.writable executor.old) }
    ensures run { RunUntil (6 * reg (state_in M.bytes M.writable executor.old) 11 + 3)
        (state_in M.bytes M.writable executor.old) result.steps result.exception
        (state_in M.bytes M.writable executor.new) }
    ensures steps { result.steps ≡ 6 * reg (state_in M.bytes M.writable executor.old) 11 + 2 }
    ensures fault { result.exception
        ≡ Some (IllegalInstruction 0x1c (word_at (M.bytes executor.old.mem.now) 0x1c)) }
    ensures sum { reg (state_in M.bytes M.writable executor.new) 12
        ≡ sum_of_words (M.bytes executor.old.mem.now)
        (reg (state_in M.bytes M.writable executor.old) 10)
        (reg (state_in M.bytes M.writable executor.old) 11) % 2 ^ 32 }
    ensures bytes_kept { M.bytes executor.new.mem.now ≡ M.bytes executor.old.mem.now }
    ensures rest { KeepsTheRest M.layout executor.old executor.new }
    ensures accesses { MakesExactly M.reads M.writes
        (AccessesOfRun (state_in M.bytes M.writable executor.old)
        (answers_of_run result.steps result.exception))
        executor.old.mem.now executor.new.mem.now }
{
    // The address is a word.
    let _ = executor.hart_state.read_register(10);
    let count = executor.hart_state.read_register(11);
    executor.run(6 * u64::from(count) + 3)
}
