//! A program that writes all that it reads.

ghost use Rattle.std.specs.Prelude.{◌≡◌, ◌⊎◌, ℕ, ◌+◌, ◌*◌, ◌<◌, ◌≤◌, min, [], ◌++◌, length, vec_capacity};
ghost use Rattle.rrs_lib.specs.AccessLists.{Makes};
ghost use Rattle.rrs_lib.specs.Executor.{state_in, KeepsTheRest};
ghost use Rattle.rrs_lib.specs.Machine.{reg};
ghost use Rattle.rrs_fast.specs.Serving.{Served, IsOnlyAlike, MakesSome};
ghost use Rattle.rrs_fast.specs.declared.serving.Ending.TheVariants.{Exit};
ghost use Rattle.rrs_linux.specs.Recording.{Records, AlikeRecordings};
ghost use Rattle.rrs_linux.specs.Transfers.{most_bytes};
ghost use Rattle.rrs_programs.specs.Echoing.{EchoStarts, TakesRounds};

use crate::writing::arguments_of_call;
use rrs_fast::{DecodeCache, ServedEnd, run_served};
use rrs_lib::Memory;
use rrs_lib::instruction_executor::InstructionExecutor;
use rrs_linux::OutputRecorder;

/// Calls a program of 18 words that reads standard input into the buffer of x11 bytes at the
/// address in x10, writes what it got to standard output, and again so until the input ends, and
/// exits with status 0.
///
/// The program is at the pc. The limit is at least 11 for each byte of the input and 14 more: the
/// run makes 11 steps for each buffer that it fills, the last perhaps in part, and 14 more, its
/// calls included. Then the output has grown by exactly the input, whatever that was, the input is
/// at its end, and the rest of the environment, and each byte of memory outside the buffer, are as
/// before. Each run from this state, over this environment or one that is alike, has these steps,
/// this end and these accesses, and leaves this state and an environment that is alike (`only`).
pub fn echo<M: Memory>(
    executor: &mut InstructionExecutor<M>,
    environment: &mut OutputRecorder,
    limit: u64,
) -> ServedEnd
    requires starts { EchoStarts (state_in M.bytes M.writable executor.old) }
    requires room { length environment.old.output.items + length environment.old.input.now
        ≤ vec_capacity environment.old.output }
    requires enough { 11 * length environment.old.input.now + 14 ≤ limit }
    ensures served { MakesSome M.reads M.writes
        (Served Records result.ending
        environment.new (state_in M.bytes M.writable executor.new)
        limit environment.old (state_in M.bytes M.writable executor.old) result.steps)
        executor.old.mem.now executor.new.mem.now }
    ensures only { IsOnlyAlike Records AlikeRecordings
        (λ accesses. Makes M.reads M.writes accesses executor.old.mem.now executor.new.mem.now)
        limit environment.old (state_in M.bytes M.writable executor.old)
        result.steps result.ending
        environment.new (state_in M.bytes M.writable executor.new) }
    ensures steps { (rounds : ℕ)
        × TakesRounds (length environment.old.input.now)
        (min (reg (state_in M.bytes M.writable executor.old) 11) most_bytes) rounds
        × (result.steps ≡ 11 * rounds + 14) }
    ensures ending { result.ending ≡ Exit 0 }
    ensures output { environment.new.output.items
        ≡ environment.old.output.items ++ environment.old.input.now }
    ensures input { environment.new.input.now ≡ [] }
    ensures errors_kept { environment.new.errors ≡ environment.old.errors }
    ensures heap_kept { environment.new.heap ≡ environment.old.heap }
    ensures random_kept { environment.new.random ≡ environment.old.random }
    ensures others_kept { (a : ℕ)
        → (a < reg (state_in M.bytes M.writable executor.old) 10)
        ⊎ (reg (state_in M.bytes M.writable executor.old) 10
        + reg (state_in M.bytes M.writable executor.old) 11 ≤ a)
        → M.bytes executor.new.mem.now a ≡ M.bytes executor.old.mem.now a }
    ensures rest { KeepsTheRest M.layout executor.old executor.new }
{
    arguments_of_call(executor.hart_state);
    run_served(&mut DecodeCache::new(), executor, environment, limit)
}
