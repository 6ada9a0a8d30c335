//! A program that writes a text and ends.

ghost use Rattle.std.specs.Prelude.{◌≡◌, ℕ, ◌+◌, ◌%◌, ◌^◌, ◌<◌, ◌≤◌, ◌++◌, Bool, Option, length, take, vec_capacity};
ghost use Rattle.std.specs.Io.KnownBytes.{Appends};
ghost use Rattle.rrs_lib.specs.AccessLists.{Makes};
ghost use Rattle.rrs_lib.specs.Executor.{state_in, KeepsTheRest};
ghost use Rattle.rrs_lib.specs.Machine.{state_of, reg};
ghost use Rattle.rrs_fast.specs.Serving.{Served, IsOnlyAlike, MakesSome};
ghost use Rattle.rrs_fast.specs.declared.serving.Ending.TheVariants.{Exit};
ghost use Rattle.rrs_linux.specs.Recording.{Records, AlikeRecordings};
ghost use Rattle.rrs_linux.specs.SystemCalls.{Serves};
ghost use Rattle.rrs_programs.specs.WritingAndExiting.{WriteAndExitStarts, EndsOver};

use rrs_fast::{DecodeCache, ServedEnd, run_served};
use rrs_lib::instruction_executor::InstructionExecutor;
use rrs_lib::{HartState, Memory};
use rrs_linux::{Linux, OutputRecorder};
use std::io::{Read, Write};

/// Calls a program of 13 words that writes the x11 bytes from the address in x10 on to standard
/// output, and exits with the status in x12.
///
/// The program is at the pc, and the bytes are `text`. The limit is 13 or more: the run makes 13
/// steps, its two calls included. Then the output has grown by exactly the text, the status is the
/// low byte of x12, and the rest of the environment and the bytes of memory are as before. Each run
/// from this state, over this environment or one that is alike, has these steps, this end and these
/// accesses, and leaves this state and an environment that is alike (`only`).
pub fn write_and_exit<M: Memory>(
    executor: &mut InstructionExecutor<M>,
    environment: &mut OutputRecorder,
    text: &[u8],
    limit: u64,
) -> ServedEnd
    requires starts { WriteAndExitStarts text.now (state_in M.bytes M.writable executor.old) }
    requires room { length environment.old.output.items + length text.now
        ≤ vec_capacity environment.old.output }
    requires enough { 13 ≤ limit }
    ensures served { MakesSome M.reads M.writes
        (Served Records result.ending
        environment.new (state_in M.bytes M.writable executor.new)
        limit environment.old (state_in M.bytes M.writable executor.old) result.steps)
        executor.old.mem.now executor.new.mem.now }
    ensures only { IsOnlyAlike Records AlikeRecordings
        (λ accesses. Makes M.reads M.writes accesses executor.old.mem.now executor.new.mem.now)
        limit environment.old (state_in M.bytes M.writable executor.old)
        result.steps result.ending
        environment.new (state_in M.bytes M.writable executor.new) }
    ensures steps { result.steps ≡ 13 }
    ensures ending { result.ending
        ≡ Exit (reg (state_in M.bytes M.writable executor.old) 12 % 256) }
    ensures output { environment.new.output.items ≡ environment.old.output.items ++ text.now }
    ensures input_kept { environment.new.input ≡ environment.old.input }
    ensures errors_kept { environment.new.errors ≡ environment.old.errors }
    ensures heap_kept { environment.new.heap ≡ environment.old.heap }
    ensures random_kept { environment.new.random ≡ environment.old.random }
    ensures bytes_kept { M.bytes executor.new.mem.now ≡ M.bytes executor.old.mem.now }
    ensures rest { KeepsTheRest M.layout executor.old executor.new }
{
    arguments_of_call(executor.hart_state);
    run_served(&mut DecodeCache::new(), executor, environment, limit)
}

/// Calls the program of [write_and_exit] over the streams of a host.
///
/// Whatever they do, the run makes its 13 steps and ends with the status; but where nobody reads
/// the output any more it ends at its write, the eighth step, with status 141. The output has grown
/// by a beginning of the text, where its bytes are known: all of it, but where the host's write was
/// short or failed, which the program does not look at.
pub fn write_and_exit_over<M: Memory, R: Read, W: Write, E: Write>(
    executor: &mut InstructionExecutor<M>,
    environment: &mut Linux<R, W, E>,
    text: &[u8],
    limit: u64,
) -> ServedEnd
    requires starts { WriteAndExitStarts text.now (state_in M.bytes M.writable executor.old) }
    requires enough { 13 ≤ limit }
    ensures served { MakesSome M.reads M.writes
        (Served (Serves R.remaining W.contents E.contents) result.ending
        environment.new (state_in M.bytes M.writable executor.new)
        limit environment.old (state_in M.bytes M.writable executor.old) result.steps)
        executor.old.mem.now executor.new.mem.now }
    ensures ends { EndsOver (reg (state_in M.bytes M.writable executor.old) 12)
        environment.old.output environment.new.output result.steps result.ending }
    ensures output { (count : ℕ) × (count ≤ length text.now)
        × Appends (W.contents environment.old.output.stream)
        (W.contents environment.new.output.stream) (take count text.now) }
    ensures input_kept { environment.new.input ≡ environment.old.input }
    ensures held_kept { environment.new.held ≡ environment.old.held }
    ensures errors_kept { environment.new.errors ≡ environment.old.errors }
    ensures heap_kept { environment.new.heap ≡ environment.old.heap }
    ensures random_kept { environment.new.random ≡ environment.old.random }
    ensures bytes_kept { M.bytes executor.new.mem.now ≡ M.bytes executor.old.mem.now }
    ensures rest { KeepsTheRest M.layout executor.old executor.new }
{
    arguments_of_call(executor.hart_state);
    run_served(&mut DecodeCache::new(), executor, environment, limit)
}

/// What the type of the registers says: there are 32, and the first three arguments of a call are
/// words.
pub fn arguments_of_call(hart: &HartState)
    ensures count { length hart.now.registers ≡ 32 }
    ensures words { (bytes : ℕ → Option ℕ) (writable : ℕ → Bool)
        → (reg (state_of hart.now bytes writable) 10 < 2 ^ 32)
        × (reg (state_of hart.now bytes writable) 11 < 2 ^ 32)
        × (reg (state_of hart.now bytes writable) 12 < 2 ^ 32) }
{
    // From this call the check knows that there are 32 registers.
    let _count = hart.register_count();
    let _ = (
        hart.read_register(10),
        hart.read_register(11),
        hart.read_register(12),
    );
}
