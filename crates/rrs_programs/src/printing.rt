//! A program that prints, over every memory that keeps the laws of [Memory].
//!
//! It writes a string to a port, one byte after the other. What its clauses say beside the end of
//! the run is which writes the run made, so it holds of a port that keeps more than a byte.

ghost use Rattle.std.specs.Prelude.{◌≡◌, ◌≢◌, ℕ, ◌+◌, ◌*◌, ◌≤◌, ◌++◌, List, Some, length, vec_capacity};
ghost use Rattle.rrs_lib.specs.Accesses.{Access, AccessesOfRun, answers_of_run, MakesExactly};
ghost use Rattle.rrs_lib.specs.declared.instruction_executor.InstructionException.TheVariants.{IllegalInstruction};
ghost use Rattle.rrs_lib.specs.Executor.{state_in, KeepsTheRest};
ghost use Rattle.rrs_lib.specs.Machine.{reg};
ghost use Rattle.rrs_lib.specs.Steps.{RunUntil};
ghost use Rattle.rrs_extra.specs.Programs.{word_at};
ghost use Rattle.rrs_programs.specs.Ports.{parts_bytes, parts_writable, parts_layout, IsPortAt, TakesText};
ghost use Rattle.rrs_programs.specs.Printing.{PutStringStarts, writes_of, writes_to};
ghost use Rattle.rrs_programs.specs.declared.print_port.PrintPort.{PrintPort};

use crate::RamOrPort;
use rrs_lib::Memory;
use rrs_lib::instruction_executor::{InstructionExecutor, RunEnd};
use rrs_lib::memories::MemorySpace;

/// Calls a program of six words that writes the string at the address in x11 to the port at that in
/// x10.
///
/// The program is at the pc, and `text` is the string without the 0 at its end. The answer is how
/// many steps were made before the exception, at the address in x1 to which it returns. Then the
/// run has written the bytes of the string to the port, in their order, and has made no other
/// write.
pub fn put_string<M: Memory>(executor: &mut InstructionExecutor<M>, text: &[u8]) -> RunEnd
    requires { PutStringStarts text.now (state_in M.bytes M.writable executor.old) }
    ensures run { RunUntil (5 * length text.now + 4) (state_in M.bytes M.writable executor.old)
        result.steps result.exception (state_in M.bytes M.writable executor.new) }
    ensures steps { result.steps ≡ 5 * length text.now + 3 }
    ensures fault { result.exception ≡ Some (IllegalInstruction
        (reg (state_in M.bytes M.writable executor.old) 1)
        (word_at (M.bytes executor.old.mem.now)
        (reg (state_in M.bytes M.writable executor.old) 1))) }
    ensures bytes_kept { (a : ℕ) → a ≢ reg (state_in M.bytes M.writable executor.old) 10
        → M.bytes executor.new.mem.now a ≡ M.bytes executor.old.mem.now a }
    ensures rest { KeepsTheRest M.layout executor.old executor.new }
    ensures accesses { MakesExactly M.reads M.writes
        (AccessesOfRun (state_in M.bytes M.writable executor.old)
        (answers_of_run result.steps result.exception))
        executor.old.mem.now executor.new.mem.now }
    ensures printed { (accesses : List Access)
        → AccessesOfRun (state_in M.bytes M.writable executor.old)
        (answers_of_run result.steps result.exception) accesses
        → writes_of accesses
        ≡ writes_to (reg (state_in M.bytes M.writable executor.old) 10) text.now }
{
    // A text in memory has fewer than 2^32 bytes.
    let length = text.len() as u64;
    executor.run(length.saturating_mul(5).saturating_add(4))
}

/// Calls the program of [put_string] over a space of words and ports.
///
/// If a port that prints is at the address in x10 it takes the bytes of the string, in their order,
/// and nothing else. Where its log has room for them, what it held before and then the string is
/// what it holds.
pub fn print_string(
    executor: &mut InstructionExecutor<MemorySpace<RamOrPort>>,
    text: &[u8],
) -> RunEnd
    requires { PutStringStarts text.now (state_in parts_bytes parts_writable executor.old) }
    ensures run { RunUntil (5 * length text.now + 4)
        (state_in parts_bytes parts_writable executor.old) result.steps result.exception
        (state_in parts_bytes parts_writable executor.new) }
    ensures steps { result.steps ≡ 5 * length text.now + 3 }
    ensures fault { result.exception ≡ Some (IllegalInstruction
        (reg (state_in parts_bytes parts_writable executor.old) 1)
        (word_at (parts_bytes executor.old.mem.now)
        (reg (state_in parts_bytes parts_writable executor.old) 1))) }
    ensures bytes_kept { (a : ℕ) → a ≢ reg (state_in parts_bytes parts_writable executor.old) 10
        → parts_bytes executor.new.mem.now a ≡ parts_bytes executor.old.mem.now a }
    ensures rest { KeepsTheRest parts_layout executor.old executor.new }
    ensures taken { (i : ℕ) (before : PrintPort)
        → IsPortAt executor.old.mem.now.regions i
        (reg (state_in parts_bytes parts_writable executor.old) 10) before
        → (after : PrintPort)
        × IsPortAt executor.new.mem.now.regions i
        (reg (state_in parts_bytes parts_writable executor.old) 10) after
        × TakesText before text.now after }
    ensures log { (i : ℕ) (before after : PrintPort)
        → IsPortAt executor.old.mem.now.regions i
        (reg (state_in parts_bytes parts_writable executor.old) 10) before
        → IsPortAt executor.new.mem.now.regions i
        (reg (state_in parts_bytes parts_writable executor.old) 10) after
        → length before.log.items + length text.now ≤ vec_capacity before.log
        → after.log.items ≡ before.log.items ++ text.now }
{
    // The address of the port is a word.
    let _ = executor.hart_state.read_register(10);
    put_string(executor, text)
}
