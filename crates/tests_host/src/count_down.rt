//! A loop of two instructions, which `docs/PROGRAMS.md` proves step by step.

ghost use Rattle.std.specs.Prelude.{◌≡◌, ◌*◌, ◌<◌, Some, None};
ghost use Rattle.rrs_lib.specs.Executor.{state_in, KeepsTheRest};
ghost use Rattle.rrs_lib.specs.Machine.{reg};
ghost use Rattle.rrs_lib.specs.Bytes.{little_endian};

use rrs_lib::Memory;
use rrs_lib::instruction_executor::{InstructionExecutor, RunEnd};

/// Runs `addi x1, x1, -1` and `bne x1, x0, -4`, at 0 and 4, until x1 is 0.
///
/// It returns two steps for each 1 that x1 was, and no exception. The bytes of memory are as
/// before.
pub(crate) fn count_down<M: Memory>(executor: &mut InstructionExecutor<M>) -> RunEnd
    requires pc { executor.old.hart_state.now.pc ≡ 0 }
    requires some { 0 < reg (state_in M.bytes M.writable executor.old) 1 }
    requires first { little_endian (M.bytes executor.old.mem.now) 0 4 ≡ Some 0xfff08093 }
    requires second { little_endian (M.bytes executor.old.mem.now) 4 4 ≡ Some 0xfe009ee3 }
    ensures steps { result.steps ≡ 2 * reg (state_in M.bytes M.writable executor.old) 1 }
    ensures fault { result.exception ≡ None }
    ensures x1 { reg (state_in M.bytes M.writable executor.new) 1 ≡ 0 }
    ensures pc { executor.new.hart_state.now.pc ≡ 8 }
    ensures bytes_kept { M.bytes executor.new.mem.now ≡ M.bytes executor.old.mem.now }
    ensures rest { KeepsTheRest M.layout executor.old executor.new }
{
    let count = executor.hart_state.read_register(1);
    executor.run(2 * u64::from(count))
}

#[cfg(test)]
mod tests;
