//! A run depends on the bytes of its memory and on which addresses are writable, and on nothing
//! else of it: over two memories that agree in these, two runs to one limit end alike.

ghost use Rattle.std.specs.Prelude.{◌≡◌, ◌≤◌};
ghost use Rattle.rrs_lib.specs.Accesses.{AccessesOfRun, answers_of_run, MakesExactly};
ghost use Rattle.rrs_lib.specs.Executor.{state_in, KeepsTheRest};
ghost use Rattle.rrs_lib.specs.Steps.{RunUntil};
ghost use Rattle.rrs_extra.specs.Agreement.{Agree};

use rrs_lib::Memory;
use rrs_lib::instruction_executor::{InstructionExecutor, RunEnd};

/// Runs two machines that agree to one limit, and returns how each of the runs ended.
///
/// They end alike, after as many steps, and the machines agree again. Where the limit is at least 1
/// their last written registers are equal too.
/// Each memory goes from what it was to what it is by exactly the accesses of its machine's steps.
pub fn same_run<A: Memory, B: Memory>(
    first: &mut InstructionExecutor<A>,
    second: &mut InstructionExecutor<B>,
    limit: u64,
) -> (RunEnd, RunEnd)
    requires { Agree (state_in A.bytes A.writable first.old)
        (state_in B.bytes B.writable second.old) }
    ensures first_run { RunUntil limit (state_in A.bytes A.writable first.old)
        result.0.steps result.0.exception (state_in A.bytes A.writable first.new) }
    ensures second_run { RunUntil limit (state_in B.bytes B.writable second.old)
        result.1.steps result.1.exception (state_in B.bytes B.writable second.new) }
    ensures same_end { result.0 ≡ result.1 }
    ensures agree_after { Agree (state_in A.bytes A.writable first.new)
        (state_in B.bytes B.writable second.new) }
    ensures same_last { 1 ≤ limit → first.new.hart_state.now.last_register_write
        ≡ second.new.hart_state.now.last_register_write }
    ensures first_rest { KeepsTheRest A.layout first.old first.new }
    ensures second_rest { KeepsTheRest B.layout second.old second.new }
    ensures first_accesses { MakesExactly A.reads A.writes
        (AccessesOfRun (state_in A.bytes A.writable first.old)
        (answers_of_run result.0.steps result.0.exception))
        first.old.mem.now first.new.mem.now }
    ensures second_accesses { MakesExactly B.reads B.writes
        (AccessesOfRun (state_in B.bytes B.writable second.old)
        (answers_of_run result.1.steps result.1.exception))
        second.old.mem.now second.new.mem.now }
{
    let first_end = first.run(limit);
    let second_end = second.run(limit);
    (first_end, second_end)
}
