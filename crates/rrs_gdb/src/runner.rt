//! What runs up to a stop.

ghost use Rattle.std.specs.Prelude.{◌≡◌, ◌≤◌};
ghost use Rattle.rrs_lib.specs.Executor.{state_in, KeepsTheRest};
ghost use Rattle.rrs_lib.specs.Steps.{LastIsRegister};
ghost use Rattle.rrs_lib.specs.Accesses.{AccessesOfRun, answers_of_run, MakesExactly};
ghost use Rattle.rrs_trace.specs.Stops.{RunsToStop, IsOnlyRunToStop, fault_of};

use rrs_fast::{CachedMemory, OwnCache};
use rrs_lib::Memory;
use rrs_lib::instruction_executor::InstructionExecutor;
use rrs_trace::{StopEnd, run_until, run_until_cached};

/// What makes runs up to a stop over memories of one type, as `run_until` of `rrs_trace` does, with
/// its clauses.
pub trait StopRunner<M: Memory> {
    /// Makes steps until the pc is a stop, as many as `limit` were `Ok`, or one raises an
    /// exception.
    fn run_to_stop(
        &mut self,
        executor: &mut InstructionExecutor<M>,
        limit: u64,
        stops: &[u32],
    ) -> StopEnd
        ensures run { RunsToStop stops.now limit (state_in M.bytes M.writable executor.old)
            result.steps result.reason (state_in M.bytes M.writable executor.new) }
        ensures only { IsOnlyRunToStop stops.now limit (state_in M.bytes M.writable executor.old)
            result.steps result.reason (state_in M.bytes M.writable executor.new) }
        ensures last { LastIsRegister executor.old.hart_state.now.last_register_write
            → LastIsRegister executor.new.hart_state.now.last_register_write }
        ensures rest { KeepsTheRest M.layout executor.old executor.new }
        ensures accesses { MakesExactly M.reads M.writes
            (AccessesOfRun (state_in M.bytes M.writable executor.old)
            (answers_of_run result.steps (fault_of result.reason)))
            executor.old.mem.now executor.new.mem.now };
}

/// Runs over a memory that keeps no decoded words.
#[derive(Drop)]
pub struct PlainRunner;

impl<M: Memory> StopRunner<M> for PlainRunner {
    fn run_to_stop(
        &mut self,
        executor: &mut InstructionExecutor<M>,
        limit: u64,
        stops: &[u32],
    ) -> StopEnd {
        run_until(executor, limit, stops)
    }
}

impl<M: Memory, const N: usize> StopRunner<CachedMemory<M, N>> for OwnCache {
    fn run_to_stop(
        &mut self,
        executor: &mut InstructionExecutor<CachedMemory<M, N>>,
        limit: u64,
        stops: &[u32],
    ) -> StopEnd {
        run_until_cached(executor, limit, stops)
    }
}
