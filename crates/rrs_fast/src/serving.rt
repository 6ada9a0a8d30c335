//! Runs of programs that call their environment.
//!
//! The hart takes no trap: at an `ecall` a run stops with the exception `EnvironmentCall(pc)`. The
//! caller serves the call and goes on. `run_served` is that loop, proved once, over any [Memory],
//! any [Runner] and any [Environment]. What a served run is, a chain of runs and calls of a hart
//! with a profile, is written in `specs/Serving.antt`.

ghost use Rattle.std.specs.Prelude.{◌≡◌, ◌%◌, ◌<◌, ◌≤◌, ℕ, List, Option, None};
ghost use Rattle.rrs_lib.specs.Machine.{State};
ghost use Rattle.rrs_lib.specs.Executor.{state_in, KeepsTheRest};
ghost use Rattle.rrs_lib.specs.Accesses.{Access, Makes};
ghost use Rattle.rrs_lib.specs.Bytes.{EndsAtLastAddress};
ghost use Rattle.rrs_hart.specs.Harts.{hart_with};
ghost use Rattle.rrs_fast.specs.Serving.{HartServed, IsOnlyServed, IsDeterminedBy, IsOnlyHartAlike, MakesSome};
ghost use Rattle.rrs_fast.specs.Rounds.{RoundOf, StepsWithin};

use crate::runner::Runner;
use rrs_lib::Memory;
use rrs_lib::instruction_executor::{InstructionException, InstructionExecutor};

/// What serves the calls of a program.
///
/// An implementation says in its own words what a call does, by `serves`, and `serve` is proved to
/// do that over every memory. So `serves` speaks of the state of the machine and of the accesses
/// that are made, and not of the memory's type. Where it allows one outcome of each call
/// (`IsDetermined`, or `IsDeterminedBy` up to `alike`), a run that is served has one outcome too.
pub trait Environment {
    /// What a call does: the environment and the machine before, both after, the accesses that the
    /// call makes, in order, and its answer. The machine before is at the `ecall`, with no
    /// register as the one written last. The machine after still has to go on to the next
    /// instruction.
    ghost serves: { Self → State → Self → State → List Access → Option ℕ → Type 0 };

    /// Which environments are alike, for a program that they serve. Without this member those are
    /// that are equal. Two `Vec`s with the same elements are not: they lie at different places.
    ghost alike: { Self → Self → Type 0 } = { λ d e. d ≡ e };

    /// Serves the call of a hart that is at an `ecall`.
    ///
    /// The answer is `None` where the program goes on, or the status that it ended with. The pc
    /// needs no change: a program that goes on does so after the `ecall`, whatever pc is left.
    /// What is no part of the state, as the memory's layout, has to stay (`rest`).
    fn serve<M: Memory>(&mut self, executor: &mut InstructionExecutor<M>) -> Option<u32>
        ensures served { MakesSome M.reads M.writes
            (λ accesses. serves self.old (state_in M.bytes M.writable executor.old)
            self.new (state_in M.bytes M.writable executor.new) accesses result)
            executor.old.mem.now executor.new.mem.now }
        ensures rest { KeepsTheRest M.layout executor.old executor.new };
}

/// Why a run that was served ended.
#[derive(Debug, PartialEq, Drop)]
pub enum Ending {
    /// The limit was reached.
    Limit,
    /// A step ended with an exception that is no `ecall`. It is none of the steps that are counted.
    Fault(InstructionException),
    /// The environment ended the program, with this status. The pc is at the `ecall`, unless the
    /// environment changed it.
    Exit(u32),
}

/// How a run that was served ended: after how many steps, and why.
#[derive(Debug, PartialEq, Drop)]
pub struct ServedEnd {
    /// How many steps were made: those that were `Ok`, and each `ecall` that was served.
    pub steps: u64,
    /// Why it ended.
    pub ending: Ending,
}

/// What a round, a run and the call that it comes to, was.
#[derive(Drop)]
enum Round {
    /// The program goes on, after this many steps.
    GoneOn(u64),
    /// It ended, after this many steps.
    Ended(u64, Ending),
}

/// Makes steps up to a call, and serves it.
fn serve_next<M: Memory, R: Runner<M>, E: Environment>(
    runner: &mut R,
    executor: &mut InstructionExecutor<M>,
    environment: &mut E,
    limit: u64,
) -> Round
    ensures round { MakesSome M.reads M.writes
        (RoundOf (R.profile runner.old) E.serves limit environment.old
        (hart_with (state_in M.bytes M.writable executor.old) (R.reserved runner.old))
        result environment.new
        (hart_with (state_in M.bytes M.writable executor.new) (R.reserved runner.new)))
        executor.old.mem.now executor.new.mem.now }
    ensures same_profile { R.profile runner.new ≡ R.profile runner.old }
    ensures within { StepsWithin limit result }
    ensures rest { KeepsTheRest M.layout executor.old executor.new }
    ensures ends { 1 ≤ limit → executor.old.hart_state.now.pc % 4 ≡ 0
        → EndsAtLastAddress (M.bytes executor.old.mem.now) (M.writable executor.old.mem.now) }
{
    let end = runner.run(executor, limit);
    let Some(exception) = end.exception else {
        return Round::Ended(end.steps, Ending::Limit);
    };
    match exception {
        InstructionException::EnvironmentCall(pc) => {
            let steps = end.steps + 1;
            match environment.serve(executor) {
                Some(status) => Round::Ended(steps, Ending::Exit(status)),
                None => {
                    executor.hart_state.pc = pc.wrapping_add(4);
                    Round::GoneOn(steps)
                }
            }
        }
        fault => Round::Ended(end.steps, Ending::Fault(fault)),
    }
}

/// Makes steps up to `limit`, to an exception, or until the environment ends the program.
///
/// Steps are made by the runner that is lent: a `DecodeCache`, which each run between two calls
/// clears, or `OwnCache` over a `CachedMemory`, whose words stay known. At an `ecall` the
/// environment serves the call, once, and a program that goes on does so at the next instruction,
/// pc + 4 modulo 2^32. Each `ecall` that is served counts as a step, so that a program that does
/// nothing but call ends too. With limit 0 nothing changes and no call is served.
///
/// The clauses: from the hart and the environment before, a chain of runs of the runner's profile
/// and calls, each within what is left of the limit, leads to those after, and exactly its accesses
/// are made, those of the steps and those of the calls in their order (`served`); where the
/// environment's calls are determined no other chain leads from there (`only`); where they are
/// determined up to a likeness, each chain from an environment that is alike has the same steps,
/// accesses, end and state, and leads to an environment that is alike (`only_alike`); the runner
/// keeps its profile (`same_profile`); what is no part of the state stays (`rest`). Where the first step fetches, nothing is mapped or writable from 2^32 on (`ends`), as
/// by `run`.
pub fn run_served<M: Memory, R: Runner<M>, E: Environment>(
    runner: &mut R,
    executor: &mut InstructionExecutor<M>,
    environment: &mut E,
    limit: u64,
) -> ServedEnd
    ensures served { MakesSome M.reads M.writes
        (HartServed (R.profile runner.old) E.serves result.ending environment.new
        (hart_with (state_in M.bytes M.writable executor.new) (R.reserved runner.new))
        limit environment.old
        (hart_with (state_in M.bytes M.writable executor.old) (R.reserved runner.old))
        result.steps) executor.old.mem.now executor.new.mem.now }
    ensures only { IsOnlyServed (R.profile runner.old) E.serves limit environment.old
        (hart_with (state_in M.bytes M.writable executor.old) (R.reserved runner.old))
        result.steps result.ending environment.new
        (hart_with (state_in M.bytes M.writable executor.new) (R.reserved runner.new)) }
    ensures only_alike { IsDeterminedBy E.serves E.alike
        → IsOnlyHartAlike (R.profile runner.old) E.serves E.alike
        (λ accesses. Makes M.reads M.writes accesses executor.old.mem.now executor.new.mem.now)
        limit environment.old
        (hart_with (state_in M.bytes M.writable executor.old) (R.reserved runner.old))
        result.steps result.ending environment.new
        (hart_with (state_in M.bytes M.writable executor.new) (R.reserved runner.new)) }
    ensures same_profile { R.profile runner.new ≡ R.profile runner.old }
    ensures rest { KeepsTheRest M.layout executor.old executor.new }
    ensures ends { 1 ≤ limit → executor.old.hart_state.now.pc % 4 ≡ 0
        → EndsAtLastAddress (M.bytes executor.old.mem.now) (M.writable executor.old.mem.now) }
{
    let mut steps = 0;
    'rounds: loop {
        match serve_next(runner, executor, environment, limit - steps) {
            Round::GoneOn(more) => {
                steps += more;
            }
            Round::Ended(more, ending) => {
                let steps = steps + more;
                return ServedEnd { steps, ending };
            }
        }
    }
}
