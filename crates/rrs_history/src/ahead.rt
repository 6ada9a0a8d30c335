//! Steps forward and back again.

ghost use Rattle.std.specs.Prelude.{◌≡◌, ◌≤◌, ◌-◌, take};
ghost use Rattle.rrs_lib.specs.Machine.{State};
ghost use Rattle.rrs_lib.specs.Executor.{state_in, KeepsTheRest};
ghost use Rattle.rrs_lib.specs.Steps.{RunUntil};
ghost use Rattle.rrs_history.specs.declared.history.History.{History};
ghost use Rattle.rrs_history.specs.Histories.{changes, room};
ghost use Rattle.rrs_history.specs.Returns.{WentAhead, IsBack};

use crate::history::{History, step_back, step_recorded};
use rrs_lib::Memory;
use rrs_lib::instruction_executor::{InstructionExecutor, RunEnd};

/// Makes steps up to a limit or an exception, and keeps them.
fn go_ahead<M: Memory>(
    executor: &mut InstructionExecutor<M>,
    history: &mut History,
    limit: u64,
) -> RunEnd
    ensures run { RunUntil limit (state_in M.bytes M.writable executor.old)
        result.steps result.exception (state_in M.bytes M.writable executor.new) }
    ensures ahead { WentAhead result.steps
        history.old (state_in M.bytes M.writable executor.old)
        history.new (state_in M.bytes M.writable executor.new) }
    ensures within { result.steps ≤ limit }
    ensures rest { KeepsTheRest M.layout executor.old executor.new }
{
    let _room = history.room();
    for steps in 0..limit {
        if let Err(exception) = step_recorded(executor, history) {
            return RunEnd {
                steps,
                exception: Some(exception),
            };
        }
    }
    RunEnd {
        steps: limit,
        exception: None,
    }
}

/// Takes so many steps back, which were made from a state.
fn go_back<M: Memory>(executor: &mut InstructionExecutor<M>, history: &mut History, steps: u64)
    ensures back { (first : History) (s : State) → steps ≤ room first
        → WentAhead steps first s history.old (state_in M.bytes M.writable executor.old)
        → IsBack s (state_in M.bytes M.writable executor.new) }
    ensures kept { (first : History) (s : State) → steps ≤ room first
        → WentAhead steps first s history.old (state_in M.bytes M.writable executor.old)
        → changes history.new ≡ take (room first - steps) (changes first) }
    ensures room { room history.new ≡ room history.old }
    ensures rest { KeepsTheRest M.layout executor.old executor.new }
{
    let mut left = steps;
    'steps: while 0 < left {
        let _change = step_back(executor, history);
        left -= 1;
    }
}

/// Returns how a run to a limit would end, and leaves the machine as it is: it makes the steps, and
/// takes them back.
///
/// The answer is that of `run` from here (`run`). Registers, pc, last written register and bytes
/// are as they were (`back`): that is the law of a history, n steps and n steps back. From a state
/// there is one run (`only` of `run`), so forward again the same steps are made. The history has to
/// have room for the steps. It keeps what it kept, newest first, as far as there was room beside
/// them (`kept`).
pub fn look_ahead<M: Memory>(
    executor: &mut InstructionExecutor<M>,
    history: &mut History,
    limit: u64,
) -> RunEnd
    requires { limit ≤ room history.old }
    ensures run { (t : State) × RunUntil limit (state_in M.bytes M.writable executor.old)
        result.steps result.exception t }
    ensures back { state_in M.bytes M.writable executor.new
        ≡ state_in M.bytes M.writable executor.old }
    ensures kept { changes history.new
        ≡ take (room history.old - result.steps) (changes history.old) }
    ensures room { room history.new ≡ room history.old }
    ensures rest { KeepsTheRest M.layout executor.old executor.new }
{
    let last = executor.hart_state.last_register_write;
    let end = go_ahead(executor, history, limit);
    go_back(executor, history, end.steps);
    executor.hart_state.last_register_write = last;
    end
}
