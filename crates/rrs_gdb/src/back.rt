//! Steps back, up to a stop.

ghost use Rattle.rrs_lib.specs.Executor.{state_in, KeepsTheRest};
ghost use Rattle.rrs_history.specs.Histories.{changes, past};
ghost use Rattle.rrs_gdb.specs.Breaks.{GoesBack};

use crate::breaks::{Breaks, Watch, watch_at};
use rrs_fast::is_stop;
use rrs_history::{History, step_back, step_recorded};
use rrs_lib::Memory;
use rrs_lib::instruction_executor::InstructionExecutor;

/// Why steps back ended.
#[derive(Debug, PartialEq, Drop)]
pub enum BackEnd {
    /// The history leads back no further.
    AtBegin,
    /// A call was taken back, whose owner takes back what the environment keeps.
    Call,
    /// The pc is a stop, and at least one step was taken back.
    AtStop,
    /// The step that was made last touches this watchpoint.
    Touched(Watch),
    /// As many steps as the limit were taken back.
    Limit,
}

/// How steps back ended: how many there were, and why no further one was.
#[derive(Debug, PartialEq, Drop)]
pub struct WentBack {
    /// How many steps were taken back, and not made again. A call is one.
    pub steps: u64,
    /// Why they ended.
    pub end: BackEnd,
}

/// Takes steps back, until the pc is a stop, the next one to take back touches a watchpoint, one
/// was a call, as many as `limit` were taken back, or there are no more.
///
/// The states to which it went are those that the history leads back to, in order, and the first of
/// them that is at a stop, or from which the step touches a watchpoint, is the last; at the begin
/// and at the limit the machine is in the last of them, and `steps` counts them (`back`). Whether a
/// step touches a watchpoint shows where it was taken back: it is made again then, and not counted.
pub fn go_back<M: Memory>(
    executor: &mut InstructionExecutor<M>,
    history: &mut History,
    limit: u64,
    breaks: &Breaks,
) -> WentBack
    ensures back { GoesBack breaks.now.stops.items breaks.now.watches.items limit
        (state_in M.bytes M.writable executor.old)
        (past (changes history.old) (state_in M.bytes M.writable executor.old))
        (past (changes history.new) (state_in M.bytes M.writable executor.new))
        (state_in M.bytes M.writable executor.new) result.steps result.end }
    ensures rest { KeepsTheRest M.layout executor.old executor.new }
{
    let mut steps = 0;
    'steps: while steps < limit {
        let Some(change) = step_back(executor, history) else {
            return WentBack {
                steps,
                end: BackEnd::AtBegin,
            };
        };
        if change.of_call {
            return WentBack {
                steps: steps + 1,
                end: BackEnd::Call,
            };
        }
        if let Some(watch) = watch_at(executor, &breaks.watches) {
            let _answer = step_recorded(executor, history);
            return WentBack {
                steps,
                end: BackEnd::Touched(watch),
            };
        }
        steps += 1;
        if is_stop(&breaks.stops, executor.hart_state.pc) {
            return WentBack {
                steps,
                end: BackEnd::AtStop,
            };
        }
    }
    WentBack {
        steps,
        end: BackEnd::Limit,
    }
}
