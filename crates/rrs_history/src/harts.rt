//! Steps of a hart with a profile, which can be taken back.

ghost use Rattle.std.specs.Prelude.{◌≡◌, OnErr, slice_index};
ghost use Rattle.rrs_lib.specs.Executor.{state_in, KeepsTheRest};
ghost use Rattle.rrs_lib.specs.Steps.{cleared};
ghost use Rattle.rrs_hart.specs.Harts.{hart_with, HartStep, IsOnlyHartStep};
ghost use Rattle.rrs_fast.specs.Serving.{MakesSome};
ghost use Rattle.rrs_history.specs.Calls.{IsStepRecorded, KeepsHartStep};

use crate::calls::{RecordedMemory, begun, keep_registers};
use crate::history::History;
use rrs_hart::{HartProfile, step_hart};
use rrs_lib::instruction_executor::{InstructionException, InstructionExecutor};
use rrs_lib::{HartState, Memory};

/// Makes a step of a hart with a memory that is recorded.
fn step_executor<'b, M: Memory>(
    executor: &mut InstructionExecutor<RecordedMemory<'b, M>>,
    reservation: &mut Option<u32>,
    profile: HartProfile,
) -> Result<(), InstructionException>
    ensures stepped { IsStepRecorded M.bytes M.writable M.reads M.writes profile
        reservation.old executor.old.hart_state.now
        executor.old.mem.now.memory.now executor.old.mem.now.history.now
        reservation.new executor.new.hart_state.now
        executor.new.mem.now.memory.now executor.new.mem.now.history.now result }
    ensures rest { KeepsTheRest (λ m. M.layout m.memory.now) executor.old executor.new }
    ensures same_memory { executor.new.mem.now.memory.ghost_name
        ≡ executor.old.mem.now.memory.ghost_name }
    ensures same_history { executor.new.mem.now.history.ghost_name
        ≡ executor.old.mem.now.history.ghost_name }
{
    step_hart(executor, reservation, profile)
}

/// Makes a step over a memory that is recorded.
fn step_inner<'b, M: Memory>(
    recorded: &mut RecordedMemory<'b, M>,
    hart_state: &mut HartState,
    reservation: &mut Option<u32>,
    profile: HartProfile,
) -> Result<(), InstructionException>
    ensures stepped { IsStepRecorded M.bytes M.writable M.reads M.writes profile
        reservation.old hart_state.old recorded.old.memory.now recorded.old.history.now
        reservation.new hart_state.new recorded.new.memory.now recorded.new.history.now result }
    ensures entry_zero { slice_index hart_state.new.registers 0
        ≡ slice_index hart_state.old.registers 0 }
    ensures layout_kept { M.layout recorded.new.memory.now ≡ M.layout recorded.old.memory.now }
    ensures same_memory { recorded.new.memory.ghost_name ≡ recorded.old.memory.ghost_name }
    ensures same_history { recorded.new.history.ghost_name ≡ recorded.old.history.ghost_name }
{
    let mut executor = InstructionExecutor {
        mem: recorded,
        hart_state,
    };
    step_executor(&mut executor, reservation, profile)
}

/// Makes a step, and keeps what it writes into memory.
fn step_over<M: Memory>(
    mem: &mut M,
    hart_state: &mut HartState,
    reservation: &mut Option<u32>,
    profile: HartProfile,
    history: &mut History,
) -> Result<(), InstructionException>
    ensures stepped { IsStepRecorded M.bytes M.writable M.reads M.writes profile
        reservation.old hart_state.old mem.old history.old
        reservation.new hart_state.new mem.new history.new result }
    ensures entry_zero { slice_index hart_state.new.registers 0
        ≡ slice_index hart_state.old.registers 0 }
    ensures layout_kept { M.layout mem.new ≡ M.layout mem.old }
{
    let mut recorded = RecordedMemory {
        memory: mem,
        history,
    };
    step_inner(&mut recorded, hart_state, reservation, profile)
}

/// Makes a step of the hart of a profile, and keeps it as a call.
///
/// It is for a hart whose layers may take part, where [step_recorded](crate::step_recorded) is the
/// step of the kit alone. The step is that of `step_hart` (`step`), and no other one leads from
/// there (`only`); its accesses are made, with a read before each write, and after a step that is
/// `Ok` the history leads back to the state before it, and from there to the states before that
/// (`kept`). It tells that it was a call, since what is reserved is no part of these states: its
/// owner gives that back at a change that is `of_call`.
///
/// # Errors
///
/// The exceptions of `step_hart`. After each of them the registers, the pc and the bytes are as
/// before, and no register is the one written last (`fault`). Nothing is kept, and the history leads
/// back to where it led before; where there was no room for the step it may have forgotten the
/// oldest states.
pub fn step_hart_recorded<M: Memory>(
    executor: &mut InstructionExecutor<M>,
    reservation: &mut Option<u32>,
    profile: HartProfile,
    history: &mut History,
) -> Result<(), InstructionException>
    ensures step { HartStep profile
        (hart_with (state_in M.bytes M.writable executor.old) reservation.old)
        (hart_with (state_in M.bytes M.writable executor.new) reservation.new) result }
    ensures only { IsOnlyHartStep profile
        (hart_with (state_in M.bytes M.writable executor.old) reservation.old)
        (hart_with (state_in M.bytes M.writable executor.new) reservation.new) result }
    ensures kept { MakesSome M.reads M.writes (KeepsHartStep profile
        history.old (hart_with (state_in M.bytes M.writable executor.old) reservation.old) result
        history.new (state_in M.bytes M.writable executor.new))
        executor.old.mem.now executor.new.mem.now }
    ensures fault { OnErr result (state_in M.bytes M.writable executor.new
        ≡ cleared (state_in M.bytes M.writable executor.old)) }
    ensures rest { KeepsTheRest M.layout executor.old executor.new }
{
    history.push(begun(executor.hart_state));
    let before = executor.hart_state.registers;
    let hart_state = &mut *executor.hart_state;
    let answer = step_over(executor.mem, hart_state, reservation, profile, history);
    keep_registers(history, &before, &hart_state.registers);
    match answer {
        Ok(()) => Ok(()),
        Err(fault) => {
            history.forget_latest();
            Err(fault)
        }
    }
}
