//! Calls of the hart with a profile over words that are lent, which stay lent.

ghost use Rattle.std.specs.Prelude.{◌≡◌, slice_index};
ghost use Rattle.rrs_lib.specs.SliceBytes.{StaysLent};
ghost use Rattle.rrs_lib.specs.Steps.{LastIsRegister};
ghost use Rattle.rrs_trace.specs.Retired.{HasRegisterNumbers};
ghost use Rattle.rrs_trace.specs.HartRecords.{HartRetires};
ghost use Rattle.rrs_hart.specs.Harts.{hart_with, HartStep, HartRun};
ghost use Rattle.rrs_c.specs.Harts.{slice_state};

use rrs_hart::{HartProfile, run_hart, step_hart};
use rrs_lib::HartState;
use rrs_lib::instruction_executor::{InstructionException, InstructionExecutor, RunEnd};
use rrs_lib::memories::SliceMemory;
use rrs_trace::{Retired, step_hart_retired};

/// Makes a step of the hart of a profile.
#[inline]
pub(crate) fn step_hart_lent<'a>(
    mem: &mut SliceMemory<'a>,
    hart_state: &mut HartState,
    reservation: &mut Option<u32>,
    profile: HartProfile,
) -> Result<(), InstructionException>
    ensures step { HartStep profile
        (hart_with (slice_state hart_state.old mem.old) reservation.old)
        (hart_with (slice_state hart_state.new mem.new) reservation.new) result }
    ensures last { LastIsRegister hart_state.new.last_register_write }
    ensures entry_zero { slice_index hart_state.new.registers 0
        ≡ slice_index hart_state.old.registers 0 }
    ensures lent { StaysLent mem.old mem.new }
{
    let mut executor = InstructionExecutor { mem, hart_state };
    step_hart(&mut executor, reservation, profile)
}

/// Makes a run of the hart of a profile.
#[inline]
pub(crate) fn run_hart_lent<'a>(
    mem: &mut SliceMemory<'a>,
    hart_state: &mut HartState,
    reservation: &mut Option<u32>,
    profile: HartProfile,
    limit: u64,
) -> RunEnd
    ensures run { HartRun profile limit
        (hart_with (slice_state hart_state.old mem.old) reservation.old)
        result.steps result.exception
        (hart_with (slice_state hart_state.new mem.new) reservation.new) }
    ensures last { LastIsRegister hart_state.old.last_register_write
        → LastIsRegister hart_state.new.last_register_write }
    ensures entry_zero { slice_index hart_state.new.registers 0
        ≡ slice_index hart_state.old.registers 0 }
    ensures lent { StaysLent mem.old mem.new }
{
    let mut executor = InstructionExecutor { mem, hart_state };
    run_hart(&mut executor, reservation, profile, limit)
}

/// Makes a step of the hart of a profile, and tells what it retired.
#[inline]
pub(crate) fn step_hart_retired_lent<'a>(
    mem: &mut SliceMemory<'a>,
    hart_state: &mut HartState,
    reservation: &mut Option<u32>,
    profile: HartProfile,
    order: u64,
) -> (Result<(), InstructionException>, Retired)
    ensures step { HartStep profile
        (hart_with (slice_state hart_state.old mem.old) reservation.old)
        (hart_with (slice_state hart_state.new mem.new) reservation.new) result.0 }
    ensures retires { HartRetires profile order
        (hart_with (slice_state hart_state.old mem.old) reservation.old)
        (hart_with (slice_state hart_state.new mem.new) reservation.new) result.0 result.1 }
    ensures numbers { HasRegisterNumbers result.1 }
    ensures last { LastIsRegister hart_state.new.last_register_write }
    ensures entry_zero { slice_index hart_state.new.registers 0
        ≡ slice_index hart_state.old.registers 0 }
    ensures lent { StaysLent mem.old mem.new }
{
    let mut executor = InstructionExecutor { mem, hart_state };
    step_hart_retired(&mut executor, reservation, profile, order)
}
