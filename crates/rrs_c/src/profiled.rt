//! The hart with a profile for C: its layers by bits, and the address that is reserved.

ghost use Rattle.std.specs.Prelude.{◌≡◌, ◌<◌, OnErr, slice_index};
ghost use Rattle.rrs_lib.specs.Steps.{cleared};
ghost use Rattle.rrs_hart.specs.Harts.{HartStep, IsOnlyHartStep, HartRun, IsOnlyHartRun};
ghost use Rattle.rrs_trace.specs.HartRecords.{HartRetires};
ghost use Rattle.rrs_c.specs.Harts.{state_in_c, exception_of, IsFault, IsEnd, answer_of};
ghost use Rattle.rrs_c.specs.Records.{retired_in, IsRecord};
ghost use Rattle.rrs_c.specs.Profiled.{hart_profile_in, reserved_in, IsReservation, hart_in_c};

use crate::hart::{RrsEnd, RrsFault, RrsHart, close, end_of_run, fault_of_answer, opened};
use crate::lent_hart::{run_hart_lent, step_hart_lent, step_hart_retired_lent};
use crate::machine::reservation_of;
use crate::retired::{RrsRetired, word_and_flag, written_out};
use rrs_hart::HartProfile;
use rrs_lib::memories::SliceMemory;

/// The address that a hart has reserved, owned by the caller. All 0 is none.
#[repr(C)]
#[derive(Drop)]
pub struct RrsReservation {
    /// 1 where an address is reserved. Any other number says that none is.
    pub reserved: u32,
    /// The address that is reserved, in bytes.
    pub address: u32,
}

/// The profile that ten bits are.
#[inline]
pub(crate) fn hart_profile_of(bits: u32) -> HartProfile
    ensures { result ≡ hart_profile_in bits }
{
    HartProfile {
        atomics: bits % 2 == 1,
        fence_i: bits / 2 % 2 == 1,
        misaligned: bits / 4 % 2 == 1,
        compressed: bits / 8 % 2 == 1,
        zba: bits / 32 % 2 == 1,
        zbb: bits / 64 % 2 == 1,
        zbs: bits / 128 % 2 == 1,
        zbc: bits / 256 % 2 == 1,
        zbkb: bits / 512 % 2 == 1,
        zicond: bits / 1024 % 2 == 1,
    }
}

/// The reservation of C that one of the kit is.
#[inline]
fn reservation_told(reservation: Option<u32>) -> RrsReservation
    ensures same { reserved_in result ≡ reservation }
    ensures told { IsReservation result }
{
    let (address, reserved) = word_and_flag(reservation);
    RrsReservation { reserved, address }
}

/// Executes the instruction at the pc of the hart of a profile, and returns its exception, kind 0
/// where there is none. A `sc.w` takes the reservation away, also where it raises an exception.
#[unsafe(no_mangle)]
pub extern "C" fn rrs_step_hart(
    hart: &mut RrsHart,
    words: &mut [u32],
    base: u32,
    profile: u32,
    reservation: &mut RrsReservation,
) -> RrsFault
    ensures step { HartStep (hart_profile_in profile)
        (hart_in_c hart.old reservation.old base words.old)
        (hart_in_c hart.new reservation.new base words.new) (answer_of result) }
    ensures only { IsOnlyHartStep (hart_profile_in profile)
        (hart_in_c hart.old reservation.old base words.old)
        (hart_in_c hart.new reservation.new base words.new) (answer_of result) }
    ensures fault { OnErr (answer_of result) (state_in_c hart.new base words.new
        ≡ cleared (state_in_c hart.old base words.old)) }
    ensures told { IsFault result }
    ensures reserved { IsReservation reservation.new }
    ensures last { hart.new.last < 32 }
    ensures entry_zero { slice_index hart.new.x 0 ≡ slice_index hart.old.x 0 }
{
    let mut state = opened(hart);
    let mut reserved = reservation_of(reservation.reserved, reservation.address);
    let mut memory = SliceMemory { words, base };
    let profile = hart_profile_of(profile);
    let answer = step_hart_lent(&mut memory, &mut state, &mut reserved, profile);
    close(&state, hart);
    *reservation = reservation_told(reserved);
    fault_of_answer(answer)
}

/// Makes steps of the hart of a profile until as many as `limit` were made, or one raises an
/// exception.
#[unsafe(no_mangle)]
pub extern "C" fn rrs_run_hart(
    hart: &mut RrsHart,
    words: &mut [u32],
    base: u32,
    profile: u32,
    reservation: &mut RrsReservation,
    limit: u64,
) -> RrsEnd
    ensures run { HartRun (hart_profile_in profile) limit
        (hart_in_c hart.old reservation.old base words.old)
        result.steps (exception_of result.fault)
        (hart_in_c hart.new reservation.new base words.new) }
    ensures only { IsOnlyHartRun (hart_profile_in profile) limit
        (hart_in_c hart.old reservation.old base words.old)
        result.steps (exception_of result.fault)
        (hart_in_c hart.new reservation.new base words.new) }
    ensures told { IsEnd result }
    ensures no_stop { result.at_stop ≡ 0 }
    ensures reserved { IsReservation reservation.new }
    ensures last { hart.new.last < 32 }
    ensures entry_zero { slice_index hart.new.x 0 ≡ slice_index hart.old.x 0 }
{
    let mut state = opened(hart);
    let mut reserved = reservation_of(reservation.reserved, reservation.address);
    let mut memory = SliceMemory { words, base };
    let profile = hart_profile_of(profile);
    let end = run_hart_lent(&mut memory, &mut state, &mut reserved, profile, limit);
    close(&state, hart);
    *reservation = reservation_told(reserved);
    end_of_run(end)
}

/// Makes a step of the hart of a profile, as `rrs_step_hart`, and tells what it retired, under this
/// number. `insn` of an instruction of 16 bits has these. A load or a store that is made byte by
/// byte is one access of all its bytes, and an AMO one of its read and its write.
#[unsafe(no_mangle)]
pub extern "C" fn rrs_step_hart_rvfi(
    hart: &mut RrsHart,
    words: &mut [u32],
    base: u32,
    profile: u32,
    reservation: &mut RrsReservation,
    order: u64,
    retired: &mut RrsRetired,
) -> RrsFault
    ensures step { HartStep (hart_profile_in profile)
        (hart_in_c hart.old reservation.old base words.old)
        (hart_in_c hart.new reservation.new base words.new) (answer_of result) }
    ensures only { IsOnlyHartStep (hart_profile_in profile)
        (hart_in_c hart.old reservation.old base words.old)
        (hart_in_c hart.new reservation.new base words.new) (answer_of result) }
    ensures retires { HartRetires (hart_profile_in profile) order
        (hart_in_c hart.old reservation.old base words.old)
        (hart_in_c hart.new reservation.new base words.new)
        (answer_of result) (retired_in retired.new) }
    ensures record { IsRecord retired.new }
    ensures told { IsFault result }
    ensures reserved { IsReservation reservation.new }
    ensures last { hart.new.last < 32 }
    ensures entry_zero { slice_index hart.new.x 0 ≡ slice_index hart.old.x 0 }
{
    let mut state = opened(hart);
    let mut reserved = reservation_of(reservation.reserved, reservation.address);
    let mut memory = SliceMemory { words, base };
    let profile = hart_profile_of(profile);
    let (answer, seen) = step_hart_retired_lent(
        &mut memory,
        &mut state,
        &mut reserved,
        profile,
        order,
    );
    close(&state, hart);
    *reservation = reservation_told(reserved);
    *retired = written_out(&seen);
    fault_of_answer(answer)
}
