//! A jump or a taken branch to a misaligned address.

ghost use Rattle.std.specs.Prelude.{◌≡◌};
ghost use Rattle.rrs_c.specs.Jumps.{jumps_aside};

use rrs_lib::instruction_executor::StepEnd;

/// Whether a step that is `Ok` left a misaligned pc.
#[inline]
pub(crate) fn jumps_aside(end: &StepEnd) -> bool
    ensures { result ≡ jumps_aside end.now.answer end.now.pc }
{
    match end.answer {
        Ok(()) => end.pc % 4 != 0,
        Err(_) => false,
    }
}
