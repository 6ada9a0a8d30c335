//! The machine cause of an exception.

ghost use Rattle.std.specs.Prelude.{◌≡◌, ◌%◌};
ghost use Rattle.rrs_c.specs.Harts.{exception_of};
ghost use Rattle.rrs_c.specs.Causes.{IsMisalignedCode, IsCode, no_code};

use crate::hart::RrsFault;
use rrs_lib::instruction::{DataAccess, decode};

/// What is told where there is no exception.
const NO_CODE: u32 = 0xffff_ffff;

/// The code of a misaligned address.
fn misaligned_code(pc: u32, word: u32) -> u32
    ensures { IsMisalignedCode pc word result }
{
    if pc % 4 != 0 {
        return 0;
    }
    let Some(instruction) = decode(word) else {
        return 0;
    };
    match instruction.access() {
        Some(DataAccess::Load(_)) => 4,
        Some(DataAccess::Store(_)) => 6,
        None => 0,
    }
}

/// The code of an exception.
pub(crate) fn code_of(fault: &RrsFault, pc: u32, word: u32) -> u32
    ensures { IsCode (exception_of fault.now) pc word result }
{
    match fault.kind {
        1 => 2,
        2 => 1,
        3 => 5,
        4 => 7,
        5 => misaligned_code(pc, word),
        6 => 11,
        7 => 3,
        _ => NO_CODE,
    }
}
