//! Laws of several steps of a hart with machine mode.

ghost use Rattle.std.specs.Prelude.{◌≡◌, ℕ, ◌%◌, Bool};
ghost use Rattle.rrs_instruction.specs.Words.{bit};
ghost use Rattle.rrs_lib.specs.Bytes.{ByteMap};
ghost use Rattle.rrs_machine.specs.Csrs.{mode_of};
ghost use Rattle.rrs_machine.specs.Traps.{alignment};
ghost use Rattle.rrs_machine.specs.MachineSteps.{machine_of, trapped, returned};

use crate::csrs::{CsrFile, Inputs};
use crate::machine::{return_from_trap, trap};
use rrs_lib::HartState;

/// Takes a trap, and returns from it at once, as an `mret` at the handler does.
///
/// The cause, the value for `mtval` and the handler may be any, so it is the trap of each exception
/// and of each interrupt. The clauses: the hart and its CSRs are what the one and then the other
/// leaves (`both`); at a pc where an instruction may lie the registers, the pc, MIE and the mode
/// are as before.
pub fn trap_and_return(
    hart: &mut HartState,
    csrs: &mut CsrFile,
    cause: u32,
    value: u32,
    handler: u32,
    inputs: &Inputs,
)
    ensures both { (bytes : ByteMap) (writable : ℕ → Bool)
        → machine_of hart.new csrs.new bytes writable
        ≡ returned inputs.now (trapped cause value handler
        (machine_of hart.old csrs.old bytes writable)) }
    ensures registers { hart.new.registers ≡ hart.old.registers }
    ensures pc { hart.old.pc % alignment csrs.old.profile ≡ 0 → hart.new.pc ≡ hart.old.pc }
    ensures enabled { bit csrs.new.mstatus 3 ≡ bit csrs.old.mstatus 3 }
    ensures mode { mode_of csrs.new ≡ mode_of csrs.old }
{
    let _pc = hart.pc;
    trap(hart, csrs, cause, value, handler);
    return_from_trap(hart, csrs, inputs);
}
