//! Machine mode, above `rrs_lib`'s machine: CSRs, traps, interrupts, steps, and their records.
//!
//! [step_machine] makes a step of a hart that has machine mode: RV32IM with Zicsr and Zicntr, by the
//! RISC-V privileged specification 1.12. Its [Profile] says whether it has user mode too, and which
//! layers its instructions have: `fence.i`, extension A, misaligned accesses, compressed code. An
//! instruction of the hart does what `step_hart` of `rrs_hart` does. What a step is, is written in
//! `specs/MachineSteps.antt`, with the CSRs in `specs/Csrs.antt` and the traps in
//! `specs/Traps.antt`. The instructions are decoded by `rrs_words`.
//! [step_machine_retired] makes a step and its record, in the shape of RVFI, as
//! `specs/MachineRecords.antt` says.

#![tactic(auto)]

pub mod csrs;
pub mod laws;
pub mod machine;
mod retired;
pub mod runs;
pub mod traps;

pub use csrs::{CsrFile, Inputs, Mode};
pub use machine::{MachineAnswer, step_machine};
pub use retired::{CsrAccess, MachineRetired, step_machine_retired};
pub use rrs_words::{Csr, Profile, SystemInstruction, SystemRow};
pub use runs::{MachineEnd, Surroundings, run_machine};
pub use traps::{Exception, Interrupt};
