//! A kit for debuggers and tracers of `rrs_lib`'s machine.
//!
//! [step_retired] makes a step and tells what it retired, in the shape of RVFI, the RISC-V Formal
//! Interface, and [step_retired_parts] does so of a hart that is kept in another layout.
//! [step_hart_retired] does so of a hart with a profile, and [execute_in_seen] and [sources_in] are
//! parts of it, for a caller that looks at the instruction in between.
//! [TracedMemory] is the memory under all three, which keeps the latest access that is no fetch.
//! [run_until] makes steps until the pc is one of some addresses, and [run_until_cached] does so
//! over a memory that keeps its decoded words. [request] and [complete] execute an instruction
//! whose load or store the caller makes, outside of the machine, [request_parts] and
//! [complete_parts] do so of a hart that is kept in another layout, and [complete_load] and
//! [complete_store] the one at which a run ended with an access fault. A [Snapshot] keeps the state
//! of a hart.
//!
//! What a step retires is written in `specs/Retired.antt`, that of a hart with a profile in
//! `specs/HartRecords.antt`, what a run that stops is in
//! `specs/Stops.antt`, and what is asked and completed in `specs/Outside.antt`.

#![tactic(auto)]

mod hart_retired;
mod outside;
mod registers;
mod retired;
mod snapshot;
mod stops;
mod traced;

pub use hart_retired::{execute_in_seen, sources_in, step_hart_retired};
pub use outside::{
    DataRequest, complete, complete_load, complete_parts, complete_store, request, request_parts,
};
pub use registers::{last_register, register_value, source_registers};
pub use retired::{Retired, step_retired, step_retired_parts};
pub use snapshot::Snapshot;
pub use stops::{StopEnd, StopReason, run_until, run_until_cached, run_until_with};
pub use traced::{MemoryAccess, TracedMemory};
