//! Answers questions about RISC-V instructions, one a line, from standard input.
//!
//! `rrs_oracle` has the questions, and `docs/RUNNING.md` their forms. Each line is answered
//! before the program waits for the next one. It takes no arguments. Where a read or a write fails,
//! or out of memory, it says so on standard error and ends with status 1; what it answered before
//! is on standard output, and a line that was cut off is not answered.

#![tactic(auto)]

use rrs_cli::command::{Failure, conclude, take_no_arguments};
use rrs_cli::fault::RunFault;
use rrs_cli::programs::RRS_REPLAY;
use rrs_oracle::{ReplayFault, answer_all};
use std::io;
use std::process::ExitCode;

fn main(rt: HostRuntime) -> ExitCode {
    conclude(&rt, RRS_REPLAY, replay(&rt))
}

/// Answers the lines of standard input on standard output.
///
/// # Errors
///
/// `Failure::Usage` where there is an argument, and what `failure_of` makes of an error.
fn replay(rt: &HostRuntime) -> Result<(), Failure> {
    take_no_arguments(rt)?;
    answer_all(rt.alloc(), rt.reader(), io::writer(rt)).map_err(failure_of)
}

/// Why the program ends where its answers stop.
fn failure_of(fault: ReplayFault) -> Failure {
    match fault {
        ReplayFault::Input => Failure::CannotReadInput,
        ReplayFault::Output => Failure::Run(RunFault::Output),
        ReplayFault::OutOfMemory => Failure::Run(RunFault::OutOfMemory),
    }
}

#[cfg(test)]
mod tests;
