//! Runs a file's bytes as a RISC-V program, and prints what it does.
//!
//! `rrs-run FILE LIMIT` puts the bytes of FILE at address 0 on, starts a hart there, and makes at
//! most LIMIT steps. It prints the text of each instruction before it is executed, then how the run
//! ended, and then the registers. A word of the command line that is not UTF-8, the program's own
//! name among them, counts as a wrong argument.

#![tactic(auto)]

use rrs_cli::command::run_program;
use std::process::ExitCode;

fn main(rt: HostRuntime) -> ExitCode {
    run_program(&rt)
}
