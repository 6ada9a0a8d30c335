//! Runs, assembles, lists and debugs programs. `rrs --help` lists its nine subcommands.
//!
//! Each is a subcommand of `rrs_commands`. A word of the command line that is not UTF-8, the
//! program's own name among them, counts as a wrong argument.

#![tactic(auto)]

mod board_debugging;
mod debugging;

use crate::debugging::Gdb;
use rrs_commands::program::run_rrs;
use rrs_linux::{Heap, Linux, LinuxClocks};
use rrs_run_commands::execution::{HEAP_END, HEAP_START};
use rrs_run_commands::progress_line::{Erasing, LineTerminal, ProgressLine};
use std::io::IsTerminal;
use std::process::ExitCode;

fn main(rt: HostRuntime) -> ExitCode {
    let heap = Heap::new(HEAP_START, HEAP_END);
    let clocks = LinuxClocks::Host(rt);
    let terminal = LineTerminal::new(rt.stderr());
    let mut environment = Linux::new(
        Erasing::new(rt.stdin(), &terminal),
        Erasing::new(rt.stdout(), &terminal),
        Erasing::new(rt.stderr(), &terminal),
        heap,
        clocks,
        0,
    );
    let mut errors = Erasing::new(rt.stderr(), &terminal);
    let line = ProgressLine::new(rt, &terminal);
    let mut progress = rt.stderr().is_terminal().then_some(line);
    run_rrs(
        &rt,
        &mut environment,
        &mut errors,
        &mut progress,
        &Gdb,
        rt.stdout().is_terminal(),
    )
}
