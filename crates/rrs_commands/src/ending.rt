//! How `rrs` ends: its status, and what it says on standard error.

ghost use Rattle.std.specs.Prelude.{◌≡◌};
ghost use Rattle.std.specs.Process.{exit_status};
ghost use Rattle.rrs_commands.specs.Endings.{refused_status, signal_of, status_of};

use crate::call_names::call_name;
use crate::faults::ToldFault;
use crate::mistakes::{option_word, tell_mistake};
use crate::subcommands::Subcommand;
use rrs_cli::command::{Command, NamedFailure};
use rrs_fast::Ending;
use rrs_lib::instruction_executor::InstructionException;
use rrs_linux::BRK;
use rrs_reports::ShownName;
use rrs_run_commands::executables::is_of_files;
use rrs_run_commands::options::Task;
use rrs_run_commands::refusal::{FileFault, HostFault, Refusal};
use std::fmt::Display;
use std::io;
use std::process::ExitCode;

/// The signal that a program gets on Linux for an exception.
fn signal_of(fault: &InstructionException) -> u8
    ensures { result ≡ signal_of fault.now }
{
    match fault {
        InstructionException::IllegalInstruction(_, _) => 4,
        InstructionException::Breakpoint(_) => 5,
        InstructionException::AlignmentFault(_) => 7,
        InstructionException::FetchError(_)
        | InstructionException::LoadAccessFault(_)
        | InstructionException::StoreAccessFault(_) => 11,
        InstructionException::EnvironmentCall(_) => 31,
    }
}

/// The status where a subcommand refuses what it is asked.
fn refused_status(task: Task, refusal: &Refusal<'_>) -> u8
    ensures { result ≡ refused_status task refusal.now }
{
    match (task, refusal) {
        (_, Refusal::File(_, FileFault::Host(HostFault::Closed))) => 141,
        (Task::Execute | Task::Trace | Task::Cover, _) => 125,
        (Task::Board | Task::TraceBoard | Task::CoverBoard, _) => 125,
        (_, Refusal::Words(_) | Refusal::Terminal) => 2,
        (_, Refusal::Failed(failure)) => failure.status(),
        (_, _) => 1,
    }
}

/// The status of `rrs`.
fn status_of(task: Task, outcome: &Result<Ending, Refusal<'_>>) -> u8
    ensures { result ≡ status_of task outcome.now }
{
    match outcome {
        Ok(Ending::Exit(status)) => (status % 256) as u8,
        Ok(Ending::Limit) => 124,
        Ok(Ending::Fault(fault)) => 128 + signal_of(fault),
        Err(refusal) => refused_status(task, refusal),
    }
}

/// Ends `rrs`: where the subcommand, or the program that it ran, did not do what it was to, prints
/// why as a line on standard error. Gives the status.
///
/// Where that line can't be printed the status is the same.
pub fn conclude<H: Eprint>(
    rt: &H,
    subcommand: &Subcommand,
    outcome: Result<Ending, Refusal<'_>>,
) -> ExitCode
    ensures { exit_status result ≡ status_of subcommand.now.task outcome.entry }
{
    let program = subcommand.command;
    let status = status_of(subcommand.task, &outcome);
    let _ = match outcome {
        Ok(ending) => tell_ending(rt, program, &ending),
        Err(refusal) => tell_refusal(rt, subcommand, refusal),
    };
    ExitCode::from(status)
}

/// Prints a line on standard error, after the name of a program.
fn tell<H: Eprint, D: Display + Drop>(rt: &H, program: Command, why: D) -> io::Result<()> {
    eprintln!(rt; "{}: {why}", program.name)
}

/// Prints how a program ended that did not end itself.
fn tell_ending<H: Eprint>(rt: &H, program: Command, ending: &Ending) -> io::Result<()> {
    match ending {
        Ending::Exit(_) => Ok(()),
        Ending::Limit => tell(rt, program, "limit"),
        Ending::Fault(fault) => tell(rt, program, fault),
    }
}

/// Prints why a subcommand did not do what it was asked. The mistakes of a source were printed, and
/// of an output that nobody reads any more nothing is said.
fn tell_refusal<H: Eprint>(
    rt: &H,
    subcommand: &Subcommand,
    refusal: Refusal<'_>,
) -> io::Result<()> {
    let program = subcommand.command;
    let name = program.name;
    match refusal {
        Refusal::Words(mistake) => tell_mistake(rt, subcommand, mistake),
        Refusal::File(_, FileFault::Host(HostFault::Closed)) | Refusal::SourceErrors => Ok(()),
        Refusal::File(path, fault) => {
            let (path, fault) = (ShownName::of(path), ToldFault(fault));
            eprintln!(rt; "{name}: {path}: {fault}")
        }
        Refusal::NoAddress(setting, word) => {
            let (option, word) = (option_word(setting), ShownName::of(word));
            eprintln!(rt; "{name}: {option}: {word} is no address, and no symbol of PROGRAM")
        }
        Refusal::NoFunction(word) => {
            let word = ShownName::of(word);
            eprintln!(rt; "{name}: --only: {word} is no function of PROGRAM")
        }
        Refusal::Terminal => {
            eprintln!(rt;
                "{name}: the bytes are not written to a terminal; -o OUTPUT writes an executable"
            )
        }
        Refusal::Output => tell(rt, program, "cannot write output"),
        Refusal::Input => tell(rt, program, "cannot read input"),
        Refusal::Failed(failure) => rt.eprintln(NamedFailure { program, failure }),
    }
}

/// What is said of a call that `--files` serves.
const FILES: &str = ": rrs exec --files FOLDER serves it to an executable";

/// Writes on standard error which system calls a program made that are not served, a line for each
/// number, and that it was refused memory. Where that can't be printed nothing is told.
pub fn tell_unserved<H: Eprint>(rt: &H, subcommand: &Subcommand, numbers: &[u32]) {
    let program = subcommand.command;
    for number in numbers {
        let _ = match call_name(*number) {
            Some(_) if *number == BRK => {
                eprintln!(rt;
                    "{}: the program was refused memory: --memory gives it more",
                    program.name
                )
            }
            Some(call) => {
                let hint = if is_of_files(*number) { FILES } else { "" };
                eprintln!(rt;
                    "{}: the system call {call} ({number}) is not served{hint}",
                    program.name
                )
            }
            None => eprintln!(rt; "{}: the system call {number} is not served", program.name),
        };
    }
}
