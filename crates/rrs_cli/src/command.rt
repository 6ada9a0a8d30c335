//! What a program does around its work: it takes the words of its command line, opens the file that
//! they name, and ends with a status and, where it failed, a line on standard error.
//!
//! A word of the command line that is not UTF-8, the program's own name among them, counts as a
//! wrong argument.

ghost use Rattle.std.specs.Prelude.{◌≡◌, Some};
ghost use Rattle.std.specs.Process.{exit_status};
ghost use Rattle.rrs_cli.specs.Failures.{failure_text, status_of, ended_status};

use crate::fault::RunFault;
use crate::programs::RRS_RUN;
use crate::requests::file_and_limit;
use crate::simulation::simulate;
use crate::streams::occupy_closed_streams;
use std::alloc::Global;
use std::error::Error;
use std::io::{BufReader, BufWriter, ErrorKind};
use std::process::ExitCode;
use std::rt::{Env, Files};
use std::{fmt, fs, io};

/// How a program is called, as its line on standard error gives it.
#[derive(Clone, Copy, Debug)]
pub struct Command {
    /// The program's name, such as `rrs-run`, before what it says.
    pub name: &'static str,
    /// How it is called, such as `rrs-run FILE LIMIT`.
    pub usage: &'static str,
}

/// Why a program ends with another status than 0.
#[derive(Debug, Drop)]
pub enum Failure {
    /// The arguments are not those that the program takes.
    Usage,
    /// The file can't be opened.
    CannotOpen,
    /// Standard input can't be read.
    CannotReadInput,
    /// The run failed, or what else the program does.
    Run(RunFault),
}

impl Failure {
    /// The program's status: 2 for wrong arguments, and 1 for anything else.
    pub fn status(&self) -> u8
        ensures { result ≡ status_of self.now }
    {
        match self {
            Failure::Usage => 2,
            Failure::CannotOpen | Failure::CannotReadInput | Failure::Run(_) => 1,
        }
    }
}

/// A failure and the program that failed, as its line on standard error gives them.
#[derive(Debug, Drop)]
pub struct NamedFailure {
    /// How the program is called.
    pub program: Command,
    /// Why it ends.
    pub failure: Failure,
}

impl fmt::Display for NamedFailure {
    ghost output = { λ named. Some (failure_text
        named.program.name.now named.program.usage.now named.failure) };

    fn fmt<W: fmt::Write>(&self, f: &mut fmt::Formatter<W>) -> fmt::Result {
        let Command { name, usage } = self.program;
        match &self.failure {
            Failure::Usage => write!(f, "usage: {usage}"),
            Failure::CannotOpen => write!(f, "{name}: cannot open file"),
            Failure::CannotReadInput => write!(f, "{name}: cannot read input"),
            Failure::Run(fault) => write!(f, "{name}: {fault}"),
        }
    }
}

impl Error for NamedFailure {}

/// Ends a program: where it failed, prints why as a line on standard error. Gives its status.
///
/// Where that line can't be printed the status is the same.
pub fn conclude<R: Eprint>(rt: &R, program: Command, outcome: Result<(), Failure>) -> ExitCode
    ensures { exit_status result ≡ ended_status outcome }
{
    match outcome {
        Ok(()) => ExitCode::SUCCESS,
        Err(failure) => {
            let status = failure.status();
            let _ = rt.eprintln(NamedFailure { program, failure });
            ExitCode::from(status)
        }
    }
}

/// All that `rrs-run` does: it runs the file that its arguments name, and ends as `conclude` says.
pub fn run_program<R: Env + Files + Print + Eprint + AllocGlobal>(rt: &R) -> ExitCode {
    let _streams = occupy_closed_streams(rt);
    conclude(rt, RRS_RUN, perform(rt))
}

/// Runs the file that the arguments name.
///
/// # Errors
///
/// `Failure::Usage` where the arguments are not a file and a limit, and out of memory for them as a
/// failure of the run; else those of `run_file`.
fn perform<R: Env + Files + Print + AllocGlobal>(rt: &R) -> Result<(), Failure> {
    let words = arguments(rt)?;
    let Some((path, limit)) = file_and_limit(&words) else {
        return Err(Failure::Usage);
    };
    run_file(rt, path, limit)
}

/// Runs the bytes of a file, and prints the account of it.
///
/// # Errors
///
/// `Failure::CannotOpen` where the file can't be opened, and else `Failure::Run`.
pub fn run_file<R: Files + Print + AllocGlobal>(
    rt: &R,
    path: &str,
    limit: u64,
) -> Result<(), Failure> {
    let mut reader = open_file(rt, path)?;
    let mut out = output(rt)?;
    simulate(rt.alloc(), &mut reader, limit, &mut out).map_err(Failure::Run)
}

/// A file that is open for reading, with a buffer.
///
/// # Errors
///
/// `Failure::CannotOpen` where it can't be opened, and out of memory as a failure of the run.
pub fn open_file<R: Files + AllocGlobal>(
    rt: &R,
    path: &str,
) -> Result<BufReader<R::File>, Failure> {
    let Ok(file) = fs::open(rt, path) else {
        return Err(Failure::CannotOpen);
    };
    BufReader::new(rt.alloc(), file).map_err(|_| Failure::Run(RunFault::OutOfMemory))
}

/// Standard output with a buffer.
///
/// # Errors
///
/// Out of memory, as a failure of the run.
pub fn output<R: Print + AllocGlobal>(rt: &R) -> Result<BufWriter<io::Printer<'_, R>>, Failure> {
    BufWriter::new(rt.alloc(), io::writer(rt)).map_err(|_| Failure::Run(RunFault::OutOfMemory))
}

/// Takes no arguments, for a program that has none.
///
/// # Errors
///
/// `Failure::Usage` where there is an argument, or a word of the command line is not UTF-8, be it
/// the program's own name; and out of memory as a failure of the run.
pub fn take_no_arguments<R: Env + AllocGlobal>(rt: &R) -> Result<(), Failure> {
    match arguments(rt)?.as_slice() {
        [] | [_] => Ok(()),
        _ => Err(Failure::Usage),
    }
}

/// The words of the command line, the program's own name first.
///
/// # Errors
///
/// `Failure::Usage` where one of them is not UTF-8, be it the program's own name, and out of memory
/// as a failure of the run.
pub fn arguments<R: Env + AllocGlobal>(rt: &R) -> Result<Vec<String>, Failure> {
    match std::env::args(rt) {
        Ok(words) => words
            .collect(rt.alloc())
            .map_err(|_| Failure::Run(RunFault::OutOfMemory)),
        Err(e) if e.kind() == ErrorKind::OutOfMemory => Err(Failure::Run(RunFault::OutOfMemory)),
        Err(_) => Err(Failure::Usage),
    }
}
