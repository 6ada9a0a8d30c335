//! `rrs cover`: what a run of a program, or of a board, covered.

use crate::boards::{
    Names, board_with, ending_of, layers_of, own_names, stopped, typed_at, unit_of,
};
use crate::disassembling::{code_of, flushed};
use crate::executables::{hart_for, memory_for, tell};
use crate::files::{Noting, STANDARD_ERROR, buffered, read_program};
use crate::outputs::Outputs;
use crate::places::check_written;
use crate::refusal::{FileFault, Refusal, named, no_image, out_of_memory};
use crate::requests::Request;
use crate::variables::variables_of;
use rrs_board::Board;
use rrs_elf::Addresses;
use rrs_exec::Progress;
use rrs_fast::Ending;
use rrs_linux::Linux;
use rrs_reports::{
    BoardCoverError, Code, Profile, cover_board, cover_process, write_annotated, write_callgrind,
    write_summary,
};
use std::alloc::Global;
use std::io::{Read, Write};
use std::rt::Files;

/// Writes what a run covered: by function, or beside the disassembly.
fn write_report<'a, O: Write + Drop>(
    alloc: Global,
    request: Request<'a>,
    profile: &Profile<'_, '_>,
    out: O,
) -> Result<(), Refusal<'a>> {
    let mut out = buffered(alloc, out)?;
    let written = if request.is_annotated {
        write_annotated(&mut out, request.path(), profile.code, &profile.coverage)
    } else {
        write_summary(&mut out, profile)
    };
    flushed(written, &mut out)
}

/// Writes what a run covered in Callgrind's profile format.
fn write_profile<'a, O: Write + Drop>(
    alloc: Global,
    request: Request<'a>,
    profile: &Profile<'_, '_>,
    out: O,
) -> Result<(), Refusal<'a>> {
    let mut out = buffered(alloc, out)?;
    let written = write_callgrind(&mut out, request.path(), profile);
    flushed(written, &mut out)
}

/// Writes what a run covered: to a file or to `errors`, and a profile to a file, if there is one
/// for it.
fn write_reports<'a, H: Files, E: Write>(
    alloc: Global,
    request: Request<'a>,
    profile: &Profile<'_, '_>,
    outputs: &mut Outputs<'a, H>,
    errors: &mut E,
) -> Result<(), Refusal<'a>> {
    match &mut outputs.output {
        Some(report) => {
            let written = write_report(alloc, request, profile, &mut report.file);
            named(written, request.output.unwrap_or(""), report.file.fault)?;
        }
        None => {
            let mut report = Noting::new(errors);
            let written = write_report(alloc, request, profile, &mut report);
            named(written, STANDARD_ERROR, report.fault)?;
        }
    }
    match &mut outputs.callgrind {
        Some(out) => {
            let written = write_profile(alloc, request, profile, &mut out.file);
            named(written, request.callgrind.unwrap_or(""), out.file.fault)
        }
        None => Ok(()),
    }
}

/// Runs a program as a request says, and writes what the run covered: to the file that it names, or
/// to `errors`, which is standard error; and a profile to the file that it names for it.
///
/// # Errors
///
/// Those of `read_program` and `check_written`; `Refusal::File` where a file can't be created,
/// where it is no executable that can be run, and where it has a symbol table that can't be read.
/// No step is made then. The same where a write fails, which is after the run; out of memory as a
/// failure.
pub fn cover<'a, H: Files + Eprint + AllocGlobal, R: Read, W: Write, E: Write, P: Progress>(
    rt: &H,
    request: Request<'a>,
    environment: &mut Linux<R, W, E>,
    errors: &mut E,
    progress: &mut P,
) -> Result<Ending, Refusal<'a>> {
    check_written(rt, request)?;
    let file = read_program(rt, request.path())?;
    let unit = unit_of(hart_for(&file, request));
    let code = code_of(rt.alloc(), request.path(), &file, Addresses::Virtual, unit)?;
    cover_code(rt, request, &file, &code, environment, errors, progress)
}

/// Runs a program with this code, and writes what the run covered.
fn cover_code<'a, H: Files + Eprint + AllocGlobal, R: Read, W: Write, E: Write, P: Progress>(
    rt: &H,
    request: Request<'a>,
    file: &[u8],
    code: &Code<'_>,
    environment: &mut Linux<R, W, E>,
    errors: &mut E,
    progress: &mut P,
) -> Result<Ending, Refusal<'a>> {
    let Ok(variables) = variables_of(rt.alloc(), request) else {
        return Err(out_of_memory());
    };
    let mut outputs = Outputs::created(rt, request)?;
    let run = cover_process(
        rt.alloc(),
        file,
        code,
        request.words,
        &variables,
        memory_for(file, request.memory),
        request.limit,
        hart_for(file, request),
        environment,
        progress,
    );
    let ended = match run {
        Ok((end, profile)) => {
            match write_reports(rt.alloc(), request, &profile, &mut outputs, errors) {
                Ok(()) => {
                    tell(rt, "rrs cover", file, environment.heap, &end);
                    Ok(end.ending)
                }
                Err(refusal) => Err(refusal),
            }
        }
        Err(error) => Err(no_image(request.path(), file, error)),
    };
    outputs.close(rt, ended)
}

/// Runs firmware as a request says, and writes what the run covered of the code of the executable
/// that it names for that, or else of the firmware: as `cover` does.
///
/// # Errors
///
/// Those of `run_board`, and those of `cover` on the code and on what is written.
pub fn cover_firmware<'a, H: Files + Eprint + AllocGlobal, R: Read, W: Write, E: Write>(
    rt: &H,
    request: Request<'a>,
    input: &mut R,
    output: &mut W,
    errors: &mut E,
) -> Result<Ending, Refusal<'a>> {
    check_written(rt, request)?;
    let file = read_program(rt, request.path())?;
    let board = board_with(rt, request, &file)?;
    let unit = unit_of(layers_of(request, &file));
    match request.symbols {
        Some(path) => {
            let named = read_program(rt, path)?;
            let code = code_of(rt.alloc(), path, &named, Addresses::Virtual, unit)?;
            let names = Names {
                file: &named,
                addresses: Addresses::Virtual,
            };
            cover_loaded(rt, board, request, &code, names, input, output, errors)
        }
        None if request.is_raw => Err(Refusal::File(request.path(), FileFault::HasNoSymbols)),
        None => {
            let code = code_of(rt.alloc(), request.path(), &file, Addresses::Physical, unit)?;
            let names = own_names(request, &file);
            cover_loaded(rt, board, request, &code, names, input, output, errors)
        }
    }
}

/// Runs a board that is loaded, and writes what the run covered of this code.
fn cover_loaded<'a, H: Files + Eprint + AllocGlobal, R: Read, W: Write, E: Write>(
    rt: &H,
    mut board: Board,
    request: Request<'a>,
    code: &Code<'_>,
    names: Names<'_>,
    input: &mut R,
    output: &mut W,
    errors: &mut E,
) -> Result<Ending, Refusal<'a>> {
    let mut outputs = Outputs::created(rt, request)?;
    let (mut input, mut output) = (typed_at(input, request), Noting::new(output));
    let (limit, is_polled) = (request.limit, request.is_polled);
    let run = cover_board(
        rt.alloc(),
        &mut board,
        code,
        limit,
        is_polled,
        &mut input,
        &mut output,
    );
    let ended = match run {
        Ok((end, profile)) => {
            match write_reports(rt.alloc(), request, &profile, &mut outputs, errors) {
                Ok(()) => Ok(ending_of(rt, "rrs cover", &board, names, end)),
                Err(refusal) => Err(refusal),
            }
        }
        Err(BoardCoverError::OutOfMemory) => Err(out_of_memory()),
        Err(BoardCoverError::Terminal(error)) => {
            Err(stopped(error, input.reader.fault, output.fault))
        }
    };
    outputs.close(rt, ended)
}
