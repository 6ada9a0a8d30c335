//! `rrs trace`: the commit log of a run of a program, or of a board, as Spike writes it.

use crate::boards::{Names, board_with, ending_of, own_names, stopped, typed_at};
use crate::disassembling::{code_of, unit_in};
use crate::executables::{hart_for, memory_for, tell};
use crate::files::{Noting, STANDARD_ERROR, buffered, read_program, unwritten};
use crate::options::Setting;
use crate::outputs::created;
use crate::places::check_written;
use crate::refusal::{FileFault, Refusal, named, no_executable, no_image, out_of_memory};
use crate::requests::Request;
use crate::variables::variables_of;
use crate::words::number_of;
use rrs_board::Board;
use rrs_elf::{Addresses, CodeUnit, Executable, Symbols};
use rrs_exec::Progress;
use rrs_fast::Ending;
use rrs_linux::Linux;
use rrs_reports::{BoardTraceError, CodeRange, LogWindow, TraceError, trace_board, trace_process};
use std::alloc::Global;
use std::io::{Read, Write};
use std::rt::Files;

/// The value of the first symbol of a name, if there is one in a section.
fn value_of(symbols: &Symbols<'_>, name: &[u8]) -> Option<u32> {
    if name.is_empty() {
        return None;
    }
    let most = name.len().saturating_add(1);
    for index in 0..symbols.count() {
        let other = symbols.name_up_to(index, most);
        if let (Some(symbol), Some(other)) = (symbols.symbol(index), other) {
            if other == name && symbol.section > 0 {
                return Some(symbol.value);
            }
        }
    }
    None
}

/// The address that a word after an option is, if there is one: a number, or the name of a symbol of
/// the file of a path.
///
/// # Errors
///
/// `Refusal::NoAddress` where the word is no address, and no symbol has this name; `Refusal::File`
/// where the file is no executable, or has a symbol table that can't be read.
fn address_at<'a>(
    path: &'a str,
    names: Names<'_>,
    setting: Setting,
    word: Option<&'a str>,
) -> Result<Option<u32>, Refusal<'a>> {
    let Some(word) = word else {
        return Ok(None);
    };
    if let Some(address) = number_of(word) {
        return match u32::try_from(address) {
            Ok(address) => Ok(Some(address)),
            Err(_) => Err(Refusal::NoAddress(setting, word)),
        };
    }
    let file = names.file;
    let program = match Executable::parse_in(file, names.addresses, CodeUnit::HalfWord) {
        Ok(program) => program,
        Err(error) => return Err(no_executable(path, file, error)),
    };
    let symbols = match program.symbols() {
        Ok(Some(symbols)) => symbols,
        Ok(None) => return Err(Refusal::NoAddress(setting, word)),
        Err(error) => return Err(no_executable(path, file, error)),
    };
    match value_of(&symbols, word.as_bytes()) {
        Some(address) => Ok(Some(address)),
        None => Err(Refusal::NoAddress(setting, word)),
    }
}

/// The code of the first function of a name, if one is asked for, as `rrs cover` has it.
///
/// # Errors
///
/// `Refusal::NoFunction` where no function has this name; those of `code_of`.
fn function_of<'a>(
    alloc: Global,
    path: &'a str,
    names: Names<'_>,
    name: Option<&'a str>,
) -> Result<Option<CodeRange>, Refusal<'a>> {
    let Some(name) = name else {
        return Ok(None);
    };
    let code = code_of(
        alloc,
        path,
        names.file,
        names.addresses,
        unit_in(names.file),
    )?;
    for function in code.functions() {
        if function.name == name.as_bytes() {
            return Ok(Some(CodeRange {
                start: function.start,
                end: function.end,
            }));
        }
    }
    Err(Refusal::NoFunction(name))
}

/// Which steps have lines, as a request says, by the names of the file of a path.
///
/// # Errors
///
/// Those of `address_at` and `function_of`.
fn window_of<'a>(
    alloc: Global,
    path: &'a str,
    names: Names<'_>,
    request: Request<'a>,
) -> Result<LogWindow, Refusal<'a>> {
    Ok(LogWindow {
        from: address_at(path, names, Setting::From, request.from)?,
        to: address_at(path, names, Setting::To, request.to)?,
        is_over: false,
        only: function_of(alloc, path, names, request.only)?,
        steps: request.logged,
    })
}

/// Whether a word for which steps have lines is the name of a symbol or of a function.
fn names_symbol(request: Request<'_>) -> bool {
    let is_name = |word: Option<&str>| match word {
        Some(word) => number_of(word).is_none(),
        None => false,
    };
    is_name(request.from) || is_name(request.to) || request.only.is_some()
}

/// Runs a file's bytes, and writes the log of the run.
fn trace_to<'a, H: Eprint + AllocGlobal, R: Read, W: Write, E: Write, O: Write, P: Progress>(
    rt: &H,
    file: &[u8],
    request: Request<'a>,
    window: LogWindow,
    environment: &mut Linux<R, W, E>,
    out: &mut O,
    progress: &mut P,
) -> Result<Ending, Refusal<'a>> {
    let Ok(variables) = variables_of(rt.alloc(), request) else {
        return Err(out_of_memory());
    };
    let mut out = buffered(rt.alloc(), out)?;
    let run = trace_process(
        rt.alloc(),
        file,
        request.words,
        &variables,
        memory_for(file, request.memory),
        request.limit,
        hart_for(file, request),
        environment,
        window,
        &mut out,
        progress,
    );
    match run {
        Ok(end) => {
            if let Err(error) = out.flush() {
                return Err(unwritten(error));
            }
            tell(rt, "rrs trace", file, environment.heap, &end);
            Ok(end.ending)
        }
        Err(TraceError::Image(error)) => Err(no_image(request.path(), file, error)),
        Err(TraceError::Output) => Err(Refusal::Output),
    }
}

/// Runs a program as a request says, and writes the log of the run: to the file that it names, or
/// to `errors`, which is standard error.
///
/// # Errors
///
/// Those of `read_program`, `check_written` and `window_of`; `Refusal::File` where the file for the
/// log can't be created, and where it is no executable that can be run. No step is made then. The
/// same where a write of the log fails, which ends the run; out of memory as a failure.
pub fn trace<'a, H: Files + Eprint + AllocGlobal, R: Read, W: Write, E: Write, P: Progress>(
    rt: &H,
    request: Request<'a>,
    environment: &mut Linux<R, W, E>,
    errors: &mut E,
    progress: &mut P,
) -> Result<Ending, Refusal<'a>> {
    check_written(rt, request)?;
    let file = read_program(rt, request.path())?;
    let names = Names {
        file: &file,
        addresses: Addresses::Virtual,
    };
    let window = window_of(rt.alloc(), request.path(), names, request)?;
    match request.output {
        Some(path) => {
            let mut log = created(rt, path)?;
            let out = &mut log.file;
            let ended = trace_to(rt, &file, request, window, environment, out, progress);
            log.close(rt, ended)
        }
        None => {
            let mut log = Noting::new(errors);
            let ended = trace_to(rt, &file, request, window, environment, &mut log, progress);
            named(ended, STANDARD_ERROR, log.fault)
        }
    }
}

/// Runs a board that is loaded, and writes the log of the run.
fn trace_loaded<'a, H: Eprint + AllocGlobal, R: Read, W: Write, O: Write>(
    rt: &H,
    mut board: Board,
    request: Request<'a>,
    names: Names<'_>,
    window: LogWindow,
    input: &mut R,
    output: &mut W,
    log: &mut O,
) -> Result<Ending, Refusal<'a>> {
    let (mut input, mut output) = (typed_at(input, request), Noting::new(output));
    let mut log = buffered(rt.alloc(), log)?;
    let (limit, is_polled) = (request.limit, request.is_polled);
    let run = trace_board(
        &mut board,
        limit,
        is_polled,
        &mut input,
        &mut output,
        window,
        &mut log,
    );
    let flushed = log.flush();
    match run {
        Err(BoardTraceError::Terminal(error)) => {
            Err(stopped(error, input.reader.fault, output.fault))
        }
        Err(BoardTraceError::Log) => Err(Refusal::Output),
        Ok(end) => match flushed {
            Ok(()) => Ok(ending_of(rt, "rrs trace", &board, names, end)),
            Err(error) => Err(unwritten(error)),
        },
    }
}

/// Runs firmware as a request says, and writes the log of the run: to the file that it names, or to
/// `errors`, which is standard error.
///
/// # Errors
///
/// Those of `run_board`, and those of `trace` on the log and on which steps have lines.
pub fn trace_firmware<'a, H: Files + Eprint + AllocGlobal, R: Read, W: Write, E: Write>(
    rt: &H,
    request: Request<'a>,
    input: &mut R,
    output: &mut W,
    errors: &mut E,
) -> Result<Ending, Refusal<'a>> {
    check_written(rt, request)?;
    let file = read_program(rt, request.path())?;
    let named_file = match request.symbols {
        Some(path) => read_program(rt, path)?,
        None => Vec::new(rt.alloc()),
    };
    let (path, names) = match request.symbols {
        Some(path) => {
            let addresses = Addresses::Virtual;
            let file = named_file.as_slice();
            (path, Names { file, addresses })
        }
        None => (request.path(), own_names(request, &file)),
    };
    if request.is_raw && request.symbols.is_none() && names_symbol(request) {
        return Err(Refusal::File(path, FileFault::HasNoSymbols));
    }
    let window = window_of(rt.alloc(), path, names, request)?;
    let board = board_with(rt, request, &file)?;
    match request.output {
        Some(path) => {
            let mut log = created(rt, path)?;
            let ended = trace_loaded(
                rt,
                board,
                request,
                names,
                window,
                input,
                output,
                &mut log.file,
            );
            log.close(rt, ended)
        }
        None => {
            let mut log = Noting::new(errors);
            let ended = trace_loaded(rt, board, request, names, window, input, output, &mut log);
            named(ended, STANDARD_ERROR, log.fault)
        }
    }
}
