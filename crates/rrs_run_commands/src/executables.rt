//! Executables as the subcommands take them: read, run, and what is told where they fail.

ghost use Rattle.std.specs.Prelude.{◌≡◌, ◌↔◌, ◌≤◌, ◌%◌, None, IsTrue, IfOk, IfSome, length, max, min, not};
ghost use Rattle.rrs_elf.specs.Headers.{e_flags};
ghost use Rattle.rrs_elf.specs.Executables.{IsExecutableIn};
ghost use Rattle.rrs_elf.specs.declared.code_units.CodeUnit.TheVariants.{HalfWord};
ghost use Rattle.rrs_elf.specs.declared.program_headers.Addresses.TheVariants.{Virtual};
ghost use Rattle.rrs_exec.specs.Images.{needed_of};
ghost use Rattle.rrs_exec.specs.Processes.{process_profile};
ghost use Rattle.rrs_files.specs.Requests.{IsOfFiles};
ghost use Rattle.rrs_run_commands.specs.Execution.{is_overrun};
ghost use Rattle.rrs_run_commands.specs.Options.{usual_memory, most_unasked};

use crate::files::{read_program, refused_by_host};
use crate::options::{MOST_UNASKED, Task, usual_memory};
use crate::refusal::{Refusal, no_image, out_of_memory};
use crate::requests::Request;
use crate::variables::variables_of;
use rrs_elf::{Addresses, CodeUnit, Executable, has_compressed_code};
use rrs_exec::{ImageError, ProcessEnd, Progress, execute_process, needed_memory, profile_for};
use rrs_fast::Ending;
use rrs_files::{Descriptors, Files as ProgramFiles, HostFolder, execute_below};
use rrs_hart::HartProfile;
use rrs_lib::instruction_executor::InstructionException;
use rrs_linux::{Heap, Linux};
use rrs_reports::{SHOWN_BYTES, ShownName};
use std::io::{Read, Write};
use std::rt::Files;

/// How many bytes of memory a program has: as many as are asked for, and where none are, 256 MiB or
/// as many as it needs, but no more than 1 GiB.
pub fn memory_for(file: &[u8], asked: Option<u64>) -> u64
    ensures asked { IfSome asked (λ bytes. result ≡ bytes) }
    ensures unasked { asked ≡ None → IsExecutableIn HalfWord Virtual file.now
        → result ≡ max (usual_memory Task.Execute) (min (needed_of file.now) most_unasked) }
{
    if let Some(bytes) = asked {
        return bytes;
    }
    let usual = usual_memory(Task::Execute);
    match Executable::parse_in(file, Addresses::Virtual, CodeUnit::HalfWord) {
        Ok(executable) => usual.max(needed_memory(&executable).min(MOST_UNASKED)),
        Err(_) => usual,
    }
}

/// The hart that a program runs on: that of `--march`, or else the usual one for its file. By
/// `--strict-alignment` a misaligned access is a fault.
pub fn hart_for(file: &[u8], request: Request<'_>) -> HartProfile
    ensures named { IfSome request.entry.march (λ profile.
        result ≡ record profile { misaligned = not request.entry.is_strict }) }
    ensures code { request.entry.march ≡ None → (IsTrue result.compressed
        ↔ ((52 ≤ length file.now) × (e_flags file.now % 2 ≡ 1))) }
    ensures rest { request.entry.march ≡ None → result
        ≡ record (process_profile request.entry.is_strict) { compressed = result.compressed } }
{
    match request.march {
        Some(profile) => HartProfile {
            misaligned: !request.is_strict,
            ..profile
        },
        None => profile_for(file, request.is_strict),
    }
}

/// Runs an executable as a process, and serves its system calls. Of a fault and of the limit it is
/// told on standard error where it was, and after how many steps.
///
/// # Errors
///
/// Those of `read_program`, and `Refusal::File` where it is no executable that can be run, and where
/// the folder for its files can't be used; out of memory as a failure.
pub fn execute_executable<
    'a,
    H: Files + Eprint + AllocGlobal,
    R: Read,
    W: Write,
    E: Write,
    P: Progress,
>(
    rt: &H,
    request: Request<'a>,
    environment: &mut Linux<R, W, E>,
    progress: &mut P,
) -> Result<Ending, Refusal<'a>> {
    let file = read_program(rt, request.path())?;
    match execute_bytes(rt, &file, request, environment, progress)? {
        Ok(end) => {
            tell(rt, "rrs exec", &file, environment.heap, &end);
            Ok(end.ending)
        }
        Err(error) => Err(no_image(request.path(), &file, error)),
    }
}

/// Runs the bytes of an executable, with the variables and the files that a request gives it.
///
/// # Errors
///
/// `Refusal::File` where the folder for its files can't be used; out of memory as a failure.
fn execute_bytes<'a, H: Files + AllocGlobal, R: Read, W: Write, E: Write, P: Progress>(
    rt: &H,
    file: &[u8],
    request: Request<'a>,
    environment: &mut Linux<R, W, E>,
    progress: &mut P,
) -> Result<Result<ProcessEnd, ImageError>, Refusal<'a>> {
    let wanted = memory_for(file, request.memory);
    let profile = hart_for(file, request);
    let Ok(variables) = variables_of(rt.alloc(), request) else {
        return Err(out_of_memory());
    };
    let Some(path) = request.folder else {
        return Ok(execute_process(
            rt.alloc(),
            file,
            request.words,
            &variables,
            wanted,
            request.limit,
            profile,
            environment,
            progress,
        ));
    };
    let files = files_below(rt, path, request.is_read_only, wanted)?;
    Ok(execute_below(
        rt.alloc(),
        file,
        request.words,
        &variables,
        wanted,
        request.limit,
        profile,
        environment,
        files,
        progress,
    ))
}

/// The files below a folder, of which none is open, and which may only be read where that is asked
/// for. What open folders list may take so many bytes.
///
/// # Errors
///
/// `Refusal::File` where the host can't find the folder, or it is none; out of memory as a failure.
fn files_below<'h, 'a, H: Files + AllocGlobal>(
    rt: &'h H,
    path: &'a str,
    is_read_only: bool,
    room: u64,
) -> Result<ProgramFiles<HostFolder<'h, 'a, H>>, Refusal<'a>>
    ensures { IfOk result (λ files. files.is_read_only ≡ is_read_only) }
{
    match HostFolder::new(rt, path, room) {
        Ok(folder) => Ok(ProgramFiles {
            folder,
            descriptors: Descriptors::new(),
            is_read_only,
        }),
        Err(error) => Err(refused_by_host(path, &error)),
    }
}

/// Whether a call of this number is one that only a program with files is served: `openat`, others
/// that name a file, `fcntl64`, `close`, `dup` and `dup3`.
pub fn is_of_files(number: u32) -> bool
    ensures { IsTrue result ↔ IsOfFiles number }
{
    matches!(
        number,
        17 | 23 | 24 | 25 | 34 | 35 | 48 | 56 | 57 | 78 | 79 | 276 | 291 | 412
    )
}

/// Says of a run that did not end by itself where it was, in which function, and after how many
/// steps, after the name of the program; and of a fault what may have led to it. Where that can't be
/// printed nothing is told.
pub fn tell<H: Eprint>(rt: &H, program: &str, file: &[u8], heap: Heap, end: &ProcessEnd) {
    let (pc, steps) = (end.pc, end.steps);
    match &end.ending {
        Ending::Exit(_) => {}
        Ending::Limit => {
            let place = place_of(file, Addresses::Virtual, pc);
            tell_place(rt, program, place, pc, "", steps);
        }
        Ending::Fault(fault) => {
            let place = place_of(file, Addresses::Virtual, pc);
            tell_place(rt, program, place, pc, "", steps);
            tell_fault(rt, program, file, heap, fault);
        }
    }
}

/// Says where a run was, in which mode, if that is told, and after how many steps.
pub(crate) fn tell_place<H: Eprint>(
    rt: &H,
    program: &str,
    place: Option<(&[u8], u32)>,
    pc: u32,
    mode: &str,
    steps: u64,
) {
    let _ = match place {
        Some((name, distance)) => {
            let name = ShownName { name };
            eprintln!(rt;
                "{program}: at pc 0x{pc:08x}, {name} + {distance}{mode}, after {steps} steps"
            )
        }
        None => eprintln!(rt; "{program}: at pc 0x{pc:08x}{mode}, after {steps} steps"),
    };
}

/// Says what may have led to a fault: no code, compressed code in a file whose flags have none, or a
/// stack that ran over.
fn tell_fault<H: Eprint>(
    rt: &H,
    program: &str,
    file: &[u8],
    heap: Heap,
    fault: &InstructionException,
) {
    if let InstructionException::IllegalInstruction(_, word) = fault {
        let half = word % 65536;
        if half == 0 {
            let _ = eprintln!(rt; "{program}: no code is there; a program ends by a call of exit");
        } else if half % 4 != 3 && !has_compressed_code(file) {
            let _ = eprintln!(rt; "{program}: 0x{half:04x} is compressed code");
        }
    }
    if is_overrun(heap, fault) {
        let _ = eprintln!(rt; "{program}: the stack ran over: it has 8 MiB at most");
    }
}

/// The bytes that are not mapped between the highest break and the stack: 64 KiB.
const GAP_BYTES: u32 = 1 << 16;

/// Whether a fault is that of a stack that ran over: of a load or a store in the bytes below the
/// stack that are not mapped.
fn is_overrun(heap: Heap, fault: &InstructionException) -> bool
    ensures { result ≡ is_overrun heap fault.now }
{
    match fault {
        InstructionException::LoadAccessFault(address)
        | InstructionException::StoreAccessFault(address) => {
            *address >= heap.end && *address - heap.end < GAP_BYTES
        }
        _ => false,
    }
}

/// The function of an executable in which an address lies, or else the nearest before it, and how
/// far after its first instruction it is. Its segments are at these of their addresses.
pub(crate) fn place_of(file: &[u8], addresses: Addresses, address: u32) -> Option<(&[u8], u32)> {
    let Ok(executable) = Executable::parse_in(file, addresses, CodeUnit::HalfWord) else {
        return None;
    };
    let Ok(Some(symbols)) = executable.symbols() else {
        return None;
    };
    let location = symbols.function_at(address)?;
    let name = symbols.name_up_to(location.symbol, SHOWN_BYTES + 1)?;
    Some((name, location.distance))
}
