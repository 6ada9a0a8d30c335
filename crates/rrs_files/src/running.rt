//! An executable that runs as a process of Linux with files.

ghost use Rattle.std.specs.Prelude.{◌≡◌, None, Err, map, string_bytes, IfOk, IfErr, IfSome, OnErr};
ghost use Rattle.rrs_elf.specs.Executables.{IsExecutableIn};
ghost use Rattle.rrs_elf.specs.declared.errors.ElfError.{ElfError};
ghost use Rattle.rrs_elf.specs.Refusals.{first_refusal, checks_in};
ghost use Rattle.rrs_elf.specs.declared.program_headers.Addresses.TheVariants.{Virtual};
ghost use Rattle.rrs_exec.specs.Processes.{unit_of};
ghost use Rattle.rrs_exec.specs.Images.{AreLong, memory_refusal};
ghost use Rattle.rrs_exec.specs.ProcessMemories.{process_bytes, process_writable};
ghost use Rattle.rrs_files.specs.Runs.{RunsBelow, RunsFilesBelow, RunsImageWithFiles, RunsWithFiles};

use crate::files::Files;
use crate::folder::Folder;
use crate::serving::WithFiles;
use rrs_exec::{
    Image, ImageError, LoadedProcess, ProcessEnd, ProcessMemory, Progress, load_process,
    serve_image,
};
use rrs_fast::Environment;
use rrs_hart::HartProfile;
use rrs_linux::{Heap, Linux};
use std::alloc::Global;
use std::io::{Read, Write};

/// Runs a file's bytes as `execute_process` of `rrs_exec` does, in an environment with files. Where
/// these may only be read, no call of the folder is made that changes anything.
///
/// # Errors
///
/// Those of `execute_process`. No step is made then, and the environment is as it was, its files
/// too.
pub fn execute_with_files<R: Read, W: Write, E: Write, F: Folder, P: Progress>(
    alloc: Global,
    file: &[u8],
    arguments: &[String],
    variables: &[String],
    wanted: u64,
    limit: u64,
    profile: HartProfile,
    environment: &mut WithFiles<'_, Linux<R, W, E>, F>,
    progress: &mut P,
) -> Result<ProcessEnd, ImageError>
    ensures executed { IfOk result (λ end. RunsWithFiles R.remaining W.contents E.contents F.did
        profile file.now (map string_bytes arguments.now) (map string_bytes variables.now)
        wanted limit
        environment.old environment.new end.steps end.pc end.ending) }
    ensures ceiling { IsExecutableIn (unit_of profile) Virtual file.now
        → IfSome (memory_refusal file.now wanted) (λ error. result ≡ Err error) }
    ensures kept { OnErr result (environment.new ≡ environment.old) }
    ensures refused { (refusal : ElfError)
        → first_refusal (checks_in (unit_of profile) Virtual file.now) ≡ Err refusal
        → IfErr result (λ error. error ≡ ImageError.Elf refusal) }
    ensures long { IsExecutableIn (unit_of profile) Virtual file.now
        → memory_refusal file.now wanted ≡ None
        → AreLong file.now (map string_bytes arguments.now) (map string_bytes variables.now) wanted
        → result ≡ Err ImageError.LongArguments }
    ensures otherwise { IsExecutableIn (unit_of profile) Virtual file.now
        → memory_refusal file.now wanted ≡ None
        → (AreLong file.now (map string_bytes arguments.now)
        (map string_bytes variables.now) wanted → ⊥)
        → IfErr result (λ error. error ≡ ImageError.OutOfMemory) }
{
    let LoadedProcess { image, memory } = load_process(
        alloc, file, arguments, variables, wanted, profile,
    )?;
    Ok(run_image(image, memory, limit, profile, environment, progress))
}

/// Runs a file's bytes as `execute_process` of `rrs_exec` does, with these files. They are closed
/// at the end. Where they may only be read, no call of the folder is made that changes anything. It
/// is `execute_with_files` for who has the process and the files apart, but its clauses do not say
/// what the process is after a run.
///
/// # Errors
///
/// Those of `execute_process`. No step is made then, and the process is as it was.
pub fn execute_below<R: Read, W: Write, E: Write, F: Folder + Drop, P: Progress>(
    alloc: Global,
    file: &[u8],
    arguments: &[String],
    variables: &[String],
    wanted: u64,
    limit: u64,
    profile: HartProfile,
    process: &mut Linux<R, W, E>,
    files: Files<F>,
    progress: &mut P,
) -> Result<ProcessEnd, ImageError>
    ensures executed { IfOk result (λ end. RunsBelow R.remaining W.contents E.contents F.did
        profile file.now (map string_bytes arguments.now) (map string_bytes variables.now)
        wanted limit
        process.old files end.steps end.pc end.ending) }
    ensures ceiling { IsExecutableIn (unit_of profile) Virtual file.now
        → IfSome (memory_refusal file.now wanted) (λ error. result ≡ Err error) }
    ensures kept { OnErr result (process.new ≡ process.old) }
    ensures refused { (refusal : ElfError)
        → first_refusal (checks_in (unit_of profile) Virtual file.now) ≡ Err refusal
        → IfErr result (λ error. error ≡ ImageError.Elf refusal) }
    ensures long { IsExecutableIn (unit_of profile) Virtual file.now
        → memory_refusal file.now wanted ≡ None
        → AreLong file.now (map string_bytes arguments.now) (map string_bytes variables.now) wanted
        → result ≡ Err ImageError.LongArguments }
    ensures otherwise { IsExecutableIn (unit_of profile) Virtual file.now
        → memory_refusal file.now wanted ≡ None
        → (AreLong file.now (map string_bytes arguments.now)
        (map string_bytes variables.now) wanted → ⊥)
        → IfErr result (λ error. error ≡ ImageError.OutOfMemory) }
{
    let LoadedProcess { image, memory } = load_process(
        alloc, file, arguments, variables, wanted, profile,
    )?;
    process.heap = Heap::new(image.layout.heap_start, image.layout.heap_end);
    Ok(run_below(image, memory, limit, profile, process, files, progress))
}

/// Runs a process whose memory is filled, and whose heap is set, with these files.
fn run_below<S: Environment, F: Folder + Drop, P: Progress>(
    image: Image,
    memory: ProcessMemory,
    limit: u64,
    profile: HartProfile,
    process: &mut S,
    files: Files<F>,
    progress: &mut P,
) -> ProcessEnd
    ensures { RunsFilesBelow S.serves F.did profile image
        (process_bytes memory) (process_writable memory)
        limit process.old files result.steps result.pc result.ending }
{
    let mut with_files = WithFiles { process, files };
    serve_image(image, memory, limit, profile, &mut with_files, progress)
}

/// Runs a process whose memory is filled.
fn run_image<R: Read, W: Write, E: Write, F: Folder, P: Progress>(
    image: Image,
    memory: ProcessMemory,
    limit: u64,
    profile: HartProfile,
    environment: &mut WithFiles<'_, Linux<R, W, E>, F>,
    progress: &mut P,
) -> ProcessEnd
    ensures { RunsImageWithFiles R.remaining W.contents E.contents F.did profile image
        (process_bytes memory) (process_writable memory) limit
        environment.old environment.new result.steps result.pc result.ending }
{
    environment.process.heap = Heap::new(image.layout.heap_start, image.layout.heap_end);
    serve_image(image, memory, limit, profile, environment, progress)
}
