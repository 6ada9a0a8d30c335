//! An executable that runs as a process of Linux.

ghost use Rattle.std.specs.Prelude.{◌≡◌, ◌↔◌, ◌≤◌, ◌%◌, ℕ, Bool, IsTrue, IsOk, Option, None, Err, length, map, string_bytes, IfOk, IfErr, IfSome, OnErr};
ghost use Rattle.rrs_elf.specs.Executables.{IsExecutableIn};
ghost use Rattle.rrs_elf.specs.Headers.{e_flags};
ghost use Rattle.rrs_exec.specs.Images.{AreLong, memory_refusal};
ghost use Rattle.rrs_lib.specs.Machine.{state_of};
ghost use Rattle.rrs_elf.specs.declared.errors.ElfError.{ElfError};
ghost use Rattle.rrs_elf.specs.Refusals.{first_refusal, checks_in};
ghost use Rattle.rrs_elf.specs.declared.program_headers.Addresses.TheVariants.{Virtual};
ghost use Rattle.rrs_exec.specs.Processes.{process_profile, unit_of, started, Executing, RunsImage, RunsProcess, ServesImage, IsLoaded};
ghost use Rattle.rrs_linux.specs.SystemCalls.{Serves};
ghost use Rattle.rrs_exec.specs.ProcessMemories.{process_bytes, process_writable};

use crate::image::{Image, ImageError, fill, image_of};
use crate::process_memory::ProcessMemory;
use crate::progress::{InPieces, Progress};
use crate::protected::ProtectedMemory;
use rrs_elf::{Addresses, CodeUnit, ElfError, Executable, has_compressed_code};
use rrs_fast::{CachedMemory, Ending, Environment, OwnHart, ServedEnd, run_served};
use rrs_hart::HartProfile;
use rrs_lib::HartState;
use rrs_lib::instruction_executor::InstructionExecutor;
use rrs_linux::{Heap, Linux};
use std::alloc::Global;
use std::io::{Read, Write};

/// How many decoded words a process's memory has room for: those of 256 KiB of code. They take
/// 1.25 MiB of stack.
pub const DECODED_WORDS: usize = 65_536;

/// How many decoded words are kept of a process that a [Watcher](crate::Watcher) makes the steps
/// of: those of 128 KiB. It is another number than [DECODED_WORDS], so that a step by itself has
/// functions of its own, and those of a run stay parts of its loop.
pub const WATCHED_WORDS: usize = 32_768;

/// The memory of a process that is watched, with the words of it that are decoded.
pub type KeptMemory = CachedMemory<ProtectedMemory, WATCHED_WORDS>;

/// How a process ended.
#[derive(Debug, PartialEq, Drop)]
pub struct ProcessEnd {
    /// Why.
    pub ending: Ending,
    /// After how many steps.
    pub steps: u64,
    /// The pc then: after a fault, that of the instruction that raised it.
    pub pc: u32,
}

/// The layers that the hart of a process has where none are named: extension A, `fence.i`, Zba to
/// Zicond, and misaligned loads and stores unless these are strict.
pub fn process_profile(strict: bool) -> HartProfile
    ensures { result ≡ process_profile strict }
{
    HartProfile {
        atomics: true,
        fence_i: true,
        misaligned: !strict,
        compressed: false,
        zba: true,
        zbb: true,
        zbs: true,
        zbc: true,
        zbkb: true,
        zicond: true,
    }
}

/// The usual profile of the hart for a file: that of [process_profile], and compressed code where
/// the flags of the file say that it has some.
pub fn profile_for(file: &[u8], strict: bool) -> HartProfile
    ensures code { IsTrue result.compressed
        ↔ ((52 ≤ length file.now) × (e_flags file.now % 2 ≡ 1)) }
    ensures rest { result ≡ record (process_profile strict) { compressed = result.compressed } }
{
    let mut profile = process_profile(strict);
    profile.compressed = has_compressed_code(file);
    profile
}

/// The hart of a process that starts: its pc is the entry, sp is the stack pointer, and all other
/// registers are 0.
pub fn started(entry: u32, sp: u32) -> HartState
    ensures { (bytes : ℕ → Option ℕ) (writable : ℕ → Bool)
        → state_of result bytes writable ≡ started entry sp bytes writable }
{
    let mut hart = HartState::new();
    hart.registers[2] = sp;
    hart.pc = entry;
    hart
}

/// A process that is loaded and has made no step.
#[derive(Drop)]
pub struct LoadedProcess {
    /// Where it starts, its stack, and the marks of its pages.
    pub image: Image,
    /// Its memory.
    pub memory: ProcessMemory,
}

/// Accepts a file as an executable for a hart.
fn accepted(file: &[u8], profile: HartProfile) -> Result<Executable<'_>, ElfError>
    ensures accepted { IsOk result ↔ IsExecutableIn (unit_of profile) Virtual file.now }
    ensures refused { IfErr result (λ error.
        first_refusal (checks_in (unit_of profile) Virtual file.now) ≡ Err error) }
    ensures same { IfOk result (λ made. made.file.now ≡ file.now) }
    ensures placed { IfOk result (λ made. made.addresses ≡ Virtual) }
{
    if profile.compressed {
        Executable::parse_in(file, Addresses::Virtual, CodeUnit::HalfWord)
    } else {
        Executable::parse(file)
    }
}

/// Loads a file's bytes as an executable with these arguments, of which the first is its name, and
/// these environment variables, as `NAME=VALUE`, in a memory of at most so many bytes, for a hart
/// with this profile.
///
/// # Errors
///
/// `ImageError`, where the file is no executable or can't be made a process. A file that is no
/// executable is refused for the first of the reasons in their order (`refused`). An executable
/// that needs more bytes than are wanted, or leaves no room for a heap and a stack, is refused so
/// before memory is taken for it (`ceiling`), and then arguments and variables that don't fit in
/// its stack (`long`). Any other error is that the host is out of memory (`otherwise`).
pub fn load_process(
    alloc: Global,
    file: &[u8],
    arguments: &[String],
    variables: &[String],
    wanted: u64,
    profile: HartProfile,
) -> Result<LoadedProcess, ImageError>
    ensures loaded { IfOk result (λ process. IsLoaded (unit_of profile) file.now
        (map string_bytes arguments.now) (map string_bytes variables.now)
        wanted process.image (process_bytes process.memory)
        (process_writable process.memory)) }
    ensures ceiling { IsExecutableIn (unit_of profile) Virtual file.now
        → IfSome (memory_refusal file.now wanted) (λ error. result ≡ Err error) }
    ensures refused { (refusal : ElfError)
        → first_refusal (checks_in (unit_of profile) Virtual file.now) ≡ Err refusal
        → IfErr result (λ error. error ≡ ImageError.Elf refusal) }
    ensures long { IsExecutableIn (unit_of profile) Virtual file.now
        → memory_refusal file.now wanted ≡ None
        → AreLong file.now (map string_bytes arguments.now) (map string_bytes variables.now) wanted
        → result ≡ Err ImageError.LongArguments }
    ensures otherwise { IsExecutableIn (unit_of profile) Virtual file.now
        → memory_refusal file.now wanted ≡ None
        → (AreLong file.now (map string_bytes arguments.now)
        (map string_bytes variables.now) wanted → ⊥)
        → IfErr result (λ error. error ≡ ImageError.OutOfMemory) }
{
    let executable = match accepted(file, profile) {
        Ok(executable) => executable,
        Err(error) => return Err(ImageError::Elf(error)),
    };
    let image = image_of(alloc, &executable, arguments, variables, wanted)?;
    let mut memory = match ProcessMemory::new(alloc, &image.layout) {
        Ok(memory) => memory,
        Err(_) => return Err(ImageError::OutOfMemory),
    };
    fill(
        &executable,
        &image.layout,
        image.stack_pointer,
        &image.stack,
        &mut memory,
    )?;
    Ok(LoadedProcess { image, memory })
}

/// Runs a file's bytes as an executable with these arguments, of which the first is its name, and
/// these environment variables, as `NAME=VALUE`, in a memory of so many bytes, and serves its
/// system calls, for `limit` steps or until it ends or raises an exception. Its hart has the layers
/// of the profile: [process_profile] is the usual one. Its break begins after its segments, and the
/// heap of the environment is set so. The end has the steps that were made and the pc after them.
/// The progress is told of its steps, and of its end.
///
/// # Errors
///
/// Those of [load_process]. No step is made then, and the environment is as it was.
pub fn execute_process<R: Read, W: Write, E: Write, P: Progress>(
    alloc: Global,
    file: &[u8],
    arguments: &[String],
    variables: &[String],
    wanted: u64,
    limit: u64,
    profile: HartProfile,
    environment: &mut Linux<R, W, E>,
    progress: &mut P,
) -> Result<ProcessEnd, ImageError>
    ensures executed { IfOk result (λ end. RunsProcess
        (Executing (Serves R.remaining W.contents E.contents) profile) (unit_of profile)
        file.now (map string_bytes arguments.now) (map string_bytes variables.now) wanted limit
        environment.old environment.new end.steps end.pc end.ending) }
    ensures ceiling { IsExecutableIn (unit_of profile) Virtual file.now
        → IfSome (memory_refusal file.now wanted) (λ error. result ≡ Err error) }
    ensures kept { OnErr result (environment.new ≡ environment.old) }
    ensures refused { (refusal : ElfError)
        → first_refusal (checks_in (unit_of profile) Virtual file.now) ≡ Err refusal
        → IfErr result (λ error. error ≡ ImageError.Elf refusal) }
    ensures long { IsExecutableIn (unit_of profile) Virtual file.now
        → memory_refusal file.now wanted ≡ None
        → AreLong file.now (map string_bytes arguments.now) (map string_bytes variables.now) wanted
        → result ≡ Err ImageError.LongArguments }
    ensures otherwise { IsExecutableIn (unit_of profile) Virtual file.now
        → memory_refusal file.now wanted ≡ None
        → (AreLong file.now (map string_bytes arguments.now)
        (map string_bytes variables.now) wanted → ⊥)
        → IfErr result (λ error. error ≡ ImageError.OutOfMemory) }
{
    let LoadedProcess { image, memory } = load_process(
        alloc, file, arguments, variables, wanted, profile,
    )?;
    Ok(run_image(image, memory, limit, profile, environment, progress))
}

/// Runs a process whose memory is filled.
fn run_image<R: Read, W: Write, E: Write, P: Progress>(
    image: Image,
    memory: ProcessMemory,
    limit: u64,
    profile: HartProfile,
    environment: &mut Linux<R, W, E>,
    progress: &mut P,
) -> ProcessEnd
    ensures { RunsImage (Executing (Serves R.remaining W.contents E.contents) profile) image
        (process_bytes memory) (process_writable memory) limit
        environment.old environment.new result.steps result.pc result.ending }
{
    environment.heap = Heap::new(image.layout.heap_start, image.layout.heap_end);
    serve_image(image, memory, limit, profile, environment, progress)
}

/// Runs a process whose memory is filled, with what serves its calls, from the entry of its image,
/// as [execute_process] does.
pub fn serve_image<S: Environment, P: Progress>(
    image: Image,
    memory: ProcessMemory,
    limit: u64,
    profile: HartProfile,
    environment: &mut S,
    progress: &mut P,
) -> ProcessEnd
    ensures { ServesImage (Executing S.serves profile) image
        (process_bytes memory) (process_writable memory) limit
        environment.old environment.new result.steps result.pc result.ending }
{
    let Image {
        layout: _,
        entry,
        stack_pointer,
        stack: _,
        marks,
    } = image;
    let mut hart = started(entry, stack_pointer);
    let protected = ProtectedMemory { memory, marks };
    let mut cached: CachedMemory<_, DECODED_WORDS> = CachedMemory::new(protected);
    let mut executor = InstructionExecutor {
        mem: &mut cached,
        hart_state: &mut hart,
    };
    let mut runner = InPieces {
        runner: OwnHart {
            profile,
            reservation: None,
        },
        progress: &mut *progress,
    };
    let end = run_served(&mut runner, &mut executor, environment, limit);
    let ServedEnd { steps, ending } = end;
    progress.end();
    let pc = executor.hart_state.pc;
    ProcessEnd { ending, steps, pc }
}
