//! Runs of which each step is shown to a watcher.

ghost use Rattle.std.specs.Prelude.{◌≡◌, Bool, None, Err, map, string_bytes, IfOk, IfErr, IfSome, OnErr};
ghost use Rattle.rrs_elf.specs.Executables.{IsExecutableIn};
ghost use Rattle.rrs_exec.specs.Images.{AreLong, memory_refusal};
ghost use Rattle.rrs_lib.specs.Executor.{state_in, KeepsTheRest};
ghost use Rattle.rrs_hart.specs.Harts.{hart_with};
ghost use Rattle.rrs_exec.specs.ProcessMemories.{process_bytes, process_writable};
ghost use Rattle.rrs_exec.specs.Protection.{protected_bytes, protected_writable, protected_layout, protected_reads, ProtectedWrites};
ghost use Rattle.rrs_trace.specs.declared.retired.Retired.{Retired};
ghost use Rattle.rrs_fast.specs.Serving.{MakesSome};
ghost use Rattle.rrs_elf.specs.declared.errors.ElfError.{ElfError};
ghost use Rattle.rrs_elf.specs.Refusals.{first_refusal, checks_in};
ghost use Rattle.rrs_elf.specs.declared.program_headers.Addresses.TheVariants.{Virtual};
ghost use Rattle.rrs_exec.specs.Processes.{unit_of};
ghost use Rattle.rrs_exec.specs.Watching.{ServesAt, Turn, IsWatched, WatchesImage, WatchesProcess};

use crate::image::{Image, ImageError};
use crate::process::{KeptMemory, LoadedProcess, ProcessEnd, load_process, started};
use crate::process_memory::ProcessMemory;
use crate::progress::Progress;
use crate::protected::ProtectedMemory;
use rrs_fast::{CachedMemory, Ending, Environment, ServedEnd};
use rrs_hart::HartProfile;
use rrs_lib::Memory;
use rrs_lib::instruction_executor::{InstructionException, InstructionExecutor};
use rrs_linux::{Heap, Linux};
use std::alloc::Global;
use std::io::{Read, Write};

/// How many steps are made before a progress is told of them.
const PIECE: u64 = 1 << 16;

/// What is shown each step of a run.
pub trait Watcher {
    ghost use Rattle.rrs_lib.specs.Executor.{state_in, KeepsTheRest};
    ghost use Rattle.rrs_lib.specs.Accesses.{MakesExactly};
    ghost use Rattle.rrs_hart.specs.Harts.{hart_with, AccessesOfHart};
    ghost use Rattle.rrs_exec.specs.Protection.{protected_bytes, protected_writable, protected_layout, protected_reads, ProtectedWrites};
    ghost use Rattle.rrs_exec.specs.Watching.{SeesStep};

    /// What a record that is shown makes of the watcher.
    ghost sees: { Self → Retired → Self → Type 0 };

    /// Whether the watcher wants to see more.
    ghost wants: { Self → Bool };

    /// Makes the step of this number of a process, whose hart has this profile and this
    /// reservation, and sees what it retired. Of an `ecall` that is served, and of a fault, the
    /// record has `trap` set, and neither says what the call returns.
    ///
    /// A watcher that needs no record makes the step by
    /// [step_layers_cached](rrs_fast::step_layers_cached), and one that does by
    /// [step_hart_retired](rrs_trace::step_hart_retired).
    ///
    /// # Errors
    ///
    /// The exceptions of [step_hart](rrs_hart::step_hart).
    fn watch_step(
        &mut self,
        executor: &mut InstructionExecutor<KeptMemory>,
        reservation: &mut Option<u32>,
        profile: HartProfile,
        number: u64,
    ) -> Result<(), InstructionException>
        ensures seen { SeesStep profile sees number self.old
            (hart_with (state_in protected_bytes protected_writable executor.old) reservation.old)
            result
            (hart_with (state_in protected_bytes protected_writable executor.new) reservation.new)
            self.new }
        ensures rest { KeepsTheRest protected_layout executor.old executor.new }
        ensures accesses { MakesExactly protected_reads ProtectedWrites (AccessesOfHart profile
            (hart_with (state_in protected_bytes protected_writable executor.old) reservation.old))
            executor.old.mem.now executor.new.mem.now };

    /// Whether the run is to go on. It is asked before each step.
    fn wants_more(&self) -> bool
        ensures { result ≡ wants self.now };
}

/// Serves the call of a hart that is at an `ecall` at `pc`. A program that goes on does so at the
/// next instruction.
fn serve_at<M: Memory, E: Environment>(
    executor: &mut InstructionExecutor<M>,
    environment: &mut E,
    pc: u32,
) -> Option<u32>
    ensures served { MakesSome M.reads M.writes
        (ServesAt E.serves pc environment.old (state_in M.bytes M.writable executor.old) result
        environment.new (state_in M.bytes M.writable executor.new))
        executor.old.mem.now executor.new.mem.now }
    ensures rest { KeepsTheRest M.layout executor.old executor.new }
{
    match environment.serve(executor) {
        Some(status) => Some(status),
        None => {
            executor.hart_state.pc = pc.wrapping_add(4);
            None
        }
    }
}

/// Whether a watcher wants to see more.
fn wants_more<V: Watcher>(watcher: &V) -> bool
    ensures { result ≡ V.wants watcher.now }
{
    watcher.wants_more()
}

/// Has a watcher make the step of this number, and has an `ecall` served. The answer is `None`
/// where the program goes on, or the status with which the call ended it.
///
/// # Errors
///
/// The exceptions of the step but `EnvironmentCall`.
fn take_turn<E: Environment, V: Watcher>(
    executor: &mut InstructionExecutor<KeptMemory>,
    environment: &mut E,
    reservation: &mut Option<u32>,
    profile: HartProfile,
    watcher: &mut V,
    number: u64,
) -> Result<Option<u32>, InstructionException>
    ensures turn { MakesSome protected_reads ProtectedWrites
        (Turn profile E.serves V.sees number environment.old
        (hart_with (state_in protected_bytes protected_writable executor.old) reservation.old)
        watcher.old result environment.new
        (hart_with (state_in protected_bytes protected_writable executor.new) reservation.new)
        watcher.new)
        executor.old.mem.now executor.new.mem.now }
    ensures rest { KeepsTheRest protected_layout executor.old executor.new }
{
    let Err(exception) = watcher.watch_step(executor, reservation, profile, number) else {
        return Ok(None);
    };
    match exception {
        InstructionException::EnvironmentCall(pc) => Ok(serve_at(executor, environment, pc)),
        fault => Err(fault),
    }
}

/// Tells a progress of a piece of steps, at the step of this number that is the last of one.
#[inline(always)]
fn tell<P: Progress>(progress: &mut P, number: u64) {
    if number % PIECE == PIECE - 1 {
        progress.add(PIECE);
    }
}

/// Makes steps up to `limit`, to an exception, until the environment ends the program, or until the
/// watcher wants no more, which ends the run as a limit does. No address is reserved at first. Each
/// step is shown, and the progress is told of each piece of them.
#[inline(never)]
fn run_watched<E: Environment, V: Watcher, P: Progress>(
    executor: &mut InstructionExecutor<KeptMemory>,
    environment: &mut E,
    reservation: &mut Option<u32>,
    profile: HartProfile,
    watcher: &mut V,
    limit: u64,
    progress: &mut P,
) -> ServedEnd
    ensures watched { IsWatched profile E.serves V.sees V.wants limit environment.old
        (hart_with (state_in protected_bytes protected_writable executor.old) reservation.old)
        watcher.old result.steps result.ending environment.new
        (hart_with (state_in protected_bytes protected_writable executor.new) reservation.new)
        watcher.new }
    ensures rest { KeepsTheRest protected_layout executor.old executor.new }
{
    for steps in 0..limit {
        if !wants_more(watcher) {
            let ending = Ending::Limit;
            return ServedEnd { steps, ending };
        }
        match take_turn(executor, environment, reservation, profile, watcher, steps) {
            Ok(None) => tell(progress, steps),
            Ok(Some(status)) => {
                return ServedEnd {
                    steps: steps + 1,
                    ending: Ending::Exit(status),
                };
            }
            Err(fault) => {
                let ending = Ending::Fault(fault);
                return ServedEnd { steps, ending };
            }
        }
    }
    ServedEnd {
        steps: limit,
        ending: Ending::Limit,
    }
}

/// Runs a process whose memory is filled, and shows each step.
fn watch_image<R: Read, W: Write, E: Write, V: Watcher, P: Progress>(
    image: Image,
    memory: ProcessMemory,
    limit: u64,
    profile: HartProfile,
    environment: &mut Linux<R, W, E>,
    watcher: &mut V,
    progress: &mut P,
) -> ProcessEnd
    ensures { WatchesImage profile R.remaining W.contents E.contents V.sees V.wants image
        (process_bytes memory) (process_writable memory) limit
        environment.old environment.new watcher.old watcher.new
        result.steps result.pc result.ending }
{
    let Image {
        layout,
        entry,
        stack_pointer,
        stack: _,
        marks,
    } = image;
    environment.heap = Heap::new(layout.heap_start, layout.heap_end);
    let mut hart = started(entry, stack_pointer);
    let protected = ProtectedMemory { memory, marks };
    let mut cached: KeptMemory = CachedMemory::new(protected);
    let mut executor = InstructionExecutor {
        mem: &mut cached,
        hart_state: &mut hart,
    };
    let mut reservation = None;
    let ServedEnd { steps, ending } = run_watched(
        &mut executor,
        environment,
        &mut reservation,
        profile,
        watcher,
        limit,
        progress,
    );
    progress.end();
    let pc = executor.hart_state.pc;
    ProcessEnd { ending, steps, pc }
}

/// Runs a file's bytes as [execute_process](crate::execute_process) does, and shows each step to a
/// watcher: once, in order, with its number from 0 on. A fault is shown too, though it counts as no
/// step.
///
/// Where the watcher wants no more the run ends as it does at the limit, after the steps that were
/// shown.
///
/// # Errors
///
/// Those of `execute_process`. Nothing is shown then.
pub fn watch_process<R: Read, W: Write, E: Write, V: Watcher, P: Progress>(
    alloc: Global,
    file: &[u8],
    arguments: &[String],
    variables: &[String],
    wanted: u64,
    limit: u64,
    profile: HartProfile,
    environment: &mut Linux<R, W, E>,
    watcher: &mut V,
    progress: &mut P,
) -> Result<ProcessEnd, ImageError>
    ensures watched { IfOk result (λ end. WatchesProcess profile R.remaining W.contents E.contents
        V.sees V.wants file.now (map string_bytes arguments.now) (map string_bytes variables.now)
        wanted limit
        environment.old environment.new watcher.old watcher.new
        end.steps end.pc end.ending) }
    ensures ceiling { IsExecutableIn (unit_of profile) Virtual file.now
        → IfSome (memory_refusal file.now wanted) (λ error. result ≡ Err error) }
    ensures kept { OnErr result (environment.new ≡ environment.old) }
    ensures unseen { OnErr result (watcher.new ≡ watcher.old) }
    ensures refused { (refusal : ElfError)
        → first_refusal (checks_in (unit_of profile) Virtual file.now) ≡ Err refusal
        → IfErr result (λ error. error ≡ ImageError.Elf refusal) }
    ensures long { IsExecutableIn (unit_of profile) Virtual file.now
        → memory_refusal file.now wanted ≡ None
        → AreLong file.now (map string_bytes arguments.now) (map string_bytes variables.now) wanted
        → result ≡ Err ImageError.LongArguments }
    ensures otherwise { IsExecutableIn (unit_of profile) Virtual file.now
        → memory_refusal file.now wanted ≡ None
        → (AreLong file.now (map string_bytes arguments.now)
        (map string_bytes variables.now) wanted → ⊥)
        → IfErr result (λ error. error ≡ ImageError.OutOfMemory) }
{
    let LoadedProcess { image, memory } = load_process(
        alloc, file, arguments, variables, wanted, profile,
    )?;
    Ok(watch_image(
        image,
        memory,
        limit,
        profile,
        environment,
        watcher,
        progress,
    ))
}
