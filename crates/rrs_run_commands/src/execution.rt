//! A program that makes system calls of Linux: the memory that it is loaded into, and its run.

ghost use Rattle.std.specs.Prelude.{◌≡◌, IfOk, IfErr, OnErr};
ghost use Rattle.rrs_cli.specs.Faults.{StopsLoadInto};
ghost use Rattle.rrs_exec.specs.Processes.{Executing};
ghost use Rattle.rrs_linux.specs.SystemCalls.{Serves};
ghost use Rattle.rrs_run_commands.specs.Execution.{ExecutesProgram};

use crate::executables::{hart_for, tell};
use crate::files::read_program;
use crate::refusal::{Refusal, unloaded};
use crate::requests::Request;
use rrs_cli::fault::RunFault;
use rrs_cli::loading::load;
use rrs_exec::{DECODED_WORDS, InPieces, ProcessEnd, Progress};
use rrs_fast::{CachedMemory, Ending, OwnHart, ServedEnd, run_served};
use rrs_hart::HartProfile;
use rrs_lib::HartState;
use rrs_lib::instruction_executor::InstructionExecutor;
use rrs_linux::Linux;
use std::alloc::Global;
use std::io::{Read, Write};
use std::rt::Files;

/// The number of words of the memory.
const WORDS: usize = 262_144;
/// The address after the memory, where sp starts.
const MEMORY_END: u32 = 0x0010_0000;
/// Where a program's break starts.
pub const HEAP_START: u32 = 0x0008_0000;
/// The highest break of a program. What lies above is for its stack.
pub const HEAP_END: u32 = 0x000c_0000;

/// Runs a reader's bytes as a program, and serves its system calls, for `limit` steps or until it
/// ends or raises an exception. Its hart has the layers of the profile. The end has the steps that
/// were made and the pc after them. The progress is told of its steps, and of its end.
///
/// # Errors
///
/// `RunFault::OutOfMemory` before anything is read. `RunFault::Reader` and `RunFault::Refused`
/// where the bytes can't be loaded. No step is made then, and the environment is as it was.
pub fn execute<F: Read, R: Read, W: Write, E: Write, P: Progress>(
    alloc: Global,
    program: &mut F,
    limit: u64,
    profile: HartProfile,
    environment: &mut Linux<R, W, E>,
    progress: &mut P,
) -> Result<ProcessEnd, RunFault>
    ensures executed { IfOk result (λ end. ExecutesProgram
        (Executing (Serves R.remaining W.contents E.contents) profile) limit
        (F.remaining program.old) (F.remaining program.new) environment.old environment.new
        end.steps end.pc end.ending) }
    ensures fault { IfErr result
        (StopsLoadInto 262144 (F.remaining program.old) (F.remaining program.new)) }
    ensures kept { OnErr result (environment.new ≡ environment.old) }
{
    let memory = load(alloc, WORDS, program)?;
    let mut cached: CachedMemory<_, DECODED_WORDS> = CachedMemory::new(memory);
    let mut hart = HartState::new();
    hart.registers[2] = MEMORY_END;
    let mut executor = InstructionExecutor {
        mem: &mut cached,
        hart_state: &mut hart,
    };
    let mut runner = InPieces {
        runner: OwnHart {
            profile,
            reservation: None,
        },
        progress: &mut *progress,
    };
    let end = run_served(&mut runner, &mut executor, environment, limit);
    let ServedEnd { steps, ending } = end;
    progress.end();
    let pc = executor.hart_state.pc;
    Ok(ProcessEnd { ending, steps, pc })
}

/// Runs the bytes of a file as `execute` does, for a request. Of a fault and of the limit it is told
/// on standard error where it was, and after how many steps.
///
/// # Errors
///
/// Those of `read_program`, `Refusal::File` where it is too long, and out of memory as a failure.
pub fn execute_file<'a, H: Files + Eprint + AllocGlobal, R: Read, W: Write, E: Write, P: Progress>(
    rt: &H,
    request: Request<'a>,
    environment: &mut Linux<R, W, E>,
    progress: &mut P,
) -> Result<Ending, Refusal<'a>> {
    let file = read_program(rt, request.path())?;
    match execute(
        rt.alloc(),
        &mut file.as_slice(),
        request.limit,
        hart_for(b"", request),
        environment,
        progress,
    ) {
        Ok(end) => {
            tell(rt, "rrs exec", b"", environment.heap, &end);
            Ok(end.ending)
        }
        Err(fault) => Err(unloaded(request.path(), fault)),
    }
}
