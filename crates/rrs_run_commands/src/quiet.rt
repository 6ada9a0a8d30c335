//! A run of which only the end is printed.

ghost use Rattle.std.specs.Prelude.{OnOk, IfErr};
ghost use Rattle.rrs_run_commands.specs.Quiet.{QuietAccount, StopsQuietRun};

use rrs_cli::fault::RunFault;
use rrs_cli::loading::load;
use rrs_cli::report::print_ending;
use rrs_cli::simulation::WORDS;
use rrs_exec::DECODED_WORDS;
use rrs_fast::{CachedMemory, run_cached};
use rrs_lib::HartState;
use rrs_lib::instruction_executor::InstructionExecutor;
use std::alloc::Global;
use std::io::{Read, Write};

/// Runs the reader's bytes as `simulate` does, and prints how the run ended and the registers, but
/// no instruction. The run is one call, over a memory that keeps decoded words.
///
/// # Errors
///
/// `RunFault::OutOfMemory` before anything is read or at the end of the run, and
/// `RunFault::Reader` and `RunFault::Refused` where the bytes can't be loaded: nothing is printed
/// then. `RunFault::Output` where a write or the flush fails: a beginning of the account is printed
/// then, up to all of it.
pub fn simulate_quietly<R: Read, W: Write>(
    alloc: Global,
    reader: &mut R,
    limit: u64,
    out: &mut W,
) -> Result<(), RunFault>
    ensures account { OnOk result (QuietAccount limit
        (R.remaining reader.old) (R.remaining reader.new)
        (W.contents out.old) (W.contents out.new)) }
    ensures fault { IfErr result (StopsQuietRun limit
        (R.remaining reader.old) (R.remaining reader.new)
        (W.contents out.old) (W.contents out.new)) }
{
    let memory = load(alloc, WORDS, reader)?;
    let mut cached: CachedMemory<_, DECODED_WORDS> = CachedMemory::new(memory);
    let mut hart = HartState::new();
    let mut executor = InstructionExecutor {
        mem: &mut cached,
        hart_state: &mut hart,
    };
    let end = run_cached(&mut executor, limit);
    print_ending(alloc, &end, executor.hart_state, out)
}
