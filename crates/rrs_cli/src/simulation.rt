//! The account of a run: each instruction before its step, how it ended, and the registers.

ghost use Rattle.std.specs.Prelude.{◌≡◌, IfOk, OnOk, IfErr};
ghost use Rattle.rrs_lib.specs.Executor.{state_in};
ghost use Rattle.rrs_lib.specs.Steps.{Step};
ghost use Rattle.rrs_cli.specs.Account.{Account, AccountOf, PartOfAccount, PrintsRun, PrintsToNext, StopsRun, LinesBefore, LinesOfWord, PrintsUntil};
ghost use Rattle.rrs_cli.specs.Printed.{AppendsLines};
ghost use Rattle.rrs_cli.specs.Faults.{StopsPrinting};

use crate::fault::RunFault;
use crate::loading::load;
use crate::report;
use rrs_lib::disassembly::Disassembled;
use rrs_lib::instruction::decode;
use rrs_lib::instruction_executor::{InstructionException, InstructionExecutor, RunEnd};
use rrs_lib::{HartState, Memory};
use std::alloc::Global;
use std::io::{Read, Write};

/// The number of words of the memory.
pub const WORDS: usize = 16384;

/// Runs the reader's bytes as a program, for `limit` steps or up to the first exception, and prints
/// its account: each instruction before its step, how the run ended, and the registers.
///
/// # Errors
///
/// `RunFault::Reader` and `RunFault::Refused` where the bytes can't be loaded: nothing is printed
/// then. `RunFault::OutOfMemory` before anything is read or printed, or at the end of the run: then
/// the instructions of its steps are printed, and nothing else. `RunFault::Output` where a write or
/// the flush fails: a beginning of the account is printed then, up to all of it.
pub fn simulate<R: Read, W: Write>(
    alloc: Global,
    reader: &mut R,
    limit: u64,
    out: &mut W,
) -> Result<(), RunFault>
    ensures account { OnOk result (Account limit
        (R.remaining reader.old) (R.remaining reader.new)
        (W.contents out.old) (W.contents out.new)) }
    ensures fault { IfErr result (StopsRun limit
        (R.remaining reader.old) (R.remaining reader.new)
        (W.contents out.old) (W.contents out.new)) }
{
    let mut memory = load(alloc, WORDS, reader)?;
    let mut hart = HartState::new();
    let mut executor = InstructionExecutor {
        mem: &mut memory,
        hart_state: &mut hart,
    };
    print_account(&mut executor, alloc, limit, out)
}

/// Makes steps up to the limit or the first exception, and prints the account of them.
fn print_account<M: Memory, W: Write>(
    executor: &mut InstructionExecutor<M>,
    alloc: Global,
    limit: u64,
    out: &mut W,
) -> Result<(), RunFault>
    ensures account { OnOk result (AppendsLines
        (AccountOf limit (state_in M.bytes M.writable executor.old))
        (W.contents out.old) (W.contents out.new)) }
    ensures fault { IfErr result (StopsPrinting
        (PrintsRun limit (state_in M.bytes M.writable executor.old))
        (PartOfAccount limit (state_in M.bytes M.writable executor.old))
        (W.contents out.old) (W.contents out.new)) }
{
    let end = trace(executor, limit, out)?;
    report::print_ending(alloc, &end, executor.hart_state, out)
}

/// Makes steps as `InstructionExecutor::run` does, and prints each instruction before its step.
///
/// The word at the pc is so read twice: here, to print its text from the bytes that are there
/// before the step, and again by the step, which may write over them.
fn trace<M: Memory, W: Write>(
    executor: &mut InstructionExecutor<M>,
    limit: u64,
    out: &mut W,
) -> Result<RunEnd, RunFault>
    ensures printed { IfOk result (λ end. AppendsLines
        (PrintsUntil limit (state_in M.bytes M.writable executor.old)
        end.steps end.exception (state_in M.bytes M.writable executor.new))
        (W.contents out.old) (W.contents out.new)) }
    ensures fault { IfErr result (StopsPrinting (λ _. ⊥)
        (PrintsToNext limit (state_in M.bytes M.writable executor.old))
        (W.contents out.old) (W.contents out.new)) }
{
    for steps in 0..limit {
        print_next(executor, out)?;
        if let Err(exception) = step(executor) {
            let exception = Some(exception);
            return Ok(RunEnd { steps, exception });
        }
    }
    Ok(RunEnd {
        steps: limit,
        exception: None,
    })
}

/// Prints the text of the word at the program counter, if it is one of the table.
fn print_next<M: Memory, W: Write>(
    executor: &mut InstructionExecutor<M>,
    out: &mut W,
) -> Result<(), RunFault>
    ensures printed { OnOk result (AppendsLines
        (LinesBefore (state_in M.bytes M.writable executor.old))
        (W.contents out.old) (W.contents out.new)) }
    ensures kept { state_in M.bytes M.writable executor.new
        ≡ state_in M.bytes M.writable executor.old }
    ensures fault { IfErr result (StopsPrinting (λ _. ⊥)
        (LinesBefore (state_in M.bytes M.writable executor.old))
        (W.contents out.old) (W.contents out.new)) }
{
    match executor.word_at_pc() {
        Some(word) => print_instruction(executor.hart_state.pc, word, out),
        None => Ok(()),
    }
}

/// Prints the text of a word at a pc, if it is one of the table.
fn print_instruction<W: Write>(pc: u32, word: u32, out: &mut W) -> Result<(), RunFault>
    ensures printed { OnOk result (AppendsLines (LinesOfWord pc word)
        (W.contents out.old) (W.contents out.new)) }
    ensures fault { IfErr result (StopsPrinting (λ _. ⊥) (LinesOfWord pc word)
        (W.contents out.old) (W.contents out.new)) }
{
    match decode(word) {
        None => Ok(()),
        Some(instruction) => {
            let text = Disassembled { instruction, pc }.text();
            let line = report::line_of(pc, &text);
            report::write_text(out, line.as_str().as_bytes())
        }
    }
}

/// Makes one step: a slice of one, since what the library claims as a whole is the contract of
/// `step_each`, and the program stands on that call.
fn step<M: Memory>(executor: &mut InstructionExecutor<M>) -> Result<(), InstructionException>
    ensures { Step (state_in M.bytes M.writable executor.old)
        (state_in M.bytes M.writable executor.new) result }
{
    let mut answers = [Ok(())];
    executor.step_each(&mut answers);
    let [answer] = answers;
    answer
}
