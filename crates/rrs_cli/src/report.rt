//! The lines that are printed of a run.
//!
//! Each text is made in memory first and then written, so that what is in the output is known after
//! a failure too: nothing of a text that could not be made, and a beginning of one that could not
//! be written. The line of an instruction is made in a buffer that it always fits, so that no step
//! allocates.

ghost use Rattle.std.specs.Prelude.{◌≡◌, ◌<◌, [], ℕ, Bool, Option, IfOk, OnOk, IfErr, IsOkUnless};
ghost use Rattle.std.specs.Io.KnownBytes.{Appends, Keeps};
ghost use Rattle.rrs_lib.specs.Machine.{state_of};
ghost use Rattle.rrs_cli.specs.Faults.{StopsPrinting};
ghost use Rattle.rrs_cli.specs.Texts.{instruction_line, reason_text, steps_text, end_line, register_line, pc_line, hart_lines, ending_lines};

use crate::fault::RunFault;
use arrayvec::ArrayString;
use rrs_lib::HartState;
use rrs_lib::disassembly::{InstructionText, hexadecimal_digits};
use rrs_lib::instruction_executor::{InstructionException, RunEnd};
use std::alloc::Global;
use std::io;
use std::io::{ErrorKind, Write};

/// The number of registers.
const REGISTERS: usize = 32;

/// The number of bytes of the longest line of an instruction: 8 digits of its address, 74 bytes of
/// its text, and 5 around them.
const LINE_CAPACITY: usize = 87;

/// The line of an instruction's text and its address.
pub fn line_of(pc: u32, text: &InstructionText) -> ArrayString<LINE_CAPACITY>
    ensures { result.bytes ≡ instruction_line pc text.now.bytes }
{
    let mut line = ArrayString::new();
    line.push_str("0x");
    line.push_str(hexadecimal_digits(8, pc).as_str());
    line.push_str(": ");
    line.push_str(text.as_str());
    line.push_str("\n");
    line
}

/// Prints how a run ended and the registers that it left, and flushes the output.
///
/// # Errors
///
/// `RunFault::OutOfMemory`, out of memory for the text: nothing is printed then.
/// `RunFault::Output` where a write or the flush fails: a beginning of the text is printed then.
pub fn print_ending<W: Write>(
    alloc: Global,
    end: &RunEnd,
    hart: &HartState,
    out: &mut W,
) -> Result<(), RunFault>
    ensures printed { (bytes : ℕ → Option ℕ) (writable : ℕ → Bool)
        → OnOk result (Appends (W.contents out.old) (W.contents out.new)
        (ending_lines end.now.steps end.now.exception (state_of hart.now bytes writable))) }
    ensures fault { (bytes : ℕ → Option ℕ) (writable : ℕ → Bool)
        → IfErr result (StopsPrinting (λ lines. lines ≡ [])
        (λ lines. lines
        ≡ ending_lines end.now.steps end.now.exception (state_of hart.now bytes writable))
        (W.contents out.old) (W.contents out.new)) }
{
    let ending = ending_of(alloc, end, hart)?;
    write_text(out, &ending)?;
    flush(out)
}

/// The text of how a run ended, and of the registers that it left.
///
/// # Errors
///
/// `RunFault::OutOfMemory`, out of memory for the text.
fn ending_of(alloc: Global, end: &RunEnd, hart: &HartState) -> Result<Vec<u8>, RunFault>
    ensures text { (bytes : ℕ → Option ℕ) (writable : ℕ → Bool)
        → IfOk result (λ text. text.items
        ≡ ending_lines end.now.steps end.now.exception (state_of hart.now bytes writable)) }
    ensures fault { IsOkUnless result RunFault.OutOfMemory }
{
    let mut text = Vec::new(alloc);
    match write_ending(&mut text, end, hart) {
        Ok(()) => Ok(text),
        Err(_) => Err(RunFault::OutOfMemory),
    }
}

/// Writes how a run ended, and the registers.
fn write_ending<W: Write>(out: &mut W, end: &RunEnd, hart: &HartState) -> io::Result<()>
    ensures { (bytes : ℕ → Option ℕ) (writable : ℕ → Bool)
        → OnOk result (Appends (W.contents out.old) (W.contents out.new)
        (ending_lines end.now.steps end.now.exception (state_of hart.now bytes writable))) }
{
    print_end(out, end)?;
    print_hart(out, hart)
}

/// Writes a text.
///
/// # Errors
///
/// `RunFault::Output` where a write fails. A beginning of the text is written then.
pub fn write_text<W: Write>(out: &mut W, text: &[u8]) -> Result<(), RunFault>
    ensures ok { OnOk result (Appends (W.contents out.old) (W.contents out.new) text.now) }
    ensures fault { IfErr result (StopsPrinting (λ _. ⊥) (λ lines. lines ≡ text.now)
        (W.contents out.old) (W.contents out.new)) }
{
    let mut written = 0;
    for _ in 0..u64::MAX {
        if written == text.len() {
            return Ok(());
        }
        match out.write(&text[written..]) {
            Ok(0) => return Err(RunFault::Output),
            Ok(count) => written += count,
            Err(error) => {
                if error.kind() != ErrorKind::Interrupted {
                    return Err(RunFault::Output);
                }
            }
        }
    }
    Err(RunFault::Output)
}

/// Flushes the output.
///
/// # Errors
///
/// `RunFault::Output` where the flush fails.
pub fn flush<W: Write>(out: &mut W) -> Result<(), RunFault>
    ensures kept { Keeps (W.contents out.old) (W.contents out.new) }
    ensures fault { IsOkUnless result RunFault.Output }
{
    out.flush().map_err(|_| RunFault::Output)
}

/// Prints how a run ended.
#[tactic(auto, using(crate::proofs::Printing::appending))]
fn print_end<W: Write>(out: &mut W, end: &RunEnd) -> io::Result<()>
    ensures { OnOk result (Appends (W.contents out.old) (W.contents out.new)
        (end_line end.now.steps end.now.exception)) }
{
    print_reason(out, &end.exception)?;
    print_steps(out, end.steps)
}

/// Prints how many steps were made.
fn print_steps<W: Write>(out: &mut W, steps: u64) -> io::Result<()>
    ensures { OnOk result
        (Appends (W.contents out.old) (W.contents out.new) (steps_text steps)) }
{
    writeln!(out, ", steps {steps}")
}

/// Prints why a run ended.
fn print_reason<W: Write>(out: &mut W, exception: &Option<InstructionException>) -> io::Result<()>
    ensures { OnOk result
        (Appends (W.contents out.old) (W.contents out.new) (reason_text exception.now)) }
{
    match exception {
        None => write!(out, "end: limit"),
        Some(exception) => write!(out, "end: {exception}"),
    }
}

/// Prints the registers and the program counter.
fn print_hart<W: Write>(out: &mut W, hart: &HartState) -> io::Result<()>
    ensures { (bytes : ℕ → Option ℕ) (writable : ℕ → Bool)
        → OnOk result (Appends (W.contents out.old) (W.contents out.new)
        (hart_lines (state_of hart.now bytes writable))) }
{
    for index in 0..REGISTERS {
        print_register(out, hart, index)?;
    }
    print_pc(out, hart.pc)
}

/// Prints the program counter.
#[tactic(auto, using(crate::proofs::Digits::padded_eight))]
fn print_pc<W: Write>(out: &mut W, pc: u32) -> io::Result<()>
    ensures { OnOk result (Appends (W.contents out.old) (W.contents out.new) (pc_line pc)) }
{
    writeln!(out, "pc 0x{pc:08x}")
}

/// Prints a register.
#[tactic(auto, using(crate::proofs::Digits::padded_eight))]
fn print_register<W: Write>(out: &mut W, hart: &HartState, index: usize) -> io::Result<()>
    requires { index < 32 }
    ensures { (bytes : ℕ → Option ℕ) (writable : ℕ → Bool)
        → OnOk result (Appends (W.contents out.old) (W.contents out.new)
        (register_line (state_of hart.now bytes writable) index)) }
{
    let value = hart.read_register(index);
    writeln!(out, "x{index} 0x{value:08x}")
}
