//! Spike's commit log of a board.

ghost use Rattle.std.specs.Prelude.{◌≡◌, ◌+◌, ◌≤◌, ◌++◌, [], ◌∷◌, length, IfOk, Some, true, false};
ghost use Rattle.rrs_board.specs.declared.effects.BoardEvent.{BoardEvent};
ghost use Rattle.rrs_board.specs.Effects.{waits_for_input};
ghost use Rattle.rrs_reports.specs.BoardLogs.{csr_text, exception_name, interrupt_name, trap_text, has_value, value_line, value_text, retired_text, board_entry, TracesBoard};

use crate::commit_log::{
    CommitLine, CommitLog, LINE_CAPACITY, LogWindow, push_access, push_committed, push_word,
};
use arrayvec::ArrayString;
use itoa::Buffer;
use rrs_board::{
    Board, BoardEnd, BoardInput, BoardWatcher, RecordedStep, TerminalError, WatchedRuns,
    run_at_terminal,
};
use rrs_machine::{CsrAccess, Exception, Interrupt, MachineAnswer, MachineRetired};
use rrs_words::csr_name;
use std::io::Write;

/// Appends the CSR that was written, if one was, and its value.
fn push_csr(line: &mut CommitLine, access: &CsrAccess)
    requires { length line.old.bytes + 46 ≤ LINE_CAPACITY }
    ensures bytes { line.new.bytes ≡ line.old.bytes ++ csr_text access.now }
    ensures length { length line.new.bytes ≤ length line.old.bytes + 46 }
{
    if access.wmask == 0 {
        return;
    }
    let mut buffer = Buffer::new();
    line.push_str(" c");
    line.push_str(buffer.format(access.addr));
    line.push_str("_");
    line.push_str(csr_name(access.addr).as_str());
    push_word(line, " 0x", 8, access.wdata);
}

/// The line of an instruction that retired.
fn retired_line(record: &MachineRetired) -> CommitLine
    ensures { result.bytes ≡ retired_text record.now.retired.insn record.now }
{
    let mut line = ArrayString::new();
    if let Some(word) = record.retired.insn {
        push_committed(&mut line, record.mode, word, &record.retired);
        push_csr(&mut line, &record.csr);
        push_access(&mut line, &record.retired.mem);
    }
    line
}

/// Spike's name of an exception.
fn exception_name(exception: Exception) -> &'static str
    ensures name { result.now ≡ exception_name exception }
    ensures length { length result.now ≤ 35 }
{
    match exception {
        Exception::InstructionMisaligned(_) => "trap_instruction_address_misaligned",
        Exception::InstructionFault(_) => "trap_instruction_access_fault",
        Exception::IllegalInstruction(_) => "trap_illegal_instruction",
        Exception::Breakpoint(_) => "trap_breakpoint",
        Exception::LoadMisaligned(_) => "trap_load_address_misaligned",
        Exception::LoadFault(_) => "trap_load_access_fault",
        Exception::StoreMisaligned(_) => "trap_store_address_misaligned",
        Exception::StoreFault(_) => "trap_store_access_fault",
        Exception::UserEnvironmentCall => "trap_user_ecall",
        Exception::EnvironmentCall => "trap_machine_ecall",
    }
}

/// Appends the name of a trap, and its pc.
fn push_trap(line: &mut CommitLine, name: &str, pc: u32)
    requires empty { line.old.bytes ≡ [] }
    requires room { length name.now ≤ 35 }
    ensures bytes { line.new.bytes ≡ trap_text name.now pc }
    ensures length { length line.new.bytes ≤ 72 }
{
    line.push_str("core   0: exception ");
    line.push_str(name);
    push_word(line, ", epc 0x", 8, pc);
    line.push_str("\n");
}

/// Whether an exception has a value: it is no `ecall`.
fn has_value(exception: Exception) -> bool
    ensures { result ≡ has_value exception }
{
    !matches!(
        exception,
        Exception::UserEnvironmentCall | Exception::EnvironmentCall
    )
}

/// Appends the line of what `mtval` has.
fn push_value(line: &mut CommitLine, value: u32)
    requires { length line.old.bytes ≤ 72 }
    ensures { line.new.bytes ≡ line.old.bytes ++ value_line value }
{
    push_word(line, "core   0:           tval 0x", 8, value);
    line.push_str("\n");
}

/// The lines of an exception.
fn exception_lines(exception: Exception, pc: u32) -> CommitLine
    ensures { result.bytes ≡ trap_text (exception_name exception) pc ++ value_text exception }
{
    let mut line = ArrayString::new();
    push_trap(&mut line, exception_name(exception), pc);
    if has_value(exception) {
        push_value(&mut line, exception.value());
    }
    line
}

/// Spike's name of an interrupt.
fn interrupt_name(interrupt: Interrupt) -> &'static str
    ensures name { result.now ≡ interrupt_name interrupt }
    ensures length { length result.now ≤ 13 }
{
    match interrupt {
        Interrupt::Software => "interrupt #3",
        Interrupt::Timer => "interrupt #7",
        Interrupt::External => "interrupt #11",
    }
}

/// The line of an interrupt.
fn interrupt_line(interrupt: Interrupt, pc: u32) -> CommitLine
    ensures { result.bytes ≡ trap_text (interrupt_name interrupt) pc }
{
    let mut line = ArrayString::new();
    push_trap(&mut line, interrupt_name(interrupt), pc);
    line
}

/// The lines of a step.
fn step_lines(step: &RecordedStep) -> CommitLine
    ensures { result.bytes ≡ (board_entry step.now).lines }
{
    let pc = step.retired.retired.pc_rdata;
    match step.step.answer {
        MachineAnswer::Raised(exception) => exception_lines(exception, pc),
        MachineAnswer::Interrupted(interrupt) => interrupt_line(interrupt, pc),
        MachineAnswer::Retired | MachineAnswer::Waiting => retired_line(&step.retired),
    }
}

impl<'a, W: Write> BoardWatcher for CommitLog<'a, W> {
    ghost use Rattle.rrs_reports.specs.CommitLogs.{Logs, wants_lines};
    ghost use Rattle.rrs_reports.specs.BoardLogs.{board_entry};

    ghost sees = { λ old step new. Logs W.contents old (board_entry step) new };

    ghost wants = { wants_lines };

    fn see_step(&mut self, step: &RecordedStep) {
        let retired = &step.retired.retired;
        if !self.shows(retired.pc_rdata, retired.order) || self.is_broken {
            return;
        }
        self.write(step_lines(step).as_str());
    }

    fn wants_more(&self) -> bool {
        !self.is_broken
    }
}

/// Why the log of a board was not written.
#[derive(Debug, PartialEq, Clone, Copy)]
pub enum BoardTraceError {
    /// The board was stopped at its terminal.
    Terminal(TerminalError),
    /// A write of the log failed, which ended the run.
    Log,
}

/// Runs a board as [run_at_terminal](rrs_board::run_at_terminal) does, and writes the commit log:
/// a line for each instruction that retires, and the lines of each exception and interrupt, of the
/// steps that the window has.
///
/// The clauses: the log has the lines of the steps of the session (`traced`), and where the input
/// is polled no session ends at a wait for it (`polled`).
///
/// # Errors
///
/// Those of `run_at_terminal`, and a write of the log that fails.
pub fn trace_board<I: BoardInput, W: Write, O: Write>(
    board: &mut Board,
    limit: u64,
    is_polled: bool,
    input: &mut I,
    output: &mut W,
    window: LogWindow,
    out: &mut O,
) -> Result<BoardEnd, BoardTraceError>
    ensures traced { IfOk result (λ end. TracesBoard I.says I.remaining is_polled limit board.old
        input.old input.new (W.contents output.old) (W.contents output.new)
        end.steps end.event board.new window (O.contents out.old) (O.contents out.new)) }
    ensures polled { is_polled ≡ true → IfOk result (λ end.
        end.event ≡ Some BoardEvent.NothingWakes
        → waits_for_input board.new.memory.devices ≡ false) }
{
    let mut runs = WatchedRuns {
        watcher: CommitLog {
            out,
            window,
            is_broken: false,
        },
        is_first: false,
    };
    let run = run_at_terminal(&mut runs, board, limit, is_polled, input, output);
    let is_broken = runs.watcher.is_broken;
    match run {
        Err(error) => Err(BoardTraceError::Terminal(error)),
        Ok(end) => {
            if is_broken {
                return Err(BoardTraceError::Log);
            }
            Ok(end)
        }
    }
}
