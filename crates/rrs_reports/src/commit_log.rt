//! Spike's commit log.

ghost use Rattle.std.specs.Prelude.{◌≡◌, ◌+◌, ◌≤◌, ◌++◌, [], length, codes, map, string_bytes, IfOk, OnErr};
ghost use Rattle.rrs_lib.specs.Texts.{hexadecimal};
ghost use Rattle.rrs_reports.specs.CommitLogs.{committed, written_text, store_digits, word_digits, mode_text, committed_text, access_text, commit_text, TracesProcess};

use arrayvec::ArrayString;
use itoa::Buffer;
use rrs_exec::{ImageError, KeptMemory, ProcessEnd, Progress, Watcher, watch_process};
use rrs_hart::HartProfile;
use rrs_lib::disassembly::hexadecimal_digits;
use rrs_lib::instruction_executor::{InstructionException, InstructionExecutor};
use rrs_linux::Linux;
use rrs_trace::{MemoryAccess, Retired, step_hart_retired};
use std::alloc::Global;
use std::io::{Read, Write};

/// The number of bytes of the longest line, that of a write of a CSR beside an access of memory.
pub(crate) const LINE_CAPACITY: usize = 160;

/// The word of `ecall`.
pub(crate) const ECALL: u32 = 0x73;

/// A line of a commit log, which lies in the value itself.
pub type CommitLine = ArrayString<LINE_CAPACITY>;

/// The word that was committed by a step, or `None` after an exception that is no `ecall`, which a
/// run that is served retires.
pub fn committed_word(retired: &Retired) -> Option<u32>
    ensures { result ≡ committed retired.now }
{
    if !retired.trap {
        return retired.insn;
    }
    match retired.insn {
        Some(word) if word == ECALL => Some(word),
        _ => None,
    }
}

/// Appends a text and a word in hexadecimal. It is a part of its caller, where the text and the
/// number of digits are known, so that both are copied by moves.
#[inline(always)]
pub(crate) fn push_word(line: &mut CommitLine, before: &str, least: usize, word: u32)
    requires least { least ≤ 8 }
    requires room { length line.old.bytes + length before.now + 8 ≤ LINE_CAPACITY }
    ensures bytes { line.new.bytes ≡ line.old.bytes ++ before.now ++ hexadecimal least word }
    ensures length { length line.new.bytes
        ≤ length line.old.bytes + length before.now + 8 }
{
    line.push_str(before);
    line.push_str(hexadecimal_digits(least, word).as_str());
}

/// Appends the register that was written, if one was, and its value.
fn push_written(line: &mut CommitLine, register: usize, value: u32)
    requires { length line.old.bytes + 34 ≤ LINE_CAPACITY }
    ensures bytes { line.new.bytes ≡ line.old.bytes ++ written_text register value }
    ensures length { length line.new.bytes ≤ length line.old.bytes + 34 }
{
    if register == 0 {
        return;
    }
    let mut buffer = Buffer::new();
    line.push_str(" x");
    line.push_str(buffer.format(register));
    if register < 10 {
        line.push_str(" ");
    }
    push_word(line, " 0x", 8, value);
}

/// How many digits the value of a store has.
fn digits_of(mask: u8) -> usize
    ensures value { result ≡ store_digits mask }
    ensures small { result ≤ 8 }
{
    match mask {
        1 => 2,
        3 => 4,
        _ => 8,
    }
}

/// How many digits the word of an instruction has: half as many where it is compressed.
fn word_digits(word: u32) -> usize
    ensures value { result ≡ word_digits word }
    ensures small { result ≤ 8 }
{
    if word % 4 == 3 { 8 } else { 4 }
}

/// The digit of a privilege mode.
#[inline(always)]
fn mode_digit(mode: u8) -> &'static str
    ensures text { result.now ≡ mode_text mode }
    ensures length { length result.now ≡ 1 }
{
    if mode == 3 { "3" } else { "0" }
}

/// Appends what begins the line of a record whose word was committed in a mode.
#[inline(always)]
pub(crate) fn push_committed(line: &mut CommitLine, mode: u8, word: u32, retired: &Retired)
    requires { line.old.bytes ≡ [] }
    ensures bytes { line.new.bytes ≡ committed_text mode word retired.now }
    ensures length { length line.new.bytes ≤ 69 }
{
    line.push_str("core   0: ");
    line.push_str(mode_digit(mode));
    push_word(line, " 0x", 8, retired.pc_rdata);
    push_word(line, " (0x", word_digits(word), word);
    line.push_str(")");
    push_written(line, retired.rd_addr, retired.rd_wdata);
}

/// Appends the load and the store, if there were some, and what ends the line.
pub(crate) fn push_access(line: &mut CommitLine, access: &MemoryAccess)
    requires { length line.old.bytes + 42 ≤ LINE_CAPACITY }
    ensures { line.new.bytes ≡ line.old.bytes ++ access_text access.now }
{
    if access.rmask != 0 {
        push_word(line, " mem 0x", 8, access.addr);
    }
    if access.wmask != 0 {
        push_word(line, " mem 0x", 8, access.addr);
        push_word(line, " 0x", digits_of(access.wmask), access.wdata);
    }
    line.push_str("\n");
}

/// The line of a record of a process whose word was committed.
pub fn commit_line(word: u32, retired: &Retired) -> CommitLine
    ensures { result.bytes ≡ commit_text word retired.now }
{
    let mut line = ArrayString::new();
    push_committed(&mut line, 3, word, retired);
    push_access(&mut line, &retired.mem);
    line
}

/// The addresses from one to before another.
#[derive(Clone, Copy, Debug, PartialEq)]
pub struct CodeRange {
    /// The first.
    pub start: u32,
    /// The one after the last.
    pub end: u32,
}

/// The steps of a run after so many, up to this number of them.
#[derive(Clone, Copy, Debug, PartialEq)]
pub struct StepRange {
    /// How many steps are before them.
    pub before: u64,
    /// How many steps there are with them.
    pub until: u64,
}

/// Which steps of a run have lines in a log: those from the first one at an address on, up to the
/// next one at another, with both; and of these those in some code, and those of some numbers.
#[derive(Clone, Copy, Debug, PartialEq)]
pub struct LogWindow {
    /// The address from which on lines are written, if one is asked for and was not reached yet.
    pub from: Option<u32>,
    /// The address up to which they are written, if one is asked for.
    pub to: Option<u32>,
    /// Whether that was reached. No line is written then.
    pub is_over: bool,
    /// The code whose steps alone have lines, if it is not all.
    pub only: Option<CodeRange>,
    /// The steps that alone have lines, if not all have.
    pub steps: Option<StepRange>,
}

impl LogWindow {
    ghost use Rattle.std.specs.Prelude.{◌≡◌, ℕ, List};
    ghost use Rattle.rrs_reports.specs.CommitLogs.{in_code, in_steps, moved, shows};

    /// All steps.
    pub const ALL: LogWindow = LogWindow {
        from: None,
        to: None,
        is_over: false,
        only: None,
        steps: None,
    };

    /// Whether a step at an address is in the code whose steps have lines.
    #[inline(always)]
    fn has_code(&self, pc: u32) -> bool
        ensures { result ≡ in_code self.now.only pc }
    {
        match self.only {
            Some(range) => range.start <= pc && pc < range.end,
            None => true,
        }
    }

    /// Whether a step before which so many were made is one of those that have lines.
    #[inline(always)]
    fn has_number(&self, number: u64) -> bool
        ensures { result ≡ in_steps self.now.steps number }
    {
        match self.steps {
            Some(range) => range.before <= number && number < range.until,
            None => true,
        }
    }

    /// Whether the lines of a step at an address are written, before which so many steps were made,
    /// and then goes on behind it.
    #[inline(always)]
    fn shows(&mut self, pc: u32, number: u64) -> bool
        ensures window { self.new ≡ moved self.old pc }
        ensures shown { (lines : List ℕ)
            → result ≡ shows self.old (record { pc = pc; number = number; lines = lines }) }
    {
        if self.from == Some(pc) {
            self.from = None;
        }
        if self.is_over || self.from.is_some() {
            return false;
        }
        if self.to == Some(pc) {
            self.is_over = true;
        }
        self.has_code(pc) && self.has_number(number)
    }
}

/// A watcher that writes the commit log of a run.
#[derive(Drop)]
pub struct CommitLog<'a, W: Write> {
    /// What is written to.
    pub out: &'a mut W,
    /// Which steps from here on have lines.
    pub window: LogWindow,
    /// Whether a write failed. Nothing is written from then on, and the run ends.
    pub is_broken: bool,
}

impl<'a, W: Write> CommitLog<'a, W> {
    ghost use Rattle.std.specs.Prelude.{◌≡◌, ℕ, List, true, false};
    ghost use Rattle.std.specs.Io.KnownBytes.{Appends};
    ghost use Rattle.rrs_reports.specs.CommitLogs.{Logs, entry_of, moved, shows};

    /// Whether the lines of a step at an address are to be written, before which so many steps were
    /// made. They are written where the log is not broken.
    #[inline(always)]
    pub(crate) fn shows(&mut self, pc: u32, number: u64) -> bool
        ensures log { self.new ≡ record self.old { window = moved self.old.window pc } }
        ensures shown { (lines : List ℕ)
            → result ≡ shows self.old.window (record { pc = pc; number = number; lines = lines }) }
    {
        self.window.shows(pc, number)
    }

    /// Writes lines. Where that fails the log is broken.
    pub(crate) fn write(&mut self, lines: &str)
        ensures same_out { self.new.out.ghost_name ≡ self.old.out.ghost_name }
        ensures window { self.new.window ≡ self.old.window }
        ensures broken { self.old.is_broken ≡ true → self.new.is_broken ≡ true }
        ensures written { self.new.is_broken ≡ false
            → Appends (W.contents self.old.out.now) (W.contents self.new.out.now) lines.now }
    {
        if self.out.write_all(lines.as_bytes()).is_err() {
            self.is_broken = true;
        }
    }

    /// Writes the line of what a step retired.
    fn see(&mut self, retired: &Retired)
        ensures { Logs W.contents self.old (entry_of retired.now) self.new }
    {
        if !self.shows(retired.pc_rdata, retired.order) || self.is_broken {
            return;
        }
        if let Some(word) = committed_word(retired) {
            self.write(commit_line(word, retired).as_str());
        }
    }
}

impl<'a, W: Write> Watcher for CommitLog<'a, W> {
    ghost use Rattle.rrs_reports.specs.CommitLogs.{Logs, entry_of, wants_lines};

    ghost sees = { λ old retired new. Logs W.contents old (entry_of retired) new };

    ghost wants = { wants_lines };

    fn watch_step(
        &mut self,
        executor: &mut InstructionExecutor<KeptMemory>,
        reservation: &mut Option<u32>,
        profile: HartProfile,
        number: u64,
    ) -> Result<(), InstructionException> {
        let (answer, retired) = step_hart_retired(executor, reservation, profile, number);
        self.see(&retired);
        answer
    }

    fn wants_more(&self) -> bool {
        !self.is_broken
    }
}

/// Why the log of a run was not written.
#[derive(Debug, PartialEq, Drop)]
pub enum TraceError {
    /// The file can't be made a process. No step is made then, and no line is written.
    Image(ImageError),
    /// A write failed, which ended the run.
    Output,
}

/// Runs a file's bytes as [execute_process](rrs_exec::execute_process) does, and writes the commit
/// log: a line for each step that the window has. A load or a store at a misaligned address has its
/// whole access there.
///
/// # Errors
///
/// Those of `execute_process`, and a write that fails.
pub fn trace_process<R: Read, W: Write, E: Write, O: Write, P: Progress>(
    alloc: Global,
    file: &[u8],
    arguments: &[String],
    variables: &[String],
    wanted: u64,
    limit: u64,
    profile: HartProfile,
    environment: &mut Linux<R, W, E>,
    window: LogWindow,
    out: &mut O,
    progress: &mut P,
) -> Result<ProcessEnd, TraceError>
    ensures traced { IfOk result (λ end. TracesProcess profile R.remaining W.contents E.contents
        file.now (map string_bytes arguments.now) (map string_bytes variables.now) wanted limit
        environment.old environment.new end.steps end.pc end.ending
        window (O.contents out.old) (O.contents out.new)) }
{
    let mut log = CommitLog {
        out,
        window,
        is_broken: false,
    };
    let run = watch_process(
        alloc,
        file,
        arguments,
        variables,
        wanted,
        limit,
        profile,
        environment,
        &mut log,
        progress,
    );
    let is_broken = log.is_broken;
    match run {
        Err(error) => Err(TraceError::Image(error)),
        Ok(end) => {
            if is_broken {
                return Err(TraceError::Output);
            }
            Ok(end)
        }
    }
}
