//! What a session keeps beside the machine.

ghost use Rattle.std.specs.Prelude.{◌≡◌, ◌^◌, ◌++◌, ◌∷◌, [], take, true, false, None, IfOk, OnErr, OnOk};
ghost use Rattle.std.specs.Bool.{OnTrue, OnFalse};
ghost use Rattle.std.specs.Fmt.{digits};
ghost use Rattle.rrs_exec.specs.Processes.{process_profile};
ghost use Rattle.rrs_history.specs.Histories.{changes, room as room_of};
ghost use Rattle.rrs_linux.specs.Recording.{Recording};
ghost use Rattle.rrs_gdb.specs.Packets.{digits_of};
ghost use Rattle.rrs_gdb.specs.Shown.{named_text, stop_text};
ghost use Rattle.rrs_gdb.specs.declared.state.Stop.{Stop};
ghost use Rattle.rrs_gdb.specs.Sessions.{BreaksKept, IsCaught, IsError, PlacesKept, around, asked_by, forgotten, has_ended, stopped_at};

use crate::breaks::{Breaks, Watch};
use crate::framing::push_hex;
use circular_buffer::HeapCircularBuffer;
use rrs_exec::process_profile;
use rrs_fast::is_stop;
use rrs_hart::HartProfile;
use rrs_history::{History, newest};
use std::alloc::{AllocError, Global};

/// What `monitor` sets.
#[derive(Clone, Copy, Debug, PartialEq)]
pub struct Settings {
    /// The most steps of a `continue`.
    pub limit: u64,
    /// The most steps and parts of calls that are kept, of 32 bytes each.
    pub history: usize,
    /// Whether the program stops once where it is to exit.
    pub stops_at_exit: bool,
}

impl Settings {
    /// What holds where nothing is set: 10,000,000,000 steps, a history of 1,000,000, and a stop at
    /// the exit.
    pub fn new() -> Settings
        ensures limit { result.limit ≡ 10 ^ 10 }
        ensures history { result.history ≡ 10 ^ 6 }
        ensures stops { result.stops_at_exit ≡ true }
    {
        Settings {
            limit: 10_000_000_000,
            history: 1_000_000,
            stops_at_exit: true,
        }
    }
}

/// Where a program stopped, and why.
#[derive(Clone, Copy)]
pub(crate) enum Stop {
    /// By a signal, with gdb's number.
    Signal(u8),
    /// By an access to a watchpoint.
    Touched(Watch),
    /// At the begin of what the history keeps.
    AtBegin,
    /// Before a call of this number.
    Entry(u32),
    /// Behind a call of this number.
    Return(u32),
    /// It exited with this status.
    Exited(u8),
    /// It was killed by this signal.
    Killed(u8),
}

/// What there was before a call, or before a step of the hart that is kept as one.
#[derive(Clone, Copy)]
pub(crate) struct CallMark {
    /// How many bytes of the input were left.
    pub(crate) left: usize,
    /// The break.
    pub(crate) top: u32,
    /// How many bytes of output had been made.
    pub(crate) made: u64,
    /// The state of the pseudo-random numbers.
    pub(crate) random: u64,
    /// The address that was reserved.
    pub(crate) reservation: Option<u32>,
}

/// Which calls are caught.
#[derive(Drop)]
pub(crate) struct Caught {
    /// Whether all are.
    pub(crate) are_all: bool,
    /// The numbers of those that are.
    pub(crate) numbers: Vec<u32>,
}

/// What a session keeps beside the machine: where it stops, the history, and what was told.
#[derive(Drop)]
pub struct SessionState<'a> {
    /// Where the program stops.
    pub breaks: Breaks,
    /// The steps that can be taken back.
    pub history: History,
    /// What there was before each call that is kept, and before each step of the hart that is kept
    /// as one, the latest first.
    pub(crate) calls: HeapCircularBuffer<CallMark>,
    /// The profile of the program's hart.
    pub profile: HartProfile,
    /// The address that the program has reserved.
    pub(crate) reservation: Option<u32>,
    /// What `monitor` sets.
    pub settings: Settings,
    /// Which calls are caught.
    pub(crate) caught: Caught,
    /// How many steps were made, those that were taken back not among them.
    pub(crate) steps: u64,
    /// How many bytes of output were made, those of calls that were taken back not among them.
    pub(crate) made: u64,
    /// How many bytes of output were sent.
    pub(crate) sent: u64,
    /// Whether the call at the pc was told before it is made.
    pub(crate) has_entered: bool,
    /// Whether the exit at the pc was told.
    pub(crate) has_told_exit: bool,
    /// Where the program stopped last.
    pub(crate) stop: Stop,
    /// Whether the session goes on after the program's end.
    pub(crate) is_extended: bool,
    /// Whether gdb waits for where the program stopped.
    pub owes_stop: bool,
    /// The program's path.
    pub(crate) path: &'a [u8],
    /// The whole input of the program.
    pub(crate) input: &'a [u8],
    /// The arguments of the program that `vRun` gave, without its name.
    pub arguments: Vec<String>,
    /// Whether `vRun` gave arguments.
    pub has_arguments: bool,
}

impl<'a> SessionState<'a> {
    /// What a session begins with, for a program at a path and with an input: it made no step, as
    /// one that was trapped before its first, with no address reserved, on the usual hart of a
    /// process (`begins`), its history is empty and has the room that is set (`emptied`, `room`), and gdb asked for nothing (`asked`).
    ///
    /// # Errors
    ///
    /// Out of memory for the history.
    pub fn new(
        alloc: Global,
        settings: Settings,
        path: &'a [u8],
        input: &'a [u8],
    ) -> Result<SessionState<'a>, AllocError>
        ensures settings { IfOk result (λ state. state.settings ≡ settings) }
        ensures begins { IfOk result (λ state. (state.steps ≡ 0) × (state.stop ≡ Stop.Signal 5)
            × (state.has_entered ≡ false) × (state.has_told_exit ≡ false)
            × (state.reservation ≡ None) × (state.profile ≡ process_profile false)) }
        ensures emptied { IfOk result (λ state. changes state.history ≡ []) }
        ensures room { IfOk result (λ state. room_of state.history ≡ settings.history) }
        ensures asked { IfOk result (λ state. (state.breaks.stops.items ≡ [])
            × (state.breaks.watches.items ≡ []) × (state.caught.are_all ≡ false)
            × (state.caught.numbers.items ≡ [])) }
        ensures program { IfOk result (λ state. (state.path.now ≡ path.now)
            × (state.input.now ≡ input.now)) }
        ensures replies { IfOk result (λ state. (state.owes_stop ≡ false)
            × (state.is_extended ≡ false) × (state.has_arguments ≡ false)
            × (state.arguments.items ≡ [])) }
        ensures output { IfOk result (λ state. (state.made ≡ 0) × (state.sent ≡ 0)) }
    {
        Ok(SessionState {
            breaks: Breaks::new(alloc),
            history: History::new(alloc, settings.history)?,
            calls: HeapCircularBuffer::with_capacity(alloc, settings.history)?,
            profile: process_profile(false),
            reservation: None,
            settings,
            caught: Caught {
                are_all: false,
                numbers: Vec::new(alloc),
            },
            steps: 0,
            made: 0,
            sent: 0,
            has_entered: false,
            has_told_exit: false,
            stop: Stop::Signal(5),
            is_extended: false,
            owes_stop: false,
            path,
            input,
            arguments: Vec::new(alloc),
            has_arguments: false,
        })
    }

    /// Forgets what was of the program, which begins again.
    ///
    /// The history is empty (`emptied`). What gdb asked for stays: breakpoints, watchpoints,
    /// settings and calls that are caught (`kept`). The program has not ended: it stands as one
    /// that was trapped before its first step, no address is reserved, and nothing was told of the
    /// call at its pc (`goes_on`, `around`). No steps are counted, and no output (`counted`,
    /// `output`).
    pub fn begin_again(&mut self)
        ensures emptied { changes self.new.history ≡ [] }
        ensures kept { PlacesKept self.old self.new }
        ensures goes_on { has_ended self.new ≡ false }
        ensures around { (environment : Recording) → around self.new environment
            ≡ record (stopped_at (forgotten (around self.old environment)) (Stop.Signal 5)) {
              reserved = None;
            } }
        ensures counted { self.new.steps ≡ 0 }
        ensures output { (self.new.made ≡ 0) × (self.new.sent ≡ 0) }
    {
        self.forget();
        self.reservation = None;
        self.steps = 0;
        self.made = 0;
        self.sent = 0;
        self.stop = Stop::Signal(5);
    }

    /// Whether the program has ended: it exited, or a signal killed it.
    pub fn has_ended(&self) -> bool
        ensures { result ≡ has_ended self.now }
    {
        matches!(self.stop, Stop::Exited(_) | Stop::Killed(_))
    }

    /// Forgets the history, as after a change that is not kept.
    pub(crate) fn forget(&mut self)
        ensures kept { PlacesKept self.old self.new }
        ensures emptied { changes self.new.history ≡ [] }
        ensures forgotten { (environment : Recording)
            → around self.new environment ≡ forgotten (around self.old environment) }
    {
        self.history.clear();
        self.calls.clear();
        self.has_entered = false;
        self.has_told_exit = false;
    }

    /// Sets how much is kept. Of what was kept the latest stays, as much as there is room for: the
    /// changes, and what the environment had before each call.
    ///
    /// # Errors
    ///
    /// Out of memory. Then all is as it was.
    pub(crate) fn set_history(&mut self, alloc: Global, room: usize) -> Result<(), AllocError>
        ensures breaks { BreaksKept self.old self.new }
        ensures set { OnOk result (self.new.settings
            ≡ record self.old.settings { history = room }) }
        ensures kept { OnOk result (changes self.new.history
            ≡ take room (changes self.old.history)) }
        ensures calls { OnOk result (self.new.calls.items ≡ take room self.old.calls.items) }
        ensures room { OnOk result (room_of self.new.history ≡ room) }
        ensures none { OnErr result (self.new ≡ self.old) }
    {
        let history = self.history.with_room(alloc, room)?;
        let calls = newest(alloc, &self.calls, room)?;
        self.history = history;
        self.calls = calls;
        self.settings.history = room;
        Ok(())
    }

    /// Whether a call of this number is caught.
    pub(crate) fn catches(&self, number: u32) -> bool
        ensures yes { OnTrue result (IsCaught (asked_by self.now) number) }
        ensures no { OnFalse result (¬ IsCaught (asked_by self.now) number) }
    {
        if self.caught.are_all {
            return true;
        }
        is_stop(&self.caught.numbers, number)
    }
}

/// Appends bytes.
///
/// # Errors
///
/// Out of memory.
pub fn push_text(text: &mut Vec<u8>, bytes: &[u8]) -> Result<(), AllocError>
    ensures { OnOk result (text.new.items ≡ text.old.items ++ bytes.now) }
{
    text.extend_from_slice(bytes)
}

/// Appends a number as hexadecimal digits.
pub(crate) fn push_number(alloc: Global, text: &mut Vec<u8>, number: u32) -> Result<(), AllocError>
    ensures { OnOk result (text.new.items ≡ text.old.items ++ digits 16 false number) }
{
    let digits = format!(in alloc; "{number:x}")?;
    text.extend_from_slice(digits.as_bytes())
}

/// Appends a signal or a status after a letter.
fn push_code(text: &mut Vec<u8>, letter: u8, code: u8) -> Result<(), AllocError>
    ensures { OnOk result (text.new.items ≡ text.old.items ++ letter ∷ digits_of code) }
{
    text.push(letter)?;
    push_hex(text, code)
}

/// Appends a stop with a name and a number.
fn push_named(alloc: Global, text: &mut Vec<u8>, name: &[u8], number: u32) -> Result<(), AllocError>
    ensures { OnOk result (text.new.items ≡ text.old.items ++ named_text name.now number) }
{
    push_text(text, b"T05")?;
    push_text(text, name)?;
    push_text(text, b":")?;
    push_number(alloc, text, number)?;
    push_text(text, b";")
}

/// Appends where a program stopped, as gdb is told.
pub(crate) fn push_stop(alloc: Global, text: &mut Vec<u8>, stop: Stop) -> Result<(), AllocError>
    ensures told { OnOk result (text.new.items ≡ text.old.items ++ stop_text stop) }
    ensures no_error { OnOk result (IsError text.old.items text.new.items → ⊥) }
{
    match stop {
        Stop::Signal(signal) => push_code(text, b'S', signal),
        Stop::Touched(watch) => push_named(alloc, text, watch.name(), watch.address),
        Stop::AtBegin => push_text(text, b"T05replaylog:begin;"),
        Stop::Entry(number) => push_named(alloc, text, b"syscall_entry", number),
        Stop::Return(number) => push_named(alloc, text, b"syscall_return", number),
        Stop::Exited(status) => push_code(text, b'W', status),
        Stop::Killed(signal) => push_code(text, b'X', signal),
    }
}
