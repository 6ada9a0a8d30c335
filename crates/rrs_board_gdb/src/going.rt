//! A board that goes on under gdb.

ghost use Rattle.std.specs.Prelude.{◌≡◌, ◌≤◌, ◌++◌, [], List, ℕ, true, None, Contains, IfOk, MatchOption, OnOk};
ghost use Rattle.std.specs.Bool.{OnTrue, OnFalse};
ghost use Rattle.rrs_board.specs.Effects.{waits_for_input};
ghost use Rattle.rrs_gdb.specs.Shown.{Prints};
ghost use Rattle.rrs_board_gdb.specs.Going.{debugged, HandsIn, Serves, printed_by, ending, EndsBy, ServedStep, GoesTo};

use rrs_board::{Asking, Board, BoardEvent};
use rrs_gdb::{Link, LinkError};
use std::alloc::AllocError;
use std::io::{Read, Write};

/// gdb's number of `SIGILL`: a trap whose handler can't be fetched.
const ILLEGAL: u8 = 4;
/// gdb's number of `SIGTRAP`: a jump to itself where no interrupt can be taken.
const TRAPPED: u8 = 5;
/// gdb's number of `SIGSTOP`: a `wfi` that nothing wakes.
const STOPPED: u8 = 17;

/// The most steps that are made before output is sent.
const LEG: u64 = 1_000_000;

/// A board, what its UART is to receive, and what it transmitted.
#[derive(Drop)]
pub struct DebuggedBoard<'a> {
    /// The board.
    pub board: Board,
    /// What is left of the input of the UART.
    pub input: &'a [u8],
    /// When a byte of it arrives: as for a program at a terminal.
    pub asking: Asking,
    /// What the UART transmitted, and gdb was not sent.
    pub output: Vec<u8>,
}

/// Why a board went no further.
#[derive(Debug, PartialEq, Clone, Copy)]
pub enum GoReason {
    /// The pc is a breakpoint, and at least one step was made.
    AtStop,
    /// As many steps as the limit were made.
    Limit,
    /// The program ended with this status.
    Finished(u32),
    /// The program does nothing any more: it waits, or the hart is dead. gdb is told this signal.
    Stuck(u8),
}

/// How a board that went on ended.
#[derive(Debug, PartialEq, Clone, Copy)]
pub struct GoEnd {
    /// How many steps were made: instructions that retired, exceptions and interrupts.
    pub steps: u64,
    /// Why no further one was.
    pub reason: GoReason,
}

impl<'a> DebuggedBoard<'a> {
    /// Lets the next byte of the input arrive at the UART, if it holds none, and says whether one
    /// did.
    fn hand_in(&mut self) -> bool
        ensures handed { OnTrue result
            (HandsIn self.old.input.now self.old.board (debugged self.new)) }
        ensures kept { OnFalse result (debugged self.new ≡ debugged self.old) }
        ensures none { OnFalse result (waits_for_input self.old.board.memory.devices ≡ true
            → self.old.input.now ≡ []) }
        ensures output { self.new.output ≡ self.old.output }
    {
        match self.input {
            [byte, rest @ ..] if !self.board.memory.devices.uart.has_byte() => {
                self.board.memory.devices.receive(*byte);
                self.input = rest;
                true
            }
            _ => false,
        }
    }

    /// Serves what a step tells, and returns what is left to be told.
    fn serve(&mut self, event: Option<BoardEvent>) -> Result<Option<BoardEvent>, AllocError>
        ensures board { IfOk result (λ left. Serves event self.old.input.now self.old.board left
            (debugged self.new)) }
        ensures output { IfOk result (λ left.
            self.new.output.items ≡ self.old.output.items ++ printed_by left) }
    {
        match event {
            Some(BoardEvent::Transmitted(byte)) => {
                self.asking.note_output();
                self.output.push(byte)?;
                Ok(event)
            }
            Some(BoardEvent::Looked) => {
                if self.asking.count_look() && self.hand_in() {
                    return Ok(None);
                }
                Ok(event)
            }
            Some(BoardEvent::NothingWakes) => {
                if self.board.memory.devices.waits_for_input() && self.hand_in() {
                    return Ok(None);
                }
                Ok(event)
            }
            _ => Ok(event),
        }
    }

    /// Makes a step, and serves what it tells.
    fn step(&mut self) -> Result<Option<BoardEvent>, AllocError>
        ensures step { IfOk result (λ event.
            ServedStep (debugged self.old) event (debugged self.new)) }
        ensures output { IfOk result (λ event.
            self.new.output.items ≡ self.old.output.items ++ printed_by event) }
    {
        let event = self.board.step().event;
        self.serve(event)
    }

    /// Why a board goes no further after a step, if it does not.
    fn reason_behind(&self, event: Option<BoardEvent>, stops: &[u32]) -> Option<GoReason>
        ensures { MatchOption result
            ((ending event ≡ None) × (Contains stops.now self.now.board.hart.pc → ⊥))
            (λ reason. EndsBy stops.now event (debugged self.now) reason) }
    {
        match event {
            Some(BoardEvent::Finished(status)) => return Some(GoReason::Finished(status)),
            Some(BoardEvent::Restarts) => return Some(GoReason::Finished(0)),
            Some(BoardEvent::NothingWakes) => return Some(GoReason::Stuck(STOPPED)),
            Some(BoardEvent::Spins) => return Some(GoReason::Stuck(TRAPPED)),
            Some(BoardEvent::LacksHandler) => return Some(GoReason::Stuck(ILLEGAL)),
            _ => {}
        }
        if stops.contains(&self.board.hart.pc) {
            return Some(GoReason::AtStop);
        }
        None
    }

    /// Makes steps until as many as `limit` were made, the pc is one of the stops, or the program
    /// ends.
    ///
    /// A chain of steps of the board leads from there to here, and what each tells is served: what
    /// is transmitted is appended to the output, and what is wanted comes from the input. None but
    /// the last leads to a stop or ends the program (`run`).
    ///
    /// # Errors
    ///
    /// Out of memory for the output.
    pub fn go(&mut self, limit: u64, stops: &[u32]) -> Result<GoEnd, AllocError>
        ensures run { IfOk result (λ end. (printed : List ℕ)
            × (self.new.output.items ≡ self.old.output.items ++ printed)
            × GoesTo stops.now limit (debugged self.old) end.steps end.reason printed
            (debugged self.new)) }
        ensures within { IfOk result (λ end. end.steps ≤ limit) }
    {
        let mut steps = 0;
        'steps: while steps < limit {
            let event = self.step()?;
            steps += 1;
            if let Some(reason) = self.reason_behind(event, stops) {
                return Ok(GoEnd { steps, reason });
            }
        }
        Ok(GoEnd {
            steps,
            reason: GoReason::Limit,
        })
    }

    /// Sends what is transmitted.
    fn send<R: Read, W: Write>(&mut self, link: &mut Link<R, W>) -> Result<(), LinkError>
        ensures sent { OnOk result (Prints W.contents link.old link.new self.old.output.items) }
        ensures emptied { OnOk result (self.new.output.items ≡ []) }
        ensures kept { debugged self.new ≡ debugged self.old }
        ensures acknowledges { link.new.acknowledges ≡ link.old.acknowledges }
    {
        link.send_output(&self.output)?;
        self.output.clear();
        Ok(())
    }

    /// The same as [DebuggedBoard::go], and sends what is transmitted, as `O` packets: all of it
    /// once, in order, after what was left of before (`run`).
    ///
    /// # Errors
    ///
    /// Out of memory, and a write that fails.
    pub fn proceed<R: Read, W: Write>(
        &mut self,
        link: &mut Link<R, W>,
        limit: u64,
        stops: &[u32],
    ) -> Result<GoEnd, LinkError>
        ensures run { IfOk result (λ end. (printed : List ℕ)
            × GoesTo stops.now limit (debugged self.old) end.steps end.reason printed
            (debugged self.new)
            × Prints W.contents link.old link.new (self.old.output.items ++ printed)) }
        ensures emptied { OnOk result (self.new.output.items ≡ []) }
        ensures acknowledges { link.new.acknowledges ≡ link.old.acknowledges }
    {
        self.send(link)?;
        let mut steps = 0;
        'legs: while steps < limit {
            let end = self.go((limit - steps).min(LEG), stops)?;
            self.send(link)?;
            steps += end.steps;
            match end.reason {
                GoReason::Limit => {}
                _ => {
                    return Ok(GoEnd {
                        steps,
                        reason: end.reason,
                    });
                }
            }
        }
        Ok(GoEnd {
            steps,
            reason: GoReason::Limit,
        })
    }
}
