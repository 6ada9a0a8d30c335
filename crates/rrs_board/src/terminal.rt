//! A board at a terminal: what its UART transmits is written, and what it receives is typed.

ghost use Rattle.std.specs.Prelude.{◌≡◌, ◌≢◌, [], ◌∷◌, Some, true, false, not, IfOk, OnOk, IfErr, OnErr};
ghost use Rattle.std.specs.Bool.{OnTrue, OnFalse};
ghost use Rattle.std.specs.Io.KnownBytes.{Appends, Keeps, IsAtEnd};
ghost use Rattle.std.specs.IoError.{error_kind};
ghost use Rattle.rrs_board.specs.Effects.{waits_for_input};
ghost use Rattle.rrs_board.specs.declared.effects.BoardEvent.{BoardEvent};
ghost use Rattle.rrs_board.specs.Terminals.{asked_with, HearsUnread, Asked, GoesOn, Untouched, Ends, Fails, EndedSession, StoppedSession};

use crate::asking::Asking;
use crate::board::{Board, BoardEnd};
use crate::effects::BoardEvent;
use crate::input::{BoardInput, InputAnswer, Patience};
use crate::runs::BoardRunner;
use std::io::{self, ErrorKind, Write};

/// Why a board at a terminal was stopped.
#[derive(Debug, PartialEq, Clone, Copy)]
pub enum TerminalError {
    /// The input can't be read.
    Input,
    /// A write or a flush of the output failed.
    Output,
}

/// Has a board run until it ends or `limit` steps were made. Each byte that it transmits is written
/// to `output`, which is flushed before the input is asked and at the end. A byte of the input
/// arrives at the UART where that holds none. The input is asked once
///
/// - after a thousand looks in a row that find no byte, between which nothing is transmitted. That
///   is not to wait;
/// - at a `wfi` that no alarm can end where IER asks for received data. That waits without limit;
/// - where it is polled (`is_polled`) at each other `wfi` that waits. That waits a millisecond.
///
/// An input that says it is at its end is asked no more; of one that is polled that means that
/// there is nothing yet.
///
/// The clauses: a chain of runs leads from the board before to that after, with what was typed and
/// printed between them; the input was asked at these places, and nowhere else; what was typed is
/// what was read of it, and what was printed is what the output got, where these bytes are known; a
/// wait that only input can end is the end where the input is at its end and all of it was typed
/// (`session`). Where the input is polled no run ends at such a wait (`polled`). After an error the
/// same holds of the runs up to there, and the event of the last one was not served (`stopped`).
///
/// # Errors
///
/// `TerminalError::Input` where the input says that it can't be read, `TerminalError::Output` where
/// a write or a flush fails.
pub fn run_at_terminal<V: BoardRunner, I: BoardInput, W: Write>(
    runner: &mut V,
    board: &mut Board,
    limit: u64,
    is_polled: bool,
    input: &mut I,
    output: &mut W,
) -> Result<BoardEnd, TerminalError>
    ensures session { IfOk result (λ end. EndedSession V.runs I.says I.remaining is_polled limit
        board.old runner.old input.old input.new (W.contents output.old) (W.contents output.new)
        end.steps end.event board.new runner.new) }
    ensures stopped { IfErr result (λ error. StoppedSession V.runs I.says I.remaining is_polled
        limit board.old runner.old input.old input.new
        (W.contents output.old) (W.contents output.new) error board.new runner.new) }
    ensures polled { is_polled ≡ true → IfOk result (λ end.
        end.event ≡ Some BoardEvent.NothingWakes
        → waits_for_input board.new.memory.devices ≡ false) }
{
    let mut asking = Asking::new(is_polled);
    let mut steps = 0;
    'runs: loop {
        let end = runner.run(board, steps, limit - steps);
        steps += end.steps;
        match end.event {
            Some(event) => {
                if !serve(board, &mut asking, event, input, output)? {
                    return finish(output, steps, Some(event));
                }
            }
            None => return finish(output, steps, None),
        }
    }
}

/// Serves an event, and says whether the board goes on.
fn serve<I: BoardInput, W: Write>(
    board: &mut Board,
    asking: &mut Asking,
    event: BoardEvent,
    input: &mut I,
    output: &mut W,
) -> Result<bool, TerminalError>
    ensures goes { IfOk result (λ goes. OnTrue goes (GoesOn I.says I.remaining
        asking.old asking.new event board.old board.new input.old input.new
        (W.contents output.old) (W.contents output.new))) }
    ensures ends { IfOk result (λ goes. OnFalse goes (Ends I.says I.remaining
        asking.old asking.new event board.old board.new input.old input.new
        (W.contents output.old) (W.contents output.new))) }
    ensures failed { IfErr result (λ error. Fails I.says I.remaining error
        asking.old event board.old board.new input.old input.new
        (W.contents output.old) (W.contents output.new)) }
    ensures at_end { (asking.old.has_ended ≡ true → IsAtEnd (I.remaining input.old))
        → asking.new.has_ended ≡ true → IsAtEnd (I.remaining input.new) }
    ensures polled { asking.old.is_polled ≡ true → asking.old.has_ended ≡ false
        → (asking.new.is_polled ≡ true) × (asking.new.has_ended ≡ false) }
{
    match event {
        BoardEvent::Transmitted(byte) => {
            asking.note_output();
            print(output, byte)?;
            Ok(true)
        }
        BoardEvent::Looked => {
            if asking.count_look() {
                ask(board, asking, Patience::AtOnce, input, output)?;
            }
            Ok(true)
        }
        BoardEvent::Waits => {
            if asking.is_polled {
                ask(board, asking, Patience::Millisecond, input, output)?;
            }
            Ok(true)
        }
        BoardEvent::NothingWakes if board.memory.devices.waits_for_input() => {
            ask(board, asking, Patience::Endless, input, output)
        }
        BoardEvent::NothingWakes
        | BoardEvent::Finished(_)
        | BoardEvent::Spins
        | BoardEvent::LacksHandler
        | BoardEvent::Restarts => Ok(false),
    }
}

/// Asks for a byte, which arrives at the UART, if that holds none, and says whether there may be
/// more.
fn ask<I: BoardInput, W: Write>(
    board: &mut Board,
    asking: &mut Asking,
    patience: Patience,
    input: &mut I,
    output: &mut W,
) -> Result<bool, TerminalError>
    ensures asked { IfOk result (λ more. Asked I.says I.remaining (Some patience)
        asking.old asking.new board.old board.new input.old input.new
        (W.contents output.old) (W.contents output.new)) }
    ensures more { IfOk result (λ more. more ≡ not asking.new.has_ended) }
    ensures failed { IfErr result (λ error. HearsUnread I.says error
        (asked_with asking.old board.old (Some patience)) input.old input.new
        × Untouched I.remaining board.old board.new input.old input.new
        (W.contents output.old) (W.contents output.new)) }
    ensures at_end { (asking.old.has_ended ≡ true → IsAtEnd (I.remaining input.old))
        → asking.new.has_ended ≡ true → IsAtEnd (I.remaining input.new) }
    ensures polled { asking.old.is_polled ≡ true → asking.old.has_ended ≡ false
        → (asking.new.is_polled ≡ true) × (asking.new.has_ended ≡ false) }
{
    if asking.has_ended {
        return Ok(false);
    }
    if board.memory.devices.uart.has_byte() {
        return Ok(true);
    }
    flush(output)?;
    match input.ask(patience) {
        InputAnswer::Byte(byte) => {
            board.memory.devices.receive(byte);
            Ok(true)
        }
        InputAnswer::Nothing => Ok(true),
        InputAnswer::Ended => {
            asking.note_end();
            Ok(!asking.has_ended)
        }
        InputAnswer::Failed => Err(TerminalError::Input),
    }
}

/// Flushes the output at the end of a session.
fn finish<W: Write>(
    output: &mut W,
    steps: u64,
    event: Option<BoardEvent>,
) -> Result<BoardEnd, TerminalError>
    ensures kept { Keeps (W.contents output.old) (W.contents output.new) }
    ensures end { IfOk result (λ end. (end.steps ≡ steps) × (end.event ≡ event)) }
    ensures error { IfErr result (λ error. error ≡ TerminalError.Output) }
{
    match flush(output) {
        Ok(()) => Ok(BoardEnd { steps, event }),
        Err(error) => Err(error),
    }
}

/// Writes a byte.
fn print<W: Write>(output: &mut W, byte: u8) -> Result<(), TerminalError>
    ensures ok { OnOk result (Appends (W.contents output.old) (W.contents output.new) (byte ∷ [])) }
    ensures error { IfErr result (λ error. (error ≡ TerminalError.Output)
        × Keeps (W.contents output.old) (W.contents output.new)) }
{
    write_byte(output, byte).map_err(|_| TerminalError::Output)
}

/// Writes a byte. A write that is interrupted is made again.
fn write_byte<W: Write>(output: &mut W, byte: u8) -> io::Result<()>
    ensures ok { OnOk result (Appends (W.contents output.old) (W.contents output.new) (byte ∷ [])) }
    ensures kept { OnErr result (Keeps (W.contents output.old) (W.contents output.new)) }
    ensures again { IfErr result (λ error. error_kind error ≢ ErrorKind.Interrupted) }
{
    for _ in 0..u64::MAX {
        match output.write(&[byte]) {
            Ok(0) => return Err(io::Error::from(ErrorKind::WriteZero)),
            Ok(_) => return Ok(()),
            Err(failure) => {
                if failure.kind() != ErrorKind::Interrupted {
                    return Err(failure);
                }
            }
        }
    }
    Err(io::Error::from(ErrorKind::TimedOut))
}

/// Flushes the output.
fn flush<W: Write>(output: &mut W) -> Result<(), TerminalError>
    ensures kept { Keeps (W.contents output.old) (W.contents output.new) }
    ensures error { IfErr result (λ error. error ≡ TerminalError.Output) }
{
    output.flush().map_err(|_| TerminalError::Output)
}
