//! What a run of a board covered of its code.

ghost use Rattle.std.specs.Prelude.{◌≡◌, IfOk, IfErr, Some, true, false};
ghost use Rattle.rrs_board.specs.declared.effects.BoardEvent.{BoardEvent};
ghost use Rattle.rrs_board.specs.Effects.{waits_for_input};
ghost use Rattle.rrs_reports.specs.Coverages.{CoversBoard};

use crate::code::Code;
use crate::profile::Profile;
use rrs_board::{
    Board, BoardEnd, BoardInput, BoardWatcher, RecordedStep, TerminalError, WatchedRuns,
    run_at_terminal,
};
use std::alloc::Global;
use std::io::Write;

impl BoardWatcher for Profile<'_, '_> {
    ghost use Rattle.std.specs.Prelude.{true};
    ghost use Rattle.rrs_reports.specs.Coverages.{Counts};

    ghost sees = { λ old step new. Counts old.coverage step.retired.retired new.coverage };

    ghost wants = { λ profile. true };

    fn see_step(&mut self, step: &RecordedStep) {
        self.count_record(&step.retired.retired);
        if step.retired.cause.is_some() {
            self.calls.interrupt();
        }
    }

    fn wants_more(&self) -> bool {
        true
    }
}

/// Why it is not known what a run of a board covered.
#[derive(Debug, PartialEq, Clone, Copy)]
pub enum BoardCoverError {
    /// There is no memory for the counts. No step is made then.
    OutOfMemory,
    /// The board was stopped at its terminal.
    Terminal(TerminalError),
}

/// Runs a board as [run_at_terminal](rrs_board::run_at_terminal) does, and gives what the run
/// covered of its code. A count is the number of steps whose pc a word has: of instructions that
/// retire, and of calls by `ecall`.
///
/// The clauses: the counts are those of the steps of the session (`covered`), where the input is
/// polled no session ends at a wait for it (`polled`), and where there is no memory nothing is done
/// (`untouched`).
///
/// # Errors
///
/// Those of `run_at_terminal`, and out of memory for the counts.
pub fn cover_board<'a, 'b, I: BoardInput, W: Write>(
    alloc: Global,
    board: &mut Board,
    code: &'b Code<'a>,
    limit: u64,
    is_polled: bool,
    input: &mut I,
    output: &mut W,
) -> Result<(BoardEnd, Profile<'a, 'b>), BoardCoverError>
    ensures covered { IfOk result (λ run. CoversBoard I.says I.remaining is_polled limit board.old
        input.old input.new (W.contents output.old) (W.contents output.new)
        run.0.steps run.0.event board.new run.1.coverage) }
    ensures polled { is_polled ≡ true → IfOk result (λ run.
        run.0.event ≡ Some BoardEvent.NothingWakes
        → waits_for_input board.new.memory.devices ≡ false) }
    ensures untouched { IfErr result (λ error. error ≡ BoardCoverError.OutOfMemory
        → (board.new ≡ board.old) × (input.new ≡ input.old)
        × (W.contents output.new ≡ W.contents output.old)) }
{
    let Ok(profile) = Profile::new(alloc, code) else {
        return Err(BoardCoverError::OutOfMemory);
    };
    let mut runs = WatchedRuns {
        watcher: profile,
        is_first: false,
    };
    match run_at_terminal(&mut runs, board, limit, is_polled, input, output) {
        Ok(end) => {
            let mut profile = runs.watcher;
            profile.calls.finish(end.steps);
            Ok((end, profile))
        }
        Err(error) => Err(BoardCoverError::Terminal(error)),
    }
}
