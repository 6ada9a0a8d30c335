//! What runs a board: runs of which nothing is kept, and runs of which each step is shown to a
//! watcher.

ghost use Rattle.std.specs.Prelude.{◌≡◌, None, ◌+◌, ◌^◌, ◌<◌};
ghost use Rattle.rrs_machine.specs.MachineSteps.{fetched_at};
ghost use Rattle.rrs_board.specs.Effects.{Tells, StandsInVain};
ghost use Rattle.rrs_board.specs.Boards.{machine_with};
ghost use Rattle.rrs_board.specs.WatchedBoards.{takes_trap, IsRecorded, IsShown, watched_runs};

use crate::board::{Board, BoardEnd, BoardStep};
use crate::effects::{BoardEvent, dead_event};
use rrs_hart::{Encoding, fetch_in};
use rrs_lib::instruction_executor::{InstructionException, InstructionExecutor};
use rrs_machine::{MachineAnswer, MachineRetired, step_machine_retired};

/// What runs a board at a terminal: it makes the steps between two events.
pub trait BoardRunner {
    ghost use Rattle.std.specs.Prelude.{ℕ, ◌+◌, ◌^◌, ◌<◌, ◌≤◌, Option, IfSome};
    ghost use Rattle.rrs_board.specs.declared.board.Board.{Board as TheBoard};
    ghost use Rattle.rrs_board.specs.declared.effects.BoardEvent.{BoardEvent as TheEvent};

    /// What a run is, by what was kept of the steps before it and is after it.
    ghost runs: { Self → ℕ → ℕ → TheBoard → ℕ → Option TheEvent → TheBoard → Self → Type 0 };

    /// Makes steps until as many as `most` were made, or a device has something for the caller. So
    /// many as `made` were made before.
    fn run(&mut self, board: &mut Board, made: u64, most: u64) -> BoardEnd
        requires room { made + most < 2 ^ 64 }
        ensures run { runs self.old made most board.old
            result.steps result.event board.new self.new }
        ensures within { result.steps ≤ most }
        ensures told { IfSome result.event (λ event. 1 ≤ result.steps) };
}

/// Runs a board, and keeps nothing of it.
#[derive(Drop)]
pub struct PlainRuns;

impl BoardRunner for PlainRuns {
    ghost use Rattle.rrs_board.specs.Terminals.{plain_runs};

    ghost runs = { plain_runs };

    fn run(&mut self, board: &mut Board, _made: u64, most: u64) -> BoardEnd {
        board.run(most)
    }
}

/// What a step of a board did, and what it retired.
#[derive(Debug, PartialEq, Clone, Copy)]
pub struct RecordedStep {
    /// What it did.
    pub step: BoardStep,
    /// What the hart retired.
    pub retired: MachineRetired,
}

/// What is shown each step of a board.
pub trait BoardWatcher {
    ghost use Rattle.std.specs.Prelude.{Bool};
    ghost use Rattle.rrs_board.specs.declared.runs.RecordedStep.{RecordedStep as TheStep};

    /// What a step that is shown makes of the watcher.
    ghost sees: { Self → TheStep → Self → Type 0 };

    /// Whether the watcher wants to see more.
    ghost wants: { Self → Bool };

    /// Sees a step.
    fn see_step(&mut self, step: &RecordedStep)
        ensures { sees self.old step.now self.new };

    /// Whether the run is to go on. It is asked before each step.
    fn wants_more(&self) -> bool
        ensures { result ≡ wants self.now };
}

impl Board {
    /// The instruction that is about to be executed, or the exception of its fetch. No device hears
    /// of it.
    fn fetched(&mut self) -> Result<Encoding, InstructionException>
        ensures fetched { result ≡ fetched_at (machine_with self.old self.old.memory) }
        ensures kept { self.new ≡ self.old }
    {
        let devices = self.memory.devices;
        let profile = self.csrs.profile.hart;
        let fetched = fetch_in(&mut self.memory, profile, self.hart.pc);
        self.memory.devices = devices;
        fetched
    }

    /// What the caller is told after a step from this pc, where the devices have this event for
    /// him: that, or that the hart is dead.
    pub(crate) fn told_from(&mut self, pc: u32, event: Option<BoardEvent>) -> Option<BoardEvent>
        ensures kept { self.new ≡ self.old }
        ensures told { Tells event result (machine_with self.old self.old.memory) }
        ensures alive { result ≡ None → self.old.hart.pc ≡ pc
            → ¬ StandsInVain (machine_with self.old self.old.memory) }
    {
        match event {
            None if self.hart.pc == pc => {
                let fetched = self.fetched();
                dead_event(&self.csrs, pc, fetched)
            }
            _ => event,
        }
    }

    /// Makes a step as [Board::step] does, and tells what the hart retired, with this number.
    /// `is_first` says that the step before took a trap.
    ///
    /// The clauses: what is told is what this step did and retired (`recorded`); where the caller
    /// is told nothing, the hart does not stand still where it stood (`alive`).
    pub fn step_retired(&mut self, number: u64, is_first: bool) -> RecordedStep
        ensures recorded { IsRecorded number is_first self.old self.new result }
        ensures alive { result.step.event ≡ None → self.new.hart.pc ≡ self.old.hart.pc
            → ¬ StandsInVain (machine_with self.new self.new.memory) }
    {
        let pc = self.hart.pc;
        let inputs = self.memory.devices.inputs();
        let mut executor = InstructionExecutor {
            mem: &mut self.memory,
            hart_state: &mut self.hart,
        };
        let (answer, retired) = step_machine_retired(
            &mut executor,
            &mut self.csrs,
            &inputs,
            number,
            is_first,
        );
        let event = self.memory.devices.settle(answer, &self.csrs);
        let event = self.told_from(pc, event);
        RecordedStep {
            step: BoardStep { answer, event },
            retired,
        }
    }
}

/// Whether a step took a trap.
pub fn takes_trap(answer: MachineAnswer) -> bool
    ensures { result ≡ takes_trap answer }
{
    matches!(
        answer,
        MachineAnswer::Raised(_) | MachineAnswer::Interrupted(_)
    )
}

/// Runs a board, and shows each step to a watcher: once, in order, with its number from 0 on.
///
/// Where the watcher wants no more a run ends as it does at the limit, after the steps that were
/// shown.
#[derive(Drop)]
pub struct WatchedRuns<V> {
    /// The watcher.
    pub watcher: V,
    /// Whether the latest step took a trap.
    pub is_first: bool,
}

impl<V: BoardWatcher> WatchedRuns<V> {
    /// Makes the step of this number, and shows it.
    fn show_step(&mut self, board: &mut Board, number: u64) -> RecordedStep
        ensures { IsShown V.sees number self.old board.old board.new result self.new }
    {
        let step = board.step_retired(number, self.is_first);
        self.watcher.see_step(&step);
        self.is_first = takes_trap(step.step.answer);
        step
    }
}

impl<V: BoardWatcher> BoardRunner for WatchedRuns<V> {
    ghost use Rattle.rrs_board.specs.WatchedBoards.{watched_runs};

    ghost runs = { watched_runs V.sees V.wants };

    fn run(&mut self, board: &mut Board, made: u64, most: u64) -> BoardEnd {
        for steps in 0..most {
            if !self.watcher.wants_more() {
                return BoardEnd { steps, event: None };
            }
            let shown = self.show_step(board, made + steps);
            match shown.step.event {
                Some(event) => {
                    return BoardEnd {
                        steps: steps + 1,
                        event: Some(event),
                    };
                }
                None => {}
            }
        }
        BoardEnd {
            steps: most,
            event: None,
        }
    }
}
