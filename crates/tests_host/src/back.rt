//! Steps that are taken back, as in a debugger of `docs/HOSTS.md`.

ghost use Rattle.std.specs.Prelude.{List, Option};
ghost use Rattle.rrs_lib.specs.Machine.{State};

use crate::machines::memory_of;
use rrs_fast::Environment;
use rrs_history::{History, look_ahead, step_back, step_recorded, step_served};
use rrs_lib::instruction_executor::{InstructionException, InstructionExecutor};
use rrs_lib::memories::VecMemory;
use rrs_lib::{HartState, MemAccessSize, Memory};
use rrs_trace::Snapshot;
use std::alloc::{AllocError, Global};
use std::test::Fail;
use tests_shared::hart_of;

/// Seven instructions, with stores of three sizes over one another, a write to x0 and a register
/// that is written twice, and an illegal instruction.
const PROGRAM: [u32; 10] = [
    0x1234_b137, // lui x2, 0x1234b
    0x0220_2023, // sw x2, 32(x0)
    0x0250_0113, // addi x2, x0, 37
    0x0220_1123, // sh x2, 34(x0)
    0x0220_01a3, // sb x2, 35(x0)
    0x0200_2003, // lw x0, 32(x0)
    0x0040_00ef, // jal x1, 4
    0,
    0x8765_4321, // where it stores
    0,
];

/// The state of a machine at a moment: its hart and its ten words.
type Moment = (Snapshot, Option<[u32; 10]>);

/// The state of a machine.
fn moment_of(memory: &VecMemory, hart: &HartState) -> Moment {
    let words = memory.mem.as_slice();
    (Snapshot::of(hart), words.try_into().ok())
}

/// Makes a step and keeps it, and returns whether it was `Ok`.
fn forward<M: Memory>(mem: &mut M, hart_state: &mut HartState, history: &mut History) -> bool {
    let mut executor = InstructionExecutor { mem, hart_state };
    step_recorded(&mut executor, history).is_ok()
}

/// Takes the latest step back, and returns whether there was one.
fn back<M: Memory>(mem: &mut M, hart_state: &mut HartState, history: &mut History) -> bool {
    let mut executor = InstructionExecutor { mem, hart_state };
    step_back(&mut executor, history).is_some()
}

/// An environment whose calls write two words and two registers.
#[derive(Drop)]
struct Scribe;

impl Environment for Scribe {
    ghost serves = { λ e s e' t accesses answer. Unit {0} };

    fn serve<M: Memory>(&mut self, executor: &mut InstructionExecutor<M>) -> Option<u32> {
        let _first = executor
            .mem
            .write_mem(0x20, MemAccessSize::Word, 0x1122_3344);
        let _second = executor
            .mem
            .write_mem(0x20, MemAccessSize::Word, 0x5566_7788);
        executor.hart_state.write_register(11, 9);
        executor.hart_state.write_register(10, 3);
        None
    }
}

/// Makes a step, which may be a call, and returns whether it was `Ok`.
fn serve<M: Memory>(mem: &mut M, hart_state: &mut HartState, history: &mut History) -> bool {
    let mut executor = InstructionExecutor { mem, hart_state };
    step_served(&mut executor, &mut Scribe, history).is_ok()
}

/// A history's room, the third instruction and whether calls are served, and registers; how a run
/// of 20 steps would end, where there is room to look ahead; how many changes the history keeps of
/// seven steps, how many steps it takes back, and the pc after that.
struct Kept {
    room: usize,
    third: u32,
    is_served: bool,
    registers: &'static [(usize, u32)],
    end: Option<(u64, InstructionException)>,
    changes: usize,
    steps: usize,
    pc: u32,
}

/// `addi x2, x0, 37` and `ecall`.
const ADD: u32 = 0x0250_0113;

const CALL: u32 = 0x0000_0073;

/// Histories with room for none, some and all of the steps, and one of a call, which is one step,
/// and one change more for each of its four writes.
static HISTORIES: [Kept; 7] = [
    Kept {
        room: 8,
        third: ADD,
        is_served: false,
        registers: &[(1, 7), (2, 0xffff_fff0)],
        end: None,
        changes: 7,
        steps: 7,
        pc: 0,
    },
    Kept {
        room: 0,
        third: ADD,
        is_served: false,
        registers: &[],
        end: None,
        changes: 0,
        steps: 0,
        pc: 0x1c,
    },
    Kept {
        room: 2,
        third: ADD,
        is_served: false,
        registers: &[],
        end: None,
        changes: 2,
        steps: 2,
        pc: 0x14,
    },
    Kept {
        room: 7,
        third: ADD,
        is_served: false,
        registers: &[],
        end: None,
        changes: 7,
        steps: 7,
        pc: 0,
    },
    Kept {
        room: 8,
        third: ADD,
        is_served: false,
        registers: &[],
        end: None,
        changes: 7,
        steps: 7,
        pc: 0,
    },
    Kept {
        room: 20,
        third: ADD,
        is_served: false,
        registers: &[(2, 5)],
        end: Some((7, InstructionException::IllegalInstruction(0x1c, 0))),
        changes: 7,
        steps: 7,
        pc: 0,
    },
    Kept {
        room: 20,
        third: CALL,
        is_served: true,
        registers: &[(10, 8)],
        end: Some((2, InstructionException::EnvironmentCall(8))),
        changes: 11,
        steps: 7,
        pc: 0,
    },
];

/// How a run of 20 steps would end, where there is room for them.
fn foretold<M: Memory>(
    mem: &mut M,
    hart_state: &mut HartState,
    history: &mut History,
) -> Option<(u64, InstructionException)> {
    if history.room() < 20 {
        return None;
    }
    let mut executor = InstructionExecutor { mem, hart_state };
    let end = look_ahead(&mut executor, history, 20);
    Some((end.steps, end.exception?))
}

/// Whether the end of a run is foretold, and the machine stays where it is.
fn is_foretold(
    memory: &mut VecMemory,
    hart: &mut HartState,
    history: &mut History,
    end: Option<(u64, InstructionException)>,
) -> bool {
    let before = moment_of(memory, hart);
    foretold(memory, hart, history) == end && moment_of(memory, hart) == before
}

/// Whether nine steps, which are seven and an exception twice, are taken back as far as they are
/// kept, and each leads to the state before it.
fn leads_back(alloc: Global, kept: &Kept) -> Result<bool, AllocError> {
    let mut memory = memory_of(alloc, &PROGRAM, 10)?;
    if let Some(word) = memory.mem.get_mut(2) {
        *word = kept.third;
    }
    let mut hart = hart_of(0, kept.registers);
    let mut history = History::new(alloc, kept.room)?;
    let mut is_right = is_foretold(&mut memory, &mut hart, &mut history, kept.end);
    let mut before = Vec::new(alloc);
    for _ in 0..9 {
        let now = moment_of(&memory, &hart);
        let is_made = if kept.is_served {
            serve(&mut memory, &mut hart, &mut history)
        } else {
            forward(&mut memory, &mut hart, &mut history)
        };
        if is_made {
            before.push(now)?;
        }
    }
    is_right &= before.len() == 7 && history.len() == kept.changes;
    is_right &= history.steps() == kept.steps;
    for _ in 0..9 {
        if back(&mut memory, &mut hart, &mut history) {
            is_right &= before.pop() == Some(moment_of(&memory, &hart));
        }
    }
    let is_taken_back = before.len().checked_add(kept.steps) == Some(7);
    Ok(is_right && is_taken_back && hart.pc == kept.pc)
}

// The end of a run is told, and the machine stays where it is. The states before the latest steps,
// as many as are kept, and those that taking back leads to, are the same. A step that ends with an
// exception is not kept.
#[test]
fn steps_lead_back_to_the_states_before_them(rt: HostRuntime) -> Result<(), Fail> {
    for (row, kept) in HISTORIES.iter().enumerate() {
        let is_right = leads_back(rt.alloc(), kept)?;
        assert!(rt; is_right, "history {row}");
    }
    Ok(())
}

/// How many steps a history of another room keeps of the latest five of seven, and the pc after
/// these are taken back.
fn latest_in(alloc: Global, room: usize) -> Result<(usize, u32), AllocError> {
    let mut memory = memory_of(alloc, &PROGRAM, 10)?;
    let mut hart = hart_of(0, &[]);
    let mut history = History::new(alloc, 5)?;
    for _ in 0..7 {
        forward(&mut memory, &mut hart, &mut history);
    }
    let mut latest = history.with_room(alloc, room)?;
    let steps = latest.steps();
    for _ in 0..7 {
        back(&mut memory, &mut hart, &mut latest);
    }
    Ok((steps, hart.pc))
}

// Of another room the latest steps are kept, as many as there is room for.
#[test]
fn another_room_keeps_the_latest_steps(rt: HostRuntime) -> Result<(), Fail> {
    for (room, steps, pc) in [(0, 0, 28), (3, 3, 16), (9, 5, 8)] {
        let kept = latest_in(rt.alloc(), room)?;
        assert!(rt; kept == (steps, pc), "room {room}");
    }
    Ok(())
}
