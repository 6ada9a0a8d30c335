//! Devices that are no memory: their host serves the loads and the stores of the program, or writes
//! a cell of a space between runs. `docs/MEMORIES.md` shows both.

use crate::machines::space_beside;
use rrs_lib::instruction_executor::{InstructionException, InstructionExecutor};
use rrs_lib::memories::{MemorySpace, VecMemory};
use rrs_lib::{HartState, MemAccessSize, Memory};
use rrs_trace::{DataRequest, complete, complete_load, complete_store, request};
use std::test::Fail;
use tests_shared::{hart_of, run_over};

/// Where the clock is. Nothing is mapped there.
const CLOCK: u32 = 0x4000_0000;

/// Where the lamp is. Nothing is mapped there.
const LAMP: u32 = 0x4000_0004;

/// A clock, each of whose reads gives a later time, and a lamp.
#[derive(Drop)]
struct Devices {
    time: u32,
    lamp: u32,
}

/// The value that the store at the pc stores.
fn stored_value<M: Memory>(executor: &mut InstructionExecutor<M>) -> Option<u32> {
    let word = executor.word_at_pc()?;
    match request(executor.hart_state, word) {
        Ok(Some(DataRequest::Store(_address, _size, value))) => Some(value),
        _ => None,
    }
}

impl Devices {
    /// Serves an exception of the program, and returns whether it goes on.
    fn serve<M: Memory>(
        &mut self,
        executor: &mut InstructionExecutor<M>,
        fault: InstructionException,
    ) -> bool {
        match fault {
            InstructionException::LoadAccessFault(CLOCK) => {
                self.time = self.time.wrapping_add(1);
                complete_load(executor, self.time)
            }
            InstructionException::StoreAccessFault(LAMP) => {
                self.lamp = stored_value(executor).unwrap_or(self.lamp);
                complete_store(executor)
            }
            _ => false,
        }
    }

    /// Runs a program, until an exception that no device serves.
    fn run<M: Memory>(&mut self, executor: &mut InstructionExecutor<M>, faults: u32) {
        for _ in 0..faults {
            match executor.run(1000).exception {
                Some(fault) if self.serve(executor, fault) => {}
                _ => return,
            }
        }
    }
}

// Two loads from one address differ, which no lawful memory does.
#[test]
fn a_clock_is_served(rt: HostRuntime) -> Result<(), Fail> {
    let words = [
        0x4000_02b7, // lui x5, 0x40000
        0x0002_a303, // lw x6, 0(x5)
        0x0002_a383, // lw x7, 0(x5)
        0x4063_8433, // sub x8, x7, x6
        0x0082_a223, // sw x8, 4(x5)
        0x0000_0073, // ecall
    ];
    let mut devices = Devices { time: 41, lamp: 0 };
    let mut memory = VecMemory::new(words.to_vec(rt.alloc())?);
    let mut hart = HartState::new();
    let mut executor = InstructionExecutor {
        mem: &mut memory,
        hart_state: &mut hart,
    };
    devices.run(&mut executor, 9);
    let read = [hart.registers[6], hart.registers[7], devices.lamp, hart.pc];
    assert!(rt; read == [42, 43, 1, 0x14]);
    Ok(())
}

/// Writes the word of a cell.
fn set_cell(space: &mut MemorySpace<VecMemory>, cell: usize, value: u32) {
    if let Some(memory) = space.get_memory_mut(cell)
        && let Some(word) = memory.mem.get_mut(0)
    {
        *word = value;
    }
}

// The program waits until the time in the cell is 3. The host writes it before each four steps.
#[test]
fn a_clock_is_a_cell(rt: HostRuntime) -> Result<(), Fail> {
    let words = [
        0x4000_02b7, // lui x5, 0x40000
        0x0030_0393, // addi x7, x0, 3
        0x0002_a303, // lw x6, 0(x5)
        0xfe73_4ee3, // blt x6, x7, -4
        0x0000_0073, // ecall
    ];
    let program = VecMemory::new(words.to_vec(rt.alloc())?);
    let clock = VecMemory::new(vec![in rt.alloc(); 0; 1]?);
    let mut space = space_beside(rt.alloc(), program, 20, clock, CLOCK)?;
    let mut hart = HartState::new();
    let mut times = 0;
    for time in 0..9 {
        set_cell(&mut space, 1, time);
        times = time;
        if run_over(&mut space, &mut hart, 4).exception.is_some() {
            break;
        }
    }
    assert!(rt; times == 3 && hart.registers[6] == 3 && hart.pc == 0x10);
    Ok(())
}

/// What is left of a hart: the answer, x1 and the pc.
type Completed = (Result<(), InstructionException>, u32, u32);

/// What a word that is given this leaves of a hart at 8.
fn completed(word: u32, given: Option<u32>) -> Completed {
    let mut hart = hart_of(8, &[(2, 0x103), (3, 0x1234_5678)]);
    let answer = complete(&mut hart, word, given);
    (answer, hart.registers[1], hart.pc)
}

const REFUSED_LOAD: InstructionException = InstructionException::LoadAccessFault(0x104);

const REFUSED_STORE: InstructionException = InstructionException::StoreAccessFault(0x104);

/// Words and what they are given, each with what this leaves.
static COMPLETED: [(u32, Option<u32>, Completed); 10] = [
    (0x0011_0083, Some(0x1f0), (Ok(()), 0xffff_fff0, 12)), // lb x1, 1(x2)
    (0x0011_4083, Some(0x1f0), (Ok(()), 0xf0, 12)), // lbu x1, 1(x2)
    (0x0011_1083, Some(0xf_8001), (Ok(()), 0xffff_8001, 12)), // lh x1, 1(x2)
    (0x0011_2083, Some(7), (Ok(()), 7, 12)), // lw x1, 1(x2)
    (0x0011_2083, None, (Err(REFUSED_LOAD), 0, 8)), // lw x1, 1(x2)
    (0x0031_00a3, Some(0), (Ok(()), 0, 12)), // sb x3, 1(x2)
    (0x0031_00a3, None, (Err(REFUSED_STORE), 0, 8)), // sb x3, 1(x2)
    (0x0031_00b3, None, (Ok(()), 0x1234_577b, 12)), // add x1, x2, x3
    (0x0100_00ef, None, (Ok(()), 12, 24)), // jal x1, 16
    (
        0,
        None,
        (Err(InstructionException::IllegalInstruction(8, 0)), 0, 8),
    ),
];

/// Words, each with what it asks.
static ASKED: [(u32, Result<Option<DataRequest>, InstructionException>); 5] = [
    (
        0x0011_1083,
        Ok(Some(DataRequest::Load(0x104, MemAccessSize::HalfWord))),
    ),
    (
        0x0031_00a3,
        Ok(Some(DataRequest::Store(0x104, MemAccessSize::Byte, 0x1234_5678))),
    ),
    (
        0x0001_2083,
        Err(InstructionException::AlignmentFault(0x103)),
    ), // lw x1, 0(x2)
    (0x0031_00b3, Ok(None)),
    (0x0000_0073, Err(InstructionException::EnvironmentCall(8))),
];

// What is asked: the size of the row, the address, and the whole register that is stored. A load is
// extended, a refusal is the exception of the access, and all else needs no answer.
#[test]
fn instructions_ask_and_are_completed(rt: HostRuntime) -> Result<(), Fail> {
    let hart = hart_of(8, &[(2, 0x103), (3, 0x1234_5678)]);
    for &(word, expected) in &ASKED {
        assert!(rt; request(&hart, word) == expected, "{word:#x} asks");
    }
    for &(word, given, expected) in &COMPLETED {
        assert!(rt; completed(word, given) == expected, "{word:#x}");
    }
    Ok(())
}
