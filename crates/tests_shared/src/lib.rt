//! What the tests of several crates share: harts, their runs, loads and stores of their memories,
//! how runs end, and a word of each row.

#![tactic(auto)]

mod rows;

ghost use Rattle.std.specs.Prelude.{◌≡◌, ◌%◌};
ghost use Rattle.rrs_lib.specs.Bytes.{width};

pub use rows::ROWS;
use rrs_lib::instruction_executor::{InstructionException, InstructionExecutor, RunEnd};
use rrs_lib::{HartState, MemAccessSize, Memory};

/// A hart at a pc, with these registers and 0 in the others.
pub fn hart_of(pc: u32, registers: &[(usize, u32)]) -> HartState {
    let mut hart = HartState::new();
    hart.pc = pc;
    for (index, value) in registers {
        if let Some(entry) = hart.registers.get_mut(*index) {
            *entry = *value;
        }
    }
    hart
}

/// Runs a hart over a memory.
pub fn run_over<M: Memory>(mem: &mut M, hart_state: &mut HartState, limit: u64) -> RunEnd {
    let mut executor = InstructionExecutor { mem, hart_state };
    executor.run(limit)
}

/// What is read from an address, which is a multiple of the size.
pub fn read_at<M: Memory>(memory: &mut M, addr: u32, size: MemAccessSize) -> Option<u32>
    requires { addr % width size ≡ 0 }
{
    memory.read_mem(addr, size)
}

/// Writes to an address, which is a multiple of the size, and returns whether this was granted.
pub fn write_at<M: Memory>(memory: &mut M, addr: u32, size: MemAccessSize, value: u32) -> bool
    requires { addr % width size ≡ 0 }
{
    memory.write_mem(addr, size, value)
}

/// So many steps that were `Ok`, and then this exception.
pub fn faulted(steps: u64, fault: InstructionException) -> RunEnd {
    RunEnd {
        steps,
        exception: Some(fault),
    }
}

/// So many steps that were `Ok`, and then a word of zeros at an address.
pub fn end_at(steps: u64, pc: u32) -> RunEnd {
    faulted(steps, InstructionException::IllegalInstruction(pc, 0))
}
