//! The program that prints: called with its premises proved, and run on chosen strings.

ghost use Rattle.std.specs.Prelude.{◌≡◌, ◌+◌, ◌*◌, ◌<◌, ◌≤◌, length, IfOk, IsTrue};
ghost use Rattle.rrs_extra.specs.Programs.{HoldsWords, HoldsIllegal};
ghost use Rattle.rrs_programs.specs.Printing.{HoldsString, put_string_program};
ghost use Rattle.tests_host.specs.ProgramExamples.{words_to_print};

use crate::machines::{beside_port, has_logged};
use rrs_lib::instruction_executor::{InstructionException, InstructionExecutor, RunEnd};
use rrs_lib::memories::{MemorySpace, VecMemory};
use rrs_lib::{HartState, Memory};
use rrs_programs::{RamOrPort, put_string};
use std::alloc::{AllocError, Global};
use std::test::Fail;
use tests_shared::{end_at, faulted, hart_of, run_over};

/// The program, an illegal instruction at 24, a string of 14 bytes at 28, and a word at 44.
fn words_to_print(alloc: Global) -> Result<VecMemory, AllocError>
    ensures { IfOk result (λ memory. memory.mem.items ≡ words_to_print) }
{
    let words = [
        0x0005c783, 0x00079463, 0x00008067, 0x00158593, 0x00f50023, 0xfedff06f, 0, 0x6c6c6548,
        0x52202c6f, 0x2d435349, 0x00002156, 0x55555555,
    ];
    Ok(VecMemory::new(words.to_vec(alloc)?))
}

/// Calls the program at 0 to print the string at one address to the port at another, after it; it
/// returns to 24.
fn print<M: Memory>(
    mem: &mut M,
    hart_state: &mut HartState,
    from: u32,
    port: u32,
    text: &[u8],
) -> RunEnd
    requires program { HoldsWords (M.bytes mem.old) 0 put_string_program }
    requires behind { HoldsIllegal (M.bytes mem.old) 24 }
    requires string { HoldsString (M.bytes mem.old) from text.now }
    requires past_program { 28 ≤ from }
    requires past_string { from + length text.now < port }
    requires writable { IsTrue (M.writable mem.old port) }
    ensures { result.steps ≡ 5 * length text.now + 3 }
{
    hart_state.pc = 0;
    hart_state.registers[1] = 24;
    hart_state.registers[10] = port;
    hart_state.registers[11] = from;
    let mut executor = InstructionExecutor { mem, hart_state };
    put_string(&mut executor, text)
}

#[test]
fn prints_a_string(rt: HostRuntime) -> Result<(), Fail> {
    let mut memory = words_to_print(rt.alloc())?;
    let mut hart = HartState::new();
    let end = print(&mut memory, &mut hart, 28, 46, b"Hello, RISC-V!");
    let left = (end, hart.pc, memory.mem.get(11).copied());
    assert!(rt; left == (end_at(73, 24), 24, Some(0x55215555)));
    Ok(())
}

/// A space of the words and of a port at 0x1000_0000, with room for as many bytes.
fn machine(alloc: Global, room: usize) -> Result<MemorySpace<RamOrPort>, Fail> {
    beside_port(alloc, words_to_print(alloc)?, 48, 0x1000_0000, room)
}

/// Runs the program at 0 on the string at an address, over a port at another.
fn run_from(space: &mut MemorySpace<RamOrPort>, from: u32, port: u32) -> RunEnd {
    let mut hart = hart_of(0, &[(1, 24), (10, port), (11, from)]);
    run_over(space, &mut hart, 100)
}

/// Starts of strings and ports, one after the other, each with the steps of the run. The last
/// string finds no room for its end; the first is empty.
static PRINTED: [(u32, u32, u64); 5] = [
    (42, 0x1000_0000, 3),
    (28, 0x1000_0000, 73),
    (28, 0x1000_0001, 3),
    (41, 0x1000_0000, 8),
    (35, 0x1000_0000, 38),
];

/// How a run of so many steps over a port at an address ends: after the byte of the port there is
/// nothing to write to, though its region has four addresses.
fn ends_at(port: u32, steps: u64) -> RunEnd {
    if port == 0x1000_0000 {
        end_at(steps, 24)
    } else {
        faulted(steps, InstructionException::StoreAccessFault(port))
    }
}

#[test]
fn a_port_logs_what_is_printed(rt: HostRuntime) -> Result<(), Fail> {
    let mut space = machine(rt.alloc(), 20)?;
    for &(from, port, steps) in &PRINTED {
        assert!(rt;
            run_from(&mut space, from, port) == ends_at(port, steps),
            "from {from}"
        );
    }
    assert!(rt; has_logged(&space, b"Hello, RISC-V!!RISC-", 0x21, 2));
    Ok(())
}
