//! A commit log in the words of Spike's `--log-commits`, a watchpoint, and breakpoints, over what
//! steps retire. `docs/HOSTS.md` shows them.

use crate::machines::memory_of;
use rrs_lib::instruction_executor::{InstructionException, InstructionExecutor};
use rrs_lib::{HartState, Memory};
use rrs_trace::{
    MemoryAccess, Retired, StopEnd, StopReason, run_until, step_retired, step_retired_parts,
};
use std::alloc::AllocError;
use std::fmt::Write;
use std::test::Fail;
use tests_shared::hart_of;

/// Words with stores of two sizes, loads of two, and an end.
const PROGRAM: [u32; 8] = [
    0x1234_b137, // lui x2, 0x1234b
    0x02a0_0513, // addi x10, x0, 42
    0x0420_2023, // sw x2, 64(x0)
    0x04a0_01a3, // sb x10, 67(x0)
    0x0400_2283, // lw x5, 64(x0)
    0x0420_1003, // lh x0, 66(x0)
    0x0005_0463, // beq x10, x0, 8
    0,
];

/// Appends the line of a step in a commit log: hart 0, in machine mode. A step that trapped has
/// none.
fn append_line(log: &mut String, retired: &Retired) -> Result<(), AllocError> {
    let Some(word) = retired.insn else {
        return Ok(());
    };
    if retired.trap {
        return Ok(());
    }
    write!(log, "core   0: 3 0x{:08x} (0x{word:08x})", retired.pc_rdata)?;
    if retired.rd_addr != 0 {
        write!(log, " x{:<2} 0x{:08x}", retired.rd_addr, retired.rd_wdata)?;
    }
    append_access(log, retired.mem)?;
    writeln!(log)
}

/// Appends the access of a step: the address, and the data of a store, in as many digits as its
/// bytes have.
fn append_access(log: &mut String, mem: MemoryAccess) -> Result<(), AllocError> {
    let (addr, data) = (mem.addr, mem.wdata);
    if mem.wmask == 0 && mem.rmask == 0 {
        return Ok(());
    }
    write!(log, " mem 0x{addr:08x}")?;
    match mem.wmask {
        0 => Ok(()),
        0b1 => write!(log, " 0x{data:02x}"),
        0b11 => write!(log, " 0x{data:04x}"),
        _ => write!(log, " 0x{data:08x}"),
    }
}

/// Makes a step, with this number.
fn told<M: Memory>(mem: &mut M, hart_state: &mut HartState, order: u64) -> Retired {
    let mut executor = InstructionExecutor { mem, hart_state };
    let (_answer, retired) = step_retired(&mut executor, order);
    retired
}

/// Makes the same step of a hart whose registers and pc are arguments.
fn told_by_parts<M: Memory>(mem: &mut M, hart: &mut HartState, order: u64) -> Retired {
    let (end, retired) = step_retired_parts(mem, &mut hart.registers, hart.pc, order);
    hart.pc = end.pc;
    hart.last_register_write = end.last_register_write;
    retired
}

/// Runs to a limit or a stop.
fn stopped<M: Memory>(
    mem: &mut M,
    hart_state: &mut HartState,
    limit: u64,
    stops: &[u32],
) -> StopEnd {
    let mut executor = InstructionExecutor { mem, hart_state };
    run_until(&mut executor, limit, stops)
}

/// Whether a step wrote the byte at an address.
fn writes_to(retired: &Retired, watched: u32) -> bool {
    let mem = retired.mem;
    let offset = watched.wrapping_sub(mem.addr);
    offset < 4 && mem.wmask & (1 << offset) != 0
}

/// The log of the program.
const LOG: &str = "\
core   0: 3 0x00000000 (0x1234b137) x2  0x1234b000
core   0: 3 0x00000004 (0x02a00513) x10 0x0000002a
core   0: 3 0x00000008 (0x04202023) mem 0x00000040 0x1234b000
core   0: 3 0x0000000c (0x04a001a3) mem 0x00000043 0x2a
core   0: 3 0x00000010 (0x04002283) x5  0x2a34b000 mem 0x00000040
core   0: 3 0x00000014 (0x04201003) mem 0x00000042
core   0: 3 0x00000018 (0x00050463)
";

/// Whether two harts have the same state.
fn are_alike(hart: &HartState, other: &HartState) -> bool {
    let last = hart.last_register_write == other.last_register_write;
    last && hart.pc == other.pc && hart.registers == other.registers
}

// The form of a line is that of Spike's log: `core`, the hart, the privilege, the pc, the word, the
// register that was written, and the address of an access, of a store with the data. The byte at
// 0x43 is watched: it is written by the store of a word, and by that of a byte. Each step of the
// program, and the illegal instruction after it, retires alike by parts.
#[test]
fn steps_are_told_with_their_lines_and_writes(rt: HostRuntime) -> Result<(), Fail> {
    let mut memory = memory_of(rt.alloc(), &PROGRAM, 32)?;
    let mut other = memory_of(rt.alloc(), &PROGRAM, 32)?;
    let mut hart = hart_of(0, &[]);
    let mut parts = hart_of(0, &[]);
    let mut log = String::new(rt.alloc());
    let mut writes = [0; 9];
    for (order, write) in writes.iter_mut().enumerate() {
        let retired = told(&mut memory, &mut hart, order as u64);
        let alike = told_by_parts(&mut other, &mut parts, order as u64);
        assert!(rt;
            alike == retired && are_alike(&parts, &hart),
            "step {order}"
        );
        append_line(&mut log, &retired)?;
        if writes_to(&retired, 0x43) {
            *write = retired.mem.wdata;
        }
    }
    let is_right = log.as_str() == LOG && writes == [0, 0, 0x1234_b000, 0x2a, 0, 0, 0, 0, 0];
    assert!(rt; is_right && hart.pc == 0x1c && hart.last_register_write.is_none());
    Ok(())
}

/// Limits, each with the steps of the run to it, the pc after it, and why it stopped.
static STOPPED: [(u64, u64, u32, StopReason); 5] = [
    (9, 2, 0x08, StopReason::AtStop),
    (0, 0, 0x08, StopReason::Limit),
    (2, 2, 0x10, StopReason::AtStop),
    (1, 1, 0x14, StopReason::Limit),
    (
        9,
        2,
        0x1c,
        StopReason::Fault(InstructionException::IllegalInstruction(0x1c, 0)),
    ),
];

// A run goes on from a stop, tells a stop at the limit, and ends at an exception or the limit
// otherwise.
#[test]
fn a_run_stops_at_breakpoints(rt: HostRuntime) -> Result<(), Fail> {
    let mut memory = memory_of(rt.alloc(), &PROGRAM, 32)?;
    let mut hart = hart_of(0, &[]);
    let stops = [0x10, 0, 0x08];
    for (row, (limit, steps, pc, reason)) in STOPPED.iter().enumerate() {
        let end = stopped(&mut memory, &mut hart, *limit, &stops);
        let is_right = end.steps == *steps && end.reason == *reason && hart.pc == *pc;
        assert!(rt; is_right, "run {row}");
    }
    Ok(())
}
