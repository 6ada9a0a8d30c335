//! Compressed code in machine mode: where instructions lie, traps, returns, CSRs and records.

use crate::steps::{PLAIN, QUIET, START, step_over};
use rrs_board::{Board, BoardEvent};
use rrs_lib::HartState;
use rrs_lib::instruction_executor::InstructionExecutor;
use rrs_lib::memories::VecMemory;
use rrs_machine::{
    CsrFile, Exception, MachineAnswer, MachineRetired, Profile, step_machine_retired,
};
use rrs_words::HartProfile;
use std::alloc::{AllocError, Global};
use std::test::Fail;

/// Extension C beside machine mode.
const SHORT: Profile = Profile {
    hart: HartProfile {
        compressed: true,
        ..PLAIN
    },
    user_mode: false,
};

/// A memory of 512 bytes that has these half-words from [START] on.
fn memory_of(alloc: Global, [first, second, third]: [u32; 3]) -> Result<VecMemory, AllocError> {
    let mut words = vec![in alloc; 0; 128]?;
    if let Some(place) = words.get_mut(64) {
        *place = first % 0x1_0000 + second % 0x1_0000 * 0x1_0000;
    }
    if let Some(place) = words.get_mut(65) {
        *place = third % 0x1_0000;
    }
    Ok(VecMemory::new(words))
}

/// A hart at a pc, whose handlers are at 0x40.
fn at(pc: u32, profile: Profile) -> (HartState, CsrFile) {
    let mut hart = HartState::new();
    hart.pc = pc;
    let mut csrs = CsrFile::with_profile(profile);
    csrs.mtvec = 0x40;
    csrs.mscratch = 0x1234;
    (hart, csrs)
}

/// How a step ends at a pc, and what it leaves: the pc, x10, `mcause`, `mepc` and `mtval`.
type Left = (MachineAnswer, [u32; 5]);

/// What a step leaves over such half-words.
fn left_by(alloc: Global, profile: Profile, halves: [u32; 3], pc: u32) -> Result<Left, AllocError> {
    let mut memory = memory_of(alloc, halves)?;
    let (mut hart, mut csrs) = at(pc, profile);
    let answer = step_over(&mut memory, &mut hart, &mut csrs, &QUIET);
    let left = [
        hart.pc,
        hart.registers[10],
        csrs.mcause,
        csrs.mepc,
        csrs.mtval,
    ];
    Ok((answer, left))
}

/// What retires: the half-words, the pc, and the pc and x10 after it.
const RETIRE: [([u32; 3], u32, u32, u32); 7] = [
    ([0xa019, 0, 0], START, START + 6, 0), // c.j 6
    ([0, 0x4515, 0], START + 2, START + 4, 5), // c.li x10, 5
    ([0x006f, 0x0060, 0], START, START + 6, 0), // jal x0, 6
    ([0x056f, 0x0060, 0], START, START + 6, START + 4), // jal x10, 6
    ([0, 0x2573, 0x3400], START + 2, START + 6, 0x1234), // csrrs x10, mscratch, x0
    ([0x2573, 0x3010, 0], START, START + 4, 0x4000_1104), // csrrs x10, misa, x0
    ([0, 0x100f, 0], START + 2, START + 6, 0), // fence.i
];

#[test]
fn compressed_code_retires(rt: HostRuntime) -> Result<(), Fail> {
    let mut done = true;
    for (halves, pc, next, x10) in RETIRE {
        let left = left_by(rt.alloc(), SHORT, halves, pc)?;
        done = done && left == (MachineAnswer::Retired, [next, x10, 0, 0, 0]);
    }
    assert!(rt; done);
    Ok(())
}

/// What traps: the half-words, the pc, the exception, and its code and value.
const TRAP: [([u32; 3], u32, Exception, u32, u32); 4] = [
    (
        [0, 0x9002, 0],
        START + 2,
        Exception::Breakpoint(START + 2),
        3,
        START + 2,
    ), // c.ebreak
    ([0, 0, 0], START + 2, Exception::IllegalInstruction(0), 2, 0),
    (
        [0, 0x2503, 0x0020],
        START + 2,
        Exception::LoadMisaligned(2),
        4,
        2,
    ), // lw x10, 2(x0)
    (
        [0, 0x2123, 0x00a0],
        START + 2,
        Exception::StoreMisaligned(2),
        6,
        2,
    ), // sw x10, 2(x0)
];

#[test]
fn compressed_code_traps(rt: HostRuntime) -> Result<(), Fail> {
    let mut done = true;
    for (halves, pc, exception, code, value) in TRAP {
        let left = left_by(rt.alloc(), SHORT, halves, pc)?;
        done = done && left == (MachineAnswer::Raised(exception), [0x40, 0, code, pc, value]);
    }
    // A hart without compressed instructions fetches no word there, and jumps to none there.
    let words = Profile {
        hart: PLAIN,
        user_mode: false,
    };
    let odd = MachineAnswer::Raised(Exception::InstructionMisaligned(START + 2));
    let fetched = left_by(rt.alloc(), words, [0, 0x4515, 0], START + 2)?;
    done = done && fetched == (odd, [0x40, 0, 0, START, START + 2]);
    let strayed = MachineAnswer::Raised(Exception::InstructionMisaligned(START + 6));
    let jumped = left_by(rt.alloc(), words, [0x056f, 0x0060, 0], START)?;
    done = done && jumped == (strayed, [0x40, 0, 0, START, START + 6]);
    assert!(rt; done);
    Ok(())
}

#[test]
fn mepc_keeps_bit_1_and_mret_goes_there(rt: HostRuntime) -> Result<(), Fail> {
    let mut memory = memory_of(rt.alloc(), [0x0073, 0x3020, 0])?; // mret
    let (mut hart, mut csrs) = at(START, SHORT);
    csrs.mepc = START + 7;
    let answer = step_over(&mut memory, &mut hart, &mut csrs, &QUIET);
    assert_eq!(rt; (answer, hart.pc), (MachineAnswer::Retired, START + 6));
    Ok(())
}

#[test]
fn a_hart_without_fence_i_has_none(rt: HostRuntime) -> Result<(), Fail> {
    let profile = Profile {
        hart: HartProfile {
            fence_i: false,
            ..PLAIN
        },
        user_mode: false,
    };
    let illegal = MachineAnswer::Raised(Exception::IllegalInstruction(0x100f));
    let left = left_by(rt.alloc(), profile, [0x100f, 0, 0], START)?;
    assert!(rt; left == (illegal, [0x40, 0, 2, START, 0x100f]));
    Ok(())
}

/// The record of a step over such half-words.
fn record_of(alloc: Global, halves: [u32; 3], pc: u32) -> Result<MachineRetired, AllocError> {
    let mut memory = memory_of(alloc, halves)?;
    let (mut hart, mut csrs) = at(pc, SHORT);
    let mut executor = InstructionExecutor {
        mem: &mut memory,
        hart_state: &mut hart,
    };
    let (_answer, record) = step_machine_retired(&mut executor, &mut csrs, &QUIET, 1, false);
    Ok(record)
}

#[test]
fn compressed_code_is_recorded(rt: HostRuntime) -> Result<(), Fail> {
    let li = record_of(rt.alloc(), [0, 0x4515, 0], START + 2)?.retired; // c.li x10, 5
    let seen = (li.insn, li.pc_rdata, li.pc_wdata, li.rd_addr, li.rd_wdata);
    let read = record_of(rt.alloc(), [0, 0x2573, 0x3400], START + 2)?;
    let csr = (
        read.retired.insn,
        read.retired.pc_wdata,
        read.csr.addr,
        read.csr.rdata,
    );
    assert!(rt;
        seen == (Some(0x4515), START + 2, START + 4, 10, 5)
            && csr == (Some(0x3400_2573), START + 6, 0x340, 0x1234)
    );
    Ok(())
}

#[test]
fn a_short_jump_to_itself_is_dead(rt: HostRuntime) -> Result<(), Fail> {
    let image = [0x01, 0x00, 0x01, 0xa0]; // c.nop, c.j 0
    let Ok(mut board) = Board::load_image(rt.alloc(), &image, 1) else {
        return Ok(());
    };
    board.set_profile(SHORT);
    let events = (board.step().event, board.step().event);
    assert!(rt; events == (None, Some(BoardEvent::Spins)));
    // a leg, and the step that tells
    let end = board.run(100);
    assert!(rt; (end.steps, end.event) == (100, Some(BoardEvent::Spins)));
    Ok(())
}
