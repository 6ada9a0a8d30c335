//! Each trap, and which interrupt is taken.

use crate::steps::{PLAIN, QUIET, START, holds_at, step_word};
use rrs_lib::HartState;
use rrs_machine::{CsrFile, Inputs, Interrupt, MachineAnswer, Mode, Profile};
use std::alloc::{AllocError, Global};
use std::test::Fail;

/// A word, the value of x6, and the cause, value and pc that its exception leaves in `mcause`,
/// `mtval` and `mepc`. The word stands at [START].
static EXCEPTIONS: [(u32, u32, u32, u32); 28] = [
    (0x0020_02ef, 0, 0, START + 2), // jal x5, 2
    (0x0003_02e7, 0x202, 0, 0x202), // jalr x5, 0(x6)
    (0x0000_0363, 0, 0, START + 6), // beq x0, x0, 6
    (0x0003_1363, 1, 0, START + 6), // bne x6, x0, 6
    (0x0003_4363, 0x8000_0000, 0, START + 6), // blt x6, x0, 6
    (0x0003_5363, 1, 0, START + 6), // bge x6, x0, 6
    (0x0060_6363, 1, 0, START + 6), // bltu x0, x6, 6
    (0x0003_7363, 1, 0, START + 6), // bgeu x6, x0, 6
    (0x0000_0000, 0, 2, 0), // no instruction
    (0xffff_ffff, 0, 2, 0xffff_ffff), // no instruction
    (0x1020_0073, 0, 2, 0x1020_0073), // sret
    (0x3020_00f3, 0, 2, 0x3020_00f3), // mret with rd x1
    (0x1200_0073, 0, 2, 0x1200_0073), // sfence.vma x0, x0
    (0x0010_0073, 0, 3, START), // ebreak
    (0x0020_2283, 0, 4, 2), // lw x5, 2(x0)
    (0x0010_1283, 0, 4, 1), // lh x5, 1(x0)
    (0x0010_5283, 0, 4, 1), // lhu x5, 1(x0)
    (0x0003_2283, 0x8000_0000, 5, 0x8000_0000), // lw x5, 0(x6)
    (0x0003_0283, 0x8000_0001, 5, 0x8000_0001), // lb x5, 0(x6)
    (0x0003_1283, 0x8000_0002, 5, 0x8000_0002), // lh x5, 0(x6)
    (0x0003_4283, 0x8000_0003, 5, 0x8000_0003), // lbu x5, 0(x6)
    (0x0003_5283, 0x8000_0002, 5, 0x8000_0002), // lhu x5, 0(x6)
    (0x0050_2123, 0, 6, 2), // sw x5, 2(x0)
    (0x0050_10a3, 0, 6, 1), // sh x5, 1(x0)
    (0x0053_2023, 0x8000_0000, 7, 0x8000_0000), // sw x5, 0(x6)
    (0x0053_1023, 0x8000_0002, 7, 0x8000_0002), // sh x5, 0(x6)
    (0x0053_0023, 0x8000_0001, 7, 0x8000_0001), // sb x5, 0(x6)
    (0x0000_0073, 0, 11, 0), // ecall
];

/// A hart at a pc, with x5 and x6.
fn hart_at(pc: u32, x5: u32, x6: u32) -> HartState {
    let mut hart = HartState::new();
    hart.pc = pc;
    hart.registers[5] = x5;
    hart.registers[6] = x6;
    hart
}

/// CSRs as at reset, but for these.
fn csrs_with(mstatus: u32, mie: u32, mtvec: u32, mepc: u32) -> CsrFile {
    let mut csrs = CsrFile::new();
    csrs.mstatus = mstatus;
    csrs.mie = mie;
    csrs.mtvec = mtvec;
    csrs.mepc = mepc;
    csrs
}

/// What a step leaves: its answer, the pc and x5; `mcause`, `mtval`, `mepc` and `mstatus`; and
/// `mcycle` and `minstret`.
type Left = ((MachineAnswer, u32, u32), (u32, u32, u32, u32), (u64, u64));

/// What a step of a word at [START] leaves.
fn left_by(
    alloc: Global,
    word: u32,
    mut hart: HartState,
    mut csrs: CsrFile,
    told: &Inputs,
) -> Result<Left, AllocError> {
    let answer = step_word(alloc, word, &mut hart, &mut csrs, told)?;
    Ok((
        (answer, hart.pc, hart.registers[5]),
        (csrs.mcause, csrs.mtval, csrs.mepc, csrs.mstatus),
        (csrs.mcycle, csrs.minstret),
    ))
}

#[test]
fn each_exception(rt: HostRuntime) -> Result<(), Fail> {
    for &(word, x6, cause, value) in &EXCEPTIONS {
        let hart = hart_at(START, 7, x6);
        let left = left_by(rt.alloc(), word, hart, csrs_with(8, 0, 0x41, 0), &QUIET)?;
        let ((_answer, pc, x5), trap, counted) = left;
        let is_left = (pc, x5) == (0x40, 7) && counted == (1, 0);
        holds_at(&rt, word, is_left && trap == (cause, value, START, 0x80));
    }
    Ok(())
}

/// A pc, and the cause, value and `mepc` of its exception.
static FETCHES: [(u32, u32, u32, u32); 3] = [
    (START + 2, 0, START + 2, START),
    (0x200, 1, 0x200, 0x200),
    (0xffff_fffc, 1, 0xffff_fffc, 0xffff_fffc),
];

#[test]
fn each_fetch(rt: HostRuntime) -> Result<(), Fail> {
    for &(pc, cause, value, mepc) in &FETCHES {
        let hart = hart_at(pc, 0, 0);
        let left = left_by(rt.alloc(), 0, hart, csrs_with(0, 0, 0, 0), &QUIET)?;
        let ((_answer, handler, _x5), trap, _counted) = left;
        holds_at(&rt, pc, handler == 0 && trap == (cause, value, mepc, 0));
    }
    Ok(())
}

/// `mstatus`, `mie`, what is pending as in `mip`, and the code of the interrupt that is taken, or
/// 0.
static INTERRUPTS: [(u32, u32, u32, u32); 12] = [
    (8, 0x888, 0x888, 11),
    (8, 0x888, 0x088, 3),
    (8, 0x888, 0x080, 7),
    (8, 0x088, 0x888, 3),
    (8, 0x080, 0x888, 7),
    (8, 0x800, 0x088, 0),
    (8, 0x888, 0, 0),
    (8, 0, 0x888, 0),
    (0, 0x888, 0x888, 0),
    (0x80, 0x888, 0x888, 0),
    (8, 0x008, 0x880, 0),
    (8, 0x777, 0x888, 0),
];

/// The interrupts that are pending, by the bits of `mip`.
fn pending(bits: u32) -> Inputs {
    Inputs {
        external: bits & 0x800 != 0,
        software: bits & 8 != 0,
        timer: bits & 0x80 != 0,
        time: 0,
    }
}

/// The interrupt with a code.
fn interrupt_of(code: u32) -> Interrupt {
    match code {
        3 => Interrupt::Software,
        7 => Interrupt::Timer,
        _ => Interrupt::External,
    }
}

/// Where an interrupt goes, with the handlers at 0x40: direct, and vectored.
fn handler_of(mtvec: u32, code: u32) -> u32 {
    if mtvec == 0x40 {
        0x40
    } else {
        code.wrapping_mul(4).wrapping_add(0x40)
    }
}

/// What a `wfi` leaves with the handlers at this `mtvec`: its answer and the pc, and `mcause`,
/// `mepc` and `mstatus`.
fn wanted(interrupt: (u32, u32, u32, u32), mtvec: u32) -> (MachineAnswer, u32, [u32; 3]) {
    let (mstatus, mie, bits, code) = interrupt;
    if code != 0 {
        let taken = MachineAnswer::Interrupted(interrupt_of(code));
        let trap = [code | 0x8000_0000, START, 0x80];
        (taken, handler_of(mtvec, code), trap)
    } else if mie & bits != 0 {
        (MachineAnswer::Retired, START + 4, [0, 0, mstatus])
    } else {
        (MachineAnswer::Waiting, START + 4, [0, 0, mstatus])
    }
}

#[test]
fn each_interrupt(rt: HostRuntime) -> Result<(), Fail> {
    for &interrupt in &INTERRUPTS {
        let (enabled, mie, bits, _code) = interrupt;
        for mtvec in [0x40, 0x41] {
            let (hart, csrs) = (hart_at(START, 0, 0), csrs_with(enabled, mie, mtvec, 0));
            let left = left_by(rt.alloc(), 0x1050_0073, hart, csrs, &pending(bits))?;
            let ((answer, pc, _x5), (mcause, _mtval, mepc, mstatus), _counted) = left;
            let seen = (answer, pc, [mcause, mepc, mstatus]);
            let case = (enabled << 24) | (mie << 12) | bits;
            holds_at(&rt, case, seen == wanted(interrupt, mtvec));
        }
    }
    Ok(())
}

/// `mstatus` before an `mret`, and after it.
static RETURNS: [(u32, u32); 4] = [(0x80, 0x88), (0x88, 0x88), (8, 0x80), (0, 0x80)];

#[test]
fn mret_goes_back(rt: HostRuntime) -> Result<(), Fail> {
    for &(mstatus, after) in &RETURNS {
        let (hart, csrs) = (hart_at(START, 0, 0), csrs_with(mstatus, 0, 0, 0x1237));
        let left = left_by(rt.alloc(), 0x3020_0073, hart, csrs, &QUIET)?;
        let ((answer, pc, _x5), (_mcause, _mtval, _mepc, status), counted) = left;
        let is_left = (answer, pc, status) == (MachineAnswer::Retired, 0x1234, after);
        holds_at(&rt, mstatus, is_left && counted == (1, 1));
    }
    Ok(())
}

/// CSRs of a hart with user mode, in a mode, with the handlers at 0x40.
fn csrs_in(mode: Mode, mstatus: u32, mcounteren: u32) -> CsrFile {
    let mut csrs = CsrFile::with_profile(Profile {
        hart: PLAIN,
        user_mode: true,
    });
    csrs.mode = mode;
    csrs.mstatus = mstatus;
    csrs.mcounteren = mcounteren;
    csrs.mtvec = 0x40;
    csrs
}

/// A word in user mode, `mstatus` and `mcounteren`, and the cause of its exception, or 0 where the
/// next instruction follows.
static IN_USER_MODE: [(u32, u32, u32, u32); 24] = [
    (0x0000_0013, 8, 0, 0), // addi x0, x0, 0
    (0x0000_0073, 8, 0, 8), // ecall
    (0x0000_0073, 0x22_0000, 0, 8), // ecall, with MPRV and TW
    (0x0010_0073, 8, 0, 3), // ebreak
    (0x3020_0073, 0x1880, 0, 2), // mret
    (0x1050_0073, 8, 0, 0), // wfi
    (0x1050_0073, 0x20_0000, 0, 2), // wfi, with TW
    (0x0000_100f, 8, 0, 0), // fence.i
    (0x3000_22f3, 8, 7, 2), // csrrs x5, mstatus, x0
    (0x3400_1073, 8, 7, 2), // csrrw x0, mscratch, x0
    (0x3060_22f3, 8, 7, 2), // csrrs x5, mcounteren, x0
    (0xb000_22f3, 8, 7, 2), // csrrs x5, mcycle, x0
    (0xf140_22f3, 8, 7, 2), // csrrs x5, mhartid, x0
    (0xc000_22f3, 8, 6, 2), // csrrs x5, cycle, x0
    (0xc000_22f3, 8, 1, 0),
    (0xc010_22f3, 8, 5, 2), // csrrs x5, time, x0
    (0xc010_22f3, 8, 2, 0),
    (0xc020_22f3, 8, 3, 2), // csrrs x5, instret, x0
    (0xc020_22f3, 8, 4, 0),
    (0xc800_22f3, 8, 6, 2), // csrrs x5, cycleh, x0
    (0xc800_22f3, 8, 1, 0),
    (0xc820_22f3, 8, 3, 2), // csrrs x5, instreth, x0
    (0xc820_22f3, 8, 4, 0),
    (0xc000_12f3, 8, 7, 2), // csrrw x5, cycle, x0: it is read only
];

#[test]
fn user_mode_has_its_instructions(rt: HostRuntime) -> Result<(), Fail> {
    for &(word, mstatus, mcounteren, cause) in &IN_USER_MODE {
        let mut hart = hart_at(START, 0, 0);
        let mut csrs = csrs_in(Mode::User, mstatus, mcounteren);
        step_word(rt.alloc(), word, &mut hart, &mut csrs, &QUIET)?;
        let kept = mstatus & 0x22_0000;
        let wanted = if cause == 0 {
            (START + 4, Mode::User, mstatus, 0)
        } else {
            (0x40, Mode::Machine, kept | (mstatus / 8 % 2 * 0x80), START)
        };
        let left = (hart.pc, csrs.mode, csrs.mstatus, csrs.mepc);
        holds_at(&rt, word, left == wanted && csrs.mcause == cause);
    }
    Ok(())
}

/// A mode, `mstatus`, whether an interrupt that `mie` enables is taken, and `mstatus` then.
static ENABLED: [(Mode, u32, bool, u32); 4] = [
    (Mode::User, 0, true, 0),
    (Mode::User, 8, true, 0x80),
    (Mode::Machine, 0, false, 0),
    (Mode::Machine, 8, true, 0x1880),
];

#[test]
fn mie_masks_nothing_in_user_mode(rt: HostRuntime) -> Result<(), Fail> {
    for &(mode, mstatus, is_taken, after) in &ENABLED {
        let mut hart = hart_at(START, 0, 0);
        let mut csrs = csrs_in(mode, mstatus, 0);
        csrs.mie = 0x80;
        let told = pending(0x880);
        let answer = step_word(rt.alloc(), 0x0000_0013, &mut hart, &mut csrs, &told)?;
        let taken = answer == MachineAnswer::Interrupted(Interrupt::Timer);
        let left = (taken, csrs.mstatus, csrs.mode);
        holds_at(&rt, mstatus, left == (is_taken, after, Mode::Machine));
    }
    Ok(())
}

/// `mstatus` before an `mret` on a hart with user mode, the mode and `mstatus` after it.
static MODE_RETURNS: [(u32, Mode, u32); 7] = [
    (0x1880, Mode::Machine, 0x88),
    (0x1808, Mode::Machine, 0x80),
    (0x0080, Mode::User, 0x88),
    (0x0880, Mode::User, 0x88),
    (0x02_0080, Mode::User, 0x88),
    (0x02_1880, Mode::Machine, 0x02_0088),
    (0x22_0000, Mode::User, 0x20_0080),
];

#[test]
fn mret_goes_to_the_mode_in_mpp(rt: HostRuntime) -> Result<(), Fail> {
    for &(mstatus, mode, after) in &MODE_RETURNS {
        let mut hart = hart_at(START, 0, 0);
        let mut csrs = csrs_in(Mode::Machine, mstatus, 0);
        csrs.mepc = 0x1237;
        step_word(rt.alloc(), 0x3020_0073, &mut hart, &mut csrs, &QUIET)?;
        let left = (hart.pc, csrs.mode, csrs.mstatus);
        holds_at(&rt, mstatus, left == (0x1234, mode, after));
    }
    Ok(())
}

/// A CSR of a hart with user mode, what `mstatus` has before, a value that is written, and what is
/// read then. MPP keeps its value where 1 or 2 is written.
static WRITTEN: [(u32, u32, u32, u32); 10] = [
    (0x300, 0x1800, 0x0800, 0x1800),
    (0x300, 0, 0x1000, 0),
    (0x300, 0x1800, 0, 0),
    (0x300, 0, 0x1800, 0x1800),
    (0x300, 0, 0xffff_ffff, 0x22_1888),
    (0x300, 0x22_1888, 0xffff_e7ff, 0x22_0088),
    (0x301, 0, 0, 0x4010_1100),
    (0x306, 0, 0xffff_ffff, 7),
    (0x30a, 0, 0xffff_ffff, 0),
    (0x31a, 0, 0xffff_ffff, 0),
];

#[test]
fn csrs_of_user_mode(rt: HostRuntime) -> Result<(), Fail> {
    for &(number, mstatus, value, read) in &WRITTEN {
        let mut hart = hart_at(START, 0, value);
        let mut csrs = csrs_in(Mode::Machine, mstatus, 0);
        let write = (number << 20) | 0x3_1073;
        step_word(rt.alloc(), write, &mut hart, &mut csrs, &QUIET)?;
        hart.pc = START;
        let look = (number << 20) | 0x22f3;
        step_word(rt.alloc(), look, &mut hart, &mut csrs, &QUIET)?;
        holds_at(&rt, number, hart.registers[5] == read);
    }
    Ok(())
}
