//! Each number of a CSR by each of the six instructions.

use crate::steps::{PLAIN, START, holds_at, step_word};
use rrs_lib::HartState;
use rrs_machine::{CsrFile, Exception, Inputs, MachineAnswer, Mode, Profile};
use std::alloc::{AllocError, Global};
use std::test::Fail;

/// What the hart keeps before each instruction. Both counters stand still.
const BEFORE: CsrFile = CsrFile {
    profile: Profile {
        hart: PLAIN,
        user_mode: false,
    },
    mode: Mode::Machine,
    mstatus: 0x80,
    mie: 0x800,
    mtvec: 0x8000_0101,
    mcounteren: 0,
    mscratch: 0x1234_5678,
    mepc: 0x8000_0abc,
    mcause: 0x8000_000b,
    mtval: 0xdead_beef,
    mcountinhibit: 5,
    mcycle: 0x1111_2222_3333_4444,
    minstret: 0x5555_6666_7777_8888,
    reservation: None,
};

/// What it is told.
const TOLD: Inputs = Inputs {
    external: false,
    software: true,
    timer: true,
    time: 0x0123_4567_89ab_cdef,
};

/// The CSRs with a name of their own: number, value before, and the bits that a write changes.
/// Those whose number has two ones as its highest bits are read only.
static NAMED: [(u32, u32, u32); 26] = [
    (0x300, 0x1880, 0x88), // mstatus: MPP is 3, MIE and MPIE are written
    (0x301, 0x4000_1100, 0), // misa: RV32IM
    (0x304, 0x800, 0x888), // mie
    (0x305, 0x8000_0101, 0xffff_fffd), // mtvec
    (0x310, 0, 0), // mstatush
    (0x320, 5, 5), // mcountinhibit: CY and IR
    (0x340, 0x1234_5678, 0xffff_ffff), // mscratch
    (0x341, 0x8000_0abc, 0xffff_fffc), // mepc
    (0x342, 0x8000_000b, 0xffff_ffff), // mcause
    (0x343, 0xdead_beef, 0xffff_ffff), // mtval
    (0x344, 0x88, 0), // mip
    (0xb00, 0x3333_4444, 0xffff_ffff), // mcycle
    (0xb02, 0x7777_8888, 0xffff_ffff), // minstret
    (0xb80, 0x1111_2222, 0xffff_ffff), // mcycleh
    (0xb82, 0x5555_6666, 0xffff_ffff), // minstreth
    (0xc00, 0x3333_4444, 0), // cycle
    (0xc01, 0x89ab_cdef, 0), // time
    (0xc02, 0x7777_8888, 0), // instret
    (0xc80, 0x1111_2222, 0), // cycleh
    (0xc81, 0x0123_4567, 0), // timeh
    (0xc82, 0x5555_6666, 0), // instreth
    (0xf11, 0, 0), // mvendorid
    (0xf12, 0, 0), // marchid
    (0xf13, 0, 0), // mimpid
    (0xf14, 0, 0), // mhartid
    (0xf15, 0, 0), // mconfigptr
];

/// `mhpmevent3`, `mhpmcounter3` and `mhpmcounter3h`: of each there are 29, up to 31, which read 0
/// whatever is written.
static MONITORS: [u32; 3] = [0x323, 0xb03, 0xb83];

/// The value before, and the bits that a write changes, where a number is that of a CSR.
fn row_of(number: u32) -> Option<(u32, u32)> {
    for &(named, value, mask) in &NAMED {
        if named == number {
            return Some((value, mask));
        }
    }
    for first in &MONITORS {
        if number.wrapping_sub(*first) < 29 {
            return Some((0, 0));
        }
    }
    None
}

/// The instruction with this funct3 on a CSR, from the place of rs1 to x5.
fn word_of(number: u32, funct3: u32, rs1: u32) -> u32 {
    (number << 20) | (rs1 << 15) | (funct3 << 12) | 0x2f3
}

/// What the specification says that an instruction writes.
fn written(funct3: u32, old: u32, operand: u32) -> u32 {
    match funct3 {
        1 | 5 => operand,
        2 | 6 => old | operand,
        _ => old & !operand,
    }
}

/// The operand: x0, x21, or the place of rs1 itself.
fn operand_of(funct3: u32, rs1: u32) -> u32 {
    match (funct3, rs1) {
        (1..=3, 21) => 0x8f0f_0f8e,
        _ => rs1,
    }
}

/// What is seen of an instruction: how its step ends, x5 and the pc after it, what a further
/// instruction reads where it retired, and the CSRs, after the value before is written again.
type Seen = (MachineAnswer, u32, u32, u32, CsrFile);

/// What is seen of an instruction.
fn seen(alloc: Global, number: u32, funct3: u32, rs1: u32) -> Result<Seen, AllocError> {
    let mut hart = HartState::new();
    let mut csrs = BEFORE;
    hart.pc = START;
    hart.registers[5] = 7;
    hart.registers[21] = 0x8f0f_0f8e;
    let word = word_of(number, funct3, rs1);
    let answer = step_word(alloc, word, &mut hart, &mut csrs, &TOLD)?;
    let (old, pc) = (hart.registers[5], hart.pc);
    if answer != MachineAnswer::Retired {
        return Ok((answer, old, pc, 0, csrs));
    }
    for (funct3, rs1) in [(2, 0), (1, 21)] {
        hart.pc = START;
        hart.registers[21] = old;
        if rs1 == 0 || number < 0xc00 {
            let word = word_of(number, funct3, rs1);
            step_word(alloc, word, &mut hart, &mut csrs, &TOLD)?;
        }
    }
    if number == 0x320 {
        // The counters go on where they are not stopped.
        csrs.mcycle = BEFORE.mcycle;
        csrs.minstret = BEFORE.minstret;
    }
    Ok((answer, old, pc, hart.registers[5], csrs))
}

/// What is to be seen of an instruction.
fn wanted(number: u32, funct3: u32, rs1: u32) -> Seen {
    let word = word_of(number, funct3, rs1);
    let trapped = CsrFile {
        mstatus: 0,
        mepc: START,
        mcause: 2,
        mtval: word,
        ..BEFORE
    };
    let refused = MachineAnswer::Raised(Exception::IllegalInstruction(word));
    let illegal = (refused, 7, 0x8000_0100, 0, trapped);
    let is_write = funct3 == 1 || funct3 == 5 || rs1 != 0;
    match row_of(number) {
        Some(_) if number >= 0xc00 && is_write => illegal,
        Some((old, mask)) => {
            let value = written(funct3, old, operand_of(funct3, rs1));
            let new = (value & mask) | (old & !mask);
            (MachineAnswer::Retired, old, START + 4, new, BEFORE)
        }
        None => illegal,
    }
}

#[test]
fn each_number_by_each(rt: HostRuntime) -> Result<(), Fail> {
    for number in 0..4096 {
        for funct3 in [1, 2, 3, 5, 6, 7] {
            for rs1 in [0, 21] {
                let found = seen(rt.alloc(), number, funct3, rs1)?;
                let is_wanted = found == wanted(number, funct3, rs1);
                holds_at(&rt, word_of(number, funct3, rs1), is_wanted);
            }
        }
    }
    Ok(())
}
