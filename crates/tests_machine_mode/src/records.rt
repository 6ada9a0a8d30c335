//! Records of steps, in the shape of RVFI.

use crate::steps::{QUIET, START, holds_at};
use rrs_lib::HartState;
use rrs_lib::instruction_executor::InstructionExecutor;
use rrs_lib::memories::VecMemory;
use rrs_machine::{
    CsrAccess, CsrFile, Inputs, MachineAnswer, MachineRetired, step_machine_retired,
};
use std::alloc::{AllocError, Global};
use std::test::Fail;

/// A CSR's number, the bits that are read and what they are, and the bits that are written and what
/// they get.
type Access = (u32, u32, u32, u32, u32);

/// No CSR.
const NO_CSR: Access = (0, 0, 0, 0, 0);

/// What was read and written of a CSR.
fn access_of(csr: CsrAccess) -> Access {
    (csr.addr, csr.rmask, csr.rdata, csr.wmask, csr.wdata)
}

/// A step of a word at [START], the first one of a handler, where x6 is 0x1234 and x7 is 1, `mie`
/// is 0x880, `mscratch` is 5 and MPIE is 1.
fn record_of(
    alloc: Global,
    word: u32,
    mstatus: u32,
    inputs: &Inputs,
) -> Result<(MachineAnswer, MachineRetired), AllocError> {
    let mut words = vec![in alloc; 0; 128]?;
    if let Some(place) = words.get_mut(64) {
        *place = word;
    }
    let mut memory = VecMemory::new(words);
    let mut hart = HartState::new();
    let mut csrs = CsrFile::new();
    hart.pc = START;
    hart.registers[6] = 0x1234;
    hart.registers[7] = 1;
    csrs.mstatus = mstatus;
    csrs.mie = 0x880;
    csrs.mscratch = 5;
    csrs.mtvec = 0x40;
    csrs.mcycle = 9;
    let mut executor = InstructionExecutor {
        mem: &mut memory,
        hart_state: &mut hart,
    };
    Ok(step_machine_retired(&mut executor, &mut csrs, inputs, 7, true))
}

/// Words, the cause of their trap or 0, rs1, rd and what it gets, and their CSR.
static RECORDS: [(u32, u32, usize, usize, u32, Access); 9] = [
    // csrrw x5, mscratch, x6
    (
        0x3403_12f3,
        0,
        6,
        5,
        5,
        (0x340, 0xffff_ffff, 5, 0xffff_ffff, 0x1234),
    ),
    // csrrw x0, mscratch, x6
    (0x3403_1073, 0, 6, 0, 0, (0x340, 0, 0, 0xffff_ffff, 0x1234)),
    // csrrs x5, mstatus, x0
    (
        0x3000_22f3,
        0,
        0,
        5,
        0x1880,
        (0x300, 0xffff_ffff, 0x1880, 0, 0),
    ),
    // csrrsi x5, mstatus, 8
    (
        0x3004_62f3,
        0,
        0,
        5,
        0x1880,
        (0x300, 0xffff_ffff, 0x1880, 0x88, 0x88),
    ),
    // csrrc x0, mie, x6
    (
        0x3043_3073,
        0,
        6,
        0,
        0,
        (0x304, 0xffff_ffff, 0x880, 0x888, 0x880),
    ),
    // csrrs x5, cycle, x6
    (0xc003_22f3, 2, 6, 0, 0, NO_CSR),
    // add x5, x6, x7
    (0x0073_02b3, 0, 6, 5, 0x1235, NO_CSR),
    // ecall
    (0x0000_0073, 11, 0, 0, 0, NO_CSR),
    // mret
    (0x3020_0073, 0, 0, 0, 0, NO_CSR),
];

/// What is seen of a step in its record: the instruction's number and word, the pc and the mode;
/// whether it is valid, and the first of a handler; rs1, rd, what it gets, and the CSR; and whether
/// the step trapped, with which cause, and whether it retired.
type Seen = (
    (u64, Option<u32>, u32, u8),
    (bool, bool),
    (usize, usize, u32, Access),
    (bool, Option<u32>, bool),
);

/// What is seen of a step in its record.
fn seen_of(answer: MachineAnswer, record: &MachineRetired) -> Seen {
    let retired = &record.retired;
    let csr = access_of(record.csr);
    (
        (retired.order, retired.insn, retired.pc_rdata, record.mode),
        (record.valid, record.intr),
        (retired.rs1_addr, retired.rd_addr, retired.rd_wdata, csr),
        (retired.trap, record.cause, answer == MachineAnswer::Retired),
    )
}

#[test]
fn each_record(rt: HostRuntime) -> Result<(), Fail> {
    for &(word, cause, rs1, rd, value, csr) in &RECORDS {
        let (answer, record) = record_of(rt.alloc(), word, 0x80, &QUIET)?;
        let cause = if cause == 0 { None } else { Some(cause) };
        let wanted = (
            (7, Some(word), START, 3),
            (true, true),
            (rs1, rd, value, csr),
            (cause.is_some(), cause, cause.is_none()),
        );
        holds_at(&rt, word, seen_of(answer, &record) == wanted);
    }
    Ok(())
}

#[test]
fn an_interrupt_is_no_instruction(rt: HostRuntime) -> Result<(), Fail> {
    let told = Inputs {
        timer: true,
        ..QUIET
    };
    let (_answer, record) = record_of(rt.alloc(), 0x3403_12f3, 8, &told)?;
    let retired = record.retired;
    let seen = (
        (record.valid, record.intr, retired.trap),
        (record.cause, retired.insn),
        (retired.pc_rdata, retired.pc_wdata),
        (retired.rs1_addr, retired.rd_addr, access_of(record.csr)),
    );
    let wanted = (
        (false, false, false),
        (Some(0x8000_0007), None),
        (START, 0x40),
        (0, 0, NO_CSR),
    );
    assert!(rt; seen == wanted);
    Ok(())
}

#[test]
fn a_load_is_recorded(rt: HostRuntime) -> Result<(), Fail> {
    // lw x5, 256(x0): the word itself
    let (_answer, record) = record_of(rt.alloc(), 0x1000_2283, 0, &QUIET)?;
    let mem = record.retired.mem;
    let left = (record.retired.rd_wdata, access_of(record.csr));
    assert!(rt;
        (mem.addr, mem.rmask, mem.rdata) == (START, 0xf, 0x1000_2283)
            && left == (0x1000_2283, NO_CSR)
    );
    Ok(())
}
