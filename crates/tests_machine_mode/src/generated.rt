//! 20,000 generated programs, half of them on a hart with user mode and extension A, beside a model
//! that is written from the specifications: `examples/machine/model.py` makes the same programs and
//! prints the tables of these tests.

use crate::steps::{PLAIN, holds_at, step_over};
use rrs_lib::HartState;
use rrs_lib::memories::VecMemory;
use rrs_machine::{CsrFile, Inputs, Mode, Profile};
use rrs_words::HartProfile;
use std::alloc::{AllocError, Global};
use std::test::Fail;

/// How many programs a checksum is of.
const PROGRAMS: u32 = 500;

/// How many steps a program makes.
const STEPS: u64 = 24;

/// How many words its memory has, all of which are generated.
const WORDS: usize = 64;

/// What the model answers: a checksum of what 500 programs left, with machine mode alone.
const CHECKSUMS: [u32; 20] = [
    0x6f8f_9641,
    0xde52_f601,
    0x5f02_c33e,
    0xc37b_8071,
    0x022f_473a,
    0xc0e6_d8f9,
    0x1d7e_d082,
    0x444b_af2f,
    0xabe5_de53,
    0x886b_63f6,
    0x9b2c_1b17,
    0x453e_1378,
    0x1d47_4541,
    0x2bb4_ea6d,
    0xb6ce_c1ab,
    0x1030_eaec,
    0xdf0e_8c86,
    0x22ab_fa49,
    0x4f72_f209,
    0xed99_7588,
];

/// The CSRs of the programs, and one that is none.
const NUMBERS: [u32; 24] = [
    0x300, 0x301, 0x304, 0x305, 0x310, 0x320, 0x340, 0x341, 0x342, 0x343, 0x344, 0xb00, 0xb02,
    0xb80, 0xb82, 0xb03, 0x323, 0xb9f, 0xc00, 0xc01, 0xc02, 0xc81, 0xf14, 0x180,
];

/// The same on a hart with user mode and extension A.
const USER_CHECKSUMS: [u32; 20] = [
    0xa1ea_2de8,
    0xef84_20fb,
    0x6a89_0558,
    0x31c7_2419,
    0x3066_3f33,
    0x73ba_29c0,
    0xfc6c_ca24,
    0x5070_3f49,
    0x607d_adc7,
    0xb6da_942a,
    0x4374_49a2,
    0x2b37_f042,
    0x9ffa_326e,
    0x6347_fe8d,
    0x1706_bf03,
    0x1194_f345,
    0x6b1a_5819,
    0xc360_5f37,
    0x1695_0609,
    0x03ab_7056,
];

/// The CSRs of the programs there.
const USER_NUMBERS: [u32; 24] = [
    0x300, 0x300, 0x300, 0x301, 0x304, 0x305, 0x306, 0x306, 0x30a, 0x31a, 0x320, 0x340, 0x341,
    0x342, 0x343, 0x344, 0xb00, 0xb02, 0xc00, 0xc01, 0xc02, 0xc80, 0xc82, 0xf14,
];

/// Pseudo-random numbers of 24 bits: a linear congruence modulo 2^32.
#[derive(Drop)]
struct Numbers {
    state: u32,
}

impl Numbers {
    fn next(&mut self) -> u32 {
        self.state = self
            .state
            .wrapping_mul(1_664_525)
            .wrapping_add(1_013_904_223);
        self.state >> 8
    }
}

/// A word of the I format.
fn i_type(imm: u32, rs1: u32, funct3: u32, rd: u32, opcode: u32) -> u32 {
    (imm << 20) | (rs1 << 15) | (funct3 << 12) | (rd << 7) | opcode
}

/// A store.
fn s_type(imm: u32, rs2: u32, funct3: u32) -> u32 {
    ((imm >> 5) << 25) | (rs2 << 20) | (funct3 << 12) | ((imm & 31) << 7) | 0x23
}

/// A branch to an offset below 64.
fn b_type(imm: u32, rs2: u32, rs1: u32, funct3: u32) -> u32 {
    ((imm >> 5) << 25)
        | (rs2 << 20)
        | (rs1 << 15)
        | (funct3 << 12)
        | (((imm >> 1) & 15) << 8)
        | 0x63
}

/// An instruction on a CSR.
fn csr_word(user_mode: bool, a: u32, rs1: u32, c: u32, rd: u32) -> u32 {
    let numbers = if user_mode { USER_NUMBERS } else { NUMBERS };
    let number = numbers.get(c as usize % 24).copied().unwrap_or(0);
    let funct3 = [1, 2, 3, 5, 6, 7]
        .get(a as usize / 8 % 6)
        .copied()
        .unwrap_or(0);
    i_type(number, rs1, funct3, rd, 0x73)
}

/// What bits 31 to 27 of the instructions of extension A are; `lr.w` and `sc.w` stand there thrice.
const FUNCT5: [u32; 15] = [2, 3, 2, 3, 2, 3, 1, 0, 4, 12, 8, 16, 20, 24, 28];

/// An instruction of extension A, or a `lr.w` with an operand, which is none.
fn atomic_word(a: u32, b: u32, rd: u32) -> u32 {
    let funct5 = FUNCT5.get(a as usize / 8 % 15).copied().unwrap_or(0);
    let rs1 = [0, 0, 6, 7].get(b as usize / 32 % 4).copied().unwrap_or(0);
    let rs2 = if funct5 == 2 && b / 0x80 % 8 != 0 {
        0
    } else {
        b % 8
    };
    let funct7 = (funct5 << 2) | (b / 8 % 4);
    (funct7 << 25) | (rs2 << 20) | (rs1 << 15) | (2 << 12) | (rd << 7) | 0x2f
}

/// An instruction of sixteen kinds.
fn word_of(user_mode: bool, numbers: &mut Numbers) -> u32 {
    let kind = numbers.next() % 16;
    let (a, b, c) = (numbers.next(), numbers.next(), numbers.next());
    word_by(user_mode, kind, a, b, c)
}

/// An instruction of this kind, by three numbers.
fn word_by(user_mode: bool, kind: u32, a: u32, b: u32, c: u32) -> u32 {
    let (rd, rs1) = (a % 8, b % 8);
    match kind {
        3..=4 if user_mode => atomic_word(a, b, rd),
        0..=4 => csr_word(user_mode, a, rs1, c, rd),
        5 => i_type(c % 4096, rs1, 0, rd, 0x13),
        6 => ((c % 8) << 20) | (rs1 << 15) | (rd << 7) | 0x33,
        7 => {
            let funct3 = [0, 1, 2, 4, 5].get(b as usize % 5).copied().unwrap_or(0);
            i_type(c % 288, 0, funct3, rd, 0x03)
        }
        8 => s_type(c % 288, rd, b % 3),
        9 => ((c % 64) << 21) | (rd << 7) | 0x6f,
        10 => b_type(c % 32 * 2, rd, rs1, b / 8 % 2),
        11 => i_type(c % 256, rs1, 0, rd, 0x67),
        12 => ((c % 2) << 20) | 0x73,
        13 => 0x3020_0073,
        14 => { if c % 2 == 0 { 0x1050_0073 } else { 0x0000_100f } }
        _ => (c << 8) | (a % 256),
    }
}

/// The memory of a program.
fn memory_of(
    alloc: Global,
    user_mode: bool,
    numbers: &mut Numbers,
) -> Result<VecMemory, AllocError> {
    let mut words = Vec::with_capacity(alloc, WORDS)?;
    for _ in 0..WORDS {
        words.push(word_of(user_mode, numbers))?;
    }
    Ok(VecMemory::new(words))
}

/// The hart of a program.
fn hart_of(numbers: &mut Numbers) -> HartState {
    let mut hart = HartState::new();
    for register in 1..8 {
        let high = numbers.next();
        let low = numbers.next();
        hart.registers[register] = (high << 8) ^ low;
    }
    hart
}

/// The mode, `mcounteren` and MPP of a program on a hart with user mode. In `mstatus` two more bits
/// are MPRV and TW.
fn take_mode(csrs: &mut CsrFile, numbers: &mut Numbers) {
    let told = numbers.next();
    csrs.mode = if told % 2 == 0 {
        Mode::User
    } else {
        Mode::Machine
    };
    csrs.mcounteren = told / 2 % 8;
    if told / 0x10 % 2 == 1 {
        csrs.mstatus |= 0x1800;
    }
    csrs.mstatus |= told & 0x22_0000;
}

/// Two addresses for the instructions of extension A: one aligned, and one of all.
fn take_addresses(hart: &mut HartState, numbers: &mut Numbers) {
    hart.registers[6] = numbers.next() % 80 * 4;
    hart.registers[7] = numbers.next() % 0x100;
}

/// The address that is reserved, and past all addresses where none is.
fn reserved(csrs: &CsrFile) -> u32 {
    csrs.reservation.unwrap_or(u32::MAX)
}

/// The CSRs of a program.
fn csrs_of(user_mode: bool, numbers: &mut Numbers) -> CsrFile {
    let mut csrs = CsrFile::with_profile(Profile {
        hart: HartProfile {
            atomics: user_mode,
            ..PLAIN
        },
        user_mode,
    });
    csrs.mstatus = numbers.next() & 0x88;
    csrs.mie = numbers.next() & 0x888;
    let base = numbers.next() % 32 * 4;
    csrs.mtvec = base + numbers.next() % 2;
    csrs.mepc = numbers.next() % 32 * 4;
    csrs.mcycle = u64::from(numbers.next()) << 20;
    csrs.minstret = u64::from(numbers.next()) << 20;
    if user_mode {
        take_mode(&mut csrs, numbers);
    }
    csrs
}

/// What a step is told.
fn inputs_of(numbers: &mut Numbers, step: u64) -> Inputs {
    let told = numbers.next();
    let some = told / 8 % 4 == 0;
    Inputs {
        external: some && told % 2 == 1,
        software: some && told / 2 % 2 == 1,
        timer: some && told / 4 % 2 == 1,
        time: (u64::from(told) << 16) | step,
    }
}

/// A checksum with one more value.
fn mixed(checksum: u32, value: u32) -> u32 {
    (checksum ^ value).wrapping_mul(16_777_619)
}

/// A checksum with the CSRs.
fn with_csrs(checksum: u32, csrs: &CsrFile) -> u32 {
    let mut checksum = checksum;
    for value in [
        csrs.mstatus,
        csrs.mie,
        csrs.mtvec,
        csrs.mscratch,
        csrs.mepc,
        csrs.mcause,
        csrs.mtval,
        csrs.mcountinhibit,
        (csrs.mcycle % 0x1_0000_0000) as u32,
        (csrs.mcycle >> 32) as u32,
        (csrs.minstret % 0x1_0000_0000) as u32,
        (csrs.minstret >> 32) as u32,
    ] {
        checksum = mixed(checksum, value);
    }
    checksum
}

/// A checksum with these values.
fn with_values(checksum: u32, values: &[u32]) -> u32 {
    let mut checksum = checksum;
    for value in values {
        checksum = mixed(checksum, *value);
    }
    checksum
}

/// Runs a program, and goes on with a checksum of what it left.
fn run_program(
    alloc: Global,
    user_mode: bool,
    numbers: &mut Numbers,
    checksum: u32,
) -> Result<u32, AllocError> {
    let mut memory = memory_of(alloc, user_mode, numbers)?;
    let mut hart = hart_of(numbers);
    let mut csrs = csrs_of(user_mode, numbers);
    if user_mode {
        take_addresses(&mut hart, numbers);
    }
    for step in 0..STEPS {
        let inputs = inputs_of(numbers, step);
        step_over(&mut memory, &mut hart, &mut csrs, &inputs);
    }
    let of_registers = with_values(checksum, &hart.registers[1..]);
    let of_hart = with_csrs(mixed(of_registers, hart.pc), &csrs);
    let of_mode = if user_mode {
        with_values(
            of_hart,
            &[csrs.mode().number(), csrs.mcounteren, reserved(&csrs)],
        )
    } else {
        of_hart
    };
    Ok(with_values(of_mode, &memory.mem))
}

/// A checksum of what the programs of a seed left.
fn checksum_of(alloc: Global, user_mode: bool, seed: u32) -> Result<u32, AllocError> {
    let mut numbers = Numbers { state: seed };
    let mut checksum = 2_166_136_261;
    for _ in 0..PROGRAMS {
        checksum = run_program(alloc, user_mode, &mut numbers, checksum)?;
    }
    Ok(checksum)
}

#[test]
fn generated_programs(rt: HostRuntime) -> Result<(), Fail> {
    let mut seed: u32 = 0;
    for wanted in CHECKSUMS {
        seed = seed.wrapping_add(1);
        let checksum = checksum_of(rt.alloc(), false, seed)?;
        holds_at(&rt, seed, checksum == wanted);
    }
    Ok(())
}

#[test]
fn generated_programs_with_user_mode(rt: HostRuntime) -> Result<(), Fail> {
    let mut seed: u32 = 0;
    for wanted in USER_CHECKSUMS {
        seed = seed.wrapping_add(1);
        let checksum = checksum_of(rt.alloc(), true, seed)?;
        holds_at(&rt, seed, checksum == wanted);
    }
    Ok(())
}
