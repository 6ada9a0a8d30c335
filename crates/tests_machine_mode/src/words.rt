//! Words and texts of the instructions that the 48 rows leave out.

use crate::steps::holds_at;
use rrs_lib::instruction::decode;
use rrs_lib::instruction_formats::IType;
use rrs_machine::{SystemInstruction, SystemRow};
use rrs_words::laws::{decode_of_encode, encode_of_decode};
use rrs_words::{decode_system, encode_system, system_text};

/// Words, and their texts as `objdump` writes them with `-M numeric,no-aliases`: each CSR of the
/// tables, the counters of the performance monitor at both ends, numbers that have no name, and
/// each of the nine instructions. `tests/test_board.py` compares them with `objdump`.
static TEXTS: [(u32, &str); 56] = [
    (0x3001_10f3, "csrrw x1, mstatus, x2"),
    (0x3014_a373, "csrrs x6, misa, x9"),
    (0x3048_35f3, "csrrc x11, mie, x16"),
    (0x305b_d873, "csrrwi x16, mtvec, 23"),
    (0x310f_6af3, "csrrsi x21, mstatush, 30"),
    (0x3202_fd73, "csrrci x26, mcountinhibit, 5"),
    (0x3236_1ff3, "csrrw x31, mhpmevent3, x12"),
    (0x3299_a273, "csrrs x4, mhpmevent9, x19"),
    (0x32ad_34f3, "csrrc x9, mhpmevent10, x26"),
    (0x33f0_d773, "csrrwi x14, mhpmevent31, 1"),
    (0x3404_69f3, "csrrsi x19, mscratch, 8"),
    (0x3417_fc73, "csrrci x24, mepc, 15"),
    (0x342b_1ef3, "csrrw x29, mcause, x22"),
    (0x343e_a173, "csrrs x2, mtval, x29"),
    (0x3442_33f3, "csrrc x7, mip, x4"),
    (0xb005_d673, "csrrwi x12, mcycle, 11"),
    (0xb029_68f3, "csrrsi x17, minstret, 18"),
    (0xb03c_fb73, "csrrci x22, mhpmcounter3, 25"),
    (0xb090_1df3, "csrrw x27, mhpmcounter9, x0"),
    (0xb0a3_a073, "csrrs x0, mhpmcounter10, x7"),
    (0xb1f7_32f3, "csrrc x5, mhpmcounter31, x14"),
    (0xb80a_d573, "csrrwi x10, mcycleh, 21"),
    (0xb82e_67f3, "csrrsi x15, minstreth, 28"),
    (0xb831_fa73, "csrrci x20, mhpmcounter3h, 3"),
    (0xb895_1cf3, "csrrw x25, mhpmcounter9h, x10"),
    (0xb8a8_af73, "csrrs x30, mhpmcounter10h, x17"),
    (0xb9fc_31f3, "csrrc x3, mhpmcounter31h, x24"),
    (0xc00f_d473, "csrrwi x8, cycle, 31"),
    (0xc013_66f3, "csrrsi x13, time, 6"),
    (0xc026_f973, "csrrci x18, instret, 13"),
    (0xc80a_1bf3, "csrrw x23, cycleh, x20"),
    (0xc81d_ae73, "csrrs x28, timeh, x27"),
    (0xc821_30f3, "csrrc x1, instreth, x2"),
    (0xf114_d373, "csrrwi x6, mvendorid, 9"),
    (0xf128_65f3, "csrrsi x11, marchid, 16"),
    (0xf13b_f873, "csrrci x16, mimpid, 23"),
    (0xf14f_1af3, "csrrw x21, mhartid, x30"),
    (0xf152_ad73, "csrrs x26, mconfigptr, x5"),
    (0x7c06_3ff3, "csrrc x31, 0x7c0, x12"),
    (0x8ff9_d273, "csrrwi x4, 0x8ff, 19"),
    (0xfffd_64f3, "csrrsi x9, 0xfff, 26"),
    (0x300f_9ff3, "csrrw x31, mstatus, x31"),
    (0x3040_1073, "csrrw x0, mie, x0"),
    (0x300f_aff3, "csrrs x31, mstatus, x31"),
    (0x3040_2073, "csrrs x0, mie, x0"),
    (0x300f_bff3, "csrrc x31, mstatus, x31"),
    (0x3040_3073, "csrrc x0, mie, x0"),
    (0x300f_dff3, "csrrwi x31, mstatus, 31"),
    (0x3040_5073, "csrrwi x0, mie, 0"),
    (0x300f_eff3, "csrrsi x31, mstatus, 31"),
    (0x3040_6073, "csrrsi x0, mie, 0"),
    (0x300f_fff3, "csrrci x31, mstatus, 31"),
    (0x3040_7073, "csrrci x0, mie, 0"),
    (0x3020_0073, "mret"),
    (0x1050_0073, "wfi"),
    (0x0000_100f, "fence.i"),
];

/// Whether a word has this text.
fn has_text(word: u32, text: &str) -> bool {
    match decode_system(word) {
        Some(instruction) => system_text(&instruction).as_str() == text,
        None => false,
    }
}

/// Whether a word is encoded again to itself, its instruction is decoded again, and the word is
/// none of the 48 rows.
fn goes_there_and_back(word: u32) -> bool {
    match encode_of_decode(word) {
        Some((instruction, again)) => {
            let back = decode_of_encode(&instruction) == Some((word, Some(instruction)));
            again == Some(word) && back && decode(word).is_none()
        }
        None => false,
    }
}

#[test]
fn each_text_there_and_back(rt: HostRuntime) {
    for &(word, text) in &TEXTS {
        holds_at(&rt, word, has_text(word, text) && goes_there_and_back(word));
    }
}

/// An instruction with these fields.
fn made(row: SystemRow, imm: i32, rs1: usize, funct3: u32, rd: usize) -> SystemInstruction {
    let fields = IType {
        imm,
        rs1,
        funct3,
        rd,
    };
    SystemInstruction { row, fields }
}

/// Instructions by their row, immediate, rs1, funct3 and rd, each with its word, if it has one.
static MADE: [(SystemRow, i32, usize, u32, usize, Option<u32>); 9] = [
    (SystemRow::Csrrw, 0x300, 32, 1, 0, None),
    (SystemRow::Csrrw, 0x300, 0, 1, 32, None),
    (SystemRow::Csrrw, 0x300, 0, 2, 0, None),
    (SystemRow::Csrrw, 0x800, 0, 1, 0, None),
    (SystemRow::Csrrw, -1, 0, 1, 0, Some(0xfff0_1073)),
    (SystemRow::Mret, 0x302, 1, 0, 0, None),
    (SystemRow::Mret, 0x105, 0, 0, 0, None),
    (SystemRow::Wfi, 0x105, 0, 0, 0, Some(0x1050_0073)),
    (SystemRow::FenceI, 5, 3, 1, 2, Some(0x0051_910f)),
];

#[test]
fn no_word_is_these(rt: HostRuntime) {
    for (index, &(row, imm, rs1, funct3, rd, word)) in MADE.iter().enumerate() {
        let encoded = encode_system(&made(row, imm, rs1, funct3, rd));
        assert!(rt; encoded == word, "at {index}");
    }
    let text = system_text(&made(SystemRow::FenceI, 5, 3, 1, 2));
    assert!(rt; text.as_str() == "fence.i");
}
