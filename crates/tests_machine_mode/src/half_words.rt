//! Half-words and texts of the compressed instructions.

use crate::steps::holds_at;
use rrs_lib::instruction::decode;
use rrs_words::laws::{short_decode_of_encode, short_encode_of_decode};
use rrs_words::{
    ShortForm, ShortInstruction, ShortOperands, decode_short, encode_short, expanded, short_text,
};

/// Half-words at address 0x10000, each with the word that GNU `as` makes of what it stands for, and
/// its text. Of each form there is one, of each immediate the least and the greatest, and hints.
/// `tests/test_reports.py` compares all half-words with `objdump`.
static TEXTS: [(u16, u32, &str); 51] = [
    (0x0040, 0x0041_0413, "c.addi4spn x8, x2, 4"),
    (0x1ffc, 0x3fc1_0793, "c.addi4spn x15, x2, 1020"),
    (0x4380, 0x0007_a403, "c.lw x8, 0(x15)"),
    (0x5c7c, 0x07c4_2783, "c.lw x15, 124(x8)"),
    (0x4124, 0x0405_2483, "c.lw x9, 64(x10)"),
    (0xc3c0, 0x0087_a223, "c.sw x8, 4(x15)"),
    (0xdc3c, 0x06f4_2c23, "c.sw x15, 120(x8)"),
    (0x1141, 0xff01_0113, "c.addi x2, -16"),
    (0x0ffd, 0x01ff_8f93, "c.addi x31, 31"),
    (0x1081, 0xfe00_8093, "c.addi x1, -32"),
    (0x3001, 0x801f_f0ef, "c.jal 0x0000f800"),
    (0x2ffd, 0x7fe0_00ef, "c.jal 0x000107fe"),
    (0x246d, 0x2aa0_00ef, "c.jal 0x000102aa"),
    (0x557d, 0xfff0_0513, "c.li x10, -1"),
    (0x7101, 0xe001_0113, "c.addi16sp x2, -512"),
    (0x617d, 0x1f01_0113, "c.addi16sp x2, 496"),
    (0x6105, 0x0201_0113, "c.addi16sp x2, 32"),
    (0x70fd, 0xffff_f0b7, "c.lui x1, 0xfffff000"),
    (0x6ffd, 0x0001_ffb7, "c.lui x31, 0x0001f000"),
    (0x7181, 0xfffe_01b7, "c.lui x3, 0xfffe0000"),
    (0x807d, 0x01f4_5413, "c.srli x8, 31"),
    (0x8785, 0x4017_d793, "c.srai x15, 1"),
    (0x98f9, 0xffe4_f493, "c.andi x9, -2"),
    (0x8c1d, 0x40f4_0433, "c.sub x8, x15"),
    (0x8c3d, 0x00f4_4433, "c.xor x8, x15"),
    (0x8c5d, 0x00f4_6433, "c.or x8, x15"),
    (0x8c7d, 0x00f4_7433, "c.and x8, x15"),
    (0xbffd, 0xffff_f06f, "c.j 0x0000fffe"),
    (0xab91, 0x5540_006f, "c.j 0x00010554"),
    (0xd001, 0xf004_00e3, "c.beqz x8, 0x0000ff00"),
    (0xc7cd, 0x0a07_8563, "c.beqz x15, 0x000100aa"),
    (0xecfd, 0x0e04_9f63, "c.bnez x9, 0x000100fe"),
    (0x0fc2, 0x010f_9f93, "c.slli x31, 16"),
    (0x4082, 0x0001_2083, "c.lwsp x1, 0(x2)"),
    (0x5ffe, 0x0fc1_2f83, "c.lwsp x31, 252(x2)"),
    (0x42d6, 0x0541_2283, "c.lwsp x5, 84(x2)"),
    (0x8082, 0x0000_8067, "c.jr x1"),
    (0x8f86, 0x0010_0fb3, "c.mv x31, x1"),
    (0x9002, 0x0010_0073, "c.ebreak"),
    (0x9f82, 0x000f_80e7, "c.jalr x31"),
    (0x90fe, 0x01f0_80b3, "c.add x1, x31"),
    (0xdf82, 0x0e01_2e23, "c.swsp x0, 252(x2)"),
    (0xd57e, 0x0bf1_2423, "c.swsp x31, 168(x2)"),
    (0x0001, 0x0000_0013, "c.addi x0, 0"),
    (0x0041, 0x0100_0013, "c.addi x0, 16"),
    (0x4005, 0x0010_0013, "c.li x0, 1"),
    (0x6005, 0x0000_1037, "c.lui x0, 0x00001000"),
    (0x8006, 0x0010_0033, "c.mv x0, x1"),
    (0x900a, 0x0020_0033, "c.add x0, x2"),
    (0x0082, 0x0000_9093, "c.slli x1, 0"),
    (0x8001, 0x0004_5413, "c.srli x8, 0"),
];

/// Whether a half-word stands for what a word is, and has this text.
fn stands_for(half: u16, word: u32, text: &str) -> bool {
    match decode_short(half) {
        Some(short) => {
            let is_it = decode(word) == Some(expanded(&short));
            is_it && short_text(&short, 0x10000).as_str() == text
        }
        None => false,
    }
}

#[test]
fn each_text_and_what_it_stands_for(rt: HostRuntime) {
    for &(half, word, text) in &TEXTS {
        holds_at(&rt, u32::from(half), stands_for(half, word, text));
    }
}

/// Whether a half-word is encoded again to itself, and its instruction is decoded again; or is none.
fn goes_there_and_back(half: u16) -> bool {
    match short_encode_of_decode(half) {
        Some((short, again)) => {
            let back = short_decode_of_encode(&short) == Some((half, Some(short)));
            again == Some(half) && back
        }
        None => decode_short(half).is_none(),
    }
}

#[test]
fn each_half_word_there_and_back(rt: HostRuntime) {
    let mut count = 0u32;
    for half in 0..=u16::MAX {
        holds_at(&rt, u32::from(half), goes_there_and_back(half));
        if decode_short(half).is_some() {
            count = count.wrapping_add(1);
        }
    }
    assert_eq!(rt; count, 28_823);
}

/// Half-words that are no instruction: what is defined to be illegal, those that are reserved, of
/// floating point, shifts by 32, and first halves of words.
static NONE: [u16; 14] = [
    0x0000, // zeros
    0x001c, // c.addi4spn by 0
    0x2000, // c.fld
    0x6000, // c.flw
    0x8000, // reserved
    0x6001, // c.lui by 0
    0x6101, // c.addi16sp by 0
    0x9001, // c.srli by 32
    0x9c01, // c.subw
    0x1002, // c.slli by 32
    0x4002, // c.lwsp to x0
    0x8002, // c.jr to x0
    0x0003, // a word
    0xffff, // a longer one
];

#[test]
fn what_is_no_instruction(rt: HostRuntime) {
    for &half in &NONE {
        holds_at(&rt, u32::from(half), decode_short(half).is_none());
    }
}

/// Instructions by their form, registers and immediate, each with its half-word, if it has one.
static MADE: [(ShortForm, usize, usize, u16, Option<u16>); 14] = [
    (ShortForm::Lw, 8, 9, 4, Some(0x40c0)),
    (ShortForm::Lw, 7, 9, 4, None),
    (ShortForm::Lw, 8, 16, 4, None),
    (ShortForm::Lw, 8, 9, 2, None),
    (ShortForm::Lw, 8, 9, 128, None),
    (ShortForm::Lwsp, 1, 2, 4, Some(0x4092)),
    (ShortForm::Lwsp, 1, 3, 4, None),
    (ShortForm::Lwsp, 0, 2, 4, None),
    (ShortForm::Addi16sp, 2, 0, 0x3f0, Some(0x717d)),
    (ShortForm::Addi16sp, 2, 0, 0, None),
    (ShortForm::Lui, 2, 0, 1, None),
    (ShortForm::Lui, 1, 0, 0, None),
    (ShortForm::Slli, 1, 0, 32, None),
    (ShortForm::Ebreak, 0, 0, 1, None),
];

#[test]
fn only_what_a_half_word_has_is_encoded(rt: HostRuntime) {
    for &(form, first, second, imm, half) in &MADE {
        let operands = ShortOperands { first, second, imm };
        let short = ShortInstruction { form, operands };
        holds_at(&rt, u32::from(imm), encode_short(&short) == half);
    }
}
