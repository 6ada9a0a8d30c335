//! The texts of chosen words, those of two words compared, and that a text whose memory is refused
//! may be asked for again. Those of a word of each row are in `rows`, with the rows' numbers.

use crate::machines::same_text_at;
use crate::rows::WORDS_OUTSIDE;
use rrs_extra::laws::both_texts;
use rrs_lib::disassembly::{Disassembled, InstructionText, LONGEST_TEXT, hexadecimal_digits};
use rrs_lib::instruction::decode;
use rrs_lib::instruction_string_outputter::InstructionStringOutputter;
use rrs_lib::process_instruction;
use std::alloc::{AllocError, Global};
use std::test::Fail;

/// The text of a word at an address, or `None` for an illegal instruction.
fn text_at(pc: u32, word: u32) -> Option<InstructionText> {
    let instruction = decode(word)?;
    Some(Disassembled { instruction, pc }.text())
}

/// The text of a word, or out of memory.
pub(crate) fn text_by(
    outputter: &mut InstructionStringOutputter,
    word: u32,
) -> Option<Result<String, AllocError>> {
    process_instruction(outputter, word)
}

/// Addresses and words, each with its text.
static TEXTS: [(u32, u32, &str); 8] = [
    (0x100, 0x00208463, "beq x1, x2, 0x00000108"),
    (0, 0x07b60893, "addi x17, x12, 123"),
    (0, 0x1234b137, "lui x2, 0x1234b000"),
    (0, 0xfe000ee3, "beq x0, x0, 0xfffffffc"),
    (0, 0xfe000fa3, "sb x0, -1(x0)"),
    (0, 0xfff00067, "jalr x0, 0xffffffff(x0)"),
    (0, 0x00008067, "jalr x0, 0x000(x1)"),
    (0, 0x00100073, "ebreak"),
];

/// The first is at 0x100. The others are at 0: targets below 0, and negative immediates.
#[test]
fn words_have_these_texts(rt: HostRuntime) -> Result<(), Fail> {
    for &(pc, word, expected) in &TEXTS {
        let text = text_at(pc, word).ok_or("no row")?;
        same_text_at(&rt, word, text.as_str(), expected);
    }
    Ok(())
}

/// `bgeu x10, x11, 8` at 0x100, of whose length no text of a word is longer, in columns of 27.
#[test]
fn a_text_is_shown_in_columns(rt: HostRuntime) -> Result<(), Fail> {
    let instruction = decode(0x00b5_7463).ok_or("no row")?;
    let pc = 0x100;
    let longest = Disassembled { instruction, pc };
    let shown = format!(in rt.alloc(); "{longest}|{longest:<27}|{longest:>27}")?;
    let expected = "bgeu x10, x11, 0x00000108|bgeu x10, x11, 0x00000108  |  \
bgeu x10, x11, 0x00000108";
    assert!(rt; shown.as_str() == expected && LONGEST_TEXT == 25);
    Ok(())
}

/// Words, each with the least number of its digits, and them.
static DIGITS: [(u32, usize, &str); 7] = [
    (0, 0, "0"),
    (0, 1, "0"),
    (0, 8, "00000000"),
    (0xa5, 3, "0a5"),
    (0xa5, 2, "a5"),
    (0x0123_4567, 8, "01234567"),
    (0xfedc_ba98, 0, "fedcba98"),
];

#[test]
fn words_have_these_digits(rt: HostRuntime) {
    for &(word, least, expected) in &DIGITS {
        let digits = hexadecimal_digits(least.min(8), word);
        same_text_at(&rt, word, digits.as_str(), expected);
    }
}

#[test]
fn words_outside_the_table_have_no_text(rt: HostRuntime) {
    let alloc = rt.alloc();
    let mut outputter = InstructionStringOutputter { insn_pc: 0, alloc };
    for &word in &WORDS_OUTSIDE {
        assert!(rt; text_by(&mut outputter, word).is_none(), "of {word:#010x}");
    }
}

/// The text of a row, which is asked for once more where its memory is refused.
fn asked_for_twice(outputter: &mut InstructionStringOutputter, word: u32) -> Result<String, Fail> {
    match text_by(outputter, word) {
        Some(Ok(text)) => Ok(text),
        _ => Ok(text_by(outputter, word).ok_or("no row")??),
    }
}

/// Words, each with its text.
static REFUSED: [(u32, &str); 9] = [
    (0x402081b3, "sub x3, x1, x2"),
    (0xffb0a193, "slti x3, x1, -5"),
    (0x4070d193, "srai x3, x1, 7"),
    (0x12345197, "auipc x3, 0x12345100"),
    (0x0020f463, "bgeu x1, x2, 0x00000108"),
    (0xffc0d183, "lhu x3, -4(x1)"),
    (0x014081e7, "jalr x3, 0x014(x1)"),
    (0x0ff0000f, "fence"),
    (0x00000073, "ecall"),
];

/// Whichever allocation fails, the answer is an error or the right text, and the next is the text.
/// So the address of the outputter stays: that of `auipc` and of `bgeu` is seen in their texts.
#[test]
fn a_refused_text_may_be_asked_for_again(rt: HostRuntime) -> Result<(), Fail> {
    let mut outputter = InstructionStringOutputter {
        insn_pc: 0x100,
        alloc: rt.alloc(),
    };
    for &(word, expected) in &REFUSED {
        let text = asked_for_twice(&mut outputter, word)?;
        same_text_at(&rt, word, text.as_str(), expected);
    }
    Ok(())
}

/// The text of a word, or `no row` where it is an illegal instruction.
pub(crate) fn text_or_no_row(
    alloc: Global,
    answer: Option<Result<String, AllocError>>,
) -> Result<String, AllocError> {
    match answer {
        Some(text) => text,
        None => format!(in alloc; "no row"),
    }
}

/// The texts of two words at one address.
fn texts_of(
    alloc: Global,
    insn_pc: u32,
    first: u32,
    second: u32,
) -> Result<(String, String), AllocError> {
    let (one, other) = both_texts(alloc, insn_pc, first, second);
    Ok((text_or_no_row(alloc, one)?, text_or_no_row(alloc, other)?))
}

/// An address and two words, with their texts.
static PAIRS: [(u32, u32, u32, (&str, &str)); 10] = [
    (0, 0x0ff0000f, 0x0000000f, ("fence", "fence")),
    (0, 0x8330000f, 0xffff8f8f, ("fence", "fence")),
    (
        0,
        0x00709193,
        0x0070d193,
        ("slli x3, x1, 7", "srli x3, x1, 7"),
    ),
    (
        0,
        0x002081b3,
        0x00208233,
        ("add x3, x1, x2", "add x4, x1, x2"),
    ),
    (
        0,
        0x002101b3,
        0x001081b3,
        ("add x3, x2, x2", "add x3, x1, x1"),
    ),
    (
        0,
        0xffb08193,
        0x00508193,
        ("addi x3, x1, -5", "addi x3, x1, 5"),
    ),
    (
        0x100,
        0x00000463,
        0x00000263,
        ("beq x0, x0, 0x00000108", "beq x0, x0, 0x00000104"),
    ),
    (
        0x104,
        0x00000263,
        0xffffffff,
        ("beq x0, x0, 0x00000108", "no row"),
    ),
    (0, 0xfe109093, 0x00109093, ("no row", "slli x1, x1, 1")),
    (0, 0x00009067, 0x00008067, ("no row", "jalr x0, 0x000(x1)")),
];

/// No text shows the fields of `fence`. Another row with the same fields has another text, and so
/// has one row with another rd, rs1, rs2 or immediate. A branch has another text at another
/// address, and two branches to one target from two addresses have one. What would show like `slli`
/// and `jalr` but has another funct7 or funct3 is an illegal instruction.
#[test]
fn texts_show_what_words_are(rt: HostRuntime) -> Result<(), Fail> {
    for &(insn_pc, first, second, expected) in &PAIRS {
        let texts = texts_of(rt.alloc(), insn_pc, first, second)?;
        same_text_at(&rt, first, texts.0.as_str(), expected.0);
        same_text_at(&rt, second, texts.1.as_str(), expected.1);
    }
    Ok(())
}
