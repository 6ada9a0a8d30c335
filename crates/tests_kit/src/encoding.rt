//! The laws of encoding, on a word of each row, and where there is no word.

use rrs_encode::laws::{decode_of_encode, encode_of_decode};
use rrs_lib::instruction::{Instruction, decode};
use rrs_lib::instruction_formats::{BType, IType};
use std::process::Abort;
use std::test::Fail;
use tests_shared::ROWS;

/// A word's instruction, and its word.
fn encoded_again(word: u32) -> Option<(Instruction, Option<u32>)> {
    encode_of_decode(word)
}

/// An instruction's word, and its instruction.
fn decoded_again(instruction: &Instruction) -> Option<(u32, Option<Instruction>)> {
    decode_of_encode(instruction)
}

/// Asserts what the laws answer to a word and its instruction.
fn same_again(rt: &impl Abort, word: u32, instruction: Instruction) {
    let is_encoded = encoded_again(word) == Some((instruction, Some(word)));
    let is_decoded = decoded_again(&instruction) == Some((word, Some(instruction)));
    assert!(rt; is_encoded && is_decoded, "at {word:#x}");
}

/// The word of each row is decoded and encoded again, and its instruction encoded and decoded.
#[test]
fn rows_are_encoded_again(rt: HostRuntime) -> Result<(), Fail> {
    for &(word, _) in &ROWS {
        let instruction = decode(word).ok_or("an illegal instruction")?;
        same_again(&rt, word, instruction);
    }
    Ok(())
}

/// Instructions that have no word: an odd offset of a branch, an immediate of 13 bits, the funct3
/// of another row, and an `ecall` with a register.
static NO_WORDS: [Instruction; 4] = [
    Instruction::Beq(BType {
        imm: 7,
        rs2: 2,
        rs1: 1,
        funct3: 0,
    }),
    Instruction::Addi(IType {
        imm: 2048,
        rs1: 0,
        funct3: 0,
        rd: 1,
    }),
    Instruction::Addi(IType {
        imm: 0,
        rs1: 0,
        funct3: 1,
        rd: 1,
    }),
    Instruction::Ecall(IType {
        imm: 0,
        rs1: 0,
        funct3: 0,
        rd: 1,
    }),
];

#[test]
fn what_has_no_word_is_not_encoded(rt: HostRuntime) {
    for (index, instruction) in NO_WORDS.iter().enumerate() {
        assert!(rt; decoded_again(instruction).is_none(), "{index}");
    }
    assert!(rt; encoded_again(0).is_none() && encoded_again(0xffff_ffff).is_none());
}
