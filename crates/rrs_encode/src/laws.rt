//! Encoding and decoding, the one after the other.

ghost use Rattle.std.specs.Prelude.{◌≡◌, ℕ, Some, IfSome, IfNone};
ghost use Rattle.rrs_instruction.specs.Table.{IsIllegal};
ghost use Rattle.rrs_instruction.specs.Instructions.{IsInstruction};

use crate::encode;
use rrs_instruction::instruction::{Instruction, decode};

/// The word of an instruction, and what it is decoded to.
///
/// The answer is `None` exactly where no word is the instruction. Otherwise it is the word of the
/// instruction (`word`), and what `decode` returned for it, which is the instruction again
/// (`same`).
///
/// # Examples
///
/// ```
/// let nop = Instruction::Addi(IType { imm: 0, rs1: 0, funct3: 0, rd: 0 });
/// assert_eq!(rt; decode_of_encode(&nop), Some((0x13, Some(nop))));
/// ```
pub fn decode_of_encode(instruction: &Instruction) -> Option<(u32, Option<Instruction>)>
    ensures word { IfSome result (λ both. IsInstruction both.0 instruction.now) }
    ensures same { IfSome result (λ both. both.1 ≡ Some instruction.now) }
    ensures no_word { IfNone result ((w : ℕ) → ¬ IsInstruction w instruction.now) }
{
    let word = encode(instruction)?;
    Some((word, decode(word)))
}

/// The instruction of a word, and what it is encoded to.
///
/// The answer is `None` exactly for an illegal instruction. Otherwise it is the instruction of the
/// word (`instruction`), and what `encode` returned for it, which is the word again (`same`).
///
/// # Examples
///
/// ```
/// let nop = Instruction::Addi(IType { imm: 0, rs1: 0, funct3: 0, rd: 0 });
/// assert_eq!(rt; encode_of_decode(0x13), Some((nop, Some(0x13))));
/// ```
pub fn encode_of_decode(word: u32) -> Option<(Instruction, Option<u32>)>
    ensures instruction { IfSome result (λ both. IsInstruction word both.0) }
    ensures same { IfSome result (λ both. both.1 ≡ Some word) }
    ensures outside { IfNone result (IsIllegal word) }
{
    let instruction = decode(word)?;
    let encoded = encode(&instruction);
    Some((instruction, encoded))
}
