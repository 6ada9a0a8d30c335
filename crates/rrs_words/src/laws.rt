//! Encoding and decoding of the instructions that the 48 rows leave out, the one after the other.

ghost use Rattle.std.specs.Prelude.{◌≡◌, ℕ, Some, IfSome, IfNone};
ghost use Rattle.rrs_instruction.specs.declared.instruction_formats.IType.{IType as IFields};
ghost use Rattle.rrs_instruction.specs.declared.instruction_formats.RType.{RType as RFields};
ghost use Rattle.rrs_words.specs.declared.instructions.SystemRow.{SystemRow};
ghost use Rattle.rrs_words.specs.declared.atomics.AtomicRow.{AtomicRow};
ghost use Rattle.rrs_words.specs.SystemInstructions.{IsSystem};
ghost use Rattle.rrs_words.specs.AtomicInstructions.{IsAtomic};
ghost use Rattle.rrs_words.specs.declared.bits.BitRow.{BitRow};
ghost use Rattle.rrs_words.specs.BitInstructions.{IsBits};
ghost use Rattle.rrs_words.specs.declared.forms.ShortForm.{ShortForm as Form};
ghost use Rattle.rrs_words.specs.declared.forms.ShortOperands.{ShortOperands as Operands};
ghost use Rattle.rrs_words.specs.Forms.{IsShort};

use crate::atomics::{AtomicInstruction, decode_atomic};
use crate::bits::{BitInstruction, decode_bits};
use crate::encoding::{encode_atomic, encode_bits, encode_system};
use crate::forms::ShortInstruction;
use crate::instructions::{SystemInstruction, decode_system};
use crate::short_decoding::decode_short;
use crate::short_encoding::encode_short;

/// The word of an instruction, and what it is decoded to.
///
/// The answer is `None` exactly where no word is the instruction. Otherwise it is the word of the
/// instruction (`word`), and what `decode_system` returned for it, which is the instruction again
/// (`same`).
///
/// # Examples
///
/// ```
/// let fields = IType { imm: 0x302, rs1: 0, funct3: 0, rd: 0 };
/// let back = SystemInstruction { row: SystemRow::Mret, fields };
/// assert_eq!(rt; decode_of_encode(&back), Some((0x3020_0073, Some(back))));
/// ```
pub fn decode_of_encode(instruction: &SystemInstruction) -> Option<(u32, Option<SystemInstruction>)>
    ensures word { IfSome result
        (λ both. IsSystem both.0 instruction.now.row instruction.now.fields) }
    ensures same { IfSome result (λ both. both.1 ≡ Some instruction.now) }
    ensures no_word { IfNone result
        ((w : ℕ) → ¬ IsSystem w instruction.now.row instruction.now.fields) }
{
    let word = encode_system(instruction)?;
    Some((word, decode_system(word)))
}

/// The instruction of a word, and what it is encoded to.
///
/// The answer is `None` exactly for a word that is none of the nine. Otherwise it is the
/// instruction of the word (`instruction`), and what `encode_system` returned for it, which is the
/// word again (`same`).
///
/// # Examples
///
/// ```
/// let fields = IType { imm: 0x105, rs1: 0, funct3: 0, rd: 0 };
/// let wait = SystemInstruction { row: SystemRow::Wfi, fields };
/// assert_eq!(rt; encode_of_decode(0x1050_0073), Some((wait, Some(0x1050_0073))));
/// ```
pub fn encode_of_decode(word: u32) -> Option<(SystemInstruction, Option<u32>)>
    ensures instruction { IfSome result (λ both. IsSystem word both.0.row both.0.fields) }
    ensures same { IfSome result (λ both. both.1 ≡ Some word) }
    ensures outside { IfNone result ((row : SystemRow) (f : IFields) → ¬ IsSystem word row f) }
{
    let instruction = decode_system(word)?;
    let encoded = encode_system(&instruction);
    Some((instruction, encoded))
}

/// The word of an instruction of extension A, and what it is decoded to.
///
/// The answer is `None` exactly where no word is the instruction. Otherwise it is the word of the
/// instruction (`word`), and what `decode_atomic` returned for it, which is the instruction again
/// (`same`).
pub fn atomic_decode_of_encode(
    instruction: &AtomicInstruction,
) -> Option<(u32, Option<AtomicInstruction>)>
    ensures word { IfSome result
        (λ both. IsAtomic both.0 instruction.now.row instruction.now.fields) }
    ensures same { IfSome result (λ both. both.1 ≡ Some instruction.now) }
    ensures no_word { IfNone result
        ((w : ℕ) → ¬ IsAtomic w instruction.now.row instruction.now.fields) }
{
    let word = encode_atomic(instruction)?;
    Some((word, decode_atomic(word)))
}

/// The instruction of extension A that a word is, and what it is encoded to.
///
/// The answer is `None` exactly for a word that is none of the eleven. Otherwise it is the
/// instruction of the word (`instruction`), and what `encode_atomic` returned for it, which is the
/// word again (`same`).
pub fn atomic_encode_of_decode(word: u32) -> Option<(AtomicInstruction, Option<u32>)>
    ensures instruction { IfSome result (λ both. IsAtomic word both.0.row both.0.fields) }
    ensures same { IfSome result (λ both. both.1 ≡ Some word) }
    ensures outside { IfNone result ((row : AtomicRow) (f : RFields) → ¬ IsAtomic word row f) }
{
    let atomic = decode_atomic(word)?;
    let encoded = encode_atomic(&atomic);
    Some((atomic, encoded))
}

/// The word of an instruction of Zba to Zicond, and what it is decoded to.
///
/// The answer is `None` exactly where no word is the instruction. Otherwise it is the word of the
/// instruction (`word`), and what `decode_bits` returned for it, which is the instruction again
/// (`same`).
pub fn bits_decode_of_encode(instruction: &BitInstruction) -> Option<(u32, Option<BitInstruction>)>
    ensures word { IfSome result
        (λ both. IsBits both.0 instruction.now.row instruction.now.fields) }
    ensures same { IfSome result (λ both. both.1 ≡ Some instruction.now) }
    ensures no_word { IfNone result
        ((w : ℕ) → ¬ IsBits w instruction.now.row instruction.now.fields) }
{
    let word = encode_bits(instruction)?;
    Some((word, decode_bits(word)))
}

/// The instruction of Zba to Zicond that a word is, and what it is encoded to.
///
/// The answer is `None` exactly for a word that is none of the 29. Otherwise it is the instruction
/// of the word (`instruction`), and what `encode_bits` returned for it, which is the word again
/// (`same`).
pub fn bits_encode_of_decode(word: u32) -> Option<(BitInstruction, Option<u32>)>
    ensures instruction { IfSome result (λ both. IsBits word both.0.row both.0.fields) }
    ensures same { IfSome result (λ both. both.1 ≡ Some word) }
    ensures outside { IfNone result ((row : BitRow) (f : RFields) → ¬ IsBits word row f) }
{
    let bits = decode_bits(word)?;
    let encoded = encode_bits(&bits);
    Some((bits, encoded))
}

/// The half-word of a compressed instruction, and what it is decoded to.
///
/// The answer is `None` exactly where no half-word is the instruction. Otherwise it is the
/// half-word of the instruction (`half`), and what `decode_short` returned for it, which is the
/// instruction again (`same`).
pub fn short_decode_of_encode(short: &ShortInstruction) -> Option<(u16, Option<ShortInstruction>)>
    ensures half { IfSome result (λ both. IsShort both.0 short.now.form short.now.operands) }
    ensures same { IfSome result (λ both. both.1 ≡ Some short.now) }
    ensures no_half { IfNone result ((h : ℕ) → ¬ IsShort h short.now.form short.now.operands) }
{
    let half = encode_short(short)?;
    Some((half, decode_short(half)))
}

/// The compressed instruction that a half-word is, and what it is encoded to.
///
/// The answer is `None` exactly for a half-word that is none. Otherwise it is the instruction of
/// the half-word (`instruction`), and what `encode_short` returned for it, which is the half-word
/// again (`same`).
pub fn short_encode_of_decode(half: u16) -> Option<(ShortInstruction, Option<u16>)>
    ensures instruction { IfSome result (λ both. IsShort half both.0.form both.0.operands) }
    ensures same { IfSome result (λ both. both.1 ≡ Some half) }
    ensures outside { IfNone result ((form : Form) (o : Operands) → ¬ IsShort half form o) }
{
    let short = decode_short(half)?;
    let encoded = encode_short(&short);
    Some((short, encoded))
}
