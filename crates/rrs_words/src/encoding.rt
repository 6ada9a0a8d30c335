//! From the instructions that the 48 rows leave out to words, and so from those of extension A
//! and of Zba to Zicond.

ghost use Rattle.std.specs.Prelude.{◌≡◌, ◌↔◌, ◌<◌, ◌^◌, ℕ, Some};
ghost use Rattle.rrs_words.specs.SystemInstructions.{system_table, IsSystem};
ghost use Rattle.rrs_words.specs.AtomicInstructions.{IsAtomic};
ghost use Rattle.rrs_words.specs.BitInstructions.{IsBits};

use crate::atomics::{AtomicInstruction, decode_atomic};
use crate::bits::{BitInstruction, decode_bits};
use crate::instructions::{SystemInstruction, SystemRow, decode_system};
use rrs_encode::{is_in_range, word_of};
use rrs_lib::instruction::InstructionFields;

/// The opcode of a row.
fn opcode_of(row: SystemRow) -> u32
    ensures opcode { result ≡ (system_table row).opcode }
    ensures low { result < 2 ^ 7 }
{
    match row {
        SystemRow::FenceI => 0x0f,
        _ => 0x73,
    }
}

/// The word that the instruction is, or `None` where no word is.
///
/// No word is where a field is out of its range, where funct3 is not the row's, and where `mret` or
/// `wfi` has other fields than its one word. What `decode_system` returned has the word that was
/// decoded.
///
/// # Examples
///
/// ```
/// let fields = IType { imm: 0x300, rs1: 2, funct3: 1, rd: 1 };
/// let write = SystemInstruction { row: SystemRow::Csrrw, fields };
/// assert_eq!(rt; encode_system(&write), Some(0x3001_10f3));
/// ```
pub fn encode_system(instruction: &SystemInstruction) -> Option<u32>
    ensures { (w : ℕ) → (result ≡ Some w)
        ↔ IsSystem w instruction.now.row instruction.now.fields }
{
    let fields = InstructionFields::I(instruction.fields);
    if !is_in_range(fields) {
        return None;
    }
    let word = word_of(opcode_of(instruction.row), fields);
    let found = decode_system(word)?;
    if found == *instruction {
        Some(word)
    } else {
        None
    }
}

/// The word that the instruction of extension A is, or `None` where no word is.
///
/// No word is where a field is out of its range, where funct3 or the upper five bits of funct7 are
/// not the row's, and where `lr.w` has another rs2 than x0. What `decode_atomic` returned has the
/// word that was decoded.
///
/// # Examples
///
/// ```
/// let fields = RType { funct7: 0, rs2: 12, rs1: 11, funct3: 2, rd: 10 };
/// let add = AtomicInstruction { row: AtomicRow::AmoAdd, fields };
/// assert_eq!(rt; encode_atomic(&add), Some(0x00c5_a52f));
/// ```
pub fn encode_atomic(instruction: &AtomicInstruction) -> Option<u32>
    ensures { (w : ℕ) → (result ≡ Some w)
        ↔ IsAtomic w instruction.now.row instruction.now.fields }
{
    let format = InstructionFields::R(instruction.fields);
    if !is_in_range(format) {
        return None;
    }
    let word = word_of(0x2f, format);
    let read = decode_atomic(word)?;
    if read == *instruction {
        Some(word)
    } else {
        None
    }
}

/// The word that the instruction of Zba to Zicond is, or `None` where no word is.
///
/// No word is where a field is out of its range, where funct7 or funct3 is not the row's, and where
/// a number in the place of rs2 is not the row's. What `decode_bits` returned has the word that was
/// decoded.
///
/// # Examples
///
/// ```
/// let fields = RType { funct7: 0x10, rs2: 12, rs1: 11, funct3: 4, rd: 10 };
/// let sum = BitInstruction { row: BitRow::Sh2add, fields };
/// assert_eq!(rt; encode_bits(&sum), Some(0x20c5_c533));
/// ```
pub fn encode_bits(instruction: &BitInstruction) -> Option<u32>
    ensures { (w : ℕ) → (result ≡ Some w)
        ↔ IsBits w instruction.now.row instruction.now.fields }
{
    let format = InstructionFields::R(instruction.fields);
    if !is_in_range(format) {
        return None;
    }
    let word = word_of(instruction.row.opcode(), format);
    let bits = decode_bits(word)?;
    if bits == *instruction {
        Some(word)
    } else {
        None
    }
}
