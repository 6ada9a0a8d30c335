//! From instructions to words: the one encoder of the repository.
//!
//! [encode] gives the word of an instruction. [word_of] puts together the fields of any format, and
//! [instruction_named] and [with_operands] make the instruction of a row from its name and its
//! operands. [laws] has encoding and decoding, the one after the other.
//!
//! Decoding and executing need none of it, so this crate is above the decoder.

#![tactic(auto)]

pub mod laws;
mod operands;
mod placing;

ghost use Rattle.std.specs.Prelude.{◌≡◌, ◌↔◌, ℕ, Some};
ghost use Rattle.rrs_instruction.specs.Table.{table, Decodes, format_of};
ghost use Rattle.rrs_instruction.specs.Instructions.{IsInstruction, row_of, as_fields};

pub use operands::{Operands, instruction_named, with_operands};
pub use placing::{is_in_range, word_of};
use rrs_instruction::instruction::{Instruction, InstructionFields, ROW_COUNT, decode};

/// The word of each row with its operands left 0, in the order of the table.
const ROW_WORDS: [u32; ROW_COUNT] = [
    0x0000_0033, // add
    0x4000_0033, // sub
    0x0000_1033, // sll
    0x0000_2033, // slt
    0x0000_3033, // sltu
    0x0000_4033, // xor
    0x0000_5033, // srl
    0x4000_5033, // sra
    0x0000_6033, // or
    0x0000_7033, // and
    0x0000_0013, // addi
    0x0000_1013, // slli
    0x0000_2013, // slti
    0x0000_3013, // sltiu
    0x0000_4013, // xori
    0x0000_5013, // srli
    0x4000_5013, // srai
    0x0000_6013, // ori
    0x0000_7013, // andi
    0x0000_0037, // lui
    0x0000_0017, // auipc
    0x0000_0063, // beq
    0x0000_1063, // bne
    0x0000_4063, // blt
    0x0000_6063, // bltu
    0x0000_5063, // bge
    0x0000_7063, // bgeu
    0x0000_0003, // lb
    0x0000_4003, // lbu
    0x0000_1003, // lh
    0x0000_5003, // lhu
    0x0000_2003, // lw
    0x0000_0023, // sb
    0x0000_1023, // sh
    0x0000_2023, // sw
    0x0000_006f, // jal
    0x0000_0067, // jalr
    0x0200_0033, // mul
    0x0200_1033, // mulh
    0x0200_3033, // mulhu
    0x0200_2033, // mulhsu
    0x0200_4033, // div
    0x0200_5033, // divu
    0x0200_6033, // rem
    0x0200_7033, // remu
    0x0000_000f, // fence
    0x0000_0073, // ecall
    0x0010_0073, // ebreak
];

/// The word that the instruction is, or `None` where no word is.
///
/// No word is where a field is out of its range, where funct3 or funct7 is not the row's, and
/// where `ecall` or `ebreak` has other fields than its one word. What `decode` returned has the
/// word that was decoded.
///
/// The fields are put together, and the word is decoded: if it is another instruction, none is
/// this one.
///
/// # Examples
///
/// ```
/// let branch = BType { imm: 8, rs2: 2, rs1: 1, funct3: 0 };
/// assert_eq!(rt; encode(&Instruction::Beq(branch)), Some(0x0020_8463));
/// let odd = BType { imm: 7, ..branch };
/// assert_eq!(rt; encode(&Instruction::Beq(odd)), None);
/// ```
pub fn encode(instruction: &Instruction) -> Option<u32>
    ensures { (w : ℕ) → (result ≡ Some w) ↔ IsInstruction w instruction.now }
{
    word_with(instruction, instruction.fields())
}

/// The word of the row of an instruction with these fields of its format, or `None` where no word
/// is it.
fn word_with(template: &Instruction, fields: InstructionFields) -> Option<u32>
    requires { format_of (as_fields fields) ≡ (table (row_of template.now)).format }
    ensures { (w : ℕ) → (result ≡ Some w) ↔ Decodes w (row_of template.now) (as_fields fields) }
{
    if !is_in_range(fields) {
        return None;
    }
    let word = word_of(opcode_of(template), fields);
    let found = decode(word)?;
    if found.number() == template.number() {
        Some(word)
    } else {
        None
    }
}

/// The opcode of an instruction's row.
fn opcode_of(instruction: &Instruction) -> u32
    ensures { result ≡ (table (row_of instruction.now)).opcode }
{
    ROW_WORDS[instruction.number() - 1] & 0x7f
}
