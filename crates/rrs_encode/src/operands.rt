//! Instructions by their names and their operands.

ghost use Rattle.std.specs.Prelude.{◌≡◌, ℕ, IfSome, IfNone};
ghost use Rattle.rrs_instruction.specs.Table.{table, Decodes};
ghost use Rattle.rrs_instruction.specs.Instructions.{row_of, fields_of, as_fields};
ghost use Rattle.rrs_encode.specs.Operands.{with_operands};

use crate::{ROW_WORDS, word_with};
use rrs_instruction::instruction::{Instruction, InstructionFields, decode};
use rrs_instruction::instruction_formats::{BType, IType, ITypeShamt, JType, RType, SType, UType};

/// Operands, of which an instruction has those of its format. A shift amount is the magnitude of
/// the immediate.
#[derive(Clone, Copy)]
pub struct Operands {
    /// The register that is written.
    pub rd: usize,
    /// The first register that is read.
    pub rs1: usize,
    /// The second.
    pub rs2: usize,
    /// The immediate.
    pub imm: i32,
}

/// The instruction of the row with this name, with its operands left 0.
pub fn instruction_named(name: &[u8]) -> Option<Instruction>
    ensures { IfSome result (λ instruction. (table (row_of instruction)).name ≡ name.now) }
{
    for word in &ROW_WORDS {
        if let Some(instruction) = decode(*word) {
            if instruction.mnemonic().as_bytes() == name {
                return Some(instruction);
            }
        }
    }
    None
}

/// The instruction of the same row with these operands, or `None` where no word is it.
pub fn with_operands(template: &Instruction, operands: Operands) -> Option<Instruction>
    ensures made { IfSome result (λ instruction. (row_of instruction ≡ row_of template.now)
        × (fields_of instruction ≡ with_operands (fields_of template.now) operands)) }
    ensures no_word { IfNone result ((w : ℕ) → ¬ Decodes w (row_of template.now)
        (with_operands (fields_of template.now) operands)) }
{
    let word = word_with(template, with_fields(template.fields(), operands))?;
    decode(word)
}

/// The fields with these operands.
fn with_fields(fields: InstructionFields, operands: Operands) -> InstructionFields
    ensures { as_fields result ≡ with_operands (as_fields fields) operands }
{
    let Operands { rd, rs1, rs2, imm } = operands;
    match fields {
        InstructionFields::R(old) => InstructionFields::R(RType {
            rd,
            rs1,
            rs2,
            ..old
        }),
        InstructionFields::I(old) => InstructionFields::I(IType {
            rd,
            rs1,
            imm,
            ..old
        }),
        InstructionFields::IShamt(old) => InstructionFields::IShamt(ITypeShamt {
            rd,
            rs1,
            shamt: imm.unsigned_abs(),
            ..old
        }),
        InstructionFields::S(old) => InstructionFields::S(SType {
            rs1,
            rs2,
            imm,
            ..old
        }),
        InstructionFields::B(old) => InstructionFields::B(BType {
            rs1,
            rs2,
            imm,
            ..old
        }),
        InstructionFields::U(_) => InstructionFields::U(UType { imm, rd }),
        InstructionFields::J(_) => InstructionFields::J(JType { imm, rd }),
    }
}
