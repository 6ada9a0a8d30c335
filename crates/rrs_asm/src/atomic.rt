//! Reading the instructions of extension A.

ghost use Rattle.rrs_asm.specs.Names.{IsNamed};
ghost use Rattle.rrs_words.specs.AtomicTexts.{atomic_name};

use crate::statements::Statement;
use rrs_asm_lines::Line;
use rrs_instruction::instruction_formats::RType;
use rrs_words::{AtomicInstruction, AtomicRow, LayerInstruction};

/// Reads the operands of an instruction of extension A: `rd, (rs1)` of `lr.w`, and `rd, rs2, (rs1)`
/// of the others.
pub fn read_atomic(line: &mut Line, row: AtomicRow, funct7: u32) -> Statement
    ensures { IsNamed (atomic_name row funct7) result }
{
    let rd = line.register();
    line.comma();
    let rs2 = match row {
        AtomicRow::LrW => 0,
        _ => read_operand(line),
    };
    let fields = RType {
        funct7,
        rs2,
        rs1: line.address_alone(),
        funct3: 2,
        rd,
    };
    Statement::Layer(LayerInstruction::Atomic(AtomicInstruction { row, fields }))
}

/// Reads the operand, and the comma behind it.
fn read_operand(line: &mut Line) -> usize {
    let rs2 = line.register();
    line.comma();
    rs2
}
