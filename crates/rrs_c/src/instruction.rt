//! The row and the fields of a word, as C has them.

ghost use Rattle.std.specs.Prelude.{◌≡◌, ◌<◌, pos};
ghost use Rattle.rrs_lib.specs.Encodings.{HasRegisters};
ghost use Rattle.rrs_lib.specs.Instructions.{row_of, fields_of};
ghost use Rattle.rrs_lib.specs.Encodings.{I, R, IsInRange};
ghost use Rattle.rrs_words.specs.declared.layers.LayerInstruction.TheVariants.{System, Atomic, Bits};
ghost use Rattle.rrs_words.specs.BitInstructions.{bit_table};
ghost use Rattle.rrs_c.specs.Listing.{Lists, ListsLayer, amount_in, layer_listed, no_instruction, register_in};

use rrs_lib::instruction::Instruction;
use rrs_words::{
    AtomicInstruction, BitInstruction, BitOperand, LayerInstruction, SystemInstruction,
    decode_layer,
};

/// An instruction: the number of its row, 1 to 48, or that of an instruction of a layer, 49 to 97,
/// and its fields. A field that its format does not have is 0.
#[repr(C)]
#[derive(Clone, Copy)]
pub struct RrsInstruction {
    /// The number of the row, or 0 for an illegal instruction.
    pub row: u32,
    /// The destination register.
    pub rd: u32,
    /// The first source register.
    pub rs1: u32,
    /// The second source register.
    pub rs2: u32,
    /// The shift amount.
    pub shamt: u32,
    /// The immediate.
    pub imm: i32,
}

/// What an illegal instruction is.
#[inline]
pub(crate) fn nothing() -> RrsInstruction
    ensures { result ≡ no_instruction }
{
    RrsInstruction {
        row: 0,
        rd: 0,
        rs1: 0,
        rs2: 0,
        shamt: 0,
        imm: 0,
    }
}

/// The row and the fields of an instruction.
#[inline]
pub(crate) fn listed(instruction: &Instruction) -> RrsInstruction
    requires { HasRegisters (fields_of instruction.now) }
    ensures { Lists (row_of instruction.now) (fields_of instruction.now) result }
{
    RrsInstruction {
        row: instruction.number() as u32,
        rd: instruction.rd().unwrap_or(0) as u32,
        rs1: instruction.rs1().unwrap_or(0) as u32,
        rs2: instruction.rs2().unwrap_or(0) as u32,
        shamt: instruction.shift_amount().unwrap_or(0),
        imm: instruction.immediate().unwrap_or(0),
    }
}

/// The number and the fields of an instruction on a CSR, of `mret`, `wfi` or `fence.i`.
fn listed_system(instruction: &SystemInstruction) -> RrsInstruction
    requires { IsInRange (I instruction.now.fields) }
    ensures { result ≡ layer_listed (System instruction.now) }
{
    RrsInstruction {
        row: instruction.row.number(),
        rd: instruction.fields.rd as u32,
        rs1: instruction.fields.rs1 as u32,
        rs2: 0,
        shamt: 0,
        imm: instruction.csr_number() as i32,
    }
}

/// The number and the fields of an instruction of extension A.
fn listed_atomic(instruction: &AtomicInstruction) -> RrsInstruction
    requires { IsInRange (R instruction.now.fields) }
    ensures { result ≡ layer_listed (Atomic instruction.now) }
{
    RrsInstruction {
        row: instruction.row.number(),
        rd: instruction.fields.rd as u32,
        rs1: instruction.fields.rs1 as u32,
        rs2: instruction.fields.rs2 as u32,
        shamt: 0,
        imm: (instruction.fields.funct7 % 4) as i32,
    }
}

/// The number of a register and the shift amount in the place of rs2, or 0.
fn second_of(instruction: &BitInstruction) -> (u32, u32)
    requires { IsInRange (R instruction.now.fields) }
    ensures register { result.0
        ≡ register_in (bit_table instruction.now.row).operand instruction.now.fields.rs2 }
    ensures amount { result.1
        ≡ amount_in (bit_table instruction.now.row).operand instruction.now.fields.rs2 }
{
    match instruction.row.operand() {
        BitOperand::Register | BitOperand::NotX0 => (instruction.fields.rs2 as u32, 0),
        BitOperand::Amount => (0, instruction.fields.rs2 as u32),
        BitOperand::Fixed(_) => (0, 0),
    }
}

/// The number and the fields of an instruction of Zba to Zicond.
fn listed_bits(instruction: &BitInstruction) -> RrsInstruction
    requires { IsInRange (R instruction.now.fields) }
    ensures { result ≡ layer_listed (Bits instruction.now) }
{
    let (rs2, shamt) = second_of(instruction);
    RrsInstruction {
        row: instruction.row.number(),
        rd: instruction.fields.rd as u32,
        rs1: instruction.fields.rs1 as u32,
        rs2,
        shamt,
        imm: 0,
    }
}

/// The number and the fields of a word that is no row of the table.
pub(crate) fn listed_layer(word: u32) -> RrsInstruction
    ensures { ListsLayer word result }
{
    match decode_layer(word) {
        Some(LayerInstruction::System(instruction)) => listed_system(&instruction),
        Some(LayerInstruction::Atomic(instruction)) => listed_atomic(&instruction),
        Some(LayerInstruction::Bits(instruction)) => listed_bits(&instruction),
        None => nothing(),
    }
}
