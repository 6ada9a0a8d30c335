//! From the fields of a format to the word, and whether one has them.

ghost use Rattle.std.specs.Prelude.{◌≡◌, ◌<◌, ◌≤◌, ◌^◌, MatchBool};
ghost use Rattle.rrs_instruction.specs.Encodings.{encode, IsInRange, immediate_bits};
ghost use Rattle.rrs_instruction.specs.Instructions.{as_fields};

use rrs_instruction::instruction::InstructionFields;

/// The word with this opcode and these fields.
pub fn word_of(opcode: u32, fields: InstructionFields) -> u32
    requires opcode { opcode < 2 ^ 7 }
    requires fields { IsInRange (as_fields fields) }
    ensures { result ≡ encode opcode (as_fields fields) }
{
    match fields {
        InstructionFields::R(f) => {
            opcode
                + ((f.rd as u32) << 7)
                + (f.funct3 << 12)
                + ((f.rs1 as u32) << 15)
                + ((f.rs2 as u32) << 20)
                + (f.funct7 << 25)
        }
        InstructionFields::I(f) => {
            opcode
                + ((f.rd as u32) << 7)
                + (f.funct3 << 12)
                + ((f.rs1 as u32) << 15)
                + (bits_of(f.imm, 0, 12) << 20)
        }
        InstructionFields::IShamt(f) => {
            opcode
                + ((f.rd as u32) << 7)
                + (f.funct3 << 12)
                + ((f.rs1 as u32) << 15)
                + (f.shamt << 20)
                + (f.funct7 << 25)
        }
        InstructionFields::S(f) => {
            opcode
                + (bits_of(f.imm, 0, 5) << 7)
                + (f.funct3 << 12)
                + ((f.rs1 as u32) << 15)
                + ((f.rs2 as u32) << 20)
                + (bits_of(f.imm, 5, 7) << 25)
        }
        InstructionFields::B(f) => {
            opcode
                + (bits_of(f.imm, 11, 1) << 7)
                + (bits_of(f.imm, 1, 4) << 8)
                + (f.funct3 << 12)
                + ((f.rs1 as u32) << 15)
                + ((f.rs2 as u32) << 20)
                + (bits_of(f.imm, 5, 6) << 25)
                + (bits_of(f.imm, 12, 1) << 31)
        }
        InstructionFields::U(f) => {
            opcode + ((f.rd as u32) << 7) + (bits_of(f.imm, 12, 20) << 12)
        }
        InstructionFields::J(f) => {
            opcode
                + ((f.rd as u32) << 7)
                + (bits_of(f.imm, 12, 8) << 12)
                + (bits_of(f.imm, 11, 1) << 20)
                + (bits_of(f.imm, 1, 10) << 21)
                + (bits_of(f.imm, 20, 1) << 31)
        }
    }
}

/// Whether the fields are in the ranges of their format: register numbers, funct3 and funct7 by
/// their bits; an immediate by its bits and, of a branch and of `jal`, even, and of `lui` and
/// `auipc` a multiple of 4096.
pub fn is_in_range(fields: InstructionFields) -> bool
    ensures { MatchBool result (IsInRange (as_fields fields)) (IsInRange (as_fields fields) → ⊥) }
{
    match fields {
        InstructionFields::R(f) => f.rd < 32
            && f.funct3 < 8
            && f.rs1 < 32
            && f.rs2 < 32
            && f.funct7 < 128,
        InstructionFields::I(f) => f.rd < 32
            && f.funct3 < 8
            && f.rs1 < 32
            && -2048 <= f.imm
            && f.imm <= 2047,
        InstructionFields::IShamt(f) => f.rd < 32
            && f.funct3 < 8
            && f.rs1 < 32
            && f.shamt < 32
            && f.funct7 < 128,
        InstructionFields::S(f) => f.funct3 < 8
            && f.rs1 < 32
            && f.rs2 < 32
            && -2048 <= f.imm
            && f.imm <= 2047,
        InstructionFields::B(f) => {
            let is_even = f.imm.rem_euclid(2) == 0;
            is_even && f.funct3 < 8 && f.rs1 < 32 && f.rs2 < 32 && -4096 <= f.imm && f.imm <= 4094
        }
        InstructionFields::U(f) => f.rd < 32 && f.imm.rem_euclid(4096) == 0,
        InstructionFields::J(f) => {
            let is_even = f.imm.rem_euclid(2) == 0;
            is_even && f.rd < 32 && -1048576 <= f.imm && f.imm <= 1048574
        }
    }
}

/// Bits `low` to `low + count - 1` of an immediate in two's complement.
fn bits_of(imm: i32, low: u32, count: u32) -> u32
    requires { (low < 32) × (count ≤ 20) }
    ensures { result ≡ immediate_bits imm low count }
{
    (imm >> low).rem_euclid(1 << count) as u32
}
