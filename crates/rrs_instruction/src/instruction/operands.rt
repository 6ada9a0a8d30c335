//! What a debugger or a tracer asks of an instruction: its operands, and what it accesses.

ghost use Rattle.std.specs.Prelude.{◌≡◌};

use crate::instruction::{Instruction, InstructionFields};

/// What an instruction accesses beside its own word, with the size in bytes: 1, 2 or 4.
#[derive(Debug, PartialEq, Clone, Copy)]
pub enum DataAccess {
    /// It loads so many bytes.
    Load(u32),
    /// It stores so many bytes.
    Store(u32),
}

impl Instruction {
    ghost use Rattle.rrs_instruction.specs.Instructions.{row_of, fields_of};
    ghost use Rattle.rrs_instruction.specs.Operands.{rd_of, rs1_of, rs2_of, immediate_of, shift_amount_of, access_of};
    ghost use Rattle.rrs_instruction.specs.Table.{table};

    /// The register that the instruction writes, by its format; `None` of stores and branches.
    ///
    /// `fence`, `ecall` and `ebreak` have the operands of their format too, and use none of them.
    pub fn rd(&self) -> Option<usize>
        ensures { result ≡ rd_of (fields_of self.now) }
    {
        match self.fields() {
            InstructionFields::R(fields) => Some(fields.rd),
            InstructionFields::I(fields) => Some(fields.rd),
            InstructionFields::IShamt(fields) => Some(fields.rd),
            InstructionFields::S(_) | InstructionFields::B(_) => None,
            InstructionFields::U(fields) => Some(fields.rd),
            InstructionFields::J(fields) => Some(fields.rd),
        }
    }

    /// The first register that the instruction reads, by its format; `None` of `lui`, `auipc` and
    /// `jal`.
    pub fn rs1(&self) -> Option<usize>
        ensures { result ≡ rs1_of (fields_of self.now) }
    {
        match self.fields() {
            InstructionFields::R(fields) => Some(fields.rs1),
            InstructionFields::I(fields) => Some(fields.rs1),
            InstructionFields::IShamt(fields) => Some(fields.rs1),
            InstructionFields::S(fields) => Some(fields.rs1),
            InstructionFields::B(fields) => Some(fields.rs1),
            InstructionFields::U(_) | InstructionFields::J(_) => None,
        }
    }

    /// The second register that the instruction reads, by its format, of a store the one whose
    /// value is stored; `None` but of operations on two registers, stores and branches.
    pub fn rs2(&self) -> Option<usize>
        ensures { result ≡ rs2_of (fields_of self.now) }
    {
        match self.fields() {
            InstructionFields::R(fields) => Some(fields.rs2),
            InstructionFields::S(fields) => Some(fields.rs2),
            InstructionFields::B(fields) => Some(fields.rs2),
            _ => None,
        }
    }

    /// The immediate, by the instruction's format: of a branch and of `jal` the offset in bytes, of
    /// `lui` and `auipc` a multiple of 4096. `None` of operations on two registers, and of shifts
    /// by an amount, which `shift_amount` gives.
    pub fn immediate(&self) -> Option<i32>
        ensures { result ≡ immediate_of (fields_of self.now) }
    {
        match self.fields() {
            InstructionFields::I(fields) => Some(fields.imm),
            InstructionFields::S(fields) => Some(fields.imm),
            InstructionFields::B(fields) => Some(fields.imm),
            InstructionFields::U(fields) => Some(fields.imm),
            InstructionFields::J(fields) => Some(fields.imm),
            InstructionFields::R(_) | InstructionFields::IShamt(_) => None,
        }
    }

    /// The amount of a shift by an amount, `slli`, `srli` or `srai`; `None` of all others.
    pub fn shift_amount(&self) -> Option<u32>
        ensures { result ≡ shift_amount_of (fields_of self.now) }
    {
        match self.fields() {
            InstructionFields::IShamt(fields) => Some(fields.shamt),
            _ => None,
        }
    }

    /// What the instruction accesses beside its own word: a load or a store, of so many bytes, or
    /// `None`.
    pub fn access(&self) -> Option<DataAccess>
        ensures { result ≡ access_of (table (row_of self.now)).action }
    {
        match self {
            Instruction::Lb(_) | Instruction::Lbu(_) => Some(DataAccess::Load(1)),
            Instruction::Lh(_) | Instruction::Lhu(_) => Some(DataAccess::Load(2)),
            Instruction::Lw(_) => Some(DataAccess::Load(4)),
            Instruction::Sb(_) => Some(DataAccess::Store(1)),
            Instruction::Sh(_) => Some(DataAccess::Store(2)),
            Instruction::Sw(_) => Some(DataAccess::Store(4)),
            _ => None,
        }
    }
}
