//! Instructions as values.
//!
//! An [Instruction] is a row of the table with its decoded fields, to match on. `decode` gives the
//! one that a word is, and `process` hands it to an [InstructionProcessor].
//! `process_instruction` is the one after the other.

mod operands;

ghost use Rattle.std.specs.Prelude.{◌≡◌, ◌≤◌};
ghost use Rattle.rrs_instruction.specs.Encodings.{HasRegisters};
ghost use Rattle.rrs_instruction.specs.declared.instruction.TheConstants.{ROW_COUNT};

use crate::InstructionProcessor;
pub use crate::decode::decode;
pub use crate::instruction::operands::DataAccess;
use crate::instruction_formats::{BType, IType, ITypeShamt, JType, RType, SType, UType};
use std::fmt;

/// The number of rows of the table.
pub const ROW_COUNT: usize = 48;

/// An instruction: a variant for each row of the table, in its order, that holds the row's fields.
///
/// Which row and which fields a value is, is written in `specs/Instructions.antt`. The fields may
/// be any, also such as no word has; those of a value that `decode` returned are in their ranges.
#[derive(Clone, Copy)]
pub enum Instruction {
    /// `add`: the sum.
    Add(RType),
    /// `sub`: the difference.
    Sub(RType),
    /// `sll`: a shift to the left.
    Sll(RType),
    /// `slt`: whether one is below the other, signed.
    Slt(RType),
    /// `sltu`: whether one is below the other, unsigned.
    Sltu(RType),
    /// `xor`: exclusive or, bit by bit.
    Xor(RType),
    /// `srl`: a shift to the right that fills with zeros.
    Srl(RType),
    /// `sra`: a shift to the right that fills with the sign.
    Sra(RType),
    /// `or`: or, bit by bit.
    Or(RType),
    /// `and`: and, bit by bit.
    And(RType),
    /// `addi`: the sum with the immediate.
    Addi(IType),
    /// `slli`: a shift to the left by the shift amount.
    Slli(ITypeShamt),
    /// `slti`: whether it is below the immediate, signed.
    Slti(IType),
    /// `sltiu`: whether it is below the immediate, unsigned.
    Sltiu(IType),
    /// `xori`: exclusive or with the immediate, bit by bit.
    Xori(IType),
    /// `srli`: a shift to the right by the shift amount that fills with zeros.
    Srli(ITypeShamt),
    /// `srai`: a shift to the right by the shift amount that fills with the sign.
    Srai(ITypeShamt),
    /// `ori`: or with the immediate, bit by bit.
    Ori(IType),
    /// `andi`: and with the immediate, bit by bit.
    Andi(IType),
    /// `lui`: the immediate.
    Lui(UType),
    /// `auipc`: the pc plus the immediate.
    Auipc(UType),
    /// `beq`: a branch where they are equal.
    Beq(BType),
    /// `bne`: a branch where they differ.
    Bne(BType),
    /// `blt`: a branch where one is below the other, signed.
    Blt(BType),
    /// `bltu`: a branch where one is below the other, unsigned.
    Bltu(BType),
    /// `bge`: a branch where one is not below the other, signed.
    Bge(BType),
    /// `bgeu`: a branch where one is not below the other, unsigned.
    Bgeu(BType),
    /// `lb`: a load of a byte, sign-extended.
    Lb(IType),
    /// `lbu`: a load of a byte.
    Lbu(IType),
    /// `lh`: a load of a half-word, sign-extended.
    Lh(IType),
    /// `lhu`: a load of a half-word.
    Lhu(IType),
    /// `lw`: a load of a word.
    Lw(IType),
    /// `sb`: a store of a byte.
    Sb(SType),
    /// `sh`: a store of a half-word.
    Sh(SType),
    /// `sw`: a store of a word.
    Sw(SType),
    /// `jal`: a jump by the immediate, with a link.
    Jal(JType),
    /// `jalr`: a jump to a register plus the immediate, with a link.
    Jalr(IType),
    /// `mul`: the low word of the product.
    Mul(RType),
    /// `mulh`: the high word of the product, signed.
    Mulh(RType),
    /// `mulhu`: the high word of the product, unsigned.
    Mulhu(RType),
    /// `mulhsu`: the high word of the product, signed by unsigned.
    Mulhsu(RType),
    /// `div`: the quotient, signed.
    Div(RType),
    /// `divu`: the quotient, unsigned.
    Divu(RType),
    /// `rem`: the remainder, signed.
    Rem(RType),
    /// `remu`: the remainder, unsigned.
    Remu(RType),
    /// `fence`: an order of memory accesses, which does nothing here.
    Fence(IType),
    /// `ecall`: a call of the environment, which is an exception here.
    Ecall(IType),
    /// `ebreak`: a breakpoint, which is an exception here.
    Ebreak(IType),
}

/// The name of each row, as in its text, and that of its variant, in the order of the table.
const NAMES: [(&str, &str); ROW_COUNT] = [
    ("add", "Add"),
    ("sub", "Sub"),
    ("sll", "Sll"),
    ("slt", "Slt"),
    ("sltu", "Sltu"),
    ("xor", "Xor"),
    ("srl", "Srl"),
    ("sra", "Sra"),
    ("or", "Or"),
    ("and", "And"),
    ("addi", "Addi"),
    ("slli", "Slli"),
    ("slti", "Slti"),
    ("sltiu", "Sltiu"),
    ("xori", "Xori"),
    ("srli", "Srli"),
    ("srai", "Srai"),
    ("ori", "Ori"),
    ("andi", "Andi"),
    ("lui", "Lui"),
    ("auipc", "Auipc"),
    ("beq", "Beq"),
    ("bne", "Bne"),
    ("blt", "Blt"),
    ("bltu", "Bltu"),
    ("bge", "Bge"),
    ("bgeu", "Bgeu"),
    ("lb", "Lb"),
    ("lbu", "Lbu"),
    ("lh", "Lh"),
    ("lhu", "Lhu"),
    ("lw", "Lw"),
    ("sb", "Sb"),
    ("sh", "Sh"),
    ("sw", "Sw"),
    ("jal", "Jal"),
    ("jalr", "Jalr"),
    ("mul", "Mul"),
    ("mulh", "Mulh"),
    ("mulhu", "Mulhu"),
    ("mulhsu", "Mulhsu"),
    ("div", "Div"),
    ("divu", "Divu"),
    ("rem", "Rem"),
    ("remu", "Remu"),
    ("fence", "Fence"),
    ("ecall", "Ecall"),
    ("ebreak", "Ebreak"),
];

/// The fields of an instruction, whatever its row: one variant for each format.
///
/// Code that treats all rows of a format alike matches on this, and needs no line for each row.
#[derive(PartialEq, Clone, Copy)]
pub enum InstructionFields {
    /// Of an operation on two registers.
    R(RType),
    /// Of an operation on a register and an immediate, a load, `jalr`, `fence`, `ecall` and
    /// `ebreak`.
    I(IType),
    /// Of a shift by an amount.
    IShamt(ITypeShamt),
    /// Of a store.
    S(SType),
    /// Of a branch.
    B(BType),
    /// Of `lui` and `auipc`.
    U(UType),
    /// Of `jal`.
    J(JType),
}

impl Instruction {
    ghost use Rattle.rrs_instruction.specs.Instructions.{row_of, fields_of, as_fields};
    ghost use Rattle.rrs_instruction.specs.Table.{table};

    /// The number of the instruction's row, 1 to [ROW_COUNT], in the order of the table.
    #[inline]
    pub fn number(&self) -> usize
        ensures number { result ≡ (table (row_of self.now)).number }
        ensures first { 1 ≤ result }
        ensures last { result ≤ ROW_COUNT }
    {
        match self {
            Instruction::Add(_) => 1,
            Instruction::Sub(_) => 2,
            Instruction::Sll(_) => 3,
            Instruction::Slt(_) => 4,
            Instruction::Sltu(_) => 5,
            Instruction::Xor(_) => 6,
            Instruction::Srl(_) => 7,
            Instruction::Sra(_) => 8,
            Instruction::Or(_) => 9,
            Instruction::And(_) => 10,
            Instruction::Addi(_) => 11,
            Instruction::Slli(_) => 12,
            Instruction::Slti(_) => 13,
            Instruction::Sltiu(_) => 14,
            Instruction::Xori(_) => 15,
            Instruction::Srli(_) => 16,
            Instruction::Srai(_) => 17,
            Instruction::Ori(_) => 18,
            Instruction::Andi(_) => 19,
            Instruction::Lui(_) => 20,
            Instruction::Auipc(_) => 21,
            Instruction::Beq(_) => 22,
            Instruction::Bne(_) => 23,
            Instruction::Blt(_) => 24,
            Instruction::Bltu(_) => 25,
            Instruction::Bge(_) => 26,
            Instruction::Bgeu(_) => 27,
            Instruction::Lb(_) => 28,
            Instruction::Lbu(_) => 29,
            Instruction::Lh(_) => 30,
            Instruction::Lhu(_) => 31,
            Instruction::Lw(_) => 32,
            Instruction::Sb(_) => 33,
            Instruction::Sh(_) => 34,
            Instruction::Sw(_) => 35,
            Instruction::Jal(_) => 36,
            Instruction::Jalr(_) => 37,
            Instruction::Mul(_) => 38,
            Instruction::Mulh(_) => 39,
            Instruction::Mulhu(_) => 40,
            Instruction::Mulhsu(_) => 41,
            Instruction::Div(_) => 42,
            Instruction::Divu(_) => 43,
            Instruction::Rem(_) => 44,
            Instruction::Remu(_) => 45,
            Instruction::Fence(_) => 46,
            Instruction::Ecall(_) => 47,
            Instruction::Ebreak(_) => 48,
        }
    }

    /// The name of the instruction's row, as in its text: `add`.
    #[inline]
    pub fn mnemonic(&self) -> &'static str
        ensures { result.now ≡ (table (row_of self.now)).name }
    {
        NAMES[self.number() - 1].0
    }

    /// The name of the variant: `Add`.
    fn variant_name(&self) -> &'static str {
        NAMES[self.number() - 1].1
    }

    /// The fields of the instruction, by their format.
    #[inline]
    pub fn fields(&self) -> InstructionFields
        ensures { as_fields result ≡ fields_of self.now }
    {
        match self {
            Instruction::Add(fields)
            | Instruction::Sub(fields)
            | Instruction::Sll(fields)
            | Instruction::Slt(fields)
            | Instruction::Sltu(fields)
            | Instruction::Xor(fields)
            | Instruction::Srl(fields)
            | Instruction::Sra(fields)
            | Instruction::Or(fields)
            | Instruction::And(fields)
            | Instruction::Mul(fields)
            | Instruction::Mulh(fields)
            | Instruction::Mulhu(fields)
            | Instruction::Mulhsu(fields)
            | Instruction::Div(fields)
            | Instruction::Divu(fields)
            | Instruction::Rem(fields)
            | Instruction::Remu(fields) => InstructionFields::R(*fields),
            Instruction::Addi(fields)
            | Instruction::Slti(fields)
            | Instruction::Sltiu(fields)
            | Instruction::Xori(fields)
            | Instruction::Ori(fields)
            | Instruction::Andi(fields)
            | Instruction::Lb(fields)
            | Instruction::Lbu(fields)
            | Instruction::Lh(fields)
            | Instruction::Lhu(fields)
            | Instruction::Lw(fields)
            | Instruction::Jalr(fields)
            | Instruction::Fence(fields)
            | Instruction::Ecall(fields)
            | Instruction::Ebreak(fields) => InstructionFields::I(*fields),
            Instruction::Slli(fields) | Instruction::Srli(fields) | Instruction::Srai(fields) =>
                InstructionFields::IShamt(*fields),
            Instruction::Lui(fields) | Instruction::Auipc(fields) => InstructionFields::U(*fields),
            Instruction::Beq(fields)
            | Instruction::Bne(fields)
            | Instruction::Blt(fields)
            | Instruction::Bltu(fields)
            | Instruction::Bge(fields)
            | Instruction::Bgeu(fields) => InstructionFields::B(*fields),
            Instruction::Sb(fields) | Instruction::Sh(fields) | Instruction::Sw(fields) =>
                InstructionFields::S(*fields),
            Instruction::Jal(fields) => InstructionFields::J(*fields),
        }
    }

    /// Calls the processor's function for this instruction, once, and returns what it returned. It
    /// reads the instruction in its place, and of its fields only those of its row.
    ///
    /// The processor did what it does for the row and the fields that the instruction is.
    #[inline(always)]
    pub fn process<T: InstructionProcessor>(&self, processor: &mut T) -> T::InstructionResult
        requires { HasRegisters (fields_of self.now) }
        ensures { T.did (row_of self.now) (fields_of self.now) processor.old processor.new result }
    {
        match *self {
            Instruction::Add(dec_insn) => T::process_add(processor, dec_insn),
            Instruction::Sub(dec_insn) => T::process_sub(processor, dec_insn),
            Instruction::Sll(dec_insn) => T::process_sll(processor, dec_insn),
            Instruction::Slt(dec_insn) => T::process_slt(processor, dec_insn),
            Instruction::Sltu(dec_insn) => T::process_sltu(processor, dec_insn),
            Instruction::Xor(dec_insn) => T::process_xor(processor, dec_insn),
            Instruction::Srl(dec_insn) => T::process_srl(processor, dec_insn),
            Instruction::Sra(dec_insn) => T::process_sra(processor, dec_insn),
            Instruction::Or(dec_insn) => T::process_or(processor, dec_insn),
            Instruction::And(dec_insn) => T::process_and(processor, dec_insn),
            Instruction::Addi(dec_insn) => T::process_addi(processor, dec_insn),
            Instruction::Slli(dec_insn) => T::process_slli(processor, dec_insn),
            Instruction::Slti(dec_insn) => T::process_slti(processor, dec_insn),
            Instruction::Sltiu(dec_insn) => T::process_sltui(processor, dec_insn),
            Instruction::Xori(dec_insn) => T::process_xori(processor, dec_insn),
            Instruction::Srli(dec_insn) => T::process_srli(processor, dec_insn),
            Instruction::Srai(dec_insn) => T::process_srai(processor, dec_insn),
            Instruction::Ori(dec_insn) => T::process_ori(processor, dec_insn),
            Instruction::Andi(dec_insn) => T::process_andi(processor, dec_insn),
            Instruction::Lui(dec_insn) => T::process_lui(processor, dec_insn),
            Instruction::Auipc(dec_insn) => T::process_auipc(processor, dec_insn),
            Instruction::Beq(dec_insn) => T::process_beq(processor, dec_insn),
            Instruction::Bne(dec_insn) => T::process_bne(processor, dec_insn),
            Instruction::Blt(dec_insn) => T::process_blt(processor, dec_insn),
            Instruction::Bltu(dec_insn) => T::process_bltu(processor, dec_insn),
            Instruction::Bge(dec_insn) => T::process_bge(processor, dec_insn),
            Instruction::Bgeu(dec_insn) => T::process_bgeu(processor, dec_insn),
            Instruction::Lb(dec_insn) => T::process_lb(processor, dec_insn),
            Instruction::Lbu(dec_insn) => T::process_lbu(processor, dec_insn),
            Instruction::Lh(dec_insn) => T::process_lh(processor, dec_insn),
            Instruction::Lhu(dec_insn) => T::process_lhu(processor, dec_insn),
            Instruction::Lw(dec_insn) => T::process_lw(processor, dec_insn),
            Instruction::Sb(dec_insn) => T::process_sb(processor, dec_insn),
            Instruction::Sh(dec_insn) => T::process_sh(processor, dec_insn),
            Instruction::Sw(dec_insn) => T::process_sw(processor, dec_insn),
            Instruction::Jal(dec_insn) => T::process_jal(processor, dec_insn),
            Instruction::Jalr(dec_insn) => T::process_jalr(processor, dec_insn),
            Instruction::Mul(dec_insn) => T::process_mul(processor, dec_insn),
            Instruction::Mulh(dec_insn) => T::process_mulh(processor, dec_insn),
            Instruction::Mulhu(dec_insn) => T::process_mulhu(processor, dec_insn),
            Instruction::Mulhsu(dec_insn) => T::process_mulhsu(processor, dec_insn),
            Instruction::Div(dec_insn) => T::process_div(processor, dec_insn),
            Instruction::Divu(dec_insn) => T::process_divu(processor, dec_insn),
            Instruction::Rem(dec_insn) => T::process_rem(processor, dec_insn),
            Instruction::Remu(dec_insn) => T::process_remu(processor, dec_insn),
            Instruction::Fence(dec_insn) => T::process_fence(processor, dec_insn),
            Instruction::Ecall(dec_insn) => T::process_ecall(processor, dec_insn),
            Instruction::Ebreak(dec_insn) => T::process_ebreak(processor, dec_insn),
        }
    }
}

/// Two instructions are equal where their rows and their fields are.
impl PartialEq for Instruction {
    ghost use Rattle.std.specs.Ordering.{on};
    ghost use Rattle.std.specs.Cmp.{on_per, and_per, partial_equiv_from_equiv, nat_eq_equiv};
    ghost use Rattle.rrs_instruction.specs.contracts.instruction.InstructionFieldsPartialEq.TheImpl.Laws.{laws-law};
    ghost use Rattle.rrs_instruction.specs.Instructions.{numbered, number_in, fields_in};

    ghost eq = { on numbered ⟦<(usize, InstructionFields) as PartialEq>⟧.eq };

    ghost laws = { on_per numbered (and_per
        (on_per number_in (partial_equiv_from_equiv nat_eq_equiv)) (on_per fields_in laws-law)) };

    fn eq(&self, other: &Instruction) -> bool {
        (self.number(), self.fields()) == (other.number(), other.fields())
    }
}

/// The text for programmers, `{:?}`, as a derive would write it.
impl fmt::Debug for Instruction {
    fn fmt<W: fmt::Write>(&self, f: &mut fmt::Formatter<W>) -> fmt::Result {
        f.debug_tuple(self.variant_name())
            .field(&self.fields())
            .finish()
    }
}

/// The text for programmers of the fields themselves, with no name of the format beside it.
impl fmt::Debug for InstructionFields {
    fn fmt<W: fmt::Write>(&self, f: &mut fmt::Formatter<W>) -> fmt::Result {
        match self {
            InstructionFields::R(fields) => fields.fmt(f),
            InstructionFields::I(fields) => fields.fmt(f),
            InstructionFields::IShamt(fields) => fields.fmt(f),
            InstructionFields::S(fields) => fields.fmt(f),
            InstructionFields::B(fields) => fields.fmt(f),
            InstructionFields::U(fields) => fields.fmt(f),
            InstructionFields::J(fields) => fields.fmt(f),
        }
    }
}
