//! The compressed instructions, of 16 bits: their forms, and what each stands for.

ghost use Rattle.std.specs.Prelude.{◌≡◌, ◌<◌, ◌≤◌, ◌*◌, ◌-ℤ◌, pos, length};
ghost use Rattle.rrs_instruction.specs.Instructions.{row_of, fields_of};
ghost use Rattle.rrs_instruction.specs.Encodings.{R, I, IShamt, S, B, U, J};
ghost use Rattle.rrs_words.specs.Forms.{form_table, extended, expanded_fields, on_immediate, on_registers, shift, store, upper, branch, jump};

use rrs_lib::instruction::Instruction;
use rrs_lib::instruction_formats::{BType, IType, ITypeShamt, JType, RType, SType, UType};

/// A form of the compressed instructions of extension C for RV32, without those of floating point.
#[derive(Debug, PartialEq, Clone, Copy)]
pub enum ShortForm {
    /// `c.addi4spn`: the sum of x2 and a multiple of 4.
    Addi4spn,
    /// `c.lw`.
    Lw,
    /// `c.sw`.
    Sw,
    /// `c.addi`; with x0 it is `c.nop`.
    Addi,
    /// `c.jal`, whose link is x1.
    Jal,
    /// `c.li`.
    Li,
    /// `c.addi16sp`: x2 and a multiple of 16.
    Addi16sp,
    /// `c.lui`.
    Lui,
    /// `c.srli`.
    Srli,
    /// `c.srai`.
    Srai,
    /// `c.andi`.
    Andi,
    /// `c.sub`.
    Sub,
    /// `c.xor`.
    Xor,
    /// `c.or`.
    Or,
    /// `c.and`.
    And,
    /// `c.j`.
    J,
    /// `c.beqz`.
    Beqz,
    /// `c.bnez`.
    Bnez,
    /// `c.slli`.
    Slli,
    /// `c.lwsp`: a load at x2 and an offset.
    Lwsp,
    /// `c.jr`.
    Jr,
    /// `c.mv`.
    Mv,
    /// `c.ebreak`.
    Ebreak,
    /// `c.jalr`, whose link is x1.
    Jalr,
    /// `c.add`.
    Add,
    /// `c.swsp`: a store at x2 and an offset.
    Swsp,
}

/// The operands of a compressed instruction, 0 where it has none.
#[derive(Debug, PartialEq, Clone, Copy)]
pub struct ShortOperands {
    /// The first register: the one that is written, jumped to, compared with x0, or stored. An
    /// operation that writes it may read it too.
    pub first: usize,
    /// The second register: the one that is read, or that of the address.
    pub second: usize,
    /// The immediate, in as many bits as the form has: of one with a sign in two's complement.
    pub imm: u16,
}

/// A compressed instruction.
#[derive(Debug, PartialEq, Clone, Copy)]
pub struct ShortInstruction {
    /// Its form.
    pub form: ShortForm,
    /// Its operands.
    pub operands: ShortOperands,
}

impl ShortForm {
    /// Its name: `c.addi4spn`.
    pub fn name(self) -> &'static str
        ensures name { result.now ≡ (form_table self).name }
        ensures length { length result.now ≤ 10 }
    {
        match self {
            ShortForm::Addi4spn => "c.addi4spn",
            ShortForm::Lw => "c.lw",
            ShortForm::Sw => "c.sw",
            ShortForm::Addi => "c.addi",
            ShortForm::Jal => "c.jal",
            ShortForm::Li => "c.li",
            ShortForm::Addi16sp => "c.addi16sp",
            ShortForm::Lui => "c.lui",
            ShortForm::Srli => "c.srli",
            ShortForm::Srai => "c.srai",
            ShortForm::Andi => "c.andi",
            ShortForm::Sub => "c.sub",
            ShortForm::Xor => "c.xor",
            ShortForm::Or => "c.or",
            ShortForm::And => "c.and",
            ShortForm::J => "c.j",
            ShortForm::Beqz => "c.beqz",
            ShortForm::Bnez => "c.bnez",
            ShortForm::Slli => "c.slli",
            ShortForm::Lwsp => "c.lwsp",
            ShortForm::Jr => "c.jr",
            ShortForm::Mv => "c.mv",
            ShortForm::Ebreak => "c.ebreak",
            ShortForm::Jalr => "c.jalr",
            ShortForm::Add => "c.add",
            ShortForm::Swsp => "c.swsp",
        }
    }
}

/// The number that some bits are in two's complement, of which the highest one has this value.
pub(crate) fn extended(bits: u16, sign: u16) -> i32
    ensures below { bits < sign → result ≡ pos bits }
    ensures above { sign ≤ bits → result ≡ pos bits -ℤ pos (2 * sign) }
{
    let number = i32::from(bits);
    if bits < sign {
        number
    } else {
        number - 2 * i32::from(sign)
    }
}

/// The fields of a row on a register and an immediate, or of a load.
fn on_immediate(funct3: u32, rd: usize, rs1: usize, imm: i32) -> IType
    ensures { I result ≡ on_immediate funct3 rd rs1 imm }
{
    IType {
        imm,
        rs1,
        funct3,
        rd,
    }
}

/// The fields of a row on two registers, of which the first is written.
fn on_registers(funct7: u32, funct3: u32, rd: usize, rs1: usize, rs2: usize) -> RType
    ensures { R result ≡ on_registers funct7 funct3 rd rs1 rs2 }
{
    RType {
        funct7,
        rs2,
        rs1,
        funct3,
        rd,
    }
}

/// The fields of a shift of a register by an amount.
fn shift(funct7: u32, funct3: u32, rd: usize, imm: u16) -> ITypeShamt
    ensures { IShamt result ≡ shift funct7 funct3 rd imm }
{
    ITypeShamt {
        funct7,
        shamt: u32::from(imm),
        rs1: rd,
        funct3,
        rd,
    }
}

/// The fields of a store of a word.
fn store(rs2: usize, rs1: usize, imm: u16) -> SType
    ensures { S result ≡ store rs2 rs1 imm }
{
    SType {
        imm: i32::from(imm),
        rs2,
        rs1,
        funct3: 2,
    }
}

/// The fields of `lui`, by the six bits that stand for bits 17 to 12.
fn upper(rd: usize, imm: u16) -> UType
    ensures { U result ≡ upper rd (extended 6 imm) }
{
    UType {
        imm: extended(imm, 0x20) * 4096,
        rd,
    }
}

/// The fields of a branch that compares with x0.
fn branch(funct3: u32, rs1: usize, imm: u16) -> BType
    ensures { B result ≡ branch funct3 rs1 (extended 9 imm) }
{
    BType {
        imm: extended(imm, 0x100),
        rs2: 0,
        rs1,
        funct3,
    }
}

/// The fields of `jal`.
fn jump(rd: usize, imm: u16) -> JType
    ensures { J result ≡ jump rd (extended 12 imm) }
{
    JType {
        imm: extended(imm, 0x800),
        rd,
    }
}

/// The instruction of the kit that a compressed one stands for: its row and its fields.
///
/// It differs from this instruction in its size alone, so in the next pc and in the link. The
/// operands may be any.
///
/// # Examples
///
/// ```
/// let operands = ShortOperands { first: 2, second: 0, imm: 0x3f0 };
/// let step = ShortInstruction { form: ShortForm::Addi16sp, operands };
/// let fields = IType { imm: -16, rs1: 2, funct3: 0, rd: 2 };
/// assert_eq!(rt; expanded(&step), Instruction::Addi(fields));
/// ```
pub fn expanded(short: &ShortInstruction) -> Instruction
    ensures row { row_of result ≡ (form_table short.now.form).row }
    ensures fields { fields_of result ≡ expanded_fields short.now.form short.now.operands }
{
    let ShortOperands { first, second, imm } = short.operands;
    let (offset, six) = (i32::from(imm), extended(imm, 0x20));
    let step = extended(imm, 0x200);
    match short.form {
        ShortForm::Addi4spn => Instruction::Addi(on_immediate(0, first, second, offset)),
        ShortForm::Lw | ShortForm::Lwsp => Instruction::Lw(on_immediate(2, first, second, offset)),
        ShortForm::Sw | ShortForm::Swsp => Instruction::Sw(store(first, second, imm)),
        ShortForm::Addi => Instruction::Addi(on_immediate(0, first, first, six)),
        ShortForm::Jal => Instruction::Jal(jump(1, imm)),
        ShortForm::Li => Instruction::Addi(on_immediate(0, first, 0, six)),
        ShortForm::Addi16sp => Instruction::Addi(on_immediate(0, first, first, step)),
        ShortForm::Lui => Instruction::Lui(upper(first, imm)),
        ShortForm::Srli => Instruction::Srli(shift(0, 5, first, imm)),
        ShortForm::Srai => Instruction::Srai(shift(0x20, 5, first, imm)),
        ShortForm::Andi => Instruction::Andi(on_immediate(7, first, first, six)),
        ShortForm::Sub => Instruction::Sub(on_registers(0x20, 0, first, first, second)),
        ShortForm::Xor => Instruction::Xor(on_registers(0, 4, first, first, second)),
        ShortForm::Or => Instruction::Or(on_registers(0, 6, first, first, second)),
        ShortForm::And => Instruction::And(on_registers(0, 7, first, first, second)),
        ShortForm::J => Instruction::Jal(jump(0, imm)),
        ShortForm::Beqz => Instruction::Beq(branch(0, first, imm)),
        ShortForm::Bnez => Instruction::Bne(branch(1, first, imm)),
        ShortForm::Slli => Instruction::Slli(shift(0, 1, first, imm)),
        ShortForm::Jr => Instruction::Jalr(on_immediate(0, 0, first, 0)),
        ShortForm::Mv => Instruction::Add(on_registers(0, 0, first, 0, second)),
        ShortForm::Ebreak => Instruction::Ebreak(on_immediate(0, 0, 0, 1)),
        ShortForm::Jalr => Instruction::Jalr(on_immediate(0, 1, first, 0)),
        ShortForm::Add => Instruction::Add(on_registers(0, 0, first, first, second)),
    }
}
