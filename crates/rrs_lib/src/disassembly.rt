//! The text of an instruction at an address, made in place: no allocation, and no error.
//!
//! The texts follow the assembly syntax of the RISC-V unprivileged specification: the mnemonic of
//! the table's row, and then its operands. A register is `x` and its number. Where the instruction
//! adds its immediate to its own address, the sum modulo 2^32 is shown in place of the immediate.
//! `specs/Texts.antt` has the text of each row.
//!
//! | Instructions | Text |
//! |---|---|
//! | on registers | `add x3, x1, x2` |
//! | on a register and an immediate | `addi x3, x1, -5` |
//! | shifts by an amount | `slli x3, x1, 7` |
//! | `lui` | `lui x3, 0x12345000`: the word that rd gets |
//! | `auipc` | `auipc x3, 0x12345100`: the word that rd gets |
//! | branches | `beq x1, x2, 0x00000108`: the target |
//! | `jal` | `jal x3, 0x00000110`: the target |
//! | loads | `lw x3, -4(x1)`: rd, the offset and the base |
//! | stores | `sw x2, 8(x1)`: the register that is stored, the offset and the base |
//! | `jalr` | `jalr x3, 0x014(x1)`: the offset modulo 2^32, in at least 3 digits |
//! | `fence`, `ecall`, `ebreak` | `fence`: the mnemonic alone |

mod digits;

ghost use Rattle.std.specs.Prelude.{◌≡◌, ◌+◌, ◌≤◌, ◌++◌, length, codes};
ghost use Rattle.std.specs.Fmt.{decimal, signed_decimal};
ghost use Rattle.rrs_instruction.specs.Words.{word};
ghost use Rattle.rrs_instruction.specs.Results.{plus_immediate};
ghost use Rattle.rrs_lib.specs.Texts.{hexadecimal, register};

use crate::instruction::{Instruction, InstructionFields};
use crate::instruction_formats::{BType, IType, ITypeShamt, JType, RType, SType, UType};
use arrayvec::ArrayString;
pub use digits::hexadecimal_digits;
use itoa::{Buffer, Integer};
use rrs_instruction::arithmetic;
use std::{fmt, str};

/// The number of bytes of the longest text that a word has, as `bgeu x10, x11, 0x00000108`.
pub const LONGEST_TEXT: usize = 25;

/// The number of bytes of the longest text that any fields have, also such as no word has.
pub const TEXT_CAPACITY: usize = 74;

/// The text of an instruction, which lies in the value itself.
pub type InstructionText = ArrayString<TEXT_CAPACITY>;

/// An instruction at an address, to be shown.
#[derive(Clone, Copy)]
pub struct Disassembled {
    /// The instruction. Its fields may be any, and are printed as they are.
    pub instruction: Instruction,
    /// The address of the instruction. The targets of branches and of `jal`, and the result of
    /// `auipc`, are printed as sums with it; no other text depends on it.
    pub pc: u32,
}

impl Disassembled {
    ghost use Rattle.std.specs.Prelude.{Some};
    ghost use Rattle.rrs_instruction.specs.Encodings.{IsInRange};
    ghost use Rattle.rrs_instruction.specs.Instructions.{row_of, fields_of};
    ghost use Rattle.rrs_lib.specs.Texts.{text_of};
    ghost use Rattle.rrs_lib.specs.Outputter.{usual_text};

    /// The text, whatever the fields.
    pub fn text(&self) -> InstructionText
        ensures text { text_of (row_of self.now.instruction) (fields_of self.now.instruction)
            self.now.pc ≡ Some result.bytes }
        ensures longest { IsInRange (fields_of self.now.instruction)
            → length result.bytes ≤ LONGEST_TEXT }
    {
        self.written()
    }

    /// The text, of which some rows of a format have their own.
    fn written(&self) -> InstructionText
        ensures { text_of (row_of self.now.instruction) (fields_of self.now.instruction)
            self.now.pc ≡ Some result.bytes }
    {
        let name = self.instruction.mnemonic();
        match self.instruction {
            Instruction::Auipc(UType { rd, imm }) => {
                let sum = arithmetic::plus_immediate(self.pc, imm);
                register_and_word(name, rd, sum)
            }
            Instruction::Lb(dec_insn)
            | Instruction::Lbu(dec_insn)
            | Instruction::Lh(dec_insn)
            | Instruction::Lhu(dec_insn)
            | Instruction::Lw(dec_insn) => {
                register_and_place(name, dec_insn.rd, dec_insn.imm, dec_insn.rs1)
            }
            Instruction::Jalr(dec_insn) => jump(name, dec_insn),
            Instruction::Fence(_) | Instruction::Ecall(_) | Instruction::Ebreak(_) => {
                mnemonic_alone(name)
            }
            _ => self.usual(),
        }
    }

    /// The text of an instruction that is written as most of its format are.
    #[tactic(auto, using(crate::proofs::TextLengths::short_name))]
    fn usual(&self) -> InstructionText
        ensures { result.bytes ≡ usual_text (row_of self.now.instruction)
            (fields_of self.now.instruction) self.now.pc }
    {
        let name = self.instruction.mnemonic();
        match self.instruction.fields() {
            InstructionFields::R(dec_insn) => three_registers(name, dec_insn),
            InstructionFields::I(dec_insn) => two_registers(name, dec_insn),
            InstructionFields::IShamt(dec_insn) => shifted_register(name, dec_insn),
            InstructionFields::S(SType { rs2, rs1, imm, .. }) => {
                register_and_place(name, rs2, imm, rs1)
            }
            InstructionFields::B(dec_insn) => {
                let target = arithmetic::plus_immediate(self.pc, dec_insn.imm);
                branch_to(name, dec_insn, target)
            }
            InstructionFields::U(UType { rd, imm }) => {
                register_and_word(name, rd, arithmetic::immediate(imm))
            }
            InstructionFields::J(JType { rd, imm }) => {
                let target = arithmetic::plus_immediate(self.pc, imm);
                register_and_word(name, rd, target)
            }
        }
    }
}

impl fmt::Display for Disassembled {
    ghost use Rattle.rrs_instruction.specs.Instructions.{row_of, fields_of};
    ghost use Rattle.std.specs.Option.{option_map};
    ghost use Rattle.std.specs.Fmt.{styled_text};
    ghost use Rattle.rrs_lib.specs.Texts.{text_of};

    ghost output = { λ d. text_of (row_of d.instruction) (fields_of d.instruction) d.pc };

    ghost styled_output = { λ d options. option_map (styled_text options)
        (text_of (row_of d.instruction) (fields_of d.instruction) d.pc) };

    fn fmt<W: fmt::Write>(&self, f: &mut fmt::Formatter<W>) -> fmt::Result {
        f.pad(self.text().as_str())
    }
}

/// A text that begins with a mnemonic.
#[inline]
fn mnemonic_alone(name: &'static str) -> InstructionText
    requires { length name.now ≤ 6 }
    ensures bytes { result.bytes ≡ name.now }
    ensures length { length result.bytes ≤ 6 }
{
    let mut text = InstructionText::new();
    text.push_str(name);
    text
}

/// Appends a number in decimal, and what comes before it.
#[inline(always)]
fn push_number<I: Integer>(text: &mut InstructionText, before: &str, number: I)
    requires { length text.old.bytes + length before.now + I.MAX_STR_LEN ≤ TEXT_CAPACITY }
    ensures bytes { text.new.bytes ≡ text.old.bytes ++ before.now ++ I.text number }
    ensures length { length text.new.bytes
        ≤ length text.old.bytes + length before.now + I.MAX_STR_LEN }
{
    let mut buffer = Buffer::new();
    text.push_str(before);
    text.push_str(buffer.format(number));
}

/// Appends a register, and what comes before it. A register that there is has one digit or two.
#[inline(always)]
#[tactic(auto, using(crate::proofs::Numbers::one_digit, crate::proofs::Numbers::two_digits))]
fn push_register(text: &mut InstructionText, before: &str, number: usize)
    requires { length text.old.bytes + length before.now + 21 ≤ TEXT_CAPACITY }
    ensures bytes { text.new.bytes ≡ text.old.bytes ++ before.now ++ register number }
    ensures length { length text.new.bytes ≤ length text.old.bytes + length before.now + 21 }
{
    text.push_str(before);
    if number < 10 {
        let name = [b'x', b'0' + number as u8];
        text.push_str(unsafe { str::from_utf8_unchecked(&name) });
    } else if number < 100 {
        let name = [b'x', b'0' + (number / 10) as u8, b'0' + (number % 10) as u8];
        text.push_str(unsafe { str::from_utf8_unchecked(&name) });
    } else {
        push_number(text, "x", number);
    }
}

/// Appends a number in hexadecimal, with zeros in front up to `least` digits, after `, 0x`.
#[inline]
fn push_word(text: &mut InstructionText, least: usize, word: u32)
    requires least { least ≤ 8 }
    requires room { length text.old.bytes + 12 ≤ TEXT_CAPACITY }
    ensures bytes { text.new.bytes ≡ text.old.bytes ++ codes ", 0x" ++ hexadecimal least word }
    ensures length { length text.new.bytes ≤ length text.old.bytes + 12 }
{
    text.push_str(", 0x");
    text.push_str(hexadecimal_digits(least, word).as_str());
}

/// The text of an operation on two registers, such as `add x3, x1, x2`.
fn three_registers(name: &'static str, dec_insn: RType) -> InstructionText
    requires { length name.now ≤ 6 }
    ensures { result.bytes ≡ name.now ++ codes " " ++ register dec_insn.rd ++ codes ", "
        ++ register dec_insn.rs1 ++ codes ", " ++ register dec_insn.rs2 }
{
    let mut text = mnemonic_alone(name);
    push_register(&mut text, " ", dec_insn.rd);
    push_register(&mut text, ", ", dec_insn.rs1);
    push_register(&mut text, ", ", dec_insn.rs2);
    text
}

/// The text of an operation on a register and an immediate, such as `addi x3, x1, -5`.
fn two_registers(name: &'static str, dec_insn: IType) -> InstructionText
    requires { length name.now ≤ 6 }
    ensures { result.bytes ≡ name.now ++ codes " " ++ register dec_insn.rd ++ codes ", "
        ++ register dec_insn.rs1 ++ codes ", " ++ signed_decimal dec_insn.imm }
{
    let mut text = mnemonic_alone(name);
    push_register(&mut text, " ", dec_insn.rd);
    push_register(&mut text, ", ", dec_insn.rs1);
    push_number(&mut text, ", ", dec_insn.imm);
    text
}

/// The text of a shift by an amount, such as `slli x3, x1, 7`.
fn shifted_register(name: &'static str, dec_insn: ITypeShamt) -> InstructionText
    requires { length name.now ≤ 6 }
    ensures { result.bytes ≡ name.now ++ codes " " ++ register dec_insn.rd ++ codes ", "
        ++ register dec_insn.rs1 ++ codes ", " ++ decimal dec_insn.shamt }
{
    let mut text = mnemonic_alone(name);
    push_register(&mut text, " ", dec_insn.rd);
    push_register(&mut text, ", ", dec_insn.rs1);
    push_number(&mut text, ", ", dec_insn.shamt);
    text
}

/// The text with a word or an address in full, such as `lui x3, 0x12345000`.
fn register_and_word(name: &'static str, rd: usize, value: u32) -> InstructionText
    requires { length name.now ≤ 6 }
    ensures { result.bytes ≡ name.now ++ codes " " ++ register rd ++ codes ", 0x"
        ++ hexadecimal 8 value }
{
    let mut text = mnemonic_alone(name);
    push_register(&mut text, " ", rd);
    push_word(&mut text, 8, value);
    text
}

/// The text of a branch, such as `beq x1, x2, 0x00000108`.
fn branch_to(name: &'static str, dec_insn: BType, target: u32) -> InstructionText
    requires { length name.now ≤ 6 }
    ensures { result.bytes ≡ name.now ++ codes " " ++ register dec_insn.rs1 ++ codes ", "
        ++ register dec_insn.rs2 ++ codes ", 0x" ++ hexadecimal 8 target }
{
    let mut text = mnemonic_alone(name);
    push_register(&mut text, " ", dec_insn.rs1);
    push_register(&mut text, ", ", dec_insn.rs2);
    push_word(&mut text, 8, target);
    text
}

/// The text of a load or a store, such as `lw x3, -4(x1)`: `reg` is loaded or stored.
fn register_and_place(name: &'static str, reg: usize, imm: i32, base: usize) -> InstructionText
    requires { length name.now ≤ 6 }
    ensures { result.bytes ≡ name.now ++ codes " " ++ register reg ++ codes ", "
        ++ signed_decimal imm ++ codes "(" ++ register base ++ codes ")" }
{
    let mut text = mnemonic_alone(name);
    push_register(&mut text, " ", reg);
    push_number(&mut text, ", ", imm);
    push_register(&mut text, "(", base);
    text.push_str(")");
    text
}

/// The text of a jump to a register and an offset, such as `jalr x3, 0x014(x1)`.
fn jump(name: &'static str, dec_insn: IType) -> InstructionText
    requires { length name.now ≤ 6 }
    ensures { result.bytes ≡ name.now ++ codes " " ++ register dec_insn.rd ++ codes ", 0x"
        ++ hexadecimal 3 (word dec_insn.imm) ++ codes "(" ++ register dec_insn.rs1 ++ codes ")" }
{
    let mut text = mnemonic_alone(name);
    push_register(&mut text, " ", dec_insn.rd);
    push_word(&mut text, 3, arithmetic::immediate(dec_insn.imm));
    push_register(&mut text, "(", dec_insn.rs1);
    text.push_str(")");
    text
}
