//! The text that GNU `as` takes.

use rrs_instruction::instruction::{Instruction, InstructionFields, decode};
use std::alloc::{AllocError, Global};

/// Bytes as a source that GNU `as` takes, and this assembler too.
pub fn gnu_text(alloc: Global, bytes: &[u8]) -> Result<String, AllocError> {
    let mut text = String::new(alloc);
    for chunk in bytes.chunks(4) {
        push_chunk(&mut text, chunk)?;
    }
    Ok(text)
}

/// Writes a word, as the instruction that it is or as data, or the bytes of less than one.
fn push_chunk(text: &mut String, chunk: &[u8]) -> Result<(), AllocError> {
    let [first, second, third, fourth] = chunk else {
        return push_bytes(text, chunk);
    };
    let word = u32::from_le_bytes([*first, *second, *third, *fourth]);
    match decode(word) {
        Some(instruction) => push_instruction(text, instruction, word),
        None => push_data(text, word),
    }
}

/// Writes bytes as data.
fn push_bytes(text: &mut String, bytes: &[u8]) -> Result<(), AllocError> {
    for byte in bytes {
        writeln!(text, "    .byte 0x{byte:02x}")?;
    }
    Ok(())
}

/// Writes a word as data.
fn push_data(text: &mut String, word: u32) -> Result<(), AllocError> {
    writeln!(text, "    .word 0x{word:08x}")
}

/// Writes an instruction, whose word is given. A `fence` has no operands where it orders all
/// accesses, and else is written as data.
fn push_instruction(
    text: &mut String,
    instruction: Instruction,
    word: u32,
) -> Result<(), AllocError> {
    if matches!(instruction, Instruction::Fence(_)) && word != 0x0ff0_000f {
        return push_data(text, word);
    }
    text.push_str("    ")?;
    text.push_str(instruction.mnemonic())?;
    let mut separator = " ";
    for operand in &operands_of(instruction) {
        push_operand(text, separator, *operand)?;
        separator = ", ";
    }
    text.push_str("\n")
}

/// What stands after the name of an instruction.
#[derive(Clone, Copy)]
enum Operand {
    Register(usize),
    Number(i32),
    /// How far it is to a target.
    Distance(i32),
    /// The upper 20 bits of a word.
    Upper(u32),
    /// A number and a register, whose sum is an address.
    Address(i32, usize),
    Nothing,
}

/// The operands of an instruction.
fn operands_of(instruction: Instruction) -> [Operand; 3] {
    match instruction {
        Instruction::Ecall(_) | Instruction::Ebreak(_) | Instruction::Fence(_) => {
            [Operand::Nothing; 3]
        }
        Instruction::Lb(f)
        | Instruction::Lbu(f)
        | Instruction::Lh(f)
        | Instruction::Lhu(f)
        | Instruction::Lw(f)
        | Instruction::Jalr(f) => two(f.rd, Operand::Address(f.imm, f.rs1)),
        _ => operands_in(instruction.fields()),
    }
}

/// The operands of an instruction that is written as others of its format.
fn operands_in(fields: InstructionFields) -> [Operand; 3] {
    match fields {
        InstructionFields::R(f) => three(f.rd, f.rs1, Operand::Register(f.rs2)),
        InstructionFields::I(f) => three(f.rd, f.rs1, Operand::Number(f.imm)),
        InstructionFields::IShamt(f) => {
            three(f.rd, f.rs1, Operand::Number(f.shamt.cast_signed()))
        }
        InstructionFields::S(f) => two(f.rs2, Operand::Address(f.imm, f.rs1)),
        InstructionFields::B(f) => three(f.rs1, f.rs2, Operand::Distance(f.imm)),
        InstructionFields::U(f) => two(f.rd, Operand::Upper(f.imm.cast_unsigned() >> 12)),
        InstructionFields::J(f) => two(f.rd, Operand::Distance(f.imm)),
    }
}

/// A register and what stands after it.
fn two(register: usize, last: Operand) -> [Operand; 3] {
    [Operand::Register(register), last, Operand::Nothing]
}

/// Two registers and what stands after them.
fn three(first: usize, second: usize, last: Operand) -> [Operand; 3] {
    [Operand::Register(first), Operand::Register(second), last]
}

/// Writes an operand after what separates it from what is before.
fn push_operand(text: &mut String, separator: &str, operand: Operand) -> Result<(), AllocError> {
    match operand {
        Operand::Register(number) => write!(text, "{separator}x{number}"),
        Operand::Number(number) => write!(text, "{separator}{number}"),
        Operand::Distance(number) => write!(text, "{separator}. {number:+}"),
        Operand::Upper(number) => write!(text, "{separator}0x{number:x}"),
        Operand::Address(number, base) => write!(text, "{separator}{number}(x{base})"),
        Operand::Nothing => Ok(()),
    }
}
