//! The disassembly of an executable, as `objdump -d` lays it out.

use crate::code::Code;
use crate::coverage::Coverage;
use crate::pieces::Pieces;
use crate::sections::CodePart;
use rrs_elf::CodeUnit;
use rrs_lib::disassembly::{Disassembled, hexadecimal_digits};
use rrs_lib::instruction::{Instruction, decode};
use rrs_lib::instruction_formats::{BType, JType};
use rrs_words::{decode_layer, decode_short, expanded, layer_text, short_text};
use std::io::{self, Write};

/// The address that an instruction jumps to, if it is a branch or `jal`.
fn target_of(instruction: &Instruction, pc: u32) -> Option<u32> {
    let offset = match instruction {
        Instruction::Beq(BType { imm, .. })
        | Instruction::Bne(BType { imm, .. })
        | Instruction::Blt(BType { imm, .. })
        | Instruction::Bltu(BType { imm, .. })
        | Instruction::Bge(BType { imm, .. })
        | Instruction::Bgeu(BType { imm, .. })
        | Instruction::Jal(JType { imm, .. }) => *imm,
        _ => return None,
    };
    Some(pc.wrapping_add_signed(offset))
}

/// Writes where an address lies: in a function, or at a symbol.
fn write_place<W: Write>(out: &mut Pieces<'_, W>, code: &Code<'_>, address: u32) {
    if let Some(name) = code.name_at(address) {
        out.name(" <", name, ">");
    } else if let Some(function) = code.function_at(address) {
        out.name(" <", function.name, "+0x");
        out.hexadecimal("", 1, address.wrapping_sub(function.start));
        out.text(">");
    }
}

/// Writes the text of a word, and of a jump where it goes.
fn write_word<W: Write>(out: &mut Pieces<'_, W>, code: &Code<'_>, address: u32, word: u32) {
    let Some(instruction) = decode(word) else {
        match decode_layer(word) {
            Some(layer) => out.text(layer_text(&layer).as_str()),
            None => out.hexadecimal(".word 0x", 8, word),
        }
        return;
    };
    let text = Disassembled {
        instruction,
        pc: address,
    }
    .text();
    out.text(text.as_str());
    if let Some(target) = target_of(&instruction, address) {
        write_place(out, code, target);
    }
}

/// Writes the text of a half-word, and of a jump where it goes.
fn write_half<W: Write>(out: &mut Pieces<'_, W>, code: &Code<'_>, address: u32, half: u16) {
    let Some(short) = decode_short(half) else {
        out.hexadecimal(".half 0x", 4, u32::from(half));
        return;
    };
    out.text(short_text(&short, address).as_str());
    if let Some(target) = target_of(&expanded(&short), address) {
        write_place(out, code, target);
    }
}

/// Writes the line of a symbol, if one names the address.
fn write_name<W: Write>(out: &mut Pieces<'_, W>, code: &Code<'_>, address: u32) {
    if let Some(name) = code.name_at(address) {
        out.hexadecimal("\n", 8, address);
        out.name(" <", name, ">:\n");
    }
}

/// Writes the lines of a part: a line for each symbol, and one for each instruction, with how often
/// it was executed in front, if that is asked for.
fn write_part<W: Write>(
    out: &mut Pieces<'_, W>,
    code: &Code<'_>,
    part: &CodePart<'_>,
    counts: Option<&Coverage>,
) {
    let mut is_second_half = false;
    for index in 0..part.units() {
        if is_second_half {
            is_second_half = false;
            continue;
        }
        let address = part.address_of(index);
        write_name(out, code, address);
        if let Some(coverage) = counts {
            out.column(12, coverage.count(address), "  ");
        }
        out.right(8, hexadecimal_digits(1, address).as_str());
        if let Some(word) = part.instruction_word(index) {
            is_second_half = part.unit == CodeUnit::HalfWord;
            out.hexadecimal(":\t", 8, word);
            out.text("          \t");
            write_word(out, code, address, word);
        } else {
            let half = part.half(index).unwrap_or(0);
            out.hexadecimal(":\t", 4, u32::from(half));
            out.text("                \t");
            write_half(out, code, address, half);
        }
        out.text("\n");
    }
}

/// Writes the line in front of a part, and an empty one where no symbol names its first address.
fn write_title<W: Write>(out: &mut Pieces<'_, W>, code: &Code<'_>, part: &CodePart<'_>) {
    let end = match code.name_at(part.address) {
        Some(_) => ":\n",
        None => ":\n\n",
    };
    if part.name.is_empty() {
        out.hexadecimal("\nDisassembly of the segment at 0x", 8, part.address);
        out.text(end);
    } else {
        out.name("\nDisassembly of section ", part.name, end);
    }
}

/// Writes the disassembly of an executable, as `objdump -d` lays it out: of each part of the file
/// that has code the symbols, the addresses, the words and the texts. Of compressed code a
/// half-word whose low bits are not 11 is an instruction, which has 4 digits.
///
/// The text of each instruction is proved (`Disassembled`, `short_text`). That the lines are those
/// of the file's code is tested alone: `tests/test_reports.py` compares them with those of
/// `objdump -d`.
///
/// # Errors
///
/// A write that fails.
pub fn write_disassembly<W: Write>(out: &mut W, path: &str, code: &Code<'_>) -> io::Result<()> {
    write_lines(out, path, code, None)
}

/// Writes the disassembly of an executable as `write_disassembly` does, and before each instruction
/// how often it was executed. This is tested alone too.
///
/// # Errors
///
/// A write that fails.
pub fn write_annotated<W: Write>(
    out: &mut W,
    path: &str,
    code: &Code<'_>,
    coverage: &Coverage,
) -> io::Result<()> {
    write_lines(out, path, code, Some(coverage))
}

/// Writes the disassembly of an executable, with counts if they are asked for.
fn write_lines<W: Write>(
    out: &mut W,
    path: &str,
    code: &Code<'_>,
    counts: Option<&Coverage>,
) -> io::Result<()> {
    let mut out = Pieces::new(out);
    out.name(
        "\n",
        path.as_bytes(),
        ":     file format elf32-littleriscv\n\n",
    );
    for part in &code.parts {
        write_title(&mut out, code, part);
        write_part(&mut out, code, part, counts);
    }
    out.finish()
}
