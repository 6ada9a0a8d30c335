//! What is listed of an executable: its entry, its segments, and its symbols, as `readelf -lsW`
//! lists them.

use crate::disassembling::{flushed, unit_in};
use crate::files::{buffered, read_program};
use crate::refusal::{Refusal, no_executable};
use rrs_elf::{Addresses, Executable, ProgramHeader, Symbol, Symbols};
use rrs_lib::disassembly::hexadecimal_digits;
use rrs_reports::{Pieces, SHOWN_BYTES};
use std::io::{self, Write};
use std::rt::Files;

/// The types of segments that have names here, from 0 on.
static SEGMENT_TYPES: [&str; 8] = [
    "NULL", "LOAD", "DYNAMIC", "INTERP", "NOTE", "SHLIB", "PHDR", "TLS",
];

/// The types of symbols that have names here, from 0 on.
static SYMBOL_TYPES: [&str; 7] = [
    "NOTYPE", "OBJECT", "FUNC", "SECTION", "FILE", "COMMON", "TLS",
];

/// The bindings of symbols, from 0 on.
static BINDINGS: [&str; 3] = ["LOCAL", "GLOBAL", "WEAK"];

/// The visibilities of symbols, from 0 on.
static VISIBILITIES: [&str; 4] = ["DEFAULT", "INTERNAL", "HIDDEN", "PROTECTED"];

/// Writes the name of a number, or its digits, in a column of a width.
fn write_named<W: Write>(out: &mut Pieces<'_, W>, names: &[&str], width: usize, number: u32) {
    match names.get(number as usize) {
        Some(name) => out.left(width, name),
        None => {
            out.text("0x");
            out.left(
                width.saturating_sub(2),
                hexadecimal_digits(1, number).as_str(),
            );
        }
    }
    out.text(" ");
}

/// Writes the section of a symbol: its number, or a name.
fn write_section<W: Write>(out: &mut Pieces<'_, W>, section: u16) {
    match section {
        0 => out.text(" UND "),
        0xfff1 => out.text(" ABS "),
        0xfff2 => out.text(" COM "),
        _ => out.column(4, u64::from(section), " "),
    }
}

/// Writes the line of a segment.
fn write_segment<W: Write>(out: &mut Pieces<'_, W>, header: ProgramHeader) {
    out.text("  ");
    write_named(out, &SEGMENT_TYPES, 14, header.kind);
    out.hexadecimal("0x", 6, header.offset);
    out.hexadecimal(" 0x", 8, header.address);
    out.hexadecimal(" 0x", 8, header.physical_address);
    out.hexadecimal(" 0x", 5, header.file_size);
    out.hexadecimal(" 0x", 5, header.memory_size);
    out.text(if header.is_readable() { " R" } else { "  " });
    out.text(if header.is_writable() { "W" } else { " " });
    out.text(if header.is_executable() { "E" } else { " " });
    out.hexadecimal(" 0x", 1, header.alignment);
    out.text("\n");
}

/// Writes the entry and the segments.
fn write_segments<W: Write>(out: &mut Pieces<'_, W>, program: &Executable<'_>) {
    let count = program.program_header_count();
    let offset = program.program_header_offset();
    out.hexadecimal("Entry point 0x", 1, program.entry());
    out.number("\nThere are ", u64::from(count));
    out.number(" program headers, starting at offset ", u64::from(offset));
    out.text("\n\n  Type           Offset   VirtAddr   PhysAddr   FileSiz MemSiz  Flg Align\n");
    for index in 0..count {
        if let Some(header) = program.program_header(index) {
            write_segment(out, header);
        }
    }
}

/// Writes the line of a symbol, with its name as it is shown.
fn write_symbol<W: Write>(out: &mut Pieces<'_, W>, index: u32, symbol: Symbol, name: &[u8]) {
    out.column(6, u64::from(index), ": ");
    out.hexadecimal("", 8, symbol.value);
    out.text(" ");
    out.column(5, u64::from(symbol.size), " ");
    write_named(out, &SYMBOL_TYPES, 7, u32::from(symbol.kind()));
    write_named(out, &BINDINGS, 6, u32::from(symbol.binding()));
    write_named(out, &VISIBILITIES, 8, u32::from(symbol.other % 4));
    write_section(out, symbol.section);
    out.name("", name, "\n");
}

/// Writes the symbols.
fn write_symbols<W: Write>(out: &mut Pieces<'_, W>, symbols: &Symbols<'_>) {
    let count = symbols.count();
    out.number("\nSymbol table contains ", u64::from(count));
    out.text(" entries:\n   Num:    Value  Size Type    Bind   Vis      Ndx  Name\n");
    for index in 0..count {
        if let (Some(symbol), Some(name)) = (
            symbols.symbol(index),
            symbols.name_up_to(index, SHOWN_BYTES + 1),
        ) {
            write_symbol(out, index, symbol, name);
        }
    }
}

/// Writes what is listed of an executable.
fn write_listing<W: Write>(
    out: &mut W,
    program: &Executable<'_>,
    symbols: Option<Symbols<'_>>,
) -> io::Result<()> {
    let mut out = Pieces::new(out);
    write_segments(&mut out, program);
    if let Some(symbols) = &symbols {
        write_symbols(&mut out, symbols);
    }
    out.finish()
}

/// Lists an executable, also one with compressed code.
///
/// # Errors
///
/// Those of `read_program`; `Refusal::File` where the file is no executable, or has a symbol table
/// that can't be read, and nothing is written then; `Refusal::Output` where a write fails.
pub fn list_file<'a, H: Files + AllocGlobal, O: Write>(
    rt: &H,
    path: &'a str,
    out: &mut O,
) -> Result<(), Refusal<'a>> {
    let file = read_program(rt, path)?;
    let program = match Executable::parse_in(&file, Addresses::Virtual, unit_in(&file)) {
        Ok(program) => program,
        Err(error) => return Err(no_executable(path, &file, error)),
    };
    let symbols = match program.symbols() {
        Ok(symbols) => symbols,
        Err(error) => return Err(no_executable(path, &file, error)),
    };
    let mut out = buffered(rt.alloc(), out)?;
    let written = write_listing(&mut out, &program, symbols);
    flushed(written, &mut out)
}
