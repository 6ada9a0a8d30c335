//! `rrs dis`: the disassembly of an executable.

use crate::files::{buffered, read_program, unwritten};
use crate::refusal::{Refusal, no_executable, out_of_memory};
use rrs_elf::{Addresses, CodeUnit, Executable, has_compressed_code};
use rrs_reports::{Code, write_disassembly};
use std::alloc::{AllocError, Global};
use std::io::{self, Write};
use std::rt::Files;

/// The code of an executable whose segments are loaded at these of their addresses, and whose
/// instructions lie in such units.
///
/// # Errors
///
/// `Refusal::File` where the file is no executable, or has a symbol table that can't be read, and
/// out of memory.
pub(crate) fn code_of<'a, 'f>(
    alloc: Global,
    path: &'a str,
    file: &'f [u8],
    addresses: Addresses,
    unit: CodeUnit,
) -> Result<Code<'f>, Refusal<'a>> {
    let program = match Executable::parse_in(file, addresses, unit) {
        Ok(program) => program,
        Err(error) => return Err(no_executable(path, file, error)),
    };
    let symbols = match program.symbols() {
        Ok(symbols) => symbols,
        Err(error) => return Err(no_executable(path, file, error)),
    };
    match Code::new(alloc, file, &program, symbols, unit) {
        Ok(code) => Ok(code),
        Err(AllocError) => Err(out_of_memory()),
    }
}

/// Flushes a writer after what was written, if no write failed.
pub(crate) fn flushed<'a, W: Write>(
    written: io::Result<()>,
    out: &mut W,
) -> Result<(), Refusal<'a>> {
    match written {
        Ok(()) => match out.flush() {
            Ok(()) => Ok(()),
            Err(error) => Err(unwritten(error)),
        },
        Err(error) => Err(unwritten(error)),
    }
}

/// What the instructions of an executable lie in, by its flags.
pub(crate) fn unit_in(file: &[u8]) -> CodeUnit {
    if has_compressed_code(file) {
        CodeUnit::HalfWord
    } else {
        CodeUnit::Word
    }
}

/// Writes the disassembly of an executable, also of one with compressed code.
///
/// # Errors
///
/// Those of `read_program` and of `code_of`, and `Refusal::Output` where a write fails.
pub fn disassemble_file<'a, H: Files + AllocGlobal, O: Write>(
    rt: &H,
    path: &'a str,
    out: &mut O,
) -> Result<(), Refusal<'a>> {
    let file = read_program(rt, path)?;
    let unit = unit_in(&file);
    let code = code_of(rt.alloc(), path, &file, Addresses::Virtual, unit)?;
    let mut out = buffered(rt.alloc(), out)?;
    let written = write_disassembly(&mut out, path, &code);
    flushed(written, &mut out)
}
