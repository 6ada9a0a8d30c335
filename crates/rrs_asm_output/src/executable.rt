//! The executable of a program.

ghost use Rattle.std.specs.Prelude.{◌≡◌, ◌%◌, true, IfOk, OnOk, Some};
ghost use Rattle.rrs_elf.specs.declared.code_units.CodeUnit.{CodeUnit};
ghost use Rattle.rrs_elf.specs.Headers.{e_flags};
ghost use Rattle.rrs_asm_output.specs.Executables.{entry_of, IsExecutableOf};

use crate::accepting::are_segments;
use crate::entries::entry_of;
use crate::files::write_file;
use crate::units::unit_of;
use rrs_asm::{Program, Section, SectionKind};
use rrs_elf::{Addresses, CodeUnit, ElfError, Executable, has_compressed_code};
use std::alloc::{AllocError, AllocFailed, Global};
use std::error::Error;
use std::fmt;

/// Why a program has no executable.
#[derive(Debug, Clone, Copy)]
pub enum ExecutableError {
    /// No section has bytes.
    Empty,
    /// The entry is in no section with instructions, or at no multiple of 4, or, where compressed
    /// instructions can stand, odd.
    Entry(u32),
    /// What was written is no executable of the program. This does not happen.
    Unlike,
    /// Out of memory.
    OutOfMemory,
}

impl fmt::Display for ExecutableError {
    fn fmt<W: fmt::Write>(&self, f: &mut fmt::Formatter<W>) -> fmt::Result {
        let text = match self {
            ExecutableError::Empty => "the program is empty",
            ExecutableError::Entry(address) => {
                return write!(f, "no instruction can begin at the entry 0x{address:08x}");
            }
            ExecutableError::Unlike => "no executable of the program",
            ExecutableError::OutOfMemory => "out of memory",
        };
        f.write_str(text)
    }
}

impl Error for ExecutableError {}

impl From<AllocError> for ExecutableError {
    fn from(_: AllocError) -> Self {
        ExecutableError::OutOfMemory
    }
}

impl<T: Drop> From<AllocFailed<T>> for ExecutableError {
    fn from(_: AllocFailed<T>) -> Self {
        ExecutableError::OutOfMemory
    }
}

/// The executable of a program, an ELF file for RV32IM: each section that has bytes is a segment,
/// and each label is a symbol. It begins at `_start`, else at `main`, else at the first byte. Its
/// `e_flags` has `EF_RISCV_RVC` where a section takes compressed instructions.
///
/// # Errors
///
/// `ExecutableError::Empty` where no section has bytes, `ExecutableError::Entry` where no
/// instruction can stand at the entry, and out of memory.
pub fn executable_of(alloc: Global, program: &Program) -> Result<Vec<u8>, ExecutableError>
    ensures executable { IfOk result (λ file.
        IsExecutableOf program.now.sections.items file.items) }
{
    let Some(entry) = entry_of(&program.sections) else {
        return Err(ExecutableError::Empty);
    };
    if !is_in_code(&program.sections, entry) {
        return Err(ExecutableError::Entry(entry));
    }
    let file = write_file(alloc, &program.sections, entry)?;
    accept(&file, &program.sections, entry)?;
    Ok(file)
}

/// Whether an address is that of a byte in a section with instructions.
fn is_in_code(sections: &[Section], address: u32) -> bool {
    for section in sections {
        let is_code = matches!(section.kind, SectionKind::Code);
        match address.checked_sub(section.address) {
            Some(offset) if is_code && (offset as usize) < section.made.bytes.len() => return true,
            _ => (),
        }
    }
    false
}

/// Accepts a file that is the executable of these sections.
fn accept(file: &[u8], sections: &[Section], entry: u32) -> Result<(), ExecutableError>
    requires { entry_of sections.now ≡ Some entry }
    ensures { OnOk result (IsExecutableOf sections.now file.now) }
{
    let unit = unit_of(sections);
    let executable = match Executable::parse_in(file, Addresses::Virtual, unit) {
        Ok(executable) => executable,
        Err(error) => return Err(refusal_of(error)),
    };
    if !is_marked(file, unit) {
        return Err(ExecutableError::Unlike);
    }
    if executable.entry() == entry && are_segments(&executable, sections) {
        Ok(())
    } else {
        Err(ExecutableError::Unlike)
    }
}

/// Whether a file says that it has compressed code, where its instructions lie in half-words.
fn is_marked(file: &[u8], unit: CodeUnit) -> bool
    ensures { result ≡ true → unit ≡ CodeUnit.HalfWord → e_flags file.now % 2 ≡ 1 }
{
    match unit {
        CodeUnit::Word => true,
        CodeUnit::HalfWord => has_compressed_code(file),
    }
}

/// Why a program has no executable, where what was written of it is refused.
fn refusal_of(error: ElfError) -> ExecutableError {
    match error {
        ElfError::EntryMisaligned(entry) | ElfError::EntryOutside(entry) => {
            ExecutableError::Entry(entry)
        }
        _ => ExecutableError::Unlike,
    }
}
