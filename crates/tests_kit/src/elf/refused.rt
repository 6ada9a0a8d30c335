//! A file for each refusal, and what it says.

use crate::elf::file::{changed, symbols_of};
use rrs_elf::ElfError;
use std::alloc::{AllocError, Global};
use std::test::Fail;

/// A change of the file: its length, and where how many bytes are replaced by which value.
type Change = (usize, usize, usize, u32);

/// Changes, each with the refusal and its text.
static REFUSED: [(Change, ElfError, &str); 34] = [
    ((428, 0, 1, 0x7e), ElfError::NotElf, "not an ELF file"),
    ((3, 0, 0, 0), ElfError::NotElf, "not an ELF file"),
    (
        (51, 0, 0, 0),
        ElfError::HeaderCutShort,
        "the file ends within the ELF header",
    ),
    (
        (428, 4, 1, 2),
        ElfError::Class(2),
        "e_ident[EI_CLASS] is 2, not 1 (32 bits)",
    ),
    (
        (428, 5, 1, 2),
        ElfError::ByteOrder(2),
        "e_ident[EI_DATA] is 2, not 1 (lowest byte first)",
    ),
    (
        (428, 6, 1, 0),
        ElfError::IdentVersion(0),
        "e_ident[EI_VERSION] is 0, not 1",
    ),
    (
        (428, 16, 2, 3),
        ElfError::PositionIndependent,
        "e_type is 3: a shared object or a position-independent executable",
    ),
    (
        (428, 16, 2, 1),
        ElfError::NotExecutable(1),
        "e_type is 1, not 2 (an executable)",
    ),
    (
        (428, 18, 2, 62),
        ElfError::Machine(62),
        "e_machine is 62, not 243 (RISC-V)",
    ),
    (
        (428, 20, 4, 0x101),
        ElfError::Version(257),
        "e_version is 257, not 1",
    ),
    (
        (428, 36, 4, 1),
        ElfError::CompressedCode,
        "e_flags: compressed code",
    ),
    (
        (428, 36, 4, 4),
        ElfError::FloatingPoint,
        "e_flags: a floating-point ABI",
    ),
    (
        (428, 36, 4, 8),
        ElfError::Embedded,
        "e_flags: RVE, 16 registers",
    ),
    (
        (428, 42, 2, 56),
        ElfError::ProgramHeaderSize(56),
        "e_phentsize is 56, not 32",
    ),
    (
        (428, 44, 2, 257),
        ElfError::TooManyProgramHeaders,
        "e_phnum is above 256: too many program headers",
    ),
    (
        (428, 44, 2, 256),
        ElfError::ProgramHeadersCutShort,
        "e_phoff, e_phnum: the file ends within the program headers",
    ),
    (
        (147, 0, 0, 0),
        ElfError::ProgramHeadersCutShort,
        "e_phoff, e_phnum: the file ends within the program headers",
    ),
    (
        (428, 84, 4, 3),
        ElfError::Interpreter(1),
        "segment 1: it names a dynamic linker",
    ),
    (
        (166, 0, 0, 0),
        ElfError::SegmentCutShort(2),
        "segment 2: the file ends within it",
    ),
    (
        (428, 132, 4, 13),
        ElfError::SegmentSizes(2),
        "segment 2: p_filesz is above p_memsz",
    ),
    (
        (428, 124, 4, 0xffff_fff5),
        ElfError::SegmentPastLastAddress(2),
        "segment 2: it ends past the last address",
    ),
    (
        (428, 124, 4, 0x1000f),
        ElfError::SegmentsOverlap(0, 2),
        "segments 0 and 2: they overlap",
    ),
    (
        (428, 24, 4, 0x10002),
        ElfError::EntryMisaligned(0x10002),
        "e_entry is 0x00010002, no multiple of 4",
    ),
    (
        (428, 24, 4, 0x10001),
        ElfError::EntryMisaligned(0x10001),
        "e_entry is 0x00010001, odd",
    ),
    (
        (428, 24, 4, 0x10010),
        ElfError::EntryOutside(0x10010),
        "e_entry is 0x00010010, in no loaded segment",
    ),
    (
        (428, 46, 2, 64),
        ElfError::SectionHeaderSize(64),
        "e_shentsize is 64, not 40",
    ),
    (
        (427, 0, 0, 0),
        ElfError::SectionHeadersCutShort,
        "e_shoff, e_shnum: the file ends within the section headers",
    ),
    (
        (428, 384, 4, 24),
        ElfError::SymbolSize(24),
        "sh_entsize of the symbol table is 24, not 16",
    ),
    (
        (428, 368, 4, 261),
        ElfError::SymbolTableCutShort,
        "the file ends within the symbol table",
    ),
    (
        (428, 372, 4, 4),
        ElfError::NoStringTable(4),
        "sh_link of the symbol table is 4, no string table",
    ),
    (
        (428, 372, 4, 1),
        ElfError::NoStringTable(1),
        "sh_link of the symbol table is 1, no string table",
    ),
    (
        (428, 408, 4, 181),
        ElfError::StringTableCutShort,
        "the file ends within the string table",
    ),
    (
        (428, 408, 4, 19),
        ElfError::StringTableNotEnded,
        "the last byte of the string table is not 0",
    ),
    (
        (428, 216, 4, 20),
        ElfError::NameOutside(3),
        "symbol 3: its name is in no string",
    ),
];

/// Why a file or its symbol table is refused, if it is.
fn refusal_at(file: &[u8]) -> Option<ElfError> {
    match symbols_of(file) {
        Ok(_symbols) => None,
        Err(error) => Some(error),
    }
}

/// Whether a changed file is refused so, by this text.
fn is_refused(
    alloc: Global,
    change: &Change,
    wanted: ElfError,
    wanted_text: &str,
) -> Result<bool, AllocError> {
    let file = changed(alloc, change.0, change.1, change.2, change.3)?;
    let refusal = refusal_at(&file);
    let text = format!(in alloc; "{wanted}")?;
    Ok(refusal == Some(wanted) && text.as_str() == wanted_text)
}

#[test]
fn each_refusal_has_a_file(rt: HostRuntime) -> Result<(), Fail> {
    for (change, wanted, wanted_text) in REFUSED.iter() {
        let is_refused = is_refused(rt.alloc(), change, *wanted, wanted_text)?;
        assert!(rt; is_refused, "{wanted_text}");
    }
    Ok(())
}
