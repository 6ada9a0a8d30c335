//! Why a file is refused.

ghost use Rattle.std.specs.Prelude.{◌<◌};

use std::error::Error;
use std::fmt;

/// Why a file is no executable for this machine, or why its symbol table can't be read: the first
/// refusal, in the order of this list. Those of segments come in the order of the segments, each
/// with all of its own.
#[derive(PartialEq, Clone, Copy)]
pub enum ElfError {
    /// The file does not begin with the four bytes of an ELF file.
    NotElf,
    /// The file ends within the ELF header of 52 bytes.
    HeaderCutShort,
    /// `e_ident[EI_CLASS]` is this, and not 1, `ELFCLASS32`. A file of 64 bits has 2.
    Class(u8),
    /// `e_ident[EI_DATA]` is this, and not 1, `ELFDATA2LSB`. A file with the highest byte first
    /// has 2.
    ByteOrder(u8),
    /// `e_ident[EI_VERSION]` is this, and not 1.
    IdentVersion(u8),
    /// `e_type` is 3, `ET_DYN`: a shared object or a position-independent executable.
    PositionIndependent,
    /// `e_type` is this, and not 2, `ET_EXEC`.
    NotExecutable(u16),
    /// `e_machine` is this, and not 243, `EM_RISCV`.
    Machine(u16),
    /// `e_version` is this, and not 1.
    Version(u32),
    /// `e_flags` has `EF_RISCV_RVC`: the file has compressed code, and the machine's instructions
    /// are words.
    CompressedCode,
    /// `e_flags` has a floating-point ABI.
    FloatingPoint,
    /// `e_flags` has `EF_RISCV_RVE`: the file is for 16 registers.
    Embedded,
    /// `e_phentsize` is this, and not 32.
    ProgramHeaderSize(u16),
    /// `e_phnum` is above 256: so many program headers no linker makes.
    TooManyProgramHeaders,
    /// The file ends within the program headers, by `e_phoff` and `e_phnum`.
    ProgramHeadersCutShort,
    /// The segment of this number is `PT_INTERP`: the program wants a dynamic linker.
    Interpreter(u16),
    /// The bytes of the loaded segment of this number, by `p_offset` and `p_filesz`, end past the
    /// file.
    SegmentCutShort(u16),
    /// The `p_filesz` of the loaded segment of this number is greater than its `p_memsz`.
    SegmentSizes(u16),
    /// The loaded segment of this number, by `p_memsz` and the address that it is loaded at, ends
    /// past the last address.
    SegmentPastLastAddress(u16),
    /// The loaded segments of these numbers, the smaller first, have an address in common where
    /// they are loaded.
    SegmentsOverlap(u16, u16),
    /// `e_entry` is this, and no multiple of 4, or, on a machine that has compressed code, odd.
    EntryMisaligned(u32),
    /// `e_entry` is this, and no loaded segment has the virtual address.
    EntryOutside(u32),
    /// `e_shentsize` is this, and not 40. This and what follows are refusals of the symbol table,
    /// by [crate::Executable::symbols].
    SectionHeaderSize(u16),
    /// The file ends within the section headers, by `e_shoff` and `e_shnum`.
    SectionHeadersCutShort,
    /// The `sh_entsize` of the symbol table is this, and not 16.
    SymbolSize(u32),
    /// The file ends within the symbol table.
    SymbolTableCutShort,
    /// The `sh_link` of the symbol table is this, and no section of type `SHT_STRTAB`.
    NoStringTable(u32),
    /// The file ends within the string table of the symbol table.
    StringTableCutShort,
    /// The last byte of that string table is not 0: its last name does not end.
    StringTableNotEnded,
    /// The `st_name` of the symbol of this number lies outside the string table.
    NameOutside(u32),
}

/// The name of each refusal, in the order of [ElfError], with its text: what comes before its
/// numbers, and what comes behind them.
static TEXTS: [(&str, &str, &str); 30] = [
    ("NotElf", "not an ELF file", ""),
    ("HeaderCutShort", "the file ends within the ELF header", ""),
    ("Class", "e_ident[EI_CLASS] is ", ", not 1 (32 bits)"),
    (
        "ByteOrder",
        "e_ident[EI_DATA] is ",
        ", not 1 (lowest byte first)",
    ),
    ("IdentVersion", "e_ident[EI_VERSION] is ", ", not 1"),
    (
        "PositionIndependent",
        "e_type is 3: a shared object or a position-independent executable",
        "",
    ),
    ("NotExecutable", "e_type is ", ", not 2 (an executable)"),
    ("Machine", "e_machine is ", ", not 243 (RISC-V)"),
    ("Version", "e_version is ", ", not 1"),
    ("CompressedCode", "e_flags: compressed code", ""),
    ("FloatingPoint", "e_flags: a floating-point ABI", ""),
    ("Embedded", "e_flags: RVE, 16 registers", ""),
    ("ProgramHeaderSize", "e_phentsize is ", ", not 32"),
    (
        "TooManyProgramHeaders",
        "e_phnum is above 256: too many program headers",
        "",
    ),
    (
        "ProgramHeadersCutShort",
        "e_phoff, e_phnum: the file ends within the program headers",
        "",
    ),
    ("Interpreter", "segment ", ": it names a dynamic linker"),
    ("SegmentCutShort", "segment ", ": the file ends within it"),
    ("SegmentSizes", "segment ", ": p_filesz is above p_memsz"),
    (
        "SegmentPastLastAddress",
        "segment ",
        ": it ends past the last address",
    ),
    ("SegmentsOverlap", "segments ", ": they overlap"),
    ("EntryMisaligned", "e_entry is ", ", no multiple of 4"),
    ("EntryOutside", "e_entry is ", ", in no loaded segment"),
    ("SectionHeaderSize", "e_shentsize is ", ", not 40"),
    (
        "SectionHeadersCutShort",
        "e_shoff, e_shnum: the file ends within the section headers",
        "",
    ),
    (
        "SymbolSize",
        "sh_entsize of the symbol table is ",
        ", not 16",
    ),
    (
        "SymbolTableCutShort",
        "the file ends within the symbol table",
        "",
    ),
    (
        "NoStringTable",
        "sh_link of the symbol table is ",
        ", no string table",
    ),
    (
        "StringTableCutShort",
        "the file ends within the string table",
        "",
    ),
    (
        "StringTableNotEnded",
        "the last byte of the string table is not 0",
        "",
    ),
    ("NameOutside", "symbol ", ": its name is in no string"),
];

/// The numbers of a refusal.
enum Numbers {
    /// It has none.
    Nothing,
    /// A number.
    One(u32),
    /// An address.
    Address(u32),
    /// The numbers of two segments.
    Two(u16, u16),
}

impl ElfError {
    /// Which of [TEXTS] is the refusal's.
    fn number(&self) -> usize
        ensures { result < 30 }
    {
        match self {
            ElfError::NotElf => 0,
            ElfError::HeaderCutShort => 1,
            ElfError::Class(_) => 2,
            ElfError::ByteOrder(_) => 3,
            ElfError::IdentVersion(_) => 4,
            ElfError::PositionIndependent => 5,
            ElfError::NotExecutable(_) => 6,
            ElfError::Machine(_) => 7,
            ElfError::Version(_) => 8,
            ElfError::CompressedCode => 9,
            ElfError::FloatingPoint => 10,
            ElfError::Embedded => 11,
            ElfError::ProgramHeaderSize(_) => 12,
            ElfError::TooManyProgramHeaders => 13,
            ElfError::ProgramHeadersCutShort => 14,
            ElfError::Interpreter(_) => 15,
            ElfError::SegmentCutShort(_) => 16,
            ElfError::SegmentSizes(_) => 17,
            ElfError::SegmentPastLastAddress(_) => 18,
            ElfError::SegmentsOverlap(_, _) => 19,
            ElfError::EntryMisaligned(_) => 20,
            ElfError::EntryOutside(_) => 21,
            ElfError::SectionHeaderSize(_) => 22,
            ElfError::SectionHeadersCutShort => 23,
            ElfError::SymbolSize(_) => 24,
            ElfError::SymbolTableCutShort => 25,
            ElfError::NoStringTable(_) => 26,
            ElfError::StringTableCutShort => 27,
            ElfError::StringTableNotEnded => 28,
            ElfError::NameOutside(_) => 29,
        }
    }

    /// The numbers of the refusal.
    fn numbers(&self) -> Numbers {
        match *self {
            ElfError::Class(number)
            | ElfError::ByteOrder(number)
            | ElfError::IdentVersion(number) => Numbers::One(u32::from(number)),
            ElfError::NotExecutable(number)
            | ElfError::Machine(number)
            | ElfError::ProgramHeaderSize(number)
            | ElfError::Interpreter(number)
            | ElfError::SegmentCutShort(number)
            | ElfError::SegmentSizes(number)
            | ElfError::SegmentPastLastAddress(number)
            | ElfError::SectionHeaderSize(number) => Numbers::One(u32::from(number)),
            ElfError::Version(number)
            | ElfError::SymbolSize(number)
            | ElfError::NoStringTable(number)
            | ElfError::NameOutside(number) => Numbers::One(number),
            ElfError::EntryMisaligned(entry) | ElfError::EntryOutside(entry) => Numbers::Address(
                entry,
            ),
            ElfError::SegmentsOverlap(one, other) => Numbers::Two(one, other),
            _ => Numbers::Nothing,
        }
    }

    /// Writes the numbers of the refusal.
    fn write_numbers<W: fmt::Write>(&self, f: &mut fmt::Formatter<W>) -> fmt::Result {
        match self.numbers() {
            Numbers::Nothing => Ok(()),
            Numbers::One(number) => write!(f, "{number}"),
            Numbers::Address(address) => write!(f, "0x{address:08x}"),
            Numbers::Two(one, other) => write!(f, "{one} and {other}"),
        }
    }
}

impl fmt::Display for ElfError {
    fn fmt<W: fmt::Write>(&self, f: &mut fmt::Formatter<W>) -> fmt::Result {
        let (_, before, behind) = TEXTS[self.number()];
        f.write_str(before)?;
        self.write_numbers(f)?;
        match *self {
            ElfError::EntryMisaligned(entry) if entry % 2 != 0 => f.write_str(", odd"),
            _ => f.write_str(behind),
        }
    }
}

/// The text for programmers, `{:?}`, as a derive would write it.
impl fmt::Debug for ElfError {
    fn fmt<W: fmt::Write>(&self, f: &mut fmt::Formatter<W>) -> fmt::Result {
        let name = TEXTS[self.number()].0;
        match self.numbers() {
            Numbers::Nothing => f.write_str(name),
            Numbers::One(number) | Numbers::Address(number) => {
                f.debug_tuple(name).field(&number).finish()
            }
            Numbers::Two(one, other) => f.debug_tuple(name).field(&one).field(&other).finish(),
        }
    }
}

impl Error for ElfError {}
