//! An executable in the ELF format, as C has it: bytes of the caller's, which each function reads
//! anew.

ghost use Rattle.std.specs.Prelude.{◌≡◌, ◌↔◌, ◌≤◌, Err, OnOk, IfErr, MatchOption};
ghost use Rattle.rrs_lib.specs.SliceBytes.{StaysLent, slice_bytes, slice_writable};
ghost use Rattle.rrs_elf.specs.Headers.{e_entry, e_phnum};
ghost use Rattle.rrs_elf.specs.Executables.{IsExecutableIn};
ghost use Rattle.rrs_elf.specs.Loading.{Stands};
ghost use Rattle.rrs_elf.specs.Refusals.{first_refusal, checks_in};
ghost use Rattle.rrs_elf.specs.declared.errors.ElfError.{ElfError};
ghost use Rattle.rrs_c.specs.Boards.{with_pc};
ghost use Rattle.rrs_c.specs.Elf.{unit_for, accepted_elf, told, refused_elf, SegmentIn, LoadsElf, StopsIn, FindsNone, Locates, FindsFunction, location_of, no_segment};

use crate::board::RrsBoard;
use crate::text::put_text;
use rrs_elf::{Addresses, CodeUnit, ElfError, Executable, Location, Refused};
use rrs_lib::memories::SliceMemory;
use rrs_words::HartProfile;

/// What a file is: an executable, or why it is refused.
#[repr(C)]
#[derive(Clone, Copy)]
pub struct RrsElf {
    /// 0 for an executable, or the number of the refusal.
    pub refusal: u32,
    /// The number that the refusal tells, or 0.
    pub number: u32,
    /// The other number that the refusal tells, or 0.
    pub other: u32,
    /// The address of the first instruction, or 0.
    pub entry: u32,
    /// How many segments there are, or 0.
    pub segments: u32,
}

/// A segment that is loaded, or none: then all fields are 0.
#[repr(C)]
#[derive(Clone, Copy)]
pub struct RrsSegment {
    /// 1 for a segment that is loaded.
    pub loaded: u32,
    /// The address of its first byte.
    pub address: u32,
    /// How many bytes it has in memory.
    pub memory_size: u32,
    /// Where its bytes begin in the file.
    pub offset: u32,
    /// How many bytes it has in the file.
    pub file_size: u32,
    /// What may be done there: 4 to read, 2 to write, 1 to execute.
    pub flags: u32,
}

/// How a load ended.
#[repr(C)]
#[derive(Clone, Copy)]
pub struct RrsLoaded {
    /// 0 where all was loaded, or the number of the refusal.
    pub refusal: u32,
    /// The address that is not in the words, where that is the refusal, and else 0.
    pub address: u32,
}

/// Where an address lies.
#[repr(C)]
#[derive(Clone, Copy)]
pub struct RrsLocation {
    /// 0 in nothing, 1 in a function, 2 after a function or a label.
    pub found: u32,
    /// How far it is after the first byte of that.
    pub distance: u32,
    /// How many bytes the name of that has.
    pub length: usize,
}

/// The refusal where an address is not in the words.
const NOT_IN_WORDS: u32 = 31;

/// The number of a refusal, and the numbers that it tells.
fn numbers_of(error: ElfError) -> (u32, u32, u32)
    ensures same { told result.0 result.1 result.2 ≡ refused_elf error }
    ensures some { 1 ≤ result.0 }
{
    match error {
        ElfError::NotElf => (1, 0, 0),
        ElfError::HeaderCutShort => (2, 0, 0),
        ElfError::Class(class) => (3, u32::from(class), 0),
        ElfError::ByteOrder(order) => (4, u32::from(order), 0),
        ElfError::IdentVersion(version) => (5, u32::from(version), 0),
        ElfError::PositionIndependent => (6, 0, 0),
        ElfError::NotExecutable(kind) => (7, u32::from(kind), 0),
        ElfError::Machine(machine) => (8, u32::from(machine), 0),
        ElfError::Version(version) => (9, version, 0),
        ElfError::CompressedCode => (10, 0, 0),
        ElfError::FloatingPoint => (11, 0, 0),
        ElfError::Embedded => (12, 0, 0),
        ElfError::ProgramHeaderSize(size) => (13, u32::from(size), 0),
        ElfError::TooManyProgramHeaders => (14, 0, 0),
        ElfError::ProgramHeadersCutShort => (15, 0, 0),
        ElfError::Interpreter(index) => (16, u32::from(index), 0),
        ElfError::SegmentCutShort(index) => (17, u32::from(index), 0),
        ElfError::SegmentSizes(index) => (18, u32::from(index), 0),
        ElfError::SegmentPastLastAddress(index) => (19, u32::from(index), 0),
        ElfError::SegmentsOverlap(one, other) => (20, u32::from(one), u32::from(other)),
        ElfError::EntryMisaligned(entry) => (21, entry, 0),
        ElfError::EntryOutside(entry) => (22, entry, 0),
        ElfError::SectionHeaderSize(size) => (23, u32::from(size), 0),
        ElfError::SectionHeadersCutShort => (24, 0, 0),
        ElfError::SymbolSize(size) => (25, size, 0),
        ElfError::SymbolTableCutShort => (26, 0, 0),
        ElfError::NoStringTable(link) => (27, link, 0),
        ElfError::StringTableCutShort => (28, 0, 0),
        ElfError::StringTableNotEnded => (29, 0, 0),
        ElfError::NameOutside(index) => (30, index, 0),
    }
}

/// What C is told of a refusal.
fn refusal_of(error: ElfError) -> RrsElf
    ensures same { result ≡ refused_elf error }
    ensures some { 1 ≤ result.refusal }
{
    let (refusal, number, other) = numbers_of(error);
    RrsElf {
        refusal,
        number,
        other,
        entry: 0,
        segments: 0,
    }
}

/// What the instructions of a hart with these layers lie in.
pub(crate) fn unit_of(layers: HartProfile) -> CodeUnit
    ensures { result ≡ unit_for layers }
{
    if layers.compressed {
        CodeUnit::HalfWord
    } else {
        CodeUnit::Word
    }
}

/// What a file is for a machine whose instructions lie in such units.
pub(crate) fn elf_of(file: &[u8], unit: CodeUnit) -> RrsElf
    ensures executable { (result.refusal ≡ 0)
        ↔ IsExecutableIn unit Addresses.Virtual file.now }
    ensures accepted { IsExecutableIn unit Addresses.Virtual file.now
        → result ≡ accepted_elf file.now }
    ensures refused { (error : ElfError)
        → first_refusal (checks_in unit Addresses.Virtual file.now) ≡ Err error
        → result ≡ refused_elf error }
{
    match Executable::parse_in(file, Addresses::Virtual, unit) {
        Ok(program) => RrsElf {
            refusal: 0,
            number: 0,
            other: 0,
            entry: program.entry(),
            segments: u32::from(program.program_header_count()),
        },
        Err(error) => refusal_of(error),
    }
}

/// No segment.
fn nothing() -> RrsSegment
    ensures { result ≡ no_segment }
{
    RrsSegment {
        loaded: 0,
        address: 0,
        memory_size: 0,
        offset: 0,
        file_size: 0,
        flags: 0,
    }
}

/// The segment of a file that has this number, if it is loaded.
pub(crate) fn segment_of(file: &[u8], index: u32) -> RrsSegment
    ensures { SegmentIn file.now index result }
{
    let Ok(program) = Executable::parse_in(file, Addresses::Virtual, CodeUnit::HalfWord) else {
        return nothing();
    };
    if index >= u32::from(program.program_header_count()) {
        return nothing();
    }
    match program.segment(index as u16) {
        Some(segment) => RrsSegment {
            loaded: 1,
            address: segment.address,
            memory_size: segment.memory_size,
            offset: segment.offset,
            file_size: segment.file_size,
            flags: segment.flags,
        },
        None => nothing(),
    }
}

/// Loads an executable for a machine whose instructions lie in such units into words, its segments
/// at these of their addresses.
pub(crate) fn load_into(
    file: &[u8],
    unit: CodeUnit,
    addresses: Addresses,
    words: &mut [u32],
    base: u32,
) -> RrsLoaded
    ensures { LoadsElf unit addresses file.now words.old words.new base result }
{
    let program = match Executable::parse_in(file, addresses, unit) {
        Ok(program) => program,
        Err(error) => {
            return RrsLoaded {
                refusal: refusal_of(error).refusal,
                address: 0,
            };
        }
    };
    let mut memory = SliceMemory { words, base };
    match load_lent(&program, &mut memory) {
        Ok(()) => RrsLoaded {
            refusal: 0,
            address: 0,
        },
        Err(Refused { address }) => RrsLoaded {
            refusal: NOT_IN_WORDS,
            address,
        },
    }
}

/// Puts the hart of a board at the entry of an executable of physical addresses.
pub(crate) fn start_at_entry(board: &mut RrsBoard, file: &[u8], unit: CodeUnit)
    ensures { IsExecutableIn unit Addresses.Physical file.now
        → board.new ≡ with_pc (e_entry file.now) board.old }
{
    if let Ok(program) = Executable::parse_in(file, Addresses::Physical, unit) {
        board.hart.pc = program.entry();
    }
}

/// Loads an executable into words that are lent, which stay lent.
fn load_lent<'a>(program: &Executable<'_>, memory: &mut SliceMemory<'a>) -> Result<(), Refused>
    ensures loaded { OnOk result (Stands program.now.addresses program.now.file.now
        (slice_bytes memory.old) (slice_bytes memory.new) (slice_writable memory.old)
        (e_phnum program.now.file.now) 0) }
    ensures stopped { IfErr result (λ refused. StopsIn program.now.addresses program.now.file.now
        (slice_bytes memory.old) (slice_bytes memory.new) (slice_writable memory.old)
        refused.address) }
    ensures lent { StaysLent memory.old memory.new }
{
    match program.load(memory) {
        Ok(()) => Ok(()),
        Err(refused) => Err(refused),
    }
}

/// Where an address lies, and the name of that.
fn located(file: &[u8], address: u32) -> Option<(Location, &[u8])>
    ensures { MatchOption result (FindsNone file.now address)
        (λ found. Locates file.now address found.0 found.1.now) }
{
    let Ok(program) = Executable::parse_in(file, Addresses::Virtual, CodeUnit::HalfWord) else {
        return None;
    };
    let symbols = match program.symbols() {
        Ok(Some(symbols)) => symbols,
        Ok(None) => return None,
        Err(_) => return None,
    };
    let location = match symbols.function_at(address) {
        Some(location) => location,
        None => return None,
    };
    let name = symbols.name(location.symbol)?;
    Some((location, name))
}

/// Where an address lies, and how long the name of that is.
fn place_of(location: &Location, name: &[u8]) -> RrsLocation
    ensures { result ≡ location_of location.now name.now }
{
    RrsLocation {
        found: if location.is_inside { 1 } else { 2 },
        distance: location.distance,
        length: name.len(),
    }
}

/// The name of a function and where it is, if an address lies in one or after one.
pub(crate) fn function_of(file: &[u8], address: u32, buffer: &mut [u8]) -> RrsLocation
    ensures { FindsFunction file.now address buffer.old buffer.new result }
{
    match located(file, address) {
        Some((location, name)) => {
            put_text(name, buffer);
            place_of(&location, name)
        }
        None => RrsLocation {
            found: 0,
            distance: 0,
            length: 0,
        },
    }
}
