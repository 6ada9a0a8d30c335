//! Which files are accepted.

ghost use Rattle.std.specs.Prelude.{◌≡◌, ◌↔◌, ◌+◌, ◌*◌, ◌%◌, ◌^◌, ◌<◌, ◌≤◌, ℕ, length, IfOk, IfErr, IsOk, Err, IsTrue, IsSome, IfSome};
ghost use Rattle.rrs_elf.specs.Headers.{e_entry, e_flags, e_phnum, e_phoff, segment_start};
ghost use Rattle.rrs_elf.specs.ProgramHeaders.{IsProgramHeader};
ghost use Rattle.rrs_elf.specs.Executables.{bytes_of, IsLoaded, IsExecutable, IsExecutableAt, IsExecutableIn};
ghost use Rattle.rrs_elf.specs.Refusals.{first_refusal, identification_checks, kind_checks, flag_checks, table_checks, entry_checks, checks, checks_at, checks_in, begins_as_elf, is_accepted};

use crate::code_units::CodeUnit;
use crate::errors::ElfError;
use crate::numbers::{read_byte, read_half, read_word};
use crate::program_headers::{Addresses, ProgramHeader, read_header_count, read_program_header};
use crate::segments::{check_segments, one_segment_has};

/// The size of an ELF header.
const HEADER_SIZE: usize = 52;

/// The most program headers that a file may have. Each is compared with those before it.
const MOST_PROGRAM_HEADERS: u16 = 256;

/// Whether a file begins with 0x7f and "ELF".
fn is_elf(file: &[u8]) -> bool
    ensures { result ≡ begins_as_elf file.now }
{
    read_byte(file, 0) == 0x7f
        && read_byte(file, 1) == b'E'
        && read_byte(file, 2) == b'L'
        && read_byte(file, 3) == b'F'
}

/// Refuses a file for its size and its identification.
#[tactic(auto, unfolding(crate::specs::Refusals::identification_checks))]
fn check_identification(file: &[u8]) -> Result<(), ElfError>
    ensures { result ≡ first_refusal (identification_checks file.now) }
{
    if !is_elf(file) {
        return Err(ElfError::NotElf);
    }
    if file.len() < HEADER_SIZE {
        return Err(ElfError::HeaderCutShort);
    }
    let class = read_byte(file, 4);
    if class != 1 {
        return Err(ElfError::Class(class));
    }
    let order = read_byte(file, 5);
    if order != 1 {
        return Err(ElfError::ByteOrder(order));
    }
    let version = read_byte(file, 6);
    if version != 1 {
        return Err(ElfError::IdentVersion(version));
    }
    Ok(())
}

/// Refuses a file for its type, its machine, or its version.
#[tactic(auto, unfolding(crate::specs::Refusals::kind_checks))]
fn check_kind(file: &[u8]) -> Result<(), ElfError>
    ensures { result ≡ first_refusal (kind_checks file.now) }
{
    let kind = read_half(file, 16);
    if kind == 3 {
        return Err(ElfError::PositionIndependent);
    }
    if kind != 2 {
        return Err(ElfError::NotExecutable(kind));
    }
    let machine = read_half(file, 18);
    if machine != 243 {
        return Err(ElfError::Machine(machine));
    }
    let version = read_word(file, 20);
    if version != 1 {
        return Err(ElfError::Version(version));
    }
    Ok(())
}

/// Refuses a file for what its code needs and the machine, whose code lies in such units, lacks.
#[tactic(auto, unfolding(crate::specs::Refusals::flag_checks))]
fn check_flags(file: &[u8], unit: CodeUnit) -> Result<(), ElfError>
    ensures { result ≡ first_refusal (flag_checks unit file.now) }
{
    let flags = read_word(file, 36);
    if unit == CodeUnit::Word && flags % 2 != 0 {
        return Err(ElfError::CompressedCode);
    }
    if flags / 2 % 4 != 0 {
        return Err(ElfError::FloatingPoint);
    }
    if flags / 8 % 2 != 0 {
        return Err(ElfError::Embedded);
    }
    Ok(())
}

/// Refuses a file for its table of program headers.
#[tactic(auto, unfolding(crate::specs::Refusals::table_checks))]
fn check_table(file: &[u8]) -> Result<(), ElfError>
    ensures { result ≡ first_refusal (table_checks file.now) }
{
    let size = read_half(file, 42);
    if size != 32 {
        return Err(ElfError::ProgramHeaderSize(size));
    }
    let count = read_header_count(file);
    if count > MOST_PROGRAM_HEADERS {
        return Err(ElfError::TooManyProgramHeaders);
    }
    if file.len() < (read_word(file, 28) as usize).saturating_add(32 * usize::from(count)) {
        return Err(ElfError::ProgramHeadersCutShort);
    }
    Ok(())
}

/// Refuses a file for its entry.
#[tactic(auto, unfolding(crate::specs::Refusals::entry_checks))]
fn check_entry(file: &[u8], unit: CodeUnit) -> Result<(), ElfError>
    ensures { result ≡ first_refusal (entry_checks unit file.now) }
{
    let entry = read_word(file, 24);
    if !unit.begins_at(entry) {
        return Err(ElfError::EntryMisaligned(entry));
    }
    if !one_segment_has(file, entry) {
        return Err(ElfError::EntryOutside(entry));
    }
    Ok(())
}

/// Makes all checks, in their order.
#[tactic(auto, using(crate::proofs::CheckLists::joined))]
fn check(file: &[u8], addresses: Addresses, unit: CodeUnit) -> Result<(), ElfError>
    ensures { result ≡ first_refusal (checks_in unit addresses file.now) }
{
    check_identification(file)?;
    check_kind(file)?;
    check_flags(file, unit)?;
    check_table(file)?;
    check_segments(file, addresses)?;
    check_entry(file, unit)
}

/// Whether a file has a whole ELF header, whose `e_flags` has `EF_RISCV_RVC`: that of an executable
/// with compressed code.
pub fn has_compressed_code(file: &[u8]) -> bool
    ensures { IsTrue result ↔ ((52 ≤ length file.now) × (e_flags file.now % 2 ≡ 1)) }
{
    file.len() >= HEADER_SIZE && read_word(file, 36) % 2 == 1
}

/// An executable that was accepted: the bytes of its file.
#[derive(Clone, Copy)]
pub struct Executable<'a> {
    /// The bytes of the file.
    pub file: &'a [u8],
    /// Which addresses its segments are loaded at.
    pub addresses: Addresses,
    /// What the instructions of the machine that it is for lie in.
    pub unit: CodeUnit,
    ghost accepted: { IsTrue (is_accepted unit addresses file.now) },
}

impl<'a> Executable<'a> {
    /// Accepts the bytes of a file where they are an executable for this machine, whose segments
    /// are loaded at their virtual addresses, and otherwise answers the first refusal: see
    /// [ElfError] for the order.
    pub fn parse(file: &'a [u8]) -> Result<Executable<'a>, ElfError>
        ensures accepted { IsOk result ↔ IsExecutable file.now }
        ensures refused { IfErr result (λ error. first_refusal (checks file.now) ≡ Err error) }
        ensures same { IfOk result (λ made. made.file.now ≡ file.now) }
        ensures placed { IfOk result (λ made. made.addresses ≡ Addresses.Virtual) }
        ensures unit { IfOk result (λ made. made.unit ≡ CodeUnit.Word) }
    {
        Executable::parse_at(file, Addresses::Virtual)
    }

    /// The same of an executable whose segments are loaded at these of their addresses: that they
    /// have room and lie apart is asked of these.
    pub fn parse_at(file: &'a [u8], addresses: Addresses) -> Result<Executable<'a>, ElfError>
        ensures accepted { IsOk result ↔ IsExecutableAt addresses file.now }
        ensures refused { IfErr result (λ error.
            first_refusal (checks_at addresses file.now) ≡ Err error) }
        ensures same { IfOk result (λ made. made.file.now ≡ file.now) }
        ensures placed { IfOk result (λ made. made.addresses ≡ addresses) }
        ensures unit { IfOk result (λ made. made.unit ≡ CodeUnit.Word) }
    {
        Executable::parse_in(file, addresses, CodeUnit::Word)
    }

    /// The same of an executable for a machine whose instructions lie in such units: in half-words
    /// they may be compressed, and the entry is even.
    pub fn parse_in(
        file: &'a [u8],
        addresses: Addresses,
        unit: CodeUnit,
    ) -> Result<Executable<'a>, ElfError>
        ensures accepted { IsOk result ↔ IsExecutableIn unit addresses file.now }
        ensures refused { IfErr result (λ error.
            first_refusal (checks_in unit addresses file.now) ≡ Err error) }
        ensures same { IfOk result (λ made. made.file.now ≡ file.now) }
        ensures placed { IfOk result (λ made. made.addresses ≡ addresses) }
        ensures unit { IfOk result (λ made. made.unit ≡ unit) }
    {
        check(file, addresses, unit)?;
        Ok(Executable {
            file,
            addresses,
            unit,
        })
    }

    /// The address of the first instruction (`e_entry`), at which a unit begins: a virtual one of a
    /// loaded segment.
    pub fn entry(&self) -> u32
        ensures value { result ≡ e_entry self.now.file.now }
        ensures aligned { result % bytes_of self.now.unit ≡ 0 }
    {
        read_word(self.file, 24)
    }

    /// How many program headers there are (`e_phnum`), and so segments.
    pub fn program_header_count(&self) -> u16
        ensures { result ≡ e_phnum self.now.file.now }
    {
        read_header_count(self.file)
    }

    /// Where in the file the program headers begin (`e_phoff`).
    pub fn program_header_offset(&self) -> u32
        ensures { result ≡ e_phoff self.now.file.now }
    {
        read_word(self.file, 28)
    }

    /// The program header of this number, or `None` from their count on.
    pub fn program_header(&self, index: u16) -> Option<ProgramHeader>
        ensures there { IsSome result ↔ (index < e_phnum self.now.file.now) }
        ensures value { IfSome result (IsProgramHeader self.now.file.now index) }
    {
        (index < read_header_count(self.file)).then_some(read_program_header(self.file, index))
    }

    /// The segment of this number if it is loaded, and otherwise `None`. Segments have the numbers
    /// of their program headers.
    ///
    /// Its bytes are bytes of the file, and those of the file are as many as those in memory or
    /// fewer. Where it is loaded it ends at 2^32 or before.
    pub fn segment(&self, index: u16) -> Option<ProgramHeader>
        ensures loaded { IsSome result ↔ IsLoaded self.now.file.now index }
        ensures value { IfSome result (IsProgramHeader self.now.file.now index) }
        ensures sizes { IfSome result (λ segment. segment.file_size ≤ segment.memory_size) }
        ensures within_file { IfSome result (λ segment. 0 < segment.file_size
            → segment.offset + segment.file_size ≤ length self.now.file.now) }
        ensures addresses { IfSome result (λ segment. segment_start self.now.addresses
            self.now.file.now index + segment.memory_size ≤ 2 ^ 32) }
    {
        let header = self.program_header(index)?;
        if header.is_loaded() {
            Some(header)
        } else {
            None
        }
    }
}
