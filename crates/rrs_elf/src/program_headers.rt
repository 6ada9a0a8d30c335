//! Program headers.

ghost use Rattle.std.specs.Prelude.{◌≡◌, ◌↔◌, ◌+◌, ◌/◌, ◌%◌, ◌^◌, ◌<◌, ℕ, List, IsTrue};
ghost use Rattle.rrs_elf.specs.ProgramHeaders.{IsProgramHeader};
ghost use Rattle.rrs_elf.specs.Headers.{program_header_start, e_phnum, segment_start};

use crate::numbers::{read_half, read_word};

/// Which of its two addresses each segment is loaded at.
#[derive(Debug, PartialEq, Clone, Copy)]
pub enum Addresses {
    /// The virtual one (`p_vaddr`), as the segments of a process.
    Virtual,
    /// The physical one (`p_paddr`), as those of firmware, whose start-up code may copy them to
    /// their virtual ones.
    Physical,
}

/// A program header: what one segment of the file is. The names of its fields in the ELF
/// specification are in brackets.
#[derive(Debug, Clone, Copy)]
pub struct ProgramHeader {
    /// The type (`p_type`): 1 for a segment that is loaded.
    pub kind: u32,
    /// Where its bytes begin in the file (`p_offset`).
    pub offset: u32,
    /// Its first virtual address (`p_vaddr`).
    pub address: u32,
    /// Its first physical address (`p_paddr`).
    pub physical_address: u32,
    /// How many bytes it has in the file (`p_filesz`).
    pub file_size: u32,
    /// How many bytes it has in memory (`p_memsz`): those of the file, and then zeros.
    pub memory_size: u32,
    /// What may be done in it (`p_flags`): 1 execute, 2 write, 4 read, added up.
    pub flags: u32,
    /// Its alignment (`p_align`), which nothing here uses.
    pub alignment: u32,
}

impl ProgramHeader {
    /// The first of these addresses.
    pub fn start(&self, addresses: Addresses) -> u32
        ensures { (file : List ℕ) (i : ℕ) → IsProgramHeader file i self.now
            → result ≡ segment_start addresses file i }
    {
        match addresses {
            Addresses::Virtual => self.address,
            Addresses::Physical => self.physical_address,
        }
    }

    /// The virtual address behind its last one.
    pub fn end(&self) -> u64
        ensures { result ≡ self.now.address + self.now.memory_size }
    {
        u64::from(self.address) + u64::from(self.memory_size)
    }

    /// Whether the segment is loaded (`PT_LOAD`).
    pub fn is_loaded(&self) -> bool
        ensures { IsTrue result ↔ (self.now.kind ≡ 1) }
    {
        self.kind == 1
    }

    /// Whether the segment has code (`PF_X`).
    pub fn is_executable(&self) -> bool
        ensures { IsTrue result ↔ (self.now.flags % 2 ≡ 1) }
    {
        self.flags % 2 == 1
    }

    /// Whether the segment may be written (`PF_W`).
    pub fn is_writable(&self) -> bool
        ensures { IsTrue result ↔ (self.now.flags / 2 % 2 ≡ 1) }
    {
        self.flags / 2 % 2 == 1
    }

    /// Whether the segment may be read (`PF_R`).
    pub fn is_readable(&self) -> bool
        ensures { IsTrue result ↔ (self.now.flags / 4 % 2 ≡ 1) }
    {
        self.flags / 4 % 2 == 1
    }
}

/// How many program headers there are (`e_phnum`).
pub fn read_header_count(file: &[u8]) -> u16
    ensures { result ≡ e_phnum file.now }
{
    read_half(file, 44)
}

/// Where the program header of this number begins.
fn start_of_header(file: &[u8], index: u16) -> usize
    ensures value { result ≡ program_header_start file.now index }
    ensures small { result < 2 ^ 39 }
{
    read_word(file, 28) as usize + 32 * usize::from(index)
}

/// The program header of this number.
pub fn read_program_header(file: &[u8], index: u16) -> ProgramHeader
    ensures { IsProgramHeader file.now index result }
{
    let start = start_of_header(file, index);
    ProgramHeader {
        kind: read_word(file, start),
        offset: read_word(file, start + 4),
        address: read_word(file, start + 8),
        physical_address: read_word(file, start + 12),
        file_size: read_word(file, start + 16),
        memory_size: read_word(file, start + 20),
        flags: read_word(file, start + 24),
        alignment: read_word(file, start + 28),
    }
}
