//! Section headers.

ghost use Rattle.std.specs.Prelude.{◌≡◌, ◌<◌, ◌^◌};
ghost use Rattle.rrs_elf.specs.Headers.{e_shnum};
ghost use Rattle.rrs_elf.specs.Sections.{IsSection};
ghost use Rattle.rrs_elf.specs.SymbolTables.{section_header_start, symbol_table};

use crate::numbers::{read_half, read_word};

/// What is needed of a section header.
#[derive(Clone, Copy)]
pub struct Section {
    /// The type (`sh_type`).
    pub kind: u32,
    /// Where its bytes begin in the file (`sh_offset`).
    pub offset: u32,
    /// How many bytes it has (`sh_size`).
    pub size: u32,
    /// The number of a section that belongs to it (`sh_link`).
    pub link: u32,
    /// The size of its entries (`sh_entsize`).
    pub entry_size: u32,
}

/// How many section headers there are (`e_shnum`).
pub fn read_section_count(file: &[u8]) -> u16
    ensures { result ≡ e_shnum file.now }
{
    read_half(file, 48)
}

/// Where the section header of this number begins.
fn start_of_header(file: &[u8], index: u32) -> usize
    ensures value { result ≡ section_header_start file.now index }
    ensures small { result < 2 ^ 39 }
{
    read_word(file, 32) as usize + 40 * index as usize
}

/// The section of this number.
pub fn read_section(file: &[u8], index: u32) -> Section
    ensures { IsSection file.now index result }
{
    let start = start_of_header(file, index);
    Section {
        kind: read_word(file, start + 4),
        offset: read_word(file, start + 16),
        size: read_word(file, start + 20),
        link: read_word(file, start + 24),
        entry_size: read_word(file, start + 36),
    }
}

/// The section with the symbol table, if there is one: the first of its type.
pub fn find_symbol_table(file: &[u8]) -> Option<u16>
    ensures { result ≡ symbol_table file.now }
{
    for index in 0..read_section_count(file) {
        if read_section(file, u32::from(index)).kind == 2 {
            return Some(index);
        }
    }
    None
}
