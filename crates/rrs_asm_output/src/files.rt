//! The bytes of an executable (System V generic ABI).

use crate::accepting::rights_of;
use crate::units::unit_of;
use rrs_asm::{Label, Section, SectionKind};
use rrs_elf::CodeUnit;
use std::alloc::{AllocError, Global};

/// The distance of pages: a segment's bytes and its addresses are the same distance after one.
const PAGE: u32 = 0x1000;

/// The size of the file's header, and of a program header.
const HEADER_SIZE: u32 = 52;

const PROGRAM_HEADER_SIZE: u32 = 32;

/// The parts of a file, each without those before it.
#[derive(Drop)]
struct Parts {
    /// What the file's header says of its code.
    flags: u32,
    /// The program headers.
    segments: Vec<u8>,
    /// What stands after the program headers: the bytes of the sections, and then the tables.
    contents: Vec<u8>,
    /// Where that begins in the file.
    start: u32,
    /// The section headers.
    headers: Vec<u8>,
    /// The symbol table.
    symbols: Vec<u8>,
    /// The names of sections and symbols.
    strings: Vec<u8>,
}

impl Parts {
    /// Where in the file the next byte of the contents stands.
    fn here(&self) -> u32 {
        self.start.saturating_add(size_of(&self.contents))
    }

    /// Goes on at a multiple of 4.
    fn align(&mut self) -> Result<(), AllocError> {
        for _ in 0..3 {
            if self.contents.len() % 4 != 0 {
                self.contents.push(0)?;
            }
        }
        Ok(())
    }
}

/// How many bytes there are.
fn size_of(bytes: &[u8]) -> u32 {
    u32::try_from(bytes.len()).unwrap_or(u32::MAX)
}

/// How many of something there are, as a number of 2 bytes.
fn half_of(count: usize) -> u16 {
    u16::try_from(count).unwrap_or(u16::MAX)
}

/// Appends words, each with its lowest byte first.
fn push_words(bytes: &mut Vec<u8>, words: &[u32]) -> Result<(), AllocError> {
    for word in words {
        bytes.extend_from_slice(&word.to_le_bytes())?;
    }
    Ok(())
}

/// Appends numbers of 2 bytes, each with its lowest byte first.
fn push_halves(bytes: &mut Vec<u8>, halves: &[u16]) -> Result<(), AllocError> {
    for half in halves {
        bytes.extend_from_slice(&half.to_le_bytes())?;
    }
    Ok(())
}

/// Appends a name, and gives where it stands.
fn push_name(strings: &mut Vec<u8>, name: &[u8]) -> Result<u32, AllocError> {
    let at = size_of(strings);
    strings.extend_from_slice(name)?;
    strings.push(0)?;
    Ok(at)
}

/// The executable of these sections with this entry.
pub fn write_file(alloc: Global, sections: &[Section], entry: u32) -> Result<Vec<u8>, AllocError> {
    let mut parts = Parts {
        flags: flags_of(unit_of(sections)),
        segments: Vec::new(alloc),
        contents: Vec::new(alloc),
        start: start_of(sections),
        headers: Vec::new(alloc),
        symbols: Vec::new(alloc),
        strings: Vec::new(alloc),
    };
    add_sections(&mut parts, sections)?;
    let mut file = Vec::new(alloc);
    push_parts(&mut file, &parts, entry, sections.len())?;
    Ok(file)
}

/// What the file's header says of code that lies in such units: `EF_RISCV_RVC` of half-words.
fn flags_of(unit: CodeUnit) -> u32 {
    match unit {
        CodeUnit::Word => 0,
        CodeUnit::HalfWord => 1,
    }
}

/// Where the contents of a file begin: after the program headers of sections that have bytes.
fn start_of(sections: &[Section]) -> u32 {
    let mut start = HEADER_SIZE;
    for section in sections {
        if !section.made.bytes.is_empty() {
            start = start.saturating_add(PROGRAM_HEADER_SIZE);
        }
    }
    start
}

/// Adds all that stands in a file, after the headers and names that stand for nothing.
fn add_sections(parts: &mut Parts, sections: &[Section]) -> Result<(), AllocError> {
    parts.headers.resize(40, 0)?;
    parts.symbols.resize(16, 0)?;
    parts.strings.push(0)?;
    for (index, section) in sections.iter().enumerate() {
        add_section(parts, section)?;
        add_symbols(
            parts,
            &section.made.labels,
            half_of(index.saturating_add(1)),
        )?;
    }
    add_tables(parts, sections.len())?;
    parts.align()
}

/// Appends the parts of a file that has so many sections.
fn push_parts(
    file: &mut Vec<u8>,
    parts: &Parts,
    entry: u32,
    sections: usize,
) -> Result<(), AllocError> {
    let segments = half_of(parts.segments.len() / 32);
    push_header(file, entry, parts, segments, sections)?;
    file.extend_from_slice(&parts.segments)?;
    file.extend_from_slice(&parts.contents)?;
    Ok(file.extend_from_slice(&parts.headers)?)
}

/// Appends the file's header. There is a section header for nothing, and for the two tables.
fn push_header(
    file: &mut Vec<u8>,
    entry: u32,
    parts: &Parts,
    segments: u16,
    sections: usize,
) -> Result<(), AllocError> {
    file.extend_from_slice(&[0x7f, b'E', b'L', b'F', 1, 1, 1, 0, 0, 0, 0, 0, 0, 0, 0, 0])?;
    push_halves(file, &[2, 243])?;
    push_words(file, &[1, entry, HEADER_SIZE, parts.here(), parts.flags])?;
    let names = half_of(sections.saturating_add(2));
    push_halves(
        file,
        &[52, 32, segments, 40, names.saturating_add(1), names],
    )
}

/// Adds the bytes of a section, its section header, and, where it has bytes, its program header.
fn add_section(parts: &mut Parts, section: &Section) -> Result<(), AllocError> {
    let (here, size) = (parts.here(), size_of(&section.made.bytes));
    let offset = if size == 0 {
        here
    } else {
        here.wrapping_add(section.address.wrapping_sub(here) % PAGE)
    };
    let is_stored = !matches!(section.kind, SectionKind::Zero) && size > 0;
    if is_stored {
        parts
            .contents
            .resize(offset.saturating_sub(parts.start) as usize, 0)?;
        parts.contents.extend_from_slice(&section.made.bytes)?;
    }
    if size > 0 {
        add_segment(parts, section, offset, if is_stored { size } else { 0 })?;
    }
    let name = push_name(&mut parts.strings, section.name)?;
    let (kind, flags) = header_of(section.kind);
    let address = section.address;
    push_words(
        &mut parts.headers,
        &[name, kind, flags, address, offset, size],
    )?;
    push_words(&mut parts.headers, &[0, 0, section.alignment, 0])
}

/// Adds the program header of a section, of which so many bytes stand in the file.
fn add_segment(
    parts: &mut Parts,
    section: &Section,
    offset: u32,
    stored: u32,
) -> Result<(), AllocError> {
    let (address, size) = (section.address, size_of(&section.made.bytes));
    push_words(
        &mut parts.segments,
        &[1, offset, address, address, stored, size],
    )?;
    push_words(&mut parts.segments, &[rights_of(section.kind), PAGE])
}

/// The type and the flags of a section header.
fn header_of(kind: SectionKind) -> (u32, u32) {
    match kind {
        SectionKind::Code => (1, 6),
        SectionKind::ReadOnly => (1, 2),
        SectionKind::Data => (1, 3),
        SectionKind::Zero => (8, 3),
    }
}

/// Adds the labels of the section with this number, but for local ones.
fn add_symbols(parts: &mut Parts, labels: &[Label], section: u16) -> Result<(), AllocError> {
    for label in labels {
        if is_symbol(label.name) {
            let name = push_name(&mut parts.strings, label.name)?;
            push_words(&mut parts.symbols, &[name, label.address, 0])?;
            push_halves(&mut parts.symbols, &[0x10, section])?;
        }
    }
    Ok(())
}

/// Whether a label of this name is a symbol: neither a digit nor one that a compiler made up.
fn is_symbol(name: &[u8]) -> bool {
    !matches!(name, [b'0'..=b'9', ..] | [b'.', b'L', ..])
}

/// Adds the two tables, and their section headers, after those of so many sections.
fn add_tables(parts: &mut Parts, sections: usize) -> Result<(), AllocError> {
    let symbols_name = push_name(&mut parts.strings, b".symtab")?;
    let strings_name = push_name(&mut parts.strings, b".strtab")?;
    parts.align()?;
    let (at, size) = (parts.here(), size_of(&parts.symbols));
    parts.contents.extend_from_slice(&parts.symbols)?;
    let strings = u32::from(half_of(sections.saturating_add(2)));
    push_words(
        &mut parts.headers,
        &[symbols_name, 2, 0, 0, at, size, strings, 1, 4, 16],
    )?;
    let (at, size) = (parts.here(), size_of(&parts.strings));
    parts.contents.extend_from_slice(&parts.strings)?;
    push_words(
        &mut parts.headers,
        &[strings_name, 3, 0, 0, at, size, 0, 0, 1, 0],
    )
}
