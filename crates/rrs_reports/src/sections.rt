//! The parts of a file that have code: by its sections, or, where it has none, by its segments.

use crate::names::SHOWN_BYTES;
use rrs_elf::{CodeUnit, Executable};
use std::alloc::AllocError;

/// The flag of a section that has code (`SHF_EXECINSTR`).
const HAS_CODE: u32 = 4;
/// The type of a section that has bytes in the file (`SHT_PROGBITS`).
const HAS_BYTES: u32 = 1;

/// A part of an executable that has code.
#[derive(Clone, Copy)]
pub struct CodePart<'a> {
    /// The name of the section, as far as it is shown, or none of a segment.
    pub name: &'a [u8],
    /// What its instructions lie in.
    pub unit: CodeUnit,
    /// The address of its first byte, at which a unit begins.
    pub address: u32,
    /// Its bytes.
    pub bytes: &'a [u8],
}

impl CodePart<'_> {
    /// How many whole units it has.
    pub fn units(&self) -> u32 {
        self.unit
            .count(self.bytes.len().min(u32::MAX as usize) as u32)
    }

    /// The word that begins with the unit of this number.
    pub fn word(&self, index: u32) -> Option<u32> {
        word_at(self.bytes, index as usize * self.unit.bytes() as usize)
    }

    /// The word that is the instruction at the unit of this number, or `None` where the unit is one
    /// by itself: a half-word whose low bits are not 11, or one without another half.
    pub fn instruction_word(&self, index: u32) -> Option<u32> {
        if self.unit == CodeUnit::HalfWord && self.half(index).unwrap_or(0) % 4 != 3 {
            return None;
        }
        self.word(index)
    }

    /// The half-word that the unit of this number begins with.
    pub fn half(&self, index: u32) -> Option<u16> {
        half_at(self.bytes, index as usize * self.unit.bytes() as usize)
    }

    /// The address of the unit of this number.
    pub fn address_of(&self, index: u32) -> u32 {
        self.address
            .wrapping_add(index.wrapping_mul(self.unit.bytes()))
    }
}

/// The bytes of a file from an offset on.
fn behind(file: &[u8], offset: usize) -> &[u8] {
    if offset <= file.len() {
        &file[offset..]
    } else {
        &[]
    }
}

/// The word at an offset, the lowest byte first.
fn word_at(file: &[u8], offset: usize) -> Option<u32> {
    match behind(file, offset) {
        [a, b, c, d, ..] => Some(u32::from_le_bytes([*a, *b, *c, *d])),
        _ => None,
    }
}

/// The half-word at an offset, the lowest byte first.
fn half_at(file: &[u8], offset: usize) -> Option<u16> {
    match behind(file, offset) {
        [a, b, ..] => Some(u16::from(*a) + 256 * u16::from(*b)),
        _ => None,
    }
}

/// So many bytes of a file from an offset on, as far as it has them.
fn bytes_at(file: &[u8], offset: u32, size: u32) -> &[u8] {
    let bytes = behind(file, offset as usize);
    &bytes[..bytes.len().min(size as usize)]
}

/// The bytes up to the first 0.
fn text_of(bytes: &[u8]) -> &[u8] {
    for (index, byte) in bytes.iter().enumerate() {
        if *byte == 0 {
            return &bytes[..index];
        }
    }
    bytes
}

/// The first words of the header of a section: its name, its type, its flags, its address, and
/// where its bytes begin in the file and how many they are.
fn header_of(file: &[u8], index: u32) -> Option<[u32; 6]> {
    let start = word_at(file, 32)? as usize + 40 * index as usize;
    let mut header = [0; 6];
    for place in 0..header.len() {
        header[place] = word_at(file, start + 4 * place)?;
    }
    Some(header)
}

/// The bytes of the name of a section that are shown, and one more, if there are more, by the
/// section with the names: it begins there at a place.
fn name_of(file: &[u8], place: u32) -> Option<&[u8]> {
    let [.., offset, size] = header_of(file, u32::from(half_at(file, 50)?))?;
    let names = behind(bytes_at(file, offset, size), place as usize);
    Some(text_of(&names[..names.len().min(SHOWN_BYTES + 1)]))
}

/// The code of a section, if it has some.
fn section_part(file: &[u8], unit: CodeUnit, index: u32) -> Option<CodePart<'_>> {
    let [name, kind, flags, address, offset, size] = header_of(file, index)?;
    if kind != HAS_BYTES || flags / HAS_CODE % 2 == 0 || !unit.begins_at(address) {
        return None;
    }
    Some(CodePart {
        name: name_of(file, name)?,
        unit,
        address,
        bytes: bytes_at(file, offset, size),
    })
}

/// The code of a segment, if it has some.
fn segment_part<'a>(
    file: &'a [u8],
    program: &Executable<'a>,
    unit: CodeUnit,
    index: u16,
) -> Option<CodePart<'a>> {
    let header = program.program_header(index)?;
    if !header.is_loaded() || !header.is_executable() || !unit.begins_at(header.address) {
        return None;
    }
    Some(CodePart {
        name: &[],
        unit,
        address: header.address,
        bytes: bytes_at(file, header.offset, header.file_size),
    })
}

/// Adds the parts of a file that have code, which lies in such units, in the order of the file's
/// headers.
pub fn add_code_parts<'a>(
    parts: &mut Vec<CodePart<'a>>,
    file: &'a [u8],
    program: &Executable<'a>,
    unit: CodeUnit,
) -> Result<(), AllocError> {
    for index in 0..half_at(file, 48).unwrap_or(0) {
        if let Some(part) = section_part(file, unit, u32::from(index)) {
            parts.push(part)?;
        }
    }
    if parts.is_empty() {
        for index in 0..program.program_header_count() {
            if let Some(part) = segment_part(file, program, unit, index) {
                parts.push(part)?;
            }
        }
    }
    Ok(())
}
