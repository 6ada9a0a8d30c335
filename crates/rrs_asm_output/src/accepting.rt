//! Whether a file is the executable of a program.

ghost use Rattle.std.specs.Prelude.{◌≡◌, ◌+◌, ◌<◌, ℕ, List, ◌∷◌, true, IfSome, length, slice_index, nat_lt, if◌then◌else◌};
ghost use Rattle.rrs_asm.specs.declared.sections.Section.{Section};
ghost use Rattle.rrs_asm.specs.Sections.{with_bytes};
ghost use Rattle.rrs_asm_output.specs.Executables.{rights_of, IsSegment, AreSegments};

use rrs_asm::{Section, SectionKind};
use rrs_elf::Executable;

/// What may be done in a section, as `p_flags`.
pub fn rights_of(kind: SectionKind) -> u32
    ensures { result ≡ rights_of kind }
{
    match kind {
        SectionKind::Code | SectionKind::ReadOnly => 5,
        SectionKind::Data | SectionKind::Zero => 6,
    }
}

/// Whether these bytes stand in a file, as far as it has them, and after that are zeros.
fn has_bytes(file: &[u8], offset: u32, size: u32, bytes: &[u8]) -> bool
    ensures { result ≡ true → (i : ℕ) → i < length bytes.now
        → (if nat_lt i size then slice_index file.now (offset + i) else 0)
        ≡ slice_index bytes.now i }
{
    for index in 0..bytes.len() {
        if byte_of(file, offset, size, index) != bytes[index] {
            return false;
        }
    }
    true
}

/// The byte of a segment, of which so many bytes stand in the file from an offset on.
fn byte_of(file: &[u8], offset: u32, size: u32, index: usize) -> u8
    ensures { result ≡ (if nat_lt index size then slice_index file.now (offset + index) else 0) }
{
    if index >= size as usize {
        return 0;
    }
    let at = offset as usize + index;
    if at < file.len() { file[at] } else { 0 }
}

/// Whether a segment is a section.
fn is_segment(executable: &Executable, index: u16, section: &Section) -> bool
    ensures { result ≡ true → IsSegment executable.now.file.now index section.now }
{
    let Some(segment) = executable.segment(index) else {
        return false;
    };
    segment.address == section.address
        && segment.memory_size as usize == section.made.bytes.len()
        && segment.flags == rights_of(section.kind)
        && has_bytes(
            executable.file,
            segment.offset,
            segment.file_size,
            &section.made.bytes,
        )
}

/// The number of the next segment after a section that is the segment of a number, if it is. A
/// section without bytes is none.
fn next_segment(executable: &Executable, index: u16, section: &Section) -> Option<u16>
    ensures { IfSome result (λ next. (others : List (Section _))
        → AreSegments executable.now.file.now next (with_bytes others)
        → AreSegments executable.now.file.now index (with_bytes (section.now ∷ others))) }
{
    if section.made.bytes.is_empty() {
        return Some(index);
    }
    if is_segment(executable, index, section) {
        index.checked_add(1)
    } else {
        None
    }
}

/// Whether the segments are the sections that have bytes.
pub fn are_segments(executable: &Executable, sections: &[Section]) -> bool
    ensures { result ≡ true → AreSegments executable.now.file.now 0 (with_bytes sections.now) }
{
    let mut index = 0;
    for section in sections {
        match next_segment(executable, index, section) {
            Some(next) => index = next,
            None => return false,
        }
    }
    executable.program_header_count() == index
}
