//! The checks of segments.

ghost use Rattle.std.specs.Prelude.{◌≡◌, ◌<◌, ◌+◌, ◌*◌, ◌↔◌, IsTrue};
ghost use Rattle.rrs_elf.specs.Headers.{e_phnum};
ghost use Rattle.rrs_elf.specs.Refusals.{first_refusal, checks_below, place_checks, overlap, overlap_check, segment_checks, ends_past_file, has_address, one_has_address};

use crate::errors::ElfError;
use crate::program_headers::{Addresses, read_header_count, read_program_header};

/// The type of a segment that names a dynamic linker.
const PT_INTERP: u32 = 3;

/// Whether the bytes of a segment end past the file.
fn ends_past(file: &[u8], index: u16) -> bool
    ensures { result ≡ ends_past_file file.now index }
{
    let header = read_program_header(file, index);
    header.file_size > 0
        && file.len() < (header.offset as usize).saturating_add(header.file_size as usize)
}

/// Refuses a segment for its type, its sizes, or its place.
#[tactic(auto, unfolding(crate::specs::Refusals::place_checks))]
fn check_place(file: &[u8], addresses: Addresses, index: u16) -> Result<(), ElfError>
    ensures { result ≡ first_refusal (place_checks addresses file.now index) }
{
    let header = read_program_header(file, index);
    let is_loaded = header.is_loaded();
    if header.kind == PT_INTERP {
        return Err(ElfError::Interpreter(index));
    }
    if is_loaded && ends_past(file, index) {
        return Err(ElfError::SegmentCutShort(index));
    }
    if is_loaded && header.memory_size < header.file_size {
        return Err(ElfError::SegmentSizes(index));
    }
    let start = header.start(addresses);
    if is_loaded && u64::from(start) + u64::from(header.memory_size) > 1 << 32 {
        return Err(ElfError::SegmentPastLastAddress(index));
    }
    Ok(())
}

/// Whether two segments are loaded and have an address in common.
fn do_overlap(file: &[u8], addresses: Addresses, earlier: u16, later: u16) -> bool
    ensures { result ≡ overlap addresses file.now earlier later }
{
    let one = read_program_header(file, earlier);
    let other = read_program_header(file, later);
    let (start, begin) = (one.start(addresses), other.start(addresses));
    let end = u64::from(start) + u64::from(one.memory_size);
    let stop = u64::from(begin) + u64::from(other.memory_size);
    one.is_loaded() && other.is_loaded() && u64::from(start.max(begin)) < end.min(stop)
}

/// Refuses a segment that has an address in common with one before it.
fn check_overlaps(file: &[u8], addresses: Addresses, index: u16) -> Result<(), ElfError>
    ensures { result ≡ first_refusal (checks_below (overlap_check addresses file.now index) index) }
{
    for earlier in 0..index {
        if do_overlap(file, addresses, earlier, index) {
            return Err(ElfError::SegmentsOverlap(earlier, index));
        }
    }
    Ok(())
}

/// Refuses a segment.
#[tactic(auto, using(crate::proofs::CheckLists::joined))]
fn check_segment(file: &[u8], addresses: Addresses, index: u16) -> Result<(), ElfError>
    ensures { result ≡ first_refusal (segment_checks addresses file.now index) }
{
    check_place(file, addresses, index)?;
    check_overlaps(file, addresses, index)
}

/// Refuses the first segment that is to be refused.
pub fn check_segments(file: &[u8], addresses: Addresses) -> Result<(), ElfError>
    ensures { result ≡ first_refusal (checks_below (segment_checks addresses file.now)
        (e_phnum file.now)) }
{
    for index in 0..read_header_count(file) {
        check_segment(file, addresses, index)?;
    }
    Ok(())
}

/// Whether a segment is loaded and has a virtual address.
pub fn segment_has(file: &[u8], index: u16, address: u32) -> bool
    ensures { result ≡ has_address file.now index address }
{
    let header = read_program_header(file, index);
    header.is_loaded() && header.address <= address && u64::from(address) < header.end()
}

/// Whether a loaded segment has a virtual address.
pub fn one_segment_has(file: &[u8], address: u32) -> bool
    ensures { result ≡ one_has_address file.now (e_phnum file.now) address }
{
    for index in 0..read_header_count(file) {
        if segment_has(file, index, address) {
            return true;
        }
    }
    false
}
