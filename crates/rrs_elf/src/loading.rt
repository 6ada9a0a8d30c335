//! Loading an executable into a memory.

ghost use Rattle.std.specs.Prelude.{◌≡◌, ◌<◌, ◌+◌, ◌^◌, true, false, suc, min, Some, OnOk, IfErr, ℕ, List};
ghost use Rattle.rrs_memory.specs.AccessLists.{Makes};
ghost use Rattle.rrs_memory.specs.Loading.{Loaded, byte_writes};
ghost use Rattle.rrs_elf.specs.Headers.{e_phnum, p_filesz, segment_start};
ghost use Rattle.rrs_elf.specs.ProgramHeaders.{IsProgramHeader};
ghost use Rattle.rrs_elf.specs.Loading.{segment_byte, segment_bytes, loaded_size, Stands, segment_writes, StopsAt, lies_between, EndsOutside};

use crate::accepting::Executable;
use crate::numbers::read_byte;
use crate::program_headers::{Addresses, ProgramHeader, read_program_header};
use rrs_memory::{MemAccessSize, Memory};

/// Why a load ended before the last segment: the memory refused the byte at this address. What was
/// written before stays written.
#[derive(Debug, PartialEq, Clone, Copy)]
pub struct Refused {
    /// The address.
    pub address: u32,
}

/// How many bytes of a segment are loaded.
fn size_to_load(segment: &ProgramHeader) -> u32
    ensures { (file : List ℕ) (i : ℕ) → IsProgramHeader file i segment.now
        → result ≡ loaded_size file i }
{
    if segment.is_loaded() {
        segment.memory_size
    } else {
        0
    }
}

/// The byte that a segment has at one of its addresses.
fn byte_of(file: &[u8], segment: &ProgramHeader, place: u32) -> u8
    ensures { (i : ℕ) → IsProgramHeader file.now i segment.now
        → result ≡ segment_byte file.now i place }
{
    if place < segment.file_size {
        read_byte(file, segment.offset as usize + place as usize)
    } else {
        0
    }
}

/// How many bytes of a segment are loaded that stand in the file.
fn size_in_file(segment: &ProgramHeader) -> u32
    ensures { (file : List ℕ) (i : ℕ) → IsProgramHeader file i segment.now
        → result ≡ min (p_filesz file i) (loaded_size file i) }
{
    segment.file_size.min(size_to_load(segment))
}

/// Loads the first bytes of a segment at its addresses, one by one.
fn load_segment<M: Memory>(
    file: &[u8],
    addresses: Addresses,
    index: u16,
    size: u32,
    memory: &mut M,
) -> Result<(), Refused>
    requires { (k : ℕ) → k < size → segment_start addresses file.now index + k < 2 ^ 32 }
    ensures loaded { OnOk result (Loaded (M.bytes memory.old) (M.bytes memory.new)
        (M.writable memory.old) (segment_start addresses file.now index)
        (segment_bytes file.now index size)) }
    ensures made { OnOk result (Makes M.reads M.writes (byte_writes (M.writable memory.old)
        (segment_start addresses file.now index) (segment_bytes file.now index size))
        memory.old memory.new) }
    ensures stopped { IfErr result (λ refused. (k : ℕ) × (k < size)
        × (refused.address ≡ segment_start addresses file.now index + k)
        × (M.writable memory.old refused.address ≡ false)
        × Loaded (M.bytes memory.old) (M.bytes memory.new) (M.writable memory.old)
        (segment_start addresses file.now index) (segment_bytes file.now index k)
        × Makes M.reads M.writes (byte_writes (M.writable memory.old)
        (segment_start addresses file.now index) (segment_bytes file.now index (suc k)))
        memory.old memory.new) }
    ensures writable_kept { M.writable memory.new ≡ M.writable memory.old }
    ensures layout_kept { M.layout memory.new ≡ M.layout memory.old }
{
    let segment = read_program_header(file, index);
    let start = segment.start(addresses);
    for place in 0..size {
        let byte = byte_of(file, &segment, place);
        let address = start + place;
        if !memory.write_mem(address, MemAccessSize::Byte, u32::from(byte)) {
            return Err(Refused { address });
        }
    }
    Ok(())
}

/// Refuses a segment for the first of its addresses that is not one from `start` on and before
/// `end`.
fn check_within(
    file: &[u8],
    addresses: Addresses,
    index: u16,
    start: u32,
    end: u64,
) -> Result<(), Refused>
    requires { (k : ℕ) → k < loaded_size file.now index
        → segment_start addresses file.now index + k < 2 ^ 32 }
    ensures within { OnOk result ((k : ℕ) → k < loaded_size file.now index
        → lies_between start end (segment_start addresses file.now index + k) ≡ true) }
    ensures outside { IfErr result (λ refused. (k : ℕ) × (k < loaded_size file.now index)
        × (refused.address ≡ segment_start addresses file.now index + k)
        × (lies_between start end refused.address ≡ false)
        × ((j : ℕ) → j < k
        → lies_between start end (segment_start addresses file.now index + j) ≡ true)) }
{
    let segment = read_program_header(file, index);
    let (first, size) = (segment.start(addresses), size_to_load(&segment));
    if size == 0 {
        return Ok(());
    }
    if first < start || u64::from(first) >= end {
        return Err(Refused { address: first });
    }
    if u64::from(first) + u64::from(size) > end {
        return Err(Refused {
            address: end as u32,
        });
    }
    Ok(())
}

impl Executable<'_> {
    /// Loads the executable into a memory: the bytes of each loaded segment, from the first of the
    /// addresses that were asked for on, and then zeros up to its size in memory. Segments are
    /// loaded in their order, byte by byte, each byte by one write, and nothing else is read or
    /// written.
    ///
    /// Where the memory refuses an address, the load ends there. The bytes before it, in this
    /// order, are written then, and all others are as before.
    pub fn load<M: Memory>(&self, memory: &mut M) -> Result<(), Refused>
        ensures loaded { OnOk result (Stands self.now.addresses self.now.file.now
            (M.bytes memory.old) (M.bytes memory.new) (M.writable memory.old)
            (e_phnum self.now.file.now) 0) }
        ensures accesses { OnOk result (Makes M.reads M.writes (segment_writes
            self.now.addresses (M.writable memory.old) self.now.file.now
            (e_phnum self.now.file.now)) memory.old memory.new) }
        ensures refused { IfErr result (λ refused. StopsAt M.reads M.writes M.bytes
            (M.writable memory.old) self.now.addresses self.now.file.now memory.old memory.new
            refused.address) }
        ensures writable_kept { M.writable memory.new ≡ M.writable memory.old }
        ensures layout_kept { M.layout memory.new ≡ M.layout memory.old }
    {
        for index in 0..self.program_header_count() {
            let segment = read_program_header(self.file, index);
            let size = size_to_load(&segment);
            load_segment(self.file, self.addresses, index, size, memory)?;
        }
        Ok(())
    }

    /// Loads the executable into a memory that has the addresses from `start` on and before `end`,
    /// all of them 0: the bytes of the file are written, and no zeros after them. It leaves what
    /// [Executable::load] leaves.
    ///
    /// Where a segment has another address the load ends, with the first of them. What was written
    /// before stays written.
    pub fn load_over_zeros<M: Memory>(
        &self,
        memory: &mut M,
        start: u32,
        end: u64,
    ) -> Result<(), Refused>
        requires writable { (a : ℕ) → M.writable memory.old a ≡ lies_between start end a }
        requires zeros { (a : ℕ) → M.writable memory.old a ≡ true → M.bytes memory.old a ≡ Some 0 }
        ensures loaded { OnOk result (Stands self.now.addresses self.now.file.now
            (M.bytes memory.old) (M.bytes memory.new) (M.writable memory.old)
            (e_phnum self.now.file.now) 0) }
        ensures refused { IfErr result (λ refused. EndsOutside self.now.addresses
            self.now.file.now (M.writable memory.old) refused.address) }
        ensures writable_kept { M.writable memory.new ≡ M.writable memory.old }
        ensures layout_kept { M.layout memory.new ≡ M.layout memory.old }
    {
        for index in 0..self.program_header_count() {
            check_within(self.file, self.addresses, index, start, end)?;
            let segment = read_program_header(self.file, index);
            let size = size_in_file(&segment);
            load_segment(self.file, self.addresses, index, size, memory)?;
        }
        Ok(())
    }
}
