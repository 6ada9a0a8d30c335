//! Memories for a simulator.

ghost use Rattle.std.specs.Prelude.{◌≡◌, ◌≢◌, ℕ, ◌+◌, ◌*◌, ◌/◌, ◌%◌, ◌^◌, ◌≤◌, length, true};
ghost use Rattle.std.specs.Prelude.{slice_index};
ghost use Rattle.std.specs.Bool.{OnTrue, OnFalse};
ghost use Rattle.rrs_memory.specs.Bytes.{width, little_endian, all_writable, store, Reads, Writes, ReadsArePure};
ghost use Rattle.rrs_memory.specs.VecBytes.{bytes_of_words, lies_in_words};

mod boxed;
mod load;
mod slice;
mod space;

use crate::{MemAccessSize, Memory};
pub use boxed::BoxedMemory;
pub use load::{LoadFault, read_to_memory};
pub use slice::SliceMemory;
pub use space::{MemorySpace, MemorySpaceError};

/// A memory of words, all of them writable.
///
/// The words lie one after another from address 0 on, each as four bytes, lowest first. The words
/// past index 2^30 - 1 have no address.
#[derive(Drop)]
pub struct VecMemory {
    /// The words.
    pub mem: Vec<u32>,
}

impl VecMemory {
    /// A memory with these words.
    pub fn new(init_mem: Vec<u32>) -> VecMemory
        ensures { result.mem ≡ init_mem }
    {
        VecMemory { mem: init_mem }
    }
}

/// The word whose lowest `size` bytes are ones.
#[inline]
fn mask_of(size: MemAccessSize) -> u32
    ensures { result + 1 ≡ 256 ^ width size }
{
    match size {
        MemAccessSize::Byte => 0xff,
        MemAccessSize::HalfWord => 0xffff,
        MemAccessSize::Word => 0xffff_ffff,
    }
}

/// The `size` bytes of a word from byte `place` on.
#[inline]
fn part_of(word: u32, place: u32, size: MemAccessSize) -> u32
    requires { place + width size ≤ 4 }
    ensures { result ≡ word / 256 ^ place % 256 ^ width size }
{
    (word >> (8 * place)) & mask_of(size)
}

/// A word whose `size` bytes from byte `place` on are replaced by the lowest bytes of `value`.
#[inline]
fn with_part(word: u32, place: u32, size: MemAccessSize, value: u32) -> u32
    requires { place + width size ≤ 4 }
    ensures { let n = width size in
        result ≡ (word / 256 ^ (n + place) * 256 ^ n + value % 256 ^ n) * 256 ^ place
        + word % 256 ^ place }
{
    let mask = mask_of(size);
    let shift = 8 * place;
    (word & !(mask << shift)) | ((value & mask) << shift)
}

/// The `size` bytes at `addr`, a multiple of the size, or `None` past the words.
#[inline]
fn read_words(words: &[u32], addr: u32, size: MemAccessSize) -> Option<u32>
    requires { addr % width size ≡ 0 }
    ensures { result ≡ little_endian (bytes_of_words words.now) addr (width size) }
{
    let index = (addr >> 2) as usize;
    if index >= words.len() {
        return None;
    }
    Some(part_of(words[index], addr & 3, size))
}

/// Writes the lowest `size` bytes of `value` to `addr`, a multiple of the size, and returns whether
/// it lies in the words.
#[inline]
fn write_words(words: &mut [u32], addr: u32, size: MemAccessSize, value: u32) -> bool
    requires { addr % width size ≡ 0 }
    ensures answer { result ≡ all_writable (lies_in_words words.old) addr (width size) }
    ensures written { OnTrue result (bytes_of_words words.new
        ≡ store (bytes_of_words words.old) addr (width size) value) }
    ensures refused { OnFalse result (words.new ≡ words.old) }
    ensures length_kept { length words.new ≡ length words.old }
    ensures others_kept { (i : ℕ) → i ≢ addr / 4
        → slice_index words.new i ≡ slice_index words.old i }
{
    let word_index = (addr >> 2) as usize;
    if word_index >= words.len() {
        return false;
    }
    words[word_index] = with_part(words[word_index], addr & 3, size, value);
    true
}

impl Memory for VecMemory {
    ghost use Rattle.rrs_memory.specs.VecBytes.{vec_bytes, vec_writable, vec_layout, vec_reads, VecWrites};

    ghost bytes = { vec_bytes };

    ghost writable = { vec_writable };

    ghost layout = { vec_layout };

    ghost reads = { vec_reads };

    ghost writes = { VecWrites };

    #[inline]
    fn read_mem(&mut self, addr: u32, size: MemAccessSize) -> Option<u32>
        requires { addr % width size ≡ 0 }
        ensures laws { Reads vec_bytes vec_writable vec_layout
            self.old self.new addr (width size) result }
        ensures did { vec_reads self.old addr size self.new result }
    {
        read_words(&self.mem, addr, size)
    }

    #[inline]
    fn write_mem(&mut self, addr: u32, size: MemAccessSize, store_data: u32) -> bool
        requires { addr % width size ≡ 0 }
        ensures laws { Writes vec_bytes vec_writable vec_layout
            self.old self.new addr (width size) store_data result }
        ensures did { VecWrites self.old addr size store_data self.new result }
    {
        write_words(&mut self.mem, addr, size, store_data)
    }

    /// They are, at each address: a program that runs for long has each of its words fetched once.
    #[inline(always)]
    fn reads_are_pure(&self, addr: u32) -> bool
        ensures pure { OnTrue result
            (ReadsArePure vec_bytes vec_reads VecWrites self.now addr) }
        ensures always { result ≡ true }
    {
        true
    }
}
