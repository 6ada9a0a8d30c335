//! A memory over words that are lent.

ghost use Rattle.std.specs.Prelude.{◌≡◌, ◌%◌};
ghost use Rattle.rrs_memory.specs.Bytes.{width, little_endian};
ghost use Rattle.rrs_memory.specs.VecBytes.{bytes_of_words};
ghost use Rattle.rrs_memory.specs.SliceBytes.{word_start};

use crate::memories::{read_words, write_words};
use crate::{MemAccessSize, Memory};

/// A memory of words that someone else owns, lent to it from a base address on, all of them
/// writable.
///
/// The words lie one after another from `base` on, each as four bytes, lowest first. Those that
/// would lie past address 0xffffffff have none. Its relations `reads` and `writes` say that the
/// same words stay lent, so that their owner knows afterwards what they are.
#[derive(Drop)]
pub struct SliceMemory<'a> {
    /// The words.
    pub words: &'a mut [u32],
    /// The address of the first byte of the first word: a multiple of 4. Its two lowest bits are
    /// not looked at.
    pub base: u32,
}

/// The address without its two lowest bits.
#[inline]
fn word_address(address: u32) -> u32
    ensures { result ≡ word_start address }
{
    address - address % 4
}

/// The `size` bytes at `addr`, a multiple of the size, of words from 0 on, which stay as they are.
#[inline]
fn read_lent(words: &mut [u32], addr: u32, size: MemAccessSize) -> Option<u32>
    requires { addr % width size ≡ 0 }
    ensures value { result ≡ little_endian (bytes_of_words words.old) addr (width size) }
    ensures kept { words.new ≡ words.old }
{
    read_words(words, addr, size)
}

impl<'a> Memory for SliceMemory<'a> {
    ghost use Rattle.rrs_memory.specs.SliceBytes.{slice_bytes, slice_writable, slice_layout, slice_reads, SliceWrites};

    ghost bytes = { slice_bytes };

    ghost writable = { slice_writable };

    ghost layout = { slice_layout };

    ghost reads = { slice_reads };

    ghost writes = { SliceWrites };

    #[inline]
    fn read_mem(&mut self, addr: u32, size: MemAccessSize) -> Option<u32> {
        let start = word_address(self.base);
        if addr < start {
            return None;
        }
        read_lent(self.words, addr - start, size)
    }

    #[inline]
    fn write_mem(&mut self, addr: u32, size: MemAccessSize, store_data: u32) -> bool {
        let start = word_address(self.base);
        if addr < start {
            return false;
        }
        write_words(self.words, addr - start, size, store_data)
    }

    /// They are, at each address, as those of a `VecMemory`.
    #[inline(always)]
    fn reads_are_pure(&self, addr: u32) -> bool {
        true
    }
}
