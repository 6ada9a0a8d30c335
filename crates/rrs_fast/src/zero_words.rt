//! Words that are 0 until they are written.

ghost use Rattle.std.specs.Prelude.{◌≡◌, ◌≢◌, ◌↔◌, ◌/◌, ◌%◌, ◌<◌, ◌≤◌, ℕ, [], Some, None, IfOk, IfSome, IsTrue, length, vec_len, vec_capacity, slice_index_or};
ghost use Rattle.std.specs.Bool.{OnTrue, OnFalse};
ghost use Rattle.rrs_memory.specs.Bytes.{width, little_endian, store};
ghost use Rattle.rrs_fast.specs.ZeroWords.{bytes_or_zero};

use rrs_memory::memories::VecMemory;
use rrs_memory::{MemAccessSize, Memory};
use std::alloc::{AllocError, Global};

/// How many words are appended at a time: those of a page.
const PAGE_WORDS: usize = 1024;

/// Words that are 0 until they are written.
///
/// There is room for all of them, which the host has reserved. It gives memory to those alone that
/// are there: the ones up to the last that was written, and the rest of its page.
#[derive(Drop)]
pub struct ZeroWords {
    /// The words that are there.
    pub words: VecMemory,
    /// How many there can be.
    pub room: usize,
    ghost within: { vec_len words.mem ≤ room },
    ghost reserved: { room ≤ vec_capacity words.mem },
}

impl ZeroWords {
    /// So many words, all of them 0.
    ///
    /// # Errors
    ///
    /// Out of memory.
    pub fn new(alloc: Global, room: usize) -> Result<ZeroWords, AllocError>
        ensures zeros { IfOk result (λ words. words.words.mem.items ≡ []) }
        ensures room { IfOk result (λ words. words.room ≡ room) }
    {
        let words = VecMemory::new(Vec::with_capacity(alloc, room)?);
        Ok(ZeroWords { words, room })
    }

    /// The `size` bytes at a place, a multiple of the size, or `None` where their word is not
    /// there.
    #[inline(always)]
    pub fn get(&mut self, place: u32, size: MemAccessSize) -> Option<u32>
        requires { place % width size ≡ 0 }
        ensures value { IfSome result (λ value. little_endian
            (bytes_or_zero self.old.words.mem.items) place (width size) ≡ Some value) }
        ensures there { IfSome result (λ value. place / 4 < length self.old.words.mem.items) }
        ensures none { result ≡ None → length self.old.words.mem.items ≤ place / 4 }
        ensures kept { self.new ≡ self.old }
    {
        if (place / 4) as usize >= self.words.mem.len() {
            return None;
        }
        self.words.read_mem(place, size)
    }

    /// Writes the lowest `size` bytes of `value` to a place, a multiple of the size, and returns
    /// whether their word is there.
    #[inline(always)]
    pub fn put(&mut self, place: u32, size: MemAccessSize, value: u32) -> bool
        requires { place % width size ≡ 0 }
        ensures there { IsTrue result ↔ (place / 4 < length self.old.words.mem.items) }
        ensures written { OnTrue result (bytes_or_zero self.new.words.mem.items
            ≡ store (bytes_or_zero self.old.words.mem.items) place (width size) value) }
        ensures refused { OnFalse result (self.new ≡ self.old) }
        ensures others_kept { (i : ℕ) → i ≢ place / 4
            → slice_index_or self.new.words.mem.items i 0
            ≡ slice_index_or self.old.words.mem.items i 0 }
        ensures length_kept { length self.new.words.mem.items
            ≡ length self.old.words.mem.items }
        ensures room_kept { self.new.room ≡ self.old.room }
        ensures reserved_kept { vec_capacity self.new.words.mem
            ≡ vec_capacity self.old.words.mem }
    {
        if (place / 4) as usize >= self.words.mem.len() {
            return false;
        }
        self.words.write_mem(place, size, value)
    }

    /// Appends zeros, so that the word of this number is there. It allocates nothing.
    pub fn grow(&mut self, index: usize)
        requires { index < self.old.room }
        ensures there { index < length self.new.words.mem.items }
        ensures same { (i : ℕ) → slice_index_or self.new.words.mem.items i 0
            ≡ slice_index_or self.old.words.mem.items i 0 }
        ensures room_kept { self.new.room ≡ self.old.room }
        ensures reserved_kept { vec_capacity self.new.words.mem
            ≡ vec_capacity self.old.words.mem }
    {
        let wanted = self.room.min(index / PAGE_WORDS * PAGE_WORDS + PAGE_WORDS);
        'zeros: while self.words.mem.len() < wanted {
            self.words.mem.push_reserved(0);
        }
    }
}
