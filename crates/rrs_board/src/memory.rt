//! The memory of the board: RAM, and the registers of the devices below it.

ghost use Rattle.std.specs.Prelude.{◌≡◌, ◌%◌, IfOk, replicate};
ghost use Rattle.std.specs.Bool.{OnFalse};

use crate::devices::Devices;
use rrs_fast::{CachedMemory, ZeroWords};
use rrs_memory::{MemAccessSize, Memory};
use std::alloc::{AllocError, Global};
use std::marker::Model;

/// Where RAM begins.
pub const RAM_START: u32 = 0x8000_0000;

/// How many decoded words of RAM are kept. Of words that lie a multiple of 16 KiB apart one is kept
/// at a time, so a loop of up to so many words runs at full speed; of a hart that fetches half-words,
/// a loop of up to 8 KiB. A board is a value, and so it lies on the stack while it is made.
pub const DECODED_WORDS: usize = 4096;

/// Words at the addresses of RAM, which are 0 until they are written, and take no memory of the
/// host until then. In contracts it is the memory of all these words.
#[derive(Drop)]
pub struct Ram {
    /// The words.
    words: ZeroWords,
}

impl Model for Ram {
    ghost use Rattle.rrs_memory.specs.declared.memories.VecMemory.{VecMemory};
    ghost use Rattle.rrs_board.specs.Ram.{all_words};

    ghost Value = { VecMemory };

    ghost view = { λ r. all_words r.words };
}

impl Ram {
    ghost use Rattle.rrs_memory.specs.Bytes.{width, little_endian, Writes};
    ghost use Rattle.rrs_memory.specs.VecBytes.{vec_bytes, vec_writable, vec_layout, VecWrites};

    /// So many words of RAM.
    ///
    /// # Errors
    ///
    /// Out of memory.
    pub fn new(alloc: Global, words: usize) -> Result<Ram, AllocError>
        ensures { IfOk result (λ ram. ram.mem.items ≡ replicate words 0) }
    {
        let words = ZeroWords::new(alloc, words)?;
        Ok(Ram { words })
    }

    /// The `size` bytes at a place from where RAM begins.
    #[inline(always)]
    fn get(&mut self, place: u32, size: MemAccessSize) -> Option<u32>
        requires { place % width size ≡ 0 }
        ensures value { result ≡ little_endian (vec_bytes self.old) place (width size) }
        ensures kept { self.new ≡ self.old }
    {
        if let Some(value) = self.words.get(place, size) {
            return Some(value);
        }
        if ((place / 4) as usize) < self.words.room {
            Some(0)
        } else {
            None
        }
    }

    /// Writes to a place from where RAM begins.
    #[inline(always)]
    fn put(&mut self, place: u32, size: MemAccessSize, value: u32) -> bool
        requires { place % width size ≡ 0 }
        ensures laws { Writes vec_bytes vec_writable vec_layout
            self.old self.new place (width size) value result }
        ensures did { VecWrites self.old place size value self.new result }
        ensures refused { OnFalse result (self.new ≡ self.old) }
    {
        if self.words.put(place, size, value) {
            return true;
        }
        self.put_past(place, size, value)
    }

    /// Writes to a word that is not there yet.
    #[cold]
    #[inline(never)]
    fn put_past(&mut self, place: u32, size: MemAccessSize, value: u32) -> bool
        requires { place % width size ≡ 0 }
        ensures laws { Writes vec_bytes vec_writable vec_layout
            self.old self.new place (width size) value result }
        ensures did { VecWrites self.old place size value self.new result }
        ensures refused { OnFalse result (self.new ≡ self.old) }
    {
        let index = (place / 4) as usize;
        if index >= self.words.room {
            return false;
        }
        self.words.grow(index);
        self.words.put(place, size, value)
    }
}

impl Memory for Ram {
    ghost use Rattle.rrs_memory.specs.VecBytes.{vec_layout, vec_reads};
    ghost use Rattle.rrs_board.specs.Registers.{ram_bytes, ram_writable, RamWrites};

    ghost bytes = { ram_bytes };

    ghost writable = { ram_writable };

    ghost layout = { vec_layout };

    ghost reads = { vec_reads };

    ghost writes = { RamWrites };

    #[inline(always)]
    fn read_mem(&mut self, addr: u32, size: MemAccessSize) -> Option<u32> {
        if addr < RAM_START {
            return None;
        }
        self.get(addr - RAM_START, size)
    }

    #[inline(always)]
    fn write_mem(&mut self, addr: u32, size: MemAccessSize, store_data: u32) -> bool {
        if addr < RAM_START {
            return false;
        }
        self.put(addr - RAM_START, size, store_data)
    }

    /// They are, at each address, as those of a `VecMemory`.
    #[inline(always)]
    fn reads_are_pure(&self, addr: u32) -> bool {
        true
    }
}

/// RAM from 0x80000000 on, and the registers of the devices below it.
#[derive(Drop)]
pub struct BoardMemory {
    /// RAM, and its words that are decoded.
    pub ram: CachedMemory<Ram, DECODED_WORDS>,
    /// The devices.
    pub devices: Devices,
}

impl Memory for BoardMemory {
    ghost use Rattle.rrs_board.specs.Registers.{board_bytes, board_writable, board_layout, BoardReads, BoardWrites};

    ghost bytes = { board_bytes };

    ghost writable = { board_writable };

    ghost layout = { board_layout };

    ghost reads = { BoardReads };

    ghost writes = { BoardWrites };

    #[inline(always)]
    fn read_mem(&mut self, addr: u32, size: MemAccessSize) -> Option<u32> {
        if addr < RAM_START {
            self.devices.read_mem(addr, size)
        } else {
            self.ram.read_mem(addr, size)
        }
    }

    #[inline(always)]
    fn write_mem(&mut self, addr: u32, size: MemAccessSize, store_data: u32) -> bool {
        if addr < RAM_START {
            self.devices.write_mem(addr, size, store_data)
        } else {
            self.ram.write_mem(addr, size, store_data)
        }
    }

    /// Those of RAM are. A device answers to a read.
    #[inline(always)]
    fn reads_are_pure(&self, addr: u32) -> bool {
        addr >= RAM_START
    }
}
