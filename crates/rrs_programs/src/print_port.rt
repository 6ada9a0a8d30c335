//! A port that prints: a device of one byte, with a log of what is written to it.

ghost use Rattle.std.specs.Prelude.{◌≡◌, ◌%◌, ◌^◌, ◌==◌, ◌↔◌, [], IfOk, IsTrue, vec_capacity};
ghost use Rattle.std.specs.Bool.{OnTrue, OnFalse};
ghost use Rattle.rrs_lib.specs.Bytes.{width, Reads, Writes};
ghost use Rattle.rrs_programs.specs.Ports.{port_bytes, port_writable, port_layout, port_reads, PortWrites, Takes};

use rrs_lib::memories::VecMemory;
use rrs_lib::{MemAccessSize, Memory};
use std::alloc::{AllocError, Global};

/// A port of one byte at address 0, which logs the bytes that are written to it.
///
/// What was written last reads back. The log has room for as many bytes as [PrintPort::new] was
/// asked for, and no access changes that. A byte that finds no room is counted, and not logged:
/// what is writable never changes by an access, so the write can't be refused.
#[derive(Drop)]
pub struct PrintPort {
    /// The byte that was written last, and 0 before the first.
    pub last: u8,
    /// The bytes that were written, in their order, as far as there was room.
    pub log: Vec<u8>,
    /// How many bytes found no room. A count that is `u64::MAX` stays there.
    pub lost: u64,
}

impl PrintPort {
    /// A port with room for as many bytes in its log, to which nothing was written.
    ///
    /// # Errors
    ///
    /// There is no memory for the log.
    pub fn new(alloc: Global, room: usize) -> Result<PrintPort, AllocError>
        ensures last { IfOk result (λ port. port.last ≡ 0) }
        ensures log { IfOk result (λ port. port.log.items ≡ []) }
        ensures room { IfOk result (λ port. vec_capacity port.log ≡ room) }
        ensures lost { IfOk result (λ port. port.lost ≡ 0) }
    {
        Ok(PrintPort {
            last: 0,
            log: Vec::with_capacity(alloc, room)?,
            lost: 0,
        })
    }

    /// Takes a byte: it reads back, and it is logged or counted.
    fn take(&mut self, byte: u8)
        ensures { Takes self.old byte self.new }
    {
        if self.log.len() < self.log.capacity() {
            self.log.push_reserved(byte);
        } else {
            self.lost = self.lost.saturating_add(1);
        }
        self.last = byte;
    }

    /// Takes the low byte of a value that is written to address 0, and returns whether it was.
    fn write_byte(&mut self, addr: u32, value: u32) -> bool
        ensures answer { IsTrue result ↔ (addr ≡ 0) }
        ensures last { OnTrue result (self.new.last ≡ value % 2 ^ 8) }
        ensures refused { OnFalse result (self.new ≡ self.old) }
        ensures room_kept { vec_capacity self.new.log ≡ vec_capacity self.old.log }
        ensures did { PortWrites self.old addr MemAccessSize.Byte value self.new result }
    {
        if addr != 0 {
            return false;
        }
        self.take((value & 0xff) as u8);
        true
    }
}

impl Memory for PrintPort {
    ghost bytes = { port_bytes };

    ghost writable = { port_writable };

    ghost layout = { port_layout };

    ghost reads = { port_reads };

    ghost writes = { PortWrites };

    fn read_mem(&mut self, addr: u32, size: MemAccessSize) -> Option<u32>
        requires { addr % width size ≡ 0 }
        ensures laws { Reads port_bytes port_writable port_layout
            self.old self.new addr (width size) result }
        ensures did { port_reads self.old addr size self.new result }
    {
        let last = self.last;
        match size {
            MemAccessSize::Byte => (addr == 0).then_some(u32::from(last)),
            MemAccessSize::HalfWord | MemAccessSize::Word => None,
        }
    }

    fn write_mem(&mut self, addr: u32, size: MemAccessSize, store_data: u32) -> bool
        requires { addr % width size ≡ 0 }
        ensures laws { Writes port_bytes port_writable port_layout
            self.old self.new addr (width size) store_data result }
        ensures did { PortWrites self.old addr size store_data self.new result }
    {
        let _last = self.last;
        match size {
            MemAccessSize::Byte => self.write_byte(addr, store_data),
            MemAccessSize::HalfWord | MemAccessSize::Word => false,
        }
    }
}

/// A memory that is one of two kinds, so that a space may have regions of both: words, or a port.
#[derive(Drop)]
pub enum RamOrPort {
    /// Words, all of them writable.
    Ram(VecMemory),
    /// A port.
    Port(PrintPort),
}

impl Memory for RamOrPort {
    ghost use Rattle.rrs_programs.specs.Ports.{part_bytes, part_writable, part_layout, part_reads, part_writes};

    ghost bytes = { part_bytes };

    ghost writable = { part_writable };

    ghost layout = { part_layout };

    ghost reads = { part_reads };

    ghost writes = { part_writes };

    fn read_mem(&mut self, addr: u32, size: MemAccessSize) -> Option<u32> {
        match self {
            RamOrPort::Ram(ram) => ram.read_mem(addr, size),
            RamOrPort::Port(port) => port.read_mem(addr, size),
        }
    }

    fn write_mem(&mut self, addr: u32, size: MemAccessSize, store_data: u32) -> bool {
        match self {
            RamOrPort::Ram(ram) => ram.write_mem(addr, size, store_data),
            RamOrPort::Port(port) => port.write_mem(addr, size, store_data),
        }
    }

    /// They are, of both kinds: a read leaves the whole memory.
    fn reads_are_pure(&self, addr: u32) -> bool {
        true
    }
}
