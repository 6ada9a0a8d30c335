//! A memory that keeps what the latest write replaced.

ghost use Rattle.std.specs.Prelude.{◌≡◌, ◌%◌, None};
ghost use Rattle.std.specs.Bool.{OnTrue};
ghost use Rattle.rrs_lib.specs.Bytes.{width, store, Writes};
ghost use Rattle.rrs_history.specs.Noting.{ReadsAndWrites};

use rrs_lib::{MemAccessSize, Memory};

/// Reads the bytes that a write is to replace, and writes. It returns whether the write was
/// granted, and the bytes, or 0 where they can't be read.
#[inline(always)]
pub(crate) fn write_noted<M: Memory>(
    mem: &mut M,
    addr: u32,
    size: MemAccessSize,
    store_data: u32,
) -> (bool, u32)
    requires { addr % width size ≡ 0 }
    ensures laws { Writes M.bytes M.writable M.layout
        mem.old mem.new addr (width size) store_data result.0 }
    ensures did { ReadsAndWrites M.bytes M.reads M.writes
        mem.old addr size store_data mem.new result.0 }
    ensures back { OnTrue result.0
        (store (M.bytes mem.new) addr (width size) result.1 ≡ M.bytes mem.old) }
{
    let before = mem.read_mem(addr, size).unwrap_or(0);
    let granted = mem.write_mem(addr, size, store_data);
    (granted, before)
}

/// The bytes that a write replaced.
#[derive(Clone, Copy)]
pub(crate) struct Replaced {
    /// The address of the first one.
    pub(crate) address: u32,
    /// What they were, little-endian.
    pub(crate) bytes: u32,
    /// How many there are; `None` where nothing was written.
    pub(crate) size: Option<MemAccessSize>,
}

impl Replaced {
    /// Nothing.
    #[inline]
    pub(crate) fn nothing() -> Replaced
        ensures { result.size ≡ None }
    {
        Replaced {
            address: 0,
            bytes: 0,
            size: None,
        }
    }
}

/// A memory of any type, lent for a step, that keeps what the latest write that was granted
/// replaced.
///
/// Its bytes and what is writable are those of the memory that is lent. A read is one read of that
/// memory. A write is a read of the bytes that it is to replace, and the write.
#[derive(Drop)]
pub(crate) struct NotingMemory<'a, M: Memory> {
    /// The memory.
    pub(crate) memory: &'a mut M,
    /// What the latest write replaced.
    pub(crate) replaced: Replaced,
}

impl<'a, M: Memory> Memory for NotingMemory<'a, M> {
    ghost use Rattle.rrs_history.specs.Noting.{noting_reads, noting_writes};

    ghost bytes = { λ m. M.bytes m.memory.now };

    ghost writable = { λ m. M.writable m.memory.now };

    ghost layout = { λ m. M.layout m.memory.now };

    ghost reads = { noting_reads M.bytes M.writable M.reads };

    ghost writes = { noting_writes M.bytes M.writable M.reads M.writes };

    #[inline(always)]
    fn read_mem(&mut self, addr: u32, size: MemAccessSize) -> Option<u32> {
        self.memory.read_mem(addr, size)
    }

    #[inline(always)]
    fn write_mem(&mut self, addr: u32, size: MemAccessSize, store_data: u32) -> bool {
        let (granted, bytes) = write_noted(self.memory, addr, size, store_data);
        if granted {
            self.replaced = Replaced {
                address: addr,
                bytes,
                size: Some(size),
            };
        }
        granted
    }
}
