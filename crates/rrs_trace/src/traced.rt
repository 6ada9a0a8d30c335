//! A memory that keeps the accesses of a step that are no fetch.

ghost use Rattle.std.specs.Prelude.{◌≡◌, ◌%◌, true, None};
ghost use Rattle.rrs_lib.specs.Bytes.{width};
ghost use Rattle.rrs_lib.specs.Accesses.{Read, Write};
ghost use Rattle.rrs_trace.specs.Retired.{no_access, mask, log_of, followed};

use rrs_lib::{MemAccessSize, Memory};

/// A load or a store that was granted, or both for an AMO, or none: then all fields are 0.
///
/// Bit i of a mask is for the byte at `addr + i`.
#[derive(Clone, Copy, Debug, PartialEq)]
pub struct MemoryAccess {
    /// The address of the first byte.
    pub addr: u32,
    /// A bit for each byte that was read.
    pub rmask: u8,
    /// A bit for each byte that was written.
    pub wmask: u8,
    /// The little-endian value that was read, not extended.
    pub rdata: u32,
    /// The little-endian value that was written: of a byte or a half-word the low bits alone.
    pub wdata: u32,
}

impl MemoryAccess {
    /// No access.
    #[inline]
    pub fn none() -> MemoryAccess
        ensures { result ≡ no_access }
    {
        MemoryAccess {
            addr: 0,
            rmask: 0,
            wmask: 0,
            rdata: 0,
            wdata: 0,
        }
    }
}

/// A bit for each byte of an access.
#[inline]
fn mask_of(size: MemAccessSize) -> u8
    ensures { result ≡ mask size }
{
    match size {
        MemAccessSize::Byte => 0b1,
        MemAccessSize::HalfWord => 0b11,
        MemAccessSize::Word => 0b1111,
    }
}

/// A read, or none where it was refused.
#[inline]
fn read_access(addr: u32, size: MemAccessSize, answer: Option<u32>) -> MemoryAccess
    ensures { result ≡ log_of (Read addr size answer) }
{
    match answer {
        Some(rdata) => MemoryAccess {
            addr,
            rmask: mask_of(size),
            wmask: 0,
            rdata,
            wdata: 0,
        },
        None => MemoryAccess::none(),
    }
}

/// A write with what was read before it, or none where it was refused.
#[inline]
fn write_access(
    before: MemoryAccess,
    addr: u32,
    size: MemAccessSize,
    value: u32,
    answer: bool,
) -> MemoryAccess
    ensures { result ≡ followed before (Write addr size value answer) }
{
    if !answer {
        return MemoryAccess::none();
    }
    let wdata = match size {
        MemAccessSize::Byte => value % 256,
        MemAccessSize::HalfWord => value % 65536,
        MemAccessSize::Word => value,
    };
    MemoryAccess {
        addr,
        rmask: before.rmask,
        wmask: mask_of(size),
        rdata: before.rdata,
        wdata,
    }
}

/// A memory of any type, lent for a step, that keeps what the fetch read and what is accessed after
/// it.
///
/// Its bytes and what is writable are those of the memory that is lent, and each call is one call
/// of that memory, with its answer.
#[derive(Drop)]
pub struct TracedMemory<'a, M: Memory> {
    /// The memory.
    pub memory: &'a mut M,
    /// Whether the next access is the fetch.
    pub is_fetch: bool,
    /// What the fetch read, or `None` where it was refused or there was none.
    pub insn: Option<u32>,
    /// The latest access after the fetch. A write has what was read before it too.
    pub access: MemoryAccess,
}

impl<'a, M: Memory> Memory for TracedMemory<'a, M> {
    ghost use Rattle.rrs_trace.specs.Traced.{traced_reads, traced_writes};

    ghost bytes = { λ m. M.bytes m.memory.now };

    ghost writable = { λ m. M.writable m.memory.now };

    ghost layout = { λ m. M.layout m.memory.now };

    ghost reads = { traced_reads M.reads };

    ghost writes = { traced_writes M.writes };

    #[inline(always)]
    fn read_mem(&mut self, addr: u32, size: MemAccessSize) -> Option<u32> {
        let answer = self.memory.read_mem(addr, size);
        if self.is_fetch {
            self.is_fetch = false;
            self.insn = answer;
        } else {
            self.access = read_access(addr, size, answer);
        }
        answer
    }

    #[inline(always)]
    fn write_mem(&mut self, addr: u32, size: MemAccessSize, store_data: u32) -> bool {
        let answer = self.memory.write_mem(addr, size, store_data);
        if self.is_fetch {
            self.is_fetch = false;
            self.insn = None;
        } else {
            self.access = write_access(self.access, addr, size, store_data, answer);
        }
        answer
    }
}
