//! A memory under marks, one a page.

ghost use Rattle.std.specs.Prelude.{◌≡◌};
ghost use Rattle.rrs_exec.specs.Protection.{mark_at};

use crate::marks::Protection;
use crate::process_memory::ProcessMemory;
use rrs_memory::{MemAccessSize, Memory};

/// The memory of a process, of which each page of 4,096 bytes has a mark: whether it is mapped, and
/// whether it is writable.
///
/// Page p has the addresses from 4,096 p on, and its mark has the index p. A page past the last
/// mark is not mapped. An access that its page allows is one of the memory, and another is refused.
#[derive(Drop)]
pub struct ProtectedMemory {
    /// The memory.
    pub memory: ProcessMemory,
    /// The marks.
    pub marks: Vec<Protection>,
}

/// The mark of the page of an address.
#[inline(always)]
fn mark_at(marks: &[Protection], address: u32) -> Protection
    ensures { result ≡ mark_at marks.now address }
{
    let page = (address >> 12) as usize;
    if page < marks.len() {
        marks[page]
    } else {
        Protection::Unmapped
    }
}

impl Memory for ProtectedMemory {
    ghost use Rattle.rrs_exec.specs.Protection.{protected_bytes, protected_writable, protected_layout, protected_reads, ProtectedWrites};

    ghost bytes = { protected_bytes };

    ghost writable = { protected_writable };

    ghost layout = { protected_layout };

    ghost reads = { protected_reads };

    ghost writes = { ProtectedWrites };

    #[inline(always)]
    fn read_mem(&mut self, addr: u32, size: MemAccessSize) -> Option<u32> {
        match mark_at(&self.marks, addr) {
            Protection::Unmapped => None,
            Protection::ReadOnly | Protection::Writable => self.memory.read_mem(addr, size),
        }
    }

    #[inline(always)]
    fn write_mem(&mut self, addr: u32, size: MemAccessSize, store_data: u32) -> bool {
        match mark_at(&self.marks, addr) {
            Protection::Writable => self.memory.write_mem(addr, size, store_data),
            Protection::Unmapped | Protection::ReadOnly => false,
        }
    }

    /// They are, at each address, as those of a `VecMemory`.
    #[inline(always)]
    fn reads_are_pure(&self, addr: u32) -> bool {
        true
    }
}
