//! A memory behind a box.

ghost use Rattle.std.specs.Prelude.{◌≡◌, ◌+◌};

use crate::{MemAccessSize, Memory};

/// A memory of any type, behind a box that the caller made.
#[derive(Drop)]
pub struct BoxedMemory {
    /// The memory.
    pub memory: Box<dyn Memory + Drop>,
}

impl Memory for BoxedMemory {
    ghost bytes = { λ m. (Memory-box m.memory).bytes m.memory.value };

    ghost writable = { λ m. (Memory-box m.memory).writable m.memory.value };

    ghost layout = { λ m. (Memory-box m.memory).layout m.memory.value };

    ghost reads = { λ old address size new answer.
        (value : _)
        × (Memory-box old.memory).reads old.memory.value address size value answer
        × (new.memory ≡ record old.memory { value = value }) };

    ghost writes = { λ old address size stored new answer.
        (value : _)
        × (Memory-box old.memory).writes old.memory.value address size stored value answer
        × (new.memory ≡ record old.memory { value = value }) };

    #[inline]
    fn read_mem(&mut self, addr: u32, size: MemAccessSize) -> Option<u32> {
        self.memory.read_mem(addr, size)
    }

    #[inline]
    fn write_mem(&mut self, addr: u32, size: MemAccessSize, store_data: u32) -> bool {
        self.memory.write_mem(addr, size, store_data)
    }

    #[inline]
    fn reads_are_pure(&self, addr: u32) -> bool {
        self.memory.reads_are_pure(addr)
    }
}
