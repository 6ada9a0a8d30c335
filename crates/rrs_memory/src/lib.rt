//! Memories for a RISC-V instruction set simulator.
//!
//! A [Memory] is a map from addresses to bytes, which a simulator reads and writes; `memories` has
//! memories and a loader. `rrs_lib` passes all of this on.
//!
//! What a read and a write of any memory do is written in `specs/Bytes.antt`, and what each memory
//! here keeps in the other modules of `specs/`. The contracts of the calls cite these definitions.

#![tactic(auto)]

pub mod memories;

ghost use Rattle.std.specs.Prelude.{◌≡◌, ◌↔◌, ℕ, ◌%◌, List, Bool, Option, IsTrue};
ghost use Rattle.std.specs.Bool.{OnTrue};
ghost use Rattle.rrs_memory.specs.Bytes.{width, Reads, Writes, ReadsArePure};

/// The sizes of memory accesses.
#[derive(Debug, PartialEq, Clone, Copy)]
pub enum MemAccessSize {
    /// 1 byte.
    Byte,
    /// 2 bytes.
    HalfWord,
    /// 4 bytes.
    Word,
}

impl MemAccessSize {
    /// Whether an address is a multiple of the size: the condition of both calls of a [Memory].
    #[inline(always)]
    pub fn is_aligned(self, address: u32) -> bool
        ensures { IsTrue result ↔ (address % width self ≡ 0) }
    {
        match self {
            MemAccessSize::Byte => true,
            MemAccessSize::HalfWord => address & 1 == 0,
            MemAccessSize::Word => address & 3 == 0,
        }
    }
}

/// A memory of bytes, little-endian.
///
/// An implementation says which addresses are mapped, with which byte, which of them are writable,
/// and its layout, a list of numbers of its own choice that no access changes: for a space of
/// regions it lists these, so that a caller knows after any number of accesses which they are. Both
/// calls are proved to keep the laws that their clauses state.
///
/// A device may keep other state beside these bytes. What a call does to all of its value it says
/// by two relations, `reads` and `writes`. One that has nothing to say beside the laws answers
/// `Unit {0}` to both.
pub trait Memory {
    ghost use Rattle.rrs_memory.specs.declared.MemAccessSize.{MemAccessSize};

    /// The byte at each address, or `None` where none is mapped.
    ghost bytes: { Self → ℕ → Option ℕ };

    /// Whether an address is writable.
    ghost writable: { Self → ℕ → Bool };

    /// What never changes by an access.
    ghost layout: { Self → List ℕ };

    /// What a read does to the whole value: the memory before, the address, the size, the memory
    /// after, and the answer.
    ghost reads: { Self → ℕ → MemAccessSize → Self → Option ℕ → Type 0 };

    /// What a write does to the whole value: the memory before, the address, the size, the value
    /// that it was handed, the memory after, and the answer.
    ghost writes: { Self → ℕ → MemAccessSize → ℕ → Self → Bool → Type 0 };

    /// Reads `size` bytes from `addr`, which is a multiple of the size.
    ///
    /// Returns their little-endian value, or `None` exactly where one of them is not mapped. No
    /// byte changes.
    fn read_mem(&mut self, addr: u32, size: MemAccessSize) -> Option<u32>
        requires { addr % width size ≡ 0 }
        ensures laws { Reads bytes writable layout self.old self.new addr (width size) result }
        ensures did { reads self.old addr size self.new result };

    /// Writes the low `size` bytes of `store_data` to `addr`, which is a multiple of the size.
    ///
    /// Returns `true` exactly where all of them are writable. Where it returns `false` no byte
    /// changes.
    fn write_mem(&mut self, addr: u32, size: MemAccessSize, store_data: u32) -> bool
        requires { addr % width size ≡ 0 }
        ensures laws { Writes bytes writable layout
            self.old self.new addr (width size) store_data result }
        ensures did { writes self.old addr size store_data self.new result };

    /// Whether a read at an address does nothing, by the relation `reads`, now and after any
    /// accesses: so one may be left out. A run over a cache of `rrs_fast` leaves out the fetch of a
    /// word that it knows.
    ///
    /// `false` is always right, and is the default.
    fn reads_are_pure(&self, addr: u32) -> bool
        ensures pure { OnTrue result (ReadsArePure bytes reads writes self.now addr) }
    {
        false
    }
}
