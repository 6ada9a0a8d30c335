//! The memory of a process: words from its first address upward, and words from its end downward.

ghost use Rattle.std.specs.Prelude.{◌≡◌, ◌+◌, ◌-◌, ◌*◌, ◌/◌, ◌%◌, ◌^◌, ◌<◌, ◌≤◌, ℕ, IfOk, true};
ghost use Rattle.std.specs.Bool.{OnTrue, OnFalse};
ghost use Rattle.rrs_memory.specs.Bytes.{width};
ghost use Rattle.rrs_exec.specs.ProcessPlaces.{distance, distance_below};

use crate::layout::Layout;
use rrs_fast::ZeroWords;
use rrs_memory::{MemAccessSize, Memory};
use std::alloc::{AllocError, Global};

/// The memory of a process. All of its bytes are 0 until they are written, and take no memory of
/// the host until then.
///
/// It has two parts, since a program begins at the first address and its stack at the last: words
/// from `base` upward, for the program and its heap, and words from `end` downward, for the stack,
/// of which the last is at `split`. A write appends the zeros before it to one of the two. Room for
/// them was reserved, so no access allocates.
#[derive(Drop)]
pub struct ProcessMemory {
    /// The words from `base` upward.
    pub low: ZeroWords,
    /// The words from `end` downward.
    pub high: ZeroWords,
    /// The first address.
    pub base: u32,
    /// The first address of the upper part.
    pub split: u32,
    /// The address after the last.
    pub end: u32,
    ghost lower: { base + 4 * low.room ≡ split },
    ghost upper: { split + 4 * high.room ≡ end },
    ghost aligned: { base % 4 ≡ 0 },
    ghost top: { end < 2 ^ 32 },
}

/// How far an address is from a base, modulo 2^32.
#[inline(always)]
fn distance(base: u32, address: u32) -> u32
    requires { base % 4 ≡ 0 }
    ensures { result ≡ distance base address }
{
    let distance = address.wrapping_sub(base);
    distance - distance % 4 + address % 4
}

/// Where the byte at an address is in words from an end downward, modulo 2^32.
#[inline(always)]
fn distance_below(end: u32, address: u32) -> u32
    requires { end % 4 ≡ 0 }
    ensures { result ≡ distance_below end address }
{
    let distance = end.wrapping_sub(1).wrapping_sub(address);
    distance - distance % 4 + address % 4
}

impl ProcessMemory {
    ghost use Rattle.rrs_memory.specs.Bytes.{Writes};
    ghost use Rattle.rrs_exec.specs.ProcessMemories.{process_bytes, process_writable, process_layout, zeros_between, lies_between};

    /// The memory of a process that has its memory there: all of it is 0.
    ///
    /// # Errors
    ///
    /// Out of memory.
    pub fn new(alloc: Global, layout: &Layout) -> Result<ProcessMemory, AllocError>
        requires ordered { layout.now.base ≤ layout.now.stack_start }
        requires stack { layout.now.stack_start ≤ layout.now.end }
        requires base { layout.now.base % 4 ≡ 0 }
        requires split { layout.now.stack_start % 4 ≡ 0 }
        requires end { layout.now.end % 4 ≡ 0 }
        ensures zeros { IfOk result (λ memory.
            process_bytes memory ≡ zeros_between layout.now.base layout.now.end) }
        ensures writable { IfOk result (λ memory.
            process_writable memory ≡ lies_between layout.now.base layout.now.end) }
    {
        let low = ZeroWords::new(alloc, ((layout.stack_start - layout.base) / 4) as usize)?;
        let high = ZeroWords::new(alloc, ((layout.end - layout.stack_start) / 4) as usize)?;
        Ok(ProcessMemory {
            low,
            high,
            base: layout.base,
            split: layout.stack_start,
            end: layout.end,
        })
    }

    /// Whether an address lies in it.
    #[inline(always)]
    fn has(&self, address: u32) -> bool
        ensures { result ≡ lies_between self.now.base self.now.end address }
    {
        self.base <= address && address < self.end
    }

    /// Writes to a word that is there, and returns whether it is.
    #[inline(always)]
    fn put(&mut self, addr: u32, size: MemAccessSize, value: u32) -> bool
        requires { addr % width size ≡ 0 }
        ensures written { OnTrue result (Writes process_bytes process_writable process_layout
            self.old self.new addr (width size) value true) }
        ensures refused { OnFalse result (self.new ≡ self.old) }
    {
        if self.low.put(distance(self.base, addr), size, value) {
            return true;
        }
        self.high.put(distance_below(self.end, addr), size, value)
    }

    /// Writes to a word that is not there yet.
    #[cold]
    #[inline(never)]
    fn write_past(&mut self, addr: u32, size: MemAccessSize, value: u32) -> bool
        requires { addr % width size ≡ 0 }
        ensures laws { Writes process_bytes process_writable process_layout
            self.old self.new addr (width size) value result }
        ensures refused { OnFalse result (self.new ≡ self.old) }
    {
        if !self.has(addr) {
            return false;
        }
        if addr < self.split {
            let place = distance(self.base, addr);
            self.low.grow((place / 4) as usize);
            self.low.put(place, size, value)
        } else {
            let place = distance_below(self.end, addr);
            self.high.grow((place / 4) as usize);
            self.high.put(place, size, value)
        }
    }
}

impl Memory for ProcessMemory {
    ghost use Rattle.rrs_exec.specs.ProcessMemories.{process_bytes, process_writable, process_layout, process_reads, ProcessWrites};

    ghost bytes = { process_bytes };

    ghost writable = { process_writable };

    ghost layout = { process_layout };

    ghost reads = { process_reads };

    ghost writes = { ProcessWrites };

    #[inline(always)]
    fn read_mem(&mut self, addr: u32, size: MemAccessSize) -> Option<u32> {
        if let Some(value) = self.low.get(distance(self.base, addr), size) {
            return Some(value);
        }
        if let Some(value) = self.high.get(distance_below(self.end, addr), size) {
            return Some(value);
        }
        if self.has(addr) { Some(0) } else { None }
    }

    #[inline(always)]
    fn write_mem(&mut self, addr: u32, size: MemAccessSize, store_data: u32) -> bool {
        if self.put(addr, size, store_data) {
            return true;
        }
        self.write_past(addr, size, store_data)
    }

    /// They are, at each address, as those of a `VecMemory`.
    #[inline(always)]
    fn reads_are_pure(&self, addr: u32) -> bool {
        true
    }
}
