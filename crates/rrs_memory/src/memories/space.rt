//! An address space of memory regions.

ghost use Rattle.std.specs.Prelude.{◌≡◌, ◌↔◌, ℕ, ◌+◌, ◌-◌, ◌%◌, ◌^◌, ◌<◌, ◌≤◌, false};
ghost use Rattle.std.specs.Prelude.{[], ◌∷◌, ◌++◌, length, slice_index, map, All, Any, IsTrue, Err, IfOk, OnOk, OnErr};
ghost use Rattle.std.specs.Prelude.{◌*◌, None, MatchOption, option_copied, nat_lt, vec_len, vec_capacity};
ghost use Rattle.std.specs.Option.{option_copied_mut};
ghost use Rattle.std.specs.Bool.{OnTrue};
ghost use Rattle.std.specs.Borrow.{sem};
ghost use Rattle.rrs_memory.specs.Bytes.{width, Reads, Writes, ReadsArePure};
ghost use Rattle.rrs_memory.specs.Spaces.{space_bytes, space_writable, space_layout, bounds, serves};
ghost use Rattle.rrs_memory.specs.Spaces.{Overlaps, AreAligned, IsWordRegion, IsSpace, IsServedAt};
ghost use Rattle.rrs_memory.specs.Spaces.{memory_at, ServedBecomes, CountsCompared, ComparesSome, SpaceAccess};
ghost use Rattle.rrs_memory.specs.Spaces.{binary_digits};
ghost use Rattle.rrs_memory.specs.SpaceFields.{region_of, base_at, IsSearchOrder};

use crate::{MemAccessSize, Memory};
use std::alloc::{AllocError, Global};
use std::marker::Model;

/// Why a region was not added to a [MemorySpace].
#[derive(Debug, PartialEq, Drop)]
pub enum MemorySpaceError {
    /// It would overlap an existing region.
    RegionOverlap,
    /// Its base or its size is not a multiple of 4.
    Unaligned,
    /// There was no memory for it.
    OutOfMemory,
}

/// An address space of regions, each with a memory of its own.
///
/// An access goes to the region that serves its address, at the offset from that region's base.
/// Where no region serves the address, a read returns `None` and a write `false`.
///
/// A read or a write compares one region that served before, and where that does not serve the
/// address it finds its region by a binary search of their bases. It compares at most as many
/// regions as the number of all regions has binary digits, plus one.
#[derive(Drop)]
pub struct MemorySpace<M> {
    // In the order in which they were added.
    regions: Vec<MemoryRegion<M>>,
    // The indexes of the regions of size above 0, by their bases.
    by_base: Vec<usize>,
    // The index of the region that is compared first, or a number that is no region's.
    first: usize,
    // How many regions reads and writes have compared so far.
    looked_at: u64,
    // What `looked_at` was after the last search.
    searched_at: u64,
}

#[derive(Drop)]
struct MemoryRegion<M> {
    base: u32,
    size: u32,
    memory: M,
}

impl<M> Model for MemorySpace<M> {
    ghost use Rattle.std.specs.Prelude.{map};
    ghost use Rattle.rrs_memory.specs.Spaces.{Space, space_code, bounds, IsSpace};

    ghost Value = { Space M };

    ghost coded = { space_code M.code };

    ghost use Rattle.rrs_memory.specs.SpaceFields.{region_of, IsSearchOrder};

    ghost view = { λ s.
        record { regions = map region_of s.regions.items; looked_at = s.looked_at } };

    ghost invariant = { λ s. IsSpace (map region_of s.regions.items)
        × IsSearchOrder (map bounds (map region_of s.regions.items)) s.by_base.items };
}

impl<M: Memory> MemoryRegion<M> {
    ghost use Rattle.rrs_memory.specs.SpaceLends.{lends_inner};

    /// A region of this base and size over a memory.
    fn new(base: u32, size: u32, memory: M) -> Self
        ensures { result ≡ record { base = base; size = size; memory = memory } }
    {
        MemoryRegion { base, size, memory }
    }

    /// Whether a region of this base and size would overlap it. The sums are exact.
    #[inline]
    fn overlaps(&self, base: u32, size: u32) -> bool
        ensures { IsTrue result
            ↔ (self.now.base < base + size) × (base < self.now.base + self.now.size) }
    {
        u64::from(base) + u64::from(size) > u64::from(self.base)
            && u64::from(self.base) + u64::from(self.size) > u64::from(base)
    }

    /// Whether an address lies in it.
    #[inline]
    fn contains(&self, addr: u32) -> bool
        ensures { IsTrue result
            ↔ (self.now.base ≤ addr) × (addr < self.now.base + self.now.size) }
    {
        self.base <= addr && addr - self.base < self.size
    }

    /// Lends its memory.
    #[inline]
    fn memory_mut(&mut self) -> &mut M
        ensures* lends { sem 𝓛 (lends_inner M.row self.entry result) }
        ensures value { result.now ≡ self.old.memory }
    {
        &mut self.memory
    }

    /// Reads from its memory, at the offset of an address that lies in it.
    #[inline]
    fn read(&mut self, addr: u32, size: MemAccessSize) -> Option<u32>
        requires from { self.old.base ≤ addr }
        requires aligned { (addr - self.old.base) % width size ≡ 0 }
        ensures laws { Reads M.bytes M.writable M.layout
            self.old.memory self.new.memory (addr - self.old.base) (width size) result }
        ensures did { M.reads self.old.memory (addr - self.old.base) size self.new.memory result }
        ensures rest_kept { self.new ≡ record self.old { memory = self.new.memory } }
    {
        self.memory.read_mem(addr - self.base, size)
    }

    /// Writes to its memory, at the offset of an address that lies in it.
    #[inline]
    fn write(&mut self, addr: u32, size: MemAccessSize, store_data: u32) -> bool
        requires from { self.old.base ≤ addr }
        requires aligned { (addr - self.old.base) % width size ≡ 0 }
        ensures laws { Writes M.bytes M.writable M.layout
            self.old.memory self.new.memory (addr - self.old.base) (width size) store_data result }
        ensures did { M.writes
            self.old.memory (addr - self.old.base) size store_data self.new.memory result }
        ensures rest_kept { self.new ≡ record self.old { memory = self.new.memory } }
    {
        self.memory.write_mem(addr - self.base, size, store_data)
    }

    /// Whether reads of its memory are pure at the offset of an address that lies in it.
    fn reads_are_pure(&self, addr: u32) -> bool
        requires { self.now.base ≤ addr }
        ensures { OnTrue result (ReadsArePure M.bytes M.reads M.writes
            self.now.memory (addr - self.now.base)) }
    {
        self.memory.reads_are_pure(addr - self.base)
    }
}

/// Whether there is a region of this index, and it serves an address.
#[inline]
fn is_served_by<M: Memory>(regions: &[MemoryRegion<M>], index: usize, addr: u32) -> bool
    ensures { IsTrue result → IsServedAt (map region_of regions.now) addr index }
{
    index < regions.len() && regions[index].contains(addr)
}

/// How many regions have this index: one, or none.
fn count_of<M>(regions: &[MemoryRegion<M>], index: usize) -> u64
    ensures { result ≤ 1 }
{
    if index < regions.len() { 1 } else { 0 }
}

/// The index of the region that serves an address, and how many regions were compared to find it.
/// Where none serves it, so many were compared that halving rules out each other one.
#[inline]
fn find<M: Memory>(
    regions: &[MemoryRegion<M>],
    by_base: &[usize],
    addr: u32,
) -> (Option<usize>, u64)
    requires { IsSearchOrder (map bounds (map region_of regions.now)) by_base.now }
    ensures region { MatchOption result.0
        (All (λ r. serves r addr ≡ false) (map region_of regions.now))
        (IsServedAt (map region_of regions.now) addr) }
    ensures few { result.1 ≤ binary_digits (length regions.now) }
    ensures fewer { result.1 ≤ length by_base.now }
    ensures some { 0 < length by_base.now → 0 < result.1 }
    ensures ruled_out { result.0 ≡ None → length by_base.now + 2 ≤ 2 * 2 ^ result.1 }
{
    let mut low = 0;
    let mut high = by_base.len();
    let mut compared = 0;
    while low < high {
        let middle = low + (high - low - 1) / 2;
        let index = by_base[middle];
        let region = &regions[index];
        compared += 1;
        if region.contains(addr) {
            return (Some(index), compared);
        }
        if region.base <= addr {
            low = middle + 1;
        } else {
            high = middle;
        }
    }
    (None, compared)
}

/// Appends a region to a list that has room for it.
fn push_reserved<M: Drop>(regions: &mut Vec<MemoryRegion<M>>, region: MemoryRegion<M>)
    requires { vec_len regions.old < vec_capacity regions.old }
    ensures { regions.new.items ≡ regions.old.items ++ region ∷ [] }
{
    regions.push(region).unwrap();
}

/// Where in the order a region of this base goes.
fn place_of<M>(regions: &[MemoryRegion<M>], by_base: &[usize], base: u32) -> usize
    requires { IsSearchOrder (map bounds (map region_of regions.now)) by_base.now }
    ensures within { result ≤ length by_base.now }
    ensures before { (j : ℕ) → j < result →
        base_at (map bounds (map region_of regions.now)) (slice_index by_base.now j) ≤ base }
    ensures after { (j : ℕ) → result ≤ j → j < length by_base.now →
        base < base_at (map bounds (map region_of regions.now)) (slice_index by_base.now j) }
{
    let mut low = 0;
    let mut high = by_base.len();
    while low < high {
        let middle = low + (high - low) / 2;
        if regions[by_base[middle]].base <= base {
            low = middle + 1;
        } else {
            high = middle;
        }
    }
    low
}

impl<M: Memory> MemorySpace<M> {
    ghost use Rattle.rrs_memory.specs.SpaceLends.{lends_memory, lends_memory_if};

    /// A space with no regions.
    pub fn new(alloc: Global) -> Self
        ensures { result ≡ record { regions = []; looked_at = 0 } }
    {
        MemorySpace {
            regions: Vec::new(alloc),
            by_base: Vec::new(alloc),
            first: usize::MAX,
            looked_at: 0,
            searched_at: 0,
        }
    }

    /// How many regions its reads and writes have compared so far.
    ///
    /// It stays at 2^64 - 1 once it is there. No other call adds to it.
    pub fn regions_looked_at(&self) -> u64
        ensures { result ≡ self.now.looked_at }
    {
        self.looked_at
    }

    /// Adds a region, and returns its index: the number of regions that were there.
    ///
    /// The region has `size` bytes from `base` on. Its memory's address 0 lies at `base`; past the
    /// region's size that memory is hidden, and past the memory accesses fail. A region that passes
    /// 2^32 serves up to address 0xffffffff. An empty region serves nothing.
    ///
    /// # Errors
    ///
    /// Tested in this order: `Unaligned` where `base` or `size` is not a multiple of 4;
    /// `RegionOverlap` where the region would overlap one of the space; `OutOfMemory` where there
    /// is no memory for it. After each of them the space is as before, and the memory that was
    /// passed is dropped.
    ///
    /// # Examples
    ///
    /// ```
    /// let mut space = MemorySpace::new(alloc);
    /// let words = VecMemory::new(vec![in alloc; 5, 7]?);
    /// assert_eq!(rt; space.add_memory(0x100, 8, words), Ok(0));
    /// assert_eq!(rt; space.read_mem(0x104, MemAccessSize::Word), Some(7));
    /// assert_eq!(rt; space.read_mem(0x108, MemAccessSize::Word), None);
    /// let words = VecMemory::new(vec![in alloc; 9]?);
    /// let refused = Err(MemorySpaceError::RegionOverlap);
    /// assert_eq!(rt; space.add_memory(0x104, 4, words), refused);
    /// ```
    pub fn add_memory(&mut self, base: u32, size: u32, memory: M) -> Result<usize, MemorySpaceError>
    where
        M: Drop,
        ensures unaligned { (result ≡ Err MemorySpaceError.Unaligned)
            ↔ (AreAligned base size → ⊥) }
        ensures overlap { (result ≡ Err MemorySpaceError.RegionOverlap)
            ↔ (AreAligned base size × Any (Overlaps base size) self.old.regions) }
        ensures ok { IfOk result (λ i. (i ≡ length self.old.regions)
            × (self.new.regions
            ≡ self.old.regions ++ record { base = base; size = size; memory = memory } ∷ [])) }
        ensures accepted { OnOk result (AreAligned base size
            × All (λ r. Overlaps base size r → ⊥) self.old.regions) }
        ensures err { OnErr result (self.new ≡ self.old) }
        ensures space { IsSpace self.new.regions }
        ensures count_kept { self.new.looked_at ≡ self.old.looked_at }
    {
        let index = self.regions.len();
        if base % 4 != 0 || size % 4 != 0 {
            return Err(MemorySpaceError::Unaligned);
        }
        if self.overlaps(base, size) {
            return Err(MemorySpaceError::RegionOverlap);
        }
        match self.append(MemoryRegion::new(base, size, memory)) {
            Ok(()) => Ok(index),
            Err(_) => Err(MemorySpaceError::OutOfMemory),
        }
    }

    /// Whether a region of this base and size would overlap one of the space.
    fn overlaps(&self, base: u32, size: u32) -> bool
        ensures { IsTrue result ↔ Any (Overlaps base size) self.now.regions }
    {
        self.regions
            .iter()
            .any(|region| region.overlaps(base, size))
    }

    /// Appends a region that overlaps no other. Nothing changes where there is no memory for it.
    fn append(&mut self, region: MemoryRegion<M>) -> Result<(), AllocError>
    where
        M: Drop,
        requires word { IsWordRegion (region_of region) }
        requires apart { Any (Overlaps region.base region.size) self.old.regions → ⊥ }
        ensures ok { OnOk result (self.new.regions ≡ self.old.regions ++ region_of region ∷ []) }
        ensures err { OnErr result (self.new ≡ self.old) }
        ensures space { IsSpace self.new.regions }
        ensures count_kept { self.new.looked_at ≡ self.old.looked_at }
    {
        self.regions.reserve(1)?;
        if region.size > 0 {
            let place = place_of(&self.regions, &self.by_base, region.base);
            self.by_base.insert(place, self.regions.len())?;
        }
        push_reserved(&mut self.regions, region);
        Ok(())
    }

    /// The index of the region that serves an address, by a search, where the region that is compared
    /// first, if there is one, was compared. It counts the regions that were compared.
    ///
    /// Where two accesses in a row need a search, the region of the second is compared first from
    /// then on. So where a program's loads and stores go to another region than its fetches, the
    /// fetches need none.
    fn search(&mut self, addr: u32) -> Option<usize>
        ensures region { MatchOption result (All (λ r. serves r addr ≡ false) self.old.regions)
            (IsServedAt self.old.regions addr) }
        ensures space { IsSpace self.old.regions }
        ensures regions_kept { self.new.regions ≡ self.old.regions }
        ensures counts { CountsCompared self.old self.new }
        ensures compares { ComparesSome self.old self.new }
    {
        let (found, compared) = find(&self.regions, &self.by_base, addr);
        let before = count_of(&self.regions, self.first);
        self.first = if self.looked_at == self.searched_at {
            found.unwrap_or(self.first)
        } else {
            self.first
        };
        self.looked_at = self.looked_at.saturating_add(before + compared);
        self.searched_at = self.looked_at;
        found
    }

    /// Makes a read whose region is found by a search.
    #[inline(never)]
    fn read_by_search(&mut self, addr: u32, size: MemAccessSize) -> Option<u32>
        requires { addr % width size ≡ 0 }
        ensures laws { Reads
            (λ s. space_bytes M.bytes s.regions)
            (λ s. space_writable M.writable s.regions)
            (λ s. space_layout M.layout s.regions)
            self.old self.new addr (width size) result }
        ensures did { SpaceAccess addr self.old self.new
            (λ before offset after. M.reads before offset size after result) }
        ensures served { ServedBecomes addr self.old.regions self.new.regions
            (λ before offset after.
            Reads M.bytes M.writable M.layout before after offset (width size) result) }
        ensures compares { ComparesSome self.old self.new }
    {
        match self.search(addr) {
            Some(index) => self.regions[index].read(addr, size),
            None => None,
        }
    }

    /// Makes a write whose region is found by a search.
    #[inline(never)]
    fn write_by_search(&mut self, addr: u32, size: MemAccessSize, store_data: u32) -> bool
        requires { addr % width size ≡ 0 }
        ensures laws { Writes
            (λ s. space_bytes M.bytes s.regions)
            (λ s. space_writable M.writable s.regions)
            (λ s. space_layout M.layout s.regions)
            self.old self.new addr (width size) store_data result }
        ensures did { SpaceAccess addr self.old self.new
            (λ before offset after. M.writes before offset size store_data after result) }
        ensures served { ServedBecomes addr self.old.regions self.new.regions
            (λ before offset after. Writes M.bytes M.writable M.layout
            before after offset (width size) store_data result) }
        ensures compares { ComparesSome self.old self.new }
    {
        match self.search(addr) {
            Some(index) => self.regions[index].write(addr, size, store_data),
            None => false,
        }
    }

    /// The memory of the region of this index, in the order in which they were added.
    pub fn get_memory_ref(&self, index: usize) -> Option<&M>
        ensures value { option_copied result ≡ memory_at self.now.regions index }
        ensures space { IsSpace self.now.regions }
    {
        self.regions.get(index).map(|region| &region.memory)
    }

    /// The memory of the region of this index, for writing.
    ///
    /// What is written through the reference is the memory of that region from then on.
    pub fn get_memory_mut(&mut self, index: usize) -> Option<&mut M>
        ensures* writes_back { sem 𝓛 (lends_memory_if M.row self.entry index result) }
        ensures value { option_copied_mut result ≡ memory_at self.old.regions index }
    {
        if self.has_region(index) {
            Some(self.memory_mut(index))
        } else {
            None
        }
    }

    /// Whether there is a region of this index.
    fn has_region(&self, index: usize) -> bool
        ensures { result ≡ nat_lt index (length self.now.regions) }
    {
        index < self.regions.len()
    }

    fn memory_mut(&mut self, index: usize) -> &mut M
        requires { index < length self.old.regions }
        ensures* writes_back { sem 𝓛 (lends_memory M.row self.entry index result) }
        ensures value { memory_at self.old.regions index ≡ Some result.now }
    {
        self.regions[index].memory_mut()
    }
}

impl<M: Memory> Memory for MemorySpace<M> {
    ghost bytes = { λ s. space_bytes M.bytes s.regions };

    ghost writable = { λ s. space_writable M.writable s.regions };

    ghost layout = { λ s. space_layout M.layout s.regions };

    ghost reads = { λ old address size new answer. SpaceAccess address old new
        (λ before offset after. M.reads before offset size after answer) };

    ghost writes = { λ old address size value new answer. SpaceAccess address old new
        (λ before offset after. M.writes before offset size value after answer) };

    #[inline]
    fn read_mem(&mut self, addr: u32, size: MemAccessSize) -> Option<u32>
        requires { addr % width size ≡ 0 }
        ensures laws { Reads
            (λ s. space_bytes M.bytes s.regions)
            (λ s. space_writable M.writable s.regions)
            (λ s. space_layout M.layout s.regions)
            self.old self.new addr (width size) result }
        ensures did { SpaceAccess addr self.old self.new
            (λ before offset after. M.reads before offset size after result) }
        ensures served { ServedBecomes addr self.old.regions self.new.regions
            (λ before offset after.
            Reads M.bytes M.writable M.layout before after offset (width size) result) }
        ensures compares { ComparesSome self.old self.new }
    {
        if !is_served_by(&self.regions, self.first, addr) {
            return self.read_by_search(addr, size);
        }
        let answer = self.regions[self.first].read(addr, size);
        self.looked_at = self.looked_at.saturating_add(1);
        answer
    }

    #[inline]
    fn write_mem(&mut self, addr: u32, size: MemAccessSize, store_data: u32) -> bool
        requires { addr % width size ≡ 0 }
        ensures laws { Writes
            (λ s. space_bytes M.bytes s.regions)
            (λ s. space_writable M.writable s.regions)
            (λ s. space_layout M.layout s.regions)
            self.old self.new addr (width size) store_data result }
        ensures did { SpaceAccess addr self.old self.new
            (λ before offset after. M.writes before offset size store_data after result) }
        ensures served { ServedBecomes addr self.old.regions self.new.regions
            (λ before offset after. Writes M.bytes M.writable M.layout
            before after offset (width size) store_data result) }
        ensures compares { ComparesSome self.old self.new }
    {
        if !is_served_by(&self.regions, self.first, addr) {
            return self.write_by_search(addr, size, store_data);
        }
        let answer = self.regions[self.first].write(addr, size, store_data);
        self.looked_at = self.looked_at.saturating_add(1);
        answer
    }

    /// They are where those of the region's memory are. A read that is left out is not counted.
    fn reads_are_pure(&self, addr: u32) -> bool {
        let _looked_at = self.looked_at;
        match find(&self.regions, &self.by_base, addr).0 {
            Some(index) => self.regions[index].reads_are_pure(addr),
            None => false,
        }
    }
}
