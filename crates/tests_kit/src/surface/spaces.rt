//! Spaces of regions.

use crate::machines::{add_region, memory_of};
use crate::surface::is_shown_and_compared;
use crate::surface::memories::{ANSWERS, accessed};
use rrs_lib::Memory;
use rrs_lib::memories::{MemorySpace, MemorySpaceError, VecMemory};
use std::test::Fail;

/// Whether a region was added with an index, and why not else.
fn index_of(answer: Result<usize, MemorySpaceError>) -> Result<usize, u32> {
    match answer {
        Ok(index) => Ok(index),
        Err(MemorySpaceError::RegionOverlap) => Err(1),
        Err(MemorySpaceError::Unaligned) => Err(2),
        Err(MemorySpaceError::OutOfMemory) => Err(3),
    }
}

#[test]
fn regions_are_added_and_accessed(rt: HostRuntime) -> Result<(), Fail> {
    is_shown_and_compared::<MemorySpaceError>();
    let mut space: MemorySpace<VecMemory> = MemorySpace::new(rt.alloc());
    let (word, none) = (
        memory_of(rt.alloc(), &[0x4433_2211])?,
        memory_of(rt.alloc(), &[])?,
    );
    let added = [
        index_of(add_region(&mut space, 0, 4, word)),
        index_of(add_region(&mut space, 2, 4, none)),
    ];
    let looked_at: u64 = space.regions_looked_at();
    let seen = accessed(&mut space);
    assert!(rt; added == [Ok(0), Err(2)] && looked_at == 0 && seen == ANSWERS);
    Ok(())
}

/// The calls that lend a region's memory, with their types.
fn lending<M: Memory>(space: &mut MemorySpace<M>, index: usize) {
    let _changed: Option<&mut M> = space.get_memory_mut(index);
    let _lent: Option<&M> = space.get_memory_ref(index);
}
