//! What the tests share: memories of words, streams, spaces of words and of a port, and what the
//! port logged.

use rrs_lib::Memory;
use rrs_lib::memories::{MemorySpace, VecMemory};
use rrs_linux::{Heap, Linux, LinuxClocks};
use rrs_programs::{PrintPort, RamOrPort};
use std::alloc::{AllocError, Global};
use std::test::Fail;

/// A memory of these words, and of zeros after them up to so many words.
pub(crate) fn memory_of(
    alloc: Global,
    words: &[u32],
    length: usize,
) -> Result<VecMemory, AllocError> {
    let mut memory = VecMemory::new(words.to_vec(alloc)?);
    memory.mem.resize(length, 0)?;
    Ok(memory)
}

/// Streams of the host that read these bytes, with no heap.
pub(crate) fn streams_of(
    alloc: Global,
    input: &[u8],
    clocks: LinuxClocks,
) -> Linux<&[u8], Vec<u8>, Vec<u8>> {
    let (output, errors) = (Vec::new(alloc), Vec::new(alloc));
    Linux::new(input, output, errors, Heap::new(0, 0), clocks, 0)
}

/// A space of two regions: one of so many bytes at 0, and one of four bytes at a base after it.
pub(crate) fn space_beside<M: Memory + Drop>(
    alloc: Global,
    words: M,
    size: u32,
    port: M,
    base: u32,
) -> Result<MemorySpace<M>, Fail> {
    let mut space = MemorySpace::new(alloc);
    add_region(&mut space, 0, size, words)?;
    add_region(&mut space, base, 4, port)?;
    Ok(space)
}

/// A space of words at 0, and of a port with so much room.
pub(crate) fn beside_port(
    alloc: Global,
    words: VecMemory,
    size: u32,
    base: u32,
    room: usize,
) -> Result<MemorySpace<RamOrPort>, Fail> {
    let port = PrintPort::new(alloc, room)?;
    space_beside(
        alloc,
        RamOrPort::Ram(words),
        size,
        RamOrPort::Port(port),
        base,
    )
}

/// Whether region 1 of a space is a port that logged these bytes, holds this one, and lost as many.
pub(crate) fn has_logged(space: &MemorySpace<RamOrPort>, log: &[u8], last: u8, lost: u64) -> bool {
    match space.get_memory_ref(1) {
        Some(RamOrPort::Port(port)) => {
            port.log.as_slice() == log && port.last == last && port.lost == lost
        }
        _ => false,
    }
}

/// Adds a region to a space.
pub(crate) fn add_region<M: Memory + Drop>(
    space: &mut MemorySpace<M>,
    base: u32,
    size: u32,
    memory: M,
) -> Result<usize, Fail> {
    Ok(space.add_memory(base, size, memory)?)
}
