//! What spaces of regions answer at chosen addresses.

use crate::machines::{
    add_as, add_region, ended, hart_of, left, memory_of, same_answer_at, same_at, same_word_at,
    space_of, step_over, word_at,
};
use rrs_lib::Memory;
use rrs_lib::memories::{BoxedMemory, MemorySpace, MemorySpaceError, VecMemory};
use std::alloc::{AllocError, Global};
use std::process::Abort;
use std::test::Fail;

/// Adds regions to one space in turn: a base, a size, and what the call has to answer.
fn add_in_turn(
    alloc: Global,
    cases: &[(u32, u32, Result<usize, MemorySpaceError>)],
) -> Result<(), Fail> {
    let mut space = MemorySpace::new(alloc);
    for (base, size, expected) in cases {
        let answer = add_region(&mut space, *base, *size, memory_of(alloc, &[])?);
        same_answer_at(*base, *size, &answer, expected)?;
    }
    Ok(())
}

/// Regions that are added to an empty space one after the other, each with what its addition
/// answers: beside and within others, with no address before a longer one, and at the last address
/// and past it.
static IN_TURN: [&[(u32, u32, Result<usize, MemorySpaceError>)]; 3] = [
    &[
        (0x100, 0x10, Ok(0)),
        (0x10c, 8, Err(MemorySpaceError::RegionOverlap)),
        (0x112, 4, Err(MemorySpaceError::Unaligned)),
        (0x104, 0, Err(MemorySpaceError::RegionOverlap)),
        (0x110, 4, Ok(1)),
        (0x110, 6, Err(MemorySpaceError::Unaligned)),
        (0x100, 0, Ok(2)),
    ],
    &[
        (0x104, 0, Ok(0)),
        (0x100, 0x10, Err(MemorySpaceError::RegionOverlap)),
    ],
    &[
        (0xffff_fffc, 0xffff_fffc, Ok(0)),
        (0, 4, Ok(1)),
        (0xffff_fffc, 0, Ok(2)),
        (0xffff_fffc, 4, Err(MemorySpaceError::RegionOverlap)),
    ],
];

#[test]
fn regions_are_accepted_in_turn(rt: HostRuntime) -> Result<(), Fail> {
    for cases in &IN_TURN {
        add_in_turn(rt.alloc(), cases)?;
    }
    Ok(())
}

/// Adds a region of 8 bytes at a base.
fn add_at(
    space: &mut MemorySpace<VecMemory>,
    alloc: Global,
    base: u32,
) -> Result<usize, MemorySpaceError> {
    add_region(space, base, 8, VecMemory::new(Vec::new(alloc)))
}

/// Whether there is a region of this index.
fn has_region(space: &MemorySpace<VecMemory>, index: usize) -> bool {
    space.get_memory_ref(index).is_some()
}

/// Adds a region at a base, and again where there was no memory: what the calls answered, and
/// whether there was a region of this index between them.
fn added_at_last(
    space: &mut MemorySpace<VecMemory>,
    alloc: Global,
    index: usize,
    base: u32,
) -> (Result<usize, MemorySpaceError>, bool) {
    let added = add_at(space, alloc, base);
    if added == Err(MemorySpaceError::OutOfMemory) {
        let was_there = has_region(space, index);
        return (add_at(space, alloc, base), was_there);
    }
    (added, false)
}

/// The bases of regions of 8 bytes, none of which overlap.
static BASES: [u32; 6] = [0x300, 0x100, 0x500, 0x200, 0, 0x400];

/// Whether the region of a base is added with this index, and one that is not aligned and one that
/// overlaps it are refused.
fn is_added(space: &mut MemorySpace<VecMemory>, alloc: Global, index: usize, base: u32) -> bool {
    let unaligned = add_at(space, alloc, base | 2);
    let added = added_at_last(space, alloc, index, base);
    let overlap = add_at(space, alloc, base | 4);
    unaligned == Err(MemorySpaceError::Unaligned)
        && added == (Ok(index), false)
        && overlap == Err(MemorySpaceError::RegionOverlap)
}

/// Whichever allocation fails, the space is as before, and the same call then gives the index. A
/// region that is not aligned or overlaps is refused for that, whatever memory there is. None of
/// these calls counts as an access.
#[test]
fn a_refused_region_may_be_added_again(rt: HostRuntime) -> Result<(), Fail> {
    let mut space = MemorySpace::new(rt.alloc());
    for (index, base) in BASES.iter().enumerate() {
        let is_added = is_added(&mut space, rt.alloc(), index, *base);
        assert!(rt; is_added && has_region(&space, index) && space.regions_looked_at() == 0);
    }
    Ok(())
}

/// Asserts which words are at some addresses.
fn same_words<M: Memory>(rt: &impl Abort, memory: &mut M, words: &[(u32, Option<u32>)]) {
    for &(addr, word) in words {
        same_word_at(rt, addr, word_at(memory, addr), word);
    }
}

/// Spaces, each with addresses and the words there.
static REGIONS: [(&[(u32, u32, &[u32])], [(u32, Option<u32>); 4]); 4] = [
    (
        &[(0x100, 8, &[0x1122_3344]), (0x200, 4, &[1, 2])],
        [
            (0x100, Some(0x1122_3344)),
            (0x104, None),
            (0x200, Some(1)),
            (0x204, None),
        ],
    ),
    (
        &[(0xffff_fffc, 8, &[7, 8])],
        [
            (0xffff_fffc, Some(7)),
            (0, None),
            (4, None),
            (0xffff_fff8, None),
        ],
    ),
    (
        &[(0x100, 0, &[1]), (0x100, 0x10, &[2]), (0x200, 0, &[3])],
        [(0xfc, None), (0x100, Some(2)), (0x104, None), (0x200, None)],
    ),
    (
        &[(0x100, 0x10, &[1]), (0x100, 0, &[2]), (0x200, 0, &[3])],
        [(0xfc, None), (0x100, Some(1)), (0x104, None), (0x200, None)],
    ),
];

/// The words at some addresses of a space of two regions, which are longer and shorter than their
/// memories; of one that passes the last address; and of one with empty regions, before and after
/// one that is not.
#[test]
fn each_region_has_its_memory(rt: HostRuntime) -> Result<(), Fail> {
    for (regions, words) in &REGIONS {
        let mut space = space_of(rt.alloc(), regions)?;
        same_words(&rt, &mut space, words);
    }
    Ok(())
}

/// The first word of the memory that is lent by its index, where there is one.
fn first_word(space: &MemorySpace<VecMemory>, index: usize) -> Option<u32> {
    space.get_memory_ref(index)?.mem.first().copied()
}

/// Fills the memory that is lent by its index with a word, and returns whether there is one.
fn fill(space: &mut MemorySpace<VecMemory>, index: usize, word: u32) -> bool {
    match space.get_memory_mut(index) {
        Some(memory) => {
            memory.mem.fill(word);
            true
        }
        None => false,
    }
}

#[test]
fn lends_each_memory(rt: HostRuntime) -> Result<(), Fail> {
    let mut space = space_of(rt.alloc(), &[(0x100, 8, &[1]), (0x200, 4, &[1, 2])])?;
    let written = [fill(&mut space, 1, 9), fill(&mut space, 2, 9)];
    let lent = [
        first_word(&space, 0),
        first_word(&space, 1),
        first_word(&space, 2),
    ];
    assert!(rt; written == [true, false] && lent == [Some(1), Some(9), None]);
    same_word_at(&rt, 0x200, word_at(&mut space, 0x200), Some(9));
    Ok(())
}

// Two words at 0x10 of a space at 0x1000 of another.
#[test]
fn a_space_in_a_space(rt: HostRuntime) -> Result<(), Fail> {
    let inner = space_of(rt.alloc(), &[(0x10, 8, &[7, 8])])?;
    let mut space = MemorySpace::new(rt.alloc());
    add_as(&mut space, 0, 0x1000, 0x14, inner)?;
    same_words(
        &rt,
        &mut space,
        &[(0x1010, Some(7)), (0x1000, None), (0x1014, None)],
    );
    Ok(())
}

/// A memory of the word addi x1, x0, 5, in a box.
fn boxed_word(alloc: Global) -> Result<BoxedMemory, AllocError> {
    let memory = Box::new(alloc, memory_of(alloc, &[0x0050_0093])?)?;
    Ok(BoxedMemory { memory })
}

/// A space of one region, in a box.
fn boxed_space(alloc: Global) -> Result<BoxedMemory, Fail> {
    let memory = Box::new(alloc, space_of(alloc, &[(4, 4, &[9])])?)?;
    Ok(BoxedMemory { memory })
}

/// A space of a word that is executed, and of a space, each in a box.
fn boxed_memories(alloc: Global) -> Result<MemorySpace<BoxedMemory>, Fail> {
    let mut space = MemorySpace::new(alloc);
    add_as(&mut space, 0, 0, 4, boxed_word(alloc)?)?;
    add_as(&mut space, 1, 0x1000, 8, boxed_space(alloc)?)?;
    Ok(space)
}

#[test]
fn memories_of_two_types(rt: HostRuntime) -> Result<(), Fail> {
    let mut space = boxed_memories(rt.alloc())?;
    same_words(&rt, &mut space, &[(0x1004, Some(9)), (0x1000, None)]);
    let seen = step_over(&mut space, hart_of(0, &[]));
    same_at(&rt, 0, seen, left(ended(1, None), 4, &[(1, 5)], Some(1)));
    Ok(())
}

/// Words, each with the pc and the last written register after it.
static LAST_WORDS: [(u32, u32, Option<usize>); 2] = [
    (0x0000_0013, 0, None),
    (0x0080_00ef, 4, Some(1)),
];

// addi x0, x0, 0, and jal x1, 8.
#[test]
fn steps_at_the_last_address(rt: HostRuntime) -> Result<(), Fail> {
    for &(word, pc, last) in &LAST_WORDS {
        let mut space = space_of(rt.alloc(), &[(0xffff_fffc, 4, &[word])])?;
        let seen = step_over(&mut space, hart_of(0xffff_fffc, &[]));
        same_at(&rt, word, seen, left(ended(1, None), pc, &[], last));
    }
    Ok(())
}

/// A word that is read, and how many regions the read compared.
fn compared_at(space: &mut MemorySpace<VecMemory>, addr: u32) -> (Option<u32>, u64) {
    let before = space.regions_looked_at();
    let word = word_at(space, addr);
    (word, space.regions_looked_at().wrapping_sub(before))
}

/// Asserts that a word was read by so many comparisons at least, and at most.
fn same_read(
    rt: &impl Abort,
    addr: u32,
    seen: (Option<u32>, u64),
    word: Option<u32>,
    least: u64,
    most: u64,
) {
    assert!(rt;
        seen.0 == word && least <= seen.1 && seen.1 <= most,
        "at {addr:#x}"
    );
}

/// Addresses, each with its word, and how many regions are compared.
static COMPARED: [(u32, Option<u32>, u64); 8] = [
    (0x100, Some(1), 1),
    (0x100, Some(1), 1),
    (0x200, Some(2), 3),
    (0x100, Some(1), 1),
    (0x200, Some(2), 3),
    (0x200, Some(2), 3),
    (0x200, Some(2), 1),
    (0x300, None, 3),
];

/// Two regions, and how many regions each access compares: the one that is compared first, and
/// those of a search. A region is compared first once it was found by the second of two searches in
/// a row.
#[test]
fn a_region_that_served_is_compared_first(rt: HostRuntime) -> Result<(), Fail> {
    let mut space = space_of(rt.alloc(), &[(0x100, 4, &[1]), (0x200, 4, &[2])])?;
    for &(addr, word, compared) in &COMPARED {
        let seen = compared_at(&mut space, addr);
        same_read(&rt, addr, seen, word, compared, compared);
    }
    Ok(())
}

/// A thousand regions of 16 bytes, of which region 0 is at 101 * 32, and each at 367 * 32 after
/// the one before it, modulo 32,000. The words of each are its index and 1000, 2000 and 3000 more.
fn thousand_regions(alloc: Global) -> Result<MemorySpace<VecMemory>, Fail> {
    let mut space = MemorySpace::new(alloc);
    for index in 0..1000 {
        let base = (index * 367 + 101) % 1000 * 32;
        let words = [index, index + 1000, index + 2000, index + 3000];
        add_as(
            &mut space,
            index as usize,
            base,
            16,
            memory_of(alloc, &words)?,
        )?;
    }
    Ok(space)
}

/// The word at an address in `thousand_regions`. 703 undoes 367: the product is
/// 258,001.
fn word_by(addr: u32) -> Option<u32> {
    let place = addr / 32;
    if place >= 1000 || addr % 32 >= 16 {
        return None;
    }
    Some((place + 899) * 703 % 1000 + addr % 16 / 4 * 1000)
}

/// The number after this one in a sequence that looks random.
fn scrambled(number: u32) -> u32 {
    number.wrapping_mul(1_664_525).wrapping_add(1_013_904_223)
}

#[test]
fn a_thousand_regions_are_searched(rt: HostRuntime) -> Result<(), Fail> {
    let mut space = thousand_regions(rt.alloc())?;
    let mut state = 1;
    for _ in 0..10_000 {
        state = scrambled(state);
        let addr = (state >> 8) % 8100 * 4;
        let seen = compared_at(&mut space, addr);
        same_read(&rt, addr, seen, word_by(addr), 1, 11);
    }
    Ok(())
}
