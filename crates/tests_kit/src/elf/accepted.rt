//! Files that are accepted: their segments, what a load leaves, and their symbols.

use crate::elf::file::{FILE, changed, symbols_of};
use rrs_elf::{Addresses, CodeUnit, ElfError, Executable, Refused, Symbols, has_compressed_code};
use rrs_memory::memories::SliceMemory;
use std::alloc::{AllocError, Global};
use std::test::Fail;

/// Whether a changed file is accepted.
fn is_accepted(alloc: Global, at: usize, bytes: usize, value: u32) -> Result<bool, AllocError> {
    let file = changed(alloc, FILE.len(), at, bytes, value)?;
    Ok(Executable::parse(&file).is_ok())
}

/// Changes with which a file is just accepted: segments that touch, the later one above or below,
/// one that ends with the last address, one whose bytes fill it, the last word as the entry, and
/// the flag of a stronger memory order.
static JUST_ACCEPTED: [(usize, u32); 6] = [
    (124, 0x10010),
    (124, 0xfff4),
    (124, 0xffff_fff4),
    (132, 12),
    (24, 0x1000c),
    (36, 0x10),
];

#[test]
fn limits_are_accepted(rt: HostRuntime) -> Result<(), Fail> {
    for (at, value) in JUST_ACCEPTED.iter() {
        let is_accepted = is_accepted(rt.alloc(), *at, 4, *value)?;
        assert!(rt; is_accepted, "{value:#x} at {at}");
    }
    Ok(())
}

/// Why a file is refused for a machine whose instructions lie in such units, if it is.
fn refusal_in(file: &[u8], unit: CodeUnit) -> Option<ElfError> {
    match Executable::parse_in(file, Addresses::Virtual, unit) {
        Ok(_program) => None,
        Err(error) => Some(error),
    }
}

/// Changes, each with the refusal of a machine without compressed code, and that of one with it:
/// none, the flag of compressed code, that flag and a floating-point ABI, and an entry at half a
/// word, at an odd address, and outside.
static IN_UNITS: [((usize, u32), Option<ElfError>, Option<ElfError>); 6] = [
    ((36, 0), None, None),
    ((36, 1), Some(ElfError::CompressedCode), None),
    (
        (36, 3),
        Some(ElfError::CompressedCode),
        Some(ElfError::FloatingPoint),
    ),
    (
        (24, 0x10002),
        Some(ElfError::EntryMisaligned(0x10002)),
        None,
    ),
    (
        (24, 0x10001),
        Some(ElfError::EntryMisaligned(0x10001)),
        Some(ElfError::EntryMisaligned(0x10001)),
    ),
    (
        (24, 0x10010),
        Some(ElfError::EntryOutside(0x10010)),
        Some(ElfError::EntryOutside(0x10010)),
    ),
];

#[test]
fn half_words_allow_compressed_code(rt: HostRuntime) -> Result<(), Fail> {
    for ((at, value), of_words, of_half_words) in IN_UNITS.iter() {
        let file = changed(rt.alloc(), FILE.len(), *at, 4, *value)?;
        let refused = refusal_in(&file, CodeUnit::Word);
        assert!(rt; refused == *of_words, "{value:#x} at {at}: {refused:?}");
        let refused = refusal_in(&file, CodeUnit::HalfWord);
        assert!(rt;
            refused == *of_half_words,
            "{value:#x} at {at}: {refused:?}"
        );
    }
    Ok(())
}

#[test]
fn a_whole_header_tells_compressed_code(rt: HostRuntime) -> Result<(), Fail> {
    for (length, flags, wanted) in [(52, 1, true), (51, 1, false), (428, 0x18, false)].iter() {
        let file = changed(rt.alloc(), *length, 36, 4, *flags)?;
        assert!(rt;
            has_compressed_code(&file) == *wanted,
            "{flags:#x}, {length} bytes"
        );
    }
    Ok(())
}

/// What a load of a file answers and leaves in words from 0x10000 on.
fn loaded(file: &[u8], words: &mut [u32]) -> Option<Result<(), Refused>> {
    let program = Executable::parse(file).ok()?;
    let mut memory = SliceMemory {
        words,
        base: 0x10000,
    };
    Some(program.load(&mut memory))
}

#[test]
fn a_load_writes_bytes_and_zeros(rt: HostRuntime) -> Result<(), Fail> {
    let file = changed(rt.alloc(), FILE.len(), 124, 4, 0x10010)?;
    let mut words = [0xffff_ffff; 8];
    let answer = loaded(&file, &mut words);
    let wanted = [
        0x00500513,
        0x00a50533,
        0x6f,
        0x8067,
        0x6968,
        0,
        0,
        0xffff_ffff,
    ];
    assert!(rt; answer == Some(Ok(())) && words == wanted, "{words:?}");
    Ok(())
}

#[test]
fn a_load_stops_where_memory_refuses(rt: HostRuntime) -> Result<(), Fail> {
    let mut words = [0xffff_ffff; 5];
    let answer = loaded(&FILE, &mut words);
    let wanted = [0x00500513, 0x00a50533, 0x6f, 0x8067, 0xffff_ffff];
    let refused = Refused { address: 0x20000 };
    assert!(rt;
        answer == Some(Err(refused)) && words == wanted,
        "{words:?}"
    );
    Ok(())
}

/// The names of the symbols.
static NAMES: [&[u8]; 5] = [b"", b"_start", b"$x", b"main", b"end"];

/// Addresses, and the function or label there: its symbol, the distance, and whether it is inside.
static PLACES: [(u32, Option<(u32, u32, bool)>); 7] = [
    (0xffff, None),
    (0x10000, Some((1, 0, false))),
    (0x10003, Some((1, 3, false))),
    (0x10004, Some((3, 0, true))),
    (0x1000b, Some((3, 7, true))),
    (0x1000c, Some((3, 8, false))),
    (0x20000, None),
];

/// Whether symbols have the names, and no more.
fn has_names(symbols: &Symbols<'_>) -> bool {
    for (index, wanted) in NAMES.iter().enumerate() {
        if symbols.name(index as u32) != Some(*wanted) {
            return false;
        }
    }
    symbols.name(NAMES.len() as u32).is_none()
}

/// Whether what is found at each of the places is what is wanted.
fn has_places(symbols: &Symbols<'_>) -> bool {
    for (address, wanted) in PLACES.iter() {
        let found = symbols.function_at(*address);
        if found.map(|at| (at.symbol, at.distance, at.is_inside)) != *wanted {
            return false;
        }
    }
    true
}

/// Whether a file has the names and the places, and of how many symbols.
fn known(file: &[u8]) -> Option<(bool, bool, u32)> {
    let symbols = symbols_of(file).ok()??;
    Some((has_names(&symbols), has_places(&symbols), symbols.count()))
}

#[test]
fn symbols_have_names_and_places(rt: HostRuntime) -> Result<(), Fail> {
    let found = known(&FILE);
    assert!(rt; found == Some((true, true, 5)), "{found:?}");
    Ok(())
}
