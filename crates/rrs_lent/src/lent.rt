//! An assembly in memory that is lent.

ghost use Rattle.std.specs.Prelude.{◌≡◌, ◌*◌, ◌^◌, ◌<◌, ◌≤◌, length, take};
ghost use Rattle.rrs_lent.specs.Heaps.{IsBack};
ghost use Rattle.rrs_lent.specs.Rooms.{place_of, room_size};
ghost use Rattle.rrs_lent.specs.Lent.{Arena};
ghost use Rattle.rrs_lent.specs.Telling.{Assembles, Needs, TellMistakes, HasNoProgram, AllFit, StaysBehind, small_room};

use crate::assembling::assemble_into;
use crate::outcome::{RrsAssembled, RrsMistake, RrsStatement, RrsSymbol, SMALL_ROOM};
use crate::{LentHeap, Room};
use std::alloc::Allocator;

/// The least memory that is asked for where there was too little.
const LEAST_ROOM: usize = 0x1_0000;

/// The least memory of which no more is asked for: 256 MiB. Where that is too little, the source is
/// refused.
const MOST_ROOM: usize = 0x1000_0000;

/// Assembles a source in memory that is lent, and gives the memory back. What the source becomes
/// without its macros is assembled, with sections one after the other from an address on. What is
/// told of it is put at the front of the buffers: of a program its bytes, statements and labels
/// with their names (`assembled`), of mistakes what they are (`refused`). What is after it stays.
///
/// Where a buffer is too small none is written (`unwritten`), and the counts say how many of each
/// there are (`needed`). Where the memory is too small all counts are 0 (`no_room`); where it has
/// 256 MiB or more and is too small, that is a mistake of the source.
pub fn assemble_lent(
    source: &[u8],
    start: u32,
    room: &mut Room,
    bytes: &mut [u8],
    statements: &mut [RrsStatement],
    symbols: &mut [RrsSymbol],
    mistakes: &mut [RrsMistake],
    texts: &mut [u8],
) -> RrsAssembled
    ensures ends { result.end < 4 }
    ensures assembled { result.end ≡ 0
        → Assembles (Arena ⟦<&'static LentHeap as Allocator>⟧) source.now start result.entry
        (take result.bytes bytes.new) (take result.statements statements.new)
        (take result.symbols symbols.new) (take result.texts texts.new) }
    ensures no_mistakes { result.end ≡ 0 → result.mistakes ≡ 0 }
    ensures refused { result.end ≡ 1
        → TellMistakes (take result.mistakes mistakes.new) (take result.texts texts.new) }
    ensures no_program { result.end ≡ 1 → HasNoProgram result }
    ensures no_room { result.end ≡ 2 → result ≡ small_room result.room }
    ensures twice { result.end ≡ 2 → room_size room.old < 2 ^ 63
        → 2 * room_size room.old ≤ result.room }
    ensures asks_none { (result.end ≡ 2 → ⊥) → result.room ≡ 0 }
    ensures needed { result.end ≡ 3
        → Needs (Arena ⟦<&'static LentHeap as Allocator>⟧) source.now start result }
    ensures fit { result.end < 3 → AllFit result (length bytes.old) (length statements.old)
        (length symbols.old) (length mistakes.old) (length texts.old) }
    ensures small { result.end ≡ 3 → AllFit result (length bytes.old) (length statements.old)
        (length symbols.old) (length mistakes.old) (length texts.old) → ⊥ }
    ensures unwritten { result.end ≡ 3 → (bytes.new ≡ bytes.old)
        × (statements.new ≡ statements.old) × (symbols.new ≡ symbols.old)
        × (mistakes.new ≡ mistakes.old) × (texts.new ≡ texts.old) }
    ensures back { IsBack (place_of room.old) (place_of room.new) }
    ensures bytes_behind { StaysBehind result.bytes bytes.old bytes.new }
    ensures statements_behind { StaysBehind result.statements statements.old statements.new }
    ensures symbols_behind { StaysBehind result.symbols symbols.old symbols.new }
    ensures mistakes_behind { StaysBehind result.mistakes mistakes.old mistakes.new }
    ensures texts_behind { StaysBehind result.texts texts.old texts.new }
{
    let heap = LentHeap::new(room.take());
    let next = next_size(heap.size());
    let is_last = heap.size() >= MOST_ROOM;
    let Ok(arena) = heap.arena() else {
        *room = heap.into_room();
        return without_room(next);
    };
    let told = assemble_into(
        &arena, source, start, is_last, bytes, statements, symbols, mistakes, texts,
    );
    drop(arena);
    *room = heap.into_room();
    match told {
        Ok(told) => told,
        Err(_) => without_room(next),
    }
}

/// How much memory to lend the next time, where so much is too little.
fn next_size(size: usize) -> usize
    ensures { size < 2 ^ 63 → 2 * size ≤ result }
{
    size.saturating_mul(2).max(LEAST_ROOM)
}

/// What is told where the memory is too small, and so much is asked for the next time.
fn without_room(next: usize) -> RrsAssembled
    ensures { result ≡ small_room next }
{
    RrsAssembled {
        end: SMALL_ROOM,
        entry: 0,
        bytes: 0,
        statements: 0,
        symbols: 0,
        mistakes: 0,
        texts: 0,
        room: next,
    }
}
