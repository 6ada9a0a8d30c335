//! An assembly over the caller's buffers.

ghost use Rattle.std.specs.Prelude.{◌≡◌, ◌<◌, IfOk, OnErr, length, take};
ghost use Rattle.rrs_lent.specs.Telling.{Assembles, TellMistakes, HasNoProgram, AllFit, Needs, StaysBehind};
ghost use Rattle.rrs_lent.specs.Steps.{counted};

use crate::buffers::put;
use crate::outcome::{RrsAssembled, RrsMistake, RrsStatement, RrsSymbol, SMALL_BUFFER};
use crate::told::{Told, told_at_last};
use std::alloc::{AllocError, Allocator};

/// Assembles a source, whose sections lie one after the other from an address on, and puts what is
/// told of it at the front of the buffers, where these have room for all of it. What is after it
/// there stays. Where a buffer is too small none is written (`unwritten`), and it is said how many
/// of each there are (`needed`).
///
/// # Errors
///
/// Out of memory, if this is not the last time that memory is lent. At the last time that is a
/// mistake.
pub fn assemble_into<A: Allocator + Copy>(
    alloc: A,
    source: &[u8],
    start: u32,
    is_last: bool,
    bytes: &mut [u8],
    statements: &mut [RrsStatement],
    symbols: &mut [RrsSymbol],
    mistakes: &mut [RrsMistake],
    texts: &mut [u8],
) -> Result<RrsAssembled, AllocError>
    ensures ends { IfOk result (λ told. told.end < 4 × (told.end ≡ 2 → ⊥)) }
    ensures assembled { IfOk result (λ told. told.end ≡ 0 → Assembles A source.now start told.entry
        (take told.bytes bytes.new) (take told.statements statements.new)
        (take told.symbols symbols.new) (take told.texts texts.new)) }
    ensures no_mistakes { IfOk result (λ told. told.end ≡ 0 → told.mistakes ≡ 0) }
    ensures refused { IfOk result (λ told. told.end ≡ 1
        → TellMistakes (take told.mistakes mistakes.new) (take told.texts texts.new)) }
    ensures no_program { IfOk result (λ told. told.end ≡ 1 → HasNoProgram told) }
    ensures needed { IfOk result (λ told. told.end ≡ 3 → Needs A source.now start told) }
    ensures fit { IfOk result (λ told. told.end < 3 → AllFit told (length bytes.old)
        (length statements.old) (length symbols.old) (length mistakes.old) (length texts.old)) }
    ensures small { IfOk result (λ told. told.end ≡ 3 → AllFit told (length bytes.old)
        (length statements.old) (length symbols.old) (length mistakes.old) (length texts.old) → ⊥) }
    ensures unwritten { IfOk result (λ told. told.end ≡ 3 → (bytes.new ≡ bytes.old)
        × (statements.new ≡ statements.old) × (symbols.new ≡ symbols.old)
        × (mistakes.new ≡ mistakes.old) × (texts.new ≡ texts.old)) }
    ensures room { IfOk result (λ told. told.room ≡ 0) }
    ensures bytes_behind { IfOk result (λ told. StaysBehind told.bytes bytes.old bytes.new) }
    ensures statements_behind { IfOk result (λ told.
        StaysBehind told.statements statements.old statements.new) }
    ensures symbols_behind { IfOk result (λ told.
        StaysBehind told.symbols symbols.old symbols.new) }
    ensures mistakes_behind { IfOk result (λ told.
        StaysBehind told.mistakes mistakes.old mistakes.new) }
    ensures texts_behind { IfOk result (λ told. StaysBehind told.texts texts.old texts.new) }
    ensures kept { OnErr result ((bytes.new ≡ bytes.old) × (statements.new ≡ statements.old)
        × (symbols.new ≡ symbols.old) × (mistakes.new ≡ mistakes.old) × (texts.new ≡ texts.old)) }
{
    let told = told_at_last(alloc, source, start, is_last)?;
    let counts = counts_of(&told);
    let fits = counts.bytes <= bytes.len()
        && counts.statements <= statements.len()
        && counts.symbols <= symbols.len()
        && counts.mistakes <= mistakes.len()
        && counts.texts <= texts.len();
    if !fits {
        return Ok(RrsAssembled {
            end: SMALL_BUFFER,
            ..counts
        });
    }
    put(&told.bytes, bytes);
    put(&told.statements, statements);
    put(&told.symbols, symbols);
    put(&told.mistakes, mistakes);
    put(&told.texts, texts);
    Ok(counts)
}

/// How many of each there are in what is told.
fn counts_of<A: Allocator + Copy>(told: &Told<A>) -> RrsAssembled
    ensures { result ≡ counted told.now }
{
    RrsAssembled {
        end: told.end,
        entry: told.entry,
        bytes: told.bytes.len(),
        statements: told.statements.len(),
        symbols: told.symbols.len(),
        mistakes: told.mistakes.len(),
        texts: told.texts.len(),
        room: 0,
    }
}
