//! The mistakes of a source, as they are told.

ghost use Rattle.std.specs.Prelude.{◌≡◌, ◌≤◌, IfOk, length};
ghost use Rattle.rrs_lent.specs.Telling.{LieBehind};

use crate::outcome::RrsMistake;
use rrs_asm_macros::{MacroError, MacroErrorKind};
use rrs_asm_output::{MOST_MISTAKES, Mistake};
use std::alloc::{AllocError, Allocator};
use std::str;

/// Mistakes, and what is told of them one after the other.
pub(crate) fn told_of_mistakes<A: Allocator + Copy>(
    alloc: A,
    mistakes: &[Mistake<A>],
) -> Result<(Vec<RrsMistake, A>, Vec<u8, A>), AllocError>
    ensures count { IfOk result (λ told. length told.0.items ≡ length mistakes.now) }
    ensures texts { IfOk result (λ told. LieBehind 0 told.0.items (length told.1.items)) }
{
    let mut told = Vec::new(alloc);
    let mut texts = Vec::new(alloc);
    for mistake in mistakes {
        let text = mistake.text.as_bytes();
        told.push(RrsMistake {
            line: mistake.line,
            column: mistake.column,
            text: texts.len(),
            length: text.len(),
        })?;
        texts.extend_from_slice(text)?;
    }
    Ok((told, texts))
}

/// The mistake of macros that make something else than the lines say. No source is known of which
/// that is so.
const LEFT_OVER: MacroError = MacroError {
    line: 1,
    column: 1,
    kind: MacroErrorKind::LeftOver,
};

/// The first mistakes in macros, conditions and repetitions of a source, as they are told.
pub(crate) fn of_macros<A: Allocator + Copy>(
    alloc: A,
    source: &[u8],
    errors: &[MacroError],
) -> Result<Vec<Mistake<A>, A>, AllocError>
    ensures some { IfOk result (λ own. 1 ≤ length own.items) }
    ensures most { IfOk result (λ own. length own.items ≤ 20) }
{
    let mut own = Vec::new(alloc);
    for error in errors {
        if own.len() < MOST_MISTAKES {
            own.push(of_macro(alloc, source, error)?)?;
        }
    }
    if own.is_empty() {
        own.push(of_macro(alloc, source, &LEFT_OVER)?)?;
    }
    Ok(own)
}

/// A mistake in macros, conditions and repetitions, as it is told.
fn of_macro<A: Allocator + Copy>(
    alloc: A,
    source: &[u8],
    error: &MacroError,
) -> Result<Mistake<A>, AllocError> {
    let kind = error.kind;
    let word = error.word(source).unwrap_or(&[]);
    let text = match str::from_utf8(word) {
        Ok(word) if !word.is_empty() => format!(in alloc; "{kind}: {word}")?,
        _ => format!(in alloc; "{kind}")?,
    };
    Ok(Mistake {
        line: error.line,
        column: error.column,
        text,
    })
}
