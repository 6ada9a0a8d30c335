//! What the tests share: a source as its bytes, its words, or its mistakes.

use rrs_asm::{Layout, Program, SourceError, SourceErrorKind, SourceFault, assemble_source, image};
use std::alloc::Global;
use std::process::Abort;

/// What `assemble_source` answers, whose contract is so paid in this function alone.
pub(crate) fn made(alloc: Global, source: &[u8], base: u32) -> Result<Program, SourceFault> {
    assemble_source(alloc, source, Layout::flat(base))
}

/// The bytes of a source, or its mistakes.
pub(crate) fn bytes_of(alloc: Global, source: &[u8], base: u32) -> Result<Vec<u8>, SourceFault> {
    match made(alloc, source, base) {
        Ok(program) => Ok(image(alloc, &program, base)?),
        Err(fault) => Err(fault),
    }
}

/// The mistakes of a source. None where it has none, or where memory ran out.
pub(crate) fn errors_of(alloc: Global, source: &str, base: u32) -> Option<Vec<SourceError>> {
    match bytes_of(alloc, source.as_bytes(), base) {
        Err(SourceFault::Errors(errors)) => Some(errors),
        _ => None,
    }
}

/// Up to four bytes as a word.
fn word_of(bytes: &[u8]) -> u32 {
    let mut word = [0; 4];
    for (place, byte) in word.iter_mut().zip(bytes) {
        *place = *byte;
    }
    u32::from_le_bytes(word)
}

/// Whether a source is these words, the last of them filled up with zeros.
pub(crate) fn has_words(alloc: Global, source: &str, base: u32, wanted: &[u32]) -> bool {
    let Ok(bytes) = bytes_of(alloc, source.as_bytes(), base) else {
        return false;
    };
    let mut is_same = bytes.len().div_ceil(4) == wanted.len();
    for (chunk, word) in bytes.chunks(4).zip(wanted) {
        is_same &= word_of(chunk) == *word;
    }
    is_same
}

/// Asserts the words of sources at an address.
pub(crate) fn same_words(rt: &impl Abort, alloc: Global, base: u32, cases: &[(&str, &[u32])]) {
    for &(source, words) in cases {
        assert!(rt; has_words(alloc, source, base, words), "{source}");
    }
}

/// The line and the column of a mistake, and what is wrong there.
pub(crate) type Wrong = (usize, usize, SourceErrorKind);

/// Whether a source has these mistakes.
fn has_mistakes(alloc: Global, source: &str, base: u32, wanted: &[Wrong]) -> bool {
    let Some(errors) = errors_of(alloc, source, base) else {
        return false;
    };
    let mut is_same = errors.len() == wanted.len();
    for (own, &(line, column, kind)) in errors.iter().zip(wanted) {
        is_same &= *own == SourceError { line, column, kind };
    }
    is_same
}

/// Asserts the mistakes of sources at an address.
pub(crate) fn same_mistakes(rt: &impl Abort, alloc: Global, base: u32, cases: &[(&str, &[Wrong])]) {
    for &(source, wanted) in cases {
        assert!(rt; has_mistakes(alloc, source, base, wanted), "{source}");
    }
}
