//! What the tests share: a source, expanded, and what is assembled of it.

use rrs_asm::{Layout, Program, SourceFault, assemble_source};
use rrs_asm_macros::{Expanded, MacroFault, expand};
use std::alloc::Global;

/// What `expand` answers, whose contract is so paid in this function alone.
pub(crate) fn made(alloc: Global, source: &str) -> Result<Expanded, MacroFault> {
    expand(alloc, source.as_bytes())
}

/// What `assemble_source` answers, whose contract is so paid in this function alone.
pub(crate) fn assembled(alloc: Global, source: &[u8], base: u32) -> Result<Program, SourceFault> {
    assemble_source(alloc, source, Layout::flat(base))
}
