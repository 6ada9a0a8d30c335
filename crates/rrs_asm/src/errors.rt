//! What is wrong with a source, and where.

use rrs_asm_lines::SourceErrorKind;
use std::alloc::{AllocError, Allocator, Global};
use std::error::Error;
use std::fmt;

/// A mistake and its place.
#[derive(Debug, PartialEq, Clone, Copy)]
pub struct SourceError {
    /// The line, counted from 1.
    pub line: usize,
    /// The byte of the line, counted from 1, or one past its last where it is over too early.
    pub column: usize,
    /// What is wrong there.
    pub kind: SourceErrorKind,
}

impl fmt::Display for SourceError {
    fn fmt<W: fmt::Write>(&self, f: &mut fmt::Formatter<W>) -> fmt::Result {
        let line = self.line;
        let column = self.column;
        let kind = self.kind;
        write!(f, "{line}:{column}: {kind}")
    }
}

/// Why a source is not assembled.
#[derive(Drop)]
#[derive_where(Debug)]
pub enum SourceFault<A: Allocator = Global> {
    /// Each mistake, in the order of the source: the first one of each line.
    Errors(Vec<SourceError, A>),
    /// Out of memory.
    OutOfMemory,
}

impl<A: Allocator> fmt::Display for SourceFault<A> {
    fn fmt<W: fmt::Write>(&self, f: &mut fmt::Formatter<W>) -> fmt::Result {
        match self {
            SourceFault::Errors(errors) => {
                let count = errors.len();
                write!(f, "{count} mistakes")
            }
            SourceFault::OutOfMemory => write!(f, "out of memory"),
        }
    }
}

impl<A: Allocator> Error for SourceFault<A> {}

impl<A: Allocator> From<AllocError> for SourceFault<A> {
    fn from(_: AllocError) -> Self {
        SourceFault::OutOfMemory
    }
}
