//! What can be wrong in a line of a source.

use std::alloc::{AllocError, AllocFailed};
use std::fmt;

/// What is wrong at a place of a source.
#[derive(Debug, PartialEq, Clone, Copy)]
pub enum SourceErrorKind {
    /// There is no instruction and no directive of this name.
    Unknown,
    /// A statement, a label or an operand begins with a character that begins none.
    Character,
    /// There is no register where one is wanted.
    Register,
    /// There is no number, symbol or character constant where a value is wanted.
    Value,
    /// A number is not written as one, or has more than 32 bits.
    Number,
    /// A value is outside of the range that the instruction or the directive takes.
    Range,
    /// An offset is odd, or an address is not a multiple of what the directive asks.
    Unaligned,
    /// There is no comma where one is wanted.
    Comma,
    /// There is no parenthesis where one is wanted.
    Parenthesis,
    /// A string is not begun or not ended, or a character constant is not ended.
    Quote,
    /// There is no such escape in a string or a character constant.
    Escape,
    /// The statement is complete, and there is more.
    More,
    /// No label and no `.equ` defines the symbol.
    Undefined,
    /// The value has to be known here, and the symbol is defined further on.
    Later,
    /// The symbol is defined already.
    Duplicate,
    /// A section is not named, or has neither a name nor flags that say where it lies.
    Section,
    /// There are too many sections.
    Sections,
    /// `.bss` and its like hold zeros alone.
    Zeros,
    /// GNU `as` has the directive, and it is not implemented here.
    Unsupported,
    /// `%hi` or `%pcrel_hi`, where 12 bits are wanted.
    High,
    /// `%lo` or `%pcrel_lo`, where the upper 20 bits are wanted.
    Low,
    /// No statement with `%pcrel_hi` stands at the address that `%pcrel_lo` names.
    Distance,
    /// A number is divided by zero.
    Division,
    /// More operators and parentheses wait for their values than can.
    Deep,
    /// `.org` goes back.
    Backward,
    /// The address of an instruction is misaligned.
    Misplaced,
    /// The bytes are more than `MOST_BYTES`, or go past the end of addresses.
    TooLong,
    /// The two readings of the source put what stands here at different addresses.
    Moved,
}

impl fmt::Display for SourceErrorKind {
    fn fmt<W: fmt::Write>(&self, f: &mut fmt::Formatter<W>) -> fmt::Result {
        f.write_str(match self {
            SourceErrorKind::Unknown => "no such instruction or directive",
            SourceErrorKind::Character => "unexpected character",
            SourceErrorKind::Register => "a register is wanted here",
            SourceErrorKind::Value => "a value is wanted here",
            SourceErrorKind::Number => "not a number of 32 bits",
            SourceErrorKind::Range => "value out of range",
            SourceErrorKind::Unaligned => "not a multiple of what is wanted here",
            SourceErrorKind::Comma => "a comma is wanted here",
            SourceErrorKind::Parenthesis => "a parenthesis is wanted here",
            SourceErrorKind::Quote => "a quotation mark is wanted here",
            SourceErrorKind::Escape => "no such escape",
            SourceErrorKind::More => "more than the statement takes",
            SourceErrorKind::Undefined => "symbol is not defined",
            SourceErrorKind::Later => "symbol is defined later, and its value is wanted here",
            SourceErrorKind::Duplicate => "symbol is defined already",
            SourceErrorKind::Section =>
                "a section needs a name, and flags where its name says nothing",
            SourceErrorKind::Sections => "there are too many sections",
            SourceErrorKind::Zeros => "this section holds zeros only",
            SourceErrorKind::Unsupported => "not implemented",
            SourceErrorKind::High => "12 bits are wanted here, as %lo",
            SourceErrorKind::Low => "the upper 20 bits are wanted here, as %hi",
            SourceErrorKind::Distance => "no statement with %pcrel_hi is at this label",
            SourceErrorKind::Division => "division by zero",
            SourceErrorKind::Deep => "too many operators and parentheses",
            SourceErrorKind::Backward => "the address goes back",
            SourceErrorKind::Misplaced => "the address of an instruction is misaligned",
            SourceErrorKind::TooLong => "the program is too long",
            SourceErrorKind::Moved => "the address differs between the two readings",
        })
    }
}

/// A mistake, and how many bytes of the line are left at its place.
#[derive(Clone, Copy)]
pub struct LineError {
    /// What is wrong.
    pub kind: SourceErrorKind,
    /// How many bytes of the line are left.
    pub left: usize,
}

impl LineError {
    /// Another error at the same place.
    pub fn with_kind(self, kind: SourceErrorKind) -> LineError {
        LineError { kind, ..self }
    }
}

/// Why a statement is not read.
#[derive(Clone, Copy)]
pub enum Halt {
    /// A mistake in it.
    Error(LineError),
    /// Out of memory.
    OutOfMemory,
}

impl From<LineError> for Halt {
    fn from(error: LineError) -> Self {
        Halt::Error(error)
    }
}

impl From<AllocError> for Halt {
    fn from(_: AllocError) -> Self {
        Halt::OutOfMemory
    }
}

impl<T: Drop> From<AllocFailed<T>> for Halt {
    fn from(_: AllocFailed<T>) -> Self {
        Halt::OutOfMemory
    }
}
