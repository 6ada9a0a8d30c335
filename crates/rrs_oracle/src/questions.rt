//! Questions, and what is wrong with lines that are none.

ghost use Rattle.std.specs.Prelude.{◌≡◌, ◌≤◌, ◌<◌};

use std::alloc::{AllocError, AllocFailed};
use std::error::Error;
use std::fmt;

/// The most steps that a question may ask for.
pub const MOST_STEPS: u32 = 1_000_000;

/// A register: its number, 0 to 31.
#[derive(Clone, Copy)]
pub struct Register {
    pub index: usize,
    ghost in_range: { index < 32 },
}

/// Steps that are asked for, and the state that they begin in.
#[derive(Drop)]
pub struct Steps {
    /// How many steps.
    pub count: u32,
    /// The program counter.
    pub pc: u32,
    /// The register that was written last.
    pub last: Option<Register>,
    /// All entries of the registers, that of x0 among them.
    pub registers: [u32; 32],
    /// The words of the memory, from address 0 on.
    pub memory: Vec<u32>,
    ghost few: { count ≤ 1000000 },
}

/// What a line asks.
#[derive(Drop)]
pub enum Question {
    /// The row of a word: its number and name.
    Decode(u32),
    /// The text of a word at an address.
    Text { pc: u32, word: u32 },
    /// What steps return, and the state that they leave.
    Steps(Steps),
}

/// What is wrong with a line.
#[derive(Debug, PartialEq, Drop)]
pub enum ParseErrorKind {
    /// There is nothing on it.
    EmptyLine,
    /// Its bytes are no text.
    NotText,
    /// Its first word is no question.
    NoQuestion,
    /// This part is missing, or another one is in its place.
    Missing(&'static str),
    /// Text follows the last part.
    TextAtEnd,
    /// This part is not a word of 8 digits.
    NotWord(&'static str),
    /// The number of steps is no number.
    NotCount,
    /// More steps than are made for a question.
    TooManySteps,
    /// A register has another name than x0 to x31.
    NotRegister,
    /// A register's value is left out.
    NoValue,
    /// A register that is listed is 0.
    ZeroListed,
    /// A register comes after itself or a higher one.
    OutOfOrder,
}

impl fmt::Display for ParseErrorKind {
    fn fmt<W: fmt::Write>(&self, f: &mut fmt::Formatter<W>) -> fmt::Result {
        f.write_str(match self {
            ParseErrorKind::EmptyLine => "empty line",
            ParseErrorKind::NotText => "the line is not UTF-8",
            ParseErrorKind::NoQuestion => "the line begins with no known question",
            ParseErrorKind::Missing(part) => return write!(f, "{part} is missing or out of place"),
            ParseErrorKind::TextAtEnd => "there is more after the last part",
            ParseErrorKind::NotWord(part) => {
                return write!(f, "{part} is not 0x and 8 lower-case hexadecimal digits");
            }
            ParseErrorKind::NotCount => "N is not a decimal number of 1 to 7 digits",
            ParseErrorKind::TooManySteps => return write!(f, "more than {MOST_STEPS} steps"),
            ParseErrorKind::NotRegister => "a register is not one of x0 to x31",
            ParseErrorKind::NoValue => "a register has no value",
            ParseErrorKind::ZeroListed => "a register that is 0 is listed",
            ParseErrorKind::OutOfOrder => "a register is out of order or listed twice",
        })
    }
}

/// Why a line gives no question.
#[derive(Debug, PartialEq, Drop)]
pub enum ParseError {
    /// The line is malformed.
    Malformed(ParseErrorKind),
    /// Out of memory for the question.
    OutOfMemory,
}

impl fmt::Display for ParseError {
    fn fmt<W: fmt::Write>(&self, f: &mut fmt::Formatter<W>) -> fmt::Result {
        match self {
            ParseError::Malformed(kind) => kind.fmt(f),
            ParseError::OutOfMemory => f.write_str("out of memory"),
        }
    }
}

impl Error for ParseError {}

impl From<ParseErrorKind> for ParseError {
    fn from(kind: ParseErrorKind) -> ParseError {
        ParseError::Malformed(kind)
    }
}

impl From<AllocError> for ParseError {
    ghost use Rattle.rrs_oracle.specs.declared.questions.ParseError.TheVariants.{OutOfMemory};

    ghost from_gives = { λ _ e. e ≡ OutOfMemory };

    fn from(_failure: AllocError) -> ParseError {
        ParseError::OutOfMemory
    }
}

impl<T: Drop> From<AllocFailed<T>> for ParseError {
    ghost use Rattle.rrs_oracle.specs.declared.questions.ParseError.TheVariants.{OutOfMemory};

    ghost from_gives = { λ _ e. e ≡ OutOfMemory };

    fn from(_failure: AllocFailed<T>) -> ParseError {
        ParseError::OutOfMemory
    }
}
