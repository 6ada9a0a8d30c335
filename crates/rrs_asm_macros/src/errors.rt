//! What can be wrong with macros, conditions and repetitions.

ghost use Rattle.std.specs.Prelude.{◌≡◌, false, None, Some};
ghost use Rattle.std.specs.Bool.{OnTrue};
ghost use Rattle.std.specs.Option.{option_and_then, option_map};
ghost use Rattle.rrs_asm_macros.specs.Mistakes.{fault_told, is_last, is_of_word, line_with, plain_word, told, words_of};

use rrs_asm_lines::{first_line, split_word};
use std::alloc::{AllocError, AllocFailed, Allocator, Global};
use std::error::Error;
use std::fmt;

/// What is wrong at a place of a source.
#[derive(Debug, PartialEq, Clone, Copy)]
pub enum MacroErrorKind {
    /// A macro or a repetition has no end.
    Unended,
    /// A condition has no `.endif` in the same source, macro or repetition.
    UnendedCondition,
    /// `.endm` or `.endr` ends nothing.
    EndAlone,
    /// There is no `.if` before `.else`, `.elseif` or `.endif`.
    NoCondition,
    /// `.else` or `.elseif` stands after `.else`.
    SecondElse,
    /// `.exitm` stands in no macro and no repetition.
    NothingToLeave,
    /// There is no name where one is wanted.
    Name,
    /// The macro is defined already.
    Duplicate,
    /// The macro has this parameter already.
    DuplicateParameter,
    /// A parameter is neither `req` nor `vararg`.
    Qualifier,
    /// A parameter stands after the one that takes all that is left.
    BehindRest,
    /// A macro has more than 256 parameters.
    Parameters,
    /// There is no macro of this name.
    NoMacro,
    /// The macro has no parameter of this name.
    NoParameter,
    /// There are more arguments than parameters.
    Arguments,
    /// An argument with no name stands after one with a name.
    Mixed,
    /// An argument that has to be there is not.
    Missing,
    /// There is no number or symbol where a value is wanted.
    Value,
    /// A number is not written as one, or has more than 64 bits.
    Number,
    /// A parenthesis is not closed.
    Parenthesis,
    /// More operators and parentheses wait for their values than can.
    Operators,
    /// A number is divided by zero.
    Division,
    /// The value is not known at this place, since it depends on an address.
    NotConstant,
    /// A repetition is made a negative number of times.
    Negative,
    /// A string or a comma is wanted here.
    Strings,
    /// The statement is complete, and there is more.
    More,
    /// Macros and repetitions are nested too deeply.
    Deep,
    /// What is made is too much.
    Much,
    /// A directive is left in the result.
    LeftOver,
}

impl MacroErrorKind {
    /// Whether nothing after the mistake is read.
    pub fn is_last(self) -> bool
        ensures { result ≡ is_last self }
    {
        matches!(self, MacroErrorKind::Deep | MacroErrorKind::Much)
    }

    /// Whether it is wrong of the word at its place.
    fn is_of_word(self) -> bool
        ensures { result ≡ is_of_word self }
    {
        matches!(
            self,
            MacroErrorKind::Duplicate
                | MacroErrorKind::DuplicateParameter
                | MacroErrorKind::NoMacro
                | MacroErrorKind::NoParameter
                | MacroErrorKind::Number
                | MacroErrorKind::NotConstant
        )
    }
}

impl fmt::Display for MacroErrorKind {
    ghost output = { λ kind. Some (words_of kind) };

    fn fmt<W: fmt::Write>(&self, f: &mut fmt::Formatter<W>) -> fmt::Result {
        f.write_str(match self {
            MacroErrorKind::Unended => "there is no .endm or .endr of this macro or repetition",
            MacroErrorKind::UnendedCondition => "there is no .endif for this condition",
            MacroErrorKind::EndAlone => "this ends no macro and no repetition",
            MacroErrorKind::NoCondition => "there is no .if before",
            MacroErrorKind::SecondElse => "there is an .else before",
            MacroErrorKind::NothingToLeave => ".exitm stands in no macro",
            MacroErrorKind::Name => "a name is wanted here",
            MacroErrorKind::Duplicate => "macro is defined already",
            MacroErrorKind::DuplicateParameter => "the macro has this parameter already",
            MacroErrorKind::Qualifier => "req or vararg is wanted here",
            MacroErrorKind::BehindRest => "a parameter after the one that is vararg",
            MacroErrorKind::Parameters => "too many parameters",
            MacroErrorKind::NoMacro => "there is no macro of this name",
            MacroErrorKind::NoParameter => "the macro has no parameter of this name",
            MacroErrorKind::Arguments => "too many arguments",
            MacroErrorKind::Mixed => "an argument without a name after one with a name",
            MacroErrorKind::Missing => "an argument that the macro requires is missing",
            MacroErrorKind::Value => "a value is wanted here",
            MacroErrorKind::Number => "not a number of 64 bits",
            MacroErrorKind::Parenthesis => "a parenthesis is wanted here",
            MacroErrorKind::Operators => "too many operators and parentheses",
            MacroErrorKind::Division => "division by zero",
            MacroErrorKind::NotConstant => "the value has to be known here, and is not",
            MacroErrorKind::Negative => "a negative number of repetitions",
            MacroErrorKind::Strings => "two strings with a comma are wanted here",
            MacroErrorKind::More => "more than the statement takes",
            MacroErrorKind::Deep => "macros are nested too deeply",
            MacroErrorKind::Much => "macros and repetitions make too much",
            MacroErrorKind::LeftOver => "a directive of macros is left",
        })
    }
}

/// A mistake and its place.
#[derive(Debug, PartialEq, Clone, Copy)]
pub struct MacroError {
    /// The line of the source, counted from 1. In a macro or a repetition it is that of its body.
    pub line: usize,
    /// The byte of the line, counted from 1. In a macro it is that of the line with the arguments
    /// in the places of the parameters.
    pub column: usize,
    /// What is wrong there.
    pub kind: MacroErrorKind,
}

impl fmt::Display for MacroError {
    ghost output = { λ mistake. Some (told mistake) };

    fn fmt<W: fmt::Write>(&self, f: &mut fmt::Formatter<W>) -> fmt::Result {
        let line = self.line;
        let column = self.column;
        let kind = self.kind;
        write!(f, "{line}:{column}: {kind}")
    }
}

impl MacroError {
    /// The word of a source that is wrong, where the mistake is in one. None where the line may
    /// have arguments, since the mistake stands in it as they make it.
    pub fn word<'a>(&self, source: &'a [u8]) -> Option<&'a [u8]>
        ensures other { is_of_word self.now.kind ≡ false → result ≡ None }
        ensures word { OnTrue (is_of_word self.now.kind) (option_map (λ found. found.now) result
            ≡ option_and_then (plain_word self.now.column) (line_with self.now.line source.now)) }
    {
        if !self.kind.is_of_word() {
            return None;
        }
        let mut above = self.line.checked_sub(1)?;
        let mut rest = Some(source);
        while let Some(text) = rest {
            let (line, others) = first_line(text);
            if above == 0 {
                return word_from(line, self.column);
            }
            above -= 1;
            rest = others;
        }
        None
    }
}

/// The word of a line without arguments that begins at a column.
fn word_from(line: &[u8], column: usize) -> Option<&[u8]>
    ensures { option_map (λ found. found.now) result ≡ plain_word column line.now }
{
    if line.contains(&b'\\') {
        return None;
    }
    let (word, _) = split_word(line.get(column.saturating_sub(1)..)?);
    if word.is_empty() { None } else { Some(word) }
}

/// Why a source is not expanded.
#[derive(Drop)]
#[derive_where(Debug)]
pub enum MacroFault<A: Allocator = Global> {
    /// The mistakes, in the order in which they are met, up to 20.
    Mistakes(Vec<MacroError, A>),
    /// Out of memory.
    OutOfMemory,
}

impl<A: Allocator> fmt::Display for MacroFault<A> {
    ghost output = { λ fault. Some (fault_told fault) };

    fn fmt<W: fmt::Write>(&self, f: &mut fmt::Formatter<W>) -> fmt::Result {
        match self {
            MacroFault::Mistakes(mistakes) => {
                let count = mistakes.len();
                write!(f, "{count} mistakes")
            }
            MacroFault::OutOfMemory => write!(f, "out of memory"),
        }
    }
}

impl<A: Allocator> Error for MacroFault<A> {}

impl<A: Allocator> From<AllocError> for MacroFault<A> {
    ghost use Rattle.rrs_asm_macros.specs.declared.errors.MacroFault.{MacroFault};

    ghost from_gives = { λ _ fault. fault ≡ MacroFault.OutOfMemory };

    fn from(_: AllocError) -> Self {
        MacroFault::OutOfMemory
    }
}

impl<T: Drop, A: Allocator> From<AllocFailed<T>> for MacroFault<A> {
    ghost use Rattle.rrs_asm_macros.specs.declared.errors.MacroFault.{MacroFault};

    ghost from_gives = { λ _ fault. fault ≡ MacroFault.OutOfMemory };

    fn from(_: AllocFailed<T>) -> Self {
        MacroFault::OutOfMemory
    }
}

/// A mistake, and how many bytes of the text are left at its place.
#[derive(Clone, Copy)]
pub struct Slip {
    pub kind: MacroErrorKind,
    pub left: usize,
}

impl Slip {
    /// Another mistake at this place.
    pub fn with_kind(self, kind: MacroErrorKind) -> Self
        ensures { result ≡ record { kind = kind; left = self.left } }
    {
        Slip { kind, ..self }
    }
}

/// Why a statement is not performed.
#[derive(Clone, Copy)]
pub enum Halt {
    /// A mistake in it.
    Slip(Slip),
    /// Out of memory.
    OutOfMemory,
}
