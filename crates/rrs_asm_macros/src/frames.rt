//! What is being read: the source, and the macros and repetitions in it.

ghost use Rattle.std.specs.Prelude.{◌≡◌, ◌<◌, ◌-◌, ◌↔◌, IsTrue, Some, length};
ghost use Rattle.rrs_asm_macros.specs.Conditions.{is_skipped, next_part, unread};
ghost use Rattle.std.specs.Option.{option_copied, option_map};
ghost use Rattle.std.specs.Bool.{OnTrue, OnFalse};
ghost use Rattle.rrs_asm_macros.specs.Expanding.{line_of};
ghost use Rattle.rrs_asm_macros.specs.Mistakes.{mistake_at};
ghost use Rattle.rrs_asm_macros.specs.Reading.{BeginsAgain, GoesOn, IsAtHead, rest_of};

use crate::errors::{MacroError, Slip};
use std::alloc::Allocator;

/// A condition whose `.endif` is not met yet.
#[derive(Clone, Copy)]
pub struct Condition {
    /// Where it stands.
    pub place: MacroError,
    /// Whether its statements are read now.
    pub is_read: bool,
    /// Whether nothing of it is to be read any more.
    pub is_done: bool,
    /// Whether its `.else` was met.
    pub is_behind_else: bool,
}

impl Condition {
    /// A condition of which nothing is read so far, or of which nothing is to be read any more.
    pub fn new(place: MacroError, is_done: bool) -> Self
        ensures { result ≡ unread place is_done }
    {
        Condition {
            place,
            is_read: false,
            is_done,
            is_behind_else: false,
        }
    }

    /// The condition after `.else`, or after `.if` or `.elseif` with one that holds or does not.
    pub fn or(self, holds: bool, is_behind_else: bool) -> Self
        ensures { result ≡ next_part self holds is_behind_else }
    {
        Condition {
            is_read: holds && !self.is_done,
            is_done: holds || self.is_done,
            is_behind_else,
            ..self
        }
    }
}

/// How far a text is read.
#[derive(Drop)]
pub struct Reader<A: Allocator> {
    /// Where what is left begins.
    next: Option<usize>,
    /// Where its line begins.
    line_start: usize,
    /// The line of the source that its first line is of.
    first: usize,
    /// How many lines it has, before they are of the same lines of the source again.
    height: usize,
    /// How many of these lines are after.
    passed: usize,
    /// How often it is read once more.
    copies: u64,
    /// Whether it is the source.
    pub is_source: bool,
    /// The conditions whose `.endif` is not met yet, the innermost last.
    pub conditions: Vec<Condition, A>,
}

impl<A: Allocator + Copy> Reader<A> {
    /// What is left of its text.
    pub fn rest<'a>(&self, text: &'a [u8]) -> Option<&'a [u8]>
        ensures { option_copied result ≡ rest_of self.now.next text.now }
    {
        text.get(self.next?..)
    }

    /// Whether a line begins here.
    pub fn is_at_line(&self) -> bool
        ensures { IsTrue result ↔ (self.now.next ≡ Some self.now.line_start) }
    {
        self.next == Some(self.line_start)
    }

    /// Whether what stands here is not read, by a condition.
    pub fn is_skipping(&self) -> bool
        ensures { result ≡ is_skipped self.now.conditions.items }
    {
        match self.conditions.last() {
            Some(condition) => !condition.is_read,
            None => false,
        }
    }

    /// Goes on with what is left of its text, so many lines further on.
    pub fn go_on(&mut self, text: &[u8], others: Option<&[u8]>, lines: usize)
        ensures { GoesOn self.old self.new (length text.now)
            (option_map (λ behind. length behind.now) others.entry) lines }
    {
        self.next = match others {
            Some(others) => Some(text.len().saturating_sub(others.len())),
            None => None,
        };
        if lines > 0 {
            self.line_start = self.next.unwrap_or(text.len());
            let passed = self.passed.saturating_add(lines);
            self.passed = passed.checked_rem(self.height).unwrap_or(0);
        }
    }

    /// Begins again, if it is to be read once more.
    pub fn begin_again(&mut self) -> bool
        ensures again { OnTrue result (BeginsAgain self.old self.new) }
        ensures over { OnFalse result ((self.new ≡ self.old) × (self.old.copies ≡ 0)) }
    {
        match self.copies.checked_sub(1) {
            Some(copies) => {
                self.copies = copies;
                self.next = Some(0);
                self.line_start = 0;
                self.passed = 0;
                self.conditions.clear();
                true
            }
            None => false,
        }
    }

    /// The line that is read.
    pub fn origin(&self) -> Origin
        ensures number { result.number ≡ line_of self.now }
        ensures begins { result.line_start ≡ self.now.line_start }
    {
        Origin {
            number: self.first.saturating_add(self.passed),
            line_start: self.line_start,
        }
    }
}

/// Where a line begins.
#[derive(Clone, Copy)]
pub struct Origin {
    /// The line of the source that it is of.
    pub number: usize,
    /// Its first byte.
    line_start: usize,
}

impl Origin {
    /// A mistake in the line, of a text of so many bytes.
    pub fn mistake(self, length: usize, slip: Slip) -> MacroError
        ensures { length < usize.MAX
            → result ≡ mistake_at self.number self.line_start length slip }
    {
        let position = length.saturating_sub(slip.left);
        MacroError {
            line: self.number,
            column: position.saturating_sub(self.line_start).saturating_add(1),
            kind: slip.kind,
        }
    }
}

/// A text, and how far it is read.
#[derive(Drop)]
pub struct Frame<A: Allocator> {
    pub text: Vec<u8, A>,
    pub reader: Reader<A>,
}

impl<A: Allocator + Copy> Frame<A> {
    /// A text whose first line is of a line of the source, and so many lines later they are of the
    /// same lines of the source again. It is read once, and so often again.
    pub fn new(alloc: A, text: Vec<u8, A>, first: usize, height: usize, copies: u64) -> Self
        ensures text { result.text ≡ text }
        ensures head { IsAtHead result.reader first height copies }
    {
        let reader = Reader {
            next: Some(0),
            line_start: 0,
            first,
            height,
            passed: 0,
            copies,
            is_source: false,
            conditions: Vec::new(alloc),
        };
        Frame { text, reader }
    }
}
