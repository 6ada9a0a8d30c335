//! What is defined so far, and how much may still be read.

ghost use Rattle.std.specs.Prelude.{◌≡◌, ◌+◌, ◌*◌, true, false, nat_le, Some, None, IfSome, IfNone, MatchOption, is_none, is_some};
ghost use Rattle.std.specs.Bool.{OnTrue, OnFalse};
ghost use Rattle.rrs_asm_macros.specs.Symbols.{Defines, symbols_of, symbols_of_line};
ghost use Rattle.rrs_asm_macros.specs.Tables.{Spends, macro_named};
ghost use Rattle.rrs_asm_macros.specs.Reading.{IsAtHead};
ghost use Rattle.rrs_asm_lines.specs.Lines.{word};
ghost use Rattle.rrs_asm_macros.specs.Operands.{capped};

use crate::arguments::{Parameter, arguments, take_parameters};
use crate::cursor::Cursor;
use crate::directives::directive_named;
use crate::errors::{Halt, MacroErrorKind, Slip};
use crate::frames::Frame;
use crate::scanning::{behind_labels, first_statement};
use crate::substitution::substitute;
use crate::symbols::Symbols;
use rrs_asm_lines::split_word;
use std::alloc::Allocator;
use std::collections::BTreeMap;

/// The most that may be read, 128 MiB: the bytes of lines, each as often as it is read, and what
/// each line, statement, call and repetition counts beside them.
const MOST_READ: usize = 0x800_0000;

/// What a call, and a repetition, counts beside its lines, in bytes that are read.
const OF_ENTRY: usize = 256;

/// What a line counts beside its bytes.
const OF_LINE: usize = 28;

/// What a statement that is one of macros counts beside its bytes.
const OF_STATEMENT: usize = 48;

/// What so many lines of so many bytes count at least.
pub fn weight_of(bytes: usize, lines: usize) -> usize {
    bytes.saturating_add(lines.saturating_mul(OF_LINE))
}

/// The lines of a macro.
#[derive(Drop)]
pub struct Lines<A: Allocator> {
    pub text: Vec<u8, A>,
    /// The line of the source that the first is of.
    pub first: usize,
    /// How many lines there are.
    pub height: usize,
}

/// A macro.
#[derive(Drop)]
struct Macro<A: Allocator> {
    parameters: Vec<Parameter<A>, A>,
    /// Its lines, if it has any.
    body: Option<Lines<A>>,
}

/// What is defined so far.
#[derive(Drop)]
pub struct Tables<A: Allocator> {
    pub alloc: A,
    macros: BTreeMap<Vec<u8, A>, Macro<A>, A>,
    pub symbols: Symbols<A>,
    /// How many calls were made.
    pub calls: u64,
    /// How many bytes may still be read.
    left: usize,
    /// The first mistake in what is read, or that memory is missing.
    pub mistake: Option<Halt>,
}

impl<A: Allocator + Copy> Tables<A> {
    /// Nothing is defined.
    pub fn new(alloc: A) -> Self
        ensures calls { result.calls ≡ 0 }
        ensures left { result.left ≡ 0x8000000 }
        ensures mistake { result.mistake ≡ None }
        ensures long { result.symbols.is_short ≡ false }
    {
        Tables {
            alloc,
            macros: BTreeMap::new(alloc),
            symbols: Symbols::new(alloc),
            calls: 0,
            left: MOST_READ,
            mistake: None,
        }
    }

    /// Keeps a mistake, or that memory is missing, if something is and nothing was before.
    pub fn keep(&mut self, mistake: Option<Halt>)
        ensures first { IfNone self.old.mistake (self.new.mistake ≡ mistake) }
        ensures others { OnTrue (is_some self.old.mistake) (self.new.mistake ≡ self.old.mistake) }
        ensures macros_kept { self.new.macros ≡ self.old.macros }
        ensures symbols_kept { self.new.symbols ≡ self.old.symbols }
        ensures calls_kept { self.new.calls ≡ self.old.calls }
        ensures left_kept { self.new.left ≡ self.old.left }
    {
        if self.mistake.is_none() {
            self.mistake = mistake;
        }
    }

    /// Whether so many bytes may still be read, once and so often again.
    pub fn has_left(&self, bytes: usize, copies: u64) -> bool
        ensures { result ≡ nat_le (capped (capped (bytes + 1) * capped (copies + 1)))
            self.now.left }
    {
        let lines = (bytes as u64).saturating_add(1);
        lines.saturating_mul(copies.saturating_add(1)) <= self.left as u64
    }

    /// Counts bytes that are read.
    pub fn spend(&mut self, bytes: usize, left: usize)
        ensures { Spends self.old self.new bytes left }
    {
        match self.left.checked_sub(bytes) {
            Some(rest) => self.left = rest,
            None => {
                let kind = MacroErrorKind::Much;
                self.keep(Some(Halt::Slip(Slip { kind, left })));
            }
        }
    }

    /// Counts a line of so many bytes.
    pub fn spend_line(&mut self, bytes: usize, left: usize)
        ensures { Spends self.old self.new (capped (bytes + 28)) left }
    {
        self.spend(bytes.saturating_add(OF_LINE), left);
    }

    /// Counts a statement of macros that has so many bytes.
    pub fn spend_statement(&mut self, bytes: usize, left: usize)
        ensures { Spends self.old self.new (capped (bytes + 48)) left }
    {
        self.spend(bytes.saturating_add(OF_STATEMENT), left);
    }

    /// Counts lines of so many bytes that are read next: a call's, or a repetition's.
    pub fn enter(&mut self, bytes: usize, left: usize)
        ensures { Spends self.old self.new (capped (bytes + 256)) left }
    {
        self.spend(bytes.saturating_add(OF_ENTRY), left);
    }

    /// Whether a word is the name of a macro, in capitals or not.
    pub fn is_macro(&mut self, word: &[u8]) -> bool
        ensures known { OnTrue result (is_some (macro_named word.now self.old) ≡ true) }
        ensures unknown { OnTrue (is_none self.new.mistake)
            (OnFalse result (macro_named word.now self.old ≡ None)) }
        ensures macros_kept { self.new.macros ≡ self.old.macros }
        ensures left_kept { self.new.left ≡ self.old.left }
    {
        if self.macros.is_empty() {
            return false;
        }
        match word.to_ascii_lowercase(self.alloc) {
            Ok(name) => self.macros.get(name.as_slice()).is_some(),
            Err(_) => {
                self.keep(Some(Halt::OutOfMemory));
                false
            }
        }
    }

    /// Whether no statement of a line is a directive of macros or calls one.
    pub fn is_plain(&mut self, line: &[u8]) -> bool {
        let mut rest = Some(line);
        for _ in 0..=line.len() {
            let Some(left) = rest else {
                break;
            };
            let statement = first_statement(left);
            let (word, _) = split_word(behind_labels(statement.code));
            if directive_named(word).is_some() || self.is_macro(word) {
                return false;
            }
            rest = statement.others;
        }
        true
    }

    /// Defines what a statement that is no directive of macros defines.
    pub fn note(&mut self, code: &[u8])
        ensures short { OnTrue self.new.symbols.is_short (is_some self.new.mistake ≡ true) }
        ensures macros_kept { self.new.macros ≡ self.old.macros }
        ensures calls_kept { self.new.calls ≡ self.old.calls }
        ensures left_kept { self.new.left ≡ self.old.left }
        ensures defines { Defines self.old.symbols self.new.symbols (symbols_of code.now) }
    {
        self.symbols.note(code);
        if self.symbols.is_short {
            self.keep(Some(Halt::OutOfMemory));
        }
    }

    /// Defines what a line of such statements defines.
    pub fn note_line(&mut self, line: &[u8])
        ensures defines { Defines self.old.symbols self.new.symbols (symbols_of_line line.now) }
        ensures macros_kept { self.new.macros ≡ self.old.macros }
        ensures calls_kept { self.new.calls ≡ self.old.calls }
        ensures left_kept { self.new.left ≡ self.old.left }
    {
        let mut rest = Some(line);
        for _passed in 0..line.len() + 1 {
            let Some(left) = rest else {
                break;
            };
            let statement = first_statement(left);
            self.note(statement.code);
            rest = statement.others;
        }
    }

    /// Defines a macro with a name, parameters and a body.
    pub fn define(&mut self, cursor: &mut Cursor, body: Option<Lines<A>>)
        ensures defined { OnTrue (is_none self.new.mistake)
            (is_some (macro_named (word cursor.old.rest.now) self.new) ≡ true) }
        ensures duplicate { OnTrue (is_some (macro_named (word cursor.old.rest.now) self.old))
            (is_some self.new.mistake ≡ true) }
        ensures body { OnTrue (is_none self.new.mistake) (IfSome (macro_named
            (word cursor.old.rest.now) self.new) (λ own. own.body ≡ body)) }
    {
        let slip = cursor.slip(MacroErrorKind::Duplicate);
        let name = cursor.name();
        cursor.skip_comma();
        let parameters = take_parameters(self.alloc, cursor);
        self.keep(cursor.mistake);
        if self.is_macro(name) {
            self.keep(Some(Halt::Slip(slip)));
        }
        if self.mistake.is_none() {
            self.add(name, Macro { parameters, body });
        }
    }

    /// Adds a macro.
    fn add(&mut self, name: &[u8], definition: Macro<A>)
        ensures { OnTrue (is_none self.new.mistake)
            (macro_named name.now self.new ≡ Some definition) }
    {
        match name.to_ascii_lowercase(self.alloc) {
            Ok(name) => match self.macros.insert(name, definition) {
                Ok(_) => (),
                Err(_) => self.keep(Some(Halt::OutOfMemory)),
            },
            Err(_) => self.keep(Some(Halt::OutOfMemory)),
        }
    }

    /// Removes the macros that are named.
    pub fn purge(&mut self, cursor: &mut Cursor) {
        for _ in 0..u64::MAX {
            self.purge_one(cursor);
            if !cursor.take_if(b",") {
                break;
            }
        }
        cursor.end();
    }

    /// Removes the macro that is named.
    fn purge_one(&mut self, cursor: &mut Cursor)
        ensures gone { OnTrue (is_none cursor.new.mistake)
            (macro_named (word cursor.old.rest.now) self.new ≡ None) }
        ensures known { OnTrue (is_none cursor.new.mistake)
            (is_some (macro_named (word cursor.old.rest.now) self.old) ≡ true) }
    {
        let slip = cursor.slip(MacroErrorKind::NoMacro);
        match cursor.name().to_ascii_lowercase(self.alloc) {
            Ok(name) => cursor.want(self.macros.remove(name.as_slice()).is_some(), slip),
            Err(_) => cursor.keep(false),
        }
    }

    /// The lines that a call of the macro with a name stands for, if there are any.
    pub fn called(&self, word: &[u8], cursor: &mut Cursor) -> Option<Frame<A>>
        ensures none { OnTrue (is_none cursor.new.mistake) (IfNone result
            (IfSome (macro_named word.now self.now) (λ own. own.body ≡ None))) }
    {
        match word.to_ascii_lowercase(self.alloc) {
            Ok(name) => {
                let definition = self.macros.get(name.as_slice())?;
                self.lines_of(definition, cursor)
            }
            Err(_) => {
                cursor.keep(false);
                None
            }
        }
    }

    /// The lines of a macro with the arguments of a call, if there are any.
    fn lines_of(&self, definition: &Macro<A>, cursor: &mut Cursor) -> Option<Frame<A>>
        ensures lines { MatchOption result (definition.now.body ≡ None)
            (λ frame. IfSome definition.now.body
            (λ body. IsAtHead frame.reader body.first body.height 0)) }
    {
        let parameters = &definition.parameters;
        let values = arguments(self.alloc, cursor, parameters);
        let body = definition.body.as_ref()?;
        let mut text = Vec::new(self.alloc);
        if cursor.mistake.is_none() {
            let substituted = substitute(
                self.alloc, &body.text, parameters, &values, self.calls, &mut text,
            );
            cursor.keep(substituted.is_ok());
        }
        Some(Frame::new(self.alloc, text, body.first, body.height, 0))
    }
}
