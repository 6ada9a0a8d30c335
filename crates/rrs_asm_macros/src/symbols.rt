//! The symbols that a source has defined so far.

ghost use Rattle.std.specs.Prelude.{◌≡◌, ℕ, List, ◌∷◌, [], false, None, Some, is_some};
ghost use Rattle.std.specs.Bool.{OnFalse};
ghost use Rattle.std.specs.Option.{option_and_then};
ghost use Rattle.rrs_asm_macros.specs.Symbols.{Defines, constant_of, labels_of, named, named_before, sets_constant, sets_space, symbols_of};
ghost use Rattle.rrs_asm_macros.specs.Tables.{symbol_named};

use crate::cursor::Cursor;
use crate::scanning::{behind_labels, first_label};
use crate::values::value;
use rrs_asm_lines::split_word;
use std::alloc::Allocator;
use std::collections::BTreeMap;

/// Whether a word is a directive that defines a constant.
fn sets_constant(word: &[u8]) -> bool
    ensures { result ≡ sets_constant word.now }
{
    word == b".equ".as_slice() || word == b".set".as_slice() || word == b".equiv".as_slice()
}

/// Whether a word is a directive that defines a symbol of bytes that are zero.
fn sets_space(word: &[u8]) -> bool
    ensures { result ≡ sets_space word.now }
{
    word == b".comm".as_slice() || word == b".lcomm".as_slice()
}

/// The symbols that are defined so far.
#[derive(Drop)]
pub struct Symbols<A: Allocator> {
    alloc: A,
    /// The value of each, where it is a number that is known.
    values: BTreeMap<Vec<u8, A>, Option<u64>, A>,
    /// Whether memory was missing for one.
    pub is_short: bool,
}

impl<A: Allocator + Copy> Symbols<A> {
    /// None.
    pub fn new(alloc: A) -> Self
        ensures none { (name : List ℕ) → symbol_named name result ≡ None }
        ensures long { result.is_short ≡ false }
    {
        Symbols {
            alloc,
            values: BTreeMap::new(alloc),
            is_short: false,
        }
    }

    /// Whether a symbol is defined.
    pub fn is_defined(&self, name: &[u8]) -> bool
        ensures { result ≡ is_some (symbol_named name.now self.now) }
    {
        self.values.get(name).is_some()
    }

    /// The value of a symbol, where it is a number that is known.
    pub fn value_of(&self, name: &[u8]) -> Option<u64>
        ensures { result ≡ option_and_then (λ value. value) (symbol_named name.now self.now) }
    {
        *self.values.get(name)?
    }

    /// Defines a symbol.
    fn define(&mut self, name: &[u8], value: Option<u64>)
        ensures defined { OnFalse self.new.is_short
            (symbol_named name.now self.new ≡ Some value) }
        ensures others { Defines self.old self.new (name.now ∷ []) }
    {
        match Vec::from_slice(self.alloc, name) {
            Ok(key) => match self.values.insert(key, value) {
                Ok(_) => (),
                Err(_) => self.is_short = true,
            },
            Err(_) => self.is_short = true,
        }
    }

    /// Defines what a statement that is no directive of macros defines: its labels, and a constant.
    pub fn note(&mut self, code: &[u8])
        ensures { Defines self.old self.new (symbols_of code.now) }
    {
        self.note_labels(code);
        self.note_constant(behind_labels(code));
    }

    /// Defines the labels of a statement.
    fn note_labels(&mut self, code: &[u8])
        ensures { Defines self.old self.new (labels_of code.now) }
    {
        let mut rest = code;
        for _passed in 0..code.len() {
            match first_label(rest) {
                Some((name, others)) => {
                    self.define(name, None);
                    rest = others;
                }
                None => break,
            }
        }
    }

    /// Defines the constant that a statement with no labels defines, if it does.
    fn note_constant(&mut self, statement: &[u8])
        ensures { Defines self.old self.new (constant_of statement.now) }
    {
        let (word, rest) = split_word(statement);
        let (operand, others) = split_word(rest);
        if sets_space(word) {
            self.define_named(operand, None);
        } else if sets_constant(word) {
            self.note_value(operand, others, b',');
        } else {
            self.note_value(word, rest, b'=');
        }
    }

    /// Defines a symbol, if the name is one.
    fn define_named(&mut self, name: &[u8], value: Option<u64>)
        ensures { Defines self.old self.new (named name.now) }
    {
        if !name.is_empty() {
            self.define(name, value);
        }
    }

    /// Defines a constant where this mark stands between its name and its value.
    fn note_value(&mut self, name: &[u8], operands: &[u8], mark: u8)
        ensures { Defines self.old self.new (named_before mark name.now operands.now) }
    {
        let mut cursor = Cursor::new(operands, 0);
        if cursor.take_if(&[mark]) {
            if mark == b'=' {
                let _ = cursor.take_next(b'=');
            }
            let value = value(&mut cursor, self);
            let is_known = cursor.is_over() && cursor.mistake.is_none();
            self.define_named(name, is_known.then_some(value));
        }
    }
}
