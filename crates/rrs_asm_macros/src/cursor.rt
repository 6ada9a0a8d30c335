//! Reading the operands of a statement.
//!
//! GNU `as` takes blanks out of operands before it looks at macros: it keeps one where a letter, a
//! digit or a quotation mark stands on both sides. So `1 + 2` is one argument, and `1 2` are two.

ghost use Rattle.std.specs.Prelude.{◌≡◌, ◌≤◌, ◌++◌, ◌∷◌, [], false, Some, None, MatchOption, IfSome, IfNone, length, drop, take, is_none, ◌==◌};
ghost use Rattle.std.specs.Bool.{OnTrue, OnFalse};
ghost use Rattle.rrs_asm_lines.specs.Lines.{begins_with, behind_blanks, behind_word, is_name, word};
ghost use Rattle.rrs_asm_macros.specs.Operands.{Halts, Reads, behind_mark, keeps_blank, next_byte, slip_at};

use crate::errors::{Halt, MacroErrorKind, Slip};
use rrs_asm_lines::{
    Operator, behind_blanks, is_in_word, is_name, operator_before, operator_between, split_word,
};
use std::alloc::Allocator;

/// What is left of the operands of a statement.
///
/// Where something else stands than what is wanted, that mistake is kept, and all that is left is
/// taken. So what follows finds no more, and the first mistake stays.
#[derive(Clone, Copy)]
pub struct Cursor<'a> {
    rest: &'a [u8],
    /// How many bytes of the text are after the statement.
    behind: usize,
    /// The byte that was taken last.
    before: u8,
    /// The first mistake in them, or that memory is missing.
    pub mistake: Option<Halt>,
}

/// Whether a blank between two bytes means something.
fn keeps_blank(before: u8, after: u8) -> bool
    ensures { result ≡ keeps_blank before after }
{
    (is_in_word(before) || before == b'"')
        && (is_in_word(after) || matches!(after, b'"' | b'\'' | b'\\'))
}

impl<'a> Cursor<'a> {
    /// The operands of a statement, with so many bytes of the text after it.
    pub fn new(operands: &'a [u8], behind: usize) -> Self
        ensures rest { result.rest.now ≡ operands.now }
        ensures behind { result.behind ≡ behind }
        ensures mistake { result.mistake ≡ None }
    {
        Cursor {
            rest: operands,
            behind,
            before: b' ',
            mistake: None,
        }
    }

    /// Keeps a mistake, if it is the first one, or that memory is missing, and takes all that is
    /// left.
    fn halt(&mut self, halt: Halt)
        ensures { Halts self.old self.new halt }
    {
        if self.mistake.is_none() {
            self.mistake = Some(halt);
        }
        self.rest = &self.rest[self.rest.len()..];
    }

    /// Keeps a mistake, if it is the first one.
    pub fn fail(&mut self, slip: Slip)
        ensures { Halts self.old self.new (Halt.Slip slip) }
    {
        self.halt(Halt::Slip(slip));
    }

    /// Keeps a mistake where something is not as it has to be.
    pub fn want(&mut self, is_right: bool, slip: Slip)
        ensures right { OnTrue is_right (self.new ≡ self.old) }
        ensures wrong { OnFalse is_right (Halts self.old self.new (Halt.Slip slip)) }
    {
        if !is_right {
            self.fail(slip);
        }
    }

    /// Keeps that memory is missing where something could not be kept.
    pub fn keep(&mut self, is_kept: bool)
        ensures kept { OnTrue is_kept (self.new ≡ self.old) }
        ensures short { OnFalse is_kept (Halts self.old self.new Halt.OutOfMemory) }
    {
        if !is_kept {
            self.halt(Halt::OutOfMemory);
        }
    }

    /// Appends a byte to a text.
    pub fn put<A: Allocator>(&mut self, byte: u8, text: &mut Vec<u8, A>)
        ensures put { OnTrue (is_none self.new.mistake)
            (text.new.items ≡ text.old.items ++ byte ∷ []) }
        ensures kept { OnTrue (is_none self.new.mistake) (self.new ≡ self.old) }
        ensures first { IfSome self.old.mistake (λ halt. self.new.mistake ≡ Some halt) }
        ensures no_more { length self.new.rest.now ≤ length self.old.rest.now }
    {
        let is_kept = text.push(byte).is_ok();
        self.keep(is_kept);
    }

    /// A mistake at this place, after blanks.
    pub fn slip(&self, kind: MacroErrorKind) -> Slip
        ensures { result ≡ slip_at self.now.rest.now self.now.behind kind }
    {
        Slip {
            kind,
            left: behind_blanks(self.rest).len().saturating_add(self.behind),
        }
    }

    /// The next byte, with no blank that means nothing, and what is after it.
    fn next(&self) -> Option<(u8, &'a [u8])>
        ensures { MatchOption result (next_byte self.now.before self.now.rest.now ≡ None)
            (λ next. next_byte self.now.before self.now.rest.now
            ≡ Some (record { 0 = next.0; 1 = next.1.now })) }
    {
        let after = behind_blanks(self.rest);
        let (byte, others) = after.split_first()?;
        if after.len() < self.rest.len() && keeps_blank(self.before, *byte) {
            Some((b' ', after))
        } else {
            Some((*byte, others))
        }
    }

    /// Takes the next byte, with no blank that means nothing.
    pub fn take(&mut self) -> Option<u8>
        ensures over { IfNone result ((next_byte self.old.before self.old.rest.now ≡ None)
            × (self.new ≡ self.old)) }
        ensures byte { IfSome result (λ byte. (next_byte self.old.before self.old.rest.now
            ≡ Some (record { 0 = byte; 1 = self.new.rest.now })) × (self.new.before ≡ byte)) }
        ensures mistake_kept { self.new.mistake ≡ self.old.mistake }
        ensures behind_kept { self.new.behind ≡ self.old.behind }
    {
        let (byte, rest) = self.next()?;
        self.rest = rest;
        self.before = byte;
        Some(byte)
    }

    /// The next byte, with no blank that means nothing.
    pub fn peek(&self) -> Option<u8>
        ensures { MatchOption result (next_byte self.now.before self.now.rest.now ≡ None)
            (λ byte. IfSome (next_byte self.now.before self.now.rest.now) (λ next. next.0 ≡ byte)) }
    {
        let (byte, _) = self.next()?;
        Some(byte)
    }

    /// Takes these bytes, if they are the next ones after blanks.
    pub fn take_if(&mut self, wanted: &[u8]) -> bool
        ensures taken { OnTrue result (Reads self.old self.new
            (drop (length wanted.now) (behind_blanks self.old.rest.now))) }
        ensures there { OnTrue result (take (length wanted.now) (behind_blanks self.old.rest.now)
            ≡ wanted.now) }
        ensures absent { OnFalse result (take (length wanted.now)
            (behind_blanks self.old.rest.now) ≡ wanted.now → ⊥) }
        ensures kept { OnFalse result (self.new ≡ self.old) }
    {
        match behind_blanks(self.rest).strip_prefix(wanted) {
            Some(rest) => {
                self.rest = rest;
                self.before = b' ';
                true
            }
            None => false,
        }
    }

    /// Takes the operator before a value that is next: none stands for a plus.
    pub fn operator_before(&mut self) -> Option<Option<Operator>>
        ensures reads { IfSome result (λ _. Reads self.old self.new
            (behind_mark self.old.rest.now)) }
        ensures none { IfNone result (self.new ≡ self.old) }
    {
        let (byte, rest) = behind_blanks(self.rest).split_first()?;
        let operator = operator_before(*byte)?;
        self.rest = rest;
        self.before = b' ';
        Some(operator)
    }

    /// Takes the operator between two values that is next.
    pub fn operator_between(&mut self) -> Option<Operator>
        ensures there { IfSome result (λ _.
            length (behind_blanks self.old.rest.now) == 0 ≡ false) }
        ensures none { IfNone result (self.new ≡ self.old) }
        ensures mistake_kept { self.new.mistake ≡ self.old.mistake }
        ensures behind_kept { self.new.behind ≡ self.old.behind }
    {
        let rest = behind_blanks(self.rest);
        let (first, second) = match rest {
            [first, second, ..] => (*first, *second),
            [first] => (*first, b' '),
            [] => return None,
        };
        let (operator, count) = operator_between(first, second)?;
        self.rest = rest.get(count..).unwrap_or(&[]);
        self.before = b' ';
        Some(operator)
    }

    /// Takes the next byte, whatever it is.
    pub fn take_raw(&mut self) -> Option<u8>
        ensures over { IfNone result ((self.old.rest.now ≡ []) × (self.new ≡ self.old)) }
        ensures byte { IfSome result (λ byte. self.old.rest.now ≡ byte ∷ self.new.rest.now) }
        ensures mistake_kept { self.new.mistake ≡ self.old.mistake }
    {
        match self.rest {
            [byte, rest @ ..] => {
                self.rest = rest;
                self.before = *byte;
                Some(*byte)
            }
            [] => None,
        }
    }

    /// Takes a byte, if it is the next one and stands after no blank.
    pub fn take_next(&mut self, wanted: u8) -> bool
        ensures taken { OnTrue result (self.old.rest.now ≡ wanted ∷ self.new.rest.now) }
        ensures absent { OnFalse result (begins_with wanted self.old.rest.now ≡ false) }
        ensures kept { OnFalse result (self.new ≡ self.old) }
        ensures mistake_kept { self.new.mistake ≡ self.old.mistake }
    {
        match self.rest {
            [byte, rest @ ..] if *byte == wanted => {
                self.rest = rest;
                self.before = wanted;
                true
            }
            _ => false,
        }
    }

    /// Takes a comma and the blanks around it, or blanks alone.
    pub fn skip_comma(&mut self)
        ensures comma { take 1 (behind_blanks self.old.rest.now) ≡ 44 ∷ []
            → self.new.rest.now ≡ behind_blanks (drop 1 (behind_blanks self.old.rest.now)) }
        ensures blanks { (take 1 (behind_blanks self.old.rest.now) ≡ 44 ∷ [] → ⊥)
            → self.new.rest.now ≡ behind_blanks self.old.rest.now }
        ensures before { self.new.before ≡ 32 }
        ensures behind_kept { self.new.behind ≡ self.old.behind }
        ensures mistake_kept { self.new.mistake ≡ self.old.mistake }
    {
        let _ = self.take_if(b",");
        self.rest = behind_blanks(self.rest);
        self.before = b' ';
    }

    /// Whether nothing is left.
    pub fn is_over(&self) -> bool
        ensures { result ≡ length (behind_blanks self.now.rest.now) == 0 }
    {
        behind_blanks(self.rest).is_empty()
    }

    /// Takes a word, after blanks. It is empty where none stands there.
    pub fn word(&mut self) -> &'a [u8]
        ensures word { result.now ≡ word self.old.rest.now }
        ensures reads { Reads self.old self.new (behind_word self.old.rest.now) }
    {
        let (word, rest) = split_word(self.rest);
        self.rest = rest;
        self.before = b'a';
        word
    }

    /// Takes a name.
    pub fn name(&mut self) -> &'a [u8]
        ensures word { result.now ≡ word self.old.rest.now }
        ensures named { OnTrue (is_name (word self.old.rest.now))
            (Reads self.old self.new (behind_word self.old.rest.now)) }
        ensures unnamed { OnFalse (is_name (word self.old.rest.now)) (Halts self.old self.new
            (Halt.Slip (slip_at self.old.rest.now self.old.behind MacroErrorKind.Name))) }
    {
        let slip = self.slip(MacroErrorKind::Name);
        let word = self.word();
        self.want(is_name(word), slip);
        word
    }

    /// Keeps a mistake where something is left.
    pub fn end(&mut self)
        ensures over { behind_blanks self.old.rest.now ≡ [] → self.new ≡ self.old }
        ensures more { OnFalse (length (behind_blanks self.old.rest.now) == 0)
            (Halts self.old self.new
            (Halt.Slip (slip_at self.old.rest.now self.old.behind MacroErrorKind.More))) }
    {
        self.want(self.is_over(), self.slip(MacroErrorKind::More));
    }
}
