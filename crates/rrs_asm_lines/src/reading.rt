//! Reading a statement: its words, its registers and its values.

ghost use Rattle.std.specs.Prelude.{◌≡◌, ◌+◌, ◌*◌, ◌/◌, ◌%◌, ◌^◌};

use crate::errors::{Halt, LineError, SourceErrorKind};
use crate::expressions::{LOOSEST, Operator, Waiting, operator_before, operator_between};
use crate::lexing::{behind_blanks, is_name, split_word};
use crate::literals::{digit_of, escaped, number_of};
use crate::registers::register_number;
use crate::symbols::{Branch, Found, Known, Scope};
use std::alloc::AllocError;

/// Where a statement stands.
#[derive(Clone, Copy)]
pub struct Site<'a> {
    /// Its address.
    pub here: u32,
    /// The name of its section.
    pub section: &'a [u8],
    /// The address of its section.
    pub start: u32,
    /// Whether its section holds instructions.
    pub is_code: bool,
    /// Whether its section is not laid out.
    pub is_skipped: bool,
}

/// What a statement asks beside its bytes.
#[derive(Clone, Copy)]
pub struct Notes {
    /// The alignment of its section, a power of 2.
    pub alignment: u32,
    /// How far its `%pcrel_hi` reaches.
    pub distance: Option<u32>,
    /// The branch that it is, if it is one.
    pub branch: Option<Branch>,
}

impl Notes {
    /// Whether it is a branch whose target is out of its reach, so that it is two instructions.
    pub fn is_far(&self) -> bool {
        match self.branch {
            Some(branch) => branch.is_far,
            None => false,
        }
    }
}

/// What stands in a value.
#[derive(Clone, Copy)]
struct Terms {
    /// An address: a label, or `.`, or what may be one.
    has_address: bool,
    /// A symbol of which nothing is known yet.
    has_unknown: bool,
    /// A label of another section.
    has_other: bool,
    /// A label further on in this section, which stands where it was in the reading before.
    has_later: bool,
}

/// Numbers alone.
const NUMBERS: Terms = Terms {
    has_address: false,
    has_unknown: false,
    has_other: false,
    has_later: false,
};

/// How a number may be written.
#[derive(Clone, Copy)]
struct Wanted {
    /// Whether it has to be known here.
    is_known: bool,
    /// Whether it may have 64 bits.
    is_wide: bool,
}

/// A value of 32 bits.
const ANY: Wanted = Wanted {
    is_known: false,
    is_wide: false,
};

/// A value of 32 bits that is known here.
const KNOWN: Wanted = Wanted {
    is_known: true,
    is_wide: false,
};

/// A value of 64 bits.
const WIDE: Wanted = Wanted {
    is_known: false,
    is_wide: true,
};

/// What is left of a statement, and where it stands.
///
/// Where something else stands than what is wanted, that mistake is kept, all that is left is
/// taken, and what is given is 0. So what follows finds no more, and the first mistake stays.
#[derive(Clone, Copy)]
pub struct Line<'a, 's> {
    /// The text that is left.
    pub rest: &'a [u8],
    /// How many bytes of the line are after the statement.
    behind: usize,
    symbols: &'s Scope<'a, 's>,
    /// What stands in the value that was read last.
    terms: Terms,
    /// Where it stands.
    pub site: Site<'a>,
    /// What it asks beside its bytes.
    pub notes: Notes,
    /// The first mistake in it, or that memory is missing.
    pub mistake: Option<Halt>,
}

impl<'a, 's> Line<'a, 's> {
    /// The rest of a statement at a place, with so many bytes of the line after it.
    pub fn new(rest: &'a [u8], behind: usize, symbols: &'s Scope<'a, 's>, site: Site<'a>) -> Self {
        let notes = Notes {
            alignment: 1,
            distance: None,
            branch: None,
        };
        Line {
            rest,
            behind,
            symbols,
            terms: NUMBERS,
            site,
            notes,
            mistake: None,
        }
    }

    /// A mistake at this place.
    pub fn error(&self, kind: SourceErrorKind) -> LineError {
        LineError {
            kind,
            left: self.rest.len().saturating_add(self.behind),
        }
    }

    /// Keeps a mistake, if it is the first one, and takes all that is left.
    pub fn fail(&mut self, error: LineError) {
        if self.mistake.is_none() {
            self.mistake = Some(Halt::Error(error));
        }
        self.skip_all();
    }

    /// Keeps that memory is missing where something could not be kept.
    pub fn keep(&mut self, kept: Result<(), AllocError>) {
        if kept.is_err() {
            self.mistake = Some(Halt::OutOfMemory);
            self.skip_all();
        }
    }

    /// Keeps a mistake at this place where something is not as it has to be.
    pub fn want(&mut self, is_right: bool, kind: SourceErrorKind) {
        if !is_right {
            self.fail(self.error(kind));
        }
    }

    /// Takes whatever is left.
    pub fn skip_all(&mut self) {
        self.rest = &self.rest[self.rest.len()..];
    }

    /// Goes on to the next byte that is no blank.
    pub fn skip_blanks(&mut self) {
        self.rest = behind_blanks(self.rest);
    }

    /// Takes the next byte, whatever it is.
    pub fn next_byte(&mut self) -> Option<u8> {
        match self.rest {
            [byte, rest @ ..] => {
                self.rest = rest;
                Some(*byte)
            }
            [] => None,
        }
    }

    /// Takes what stands before the next quotation mark or backslash.
    pub fn plain_text(&mut self) -> &'a [u8] {
        let text = self.rest;
        for (index, byte) in text.iter().enumerate() {
            if matches!(*byte, b'"' | b'\\') {
                let (plain, rest) = text.split_at(index);
                self.rest = rest;
                return plain;
            }
        }
        self.skip_all();
        text
    }

    /// Takes a digit below a base, if one is next.
    pub fn next_digit(&mut self, base: u64) -> Option<u8> {
        let digit = digit_of(*self.rest.first()?, base)?;
        let _ = self.next_byte();
        u8::try_from(digit).ok()
    }

    /// Takes a byte, if it is the next one.
    fn take_next(&mut self, wanted: u8) -> bool {
        match self.rest {
            [byte, rest @ ..] if *byte == wanted => {
                self.rest = rest;
                true
            }
            _ => false,
        }
    }

    /// Takes a byte, if it is the next one after blanks.
    pub fn take(&mut self, wanted: u8) -> bool {
        self.skip_blanks();
        self.take_next(wanted)
    }

    /// Takes a byte that has to be there, after blanks.
    pub fn expect(&mut self, wanted: u8, kind: SourceErrorKind) {
        let is_there = self.take(wanted);
        self.want(is_there, kind);
    }

    /// Takes a comma.
    pub fn comma(&mut self) {
        self.expect(b',', SourceErrorKind::Comma);
    }

    /// Takes a word, after blanks. It is empty where none stands there.
    pub fn word(&mut self) -> &'a [u8] {
        let (word, rest) = split_word(self.rest);
        self.rest = rest;
        word
    }

    /// Whether the statement is over.
    pub fn is_over(&mut self) -> bool {
        self.skip_blanks();
        self.rest.is_empty()
    }

    /// Takes a register.
    pub fn register(&mut self) -> usize {
        self.skip_blanks();
        let error = self.error(SourceErrorKind::Register);
        match register_number(self.word()) {
            Some(register) => register,
            None => {
                self.fail(error);
                0
            }
        }
    }

    /// Takes a value. A number has 32 bits, signed or not, and an address is taken modulo 2^32.
    pub fn value(&mut self) -> u32 {
        self.word_of(ANY)
    }

    /// Takes a value that is known here: none of its symbols is defined further on.
    pub fn known_value(&mut self) -> u32 {
        self.word_of(KNOWN)
    }

    /// Takes a value of 32 bits.
    fn word_of(&mut self, wanted: Wanted) -> u32 {
        self.skip_blanks();
        let error = self.error(SourceErrorKind::Range);
        let value = self.expression(wanted);
        let is_word = value.wrapping_add(0x8000_0000) < 0x1_8000_0000;
        if !is_word && !self.terms.has_address {
            self.fail(error);
        }
        (value % 0x1_0000_0000) as u32
    }

    /// Takes the value of a constant, which is known here. It has 64 bits, since it may be
    /// negative.
    pub fn constant(&mut self) -> u64 {
        self.expression(KNOWN)
    }

    /// Takes a value of 64 bits.
    pub fn wide_value(&mut self) -> u64 {
        self.expression(WIDE)
    }

    /// Takes values with operators and parentheses.
    fn expression(&mut self, wanted: Wanted) -> u64 {
        let mut waiting = Waiting::new();
        self.terms = NUMBERS;
        for _ in 0..u64::MAX {
            self.operators_before(&mut waiting);
            let term = self.term(wanted, waiting.is_negated());
            let value = self.parentheses_behind(term, &mut waiting);
            let place = self.error(SourceErrorKind::Parenthesis);
            let Some(operator) = self.operator() else {
                return self.ended(value, place, &mut waiting);
            };
            waiting.push_between(operator, value);
            self.check(waiting.fault, place);
        }
        0
    }

    /// The value of what ends with this one.
    fn ended(&mut self, value: u64, place: LineError, waiting: &mut Waiting) -> u64 {
        if waiting.is_open() {
            self.fail(place);
            return 0;
        }
        let value = waiting.applied(LOOSEST, value);
        self.check(waiting.fault, place);
        value
    }

    /// Keeps what went wrong with the operators, if something did.
    fn check(&mut self, fault: Option<SourceErrorKind>, place: LineError) {
        if let Some(kind) = fault {
            self.fail(place.with_kind(kind));
        }
    }

    /// Takes the operators before a value, and opening parentheses.
    fn operators_before(&mut self, waiting: &mut Waiting) {
        for _ in 0..u64::MAX {
            self.skip_blanks();
            let Some(operator) = self.rest.first().copied().and_then(operator_before) else {
                break;
            };
            let _ = self.next_byte();
            if let Some(operator) = operator {
                waiting.push(operator, 0);
            }
            self.check(waiting.fault, self.error(SourceErrorKind::Deep));
        }
    }

    /// Takes the closing parentheses after a value.
    fn parentheses_behind(&mut self, value: u64, waiting: &mut Waiting) -> u64 {
        let mut value = value;
        for _ in 0..u64::MAX {
            if !waiting.is_open() || !self.take(b')') {
                break;
            }
            value = waiting.closed(value);
            self.check(waiting.fault, self.error(SourceErrorKind::Division));
        }
        value
    }

    /// Takes an operator between two values, if one is next.
    fn operator(&mut self) -> Option<Operator> {
        self.skip_blanks();
        let (first, second) = match self.rest {
            [first, second, ..] => (*first, *second),
            [first] => (*first, b' '),
            [] => return None,
        };
        let (operator, count) = operator_between(first, second)?;
        for _ in 0..count {
            let _ = self.next_byte();
        }
        Some(operator)
    }

    /// Takes a term: a number, a character constant, a symbol, or `.`, the address of the
    /// statement. A number of 32 bits after a minus is at most 2^31.
    fn term(&mut self, wanted: Wanted, is_negated: bool) -> u64 {
        if self.take(b'\'') {
            return self.character();
        }
        let error = self.error(SourceErrorKind::Value);
        let word = self.word();
        match self.found_of(word) {
            Some(found) => self.value_found(found, wanted.is_known, error),
            None => self.number(word, wanted.is_wide, is_negated, error),
        }
    }

    /// What is known of a symbol, of a local label, or of `.`. None where the word is a number, or
    /// empty.
    fn found_of(&self, word: &[u8]) -> Option<Found> {
        let (symbols, site) = (self.symbols, self.site);
        match word {
            [] => None,
            [b'.'] => Some(Found {
                known: Known::Now(u64::from(site.here)),
                is_label: true,
                is_elsewhere: false,
            }),
            [digit @ b'0'..=b'9', b'b'] => Some(symbols.local_value(*digit - b'0', true, site)),
            [digit @ b'0'..=b'9', b'f'] => Some(symbols.local_value(*digit - b'0', false, site)),
            [b'0'..=b'9', ..] => None,
            _ => Some(symbols.value_of(word, site)),
        }
    }

    /// The value of a symbol of which this is known; where it is not known yet, before the last
    /// reading, the address of the statement.
    fn value_found(&mut self, found: Found, is_known: bool, error: LineError) -> u64 {
        let is_unknown = matches!(found.known, Known::Perhaps);
        self.terms.has_address |= found.is_label || is_unknown;
        self.terms.has_unknown |= is_unknown;
        self.terms.has_other |= found.is_elsewhere;
        self.terms.has_later |= found.is_label && matches!(found.known, Known::Later(_));
        let kind = match found.known {
            Known::Now(value) => return value,
            Known::Later(value) if !is_known => return value,
            Known::Perhaps if !is_known => return u64::from(self.site.here),
            Known::Later(_) | Known::Perhaps => SourceErrorKind::Later,
            Known::Never => SourceErrorKind::Undefined,
        };
        self.fail(error.with_kind(kind));
        0
    }

    /// The value of a number. One of 32 bits after a minus is at most 2^31.
    fn number(&mut self, word: &[u8], is_wide: bool, is_negated: bool, error: LineError) -> u64 {
        let most = if is_negated { 0x8000_0000 } else { 0xffff_ffff };
        let kind = match number_of(word) {
            Some(value) if is_wide || value <= most => return value,
            Some(value) if value <= 0xffff_ffff => SourceErrorKind::Range,
            None if word.is_empty() => SourceErrorKind::Value,
            _ => SourceErrorKind::Number,
        };
        self.fail(error.with_kind(kind));
        0
    }

    /// Takes what follows the quotation mark of a character constant.
    fn character(&mut self) -> u64 {
        let (byte, rest) = match self.rest {
            [b'\\', byte, rest @ ..] => (escaped(*byte), rest),
            [byte, rest @ ..] => (Some(*byte), rest),
            [] => (Some(0), self.rest),
        };
        self.want(byte.is_some(), SourceErrorKind::Escape);
        if self.mistake.is_none() {
            self.rest = rest;
        }
        let is_ended = self.take_next(b'\'');
        self.want(is_ended, SourceErrorKind::Quote);
        u64::from(byte.unwrap_or(0))
    }

    /// Takes a value, or the part of one that a modifier names: its lower 12 bits or its upper 20.
    /// What begins with the name of a register is none, also where that is a symbol.
    fn part(&mut self, is_low: bool) -> u32 {
        if !self.take(b'%') {
            let (word, _) = split_word(self.rest);
            self.want(register_number(word).is_none(), SourceErrorKind::Value);
            return self.value();
        }
        let error = self.error(SourceErrorKind::Value);
        let kind = match modifier_named(self.word()) {
            Some(modifier) if modifier.is_low == is_low => return self.part_meant(modifier, error),
            Some(modifier) if modifier.is_low => SourceErrorKind::Low,
            Some(_) => SourceErrorKind::High,
            None => SourceErrorKind::Value,
        };
        self.fail(error.with_kind(kind));
        0
    }

    /// Takes a value in parentheses: the part of it that a modifier names, which stands at
    /// `error`.
    fn part_meant(&mut self, modifier: Modifier, error: LineError) -> u32 {
        let is_plain = self.is_word_enclosed();
        self.expect(b'(', SourceErrorKind::Parenthesis);
        let value = self.value();
        self.expect(b')', SourceErrorKind::Parenthesis);
        if modifier.is_low && modifier.is_relative && !is_plain {
            self.fail(error.with_kind(SourceErrorKind::Distance));
        }
        let whole = if modifier.is_relative {
            self.distance(value, modifier.is_low, error)
        } else {
            value
        };
        let (high, low) = halves(whole);
        if modifier.is_low { low } else { high }
    }

    /// How far a `%pcrel_hi` of this value reaches, which is kept, or the one at this address did.
    fn distance(&mut self, value: u32, is_low: bool, error: LineError) -> u32 {
        if is_low {
            let known = self.symbols.distance_at(value);
            let missing = error.with_kind(SourceErrorKind::Distance);
            return self.fitting(known.unwrap_or(0), known.is_some(), missing);
        }
        let distance = value.wrapping_sub(self.site.here);
        self.notes.distance = Some(distance);
        distance
    }

    /// A value, if it fits. Otherwise it is 0, and a mistake in the last reading: before it a
    /// symbol may be unknown.
    fn fitting(&mut self, value: u32, fits: bool, error: LineError) -> u32 {
        if fits {
            return value;
        }
        if self.symbols.pass.is_last() {
            self.fail(error);
        }
        0
    }

    /// Takes an immediate of 12 bits.
    pub fn immediate(&mut self) -> i32 {
        self.skip_blanks();
        let error = self.error(SourceErrorKind::Range);
        let value = self.part(true);
        let fits = value.wrapping_add(0x800) < 0x1000;
        self.fitting(value, fits, error).cast_signed()
    }

    /// Takes the upper 20 bits of a word.
    pub fn upper(&mut self) -> u32 {
        self.skip_blanks();
        let error = self.error(SourceErrorKind::Range);
        let value = self.part(false);
        self.fitting(value, value < 0x10_0000, error)
    }

    /// Takes a number below a limit, or one that is negative, and no lower than minus `negative`.
    pub fn below(&mut self, limit: u32, negative: u32) -> u32 {
        self.skip_blanks();
        let error = self.error(SourceErrorKind::Range);
        let value = self.value();
        let fits = value < limit || 0u32.wrapping_sub(value) <= negative;
        self.fitting(value, fits, error)
    }

    /// Takes a target: the offset to it, which is even, from `-reach` to below `reach`.
    pub fn offset(&mut self, reach: u32) -> i32 {
        self.skip_blanks();
        let error = self.error(SourceErrorKind::Range);
        let offset = self.value().wrapping_sub(self.site.here);
        let fits = offset.wrapping_add(reach) < reach.wrapping_mul(2);
        let offset = self.fitting(offset, fits, error);
        let unaligned = error.with_kind(SourceErrorKind::Unaligned);
        self.fitting(offset, offset % 2 == 0, unaligned)
            .cast_signed()
    }

    /// Takes the target of a branch, from `-reach` to below `reach`: the offset to it, which is
    /// even. Where a label is further away, or in another section, the branch is two instructions,
    /// the second a jump of this far, and the offset is that of the jump.
    pub fn branch_offset(&mut self, reach: u32, far: u32) -> i32 {
        self.skip_blanks();
        let error = self.error(SourceErrorKind::Range);
        let distance = self.value().wrapping_sub(self.site.here);
        let branch = self.branch_of(distance, reach);
        self.notes.branch = Some(branch);
        let (offset, most) = if branch.is_far {
            (distance.wrapping_sub(4), far)
        } else {
            (distance, reach)
        };
        let fits = offset.wrapping_add(most) < most.wrapping_mul(2);
        let offset = self.fitting(offset, fits, error);
        let unaligned = error.with_kind(SourceErrorKind::Unaligned);
        self.fitting(offset, offset % 2 == 0, unaligned)
            .cast_signed()
    }

    /// The branch whose target was read, and is so far away.
    ///
    /// It is as GNU `as` has it: where a label was not met in the first reading, it is taken to be
    /// at the beginning of the section. In each other reading a label further on is as far from
    /// the branch as it was in the reading before.
    fn branch_of(&self, distance: u32, reach: u32) -> Branch {
        let offset = self.site.here.wrapping_sub(self.site.start);
        let (before, was_far) = match self.symbols.branch {
            Some(branch) => (branch.offset, branch.is_far),
            None => (offset, false),
        };
        let length = if self.terms.has_unknown {
            0u32.wrapping_sub(offset)
        } else if self.terms.has_later {
            distance.wrapping_sub(before.saturating_sub(offset))
        } else {
            distance
        };
        let is_far = self.terms.has_other
            || length.wrapping_add(reach) >= reach.wrapping_mul(2)
            || was_far && self.symbols.only_grows;
        Branch { offset, is_far }
    }

    /// Takes a number of so many bits, signed or not.
    pub fn datum(&mut self, bits: u32) -> u32 {
        match bits {
            8 => self.below(0x100, 0x80),
            16 => self.below(0x1_0000, 0x8000),
            _ => self.value(),
        }
    }

    /// Takes an immediate and a register in parentheses: `-4(x1)`. With no immediate it is 0.
    pub fn address(&mut self) -> (i32, usize) {
        let imm = if self.is_register_enclosed() {
            0
        } else {
            self.immediate()
        };
        (imm, self.enclosed_register())
    }

    /// Takes a register in parentheses: `(x1)`. Before it may stand a value that is 0, of numbers
    /// and of constants that are known here.
    pub fn address_alone(&mut self) -> usize {
        if !self.is_register_enclosed() {
            self.skip_blanks();
            let error = self.error(SourceErrorKind::Range);
            let (word, _) = split_word(self.rest);
            self.want(register_number(word).is_none(), SourceErrorKind::Value);
            let value = self.known_value();
            if value != 0 || self.terms.has_address {
                self.fail(error);
            }
        }
        self.enclosed_register()
    }

    /// Takes a register in parentheses.
    fn enclosed_register(&mut self) -> usize {
        self.expect(b'(', SourceErrorKind::Parenthesis);
        let register = self.register();
        self.expect(b')', SourceErrorKind::Parenthesis);
        register
    }

    /// Whether a register in parentheses is next.
    fn is_register_enclosed(&self) -> bool {
        let mut ahead = *self;
        ahead.take(b'(') && register_number(ahead.word()).is_some()
    }

    /// Whether a word in parentheses is next, and nothing else in them.
    fn is_word_enclosed(&self) -> bool {
        let mut ahead = *self;
        ahead.take(b'(') && !ahead.word().is_empty() && ahead.take(b')')
    }

    /// Takes a symbol, with what is added to it, and no register in parentheses after it: how far
    /// it is from the statement, modulo 2^32. None where something else stands there, which is
    /// left.
    pub fn distance_alone(&mut self) -> Option<u32> {
        let mut ahead = *self;
        let (word, _) = split_word(ahead.rest);
        if !is_name(word) {
            return None;
        }
        let value = ahead.value();
        if ahead.mistake.is_some() || ahead.take(b'(') {
            return None;
        }
        self.rest = ahead.rest;
        Some(value.wrapping_sub(self.site.here))
    }
}

/// A name after `%`, which says what is meant of the value in parentheses.
#[derive(Clone, Copy)]
struct Modifier {
    /// Its lower 12 bits, and not its upper 20.
    is_low: bool,
    /// Whether it is taken from the address of a statement.
    is_relative: bool,
}

/// The modifiers, each by its name, whether it means the lower 12 bits, and whether it is relative.
const MODIFIERS: [(&[u8], bool, bool); 4] = [
    (b"hi", false, false),
    (b"lo", true, false),
    (b"pcrel_hi", false, true),
    (b"pcrel_lo", true, true),
];

/// The modifier of a name.
fn modifier_named(name: &[u8]) -> Option<Modifier> {
    for (own, is_low, is_relative) in &MODIFIERS {
        if *own == name {
            return Some(Modifier {
                is_low: *is_low,
                is_relative: *is_relative,
            });
        }
    }
    None
}

/// The upper 20 bits of a word, and its lower 12, sign-extended, which the two make up together.
fn halves(word: u32) -> (u32, u32)
    ensures high { result.0 ≡ (word + 2048) % 2 ^ 32 / 4096 }
    ensures whole { (result.0 * 4096 + result.1) % 2 ^ 32 ≡ word }
{
    let high = word.wrapping_add(2048) / 4096;
    (high, word.wrapping_sub(high * 4096))
}
