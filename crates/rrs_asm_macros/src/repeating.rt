//! What a line is where repetitions have a number.

ghost use Rattle.std.specs.Prelude.{◌≡◌};
ghost use Rattle.rrs_asm_macros.specs.Expansion.{count, decimal, is_end, number, says_no_more};
ghost use Rattle.rrs_asm_macros.specs.Forms.{IsKind};

use crate::directives::{Directive, is_among};
use crate::words::has_directives;
use rrs_asm_lines::{behind_blanks, split_word};

/// The directives that begin a repetition with a count.
const COUNTED: [(&[u8], Directive); 2] = [
    (b".rept", Directive::Repeat),
    (b".rep", Directive::Repeat),
];

/// The directive that ends one.
const ENDS: [(&[u8], Directive); 1] = [(b".endr", Directive::EndRepeat)];

/// Whether nothing but blanks and a comment stands there.
fn says_no_more(text: &[u8]) -> bool
    ensures { result ≡ says_no_more text.now }
{
    match behind_blanks(text) {
        [] => true,
        [byte, ..] => *byte == b'#',
    }
}

/// The number that a word is, after digits of this value.
fn decimal(word: &[u8]) -> Option<u64>
    ensures { result ≡ decimal 0 word.now }
{
    let mut value = 0u64;
    for byte in word {
        if !byte.is_ascii_digit() || value >= 100_000_000 {
            return None;
        }
        value = value * 10 + u64::from(*byte - b'0');
    }
    Some(value)
}

/// The number that a word is, if it is one of at most nine digits and does not begin with 0.
fn number(word: &[u8]) -> Option<u64>
    ensures { result ≡ number word.now }
{
    match word {
        [b'1'..=b'9', ..] => decimal(word),
        _ => None,
    }
}

/// How often a line that begins a repetition has it made, where it is a number.
fn count(line: &[u8]) -> Option<u64>
    ensures { result ≡ count line.now }
{
    let (word, operands) = split_word(line);
    let (times, others) = split_word(operands);
    if is_among(&COUNTED, word) && says_no_more(others) {
        number(times)
    } else {
        None
    }
}

/// Whether a line ends a repetition.
fn is_end(line: &[u8]) -> bool
    ensures { result ≡ is_end line.now }
{
    let (word, operands) = split_word(line);
    is_among(&ENDS, word) && says_no_more(operands)
}

/// What a line is.
#[derive(Clone, Copy)]
pub enum LineKind {
    /// No directive stands in it.
    Plain,
    /// It begins a repetition that is made so often.
    Repeat(u64),
    /// It ends one.
    End,
    /// Another directive stands in it.
    Other,
}

/// What a line is.
pub fn kind_of(line: &[u8]) -> LineKind
    ensures { IsKind line.now result }
{
    if !has_directives(line) {
        return LineKind::Plain;
    }
    if let Some(copies) = count(line) {
        return LineKind::Repeat(copies);
    }
    if is_end(line) {
        LineKind::End
    } else {
        LineKind::Other
    }
}
