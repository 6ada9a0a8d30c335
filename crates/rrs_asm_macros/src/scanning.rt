//! Cutting a text into statements, and a statement into labels, its first word and the rest.

ghost use Rattle.std.specs.Prelude.{◌≡◌, MatchOption, None, Some, true};
ghost use Rattle.std.specs.List.{list_any};
ghost use Rattle.std.specs.Option.{option_map};
ghost use Rattle.rrs_asm_macros.specs.Directives.{begins_one};
ghost use Rattle.rrs_asm_macros.specs.Scanning.{behind_labels, code_from, ends_at, ends_line_from, first_label, first_of, has_parameters, others_from, place_after, plain_after};
ghost use Rattle.rrs_asm_lines.specs.Lines.{lines};

use crate::directives::is_directive;
use rrs_asm_lines::{behind_blanks, first_line, split_word};

/// Where a byte of a line stands.
#[derive(Clone, Copy)]
pub enum Place {
    /// In no string, no character constant and no comment.
    Plain,
    /// In a string.
    Text,
    /// In a string, after a backslash.
    TextEscape,
    /// Behind the apostrophe that begins a character constant.
    Character,
    /// In a character constant, after a backslash.
    CharacterEscape,
    /// Behind the byte of a character constant, where an apostrophe can end it.
    CharacterEnd,
    /// In a comment, up to the end of the line.
    Comment,
}

impl Place {
    /// Whether a backslash and a name after it are a parameter there. In a character constant they
    /// are no name.
    pub fn has_parameters(self) -> bool
        ensures { result ≡ has_parameters self }
    {
        !matches!(self, Place::Character | Place::CharacterEscape)
    }

    /// Whether a statement ends at a byte there.
    fn ends_at(self, byte: u8) -> bool
        ensures { result ≡ ends_at self byte }
    {
        byte == b'\n' || byte == b';' && matches!(self, Place::Plain | Place::CharacterEnd)
    }

    /// Where the byte after this one stands.
    pub fn behind(self, byte: u8, next: Option<u8>) -> Place
        ensures { result ≡ place_after self byte next }
    {
        match self {
            Place::Plain => plain_behind(byte, next),
            Place::Text => match byte {
                b'\\' => Place::TextEscape,
                b'"' => Place::Plain,
                _ => Place::Text,
            },
            Place::TextEscape => Place::Text,
            Place::Character => match byte {
                b'\\' => Place::CharacterEscape,
                _ => Place::CharacterEnd,
            },
            Place::CharacterEscape => Place::CharacterEnd,
            Place::CharacterEnd if byte == b'\'' => Place::Plain,
            Place::CharacterEnd => plain_behind(byte, next),
            Place::Comment => Place::Comment,
        }
    }
}

/// Where the byte after one that stands in nothing stands. A comment begins before its first byte.
fn plain_behind(byte: u8, next: Option<u8>) -> Place
    ensures { result ≡ plain_after byte next }
{
    match byte {
        b'"' => Place::Text,
        b'\'' => Place::Character,
        b'#' => Place::Comment,
        b'/' if next == Some(b'/') => Place::Comment,
        _ => Place::Plain,
    }
}

/// The statement at the beginning of a text.
#[derive(Clone, Copy)]
pub struct Statement<'a> {
    /// Its text, with its labels, and with no comment.
    pub code: &'a [u8],
    /// What is after the semicolon or the line feed that ends it, if one does.
    pub others: Option<&'a [u8]>,
    /// Whether it is the last of its line.
    pub ends_line: bool,
}

/// The statement at the beginning of a text, which ends at a semicolon or with its line.
pub fn first_statement(text: &[u8]) -> Statement<'_>
    ensures code { result.code.now ≡ code_from Place.Plain text.now }
    ensures others { option_map (λ rest. rest.now) result.others
        ≡ others_from Place.Plain text.now }
    ensures line { result.ends_line ≡ ends_line_from Place.Plain text.now }
{
    let mut place = Place::Plain;
    for (index, byte) in text.iter().enumerate() {
        let behind = &text[index + 1..];
        if place.ends_at(*byte) {
            return Statement {
                code: &text[..index],
                others: Some(behind),
                ends_line: *byte == b'\n',
            };
        }
        place = place.behind(*byte, first_of(behind));
        if matches!(place, Place::Comment) {
            return Statement {
                code: &text[..index],
                others: behind_comment(behind),
                ends_line: true,
            };
        }
    }
    Statement {
        code: text,
        others: None,
        ends_line: true,
    }
}

/// The first byte of a text, if there is one.
pub fn first_of(text: &[u8]) -> Option<u8>
    ensures { result ≡ first_of text.now }
{
    match text {
        [byte, ..] => Some(*byte),
        [] => None,
    }
}

/// What is after the line feed that ends a comment, if one does.
fn behind_comment(comment: &[u8]) -> Option<&[u8]>
    ensures others { option_map (λ rest. rest.now) result ≡ others_from Place.Comment comment.now }
    ensures line { ends_line_from Place.Comment comment.now ≡ true }
{
    for (index, byte) in comment.iter().enumerate() {
        if *byte == b'\n' {
            return Some(&comment[index + 1..]);
        }
    }
    None
}

/// Whether a line of a text begins with a directive.
pub fn begins_directive(text: &[u8]) -> bool
    ensures { result ≡ list_any begins_one (lines text.now) }
{
    let mut rest = Some(text);
    while let Some(left) = rest {
        let (line, others) = first_line(left);
        let (word, _) = split_word(line);
        if is_directive(word) {
            return true;
        }
        rest = others;
    }
    false
}

/// The name of the first label of a text, and what is after it, if there is one.
pub fn first_label(text: &[u8]) -> Option<(&[u8], &[u8])>
    ensures { MatchOption result (first_label text.now ≡ None)
        (λ label. first_label text.now ≡ Some (label.0.now, label.1.now)) }
{
    let (word, rest) = split_word(text);
    match behind_blanks(rest) {
        [b':', others @ ..] if !word.is_empty() && !is_directive(word) => Some((word, others)),
        _ => None,
    }
}

/// A statement after its labels.
pub fn behind_labels(code: &[u8]) -> &[u8]
    ensures { result.now ≡ behind_labels code.now }
{
    let mut rest = code;
    for _passed in 0..code.len() {
        match first_label(rest) {
            Some((_, others)) => rest = others,
            None => break,
        }
    }
    rest
}
