//! Block comments.

ghost use Rattle.std.specs.Prelude.{◌≡◌, IfOk};
ghost use Rattle.rrs_asm_macros.specs.Comments.{behind, is_hidden, next_of, plain_behind, shown, without_comments};

use std::alloc::{AllocError, Allocator};

/// Where a byte of a source stands.
#[derive(Clone, Copy)]
pub enum Spot {
    /// In no string, no character constant and no comment.
    Plain,
    /// In a string.
    Text,
    /// In a string, after a backslash.
    TextEscape,
    /// Behind the apostrophe that begins a character constant.
    Character,
    /// In a character constant, after a backslash.
    CharacterEscape,
    /// Behind the byte of a character constant, where an apostrophe can end it.
    CharacterEnd,
    /// In a comment up to the end of the line.
    Line,
    /// Behind the first byte of a block comment.
    Opened,
    /// In a block comment.
    Block,
    /// In a block comment, after an asterisk.
    Star,
}

/// A source with a blank in the place of each byte of its block comments, but for line feeds, so
/// that each other byte stays in its line and its column. Where a comment does not end, the text
/// ends as the comment begins, which is no statement.
pub fn without_block_comments<A: Allocator + Copy>(
    alloc: A,
    source: &[u8],
) -> Result<Vec<u8, A>, AllocError>
    ensures { IfOk result (λ text. text.items ≡ without_comments source.now) }
{
    let mut text = Vec::new(alloc);
    let mut spot = Spot::Plain;
    let mut rest = source;
    while let [byte, others @ ..] = rest {
        let after = spot.behind(*byte, next_of(others));
        text.push(shown(spot, after, *byte))?;
        spot = after;
        rest = others;
    }
    if spot.is_hidden() {
        text.extend_from_slice(b"/*")?;
    }
    Ok(text)
}

/// The first byte of a text, or 0.
fn next_of(text: &[u8]) -> u8
    ensures { result ≡ next_of text.now }
{
    match text {
        [byte, ..] => *byte,
        [] => 0,
    }
}

/// A byte, or a blank in its place, if it is in a block comment.
fn shown(spot: Spot, after: Spot, byte: u8) -> u8
    ensures { result ≡ shown spot after byte }
{
    if byte != b'\n' && (spot.is_hidden() || after.is_hidden()) {
        b' '
    } else {
        byte
    }
}

impl Spot {
    /// Whether it is in a block comment.
    fn is_hidden(self) -> bool
        ensures { result ≡ is_hidden self }
    {
        matches!(self, Spot::Opened | Spot::Block | Spot::Star)
    }

    /// Where the byte after this one stands, before another.
    fn behind(self, byte: u8, next: u8) -> Spot
        ensures { result ≡ behind self byte next }
    {
        match self {
            Spot::Opened => Spot::Block,
            Spot::Block | Spot::Star => match byte {
                b'*' => Spot::Star,
                b'/' if matches!(self, Spot::Star) => Spot::Plain,
                _ => Spot::Block,
            },
            _ if byte == b'\n' => Spot::Plain,
            Spot::Text => match byte {
                b'\\' => Spot::TextEscape,
                b'"' => Spot::Plain,
                _ => Spot::Text,
            },
            Spot::TextEscape => Spot::Text,
            Spot::Character if byte == b'\\' => Spot::CharacterEscape,
            Spot::Character | Spot::CharacterEscape => Spot::CharacterEnd,
            Spot::CharacterEnd if byte == b'\'' => Spot::Plain,
            Spot::Plain | Spot::CharacterEnd => plain_behind(byte, next),
            Spot::Line => Spot::Line,
        }
    }
}

/// Where the byte after one that stands in nothing stands.
fn plain_behind(byte: u8, next: u8) -> Spot
    ensures { result ≡ plain_behind byte next }
{
    match (byte, next) {
        (b'"', _) => Spot::Text,
        (b'\'', _) => Spot::Character,
        (b'#', _) | (b'/', b'/') => Spot::Line,
        (b'/', b'*') => Spot::Opened,
        _ => Spot::Plain,
    }
}
