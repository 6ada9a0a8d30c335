//! Cutting a source into lines, a line into parts, and a part into its first word and the rest.

ghost use Rattle.std.specs.Prelude.{◌≡◌, ◌<◌, [], ◌∷◌, IfSome, count_by, length};
ghost use Rattle.std.specs.Option.{option_map_or};
ghost use Rattle.rrs_asm_lines.specs.Lines.{is_name, is_line_feed, lines, next, mark_of, parts, shown, begins_with, is_blank, is_in_word, word, behind_word, behind_blanks, words_of, place_from};
ghost use Rattle.rrs_asm_lines.specs.declared.lexing.Place.{Place};

/// A line, and the text after its line feed, if there is one.
pub fn first_line(source: &[u8]) -> (&[u8], Option<&[u8]>)
    ensures whole { count_by is_line_feed result.0.now ≡ 0 }
    ensures lines { lines source.now
        ≡ result.0.now ∷ option_map_or (λ rest. lines rest.now) result.1 [] }
    ensures shorter { IfSome result.1 (λ rest. length rest.now < length source.now) }
{
    for (index, byte) in source.iter().enumerate() {
        if *byte == b'\n' {
            return (&source[..index], Some(&source[index + 1..]));
        }
    }
    (source, None)
}

/// Where a byte of a line stands.
#[derive(Clone, Copy)]
pub enum Place {
    /// In no string and no character constant.
    Plain,
    /// In a string.
    Text,
    /// In a string, after a backslash.
    TextEscape,
    /// Behind the apostrophe that begins a character constant.
    Character,
    /// In a character constant, after a backslash.
    CharacterEscape,
    /// Where a character constant ends.
    CharacterEnd,
}

/// What a byte of a line means.
#[derive(Clone, Copy)]
pub enum Mark {
    /// A label ends.
    Colon,
    /// A statement ends.
    Semicolon,
    /// A comment begins.
    Comment,
    /// Nothing.
    Other,
}

/// A part of a line.
#[derive(Clone, Copy)]
pub enum Part<'a> {
    /// What stands before a colon.
    Label(&'a [u8]),
    /// What stands before a semicolon, or a comment, or the end of the line.
    Statement(&'a [u8]),
}

impl<'a> Part<'a> {
    /// Its text.
    pub fn text(&self) -> &'a [u8] {
        match *self {
            Part::Label(text) | Part::Statement(text) => text,
        }
    }
}

impl Place {
    /// Where the byte after one that means nothing stands.
    fn behind(self, byte: u8) -> Place
        ensures { result ≡ next self byte }
    {
        match self {
            Place::Plain => match byte {
                b'"' => Place::Text,
                b'\'' => Place::Character,
                _ => Place::Plain,
            },
            Place::Text => match byte {
                b'\\' => Place::TextEscape,
                b'"' => Place::Plain,
                _ => Place::Text,
            },
            Place::TextEscape => Place::Text,
            Place::Character => match byte {
                b'\\' => Place::CharacterEscape,
                _ => Place::CharacterEnd,
            },
            Place::CharacterEscape => Place::CharacterEnd,
            Place::CharacterEnd => Place::Plain,
        }
    }

    /// What a byte means, before others.
    fn mark(self, byte: u8, behind: &[u8]) -> Mark
        ensures { result ≡ mark_of self byte behind.now }
    {
        match self {
            Place::Plain => plain_mark(byte, behind),
            _ => Mark::Other,
        }
    }
}

/// What a byte means that is in no string and in no character constant.
fn plain_mark(byte: u8, behind: &[u8]) -> Mark
    ensures { result ≡ mark_of Place.Plain byte behind.now }
{
    match byte {
        b':' => Mark::Colon,
        b';' => Mark::Semicolon,
        b'#' => Mark::Comment,
        b'/' if behind.first() == Some(&b'/') => Mark::Comment,
        _ => Mark::Other,
    }
}

/// The first part of a line, and the text behind the colon or the semicolon that ends it.
pub fn first_part(line: &[u8]) -> (Part<'_>, Option<&[u8]>)
    ensures parts { parts line.now
        ≡ shown result.0 ∷ option_map_or (λ rest. parts rest.now) result.1 [] }
    ensures shorter { IfSome result.1 (λ rest. length rest.now < length line.now) }
{
    let mut place = Place::Plain;
    for (index, byte) in line.iter().enumerate() {
        let text = &line[..index];
        let behind = &line[index + 1..];
        match place.mark(*byte, behind) {
            Mark::Colon => return (Part::Label(text), Some(behind)),
            Mark::Semicolon => return (Part::Statement(text), Some(behind)),
            Mark::Comment => return (Part::Statement(text), None),
            Mark::Other => place = place.behind(*byte),
        }
    }
    (Part::Statement(line), None)
}

/// Whether a byte separates words and means nothing else.
pub fn is_blank(byte: u8) -> bool
    ensures { result ≡ is_blank byte }
{
    matches!(byte, b' ' | b'\t' | b'\r')
}

/// Whether a byte can stand in a word: a name, or a number.
pub fn is_in_word(byte: u8) -> bool
    ensures { result ≡ is_in_word byte }
{
    matches!(byte, b'a'..=b'z' | b'A'..=b'Z' | b'0'..=b'9' | b'_' | b'.' | b'$')
}

/// A text after the blanks that it begins with.
pub fn behind_blanks(text: &[u8]) -> &[u8]
    ensures { result.now ≡ behind_blanks text.now }
{
    for (index, byte) in text.iter().enumerate() {
        if !is_blank(*byte) {
            return &text[index..];
        }
    }
    &text[text.len()..]
}

/// Whether a word can be the name of a symbol: it begins with no digit.
pub fn is_name(word: &[u8]) -> bool
    ensures { result ≡ is_name word.now }
{
    !matches!(word, [] | [b'0'..=b'9', ..])
}

/// Whether a text begins with a byte.
pub fn begins_with(text: &[u8], wanted: u8) -> bool
    ensures { result ≡ begins_with wanted text.now }
{
    text.first() == Some(&wanted)
}

/// The word that a text begins with, after blanks, and what follows it.
pub fn split_word(text: &[u8]) -> (&[u8], &[u8])
    ensures word { result.0.now ≡ word text.now }
    ensures behind { result.1.now ≡ behind_word text.now }
{
    let words = behind_blanks(text);
    for (index, byte) in words.iter().enumerate() {
        if !is_in_word(*byte) {
            return words.split_at(index);
        }
    }
    words.split_at(words.len())
}

/// Which word of a text is the first that is this one, counted from 0.
pub fn place_among(words: &[u8], wanted: &[u8]) -> Option<usize>
    ensures { result ≡ place_from 0 wanted.now (words_of words.now) }
{
    let mut rest = words;
    for index in 0..words.len() {
        let (word, others) = split_word(rest);
        if word.is_empty() {
            break;
        }
        if word == wanted {
            return Some(index);
        }
        rest = others;
    }
    None
}
