//! Names as they are shown: of symbols, sections and files, which may be any bytes.

ghost use Rattle.std.specs.Prelude.{◌≡◌, ◌++◌, codes, take};
ghost use Rattle.std.specs.Char.{encode_utf8};
ghost use Rattle.std.specs.Fmt.{WritesOnOk};
ghost use Rattle.rrs_reports.specs.ShownNames.{in_braces, shown_byte, shown_bytes, shown_character, shown_characters, shown_end, shown_front};

use rrs_lib::disassembly::hexadecimal_digits;
use std::{fmt, str};

/// The most bytes of a name that are shown. Of a longer one these are, and `[...]`.
pub const SHOWN_BYTES: usize = 1024;

/// A name as it is shown: without control characters, and cut where it is long.
///
/// A control character of ASCII is `^` and a letter, as `readelf` has it: `^[` and `^J`. Another
/// control character, and each byte of a name that is not UTF-8 and has no ASCII character, is its
/// number in braces: `{0x9b}`.
#[derive(Clone, Copy, Debug)]
pub struct ShownName<'a> {
    /// The name: all of it, or more than `SHOWN_BYTES` bytes.
    pub name: &'a [u8],
}

impl<'a> ShownName<'a> {
    /// A text as it is shown: a path, or a word of the command line.
    pub fn of(text: &'a str) -> ShownName<'a>
        ensures { result.name.now ≡ text.now }
    {
        ShownName {
            name: text.as_bytes(),
        }
    }
}

/// Writes digits in braces.
fn write_digits<W: fmt::Write>(f: &mut fmt::Formatter<W>, digits: &str) -> fmt::Result
    ensures { WritesOnOk W.write_str_gives f.old result
        (codes "{0x" ++ digits.now ++ codes "}") f.new }
{
    write!(f, "{{0x{digits}}}")
}

/// Writes a number in braces.
fn write_in_braces<W: fmt::Write>(f: &mut fmt::Formatter<W>, number: u32) -> fmt::Result
    ensures { WritesOnOk W.write_str_gives f.old result (in_braces number) f.new }
{
    write_digits(f, hexadecimal_digits(2, number).as_str())
}

/// Writes a character.
fn write_plain<W: fmt::Write>(f: &mut fmt::Formatter<W>, character: char) -> fmt::Result
    ensures { WritesOnOk W.write_str_gives f.old result (encode_utf8 character) f.new }
{
    let mut bytes = [0; 4];
    f.write_str(character.encode_utf8(&mut bytes))
}

/// Writes a character as it is shown.
fn write_character<W: fmt::Write>(f: &mut fmt::Formatter<W>, character: char) -> fmt::Result
    ensures { WritesOnOk W.write_str_gives f.old result
        (shown_character character) f.new }
{
    match character {
        '\0'..='\x1f' => {
            f.write_str("^")?;
            write_plain(f, char::from(character as u8 + 64))
        }
        '\x7f' => f.write_str("^?"),
        '\u{80}'..='\u{9f}' => write_in_braces(f, u32::from(character)),
        _ => write_plain(f, character),
    }
}

/// Writes the characters of a text as they are shown.
fn write_characters<W: fmt::Write>(f: &mut fmt::Formatter<W>, text: &str) -> fmt::Result
    ensures { WritesOnOk W.write_str_gives f.old result
        (shown_characters text.now) f.new }
{
    for character in text.chars() {
        write_character(f, character)?;
    }
    Ok(())
}

/// Writes a byte of what is no text as it is shown.
fn write_byte<W: fmt::Write>(f: &mut fmt::Formatter<W>, byte: u8) -> fmt::Result
    ensures { WritesOnOk W.write_str_gives f.old result (shown_byte byte) f.new }
{
    if byte < 128 {
        write_character(f, char::from(byte))
    } else {
        write_in_braces(f, u32::from(byte))
    }
}

/// Writes bytes that are no text as they are shown.
fn write_bytes<W: fmt::Write>(f: &mut fmt::Formatter<W>, bytes: &[u8]) -> fmt::Result
    ensures { WritesOnOk W.write_str_gives f.old result (shown_bytes bytes.now) f.new }
{
    for byte in bytes {
        write_byte(f, *byte)?;
    }
    Ok(())
}

/// Writes bytes as they are shown, which are UTF-8 or not.
fn write_front<W: fmt::Write>(f: &mut fmt::Formatter<W>, bytes: &[u8]) -> fmt::Result
    ensures { WritesOnOk W.write_str_gives f.old result (shown_front bytes.now) f.new }
{
    match str::from_utf8(bytes) {
        Ok(text) => write_characters(f, text),
        Err(_) => write_bytes(f, bytes),
    }
}

/// The bytes of a name that are shown, and what is written after them.
fn cut(name: &[u8]) -> (&[u8], &'static str)
    ensures bytes { result.0.now ≡ take 1024 name.now }
    ensures behind { result.1.now ≡ shown_end name.now }
{
    if name.len() > SHOWN_BYTES {
        (&name[..SHOWN_BYTES], "[...]")
    } else {
        (name, "")
    }
}

impl fmt::Display for ShownName<'_> {
    ghost use Rattle.std.specs.Prelude.{Some};
    ghost use Rattle.rrs_reports.specs.ShownNames.{shown_name};

    ghost output = { λ shown. Some (shown_name shown.name.now) };

    fn fmt<W: fmt::Write>(&self, f: &mut fmt::Formatter<W>) -> fmt::Result {
        let (bytes, behind) = cut(self.name);
        write_front(f, bytes)?;
        f.write_str(behind)
    }
}
