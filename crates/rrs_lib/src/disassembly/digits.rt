//! Hexadecimal digits, with no allocation.

ghost use Rattle.std.specs.Prelude.{◌≡◌, ◌<◌, ◌≤◌, false, take, drop};
ghost use Rattle.std.specs.Fmt.{digit_glyph, digits};
ghost use Rattle.rrs_lib.specs.Texts.{hexadecimal};

use arrayvec::ArrayString;
use std::str;

/// The number of hexadecimal digits of a word.
const WORD_DIGITS: usize = 8;

/// The hexadecimal digits of a word, in lower case, with zeros in front up to `least` digits, at
/// most 8.
#[inline(always)]
pub fn hexadecimal_digits(least: usize, word: u32) -> ArrayString<WORD_DIGITS>
    requires { least ≤ 8 }
    ensures { result.bytes ≡ hexadecimal least word }
{
    let mut digits = [b'0'; WORD_DIGITS];
    let start = put_digits(word, &mut digits);
    let first = start.min(WORD_DIGITS - least);
    let mut text = ArrayString::new();
    text.push_str(unsafe { str::from_utf8_unchecked(&digits[first..]) });
    text
}

/// Writes the digits of a word at the end of a buffer, and returns where they begin.
#[inline]
fn put_digits(word: u32, out: &mut [u8; WORD_DIGITS]) -> usize
    ensures within { result ≤ 8 }
    ensures written { drop result out.new ≡ digits 16 false word }
    ensures front { take result out.new ≡ take result out.old }
{
    let mut place = WORD_DIGITS;
    let mut rest = word;
    while place > 0 {
        place -= 1;
        out[place] = digit(rest % 16);
        rest /= 16;
        if rest == 0 {
            break;
        }
    }
    place
}

/// A digit, 0 to 15, as ASCII.
#[inline]
fn digit(value: u32) -> u8
    requires { value < 16 }
    ensures { result ≡ digit_glyph false value }
{
    if value < 10 {
        b'0' + value as u8
    } else {
        b'a' - 10 + value as u8
    }
}
