//! Numbers as text: words in hexadecimal, and counts and registers in decimal.

ghost use Rattle.std.specs.Prelude.{◌≡◌, ◌<◌, ◌≤◌, ◌^◌, length, IfSome};
ghost use Rattle.rrs_oracle.specs.Numerals.{digit_of, digits_after, word_of, decimal_of, register_of};

/// The value of a digit of a base, where ten and more are lower-case letters.
fn digit(byte: u8, base: u32) -> Option<u32>
    ensures value { result ≡ digit_of base byte }
    ensures below { IfSome result (λ value. value < base) }
{
    let value = match byte {
        b'0'..=b'9' => u32::from(byte - b'0'),
        b'a'..=b'f' => u32::from(byte - b'a') + 10,
        _ => return None,
    };
    (value < base).then_some(value)
}

/// The number that digits of a base are, the first of them the highest.
fn number(digits: &[u8], base: u32) -> Option<u32>
    requires positive { 0 < base }
    requires room { base ^ length digits.now ≤ 2 ^ 32 }
    ensures { result ≡ digits_after base digits.now 0 }
{
    let mut value = 0;
    for byte in digits {
        value = value * base + digit(*byte, base)?;
    }
    Some(value)
}

/// The word that a text is: `0x` and 8 lower-case hexadecimal digits.
pub fn hex_word(text: &str) -> Option<u32>
    ensures { result ≡ word_of text.now }
{
    let bytes = text.as_bytes();
    if bytes.len() != 10 || bytes[0] != b'0' || bytes[1] != b'x' {
        return None;
    }
    number(&bytes[2..], 16)
}

/// The number that 1 to 7 decimal digits are, the first of them no 0 unless it is alone.
pub fn decimal(digits: &[u8]) -> Option<u32>
    ensures { result ≡ decimal_of digits.now }
{
    if digits.is_empty() || digits.len() > 7 || (digits.len() > 1 && digits[0] == b'0') {
        return None;
    }
    number(digits, 10)
}

/// The number of the register that a name is: `x` and a decimal number below 32.
pub fn register_index(name: &str) -> Option<usize>
    ensures value { result ≡ register_of name.now }
    ensures below { IfSome result (λ index. index < 32) }
{
    let bytes = name.as_bytes();
    if bytes.is_empty() || bytes[0] != b'x' {
        return None;
    }
    let index = decimal(&bytes[1..])?;
    (index < 32).then_some(index as usize)
}
