//! Numbers, local labels and escapes.

/// The value of a number: decimal, octal after a zero, hexadecimal after `0x`, or binary after
/// `0b`. None where it is written otherwise, or has more than 64 bits.
pub fn number_of(word: &[u8]) -> Option<u64> {
    match word {
        [b'0'] => Some(0),
        [b'0', b'x' | b'X', digits @ ..] => value_of(digits, 16),
        [b'0', b'b' | b'B', digits @ ..] => value_of(digits, 2),
        [b'0', digits @ ..] => value_of(digits, 8),
        _ => value_of(word, 10),
    }
}

/// The value of digits to a base.
fn value_of(digits: &[u8], base: u64) -> Option<u64> {
    if digits.is_empty() {
        return None;
    }
    let mut value = 0u64;
    for digit in digits {
        let digit = digit_of(*digit, base)?;
        value = value.checked_mul(base)?.checked_add(digit)?;
    }
    Some(value)
}

/// The value of a digit below a base.
pub fn digit_of(byte: u8, base: u64) -> Option<u64> {
    let digit = match byte {
        b'0'..=b'9' => u64::from(byte - b'0'),
        b'a'..=b'f' => u64::from(byte - b'a') + 10,
        b'A'..=b'F' => u64::from(byte - b'A') + 10,
        _ => return None,
    };
    if digit < base { Some(digit) } else { None }
}

/// The byte that a backslash and this byte stand for.
pub fn escaped(byte: u8) -> Option<u8> {
    match byte {
        b'b' => Some(8),
        b'f' => Some(12),
        b'n' => Some(b'\n'),
        b't' => Some(b'\t'),
        b'r' => Some(b'\r'),
        b'0' => Some(0),
        b'\\' => Some(b'\\'),
        b'"' => Some(b'"'),
        b'\'' => Some(b'\''),
        _ => None,
    }
}
