//! The numbers and the fields of a payload.

ghost use Rattle.std.specs.Prelude.{◌≡◌, ◌≢◌, ◌<◌, ◌++◌, ℕ, List, [], length, IfSome, IfNone, MatchOption};
ghost use Rattle.rrs_gdb.specs.Packets.{IsDecimal, IsNumber, decimal, number, before, behind, IsPlace, address_in, length_in};

/// The number that one to eight hexadecimal digits are.
pub fn number_of(digits: &[u8]) -> Option<u32>
    ensures { MatchOption result (¬ IsNumber digits.now)
        (λ value. IsNumber digits.now × (value ≡ number digits.now)) }
{
    if digits.is_empty() || digits.len() > 8 {
        return None;
    }
    let mut number = 0_u32;
    for digit in digits {
        let value = char::from(*digit).to_digit(16)?;
        number = number * 16 + value;
    }
    Some(number)
}

/// The number that decimal digits are, if it is below 2^64.
pub(crate) fn decimal_of(digits: &[u8]) -> Option<u64>
    ensures { MatchOption result (¬ IsDecimal digits.now)
        (λ value. IsDecimal digits.now × (value ≡ decimal digits.now)) }
{
    if digits.is_empty() {
        return None;
    }
    let mut number = 0_u64;
    for digit in digits {
        let value = char::from(*digit).to_digit(10)?;
        let tens = number.checked_mul(10)?;
        number = tens.checked_add(u64::from(value))?;
    }
    Some(number)
}

/// What stands before the first of these bytes, and after it.
pub fn cut(bytes: &[u8], at: u8) -> Option<(&[u8], &[u8])>
    ensures shorter { IfSome result (λ parts. length parts.1.now < length bytes.now) }
    ensures parts { MatchOption result
        ((before at bytes.now ≡ bytes.now) × (behind at bytes.now ≡ []))
        (λ parts. (parts.0.now ≡ before at bytes.now) × (parts.1.now ≡ behind at bytes.now)) }
{
    for (index, byte) in bytes.iter().enumerate() {
        if *byte == at {
            return Some((&bytes[..index], &bytes[index + 1..]));
        }
    }
    None
}

/// What stands before the first of these bytes, and after it; all, and nothing, where there is
/// none.
pub fn cut_or_all(bytes: &[u8], at: u8) -> (&[u8], &[u8])
    ensures shorter { 0 < length bytes.now → length result.1.now < length bytes.now }
    ensures parts { (result.0.now ≡ before at bytes.now) × (result.1.now ≡ behind at bytes.now) }
{
    match cut(bytes, at) {
        Some(parts) => parts,
        None => (bytes, &[]),
    }
}

/// An address and a length, with a comma between.
pub fn address_and_length(bytes: &[u8]) -> Option<(u32, u32)>
    ensures { MatchOption result (¬ IsPlace bytes.now) (λ place. IsPlace bytes.now
        × (place.0 ≡ address_in bytes.now) × (place.1 ≡ length_in bytes.now)) }
{
    let (address, length) = cut_or_all(bytes, b',');
    Some((number_of(address)?, number_of(length)?))
}

/// An address and a length before a colon, and the bytes after it.
pub fn place_and_bytes(bytes: &[u8]) -> Option<(u32, u32, &[u8])>
    ensures found { IfSome result (λ found. IsPlace (before 58 bytes.now)
        × (found.0 ≡ address_in (before 58 bytes.now)) × (found.1 ≡ length_in (before 58 bytes.now))
        × (found.2.now ≡ behind 58 bytes.now)) }
    ensures none { IfNone result (IsPlace (before 58 bytes.now) → behind 58 bytes.now ≡ []) }
{
    let (place, values) = cut(bytes, b':')?;
    let (address, length) = address_and_length(place)?;
    Some((address, length, values))
}

/// What is after a prefix.
pub fn behind<'a>(bytes: &'a [u8], prefix: &[u8]) -> Option<&'a [u8]>
    ensures { MatchOption result ((rest : List ℕ) → bytes.now ≢ prefix.now ++ rest)
        (λ rest. bytes.now ≡ prefix.now ++ rest.now) }
{
    bytes.strip_prefix(prefix)
}
