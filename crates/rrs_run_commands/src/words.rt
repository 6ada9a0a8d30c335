//! What a word of a command line is: a number, a size, an address, or an option.

ghost use Rattle.std.specs.Prelude.{◌≡◌, ◌↔◌, ◌⊎◌, ◌+◌, ◌^◌, ◌<◌, ◌≤◌, ℕ, IsTrue, MatchOption, slice_index, true};
ghost use Rattle.std.specs.Str.Parse.{IsNumeral, digits_value};
ghost use Rattle.rrs_run_commands.specs.Words.{HasValue, IsAddress, IsDashed, IsInUnit, IsNumber, IsSize, IsStepRange, IsVariable, name_in, value_in};

use rrs_reports::StepRange;

/// The number that a word is: decimal digits, or `0x` and hexadecimal ones. `None` where the word
/// has no digits or others, and where it is 2^64 or more.
pub fn number_of(word: &str) -> Option<u64>
    ensures { MatchOption result ((n : ℕ) → IsNumber word.now n → ⊥) (IsNumber word.now) }
{
    match word.strip_prefix("0x") {
        Some(digits) => numeral_of(digits, 16),
        None => numeral_of(word, 10),
    }
}

/// The number that digits of a base are. `None` where the word has no digits or others, and where
/// it is 2^64 or more.
fn numeral_of(word: &str, base: u32) -> Option<u64>
    requires least { 2 ≤ base }
    requires most { base ≤ 36 }
    ensures { MatchOption result
        (IsNumeral base word.now → digits_value base word.now < 2 ^ 64 → ⊥)
        (λ n. IsNumeral base word.now × (n ≡ digits_value base word.now) × (n < 2 ^ 64)) }
{
    if begins_with_plus(word) {
        return None;
    }
    match u64::from_str_radix(word, base) {
        Ok(number) => Some(number),
        Err(_) => None,
    }
}

/// The bytes that a word asks for: a number of them, or of KiB, MiB or GiB where K, M or G stands
/// after it. `None` where the word is no such number, and for 2^64 bytes or more.
pub fn size_of(word: &str) -> Option<u64>
    ensures { MatchOption result ((n : ℕ) → IsSize word.now n → ⊥) (IsSize word.now) }
{
    if let Some(bytes) = number_of(word) {
        return Some(bytes);
    }
    if let Some(bytes) = in_unit(word, "K", 1 << 10) {
        return Some(bytes);
    }
    if let Some(bytes) = in_unit(word, "M", 1 << 20) {
        return Some(bytes);
    }
    in_unit(word, "G", 1 << 30)
}

/// So many of a unit as the number before its letter, if the word is that.
fn in_unit(word: &str, letter: &str, unit: u64) -> Option<u64>
    ensures { MatchOption result ((n : ℕ) → IsInUnit letter.now unit word.now n → ⊥)
        (IsInUnit letter.now unit word.now) }
{
    let Some(digits) = word.strip_suffix(letter) else {
        return None;
    };
    let Some(count) = number_of(digits) else {
        return None;
    };
    count.checked_mul(unit)
}

/// The address of a section that a word is: `0x` and one to eight hexadecimal digits, a multiple of
/// 4.
#[tactic(auto, using(crate::proofs::WordLemmas::short_fits))]
pub fn address_of(word: &str) -> Option<u32>
    ensures { MatchOption result ((address : ℕ) → IsAddress word.now address → ⊥)
        (IsAddress word.now) }
{
    let Some(digits) = word.strip_prefix("0x") else {
        return None;
    };
    if digits.len() > 8 {
        return None;
    }
    match numeral_of(digits, 16) {
        Some(address) if address % 4 == 0 => Some(address as u32),
        _ => None,
    }
}

/// The steps that a word is, N-M: from the one of the number N on, which is 1 at least, to that of
/// the number M, which is no less.
pub fn steps_of(word: &str) -> Option<StepRange>
    ensures { MatchOption result ((range : StepRange) → IsStepRange word.now range → ⊥)
        (IsStepRange word.now) }
{
    let Some((first, last)) = word.split_once('-') else {
        return None;
    };
    let Some(first) = number_of(first) else {
        return None;
    };
    let Some(last) = number_of(last) else {
        return None;
    };
    range_of(first, last)
}

/// The steps from the one of a number on to that of another, if there are some.
fn range_of(first: u64, last: u64) -> Option<StepRange>
    ensures { MatchOption result ((first ≡ 0) ⊎ (last < first))
        (λ range. (range.before + 1 ≡ first) × (range.until ≡ last) × (first ≤ last)) }
{
    if first == 0 || last < first {
        return None;
    }
    Some(StepRange {
        before: first - 1,
        until: last,
    })
}

/// Whether the first byte of a word is a plus, which std takes before the digits of a number.
fn begins_with_plus(word: &str) -> bool
    ensures { IsTrue result ↔ (slice_index word.now 0 ≡ 43) }
{
    matches!(word.as_bytes(), [b'+', ..])
}

/// Whether a word is an option: a minus is its first byte, and not the only one.
pub fn is_dashed(word: &str) -> bool
    ensures { IsTrue result ↔ IsDashed word.now }
{
    matches!(word.as_bytes(), [b'-', _, ..])
}

/// The name of an option, and the value after the first `=`, if there is one.
pub fn name_and_value(word: &str) -> (&str, Option<&str>)
    ensures name { result.0.now ≡ name_in word.now }
    ensures value { MatchOption result.1 (HasValue word.now → ⊥)
        (λ value. HasValue word.now × (value.now ≡ value_in word.now)) }
{
    match word.split_once('=') {
        Some((name, value)) => (name, Some(value)),
        None => (word, None),
    }
}

/// Whether a word is a variable of a program's environment, `NAME=VALUE`: the name before the first
/// `=` has one byte at least, and the value may have none.
pub fn is_variable(word: &str) -> bool
    ensures { IsTrue result ↔ IsVariable word.now }
{
    let (name, value) = name_and_value(word);
    value.is_some() && !name.is_empty()
}
