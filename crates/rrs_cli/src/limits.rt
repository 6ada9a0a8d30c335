//! The limit of a run, as a word of the command line.

ghost use Rattle.std.specs.Prelude.{◌≡◌};
ghost use Rattle.rrs_cli.specs.Limits.{limit_in};

/// The most digits that a limit has.
const MOST_DIGITS: usize = 9;

/// The number that a word of one to nine ASCII digits is, and else `None`.
pub fn limit_of(word: &str) -> Option<u64>
    ensures { result ≡ limit_in word.now }
{
    let digits = word.as_bytes();
    if digits.is_empty() || digits.len() > MOST_DIGITS {
        return None;
    }
    let mut limit = 0u64;
    for digit in digits {
        if !digit.is_ascii_digit() {
            return None;
        }
        limit = limit * 10 + u64::from(*digit - b'0');
    }
    Some(limit)
}
