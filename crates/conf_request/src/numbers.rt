//! Decimal numbers between bounds.
ghost use Rattle.std.specs.Prelude.{◌≡◌, ◌<◌, ◌≤◌, MatchOption};
ghost use Rattle.std.specs.List.{list_all};
ghost use Rattle.std.specs.Char.{is_ascii_digit};
ghost use Rattle.conf_syntax.specs.Spelling.{is_digits, number_of};
ghost use Rattle.conf_request.specs.Words.{number_within};

/// Whether each byte is a digit.
fn are_digits(word: &[u8]) -> bool
    ensures { result ≡ list_all is_ascii_digit word.now }
{
    for b in word {
        if !b.is_ascii_digit() {
            return false;
        }
    }
    true
}

/// Whether a word is one or more digits.
fn is_digits(word: &[u8]) -> bool
    ensures { result ≡ is_digits word.now }
{
    match word {
        [first, behind @ ..] => first.is_ascii_digit() && are_digits(behind),
        [] => false,
    }
}

/// The value of a row of digits, if it is at most the greatest.
fn number_up_to(most: u32, digits: &[u8]) -> Option<u32>
    ensures { MatchOption result (most < number_of digits.now)
        (λ n. (number_of digits.now ≡ n) × (n ≤ most)) }
{
    let past = u64::from(most) + 1;
    let mut value = 0u64;
    for digit in digits {
        value = (10 * value + u64::from(digit.saturating_sub(b'0'))).min(past);
    }
    if value == past {
        None
    } else {
        Some(value as u32)
    }
}

/// The value of a word of at most so many digits, if it lies between the bounds. Leading zeros are
/// digits as any others.
pub fn number_within(digits: usize, least: u32, most: u32, word: &str) -> Option<u32>
    ensures { result ≡ number_within digits least most word.now }
{
    let bytes = word.as_bytes();
    if !is_digits(bytes) || bytes.len() > digits {
        return None;
    }
    let n = number_up_to(most, bytes)?;
    if n < least { None } else { Some(n) }
}
