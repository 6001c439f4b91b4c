//! The values of numbers.
ghost use Rattle.std.specs.Prelude.{◌≡◌, ◌<◌, ◌≤◌, MatchOption};
ghost use Rattle.model_limits.specs.Limits.{most_literal};
ghost use Rattle.conf_syntax.specs.Spelling.{number_of};

use model_limits::MOST_LITERAL;

/// The value of a row of digits, if it is at most the greatest.
pub(crate) fn literal(digits: &[u8]) -> Option<u32>
    ensures { MatchOption result (most_literal < number_of digits.now)
        (λ n. (number_of digits.now ≡ n) × (n ≤ most_literal)) }
{
    let mut value = 0u64;
    for digit in digits {
        value = (10 * value + u64::from(digit.saturating_sub(b'0'))).min(MOST_LITERAL + 1);
    }
    if value > MOST_LITERAL {
        None
    } else {
        Some(value as u32)
    }
}
