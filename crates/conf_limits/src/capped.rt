//! Sums and products that are counted up to a bound above each limit.
ghost use Rattle.std.specs.Prelude.{◌≡◌, ◌+◌, ◌*◌, ℕ};
ghost use Rattle.conf_limits.specs.Limits.{capped};

use model_limits::MOST_WIDTH;

/// Above it all numbers are one.
const MOST: u64 = 2 * MOST_WIDTH as u64;

pub(crate) fn capped_sum(a: u64, b: u64) -> u64
    ensures { (m n : ℕ) → a ≡ capped m → b ≡ capped n → result ≡ capped (m + n) }
{
    a.saturating_add(b).min(MOST)
}

pub(crate) fn capped_product(a: u64, b: u64) -> u64
    ensures { (m n : ℕ) → a ≡ capped m → b ≡ capped n → result ≡ capped (m * n) }
{
    a.saturating_mul(b).min(MOST)
}
