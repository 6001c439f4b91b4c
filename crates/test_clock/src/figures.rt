//! What times come to.
ghost use Rattle.std.specs.Prelude.{◌≡◌, ◌≤◌, ◌*◌, ◌/◌, ◌⊎◌, ◌↔◌, IsTrue, max};

/// How many nanoseconds one takes, where so many took so many.
pub fn mean(spent: u128, count: u64) -> u128
    ensures { result ≡ spent / max count 1 }
{
    spent / u128::from(count.max(1))
}

/// How many a second, where so many took so many nanoseconds; 0 where no time passed.
pub fn per_second(count: usize, spent: u128) -> u128
    ensures { result ≡ count * 1_000_000_000 / spent }
{
    if spent == 0 {
        0
    } else {
        (count as u128) * 1_000_000_000 / spent
    }
}

/// Whether calls took long enough for a mean: 50 milliseconds, or they are many.
pub fn is_long_enough(spent: u128, calls: u32) -> bool
    ensures { IsTrue result ↔ 50_000_000 ≤ spent ⊎ 16_777_216 ≤ calls }
{
    spent >= 50_000_000 || calls >= 16_777_216
}
