//! Numbers from their decimal text: digits with no leading zero, and `0` alone for zero.
ghost use Rattle.std.specs.Prelude.{◌≡◌, ℕ, ◌<◌, ◌≤◌, ◌^◌, ◌+◌, ◌-◌, ◌*◌, true, IfSome, IfNone, IsTrue, ◌↔◌, length, slice_index_or, decimal};
ghost use Rattle.std.specs.Char.{is_ascii_digit};

/// The number of this text.
pub fn number_of(text: &[u8]) -> Option<u64>
    ensures some { IfSome result (λ n. text.now ≡ decimal n) }
    ensures none { IfNone result ((n : ℕ) → n < 2 ^ 64 → text.now ≡ decimal n → ⊥) }
{
    if !begins_well(text) {
        return None;
    }
    let mut n = 0;
    for b in text {
        match with_digit(n, *b) {
            Some(more) => n = more,
            None => return None,
        }
    }
    Some(n)
}

/// Whether the text is not empty, and begins with a zero only where it is that alone.
fn begins_well(text: &[u8]) -> bool
    ensures { IsTrue result ↔ (0 < length text.now) × (slice_index_or text.now 0 0 ≡ 48
        → length text.now ≡ 1) }
{
    !text.is_empty() && (text[0] != b'0' || text.len() == 1)
}

/// The number with one more digit.
fn with_digit(n: u64, b: u8) -> Option<u64>
    ensures some { IfSome result (λ more. (is_ascii_digit b ≡ true) × (more ≡ 10 * n + (b - 48))) }
    ensures none { IfNone result (is_ascii_digit b ≡ true → 2 ^ 64 ≤ 10 * n + (b - 48)) }
{
    if !b.is_ascii_digit() {
        return None;
    }
    n.checked_mul(10)?.checked_add((b - b'0') as u64)
}
