//! Numbers from their decimal text.
//!
//! A text is that of at most one number: digits with no leading zero, `0` alone for zero, and `-`
//! before a negative value.
ghost use Rattle.std.specs.Prelude.{◌≡◌, ℕ, ◌<◌, ◌≤◌, ◌^◌, ◌+◌, ◌-◌, ◌*◌, [], ◌∷◌, true, ℤ, pos, IfSome, IfNone, IsTrue, ◌↔◌, length, drop, slice_index_or, decimal};
ghost use Rattle.std.specs.Fmt.{signed_decimal};
ghost use Rattle.proof_log.specs.Spelling.{IsSigned, IsTextOf, IsTextOfNone};

use decimal_text::number_of;

/// The number of this text, where it has at most 32 bits.
pub fn small_number_of(text: &[u8]) -> Option<u32>
    ensures some { IfSome result (λ n. text.now ≡ decimal n) }
    ensures none { IfNone result ((n : ℕ) → n < 2 ^ 32 → text.now ≡ decimal n → ⊥) }
{
    let n = number_of(text)?;
    if n > u32::MAX as u64 {
        return None;
    }
    Some(n as u32)
}

/// The value of this text.
pub fn value_of(text: &[u8]) -> Option<i64>
    ensures some { IfSome result (λ v. IsTextOf signed_decimal IsSigned text.now v) }
    ensures none { IfNone result (IsTextOfNone signed_decimal IsSigned text.now) }
{
    if has_sign(text) {
        value_below_zero(&text[1..])
    } else {
        value_from_zero(text)
    }
}

/// Whether the text begins with `-`.
fn has_sign(text: &[u8]) -> bool
    ensures { IsTrue result ↔ (text.now ≡ 45 ∷ drop 1 text.now) }
{
    !text.is_empty() && text[0] == b'-'
}

/// The value of these digits.
fn value_from_zero(digits: &[u8]) -> Option<i64>
    ensures some { IfSome result (λ v. IsTextOf signed_decimal IsSigned digits.now v) }
    ensures none { IfNone result ((n : ℕ) → n < 2 ^ 63 → digits.now ≡ decimal n → ⊥) }
{
    let n = number_of(digits)?;
    if n > i64::MAX as u64 {
        return None;
    }
    Some(from_zero(n))
}

/// The value of these digits behind `-`.
fn value_below_zero(digits: &[u8]) -> Option<i64>
    ensures some { IfSome result (λ v. IsTextOf signed_decimal IsSigned (45 ∷ digits.now) v) }
    ensures none { IfNone result ((n : ℕ) → 0 < n → n ≤ 2 ^ 63 → digits.now ≡ decimal n → ⊥) }
{
    let n = number_of(digits)?;
    if n == 0 || n > 1 << 63 {
        return None;
    }
    Some(below_zero(n))
}

/// The number as a value.
fn from_zero(n: u64) -> i64
    requires { n < 2 ^ 63 }
    ensures { IsSigned result × (result ≡ pos n) }
{
    n as i64
}

/// The value that is as far below zero.
fn below_zero(n: u64) -> i64
    requires some { 0 < n }
    requires fits { n ≤ 2 ^ 63 }
    ensures { IsSigned result × (45 ∷ decimal n ≡ signed_decimal result) }
{
    -(n as i128) as i64
}
