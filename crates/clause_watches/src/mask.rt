//! Sets as masks of 64 bits.
//!
//! Bit j of a mask stands for the j-th value from a least one on. A mask has the values of its set
//! that lie in that window, no more and no less, and tells nothing of others.
ghost use Rattle.std.specs.Prelude.{◌≡◌, ◌≤◌, ◌<◌, ◌-ℤ◌, ◌≤ℤ◌, ◌+ℤ◌, ℕ, ℤ, pos, true, unsigned_abs};
ghost use Rattle.std.specs.Int.{bit_at};
ghost use Rattle.signed_clause.specs.Ranges.{IsValid, has, in_range};
ghost use Rattle.clause_watches.specs.Rows.{IsMaskOf, IsWholeMaskOf, HasAllBits};

use crate::watch::BoxBits;
use signed_clause::IntSet;

/// The values of the set from `least` on as bits, in one step for each range up to the window's
/// end.
pub(crate) fn mask_of(set: &IntSet, least: i64) -> u64
    ensures mask { IsMaskOf least set.now result }
    ensures whole { IsWholeMaskOf least set.now result }
    ensures valid { IsValid set.now }
{
    let mut mask = 0;
    for r in set.ranges() {
        if steps_from(least, r.0) > 63 {
            return mask;
        }
        mask |= range_bits(*r, least);
    }
    mask
}

/// The values of a range from `least` on as bits.
fn range_bits(r: (i64, i64), least: i64) -> u64
    ensures bits { (j : ℕ) → bit_at result j ≡ 1 → in_range r (least +ℤ pos j) ≡ true }
    ensures whole { (j : ℕ) → j < 64 → in_range r (least +ℤ pos j) ≡ true → bit_at result j ≡ 1 }
{
    if r.1 < least {
        return 0;
    }
    let first = steps_from(least, r.0);
    let last = steps_from(least, r.1).min(63);
    if first > last {
        return 0;
    }
    bits_between(first as u32, last as u32)
}

/// How far the value lies above the least one, 0 where it doesn't.
fn steps_from(least: i64, v: i64) -> u64
    ensures enough { v ≤ℤ (least +ℤ pos result) }
    ensures exact { least ≤ℤ v → least +ℤ pos result ≡ v }
    ensures fewest { (j : ℕ) → v ≤ℤ (least +ℤ pos j) → result ≤ j }
{
    if v <= least { 0 } else { v.abs_diff(least) }
}

/// The bits from the first to the last.
fn bits_between(first: u32, last: u32) -> u64
    requires order { first ≤ last }
    requires within { last < 64 }
    ensures first { (j : ℕ) → bit_at result j ≡ 1 → first ≤ j }
    ensures last { (j : ℕ) → bit_at result j ≡ 1 → j ≤ last }
    ensures between { (j : ℕ) → first ≤ j → j ≤ last → bit_at result j ≡ 1 }
{
    (u64::MAX << first) & (u64::MAX >> (63 - last))
}

/// The values of a box as bits, from `least` on.
pub(crate) fn box_bits(at: &IntSet, least: i64) -> BoxBits
    ensures bits { IsMaskOf least at.now result.bits }
    ensures valid { IsValid at.now }
    ensures whole { result.whole ≡ true → HasAllBits least at.now result.bits }
{
    BoxBits {
        bits: mask_of(at, least),
        whole: lies_in_window(at, least),
    }
}

/// Whether the values from the first to the last are among the 64 from `least` on.
fn is_window(low: i64, high: i64, least: i64) -> bool
    ensures low { result ≡ true → least ≤ℤ low }
    ensures high { result ≡ true → high ≤ℤ (least +ℤ pos 63) }
{
    least <= low && steps_from(least, high) <= 63
}

/// Whether all values of a box are among the 64 from `least` on.
fn lies_in_window(at: &IntSet, least: i64) -> bool
    ensures { result ≡ true → (v : ℤ) → has at.now v ≡ true
        → (least ≤ℤ v) × (v ≤ℤ (least +ℤ pos 63)) }
{
    match (at.least(), at.greatest()) {
        (Some(low), Some(high)) => is_window(low, high, least),
        _ => false,
    }
}
