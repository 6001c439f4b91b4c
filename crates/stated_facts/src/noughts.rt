//! Sums that are 0 wherever all constraints hold, or lie on one side of 0 there.
ghost use Rattle.std.specs.Prelude.{◌≡◌, ◌≤◌, ◌^◌, true, false, not, ◌&&◌, pos, neg_ℤ, unsigned_abs, IfOk, IfSome};
ghost use Rattle.form_build.specs.Sums.{IsLinear};
ghost use Rattle.stated_facts.specs.Rows.{Follows, IsAbove, IsNought, IsAllowed};

use crate::weights::is_small;
use form_build::{Linear, Maker};
use std::alloc::AllocError;

/// One is taken at most so often.
pub const MOST_TIMES: u64 = 1 << 18;

/// A sum that is 0 wherever all constraints hold, or lies on one side of 0 there.
#[derive(Drop)]
pub struct Nought {
    /// The sum.
    pub sum: Linear,
    /// Whether it may be added to a row: it is at most 0.
    pub adds: bool,
    /// Whether it may be taken away from one: it is at least 0.
    pub takes: bool,
}

/// A size as a number with a sign.
pub fn signed(size: u64) -> i64
    requires { size ≤ 2 ^ 38 }
    ensures { result ≡ pos size }
{
    size as i64
}

/// A multiple of either sign.
fn signed_multiple(size: u64, rises: bool) -> i64
    requires { size ≤ 2 ^ 38 }
    ensures small { unsigned_abs result ≤ 2 ^ 38 }
    ensures up { rises ≡ true → result ≡ pos size }
    ensures down { rises ≡ false → result ≡ neg_ℤ (pos size) }
{
    let n = signed(size);
    if rises { n } else { -n }
}

/// Whether what is 0 may be added, or taken away.
pub fn is_allowed(zero: &Nought, rises: bool) -> bool
    ensures { result ≡ true → IsAllowed zero.now rises }
{
    if rises { zero.adds } else { zero.takes }
}

/// A multiple of what is 0, by the number's sign added or taken away.
pub fn multiple_of(maker: &Maker, zero: &Nought, n: u64, rises: bool) -> Result<Linear, AllocError>
    requires nought { IsNought maker.now zero.now }
    requires small { n ≤ 2 ^ 38 }
    ensures linear { IfOk result (λ r. IsLinear (2 ^ 58) maker.now.domains r) }
    ensures below { IfOk result (λ r. IsAllowed zero.now rises → Follows maker.now r) }
    ensures above { IfOk result (λ r. IsAllowed zero.now (not rises) → IsAbove maker.now r) }
{
    let r = zero.sum.times(maker.alloc(), signed_multiple(n, rises))?;
    Ok(r)
}

/// Whether both are so.
fn both(a: bool, b: bool) -> bool
    ensures { result ≡ (a && b) }
{
    a && b
}

/// What is 0 with a multiple of something else that is, where the numbers stay small.
pub fn combined(
    maker: &Maker,
    zero: &Nought,
    other: &Nought,
    times: i64,
) -> Result<Option<Nought>, AllocError>
    requires zero { IsNought maker.now zero.now }
    requires other { IsNought maker.now other.now }
    ensures { IfOk result (λ o. IfSome o (λ z. IsNought maker.now z)) }
{
    let n = times.unsigned_abs();
    let rises = times > 0;
    if n > MOST_TIMES {
        return Ok(None);
    }
    let up = is_allowed(other, rises);
    let down = is_allowed(other, !rises);
    let more = multiple_of(maker, other, n, rises)?;
    let sum = zero.sum.plus(maker.alloc(), &more)?;
    if !is_small(maker, &sum) {
        return Ok(None);
    }
    let adds = both(zero.adds, up);
    let takes = both(zero.takes, down);
    Ok(Some(Nought { sum, adds, takes }))
}
