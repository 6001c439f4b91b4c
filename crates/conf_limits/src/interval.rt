//! Intervals of integers, as far as they are narrow.
ghost use Rattle.std.specs.Prelude.{◌≡◌, ◌*ℤ◌, neg_ℤ, ℕ, ℤ, pos};
ghost use Rattle.std.specs.Int.{int_min, int_max};
ghost use Rattle.conf_limits.specs.Limits.{capped, narrowed, operated};
ghost use Rattle.conf_limits.specs.Measures.{between, is_near, many, none, operator_interval, shape_interval, times};

use class_table::Resolved;
use conf_syntax::Op;
use model_limits::MOST_WIDTH;

/// The integers from the least to the greatest.
#[derive(Clone, Copy, Debug, PartialEq, Eq)]
pub struct Interval {
    pub low: i64,
    pub high: i64,
}

fn is_near(value: i128) -> bool
    ensures { result ≡ is_near value }
{
    let most = MOST_WIDTH as i128;
    -most <= value && value <= most
}

/// The interval with these ends, where it is narrow.
fn narrowed(low: i128, high: i128) -> Option<Interval>
    ensures { (a b : ℤ) → low ≡ a → high ≡ b → result ≡ narrowed (between a b) }
{
    if !is_near(low) || !is_near(high) {
        return None;
    }
    Some(Interval {
        low: low as i64,
        high: high as i64,
    })
}

/// The interval of what isn't an integer.
pub(crate) fn nothing() -> Interval
    ensures { result ≡ none }
{
    Interval { low: 0, high: 0 }
}

pub(crate) fn number(value: u32) -> Option<Interval>
    ensures { result ≡ narrowed (between (pos value) (pos value)) }
{
    narrowed(value as i128, value as i128)
}

pub(crate) fn shape_interval(shape: Resolved) -> Option<Interval>
    ensures { result ≡ narrowed (shape_interval shape) }
{
    match shape {
        Resolved::Span(low, high) => narrowed(low as i128, high as i128),
        Resolved::Truth
        | Resolved::Choice(_)
        | Resolved::One(_)
        | Resolved::Many(_, _)
        | Resolved::Ref(_)
        | Resolved::RefSet(_, _) => Some(nothing()),
    }
}

pub(crate) fn negated(i: Interval) -> Option<Interval>
    ensures { result ≡ narrowed (between (neg_ℤ i.high) (neg_ℤ i.low)) }
{
    narrowed(-(i.high as i128), -(i.low as i128))
}

fn product(a: i64, b: i64) -> i128
    ensures { (x y : ℤ) → a ≡ x → b ≡ y → result ≡ x *ℤ y }
{
    a as i128 * b as i128
}

fn least(a: i128, b: i128, c: i128, d: i128) -> i128
    ensures { (x y z w : ℤ) → a ≡ x → b ≡ y → c ≡ z → d ≡ w → result
        ≡ int_min (int_min x y) (int_min z w) }
{
    a.min(b).min(c.min(d))
}

fn greatest(a: i128, b: i128, c: i128, d: i128) -> i128
    ensures { (x y z w : ℤ) → a ≡ x → b ≡ y → c ≡ z → d ≡ w → result
        ≡ int_max (int_max x y) (int_max z w) }
{
    a.max(b).max(c.max(d))
}

/// The products of numbers of two intervals.
fn times(i: Interval, j: Interval) -> Option<Interval>
    ensures { result ≡ narrowed (times i j) }
{
    let a = product(i.low, j.low);
    let b = product(i.low, j.high);
    let c = product(i.high, j.low);
    let d = product(i.high, j.high);
    narrowed(least(a, b, c, d), greatest(a, b, c, d))
}

fn operator_interval(op: Op, i: Interval, j: Interval) -> Option<Interval>
    ensures { result ≡ narrowed (operator_interval op i j) }
{
    match op {
        Op::Add => narrowed(
            i.low as i128 + j.low as i128,
            i.high as i128 + j.high as i128,
        ),
        Op::Sub => narrowed(
            i.low as i128 - j.high as i128,
            i.high as i128 - j.low as i128,
        ),
        Op::Mul => times(i, j),
        _ => Some(nothing()),
    }
}

/// The interval of what an operator makes of two sides, where all are narrow.
pub(crate) fn operated(op: Op, left: Option<Interval>, right: Option<Interval>) -> Option<Interval>
    ensures { result ≡ operated op left right }
{
    match (left, right) {
        (Some(i), Some(j)) => operator_interval(op, i, j),
        _ => None,
    }
}

/// From 0 to a reach.
pub(crate) fn up_to(reach: u64) -> Option<Interval>
    ensures { (r : ℕ) → reach ≡ capped r → result ≡ narrowed (between (pos 0) (pos r)) }
{
    narrowed(0, reach as i128)
}

fn repeated(count: u64, value: i64) -> i128
    ensures { (n : ℕ) (v : ℤ) → count ≡ n → value ≡ v → result ≡ pos n *ℤ v }
{
    count as i128 * value as i128
}

/// So many numbers of the interval as a reach is, each of which may be left out.
pub(crate) fn many(reach: u64, i: Interval) -> Option<Interval>
    ensures { (r : ℕ) → reach ≡ capped r → result ≡ narrowed (many r i) }
{
    narrowed(
        repeated(reach, i.low.min(0)),
        repeated(reach, i.high.max(0)),
    )
}
