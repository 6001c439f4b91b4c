//! Whether a row has something to say, and what.
//!
//! The least sum and the term that can rise the most decide. Where the least sum is above the bound
//! the row is refuted. Where it would be with the variable of that term at the far end of its box,
//! the values of that variable at which this is so are taken away. Else no variable can be set so
//! that the row is refuted.
//!
//! A constraint is pruned at the term that can rise the most: that is one walk, and where this term
//! has nothing to lose no other has. Other terms come with the next calls. The pruned variable's
//! part of the slack is spent first, so every value that the row excludes is taken away at once.
ghost use Rattle.std.specs.Prelude.{◌≡◌, ◌<◌, ◌≤◌, ◌^◌, ◌+ℤ◌, ◌≤ℤ◌, ◌<ℤ◌, pos, length, unsigned_abs, IfNone, IfSome};
ghost use Rattle.ground_form.specs.Bounds.{least_sum, weight_of};
ghost use Rattle.linear_prop.specs.Rows.{terms_of, greatest_spread, spread_of};
ghost use Rattle.linear_prop.specs.Surveys.{IsWidest};
ghost use Rattle.linear_prop.specs.Explaining.{term_at, IsCause, IsTight, IsRowOver};

use crate::explain::{Cause, set_at};
use crate::fall::{back_off, highest, lowest};
use crate::number::WideNumber;
use crate::row::{Row, factor_of};
use crate::survey::{Survey, walk};
use signed_clause::IntSet;

/// The cause of a row whose least sum is above its bound.
fn refuted(row: &Row, boxes: &[IntSet], least: WideNumber) -> Cause
    requires least { least.value ≡ least_sum (terms_of row.now) boxes.now }
    requires above { row.now.bound.value <ℤ least.value }
    ensures cause { IsCause (terms_of row.now) boxes.now row.now.bound.value result.index
        result.to.value result.slack }
    ensures index { result.index ≡ length (terms_of row.now) }
{
    Cause {
        index: row.len(),
        to: WideNumber::of(0),
        slack: least.above(row.bound) - 1,
    }
}

/// The cause of a row that isn't refuted, but would be with the variable of the widest term at the
/// far end of its box.
fn pruned(row: &Row, boxes: &[IntSet], domains: &[IntSet], found: Survey) -> Cause
    requires over { IsRowOver (terms_of row.now) domains.now boxes.now }
    requires fits { unsigned_abs found.least.value ≤ 2 ^ 61 }
    requires least { found.least.value ≡ least_sum (terms_of row.now) boxes.now }
    requires within { found.least.value ≤ℤ row.now.bound.value }
    requires above { row.now.bound.value <ℤ (found.least.value +ℤ found.spread.value) }
    requires index { found.index < length (terms_of row.now) }
    requires spread { spread_of (term_at (terms_of row.now) found.index) boxes.now
        ≡ found.spread.value }
    requires spread_fits { unsigned_abs found.spread.value ≤ 2 ^ 62 }
    ensures { IsCause (terms_of row.now) boxes.now row.now.bound.value result.index result.to.value
        result.slack }
{
    let t = row.term(found.index);
    let c = factor_of(t);
    let of_term = set_at(boxes, t.1);
    of_term.ranges();
    let at = highest(c, of_term);
    let end = lowest(c, of_term);
    let full = found.least.plus(found.spread).above(row.bound) - 1;
    let (to, slack) = back_off(c, at, end, full);
    Cause {
        index: found.index,
        to,
        slack,
    }
}

/// What the row has to say; None where it has nothing to say.
pub fn cause_of(row: &Row, domains: &[IntSet], boxes: &[IntSet]) -> Option<Cause>
    requires over { IsRowOver (terms_of row.now) domains.now boxes.now }
    requires fits { weight_of (terms_of row.now) boxes.now ≤ 2 ^ 61 }
    ensures none { IfNone result (IsTight (terms_of row.now) boxes.now row.now.bound.value) }
    ensures some { IfSome result (λ cause. IsCause (terms_of row.now) boxes.now row.now.bound.value
        cause.index cause.to.value cause.slack) }
{
    let found = walk(row, boxes);
    if row.bound.is_below(found.least) {
        return Some(refuted(row, boxes, found.least));
    }
    if row.bound.is_below(found.least.plus(found.spread)) {
        Some(pruned(row, boxes, domains, found))
    } else {
        None
    }
}

/// What the row has to say where it is refuted; None where it isn't.
pub fn refuted_cause(row: &Row, domains: &[IntSet], boxes: &[IntSet]) -> Option<Cause>
    requires over { IsRowOver (terms_of row.now) domains.now boxes.now }
    requires fits { weight_of (terms_of row.now) boxes.now ≤ 2 ^ 61 }
    ensures none { IfNone result (least_sum (terms_of row.now) boxes.now ≤ℤ row.now.bound.value) }
    ensures some { IfSome result (λ cause. IsCause (terms_of row.now) boxes.now row.now.bound.value
        cause.index cause.to.value cause.slack) }
    ensures index { IfSome result (λ cause. cause.index ≡ length (terms_of row.now)) }
{
    let found = walk(row, boxes);
    if row.bound.is_below(found.least) {
        Some(refuted(row, boxes, found.least))
    } else {
        None
    }
}
