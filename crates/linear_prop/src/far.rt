//! A variable that a sum defines, where it may be what no sum is.
//!
//! A well made problem bounds the sums by `MOST_SUM`, but not the domain of the variable that they
//! define. Where its box reaches further, the first clauses take away what lies beyond: first the
//! values above that, and then those below its opposite. So the rows over the box stay within 64
//! bits.
ghost use Rattle.std.specs.Prelude.{◌≡◌, ◌<◌, ◌≤◌, ◌^◌, ◌∷◌, [], true, false, ℤ, pos, negsuc, ◌<ℤ◌, ◌≤ℤ◌, length, nat_le, unsigned_abs, IfOk};
ghost use Rattle.std.specs.List.{All};
ghost use Rattle.signed_clause.specs.Ranges.{IsValid};
ghost use Rattle.signed_clause.specs.Clauses.{box_of};
ghost use Rattle.ground_form.specs.declared.con.Con.TheVariants as con_kind;
ghost use Rattle.ground_form.specs.Meaning.{term_vars};
ghost use Rattle.ground_form.specs.Bounds.{low_of, high_of, reach_of, most_sum};
ghost use Rattle.ground_form.specs.WellMade.{IsWellMadeCon};
ghost use Rattle.rule_law.specs.Reasons.{no_repeat};
ghost use Rattle.rule_law.specs.Answers.{AreBoxesWithin, IsPruning};
ghost use Rattle.linear_prop.specs.Explaining.{IsCause};

use crate::explain::{Cause, set_at};
use crate::fall::{high_end, low_end};
use crate::number::WideNumber;
use crate::row::Row;
use crate::row_clauses::clause_of;
use ground_form::MOST_SUM;
use rule_law::Subject;
use signed_clause::{Clause, IntSet};
use std::alloc::{AllocError, Global};

/// Whether all values of the set lie from the opposite of `MOST_SUM` to it.
pub fn is_near(set: &IntSet) -> bool
    ensures { result ≡ nat_le (reach_of set.now) most_sum }
{
    let least = low_end(set).value.unsigned_abs();
    let greatest = high_end(set).value.unsigned_abs();
    least.max(greatest) <= MOST_SUM as u64
}

/// Why the row 'the variable is at most `MOST_SUM`' has something to say.
fn high_cause(out: u32, boxes: &[IntSet]) -> Cause
    requires var { out < length boxes.now }
    requires order { low_of (box_of boxes.now out) ≤ℤ high_of (box_of boxes.now out) }
    requires far { pos most_sum <ℤ high_of (box_of boxes.now out) }
    ensures { IsCause ((pos 1, out) ∷ []) boxes.now (pos most_sum) result.index result.to.value
        result.slack }
{
    if low_end(set_at(boxes, out)).value > MOST_SUM {
        Cause {
            index: 1,
            to: WideNumber::of(0),
            slack: 0,
        }
    } else {
        Cause {
            index: 0,
            to: WideNumber::of(1152921504606846977),
            slack: 0,
        }
    }
}

/// Why the row 'the opposite of the variable is at most `MOST_SUM`' has something to say.
fn low_cause(out: u32, boxes: &[IntSet]) -> Cause
    requires var { out < length boxes.now }
    requires order { low_of (box_of boxes.now out) ≤ℤ high_of (box_of boxes.now out) }
    requires far { low_of (box_of boxes.now out) <ℤ negsuc 1152921504606846975 }
    ensures { IsCause ((negsuc 0, out) ∷ []) boxes.now (pos most_sum) result.index result.to.value
        result.slack }
{
    if high_end(set_at(boxes, out)).value < -MOST_SUM {
        Cause {
            index: 1,
            to: WideNumber::of(0),
            slack: 0,
        }
    } else {
        Cause {
            index: 0,
            to: WideNumber::of(-1152921504606846977),
            slack: 0,
        }
    }
}

/// The clause that takes the values above `MOST_SUM` away.
fn above_clause(
    alloc: Global,
    subject: Subject<'_>,
    out: u32,
    terms: &[(i64, u32)],
    offset: i64,
) -> Result<Clause, AllocError>
    requires con { subject.con.now ≡ con_kind.LinDef out terms.now offset }
    requires well_made { IsWellMadeCon subject.domains.now (con_kind.LinDef out terms.now offset) }
    requires sets { All (λ d. IsValid d) subject.domains.now }
    requires boxes { AreBoxesWithin subject.domains.now subject.boxes.now }
    requires far { pos most_sum <ℤ high_of (box_of subject.boxes.now out) }
    ensures { IfOk result (λ c. IsPruning subject.entry.con.now subject.entry.domains.now
        subject.entry.boxes.now c) }
{
    let row = Row {
        head: Some((1, out)),
        terms: &[],
        turned: false,
        bound: WideNumber::of(MOST_SUM),
    };
    let cause = high_cause(out, subject.boxes);
    let clause = clause_of(alloc, subject, &row, cause)?;
    Ok(clause)
}

/// The clause that takes the values below the opposite of `MOST_SUM` away.
fn below_clause(
    alloc: Global,
    subject: Subject<'_>,
    out: u32,
    terms: &[(i64, u32)],
    offset: i64,
) -> Result<Clause, AllocError>
    requires con { subject.con.now ≡ con_kind.LinDef out terms.now offset }
    requires well_made { IsWellMadeCon subject.domains.now (con_kind.LinDef out terms.now offset) }
    requires sets { All (λ d. IsValid d) subject.domains.now }
    requires boxes { AreBoxesWithin subject.domains.now subject.boxes.now }
    requires far { low_of (box_of subject.boxes.now out) <ℤ negsuc 1152921504606846975 }
    ensures { IfOk result (λ c. IsPruning subject.entry.con.now subject.entry.domains.now
        subject.entry.boxes.now c) }
{
    let row = Row {
        head: Some((-1, out)),
        terms: &[],
        turned: false,
        bound: WideNumber::of(MOST_SUM),
    };
    let cause = low_cause(out, subject.boxes);
    let clause = clause_of(alloc, subject, &row, cause)?;
    Ok(clause)
}

/// The clause that takes values away that no sum is.
pub fn far_clause(
    alloc: Global,
    subject: Subject<'_>,
    out: u32,
    terms: &[(i64, u32)],
    offset: i64,
) -> Result<Clause, AllocError>
    requires con { subject.con.now ≡ con_kind.LinDef out terms.now offset }
    requires well_made { IsWellMadeCon subject.domains.now (con_kind.LinDef out terms.now offset) }
    requires sets { All (λ d. IsValid d) subject.domains.now }
    requires boxes { AreBoxesWithin subject.domains.now subject.boxes.now }
    requires differ { no_repeat (out ∷ term_vars terms.now) ≡ true }
    requires far { nat_le (reach_of (box_of subject.boxes.now out)) most_sum ≡ false }
    ensures { IfOk result (λ c. IsPruning subject.entry.con.now subject.entry.domains.now
        subject.entry.boxes.now c) }
{
    if high_end(set_at(subject.boxes, out)).value > MOST_SUM {
        let clause = above_clause(alloc, subject, out, terms, offset)?;
        Ok(clause)
    } else {
        let clause = below_clause(alloc, subject, out, terms, offset)?;
        Ok(clause)
    }
}
