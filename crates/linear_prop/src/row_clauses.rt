//! The answer of one row, and the clause that it gives.
ghost use Rattle.std.specs.Prelude.{◌≡◌, ◌<◌, ◌≤◌, ◌^◌, ◌≤ℤ◌, ◌<ℤ◌, false, true, ℤ, ℕ, List, [], ◌∷◌, length, unsigned_abs, IfOk, OnOk};
ghost use Rattle.std.specs.List.{All};
ghost use Rattle.signed_clause.specs.Ranges.{has, IsValid};
ghost use Rattle.signed_clause.specs.SetAlgebra.{is_within};
ghost use Rattle.signed_clause.specs.Clauses.{Literals, box_of};
ghost use Rattle.ground_form.specs.Meaning.{term_vars};
ghost use Rattle.ground_form.specs.Bounds.{least_sum, weight_of};
ghost use Rattle.box_view.specs.Views.{cut};
ghost use Rattle.box_rules.specs.Justified.{justified};
ghost use Rattle.rule_law.specs.Reasons.{has_number};
ghost use Rattle.rule_law.specs.Answers.{IsPruning};
ghost use Rattle.linear_prop.specs.Rows.{terms_of};
ghost use Rattle.linear_prop.specs.Flags.{with_flag, IsOpposed};
ghost use Rattle.linear_prop.specs.Explaining.{IsCause, IsRowOver};
ghost use Rattle.linear_prop.specs.RowAnswers.{IsRowAnswer, IsSumAnswer};

use crate::cause::{cause_of, refuted_cause};
use crate::explain::{Cause, explain, set_at};
use crate::number::WideNumber;
use crate::row::Row;
use rule_law::{Subject, pruning};
use signed_clause::{Clause, IntSet};
use std::alloc::{AllocError, Global};

/// The clause of a row of the constraint that has something to say.
pub fn clause_of(
    alloc: Global,
    subject: Subject<'_>,
    row: &Row,
    cause: Cause,
) -> Result<Clause, AllocError>
    requires over { IsRowOver (terms_of row.now) subject.domains.now subject.boxes.now }
    requires cause { IsCause (terms_of row.now) subject.boxes.now row.now.bound.value cause.index
        cause.to.value cause.slack }
    requires follows { (out : Literals) → All (λ l. IsValid l.1) out
        → row.now.bound.value <ℤ least_sum (terms_of row.now) (cut subject.domains.now out)
        → justified subject.con.now subject.domains.now out ≡ true }
    ensures { IfOk result (λ c. IsPruning subject.entry.con.now subject.entry.domains.now
        subject.entry.boxes.now c) }
{
    let mut out = Vec::new(alloc);
    let _left = explain(alloc, row, cause, subject.domains, subject.boxes, &mut out)?;
    Ok(pruning(subject.con, subject.domains, subject.boxes, out))
}

/// The answer of a row from which the constraint follows.
pub fn row_answer(
    alloc: Global,
    subject: Subject<'_>,
    row: &Row,
) -> Result<Option<Clause>, AllocError>
    requires over { IsRowOver (terms_of row.now) subject.domains.now subject.boxes.now }
    requires fits { weight_of (terms_of row.now) subject.boxes.now ≤ 2 ^ 61 }
    requires follows { (out : Literals) → row.now.bound.value <ℤ least_sum (terms_of row.now)
        (cut subject.domains.now out) → justified subject.con.now subject.domains.now out ≡ true }
    ensures { IfOk result (λ answer. IsRowAnswer subject.entry.con.now (terms_of row.now)
        row.now.bound.value subject.entry.domains.now subject.entry.boxes.now answer) }
{
    match cause_of(row, subject.domains, subject.boxes) {
        Some(cause) => {
            let clause = clause_of(alloc, subject, row, cause)?;
            Ok(Some(clause))
        }
        None => Ok(None),
    }
}

/// Adds the literal 'the flag is `v`' where its domain has that value.
fn put_flag(
    alloc: Global,
    out: &mut Vec<(u32, IntSet)>,
    flag: u32,
    v: WideNumber,
    domain: &IntSet,
) -> Result<(), AllocError>
    ensures { OnOk result (out.new.items ≡ with_flag out.old.items flag v.value
        (has domain.now v.value)) }
{
    if domain.contains(v.value) {
        out.push((flag, IntSet::range(alloc, v.value, v.value)))?;
    }
    Ok(())
}

/// The clause of a row that has something to say and that holds unless the flag is `v`.
fn flag_clause(
    alloc: Global,
    subject: Subject<'_>,
    row: &Row,
    cause: Cause,
    flag: u32,
    v: WideNumber,
) -> Result<Clause, AllocError>
    requires over { IsRowOver (terms_of row.now) subject.domains.now subject.boxes.now }
    requires cause { IsCause (terms_of row.now) subject.boxes.now row.now.bound.value cause.index
        cause.to.value cause.slack }
    requires flag { flag < length subject.boxes.now }
    requires different { has_number flag (term_vars (terms_of row.now)) ≡ false }
    requires opposed { IsOpposed subject.boxes.now flag v.value cause.index (terms_of row.now) }
    requires follows { (out : Literals) → row.now.bound.value <ℤ least_sum (terms_of row.now)
        (cut subject.domains.now out)
        → has (box_of (cut subject.domains.now out) flag) v.value ≡ false
        → justified subject.con.now subject.domains.now out ≡ true }
    ensures { IfOk result (λ c. IsPruning subject.entry.con.now subject.entry.domains.now
        subject.entry.boxes.now c) }
{
    let mut out = Vec::new(alloc);
    let _left = explain(alloc, row, cause, subject.domains, subject.boxes, &mut out)?;
    put_flag(alloc, &mut out, flag, v, set_at(subject.domains, flag))?;
    Ok(pruning(subject.con, subject.domains, subject.boxes, out))
}

/// The answer of a row that holds since the flag isn't `v`.
pub fn fixed_answer(
    alloc: Global,
    subject: Subject<'_>,
    row: &Row,
    flag: u32,
    v: WideNumber,
) -> Result<Option<Clause>, AllocError>
    requires over { IsRowOver (terms_of row.now) subject.domains.now subject.boxes.now }
    requires fits { weight_of (terms_of row.now) subject.boxes.now ≤ 2 ^ 61 }
    requires flag { flag < length subject.boxes.now }
    requires different { has_number flag (term_vars (terms_of row.now)) ≡ false }
    requires fixed { has (box_of subject.boxes.now flag) v.value ≡ false }
    requires follows { (out : Literals) → row.now.bound.value <ℤ least_sum (terms_of row.now)
        (cut subject.domains.now out)
        → has (box_of (cut subject.domains.now out) flag) v.value ≡ false
        → justified subject.con.now subject.domains.now out ≡ true }
    ensures { IfOk result (λ answer. IsRowAnswer subject.entry.con.now (terms_of row.now)
        row.now.bound.value subject.entry.domains.now subject.entry.boxes.now answer) }
{
    match cause_of(row, subject.domains, subject.boxes) {
        Some(cause) => {
            let clause = flag_clause(alloc, subject, row, cause, flag, v)?;
            Ok(Some(clause))
        }
        None => Ok(None),
    }
}

/// The answer of a row that holds unless the flag is `v`, where the flag may also be otherwise: the
/// flag is `v` where the row is refuted.
pub fn open_answer(
    alloc: Global,
    subject: Subject<'_>,
    row: &Row,
    flag: u32,
    v: WideNumber,
) -> Result<Option<Clause>, AllocError>
    requires over { IsRowOver (terms_of row.now) subject.domains.now subject.boxes.now }
    requires fits { weight_of (terms_of row.now) subject.boxes.now ≤ 2 ^ 61 }
    requires flag { flag < length subject.boxes.now }
    requires different { has_number flag (term_vars (terms_of row.now)) ≡ false }
    requires open { is_within (box_of subject.boxes.now flag) ((v.value, v.value) ∷ []) ≡ false }
    requires follows { (out : Literals) → row.now.bound.value <ℤ least_sum (terms_of row.now)
        (cut subject.domains.now out)
        → has (box_of (cut subject.domains.now out) flag) v.value ≡ false
        → justified subject.con.now subject.domains.now out ≡ true }
    ensures { IfOk result (λ answer. IsSumAnswer subject.entry.con.now (terms_of row.now)
        row.now.bound.value subject.entry.domains.now subject.entry.boxes.now answer) }
{
    match refuted_cause(row, subject.domains, subject.boxes) {
        Some(cause) => {
            let clause = flag_clause(alloc, subject, row, cause, flag, v)?;
            Ok(Some(clause))
        }
        None => Ok(None),
    }
}
