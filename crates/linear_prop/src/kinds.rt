//! The three kinds, each as its rows.
//!
//! A sum with a bound is one row. A sum that defines a variable is two: the sum less the variable,
//! and the variable less the sum. Of a flag that says whether a sum keeps a bound, the one row
//! holds where the flag is 1, and the other, with turned signs, where it is 0; where the flag is
//! open each only tells the flag.
ghost use Rattle.std.specs.Prelude.{◌≡◌, ◌<◌, true, false, length, ℤ, pos, negsuc, ◌-ℤ◌, ◌∷◌, ◌≤◌, unsigned_abs, IfOk};
ghost use Rattle.std.specs.List.{All};
ghost use Rattle.ground_form.specs.declared.con.Con.TheVariants as con_kind;
ghost use Rattle.ground_form.specs.Meaning.{term_vars, vars_of};
ghost use Rattle.ground_form.specs.Bounds.{reach_of, most_sum};
ghost use Rattle.ground_form.specs.WellMade.{IsWellMadeCon};
ghost use Rattle.rule_law.specs.Reasons.{no_repeat};
ghost use Rattle.rule_law.specs.Answers.{AreBoxesWithin, IsAnswer};
ghost use Rattle.signed_clause.specs.Ranges.{has, IsValid};
ghost use Rattle.signed_clause.specs.Clauses.{box_of};
ghost use Rattle.linear_prop.specs.Rows.{negated};
ghost use Rattle.linear_prop.specs.RowAnswers.{IsRowAnswer, IsSumAnswer};

use crate::explain::set_at;
use crate::far::{far_clause, is_near};
use crate::number::WideNumber;
use crate::row::Row;
use crate::row_clauses::{fixed_answer, open_answer, row_answer};
use ground_form::Con;
use rule_law::{Subject, probe};
use signed_clause::{Clause, IntSet};
use std::alloc::{AllocError, Global};

/// The answer of a sum with a bound, in which no variable stands twice.
fn at_most_answer(
    alloc: Global,
    subject: Subject<'_>,
    terms: &[(i64, u32)],
    bound: i64,
) -> Result<Option<Clause>, AllocError>
    requires con { subject.con.now ≡ con_kind.LinLe terms.now bound }
    requires well_made { IsWellMadeCon subject.domains.now (con_kind.LinLe terms.now bound) }
    requires sets { All (λ d. IsValid d) subject.domains.now }
    requires boxes { AreBoxesWithin subject.domains.now subject.boxes.now }
    requires differ { no_repeat (term_vars terms.now) ≡ true }
    ensures { IfOk result (λ answer. IsAnswer subject.entry.con.now subject.entry.domains.now
        subject.entry.boxes.now answer) }
{
    let row = Row {
        head: None,
        terms,
        turned: false,
        bound: WideNumber::of(bound),
    };
    let answer = row_answer(alloc, subject, &row)?;
    Ok(answer)
}

/// The bound of the row 'the sum less the variable'.
fn less_offset(offset: i64) -> WideNumber
    requires { unsigned_abs offset ≤ most_sum }
    ensures { result.value ≡ pos 0 -ℤ offset }
{
    WideNumber { value: 0 - offset }
}

/// The bound of a row with turned signs that says that the sum is above the bound.
fn turned_bound(bound: i64) -> WideNumber
    ensures { result.value ≡ negsuc 0 -ℤ bound }
{
    WideNumber { value: -1 - bound }
}

/// The answer of the row 'the sum less the variable'.
fn up_answer(
    alloc: Global,
    subject: Subject<'_>,
    out: u32,
    terms: &[(i64, u32)],
    offset: i64,
) -> Result<Option<Clause>, AllocError>
    requires con { subject.con.now ≡ con_kind.LinDef out terms.now offset }
    requires well_made { IsWellMadeCon subject.domains.now (con_kind.LinDef out terms.now offset) }
    requires sets { All (λ d. IsValid d) subject.domains.now }
    requires boxes { AreBoxesWithin subject.domains.now subject.boxes.now }
    requires differ { no_repeat (out ∷ term_vars terms.now) ≡ true }
    requires near { reach_of (box_of subject.boxes.now out) ≤ most_sum }
    ensures { IfOk result (λ answer. IsRowAnswer subject.entry.con.now ((negsuc 0, out) ∷ terms.now)
        (pos 0 -ℤ offset) subject.entry.domains.now subject.entry.boxes.now answer) }
{
    let row = Row {
        head: Some((-1, out)),
        terms,
        turned: false,
        bound: less_offset(offset),
    };
    let answer = row_answer(alloc, subject, &row)?;
    Ok(answer)
}

/// The answer of the row 'the variable less the sum'.
fn down_answer(
    alloc: Global,
    subject: Subject<'_>,
    out: u32,
    terms: &[(i64, u32)],
    offset: i64,
) -> Result<Option<Clause>, AllocError>
    requires con { subject.con.now ≡ con_kind.LinDef out terms.now offset }
    requires well_made { IsWellMadeCon subject.domains.now (con_kind.LinDef out terms.now offset) }
    requires sets { All (λ d. IsValid d) subject.domains.now }
    requires boxes { AreBoxesWithin subject.domains.now subject.boxes.now }
    requires differ { no_repeat (out ∷ term_vars terms.now) ≡ true }
    requires near { reach_of (box_of subject.boxes.now out) ≤ most_sum }
    ensures { IfOk result (λ answer. IsRowAnswer subject.entry.con.now
        ((pos 1, out) ∷ negated terms.now) offset subject.entry.domains.now
        subject.entry.boxes.now answer) }
{
    let row = Row {
        head: Some((1, out)),
        terms,
        turned: true,
        bound: WideNumber::of(offset),
    };
    let answer = row_answer(alloc, subject, &row)?;
    Ok(answer)
}

/// The answer of a sum that defines a variable, in which no variable stands twice.
fn sum_answer(
    alloc: Global,
    subject: Subject<'_>,
    out: u32,
    terms: &[(i64, u32)],
    offset: i64,
) -> Result<Option<Clause>, AllocError>
    requires con { subject.con.now ≡ con_kind.LinDef out terms.now offset }
    requires well_made { IsWellMadeCon subject.domains.now (con_kind.LinDef out terms.now offset) }
    requires sets { All (λ d. IsValid d) subject.domains.now }
    requires boxes { AreBoxesWithin subject.domains.now subject.boxes.now }
    requires differ { no_repeat (out ∷ term_vars terms.now) ≡ true }
    requires near { reach_of (box_of subject.boxes.now out) ≤ most_sum }
    ensures { IfOk result (λ answer. IsAnswer subject.entry.con.now subject.entry.domains.now
        subject.entry.boxes.now answer) }
{
    let up = up_answer(alloc, subject, out, terms, offset)?;
    match up {
        Some(clause) => Ok(Some(clause)),
        None => {
            let down = down_answer(alloc, subject, out, terms, offset)?;
            Ok(down)
        }
    }
}

/// The answer of a sum that defines a variable, in which no variable stands twice: first the
/// variable's values that no sum reaches go.
fn definition_answer(
    alloc: Global,
    subject: Subject<'_>,
    out: u32,
    terms: &[(i64, u32)],
    offset: i64,
) -> Result<Option<Clause>, AllocError>
    requires con { subject.con.now ≡ con_kind.LinDef out terms.now offset }
    requires well_made { IsWellMadeCon subject.domains.now (con_kind.LinDef out terms.now offset) }
    requires sets { All (λ d. IsValid d) subject.domains.now }
    requires boxes { AreBoxesWithin subject.domains.now subject.boxes.now }
    requires differ { no_repeat (out ∷ term_vars terms.now) ≡ true }
    ensures { IfOk result (λ answer. IsAnswer subject.entry.con.now subject.entry.domains.now
        subject.entry.boxes.now answer) }
{
    if is_near(set_at(subject.boxes, out)) {
        let answer = sum_answer(alloc, subject, out, terms, offset)?;
        Ok(answer)
    } else {
        let clause = far_clause(alloc, subject, out, terms, offset)?;
        Ok(Some(clause))
    }
}

/// The answer of a flag that says whether a sum keeps a bound, in which no variable stands twice,
/// where the flag is 1.
fn one_answer(
    alloc: Global,
    subject: Subject<'_>,
    flag: u32,
    terms: &[(i64, u32)],
    bound: i64,
) -> Result<Option<Clause>, AllocError>
    requires con { subject.con.now ≡ con_kind.ReifLe flag terms.now bound }
    requires well_made { IsWellMadeCon subject.domains.now (con_kind.ReifLe flag terms.now bound) }
    requires sets { All (λ d. IsValid d) subject.domains.now }
    requires boxes { AreBoxesWithin subject.domains.now subject.boxes.now }
    requires differ { no_repeat (flag ∷ term_vars terms.now) ≡ true }
    requires fixed { has (box_of subject.boxes.now flag) (pos 0) ≡ false }
    ensures { IfOk result (λ answer. IsAnswer subject.entry.con.now subject.entry.domains.now
        subject.entry.boxes.now answer) }
{
    let row = Row {
        head: None,
        terms,
        turned: false,
        bound: WideNumber::of(bound),
    };
    let answer = fixed_answer(alloc, subject, &row, flag, WideNumber { value: 0 })?;
    Ok(answer)
}

/// The same where the flag is 0.
fn zero_answer(
    alloc: Global,
    subject: Subject<'_>,
    flag: u32,
    terms: &[(i64, u32)],
    bound: i64,
) -> Result<Option<Clause>, AllocError>
    requires con { subject.con.now ≡ con_kind.ReifLe flag terms.now bound }
    requires well_made { IsWellMadeCon subject.domains.now (con_kind.ReifLe flag terms.now bound) }
    requires sets { All (λ d. IsValid d) subject.domains.now }
    requires boxes { AreBoxesWithin subject.domains.now subject.boxes.now }
    requires differ { no_repeat (flag ∷ term_vars terms.now) ≡ true }
    requires fixed { has (box_of subject.boxes.now flag) (pos 1) ≡ false }
    ensures { IfOk result (λ answer. IsAnswer subject.entry.con.now subject.entry.domains.now
        subject.entry.boxes.now answer) }
{
    let row = Row {
        head: None,
        terms,
        turned: true,
        bound: turned_bound(bound),
    };
    let answer = fixed_answer(alloc, subject, &row, flag, WideNumber { value: 1 })?;
    Ok(answer)
}

/// The answer of an open flag by the row that holds where it is 1.
fn open_one_answer(
    alloc: Global,
    subject: Subject<'_>,
    flag: u32,
    terms: &[(i64, u32)],
    bound: i64,
) -> Result<Option<Clause>, AllocError>
    requires con { subject.con.now ≡ con_kind.ReifLe flag terms.now bound }
    requires well_made { IsWellMadeCon subject.domains.now (con_kind.ReifLe flag terms.now bound) }
    requires sets { All (λ d. IsValid d) subject.domains.now }
    requires boxes { AreBoxesWithin subject.domains.now subject.boxes.now }
    requires differ { no_repeat (flag ∷ term_vars terms.now) ≡ true }
    requires open { has (box_of subject.boxes.now flag) (pos 1) ≡ true }
    ensures { IfOk result (λ answer. IsSumAnswer subject.entry.con.now terms.now bound
        subject.entry.domains.now subject.entry.boxes.now answer) }
{
    let row = Row {
        head: None,
        terms,
        turned: false,
        bound: WideNumber::of(bound),
    };
    let answer = open_answer(alloc, subject, &row, flag, WideNumber { value: 0 })?;
    Ok(answer)
}

/// The answer of an open flag by the row that holds where it is 0.
fn open_zero_answer(
    alloc: Global,
    subject: Subject<'_>,
    flag: u32,
    terms: &[(i64, u32)],
    bound: i64,
) -> Result<Option<Clause>, AllocError>
    requires con { subject.con.now ≡ con_kind.ReifLe flag terms.now bound }
    requires well_made { IsWellMadeCon subject.domains.now (con_kind.ReifLe flag terms.now bound) }
    requires sets { All (λ d. IsValid d) subject.domains.now }
    requires boxes { AreBoxesWithin subject.domains.now subject.boxes.now }
    requires differ { no_repeat (flag ∷ term_vars terms.now) ≡ true }
    requires open { has (box_of subject.boxes.now flag) (pos 0) ≡ true }
    ensures { IfOk result (λ answer. IsSumAnswer subject.entry.con.now (negated terms.now)
        (negsuc 0 -ℤ bound) subject.entry.domains.now subject.entry.boxes.now answer) }
{
    let row = Row {
        head: None,
        terms,
        turned: true,
        bound: turned_bound(bound),
    };
    let answer = open_answer(alloc, subject, &row, flag, WideNumber { value: 1 })?;
    Ok(answer)
}

/// The answer of an open flag.
fn flag_answer(
    alloc: Global,
    subject: Subject<'_>,
    flag: u32,
    terms: &[(i64, u32)],
    bound: i64,
) -> Result<Option<Clause>, AllocError>
    requires con { subject.con.now ≡ con_kind.ReifLe flag terms.now bound }
    requires well_made { IsWellMadeCon subject.domains.now (con_kind.ReifLe flag terms.now bound) }
    requires sets { All (λ d. IsValid d) subject.domains.now }
    requires boxes { AreBoxesWithin subject.domains.now subject.boxes.now }
    requires differ { no_repeat (flag ∷ term_vars terms.now) ≡ true }
    requires open_one { has (box_of subject.boxes.now flag) (pos 1) ≡ true }
    requires open_zero { has (box_of subject.boxes.now flag) (pos 0) ≡ true }
    ensures { IfOk result (λ answer. IsAnswer subject.entry.con.now subject.entry.domains.now
        subject.entry.boxes.now answer) }
{
    let one = open_one_answer(alloc, subject, flag, terms, bound)?;
    match one {
        Some(clause) => Ok(Some(clause)),
        None => {
            let other = open_zero_answer(alloc, subject, flag, terms, bound)?;
            Ok(other)
        }
    }
}

/// The answer of a flag that says whether a sum keeps a bound, in which no variable stands twice.
fn reified_answer(
    alloc: Global,
    subject: Subject<'_>,
    flag: u32,
    terms: &[(i64, u32)],
    bound: i64,
) -> Result<Option<Clause>, AllocError>
    requires con { subject.con.now ≡ con_kind.ReifLe flag terms.now bound }
    requires well_made { IsWellMadeCon subject.domains.now (con_kind.ReifLe flag terms.now bound) }
    requires sets { All (λ d. IsValid d) subject.domains.now }
    requires boxes { AreBoxesWithin subject.domains.now subject.boxes.now }
    requires differ { no_repeat (flag ∷ term_vars terms.now) ≡ true }
    ensures { IfOk result (λ answer. IsAnswer subject.entry.con.now subject.entry.domains.now
        subject.entry.boxes.now answer) }
{
    if !has_value(subject.boxes, flag, 0) {
        let answer = one_answer(alloc, subject, flag, terms, bound)?;
        return Ok(answer);
    }
    if !has_value(subject.boxes, flag, 1) {
        let answer = zero_answer(alloc, subject, flag, terms, bound)?;
        return Ok(answer);
    }
    let answer = flag_answer(alloc, subject, flag, terms, bound)?;
    Ok(answer)
}

/// Whether the variable's box has the value.
fn has_value(boxes: &[IntSet], x: u32, v: i64) -> bool
    requires { x < length boxes.now }
    ensures { result ≡ has (box_of boxes.now x) v }
{
    boxes[x as usize].contains(v)
}

/// The answer of a constraint of one of the three kinds in which no variable stands twice; of
/// another kind by probing.
pub fn linear_answer(alloc: Global, subject: Subject<'_>) -> Result<Option<Clause>, AllocError>
    requires well_made { IsWellMadeCon subject.domains.now subject.con.now }
    requires sets { All (λ d. IsValid d) subject.domains.now }
    requires boxes { AreBoxesWithin subject.domains.now subject.boxes.now }
    requires differ { no_repeat (vars_of subject.con.now) ≡ true }
    ensures { IfOk result (λ answer. IsAnswer subject.entry.con.now subject.entry.domains.now
        subject.entry.boxes.now answer) }
{
    match subject.con {
        Con::LinLe { terms, bound } => {
            let answer = at_most_answer(alloc, subject, terms.items(), *bound)?;
            Ok(answer)
        }
        Con::LinDef { out, terms, offset } => {
            let answer = definition_answer(alloc, subject, *out, terms.items(), *offset)?;
            Ok(answer)
        }
        Con::ReifLe { flag, terms, bound } => {
            let answer = reified_answer(alloc, subject, *flag, terms.items(), *bound)?;
            Ok(answer)
        }
        _ => {
            let answer = probe(subject.con, subject.domains, subject.boxes, alloc)?;
            Ok(answer)
        }
    }
}
