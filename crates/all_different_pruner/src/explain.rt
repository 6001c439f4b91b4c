//! Why an interval is crowded or full: the boxes that lie within it.
//!
//! The literals say of these variables that they are outside the interval, and where it is full
//! also of the one that isn't within. As many boxes are named as the interval has numbers, and one
//! more where it is crowded.
ghost use Rattle.std.specs.Prelude.{◌≡◌, ◌<◌, ◌≤◌, ◌≤ℤ◌, ◌++◌, ℕ, suc, pos, true, [], ◌∷◌, IfOk, OnOk, List, length};
ghost use Rattle.std.specs.List.{All};
ghost use Rattle.signed_clause.specs.Ranges.{IsValid};
ghost use Rattle.signed_clause.specs.SetAlgebra.{less};
ghost use Rattle.signed_clause.specs.Clauses.{box_of};
ghost use Rattle.ground_form.specs.declared.con.Con.TheVariants.{AllDiff};
ghost use Rattle.rule_law.specs.Answers.{AreBoxesWithin, IsPruning};
ghost use Rattle.box_rules.specs.Refuted.{width};
ghost use Rattle.rule_law.specs.Reasons.{no_repeat, kept_one};
ghost use Rattle.all_different_pruner.specs.Intervals.{IsCrowd, IsIntruder, IsFinding};
ghost use Rattle.all_different_pruner.specs.Within.{within, outside};

use crate::interval::{Finding, does_lie_in, span_of};
use ground_form::{Con, Number};
use rule_law::{Subject, keep_out, pruning};
use signed_clause::{Clause, IntSet};
use std::alloc::{AllocError, Global};

/// The interval `a..b`, and the set of its numbers.
#[derive(Clone, Copy)]
struct Interval<'a> {
    a: Number,
    b: Number,
    span: &'a IntSet,
}

/// Adds the literal of `y` where its box lies within `a..b` and `need` is above 0; it gives how
/// many are needed then.
fn collect_one(
    literals: &mut Vec<(u32, IntSet)>,
    need: usize,
    y: u32,
    subject: Subject<'_>,
    interval: Interval<'_>,
) -> Result<usize, AllocError>
    requires named { y < length subject.boxes.now }
    requires domain { y < length subject.domains.now }
    requires span { interval.span.now ≡ (interval.a.value, interval.b.value) ∷ [] }
    ensures { IfOk result (λ n. (rest : List ℕ) → literals.new.items
        ++ outside interval.entry.a.value interval.entry.b.value
        (within n interval.entry.a.value interval.entry.b.value rest subject.entry.boxes.now)
        subject.entry.domains.now
        ≡ literals.old.items
        ++ outside interval.entry.a.value interval.entry.b.value
        (within need interval.entry.a.value interval.entry.b.value (y ∷ rest)
        subject.entry.boxes.now) subject.entry.domains.now) }
{
    if need == 0 {
        return Ok(0);
    }
    if !does_lie_in(&subject.boxes[y as usize], interval.a, interval.b) {
        return Ok(need);
    }
    keep_out(literals, y, &subject.domains[y as usize], interval.span)?;
    Ok(need - 1)
}

/// Adds the literals of the first `need` variables whose boxes lie within `a..b`.
fn collect(
    literals: &mut Vec<(u32, IntSet)>,
    need: usize,
    vars: &[u32],
    subject: Subject<'_>,
    interval: Interval<'_>,
) -> Result<(), AllocError>
    requires boxes { All (λ x. x < length subject.boxes.now) vars.now }
    requires domains { All (λ x. x < length subject.domains.now) vars.now }
    requires span { interval.span.now ≡ (interval.a.value, interval.b.value) ∷ [] }
    ensures { OnOk result (literals.new.items ≡ literals.old.items
        ++ outside interval.entry.a.value interval.entry.b.value
        (within need interval.entry.a.value interval.entry.b.value vars.now
        subject.entry.boxes.now) subject.entry.domains.now) }
{
    let mut left = need;
    for y in vars {
        left = collect_one(literals, left, *y, subject, interval)?;
    }
    Ok(())
}

/// How many numbers `a..b` has.
fn size_of(a: Number, b: Number) -> usize
    requires order { a.value ≤ℤ b.value }
    requires few { width a.value b.value < 18446744073709551616 }
    ensures { result ≡ width a.value b.value }
{
    b.value.abs_diff(a.value) as usize + 1
}

/// The clause that a crowded interval gives.
fn explain_crowd(
    alloc: Global,
    subject: Subject<'_>,
    vars: &[u32],
    a: Number,
    b: Number,
) -> Result<Clause, AllocError>
    requires con { subject.con.now ≡ AllDiff vars.now }
    requires boxes { AreBoxesWithin subject.domains.now subject.boxes.now }
    requires sets { All (λ d. IsValid d) subject.domains.now }
    requires named { All (λ x. x < length subject.boxes.now) vars.now }
    requires domains { All (λ x. x < length subject.domains.now) vars.now }
    requires once { no_repeat vars.now ≡ true }
    requires crowd { IsCrowd a.value b.value vars.now subject.boxes.now }
    ensures { IfOk result (λ c. IsPruning subject.entry.con.now subject.entry.domains.now
        subject.entry.boxes.now c) }
{
    let span = span_of(alloc, a, b);
    let interval = Interval { a, b, span: &span };
    let mut literals = Vec::new(alloc);
    collect(&mut literals, size_of(a, b) + 1, vars, subject, interval)?;
    Ok(pruning(subject.con, subject.domains, subject.boxes, literals))
}

/// Adds the literal that `x` is outside `a..b`.
fn keep_outside(
    literals: &mut Vec<(u32, IntSet)>,
    x: u32,
    domains: &[IntSet],
    interval: Interval<'_>,
) -> Result<(), AllocError>
    requires domain { x < length domains.now }
    requires span { interval.span.now ≡ (interval.a.value, interval.b.value) ∷ [] }
    ensures { OnOk result (literals.new.items ≡ literals.old.items
        ++ kept_one x (less (box_of domains.now x)
        ((interval.entry.a.value, interval.entry.b.value) ∷ [])) []) }
{
    keep_out(literals, x, &domains[x as usize], interval.span)
}

/// The clause that a full interval gives, which the box of `x` has numbers of.
fn explain_full(
    alloc: Global,
    subject: Subject<'_>,
    vars: &[u32],
    a: Number,
    b: Number,
    x: u32,
) -> Result<Clause, AllocError>
    requires con { subject.con.now ≡ AllDiff vars.now }
    requires boxes { AreBoxesWithin subject.domains.now subject.boxes.now }
    requires sets { All (λ d. IsValid d) subject.domains.now }
    requires named { All (λ x. x < length subject.boxes.now) vars.now }
    requires domains { All (λ x. x < length subject.domains.now) vars.now }
    requires once { no_repeat vars.now ≡ true }
    requires intruder { IsIntruder a.value b.value x vars.now subject.boxes.now }
    ensures { IfOk result (λ c. IsPruning subject.entry.con.now subject.entry.domains.now
        subject.entry.boxes.now c) }
{
    let span = span_of(alloc, a, b);
    let interval = Interval { a, b, span: &span };
    let mut literals = Vec::new(alloc);
    keep_outside(&mut literals, x, subject.domains, interval)?;
    collect(&mut literals, size_of(a, b), vars, subject, interval)?;
    Ok(pruning(subject.con, subject.domains, subject.boxes, literals))
}

/// The clause that a finding gives.
pub fn explain(
    alloc: Global,
    subject: Subject<'_>,
    vars: &[u32],
    found: Finding,
) -> Result<Clause, AllocError>
    requires con { subject.con.now ≡ AllDiff vars.now }
    requires boxes { AreBoxesWithin subject.domains.now subject.boxes.now }
    requires sets { All (λ d. IsValid d) subject.domains.now }
    requires named { All (λ x. x < length subject.boxes.now) vars.now }
    requires domains { All (λ x. x < length subject.domains.now) vars.now }
    requires once { no_repeat vars.now ≡ true }
    requires found { IsFinding found vars.now subject.boxes.now }
    ensures { IfOk result (λ c. IsPruning subject.entry.con.now subject.entry.domains.now
        subject.entry.boxes.now c) }
{
    match found {
        Finding::Crowded(a, b) => explain_crowd(alloc, subject, vars, a, b),
        Finding::Full(a, b, x) => explain_full(alloc, subject, vars, a, b, x),
    }
}
