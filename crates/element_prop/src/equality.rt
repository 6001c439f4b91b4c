//! Equalities.
//!
//! Where the flag can be 1 the boxes have to have a common value, and where it has to be 1 they
//! have to be the same; where it can be 0 they may not be the same single value, and where it has
//! to be 0 neither may hold the other's only value. Each test is a walk over the boxes' ranges.
ghost use Rattle.std.specs.Prelude.{◌≡◌, ◌<◌, ◌∷◌, [], ℤ, pos, true, false, IfOk, IfSome, IfNone, length};
ghost use Rattle.std.specs.List.{All};
ghost use Rattle.signed_clause.specs.Ranges.{has, is_nil, IsValid};
ghost use Rattle.signed_clause.specs.Clauses.{box_of};
ghost use Rattle.ground_form.specs.declared.con.Con.TheVariants.{EqDef};
ghost use Rattle.ground_form.specs.WellMade.{IsWellMadeCon};
ghost use Rattle.rule_law.specs.Answers.{AreBoxesWithin, IsAnswer, IsPruning};
ghost use Rattle.box_rules.specs.Refuted.{fixed_at, same_single};
ghost use Rattle.rule_law.specs.Reasons.{IsReason};
ghost use Rattle.rule_law.specs.Plans.{IsFlag, literals_of};
ghost use Rattle.element_prop.specs.Equalities.{Says, same_plan};

use crate::within::explain_within;
use ground_form::{Number, ends_of};
use rule_law::{Subject, planned_pruning, probe, truth};
use signed_clause::{Clause, IntSet};
use std::alloc::{AllocError, Global};

/// What an equality has to say.
#[derive(Clone, Copy)]
pub enum Finding {
    /// Nothing.
    Quiet,
    /// The flag is 0, or the left variable has a value that the right one's box has.
    LeftWithin,
    /// The same the other way round.
    RightWithin,
    /// The flag is 1, or one of both isn't this value.
    Same(Number),
}

/// The only value of a set that another has too.
fn shared_value(set: &IntSet, other: &IntSet) -> Option<Number>
    ensures only { IfSome result (λ n. fixed_at set.now n.value ≡ true) }
    ensures shared { IfSome result (λ n. has other.now n.value ≡ true) }
    ensures none { IfNone result ((v : ℤ) → fixed_at set.now v ≡ true → has other.now v ≡ false) }
{
    let ends = ends_of(set);
    if !set.is_empty() && ends.0 == ends.1 && other.contains(ends.0) {
        Some(Number { value: ends.0 })
    } else {
        None
    }
}

/// Whether the set is the value alone.
pub fn is_value(set: &IntSet, at: Number) -> bool
    ensures { result ≡ fixed_at set.now at.value }
{
    let ends = ends_of(set);
    !set.is_empty() && (ends.0 == at.value && ends.1 == at.value)
}

/// What there is to say where the flag is 1.
fn find_held(flags: &IntSet, left: &IntSet, right: &IntSet) -> Finding
    requires flag { IsFlag flags.now }
    requires held { has flags.now (pos 0) ≡ false }
    requires some { is_nil left.now ≡ false }
    requires left { IsValid left.now }
    requires right { IsValid right.now }
    ensures { Says flags.now left.now right.now result }
{
    if !left.within(right) {
        return Finding::LeftWithin;
    }
    if !right.within(left) {
        return Finding::RightWithin;
    }
    Finding::Quiet
}

/// What there is to say where the flag is 0.
fn find_denied(flags: &IntSet, left: &IntSet, right: &IntSet) -> Finding
    requires flag { IsFlag flags.now }
    requires denied { has flags.now (pos 1) ≡ false }
    requires left { IsValid left.now }
    requires right { IsValid right.now }
    ensures { Says flags.now left.now right.now result }
{
    if let Some(n) = shared_value(left, right) {
        return Finding::Same(n);
    }
    match shared_value(right, left) {
        Some(n) => Finding::Same(n),
        None => Finding::Quiet,
    }
}

/// What there is to say where the flag is open.
fn find_open(flags: &IntSet, left: &IntSet, right: &IntSet) -> Finding
    requires can_hold { has flags.now (pos 1) ≡ true }
    requires can_fail { has flags.now (pos 0) ≡ true }
    requires left { IsValid left.now }
    requires right { IsValid right.now }
    ensures { Says flags.now left.now right.now result }
{
    if left.disjoint(right) {
        return Finding::LeftWithin;
    }
    match shared_value(left, right) {
        Some(n) => {
            if is_value(right, n) {
                Finding::Same(n)
            } else {
                Finding::Quiet
            }
        }
        None => Finding::Quiet,
    }
}

/// What the equality has to say.
fn find(flags: &IntSet, left: &IntSet, right: &IntSet) -> Finding
    requires flag { IsFlag flags.now }
    requires some { is_nil left.now ≡ false }
    ensures { Says flags.now left.now right.now result }
{
    left.ranges();
    right.ranges();
    if !flags.contains(0) {
        find_held(flags, left, right)
    } else if !flags.contains(1) {
        find_denied(flags, left, right)
    } else {
        find_open(flags, left, right)
    }
}

/// The clause that the flag is 1, or one of both isn't the value.
fn explain_same(
    subject: Subject<'_>,
    vars: (u32, u32, u32),
    at: Number,
    alloc: Global,
) -> Result<Clause, AllocError>
    requires flag { vars.0 < length subject.domains.now }
    requires left { vars.1 < length subject.domains.now }
    requires right { vars.2 < length subject.domains.now }
    requires reason { IsReason subject.con.now subject.domains.now subject.boxes.now
        (literals_of subject.domains.now (same_plan vars.0 vars.1 vars.2 at.value)) }
    ensures pruning { IfOk result (λ c. IsPruning subject.entry.con.now
        subject.entry.domains.now subject.entry.boxes.now c) }
{
    let (con, domains, boxes) = (subject.con, subject.domains, subject.boxes);
    let plan = [
        (vars.0, truth(alloc, false)),
        (vars.1, alone(alloc, at)),
        (vars.2, alone(alloc, at)),
    ];
    let clause = planned_pruning(con, domains, boxes, &plan, alloc)?;
    Ok(clause)
}

/// The value alone.
pub fn alone(alloc: Global, at: Number) -> IntSet
    ensures { result ≡ (at.value, at.value) ∷ [] }
{
    IntSet::range(alloc, at.value, at.value)
}

/// What an equality has to say in the boxes.
///
/// # Errors
/// Want of memory.
pub fn prune_equality(
    subject: Subject<'_>,
    vars: (u32, u32, u32),
    alloc: Global,
) -> Result<Option<Clause>, AllocError>
    requires is { subject.con.now ≡ EqDef vars.0 vars.1 vars.2 }
    requires well_made { IsWellMadeCon subject.domains.now subject.con.now }
    requires boxes { AreBoxesWithin subject.domains.now subject.boxes.now }
    requires sets { All (λ d. IsValid d) subject.domains.now }
    requires flag { vars.0 < length subject.domains.now }
    requires left { vars.1 < length subject.domains.now }
    requires right { vars.2 < length subject.domains.now }
    ensures answer { IfOk result (λ a. IsAnswer subject.entry.con.now
        subject.entry.domains.now subject.entry.boxes.now a) }
{
    let (con, domains, boxes) = (subject.con, subject.domains, subject.boxes);
    let (flag, left, right) = vars;
    if left == flag || right == flag || right == left {
        return probe(con, domains, boxes, alloc);
    }
    let finding = find(
        &boxes[flag as usize],
        &boxes[left as usize],
        &boxes[right as usize],
    );
    match finding {
        Finding::Quiet => Ok(None),
        Finding::LeftWithin => {
            let clause = explain_within(subject, flag, left, right, alloc)?;
            Ok(Some(clause))
        }
        Finding::RightWithin => {
            let clause = explain_within(subject, flag, right, left, alloc)?;
            Ok(Some(clause))
        }
        Finding::Same(at) => {
            let clause = explain_same(subject, vars, at, alloc)?;
            Ok(Some(clause))
        }
    }
}
