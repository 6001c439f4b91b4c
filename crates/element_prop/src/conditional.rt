//! Conditionals.
//!
//! Where the flag can be 1, out and the item have to have a common value, and where it has to be 1
//! their boxes have to be the same; where it can be 0, out can be 0, and where it has to be, out
//! is; and in any case out's values are 0 or values that the item's box has. Each test is a walk
//! over the boxes' ranges.
ghost use Rattle.std.specs.Prelude.{◌≡◌, ◌<◌, ◌∷◌, [], pos, true, false, IfOk, length};
ghost use Rattle.std.specs.List.{All};
ghost use Rattle.signed_clause.specs.Ranges.{has, is_nil, IsValid};
ghost use Rattle.signed_clause.specs.SetAlgebra.{less};
ghost use Rattle.signed_clause.specs.Clauses.{box_of};
ghost use Rattle.ground_form.specs.declared.con.Con.TheVariants.{CondDef};
ghost use Rattle.ground_form.specs.WellMade.{IsWellMadeCon};
ghost use Rattle.rule_law.specs.Answers.{AreBoxesWithin, IsAnswer, IsPruning};
ghost use Rattle.rule_law.specs.Reasons.{IsReason};
ghost use Rattle.rule_law.specs.Plans.{IsFlag, literals_of};
ghost use Rattle.element_prop.specs.Conditionals.{Says, either_plan};

use crate::within::explain_within;
use rule_law::{Subject, is_rest_within, keep_out, planned_pruning, probe, pruning, truth};
use signed_clause::{Clause, IntSet};
use std::alloc::{AllocError, Global};

/// What a conditional has to say.
#[derive(Clone, Copy)]
pub enum Finding {
    /// Nothing.
    Quiet,
    /// The flag is 0, or out has a value that the item's box has.
    OutWithin,
    /// The flag is 0, or the item has a value that out's box has.
    ItemWithin,
    /// The flag is 1, or out is 0.
    Zero,
    /// Out is 0 or has a value that the item's box has.
    Either,
}

/// What there is to say where the flag is 1.
fn find_held(out: &IntSet, flags: &IntSet, item: &IntSet) -> Finding
    requires flag { IsFlag flags.now }
    requires held { has flags.now (pos 0) ≡ false }
    requires some { is_nil out.now ≡ false }
    requires out { IsValid out.now }
    requires item { IsValid item.now }
    ensures { Says out.now flags.now item.now result }
{
    if !out.within(item) {
        return Finding::OutWithin;
    }
    if !item.within(out) {
        return Finding::ItemWithin;
    }
    Finding::Quiet
}

/// What there is to say where the flag is 0.
fn find_denied(out: &IntSet, flags: &IntSet, item: &IntSet, zero: &IntSet) -> Finding
    requires flag { IsFlag flags.now }
    requires denied { has flags.now (pos 1) ≡ false }
    requires some { is_nil out.now ≡ false }
    requires out { IsValid out.now }
    requires zero { zero.now ≡ (pos 0, pos 0) ∷ [] }
    ensures { Says out.now flags.now item.now result }
{
    if out.within(zero) {
        Finding::Quiet
    } else {
        Finding::Zero
    }
}

/// What there is to say where the flag is open.
fn find_open(out: &IntSet, flags: &IntSet, item: &IntSet, zero: &IntSet) -> Finding
    requires can_hold { has flags.now (pos 1) ≡ true }
    requires can_fail { has flags.now (pos 0) ≡ true }
    requires zero { zero.now ≡ (pos 0, pos 0) ∷ [] }
    ensures { Says out.now flags.now item.now result }
{
    if out.disjoint(item) {
        return Finding::OutWithin;
    }
    if !out.contains(0) {
        return Finding::Zero;
    }
    if is_rest_within(out, zero, item) {
        Finding::Quiet
    } else {
        Finding::Either
    }
}

/// What the conditional has to say.
fn find(out: &IntSet, flags: &IntSet, item: &IntSet, alloc: Global) -> Finding
    requires flag { IsFlag flags.now }
    requires some { is_nil out.now ≡ false }
    ensures { Says out.now flags.now item.now result }
{
    out.ranges();
    item.ranges();
    let zero = truth(alloc, false);
    if !flags.contains(0) {
        find_held(out, flags, item)
    } else if !flags.contains(1) {
        find_denied(out, flags, item, &zero)
    } else {
        find_open(out, flags, item, &zero)
    }
}

/// The clause that the flag is 1, or out is 0.
fn explain_zero(
    subject: Subject<'_>,
    flag: u32,
    out: u32,
    alloc: Global,
) -> Result<Clause, AllocError>
    requires flag { flag < length subject.domains.now }
    requires out { out < length subject.domains.now }
    requires reason { IsReason subject.con.now subject.domains.now subject.boxes.now
        (literals_of subject.domains.now ((flag, (pos 0, pos 0) ∷ [])
        ∷ (out, less (box_of subject.domains.now out) ((pos 0, pos 0) ∷ [])) ∷ [])) }
    ensures pruning { IfOk result (λ c. IsPruning subject.entry.con.now
        subject.entry.domains.now subject.entry.boxes.now c) }
{
    let (con, domains, boxes) = (subject.con, subject.domains, subject.boxes);
    let other = domains[out as usize].less(&truth(alloc, false))?;
    let plan = [(flag, truth(alloc, false)), (out, other)];
    let clause = planned_pruning(con, domains, boxes, &plan, alloc)?;
    Ok(clause)
}

/// The clause that out is 0 or has a value that the item's box has, or that the item is outside its
/// box.
fn explain_either(
    subject: Subject<'_>,
    out: u32,
    item: u32,
    alloc: Global,
) -> Result<Clause, AllocError>
    requires out { out < length subject.domains.now }
    requires item { item < length subject.domains.now }
    requires size { length subject.boxes.now ≡ length subject.domains.now }
    requires reason { IsReason subject.con.now subject.domains.now subject.boxes.now
        (literals_of subject.domains.now
        (either_plan subject.domains.now subject.boxes.now out item)) }
    ensures pruning { IfOk result (λ c. IsPruning subject.entry.con.now
        subject.entry.domains.now subject.entry.boxes.now c) }
{
    let (con, domains, boxes) = (subject.con, subject.domains, subject.boxes);
    let domain = &domains[out as usize];
    let other = domain.less(&truth(alloc, false))?;
    let outside = other.less(&boxes[item as usize])?;
    let mut literals = Vec::new(alloc);
    keep_out(&mut literals, out, domain, &outside)?;
    keep_out(
        &mut literals,
        item,
        &domains[item as usize],
        &boxes[item as usize],
    )?;
    Ok(pruning(con, domains, boxes, literals))
}

/// What a conditional has to say in the boxes: of out, the flag and the item.
///
/// # Errors
/// Want of memory.
pub fn prune_conditional(
    subject: Subject<'_>,
    vars: (u32, u32, u32),
    alloc: Global,
) -> Result<Option<Clause>, AllocError>
    requires is { subject.con.now ≡ CondDef vars.0 vars.1 vars.2 }
    requires well_made { IsWellMadeCon subject.domains.now subject.con.now }
    requires boxes { AreBoxesWithin subject.domains.now subject.boxes.now }
    requires sets { All (λ d. IsValid d) subject.domains.now }
    requires out { vars.0 < length subject.domains.now }
    requires flag { vars.1 < length subject.domains.now }
    requires item { vars.2 < length subject.domains.now }
    ensures answer { IfOk result (λ a. IsAnswer subject.entry.con.now
        subject.entry.domains.now subject.entry.boxes.now a) }
{
    let (con, domains, boxes) = (subject.con, subject.domains, subject.boxes);
    let (out, flag, item) = vars;
    if out == flag || item == flag || item == out {
        return probe(con, domains, boxes, alloc);
    }
    let finding = find(
        &boxes[out as usize],
        &boxes[flag as usize],
        &boxes[item as usize],
        alloc,
    );
    let clause = match finding {
        Finding::Quiet => return Ok(None),
        Finding::OutWithin => explain_within(subject, flag, out, item, alloc)?,
        Finding::ItemWithin => explain_within(subject, flag, item, out, alloc)?,
        Finding::Zero => explain_zero(subject, flag, out, alloc)?,
        Finding::Either => explain_either(subject, out, item, alloc)?,
    };
    Ok(Some(clause))
}
