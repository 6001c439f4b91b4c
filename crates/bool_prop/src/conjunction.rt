//! Conjunctions.
//!
//! A conjunction says of each part that the flag is 0 or the part as it wants, and at last that the
//! flag is 1 or some part isn't. Where the flag is 1 the walk stops at the first part that isn't
//! fixed; where it is 0, at the second such part or at one that is barred; and where it is open, at
//! one that is barred.
//!
//! Whether a variable stands twice is asked only where the whole clause is stated, which has a
//! literal for each part.
ghost use Rattle.std.specs.Prelude.{◌≡◌, ◌<◌, ◌∷◌, ◌++◌, [], pos, true, false, not, drop, IfOk, OnOk, IfSome, IfNone, length, slice_index_or};
ghost use Rattle.std.specs.List.{All};
ghost use Rattle.signed_clause.specs.Ranges.{IsValid};
ghost use Rattle.signed_clause.specs.SetAlgebra.{less};
ghost use Rattle.signed_clause.specs.Clauses.{box_of};
ghost use Rattle.ground_form.specs.declared.con.Con.TheVariants.{AndDef};
ghost use Rattle.ground_form.specs.Meaning.{bit};
ghost use Rattle.ground_form.specs.WellMade.{IsWellMadeCon};
ghost use Rattle.rule_law.specs.Answers.{AreBoxesWithin, IsAnswer, IsPruning};
ghost use Rattle.box_rules.specs.Refuted.{barred, fixed_at};
ghost use Rattle.rule_law.specs.Reasons.{IsReason, kept_one};
ghost use Rattle.rule_law.specs.Plans.{literals_of};
ghost use Rattle.bool_prop.specs.Findings.{IsScene, part_fixed, open_rest, whole_plan, IsWholeOpen, Says};

use ground_form::{Number, ends_of};
use rule_law::{Repeats, Subject, keep_out, planned_pruning, probe, pruning, truth};
use signed_clause::{Clause, IntSet};
use std::alloc::{AllocError, Global};

/// What a conjunction has to say.
#[derive(Clone, Copy)]
pub enum Finding {
    /// Nothing.
    Quiet,
    /// The flag is 0, or the part at the index is as it wants.
    Part(usize),
    /// The flag is 1, or some part isn't as it wants.
    Whole,
    /// A variable stands twice, so that only plain probing can tell.
    Unclear,
}

/// Whether a variable can't have the truth.
fn is_barred(boxes: &[IntSet], p: (u32, bool)) -> bool
    requires { p.0 < length boxes.now }
    ensures { result ≡ barred boxes.now p.0 p.1 }
{
    if p.1 {
        !boxes[p.0 as usize].contains(1)
    } else {
        !boxes[p.0 as usize].contains(0)
    }
}

/// Whether the set is the value alone.
fn is_value(set: &IntSet, at: Number) -> bool
    ensures { result ≡ fixed_at set.now at.value }
{
    let ends = ends_of(set);
    !set.is_empty() && (ends.0 == at.value && ends.1 == at.value)
}

/// Whether the part is fixed at what it wants.
fn is_fixed(boxes: &[IntSet], p: (u32, bool)) -> bool
    requires { p.0 < length boxes.now }
    ensures { result ≡ part_fixed boxes.now p }
{
    is_value(
        &boxes[p.0 as usize],
        Number {
            value: i64::from(p.1),
        },
    )
}

/// The index of the first part from `from` on that isn't fixed.
fn first_open(parts: &[(u32, bool)], from: usize, boxes: &[IntSet]) -> Option<usize>
    requires { All (λ p. p.0 < length boxes.now) parts.now }
    ensures within { IfSome result (λ i. i < length parts.now) }
    ensures rest { IfSome result (λ i. open_rest (drop from parts.now) boxes.now
        ≡ drop i parts.now) }
    ensures none { IfNone result (open_rest (drop from parts.now) boxes.now ≡ []) }
{
    let mut i = from;
    while i < parts.len() {
        if !is_fixed(boxes, parts[i]) {
            return Some(i);
        }
        i += 1;
    }
    None
}

/// What there is to say where the flag is 1.
fn find_held(flag: u32, parts: &[(u32, bool)], boxes: &[IntSet]) -> Finding
    requires scene { IsScene flag parts.now boxes.now }
    requires held { barred boxes.now flag false ≡ true }
    ensures { Says flag parts.now boxes.now result }
{
    match first_open(parts, 0, boxes) {
        None => Finding::Quiet,
        Some(i) => {
            if parts[i].0 == flag {
                Finding::Unclear
            } else {
                Finding::Part(i)
            }
        }
    }
}

/// What there is to say where the flag is 0, and the part at the index is the first that isn't
/// fixed, and isn't barred.
fn find_next(flag: u32, parts: &[(u32, bool)], i: usize, boxes: &[IntSet]) -> Finding
    requires scene { IsScene flag parts.now boxes.now }
    requires denied { barred boxes.now flag true ≡ true }
    requires within { i < length parts.now }
    requires first { open_rest parts.now boxes.now ≡ drop i parts.now }
    requires can { (d : _) → barred boxes.now (slice_index_or parts.now i d).0
        (slice_index_or parts.now i d).1 ≡ false }
    ensures { Says flag parts.now boxes.now result }
{
    match first_open(parts, i + 1, boxes) {
        None => Finding::Whole,
        Some(j) => {
            if is_barred(boxes, parts[j]) {
                Finding::Quiet
            } else if parts[i].0 == parts[j].0 {
                Finding::Unclear
            } else {
                Finding::Quiet
            }
        }
    }
}

/// What there is to say where the flag is 0.
fn find_denied(flag: u32, parts: &[(u32, bool)], boxes: &[IntSet]) -> Finding
    requires scene { IsScene flag parts.now boxes.now }
    requires denied { barred boxes.now flag true ≡ true }
    ensures { Says flag parts.now boxes.now result }
{
    match first_open(parts, 0, boxes) {
        None => Finding::Whole,
        Some(i) => {
            if is_barred(boxes, parts[i]) {
                Finding::Quiet
            } else {
                find_next(flag, parts, i, boxes)
            }
        }
    }
}

/// What there is to say where the flag is open.
fn find_open(flag: u32, parts: &[(u32, bool)], boxes: &[IntSet]) -> Finding
    requires scene { IsScene flag parts.now boxes.now }
    requires can_hold { barred boxes.now flag true ≡ false }
    requires can_fail { barred boxes.now flag false ≡ false }
    ensures { Says flag parts.now boxes.now result }
{
    let mut is_open = false;
    let mut i = 0;
    while i < parts.len() {
        if parts[i].0 == flag {
            return Finding::Unclear;
        }
        if is_barred(boxes, parts[i]) {
            return Finding::Part(i);
        }
        is_open = is_open || !is_fixed(boxes, parts[i]);
        i += 1;
    }
    if is_open {
        Finding::Quiet
    } else {
        Finding::Whole
    }
}

/// What the conjunction has to say.
fn find(flag: u32, parts: &[(u32, bool)], boxes: &[IntSet]) -> Finding
    requires scene { IsScene flag parts.now boxes.now }
    ensures { Says flag parts.now boxes.now result }
{
    if is_barred(boxes, (flag, false)) {
        find_held(flag, parts, boxes)
    } else if is_barred(boxes, (flag, true)) {
        find_denied(flag, parts, boxes)
    } else {
        find_open(flag, parts, boxes)
    }
}

/// The clause that the flag is 0, or the part as it wants.
fn explain_part(
    subject: Subject<'_>,
    flag: u32,
    p: (u32, bool),
    alloc: Global,
) -> Result<Clause, AllocError>
    requires flag { flag < length subject.domains.now }
    requires var { p.0 < length subject.domains.now }
    requires reason { IsReason subject.con.now subject.domains.now subject.boxes.now
        (literals_of subject.domains.now ((flag, (pos 1, pos 1) ∷ [])
        ∷ (p.0, less (box_of subject.domains.now p.0) ((bit p.1, bit p.1) ∷ [])) ∷ [])) }
    ensures pruning { IfOk result (λ c. IsPruning subject.entry.con.now subject.entry.domains.now
        subject.entry.boxes.now c) }
{
    let other = subject.domains[p.0 as usize].less(&truth(alloc, p.1))?;
    let clause = planned_pruning(
        subject.con,
        subject.domains,
        subject.boxes,
        &[(flag, truth(alloc, true)), (p.0, other)],
        alloc,
    )?;
    Ok(clause)
}

/// Adds the literal that the part isn't as it wants.
fn keep_part(
    literals: &mut Vec<(u32, IntSet)>,
    domains: &[IntSet],
    p: (u32, bool),
    alloc: Global,
) -> Result<(), AllocError>
    requires { p.0 < length domains.now }
    ensures { OnOk result (literals.new.items ≡ literals.old.items
        ++ kept_one p.0 (less (box_of domains.now p.0) ((bit p.1, bit p.1) ∷ [])) []) }
{
    keep_out(literals, p.0, &domains[p.0 as usize], &truth(alloc, p.1))?;
    Ok(())
}

/// The clause that the flag is 1, or some part isn't as it wants.
fn explain_whole(
    subject: Subject<'_>,
    flag: u32,
    parts: &[(u32, bool)],
    alloc: Global,
) -> Result<Clause, AllocError>
    requires flag { flag < length subject.domains.now }
    requires parts { All (λ p. p.0 < length subject.domains.now) parts.now }
    requires reason { IsReason subject.con.now subject.domains.now subject.boxes.now
        (literals_of subject.domains.now ((flag, (pos 0, pos 0) ∷ []) ∷ whole_plan parts.now)) }
    ensures pruning { IfOk result (λ c. IsPruning subject.entry.con.now subject.entry.domains.now
        subject.entry.boxes.now c) }
{
    let mut literals = Vec::new(alloc);
    keep_part(&mut literals, subject.domains, (flag, false), alloc)?;
    for p in parts {
        keep_part(&mut literals, subject.domains, *p, alloc)?;
    }
    Ok(pruning(subject.con, subject.domains, subject.boxes, literals))
}

/// What a conjunction says as a whole, which it has to in the boxes.
fn prune_whole(
    repeats: &mut Repeats,
    k: u32,
    subject: Subject<'_>,
    flag: u32,
    parts: &[(u32, bool)],
    alloc: Global,
) -> Result<Option<Clause>, AllocError>
    requires is { subject.con.now ≡ AndDef flag parts.now }
    requires well_made { IsWellMadeCon subject.domains.now subject.con.now }
    requires boxes { AreBoxesWithin subject.domains.now subject.boxes.now }
    requires sets { All (λ d. IsValid d) subject.domains.now }
    requires flag { flag < length subject.domains.now }
    requires parts { All (λ p. p.0 < length subject.domains.now) parts.now }
    requires open { IsWholeOpen flag parts.now subject.boxes.now }
    ensures answer { IfOk result (λ a. IsAnswer subject.entry.con.now subject.entry.domains.now
        subject.entry.boxes.now a) }
{
    let differ = repeats.has_no_repeat(k, subject.con)?;
    if !differ {
        return probe(subject.con, subject.domains, subject.boxes, alloc);
    }
    let clause = explain_whole(subject, flag, parts, alloc)?;
    Ok(Some(clause))
}

/// What a conjunction has to say in the boxes.
///
/// # Errors
/// Want of memory.
pub fn prune_conjunction(
    repeats: &mut Repeats,
    k: u32,
    subject: Subject<'_>,
    flag: u32,
    parts: &[(u32, bool)],
    alloc: Global,
) -> Result<Option<Clause>, AllocError>
    requires is { subject.con.now ≡ AndDef flag parts.now }
    requires well_made { IsWellMadeCon subject.domains.now subject.con.now }
    requires boxes { AreBoxesWithin subject.domains.now subject.boxes.now }
    requires sets { All (λ d. IsValid d) subject.domains.now }
    requires flag { flag < length subject.domains.now }
    requires parts { All (λ p. p.0 < length subject.domains.now) parts.now }
    ensures answer { IfOk result (λ a. IsAnswer subject.entry.con.now subject.entry.domains.now
        subject.entry.boxes.now a) }
{
    match find(flag, parts, subject.boxes) {
        Finding::Quiet => Ok(None),
        Finding::Part(i) => {
            let clause = explain_part(subject, flag, parts[i], alloc)?;
            Ok(Some(clause))
        }
        Finding::Whole => prune_whole(repeats, k, subject, flag, parts, alloc),
        Finding::Unclear => probe(subject.con, subject.domains, subject.boxes, alloc),
    }
}
