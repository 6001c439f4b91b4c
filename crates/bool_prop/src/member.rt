//! Memberships.
//!
//! A membership has two clauses: the flag is 0 or the value in the set, and the flag is 1 or the
//! value outside. Which of them has something to say is told by the flag's box and by how the
//! variable's box lies to the set: one walk over both.
ghost use Rattle.std.specs.Prelude.{◌≡◌, ◌<◌, ◌∷◌, [], pos, IfOk, length};
ghost use Rattle.std.specs.List.{All};
ghost use Rattle.signed_clause.specs.Ranges.{IsValid};
ghost use Rattle.signed_clause.specs.SetAlgebra.{less};
ghost use Rattle.signed_clause.specs.Clauses.{box_of};
ghost use Rattle.ground_form.specs.declared.con.Con.TheVariants.{MemberDef};
ghost use Rattle.ground_form.specs.WellMade.{IsWellMadeCon};
ghost use Rattle.rule_law.specs.Answers.{AreBoxesWithin, IsAnswer, IsPruning};
ghost use Rattle.rule_law.specs.Reasons.{IsReason};
ghost use Rattle.rule_law.specs.Plans.{literals_of};
ghost use Rattle.bool_prop.specs.Findings.{member_finding};

use rule_law::{Subject, planned_pruning, probe, truth};
use signed_clause::{Clause, IntSet};
use std::alloc::{AllocError, Global};

/// Which clause has something to say: that the flag is 0 or the value in the set (true), that it is
/// 1 or the value outside (false), or none.
fn find(flags: &IntSet, at: &IntSet, set: &IntSet) -> Option<bool>
    ensures { result ≡ member_finding flags.now at.now set.now }
{
    let can_hold = flags.contains(1);
    let can_fail = flags.contains(0);
    if can_hold && (at.disjoint(set) || (!can_fail && !at.within(set))) {
        return Some(true);
    }
    if can_fail && (at.within(set) || (!can_hold && !at.disjoint(set))) {
        return Some(false);
    }
    None
}

/// The clause that the flag is 0 or the value in the set.
fn affirm(
    subject: Subject<'_>,
    flag: u32,
    var: u32,
    set: &IntSet,
    alloc: Global,
) -> Result<Clause, AllocError>
    requires flag { flag < length subject.domains.now }
    requires var { var < length subject.domains.now }
    requires reason { IsReason subject.con.now subject.domains.now subject.boxes.now
        (literals_of subject.domains.now ((flag, (pos 1, pos 1) ∷ [])
        ∷ (var, less (box_of subject.domains.now var) set.now) ∷ [])) }
    ensures pruning { IfOk result (λ c. IsPruning subject.entry.con.now subject.entry.domains.now
        subject.entry.boxes.now c) }
{
    let outside = subject.domains[var as usize].less(set)?;
    let clause = planned_pruning(
        subject.con,
        subject.domains,
        subject.boxes,
        &[(flag, truth(alloc, true)), (var, outside)],
        alloc,
    )?;
    Ok(clause)
}

/// The clause that the flag is 1 or the value outside the set.
fn deny(
    subject: Subject<'_>,
    flag: u32,
    var: u32,
    set: &IntSet,
    alloc: Global,
) -> Result<Clause, AllocError>
    requires flag { flag < length subject.domains.now }
    requires var { var < length subject.domains.now }
    requires reason { IsReason subject.con.now subject.domains.now subject.boxes.now
        (literals_of subject.domains.now ((flag, (pos 0, pos 0) ∷ [])
        ∷ (
          var,
          less (box_of subject.domains.now var)
              (less (box_of subject.domains.now var) set.now),
        ) ∷ [])) }
    ensures pruning { IfOk result (λ c. IsPruning subject.entry.con.now subject.entry.domains.now
        subject.entry.boxes.now c) }
{
    let domain = &subject.domains[var as usize];
    let outside = domain.less(set)?;
    let within = domain.less(&outside)?;
    let clause = planned_pruning(
        subject.con,
        subject.domains,
        subject.boxes,
        &[(flag, truth(alloc, false)), (var, within)],
        alloc,
    )?;
    Ok(clause)
}

/// What a membership has to say in the boxes.
///
/// # Errors
/// Want of memory.
pub fn prune_member(
    subject: Subject<'_>,
    flag: u32,
    var: u32,
    set: &IntSet,
    alloc: Global,
) -> Result<Option<Clause>, AllocError>
    requires is { subject.con.now ≡ MemberDef flag var set.now }
    requires well_made { IsWellMadeCon subject.domains.now subject.con.now }
    requires boxes { AreBoxesWithin subject.domains.now subject.boxes.now }
    requires sets { All (λ d. IsValid d) subject.domains.now }
    requires flag { flag < length subject.domains.now }
    requires var { var < length subject.domains.now }
    ensures answer { IfOk result (λ a. IsAnswer subject.entry.con.now subject.entry.domains.now
        subject.entry.boxes.now a) }
{
    if var == flag {
        return probe(subject.con, subject.domains, subject.boxes, alloc);
    }
    match find(
        &subject.boxes[flag as usize],
        &subject.boxes[var as usize],
        set,
    ) {
        None => Ok(None),
        Some(true) => {
            let clause = affirm(subject, flag, var, set, alloc)?;
            Ok(Some(clause))
        }
        Some(false) => {
            let clause = deny(subject, flag, var, set, alloc)?;
            Ok(Some(clause))
        }
    }
}
