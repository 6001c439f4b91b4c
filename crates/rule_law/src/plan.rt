//! Clauses made of plans.
//!
//! A plan says of some variables which values are left; its literals say of each that it has
//! another value of its domain.
ghost use Rattle.std.specs.Prelude.{◌≡◌, ◌<◌, ◌∷◌, ◌++◌, [], IfOk, OnOk, length};
ghost use Rattle.std.specs.List.{All};
ghost use Rattle.signed_clause.specs.SetAlgebra.{less};
ghost use Rattle.signed_clause.specs.Clauses.{box_of};
ghost use Rattle.ground_form.specs.Meaning.{bit};
ghost use Rattle.rule_law.specs.Answers.{IsPruning};
ghost use Rattle.rule_law.specs.Reasons.{IsReason, kept_one};
ghost use Rattle.rule_law.specs.Plans.{literals_of};

use crate::explain::{keep_out, pruning};
use ground_form::Con;
use signed_clause::{Clause, IntSet};
use std::alloc::{AllocError, Global};

/// The value that stands for a truth, alone.
pub fn truth(alloc: Global, b: bool) -> IntSet
    ensures { result ≡ (bit b, bit b) ∷ [] }
{
    if b {
        IntSet::range(alloc, 1, 1)
    } else {
        IntSet::range(alloc, 0, 0)
    }
}

/// Adds the literal of one variable of a plan.
fn keep_entry(
    literals: &mut Vec<(u32, IntSet)>,
    domains: &[IntSet],
    e: &(u32, IntSet),
) -> Result<(), AllocError>
    requires { e.now.0 < length domains.now }
    ensures { OnOk result (literals.new.items ≡ literals.old.items
        ++ kept_one e.now.0 (less (box_of domains.now e.now.0) e.now.1) []) }
{
    keep_out(literals, e.0, &domains[e.0 as usize], &e.1)?;
    Ok(())
}

/// The clause of a plan whose literals are a reason of the constraint in the boxes.
///
/// # Errors
/// Want of memory.
pub fn planned_pruning(
    con: &Con,
    domains: &[IntSet],
    boxes: &[IntSet],
    plan: &[(u32, IntSet)],
    alloc: Global,
) -> Result<Clause, AllocError>
    requires variables { All (λ e. e.0 < length domains.now) plan.now }
    requires reason { IsReason con.now domains.now boxes.now (literals_of domains.now plan.now) }
    ensures pruning { IfOk result (λ c. IsPruning con.now domains.now boxes.now c) }
{
    let mut literals = Vec::new(alloc);
    for e in plan {
        keep_entry(&mut literals, domains, e)?;
    }
    Ok(pruning(con, domains, boxes, literals))
}
