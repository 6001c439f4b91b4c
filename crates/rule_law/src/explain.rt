//! Clauses made of reasons.
//!
//! A propagator collects literals of different variables in any order, most of them 'the variable
//! is outside what is left of its domain' (`keep_out`). Where the constraint justifies them and
//! they take something away (`IsReason`), `pruning` makes the clause: as they are where their
//! variables ascend, else sorted in place. Neither sorting nor making takes memory.
ghost use Rattle.std.specs.Prelude.{◌≡◌, ◌++◌, [], OnOk};
ghost use Rattle.std.specs.List.Sorted.{IsPermutation};
ghost use Rattle.signed_clause.specs.Ranges.{is_nil};
ghost use Rattle.signed_clause.specs.SetAlgebra.{less};
ghost use Rattle.rule_law.specs.Answers.{IsPruning};
ghost use Rattle.rule_law.specs.Reasons.{IsReason, kept_one};

use ground_form::Con;
use signed_clause::{Clause, IntSet};
use std::alloc::AllocError;

/// The clause of literals that are a reason of the constraint in the boxes. It takes no memory.
#[tactic(auto, using(crate::proofs::Reasoning::reason_as_is))]
pub fn pruning(
    con: &Con,
    domains: &[IntSet],
    boxes: &[IntSet],
    literals: Vec<(u32, IntSet)>,
) -> Clause
    requires reason { IsReason con.now domains.now boxes.now literals.items }
    ensures pruning { IsPruning con.now domains.now boxes.now result }
{
    match Clause::of(literals) {
        Ok(clause) => clause,
        Err(refused) => sorted_pruning(con, domains, boxes, refused.literals),
    }
}

/// The clause of literals whose variables needn't ascend.
fn sorted_pruning(
    con: &Con,
    domains: &[IntSet],
    boxes: &[IntSet],
    mut literals: Vec<(u32, IntSet)>,
) -> Clause
    requires reason { IsReason con.now domains.now boxes.now literals.items }
    ensures pruning { IsPruning con.now domains.now boxes.now result }
{
    literals.sort_unstable_by_key(|l| l.0);
    match Clause::of(literals) {
        Ok(clause) => clause,
        Err(_) => unreachable!(),
    }
}

/// Adds the literal 'x is in its domain and outside what is left of it', where that says anything.
///
/// # Errors
/// Want of memory; the literals are then as before.
pub fn keep_out(
    literals: &mut Vec<(u32, IntSet)>,
    x: u32,
    domain: &IntSet,
    left: &IntSet,
) -> Result<(), AllocError>
    ensures { OnOk result (literals.new.items ≡ literals.old.items
        ++ kept_one x (less domain.now left.now) []) }
{
    let out = domain.less(left)?;
    if !out.is_empty() {
        literals.push((x, out))?;
    }
    Ok(())
}
