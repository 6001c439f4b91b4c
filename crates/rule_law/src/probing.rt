//! Plain probing with an explanation, for constraints of every kind.
//!
//! Where the boxes refute the constraint, its variables' boxes are the explanation. Else the first
//! value is looked for that refutes it alone in its box: the explanation then is the boxes of the
//! other variables, and what is pruned is that value.
ghost use Rattle.std.specs.Prelude.{◌≡◌, ◌<◌, ◌++◌, [], ℕ, true, false, OnOk, IfOk, length};
ghost use Rattle.std.specs.List.{All};
ghost use Rattle.signed_clause.specs.Ranges.{IsValid};
ghost use Rattle.signed_clause.specs.SetAlgebra.{less};
ghost use Rattle.signed_clause.specs.Clauses.{box_of};
ghost use Rattle.ground_form.specs.Meaning.{vars_of};
ghost use Rattle.ground_form.specs.Bounds.{IsBounded};
ghost use Rattle.ground_form.specs.WellMade.{IsWellMadeCon};
ghost use Rattle.box_rules.specs.Named.{IsNamed};
ghost use Rattle.box_rules.specs.Refuted.{refuted};
ghost use Rattle.box_view.specs.Views.{fixing};
ghost use Rattle.box_rules.specs.Quiet.{quiet_at, IsCulprit};
ghost use Rattle.rule_law.specs.Answers.{AreBoxesWithin, IsAnswer, IsPruning};
ghost use Rattle.rule_law.specs.Reasons.{has_number, kept_one, kept};

use crate::explain::{keep_out, pruning};
use crate::variables::{all_vars, distinct};
use box_rules::{are_all_quiet, first_at, refutes};
use ground_form::{Con, Number};
use signed_clause::{Clause, IntSet};
use std::alloc::{AllocError, Global};

/// Adds the literal 'x is outside its box', where that says anything.
fn keep_out_of_box(
    literals: &mut Vec<(u32, IntSet)>,
    domains: &[IntSet],
    boxes: &[IntSet],
    x: u32,
) -> Result<(), AllocError>
    requires domain { x < length domains.now }
    requires var { x < length boxes.now }
    ensures { OnOk result (literals.new.items ≡ literals.old.items
        ++ kept_one x (less (box_of domains.now x) (box_of boxes.now x)) []) }
{
    keep_out(literals, x, &domains[x as usize], &boxes[x as usize])
}

/// The same where the box of `var` is the value alone.
#[tactic(auto, using(box_view::proofs::SetLaws::fixing_same, box_view::proofs::SetLaws::fixing_other))]
fn keep_out_of_fixed(
    literals: &mut Vec<(u32, IntSet)>,
    domains: &[IntSet],
    boxes: &[IntSet],
    var: u32,
    value: Number,
    x: u32,
) -> Result<(), AllocError>
    requires domain { x < length domains.now }
    requires var { x < length boxes.now }
    ensures { OnOk result (literals.new.items ≡ literals.old.items
        ++ kept_one x (less (box_of domains.now x) (box_of (fixing boxes.now var value.value) x))
        []) }
{
    if x == var {
        let alone = IntSet::range(*literals.allocator(), value.value, value.value);
        keep_out(literals, x, &domains[x as usize], &alone)
    } else {
        keep_out(literals, x, &domains[x as usize], &boxes[x as usize])
    }
}

/// Of each variable of the list, 'it is outside its box'.
fn box_literals(
    domains: &[IntSet],
    boxes: &[IntSet],
    vars: &[u32],
    alloc: Global,
) -> Result<Vec<(u32, IntSet)>, AllocError>
    requires domains { All (λ x. x < length domains.now) vars.now }
    requires vars { All (λ x. x < length boxes.now) vars.now }
    ensures { IfOk result (λ ls. ls.items ≡ kept domains.now (λ x. box_of boxes.now x) vars.now) }
{
    let mut literals = Vec::new(alloc);
    for x in vars {
        keep_out_of_box(&mut literals, domains, boxes, *x)?;
    }
    Ok(literals)
}

/// The same where the box of `var` is the value alone.
fn value_literals(
    domains: &[IntSet],
    boxes: &[IntSet],
    vars: &[u32],
    var: u32,
    value: Number,
    alloc: Global,
) -> Result<Vec<(u32, IntSet)>, AllocError>
    requires domains { All (λ x. x < length domains.now) vars.now }
    requires vars { All (λ x. x < length boxes.now) vars.now }
    ensures { IfOk result (λ ls. ls.items
        ≡ kept domains.now (λ x. box_of (fixing boxes.now var value.value) x) vars.now) }
{
    let mut literals = Vec::new(alloc);
    for x in vars {
        keep_out_of_fixed(&mut literals, domains, boxes, var, value, *x)?;
    }
    Ok(literals)
}

/// The first variable of the list of which a probed value refutes the constraint, and that value.
fn first_culprit(con: &Con, boxes: &[IntSet], vars: &[u32]) -> (u32, Number)
    requires named { IsNamed con.now boxes.now }
    requires bounded { IsBounded con.now boxes.now }
    requires vars { All (λ x. x < length boxes.now) vars.now }
    requires some { quiet_at con.now boxes.now vars.now ≡ false }
    ensures var { has_number result.0 vars.now ≡ true }
    ensures culprit { IsCulprit con.now boxes.now result.0 result.1.value }
{
    for x in vars {
        if let Some(value) = first_at(con, boxes, *x) {
            return (*x, value);
        }
    }
    unreachable!()
}

/// The clause of boxes that refute the constraint.
fn refuted_pruning(
    con: &Con,
    domains: &[IntSet],
    boxes: &[IntSet],
    alloc: Global,
) -> Result<Clause, AllocError>
    requires well_made { IsWellMadeCon domains.now con.now }
    requires boxes { AreBoxesWithin domains.now boxes.now }
    requires sets { All (λ d. IsValid d) domains.now }
    requires refuted { refuted con.now boxes.now ≡ true }
    ensures { IfOk result (λ c. IsPruning con.now domains.now boxes.now c) }
{
    let vars = distinct(all_vars(con, alloc)?);
    let literals = box_literals(domains, boxes, vars.as_slice(), alloc)?;
    let clause = pruning(con, domains, boxes, literals);
    Ok(clause)
}

/// The clause of a value that refutes the constraint when it stands alone in its box.
fn value_pruning(
    con: &Con,
    domains: &[IntSet],
    boxes: &[IntSet],
    alloc: Global,
) -> Result<Clause, AllocError>
    requires well_made { IsWellMadeCon domains.now con.now }
    requires boxes { AreBoxesWithin domains.now boxes.now }
    requires sets { All (λ d. IsValid d) domains.now }
    requires some { quiet_at con.now boxes.now (vars_of con.now) ≡ false }
    ensures { IfOk result (λ c. IsPruning con.now domains.now boxes.now c) }
{
    let named = all_vars(con, alloc)?;
    let found = first_culprit(con, boxes, named.as_slice());
    let vars = distinct(named);
    let literals = value_literals(domains, boxes, vars.as_slice(), found.0, found.1, alloc)?;
    let clause = pruning(con, domains, boxes, literals);
    Ok(clause)
}

/// A clause that the constraint justifies and that is unit or false in the boxes, found by probing
/// each value that `quiet` speaks of and explained by all variables of the constraint; None where
/// the constraint is quiet, and then no memory is taken.
///
/// # Errors
/// Want of memory.
pub fn probe(
    con: &Con,
    domains: &[IntSet],
    boxes: &[IntSet],
    alloc: Global,
) -> Result<Option<Clause>, AllocError>
    requires well_made { IsWellMadeCon domains.now con.now }
    requires boxes { AreBoxesWithin domains.now boxes.now }
    requires sets { All (λ d. IsValid d) domains.now }
    ensures answer { IfOk result (λ answer. IsAnswer con.now domains.now boxes.now answer) }
{
    if refutes(con, boxes) {
        let clause = refuted_pruning(con, domains, boxes, alloc)?;
        return Ok(Some(clause));
    }
    if are_all_quiet(con, boxes) {
        return Ok(None);
    }
    let pruned = value_pruning(con, domains, boxes, alloc)?;
    Ok(Some(pruned))
}
