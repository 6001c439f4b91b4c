//! Whether a constraint may be asked about.
ghost use Rattle.std.specs.Prelude.{◌≡◌, ◌<◌, true, length, IfOk};
ghost use Rattle.std.specs.List.{All};
ghost use Rattle.signed_clause.specs.Clauses.{IsWithinBoxes};
ghost use Rattle.ground_form.specs.Meaning.{vars_of};
ghost use Rattle.ground_form.specs.Bounds.{IsBounded};

use ground_form::Con;
use rule_law::all_vars;
use signed_clause::{Clause, IntSet};
use std::alloc::{AllocError, Global};
use test_well_made::is_constraint_well_made;

/// Whether each number is below the count.
fn are_below(vars: &[u32], count: usize) -> bool
    ensures { result ≡ true → All (λ x. x < count) vars.now }
{
    for x in vars {
        if *x as usize >= count {
            return false;
        }
    }
    true
}

/// Whether each variable of the constraint is below the count.
pub(crate) fn is_named(con: &Con, count: usize, alloc: Global) -> Result<bool, AllocError>
    ensures { IfOk result (λ yes. yes ≡ true → All (λ x. x < count) (vars_of con.now)) }
{
    let vars = all_vars(con, alloc)?;
    Ok(are_below(vars.as_slice(), count))
}

/// Whether the constraint's numbers are bounded over the boxes. It may say no where they are.
pub(crate) fn is_bounded(con: &Con, boxes: &[IntSet], alloc: Global) -> Result<bool, AllocError>
    ensures { IfOk result (λ yes. yes ≡ true → IsBounded con.now boxes.now) }
{
    match con {
        Con::AndDef { .. } => Ok(true),
        Con::MemberDef { .. } => Ok(true),
        Con::EqDef { .. } => Ok(true),
        Con::ElementDef { .. } => Ok(true),
        Con::CondDef { .. } => Ok(true),
        Con::ClauseCon { .. } => Ok(true),
        Con::AllDiff { .. } => Ok(true),
        _ => {
            let made = is_constraint_well_made(con, boxes, alloc)?;
            Ok(made)
        }
    }
}

/// Whether each variable of the clause has a box.
pub(crate) fn has_boxes(clause: &Clause, boxes: &[IntSet]) -> bool
    ensures { result ≡ true → IsWithinBoxes clause.now boxes.now }
{
    let literals = clause.literals();
    for l in literals {
        if l.0 as usize >= boxes.len() {
            return false;
        }
    }
    true
}
