//! What a clause says in boxes: itself, or nothing.
ghost use Rattle.std.specs.Prelude.{◌≡◌, ◌||◌, is_some, true, IfOk};
ghost use Rattle.std.specs.List.{All};
ghost use Rattle.signed_clause.specs.Ranges.{IsValid};
ghost use Rattle.signed_clause.specs.Clauses.{false_in, unit_of};
ghost use Rattle.ground_form.specs.declared.con.Con.TheVariants.{ClauseCon};
ghost use Rattle.ground_form.specs.WellMade.{IsWellMadeCon};
ghost use Rattle.rule_law.specs.Answers.{AreBoxesWithin, IsAnswer, IsPruning};

use signed_clause::{Clause, IntSet};
use std::alloc::AllocError;

/// The clause again, as the reason for what it takes away: it is false in the boxes or unit.
///
/// # Errors
/// Want of memory.
pub fn own_reason(
    clause: &Clause,
    domains: &[IntSet],
    boxes: &[IntSet],
) -> Result<Clause, AllocError>
    requires well_made { IsWellMadeCon domains.now (ClauseCon clause.now) }
    requires boxes { AreBoxesWithin domains.now boxes.now }
    requires sets { All (λ d. IsValid d) domains.now }
    requires acts { (false_in boxes.now clause.now || is_some (unit_of boxes.now clause.now))
        ≡ true }
    ensures pruning { IfOk result (λ c. IsPruning (ClauseCon clause.now) domains.now boxes.now c) }
{
    let copy = clause.copy()?;
    Ok(copy)
}

/// What the clause says in the boxes: itself, where it is false in them or unit; else nothing. It
/// walks the literals until two meet their boxes, and copies nothing where it says nothing.
///
/// # Errors
/// Want of memory.
pub fn prune_clause(
    clause: &Clause,
    domains: &[IntSet],
    boxes: &[IntSet],
) -> Result<Option<Clause>, AllocError>
    requires well_made { IsWellMadeCon domains.now (ClauseCon clause.now) }
    requires boxes { AreBoxesWithin domains.now boxes.now }
    requires sets { All (λ d. IsValid d) domains.now }
    ensures answer { IfOk result (λ a. IsAnswer (ClauseCon clause.now) domains.now boxes.now a) }
{
    if clause.acts(boxes) {
        let reason = own_reason(clause, domains, boxes)?;
        Ok(Some(reason))
    } else {
        Ok(None)
    }
}
