//! The clauses of a Bound line, taken in.
ghost use Rattle.std.specs.Prelude.{◌≡◌, ◌<◌, ◌++◌, OnOk, length};
ghost use Rattle.std.specs.List.{All};
ghost use Rattle.log_form.specs.Acceptance.{bounds_of, has_empty};

use crate::derived::Derived;
use ground_form::GroundGoal;
use signed_clause::{ClauseHandle, IntSet};
use std::alloc::{AllocError, Global};

/// Adds the clauses of a Bound line behind the solution `values`.
pub fn push_bounds(
    alloc: Global,
    derived: &mut Derived,
    domains: &[IntSet],
    goals: &[GroundGoal],
    values: &[i64],
) -> Result<(), AllocError>
    requires domains { All (λ goal. goal.var < length domains.now) goals.now }
    requires values { All (λ goal. goal.var < length values.now) goals.now }
    requires closed { derived.old.closed ≡ has_empty derived.old.clauses }
    ensures clauses { OnOk result (derived.new.clauses
        ≡ derived.old.clauses ++ bounds_of goals.now domains.now values.now) }
    ensures closed { OnOk result (derived.new.closed ≡ has_empty derived.new.clauses) }
{
    let clauses = log_form::bounds_of(alloc, domains, goals, values)?;
    push_all(alloc, derived, clauses.as_slice())?;
    Ok(())
}

/// Adds the clauses, each with one more owner. Where nothing was found since the last Bound line,
/// they are those of that line.
fn push_all(alloc: Global, derived: &mut Derived, list: &[ClauseHandle]) -> Result<(), AllocError>
    requires { derived.old.closed ≡ has_empty derived.old.clauses }
    ensures clauses { OnOk result (derived.new.clauses ≡ derived.old.clauses ++ list.now) }
    ensures closed { OnOk result (derived.new.closed ≡ has_empty derived.new.clauses) }
{
    let former = derived.bound;
    derived.bound = derived.clauses.packed_count();
    for (k, clause) in list.iter().enumerate() {
        let same = former.saturating_add(k as u64);
        derived.push(alloc, clause.copy()?, Some(same))?;
    }
    Ok(())
}
