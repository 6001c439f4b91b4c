//! Whether a problem is well made.
ghost use Rattle.std.specs.Prelude.{◌≡◌, ◌<◌, ◌≤◌, ◌-◌, true, length, IfOk};
ghost use Rattle.std.specs.List.{All};
ghost use Rattle.signed_clause.specs.Ranges.{IsValid};
ghost use Rattle.ground_form.specs.WellMade.{IsWellMade, IsWellMadeCon};
ghost use Rattle.test_well_made.specs.Defined.{ArePlaced};

use crate::constraint::is_constraint_well_made;
use crate::defined::are_placed;
use ground_form::{Con, Ground, GroundGoal};
use rule_law::are_boxes_within;
use signed_clause::IntSet;
use std::alloc::{AllocError, Global};

/// Whether all constraints are well made over the domains.
fn are_constraints_well_made(
    cons: &[Con],
    domains: &[IntSet],
    alloc: Global,
) -> Result<bool, AllocError>
    ensures { IfOk result (λ made. made ≡ true → All (λ con. IsWellMadeCon domains.now con)
        cons.now) }
{
    for con in cons {
        if !is_constraint_well_made(con, domains, alloc)? {
            return Ok(false);
        }
    }
    Ok(true)
}

/// Whether a problem all of whose variables are searched, with values in each domain and no goal,
/// is well made. It may say no of one that is, and does of any other problem.
///
/// # Errors
/// Want of memory.
#[tactic(auto, using(crate::proofs::Problems::made_problem))]
pub fn is_search_well_made(g: &Ground, alloc: Global) -> Result<bool, AllocError>
    ensures { IfOk result (λ made. made ≡ true → IsWellMade g.now) }
{
    let domains = g.domains.items();
    let cons = g.cons.items();
    if domains.len() > 1000000
        || cons.len() > 1000000
        || g.search as usize != domains.len()
        || g.goals.items().len() != 0
        || !are_boxes_within(domains, domains)
    {
        return Ok(false);
    }
    let made = are_constraints_well_made(cons, domains, alloc)?;
    Ok(made)
}

/// Whether each goal's variable is one of the first `count`.
fn are_goals_named(goals: &[GroundGoal], count: usize) -> bool
    ensures { result ≡ true → All (λ goal. goal.var < count) goals.now }
{
    for goal in goals {
        if goal.var as usize >= count {
            return false;
        }
    }
    true
}

/// What the type of the sets keeps.
fn know_sets(sets: &[IntSet])
    ensures { All (λ s. IsValid s) sets.now }
{
    for set in sets {
        set.ranges();
    }
}

/// Whether the variables that aren't searched are defined by the first constraints, in order.
fn are_rest_defined(g: &Ground, alloc: Global) -> Result<bool, AllocError>
    requires variables { length g.now.domains ≤ 1000000 }
    requires constraints { length g.now.cons ≤ 1000000 }
    requires search { g.now.search ≤ length g.now.domains }
    ensures enough { IfOk result (λ yes. yes ≡ true
        → length g.now.domains - g.now.search ≤ length g.now.cons) }
    ensures placed { IfOk result (λ yes. yes ≡ true
        → ArePlaced g.now.search (length g.now.domains - g.now.search) g.now.cons) }
{
    let cons = g.cons.items();
    let count = g.domains.items().len() as u32 - g.search;
    if count as usize > cons.len() {
        return Ok(false);
    }
    let placed = are_placed(cons, g.search, count, alloc)?;
    Ok(placed)
}

/// Whether a problem is well made. Its variables that aren't searched have to be defined by its
/// first constraints, in order. It may say no of a problem that is well made.
///
/// # Errors
/// Want of memory.
#[tactic(auto, using(crate::proofs::Definitions::made_whole))]
pub fn is_problem_well_made(g: &Ground, alloc: Global) -> Result<bool, AllocError>
    ensures { IfOk result (λ made. made ≡ true → IsWellMade g.now) }
{
    let domains = g.domains.items();
    let count = domains.len();
    let cons = g.cons.items();
    if count > 1000000 || cons.len() > 1000000 || g.search as usize > count {
        return Ok(false);
    }
    if !are_goals_named(g.goals.items(), count) || !are_rest_defined(g, alloc)? {
        return Ok(false);
    }
    know_sets(domains);
    let made = are_constraints_well_made(cons, domains, alloc)?;
    Ok(made)
}
