//! Whether accepted lines made the empty clause.
//!
//! Lines behind one that made it are refused, so among accepted ones only the last can have made
//! it; the others need not be looked at again.
ghost use Rattle.std.specs.Prelude.{◌≡◌, ◌<◌, true, Some, None, Option, List, ℤ, IfOk, IfSome, IfNone, length};
ghost use Rattle.std.specs.List.{All};
ghost use Rattle.ground_form.specs.WellMade.{IsWellMade};
ghost use Rattle.log_form.specs.Acceptance.{accepted, made, has_empty, bounds, bounds_of};
ghost use Rattle.log_check.specs.Added.{added, found_after, last_values};

use crate::bound_line::push_bounds;
use crate::derived::Derived;
use ground_form::Ground;
use log_form::{Line, Values};
use std::alloc::{AllocError, Global};

/// Whether the lines made the empty clause.
#[tactic(auto, using(crate::proofs::LastLine::closed_by_last))]
pub fn is_closed(alloc: Global, g: &Ground, lines: &[Line]) -> Result<bool, AllocError>
    requires well_made { IsWellMade g.now }
    requires accepted { accepted g.now lines.now ≡ true }
    ensures { IfOk result (λ b. b ≡ has_empty (made g.now lines.now).clauses) }
{
    if lines.is_empty() {
        return Ok(false);
    }
    adds_empty(alloc, g, lines, &lines[lines.len() - 1])
}

/// Whether a line adds the empty clause, behind what was found last in the lines.
fn adds_empty(alloc: Global, g: &Ground, lines: &[Line], line: &Line) -> Result<bool, AllocError>
    requires well_made { IsWellMade g.now }
    requires accepted { accepted g.now lines.now ≡ true }
    ensures { IfOk result (λ b. b ≡ has_empty (added g.now (last_values lines.now) line.now)) }
{
    match line {
        Line::Axiom(_, clause) | Line::Chain(_, clause) => Ok(clause.clause().is_empty()),
        Line::Bound(_) => bounds_add_empty(alloc, g, lines),
        Line::Empty(_) => Ok(true),
        Line::Use(_) | Line::Found(_) | Line::Decide(..) => Ok(false),
    }
}

/// Whether a Bound line adds the empty clause, behind what was found last in the lines.
#[tactic(auto, using(crate::proofs::LastLine::found_fits))]
fn bounds_add_empty(alloc: Global, g: &Ground, lines: &[Line]) -> Result<bool, AllocError>
    requires well_made { IsWellMade g.now }
    requires accepted { accepted g.now lines.now ≡ true }
    ensures { IfOk result (λ b. b ≡ has_empty (bounds g.now (last_values lines.now))) }
{
    match last_found(lines) {
        Some(values) => bounds_are_empty(alloc, g, values.items()),
        None => Ok(false),
    }
}

/// Whether one of the clauses of a Bound line is empty, behind a solution.
fn bounds_are_empty(alloc: Global, g: &Ground, values: &[i64]) -> Result<bool, AllocError>
    requires domains { All (λ goal. goal.var < length g.now.domains) g.now.goals }
    requires values { All (λ goal. goal.var < length values.now) g.now.goals }
    ensures { IfOk result (λ b. b ≡ has_empty (bounds_of g.now.goals g.now.domains values.now)) }
{
    let mut derived = Derived::new(alloc);
    let domains = g.domains.items();
    push_bounds(alloc, &mut derived, domains, g.goals.items(), values)?;
    Ok(derived.closed)
}

/// The values of the last Found line.
fn last_found(lines: &[Line]) -> Option<&Values>
    ensures some { IfSome result (λ a. last_values lines.now ≡ Some a.now) }
    ensures none { IfNone result (last_values lines.now ≡ None) }
{
    let mut k = lines.len();
    while 0 < k {
        k -= 1;
        if let Some(values) = values_of(&lines[k]) {
            return Some(values);
        }
    }
    None
}

/// The values of a Found line.
fn values_of(line: &Line) -> Option<&Values>
    ensures some { IfSome result (λ a. (found : Option (List ℤ)) → found_after found line.now
        ≡ Some a.now) }
    ensures none { IfNone result ((found : Option (List ℤ)) → found_after found line.now ≡ found) }
{
    match line {
        Line::Found(values) => Some(values),
        _ => None,
    }
}
