//! What may follow a run, where more than the line's own rule stands behind it, and which levels
//! a learnt clause leaves. Like the laws, these are contracts of functions that do nothing but look
//! at the lines once.
ghost use Rattle.std.specs.Prelude.{◌≡◌, ◌↔◌, ◌<◌, ◌-◌, false, ◌++◌, ◌∷◌, [], true, ℕ, Some, is_some, slice_get};
ghost use Rattle.ground_form.specs.declared.con.Con.{Con};
ghost use Rattle.ground_form.specs.Bounds.{singles};
ghost use Rattle.ground_form.specs.Solutions.{IsSolution};
ghost use Rattle.ground_form.specs.WellMade.{IsWellMade};
ghost use Rattle.box_rules.specs.Quiet.{quiet};
ghost use Rattle.log_form.specs.declared.line.Line.TheVariants as kinds;
ghost use Rattle.log_form.specs.Acceptance.{made, states};
ghost use Rattle.signed_clause.specs.Ranges.{is_nil, IsValid};
ghost use Rattle.signed_clause.specs.SetAlgebra.{meet};
ghost use Rattle.signed_clause.specs.Clauses.{box_of, unit_of};
ghost use Rattle.fd_store.specs.Undo.{dropped};
ghost use Rattle.learn_clauses.specs.Walk.{walk_from, back_to};
ghost use Rattle.std.specs.List.{All};
ghost use Rattle.branch_choice.specs.Picks.{half_of, IsPick};
ghost use Rattle.run_law.specs.Conflicts.{LeadsFrom};
ghost use Rattle.run_law.specs.Ordered.{IsDecidedBy};
ghost use Rattle.run_law.specs.Fixpoints.{is_ended};
ghost use Rattle.run_law.specs.Replay.{Going, Conflict, AtFound, top_boxes, is_settled, is_split, leads_back, is_run, state_of};

use crate::known::know_lines;
use branch_choice::{Order, Split};
use ground_form::Ground;
use log_form::{Line, Values};
use numbered_clauses::Chain;
use signed_clause::{Clause, IntSet};

/// Where a run is in conflict, the Chain line of the walk back from the clause of the conflict may
/// follow, if its clause leads back: so the chain of a walk needs no check.
pub fn walk_may_follow(g: &Ground, lines: &[Line], chain: &Chain, clause: &Clause)
    requires well_made { IsWellMade g.now }
    requires run { is_run g.now lines.now ≡ true }
    requires conflict { (state_of g.now lines.now).mode ≡ Conflict chain.now.first }
    requires walk { walk_from (state_of g.now lines.now).levels (made g.now lines.now).clauses
        chain.now.first ≡ Some (record { steps = chain.now.steps; clause = clause.now }) }
    requires leads { leads_back (state_of g.now lines.now).levels clause.now ≡ true }
    ensures { is_run g.now (lines.now ++ kinds.Chain chain.now clause.now ∷ []) ≡ true }
{
    know_lines(lines);
}

/// From which level of a run a clause with literals leads back: there is at most one level in whose
/// first boxes it is false while it isn't in the present boxes of the level below. What is left
/// where it leads back are the levels below that one, and there it is unit.
pub fn one_level_leads_back(g: &Ground, lines: &[Line], clause: &Clause)
    requires well_made { IsWellMade g.now }
    requires run { is_run g.now lines.now ≡ true }
    requires some { is_nil clause.now ≡ false }
    ensures leads { (leads_back (state_of g.now lines.now).levels clause.now ≡ true)
        ↔ ((k : ℕ) × LeadsFrom clause.now (state_of g.now lines.now).levels k) }
    ensures level { (k : ℕ) → LeadsFrom clause.now (state_of g.now lines.now).levels k
        → back_to clause.now (state_of g.now lines.now).levels
        ≡ Some (dropped (k - 1) (state_of g.now lines.now).levels) }
    ensures unit { (k : ℕ) → LeadsFrom clause.now (state_of g.now lines.now).levels k
        → is_some (unit_of (dropped (k - 1) (state_of g.now lines.now).levels).top.now clause.now)
        ≡ true }
{
    know_lines(lines);
    clause.literals();
}

/// Where a run has nothing left to say and its present boxes are single values that are a solution,
/// a Found line of these values may follow: so they are better than those found last, since the
/// bounds have nothing to say.
pub fn found_may_follow(g: &Ground, lines: &[Line], values: &Values)
    requires well_made { IsWellMade g.now }
    requires run { is_run g.now lines.now ≡ true }
    requires going { (state_of g.now lines.now).mode ≡ Going }
    requires settled { is_settled (state_of g.now lines.now) ≡ true }
    requires quiet { (k : ℕ) (con : Con) → slice_get g.now.cons k ≡ Some con
        → quiet con (top_boxes (state_of g.now lines.now)) ≡ true }
    requires single { top_boxes (state_of g.now lines.now) ≡ singles values.now }
    requires solution { IsSolution g.now values.now }
    ensures { is_run g.now (lines.now ++ kinds.Found values.now ∷ []) ≡ true }
{
    know_lines(lines);
}

/// Where a run has just told a solution, the Bound line of its goals' values may follow; and where
/// the present boxes are that solution alone, it ends the level: one of its clauses is false there,
/// so a conflict is to be explained, or it is the empty one.
pub fn bound_may_follow(g: &Ground, lines: &[Line], found: &Values, values: &Values)
    requires well_made { IsWellMade g.now }
    requires run { is_run g.now lines.now ≡ true }
    requires at_found { (state_of g.now lines.now).mode ≡ AtFound }
    requires found { (made g.now lines.now).found ≡ Some found.now }
    requires values { states g.now.goals found.now values.now ≡ true }
    ensures run { is_run g.now (lines.now ++ kinds.Bound values.now ∷ []) ≡ true }
    ensures ends { top_boxes (state_of g.now lines.now) ≡ singles found.now
        → is_ended (state_of g.now (lines.now ++ kinds.Bound values.now ∷ [])).mode ≡ true }
{
    know_lines(lines);
}

/// What a chooser of an order picks may be decided: what the split takes of its box is a split of
/// it, of a searched variable, and the decision is by the order. `part` is the set of the values
/// that the split takes.
pub fn pick_may_be_decided(
    order: Order,
    boxes: &[IntSet],
    hints: &[Option<i64>],
    search: u32,
    split: Split,
    part: &IntSet,
)
    requires sets { All (λ s. IsValid s) boxes.now }
    requires picked { IsPick order boxes.now hints.now search (Some split) }
    requires part { part.now ≡ half_of split }
    ensures searched { split.var < search }
    ensures splits { is_split (meet part.now (box_of boxes.now split.var))
        (box_of boxes.now split.var) ≡ true }
    ensures by_order { IsDecidedBy order boxes.now hints.now search split.var
        (meet part.now (box_of boxes.now split.var)) }
{
    part.ranges();
}
