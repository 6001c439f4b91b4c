//! Laws of runs, each the contract of a function that does nothing else.
//!
//! Some of them rest on what the types of the lines' parts keep, so these functions look at each
//! line once.
ghost use Rattle.std.specs.Prelude.{◌≡◌, ◌↔◌, ◌&&◌, ◌++◌, ◌∷◌, [], ◌+◌, ◌<◌, ◌≤◌, true, false, ℕ, length, take};
ghost use Rattle.std.specs.List.{All};
ghost use Rattle.signed_clause.specs.Ranges.{is_nil};
ghost use Rattle.ground_form.specs.Solutions.{size_of};
ghost use Rattle.ground_form.specs.WellMade.{IsWellMade};
ghost use Rattle.rule_law.specs.Answers.{AreBoxesWithin};
ghost use Rattle.log_form.specs.Acceptance as acceptance;
ghost use Rattle.log_form.specs.Acceptance.{may_come, after, has_empty, accepted, made};
ghost use Rattle.learn_clauses.specs.Learnt.{domains_of, CameFrom, IsWithinDomains};
ghost use Rattle.run_law.specs.Replay.{Conflict, Closed, top_boxes, none_acts, is_settled, may_stand, next, is_run, state_of};
ghost use Rattle.run_law.specs.Conflicts.{IsConflict};
ghost use Rattle.run_law.specs.Fixpoints.{IsFixpoint};
ghost use Rattle.branch_choice.specs.declared.split.Order.TheVariants as orders;
ghost use Rattle.run_law.specs.Ordered.{IsLineBy, IsOrdered};
ghost use Rattle.run_law.specs.Decisions.{decisions, MayDecide};

use crate::known::know_lines;
use branch_choice::Order;
use ground_form::Ground;
use log_form::Line;

/// The lines of a run are accepted, and a front of a run is a run.
#[tactic(auto, using(crate::proofs::Fronts::run_accepted, crate::proofs::Fronts::run_front))]
pub fn front_is_run(g: &Ground, lines: &[Line])
    requires { is_run g.now lines.now ≡ true }
    ensures accepted { accepted g.now lines.now ≡ true }
    ensures front { (n : ℕ) → is_run g.now (take n lines.now) ≡ true }
{}

/// A run with a line more is a run exactly where the line may come and may stand behind what the
/// run leaves; and then that line is all that changes what is left.
#[tactic(auto, using(crate::proofs::Fronts::laws_of_more))]
pub fn line_more(g: &Ground, lines: &[Line], line: &Line)
    ensures run { is_run g.now (lines.now ++ line.now ∷ [])
        ≡ (is_run g.now lines.now && (may_come g.now (made g.now lines.now) line.now
        && may_stand g.now (made g.now lines.now) (state_of g.now lines.now) line.now)) }
    ensures made { made g.now (lines.now ++ line.now ∷ [])
        ≡ after g.now (made g.now lines.now) line.now }
    ensures state { state_of g.now (lines.now ++ line.now ∷ [])
        ≡ next g.now (made g.now lines.now) (state_of g.now lines.now) line.now }
{}

/// Lines with a line more decide by an order exactly where they do and the new line, if it decides,
/// does so by the order in the boxes that they leave. By the order Own all lines do.
#[tactic(auto, using(crate::proofs::Orders::ordered_more, crate::proofs::Orders::own_ordered))]
pub fn ordered_line_more(
    g: &Ground,
    order: Order,
    hints: &[Option<i64>],
    lines: &[Line],
    line: &Line,
)
    ensures more { IsOrdered g.now order hints.now (lines.now ++ line.now ∷ [])
        ↔ (IsOrdered g.now order hints.now lines.now
        × IsLineBy g.now order hints.now (state_of g.now lines.now) line.now) }
    ensures own { order ≡ orders.Own → IsOrdered g.now order hints.now lines.now }
{}

/// What every run leaves. Each pruning came from a clause that was made, level 0 began with the
/// domains, the clauses name values of the domains alone, the present boxes lie within the domains,
/// with values where all domains have some, and each level below stands at a fixpoint.
#[tactic(auto, using(crate::proofs::RunLaws::laws_of_levels))]
pub fn run_leaves(g: &Ground, lines: &[Line])
    requires well_made { IsWellMade g.now }
    requires run { is_run g.now lines.now ≡ true }
    ensures came { CameFrom (made g.now lines.now).clauses (state_of g.now lines.now).levels }
    ensures domains { domains_of (state_of g.now lines.now).levels ≡ g.now.domains }
    ensures within { All (λ c. IsWithinDomains g.now.domains c) (made g.now lines.now).clauses }
    ensures boxes { All (λ s. is_nil s ≡ false) g.now.domains
        → AreBoxesWithin g.now.domains (top_boxes (state_of g.now lines.now)) }
    ensures below { All (λ l. IsFixpoint g.now.cons l.now)
        (state_of g.now lines.now).levels.below }
{
    know_lines(lines);
}

/// What the mode that a run has reached says: a conflict is with a clause that was made and is
/// false, and the run is closed exactly where the empty clause was made. Where no clause that was
/// made has anything to say, the run is settled. It has decided for each level above level 0. It is
/// fresh where it has no line.
#[tactic(auto, using(crate::proofs::RunLaws::laws_of_modes))]
pub fn run_reaches(g: &Ground, lines: &[Line])
    requires well_made { IsWellMade g.now }
    requires run { is_run g.now lines.now ≡ true }
    ensures conflict { (n : ℕ) → (state_of g.now lines.now).mode ≡ Conflict n
        → IsConflict (made g.now lines.now).clauses (top_boxes (state_of g.now lines.now)) n }
    ensures closed { ((state_of g.now lines.now).mode ≡ Closed)
        ↔ (has_empty (made g.now lines.now).clauses ≡ true) }
    ensures settled { none_acts (top_boxes (state_of g.now lines.now))
        (made g.now lines.now).clauses ≡ true → is_settled (state_of g.now lines.now) ≡ true }
    ensures levels { length (state_of g.now lines.now).levels.below ≤ decisions lines.now }
    ensures fresh { (state_of g.now lines.now).fresh ≡ is_nil lines.now }
{
    know_lines(lines);
}

/// A run over a problem that has a point decides fewer times than it has points; and where a
/// further decision may stand, fewer times by two.
#[tactic(auto, using(crate::proofs::FewDecisions::laws_of_decisions))]
pub fn run_decides_less(g: &Ground, lines: &[Line])
    requires well_made { IsWellMade g.now }
    requires run { is_run g.now lines.now ≡ true }
    ensures size { 1 ≤ size_of g.now → decisions lines.now < size_of g.now }
    ensures more { MayDecide g.now lines.now → decisions lines.now + 2 ≤ size_of g.now }
{
    know_lines(lines);
}
