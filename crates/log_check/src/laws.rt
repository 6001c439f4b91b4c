//! Laws of acceptance, on the contracts of functions that do nothing.
ghost use Rattle.std.specs.Prelude.{◌≡◌, ◌≤◌, length};
ghost use Rattle.log_form.specs.Acceptance.{start, accepted, made};
ghost use Rattle.log_check.specs.OneGoal.{one_accepted_from, one_made_from};

use ground_form::Ground;
use log_form::Line;

/// It does nothing; its contract is the law. Against a problem with one goal or none, lines are
/// accepted exactly as they are where Bound lines make one clause and a Found line has to improve
/// the one goal; and they leave the same clauses and values, so the verdict is the same.
#[tactic(auto, using(crate::proofs::SingleGoal::same_acceptance, crate::proofs::SingleGoal::same_made))]
pub fn one_goal_or_none(g: &Ground, lines: &[Line])
    requires { length g.now.goals ≤ 1 }
    ensures accepted { accepted g.now lines.now ≡ one_accepted_from g.now start lines.now }
    ensures made { made g.now lines.now ≡ one_made_from g.now start lines.now }
{}
