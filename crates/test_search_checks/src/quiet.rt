//! Whether constraints are quiet, each of them looked at.
ghost use Rattle.std.specs.Prelude.{◌≡◌, ◌<◌, ℕ, true, length, slice_get};
ghost use Rattle.ground_form.specs.declared.con.Con.{Con};
ghost use Rattle.ground_form.specs.WellMade.{IsWellMade, IsWellMadeCon};
ghost use Rattle.box_rules.specs.Quiet.{quiet};
ghost use Rattle.rule_law.specs.Answers.{AreBoxesWithin};
ghost use Rattle.prop_queue.specs.Work.{AreAllQuiet};

use crate::within::has_boxes;
use ground_form::{Con, Ground};
use rule_law::{justified, quiet};
use signed_clause::{Clause, IntSet};

/// The constraint of the number.
fn con_at(g: &Ground, k: u32) -> &Con
    requires well_made { IsWellMade g.now }
    requires con { k < length g.now.cons }
    ensures con { (con : Con) → slice_get g.now.cons k ≡ Some con → result.now ≡ con }
    ensures made { IsWellMadeCon g.now.domains result.now }
{
    &g.cons.items()[k as usize]
}

/// Whether the constraint of the number is quiet in the boxes.
#[tactic(auto, using(rule_law::proofs::ProbeLaws::boxes_bounded, rule_law::proofs::ProbeLaws::boxes_vars))]
pub(crate) fn is_quiet(g: &Ground, k: u32, boxes: &[IntSet]) -> bool
    requires well_made { IsWellMade g.now }
    requires boxes { AreBoxesWithin g.now.domains boxes.now }
    requires con { k < length g.now.cons }
    ensures { (con : Con) → slice_get g.now.cons k ≡ Some con → result ≡ quiet con boxes.now }
{
    quiet(con_at(g, k), boxes)
}

/// Whether each constraint is quiet in the boxes.
pub(crate) fn are_all_quiet(g: &Ground, boxes: &[IntSet]) -> bool
    requires well_made { IsWellMade g.now }
    requires boxes { AreBoxesWithin g.now.domains boxes.now }
    ensures { result ≡ true → AreAllQuiet g.now boxes.now }
{
    let count = g.cons.items().len() as u32;
    for k in 0..count {
        if !is_quiet(g, k, boxes) {
            return false;
        }
    }
    true
}

/// Whether the clause is a pruning of the constraint of the number: it is justified, and false or
/// unit in the boxes.
pub(crate) fn is_pruning(g: &Ground, k: u32, boxes: &[IntSet], clause: &Clause) -> bool
    requires well_made { IsWellMade g.now }
    requires con { k < length g.now.cons }
{
    has_boxes(clause, boxes)
        && justified(con_at(g, k), g.domains.items(), clause)
        && clause.acts(boxes)
}
