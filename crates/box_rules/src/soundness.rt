//! The laws of the rules: what boxes that refute a constraint mean for its solutions, and which
//! boxes the rules look at.
ghost use Rattle.std.specs.Prelude.{◌≡◌, ◌↔◌, ◌<◌, List, ℤ, true, not, length};
ghost use Rattle.std.specs.List.{All};
ghost use Rattle.signed_clause.specs.Ranges.{IsValid};
ghost use Rattle.ground_form.specs.Meaning.{vars_of, con_true};
ghost use Rattle.ground_form.specs.Bounds.{IsBounded, singles};
ghost use Rattle.ground_form.specs.WellMade.{HasSets};
ghost use Rattle.box_rules.specs.Named.{Agree};
ghost use Rattle.box_rules.specs.Points.{HasNoPoint, IsCrowdedSomewhere};
ghost use Rattle.box_rules.specs.Quiet.{quiet};
ghost use Rattle.box_rules.specs.Refuted.{some_crowded, refuted};

use ground_form::Con;
use signed_clause::IntSet;

/// It does nothing; its contract is the law. A constraint that is refuted in boxes is true at no
/// point of them. Where each box is a single value, it is refuted exactly where it is false at
/// these values.
#[tactic(auto, using(crate::proofs::RefutedLaws::refuted_has_no_point, crate::proofs::RefutedLaws::refuted_where_false))]
pub fn refuted_is_false(con: &Con, boxes: &[IntSet])
    requires variables { All (λ x. x < length boxes.now) (vars_of con.now) }
    requires bounded { IsBounded con.now boxes.now }
    requires sets { All (λ s. IsValid s) boxes.now }
    requires con_sets { HasSets con.now }
    ensures no_point { refuted con.now boxes.now ≡ true → HasNoPoint con.now boxes.now }
    ensures exact { (a : List ℤ) → boxes.now ≡ singles a → refuted con.now boxes.now
        ≡ not (con_true con.now a) }
{}

/// It does nothing; its contract is the law. The rule of values that differ looks at intervals from
/// where some box begins to where some box ends, which is as good as to look at all.
#[tactic(auto, using(crate::proofs::CrowdLaws::crowded_law))]
pub fn some_interval_is_crowded(vars: &[u32], boxes: &[IntSet])
    requires { All (λ s. IsValid s) boxes.now }
    ensures { (some_crowded vars.now vars.now boxes.now ≡ true) ↔ IsCrowdedSomewhere vars.now
        boxes.now }
{}

/// It does nothing; its contract is the law. Whether a constraint is quiet depends on the boxes of
/// its variables alone: where two lists of boxes agree on them, it is quiet in both or in neither.
#[tactic(auto, using(crate::proofs::QuietAgree::agree_quiet))]
pub fn quiet_looks_at_variables(con: &Con, boxes: &[IntSet], others: &[IntSet])
    requires variables { All (λ x. x < length boxes.now) (vars_of con.now) }
    requires other_variables { All (λ x. x < length others.now) (vars_of con.now) }
    requires agree { Agree boxes.now others.now (vars_of con.now) }
    ensures { quiet con.now boxes.now ≡ quiet con.now others.now }
{}
