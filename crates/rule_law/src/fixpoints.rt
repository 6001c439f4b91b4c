//! Boxes at a fixpoint are a solution.
ghost use Rattle.std.specs.Prelude.{◌≡◌, ℕ, ◌<◌, true, false, length, Some, slice_get};
ghost use Rattle.std.specs.List.{All};
ghost use Rattle.signed_clause.specs.Ranges.{IsValid, is_nil};
ghost use Rattle.signed_clause.specs.SetAlgebra.{is_within};
ghost use Rattle.signed_clause.specs.Clauses.{box_of};
ghost use Rattle.ground_form.specs.declared.con.Con.{Con};
ghost use Rattle.ground_form.specs.Bounds.{singles};
ghost use Rattle.ground_form.specs.Solutions.{IsSolution};
ghost use Rattle.ground_form.specs.WellMade.{IsWellMade};
ghost use Rattle.box_rules.specs.Quiet.{quiet};
ghost use Rattle.rule_law.specs.Singles.{IsSingle, least_values};

use ground_form::Ground;
use signed_clause::IntSet;

/// It does nothing; its contract is the law. Where a ground problem is well made, the boxes lie
/// within the domains and none is empty, every constraint is quiet and the searched variables have
/// single values, all variables have single values, and these are a solution.
///
/// `size`, `within`, `some` and `sets` are what propagators ask of boxes, `quiet` is what is known
/// when none of them has anything left to say, `decided` when nothing is left to choose.
pub fn fixpoint_is_solution(g: &Ground, boxes: &[IntSet])
    requires well_made { IsWellMade g.now }
    requires size { length boxes.now ≡ length g.now.domains }
    requires within { (x : ℕ) → x < length boxes.now
        → is_within (box_of boxes.now x) (box_of g.now.domains x) ≡ true }
    requires some { (x : ℕ) → x < length boxes.now → is_nil (box_of boxes.now x) ≡ false }
    requires sets { All (λ s. IsValid s) boxes.now }
    requires quiet { (k : ℕ) (con : Con) → slice_get g.now.cons k ≡ Some con
        → quiet con boxes.now ≡ true }
    requires decided { (x : ℕ) → x < g.now.search → IsSingle (box_of boxes.now x) }
    ensures single { (x : ℕ) → x < length boxes.now → IsSingle (box_of boxes.now x) }
    ensures values { boxes.now ≡ singles (least_values boxes.now) }
    ensures solution { IsSolution g.now (least_values boxes.now) }
{}
