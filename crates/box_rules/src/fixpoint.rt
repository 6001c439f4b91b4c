//! Whether a constraint has nothing to say in boxes.
//!
//! `quiet` asks at each variable of the constraint whether one of its probed values, alone in its
//! box, refutes the constraint. Boxes with one value in place of a box are a view (`Fixing`), so
//! nothing is built.
ghost use Rattle.std.specs.Prelude.{◌≡◌, ◌<◌, ◌≤ℤ◌, ℤ, true, false, not, is_some, IfSome, [], ◌∷◌, length, slice_get};
ghost use Rattle.std.specs.List.{All};
ghost use Rattle.signed_clause.specs.Ranges.{has, in_range, is_nil, IsValid};
ghost use Rattle.signed_clause.specs.Clauses.{box_of};
ghost use Rattle.ground_form.specs.Meaning.{vars_of};
ghost use Rattle.ground_form.specs.Bounds.{low_of, high_of, IsBounded};
ghost use Rattle.box_rules.specs.Named.{IsNamed};
ghost use Rattle.box_rules.specs.Refuted.{width, refuted};
ghost use Rattle.box_view.specs.Views.{fixing};
ghost use Rattle.box_rules.specs.Quiet.{values_from, values_of, probed, none_refutes, quiet_at, quiet, IsCulprit};

use crate::exclude::refutes_in;
use crate::refute::refutes;
use box_view::{Fixing, end_of, is_below, next, start_of};
use ground_form::{Con, Number, ends_of};
use signed_clause::IntSet;

/// Whether the constraint is quiet in the boxes: it isn't refuted, and would not be by any probed
/// value alone in the box of its variable. Probed are all values of a box that has at most 64, else
/// the least and the greatest. It takes no memory.
#[tactic(auto, using(crate::proofs::NamedVars::named), unfolding(crate::specs::Quiet::quiet))]
pub fn quiet(con: &Con, boxes: &[IntSet]) -> bool
    requires variables { All (λ x. x < length boxes.now) (vars_of con.now) }
    requires bounded { IsBounded con.now boxes.now }
    ensures { result ≡ quiet con.now boxes.now }
{
    !refutes(con, boxes) && are_all_quiet(con, boxes)
}

/// Whether the value alone in the box of `x`, of which it is one, refutes the constraint.
#[tactic(auto, using(crate::proofs::QuietLaws::fixing_bounded, crate::proofs::QuietLaws::fixing_named))]
fn does_value_refute(con: &Con, boxes: &[IntSet], x: u32, at: Number) -> bool
    requires named { IsNamed con.now boxes.now }
    requires bounded { IsBounded con.now boxes.now }
    requires var { x < length boxes.now }
    requires member { has (box_of boxes.now x) at.value ≡ true }
    ensures { result ≡ refuted con.now (fixing boxes.now x at.value) }
{
    boxes[x as usize].ranges();
    let view = Fixing {
        boxes,
        var: x,
        value: at,
    };
    refutes_in(con, &view)
}

/// The first of the values from `first` to `last`, all of the box of `x`, that refutes the
/// constraint.
fn first_between(con: &Con, boxes: &[IntSet], x: u32, first: Number, last: Number) -> Option<Number>
    requires named { IsNamed con.now boxes.now }
    requires bounded { IsBounded con.now boxes.now }
    requires var { x < length boxes.now }
    requires order { first.value ≤ℤ last.value }
    requires members { (v : ℤ) → in_range (first.value, last.value) v ≡ true
        → has (box_of boxes.now x) v ≡ true }
    ensures none { not (is_some result) ≡ none_refutes con.now boxes.now x
        (values_from (width first.value last.value) first.value) }
    ensures some { IfSome result (λ v. IsCulprit con.now boxes.now x v.value) }
{
    let mut at = first;
    if does_value_refute(con, boxes, x, at) {
        return Some(at);
    }
    while is_below(at, last) {
        at = next(at, last);
        if does_value_refute(con, boxes, x, at) {
            return Some(at);
        }
    }
    None
}

/// The first of the values of the range, all of the box of `x`, that refutes the constraint.
fn first_in_range(con: &Con, boxes: &[IntSet], x: u32, r: (i64, i64)) -> Option<Number>
    requires named { IsNamed con.now boxes.now }
    requires bounded { IsBounded con.now boxes.now }
    requires var { x < length boxes.now }
    requires order { r.0 ≤ℤ r.1 }
    requires members { (v : ℤ) → in_range r v ≡ true → has (box_of boxes.now x) v ≡ true }
    ensures none { not (is_some result) ≡ none_refutes con.now boxes.now x
        (values_from (width r.0 r.1) r.0) }
    ensures some { IfSome result (λ v. IsCulprit con.now boxes.now x v.value) }
{
    first_between(con, boxes, x, start_of(r), end_of(r))
}

/// The first value of the ranges, which are those of the box of `x`, that refutes the constraint.
fn first_in_ranges(con: &Con, boxes: &[IntSet], x: u32, ranges: &[(i64, i64)]) -> Option<Number>
    requires named { IsNamed con.now boxes.now }
    requires bounded { IsBounded con.now boxes.now }
    requires var { x < length boxes.now }
    requires of_x { ranges.now ≡ box_of boxes.now x }
    requires valid { IsValid ranges.now }
    ensures none { not (is_some result) ≡ none_refutes con.now boxes.now x (values_of ranges.now) }
    ensures some { IfSome result (λ v. IsCulprit con.now boxes.now x v.value) }
{
    for r in ranges {
        let found = first_in_range(con, boxes, x, *r);
        if found.is_some() {
            return found;
        }
    }
    None
}

/// The first value of the box of `x` that refutes the constraint.
fn first_of_all(con: &Con, boxes: &[IntSet], x: u32) -> Option<Number>
    requires named { IsNamed con.now boxes.now }
    requires bounded { IsBounded con.now boxes.now }
    requires var { x < length boxes.now }
    ensures none { not (is_some result) ≡ none_refutes con.now boxes.now x
        (values_of (box_of boxes.now x)) }
    ensures some { IfSome result (λ v. IsCulprit con.now boxes.now x v.value) }
{
    first_in_ranges(con, boxes, x, boxes[x as usize].ranges())
}

/// The least or the greatest value of the box of `x`, which isn't empty, where it refutes the
/// constraint.
fn first_of_ends(con: &Con, boxes: &[IntSet], x: u32) -> Option<Number>
    requires named { IsNamed con.now boxes.now }
    requires bounded { IsBounded con.now boxes.now }
    requires var { x < length boxes.now }
    requires some { is_nil (box_of boxes.now x) ≡ false }
    ensures none { not (is_some result) ≡ none_refutes con.now boxes.now x
        (low_of (box_of boxes.now x) ∷ high_of (box_of boxes.now x) ∷ []) }
    ensures some { IfSome result (λ v. IsCulprit con.now boxes.now x v.value) }
{
    let ends = set_ends(&boxes[x as usize]);
    if does_value_refute(con, boxes, x, ends.0) {
        Some(ends.0)
    } else if does_value_refute(con, boxes, x, ends.1) {
        Some(ends.1)
    } else {
        None
    }
}

/// The least and the greatest value of a set that isn't empty.
#[tactic(auto, using(box_view::proofs::EndLaws::has_low, box_view::proofs::EndLaws::has_high))]
fn set_ends(set: &IntSet) -> (Number, Number)
    requires { is_nil set.now ≡ false }
    ensures low { result.0.value ≡ low_of set.now }
    ensures high { result.1.value ≡ high_of set.now }
    ensures low_in { has set.now result.0.value ≡ true }
    ensures high_in { has set.now result.1.value ≡ true }
{
    set.ranges();
    let ends = ends_of(set);
    (start_of(ends), end_of(ends))
}

/// The first probed value of the box of `x` that refutes the constraint when it stands alone there.
#[tactic(auto, using(crate::proofs::QuietLaws::many_some, crate::proofs::QuietLaws::few_probed, crate::proofs::QuietLaws::many_probed))]
pub fn first_at(con: &Con, boxes: &[IntSet], x: u32) -> Option<Number>
    requires named { IsNamed con.now boxes.now }
    requires bounded { IsBounded con.now boxes.now }
    requires var { x < length boxes.now }
    ensures none { not (is_some result) ≡ none_refutes con.now boxes.now x
        (probed (box_of boxes.now x)) }
    ensures some { IfSome result (λ v. IsCulprit con.now boxes.now x v.value) }
{
    if boxes[x as usize].at_most(64) {
        first_of_all(con, boxes, x)
    } else {
        first_of_ends(con, boxes, x)
    }
}

/// Whether no probed value of the box of the variable at the index refutes the constraint.
#[tactic(auto, using(crate::proofs::VarWalks::variable_named))]
fn is_quiet_at(con: &Con, boxes: &[IntSet], i: usize) -> bool
    requires named { IsNamed con.now boxes.now }
    requires bounded { IsBounded con.now boxes.now }
    ensures { IfSome (slice_get (vars_of con.now) i) (λ x. result ≡ none_refutes con.now boxes.now x
        (probed (box_of boxes.now x))) }
{
    match con.variable(i) {
        Some(x) => first_at(con, boxes, x).is_none(),
        None => true,
    }
}

/// Whether no probed value of a variable of the constraint refutes it when it stands alone in its
/// box. The constraint is quiet where that is so and the boxes don't refute it.
#[tactic(auto, using(crate::proofs::VarWalks::nothing_left))]
pub fn are_all_quiet(con: &Con, boxes: &[IntSet]) -> bool
    requires named { IsNamed con.now boxes.now }
    requires bounded { IsBounded con.now boxes.now }
    ensures { result ≡ quiet_at con.now boxes.now (vars_of con.now) }
{
    for i in 0..con.variable_count() {
        if !is_quiet_at(con, boxes, i) {
            return false;
        }
    }
    true
}
