//! A function that picks the greatest value of the first undecided variable.
ghost use Rattle.std.specs.Prelude.{◌≡◌, ◌<◌, true, false, length};
ghost use Rattle.signed_clause.specs.Ranges.{has, is_nil};
ghost use Rattle.signed_clause.specs.SetAlgebra.{is_disjoint, is_within};
ghost use Rattle.signed_clause.specs.Clauses.{box_of};
ghost use Rattle.branch_choice.specs.declared.split.Order.TheVariants as orders;
ghost use Rattle.branch_choice.specs.Picks.{is_single, half_of, IsAsked, IsPick};

use branch_choice::{Split, first};
use signed_clause::IntSet;

/// The split of `var` at one of several values of its box.
#[tactic(auto, using(branch_choice::proofs::SetSplits::value_taken, branch_choice::proofs::SetSplits::value_left))]
fn split_at(set: &IntSet, var: u32, value: i64) -> Split
    requires member { has set.now value ≡ true }
    requires several { is_single set.now ≡ false }
    ensures var { result.var ≡ var }
    ensures taken { is_disjoint (half_of result) set.now ≡ false }
    ensures left { is_within set.now (half_of result) ≡ false }
{
    set.ranges();
    Split {
        var,
        value,
        upto: false,
    }
}

/// The split of `x` at the greatest value of its box.
fn greatest_split(boxes: &[IntSet], x: u32) -> Split
    requires there { x < length boxes.now }
    requires some { is_nil (box_of boxes.now x) ≡ false }
    requires several { is_single (box_of boxes.now x) ≡ false }
    ensures var { result.var ≡ x }
    ensures taken { is_disjoint (half_of result) (box_of boxes.now x) ≡ false }
    ensures left { is_within (box_of boxes.now x) (half_of result) ≡ false }
{
    let set = &boxes[x as usize];
    match set.greatest() {
        Some(value) => split_at(set, x, value),
        None => unreachable!(),
    }
}

/// The greatest value of the first undecided variable.
pub(crate) fn greatest(boxes: &[IntSet], hints: &[Option<i64>], search: u32) -> Option<Split>
    requires { IsAsked boxes.now hints.now search }
    ensures { IsPick orders.Own boxes.now hints.now search result }
{
    match first(boxes, hints, search) {
        Some(Split { var, .. }) => Some(greatest_split(boxes, var)),
        None => None,
    }
}
