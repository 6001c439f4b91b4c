//! The functions that pick by the orders. Each walks the searched boxes once, copies none of them,
//! and takes no memory. Each answers None exactly where all searched boxes are single values.
ghost use Rattle.std.specs.Prelude.{◌≡◌, ◌<◌, ◌+◌, false, length};
ghost use Rattle.signed_clause.specs.Clauses.{Boxes, box_of};
ghost use Rattle.branch_choice.specs.declared.split.Order.TheVariants as orders;
ghost use Rattle.branch_choice.specs.Picks.{is_single, IsAsked, IsPick};
ghost use Rattle.branch_choice.specs.Walks.{IsFirstBelow, IsSmallestBelow};

use crate::halves::{count_at, hint_split, is_decided, least_split};
use crate::split::Split;
use signed_clause::IntSet;

/// The least undecided variable, and its least value. It costs a look at each box up to that one.
pub fn first(boxes: &[IntSet], hints: &[Option<i64>], search: u32) -> Option<Split>
    requires { IsAsked boxes.now hints.now search }
    ensures { IsPick orders.First boxes.now hints.now search result }
{
    for var in 0..search {
        if !is_decided(boxes, var) {
            return Some(least_split(boxes, var));
        }
    }
    None
}

/// A variable, and how many values its box has.
#[derive(Clone, Copy)]
struct Size {
    var: u32,
    count: u128,
}

/// The size of the box of `x` where it is smaller than the smallest one before, else that one.
fn smaller(smallest: Option<Size>, boxes: &[IntSet], x: u32) -> Option<Size>
    requires there { x < length boxes.now }
    requires several { is_single (box_of boxes.now x) ≡ false }
    requires before { IsSmallestBelow boxes.now x smallest }
    ensures { IsSmallestBelow boxes.now (x + 1) result }
{
    let count = count_at(boxes, x);
    match smallest {
        Some(size) if size.count <= count => smallest,
        _ => Some(Size { var: x, count }),
    }
}

/// The undecided variable with fewest values, the least one of those that have as few, and its
/// least value. It costs a walk over the ranges of all searched boxes.
pub fn small(boxes: &[IntSet], hints: &[Option<i64>], search: u32) -> Option<Split>
    requires { IsAsked boxes.now hints.now search }
    ensures { IsPick orders.Small boxes.now hints.now search result }
{
    let mut smallest = None;
    for x in 0..search {
        if !is_decided(boxes, x) {
            smallest = smaller(smallest, boxes, x);
        }
    }
    match smallest {
        Some(size) => Some(least_split(boxes, size.var)),
        None => None,
    }
}

/// The first undecided variable, where `x` is one and `undecided` the first before it.
fn or_first(undecided: Option<u32>, x: u32) -> Option<u32>
    ensures { (boxes : Boxes) → IsFirstBelow boxes x undecided
        → is_single (box_of boxes x) ≡ false → IsFirstBelow boxes (x + 1) result }
{
    match undecided {
        Some(_) => undecided,
        None => Some(x),
    }
}

/// The least undecided variable whose hint is in its box, and that hint; where there is none, the
/// least undecided variable and its least value. It costs a look-up in each box up to that one.
pub fn former(boxes: &[IntSet], hints: &[Option<i64>], search: u32) -> Option<Split>
    requires { IsAsked boxes.now hints.now search }
    ensures { IsPick orders.Former boxes.now hints.now search result }
{
    let mut undecided = None;
    for x in 0..search {
        if !is_decided(boxes, x) {
            if let Some(split) = hint_split(boxes, hints, x) {
                return Some(split);
            }
            undecided = or_first(undecided, x);
        }
    }
    match undecided {
        Some(x) => Some(least_split(boxes, x)),
        None => None,
    }
}
