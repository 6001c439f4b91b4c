//! A table of splits: what choosers of each order pick of given boxes and hints, one of them with a
//! function of the test's own.
ghost use Rattle.std.specs.Prelude.{◌≡◌, ◌<◌, true, false, length};
ghost use Rattle.signed_clause.specs.Ranges.{has, is_nil};
ghost use Rattle.signed_clause.specs.Clauses.{box_of};
ghost use Rattle.signed_clause.specs.SetAlgebra.{is_disjoint, is_within};
ghost use Rattle.branch_choice.specs.declared.split.Order.TheVariants as orders;
ghost use Rattle.branch_choice.specs.Picks.{half_of, is_single, IsAsked, IsPick};

use crate::choosing::is_asked;
use crate::given::sets_of_bits;
use branch_choice::{Chooser, Order, Pick, Split, first, former, small};
use signed_clause::IntSet;
use std::alloc::{AllocError, Global};

/// The box of `x`.
fn box_at(boxes: &[IntSet], x: u32) -> &IntSet
    requires { x < length boxes.now }
    ensures { result.now ≡ box_of boxes.now x }
{
    &boxes[x as usize]
}

/// The split of `var` at one of several values of its box.
#[tactic(auto, using(branch_choice::proofs::SetSplits::value_taken, branch_choice::proofs::SetSplits::value_left))]
fn split_at(set: &IntSet, var: u32, value: i64) -> Split
    requires member { has set.now value ≡ true }
    requires several { is_single set.now ≡ false }
    ensures var { result.var ≡ var }
    ensures taken { is_disjoint (half_of result) set.now ≡ false }
    ensures left { is_within set.now (half_of result) ≡ false }
{
    set.ranges();
    Split {
        var,
        value,
        upto: false,
    }
}

/// The split of `x` at the greatest value of its box.
fn greatest_split(boxes: &[IntSet], x: u32) -> Split
    requires there { x < length boxes.now }
    requires some { is_nil (box_of boxes.now x) ≡ false }
    requires several { is_single (box_of boxes.now x) ≡ false }
    ensures var { result.var ≡ x }
    ensures taken { is_disjoint (half_of result) (box_of boxes.now x) ≡ false }
    ensures left { is_within (box_of boxes.now x) (half_of result) ≡ false }
{
    let set = box_at(boxes, x);
    match set.greatest() {
        Some(value) => split_at(set, x, value),
        None => unreachable!(),
    }
}

/// The greatest value of the first undecided variable.
fn greatest(boxes: &[IntSet], hints: &[Option<i64>], search: u32) -> Option<Split>
    requires { IsAsked boxes.now hints.now search }
    ensures { IsPick orders.Own boxes.now hints.now search result }
{
    match first(boxes, hints, search) {
        Some(split) => Some(greatest_split(boxes, split.var)),
        None => None,
    }
}

/// A variable and a value of it; none where nothing is left to split.
type Value = Option<(u32, i64)>;

/// Boxes and hints, and what is picked of them by each order.
#[derive(Clone, Copy)]
struct Row<'a> {
    /// The boxes, as bits.
    boxes: &'a [u32],
    /// The hints.
    hints: &'a [Option<i64>],
    /// How many variables are searched.
    search: u32,
    first: Value,
    small: Value,
    former: Value,
    greatest: Value,
}

/// What the chooser picks of the row, where it is asked and takes one value alone.
fn picked(alloc: Global, chooser: &Chooser, row: &Row) -> Result<Option<Value>, AllocError> {
    let boxes = sets_of_bits(alloc, row.boxes)?;
    if !is_asked(boxes.as_slice(), row.hints, row.search) {
        return Ok(None);
    }
    match chooser.choose(boxes.as_slice(), row.hints, row.search) {
        Some(split) if split.upto => Ok(None),
        Some(split) => Ok(Some(Some((split.var, split.value)))),
        None => Ok(Some(None)),
    }
}

#[test]
fn choosers_pick_given_splits(rt: HostRuntime) -> Result<(), AllocError> {
    let alloc = rt.alloc();
    let by_first: Pick = Box::new(
        alloc,
        move |boxes: &[IntSet], hints: &[Option<i64>], search: u32| -> Option<Split>
            requires { IsAsked boxes.now hints.now search }
            ensures { IsPick orders.First boxes.now hints.now search result }
        { first(boxes, hints, search) },
    )?;
    let by_small: Pick = Box::new(
        alloc,
        move |boxes: &[IntSet], hints: &[Option<i64>], search: u32| -> Option<Split>
            requires { IsAsked boxes.now hints.now search }
            ensures { IsPick orders.Small boxes.now hints.now search result }
        { small(boxes, hints, search) },
    )?;
    let by_former: Pick = Box::new(
        alloc,
        move |boxes: &[IntSet], hints: &[Option<i64>], search: u32| -> Option<Split>
            requires { IsAsked boxes.now hints.now search }
            ensures { IsPick orders.Former boxes.now hints.now search result }
        { former(boxes, hints, search) },
    )?;
    let by_greatest: Pick = Box::new(
        alloc,
        move |boxes: &[IntSet], hints: &[Option<i64>], search: u32| -> Option<Split>
            requires { IsAsked boxes.now hints.now search }
            ensures { IsPick orders.Own boxes.now hints.now search result }
        { greatest(boxes, hints, search) },
    )?;
    let by_first = Chooser::new(Order::First, by_first);
    let by_small = Chooser::new(Order::Small, by_small);
    let by_former = Chooser::new(Order::Former, by_former);
    let by_greatest = Chooser::new(Order::Own, by_greatest);
    for row in [
        // the second has fewest values; hints of the last two are in their boxes
        Row {
            boxes: &[0b1101, 0b110, 0b1110],
            hints: &[Some(1), Some(2), Some(1)],
            search: 3,
            first: Some((0, 0)),
            small: Some((1, 1)),
            former: Some((1, 2)),
            greatest: Some((0, 3)),
        },
        // of two that have as few values the first is taken, and of two hints too
        Row {
            boxes: &[0b1, 0b111, 0b101000, 0b11],
            hints: &[Some(0), None, Some(5), Some(1)],
            search: 4,
            first: Some((1, 0)),
            small: Some((2, 3)),
            former: Some((2, 5)),
            greatest: Some((1, 2)),
        },
        // no hint is in its box, and that of a single value counts for nothing
        Row {
            boxes: &[0b100, 0b1010, 0b11],
            hints: &[Some(2), Some(2), Some(-1)],
            search: 3,
            first: Some((1, 1)),
            small: Some((1, 1)),
            former: Some((1, 1)),
            greatest: Some((1, 3)),
        },
        // only the searched ones count
        Row {
            boxes: &[0b1000, 0b1, 0b11],
            hints: &[Some(3), None],
            search: 2,
            first: None,
            small: None,
            former: None,
            greatest: None,
        },
        // nothing is searched
        Row {
            boxes: &[],
            hints: &[],
            search: 0,
            first: None,
            small: None,
            former: None,
            greatest: None,
        },
    ] {
        assert_eq!(rt; picked(alloc, &by_first, &row)?, Some(row.first));
        assert_eq!(rt; picked(alloc, &by_small, &row)?, Some(row.small));
        assert_eq!(rt; picked(alloc, &by_former, &row)?, Some(row.former));
        assert_eq!(rt; picked(alloc, &by_greatest, &row)?, Some(row.greatest));
    }
    Ok(())
}
