//! Whether items to be packed have slack: whether each fits wherever it may be put, and there is
//! room enough in all.
//!
//! A `Survey` counts them bin by bin. From the first bin to the last (`look_over`) its numbers
//! decide nearly always that all items fit there; only where they don't is there a walk over the
//! items. On the way it adds up what room of each bin stays whichever box is narrowed: its second
//! greatest, of which the bin's numbers show a lower bound (`least_second`).
//!
//! Cost: the number of items, of the ranges of their bins' boxes and of bins, where the items have
//! slack.
//!
//! Where the lower bound of the second greatest rooms (an item whose bin and room are single values
//! counts twice) holds all sizes, no box that is narrowed to one value refutes the packing, and it
//! is quiet.
ghost use Rattle.std.specs.Prelude.{◌≡◌, ◌<◌, ◌≤◌, ◌≤ℤ◌, ◌+◌, ◌-◌, ◌+ℤ◌, ◌||◌, ◌&&◌, ℤ, true, false, cond, pos, IfSome, IfNone, IfOk, length};
ghost use Rattle.std.specs.Int.{int_max, int_min};
ghost use Rattle.std.specs.List.{All};
ghost use Rattle.signed_clause.specs.Ranges.{is_nil, IsValid};
ghost use Rattle.signed_clause.specs.Clauses.{box_of};
ghost use Rattle.ground_form.specs.Meaning.{item_vars};
ghost use Rattle.ground_form.specs.Bounds.{low_of, high_of};
ghost use Rattle.box_rules.specs.Refuted.{fixed_load, first_bin, last_bin, least_sizes};
ghost use Rattle.box_rules.specs.Named.{AreItemsNamed, IsItemNamed};
ghost use Rattle.rule_law.specs.Repeats.{is_one};
ghost use Rattle.pack_fit.specs.Packing.{tight_room, fits, all_fit, growth};
ghost use Rattle.pack_fit.specs.Survey.{IsCounted, IsSettled, AreCounted, AreBegun, AreEnded, all_gone_on, hits, open_size, open_floor, room_where, least_second};
ghost use Rattle.pack_fit.specs.Looks.{IsUnplaceable, IsSeen, IsWalked};

use crate::loads::{
    Load, greater, greatest, is_fixed, is_single, least, may_be, sizes_of, smaller,
};
use crate::survey::{BinCounts, Survey, with_growth};
use box_view::ends_in_order;
use ground_form::Number;
use signed_clause::IntSet;
use std::alloc::AllocError;

/// Whether the item fits at the value, of which the load and the tightest room are given.
fn does_fit(boxes: &[IntSet], i: (u32, u32, u32), at: Number, load: Load, tight: Number) -> bool
    requires { IsItemNamed i boxes.now }
    ensures { result ≡ fits at.value load.value tight.value i boxes.now }
{
    let low = least(boxes, i.1);
    if is_fixed(boxes, i.0, at) {
        load.is_upto_between(tight, greatest(boxes, i.1), low) && load.is_upto(least(boxes, i.2))
    } else {
        (load.is_upto_less(tight, low) && load.is_upto_less(greatest(boxes, i.2), low))
            || !may_be(boxes, i.0, at)
    }
}

/// The first item that doesn't fit at the value, of which the load and the tightest room are given,
/// where there is one.
fn unplaceable_at(
    items: &[(u32, u32, u32)],
    boxes: &[IntSet],
    at: Number,
    load: Load,
    tight: Number,
) -> Option<(u32, u32, u32)>
    requires named { AreItemsNamed items.now boxes.now }
    requires load { load.value ≡ fixed_load at.value items.now boxes.now }
    requires tight { tight.value ≡ tight_room at.value items.now boxes.now }
    ensures some { IfSome result (λ i. IsUnplaceable at.value i items.now boxes.now) }
    ensures none { IfNone result (all_fit at.value items.now items.now boxes.now ≡ true) }
{
    for i in items {
        if !does_fit(boxes, *i, at, load, tight) {
            return Some(*i);
        }
    }
    None
}

/// Bounds on the numbers of the items whose bin is open.
#[derive(Clone, Copy)]
struct Limits {
    /// The greatest of their least sizes, at least 0.
    size: Number,
    /// The least of their greatest rooms.
    floor: Number,
}

/// The bounds with one more item, if its bin is open.
fn with_limits(limits: Limits, i: (u32, u32, u32), boxes: &[IntSet]) -> Limits
    requires { IsItemNamed i boxes.now }
    ensures size { result.size.value ≡ cond (is_one (box_of boxes.now i.0)) limits.size.value
        (int_max (low_of (box_of boxes.now i.1)) limits.size.value) }
    ensures floor { result.floor.value ≡ cond (is_one (box_of boxes.now i.0)) limits.floor.value
        (int_min (high_of (box_of boxes.now i.2)) limits.floor.value) }
{
    if is_single(boxes, i.0) {
        return limits;
    }
    Limits {
        size: greater(least(boxes, i.1), limits.size),
        floor: smaller(greatest(boxes, i.2), limits.floor),
    }
}

/// The bounds on the items whose bin is open.
fn limits_of(items: &[(u32, u32, u32)], boxes: &[IntSet]) -> Limits
    requires { AreItemsNamed items.now boxes.now }
    ensures size { result.size.value ≡ open_size items.now boxes.now }
    ensures floor { result.floor.value ≡ open_floor items.now boxes.now }
{
    let mut limits = Limits {
        size: Number { value: 0 },
        floor: Number { value: i64::MAX },
    };
    let mut k = items.len();
    while 0 < k {
        k -= 1;
        limits = with_limits(limits, items[k], boxes);
    }
    limits
}

/// Whether the bin's numbers show that all items fit there, those that are fixed and, where
/// `is_open`, others that may be there.
fn is_settled(bin: BinCounts, is_open: bool, limits: Limits) -> bool
    ensures { result ≡ true → IsSettled bin is_open limits.size.value limits.floor.value }
{
    let size = Load::of(limits.size);
    bin.load.are_upto(bin.growth, bin.tight)
        && bin.load.is_upto(bin.room)
        && (!is_open
            || (bin.load.are_upto(size, bin.tight) && bin.load.are_upto(size, limits.floor)))
}

/// The first item that doesn't fit at the value, where `count` items may be, and where there is
/// one.
#[tactic(auto, using(crate::proofs::SurveyFits::settled_fit))]
fn unplaceable_here(
    items: &[(u32, u32, u32)],
    boxes: &[IntSet],
    at: Number,
    bin: BinCounts,
    count: usize,
    limits: Limits,
) -> Option<(u32, u32, u32)>
    requires named { AreItemsNamed items.now boxes.now }
    requires sets { All (λ s. IsValid s) boxes.now }
    requires bin { IsCounted bin at.value items.now boxes.now }
    requires count { count ≡ hits at.value items.now boxes.now }
    requires size { limits.size.value ≡ open_size items.now boxes.now }
    requires floor { limits.floor.value ≡ open_floor items.now boxes.now }
    ensures some { IfSome result (λ i. IsUnplaceable at.value i items.now boxes.now) }
    ensures none { IfNone result (all_fit at.value items.now items.now boxes.now ≡ true) }
{
    if is_settled(bin, bin.count < count, limits) {
        return None;
    }
    unplaceable_at(items, boxes, at, bin.load, bin.tight)
}

/// The room, at least 0, where it counts, and 0 where it doesn't.
fn room_where(counts: bool, room: Number) -> Number
    ensures { result.value ≡ room_where counts room.value }
{
    let none = Number { value: 0 };
    if counts { greater(none, room) } else { none }
}

/// What the second greatest room of the bin is at least, where `count` items may be, those that are
/// fixed among them, and each of the others has a room of `floor` at least.
fn least_second(bin: BinCounts, count: usize, floor: Number) -> Number
    requires { bin.count ≤ count }
    ensures { result.value ≡ least_second bin (count - bin.count) floor.value }
{
    let others = count - bin.count;
    let of_others = room_where(2 <= others, floor);
    let of_fixed = room_where(bin.frozen || 2 <= bin.count, bin.tight);
    let of_both = room_where(1 <= others && 1 <= bin.count, smaller(floor, bin.tight));
    greater(of_others, greater(of_fixed, of_both))
}

/// The number `d` behind the first.
fn behind(first: Number, d: usize) -> Number
    requires { (first.value +ℤ pos d) ≤ℤ pos 9223372036854775807 }
    ensures { result.value ≡ first.value +ℤ pos d }
{
    Number {
        value: first.value.saturating_add_unsigned(d as u64),
    }
}

/// What a walk from bin to bin comes to.
#[derive(Clone, Copy)]
enum Walk {
    /// The item doesn't fit at the value.
    Unplaceable(Number, (u32, u32, u32)),
    /// All fit, and the rooms that stay whichever box is narrowed add up to this at least.
    Room(Load),
}

/// Walks from bin to bin, of which the survey tells what is there.
fn look_over(
    survey: &Survey,
    items: &[(u32, u32, u32)],
    boxes: &[IntSet],
    first: Number,
    limits: Limits,
) -> Walk
    requires named { AreItemsNamed items.now boxes.now }
    requires sets { All (λ s. IsValid s) boxes.now }
    requires few { length items.now < 18446744073709551616 }
    requires begun_size { length survey.now.begun.items ≡ length survey.now.bins.items }
    requires ended_size { length survey.now.ended.items ≡ length survey.now.bins.items }
    requires within { (first.value +ℤ pos (length survey.now.bins.items)) ≤ℤ pos
        9223372036854775808 }
    requires bins { AreCounted survey.now.bins.items first.value items.now boxes.now }
    requires begun { AreBegun survey.now.begun.items first.value items.now boxes.now }
    requires ended { AreEnded survey.now.ended.items first.value items.now boxes.now }
    requires start { all_gone_on first.value items.now boxes.now ≡ 0 }
    requires size { limits.size.value ≡ open_size items.now boxes.now }
    requires floor { limits.floor.value ≡ open_floor items.now boxes.now }
    ensures { IsWalked result (length survey.now.bins.items) first.value items.now boxes.now }
{
    let mut sum = Load { value: 0 };
    let mut carried = 0;
    let mut d = 0;
    while d < survey.bins.len() {
        let count = carried + survey.begun[d];
        let at = behind(first, d);
        if let Some(i) = unplaceable_here(items, boxes, at, survey.bins[d], count, limits) {
            return Walk::Unplaceable(at, i);
        }
        sum = sum.plus(least_second(survey.bins[d], count, limits.floor));
        carried = count - survey.ended[d];
        d += 1;
    }
    Walk::Room(sum)
}

/// The greatest that a size can grow.
fn growth_of(items: &[(u32, u32, u32)], boxes: &[IntSet]) -> Load
    requires { AreItemsNamed items.now boxes.now }
    ensures { result.value ≡ growth items.now boxes.now }
{
    let mut most = Load { value: 0 };
    for i in items {
        most = with_growth(most, *i, boxes);
    }
    most
}

/// The least of the number and what the bins' boxes begin with.
pub fn first_bin(items: &[(u32, u32, u32)], boxes: &[IntSet], from: Number) -> Number
    requires { AreItemsNamed items.now boxes.now }
    ensures value { result.value ≡ first_bin from.value items.now boxes.now }
    ensures order { result.value ≤ℤ from.value }
{
    let mut first = from;
    for i in items {
        first = smaller(first, least(boxes, i.0));
    }
    first
}

/// The greatest of the number and what the bins' boxes end with.
pub fn last_bin(items: &[(u32, u32, u32)], boxes: &[IntSet], from: Number) -> Number
    requires { AreItemsNamed items.now boxes.now }
    ensures value { result.value ≡ last_bin from.value items.now boxes.now }
    ensures order { from.value ≤ℤ result.value }
{
    let mut last = from;
    for i in items {
        last = greater(last, greatest(boxes, i.0));
    }
    last
}

/// The least and the greatest value of the box of `x`.
pub fn ends_at(boxes: &[IntSet], x: u32) -> (Number, Number)
    requires { x < length boxes.now }
    ensures low { result.0.value ≡ low_of (box_of boxes.now x) }
    ensures high { result.1.value ≡ high_of (box_of boxes.now x) }
    ensures order { result.0.value ≤ℤ result.1.value }
{
    let ends = ends_in_order(&boxes[x as usize]);
    (Number { value: ends.0 }, Number { value: ends.1 })
}

/// Where the items' bins begin and end.
pub fn bins_of(
    items: &[(u32, u32, u32)],
    boxes: &[IntSet],
    head: (u32, u32, u32),
) -> (Number, Number)
    requires items { AreItemsNamed items.now boxes.now }
    requires head { IsItemNamed head boxes.now }
    ensures first { result.0.value ≡ first_bin (low_of (box_of boxes.now head.0)) items.now
        boxes.now }
    ensures last { result.1.value ≡ last_bin (high_of (box_of boxes.now head.0)) items.now
        boxes.now }
    ensures order { result.0.value ≤ℤ result.1.value }
{
    let ends = ends_at(boxes, head.0);
    let first = first_bin(items, boxes, ends.0);
    let last = last_bin(items, boxes, ends.1);
    (first, last)
}

/// The least sizes and the greatest growth, added up, where that is a number of 128 bits.
fn need_of(items: &[(u32, u32, u32)], boxes: &[IntSet]) -> Option<Load>
    requires { AreItemsNamed items.now boxes.now }
    ensures { IfSome result (λ t. t.value ≡ least_sizes items.now boxes.now +ℤ growth items.now
        boxes.now) }
{
    sizes_of(items, boxes).with(growth_of(items, boxes))
}

/// Whether the rooms, which add up to this at least, are enough for all.
fn is_enough(items: &[(u32, u32, u32)], boxes: &[IntSet], sum: Load) -> bool
    requires { AreItemsNamed items.now boxes.now }
    ensures { result ≡ true → (least_sizes items.now boxes.now +ℤ growth items.now boxes.now)
        ≤ℤ sum.value }
{
    match need_of(items, boxes) {
        Some(need) => need.is_at_most(sum),
        None => false,
    }
}

/// What is seen of items to be packed.
#[derive(Clone, Copy)]
pub enum Look {
    /// Each fits, and there is room enough.
    WithSlack,
    /// The item doesn't fit at the value.
    Unplaceable(Number, (u32, u32, u32)),
    /// Each fits; there may be too little room in all.
    Undecided,
}

/// What is seen of the items, of which the first is given.
fn look_between(
    survey: &mut Survey,
    items: &[(u32, u32, u32)],
    boxes: &[IntSet],
    head: (u32, u32, u32),
) -> Result<Look, AllocError>
    requires items { AreItemsNamed items.now boxes.now }
    requires few { length items.now < 18446744073709551616 }
    requires head { IsItemNamed head boxes.now }
    requires some { All (λ x. is_nil (box_of boxes.now x) ≡ false) (item_vars items.now) }
    requires sets { All (λ s. IsValid s) boxes.now }
    ensures { IfOk result (λ look. IsSeen look items.now boxes.now) }
{
    let (first, last) = bins_of(items, boxes, head);
    survey.fill(items, boxes, first, last)?;
    let limits = limits_of(items, boxes);
    match look_over(survey, items, boxes, first, limits) {
        Walk::Unplaceable(at, i) => Ok(Look::Unplaceable(at, i)),
        Walk::Room(sum) => {
            if is_enough(items, boxes, sum) {
                Ok(Look::WithSlack)
            } else {
                Ok(Look::Undecided)
            }
        }
    }
}

/// What is seen of the items. It takes memory where there were never as many bins.
///
/// # Errors
/// Want of memory.
pub fn look_at_items(
    survey: &mut Survey,
    items: &[(u32, u32, u32)],
    boxes: &[IntSet],
) -> Result<Look, AllocError>
    requires items { AreItemsNamed items.now boxes.now }
    requires some { All (λ x. is_nil (box_of boxes.now x) ≡ false) (item_vars items.now) }
    requires sets { All (λ s. IsValid s) boxes.now }
    ensures { IfOk result (λ look. IsSeen look items.now boxes.now) }
{
    if items.is_empty() {
        return Ok(Look::Undecided);
    }
    look_between(survey, items, boxes, items[0])
}
