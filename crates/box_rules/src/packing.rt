//! Items to be packed, over a view of boxes.
//!
//! Two loads are compared with room: at a bin where items are fixed, and over all bins. Of at
//! most 64 items the first is told by a row on the stack (`fixed_items`). The room of all bins is
//! added up from value to value, from where the first bin's box begins to where the last one's
//! ends. Values that no bin may be are passed over: a walk over the items is made for each value
//! that some bin may be, and two for each gap between such values.
ghost use Rattle.std.specs.Prelude.{◌≡◌, ◌<◌, ◌≤◌, ◌≤ℤ◌, ◌<ℤ◌, ◌^◌, ◌-◌, ◌&&◌, ◌||◌, ◌+ℤ◌, ℤ, false, cond, pos, int_lt, length};
ghost use Rattle.std.specs.Int.{int_max, int_min};
ghost use Rattle.std.specs.List.{All};
ghost use Rattle.signed_clause.specs.Ranges.{has};
ghost use Rattle.signed_clause.specs.Clauses.{box_of};
ghost use Rattle.ground_form.specs.Bounds.{low_of, high_of};
ghost use Rattle.box_rules.specs.Refuted.{fixed_at, fixed_load, overfull, some_overfull, least_sizes, best_room, rooms_from, first_bin, last_bin, width, all_room};
ghost use Rattle.box_rules.specs.Named.{AreItemsNamed, IsItemNamed};

use crate::fixed_items::are_few_overfull;
use crate::flags::{greatest, is_fixed_at, least};
use crate::total::WideSum;
use box_view::{View, greater, is_below, next, smaller};
use ground_form::Number;

/// The load with the item's least size, where its bin is fixed at the value.
fn with_load<V: View>(load: WideSum, i: (u32, u32, u32), view: &V, at: Number) -> WideSum
    requires item { IsItemNamed i (V.boxes view.now) }
    requires low { pos 0 ≤ℤ (load.value +ℤ pos (2 ^ 127 - 2 ^ 63)) }
    requires high { load.value ≤ℤ pos (2 ^ 127 - 2 ^ 63) }
    ensures load { result.value ≡ cond (fixed_at (box_of (V.boxes view.now) i.0) at.value)
        (load.value +ℤ low_of (box_of (V.boxes view.now) i.1)) load.value }
    ensures low { load.value ≤ℤ (result.value +ℤ pos (2 ^ 63)) }
    ensures high { result.value ≤ℤ (load.value +ℤ pos (2 ^ 63 - 1)) }
{
    if is_fixed_at(view, i.0, at) {
        load.plus(least(view, i.1))
    } else {
        load
    }
}

/// The least sizes of the items whose bin is fixed at the value, added up.
fn fixed_load<V: View>(view: &V, items: &[(u32, u32, u32)], at: Number) -> WideSum
    requires { AreItemsNamed items.now (V.boxes view.now) }
    ensures { result.value ≡ fixed_load at.value items.now (V.boxes view.now) }
{
    let mut load = WideSum { value: 0 };
    for i in items {
        load = with_load(load, *i, view, at);
    }
    load
}

/// Whether the item's bin is fixed, and the load there is more than its greatest room.
fn is_overfull<V: View>(view: &V, items: &[(u32, u32, u32)], i: (u32, u32, u32)) -> bool
    requires item { IsItemNamed i (V.boxes view.now) }
    requires items { AreItemsNamed items.now (V.boxes view.now) }
    ensures { result ≡ overfull i items.now (V.boxes view.now) }
{
    let at = least(view, i.0);
    is_fixed_at(view, i.0, at) && fixed_load(view, items, at).is_above(greatest(view, i.2))
}

/// Whether some item's bin is so.
fn is_some_overfull<V: View>(view: &V, items: &[(u32, u32, u32)]) -> bool
    requires { AreItemsNamed items.now (V.boxes view.now) }
    ensures { result ≡ some_overfull items.now items.now (V.boxes view.now) }
{
    for i in items {
        if is_overfull(view, items, *i) {
            return true;
        }
    }
    false
}

/// Whether the bin of some item is overfull. Of at most 64 items those whose bins are fixed are
/// kept in a row.
fn has_overfull<V: View>(view: &V, items: &[(u32, u32, u32)]) -> bool
    requires { AreItemsNamed items.now (V.boxes view.now) }
    ensures { result ≡ some_overfull items.now items.now (V.boxes view.now) }
{
    if items.len() <= 64 {
        are_few_overfull(view, items)
    } else {
        is_some_overfull(view, items)
    }
}

/// All least sizes, added up.
fn least_sizes<V: View>(view: &V, items: &[(u32, u32, u32)]) -> WideSum
    requires { AreItemsNamed items.now (V.boxes view.now) }
    ensures { result.value ≡ least_sizes items.now (V.boxes view.now) }
{
    let mut sum = WideSum { value: 0 };
    for i in items {
        sum = sum.plus(least(view, i.1));
    }
    sum
}

/// Whether the bin's box has the value.
fn may_be_at<V: View>(view: &V, bin: u32, at: Number) -> bool
    requires { bin < length (V.boxes view.now) }
    ensures { result ≡ has (box_of (V.boxes view.now) bin) at.value }
{
    view.has(bin, at.value)
}

/// The greatest room so far, with the item's where its bin's box has the value.
fn with_room<V: View>(best: Number, i: (u32, u32, u32), view: &V, at: Number) -> Number
    requires item { IsItemNamed i (V.boxes view.now) }
    ensures { result.value ≡ cond (has (box_of (V.boxes view.now) i.0) at.value)
        (int_max best.value (high_of (box_of (V.boxes view.now) i.2))) best.value }
{
    let room = greatest(view, i.2);
    if is_below(best, room) && may_be_at(view, i.0, at) {
        room
    } else {
        best
    }
}

/// The greater of 0 and the greatest room among the items whose bin's box has the value.
fn best_room<V: View>(view: &V, items: &[(u32, u32, u32)], at: Number) -> Number
    requires { AreItemsNamed items.now (V.boxes view.now) }
    ensures { result.value ≡ best_room at.value items.now (V.boxes view.now) }
{
    let mut best = Number { value: 0 };
    for i in items {
        best = with_room(best, *i, view, at);
    }
    best
}

/// The least of the number and what the bins' boxes begin with.
fn first_bin<V: View>(view: &V, items: &[(u32, u32, u32)], from: Number) -> Number
    requires { AreItemsNamed items.now (V.boxes view.now) }
    ensures value { result.value ≡ first_bin from.value items.now (V.boxes view.now) }
    ensures order { result.value ≤ℤ from.value }
{
    let mut first = from;
    for i in items {
        first = smaller(first, least(view, i.0));
    }
    first
}

/// The greatest of the number and what the bins' boxes end with.
fn last_bin<V: View>(view: &V, items: &[(u32, u32, u32)], from: Number) -> Number
    requires { AreItemsNamed items.now (V.boxes view.now) }
    ensures value { result.value ≡ last_bin from.value items.now (V.boxes view.now) }
    ensures order { from.value ≤ℤ result.value }
{
    let mut last = from;
    for i in items {
        last = greater(last, greatest(view, i.0));
    }
    last
}

/// The smaller of the number and the first value from `from` on that the item's bin may be.
fn with_bin<V: View>(next: Number, i: (u32, u32, u32), view: &V, from: Number) -> Number
    requires item { IsItemNamed i (V.boxes view.now) }
    requires order { from.value ≤ℤ next.value }
    ensures from { from.value ≤ℤ result.value }
    ensures upto { result.value ≤ℤ next.value }
    ensures none_before { (u : ℤ) → from.value ≤ℤ u → u <ℤ result.value
        → has (box_of (V.boxes view.now) i.0) u ≡ false }
{
    match view.first_from(i.0, from) {
        Some(first) => smaller(next, first),
        None => next,
    }
}

/// The first value from `from` on that some bin may be, or `last` where that is less.
fn next_bin<V: View>(view: &V, items: &[(u32, u32, u32)], from: Number, last: Number) -> Number
    requires items { AreItemsNamed items.now (V.boxes view.now) }
    requires order { from.value ≤ℤ last.value }
    ensures from { from.value ≤ℤ result.value }
    ensures upto { result.value ≤ℤ last.value }
    ensures none_before { (u : ℤ) → from.value ≤ℤ u → u <ℤ result.value
        → best_room u items.now (V.boxes view.now) ≡ pos 0 }
{
    let mut next = last;
    for i in items {
        next = with_bin(next, *i, view, from);
    }
    next
}

/// The value behind `at` that is looked at next. Where there is no room at `at`, it may be that no
/// bin can be the values behind it either, and those are passed over.
fn bin_behind<V: View>(
    view: &V,
    items: &[(u32, u32, u32)],
    at: Number,
    room: Number,
    last: Number,
) -> Number
    requires items { AreItemsNamed items.now (V.boxes view.now) }
    requires order { at.value <ℤ last.value }
    ensures behind { at.value <ℤ result.value }
    ensures upto { result.value ≤ℤ last.value }
    ensures none_before { (u : ℤ) → at.value <ℤ u → u <ℤ result.value
        → best_room u items.now (V.boxes view.now) ≡ pos 0 }
{
    let from = next(at, last);
    if room.value == 0 {
        next_bin(view, items, from, last)
    } else {
        from
    }
}

/// The best rooms of the values from `first` to `last`, added up. Values that no bin may be have no
/// room, and one step passes over all of them up to the next that some bin may be.
fn rooms_between<V: View>(
    view: &V,
    items: &[(u32, u32, u32)],
    first: Number,
    last: Number,
) -> WideSum
    requires items { AreItemsNamed items.now (V.boxes view.now) }
    requires order { first.value ≤ℤ last.value }
    ensures { result.value ≡ rooms_from (width first.value last.value) first.value items.now
        (V.boxes view.now) }
{
    let mut at = first;
    let mut room = best_room(view, items, at);
    let mut sum = WideSum { value: 0 }.plus(room);
    while is_below(at, last) {
        at = bin_behind(view, items, at, room, last);
        room = best_room(view, items, at);
        sum = sum.plus(room);
    }
    sum
}

/// The room of all bins.
fn all_room<V: View>(view: &V, items: &[(u32, u32, u32)]) -> WideSum
    requires { AreItemsNamed items.now (V.boxes view.now) }
    ensures { result.value ≡ all_room items.now (V.boxes view.now) }
{
    match items {
        [] => WideSum { value: 0 },
        [head, rest @ ..] => {
            let ends = view.ends(head.0);
            let first = first_bin(view, rest, Number { value: ends.0 });
            let last = last_bin(view, rest, Number { value: ends.1 });
            rooms_between(view, items, first, last)
        }
    }
}

/// The rule of items to be packed.
pub fn excludes_packing<V: View>(view: &V, items: &[(u32, u32, u32)]) -> bool
    requires { AreItemsNamed items.now (V.boxes view.now) }
    ensures { result ≡ (some_overfull items.now items.now (V.boxes view.now)
        || int_lt (all_room items.now (V.boxes view.now))
        (least_sizes items.now (V.boxes view.now))) }
{
    has_overfull(view, items) || least_sizes(view, items).is_more_than(all_room(view, items))
}
