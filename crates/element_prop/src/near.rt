//! Which items an index may pick.
//!
//! An element over many objects has an item for each, and most calls come with an index that has
//! few values left. Where items stand in the order of their values, as grounding makes them, two
//! searches by halves find those of the index's box. No contract promises that order, so what is
//! found is a guess, and the walk over them counts whether it is right: as many items as the index
//! has values are all that it may pick, since items' values are distinct. Where they are fewer, all
//! items are looked at.
ghost use Rattle.std.specs.Prelude.{◌≡◌, ◌≤◌, ◌+◌, ℕ, drop, length};
ghost use Rattle.signed_clause.specs.Ranges.{has};
ghost use Rattle.element_prop.specs.Elements.{count_possible};
ghost use Rattle.element_prop.specs.Near.{IsNear};

use ground_form::{Number, ends_of};
use signed_clause::IntSet;

/// Where the items stand that an index may pick.
#[derive(Clone, Copy)]
pub struct Near {
    /// Where they begin.
    pub from: usize,
    /// Where they end.
    pub to: usize,
    /// Whether each value of the index is known to be an item's.
    pub full: bool,
    /// Whether none of them is known to have the variable of out or of the index.
    pub apart: bool,
}

/// The number of a value.
fn number(value: i64) -> Number
    ensures { result.value ≡ value }
{
    Number { value }
}

/// Whether the item's value is less.
fn is_before(t: (i64, u32), n: Number) -> bool {
    t.0 < n.value
}

/// The place of the first item with no lesser value, where items ascend; else some place.
fn first_from(items: &[(i64, u32)], n: Number) -> usize
    ensures { result ≤ length items.now }
{
    let mut low = 0;
    let mut high = items.len();
    while low < high {
        let middle = low + (high - low) / 2;
        if is_before(items[middle], n) {
            low = middle + 1;
        } else {
            high = middle;
        }
    }
    low
}

/// Whether the item has the value.
fn is_at(t: (i64, u32), n: Number) -> bool {
    t.0 == n.value
}

/// The place behind the last item with no greater value, where items ascend; else some place.
fn end_of(items: &[(i64, u32)], n: Number) -> usize
    ensures { result ≤ length items.now }
{
    let at = first_from(items, n);
    if at < items.len() && is_at(items[at], n) {
        at + 1
    } else {
        at
    }
}

/// Whether the index can be the item's value.
pub fn is_possible(t: (i64, u32), index: &IntSet) -> bool
    ensures { result ≡ has index.now t.0 }
{
    index.contains(t.0)
}

/// Of how many items from one place up to another one the index can have the value.
pub fn possible_items(items: &[(i64, u32)], from: usize, to: usize, index: &IntSet) -> usize
    requires order { from ≤ to }
    requires within { to ≤ length items.now }
    ensures { result + count_possible (drop to items.now) index.now
        ≡ count_possible (drop from items.now) index.now }
{
    let mut count = 0;
    let mut i = from;
    while i < to {
        if is_possible(items[i], index) {
            count += 1;
        }
        i += 1;
    }
    count
}

/// All items.
#[tactic(auto, using(crate::proofs::NearLaws::near_all))]
pub fn all_items(items: &[(i64, u32)], index: &IntSet) -> Near
    ensures { IsNear items.now index.now result }
{
    let near = Near {
        from: 0,
        to: items.len(),
        full: false,
        apart: false,
    };
    near
}

/// The place, but no earlier one than the other.
fn later(at: usize, from: usize) -> usize
    ensures order { from ≤ result }
    ensures within { (n : ℕ) → at ≤ n → from ≤ n → result ≤ n }
{
    if at < from { from } else { at }
}

/// Where the items stand that the index may pick, where items ascend; else some places. It costs
/// two searches by halves.
pub fn near_items(items: &[(i64, u32)], index: &IntSet) -> Near
    ensures order { result.from ≤ result.to }
    ensures within { result.to ≤ length items.now }
{
    let ends = ends_of(index);
    let from = first_from(items, number(ends.0));
    let to = later(end_of(items, number(ends.1)), from);
    let near = Near {
        from,
        to,
        full: false,
        apart: false,
    };
    near
}
