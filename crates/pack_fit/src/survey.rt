//! A survey of items to be packed: what a look at all of them needs to know of each bin, counted in
//! one pass.
//!
//! `Survey::fill` counts, for each value from the first bin to the last, what stands fixed there
//! (`BinCounts`) and how many ranges of the bins' boxes begin and end there. Added up from value to
//! value, the latter tell how many items may be at each.
//!
//! Of each bin are counted, over the items that are fixed there: the load, the tightest room, the
//! least room, the growth of a size, and how many they are. Where the ranges of the bins' boxes
//! begin and end, added up from bin to bin, tells how many items may be there.
ghost use Rattle.std.specs.Prelude.{◌≡◌, ◌<◌, ◌≤◌, ◌≤ℤ◌, ◌+◌, ◌-◌, ◌^◌, ◌+ℤ◌, ◌-ℤ◌, ◌||◌, ℕ, ℤ, [], suc, pos, cond, IfOk, IfSome, OnErr, length, drop, true, slice_index_or};
ghost use Rattle.std.specs.Int.{int_max, int_min};
ghost use Rattle.std.specs.List.{All};
ghost use Rattle.std.specs.Ordering.{int_eq};
ghost use Rattle.signed_clause.specs.Ranges.{IsValid};
ghost use Rattle.signed_clause.specs.Clauses.{Boxes, box_of};
ghost use Rattle.ground_form.specs.Bounds.{low_of, high_of};
ghost use Rattle.box_rules.specs.Refuted.{fixed_at, width};
ghost use Rattle.box_rules.specs.Named.{AreItemsNamed, IsItemNamed};
ghost use Rattle.rule_law.specs.Repeats.{is_one};
ghost use Rattle.pack_fit.specs.Survey.{IsCounted, AreCounted, AreBegun, AreEnded, begun_at, ended_at, is_slot};

use crate::loads::{Load, greatest, is_single, least, ranges_at, smaller};
use ground_form::Number;
use signed_clause::IntSet;
use std::alloc::{AllocError, Global};

/// What is counted of the items whose bin is fixed at one value.
#[derive(Clone, Copy)]
pub struct BinCounts {
    /// Their least sizes, added up.
    pub load: Load,
    /// The least of their greatest rooms.
    pub tight: Number,
    /// The least of their least rooms.
    pub room: Number,
    /// The greatest that one of their sizes can grow.
    pub growth: Load,
    /// How many they are.
    pub count: usize,
    /// Whether one of them has a single room.
    pub frozen: bool,
}

impl BinCounts {
    /// What is counted of no items.
    fn bare() -> BinCounts
        ensures { (v : ℤ) (boxes : Boxes) → IsCounted result v [] boxes }
    {
        BinCounts {
            load: Load { value: 0 },
            tight: Number { value: i64::MAX },
            room: Number { value: i64::MAX },
            growth: Load { value: 0 },
            count: 0,
            frozen: false,
        }
    }
}

/// The greatest growth so far, with that of the item's size.
pub fn with_growth(most: Load, i: (u32, u32, u32), boxes: &[IntSet]) -> Load
    requires { IsItemNamed i boxes.now }
    ensures { result.value ≡ int_max most.value (high_of (box_of boxes.now i.1) -ℤ low_of
        (box_of boxes.now i.1)) }
{
    let grows = Load::of(greatest(boxes, i.1)).less(least(boxes, i.1));
    if grows.is_at_most(most) { most } else { grows }
}

/// What is counted, with one more item.
fn with_item(bin: BinCounts, i: (u32, u32, u32), boxes: &[IntSet]) -> BinCounts
    requires item { IsItemNamed i boxes.now }
    requires low { pos 0 ≤ℤ (bin.load.value +ℤ pos (2 ^ 127 - 2 ^ 63)) }
    requires high { bin.load.value ≤ℤ pos (2 ^ 127 - 2 ^ 63) }
    requires few { bin.count < 18446744073709551615 }
    ensures load { result.load.value ≡ bin.load.value +ℤ low_of (box_of boxes.now i.1) }
    ensures tight { result.tight.value ≡ int_min bin.tight.value (high_of (box_of boxes.now i.2)) }
    ensures room { result.room.value ≡ int_min bin.room.value (low_of (box_of boxes.now i.2)) }
    ensures growth { result.growth.value ≡ int_max bin.growth.value (high_of (box_of boxes.now i.1)
        -ℤ low_of (box_of boxes.now i.1)) }
    ensures count { result.count ≡ suc bin.count }
    ensures frozen { result.frozen ≡ (bin.frozen || is_one (box_of boxes.now i.2)) }
{
    BinCounts {
        load: bin.load.plus(least(boxes, i.1)),
        tight: smaller(bin.tight, greatest(boxes, i.2)),
        room: smaller(bin.room, least(boxes, i.2)),
        growth: with_growth(bin.growth, i, boxes),
        count: bin.count + 1,
        frozen: bin.frozen || is_single(boxes, i.2),
    }
}

/// The slot of the number, of `n` slots from `first` on.
fn slot_of(at: Number, first: Number, n: usize) -> Option<usize>
    ensures below { IfSome result (λ d. d < n) }
    ensures slot { (e : ℕ) → e < n → int_eq at.value (first.value +ℤ pos e) ≡ is_slot result e }
{
    if at.value < first.value {
        return None;
    }
    let d = at.value.abs_diff(first.value);
    if d < n as u64 { Some(d as usize) } else { None }
}

/// The slot of the value at which the box of `x` is fixed.
fn fixed_slot(boxes: &[IntSet], x: u32, first: Number, n: usize) -> Option<usize>
    requires { x < length boxes.now }
    ensures below { IfSome result (λ d. d < n) }
    ensures slot { (e : ℕ) → e < n → fixed_at (box_of boxes.now x) (first.value +ℤ pos e)
        ≡ is_slot result e }
{
    if is_single(boxes, x) {
        slot_of(least(boxes, x), first, n)
    } else {
        None
    }
}

/// One more in the slot, where there is one.
fn bump(counts: &mut [usize], at: Option<usize>)
    requires within { IfSome at (λ d. d < length counts.old) }
    requires room { IfSome at (λ d. slice_index_or counts.old d 0 < 18446744073709551615) }
    ensures size { length counts.new ≡ length counts.old }
    ensures counts { (e : ℕ) → slice_index_or counts.new e 0
        ≡ cond (is_slot at e) (suc (slice_index_or counts.old e 0))
        (slice_index_or counts.old e 0) }
{
    if let Some(d) = at {
        counts[d] += 1;
    }
}

/// As many counts, all of them 0.
fn reset_counts(counts: &mut Vec<usize>, n: usize) -> Result<(), AllocError>
    ensures size { IfOk result (λ u. length counts.new.items ≡ n) }
    ensures none { IfOk result (λ u. (e : ℕ) → slice_index_or counts.new.items e 0 ≡ 0) }
{
    counts.clear();
    counts.resize(n, 0)?;
    Ok(())
}

/// As many bins, in which nothing is counted.
fn reset_bins(bins: &mut Vec<BinCounts>, n: usize) -> Result<(), AllocError>
    ensures size { IfOk result (λ u. length bins.new.items ≡ n) }
    ensures none { IfOk result (λ u. (first : ℤ) (boxes : Boxes)
        → AreCounted bins.new.items first [] boxes) }
{
    bins.clear();
    bins.resize(n, BinCounts::bare())?;
    Ok(())
}

/// Counts the item at `k`, where its bin is fixed, behind which all are counted.
fn add_item(
    bins: &mut [BinCounts],
    items: &[(u32, u32, u32)],
    boxes: &[IntSet],
    first: Number,
    k: usize,
)
    requires named { AreItemsNamed items.now boxes.now }
    requires sets { All (λ s. IsValid s) boxes.now }
    requires within { k < length items.now }
    requires few { length items.now < 18446744073709551616 }
    requires behind { AreCounted bins.old first.value (drop (suc k) items.now) boxes.now }
    ensures size { length bins.new ≡ length bins.old }
    ensures bins { AreCounted bins.new first.value (drop k items.now) boxes.now }
{
    let i = items[k];
    if let Some(d) = fixed_slot(boxes, i.0, first, bins.len()) {
        bins[d] = with_item(bins[d], i, boxes);
    }
}

/// Counts the items whose bin is fixed.
fn add_items(bins: &mut [BinCounts], items: &[(u32, u32, u32)], boxes: &[IntSet], first: Number)
    requires named { AreItemsNamed items.now boxes.now }
    requires sets { All (λ s. IsValid s) boxes.now }
    requires none { AreCounted bins.old first.value [] boxes.now }
    ensures size { length bins.new ≡ length bins.old }
    ensures bins { AreCounted bins.new first.value items.now boxes.now }
{
    let mut k = items.len();
    while 0 < k {
        k -= 1;
        add_item(bins, items, boxes, first, k);
    }
}

/// Counts where a range begins and ends.
fn count_range(begun: &mut [usize], ended: &mut [usize], r: (i64, i64), first: Number)
    requires same { length begun.old ≡ length ended.old }
    requires begun_room { (e : ℕ) → e < length begun.old → int_eq r.0 (first.value +ℤ pos e) ≡ true
        → slice_index_or begun.old e 0 < 18446744073709551615 }
    requires ended_room { (e : ℕ) → e < length begun.old → int_eq r.1 (first.value +ℤ pos e) ≡ true
        → slice_index_or ended.old e 0 < 18446744073709551615 }
    ensures begun_size { length begun.new ≡ length begun.old }
    ensures ended_size { length ended.new ≡ length ended.old }
    ensures begun { (e : ℕ) → e < length begun.old → slice_index_or begun.new e 0
        ≡ cond (int_eq r.0 (first.value +ℤ pos e)) (suc (slice_index_or begun.old e 0))
        (slice_index_or begun.old e 0) }
    ensures ended { (e : ℕ) → e < length begun.old → slice_index_or ended.new e 0
        ≡ cond (int_eq r.1 (first.value +ℤ pos e)) (suc (slice_index_or ended.old e 0))
        (slice_index_or ended.old e 0) }
{
    let begins = slot_of(Number { value: r.0 }, first, begun.len());
    let ends = slot_of(Number { value: r.1 }, first, ended.len());
    bump(begun, begins);
    bump(ended, ends);
}

/// Counts where the ranges of a set begin and end.
fn count_ranges(begun: &mut [usize], ended: &mut [usize], ranges: &[(i64, i64)], first: Number)
    requires same { length begun.old ≡ length ended.old }
    requires valid { IsValid ranges.now }
    requires begun_room { (e : ℕ) → e < length begun.old → slice_index_or begun.old e 0
        < 18446744073709551615 }
    requires ended_room { (e : ℕ) → e < length begun.old → slice_index_or ended.old e 0
        < 18446744073709551615 }
    ensures begun_size { length begun.new ≡ length begun.old }
    ensures ended_size { length ended.new ≡ length ended.old }
    ensures begun { (e : ℕ) → e < length begun.old → slice_index_or begun.new e 0
        ≡ begun_at (first.value +ℤ pos e) ranges.now + slice_index_or begun.old e 0 }
    ensures ended { (e : ℕ) → e < length begun.old → slice_index_or ended.new e 0
        ≡ ended_at (first.value +ℤ pos e) ranges.now + slice_index_or ended.old e 0 }
{
    let mut j = ranges.len();
    while 0 < j {
        j -= 1;
        count_range(begun, ended, ranges[j], first);
    }
}

/// Counts where the ranges of the bin of the item at `k` begin and end, behind which all are
/// counted.
fn count_item(
    begun: &mut [usize],
    ended: &mut [usize],
    items: &[(u32, u32, u32)],
    boxes: &[IntSet],
    first: Number,
    k: usize,
)
    requires named { AreItemsNamed items.now boxes.now }
    requires sets { All (λ s. IsValid s) boxes.now }
    requires within { k < length items.now }
    requires few { length items.now < 18446744073709551616 }
    requires same { length begun.old ≡ length ended.old }
    requires begun_behind { AreBegun begun.old first.value (drop (suc k) items.now) boxes.now }
    requires ended_behind { AreEnded ended.old first.value (drop (suc k) items.now) boxes.now }
    ensures begun_size { length begun.new ≡ length begun.old }
    ensures ended_size { length ended.new ≡ length ended.old }
    ensures begun { AreBegun begun.new first.value (drop k items.now) boxes.now }
    ensures ended { AreEnded ended.new first.value (drop k items.now) boxes.now }
{
    let ranges = ranges_at(boxes, items[k].0);
    count_ranges(begun, ended, ranges, first);
}

/// Counts where the ranges of the bins begin and end.
fn count_items(
    begun: &mut [usize],
    ended: &mut [usize],
    items: &[(u32, u32, u32)],
    boxes: &[IntSet],
    first: Number,
)
    requires named { AreItemsNamed items.now boxes.now }
    requires sets { All (λ s. IsValid s) boxes.now }
    requires same { length begun.old ≡ length ended.old }
    requires no_begun { (e : ℕ) → slice_index_or begun.old e 0 ≡ 0 }
    requires no_ended { (e : ℕ) → slice_index_or ended.old e 0 ≡ 0 }
    ensures begun_size { length begun.new ≡ length begun.old }
    ensures ended_size { length ended.new ≡ length ended.old }
    ensures begun { AreBegun begun.new first.value items.now boxes.now }
    ensures ended { AreEnded ended.new first.value items.now boxes.now }
{
    let mut k = items.len();
    while 0 < k {
        k -= 1;
        count_item(begun, ended, items, boxes, first, k);
    }
}

/// How many numbers `first..last` has, where that is a number of 64 bits: no memory has more.
fn bins_between(first: Number, last: Number) -> Result<usize, AllocError>
    requires { first.value ≤ℤ last.value }
    ensures width { IfOk result (λ n. n ≡ width first.value last.value) }
    ensures refused { OnErr result (width first.value last.value ≡ 2 ^ 64) }
{
    let steps = last.value.abs_diff(first.value);
    if steps < u64::MAX {
        Ok(steps as usize + 1)
    } else {
        Err(AllocError)
    }
}

/// What is counted of items to be packed, bin by bin. It is memory for one call, in which nothing
/// is kept from one to the next.
#[derive(Drop)]
pub struct Survey {
    /// What is fixed at each bin.
    pub bins: Vec<BinCounts>,
    /// How many ranges begin at each.
    pub begun: Vec<usize>,
    /// How many end there.
    pub ended: Vec<usize>,
}

impl Survey {
    /// No bins. It takes no memory.
    pub fn new(alloc: Global) -> Survey
        ensures no_bins { result.bins.items ≡ [] }
        ensures no_begun { result.begun.items ≡ [] }
        ensures no_ended { result.ended.items ≡ [] }
    {
        Survey {
            bins: Vec::new(alloc),
            begun: Vec::new(alloc),
            ended: Vec::new(alloc),
        }
    }

    /// Forgets all bins. The memory stays.
    pub fn clear(&mut self)
        ensures no_bins { self.new.bins.items ≡ [] }
        ensures no_begun { self.new.begun.items ≡ [] }
        ensures no_ended { self.new.ended.items ≡ [] }
    {
        self.bins.clear();
        self.begun.clear();
        self.ended.clear();
    }

    /// Counts the items at the bins from `first` to `last`. It takes memory where there were never
    /// as many bins.
    ///
    /// # Errors
    /// Want of memory.
    pub fn fill(
        &mut self,
        items: &[(u32, u32, u32)],
        boxes: &[IntSet],
        first: Number,
        last: Number,
    ) -> Result<(), AllocError>
        requires named { AreItemsNamed items.now boxes.now }
        requires sets { All (λ s. IsValid s) boxes.now }
        requires order { first.value ≤ℤ last.value }
        ensures size { IfOk result (λ u. length self.new.bins.items
            ≡ width first.value last.value) }
        ensures begun_size { IfOk result (λ u. length self.new.begun.items
            ≡ width first.value last.value) }
        ensures ended_size { IfOk result (λ u. length self.new.ended.items
            ≡ width first.value last.value) }
        ensures bins { IfOk result (λ u. AreCounted self.new.bins.items first.value items.now
            boxes.now) }
        ensures begun { IfOk result (λ u. AreBegun self.new.begun.items first.value items.now
            boxes.now) }
        ensures ended { IfOk result (λ u. AreEnded self.new.ended.items first.value items.now
            boxes.now) }
    {
        let n = bins_between(first, last)?;
        reset_bins(&mut self.bins, n)?;
        reset_counts(&mut self.begun, n)?;
        reset_counts(&mut self.ended, n)?;
        add_items(self.bins.as_mut_slice(), items, boxes, first);
        count_items(
            self.begun.as_mut_slice(),
            self.ended.as_mut_slice(),
            items,
            boxes,
            first,
        );
        Ok(())
    }
}
