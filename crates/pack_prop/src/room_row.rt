//! Rows of rooms: for each of some values that follow one another the best room there. `best_row`
//! goes over the items once, and each lifts the entries of its bin's box to its room.
ghost use Rattle.std.specs.Prelude.{◌≡◌, ◌≤◌, ◌<◌, ◌≤ℤ◌, ◌+ℤ◌, ◌&&◌, ◌||◌, ◌^◌, ℕ, ℤ, [], suc, true, cond, pos, IfOk, OnOk, int_lt, length, drop, slice_index_or, ◌+◌};
ghost use Rattle.std.specs.Int.{int_max};
ghost use Rattle.std.specs.Ordering.{int_eq};
ghost use Rattle.signed_clause.specs.Ranges.{has, in_range, IsValid};
ghost use Rattle.signed_clause.specs.Clauses.{Boxes, box_of};
ghost use Rattle.ground_form.specs.Bounds.{high_of, last_bin};
ghost use Rattle.box_rules.specs.Named.{AreItemsNamed, IsItemNamed};
ghost use Rattle.pack_prop.specs.RoomRows.{best_rooms, HasRooms, lifted, row_sum, raised, is_short};
ghost use Rattle.pack_prop.specs.Sources.{with_part};
ghost use Rattle.pack_prop.specs.Spans.{is_in};

use crate::spans::{Span, span_of};
use crate::with_part::{Tried, box_at, greatest};
use ground_form::Number;
use pack_fit::{Load, greater};
use signed_clause::IntSet;
use std::alloc::{AllocError, Global};

/// The room of the value.
fn room_of(p: (i64, i64)) -> Number
    ensures { result.value ≡ p.1 }
{
    Number { value: p.1 }
}

/// The value with a room of at least `high`.
fn lift(p: (i64, i64), high: Number) -> (i64, i64)
    ensures { result ≡ lifted true high.value p }
{
    (p.0, greater(high, room_of(p)).value)
}

/// Lifts each entry of the span.
fn lift_span(row: &mut [(i64, i64)], span: Span, high: Number)
    requires within { span.end ≤ length row.old }
    ensures size { length row.new ≡ length row.old }
    ensures row { (e : ℕ) → e < length row.old → slice_index_or row.new e (pos 0, pos 0)
        ≡ lifted (is_in span e) high.value (slice_index_or row.old e (pos 0, pos 0)) }
{
    for e in span.begin..span.end {
        row[e] = lift(row[e], high);
    }
}

/// Lifts the entries of the range's values, of a row of values from `first` on.
fn lift_range(row: &mut [(i64, i64)], r: (i64, i64), high: Number, first: Number)
    ensures size { length row.new ≡ length row.old }
    ensures row { (e : ℕ) → e < length row.old → slice_index_or row.new e (pos 0, pos 0)
        ≡ lifted (in_range r (first.value +ℤ pos e)) high.value
        (slice_index_or row.old e (pos 0, pos 0)) }
{
    let span = span_of(r, first, row.len());
    lift_span(row, span, high);
}

/// Lifts the entries of the set's values.
fn lift_ranges(row: &mut [(i64, i64)], ranges: &[(i64, i64)], high: Number, first: Number)
    ensures size { length row.new ≡ length row.old }
    ensures row { (e : ℕ) → e < length row.old → slice_index_or row.new e (pos 0, pos 0)
        ≡ lifted (has ranges.now (first.value +ℤ pos e)) high.value
        (slice_index_or row.old e (pos 0, pos 0)) }
{
    let mut j = ranges.len();
    while 0 < j {
        j -= 1;
        lift_range(row, ranges[j], high, first);
    }
}

/// The ranges of the box of `y`.
fn ranges_of<'a>(tried: Tried<'a>, y: u32) -> &'a [(i64, i64)]
    requires var { tried.x < length tried.boxes.now }
    requires named { y < length tried.boxes.now }
    ensures { result.now ≡ box_of
        (with_part tried.entry.boxes.now tried.entry.x tried.entry.part.now) y }
{
    box_at(tried, y).ranges()
}

/// Lifts the entries where the item at `k` may be to its room, as is done for all items behind it.
fn add_item(row: &mut [(i64, i64)], tried: Tried<'_>, first: Number, k: usize)
    requires var { tried.x < length tried.boxes.now }
    requires items { AreItemsNamed tried.items.now tried.boxes.now }
    requires within { k < length tried.items.now }
    requires behind { HasRooms row.old first.value (drop (suc k) tried.items.now)
        (with_part tried.boxes.now tried.x tried.part.now) }
    ensures size { length row.new ≡ length row.old }
    ensures row { HasRooms row.new first.value (drop k tried.entry.items.now)
        (with_part tried.entry.boxes.now tried.entry.x tried.entry.part.now) }
{
    let i = tried.items[k];
    let high = greatest(tried, i.2);
    lift_ranges(row, ranges_of(tried, i.0), high, first);
}

/// Lifts the entries where an item may be to its room, for all items.
fn add_items(row: &mut [(i64, i64)], tried: Tried<'_>, first: Number)
    requires var { tried.x < length tried.boxes.now }
    requires items { AreItemsNamed tried.items.now tried.boxes.now }
    requires none { HasRooms row.old first.value []
        (with_part tried.boxes.now tried.x tried.part.now) }
    ensures size { length row.new ≡ length row.old }
    ensures row { HasRooms row.new first.value tried.entry.items.now
        (with_part tried.entry.boxes.now tried.entry.x tried.entry.part.now) }
{
    let mut k = tried.items.len();
    while 0 < k {
        k -= 1;
        add_item(row, tried, first, k);
    }
}

/// The value that is `k` above the first.
fn value_from(first: Number, k: usize) -> Number
    requires low { pos 0 ≤ℤ first.value }
    requires high { first.value ≤ℤ pos last_bin }
    requires few { k ≤ last_bin }
    ensures { result.value ≡ first.value +ℤ pos k }
{
    Number {
        value: first.value + k as i64,
    }
}

/// The value where there is no item.
fn bare_at(at: Number) -> (i64, i64)
    ensures { result ≡ (at.value, pos 0) }
{
    (at.value, 0)
}

/// The row of `n` values from the first on, without rooms.
///
/// # Errors
/// Want of memory.
fn bare_row(alloc: Global, first: Number, n: usize) -> Result<Vec<(i64, i64)>, AllocError>
    requires low { pos 0 ≤ℤ first.value }
    requires high { first.value ≤ℤ pos last_bin }
    requires few { n ≤ last_bin + 1 }
    ensures { IfOk result (λ row. (boxes : Boxes) → row.items ≡ best_rooms n first.value [] boxes) }
{
    let mut row = Vec::new(alloc);
    for k in 0..n {
        row.push(bare_at(value_from(first, k)))?;
    }
    Ok(row)
}

/// The row of the best rooms of `n` values from the first on.
///
/// # Errors
/// Want of memory.
pub fn best_row(
    alloc: Global,
    tried: Tried<'_>,
    first: Number,
    n: usize,
) -> Result<Vec<(i64, i64)>, AllocError>
    requires var { tried.x < length tried.boxes.now }
    requires items { AreItemsNamed tried.items.now tried.boxes.now }
    requires low { pos 0 ≤ℤ first.value }
    requires high { first.value ≤ℤ pos last_bin }
    requires few { n ≤ last_bin + 1 }
    ensures { IfOk result (λ row. row.items ≡ best_rooms n first.value tried.entry.items.now
        (with_part tried.entry.boxes.now tried.entry.x tried.entry.part.now)) }
{
    let mut row = bare_row(alloc, first, n)?;
    add_items(row.as_mut_slice(), tried, first);
    Ok(row)
}

/// The row's rooms, added up.
pub fn sum_of(row: &[(i64, i64)]) -> Load
    ensures { result.value ≡ row_sum row.now }
{
    let mut sum = Load { value: 0 };
    for p in row {
        sum = sum.plus(room_of(*p));
    }
    sum
}

/// The value with a room of at least `high`, where the set has it.
fn raise_one(p: (i64, i64), set: &IntSet, high: Number) -> (i64, i64)
    ensures { result ≡ (p.0, cond (has set.now p.0) (int_max high.value p.1) p.1) }
{
    if set.contains(p.0) { lift(p, high) } else { p }
}

/// The row with a room of at least `high` at each value of the set.
///
/// # Errors
/// Want of memory.
pub fn raise(
    alloc: Global,
    row: &[(i64, i64)],
    set: &IntSet,
    high: Number,
) -> Result<Vec<(i64, i64)>, AllocError>
    ensures { IfOk result (λ r. r.items ≡ raised set.now high.value row.now) }
{
    let mut out = Vec::new(alloc);
    for p in row {
        out.push(raise_one(*p, set, high))?;
    }
    Ok(out)
}

/// The set, with the value where its room is less than `high`.
fn with_short(alloc: Global, set: IntSet, p: (i64, i64), high: Number) -> Result<IntSet, AllocError>
    ensures valid { IfOk result (λ s. IsValid s) }
    ensures values { IfOk result (λ s. (v : ℤ) → has s v
        ≡ (has set v || (int_eq p.0 v && int_lt p.1 high.value))) }
{
    if p.1 < high.value {
        set.join(&IntSet::range(alloc, p.0, p.0))
    } else {
        Ok(set)
    }
}

/// The values of the set whose room in the row is less than `high`.
///
/// # Errors
/// Want of memory.
pub fn short_values(
    alloc: Global,
    row: &[(i64, i64)],
    set: &IntSet,
    high: Number,
) -> Result<IntSet, AllocError>
    ensures valid { IfOk result (λ s. IsValid s) }
    ensures values { IfOk result (λ s. (v : ℤ) → has s v
        ≡ (has set.now v && is_short v high.value row.now)) }
{
    let mut short = IntSet::empty(alloc);
    for p in row {
        short = with_short(alloc, short, *p, high)?;
    }
    let part = set.meet(&short)?;
    Ok(part)
}
