//! The greatest and the second greatest room of each value, in memory that is kept from call to
//! call.
//!
//! The second counts where the box of the item that has the greatest is narrowed. An item whose bin
//! and room are single values stays, and counts twice. `BestRooms::find` goes over the items once,
//! and each adds its room to the entries of its bin's box.
//!
//! What is left of the best room of a bin when an item's box is narrowed is the second greatest
//! where the item has the greatest, else the greatest. That is exact, since an equal one counts as
//! the second.
ghost use Rattle.std.specs.Prelude.{◌≡◌, ◌≤◌, ◌<◌, ◌≤ℤ◌, ◌<ℤ◌, ◌+ℤ◌, ◌&&◌, ℕ, suc, true, pos, [], IfOk, length, drop, slice_index_or};
ghost use Rattle.signed_clause.specs.Ranges.{has, in_range, IsValid};
ghost use Rattle.signed_clause.specs.Clauses.{Boxes, box_of};
ghost use Rattle.ground_form.specs.Bounds.{high_of};
ghost use Rattle.box_rules.specs.Named.{AreItemsNamed, IsItemNamed};
ghost use Rattle.rule_law.specs.Repeats.{is_one};
ghost use Rattle.pack_fit.specs.Packing.{put};
ghost use Rattle.pack_prop.specs.Spans.{is_in};
ghost use Rattle.pack_prop.specs.Tight.{AreValueRooms, AreBestRooms, HaveBestRooms, IsRaised};

use crate::spans::{Span, span_of};
use ground_form::Number;
use pack_fit::{greater, greatest, is_single, ranges_at, smaller};
use signed_clause::IntSet;
use std::alloc::{AllocError, Global};

/// The rooms of a value, each at least 0.
#[derive(Clone, Copy)]
pub struct ValueRooms {
    /// The value.
    pub at: Number,
    /// The greatest room of the items that may be there.
    pub first: Number,
    /// The second greatest.
    pub second: Number,
}

/// A room that an item brings to each bin where it may be.
#[derive(Clone, Copy)]
struct Brought {
    /// The greatest value of its room.
    room: Number,
    /// Whether its bin and its room are single values.
    stays: bool,
}

/// What the item brings.
fn brought_by(i: (u32, u32, u32), boxes: &[IntSet]) -> Brought
    requires { IsItemNamed i boxes.now }
    ensures room { result.room.value ≡ high_of (box_of boxes.now i.2) }
    ensures stays { result.stays ≡ (is_one (box_of boxes.now i.0)
        && is_one (box_of boxes.now i.2)) }
{
    Brought {
        room: greatest(boxes, i.2),
        stays: is_single(boxes, i.0) && is_single(boxes, i.2),
    }
}

/// The two greatest rooms, with one more.
fn with_room(two: (i64, i64), more: Brought) -> (i64, i64)
    ensures { result ≡ put more.room.value more.stays two }
{
    let first = Number { value: two.0 };
    let beside = if more.stays {
        more.room
    } else {
        smaller(first, more.room)
    };
    (
        greater(first, more.room).value,
        greater(Number { value: two.1 }, beside).value,
    )
}

/// The rooms of the value, with one more.
fn raised(best: ValueRooms, more: Brought) -> ValueRooms
    ensures { IsRaised true more.room.value more.stays best result }
{
    let two = with_room((best.first.value, best.second.value), more);
    ValueRooms {
        at: best.at,
        first: Number { value: two.0 },
        second: Number { value: two.1 },
    }
}

/// Adds the room to each entry of the span.
fn raise_span(rows: &mut [ValueRooms], span: Span, more: Brought)
    requires within { span.end ≤ length rows.old }
    ensures size { length rows.new ≡ length rows.old }
    ensures rows { (d : ValueRooms) (e : ℕ) → e < length rows.old → IsRaised (is_in span e)
        more.room.value more.stays (slice_index_or rows.old e d) (slice_index_or rows.new e d) }
{
    for e in span.begin..span.end {
        rows[e] = raised(rows[e], more);
    }
}

/// Adds the room at each value of the range.
fn raise_range(rows: &mut [ValueRooms], r: (i64, i64), more: Brought, first: Number)
    ensures size { length rows.new ≡ length rows.old }
    ensures rows { (d : ValueRooms) (e : ℕ) → e < length rows.old
        → IsRaised (in_range r (first.value +ℤ pos e)) more.room.value more.stays
        (slice_index_or rows.old e d) (slice_index_or rows.new e d) }
{
    let span = span_of(r, first, rows.len());
    raise_span(rows, span, more);
}

/// Adds the room at each value of the set.
fn raise_ranges(rows: &mut [ValueRooms], ranges: &[(i64, i64)], more: Brought, first: Number)
    requires valid { IsValid ranges.now }
    ensures size { length rows.new ≡ length rows.old }
    ensures rows { (d : ValueRooms) (e : ℕ) → e < length rows.old
        → IsRaised (has ranges.now (first.value +ℤ pos e)) more.room.value more.stays
        (slice_index_or rows.old e d) (slice_index_or rows.new e d) }
{
    let mut j = ranges.len();
    while 0 < j {
        j -= 1;
        raise_range(rows, ranges[j], more, first);
    }
}

/// Adds the room of the item at `k`, behind which all are added.
fn add_item(
    rows: &mut [ValueRooms],
    items: &[(u32, u32, u32)],
    boxes: &[IntSet],
    first: Number,
    k: usize,
)
    requires named { AreItemsNamed items.now boxes.now }
    requires within { k < length items.now }
    requires behind { HaveBestRooms rows.old first.value (drop (suc k) items.now) boxes.now }
    ensures size { length rows.new ≡ length rows.old }
    ensures rows { HaveBestRooms rows.new first.value (drop k items.now) boxes.now }
{
    let i = items[k];
    raise_ranges(rows, ranges_at(boxes, i.0), brought_by(i, boxes), first);
}

/// Adds the rooms of all items.
fn add_items(rows: &mut [ValueRooms], items: &[(u32, u32, u32)], boxes: &[IntSet], first: Number)
    requires named { AreItemsNamed items.now boxes.now }
    requires none { HaveBestRooms rows.old first.value [] boxes.now }
    ensures size { length rows.new ≡ length rows.old }
    ensures rows { HaveBestRooms rows.new first.value items.now boxes.now }
{
    let mut k = items.len();
    while 0 < k {
        k -= 1;
        add_item(rows, items, boxes, first, k);
    }
}

/// The rooms of the value where there is no item.
fn bare_at(at: Number) -> ValueRooms
    ensures { (boxes : Boxes) → AreValueRooms at.value result [] boxes }
{
    ValueRooms {
        at,
        first: Number { value: 0 },
        second: Number { value: 0 },
    }
}

/// The next number, below `last`.
fn next(n: Number, last: Number) -> Number
    requires { n.value <ℤ last.value }
    ensures { result.value ≡ n.value +ℤ pos 1 }
{
    Number { value: n.value + 1 }
}

/// Adds an entry without rooms for each value from `first` to `last`.
fn push_bare(rows: &mut Vec<ValueRooms>, first: Number, last: Number) -> Result<(), AllocError>
    requires none { rows.old.items ≡ [] }
    requires order { first.value ≤ℤ last.value }
    ensures rooms { IfOk result (λ u. (boxes : Boxes) → AreBestRooms first.value rows.new.items []
        boxes) }
    ensures all { IfOk result (λ u. first.value +ℤ pos (length rows.new.items)
        ≡ last.value +ℤ pos 1) }
{
    let mut at = first;
    loop {
        rows.push(bare_at(at))?;
        if last.value <= at.value {
            return Ok(());
        }
        at = next(at, last);
    }
}

/// Memory for one call, in which nothing is kept from one call to the next.
#[derive(Drop)]
pub struct BestRooms {
    rows: Vec<ValueRooms>,
}

impl BestRooms {
    /// Nothing. It takes no memory.
    pub fn new(alloc: Global) -> BestRooms
        ensures { result.rows.items ≡ [] }
    {
        BestRooms {
            rows: Vec::new(alloc),
        }
    }

    /// The rooms of the values from `first` to `last`.
    ///
    /// # Errors
    /// Want of memory.
    pub fn find(
        &mut self,
        items: &[(u32, u32, u32)],
        boxes: &[IntSet],
        first: Number,
        last: Number,
    ) -> Result<&[ValueRooms], AllocError>
        requires items { AreItemsNamed items.now boxes.now }
        requires order { first.value ≤ℤ last.value }
        ensures rooms { IfOk result (λ rows. AreBestRooms first.value rows.now items.now
            boxes.now) }
        ensures all { IfOk result (λ rows. first.value +ℤ pos (length rows.now)
            ≡ last.value +ℤ pos 1) }
    {
        self.rows.clear();
        push_bare(&mut self.rows, first, last)?;
        add_items(self.rows.as_mut_slice(), items, boxes, first);
        Ok(self.rows.as_slice())
    }
}
