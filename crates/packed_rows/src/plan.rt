//! Whether rows are a packing, and of which items.
//!
//! What the items are is proposed by joining what the rows name; that in each row just those of
//! them count that may be in its bin is then looked at.
ghost use Rattle.std.specs.Prelude.{◌≡◌, ◌<◌, ◌≤ℤ◌, ◌∷◌, ℤ, List, true, pos, length, IfOk, IfSome};
ghost use Rattle.std.specs.List.{All};
ghost use Rattle.signed_clause.specs.Ranges.{has, IsSubset};
ghost use Rattle.signed_clause.specs.Clauses.{box_of};
ghost use Rattle.form_build.specs.Worlds.{IsInBoxes};
ghost use Rattle.packed_rows.specs.declared.row.Row.{Row as ARow};
ghost use Rattle.packed_rows.specs.Loads.{load_of};
ghost use Rattle.packed_rows.specs.Plans.{is_bin, IsSmall, IsRowOf, AscendAbove, IsItem, IsPlan};

use crate::row::Row;
use ground_form::Number;
use model_limits::MOST_WIDTH;
use signed_clause::IntSet;
use std::alloc::{AllocError, Global};

/// The items of a packing, each a variable and its size, and the room of each bin.
#[derive(Drop)]
pub(crate) struct Plan {
    /// The items.
    pub items: Vec<(u32, i64)>,
    /// The greatest room.
    pub most: Number,
}

// ---- what the items are

/// Adds what is left of a list.
fn push_rest(out: &mut Vec<(u32, i64)>, rest: &[(u32, i64)]) -> Result<(), AllocError> {
    for l in rest {
        out.push(*l)?;
    }
    Ok(())
}

/// Two lists of ascending variables as one; of two sizes of a variable the first list's.
fn joined(
    alloc: Global,
    left: &[(u32, i64)],
    right: &[(u32, i64)],
) -> Result<Vec<(u32, i64)>, AllocError> {
    let mut out = Vec::new(alloc);
    let mut j = 0;
    for l in left {
        while j < right.len() && right[j].0 < l.0 {
            out.push(right[j])?;
            j += 1;
        }
        if j < right.len() && right[j].0 == l.0 {
            j += 1;
        }
        out.push(*l)?;
    }
    push_rest(&mut out, &right[j..])?;
    Ok(out)
}

/// What all of the rows name.
fn all_items(alloc: Global, rows: &[Row]) -> Result<Vec<(u32, i64)>, AllocError> {
    let mut items = Vec::new(alloc);
    for row in rows {
        items = joined(alloc, items.as_slice(), row.loads.as_slice())?;
    }
    Ok(items)
}

/// The greatest room of the rows.
fn greatest_room(rows: &[Row]) -> Number {
    let mut most = Number { value: 0 };
    for row in rows {
        most = Number {
            value: row.room.max(most.value),
        };
    }
    most
}

// ---- whether they are a packing

/// Whether a constant may be so great.
fn is_small(v: i64) -> bool
    ensures { result ≡ true → IsSmall v }
{
    v.unsigned_abs() <= MOST_WIDTH as u64
}

/// Whether the number can be the room of all items.
fn is_room(most: Number) -> bool
    ensures low { result ≡ true → pos 0 ≤ℤ most.value }
    ensures small { result ≡ true → IsSmall most.value }
{
    0 <= most.value && is_small(most.value)
}

/// What stands behind the item, where the list begins with it.
fn behind(loads: &[(u32, i64)], item: (u32, i64)) -> Option<&[(u32, i64)]>
    ensures { IfSome result (λ more. loads.now ≡ item ∷ more.now) }
{
    match loads {
        [first, more @ ..] => { if *first == item { Some(more) } else { None } }
        [] => None,
    }
}

/// Whether the item may be at the row's bin.
fn may_be_there(boxes: &[IntSet], item: (u32, i64), row: &Row) -> bool
    requires { item.0 < length boxes.now }
    ensures { result ≡ has (box_of boxes.now item.0) row.now.bin }
{
    boxes[item.0 as usize].contains(row.bin)
}

/// Whether the row's loads are those of the items that may be in its bin.
fn counts_same(boxes: &[IntSet], items: &[(u32, i64)], row: &Row) -> bool
    requires { All (λ i. i.0 < length boxes.now) items.now }
    ensures { result ≡ true → (a : List ℤ) → IsInBoxes boxes.now a
        → load_of row.now.bin items.now a ≡ load_of row.now.bin row.now.loads.items a }
{
    let mut rest = row.loads.as_slice();
    for item in items {
        match behind(rest, *item) {
            Some(more) => rest = more,
            None => {
                if may_be_there(boxes, *item, row) {
                    return false;
                }
            }
        }
    }
    rest.is_empty()
}

/// Whether it is a row of the packing.
fn is_row(boxes: &[IntSet], items: &[(u32, i64)], most: Number, row: &Row) -> bool
    requires { All (λ i. i.0 < length boxes.now) items.now }
    ensures { result ≡ true → IsRowOf boxes.now items.now most.value row.now }
{
    is_small(row.bin) && 0 <= row.room && row.room <= most.value && counts_same(boxes, items, row)
}

/// Whether all are.
fn are_rows(boxes: &[IntSet], items: &[(u32, i64)], most: Number, rows: &[Row]) -> bool
    requires { All (λ i. i.0 < length boxes.now) items.now }
    ensures { result ≡ true → All (IsRowOf boxes.now items.now most.value) rows.now }
{
    for row in rows {
        if !is_row(boxes, items, most, row) {
            return false;
        }
    }
    true
}

/// Whether the bins ascend from above this one on.
fn are_ascending(above: i64, rows: &[Row]) -> bool
    ensures { result ≡ true → AscendAbove above rows.now }
{
    let mut last = above;
    for row in rows {
        if row.bin <= last {
            return false;
        }
        last = row.bin;
    }
    true
}

/// The bins of the rows, made by halves, so that no long set is copied for each.
fn bins(alloc: Global, rows: &[Row]) -> Result<IntSet, AllocError>
    ensures { IfOk result (λ s. (v : ℤ) → has s v ≡ is_bin rows.now v) }
{
    match rows {
        [] => Ok(IntSet::empty(alloc)),
        [row] => Ok(IntSet::range(alloc, row.bin, row.bin)),
        more => {
            let half = more.len() / 2;
            let front = bins(alloc, &more[..half])?;
            let back = bins(alloc, &more[half..])?;
            let all = front.join(&back)?;
            Ok(all)
        }
    }
}

/// Whether all variables of the list exist.
fn are_variables(boxes: &[IntSet], items: &[(u32, i64)]) -> bool
    ensures { result ≡ true → All (λ i. i.0 < length boxes.now) items.now }
{
    for item in items {
        if boxes.len() <= item.0 as usize {
            return false;
        }
    }
    true
}

/// Whether the item's values are all bins of rows, and its size is small.
fn is_item(boxes: &[IntSet], bins: &IntSet, item: (u32, i64)) -> bool
    requires { item.0 < length boxes.now }
    ensures within { result ≡ true → IsSubset (box_of boxes.now item.0) bins.now }
    ensures small { result ≡ true → IsSmall item.1 }
{
    is_small(item.1) && boxes[item.0 as usize].within(bins)
}

/// Whether all are such items.
fn are_items(boxes: &[IntSet], bins: &IntSet, items: &[(u32, i64)]) -> bool
    requires { All (λ i. i.0 < length boxes.now) items.now }
    ensures { result ≡ true → (rows : List ARow) → ((v : ℤ) → has bins.now v ≡ is_bin rows v)
        → All (IsItem boxes.now rows) items.now }
{
    for item in items {
        if !is_item(boxes, bins, *item) {
            return false;
        }
    }
    true
}

/// The packing that the rows are, where they are one.
pub(crate) fn plan_of(
    alloc: Global,
    boxes: &[IntSet],
    rows: &[Row],
) -> Result<Option<Plan>, AllocError>
    ensures { IfOk result (λ o. IfSome o (λ p.
        IsPlan boxes.now rows.now p.items.items p.most.value)) }
{
    let items = all_items(alloc, rows)?;
    let most = greatest_room(rows);
    if items.is_empty() || !is_room(most) || !are_variables(boxes, &items) {
        return Ok(None);
    }
    let bins = bins(alloc, rows)?;
    if !are_ascending(-1, rows) || !are_items(boxes, &bins, &items) {
        return Ok(None);
    }
    if !are_rows(boxes, &items, most, rows) {
        return Ok(None);
    }
    Ok(Some(Plan { items, most }))
}
