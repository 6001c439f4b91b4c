//! Rows of different bins that agree on the items' sizes. Nothing rests on what is put together
//! here: the rows of a packing are compared with those that they come from.
use form_build::Maker;
use packed_rows::Row;
use signed_clause::IntSet;
use std::alloc::{AllocError, Global};

/// So many groups, the last ones, are looked at for each row.
const MOST_GROUPS: usize = 8;

/// More bins no packing has.
const MOST_BINS: u64 = 4096;

/// Rows of different bins, and their items.
#[derive(Drop)]
pub(crate) struct Group {
    /// The rows, by their places in a list.
    pub rows: Vec<usize>,
    /// The items of all rows, by ascending variables, with their sizes.
    pub items: Vec<(u32, i64)>,
}

/// A row of a packing, and the place of the row that it comes from.
#[derive(Drop)]
pub(crate) struct Planned {
    /// The row.
    pub row: Row,
    /// The row that it comes from, where it does.
    pub source: Option<usize>,
}

// ---- which rows agree

/// Whether no variable stands in both lists with two sizes. Variables ascend in both.
fn agree(items: &[(u32, i64)], loads: &[(u32, i64)]) -> bool {
    let mut j = 0;
    for l in loads {
        while j < items.len() && items[j].0 < l.0 {
            j += 1;
        }
        if j < items.len() && items[j].0 == l.0 && items[j].1 != l.1 {
            return false;
        }
    }
    true
}

/// Whether the variable is that of one of the items.
fn has_item(items: &[(u32, i64)], x: u32) -> bool {
    let i = items.partition_point(|item| item.0 < x);
    i < items.len() && items[i].0 == x
}

/// Adds those of the loads whose variables no item has.
fn push_new(
    out: &mut Vec<(u32, i64)>,
    items: &[(u32, i64)],
    loads: &[(u32, i64)],
) -> Result<(), AllocError> {
    for l in loads {
        if !has_item(items, l.0) {
            out.push(*l)?;
        }
    }
    Ok(())
}

/// Both lists as one, each variable once.
fn joined(
    alloc: Global,
    items: &[(u32, i64)],
    loads: &[(u32, i64)],
) -> Result<Vec<(u32, i64)>, AllocError> {
    let mut out = Vec::new(alloc);
    push_new(&mut out, &[], items)?;
    push_new(&mut out, items, loads)?;
    out.sort_unstable();
    Ok(out)
}

/// Whether both lists have the same items.
fn has_all(items: &[(u32, i64)], loads: &[(u32, i64)]) -> bool {
    items == loads
}

/// Whether one of the group's rows is of this bin.
fn has_bin(rows: &[Row], group: &Group, bin: i64) -> bool {
    for r in group.rows.as_slice() {
        if *r < rows.len() && rows[*r].bin == bin {
            return true;
        }
    }
    false
}

/// Whether the row at this place can be one of the group's, and where all of its items have to be
/// the group's, whether they are.
fn can_join(rows: &[Row], group: &Group, r: usize, alike: bool) -> bool {
    if r >= rows.len() {
        return false;
    }
    let items = group.items.as_slice();
    let loads = rows[r].loads.as_slice();
    let fits = if alike {
        has_all(items, loads)
    } else {
        agree(items, loads)
    };
    fits && !has_bin(rows, group, rows[r].bin)
}

/// Takes a row into a group.
fn join(alloc: Global, group: &mut Group, row: &Row, r: usize) -> Result<(), AllocError> {
    group.rows.push(r)?;
    if !has_all(group.items.as_slice(), row.loads.as_slice()) {
        group.items = joined(alloc, group.items.as_slice(), row.loads.as_slice())?;
    }
    Ok(())
}

/// Which of the last groups the row can join.
fn group_among(rows: &[Row], groups: &[Group], r: usize, alike: bool) -> Option<usize> {
    for k in 0..groups.len().min(MOST_GROUPS) {
        let i = groups.len() - 1 - k;
        if can_join(rows, &groups[i], r, alike) {
            return Some(i);
        }
    }
    None
}

/// Which of the last groups the row can join: one of the same items before another.
fn group_for(rows: &[Row], groups: &[Group], r: usize) -> Option<usize> {
    match group_among(rows, groups, r, true) {
        Some(i) => Some(i),
        None => group_among(rows, groups, r, false),
    }
}

/// Puts the row at this place into a group, its own where it fits into none.
fn place(alloc: Global, rows: &[Row], groups: &mut Vec<Group>, r: usize) -> Result<(), AllocError> {
    if r >= rows.len() {
        return Ok(());
    }
    if let Some(i) = group_for(rows, groups.as_slice(), r) {
        if i < groups.len() {
            join(alloc, &mut groups[i], &rows[r], r)?;
        }
        return Ok(());
    }
    let mut own = Group {
        rows: Vec::new(alloc),
        items: Vec::new(alloc),
    };
    join(alloc, &mut own, &rows[r], r)?;
    groups.push(own)?;
    Ok(())
}

/// The rows in groups of different bins that agree.
pub(crate) fn groups_of(alloc: Global, rows: &[Row]) -> Result<Vec<Group>, AllocError> {
    let mut groups = Vec::new(alloc);
    for r in 0..rows.len() {
        place(alloc, rows, &mut groups, r)?;
    }
    Ok(groups)
}

// ---- the rows of a packing

/// Whether the item may be in the bin.
fn may_be_in(maker: &Maker, item: (u32, i64), bin: i64) -> bool {
    match maker.domains().get(item.0 as usize) {
        Some(set) => set.contains(bin),
        None => false,
    }
}

/// Those of the items that the row counts, or that can't be in its bin.
fn counted(maker: &Maker, items: &[(u32, i64)], row: &Row) -> Result<Vec<(u32, i64)>, AllocError> {
    let loads = row.loads.as_slice();
    let mut out = Vec::new(maker.alloc());
    let mut j = 0;
    for item in items {
        while j < loads.len() && loads[j].0 < item.0 {
            j += 1;
        }
        let there = j < loads.len() && loads[j].0 == item.0;
        if there || !may_be_in(maker, *item, row.bin) {
            out.push(*item)?;
        }
    }
    Ok(out)
}

/// The items that count in each row of whose bin they may be.
fn items_of(maker: &Maker, rows: &[Row], group: &Group) -> Result<Vec<(u32, i64)>, AllocError> {
    let mut items = joined(maker.alloc(), group.items.as_slice(), &[])?;
    for r in group.rows.as_slice() {
        if *r < rows.len() {
            items = counted(maker, items.as_slice(), &rows[*r])?;
        }
    }
    Ok(items)
}

/// The values, and those of the item's box.
fn with_bins(maker: &Maker, bins: IntSet, item: (u32, i64)) -> Result<IntSet, AllocError> {
    let Some(set) = maker.domains().get(item.0 as usize) else {
        return Ok(bins);
    };
    if set.within(&bins) {
        return Ok(bins);
    }
    let both = bins.join(set)?;
    Ok(both)
}

/// The bins in which the items may be.
fn bins_of(maker: &Maker, items: &[(u32, i64)]) -> Result<IntSet, AllocError> {
    let mut bins = IntSet::empty(maker.alloc());
    for item in items {
        bins = with_bins(maker, bins, *item)?;
    }
    Ok(bins)
}

/// All sizes together.
fn whole(items: &[(u32, i64)]) -> i64 {
    let mut sum = 0i64;
    for item in items {
        sum = sum.saturating_add(item.1);
    }
    sum
}

/// The greatest room of the group's rows.
fn greatest_room(rows: &[Row], group: &Group) -> i64 {
    let mut most = 0;
    for r in group.rows.as_slice() {
        if *r < rows.len() && rows[*r].room > most {
            most = rows[*r].room;
        }
    }
    most
}

/// The place of the group's row of this bin.
fn row_for(rows: &[Row], group: &Group, bin: i64) -> Option<usize> {
    for r in group.rows.as_slice() {
        if *r < rows.len() && rows[*r].bin == bin {
            return Some(*r);
        }
    }
    None
}

/// Those of the items that may be in the bin.
fn loads_in(maker: &Maker, items: &[(u32, i64)], bin: i64) -> Result<Vec<(u32, i64)>, AllocError> {
    let mut loads = Vec::new(maker.alloc());
    for item in items {
        if may_be_in(maker, *item, bin) {
            loads.push(*item)?;
        }
    }
    Ok(loads)
}

/// The row of a bin: with the room of the row that it comes from, or where there is none with room
/// for all.
fn plan_row(
    maker: &Maker,
    rows: &[Row],
    group: &Group,
    items: &[(u32, i64)],
    bin: i64,
) -> Result<Planned, AllocError> {
    let loads = loads_in(maker, items, bin)?;
    let source = row_for(rows, group, bin);
    let room = match source {
        Some(r) if r < rows.len() => rows[r].room,
        _ => whole(loads.as_slice()).max(greatest_room(rows, group)),
    };
    Ok(Planned {
        row: Row { bin, loads, room },
        source,
    })
}

/// The rows of the bins of a range.
fn push_range(
    maker: &Maker,
    rows: &[Row],
    group: &Group,
    items: &[(u32, i64)],
    range: (i64, i64),
    out: &mut Vec<Planned>,
) -> Result<(), AllocError> {
    for bin in range.0..=range.1 {
        let p = plan_row(maker, rows, group, items, bin)?;
        out.push(p)?;
    }
    Ok(())
}

/// Whether together the rows say more than nothing: there are several items and bins, and not all
/// items fit into each bin.
fn says_something(rows: &[Row], group: &Group, items: &[(u32, i64)]) -> bool {
    if items.len() < 3 || group.rows.len() < 2 {
        return false;
    }
    let all = whole(items);
    for r in group.rows.as_slice() {
        if *r < rows.len() && rows[*r].room < all {
            return true;
        }
    }
    false
}

/// The rows of the packing that a group is, one for each bin in which an item may be. None where
/// it says nothing more.
pub(crate) fn packing_of(
    maker: &Maker,
    rows: &[Row],
    group: &Group,
) -> Result<Option<Vec<Planned>>, AllocError> {
    let items = items_of(maker, rows, group)?;
    let items = items.as_slice();
    if !says_something(rows, group, items) {
        return Ok(None);
    }
    let bins = bins_of(maker, items)?;
    if !bins.at_most(MOST_BINS) {
        return Ok(None);
    }
    let mut out = Vec::new(maker.alloc());
    for range in bins.ranges() {
        push_range(maker, rows, group, items, *range, &mut out)?;
    }
    Ok(Some(out))
}
