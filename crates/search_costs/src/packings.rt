//! Items of two sizes that are put into bins: as few of them as may be away from their homes.
//!
//! Of each size the bins have a little more room than all items take.
use crate::problems::{Draft, Problem};
use ground_form::{Con, PackItems, Terms};
use std::alloc::{AllocError, Global};

/// How many bins and items there are.
#[derive(Clone, Copy)]
pub(crate) struct Shape {
    /// Bins.
    pub(crate) bins: u32,
    /// Items.
    pub(crate) items: u32,
}

/// A number of 0 to 96 that looks random.
fn scattered(item: u32, salt: u32) -> u32 {
    let mixed = item
        .wrapping_mul(2_654_435_761)
        .wrapping_add(salt.wrapping_mul(40_503))
        .wrapping_mul(2_246_822_519);
    (mixed >> 13) % 97
}

/// One of the two sizes of an item: 2 to 8.
fn size_of(item: u32, kind: u32) -> u32 {
    scattered(item, kind.saturating_add(1)) % 7 + 2
}

/// The bin in which an item is at home.
fn home_of(item: u32, bins: u32) -> u32 {
    scattered(item, 0) % bins.max(1)
}

/// How much of a size each bin has room for.
fn room_of(shape: Shape, kind: u32) -> u32 {
    let mut all = 0u32;
    for item in 0..shape.items {
        all = all.saturating_add(size_of(item, kind));
    }
    (all / shape.bins.max(1)).saturating_add(2)
}

/// How many items are away from home, as a variable: all of them, less the flags of those at home.
fn count_away(alloc: Global, draft: &mut Draft, shape: Shape) -> Result<u32, AllocError> {
    let mut terms = Vec::new(alloc);
    for item in 0..shape.items {
        let flag = draft.flag(item, home_of(item, shape.bins))?;
        terms.push((-1, flag))?;
    }
    draft.sum(terms, shape.items, shape.items)
}

/// The sizes of the items times their flags.
fn sized(alloc: Global, flags: &[(u32, u32)], kind: u32) -> Result<Vec<(i64, u32)>, AllocError> {
    let mut terms = Vec::new(alloc);
    for (item, flag) in flags {
        terms.push((i64::from(size_of(*item, kind)), *flag))?;
    }
    Ok(terms)
}

/// For each size of the items the sum in the bin is at most its room.
fn fill(alloc: Global, draft: &mut Draft, shape: Shape, bin: u32) -> Result<(), AllocError> {
    let mut flags = Vec::new(alloc);
    for item in 0..shape.items {
        flags.push((item, draft.flag(item, bin)?))?;
    }
    for kind in 0..2 {
        let terms = Terms::of(sized(alloc, flags.as_slice(), kind)?);
        let bound = i64::from(room_of(shape, kind));
        draft.state(Con::LinLe { terms, bound })?;
    }
    Ok(())
}

/// The bins are sums of flags.
pub(crate) fn packing_by_sums(alloc: Global, shape: Shape) -> Result<Problem, AllocError> {
    let mut draft = Draft::new(alloc, shape.items, shape.bins)?;
    for bin in 0..shape.bins {
        fill(alloc, &mut draft, shape, bin)?;
    }
    let away = count_away(alloc, &mut draft, shape)?;
    Ok(draft.finish(Some(away)))
}

/// A packing constraint for one of the sizes.
fn pack(alloc: Global, draft: &mut Draft, shape: Shape, kind: u32) -> Result<(), AllocError> {
    let room = room_of(shape, kind);
    let room = draft.variable(room, room)?;
    let mut items = Vec::new(alloc);
    for item in 0..shape.items {
        let size = size_of(item, kind);
        items.push((item, draft.variable(size, size)?, room))?;
    }
    let items = PackItems::of(items);
    draft.state(Con::Pack { items })
}

/// The bins are those of a packing constraint for each size.
pub(crate) fn packing_by_packs(alloc: Global, shape: Shape) -> Result<Problem, AllocError> {
    let mut draft = Draft::new(alloc, shape.items, shape.bins)?;
    for kind in 0..2 {
        pack(alloc, &mut draft, shape, kind)?;
    }
    let away = count_away(alloc, &mut draft, shape)?;
    Ok(draft.finish(Some(away)))
}
