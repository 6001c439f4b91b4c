//! Items to be packed, numbered one after the other, and their sizes and rooms.
use ground_form::PackItems;
use signed_clause::IntSet;
use std::alloc::{AllocError, Global};

/// `n` items, each with a place, a size and a room of its own.
pub(crate) fn items(alloc: Global, n: u32) -> Result<PackItems, AllocError> {
    let mut items = Vec::new(alloc);
    for i in 0..n {
        let size = n.saturating_add(i);
        items.push((i, size, n.saturating_add(size)))?;
    }
    Ok(PackItems::of(items))
}

/// Adds sizes of 1, but that the last may be up to `most`, and rooms, every second of them the
/// other of the two.
pub(crate) fn push_sizes(
    boxes: &mut Vec<IntSet>,
    alloc: Global,
    n: u32,
    most: i64,
    rooms: (i64, i64),
) -> Result<(), AllocError> {
    for _ in 1..n {
        boxes.push(IntSet::range(alloc, 1, 1))?;
    }
    boxes.push(IntSet::range(alloc, 1, most.max(1)))?;
    for i in 0..n {
        let room = if i % 2 == 0 { rooms.0 } else { rooms.1 };
        boxes.push(IntSet::range(alloc, room, room))?;
    }
    Ok(())
}
