//! Pigeons, one more than there are holes for them.
use crate::problems::{Draft, Problem};
use ground_form::{Con, PackItems, Terms};
use std::alloc::{AllocError, Global};

/// Each hole is a sum of flags that is at most 1.
pub(crate) fn holes_by_sums(alloc: Global, holes: u32) -> Result<Problem, AllocError> {
    let pigeons = holes.saturating_add(1);
    let mut draft = Draft::new(alloc, pigeons, holes)?;
    for hole in 0..holes {
        let terms = Terms::of(flags_of(alloc, &mut draft, pigeons, hole)?);
        draft.state(Con::LinLe { terms, bound: 1 })?;
    }
    Ok(draft.finish(None))
}

/// The flags of the pigeons in a hole.
fn flags_of(
    alloc: Global,
    draft: &mut Draft,
    pigeons: u32,
    hole: u32,
) -> Result<Vec<(i64, u32)>, AllocError> {
    let mut terms = Vec::new(alloc);
    for pigeon in 0..pigeons {
        terms.push((1, draft.flag(pigeon, hole)?))?;
    }
    Ok(terms)
}

/// The holes are the bins of one packing.
pub(crate) fn holes_by_packing(alloc: Global, holes: u32) -> Result<Problem, AllocError> {
    let pigeons = holes.saturating_add(1);
    let mut draft = Draft::new(alloc, pigeons, holes)?;
    let one = draft.variable(1, 1)?;
    let mut items = Vec::new(alloc);
    for pigeon in 0..pigeons {
        items.push((pigeon, one, one))?;
    }
    let items = PackItems::of(items);
    draft.state(Con::Pack { items })?;
    Ok(draft.finish(None))
}
