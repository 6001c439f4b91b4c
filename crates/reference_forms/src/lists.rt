//! The lists of a chosen object: parts that are members where their owner is chosen, and a set's
//! members with the cell of each owner.
ghost use Rattle.std.specs.Prelude.{◌≡◌, ◌++◌, ◌∷◌, [], Some, map, slice_index_or, IfOk, OnOk};
ghost use Rattle.object_alloc.specs.Groups.{own_cells};
ghost use Rattle.reference_forms.specs.Lists.{those_parts, chosen_parts, slot_cells, slots_from, slot_view};

use expr_forms::{Member, Slot};
use form_build::Truth;
use object_alloc::Objects;
use signed_clause::IntSet;
use std::alloc::{AllocError, Global};

/// An object, a member where the variable has the value.
fn part_member(alloc: Global, x: u32, value: i64, object: u32) -> Member
    ensures { result ∷ [] ≡ those_parts x value (object ∷ []) }
{
    let is = Truth::In(x, IntSet::range(alloc, value, value));
    Member { object, is }
}

/// Adds these objects, members where the variable has the value.
fn push_parts(
    alloc: Global,
    members: &mut Vec<Member>,
    x: u32,
    value: i64,
    parts: &[u32],
) -> Result<(), AllocError>
    ensures { OnOk result
        (members.new.items ≡ members.old.items ++ those_parts x value parts.now) }
{
    for part in parts {
        members.push(part_member(alloc, x, value, *part))?;
    }
    Ok(())
}

/// What attribute `k` of the objects holds, each a member where its owner's value is that of `x`.
pub(crate) fn chosen_parts(
    alloc: Global,
    objects: &Objects<'_>,
    x: u32,
    pairs: &[(i64, u32)],
    k: u32,
) -> Result<Vec<Member>, AllocError>
    ensures { IfOk result (λ ms. ms.items ≡ chosen_parts objects.now x k pairs.now) }
{
    let mut members = Vec::new(alloc);
    for p in pairs {
        push_parts(alloc, &mut members, x, p.0, objects.parts(Some(p.1), k))?;
    }
    Ok(members)
}

/// The owner, with the cell that says whether member number `i` is in its set.
fn owner_cell(objects: &Objects<'_>, k: u32, i: usize, owner: u32) -> (u32, u32)
    ensures { result ≡ (owner, slice_index_or (own_cells objects.now (Some owner) k) i 0) }
{
    match objects.own_cells(Some(owner), k).get(i) {
        Some(cell) => (owner, *cell),
        None => (owner, 0),
    }
}

/// Each owner, with the cell that says whether member number `i` is in its set.
fn slot_cells(
    alloc: Global,
    objects: &Objects<'_>,
    k: u32,
    i: usize,
    pairs: &[(i64, u32)],
) -> Result<Vec<(u32, u32)>, AllocError>
    ensures { IfOk result (λ cells. cells.items ≡ slot_cells objects.now k i pairs.now) }
{
    let mut cells = Vec::new(alloc);
    for p in pairs {
        cells.push(owner_cell(objects, k, i, p.1))?;
    }
    Ok(cells)
}

/// The objects that may be members of the owners' sets, each with the owners' cells for it.
pub(crate) fn slots_of(
    alloc: Global,
    objects: &Objects<'_>,
    pairs: &[(i64, u32)],
    k: u32,
    members: &[u32],
) -> Result<Vec<Slot>, AllocError>
    ensures { IfOk result (λ slots. map slot_view slots.items
        ≡ slots_from objects.now k pairs.now 0 members.now) }
{
    let mut slots = Vec::new(alloc);
    for i in 0..members.len() {
        let object = members[i];
        let cells = slot_cells(alloc, objects, k, i, pairs)?;
        slots.push(Slot { object, cells })?;
    }
    Ok(slots)
}
