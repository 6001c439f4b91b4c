//! The terms of a sum by their index. No promise rests on it.
use crate::places::{Places, is_bin, pairs_at};
use crate::values::equal_to;
use form_build::{Linear, Maker};
use ground_form::Con;
use stated_facts::definition;
use std::alloc::AllocError;

/// Terms whose values follow from one index.
#[derive(Drop)]
pub(crate) struct Group {
    /// The index.
    pub index: u32,
    /// The terms.
    pub terms: Vec<(i64, u32)>,
}

/// The index by which a constraint picks an element, which the variable is.
fn picking(con: Option<&Con>, y: u32) -> Option<u32> {
    match con {
        Some(Con::ElementDef { out, index, .. }) => { if *out == y { Some(*index) } else { None } }
        _ => None,
    }
}

/// A bin that clauses of two literals name beside the variable.
fn linked(places: &Places, y: u32) -> Option<u32> {
    for p in pairs_at(places.pairs.as_slice(), y) {
        if is_bin(places, p.1) {
            return Some(p.1);
        }
    }
    None
}

/// The index of which a variable is an element, a flag of one, a flag, a cell by cases, or equal to
/// one of these.
fn index_of(maker: &Maker, places: &Places, y: u32) -> Option<u32> {
    let y = equal_to(maker, places, y).unwrap_or(y);
    let definitions = places.definitions.as_slice();
    if y < maker.search() {
        return linked(places, y);
    }
    let con = definition(maker, definitions, y);
    if let Some(x) = picking(con, y) {
        return Some(x);
    }
    match con {
        Some(Con::MemberDef { flag, var, .. }) => {
            if *flag != y {
                return None;
            }
            let inner = definition(maker, definitions, *var);
            Some(picking(inner, *var).unwrap_or(*var))
        }
        _ => None,
    }
}

/// Whether the variable is a flag that asks about the index itself.
fn is_plain(maker: &Maker, places: &Places, x: u32, y: u32) -> bool {
    match definition(maker, places.definitions.as_slice(), y) {
        Some(Con::MemberDef { flag, var, .. }) => *flag == y && *var == x,
        _ => false,
    }
}

/// The index and the variable of each term whose index is a bin, with the coefficient, in order.
fn indexed(
    maker: &Maker,
    places: &Places,
    sum: &Linear,
) -> Result<Vec<(u32, u32, i64)>, AllocError> {
    let mut out = Vec::new(maker.alloc());
    for t in sum.terms.items() {
        if let Some(x) = index_of(maker, places, t.1)
            && is_bin(places, x)
        {
            out.push((x, t.1, t.0))?;
        }
    }
    out.sort_unstable();
    Ok(out)
}

/// Adds a term to the last group, or begins another one.
fn push_term(maker: &Maker, groups: &mut Vec<Group>, p: (u32, u32, i64)) -> Result<(), AllocError> {
    if let Some(last) = groups.last_mut()
        && last.index == p.0
    {
        last.terms.push((p.2, p.1))?;
        return Ok(());
    }
    let mut terms = Vec::new(maker.alloc());
    terms.push((p.2, p.1))?;
    groups.push(Group { index: p.0, terms })?;
    Ok(())
}

/// Whether the terms of a group are more than a flag that asks about the index.
pub(crate) fn is_wanted(maker: &Maker, places: &Places, g: &Group) -> bool {
    match g.terms.as_slice() {
        [t] => !is_plain(maker, places, g.index, t.1),
        _ => true,
    }
}

/// The terms of a sum whose index is a bin, by the index.
pub(crate) fn groups_of(
    maker: &Maker,
    places: &Places,
    sum: &Linear,
) -> Result<Vec<Group>, AllocError> {
    let mut groups = Vec::new(maker.alloc());
    for p in indexed(maker, places, sum)?.as_slice() {
        push_term(maker, &mut groups, *p)?;
    }
    Ok(groups)
}
