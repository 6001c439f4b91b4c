//! Items of which some of a goal's flags ask, as packings of their own.
//!
//! `count h in Host { exists o in Oracle { o.host = h; } }` is of some machines alone, beside which
//! each host may have others; but these alone need so many hosts. What each such count is at least,
//! rounded up, adds up to what the goal is at least.
ghost use Rattle.std.specs.Prelude.{IfOk, IfSome, OnOk};
ghost use Rattle.form_build.specs.Worlds.{Defines};
ghost use Rattle.packing_sums.specs.Packings.{AreSome, MayHave, IsPacking};
ghost use Rattle.stated_facts.specs.Rows.{IsNought};

use crate::rounding::rounded;
use crate::totals::{nothing, state_row};
use form_build::Maker;
use packing_sums::{
    Aim, Packing, away_from, hosts_of, is_among, row_of_used, take_all, with_items,
};
use stated_facts::{Nought, combined, factor_at};
use std::alloc::{AllocError, Global};

/// In more parts a goal isn't divided.
const MOST_PARTS: usize = 4;

/// Terms of a goal whose flags ask about the same items.
#[derive(Drop)]
pub(crate) struct Part {
    /// The items' variables, in order.
    vars: Vec<u32>,
    /// The terms, and what else is known of the goal's sum.
    aim: Aim,
}

/// The variables of which a flag tells whether one of them is in some bin.
fn vars_of(maker: &Maker, indexes: &[usize], flag: u32) -> Result<Option<Vec<u32>>, AllocError> {
    if let Some(w) = away_from(maker, indexes, flag, false)? {
        return Ok(Some(w.vars));
    }
    match away_from(maker, indexes, flag, true)? {
        Some(w) => Ok(Some(w.vars)),
        None => Ok(None),
    }
}

/// Adds a term to the part of the same variables, a new one where there is none.
fn push_term(
    maker: &Maker,
    aim: &Aim,
    parts: &mut Vec<Part>,
    vars: Vec<u32>,
    t: (i64, u32),
) -> Result<(), AllocError> {
    for k in 0..parts.len() {
        if parts[k].vars == vars {
            parts[k].aim.terms.push(t)?;
            return Ok(());
        }
    }
    let mut own = Aim {
        factors: Vec::from_slice(maker.alloc(), aim.factors.as_slice())?,
        terms: Vec::new(maker.alloc()),
        indexes: Vec::from_slice(maker.alloc(), aim.indexes.as_slice())?,
    };
    own.terms.push(t)?;
    parts.push(Part { vars, aim: own })?;
    Ok(())
}

/// The parts of a goal, none where they are too many.
fn parts_of(maker: &Maker, aim: &Aim) -> Result<Vec<Part>, AllocError> {
    let mut parts = Vec::new(maker.alloc());
    for t in aim.terms.as_slice() {
        if let Some(vars) = vars_of(maker, aim.indexes.as_slice(), t.1)? {
            push_term(maker, aim, &mut parts, vars, *t)?;
        }
        if parts.len() > MOST_PARTS {
            return Ok(Vec::new(maker.alloc()));
        }
    }
    Ok(parts)
}

/// Adds an item where its variable is among these.
fn push_among(out: &mut Vec<(u32, u64)>, vars: &[u32], s: (u32, u64)) -> Result<(), AllocError>
    ensures { OnOk result (MayHave out.old.items s out.new.items) }
{
    if is_among(vars, s.0) {
        out.push(s)?;
    }
    Ok(())
}

/// Those of the items whose variables are among these.
fn items_among(
    alloc: Global,
    items: &[(u32, u64)],
    vars: &[u32],
) -> Result<Vec<(u32, u64)>, AllocError>
    ensures { IfOk result (λ out. AreSome items.now out.items) }
{
    let mut out = Vec::new(alloc);
    for s in items {
        push_among(&mut out, vars, *s)?;
    }
    Ok(out)
}

/// Those of a packing's items whose variables are among these.
fn items_in(alloc: Global, p: &Packing, vars: &[u32]) -> Result<Vec<(u32, u64)>, AllocError>
    ensures { IfOk result (λ out. AreSome p.now.items.items out.items) }
{
    let out = items_among(alloc, p.items.as_slice(), vars)?;
    Ok(out)
}

/// The packing of those items whose variables are among these.
fn packing_among(maker: &Maker, p: &Packing, vars: &[u32]) -> Result<Option<Packing>, AllocError>
    requires { IsPacking maker.now p.now }
    ensures { IfOk result (λ o. IfSome o (λ q. IsPacking maker.now q)) }
{
    let items = items_in(maker.alloc(), p, vars)?;
    let q = with_items(maker, items, p.room)?;
    Ok(q)
}

/// What the flags of a part are at least, as a row.
fn row_of(
    maker: &Maker,
    p: &Packing,
    part: &Part,
    rises: bool,
) -> Result<Option<Nought>, AllocError>
    requires { IsPacking maker.now p.now }
    ensures { IfOk result (λ o. IfSome o (λ z. IsNought maker.now z)) }
{
    let Some(q) = packing_among(maker, p, part.vars.as_slice())? else {
        return Ok(None);
    };
    let hosts = hosts_of(maker, &q, &part.aim, rises)?;
    let Some(t) = take_all(maker, &q, hosts.as_slice())? else {
        return Ok(None);
    };
    let Some(row) = row_of_used(maker, &q, &t)? else {
        return Ok(None);
    };
    let z = rounded(maker, row)?;
    Ok(z)
}

/// How much a flag of the part adds to the goal's sum, but for its sign.
fn factor_of(part: &Part) -> i64 {
    match part.aim.terms.first() {
        Some(t) => factor_at(&part.aim.factors, t.1).saturating_abs(),
        None => 0,
    }
}

/// With the row of a part, as often as its flags count.
fn with_part(
    maker: &Maker,
    total: Nought,
    p: &Packing,
    part: &Part,
    rises: bool,
) -> Result<Nought, AllocError>
    requires total { IsNought maker.now total }
    requires packing { IsPacking maker.now p.now }
    ensures { IfOk result (λ z. IsNought maker.now z) }
{
    let Some(row) = row_of(maker, p, part, rises)? else {
        return Ok(total);
    };
    match combined(maker, &total, &row, factor_of(part))? {
        Some(more) => Ok(more),
        None => Ok(total),
    }
}

/// The rows of all parts, added up.
fn rows_of(maker: &Maker, p: &Packing, parts: &[Part], rises: bool) -> Result<Nought, AllocError>
    requires { IsPacking maker.now p.now }
    ensures { IfOk result (λ z. IsNought maker.now z) }
{
    let mut total = nothing(maker);
    for part in parts {
        total = with_part(maker, total, p, part, rises)?;
    }
    Ok(total)
}

/// States the row of a part.
fn state_part(maker: &mut Maker, p: &Packing, part: &Part, rises: bool) -> Result<(), AllocError>
    requires { IsPacking maker.old p.now }
    ensures { OnOk result (Defines maker.old maker.new) }
{
    match row_of(maker, p, part, rises)? {
        Some(row) => {
            state_row(maker, &row)?;
            Ok(())
        }
        None => Ok(()),
    }
}

/// States the rows of all parts, with what is 0.
fn state_total(
    maker: &mut Maker,
    zero: &Nought,
    p: &Packing,
    parts: &[Part],
    rises: bool,
) -> Result<(), AllocError>
    requires nought { IsNought maker.old zero.now }
    requires packing { IsPacking maker.old p.now }
    ensures { OnOk result (Defines maker.old maker.new) }
{
    let rows = rows_of(maker, p, parts, rises)?;
    let times = if rises { 1 } else { -1 };
    match combined(maker, &rows, zero, times)? {
        Some(total) => {
            state_row(maker, &total)?;
            Ok(())
        }
        None => Ok(()),
    }
}

/// Whether some items of the packing aren't the only part's.
fn is_divided(p: &Packing, parts: &[Part]) -> bool {
    match parts {
        [] => false,
        [only] => only.vars.len() < p.items.len(),
        _ => true,
    }
}

/// States the rows of all parts, each and together with what is 0.
fn state_parts(
    maker: &mut Maker,
    zero: &Nought,
    p: &Packing,
    parts: &[Part],
    rises: bool,
) -> Result<(), AllocError>
    requires nought { IsNought maker.old zero.now }
    requires packing { IsPacking maker.old p.now }
    ensures { OnOk result (Defines maker.old maker.new) }
{
    state_total(maker, zero, p, parts, rises)?;
    for part in parts {
        state_part(maker, p, part, rises)?;
    }
    Ok(())
}

/// Adds the rows of the parts of a packing of which the goal's flags ask.
pub(crate) fn add_parts(
    maker: &mut Maker,
    zero: &Nought,
    p: &Packing,
    aim: &Aim,
) -> Result<(), AllocError>
    requires nought { IsNought maker.old zero.now }
    requires packing { IsPacking maker.old p.now }
    ensures { OnOk result (Defines maker.old maker.new) }
{
    let parts = parts_of(maker, aim)?;
    if !is_divided(p, parts.as_slice()) {
        return Ok(());
    }
    state_parts(maker, zero, p, parts.as_slice(), true)?;
    state_parts(maker, zero, p, parts.as_slice(), false)?;
    Ok(())
}
