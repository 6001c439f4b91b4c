//! Bounds of a goal by the rows that bound its sum.
//!
//! `count h in Host { h.on } >= 3` bounds the goal that counts the same hosts: with a multiple of
//! what the goal is, nothing but the goal is left of the row. Search alone would have to try which
//! hosts are on.
ghost use Rattle.std.specs.Prelude.{IfOk, IfSome, OnOk};
ghost use Rattle.form_build.specs.Worlds.{Defines};
ghost use Rattle.stated_facts.specs.Rows.{IsNought};

use crate::totals::{nothing, state_row};
use form_build::{Linear, Maker};
use ground_form::Con;
use stated_facts::{Nought, balance_at, combined};
use std::alloc::AllocError;

/// The first term that isn't the goal's.
fn first_but(terms: &[(i64, u32)], goal: u32) -> Option<(i64, u32)> {
    for t in terms {
        if t.1 != goal {
            return Some(*t);
        }
    }
    None
}

/// Whether these terms may be those of the sum but for the goal's: as many, with the same first
/// variable.
fn may_bound(terms: &[(i64, u32)], sum: &[(i64, u32)], goal: u32) -> bool {
    if terms.len().saturating_add(1) != sum.len() {
        return false;
    }
    match (terms.first(), first_but(sum, goal)) {
        (Some(t), Some(s)) => t.1 == s.1,
        _ => false,
    }
}

/// Whether constraint k is a row over what may be the sum's terms but for the goal's.
fn is_row_over(maker: &Maker, sum: &Linear, goal: u32, k: usize) -> bool {
    match maker.cons().get(k) {
        Some(Con::LinLe { terms, .. }) => may_bound(terms.items(), sum.terms.items(), goal),
        _ => false,
    }
}

/// How often a row and a sum are taken so that what is so often in each goes, where the one divides
/// the other.
fn times_of(row: i64, sum: i64) -> Option<(i64, i64)> {
    if let (Some(0), Some(n)) = (row.checked_rem(sum), row.checked_div(sum)) {
        return n.checked_neg().map(|m| (1, m));
    }
    match (sum.checked_rem(row), sum.checked_div(row)) {
        (Some(0), Some(n)) => n.checked_abs().map(|k| (k, if n > 0 { -1 } else { 1 })),
        _ => None,
    }
}

/// How often the row and the sum are taken, by their first terms.
fn times_for(row: &Linear, sum: &Linear, goal: u32) -> Option<(i64, i64)> {
    let first = row.terms.items().first()?;
    let other = first_but(sum.terms.items(), goal)?;
    times_of(first.0, other.0)
}

/// The row so often, with what is 0 so often.
fn bound_by(
    maker: &Maker,
    row: &Nought,
    zero: &Nought,
    times: (i64, i64),
) -> Result<Option<Nought>, AllocError>
    requires row { IsNought maker.now row.now }
    requires zero { IsNought maker.now zero.now }
    ensures { IfOk result (λ o. IfSome o (λ z. IsNought maker.now z)) }
{
    let Some(rows) = combined(maker, &nothing(maker), row, times.0)? else {
        return Ok(None);
    };
    let z = combined(maker, &rows, zero, times.1)?;
    Ok(z)
}

/// Adds the bound that follows from a row, where nothing but one variable is left of it.
fn add_by_row(maker: &mut Maker, zero: &Nought, goal: u32, row: &Nought) -> Result<(), AllocError>
    requires nought { IsNought maker.old zero.now }
    requires row { IsNought maker.old row.now }
    ensures { OnOk result (Defines maker.old maker.new) }
{
    let Some(times) = times_for(&row.sum, &zero.sum, goal) else {
        return Ok(());
    };
    let Some(bound) = bound_by(maker, row, zero, times)? else {
        return Ok(());
    };
    if bound.sum.terms.items().len() != 1 {
        return Ok(());
    }
    state_row(maker, &bound)?;
    Ok(())
}

/// Adds the bound that follows from constraint k, where it is a row over the goal's sum.
fn add_bound(maker: &mut Maker, zero: &Nought, goal: u32, k: usize) -> Result<(), AllocError>
    requires nought { IsNought maker.old zero.now }
    ensures { OnOk result (Defines maker.old maker.new) }
{
    if !is_row_over(maker, &zero.sum, goal, k) {
        return Ok(());
    }
    let Some(row) = balance_at(maker, k)? else {
        return Ok(());
    };
    add_by_row(maker, zero, goal, &row)?;
    Ok(())
}

/// Adds the bounds of a goal that follow from rows over its sum; `zero` is the sum less the goal.
pub(crate) fn add_bounds(maker: &mut Maker, zero: &Nought, goal: u32) -> Result<(), AllocError>
    requires nought { IsNought maker.old zero.now }
    ensures { OnOk result (Defines maker.old maker.new) }
{
    let count = maker.cons().len();
    for k in 0..count {
        add_bound(maker, zero, goal, k)?;
    }
    Ok(())
}
