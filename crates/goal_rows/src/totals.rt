//! Totals of rows that count the same items, each in a bin of its own.
//!
//! `forall h in Host { sum v in Vm where v.host = h { v.cpu } <= most; }` bounds each host alone.
//! Since each machine is on one of the hosts, all rows together say that as many times `most` as
//! there are hosts is at least the sum of all sizes; and `load = ..` of each host what all loads
//! add up to. So rows are added up, with a row for each item that it is in one of their bins, and
//! what is left says nothing of single items. Without the row of one host it says how much has to
//! be there: what the others have no room for. Where rooms are cells that are decided first, this
//! refutes a room that is never filled.
//!
//! Where one row says how much is on a host at most, and another how much at least, both together
//! say nothing of single items either: `load = sum ..` and `sum .. <= cpu` that `load <= cpu`.
ghost use Rattle.std.specs.Prelude.{IfOk, IfSome, OnOk};
ghost use Rattle.form_build.specs.Worlds.{Defines};
ghost use Rattle.stated_facts.specs.Rows.{IsNought};

use crate::counting::{Counting, Sides, flags_of, groups_of, least_of, sides_of};
use crate::covers::cover_of;
use form_build::Maker;
use packing_sums::{Multiple, amount, state_multiples};
use stated_facts::{Nought, balance_at, combined, definition_indexes};
use std::alloc::AllocError;

/// Of more rows none is left out.
const MOST_ROWS: usize = 32;

/// Of rows that count more flags none is left out.
const MOST_FLAGS: usize = 1 << 12;

/// No row: 0 is 0.
pub(crate) fn nothing(maker: &Maker) -> Nought
    ensures { IsNought maker.now result }
{
    let sum = amount(maker.alloc(), 0);
    Nought {
        sum,
        adds: true,
        takes: true,
    }
}

/// States what is at most 0.
pub(crate) fn state_row(maker: &mut Maker, row: &Nought) -> Result<(), AllocError>
    requires { IsNought maker.old row.now }
    ensures { OnOk result (Defines maker.old maker.new) }
{
    let none = amount(maker.alloc(), 0);
    let once = [Multiple { row: 0, zero: 1 }];
    state_multiples(maker, &none, row, &once, true)?;
    Ok(())
}

/// With the row that constraint k says.
fn with_row(maker: &Maker, total: &Nought, k: usize) -> Result<Option<Nought>, AllocError>
    requires { IsNought maker.now total.now }
    ensures { IfOk result (λ o. IfSome o (λ z. IsNought maker.now z)) }
{
    let Some(row) = balance_at(maker, k)? else {
        return Ok(None);
    };
    let z = combined(maker, total, &row, 1)?;
    Ok(z)
}

/// With the row that the group's item of this number is in one of their bins, as often as its
/// size.
fn with_item(
    maker: &Maker,
    indexes: &[usize],
    total: &Nought,
    group: &[Counting],
    i: usize,
) -> Result<Option<Nought>, AllocError>
    requires { IsNought maker.now total.now }
    ensures { IfOk result (λ o. IfSome o (λ z. IsNought maker.now z)) }
{
    let Some(c) = group.first() else {
        return Ok(None);
    };
    let Some(item) = c.items.get(i) else {
        return Ok(None);
    };
    let flags = flags_of(maker, group, i)?;
    let Some(cover) = cover_of(maker, indexes, item.var, flags.as_slice())? else {
        return Ok(None);
    };
    let z = combined(maker, total, &cover, item.size)?;
    Ok(z)
}

/// The rows of a group but the one of this number, added up.
fn rows_but(maker: &Maker, group: &[Counting], but: usize) -> Result<Option<Nought>, AllocError>
    ensures { IfOk result (λ o. IfSome o (λ z. IsNought maker.now z)) }
{
    let mut total = nothing(maker);
    for k in 0..group.len() {
        if k == but {
            continue;
        }
        match with_row(maker, &total, group[k].row)? {
            Some(more) => total = more,
            None => return Ok(None),
        }
    }
    Ok(Some(total))
}

/// That each item of a group is in one of their bins, as often as its size.
fn covers_of(
    maker: &Maker,
    indexes: &[usize],
    group: &[Counting],
) -> Result<Option<Nought>, AllocError>
    ensures { IfOk result (λ o. IfSome o (λ z. IsNought maker.now z)) }
{
    let count = match group.first() {
        Some(c) => c.items.len(),
        None => 0,
    };
    let mut total = nothing(maker);
    for i in 0..count {
        match with_item(maker, indexes, &total, group, i)? {
            Some(more) => total = more,
            None => return Ok(None),
        }
    }
    Ok(Some(total))
}

/// States that the rows of a group but the one of this number have room for all items that aren't
/// in its bin.
fn add_but(
    maker: &mut Maker,
    group: &[Counting],
    covers: &Nought,
    but: usize,
) -> Result<(), AllocError>
    requires { IsNought maker.old covers.now }
    ensures { OnOk result (Defines maker.old maker.new) }
{
    let Some(rows) = rows_but(maker, group, but)? else {
        return Ok(());
    };
    let Some(total) = combined(maker, &rows, covers, 1)? else {
        return Ok(());
    };
    state_row(maker, &total)?;
    Ok(())
}

/// Whether the row of this number is to be left out once: nothing else says how much is in its bin
/// at least.
fn is_left_out(least: &[Counting], group: &[Counting], k: usize) -> bool {
    match group.get(k) {
        Some(c) => least_of(least, c).is_none(),
        None => false,
    }
}

/// Whether so many rows of so many items are few enough to leave out each of them once.
fn are_few(group: &[Counting]) -> bool {
    match group.first() {
        Some(c) => {
            group.len() <= MOST_ROWS && c.items.len().saturating_mul(group.len()) <= MOST_FLAGS
        }
        None => false,
    }
}

/// The same of the row of this number where it is to be left out once.
fn add_without(
    maker: &mut Maker,
    group: &[Counting],
    covers: &Nought,
    least: &[Counting],
    k: usize,
) -> Result<(), AllocError>
    requires { IsNought maker.old covers.now }
    ensures { OnOk result (Defines maker.old maker.new) }
{
    if !is_left_out(least, group, k) {
        return Ok(());
    }
    add_but(maker, group, covers, k)?;
    Ok(())
}

/// States how much is at least in each bin of a group: what the others have no room for.
fn add_each(
    maker: &mut Maker,
    group: &[Counting],
    covers: &Nought,
    least: &[Counting],
) -> Result<(), AllocError>
    requires { IsNought maker.old covers.now }
    ensures { OnOk result (Defines maker.old maker.new) }
{
    if !are_few(group) {
        return Ok(());
    }
    for k in 0..group.len() {
        add_without(maker, group, covers, least, k)?;
    }
    Ok(())
}

/// States the total of a group of rows, and what it says of each bin.
fn add_with_each(
    maker: &mut Maker,
    group: &[Counting],
    covers: &Nought,
    least: &[Counting],
) -> Result<(), AllocError>
    requires { IsNought maker.old covers.now }
    ensures { OnOk result (Defines maker.old maker.new) }
{
    add_but(maker, group, covers, group.len())?;
    add_each(maker, group, covers, least)?;
    Ok(())
}

/// The same of a group of several rows, where they count all bins of their items.
fn add_total(
    maker: &mut Maker,
    indexes: &[usize],
    group: &[Counting],
    least: &[Counting],
) -> Result<(), AllocError>
    ensures { OnOk result (Defines maker.old maker.new) }
{
    if group.len() < 2 {
        return Ok(());
    }
    match covers_of(maker, indexes, group)? {
        Some(covers) => {
            add_with_each(maker, group, &covers, least)?;
            Ok(())
        }
        None => Ok(()),
    }
}

/// States what follows where a row says how much is in a bin at most, and another how much at
/// least.
fn add_difference(maker: &mut Maker, c: &Counting, least: &[Counting]) -> Result<(), AllocError>
    ensures { OnOk result (Defines maker.old maker.new) }
{
    let Some(k) = least_of(least, c) else {
        return Ok(());
    };
    let Some(low) = with_row(maker, &nothing(maker), k)? else {
        return Ok(());
    };
    let Some(both) = with_row(maker, &low, c.row)? else {
        return Ok(());
    };
    state_row(maker, &both)?;
    Ok(())
}

/// States what follows from the rows on both sides of what is in a bin.
fn add_differences(maker: &mut Maker, sides: &Sides) -> Result<(), AllocError>
    ensures { OnOk result (Defines maker.old maker.new) }
{
    for c in sides.most.as_slice() {
        add_difference(maker, c, sides.least.as_slice())?;
    }
    Ok(())
}

/// Adds the totals that follow from the rows that are stated. Nothing new is said.
pub fn add_totals(maker: &mut Maker) -> Result<(), AllocError>
    ensures { OnOk result (Defines maker.old maker.new) }
{
    let indexes = definition_indexes(maker)?;
    let sides = sides_of(maker, indexes.as_slice())?;
    add_differences(maker, &sides)?;
    let groups = groups_of(maker, sides.most)?;
    for group in groups.as_slice() {
        add_total(
            maker,
            indexes.as_slice(),
            group.as_slice(),
            sides.least.as_slice(),
        )?;
    }
    Ok(())
}
