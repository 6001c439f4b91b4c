//! What follows from tables, stated.
ghost use Rattle.std.specs.Prelude.{◌≡◌, ◌<◌, ◌≤◌, ℤ, List, true, false, length, IfOk, OnOk};
ghost use Rattle.std.specs.List.{All};
ghost use Rattle.signed_clause.specs.Ranges.{has};
ghost use Rattle.ground_form.specs.Meaning.{value_of};
ghost use Rattle.form_build.specs.Forms.{truth_at, HasVariable};
ghost use Rattle.form_build.specs.Worlds.{IsWorld, AllHold, Defines};
ghost use Rattle.form_truths.specs.Disjunctions.{disjunction_at, IsWithin};
ghost use Rattle.stated_cases.specs.Tables.{IsEntry};

use crate::chains::{Place, by_greatest, by_least, chain_of};
use crate::entries::Entry;
use crate::reading::{entries_of, pairs_of};
use form_build::{Maker, Truth};
use form_truths::{Disjunction, literal, require};
use signed_clause::IntSet;
use std::alloc::AllocError;

/// Of tables with more entries nothing is made.
const MOST_ENTRIES: usize = 128;

/// About so many clauses at most are made of a table for each of its two orders.
const MOST_CLAUSES: usize = 32;

/// Whether the variable's value is in the set, as a truth.
fn truth_in(maker: &Maker, x: u32, set: &IntSet) -> Result<Truth, AllocError>
    requires exists { x < length maker.now.domains }
    ensures variable { IfOk result (λ t. HasVariable (length maker.now.domains) t) }
    ensures value { IfOk result (λ t. (a : List ℤ) → IsWorld maker.now a
        → truth_at t a ≡ has set.now (value_of a x)) }
{
    let set = set.copy()?;
    Ok(literal(maker.domains(), x, set))
}

/// The entry as a disjunction.
fn disjunction_of(maker: &Maker, e: &Entry) -> Result<Disjunction, AllocError>
    requires index { e.now.index < length maker.now.domains }
    requires number { e.now.number < length maker.now.domains }
    ensures exist { IfOk result (λ d. IsWithin (length maker.now.domains) d.1) }
    ensures holds { IfOk result (λ d. IsEntry maker.now e.now → (a : List ℤ)
        → IsWorld maker.now a → AllHold maker.now a → disjunction_at d a ≡ true) }
{
    let others = truth_in(maker, e.index, &e.others)?;
    let values = truth_in(maker, e.number, &e.values)?;
    let mut d = Disjunction::new(maker.alloc());
    d.push(others)?;
    d.push(values)?;
    Ok(d)
}

/// Whether one of the entry's variables doesn't exist.
fn is_missing(maker: &Maker, e: &Entry) -> bool
    ensures index { result ≡ false → e.now.index < length maker.now.domains }
    ensures number { result ≡ false → e.now.number < length maker.now.domains }
{
    let count = maker.domains().len();
    e.index as usize >= count || e.number as usize >= count
}

/// States an entry.
fn state_entry(maker: &mut Maker, e: &Entry) -> Result<(), AllocError>
    requires { IsEntry maker.old e.now }
    ensures { OnOk result (Defines maker.old maker.new) }
{
    if is_missing(maker, e) {
        return Ok(());
    }
    let d = disjunction_of(maker, e)?;
    maker.ask(1)?;
    require(maker, d)?;
    Ok(())
}

/// Whether what the first entries say isn't to be stated: one behind has the same value, or too
/// many were stated, or these are all.
fn is_idle(order: &[Place], k: usize, whole: bool) -> bool {
    let count = order.len();
    if k >= count || count - k < 2 {
        return !whole;
    }
    let stride = count / MOST_CLAUSES + 1;
    k % stride != 0 || order[k].0 == order[k + 1].0
}

/// States what the first entries say together, where that is wanted.
fn state_step(
    maker: &mut Maker,
    chain: &[Entry],
    order: &[Place],
    k: usize,
    whole: bool,
) -> Result<(), AllocError>
    requires { All (IsEntry maker.old) chain.now }
    ensures { OnOk result (Defines maker.old maker.new) }
{
    if is_idle(order, k, whole) {
        return Ok(());
    }
    let Some(e) = chain.get(k) else {
        return Ok(());
    };
    state_entry(maker, e)?;
    Ok(())
}

/// States what the first entries of a chain say together, of two or more.
fn state_steps(
    maker: &mut Maker,
    chain: &[Entry],
    order: &[Place],
    whole: bool,
) -> Result<(), AllocError>
    requires { All (IsEntry maker.old) chain.now }
    ensures { OnOk result (Defines maker.old maker.new) }
{
    for k in 1..chain.len() {
        state_step(maker, chain, order, k, whole)?;
    }
    Ok(())
}

/// States what the first entries in this order say together, and of the whole what all say.
fn state_order(
    maker: &mut Maker,
    entries: &[Entry],
    order: &[Place],
    whole: bool,
) -> Result<(), AllocError>
    requires { All (IsEntry maker.old) entries.now }
    ensures { OnOk result (Defines maker.old maker.new) }
{
    let chain = chain_of(maker.alloc(), entries, order)?;
    state_steps(maker, chain.as_slice(), order, whole)?;
    Ok(())
}

/// Whether the index may have a value that is in no case.
fn is_open(maker: &Maker, entries: &[Entry]) -> Result<bool, AllocError> {
    let Some(first) = entries.first() else {
        return Ok(true);
    };
    let Some(set) = maker.domains().get(first.index as usize) else {
        return Ok(true);
    };
    let mut left = set.copy()?;
    for e in entries {
        left = left.meet(&e.others)?;
    }
    Ok(!left.is_empty())
}

/// States what follows from a table whose cases cover the index, and tells whether they do.
fn state_table(maker: &mut Maker, entries: &[Entry]) -> Result<bool, AllocError>
    requires { All (IsEntry maker.old) entries.now }
    ensures { IfOk result (λ b. Defines maker.old maker.new) }
{
    let open = is_open(maker, entries)?;
    if open {
        return Ok(false);
    }
    let up = by_greatest(maker.alloc(), entries)?;
    let down = by_least(maker.alloc(), entries)?;
    state_order(maker, entries, up.as_slice(), true)?;
    state_order(maker, entries, down.as_slice(), false)?;
    Ok(true)
}

/// States what follows from clauses over one pair of variables, the first or the second of which
/// is the index.
fn state_group(maker: &mut Maker, group: &[(u32, u32, usize)]) -> Result<(), AllocError>
    ensures { OnOk result (Defines maker.old maker.new) }
{
    let entries = entries_of(maker, group, false)?;
    let done = state_table(maker, entries.as_slice())?;
    if done {
        return Ok(());
    }
    let turned = entries_of(maker, group, true)?;
    state_table(maker, turned.as_slice())?;
    Ok(())
}

/// How many of the first clauses are over the same pair of variables.
fn group_size(rest: &[(u32, u32, usize)]) -> usize
    ensures { result ≤ length rest.now }
{
    let n = rest.len();
    if n == 0 {
        return 0;
    }
    let (x, y) = (rest[0].0, rest[0].1);
    rest.partition_point(|p| p.0 == x && p.1 == y).min(n)
}

/// Whether the clause there is the first one over its pair of variables.
fn is_first(pairs: &[(u32, u32, usize)], at: usize) -> bool {
    if at >= pairs.len() {
        return false;
    }
    at == 0 || pairs[at - 1].0 != pairs[at].0 || pairs[at - 1].1 != pairs[at].1
}

/// The clauses over one pair of variables that begin there, where they may be a table.
fn group_at(pairs: &[(u32, u32, usize)], at: usize) -> Option<&[(u32, u32, usize)]> {
    if at >= pairs.len() || !is_first(pairs, at) {
        return None;
    }
    let rest = &pairs[at..];
    let n = group_size(rest);
    if n >= 2 && n <= MOST_ENTRIES {
        Some(&rest[..n])
    } else {
        None
    }
}

/// States what follows from the clauses over one pair of variables that begin there.
fn state_from(maker: &mut Maker, pairs: &[(u32, u32, usize)], at: usize) -> Result<(), AllocError>
    ensures { OnOk result (Defines maker.old maker.new) }
{
    let Some(group) = group_at(pairs, at) else {
        return Ok(());
    };
    state_group(maker, group)?;
    Ok(())
}

/// States what follows from the tables that are stated case by case. Nothing new is said.
pub fn tabulate_stated(maker: &mut Maker) -> Result<(), AllocError>
    ensures { OnOk result (Defines maker.old maker.new) }
{
    let pairs = pairs_of(maker)?;
    for at in 0..pairs.len() {
        state_from(maker, pairs.as_slice(), at)?;
    }
    Ok(())
}
