//! Counters, which count boxes by how far from some number they begin or end.
ghost use Rattle.std.specs.Prelude.{◌≡◌, ◌<◌, ◌≤◌, ◌+ℤ◌, ℕ, suc, pos, cond, IfOk, IfSome, length};
ghost use Rattle.std.specs.List.{All};
ghost use Rattle.signed_clause.specs.Clauses.{box_of};
ghost use Rattle.box_rules.specs.Refuted.{count_in};
ghost use Rattle.all_different_pruner.specs.Counters.{total, is_upto, count_begun};

use crate::interval::{end_from, start_from};
use ground_form::Number;
use signed_clause::IntSet;
use std::alloc::AllocError;

/// One more in the slot, where there is one.
fn bump(slots: &mut [usize], at: Option<usize>)
    requires within { IfSome at (λ d. d < length slots.old) }
    requires room { IfSome at (λ d. total (suc d) slots.old < 18446744073709551615) }
    ensures size { length slots.new ≡ length slots.old }
    ensures totals { (e : ℕ) → total (suc e) slots.new
        ≡ cond (is_upto at e) (suc (total (suc e) slots.old)) (total (suc e) slots.old) }
{
    if let Some(d) = at {
        slots[d] += 1;
    }
}

/// The sum with the number of one slot more.
pub fn with_slot(sum: usize, slots: &[usize], d: usize) -> usize
    requires sum { sum ≡ total d slots.now }
    requires within { d < length slots.now }
    requires room { total (suc d) slots.now < 18446744073709551616 }
    ensures { result ≡ total (suc d) slots.now }
{
    sum + slots[d]
}

/// As many slots, all of them 0.
fn reset(slots: &mut Vec<usize>, n: usize) -> Result<(), AllocError>
    ensures size { IfOk result (λ u. length slots.new.items ≡ n) }
    ensures totals { IfOk result (λ u. (e : ℕ) → total e slots.new.items ≡ 0) }
{
    slots.clear();
    slots.resize(n, 0)?;
    Ok(())
}

/// Counts the boxes that begin at `a` or later by where they end.
fn add_ends(slots: &mut [usize], vars: &[u32], boxes: &[IntSet], a: Number)
    requires named { All (λ x. x < length boxes.now) vars.now }
    requires few { length slots.old ≤ length vars.now }
    requires empty { (e : ℕ) → total e slots.old ≡ 0 }
    ensures size { length slots.new ≡ length slots.old }
    ensures totals { (e : ℕ) → e < length slots.new → total (suc e) slots.new
        ≡ count_in a.value (a.value +ℤ pos e) vars.now boxes.now }
{
    for x in vars {
        let at = end_from(&boxes[*x as usize], a, slots.len());
        bump(slots, at);
    }
}

/// Counts the boxes by where they begin.
fn add_starts(slots: &mut [usize], vars: &[u32], boxes: &[IntSet], a: Number)
    requires named { All (λ x. x < length boxes.now) vars.now }
    requires few { length slots.old ≤ length vars.now }
    requires empty { (e : ℕ) → total e slots.old ≡ 0 }
    ensures size { length slots.new ≡ length slots.old }
    ensures totals { (e : ℕ) → e < length slots.new → total (suc e) slots.new
        ≡ count_begun a.value (a.value +ℤ pos e) vars.now boxes.now }
{
    for x in vars {
        let at = start_from(&boxes[*x as usize], a, slots.len());
        bump(slots, at);
    }
}

/// How many boxes begin at `a` or later and end in each of the `n` slots.
pub fn count_ends(
    slots: &mut Vec<usize>,
    n: usize,
    vars: &[u32],
    boxes: &[IntSet],
    a: Number,
) -> Result<(), AllocError>
    requires named { All (λ x. x < length boxes.now) vars.now }
    requires few { n ≤ length vars.now }
    ensures size { IfOk result (λ u. length slots.new.items ≡ n) }
    ensures totals { IfOk result (λ u. (e : ℕ) → e < n → total (suc e) slots.new.items
        ≡ count_in a.value (a.value +ℤ pos e) vars.now boxes.now) }
{
    reset(slots, n)?;
    add_ends(slots.as_mut_slice(), vars, boxes, a);
    Ok(())
}

/// How many boxes begin in each of the `n` slots.
pub fn count_starts(
    slots: &mut Vec<usize>,
    n: usize,
    vars: &[u32],
    boxes: &[IntSet],
    a: Number,
) -> Result<(), AllocError>
    requires named { All (λ x. x < length boxes.now) vars.now }
    requires few { n ≤ length vars.now }
    ensures size { IfOk result (λ u. length slots.new.items ≡ n) }
    ensures totals { IfOk result (λ u. (e : ℕ) → e < n → total (suc e) slots.new.items
        ≡ count_begun a.value (a.value +ℤ pos e) vars.now boxes.now) }
{
    reset(slots, n)?;
    add_starts(slots.as_mut_slice(), vars, boxes, a);
    Ok(())
}
