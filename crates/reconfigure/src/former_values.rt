//! How many former values a configuration changes.
ghost use Rattle.std.specs.Prelude.{◌≡◌, ◌<◌, ◌≤◌, ◌+◌, ℕ, cond, drop, length, take};
ghost use Rattle.object_alloc.specs.Cells.{cells as all_cells};
ghost use Rattle.object_alloc.specs.Changes.{changes, differs, is_changed};

use crate::changed::{cell_count, leaf_at};
use object_alloc::{Config, Objects};

/// Whether a cell that has a hint has another value.
fn differs(hint: Option<i64>, value: i64) -> bool
    ensures { result ≡ differs hint value }
{
    match hint {
        Some(former) => former != value,
        None => false,
    }
}

/// Whether some of a leaf's cells has another value than its hint.
fn is_changed(hints: &[Option<i64>], values: &[i64]) -> bool
    requires { length hints.now ≤ length values.now }
    ensures { result ≡ is_changed hints.now values.now }
{
    for i in 0..hints.len() {
        if differs(hints[i], values[i]) {
            return true;
        }
    }
    false
}

/// Whether a leaf whose cells stand from `first` on has another value than its hints.
fn is_leaf_changed(hints: &[Option<i64>], values: &[i64], first: usize, next: usize) -> bool
    requires order { first ≤ next }
    requires hints { next ≤ length hints.now }
    requires values { next ≤ length values.now }
    ensures { (n : ℕ) → next ≡ first + n → result
        ≡ is_changed (take n (drop first hints.now)) (take n (drop first values.now)) }
{
    is_changed(&hints[first..next], &values[first..next])
}

/// One more where this holds.
fn count_if(count: usize, holds: bool) -> usize
    requires { count < 18446744073709551615 }
    ensures { result ≡ count + cond holds 1 0 }
{
    if holds {
        return count + 1;
    }
    count
}

/// How many leaves have a former value, and another one in the configuration. A reference set is
/// one leaf.
pub fn change_count(objects: &Objects<'_>, former: &[Option<i64>], config: &Config) -> usize
    requires hints { length (all_cells objects.now) ≤ length former.now }
    requires values { length (all_cells objects.now) ≤ length config.now }
    ensures count { result ≡ changes objects.now former.now config.now }
{
    let _count = objects.count();
    let values = config.items();
    let leaves = objects.leaves();
    let mut count = 0;
    let mut first = 0;
    for i in 0..leaves.len() {
        let next = first + cell_count(objects, leaf_at(leaves, i));
        count = count_if(count, is_leaf_changed(former, values, first, next));
        first = next;
    }
    count
}
