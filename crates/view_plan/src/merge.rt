//! The plan: the leaves of two configurations side by side, in order of path.
ghost use Rattle.std.specs.Prelude.{◌≡◌, ◌≤◌, ◌++◌, drop, length, IfOk, OnOk};
ghost use Rattle.view_leaves.specs.Ascending.{IsAscending, paths};
ghost use Rattle.view_leaves.specs.Views.{leaf_seen, leaves_seen};
ghost use Rattle.view_leaves.specs.Paths.{path_cmp};
ghost use Rattle.view_plan.specs.Plan.{IsPlan};
ghost use Rattle.view_plan.specs.Merging.{turn_lines, removals, additions};
ghost use Rattle.view_plan.specs.Views.{lines_seen};

use crate::change::{Change, change_between};
use std::alloc::{AllocError, Global};
use std::cmp::Ordering;
use view_leaves::{Leaf, Step, path_order};

/// A line of a plan: where, and what became of the leaf.
#[derive(Drop)]
pub struct Line<'l, 'a> {
    /// The leaf's path.
    pub path: &'l [Step<'a>],
    /// What became of it.
    pub change: Change<'a>,
}

/// Lists what the first leaves of both configurations give, and says in which order they stand.
fn turn<'l, 'a>(
    alloc: Global,
    old: &'l Leaf<'a>,
    new: &'l Leaf<'a>,
    lines: &mut Vec<Line<'l, 'a>>,
) -> Result<Ordering, AllocError>
    ensures order { IfOk result (λ order. order
        ≡ path_cmp (leaf_seen old.now).0 (leaf_seen new.now).0) }
    ensures lines { IfOk result (λ order. lines_seen lines.new.items ≡ lines_seen lines.old.items
        ++ turn_lines order (leaf_seen old.now) (leaf_seen new.now)) }
{
    let order = path_order(&old.path, &new.path);
    match order {
        Ordering::Less => lines.push(Line {
            path: &old.path,
            change: Change::Removed(old.value),
        })?,
        Ordering::Greater => lines.push(Line {
            path: &new.path,
            change: Change::Added(new.value),
        })?,
        Ordering::Equal => {
            if let Some(change) = change_between(alloc, old.value, new.value)? {
                lines.push(Line {
                    path: &old.path,
                    change,
                })?;
            }
        }
    }
    Ok(order)
}

/// The leaves from an index on.
fn rest<'l, 'a>(leaves: &'l [Leaf<'a>], from: usize) -> &'l [Leaf<'a>]
    requires { from ≤ length leaves.now }
    ensures { result.now ≡ drop from leaves.now }
{
    &leaves[from..]
}

/// Lists leaves that were removed.
fn push_removed<'l, 'a>(
    old: &'l [Leaf<'a>],
    lines: &mut Vec<Line<'l, 'a>>,
) -> Result<(), AllocError>
    ensures { OnOk result (lines_seen lines.new.items ≡ lines_seen lines.old.items
        ++ removals (leaves_seen old.now)) }
{
    for leaf in old {
        lines.push(Line {
            path: &leaf.path,
            change: Change::Removed(leaf.value),
        })?;
    }
    Ok(())
}

/// Lists leaves that were added.
fn push_added<'l, 'a>(new: &'l [Leaf<'a>], lines: &mut Vec<Line<'l, 'a>>) -> Result<(), AllocError>
    ensures { OnOk result (lines_seen lines.new.items ≡ lines_seen lines.old.items
        ++ additions (leaves_seen new.now)) }
{
    for leaf in new {
        lines.push(Line {
            path: &leaf.path,
            change: Change::Added(leaf.value),
        })?;
    }
    Ok(())
}

/// The plan from one configuration to another, each as its leaves in order of path.
pub fn plan<'l, 'a>(
    alloc: Global,
    old: &'l [Leaf<'a>],
    new: &'l [Leaf<'a>],
) -> Result<Vec<Line<'l, 'a>>, AllocError>
    requires old { IsAscending (paths (leaves_seen old.now)) }
    requires new { IsAscending (paths (leaves_seen new.now)) }
    ensures plan { IfOk result (λ lines. IsPlan (leaves_seen old.now) (leaves_seen new.now)
        (lines_seen lines.items)) }
{
    let mut lines = Vec::new(alloc);
    let mut i = 0;
    let mut j = 0;
    while i < old.len() && j < new.len() {
        match turn(alloc, &old[i], &new[j], &mut lines)? {
            Ordering::Less => i += 1,
            Ordering::Greater => j += 1,
            Ordering::Equal => {
                i += 1;
                j += 1;
            }
        }
    }
    push_removed(rest(old, i), &mut lines)?;
    push_added(rest(new, j), &mut lines)?;
    Ok(lines)
}
