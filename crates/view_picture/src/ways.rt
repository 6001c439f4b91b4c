//! The parts of a configuration: all that has a path.
ghost use Rattle.std.specs.Prelude.{◌≡◌, ◌++◌, ◌≤◌, ◌<◌, ◌+◌, take, drop, length, map, IfOk, OnOk};
ghost use Rattle.view_leaves.specs.Ascending.{IsAscending, paths};
ghost use Rattle.view_leaves.specs.Views.{step_seen, leaves_seen};
ghost use Rattle.view_picture.specs.Parts.{shared, ways, parts, path_at, path_before};
ghost use Rattle.view_picture.specs.Views.{paths_seen};

use std::alloc::{AllocError, Global};
use std::cmp::Ordering;
use view_leaves::{Leaf, Step, step_order};

/// How many steps two paths share.
fn shared(left: &[Step<'_>], right: &[Step<'_>]) -> usize
    ensures steps { result ≡ shared (map step_seen left.now) (map step_seen right.now) }
    ensures few { result ≤ length right.now }
{
    for (i, step) in left.iter().enumerate() {
        if i >= right.len() {
            return i;
        }
        match step_order(*step, right[i]) {
            Ordering::Equal => {}
            Ordering::Less | Ordering::Greater => return i,
        }
    }
    left.len()
}

/// The front of a path up to this step.
fn front<'l, 'a>(path: &'l [Step<'a>], last: usize) -> &'l [Step<'a>]
    requires { last < length path.now }
    ensures { result.now ≡ take (last + 1) path.now }
{
    &path[..=last]
}

/// Lists the parts on the way along a path, but for those of this many steps and fewer.
fn push_ways<'l, 'a>(
    path: &'l [Step<'a>],
    known: usize,
    parts: &mut Vec<&'l [Step<'a>]>,
) -> Result<(), AllocError>
    ensures { OnOk result (paths_seen parts.new.items ≡ paths_seen parts.old.items
        ++ drop known (ways (map step_seen path.now))) }
{
    for last in known..path.len() {
        parts.push(front(path, last))?;
    }
    Ok(())
}

/// How many steps the leaf of this number shares with the one before.
fn known(leaves: &[Leaf<'_>], number: usize) -> usize
    requires { number < length leaves.now }
    ensures { result ≡ shared (path_before (leaves_seen leaves.now) number) (path_at (leaves_seen
        leaves.now) number) }
{
    if number == 0 {
        0
    } else {
        shared(&leaves[number - 1].path, &leaves[number].path)
    }
}

/// The parts of a configuration, by its leaves: each once, in order of path.
pub fn parts<'l, 'a>(
    alloc: Global,
    leaves: &'l [Leaf<'a>],
) -> Result<Vec<&'l [Step<'a>]>, AllocError>
    ensures parts { IfOk result (λ list. paths_seen list.items ≡ parts (leaves_seen leaves.now)) }
{
    let mut list = Vec::new(alloc);
    for (number, leaf) in leaves.iter().enumerate() {
        push_ways(&leaf.path, known(leaves, number), &mut list)?;
    }
    Ok(list)
}
