//! Paths, and their order.
ghost use Rattle.std.specs.Prelude.{◌≡◌, map};
ghost use Rattle.view_leaves.specs.Paths.{step_cmp, path_cmp};
ghost use Rattle.view_leaves.specs.Views.{step_seen};

use std::cmp::Ordering;

/// A step from a part of a configuration to a part of it.
#[derive(Clone, Copy, Debug)]
pub enum Step<'a> {
    /// To the element of this number, counted from 0.
    Index(u64),
    /// To what stands under a key.
    Key(&'a str),
}

/// The order of two steps: elements by their numbers, before keys by their bytes.
pub fn step_order(left: Step<'_>, right: Step<'_>) -> Ordering
    ensures { result ≡ step_cmp (step_seen left.entry) (step_seen right.entry) }
{
    match (left, right) {
        (Step::Index(m), Step::Index(n)) => m.cmp(&n),
        (Step::Index(_), Step::Key(_)) => Ordering::Less,
        (Step::Key(_), Step::Index(_)) => Ordering::Greater,
        (Step::Key(k), Step::Key(l)) => k.cmp(l),
    }
}

/// The order of two paths: by their first steps that differ; a path stands before those that go on
/// from it.
pub fn path_order(left: &[Step<'_>], right: &[Step<'_>]) -> Ordering
    ensures { result ≡ path_cmp (map step_seen left.now) (map step_seen right.now) }
{
    for (i, step) in left.iter().enumerate() {
        if i >= right.len() {
            return Ordering::Greater;
        }
        match step_order(*step, right[i]) {
            Ordering::Less => return Ordering::Less,
            Ordering::Equal => {}
            Ordering::Greater => return Ordering::Greater,
        }
    }
    if left.len() < right.len() {
        Ordering::Less
    } else {
        Ordering::Equal
    }
}
