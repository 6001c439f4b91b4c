//! The lines of a plan that are asked for, by the names of their leaves.
ghost use Rattle.std.specs.Prelude.{◌≡◌, ◌++◌, ◌∷◌, [], map, IfOk, OnOk};
ghost use Rattle.view_leaves.specs.Views.{step_seen};
ghost use Rattle.view_picture.specs.Mentions.{is_named};
ghost use Rattle.view_plan.specs.Views.{line_seen, lines_seen};
ghost use Rattle.view_tables.specs.Chosen.{has_name, is_chosen, chosen};

use std::alloc::{AllocError, Global};
use view_leaves::Step;
use view_picture::guest_by;
use view_plan::Line;

/// Whether a path ends in this name.
fn is_named(path: &[Step<'_>], name: &str) -> bool
    ensures { result ≡ is_named name.now (map step_seen path.now) }
{
    guest_by(path, name).is_some()
}

/// Whether a path ends in one of these names.
fn has_name(path: &[Step<'_>], names: &[&str]) -> bool
    ensures { result ≡ has_name (map (λ w. w.now) names.now) (map step_seen path.now) }
{
    for name in names {
        if is_named(path, name) {
            return true;
        }
    }
    false
}

/// Whether a leaf is asked for: it has one of these names, or none is given.
fn is_chosen(path: &[Step<'_>], names: &[&str]) -> bool
    ensures { result ≡ is_chosen (map (λ w. w.now) names.now) (map step_seen path.now) }
{
    match names {
        [] => true,
        [_, ..] => has_name(path, names),
    }
}

/// Keeps a line whose leaf is asked for.
#[tactic(auto, using(crate::proofs::LineLaws::line_kept, crate::proofs::LineLaws::line_left))]
fn keep<'l, 'a>(
    list: &mut Vec<Line<'l, 'a>>,
    line: Line<'l, 'a>,
    names: &[&str],
) -> Result<(), AllocError>
    ensures { OnOk result (lines_seen list.new.items ≡ lines_seen list.old.items
        ++ chosen (map (λ w. w.now) names.now) (line_seen line.entry ∷ [])) }
{
    if !is_chosen(line.path, names) {
        return Ok(());
    }
    list.push(line)?;
    Ok(())
}

/// The lines of the leaves that have one of these names, in order; all where none is given.
pub fn chosen<'l, 'a>(
    alloc: Global,
    lines: Vec<Line<'l, 'a>>,
    names: &[&str],
) -> Result<Vec<Line<'l, 'a>>, AllocError>
    ensures { IfOk result (λ list. lines_seen list.items
        ≡ chosen (map (λ w. w.now) names.now) (lines_seen lines.entry.items)) }
{
    let mut list = Vec::new(alloc);
    for line in lines {
        keep(&mut list, line, names)?;
    }
    Ok(list)
}
