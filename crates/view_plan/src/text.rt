//! The text of a plan.
ghost use Rattle.std.specs.Prelude.{◌≡◌, ◌++◌, false, IfOk, OnOk, map};
ghost use Rattle.std.specs.List.{count_by, flat_map, list_any};
ghost use Rattle.view_plan.specs.Text.{added_text, taken_text, change_text, line_text, counts, plan_text, has_fraction, shows_fraction};
ghost use Rattle.view_plan.specs.Views.{change_seen, line_seen, lines_seen};

use crate::change::Change;
use crate::merge::Line;
use std::alloc::{AllocError, Global};
use view_leaves::{push_path, push_value, push_word};

/// Writes the members that were added to a set.
fn push_added(text: &mut Vec<u8>, words: &[&str]) -> Result<(), AllocError>
    ensures { OnOk result (text.new.items ≡ text.old.items
        ++ flat_map added_text (map (λ w. w.now) words.now)) }
{
    for word in words {
        text.extend_from_slice(b" +")?;
        push_word(text, word)?;
    }
    Ok(())
}

/// Writes the members that were taken from a set.
fn push_taken(text: &mut Vec<u8>, words: &[&str]) -> Result<(), AllocError>
    ensures { OnOk result (text.new.items ≡ text.old.items
        ++ flat_map taken_text (map (λ w. w.now) words.now)) }
{
    for word in words {
        text.extend_from_slice(b" -")?;
        push_word(text, word)?;
    }
    Ok(())
}

/// Writes what became of a leaf.
fn push_change(alloc: Global, text: &mut Vec<u8>, change: &Change<'_>) -> Result<(), AllocError>
    ensures { OnOk result (has_fraction (change_seen change.now) ≡ false → text.new.items
        ≡ text.old.items ++ change_text (change_seen change.now)) }
{
    match change {
        Change::Added(value) => {
            text.extend_from_slice(b": added ")?;
            push_value(alloc, text, value)
        }
        Change::Removed(value) => {
            text.extend_from_slice(b": removed ")?;
            push_value(alloc, text, value)
        }
        Change::Changed(old, new) => {
            text.extend_from_slice(b": ")?;
            push_value(alloc, text, old)?;
            text.extend_from_slice(b" -> ")?;
            push_value(alloc, text, new)
        }
        Change::Members(added, taken, _) => {
            text.push(b':')?;
            push_added(text, added)?;
            push_taken(text, taken)
        }
    }
}

/// Writes a line of a plan.
pub fn push_line(alloc: Global, text: &mut Vec<u8>, line: &Line<'_, '_>) -> Result<(), AllocError>
    ensures { OnOk result (shows_fraction (line_seen line.now) ≡ false → text.new.items
        ≡ text.old.items ++ line_text (line_seen line.now)) }
{
    push_path(text, line.path)?;
    push_change(alloc, text, &line.change)?;
    text.push(b'\n')?;
    Ok(())
}

/// Writes the lines of a plan.
fn push_lines(alloc: Global, text: &mut Vec<u8>, lines: &[Line<'_, '_>]) -> Result<(), AllocError>
    ensures { OnOk result (list_any shows_fraction (lines_seen lines.now) ≡ false → text.new.items
        ≡ text.old.items ++ flat_map line_text (lines_seen lines.now)) }
{
    for line in lines {
        push_line(alloc, text, line)?;
    }
    Ok(())
}

/// How many lines count as changes.
fn counted(lines: &[Line<'_, '_>]) -> usize
    ensures { result ≡ count_by counts (lines_seen lines.now) }
{
    lines.iter().filter(|line| line.change.is_counted()).count()
}

/// The text of a plan: its lines, and the count of its changes. The contract says nothing of the
/// text where a number with a fraction or an exponent is shown.
pub fn plan_text(alloc: Global, lines: &[Line<'_, '_>]) -> Result<Vec<u8>, AllocError>
    ensures { IfOk result (λ text. list_any shows_fraction (lines_seen lines.now) ≡ false
        → text.items ≡ plan_text (lines_seen lines.now)) }
{
    let mut text = Vec::new(alloc);
    push_lines(alloc, &mut text, lines)?;
    let count = counted(lines);
    let last = format!(in alloc; "{count} changes\n")?;
    text.extend_from_slice(last.as_bytes())?;
    Ok(text)
}
