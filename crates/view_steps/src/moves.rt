//! The moves: where each goes from and to, and what it moves.
ghost use Rattle.std.specs.Prelude.{◌≡◌, ◌∷◌, [], map, option_map, option_to_list, IfOk};
ghost use Rattle.std.specs.List.{All};
ghost use Rattle.serde_json.specs.View.{view};
ghost use Rattle.view_leaves.specs.Views.{step_seen};
ghost use Rattle.view_picture.specs.PictureViews.{size_seen};
ghost use Rattle.view_plan.specs.Views.{change_seen, line_seen, lines_seen};
ghost use Rattle.serde_json.specs.Find.{as_str};
ghost use Rattle.view_steps.specs.Moves.{is_single, is_plain, are_plain, from_word, to_word, is_other, to_stop, from_stop, amounts, turned, moves_among};
ghost use Rattle.view_steps.specs.Views.{move_line, IsSized};

use serde_json::Value;
use std::alloc::{AllocError, Global};
use view_leaves::Step;
use view_picture::{Size, amount, guest_by};
use view_plan::{Change, Line};

/// A move: the sizes that it brings to where it goes, the same with turned signs, and its number.
#[derive(Drop)]
pub(crate) struct Move<'l, 'a> {
    pub line: Line<'l, 'a>,
    pub more: Vec<i128>,
    pub less: Vec<i128>,
    pub number: usize,
}

/// What the sizes of guests are read from: the new configuration, the attribute and the sizes.
#[derive(Clone, Copy)]
pub struct Measure<'s, 'v> {
    /// The new configuration.
    pub whole: &'v Value,
    /// The attribute by which guests refer to holders.
    pub attribute: &'s str,
    /// The sizes, and under which names holders have their capacities.
    pub sizes: &'s [Size<'s>],
}

/// Whether a value is no set.
fn is_single(value: &Value) -> bool
    ensures { result ≡ is_single (view value.now) }
{
    !value.is_array()
}

/// Whether a change is of one reference, and of no set.
fn is_plain(change: &Change<'_>) -> bool
    ensures { result ≡ is_plain (change_seen change.now) }
{
    match change {
        Change::Added(value) => is_single(value),
        Change::Removed(value) => is_single(value),
        Change::Changed(old, new) => is_single(old) && is_single(new),
        Change::Members(_, _, _) => false,
    }
}

/// Whether none of the moves is of a set.
pub(crate) fn are_plain(moves: &[Move<'_, '_>]) -> bool
    ensures { result ≡ are_plain (map move_line moves.now) }
{
    for step in moves {
        if !is_plain(&step.line.change) {
            return false;
        }
    }
    true
}

/// The spelling of the holder that a change goes from, where it is of one reference.
pub(crate) fn from_word<'a>(change: &Change<'a>) -> Option<&'a str>
    ensures { option_map (λ w. w.now) result ≡ from_word (change_seen change.now) }
{
    match change {
        Change::Added(_) => None,
        Change::Removed(old) => old.as_str(),
        Change::Changed(old, _) => old.as_str(),
        Change::Members(_, _, _) => None,
    }
}

/// The spelling of the holder that a change goes to.
pub(crate) fn to_word<'a>(change: &Change<'a>) -> Option<&'a str>
    ensures { option_map (λ w. w.now) result ≡ to_word (change_seen change.now) }
{
    match change {
        Change::Added(new) => new.as_str(),
        Change::Removed(_) => None,
        Change::Changed(_, new) => new.as_str(),
        Change::Members(_, _, _) => None,
    }
}

/// Whether three values are words, of which the first is neither of the others.
fn is_other(stop: &Value, old: &Value, new: &Value) -> bool
    ensures { result ≡ is_other (as_str (view stop.now)) (as_str (view old.now))
        (as_str (view new.now)) }
{
    match (stop.as_str(), old.as_str(), new.as_str()) {
        (Some(stop), Some(old), Some(new)) => old != stop && new != stop,
        _ => false,
    }
}

/// The first half of a move by way of a stop, where it may go there.
pub(crate) fn to_stop<'a>(change: &Change<'a>, stop: Option<&'a Value>) -> Option<Change<'a>>
    ensures { option_map change_seen result
        ≡ to_stop (option_map (λ v. view v.now) stop.entry) (change_seen change.now) }
{
    match stop {
        None => None,
        Some(stop) => match change {
            Change::Changed(old, new) => {
                if is_other(stop, old, new) {
                    Some(Change::Changed(*old, stop))
                } else {
                    None
                }
            }
            Change::Added(_) => None,
            Change::Removed(_) => None,
            Change::Members(_, _, _) => None,
        },
    }
}

/// The second half.
pub(crate) fn from_stop<'a>(change: Change<'a>, stop: Option<&'a Value>) -> Change<'a>
    ensures { change_seen result
        ≡ from_stop (option_map (λ v. view v.now) stop.entry) (change_seen change.entry) }
{
    match stop {
        None => change,
        Some(stop) => match change {
            Change::Changed(_, new) => Change::Changed(stop, new),
            other => other,
        },
    }
}

/// The sizes of a guest.
fn amounts(
    alloc: Global,
    measure: Measure<'_, '_>,
    owner: &[Step<'_>],
) -> Result<Vec<i128>, AllocError>
    ensures { IfOk result (λ list. list.items ≡ amounts (view measure.entry.whole.now)
        (map size_seen measure.entry.sizes.now) (map step_seen owner.now)) }
{
    let mut list = Vec::new(alloc);
    for size in measure.sizes {
        list.push(amount(measure.whole, owner, size.name) as i128)?;
    }
    Ok(list)
}

/// The sizes of a guest with turned signs.
fn turned(
    alloc: Global,
    measure: Measure<'_, '_>,
    owner: &[Step<'_>],
) -> Result<Vec<i128>, AllocError>
    ensures { IfOk result (λ list. list.items ≡ turned (amounts (view measure.entry.whole.now)
        (map size_seen measure.entry.sizes.now) (map step_seen owner.now))) }
{
    let mut list = Vec::new(alloc);
    for size in measure.sizes {
        list.push(0 - amount(measure.whole, owner, size.name) as i128)?;
    }
    Ok(list)
}

/// The move that a line of a plan is, where it is of the attribute.
fn move_of<'l, 'a>(
    alloc: Global,
    measure: Measure<'_, '_>,
    line: Line<'l, 'a>,
    number: usize,
) -> Result<Option<Move<'l, 'a>>, AllocError>
    ensures line { IfOk result (λ made. map move_line (option_to_list made)
        ≡ moves_among measure.entry.attribute.now (line_seen line.entry ∷ [])) }
    ensures sized { IfOk result (λ made. All (IsSized (view measure.entry.whole.now)
        measure.entry.attribute.now (map size_seen measure.entry.sizes.now)) (option_to_list made)) }
{
    match guest_by(line.path, measure.attribute) {
        None => Ok(None),
        Some(owner) => {
            let more = amounts(alloc, measure, owner)?;
            let less = turned(alloc, measure, owner)?;
            Ok(Some(Move {
                line,
                more,
                less,
                number,
            }))
        }
    }
}

/// The moves of a plan: its lines of the attribute, in order.
pub(crate) fn moves_of<'l, 'a>(
    alloc: Global,
    measure: Measure<'_, '_>,
    lines: Vec<Line<'l, 'a>>,
) -> Result<Vec<Move<'l, 'a>>, AllocError>
    ensures lines { IfOk result (λ made. map move_line made.items
        ≡ moves_among measure.entry.attribute.now (lines_seen lines.entry.items)) }
    ensures sized { IfOk result (λ made. All (IsSized (view measure.entry.whole.now)
        measure.entry.attribute.now (map size_seen measure.entry.sizes.now)) made.items) }
{
    let mut moves = Vec::new(alloc);
    for line in lines {
        if let Some(made) = move_of(alloc, measure, line, moves.len())? {
            moves.push(made)?;
        }
    }
    Ok(moves)
}
