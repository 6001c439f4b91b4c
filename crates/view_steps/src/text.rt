//! The text of an order of moves.
ghost use Rattle.std.specs.Prelude.{◌≡◌, ◌++◌, codes, false, decimal, IfOk, OnOk, map};
ghost use Rattle.std.specs.List.{flat_map, list_any};
ghost use Rattle.view_plan.specs.Text.{line_text, shows_fraction};
ghost use Rattle.view_plan.specs.Views.{lines_seen};
ghost use Rattle.view_steps.specs.Text.{counted_text, IsStepsText};
ghost use Rattle.view_steps.specs.Views.{move_line};

use crate::moves::{Move, from_word, to_stop, to_word};
use crate::rooms::{Rooms, allowed, amount_at};
use crate::run::Run;
use serde_json::Value;
use std::alloc::{AllocError, Global};
use view_leaves::{push_path, push_word};
use view_picture::Size;
use view_plan::{Line, push_line};

/// What the room that is lacked is read from.
#[derive(Clone, Copy)]
struct Board<'b, 't, 'a> {
    rooms: &'b Rooms<'t>,
    sizes: &'b [Size<'b>],
    stop: Option<&'a Value>,
}

/// Writes lines.
fn push_lines(alloc: Global, text: &mut Vec<u8>, lines: &[Line<'_, '_>]) -> Result<(), AllocError>
    ensures { OnOk result (list_any shows_fraction (lines_seen lines.now) ≡ false
        → text.new.items ≡ text.old.items ++ flat_map line_text (lines_seen lines.now)) }
{
    for line in lines {
        push_line(alloc, text, line)?;
    }
    Ok(())
}

/// Writes a line for each move.
fn push_moves(alloc: Global, text: &mut Vec<u8>, moves: &[Move<'_, '_>]) -> Result<(), AllocError>
    ensures { OnOk result (list_any shows_fraction (map move_line moves.now) ≡ false
        → text.new.items ≡ text.old.items ++ flat_map line_text (map move_line moves.now)) }
{
    for step in moves {
        push_line(alloc, text, &step.line)?;
    }
    Ok(())
}

/// Writes how many there are of something.
fn push_count(alloc: Global, text: &mut Vec<u8>, count: usize, what: &str) -> Result<(), AllocError>
    ensures { OnOk result (text.new.items ≡ text.old.items ++ decimal count ++ what.now) }
{
    let line = format!(in alloc; "{count}{what}")?;
    text.extend_from_slice(line.as_bytes())?;
    Ok(())
}

/// What room lacks of an amount, where it does.
fn lack_of(room: Option<i128>, amount: i128) -> Option<i128> {
    if allowed(room, amount) {
        None
    } else {
        amount.checked_sub(room?)
    }
}

/// Writes how much of a size a holder lacks for a move.
fn push_lack(
    alloc: Global,
    text: &mut Vec<u8>,
    step: &Move<'_, '_>,
    holder: &str,
    size: &str,
    lack: i128,
) -> Result<(), AllocError> {
    push_word(text, holder)?;
    let line = format!(in alloc; " lacks {lack} ")?;
    text.extend_from_slice(line.as_bytes())?;
    push_word(text, size)?;
    text.extend_from_slice(b" for ")?;
    push_path(text, step.line.path)?;
    text.push(b'\n')?;
    Ok(())
}

/// Writes what a holder with these rooms lacks for a move.
fn push_lacks(
    alloc: Global,
    text: &mut Vec<u8>,
    board: &Board<'_, '_, '_>,
    step: &Move<'_, '_>,
    holder: &str,
    amounts: &[i128],
) -> Result<(), AllocError> {
    if let Some(list) = board.rooms.get(holder.as_bytes()) {
        for (number, size) in board.sizes.iter().enumerate() {
            if number < list.len() {
                if let Some(lack) = lack_of(list[number], amount_at(amounts, number)) {
                    push_lack(alloc, text, step, holder, size.name, lack)?;
                }
            }
        }
    }
    Ok(())
}

/// Writes what is lacked for a move, and for its first half, where it may go to the stop.
fn push_need<'a>(
    alloc: Global,
    text: &mut Vec<u8>,
    board: &Board<'_, '_, 'a>,
    step: &Move<'_, 'a>,
) -> Result<(), AllocError> {
    if let Some(holder) = to_word(&step.line.change) {
        push_lacks(alloc, text, board, step, holder, &step.more)?;
    }
    if let Some(holder) = from_word(&step.line.change) {
        push_lacks(alloc, text, board, step, holder, &step.less)?;
    }
    if let Some(change) = to_stop(&step.line.change, board.stop) {
        if let Some(holder) = to_word(&change) {
            push_lacks(alloc, text, board, step, holder, &step.more)?;
        }
    }
    Ok(())
}

/// What is lacked for each of these moves.
fn needs<'a>(
    alloc: Global,
    board: &Board<'_, '_, 'a>,
    moves: &[Move<'_, 'a>],
) -> Result<Vec<u8>, AllocError> {
    let mut text = Vec::new(alloc);
    for step in moves {
        push_need(alloc, &mut text, board, step)?;
    }
    Ok(text)
}

/// Writes steps, and how many.
fn push_steps(alloc: Global, text: &mut Vec<u8>, lines: &[Line<'_, '_>]) -> Result<(), AllocError>
    ensures { OnOk result (list_any shows_fraction (lines_seen lines.now) ≡ false
        → text.new.items ≡ text.old.items ++ counted_text (codes " steps\n") (lines_seen lines.now)) }
{
    push_lines(alloc, text, lines)?;
    push_count(alloc, text, lines.len(), " steps\n")?;
    Ok(())
}

/// Writes moves that are left, and how many.
fn push_rest(alloc: Global, text: &mut Vec<u8>, moves: &[Move<'_, '_>]) -> Result<(), AllocError>
    ensures { OnOk result (list_any shows_fraction (map move_line moves.now) ≡ false
        → text.new.items ≡ text.old.items
        ++ counted_text (codes " left\n") (map move_line moves.now)) }
{
    push_moves(alloc, text, moves)?;
    push_count(alloc, text, moves.len(), " left\n")?;
    Ok(())
}

/// The text of the steps that were made.
fn made_text(alloc: Global, run: &Run<'_, '_, '_>) -> Result<Vec<u8>, AllocError>
    ensures { IfOk result (λ text. list_any shows_fraction (lines_seen run.now.made.items) ≡ false
        → text.items ≡ counted_text (codes " steps\n") (lines_seen run.now.made.items)) }
{
    let mut text = Vec::new(alloc);
    push_steps(alloc, &mut text, &run.made)?;
    Ok(text)
}

/// Writes the moves that are left.
fn push_left(alloc: Global, text: &mut Vec<u8>, run: &Run<'_, '_, '_>) -> Result<(), AllocError>
    ensures { OnOk result (list_any shows_fraction (map move_line run.now.left.items) ≡ false
        → text.new.items ≡ text.old.items
        ++ counted_text (codes " left\n") (map move_line run.now.left.items)) }
{
    push_rest(alloc, text, &run.left)?;
    Ok(())
}

/// The text of an order: a line for each step, and how many; and where moves are left, a line for
/// each of them, how many, and what they lack. The contract says nothing of what they lack, nor of
/// the text where a number with a fraction or an exponent is shown.
pub(crate) fn steps_text<'a>(
    alloc: Global,
    run: &Run<'_, '_, 'a>,
    sizes: &[Size<'_>],
    stop: Option<&'a Value>,
) -> Result<Vec<u8>, AllocError>
    ensures { IfOk result (λ text. IsStepsText (lines_seen run.now.made.items) (map move_line
        run.now.left.items) text.items) }
{
    let mut text = made_text(alloc, run)?;
    if run.left.is_empty() {
        return Ok(text);
    }
    let board = Board {
        rooms: &run.rooms,
        sizes,
        stop,
    };
    push_left(alloc, &mut text, run)?;
    let lacks = needs(alloc, &board, &run.left)?;
    text.extend_from_slice(&lacks)?;
    Ok(text)
}
