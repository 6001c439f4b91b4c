//! A plan as a table.
ghost use Rattle.std.specs.Prelude.{◌≡◌, ◌++◌, false, map, IfOk, OnOk};
ghost use Rattle.std.specs.List.{flat_map, list_any};
ghost use Rattle.csv.specs.Records.{fields_of};
ghost use Rattle.csv.specs.Writing.{default_writer, row_text};
ghost use Rattle.view_plan.specs.Changes.{is_counted};
ghost use Rattle.view_plan.specs.Text.{has_fraction, shows_fraction};
ghost use Rattle.view_plan.specs.Views.{change_seen, line_seen, lines_seen};
ghost use Rattle.view_tables.specs.Cells.{change_name, old_cell, new_cell, count_cell, line_cells, plan_head, plan_rows};

use crate::cells::{path_cell, value_cell, words_cell};
use csv::ByteRecord;
use csv_rows::rows_text;
use std::alloc::{AllocError, Global};
use view_plan::{Change, Line};

/// What became of a leaf, in a word.
fn change_name(change: &Change<'_>) -> &'static [u8]
    ensures { result.now ≡ change_name (change_seen change.now) }
{
    match change {
        Change::Added(_) => b"added",
        Change::Removed(_) => b"removed",
        Change::Changed(_, _) => b"changed",
        Change::Members(_, _, _) => b"members",
    }
}

/// What was there before.
fn old_cell(alloc: Global, change: &Change<'_>) -> Result<Vec<u8>, AllocError>
    ensures { IfOk result (λ cell. has_fraction (change_seen change.now) ≡ false
        → cell.items ≡ old_cell (change_seen change.now)) }
{
    match change {
        Change::Added(_) => Ok(Vec::new(alloc)),
        Change::Removed(old) => value_cell(alloc, old),
        Change::Changed(old, _) => value_cell(alloc, old),
        Change::Members(_, taken, _) => words_cell(alloc, taken),
    }
}

/// What is there now.
fn new_cell(alloc: Global, change: &Change<'_>) -> Result<Vec<u8>, AllocError>
    ensures { IfOk result (λ cell. has_fraction (change_seen change.now) ≡ false
        → cell.items ≡ new_cell (change_seen change.now)) }
{
    match change {
        Change::Added(new) => value_cell(alloc, new),
        Change::Removed(_) => Ok(Vec::new(alloc)),
        Change::Changed(_, new) => value_cell(alloc, new),
        Change::Members(added, _, _) => words_cell(alloc, added),
    }
}

/// Whether a change counts, as a number.
fn count_cell(change: &Change<'_>) -> &'static [u8]
    ensures { result.now ≡ count_cell (is_counted (change_seen change.now)) }
{
    if change.is_counted() { b"1" } else { b"0" }
}

/// The row of a line.
fn line_row(alloc: Global, line: &Line<'_, '_>) -> Result<ByteRecord, AllocError>
    ensures { IfOk result (λ row. shows_fraction (line_seen line.now) ≡ false
        → fields_of row ≡ line_cells (line_seen line.now)) }
{
    let path = path_cell(alloc, line.path)?;
    let name = change_name(&line.change);
    let old = old_cell(alloc, &line.change)?;
    let new = new_cell(alloc, &line.change)?;
    let count = count_cell(&line.change);
    let row = ByteRecord::from_fields(alloc, &[&path, name, &old, &new, count])?;
    Ok(row)
}

/// The first row.
fn head_row(alloc: Global) -> Result<ByteRecord, AllocError>
    ensures { IfOk result (λ row. fields_of row ≡ plan_head) }
{
    let row = ByteRecord::from_fields(alloc, &[b"path", b"change", b"from", b"to", b"counts"])?;
    Ok(row)
}

/// Adds the rows of lines.
fn push_rows(
    alloc: Global,
    rows: &mut Vec<ByteRecord>,
    lines: &[Line<'_, '_>],
) -> Result<(), AllocError>
    ensures { OnOk result (list_any shows_fraction (lines_seen lines.now) ≡ false
        → map fields_of rows.new.items
        ≡ map fields_of rows.old.items ++ map line_cells (lines_seen lines.now)) }
{
    for line in lines {
        let row = line_row(alloc, line)?;
        rows.push(row)?;
    }
    Ok(())
}

/// The rows of a plan.
fn plan_rows(alloc: Global, lines: &[Line<'_, '_>]) -> Result<Vec<ByteRecord>, AllocError>
    ensures { IfOk result (λ rows. list_any shows_fraction (lines_seen lines.now) ≡ false
        → map fields_of rows.items ≡ plan_rows (lines_seen lines.now)) }
{
    let mut rows = Vec::new(alloc);
    let head = head_row(alloc)?;
    rows.push(head)?;
    push_rows(alloc, &mut rows, lines)?;
    Ok(rows)
}

/// A plan as a table: a row of names, and one for each line. The contract says nothing of the text
/// where a number with a fraction or an exponent is shown.
pub fn plan_table(alloc: Global, lines: &[Line<'_, '_>]) -> Result<Vec<u8>, AllocError>
    ensures { IfOk result (λ text. list_any shows_fraction (lines_seen lines.now) ≡ false
        → text.items ≡ flat_map (row_text default_writer) (plan_rows (lines_seen lines.now))) }
{
    let rows = plan_rows(alloc, lines)?;
    let text = rows_text(alloc, &rows)?;
    Ok(text)
}
