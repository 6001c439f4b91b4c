//! A picture as a table.
ghost use Rattle.std.specs.Prelude.{◌≡◌, ◌++◌, ◌∷◌, [], false, map, codes, if◌then◌else◌, IfOk, OnOk};
ghost use Rattle.std.specs.List.{flat_map};
ghost use Rattle.csv.specs.Records.{fields_of, partial_of};
ghost use Rattle.csv.specs.Writing.{default_writer, row_text};
ghost use Rattle.view_leaves.specs.Spelling.{path_text};
ghost use Rattle.view_picture.specs.PictureViews.{guest_seen, holding_seen, holdings_seen, load_seen, size_seen};
ghost use Rattle.view_tables.specs.Cells.{capacity_cell, count_cell, is_among, guests_cell, holding_cells, load_cells, picture_head, picture_rows, size_heads};

use crate::cells::path_cell;
use csv::ByteRecord;
use csv_rows::{push_cell, rows_text};
use itoa::Buffer;
use std::alloc::{AllocError, Global};
use view_leaves::push_path;
use view_picture::{Guest, Holding, Load, Size};

/// A word with another one behind it.
fn joined(alloc: Global, word: &str, more: &[u8]) -> Result<Vec<u8>, AllocError>
    ensures { IfOk result (λ cell. cell.items ≡ word.now ++ more.now) }
{
    let mut cell = Vec::new(alloc);
    cell.extend_from_slice(word.as_bytes())?;
    cell.extend_from_slice(more)?;
    Ok(cell)
}

/// The names of a size's columns.
fn push_size_heads(alloc: Global, row: &mut ByteRecord, size: &Size<'_>) -> Result<(), AllocError>
    ensures { OnOk result (partial_of row.old ≡ [] → (partial_of row.new ≡ [])
        × (fields_of row.new ≡ fields_of row.old ++ size_heads (size_seen size.now))) }
{
    let sum = joined(alloc, size.name, b" sum")?;
    push_cell(row, &sum)?;
    let capacity = joined(alloc, size.capacity, b" capacity")?;
    push_cell(row, &capacity)?;
    Ok(())
}

/// The first row.
fn head_row(alloc: Global, sizes: &[Size<'_>]) -> Result<ByteRecord, AllocError>
    ensures { IfOk result (λ row. fields_of row ≡ picture_head (map size_seen sizes.now)) }
{
    let mut row = ByteRecord::from_fields(alloc, &[b"holder", b"failed", b"guests"])?;
    for size in sizes {
        push_size_heads(alloc, &mut row, size)?;
    }
    Ok(row)
}

/// Writes a guest, behind a space where it isn't the first.
fn push_guest(cell: &mut Vec<u8>, later: bool, guest: &Guest<'_, '_>) -> Result<(), AllocError>
    ensures { OnOk result (cell.new.items ≡ cell.old.items ++ ((if later then codes " " else [])
        ++ path_text (guest_seen guest.now).path)) }
{
    if later {
        cell.extend_from_slice(b" ")?;
    }
    push_path(cell, guest.path)
}

/// The guests of a holder, parted by spaces.
fn guests_cell(alloc: Global, guests: &[Guest<'_, '_>]) -> Result<Vec<u8>, AllocError>
    ensures { IfOk result (λ cell. cell.items ≡ guests_cell false (map guest_seen guests.now)) }
{
    let mut cell = Vec::new(alloc);
    let mut later = false;
    for guest in guests {
        push_guest(&mut cell, later, guest)?;
        later = true;
    }
    Ok(cell)
}

/// What a holder can take, where it says so.
fn capacity_cell(alloc: Global, capacity: Option<i64>) -> Result<Vec<u8>, AllocError>
    ensures { IfOk result (λ cell. cell.items ≡ capacity_cell capacity) }
{
    let mut cell = Vec::new(alloc);
    match capacity {
        None => Ok(cell),
        Some(number) => {
            cell.extend_from_slice(Buffer::new().format(number).as_bytes())?;
            Ok(cell)
        }
    }
}

/// A load and what the holder can take.
fn push_load(alloc: Global, row: &mut ByteRecord, load: &Load<'_>) -> Result<(), AllocError>
    ensures { OnOk result (partial_of row.old ≡ [] → (partial_of row.new ≡ [])
        × (fields_of row.new ≡ fields_of row.old ++ load_cells (load_seen load.now))) }
{
    push_cell(row, Buffer::new().format(load.sum).as_bytes())?;
    let capacity = capacity_cell(alloc, load.capacity)?;
    push_cell(row, &capacity)?;
    Ok(())
}

/// Whether a name is one of those that failed.
fn is_among(failed: &[&str], name: &[u8]) -> bool
    ensures { result ≡ is_among (map (λ w. w.now) failed.now) name.now }
{
    for word in failed {
        if word.as_bytes() == name {
            return true;
        }
    }
    false
}

/// Whether a part failed, as a number.
fn failed_cell(failed: &[&str], name: &[u8]) -> &'static [u8]
    ensures { result.now ≡ count_cell (is_among (map (λ w. w.now) failed.now) name.now) }
{
    if is_among(failed, name) { b"1" } else { b"0" }
}

/// The row of a holder.
fn holding_row(
    alloc: Global,
    failed: &[&str],
    holding: &Holding<'_, '_, '_>,
) -> Result<ByteRecord, AllocError>
    ensures { IfOk result (λ row. fields_of row
        ≡ holding_cells (map (λ w. w.now) failed.now) (holding_seen holding.now)) }
{
    let name = path_cell(alloc, holding.holder)?;
    let guests = guests_cell(alloc, &holding.guests)?;
    let mut row = ByteRecord::from_fields(alloc, &[&name, failed_cell(failed, &name), &guests])?;
    for load in &holding.loads {
        push_load(alloc, &mut row, load)?;
    }
    Ok(row)
}

/// Adds the rows of holders.
fn push_holdings(
    alloc: Global,
    rows: &mut Vec<ByteRecord>,
    failed: &[&str],
    held: &[Holding<'_, '_, '_>],
) -> Result<(), AllocError>
    ensures { OnOk result (map fields_of rows.new.items ≡ map fields_of rows.old.items
        ++ map (holding_cells (map (λ w. w.now) failed.now)) (holdings_seen held.now)) }
{
    for holding in held {
        let row = holding_row(alloc, failed, holding)?;
        rows.push(row)?;
    }
    Ok(())
}

/// The rows of a picture.
fn picture_rows(
    alloc: Global,
    failed: &[&str],
    sizes: &[Size<'_>],
    held: &[Holding<'_, '_, '_>],
) -> Result<Vec<ByteRecord>, AllocError>
    ensures { IfOk result (λ rows. map fields_of rows.items ≡ picture_rows
        (map (λ w. w.now) failed.now) (map size_seen sizes.now) (holdings_seen held.now)) }
{
    let mut rows = Vec::new(alloc);
    let head = head_row(alloc, sizes)?;
    rows.push(head)?;
    push_holdings(alloc, &mut rows, failed, held)?;
    Ok(rows)
}

/// A picture as a table: a row of names, and one for each holder.
pub fn picture_table(
    alloc: Global,
    failed: &[&str],
    sizes: &[Size<'_>],
    held: &[Holding<'_, '_, '_>],
) -> Result<Vec<u8>, AllocError>
    ensures { IfOk result (λ text. text.items ≡ flat_map (row_text default_writer) (picture_rows
        (map (λ w. w.now) failed.now) (map size_seen sizes.now) (holdings_seen held.now))) }
{
    let rows = picture_rows(alloc, failed, sizes, held)?;
    let text = rows_text(alloc, &rows)?;
    Ok(text)
}
