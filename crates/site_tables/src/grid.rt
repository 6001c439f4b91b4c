//! Records with their numbers.
ghost use Rattle.std.specs.Prelude.{◌≡◌, ◌<◌, Some, IfOk, length, map};
ghost use Rattle.std.specs.List.{enumerate_from};
ghost use Rattle.csv.specs.Records.{field_at, fields_of};
ghost use Rattle.site_tables.specs.Grid.{grid, header, behind, name_of, text_at, text_in};
ghost use Rattle.site_tables.specs.Views.{cell_seen, row_seen};

use csv::ByteRecord;
use std::alloc::{AllocError, Global};

/// A cell, with the number of its column, counted from 0.
#[derive(Clone, Copy)]
pub struct Cell<'a> {
    pub column: usize,
    pub text: &'a [u8],
}

/// A row, with its number, counted from 0.
#[derive(Drop)]
pub struct Row<'a> {
    pub number: usize,
    pub cells: Vec<Cell<'a>>,
}

/// The field of a record at a place.
fn field<'r>(fields: &'r ByteRecord, place: usize) -> &'r [u8]
    requires { place < length (fields_of fields.now) }
    ensures { field_at (fields_of fields.now) place ≡ Some result.now }
{
    match fields.get(place) {
        Some(text) => text,
        None => b"",
    }
}

/// The cells of a record.
fn cells_of(alloc: Global, fields: &ByteRecord) -> Result<Vec<Cell<'_>>, AllocError>
    ensures { IfOk result (λ cells. map cell_seen cells.items
        ≡ enumerate_from 0 (fields_of fields.now)) }
{
    let mut cells = Vec::new(alloc);
    for column in 0..fields.len() {
        let text = field(fields, column);
        cells.push(Cell { column, text })?;
    }
    Ok(cells)
}

/// The rows of records.
pub fn grid_of(alloc: Global, records: &[ByteRecord]) -> Result<Vec<Row<'_>>, AllocError>
    ensures { IfOk result (λ rows. map row_seen rows.items ≡ grid 0 (map fields_of records.now)) }
{
    let mut rows = Vec::new(alloc);
    for (number, fields) in records.iter().enumerate() {
        let cells = cells_of(alloc, fields)?;
        rows.push(Row { number, cells })?;
    }
    Ok(rows)
}

/// The cells of the first row; none where there is none.
pub fn header<'g, 'a>(rows: &'g [Row<'a>]) -> &'g [Cell<'a>]
    ensures { map cell_seen result.now ≡ header (map row_seen rows.now) }
{
    match rows {
        [] => &[],
        [first, ..] => &first.cells,
    }
}

/// The rows behind the first one.
pub fn behind<'g, 'a>(rows: &'g [Row<'a>]) -> &'g [Row<'a>]
    ensures { map row_seen result.now ≡ behind (map row_seen rows.now) }
{
    match rows {
        [] => &[],
        [_, more @ ..] => more,
    }
}

/// What stands in the cell of a column; nothing where there is none.
pub fn text_in<'a>(cells: &[Cell<'a>], column: usize) -> &'a [u8]
    ensures { result.now ≡ text_in column (map cell_seen cells.now) }
{
    for cell in cells {
        if cell.column == column {
            return cell.text;
        }
    }
    b""
}

impl<'a> Row<'a> {
    /// What stands in the first cell.
    pub fn name(&self) -> &'a [u8]
        ensures { result.now ≡ name_of (row_seen self.now) }
    {
        match self.cells.as_slice() {
            [] => b"",
            [first, ..] => first.text,
        }
    }

    /// What stands in the cell of a column; nothing where there is none.
    pub fn text_at(&self, column: usize) -> &'a [u8]
        ensures { result.now ≡ text_at column (row_seen self.now) }
    {
        text_in(&self.cells, column)
    }
}
