//! Rows of cells as CSV.
ghost use Rattle.std.specs.Prelude.{◌≡◌, ◌++◌, ◌∷◌, [], ℕ, List, map, IfOk, OnOk};
ghost use Rattle.std.specs.List.{flat_map};
ghost use Rattle.csv.specs.Records.{fields_of, partial_of};
ghost use Rattle.csv.specs.Writing.{default_writer, row_text};
ghost use Rattle.csv_rows.specs.Rows.{IsWritten};

use csv::{ByteRecord, Writer};
use std::alloc::{AllocError, Global};

/// Adds a cell to a row.
pub fn push_cell(row: &mut ByteRecord, cell: &[u8]) -> Result<(), AllocError>
    ensures { OnOk result (partial_of row.old ≡ [] → (partial_of row.new ≡ [])
        × (fields_of row.new ≡ fields_of row.old ++ cell.now ∷ [])) }
{
    row.push_field(cell)?;
    Ok(())
}

/// A writer into memory.
fn fresh_writer(alloc: Global) -> Writer<Vec<u8>>
    ensures { IsWritten [] result }
{
    let bytes = Vec::new(alloc);
    let writer = Writer::from_writer(bytes);
    writer
}

/// Writes a row.
fn write_row(writer: &mut Writer<Vec<u8>>, row: &ByteRecord) -> Result<(), AllocError>
    ensures { OnOk result ((text : List ℕ) → IsWritten text writer.old
        → IsWritten (text ++ row_text default_writer (fields_of row.now)) writer.new) }
{
    let written = writer.write_byte_record(row);
    if written.is_err() {
        return Err(AllocError);
    }
    Ok(())
}

/// Writes rows.
fn write_rows(writer: &mut Writer<Vec<u8>>, rows: &[ByteRecord]) -> Result<(), AllocError>
    ensures { OnOk result ((text : List ℕ) → IsWritten text writer.old
        → IsWritten (text ++ flat_map (row_text default_writer) (map fields_of rows.now)) writer.new) }
{
    for row in rows {
        write_row(writer, row)?;
    }
    Ok(())
}

/// The text of rows, each of as many cells as the first.
pub fn rows_text(alloc: Global, rows: &[ByteRecord]) -> Result<Vec<u8>, AllocError>
    ensures { IfOk result (λ text. text.items
        ≡ flat_map (row_text default_writer) (map fields_of rows.now)) }
{
    let mut writer = fresh_writer(alloc);
    write_rows(&mut writer, rows)?;
    match writer.into_inner() {
        Ok(text) => Ok(text),
        Err(_) => Err(AllocError),
    }
}
