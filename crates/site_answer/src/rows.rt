//! The rows of the table.
ghost use Rattle.std.specs.Prelude.{◌≡◌, ◌++◌, [], map, option_map, IfOk, OnOk};
ghost use Rattle.csv.specs.Records.{fields_of, partial_of};
ghost use Rattle.serde_json.specs.View.{view};
ghost use Rattle.site_tables.specs.Views.{row_seen};
ghost use Rattle.site_answer.specs.Names.{names_in};
ghost use Rattle.site_answer.specs.Rows.{was_cells, row_cells, head_cells, table_rows};

use crate::answers::{host_cell, was_cell};
use csv::ByteRecord;
use csv_rows::push_cell;
use serde_json::Value;
use site_tables::Row;
use site_texts::Texts;
use std::alloc::{AllocError, Global};

/// Adds the former host of a service, where there is a former configuration.
fn push_was(
    alloc: Global,
    cells: &mut ByteRecord,
    names: &Texts<'_>,
    answer: &Value,
    former: Option<&Value>,
    service: &[u8],
) -> Result<(), AllocError>
    ensures { OnOk result (partial_of cells.old ≡ [] → fields_of cells.new
        ≡ fields_of cells.old ++ was_cells (names_in names.now) (view answer.now)
        (option_map (λ f. view f.now) former.entry) service.now) }
{
    match former {
        Some(former) => {
            let was = was_cell(alloc, names, answer, former, service)?;
            push_cell(cells, &was)
        }
        None => Ok(()),
    }
}

/// The row of a service.
fn service_row(
    alloc: Global,
    names: &Texts<'_>,
    answer: &Value,
    former: Option<&Value>,
    row: &Row<'_>,
) -> Result<ByteRecord, AllocError>
    ensures { IfOk result (λ cells. fields_of cells ≡ row_cells (names_in names.now)
        (view answer.now) (option_map (λ f. view f.now) former.entry) (row_seen row.now)) }
{
    let host = host_cell(alloc, names, answer, row.name())?;
    let mut cells = ByteRecord::from_fields(alloc, &[row.name(), host])?;
    push_was(alloc, &mut cells, names, answer, former, row.name())?;
    Ok(cells)
}

/// The first row.
fn head_row(alloc: Global, former: Option<&Value>) -> Result<ByteRecord, AllocError>
    ensures { IfOk result (λ cells. fields_of cells
        ≡ head_cells (option_map (λ f. view f.now) former.entry)) }
{
    match former {
        Some(_) => ByteRecord::from_fields(alloc, &[b"service", b"host", b"was"]),
        None => ByteRecord::from_fields(alloc, &[b"service", b"host"]),
    }
}

/// Adds the rows of services.
fn push_rows(
    alloc: Global,
    rows: &mut Vec<ByteRecord>,
    names: &Texts<'_>,
    answer: &Value,
    former: Option<&Value>,
    services: &[Row<'_>],
) -> Result<(), AllocError>
    ensures { OnOk result (map fields_of rows.new.items ≡ map fields_of rows.old.items
        ++ map (row_cells (names_in names.now) (view answer.now)
        (option_map (λ f. view f.now) former.entry)) (map row_seen services.now)) }
{
    for row in services {
        let cells = service_row(alloc, names, answer, former, row)?;
        rows.push(cells)?;
    }
    Ok(())
}

/// The rows of the table.
pub(crate) fn table_rows(
    alloc: Global,
    names: &Texts<'_>,
    answer: &Value,
    former: Option<&Value>,
    services: &[Row<'_>],
) -> Result<Vec<ByteRecord>, AllocError>
    ensures { IfOk result (λ rows. map fields_of rows.items ≡ table_rows (names_in names.now)
        (view answer.now) (option_map (λ f. view f.now) former.entry)
        (map row_seen services.now)) }
{
    let mut rows = Vec::new(alloc);
    let head = head_row(alloc, former)?;
    rows.push(head)?;
    push_rows(alloc, &mut rows, names, answer, former, services)?;
    Ok(rows)
}
