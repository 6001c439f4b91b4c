//! What is wrong with the rows of the services.
ghost use Rattle.std.specs.Prelude.{◌≡◌, IfOk, map};
ghost use Rattle.site_faults.specs.Rows.{moves_fault, pin_fault, values_fault, service_cell_fault, service_cells_fault, service_row_fault, service_rows_fault};
ghost use Rattle.site_tables.specs.Views.{cell_seen, row_seen};

use crate::columns::fault_at;
use crate::hosts::{amount_fault, name_fault};
use crate::known::{are_known, is_known};
use site_names::Names;
use site_tables::{Cell, Fault, FaultKind, Row, ServiceColumn, TableName, parts, service_kind_at};
use std::alloc::{AllocError, Global};

/// What is wrong with a cell that says what a move costs.
fn moves_fault(text: &[u8]) -> Option<FaultKind>
    ensures { result ≡ moves_fault text.now }
{
    if text.is_empty() {
        None
    } else {
        amount_fault(text)
    }
}

/// What is wrong with a cell that names a host.
fn pin_fault(alloc: Global, known: &[Names], text: &[u8]) -> Result<Option<FaultKind>, AllocError>
    ensures { IfOk result (λ fault. fault ≡ pin_fault known.now text.now) }
{
    if text.is_empty() {
        return Ok(None);
    }
    if is_known(alloc, known, 0, text)? {
        Ok(None)
    } else {
        Ok(Some(FaultKind::NoSuchHost))
    }
}

/// What is wrong with a cell that names values of a label.
fn values_fault(
    alloc: Global,
    known: &[Names],
    column: usize,
    text: &[u8],
) -> Result<Option<FaultKind>, AllocError>
    ensures { IfOk result (λ fault. fault ≡ values_fault known.now column text.now) }
{
    if text.is_empty() {
        return Ok(None);
    }
    let values = parts(alloc, text)?;
    if are_known(alloc, known, column, &values)? {
        Ok(None)
    } else {
        Ok(Some(FaultKind::NoSuchValue))
    }
}

/// What is wrong with a cell of a column.
fn service_cell_fault(
    alloc: Global,
    known: &[Names],
    column: ServiceColumn,
    text: &[u8],
) -> Result<Option<FaultKind>, AllocError>
    ensures { IfOk result (λ fault. fault ≡ service_cell_fault known.now column text.now) }
{
    match column {
        ServiceColumn::Name => Ok(name_fault(text)),
        ServiceColumn::Amount(_) => Ok(amount_fault(text)),
        ServiceColumn::Moves => Ok(moves_fault(text)),
        ServiceColumn::Pin => pin_fault(alloc, known, text),
        ServiceColumn::Within(label) => values_fault(alloc, known, label, text),
        ServiceColumn::Without(label) => values_fault(alloc, known, label, text),
        ServiceColumn::Apart
        | ServiceColumn::ApartBy(_)
        | ServiceColumn::With
        | ServiceColumn::Nothing => Ok(None),
    }
}

/// The first of these cells with which something is wrong.
fn service_cells_fault(
    alloc: Global,
    known: &[Names],
    kinds: &[ServiceColumn],
    row: usize,
    cells: &[Cell<'_>],
) -> Result<Option<Fault>, AllocError>
    ensures { IfOk result (λ fault. fault
        ≡ service_cells_fault known.now kinds.now row (map cell_seen cells.now)) }
{
    for cell in cells {
        let kind = service_kind_at(kinds, cell.column);
        if let Some(kind) = service_cell_fault(alloc, known, kind, cell.text)? {
            return Ok(Some(fault_at(TableName::Services, row, cell.column, kind)));
        }
    }
    Ok(None)
}

/// What is wrong with a row.
fn service_row_fault(
    alloc: Global,
    known: &[Names],
    kinds: &[ServiceColumn],
    row: &Row<'_>,
) -> Result<Option<Fault>, AllocError>
    ensures { IfOk result (λ fault. fault
        ≡ service_row_fault known.now kinds.now (row_seen row.now)) }
{
    if row.cells.len() == kinds.len() {
        service_cells_fault(alloc, known, kinds, row.number, &row.cells)
    } else {
        Ok(Some(fault_at(TableName::Services, row.number, 0, FaultKind::CellCount)))
    }
}

/// What is wrong with the first row with which something is.
pub(crate) fn service_rows_fault(
    alloc: Global,
    known: &[Names],
    kinds: &[ServiceColumn],
    rows: &[Row<'_>],
) -> Result<Option<Fault>, AllocError>
    ensures { IfOk result (λ fault. fault
        ≡ service_rows_fault known.now kinds.now (map row_seen rows.now)) }
{
    for row in rows {
        if let Some(fault) = service_row_fault(alloc, known, kinds, row)? {
            return Ok(Some(fault));
        }
    }
    Ok(None)
}
