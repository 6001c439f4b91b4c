//! What is wrong with the rows of the hosts.
ghost use Rattle.std.specs.Prelude.{◌≡◌, map};
ghost use Rattle.site_faults.specs.Rows.{name_fault, amount_fault, host_cell_fault, host_cells_fault, host_row_fault, host_rows_fault};
ghost use Rattle.site_tables.specs.Views.{cell_seen, row_seen};

use crate::columns::fault_at;
use site_tables::{
    Cell, Fault, FaultKind, HostColumn, Row, TableName, host_kind_at, is_amount, is_name,
};

/// What is wrong with a cell where a name has to stand.
pub(crate) fn name_fault(text: &[u8]) -> Option<FaultKind>
    ensures { result ≡ name_fault text.now }
{
    if is_name(text) {
        None
    } else {
        Some(FaultKind::NotAName)
    }
}

/// What is wrong with a cell where an amount has to stand.
pub(crate) fn amount_fault(text: &[u8]) -> Option<FaultKind>
    ensures { result ≡ amount_fault text.now }
{
    if is_amount(text) {
        None
    } else {
        Some(FaultKind::NotANumber)
    }
}

/// What is wrong with a cell of a column.
fn host_cell_fault(column: HostColumn, text: &[u8]) -> Option<FaultKind>
    ensures { result ≡ host_cell_fault column text.now }
{
    match column {
        HostColumn::Name | HostColumn::Label => name_fault(text),
        HostColumn::Amount => amount_fault(text),
        HostColumn::Nothing => None,
    }
}

/// The first of these cells with which something is wrong.
fn host_cells_fault(kinds: &[HostColumn], row: usize, cells: &[Cell<'_>]) -> Option<Fault>
    ensures { result ≡ host_cells_fault kinds.now row (map cell_seen cells.now) }
{
    for cell in cells {
        if let Some(kind) = host_cell_fault(host_kind_at(kinds, cell.column), cell.text) {
            return Some(fault_at(TableName::Hosts, row, cell.column, kind));
        }
    }
    None
}

/// What is wrong with a row.
fn host_row_fault(kinds: &[HostColumn], row: &Row<'_>) -> Option<Fault>
    ensures { result ≡ host_row_fault kinds.now (row_seen row.now) }
{
    if row.cells.len() == kinds.len() {
        host_cells_fault(kinds, row.number, &row.cells)
    } else {
        Some(fault_at(TableName::Hosts, row.number, 0, FaultKind::CellCount))
    }
}

/// What is wrong with the first row with which something is.
pub(crate) fn host_rows_fault(kinds: &[HostColumn], rows: &[Row<'_>]) -> Option<Fault>
    ensures { result ≡ host_rows_fault kinds.now (map row_seen rows.now) }
{
    for row in rows {
        if let Some(fault) = host_row_fault(kinds, row) {
            return Some(fault);
        }
    }
    None
}
