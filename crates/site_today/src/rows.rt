//! The rows: each has a service and a host that are there.
ghost use Rattle.std.specs.Prelude.{◌≡◌, IfOk, map};
ghost use Rattle.site_tables.specs.Views.{row_seen};
ghost use Rattle.site_today.specs.Faults.{is_among, cells_fault, row_fault, rows_fault};

use crate::header::{TodayColumns, fault_at};
use site_names::Names;
use site_tables::{Fault, FaultKind, Row};
use std::alloc::{AllocError, Global};

/// Which services and hosts there are.
#[derive(Drop)]
pub(crate) struct Known {
    pub services: Names,
    pub hosts: Names,
}

/// Whether a text is one of these.
fn is_among(alloc: Global, names: &Names, text: &[u8]) -> Result<bool, AllocError>
    ensures { IfOk result (λ yes. yes ≡ is_among names.now text.now) }
{
    let place = names.place_of(alloc, text)?;
    Ok(place.is_some())
}

/// What is wrong with the cells of a row.
fn cells_fault(
    alloc: Global,
    known: &Known,
    columns: TodayColumns,
    row: &Row<'_>,
) -> Result<Option<Fault>, AllocError>
    ensures { IfOk result (λ fault. fault
        ≡ cells_fault known.now.services known.now.hosts columns (row_seen row.now)) }
{
    let there = is_among(alloc, &known.services, row.text_at(columns.service))?;
    if !there {
        let fault = fault_at(row.number, columns.service, FaultKind::NoSuchService);
        return Ok(Some(fault));
    }
    let there = is_among(alloc, &known.hosts, row.text_at(columns.host))?;
    if !there {
        let fault = fault_at(row.number, columns.host, FaultKind::NoSuchHost);
        return Ok(Some(fault));
    }
    Ok(None)
}

/// What is wrong with a row.
fn row_fault(
    alloc: Global,
    known: &Known,
    columns: TodayColumns,
    row: &Row<'_>,
) -> Result<Option<Fault>, AllocError>
    ensures { IfOk result (λ fault. fault
        ≡ row_fault known.now.services known.now.hosts columns (row_seen row.now)) }
{
    if row.cells.len() == 2 {
        cells_fault(alloc, known, columns, row)
    } else {
        Ok(Some(fault_at(row.number, 0, FaultKind::CellCount)))
    }
}

/// What is wrong with the first row with which something is.
pub(crate) fn rows_fault(
    alloc: Global,
    known: &Known,
    columns: TodayColumns,
    rows: &[Row<'_>],
) -> Result<Option<Fault>, AllocError>
    ensures { IfOk result (λ fault. fault
        ≡ rows_fault known.now.services known.now.hosts columns (map row_seen rows.now)) }
{
    for row in rows {
        if let Some(fault) = row_fault(alloc, known, columns, row)? {
            return Ok(Some(fault));
        }
    }
    Ok(None)
}
