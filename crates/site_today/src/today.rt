//! What is wrong with the table of today.
ghost use Rattle.std.specs.Prelude.{◌≡◌, ◌∷◌, IfOk, map, option_map, slice_get};
ghost use Rattle.site_names.specs.Meeting.{pair_seen};
ghost use Rattle.site_tables.specs.Grid.{text_at};
ghost use Rattle.site_tables.specs.Values.{values_at};
ghost use Rattle.site_tables.specs.Views.{row_seen};
ghost use Rattle.site_today.specs.Faults.{number_at, twice_at, twice_fault, known_fault, today_fault};

use crate::header::{TodayColumns, fault_at, header_fault, today_columns};
use crate::rows::{Known, rows_fault};
use site_names::{Pair, meeting};
use site_tables::{Fault, FaultKind, Place, Row, TableName, behind, header, values_at};
use std::alloc::{AllocError, Global};

/// The texts of a column.
fn texts_at(alloc: Global, rows: &[Row<'_>], column: usize) -> Result<Vec<Vec<u8>>, AllocError>
    ensures { IfOk result (λ texts. map (λ t. t.items) texts.items
        ≡ map (text_at column) (map row_seen rows.now)) }
{
    let mut texts = Vec::new(alloc);
    for row in rows {
        texts.push(row.text_at(column).to_vec(alloc)?)?;
    }
    Ok(texts)
}

/// The number of the row at a place; that of the header where there is none.
fn number_at(rows: &[Row<'_>], place: usize) -> usize
    ensures { result ≡ number_at (map row_seen rows.now) place }
{
    match rows.get(place) {
        Some(row) => row.number,
        None => 0,
    }
}

/// The fault of two rows of the same service.
fn twice_at(columns: TodayColumns, rows: &[Row<'_>], pair: Pair) -> Fault
    ensures { result ≡ twice_at columns (map row_seen rows.now) (pair_seen pair) }
{
    let first = Place {
        table: TableName::Today,
        row: number_at(rows, pair.first),
        column: columns.service,
    };
    let second = number_at(rows, pair.second);
    fault_at(second, columns.service, FaultKind::Meets(first))
}

/// The first row whose service an earlier one has.
fn twice_fault(
    alloc: Global,
    columns: TodayColumns,
    rows: &[Row<'_>],
) -> Result<Option<Fault>, AllocError>
    ensures { IfOk result (λ fault. fault ≡ twice_fault columns (map row_seen rows.now)) }
{
    let texts = texts_at(alloc, rows, columns.service)?;
    match meeting(alloc, &texts)? {
        Some(pair) => Ok(Some(twice_at(columns, rows, pair))),
        None => Ok(None),
    }
}

/// What is wrong with the rows behind the header, where these services and hosts are there.
fn known_fault(
    alloc: Global,
    known: &Known,
    columns: TodayColumns,
    rows: &[Row<'_>],
) -> Result<Option<Fault>, AllocError>
    ensures { IfOk result (λ fault. fault
        ≡ known_fault known.now.services known.now.hosts columns (map row_seen rows.now)) }
{
    match rows_fault(alloc, known, columns, rows)? {
        Some(fault) => Ok(Some(fault)),
        None => twice_fault(alloc, columns, rows),
    }
}

/// What is wrong with the table of today: the first fault, or none.
pub fn today_fault(
    alloc: Global,
    hosts: &[Row<'_>],
    services: &[Row<'_>],
    today: &[Row<'_>],
) -> Result<Option<Fault>, AllocError>
    ensures { IfOk result (λ fault. fault ≡ today_fault (map row_seen hosts.now)
        (map row_seen services.now) (map row_seen today.now)) }
{
    if let Some(fault) = header_fault(header(today)) {
        return Ok(Some(fault));
    }
    let columns = today_columns(header(today));
    let known = Known {
        services: values_at(alloc, behind(services), 0)?,
        hosts: values_at(alloc, behind(hosts), 0)?,
    };
    known_fault(alloc, &known, columns, behind(today))
}
