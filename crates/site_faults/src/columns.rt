//! What is wrong with the headers.
ghost use Rattle.std.specs.Prelude.{◌≡◌, IfOk, map};
ghost use Rattle.site_faults.specs.Columns.{fault_at, header_fault, headers_fault, host_fits, host_columns_fault, service_fits, service_columns_fault, twice_fault, columns_fault};
ghost use Rattle.site_tables.specs.Views.{cell_seen};

use site_names::meeting;
use site_tables::{
    Cell, Fault, FaultKind, HostColumn, Place, ServiceColumn, TableName, host_column,
    service_column,
};
use std::alloc::{AllocError, Global};

/// How many columns a table may have.
const MOST_COLUMNS: usize = 64;

/// A fault at a place.
pub(crate) fn fault_at(table: TableName, row: usize, column: usize, kind: FaultKind) -> Fault
    ensures { result ≡ fault_at table row column kind }
{
    Fault {
        place: Place { table, row, column },
        kind,
    }
}

/// What is wrong with a header's length.
fn header_fault(table: TableName, header: &[Cell<'_>]) -> Option<Fault>
    ensures { result ≡ header_fault table (map cell_seen header.now) }
{
    if header.is_empty() {
        return Some(fault_at(table, 0, 0, FaultKind::NoRow));
    }
    if header.len() > MOST_COLUMNS {
        return Some(fault_at(table, 0, 64, FaultKind::NoSuchColumn));
    }
    None
}

/// What is wrong with the lengths of both.
fn headers_fault(hosts: &[Cell<'_>], services: &[Cell<'_>]) -> Option<Fault>
    ensures { result ≡ headers_fault (map cell_seen hosts.now) (map cell_seen services.now) }
{
    match header_fault(TableName::Hosts, hosts) {
        Some(fault) => Some(fault),
        None => header_fault(TableName::Services, services),
    }
}

/// Whether a column of the hosts is one that can stand there.
fn host_fits(number: usize, column: HostColumn) -> bool
    ensures { result ≡ host_fits number column }
{
    match column {
        HostColumn::Name => number == 0,
        HostColumn::Amount | HostColumn::Label => number != 0,
        HostColumn::Nothing => false,
    }
}

/// The first column of the hosts that can't stand there.
fn host_columns_fault(services: &[Cell<'_>], hosts: &[Cell<'_>]) -> Option<Fault>
    ensures { result ≡ host_columns_fault (map cell_seen services.now) (map cell_seen hosts.now) }
{
    for cell in hosts {
        if !host_fits(cell.column, host_column(services, cell.text)) {
            return Some(fault_at(TableName::Hosts, 0, cell.column, FaultKind::NoSuchColumn));
        }
    }
    None
}

/// Whether a column of the services is one that can stand there.
fn service_fits(number: usize, column: ServiceColumn) -> bool
    ensures { result ≡ service_fits number column }
{
    match column {
        ServiceColumn::Name => number == 0,
        ServiceColumn::Amount(_)
        | ServiceColumn::Apart
        | ServiceColumn::ApartBy(_)
        | ServiceColumn::With
        | ServiceColumn::Within(_)
        | ServiceColumn::Without(_)
        | ServiceColumn::Pin
        | ServiceColumn::Moves => number != 0,
        ServiceColumn::Nothing => false,
    }
}

/// The first column of the services that can't stand there.
fn service_columns_fault(hosts: &[Cell<'_>], services: &[Cell<'_>]) -> Option<Fault>
    ensures { result ≡ service_columns_fault (map cell_seen hosts.now) (map cell_seen services.now)
        (map cell_seen services.now) }
{
    for cell in services {
        if !service_fits(cell.column, service_column(hosts, services, cell.text)) {
            return Some(fault_at(TableName::Services, 0, cell.column, FaultKind::NoSuchColumn));
        }
    }
    None
}

/// The texts of cells.
fn texts_of(alloc: Global, cells: &[Cell<'_>]) -> Result<Vec<Vec<u8>>, AllocError>
    ensures { IfOk result (λ texts. map (λ t. t.items) texts.items
        ≡ map (λ c. c.1) (map cell_seen cells.now)) }
{
    let mut texts = Vec::new(alloc);
    for cell in cells {
        texts.push(cell.text.to_vec(alloc)?)?;
    }
    Ok(texts)
}

/// The first column that has the name of an earlier one.
fn twice_fault(
    alloc: Global,
    table: TableName,
    cells: &[Cell<'_>],
) -> Result<Option<Fault>, AllocError>
    ensures { IfOk result (λ fault. fault ≡ twice_fault table (map cell_seen cells.now)) }
{
    let texts = texts_of(alloc, cells)?;
    match meeting(alloc, &texts)? {
        Some(pair) => {
            let first = Place {
                table,
                row: 0,
                column: pair.first,
            };
            Ok(Some(fault_at(table, 0, pair.second, FaultKind::Meets(first))))
        }
        None => Ok(None),
    }
}

/// What is wrong with the headers of both tables.
pub(crate) fn columns_fault(
    alloc: Global,
    hosts: &[Cell<'_>],
    services: &[Cell<'_>],
) -> Result<Option<Fault>, AllocError>
    ensures { IfOk result (λ fault. fault
        ≡ columns_fault (map cell_seen hosts.now) (map cell_seen services.now)) }
{
    if let Some(fault) = headers_fault(hosts, services) {
        return Ok(Some(fault));
    }
    if let Some(fault) = host_columns_fault(services, hosts) {
        return Ok(Some(fault));
    }
    if let Some(fault) = service_columns_fault(hosts, services) {
        return Ok(Some(fault));
    }
    twice_fault(alloc, TableName::Services, services)
}
