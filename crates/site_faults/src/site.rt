//! What is wrong with the tables of a site.
ghost use Rattle.std.specs.Prelude.{◌≡◌, IfOk, map};
ghost use Rattle.site_faults.specs.Faults.{many_fault, none_fault, counts_fault, rows_fault, site_fault_by, site_fault};
ghost use Rattle.site_tables.specs.Views.{row_seen};

use crate::columns::{columns_fault, fault_at};
use crate::hosts::host_rows_fault;
use crate::known::known_texts;
use crate::meets::names_fault;
use crate::services::service_rows_fault;
use site_tables::{
    Fault, FaultKind, HostColumn, Row, ServiceColumn, TableName, behind, header, host_columns,
    service_columns,
};
use std::alloc::{AllocError, Global};

/// How many rows a table may have behind its header.
const MOST_ROWS: usize = 10_000;

/// The fault of a table with too many rows.
fn many_fault(table: TableName, rows: &[Row<'_>]) -> Option<Fault>
    ensures { result ≡ many_fault table (map row_seen rows.now) }
{
    if rows.len() > MOST_ROWS {
        Some(fault_at(table, 10_001, 0, FaultKind::TooManyRows))
    } else {
        None
    }
}

/// The fault of a site without hosts.
fn none_fault(hosts: &[Row<'_>]) -> Option<Fault>
    ensures { result ≡ none_fault (map row_seen hosts.now) }
{
    match hosts {
        [] => Some(fault_at(TableName::Hosts, 1, 0, FaultKind::NoRow)),
        [_, ..] => None,
    }
}

/// What is wrong with how many rows there are.
fn counts_fault(hosts: &[Row<'_>], services: &[Row<'_>]) -> Option<Fault>
    ensures { result ≡ counts_fault (map row_seen hosts.now) (map row_seen services.now) }
{
    if let Some(fault) = none_fault(hosts) {
        return Some(fault);
    }
    match many_fault(TableName::Hosts, hosts) {
        Some(fault) => Some(fault),
        None => many_fault(TableName::Services, services),
    }
}

/// What is wrong with the rows behind the headers.
fn rows_fault(
    alloc: Global,
    kinds: &[HostColumn],
    service_kinds: &[ServiceColumn],
    hosts: &[Row<'_>],
    services: &[Row<'_>],
) -> Result<Option<Fault>, AllocError>
    ensures { IfOk result (λ fault. fault ≡ rows_fault kinds.now service_kinds.now
        (map row_seen hosts.now) (map row_seen services.now)) }
{
    if let Some(fault) = counts_fault(behind(hosts), behind(services)) {
        return Ok(Some(fault));
    }
    if let Some(fault) = host_rows_fault(kinds, behind(hosts)) {
        return Ok(Some(fault));
    }
    let known = known_texts(alloc, behind(hosts), header(hosts))?;
    service_rows_fault(alloc, &known, service_kinds, behind(services))
}

/// What is wrong with the rows and the names.
fn site_fault_by(
    alloc: Global,
    kinds: &[HostColumn],
    service_kinds: &[ServiceColumn],
    hosts: &[Row<'_>],
    services: &[Row<'_>],
) -> Result<Option<Fault>, AllocError>
    ensures { IfOk result (λ fault. fault ≡ site_fault_by kinds.now service_kinds.now
        (map row_seen hosts.now) (map row_seen services.now)) }
{
    match rows_fault(alloc, kinds, service_kinds, hosts, services)? {
        Some(fault) => Ok(Some(fault)),
        None => names_fault(alloc, kinds, hosts, services),
    }
}

/// What is wrong with the tables of a site: the first fault, or none.
pub fn site_fault(
    alloc: Global,
    hosts: &[Row<'_>],
    services: &[Row<'_>],
) -> Result<Option<Fault>, AllocError>
    ensures { IfOk result (λ fault. fault
        ≡ site_fault (map row_seen hosts.now) (map row_seen services.now)) }
{
    if let Some(fault) = columns_fault(alloc, header(hosts), header(services))? {
        return Ok(Some(fault));
    }
    let kinds = host_columns(alloc, header(hosts), header(services))?;
    let service_kinds = service_columns(alloc, header(hosts), header(services))?;
    site_fault_by(alloc, &kinds, &service_kinds, hosts, services)
}
