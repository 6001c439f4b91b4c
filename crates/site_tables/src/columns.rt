//! What each column of the hosts and of the services is.
ghost use Rattle.std.specs.Prelude.{◌≡◌, map, option_map, IfOk};
ghost use Rattle.site_tables.specs.Columns.{is_own, column_of, prefixed, host_column, host_columns, resource_of, label_of, labelled, service_column, service_columns, host_kind_at, service_kind_at};
ghost use Rattle.site_tables.specs.Views.{cell_seen};

use crate::cells::is_name;
use crate::grid::Cell;
use std::alloc::{AllocError, Global};

/// What a column of the hosts is.
#[derive(Clone, Copy, Debug, PartialEq, Eq)]
pub enum HostColumn {
    /// The names.
    Name,
    /// How much of a resource a host has.
    Amount,
    /// A label, as the zone.
    Label,
    /// A column that means nothing.
    Nothing,
}

/// What a column of the services is. A number is that of a column of the hosts.
#[derive(Clone, Copy, Debug, PartialEq, Eq)]
pub enum ServiceColumn {
    /// The names.
    Name,
    /// How much a service takes of a resource.
    Amount(usize),
    /// Services with the same word are on different hosts.
    Apart,
    /// Services with the same word are on hosts that differ in a label.
    ApartBy(usize),
    /// Services with the same word are on one host.
    With,
    /// The host has one of these values of a label.
    Within(usize),
    /// The host has none of these values of a label.
    Without(usize),
    /// The host itself.
    Pin,
    /// What it costs to move the service.
    Moves,
    /// A column that means nothing.
    Nothing,
}

/// Whether the word of a column is one that is kept, or can't be a column's name.
fn is_own(text: &[u8]) -> bool
    ensures { result ≡ is_own text.now }
{
    text == b"apart".as_slice()
        || text == b"with".as_slice()
        || text == b"pin".as_slice()
        || text == b"moves".as_slice()
        || !is_name(text)
        || text.contains(&b':')
}

/// The number of the first column of this name.
pub fn column_of(header: &[Cell<'_>], text: &[u8]) -> Option<usize>
    ensures { result ≡ column_of text.now (map cell_seen header.now) }
{
    for cell in header {
        if cell.text == text {
            return Some(cell.column);
        }
    }
    None
}

/// What a column of the hosts is, by its name and the columns of the services.
pub fn host_column(services: &[Cell<'_>], text: &[u8]) -> HostColumn
    ensures { result ≡ host_column (map cell_seen services.now) text.now }
{
    if text == b"name".as_slice() {
        HostColumn::Name
    } else if is_own(text) {
        HostColumn::Nothing
    } else if column_of(services, text).is_some() {
        HostColumn::Amount
    } else {
        HostColumn::Label
    }
}

/// What the columns of the hosts are.
pub fn host_columns(
    alloc: Global,
    hosts: &[Cell<'_>],
    services: &[Cell<'_>],
) -> Result<Vec<HostColumn>, AllocError>
    ensures { IfOk result (λ columns. columns.items
        ≡ host_columns (map cell_seen services.now) (map cell_seen hosts.now)) }
{
    let mut columns = Vec::new(alloc);
    for cell in hosts {
        columns.push(host_column(services, cell.text))?;
    }
    Ok(columns)
}

/// What stands behind a text's prefix, if it has it.
fn prefixed<'a>(text: &'a [u8], prefix: &[u8]) -> Option<&'a [u8]>
    ensures { option_map (λ t. t.now) result ≡ prefixed prefix.now text.now }
{
    text.strip_prefix(prefix)
}

/// The number of the resource of this name.
pub fn resource_of(hosts: &[Cell<'_>], services: &[Cell<'_>], text: &[u8]) -> Option<usize>
    ensures { result ≡ resource_of (map cell_seen hosts.now) (map cell_seen services.now)
        text.now }
{
    match host_column(services, text) {
        HostColumn::Amount => column_of(hosts, text),
        HostColumn::Name | HostColumn::Label | HostColumn::Nothing => None,
    }
}

/// The number of the label of this name.
fn label_of(hosts: &[Cell<'_>], services: &[Cell<'_>], text: &[u8]) -> Option<usize>
    ensures { result ≡ label_of (map cell_seen hosts.now) (map cell_seen services.now) text.now }
{
    match host_column(services, text) {
        HostColumn::Label => column_of(hosts, text),
        _ => None,
    }
}

/// What a column of the services is that names a label behind a colon.
fn labelled(hosts: &[Cell<'_>], services: &[Cell<'_>], text: &[u8]) -> Option<ServiceColumn>
    ensures { result ≡ labelled (map cell_seen hosts.now) (map cell_seen services.now) text.now }
{
    if let Some(label) = prefixed(text, b"apart:") {
        Some(ServiceColumn::ApartBy(label_of(hosts, services, label)?))
    } else if let Some(label) = prefixed(text, b"in:") {
        Some(ServiceColumn::Within(label_of(hosts, services, label)?))
    } else if let Some(label) = prefixed(text, b"not:") {
        Some(ServiceColumn::Without(label_of(hosts, services, label)?))
    } else {
        None
    }
}

/// What a column of the services is, by its name and the columns of both.
pub fn service_column(hosts: &[Cell<'_>], services: &[Cell<'_>], text: &[u8]) -> ServiceColumn
    ensures { result ≡ service_column (map cell_seen hosts.now) (map cell_seen services.now)
        text.now }
{
    if text == b"name".as_slice() {
        ServiceColumn::Name
    } else if text == b"apart".as_slice() {
        ServiceColumn::Apart
    } else if text == b"with".as_slice() {
        ServiceColumn::With
    } else if text == b"pin".as_slice() {
        ServiceColumn::Pin
    } else if text == b"moves".as_slice() {
        ServiceColumn::Moves
    } else if is_own(text) {
        labelled(hosts, services, text).unwrap_or(ServiceColumn::Nothing)
    } else {
        match column_of(hosts, text) {
            Some(column) => ServiceColumn::Amount(column),
            None => ServiceColumn::Nothing,
        }
    }
}

/// What the columns of the services are.
pub fn service_columns(
    alloc: Global,
    hosts: &[Cell<'_>],
    services: &[Cell<'_>],
) -> Result<Vec<ServiceColumn>, AllocError>
    ensures { IfOk result (λ columns. columns.items ≡ service_columns (map cell_seen hosts.now)
        (map cell_seen services.now) (map cell_seen services.now)) }
{
    let mut columns = Vec::new(alloc);
    for cell in services {
        columns.push(service_column(hosts, services, cell.text))?;
    }
    Ok(columns)
}

/// What the column of this number of the hosts is.
pub fn host_kind_at(columns: &[HostColumn], number: usize) -> HostColumn
    ensures { result ≡ host_kind_at columns.now number }
{
    columns.get(number).copied().unwrap_or(HostColumn::Nothing)
}

/// What the column of this number of the services is.
pub fn service_kind_at(columns: &[ServiceColumn], number: usize) -> ServiceColumn
    ensures { result ≡ service_kind_at columns.now number }
{
    columns
        .get(number)
        .copied()
        .unwrap_or(ServiceColumn::Nothing)
}
