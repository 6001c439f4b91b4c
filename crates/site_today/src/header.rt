//! The header: the columns `service` and `host`, in either order.
ghost use Rattle.std.specs.Prelude.{◌≡◌, map};
ghost use Rattle.site_tables.specs.Views.{cell_seen};
ghost use Rattle.site_today.specs.Header.{fault_at, third_fault, second_fault, header_fault, today_columns};

use site_tables::{Cell, Fault, FaultKind, Place, TableName};

/// The numbers of both columns.
#[derive(Clone, Copy, Debug, PartialEq, Eq)]
pub struct TodayColumns {
    /// That of the services.
    pub service: usize,
    /// That of the hosts.
    pub host: usize,
}

/// A fault of this table.
pub(crate) fn fault_at(row: usize, column: usize, kind: FaultKind) -> Fault
    ensures { result ≡ fault_at row column kind }
{
    let table = TableName::Today;
    let place = Place { table, row, column };
    Fault { place, kind }
}

/// What is wrong behind both columns: nothing may stand there.
fn third_fault(cells: &[Cell<'_>]) -> Option<Fault>
    ensures { result ≡ third_fault (map cell_seen cells.now) }
{
    match cells {
        [] => None,
        [_, ..] => Some(fault_at(0, 2, FaultKind::NoSuchColumn)),
    }
}

/// What is wrong behind the first column, where this one has to stand.
fn second_fault(name: &[u8], cells: &[Cell<'_>]) -> Option<Fault>
    ensures { result ≡ second_fault name.now (map cell_seen cells.now) }
{
    match cells {
        [] => Some(fault_at(0, 1, FaultKind::NoSuchColumn)),
        [cell, more @ ..] => {
            if cell.text == name {
                third_fault(more)
            } else {
                Some(fault_at(0, 1, FaultKind::NoSuchColumn))
            }
        }
    }
}

/// What is wrong with the header.
pub(crate) fn header_fault(cells: &[Cell<'_>]) -> Option<Fault>
    ensures { result ≡ header_fault (map cell_seen cells.now) }
{
    match cells {
        [] => Some(fault_at(0, 0, FaultKind::NoRow)),
        [cell, more @ ..] => {
            if cell.text == b"service".as_slice() {
                second_fault(b"host", more)
            } else if cell.text == b"host".as_slice() {
                second_fault(b"service", more)
            } else {
                Some(fault_at(0, 0, FaultKind::NoSuchColumn))
            }
        }
    }
}

/// Which column is which, by the first.
pub fn today_columns(cells: &[Cell<'_>]) -> TodayColumns
    ensures { result ≡ today_columns (map cell_seen cells.now) }
{
    match cells {
        [cell, ..] if cell.text == b"host".as_slice() => TodayColumns {
            service: 1,
            host: 0,
        },
        _ => TodayColumns {
            service: 0,
            host: 1,
        },
    }
}
