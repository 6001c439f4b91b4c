//! The lines of a host, and those of a service alone.
ghost use Rattle.std.specs.Prelude.{◌≡◌, ◌==◌, ◌++◌, if◌then◌else◌, OnOk, codes, length, map};
ghost use Rattle.std.specs.List.{flat_map};
ghost use Rattle.site_model.specs.Facts.{number_fact, label_fact, host_fact, variable, host_lines, pin_fact, moves_fact, service_fact, service_lines};
ghost use Rattle.site_tables.specs.Views.{cell_seen, row_seen};

use crate::choosing::{push_within, push_without};
use crate::lines::{push_all, values_word};
use site_names::word_of;
use site_tables::{Cell, HostColumn, Row, ServiceColumn, host_kind_at, service_kind_at, text_in};
use std::alloc::{AllocError, Global};

/// Writes a number that is fixed.
fn push_number(
    alloc: Global,
    text: &mut Vec<u8>,
    name: &[u8],
    column: &[u8],
    amount: &[u8],
) -> Result<(), AllocError>
    ensures { OnOk result (text.new.items
        ≡ text.old.items ++ number_fact name.now column.now amount.now) }
{
    let word = word_of(alloc, name)?;
    let attribute = word_of(alloc, column)?;
    push_all(
        text,
        &[
            b"where ".as_slice(),
            word.as_slice(),
            b".".as_slice(),
            attribute.as_slice(),
            b" = ".as_slice(),
            amount,
            b";  // ".as_slice(),
            name,
            b"\n".as_slice(),
        ],
    )
}

/// Writes a label that is fixed.
fn push_label(
    alloc: Global,
    text: &mut Vec<u8>,
    name: &[u8],
    column: &[u8],
    value: &[u8],
) -> Result<(), AllocError>
    ensures { OnOk result (text.new.items
        ≡ text.old.items ++ label_fact name.now column.now value.now) }
{
    let word = word_of(alloc, name)?;
    let attribute = word_of(alloc, column)?;
    let values = values_word(alloc, column)?;
    let value = word_of(alloc, value)?;
    push_all(
        text,
        &[
            b"where ".as_slice(),
            word.as_slice(),
            b".".as_slice(),
            attribute.as_slice(),
            b" = ".as_slice(),
            values.as_slice(),
            b".".as_slice(),
            value.as_slice(),
            b";  // ".as_slice(),
            name,
            b"\n".as_slice(),
        ],
    )
}

/// Writes what a cell of a host says.
fn push_host_fact(
    alloc: Global,
    text: &mut Vec<u8>,
    kinds: &[HostColumn],
    columns: &[Cell<'_>],
    name: &[u8],
    cell: &Cell<'_>,
) -> Result<(), AllocError>
    ensures { OnOk result (text.new.items ≡ text.old.items
        ++ host_fact kinds.now (map cell_seen columns.now) name.now (cell_seen cell.now)) }
{
    match host_kind_at(kinds, cell.column) {
        HostColumn::Amount => {
            push_number(alloc, text, name, text_in(columns, cell.column), cell.text)
        }
        HostColumn::Label => {
            push_label(alloc, text, name, text_in(columns, cell.column), cell.text)
        }
        HostColumn::Name | HostColumn::Nothing => Ok(()),
    }
}

/// Writes what the cells of a host say.
fn push_host_facts(
    alloc: Global,
    text: &mut Vec<u8>,
    kinds: &[HostColumn],
    columns: &[Cell<'_>],
    name: &[u8],
    cells: &[Cell<'_>],
) -> Result<(), AllocError>
    ensures { OnOk result (text.new.items ≡ text.old.items
        ++ flat_map (host_fact kinds.now (map cell_seen columns.now) name.now)
        (map cell_seen cells.now)) }
{
    for cell in cells {
        push_host_fact(alloc, text, kinds, columns, name, cell)?;
    }
    Ok(())
}

/// Writes the variable of a host or of a service.
#[tactic(auto, unfolding(crate::specs::Facts::variable))]
fn push_variable(
    alloc: Global,
    text: &mut Vec<u8>,
    class: &[u8],
    name: &[u8],
) -> Result<(), AllocError>
    ensures { OnOk result (text.new.items ≡ text.old.items ++ variable class.now name.now) }
{
    let word = word_of(alloc, name)?;
    push_all(
        text,
        &[
            b"var ".as_slice(),
            word.as_slice(),
            b" as ".as_slice(),
            class,
            b";  // ".as_slice(),
            name,
            b"\n".as_slice(),
        ],
    )
}

/// Writes the lines of a host.
#[tactic(auto, unfolding(crate::specs::Facts::host_lines))]
fn push_host(
    alloc: Global,
    text: &mut Vec<u8>,
    kinds: &[HostColumn],
    columns: &[Cell<'_>],
    row: &Row<'_>,
) -> Result<(), AllocError>
    ensures { OnOk result (text.new.items ≡ text.old.items
        ++ host_lines kinds.now (map cell_seen columns.now) (row_seen row.now)) }
{
    let name = row.name();
    push_variable(alloc, text, b"Host", name)?;
    push_host_facts(alloc, text, kinds, columns, name, &row.cells)
}

/// Writes the lines of all hosts.
pub(crate) fn push_hosts(
    alloc: Global,
    text: &mut Vec<u8>,
    kinds: &[HostColumn],
    columns: &[Cell<'_>],
    rows: &[Row<'_>],
) -> Result<(), AllocError>
    ensures { OnOk result (text.new.items ≡ text.old.items
        ++ flat_map (host_lines kinds.now (map cell_seen columns.now)) (map row_seen rows.now)) }
{
    for row in rows {
        push_host(alloc, text, kinds, columns, row)?;
    }
    Ok(())
}

/// Writes the host of a service, where it is given.
fn push_pin(alloc: Global, text: &mut Vec<u8>, name: &[u8], host: &[u8]) -> Result<(), AllocError>
    ensures { OnOk result (text.new.items ≡ text.old.items ++ pin_fact name.now host.now) }
{
    if host.is_empty() {
        return Ok(());
    }
    let word = word_of(alloc, name)?;
    let host = word_of(alloc, host)?;
    push_all(
        text,
        &[
            b"where ".as_slice(),
            word.as_slice(),
            b".host = ".as_slice(),
            host.as_slice(),
            b";  // ".as_slice(),
            name,
            b"\n".as_slice(),
        ],
    )
}

/// What it costs to move a service: 1 where nothing is said.
fn cost_in(cell: &[u8]) -> &[u8]
    ensures { result.now ≡ (if length cell.now == 0 then codes "1" else cell.now) }
{
    if cell.is_empty() { b"1" } else { cell }
}

/// Writes what it costs to move a service.
fn push_moves(alloc: Global, text: &mut Vec<u8>, name: &[u8], cell: &[u8]) -> Result<(), AllocError>
    ensures { OnOk result (text.new.items ≡ text.old.items ++ moves_fact name.now cell.now) }
{
    let word = word_of(alloc, name)?;
    push_all(
        text,
        &[
            b"where ".as_slice(),
            word.as_slice(),
            b".moves = ".as_slice(),
            cost_in(cell),
            b";  // ".as_slice(),
            name,
            b"\n".as_slice(),
        ],
    )
}

/// The columns of both tables, and what those of the services are.
#[derive(Clone, Copy)]
pub(crate) struct Columns<'c> {
    pub kinds: &'c [ServiceColumn],
    pub hosts: &'c [Cell<'c>],
    pub services: &'c [Cell<'c>],
}

/// Writes what a cell of a service says of that service alone.
fn push_service_fact(
    alloc: Global,
    text: &mut Vec<u8>,
    columns: &Columns<'_>,
    name: &[u8],
    cell: &Cell<'_>,
) -> Result<(), AllocError>
    ensures { OnOk result (text.new.items ≡ text.old.items
        ++ service_fact columns.now.kinds.now (map cell_seen columns.now.hosts.now)
        (map cell_seen columns.now.services.now) name.now (cell_seen cell.now)) }
{
    match service_kind_at(columns.kinds, cell.column) {
        ServiceColumn::Amount(_) => {
            let column = text_in(columns.services, cell.column);
            push_number(alloc, text, name, column, cell.text)
        }
        ServiceColumn::Pin => push_pin(alloc, text, name, cell.text),
        ServiceColumn::Moves => push_moves(alloc, text, name, cell.text),
        ServiceColumn::Within(label) => {
            push_within(alloc, text, name, text_in(columns.hosts, label), cell.text)
        }
        ServiceColumn::Without(label) => {
            push_without(alloc, text, name, text_in(columns.hosts, label), cell.text)
        }
        ServiceColumn::Name
        | ServiceColumn::Apart
        | ServiceColumn::ApartBy(_)
        | ServiceColumn::With
        | ServiceColumn::Nothing => Ok(()),
    }
}

/// Writes what the cells of a service say of that service alone.
fn push_service_facts(
    alloc: Global,
    text: &mut Vec<u8>,
    columns: &Columns<'_>,
    name: &[u8],
    cells: &[Cell<'_>],
) -> Result<(), AllocError>
    ensures { OnOk result (text.new.items ≡ text.old.items
        ++ flat_map (service_fact columns.now.kinds.now (map cell_seen columns.now.hosts.now)
        (map cell_seen columns.now.services.now) name.now) (map cell_seen cells.now)) }
{
    for cell in cells {
        push_service_fact(alloc, text, columns, name, cell)?;
    }
    Ok(())
}

/// Writes the lines of a service.
#[tactic(auto, unfolding(crate::specs::Facts::service_lines))]
fn push_service(
    alloc: Global,
    text: &mut Vec<u8>,
    columns: &Columns<'_>,
    row: &Row<'_>,
) -> Result<(), AllocError>
    ensures { OnOk result (text.new.items ≡ text.old.items
        ++ service_lines columns.now.kinds.now (map cell_seen columns.now.hosts.now)
        (map cell_seen columns.now.services.now) (row_seen row.now)) }
{
    let name = row.name();
    push_variable(alloc, text, b"Service", name)?;
    push_service_facts(alloc, text, columns, name, &row.cells)
}

/// Writes the lines of all services.
pub(crate) fn push_services(
    alloc: Global,
    text: &mut Vec<u8>,
    columns: &Columns<'_>,
    rows: &[Row<'_>],
) -> Result<(), AllocError>
    ensures { OnOk result (text.new.items ≡ text.old.items
        ++ flat_map (service_lines columns.now.kinds.now (map cell_seen columns.now.hosts.now)
        (map cell_seen columns.now.services.now)) (map row_seen rows.now)) }
{
    for row in rows {
        push_service(alloc, text, columns, row)?;
    }
    Ok(())
}
