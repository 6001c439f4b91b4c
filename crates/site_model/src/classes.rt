//! The enumerations of labels, and the classes of hosts and services.
ghost use Rattle.std.specs.Prelude.{◌≡◌, ◌∷◌, ◌++◌, [], OnOk, map};
ghost use Rattle.std.specs.List.{flat_map};
ghost use Rattle.site_model.specs.Classes.{listed, enumeration, enumeration_of, number_attribute, label_attribute, host_attribute, capacity_of, moves_attribute, service_attribute, host_members, host_class, service_members, service_class};
ghost use Rattle.site_model.specs.Goals.{aim_of};
ghost use Rattle.site_model.specs.Lines.{joined};
ghost use Rattle.site_names.specs.Words.{word_of};
ghost use Rattle.site_tables.specs.Views.{cell_seen, row_seen};

use crate::goals::{Goal, push_own_attributes};
use crate::lines::{nines, push_all, values_word};
use site_names::{Names, word_of};
use site_tables::{
    Cell, HostColumn, Row, ServiceColumn, host_kind_at, longest_at, service_kind_at, values_at,
};
use std::alloc::{AllocError, Global};

/// Writes the word of a value behind something.
fn push_word(
    alloc: Global,
    text: &mut Vec<u8>,
    before: &[u8],
    value: &[u8],
) -> Result<(), AllocError>
    ensures { OnOk result (text.new.items
        ≡ text.old.items ++ joined (before.now ∷ word_of value.now ∷ [])) }
{
    let word = word_of(alloc, value)?;
    push_all(text, &[before, word.as_slice()])
}

/// Writes the words of values, with commas between them.
fn push_listed(alloc: Global, text: &mut Vec<u8>, values: &Names) -> Result<(), AllocError>
    ensures { OnOk result (text.new.items ≡ text.old.items ++ listed [] values.now) }
{
    let mut before = b"".as_slice();
    for number in 0..values.len() {
        let value = values.get(number);
        push_word(alloc, text, before, value)?;
        before = b", ".as_slice();
    }
    Ok(())
}

/// Writes the enumeration of a label.
fn push_enumeration(
    alloc: Global,
    text: &mut Vec<u8>,
    column: &[u8],
    values: &Names,
) -> Result<(), AllocError>
    ensures { OnOk result (text.new.items
        ≡ text.old.items ++ enumeration column.now values.now) }
{
    let word = values_word(alloc, column)?;
    push_all(
        text,
        &[b"enum ".as_slice(), word.as_slice(), b" { ".as_slice()],
    )?;
    push_listed(alloc, text, values)?;
    text.extend_from_slice(b" }\n")
}

/// Writes the enumeration of a column of the hosts, where it is a label.
fn push_enumeration_of(
    alloc: Global,
    text: &mut Vec<u8>,
    kinds: &[HostColumn],
    rows: &[Row<'_>],
    cell: &Cell<'_>,
) -> Result<(), AllocError>
    ensures { OnOk result (text.new.items ≡ text.old.items
        ++ enumeration_of kinds.now (map row_seen rows.now) (cell_seen cell.now)) }
{
    match host_kind_at(kinds, cell.column) {
        HostColumn::Label => {
            let values = values_at(alloc, rows, cell.column)?;
            push_enumeration(alloc, text, cell.text, &values)
        }
        HostColumn::Name | HostColumn::Amount | HostColumn::Nothing => Ok(()),
    }
}

/// Writes the enumerations of all labels.
pub(crate) fn push_enumerations(
    alloc: Global,
    text: &mut Vec<u8>,
    kinds: &[HostColumn],
    columns: &[Cell<'_>],
    rows: &[Row<'_>],
) -> Result<(), AllocError>
    ensures { OnOk result (text.new.items ≡ text.old.items
        ++ flat_map (enumeration_of kinds.now (map row_seen rows.now))
        (map cell_seen columns.now)) }
{
    for cell in columns {
        push_enumeration_of(alloc, text, kinds, rows, cell)?;
    }
    Ok(())
}

/// Writes a number of a class.
fn push_number(
    alloc: Global,
    text: &mut Vec<u8>,
    column: &[u8],
    digits: usize,
) -> Result<(), AllocError>
    ensures { OnOk result (text.new.items
        ≡ text.old.items ++ number_attribute column.now digits) }
{
    let word = word_of(alloc, column)?;
    let most = nines(alloc, digits)?;
    push_all(
        text,
        &[
            b"  var ".as_slice(),
            word.as_slice(),
            b" as 0..".as_slice(),
            most.as_slice(),
            b";\n".as_slice(),
        ],
    )
}

/// Writes a label of the class of hosts.
fn push_label(alloc: Global, text: &mut Vec<u8>, column: &[u8]) -> Result<(), AllocError>
    ensures { OnOk result (text.new.items ≡ text.old.items ++ label_attribute column.now) }
{
    let word = word_of(alloc, column)?;
    let values = values_word(alloc, column)?;
    push_all(
        text,
        &[
            b"  var ".as_slice(),
            word.as_slice(),
            b" as ".as_slice(),
            values.as_slice(),
            b";\n".as_slice(),
        ],
    )
}

/// Writes an attribute of the class of hosts.
fn push_host_attribute(
    alloc: Global,
    text: &mut Vec<u8>,
    kinds: &[HostColumn],
    rows: &[Row<'_>],
    cell: &Cell<'_>,
) -> Result<(), AllocError>
    ensures { OnOk result (text.new.items ≡ text.old.items
        ++ host_attribute kinds.now (map row_seen rows.now) (cell_seen cell.now)) }
{
    match host_kind_at(kinds, cell.column) {
        HostColumn::Amount => push_number(alloc, text, cell.text, longest_at(rows, cell.column)),
        HostColumn::Label => push_label(alloc, text, cell.text),
        HostColumn::Name | HostColumn::Nothing => Ok(()),
    }
}

/// Writes that what runs on a host takes no more of a resource than it has.
fn push_capacity(
    alloc: Global,
    text: &mut Vec<u8>,
    kinds: &[HostColumn],
    cell: &Cell<'_>,
) -> Result<(), AllocError>
    ensures { OnOk result (text.new.items
        ≡ text.old.items ++ capacity_of kinds.now (cell_seen cell.now)) }
{
    match host_kind_at(kinds, cell.column) {
        HostColumn::Amount => {
            let word = word_of(alloc, cell.text)?;
            push_all(
                text,
                &[
                    b"  where sum s in Service where s.host = this { s.".as_slice(),
                    word.as_slice(),
                    b" } <= ".as_slice(),
                    word.as_slice(),
                    b";\n".as_slice(),
                ],
            )
        }
        HostColumn::Name | HostColumn::Label | HostColumn::Nothing => Ok(()),
    }
}

/// Writes the attributes of the class of hosts.
fn push_host_attributes(
    alloc: Global,
    text: &mut Vec<u8>,
    kinds: &[HostColumn],
    columns: &[Cell<'_>],
    rows: &[Row<'_>],
) -> Result<(), AllocError>
    ensures { OnOk result (text.new.items ≡ text.old.items
        ++ flat_map (host_attribute kinds.now (map row_seen rows.now))
        (map cell_seen columns.now)) }
{
    for cell in columns {
        push_host_attribute(alloc, text, kinds, rows, cell)?;
    }
    Ok(())
}

/// Writes the constraints of the class of hosts.
fn push_capacities(
    alloc: Global,
    text: &mut Vec<u8>,
    kinds: &[HostColumn],
    columns: &[Cell<'_>],
) -> Result<(), AllocError>
    ensures { OnOk result (text.new.items ≡ text.old.items
        ++ flat_map (capacity_of kinds.now) (map cell_seen columns.now)) }
{
    for cell in columns {
        push_capacity(alloc, text, kinds, cell)?;
    }
    Ok(())
}

/// Writes what stands in the class of hosts.
fn push_host_members(
    alloc: Global,
    text: &mut Vec<u8>,
    kinds: &[HostColumn],
    columns: &[Cell<'_>],
    rows: &[Row<'_>],
) -> Result<(), AllocError>
    ensures { OnOk result (text.new.items ≡ text.old.items
        ++ host_members kinds.now (map cell_seen columns.now) (map row_seen rows.now)) }
{
    push_host_attributes(alloc, text, kinds, columns, rows)?;
    push_capacities(alloc, text, kinds, columns)
}

/// Writes the class of hosts.
pub(crate) fn push_host_class(
    alloc: Global,
    text: &mut Vec<u8>,
    kinds: &[HostColumn],
    columns: &[Cell<'_>],
    rows: &[Row<'_>],
) -> Result<(), AllocError>
    ensures { OnOk result (text.new.items ≡ text.old.items
        ++ host_class kinds.now (map cell_seen columns.now) (map row_seen rows.now)) }
{
    text.extend_from_slice(b"class Host {\n")?;
    push_host_members(alloc, text, kinds, columns, rows)?;
    text.extend_from_slice(b"}\n")
}

/// Writes the attribute that says what it costs to move a service.
fn push_moves(alloc: Global, text: &mut Vec<u8>, digits: usize) -> Result<(), AllocError>
    ensures { OnOk result (text.new.items ≡ text.old.items ++ moves_attribute digits) }
{
    let most = nines(alloc, digits)?;
    push_all(
        text,
        &[
            b"  var moves as 0..".as_slice(),
            most.as_slice(),
            b";\n".as_slice(),
        ],
    )
}

/// Writes an attribute of the class of services.
fn push_service_attribute(
    alloc: Global,
    text: &mut Vec<u8>,
    kinds: &[ServiceColumn],
    rows: &[Row<'_>],
    cell: &Cell<'_>,
) -> Result<(), AllocError>
    ensures { OnOk result (text.new.items ≡ text.old.items
        ++ service_attribute kinds.now (map row_seen rows.now) (cell_seen cell.now)) }
{
    match service_kind_at(kinds, cell.column) {
        ServiceColumn::Amount(_) => {
            push_number(alloc, text, cell.text, longest_at(rows, cell.column))
        }
        ServiceColumn::Moves => push_moves(alloc, text, longest_at(rows, cell.column)),
        ServiceColumn::Name
        | ServiceColumn::Apart
        | ServiceColumn::ApartBy(_)
        | ServiceColumn::With
        | ServiceColumn::Within(_)
        | ServiceColumn::Without(_)
        | ServiceColumn::Pin
        | ServiceColumn::Nothing => Ok(()),
    }
}

/// Writes the attributes of the class of services.
fn push_service_attributes(
    alloc: Global,
    text: &mut Vec<u8>,
    kinds: &[ServiceColumn],
    columns: &[Cell<'_>],
    rows: &[Row<'_>],
) -> Result<(), AllocError>
    ensures { OnOk result (text.new.items ≡ text.old.items
        ++ flat_map (service_attribute kinds.now (map row_seen rows.now))
        (map cell_seen columns.now)) }
{
    for cell in columns {
        push_service_attribute(alloc, text, kinds, rows, cell)?;
    }
    Ok(())
}

/// Writes the attributes of the class of services, but for the host.
fn push_service_members(
    alloc: Global,
    text: &mut Vec<u8>,
    kinds: &[ServiceColumn],
    columns: &[Cell<'_>],
    rows: &[Row<'_>],
    goal: Goal<'_>,
) -> Result<(), AllocError>
    ensures { OnOk result (text.new.items ≡ text.old.items ++ service_members kinds.now
        (map cell_seen columns.now) (map row_seen rows.now) (aim_of goal.entry)) }
{
    push_service_attributes(alloc, text, kinds, columns, rows)?;
    push_own_attributes(text, goal)
}

/// Writes the class of services.
pub(crate) fn push_service_class(
    alloc: Global,
    text: &mut Vec<u8>,
    kinds: &[ServiceColumn],
    columns: &[Cell<'_>],
    rows: &[Row<'_>],
    goal: Goal<'_>,
) -> Result<(), AllocError>
    ensures { OnOk result (text.new.items ≡ text.old.items ++ service_class kinds.now
        (map cell_seen columns.now) (map row_seen rows.now) (aim_of goal.entry)) }
{
    text.extend_from_slice(b"class Service {\n")?;
    push_service_members(alloc, text, kinds, columns, rows, goal)?;
    text.extend_from_slice(b"  var host as ref Host;\n}\n")?;
    Ok(())
}
