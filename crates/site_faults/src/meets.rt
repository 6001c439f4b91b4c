//! Names that would become the same word.
ghost use Rattle.std.specs.Prelude.{◌≡◌, ◌∷◌, ◌++◌, [], IfOk, OnOk, map, option_map, slice_get};
ghost use Rattle.std.specs.List.{flat_map};
ghost use Rattle.site_faults.specs.Meets.{entry_seen, column_entries, row_entry, entries, place_at, meets_at, meets_fault, values_meet, values_meet_by, values_fault, names_fault};
ghost use Rattle.site_names.specs.Meeting.{pair_seen};
ghost use Rattle.site_names.specs.Words.{word_of};
ghost use Rattle.site_tables.specs.Views.{cell_seen, row_seen};

use crate::columns::fault_at;
use site_names::{Names, Pair, meeting, word_of, word_with};
use site_tables::{
    Cell, Fault, FaultKind, HostColumn, Place, Row, TableName, behind, header, host_kind_at,
    values_at,
};
use std::alloc::{AllocError, Global};

/// Where a name stands, and its word.
#[derive(Drop)]
pub(crate) struct Entry {
    pub place: Place,
    pub word: Vec<u8>,
}

/// Adds the words of a column of the hosts.
fn push_column(
    alloc: Global,
    list: &mut Vec<Entry>,
    kinds: &[HostColumn],
    cell: &Cell<'_>,
) -> Result<(), AllocError>
    ensures { OnOk result (map entry_seen list.new.items ≡ map entry_seen list.old.items
        ++ column_entries kinds.now (cell_seen cell.now)) }
{
    let place = Place {
        table: TableName::Hosts,
        row: 0,
        column: cell.column,
    };
    match host_kind_at(kinds, cell.column) {
        HostColumn::Amount => {
            let word = word_of(alloc, cell.text)?;
            list.push(Entry { place, word })?;
        }
        HostColumn::Label => {
            let word = word_of(alloc, cell.text)?;
            list.push(Entry { place, word })?;
            let word = word_with(alloc, cell.text, b"s")?;
            list.push(Entry { place, word })?;
        }
        HostColumn::Name | HostColumn::Nothing => {}
    }
    Ok(())
}

/// Adds the words of the columns of the hosts.
fn push_columns(
    alloc: Global,
    list: &mut Vec<Entry>,
    kinds: &[HostColumn],
    cells: &[Cell<'_>],
) -> Result<(), AllocError>
    ensures { OnOk result (map entry_seen list.new.items ≡ map entry_seen list.old.items
        ++ flat_map (column_entries kinds.now) (map cell_seen cells.now)) }
{
    for cell in cells {
        push_column(alloc, list, kinds, cell)?;
    }
    Ok(())
}

/// Adds the word of a row's name.
fn push_row(
    alloc: Global,
    list: &mut Vec<Entry>,
    table: TableName,
    row: &Row<'_>,
) -> Result<(), AllocError>
    ensures { OnOk result (map entry_seen list.new.items ≡ map entry_seen list.old.items
        ++ row_entry table (row_seen row.now) ∷ []) }
{
    let place = Place {
        table,
        row: row.number,
        column: 0,
    };
    let word = word_of(alloc, row.name())?;
    list.push(Entry { place, word })?;
    Ok(())
}

/// Adds the words of the names of rows.
fn push_rows(
    alloc: Global,
    list: &mut Vec<Entry>,
    table: TableName,
    rows: &[Row<'_>],
) -> Result<(), AllocError>
    ensures { OnOk result (map entry_seen list.new.items ≡ map entry_seen list.old.items
        ++ map (row_entry table) (map row_seen rows.now)) }
{
    for row in rows {
        push_row(alloc, list, table, row)?;
    }
    Ok(())
}

/// All names of a model, with their words.
fn entries(
    alloc: Global,
    kinds: &[HostColumn],
    hosts: &[Row<'_>],
    services: &[Row<'_>],
) -> Result<Vec<Entry>, AllocError>
    ensures { IfOk result (λ list. map entry_seen list.items
        ≡ entries kinds.now (map row_seen hosts.now) (map row_seen services.now)) }
{
    let mut list = Vec::new(alloc);
    push_columns(alloc, &mut list, kinds, header(hosts))?;
    push_rows(alloc, &mut list, TableName::Hosts, behind(hosts))?;
    push_rows(alloc, &mut list, TableName::Services, behind(services))?;
    Ok(list)
}

/// The words of entries.
fn words_of(alloc: Global, list: &[Entry]) -> Result<Vec<Vec<u8>>, AllocError>
    ensures { IfOk result (λ words. map (λ w. w.items) words.items
        ≡ map (λ e. e.1) (map entry_seen list.now)) }
{
    let mut words = Vec::new(alloc);
    for entry in list {
        words.push(entry.word.as_slice().to_vec(alloc)?)?;
    }
    Ok(words)
}

/// The entry at a place.
#[tactic(auto, using(crate::proofs::ListLaws::entry_here))]
fn entry_at(list: &[Entry], place: usize) -> Option<&Entry>
    ensures { option_map (λ e. entry_seen e.now) result ≡ slice_get (map entry_seen list.now) place }
{
    list.get(place)
}

/// Where the name of an entry stands; the first cell of the hosts where there is none.
fn place_at(list: &[Entry], number: usize) -> Place
    ensures { result ≡ place_at (map entry_seen list.now) number }
{
    match entry_at(list, number) {
        Some(entry) => entry.place,
        None => Place {
            table: TableName::Hosts,
            row: 0,
            column: 0,
        },
    }
}

/// The fault of two entries whose words are the same.
fn meets_at(list: &[Entry], pair: Pair) -> Fault
    ensures { result ≡ meets_at (map entry_seen list.now) (pair_seen pair) }
{
    let first = place_at(list, pair.first);
    let second = place_at(list, pair.second);
    Fault {
        place: second,
        kind: FaultKind::Meets(first),
    }
}

/// The first entry whose word an earlier one has.
fn meets_fault(alloc: Global, list: &[Entry]) -> Result<Option<Fault>, AllocError>
    ensures { IfOk result (λ fault. fault ≡ meets_fault (map entry_seen list.now)) }
{
    let words = words_of(alloc, list)?;
    match meeting(alloc, &words)? {
        Some(pair) => Ok(Some(meets_at(list, pair))),
        None => Ok(None),
    }
}

/// The words of texts.
fn words_in(alloc: Global, texts: &Names) -> Result<Vec<Vec<u8>>, AllocError>
    ensures { IfOk result (λ words. map (λ w. w.items) words.items ≡ map word_of texts.now) }
{
    let mut words = Vec::new(alloc);
    for number in 0..texts.len() {
        let text = texts.get(number);
        let word = word_of(alloc, text)?;
        words.push(word)?;
    }
    Ok(words)
}

/// The fault of a label of which two values would become the same word.
fn values_meet(
    alloc: Global,
    rows: &[Row<'_>],
    cell: &Cell<'_>,
) -> Result<Option<Fault>, AllocError>
    ensures { IfOk result (λ fault. fault
        ≡ values_meet (map row_seen rows.now) (cell_seen cell.now)) }
{
    let values = values_at(alloc, rows, cell.column)?;
    let words = words_in(alloc, &values)?;
    match meeting(alloc, &words)? {
        Some(_) => Ok(Some(fault_at(TableName::Hosts, 0, cell.column, FaultKind::ValuesMeet))),
        None => Ok(None),
    }
}

/// The same of any column of the hosts.
fn values_meet_by(
    alloc: Global,
    kind: HostColumn,
    rows: &[Row<'_>],
    cell: &Cell<'_>,
) -> Result<Option<Fault>, AllocError>
    ensures { IfOk result (λ fault. fault
        ≡ values_meet_by kind (map row_seen rows.now) (cell_seen cell.now)) }
{
    match kind {
        HostColumn::Label => values_meet(alloc, rows, cell),
        HostColumn::Name | HostColumn::Amount | HostColumn::Nothing => Ok(None),
    }
}

/// The first label of which two values would become the same word.
fn values_fault(
    alloc: Global,
    kinds: &[HostColumn],
    rows: &[Row<'_>],
    columns: &[Cell<'_>],
) -> Result<Option<Fault>, AllocError>
    ensures { IfOk result (λ fault. fault
        ≡ values_fault kinds.now (map row_seen rows.now) (map cell_seen columns.now)) }
{
    for cell in columns {
        let kind = host_kind_at(kinds, cell.column);
        if let Some(fault) = values_meet_by(alloc, kind, rows, cell)? {
            return Ok(Some(fault));
        }
    }
    Ok(None)
}

/// The first name or value that would become the same word as an earlier one.
pub(crate) fn names_fault(
    alloc: Global,
    kinds: &[HostColumn],
    hosts: &[Row<'_>],
    services: &[Row<'_>],
) -> Result<Option<Fault>, AllocError>
    ensures { IfOk result (λ fault. fault
        ≡ names_fault kinds.now (map row_seen hosts.now) (map row_seen services.now)) }
{
    let list = entries(alloc, kinds, hosts, services)?;
    match meets_fault(alloc, &list)? {
        Some(fault) => Ok(Some(fault)),
        None => values_fault(alloc, kinds, behind(hosts), header(hosts)),
    }
}
