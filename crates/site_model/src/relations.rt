//! The lines of two services with the same word in a column.
ghost use Rattle.std.specs.Prelude.{◌≡◌, ◌++◌, IfOk, OnOk, map};
ghost use Rattle.std.specs.List.{flat_map};
ghost use Rattle.site_model.specs.Pairs.{relation_seen, worded_seen, worded_in, pair_line, pair_of, pairs, plain, label_path, apart_by, column_pairs, column_pairs_of};
ghost use Rattle.site_tables.specs.Views.{cell_seen, row_seen};

use crate::facts::Columns;
use crate::lines::push_all;
use site_names::word_of;
use site_tables::{Row, ServiceColumn, service_kind_at, text_in};
use std::alloc::{AllocError, Global};

/// What is compared of the hosts of two services, and how.
#[derive(Clone, Copy)]
struct Relation<'r> {
    path: &'r [u8],
    sign: &'r [u8],
}

/// A service's word in a column, and its name.
#[derive(Clone, Copy)]
struct Worded<'r> {
    word: &'r [u8],
    name: &'r [u8],
}

/// The words of rows in a column, of those that have one.
fn worded_in<'r>(
    alloc: Global,
    rows: &[Row<'r>],
    column: usize,
) -> Result<Vec<Worded<'r>>, AllocError>
    ensures { IfOk result (λ list. map worded_seen list.items
        ≡ worded_in column (map row_seen rows.now)) }
{
    let mut list = Vec::new(alloc);
    for row in rows {
        let word = row.text_at(column);
        if !word.is_empty() {
            let name = row.name();
            list.push(Worded { word, name })?;
        }
    }
    Ok(list)
}

/// Writes the line of two services.
fn push_line<'p>(
    alloc: Global,
    text: &mut Vec<u8>,
    how: &Relation<'p>,
    first: &'p [u8],
    second: &'p [u8],
) -> Result<(), AllocError>
    ensures { OnOk result (text.new.items
        ≡ text.old.items ++ pair_line (relation_seen how.now) first.now second.now) }
{
    let first_word = word_of(alloc, first)?;
    let second_word = word_of(alloc, second)?;
    push_all(
        text,
        &[
            b"where ".as_slice(),
            first_word.as_slice(),
            b".host".as_slice(),
            how.path,
            how.sign,
            second_word.as_slice(),
            b".host".as_slice(),
            how.path,
            b";  // ".as_slice(),
            first,
            b" and ".as_slice(),
            second,
            b"\n".as_slice(),
        ],
    )
}

/// Writes the line of two services, where both have the same word.
fn push_pair<'p>(
    alloc: Global,
    text: &mut Vec<u8>,
    how: &Relation<'p>,
    first: &Worded<'p>,
    second: &Worded<'p>,
) -> Result<(), AllocError>
    ensures { OnOk result (text.new.items ≡ text.old.items
        ++ pair_of (relation_seen how.now) (worded_seen first.now) (worded_seen second.now)) }
{
    if first.word == second.word {
        push_line(alloc, text, how, first.name, second.name)
    } else {
        Ok(())
    }
}

/// Writes the lines of a service with later ones.
fn push_pairs_of<'p>(
    alloc: Global,
    text: &mut Vec<u8>,
    how: &Relation<'p>,
    first: &Worded<'p>,
    more: &[Worded<'p>],
) -> Result<(), AllocError>
    ensures { OnOk result (text.new.items ≡ text.old.items
        ++ flat_map (pair_of (relation_seen how.now) (worded_seen first.now))
        (map worded_seen more.now)) }
{
    for second in more {
        push_pair(alloc, text, how, first, second)?;
    }
    Ok(())
}

/// Writes the lines of all pairs.
fn push_pairs<'p>(
    alloc: Global,
    text: &mut Vec<u8>,
    how: &Relation<'p>,
    list: &[Worded<'p>],
) -> Result<(), AllocError>
    ensures { OnOk result (text.new.items ≡ text.old.items
        ++ pairs (relation_seen how.now) (map worded_seen list.now)) }
{
    let mut left = list;
    while let [first, more @ ..] = left {
        push_pairs_of(alloc, text, how, first, more)?;
        left = more;
    }
    Ok(())
}

/// The part of a path that names a label.
fn label_path(alloc: Global, column: &[u8]) -> Result<Vec<u8>, AllocError>
    ensures { IfOk result (λ path. path.items ≡ label_path column.now) }
{
    let mut path = Vec::new(alloc);
    path.push(b'.')?;
    let word = word_of(alloc, column)?;
    path.extend_from_slice(&word)?;
    Ok(path)
}

/// Writes that services with the same word are on hosts that differ in a label.
fn push_apart_by(
    alloc: Global,
    text: &mut Vec<u8>,
    label: &[u8],
    column: usize,
    rows: &[Row<'_>],
) -> Result<(), AllocError>
    ensures { OnOk result (text.new.items ≡ text.old.items
        ++ pairs (apart_by label.now) (worded_in column (map row_seen rows.now))) }
{
    let path = label_path(alloc, label)?;
    let list = worded_in(alloc, rows, column)?;
    let how = Relation {
        path: path.as_slice(),
        sign: b" != ",
    };
    push_pairs(alloc, text, &how, &list)
}

/// Writes how the hosts of services with the same word are to each other.
fn push_plain(
    alloc: Global,
    text: &mut Vec<u8>,
    sign: &[u8],
    column: usize,
    rows: &[Row<'_>],
) -> Result<(), AllocError>
    ensures { OnOk result (text.new.items ≡ text.old.items
        ++ pairs (plain sign.now) (worded_in column (map row_seen rows.now))) }
{
    let list = worded_in(alloc, rows, column)?;
    let how = Relation { path: b"", sign };
    push_pairs(alloc, text, &how, &list)
}

/// Writes the lines of a column of the services.
fn push_column(
    alloc: Global,
    text: &mut Vec<u8>,
    columns: &Columns<'_>,
    rows: &[Row<'_>],
    column: usize,
) -> Result<(), AllocError>
    ensures { OnOk result (text.new.items ≡ text.old.items
        ++ column_pairs columns.now.kinds.now (map cell_seen columns.now.hosts.now)
        (map row_seen rows.now) column) }
{
    match service_kind_at(columns.kinds, column) {
        ServiceColumn::Apart => push_plain(alloc, text, b" != ", column, rows),
        ServiceColumn::ApartBy(label) => {
            push_apart_by(alloc, text, text_in(columns.hosts, label), column, rows)
        }
        ServiceColumn::With => push_plain(alloc, text, b" = ", column, rows),
        ServiceColumn::Name
        | ServiceColumn::Amount(_)
        | ServiceColumn::Within(_)
        | ServiceColumn::Without(_)
        | ServiceColumn::Pin
        | ServiceColumn::Moves
        | ServiceColumn::Nothing => Ok(()),
    }
}

/// Writes the lines of all columns of the services.
pub(crate) fn push_columns(
    alloc: Global,
    text: &mut Vec<u8>,
    columns: &Columns<'_>,
    rows: &[Row<'_>],
) -> Result<(), AllocError>
    ensures { OnOk result (text.new.items ≡ text.old.items
        ++ flat_map (column_pairs_of columns.now.kinds.now (map cell_seen columns.now.hosts.now)
        (map row_seen rows.now)) (map cell_seen columns.now.services.now)) }
{
    for cell in columns.services {
        push_column(alloc, text, columns, rows, cell.column)?;
    }
    Ok(())
}
