//! Which texts the columns of the hosts have.
ghost use Rattle.std.specs.Prelude.{◌≡◌, IfOk, map};
ghost use Rattle.site_faults.specs.Known.{known_texts, is_known, are_known};
ghost use Rattle.site_tables.specs.Views.{cell_seen, row_seen};

use site_names::Names;
use site_tables::{Cell, Row, values_at};
use std::alloc::{AllocError, Global};

/// The texts of each column, each once.
pub(crate) fn known_texts(
    alloc: Global,
    rows: &[Row<'_>],
    columns: &[Cell<'_>],
) -> Result<Vec<Names>, AllocError>
    ensures { IfOk result (λ known. known.items
        ≡ known_texts (map row_seen rows.now) (map cell_seen columns.now)) }
{
    let mut known = Vec::new(alloc);
    for cell in columns {
        known.push(values_at(alloc, rows, cell.column)?)?;
    }
    Ok(known)
}

/// Whether a column has this text.
pub(crate) fn is_known(
    alloc: Global,
    known: &[Names],
    column: usize,
    text: &[u8],
) -> Result<bool, AllocError>
    ensures { IfOk result (λ yes. yes ≡ is_known known.now column text.now) }
{
    match known.get(column) {
        Some(texts) => Ok(texts.place_of(alloc, text)?.is_some()),
        None => Ok(false),
    }
}

/// Whether a column has all of these texts.
pub(crate) fn are_known(
    alloc: Global,
    known: &[Names],
    column: usize,
    texts: &[&[u8]],
) -> Result<bool, AllocError>
    ensures { IfOk result (λ yes. yes ≡ are_known known.now column (map (λ t. t.now) texts.now)) }
{
    for text in texts {
        let yes = is_known(alloc, known, column, text)?;
        if !yes {
            return Ok(false);
        }
    }
    Ok(true)
}
