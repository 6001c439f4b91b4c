//! What stands in a column.
ghost use Rattle.std.specs.Prelude.{◌≡◌, [], IfOk, map};
ghost use Rattle.site_tables.specs.Values.{longest_at, values_at};
ghost use Rattle.site_tables.specs.Views.{row_seen};

use crate::grid::Row;
use site_names::Names;
use std::alloc::{AllocError, Global};

/// The texts that stand in a column, in order of their first rows, each once.
pub fn values_at(alloc: Global, rows: &[Row<'_>], column: usize) -> Result<Names, AllocError>
    ensures { IfOk result (λ values. values ≡ values_at column [] (map row_seen rows.now)) }
{
    let mut values = Names::new(alloc);
    for row in rows {
        values.insert(alloc, row.text_at(column))?;
    }
    Ok(values)
}

/// The length of the longest text that stands in a column, and at least 1.
pub fn longest_at(rows: &[Row<'_>], column: usize) -> usize
    ensures { result ≡ longest_at column 1 (map row_seen rows.now) }
{
    let mut longest = 1;
    for row in rows {
        longest = longest.max(row.text_at(column).len());
    }
    longest
}
