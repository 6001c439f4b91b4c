//! An answer as a table.
ghost use Rattle.std.specs.Prelude.{◌≡◌, None, map, option_map, IfOk, IfErr, OnOk};
ghost use Rattle.serde_json.specs.View.{view};
ghost use Rattle.site_tables.specs.Views.{row_seen};
ghost use Rattle.site_answer.specs.Names.{names_in};
ghost use Rattle.site_answer.specs.Rows.{rows_text};
ghost use Rattle.site_answer.specs.Table.{unplaced_in, table_text, IsNoTable};

use crate::answers::unplaced;
use crate::hosts::host_names;
use crate::rows::table_rows;
use csv_rows::rows_text;
use serde_json::Value;
use site_tables::{Place, Row, behind};
use site_texts::Texts;
use std::alloc::{AllocError, Global};

/// Why there is no table.
#[derive(Clone, Copy, Debug, PartialEq, Eq)]
pub enum TableError {
    /// The answer has no host of the table for the service that stands here.
    Unplaced(Place),
    /// There was no memory.
    Memory,
}

impl From<AllocError> for TableError {
    ghost use Rattle.site_answer.specs.declared.table.TableError.TheVariants.{Memory};

    ghost from_gives = { λ _ e. e ≡ Memory };

    fn from(_: AllocError) -> Self {
        TableError::Memory
    }
}

/// The text of the rows.
fn text_of(
    alloc: Global,
    names: &Texts<'_>,
    answer: &Value,
    former: Option<&Value>,
    services: &[Row<'_>],
) -> Result<Vec<u8>, AllocError>
    ensures { IfOk result (λ text. text.items ≡ rows_text (names_in names.now) (view answer.now)
        (option_map (λ f. view f.now) former.entry) (map row_seen services.now)) }
{
    let rows = table_rows(alloc, names, answer, former, services)?;
    let text = rows_text(alloc, &rows)?;
    Ok(text)
}

/// An answer as CSV: a row for each service in the order of the table, with its host. With a former
/// configuration a third cell has the former host where it was another one.
///
/// # Errors
///
/// `Unplaced` with the first service for which the answer has no host of the table; `Memory` where
/// there is none left.
pub fn table_text(
    alloc: Global,
    hosts: &[Row<'_>],
    services: &[Row<'_>],
    answer: &Value,
    former: Option<&Value>,
) -> Result<Vec<u8>, TableError>
    ensures text { IfOk result (λ text. text.items ≡ table_text (map row_seen hosts.now)
        (map row_seen services.now) (view answer.now)
        (option_map (λ f. view f.now) former.entry)) }
    ensures placed { OnOk result (unplaced_in (map row_seen hosts.now) (map row_seen services.now)
        (view answer.now) ≡ None) }
    ensures refused { IfErr result (IsNoTable (map row_seen hosts.now) (map row_seen services.now)
        (view answer.now)) }
{
    let names = host_names(alloc, behind(hosts))?;
    if let Some(place) = unplaced(alloc, &names, answer, behind(services))? {
        return Err(TableError::Unplaced(place));
    }
    let text = text_of(alloc, &names, answer, former, behind(services))?;
    Ok(text)
}
