//! The rows of the texts of tables.
ghost use Rattle.std.specs.Prelude.{IfOk, IfErr, map};
ghost use Rattle.csv.specs.Records.{fields_of};
ghost use Rattle.site_tables.specs.Grid.{grid};
ghost use Rattle.site_drafts.specs.Tables.{HasRows, IsNoText};

use crate::refusal::Refusal;
use csv::ByteRecord;
use site_tables::{ReadError, TableName, records_of};
use std::alloc::Global;

/// The records of a table, which give its rows.
#[tactic(auto, using(crate::proofs::RowLaws::has_rows))]
pub(crate) fn records(
    alloc: Global,
    text: &[u8],
    table: TableName,
) -> Result<Vec<ByteRecord>, Refusal>
    ensures rows { IfOk result (λ v. HasRows text.now (grid 0 (map fields_of v.items))) }
    ensures refused { IfErr result (IsNoText table text.now) }
{
    match records_of(alloc, text) {
        Ok(records) => Ok(records),
        Err(ReadError::NotText) => Err(Refusal::NotText(table)),
        Err(ReadError::Memory) => Err(Refusal::Memory),
    }
}
