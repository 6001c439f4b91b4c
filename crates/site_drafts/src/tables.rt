//! An answer as a table.
ghost use Rattle.std.specs.Prelude.{◌≡◌, None, IfOk, IfErr, OnOk, map, option_map};
ghost use Rattle.serde_json.specs.View.{view};
ghost use Rattle.site_answer.specs.Table.{table_text, unplaced_in};
ghost use Rattle.site_tables.specs.Views.{row_seen};
ghost use Rattle.site_drafts.specs.Drafts.{IsTable, IsChanges, IsUnplaced, IsNoTable, IsNoChanges};
ghost use Rattle.site_drafts.specs.Tables.{IsJson, IsNoJson};

use crate::refusal::{FileName, Refusal};
use serde_json::Value;
use site_answer::{TableError, table_text};
use site_tables::Row;
use std::alloc::Global;
use view_leaves::{TextError, read_text};

/// The object that a text of JSON is.
#[tactic(auto, using(crate::proofs::DraftLaws::is_json))]
fn json(alloc: Global, text: &[u8], file: FileName) -> Result<Value, Refusal>
    ensures json { IfOk result (λ value. IsJson text.now (view value)) }
    ensures refused { IfErr result (IsNoJson file text.now) }
{
    match read_text(alloc, text) {
        Ok(value) => Ok(value),
        Err(TextError::NotJson) => Err(Refusal::NotJson(file)),
        Err(TextError::NotObject) => Err(Refusal::NotObject(file)),
        Err(TextError::Memory) => Err(Refusal::Memory),
    }
}

/// The table of an answer, beside a former configuration if there is one.
fn table_by(
    alloc: Global,
    hosts: &[Row<'_>],
    services: &[Row<'_>],
    answer: &Value,
    former: Option<&Value>,
) -> Result<Vec<u8>, Refusal>
    ensures same { IfOk result (λ text. text.items ≡ table_text (map row_seen hosts.now)
        (map row_seen services.now) (view answer.now)
        (option_map (λ f. view f.now) former.entry)) }
    ensures placed { OnOk result (unplaced_in (map row_seen hosts.now) (map row_seen services.now)
        (view answer.now) ≡ None) }
    ensures refused { IfErr result (IsUnplaced (map row_seen hosts.now) (map row_seen services.now)
        (view answer.now)) }
{
    match table_text(alloc, hosts, services, answer, former) {
        Ok(text) => Ok(text),
        Err(TableError::Unplaced(place)) => Err(Refusal::Unplaced(place)),
        Err(TableError::Memory) => Err(Refusal::Memory),
    }
}

/// The table of the text of an answer.
#[tactic(auto, using(crate::proofs::DraftLaws::is_table, crate::proofs::DraftLaws::answer_no_table, crate::proofs::DraftLaws::unplaced_no_table))]
fn table_with(
    alloc: Global,
    hosts: &[Row<'_>],
    services: &[Row<'_>],
    state: &[u8],
    former: Option<&Value>,
) -> Result<Vec<u8>, Refusal>
    ensures table { IfOk result (λ text. IsTable (map row_seen hosts.now)
        (map row_seen services.now) state.now (option_map (λ f. view f.now) former.entry)
        text.items) }
    ensures refused { IfErr result (IsNoTable (map row_seen hosts.now) (map row_seen services.now)
        state.now) }
{
    let answer = json(alloc, state, FileName::Answer)?;
    match table_by(alloc, hosts, services, &answer, former) {
        Ok(text) => Ok(text),
        Err(refusal) => Err(refusal),
    }
}

/// The table of the text of an answer.
pub(crate) fn table(
    alloc: Global,
    hosts: &[Row<'_>],
    services: &[Row<'_>],
    state: &[u8],
) -> Result<Vec<u8>, Refusal>
    ensures table { IfOk result (λ text. IsTable (map row_seen hosts.now)
        (map row_seen services.now) state.now None text.items) }
    ensures refused { IfErr result (IsNoTable (map row_seen hosts.now) (map row_seen services.now)
        state.now) }
{
    table_with(alloc, hosts, services, state, None)
}

/// The same, with what has changed since a former text.
#[tactic(auto, using(crate::proofs::DraftLaws::are_changes, crate::proofs::DraftLaws::former_no_changes, crate::proofs::DraftLaws::table_no_changes))]
pub(crate) fn changes(
    alloc: Global,
    hosts: &[Row<'_>],
    services: &[Row<'_>],
    state: &[u8],
    beside: &[u8],
) -> Result<Vec<u8>, Refusal>
    ensures changes { IfOk result (λ text. IsChanges (map row_seen hosts.now)
        (map row_seen services.now) state.now beside.now text.items) }
    ensures refused { IfErr result (IsNoChanges (map row_seen hosts.now)
        (map row_seen services.now) state.now beside.now) }
{
    let former = json(alloc, beside, FileName::Former)?;
    match table_with(alloc, hosts, services, state, Some(&former)) {
        Ok(text) => Ok(text),
        Err(refusal) => Err(refusal),
    }
}
