//! A former text, from where each service stands today.
ghost use Rattle.std.specs.Prelude.{◌≡◌, ℕ, List, None, Some, map, option_map, IfOk, OnOk};
ghost use Rattle.serde_json.specs.Data.{put, no_members};
ghost use Rattle.serde_json.specs.Find.{get};
ghost use Rattle.serde_json.specs.Read.{read};
ghost use Rattle.serde_json.specs.View.{view, members_view};
ghost use Rattle.site_names.specs.Words.{word_of};
ghost use Rattle.site_tables.specs.Views.{row_seen};
ghost use Rattle.site_texts.specs.Pairs.{last_under};
ghost use Rattle.site_today.specs.Standing.{standing, standings};
ghost use Rattle.site_former.specs.Former.{host_data, with_hosts, former_data, former_line, former_text, worded};

use serde_json::{Map, Value};
use site_tables::{Row, behind, header};
use site_texts::word_text;
use site_today::{TodayColumns, today_columns};
use std::alloc::{AllocError, Global};

/// What stands of a service: its host.
fn host_value(alloc: Global, host: &[u8]) -> Result<Value, AllocError>
    ensures { IfOk result (λ value. view value ≡ host_data host.now) }
{
    let word = word_text(alloc, host)?;
    let mut members = Map::new(alloc);
    serde_json::put(&mut members, alloc, "host", Value::String(word))?;
    Ok(Value::Object(members))
}

/// Puts the host of a service under its word.
fn put_service(
    alloc: Global,
    members: &mut Map<String, Value>,
    service: &[u8],
    host: &[u8],
) -> Result<(), AllocError>
    ensures { OnOk result (members_view members.new.entries
        ≡ put (word_of service.now) (host_data host.now) (members_view members.old.entries)) }
{
    let word = word_text(alloc, service)?;
    let value = host_value(alloc, host)?;
    serde_json::put(members, alloc, &word, value)?;
    Ok(())
}

/// The hosts of the services that have a row.
fn hosts_of(
    alloc: Global,
    columns: TodayColumns,
    rows: &[Row<'_>],
) -> Result<Map<String, Value>, AllocError>
    ensures { IfOk result (λ members. members_view members.entries
        ≡ with_hosts (map (standing columns) (map row_seen rows.now)) no_members) }
{
    let mut members = Map::new(alloc);
    for row in rows {
        let service = row.text_at(columns.service);
        let host = row.text_at(columns.host);
        put_service(alloc, &mut members, service, host)?;
    }
    Ok(members)
}

/// The hosts of all services that have a row, as a value.
fn former_value(alloc: Global, today: &[Row<'_>]) -> Result<Value, AllocError>
    ensures { IfOk result (λ value. view value ≡ former_data (map row_seen today.now)) }
{
    let columns = today_columns(header(today));
    let members = hosts_of(alloc, columns, behind(today))?;
    Ok(Value::Object(members))
}

/// The former text of a site: an object on a line, with a key for the word of each service that has
/// a row of today, in byte order, and under it the word of its host. It is read as what it says;
/// under the word of a service stands the host of its row, and under any other key nothing.
pub fn former_text(alloc: Global, today: &[Row<'_>]) -> Result<Vec<u8>, AllocError>
    ensures text { IfOk result (λ text. text.items ≡ former_text (map row_seen today.now)) }
    ensures read { OnOk result (read (former_line (map row_seen today.now))
        ≡ Some (former_data (map row_seen today.now))) }
    ensures each { OnOk result ((key : List ℕ) → get key (former_data (map row_seen today.now))
        ≡ option_map host_data (last_under key None
        (map worded (standings (map row_seen today.now))))) }
{
    let value = former_value(alloc, today)?;
    let line = value.to_vec(alloc)?;
    let mut text = line;
    text.push(b'\n')?;
    Ok(text)
}
