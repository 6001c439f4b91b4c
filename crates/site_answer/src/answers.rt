//! Which host an answer has for a service.
ghost use Rattle.std.specs.Prelude.{◌≡◌, IfOk, map, option_map};
ghost use Rattle.serde_json.specs.View.{view};
ghost use Rattle.site_tables.specs.Views.{row_seen};
ghost use Rattle.site_answer.specs.Names.{names_in};
ghost use Rattle.site_answer.specs.Rows.{host_word, answered, host_of, host_cell, unplaced, is_other, former_name, was_by, was_cell};

use serde_json::Value;
use site_tables::{Place, Row, TableName};
use site_texts::{Texts, word_text};
use std::alloc::{AllocError, Global};

/// The word of the host in what an answer has of a service.
fn host_word(value: &Value) -> Option<&str>
    ensures { option_map (λ w. w.now) result ≡ host_word (view value.now) }
{
    match value.get("host") {
        Some(host) => host.as_str(),
        None => None,
    }
}

/// The word of the host that an answer has for a service.
fn answered<'v>(
    alloc: Global,
    answer: &'v Value,
    service: &[u8],
) -> Result<Option<&'v str>, AllocError>
    ensures { IfOk result (λ word. option_map (λ w. w.now) word
        ≡ answered (view answer.now) service.now) }
{
    let word = word_text(alloc, service)?;
    match answer.get(&word) {
        Some(value) => Ok(host_word(value)),
        None => Ok(None),
    }
}

/// The host of the table that an answer has for a service.
fn host_of<'a>(
    alloc: Global,
    names: &Texts<'a>,
    answer: &Value,
    service: &[u8],
) -> Result<Option<&'a [u8]>, AllocError>
    ensures { IfOk result (λ host. option_map (λ h. h.now) host
        ≡ host_of (names_in names.now) (view answer.now) service.now) }
{
    match answered(alloc, answer, service)? {
        Some(word) => names.get(alloc, word.as_bytes()),
        None => Ok(None),
    }
}

/// The first of these services for which an answer has no host of the table.
pub(crate) fn unplaced(
    alloc: Global,
    names: &Texts<'_>,
    answer: &Value,
    services: &[Row<'_>],
) -> Result<Option<Place>, AllocError>
    ensures { IfOk result (λ place. place
        ≡ unplaced (names_in names.now) (view answer.now) (map row_seen services.now)) }
{
    for row in services {
        let host = host_of(alloc, names, answer, row.name())?;
        if host.is_none() {
            let (table, row, column) = (TableName::Services, row.number, 0);
            return Ok(Some(Place { table, row, column }));
        }
    }
    Ok(None)
}

/// The host of a service; nothing where an answer has none of the table for it.
pub(crate) fn host_cell<'a>(
    alloc: Global,
    names: &Texts<'a>,
    answer: &Value,
    service: &[u8],
) -> Result<&'a [u8], AllocError>
    ensures { IfOk result (λ cell. cell.now
        ≡ host_cell (names_in names.now) (view answer.now) service.now) }
{
    match host_of(alloc, names, answer, service)? {
        Some(host) => Ok(host),
        None => Ok(b""),
    }
}

/// Whether a word isn't this one.
fn is_other(word: &str, now: Option<&str>) -> bool
    ensures { result ≡ is_other word.now (option_map (λ w. w.now) now.entry) }
{
    match now {
        Some(same) => word != same,
        None => true,
    }
}

/// The name of a former host; its word where the table lacks it.
fn former_name(alloc: Global, names: &Texts<'_>, word: &str) -> Result<Vec<u8>, AllocError>
    ensures { IfOk result (λ name. name.items ≡ former_name (names_in names.now) word.now) }
{
    match names.get(alloc, word.as_bytes())? {
        Some(name) => name.to_vec(alloc),
        None => word.as_bytes().to_vec(alloc),
    }
}

/// The former host of a service, by the words before and now.
fn was_by(
    alloc: Global,
    names: &Texts<'_>,
    was: Option<&str>,
    now: Option<&str>,
) -> Result<Vec<u8>, AllocError>
    ensures { IfOk result (λ cell. cell.items ≡ was_by (names_in names.now)
        (option_map (λ w. w.now) was.entry) (option_map (λ w. w.now) now.entry)) }
{
    match was {
        Some(word) if is_other(word, now) => former_name(alloc, names, word),
        _ => Ok(Vec::new(alloc)),
    }
}

/// The former host of a service, where it is another one now; else nothing.
pub(crate) fn was_cell(
    alloc: Global,
    names: &Texts<'_>,
    answer: &Value,
    former: &Value,
    service: &[u8],
) -> Result<Vec<u8>, AllocError>
    ensures { IfOk result (λ cell. cell.items ≡ was_cell (names_in names.now) (view answer.now)
        (view former.now) service.now) }
{
    let was = answered(alloc, former, service)?;
    let now = answered(alloc, answer, service)?;
    let cell = was_by(alloc, names, was, now)?;
    Ok(cell)
}
