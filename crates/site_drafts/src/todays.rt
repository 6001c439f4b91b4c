//! What is made of today: a model that keeps it, and a former text.
ghost use Rattle.std.specs.Prelude.{◌≡◌, None, IfOk, IfErr, OnOk, map, option_map};
ghost use Rattle.csv.specs.Records.{fields_of};
ghost use Rattle.site_model.specs.Goals.{kept_seen};
ghost use Rattle.site_tables.specs.Grid.{grid};
ghost use Rattle.site_tables.specs.Views.{row_seen};
ghost use Rattle.site_today.specs.Faults.{today_fault};
ghost use Rattle.site_drafts.specs.Drafts.{IsKept, IsFormer, IsNoToday, kept};
ghost use Rattle.site_drafts.specs.Paired.{host_at, kept_from, IsKeptBy, IsFormerBy, IsUnsound};

use crate::models::model;
use crate::refusal::Refusal;
use crate::rows::records;
use csv::ByteRecord;
use site_former::former_text;
use site_model::{Goal, Kept};
use site_tables::{Row, TableName, behind, grid_of};
use site_today::{hosts_today, today_fault};
use std::alloc::{AllocError, Global};

/// The host at a place of a list, if one stands there.
fn host_at<'a>(hosts: &[Option<&'a [u8]>], place: usize) -> Option<&'a [u8]>
    ensures { option_map (λ h. h.now) result
        ≡ host_at (map (option_map (λ h. h.now)) hosts.now) place }
{
    match hosts.get(place) {
        Some(host) => *host,
        None => None,
    }
}

/// Services, each with the host at its place.
fn paired<'a>(
    alloc: Global,
    services: &[Row<'a>],
    hosts: &[Option<&'a [u8]>],
) -> Result<Vec<Kept<'a>>, AllocError>
    ensures { IfOk result (λ list. map kept_seen list.items ≡ kept_from 0
        (map row_seen services.now) (map (option_map (λ h. h.now)) hosts.now)) }
{
    let mut list = Vec::new(alloc);
    for (place, row) in services.iter().enumerate() {
        let name = row.name();
        let host = host_at(hosts, place);
        list.push(Kept { name, host })?;
    }
    Ok(list)
}

/// Each service, and its host today.
fn kept<'a>(
    alloc: Global,
    services: &[Row<'a>],
    today: &[Row<'a>],
) -> Result<Vec<Kept<'a>>, AllocError>
    ensures { IfOk result (λ list. map kept_seen list.items
        ≡ kept (map row_seen services.now) (map row_seen today.now)) }
{
    let hosts = hosts_today(alloc, services, today)?;
    let list = paired(alloc, behind(services), &hosts)?;
    Ok(list)
}

/// Finds out whether something is wrong with a table of today.
fn check(
    alloc: Global,
    hosts: &[Row<'_>],
    services: &[Row<'_>],
    today: &[Row<'_>],
) -> Result<(), Refusal>
    ensures sound { OnOk result (today_fault (map row_seen hosts.now) (map row_seen services.now)
        (map row_seen today.now) ≡ None) }
    ensures refused { IfErr result (IsUnsound (map row_seen hosts.now) (map row_seen services.now)
        (map row_seen today.now)) }
{
    match today_fault(alloc, hosts, services, today)? {
        Some(fault) => Err(Refusal::Faulty(fault)),
        None => Ok(()),
    }
}

/// The model that keeps these rows of today.
#[tactic(auto, using(crate::proofs::DraftLaws::lack_unsound))]
fn keep_rows(
    alloc: Global,
    hosts: &[Row<'_>],
    services: &[Row<'_>],
    today: &[Row<'_>],
    beside: &[u8],
) -> Result<Vec<u8>, Refusal>
    ensures kept { IfOk result (λ text. IsKeptBy (map row_seen hosts.now)
        (map row_seen services.now) (map row_seen today.now) beside.now text.items) }
    ensures refused { IfErr result (IsUnsound (map row_seen hosts.now) (map row_seen services.now)
        (map row_seen today.now)) }
{
    check(alloc, hosts, services, today)?;
    let list = kept(alloc, services, today)?;
    match model(alloc, hosts, services, Goal::Keep(&list), beside) {
        Ok(text) => Ok(text),
        Err(refusal) => Err(refusal),
    }
}

/// The former text of these rows of today.
#[tactic(auto, using(crate::proofs::DraftLaws::is_former_by))]
fn former_rows(
    alloc: Global,
    hosts: &[Row<'_>],
    services: &[Row<'_>],
    today: &[Row<'_>],
) -> Result<Vec<u8>, Refusal>
    ensures former { IfOk result (λ text. IsFormerBy (map row_seen hosts.now)
        (map row_seen services.now) (map row_seen today.now) text.items) }
    ensures refused { IfErr result (IsUnsound (map row_seen hosts.now) (map row_seen services.now)
        (map row_seen today.now)) }
{
    check(alloc, hosts, services, today)?;
    let text = former_text(alloc, today)?;
    Ok(text)
}

/// The same of records.
fn keep_records(
    alloc: Global,
    hosts: &[Row<'_>],
    services: &[Row<'_>],
    today: &[ByteRecord],
    beside: &[u8],
) -> Result<Vec<u8>, Refusal>
    ensures kept { IfOk result (λ text. IsKeptBy (map row_seen hosts.now)
        (map row_seen services.now) (grid 0 (map fields_of today.now)) beside.now text.items) }
    ensures refused { IfErr result (IsUnsound (map row_seen hosts.now) (map row_seen services.now)
        (grid 0 (map fields_of today.now))) }
{
    let rows = grid_of(alloc, today)?;
    match keep_rows(alloc, hosts, services, &rows, beside) {
        Ok(text) => Ok(text),
        Err(refusal) => Err(refusal),
    }
}

/// The same of records.
fn former_records(
    alloc: Global,
    hosts: &[Row<'_>],
    services: &[Row<'_>],
    today: &[ByteRecord],
) -> Result<Vec<u8>, Refusal>
    ensures former { IfOk result (λ text. IsFormerBy (map row_seen hosts.now)
        (map row_seen services.now) (grid 0 (map fields_of today.now)) text.items) }
    ensures refused { IfErr result (IsUnsound (map row_seen hosts.now) (map row_seen services.now)
        (grid 0 (map fields_of today.now))) }
{
    let rows = grid_of(alloc, today)?;
    match former_rows(alloc, hosts, services, &rows) {
        Ok(text) => Ok(text),
        Err(refusal) => Err(refusal),
    }
}

/// The model that keeps the table of today.
#[tactic(auto, using(crate::proofs::DraftLaws::text_no_today))]
pub(crate) fn keep(
    alloc: Global,
    hosts: &[Row<'_>],
    services: &[Row<'_>],
    state: &[u8],
    beside: &[u8],
) -> Result<Vec<u8>, Refusal>
    ensures kept { IfOk result (λ text. IsKept (map row_seen hosts.now) (map row_seen services.now)
        state.now beside.now text.items) }
    ensures refused { IfErr result (IsNoToday (map row_seen hosts.now) (map row_seen services.now)
        state.now) }
{
    let today = match records(alloc, state, TableName::Today) {
        Ok(records) => records,
        Err(refusal) => return Err(refusal),
    };
    match keep_records(alloc, hosts, services, &today, beside) {
        Ok(text) => Ok(text),
        Err(refusal) => Err(refusal),
    }
}

/// The former text of the table of today.
#[tactic(auto, using(crate::proofs::DraftLaws::text_no_today))]
pub(crate) fn former(
    alloc: Global,
    hosts: &[Row<'_>],
    services: &[Row<'_>],
    state: &[u8],
) -> Result<Vec<u8>, Refusal>
    ensures former { IfOk result (λ text. IsFormer (map row_seen hosts.now)
        (map row_seen services.now) state.now text.items) }
    ensures refused { IfErr result (IsNoToday (map row_seen hosts.now) (map row_seen services.now)
        state.now) }
{
    let today = match records(alloc, state, TableName::Today) {
        Ok(records) => records,
        Err(refusal) => return Err(refusal),
    };
    match former_records(alloc, hosts, services, &today) {
        Ok(text) => Ok(text),
        Err(refusal) => Err(refusal),
    }
}
