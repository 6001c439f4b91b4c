//! From the texts of files to what is printed.
ghost use Rattle.std.specs.Prelude.{IfOk, IfErr, map};
ghost use Rattle.csv.specs.Records.{fields_of};
ghost use Rattle.site_tables.specs.Grid.{grid};
ghost use Rattle.site_tables.specs.Views.{row_seen};
ghost use Rattle.site_drafts.specs.Answers.{given, texts_seen, IsMade, IsUnmade, IsSiteMade, IsSiteUnmade, IsAnswer, IsUnanswered};
ghost use Rattle.site_words.specs.Words.{job_of};

use crate::drafting::{draft, measure_draft};
use crate::refusal::Refusal;
use crate::rows::records;
use csv::ByteRecord;
use site_faults::site_fault;
use site_tables::{Row, TableName, grid_of};
use site_words::Task;
use std::alloc::Global;

/// The texts of all files; nothing of one that isn't asked for.
#[derive(Drop)]
pub struct Texts {
    pub hosts: Vec<u8>,
    pub services: Vec<u8>,
    pub state: Vec<u8>,
    pub beside: Vec<u8>,
}

/// What is printed of the rows of two tables that are those of a site.
#[tactic(auto, using(crate::proofs::AnswerLaws::is_made, crate::proofs::AnswerLaws::undrafted_unmade, crate::proofs::AnswerLaws::unmeasured_unmade))]
fn made_of_rows(
    alloc: Global,
    task: Task<'_>,
    hosts: &[Row<'_>],
    services: &[Row<'_>],
    state: &[u8],
    beside: &[u8],
) -> Result<Vec<u8>, Refusal>
    ensures made { IfOk result (λ text. IsMade (job_of task.entry) (map row_seen hosts.now)
        (map row_seen services.now) state.now beside.now text.items) }
    ensures refused { IfErr result (IsUnmade (job_of task.entry) (map row_seen hosts.now)
        (map row_seen services.now) state.now beside.now) }
{
    let text = draft(alloc, task, hosts, services, state, beside)?;
    match measure_draft(alloc, task, &text) {
        Ok(()) => Ok(text),
        Err(refusal) => Err(refusal),
    }
}

/// What is printed of the rows of two tables.
#[tactic(auto, using(crate::proofs::AnswerLaws::is_site_made, crate::proofs::AnswerLaws::lack_unmade, crate::proofs::AnswerLaws::faulty_unmade, crate::proofs::AnswerLaws::sound_unmade))]
fn made_of_tables(
    alloc: Global,
    task: Task<'_>,
    hosts: &[Row<'_>],
    services: &[Row<'_>],
    state: &[u8],
    beside: &[u8],
) -> Result<Vec<u8>, Refusal>
    ensures made { IfOk result (λ text. IsSiteMade (job_of task.entry) (map row_seen hosts.now)
        (map row_seen services.now) state.now beside.now text.items) }
    ensures refused { IfErr result (IsSiteUnmade (job_of task.entry) (map row_seen hosts.now)
        (map row_seen services.now) state.now beside.now) }
{
    match site_fault(alloc, hosts, services)? {
        Some(fault) => Err(Refusal::Faulty(fault)),
        None => match made_of_rows(alloc, task, hosts, services, state, beside) {
            Ok(text) => Ok(text),
            Err(refusal) => Err(refusal),
        },
    }
}

/// What is printed of the records of two tables.
#[tactic(auto, using(crate::proofs::AnswerLaws::lack_unmade))]
fn made_of_records(
    alloc: Global,
    task: Task<'_>,
    hosts: &[ByteRecord],
    services: &[ByteRecord],
    state: &[u8],
    beside: &[u8],
) -> Result<Vec<u8>, Refusal>
    ensures made { IfOk result (λ text. IsSiteMade (job_of task.entry)
        (grid 0 (map fields_of hosts.now)) (grid 0 (map fields_of services.now)) state.now
        beside.now text.items) }
    ensures refused { IfErr result (IsSiteUnmade (job_of task.entry)
        (grid 0 (map fields_of hosts.now)) (grid 0 (map fields_of services.now)) state.now
        beside.now) }
{
    let host_rows = grid_of(alloc, hosts)?;
    let service_rows = grid_of(alloc, services)?;
    match made_of_tables(alloc, task, &host_rows, &service_rows, state, beside) {
        Ok(text) => Ok(text),
        Err(refusal) => Err(refusal),
    }
}

/// What is printed of the texts of two tables and of the other files.
#[tactic(auto, using(crate::proofs::AnswerLaws::hosts_unanswered, crate::proofs::AnswerLaws::services_unanswered))]
fn made_of_texts(
    alloc: Global,
    task: Task<'_>,
    hosts: &[u8],
    services: &[u8],
    state: &[u8],
    beside: &[u8],
) -> Result<Vec<u8>, Refusal>
    ensures answer { IfOk result (λ text. IsAnswer (job_of task.entry)
        (given hosts.now services.now state.now beside.now) text.items) }
    ensures refused { IfErr result (IsUnanswered (job_of task.entry)
        (given hosts.now services.now state.now beside.now)) }
{
    let host_records = match records(alloc, hosts, TableName::Hosts) {
        Ok(records) => records,
        Err(refusal) => return Err(refusal),
    };
    let service_records = match records(alloc, services, TableName::Services) {
        Ok(records) => records,
        Err(refusal) => return Err(refusal),
    };
    match made_of_records(alloc, task, &host_records, &service_records, state, beside) {
        Ok(text) => Ok(text),
        Err(refusal) => Err(refusal),
    }
}

/// What is printed of the texts of all files.
pub fn made(alloc: Global, task: Task<'_>, texts: &Texts) -> Result<Vec<u8>, Refusal>
    ensures answer { IfOk result (λ text. IsAnswer (job_of task.entry) (texts_seen texts.now)
        text.items) }
    ensures refused { IfErr result (IsUnanswered (job_of task.entry) (texts_seen texts.now)) }
{
    match made_of_texts(
        alloc,
        task,
        &texts.hosts,
        &texts.services,
        &texts.state,
        &texts.beside,
    ) {
        Ok(text) => Ok(text),
        Err(refusal) => Err(refusal),
    }
}
