//! What each task makes of two tables that are those of a site.
ghost use Rattle.std.specs.Prelude.{IfOk, IfErr, OnOk, map};
ghost use Rattle.site_tables.specs.Views.{row_seen};
ghost use Rattle.site_drafts.specs.Drafts.{IsDraft, IsUndrafted, IsMeasured, IsUnmeasured};
ghost use Rattle.site_words.specs.Words.{job_of};

use crate::measuring::measured;
use crate::models::{model, spread};
use crate::refusal::Refusal;
use crate::tables::{changes, table};
use crate::todays::{former, keep};
use site_model::Goal;
use site_tables::Row;
use site_words::Task;
use std::alloc::Global;

/// What a task makes, before a model is measured.
pub(crate) fn draft(
    alloc: Global,
    task: Task<'_>,
    hosts: &[Row<'_>],
    services: &[Row<'_>],
    state: &[u8],
    beside: &[u8],
) -> Result<Vec<u8>, Refusal>
    ensures draft { IfOk result (λ text. IsDraft (job_of task.entry) (map row_seen hosts.now)
        (map row_seen services.now) state.now beside.now text.items) }
    ensures refused { IfErr result (IsUndrafted (job_of task.entry) (map row_seen hosts.now)
        (map row_seen services.now) state.now beside.now) }
{
    match task {
        Task::Plain => model(alloc, hosts, services, Goal::Nothing, beside),
        Task::Fewest => model(alloc, hosts, services, Goal::Fewest, beside),
        Task::Spread(resource) => spread(alloc, hosts, services, resource, beside),
        Task::Keep => keep(alloc, hosts, services, state, beside),
        Task::Former => former(alloc, hosts, services, state),
        Task::Table => table(alloc, hosts, services, state),
        Task::Changes => changes(alloc, hosts, services, state, beside),
    }
}

/// Measures what a task made, where that is a model.
pub(crate) fn measure_draft(alloc: Global, task: Task<'_>, text: &[u8]) -> Result<(), Refusal>
    ensures measured { OnOk result (IsMeasured (job_of task.entry) text.now) }
    ensures refused { IfErr result (IsUnmeasured (job_of task.entry) text.now) }
{
    match task {
        Task::Plain => measured(alloc, text),
        Task::Fewest => measured(alloc, text),
        Task::Spread(_) => measured(alloc, text),
        Task::Keep => measured(alloc, text),
        Task::Former => Ok(()),
        Task::Table => Ok(()),
        Task::Changes => Ok(()),
    }
}
