//! The model of two tables, with constraints of one's own behind it.
ghost use Rattle.std.specs.Prelude.{◌≡◌, ◌++◌, IfOk, IfErr, is_some, map};
ghost use Rattle.site_model.specs.Goals.{aim_of};
ghost use Rattle.site_model.specs.Model.{model_text};
ghost use Rattle.site_tables.specs.Columns.{resource_of};
ghost use Rattle.site_tables.specs.Grid.{header as site_header};
ghost use Rattle.site_tables.specs.Views.{row_seen};
ghost use Rattle.site_drafts.specs.Drafts.{IsLack, IsSpread, IsNoSpread};

use crate::refusal::Refusal;
use site_model::{Goal, model_text};
use site_tables::{Row, header, resource_of};
use std::alloc::Global;

/// The model of two tables, and a text behind it.
pub(crate) fn model(
    alloc: Global,
    hosts: &[Row<'_>],
    services: &[Row<'_>],
    goal: Goal<'_>,
    beside: &[u8],
) -> Result<Vec<u8>, Refusal>
    ensures same { IfOk result (λ text. text.items ≡ model_text (map row_seen hosts.now)
        (map row_seen services.now) (aim_of goal.entry) ++ beside.now) }
    ensures refused { IfErr result IsLack }
{
    let mut text = model_text(alloc, hosts, services, goal)?;
    text.extend_from_slice(beside)?;
    Ok(text)
}

/// Whether a resource is one of both tables.
fn is_resource(hosts: &[Row<'_>], services: &[Row<'_>], resource: &[u8]) -> bool
    ensures { result ≡ is_some (resource_of (site_header (map row_seen hosts.now))
        (site_header (map row_seen services.now)) resource.now) }
{
    resource_of(header(hosts), header(services), resource).is_some()
}

/// The model with an even load of a resource, where that is one.
#[tactic(auto, using(crate::proofs::DraftLaws::is_spread, crate::proofs::DraftLaws::no_resource, crate::proofs::DraftLaws::lack_no_spread))]
pub(crate) fn spread(
    alloc: Global,
    hosts: &[Row<'_>],
    services: &[Row<'_>],
    resource: &[u8],
    beside: &[u8],
) -> Result<Vec<u8>, Refusal>
    ensures spread { IfOk result (λ text. IsSpread (map row_seen hosts.now)
        (map row_seen services.now) resource.now beside.now text.items) }
    ensures refused { IfErr result (IsNoSpread (map row_seen hosts.now)
        (map row_seen services.now) resource.now) }
{
    if !is_resource(hosts, services, resource) {
        return Err(Refusal::NoResource);
    }
    match model(alloc, hosts, services, Goal::Spread(resource), beside) {
        Ok(text) => Ok(text),
        Err(refusal) => Err(refusal),
    }
}
