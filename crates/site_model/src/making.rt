//! The model of two tables.
ghost use Rattle.std.specs.Prelude.{◌≡◌, ◌++◌, IfOk, OnOk, map};
ghost use Rattle.site_model.specs.Model.{machines_text, services_text, facts_text, model_text};
ghost use Rattle.site_model.specs.Goals.{aim_of};
ghost use Rattle.site_tables.specs.Views.{row_seen};

use crate::classes::{push_enumerations, push_host_class, push_service_class};
use crate::facts::{Columns, push_hosts, push_services};
use crate::goals::{Goal, push_goal};
use crate::relations::push_columns;
use site_tables::{HostColumn, Row, ServiceColumn, behind, header, host_columns, service_columns};
use std::alloc::{AllocError, Global};

/// Writes the enumerations, and the class of hosts.
fn push_machines(
    alloc: Global,
    text: &mut Vec<u8>,
    kinds: &[HostColumn],
    hosts: &[Row<'_>],
) -> Result<(), AllocError>
    ensures { OnOk result (text.new.items
        ≡ text.old.items ++ machines_text kinds.now (map row_seen hosts.now)) }
{
    push_enumerations(alloc, text, kinds, header(hosts), behind(hosts))?;
    push_host_class(alloc, text, kinds, header(hosts), behind(hosts))?;
    Ok(())
}

/// Writes the class of services.
fn push_services_class(
    alloc: Global,
    text: &mut Vec<u8>,
    kinds: &[ServiceColumn],
    services: &[Row<'_>],
    goal: Goal<'_>,
) -> Result<(), AllocError>
    ensures { OnOk result (text.new.items ≡ text.old.items
        ++ services_text kinds.now (map row_seen services.now) (aim_of goal.entry)) }
{
    push_service_class(alloc, text, kinds, header(services), behind(services), goal)?;
    Ok(())
}

/// Writes the lines of hosts and services.
#[tactic(auto, unfolding(crate::specs::Model::facts_text))]
fn push_facts(
    alloc: Global,
    text: &mut Vec<u8>,
    kinds: &[HostColumn],
    service_kinds: &[ServiceColumn],
    hosts: &[Row<'_>],
    services: &[Row<'_>],
) -> Result<(), AllocError>
    ensures { OnOk result (text.new.items ≡ text.old.items
        ++ facts_text kinds.now service_kinds.now (map row_seen hosts.now)
        (map row_seen services.now)) }
{
    let columns = Columns {
        kinds: service_kinds,
        hosts: header(hosts),
        services: header(services),
    };
    push_hosts(alloc, text, kinds, columns.hosts, behind(hosts))?;
    push_services(alloc, text, &columns, behind(services))?;
    push_columns(alloc, text, &columns, behind(services))
}

/// The text of the model of two tables.
pub fn model_text(
    alloc: Global,
    hosts: &[Row<'_>],
    services: &[Row<'_>],
    goal: Goal<'_>,
) -> Result<Vec<u8>, AllocError>
    ensures { IfOk result (λ text. text.items
        ≡ model_text (map row_seen hosts.now) (map row_seen services.now) (aim_of goal.entry)) }
{
    let kinds = host_columns(alloc, header(hosts), header(services))?;
    let service_kinds = service_columns(alloc, header(hosts), header(services))?;
    let mut text = Vec::new(alloc);
    push_machines(alloc, &mut text, &kinds, hosts)?;
    push_services_class(alloc, &mut text, &service_kinds, services, goal)?;
    push_facts(alloc, &mut text, &kinds, &service_kinds, hosts, services)?;
    push_goal(alloc, &mut text, &service_kinds, hosts, goal)?;
    Ok(text)
}
