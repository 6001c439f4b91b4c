//! Where each service stands today.
ghost use Rattle.std.specs.Prelude.{◌≡◌, ℕ, List, None, IfOk, map, option_map};
ghost use Rattle.site_tables.specs.Views.{row_seen};
ghost use Rattle.site_texts.specs.Pairs.{last_under, under};
ghost use Rattle.site_today.specs.Standing.{standing, hosts_of, hosts_today};

use crate::header::{TodayColumns, today_columns};
use site_tables::{Row, behind, header};
use site_texts::Texts;
use std::alloc::{AllocError, Global};

/// The host of each service that has a row.
fn standings<'a>(
    alloc: Global,
    columns: TodayColumns,
    rows: &[Row<'a>],
) -> Result<Texts<'a>, AllocError>
    ensures { IfOk result (λ texts. (q : List ℕ) → under q texts
        ≡ last_under q None (map (standing columns) (map row_seen rows.now))) }
{
    let mut texts = Texts::new(alloc);
    for row in rows {
        texts.put(
            alloc,
            row.text_at(columns.service),
            row.text_at(columns.host),
        )?;
    }
    Ok(texts)
}

/// The host of each of these services.
fn hosts_of<'a>(
    alloc: Global,
    texts: &Texts<'a>,
    services: &[Row<'_>],
) -> Result<Vec<Option<&'a [u8]>>, AllocError>
    ensures { IfOk result (λ hosts. map (option_map (λ h. h.now)) hosts.items
        ≡ hosts_of texts.now (map row_seen services.now)) }
{
    let mut hosts = Vec::new(alloc);
    for row in services {
        let host = texts.get(alloc, row.name())?;
        hosts.push(host)?;
    }
    Ok(hosts)
}

/// For each row of the services behind the header, in their order, the name of the host where it
/// stands today, if it stands anywhere.
pub fn hosts_today<'a>(
    alloc: Global,
    services: &[Row<'_>],
    today: &[Row<'a>],
) -> Result<Vec<Option<&'a [u8]>>, AllocError>
    ensures { IfOk result (λ hosts. map (option_map (λ h. h.now)) hosts.items
        ≡ hosts_today (map row_seen services.now) (map row_seen today.now)) }
{
    let columns = today_columns(header(today));
    let texts = standings(alloc, columns, behind(today))?;
    let hosts = hosts_of(alloc, &texts, behind(services))?;
    Ok(hosts)
}
