//! The names of hosts, by their words.
ghost use Rattle.std.specs.Prelude.{◌≡◌, ℕ, List, None, Some, IfOk, OnOk, map, if◌then◌else◌};
ghost use Rattle.site_names.specs.Meeting.{same_word};
ghost use Rattle.site_names.specs.Words.{word_of};
ghost use Rattle.site_tables.specs.Grid.{name_of};
ghost use Rattle.site_tables.specs.Views.{row_seen};
ghost use Rattle.site_texts.specs.Pairs.{last_under, under};
ghost use Rattle.site_answer.specs.Names.{worded_host};

use site_names::word_of;
use site_tables::Row;
use site_texts::Texts;
use std::alloc::{AllocError, Global};

/// Puts the name of a host under its word.
fn put_host<'a>(alloc: Global, names: &mut Texts<'a>, row: &Row<'a>) -> Result<(), AllocError>
    ensures { OnOk result ((q : List ℕ) → under q names.new
        ≡ (if same_word (word_of (name_of (row_seen row.now))) q
        then Some (name_of (row_seen row.now)) else under q names.old)) }
{
    let word = word_of(alloc, row.name())?;
    names.put(alloc, &word, row.name())?;
    Ok(())
}

/// The names of hosts, by their words.
pub(crate) fn host_names<'a>(alloc: Global, hosts: &[Row<'a>]) -> Result<Texts<'a>, AllocError>
    ensures { IfOk result (λ names. (q : List ℕ) → under q names
        ≡ last_under q None (map worded_host (map row_seen hosts.now))) }
{
    let mut names = Texts::new(alloc);
    for row in hosts {
        put_host(alloc, &mut names, row)?;
    }
    Ok(names)
}
