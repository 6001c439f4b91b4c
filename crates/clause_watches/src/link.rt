//! What is written down once a clause was looked at.
ghost use Rattle.std.specs.Prelude.{◌≡◌, ◌≢◌, ◌<◌, ◌++◌, ◌∷◌, [], ℕ, false, slice_set, length, OnOk, OnErr};
ghost use Rattle.clause_watches.specs.Watching.{rest_of};
ghost use Rattle.clause_watches.specs.Rows.{names, IsTrueOf};
ghost use Rattle.clause_watches.specs.Sound.{row_of, least_at, sets_at, IsSound};
ghost use Rattle.clause_watches.specs.Looking.{linked};

use crate::rest::Rest;
use crate::row::Row;
use crate::steps::linked;
use crate::table::Table;
use crate::watch::Link;
use std::alloc::AllocError;

/// Puts the watch into its row, and says that its literal meets the box. After an error all is as
/// before.
pub(crate) fn add_link(table: &mut Table, link: Link) -> Result<(), AllocError>
    requires sound { IsSound table.old }
    requires row { link.variable < length table.old.rows.items }
    requires there { link.watch.clause < length table.old.rests }
    requires unnamed { names (rest_of table.old.rests link.watch.clause) link.variable ≡ false }
    requires right { IsTrueOf (least_at table.old.leasts.items link.variable)
        (sets_at table.old.added.items link.variable link.watch.clause) link.watch.witness }
    ensures sound { IsSound table.new }
    ensures added { table.new.added ≡ table.old.added }
    ensures count { length table.new.rows.items ≡ length table.old.rows.items }
    ensures changed { table.new.changed ≡ table.old.changed }
    ensures ok { OnOk result (table.new.rests ≡ slice_set table.old.rests link.watch.clause
        (linked link.variable (rest_of table.old.rests link.watch.clause))) }
    ensures err { OnErr result (table.new.rests ≡ table.old.rests) }
{
    push_watch(&mut table.rows, link)?;
    let rest = table.rests.get(link.watch.clause);
    table
        .rests
        .set(link.watch.clause, linked(rest, link.variable));
    Ok(())
}

/// Puts the watch into its row.
fn push_watch(rows: &mut Vec<Row>, link: Link) -> Result<(), AllocError>
    requires { link.variable < length rows.old.items }
    ensures count { length rows.new.items ≡ length rows.old.items }
    ensures others { (y : ℕ) → y ≢ link.variable
        → row_of rows.new.items y ≡ row_of rows.old.items y }
    ensures ok { OnOk result (row_of rows.new.items link.variable
        ≡ row_of rows.old.items link.variable ++ link.watch ∷ []) }
    ensures err { OnErr result (row_of rows.new.items link.variable
        ≡ row_of rows.old.items link.variable) }
{
    rows[link.variable as usize].push(link.watch)?;
    Ok(())
}
