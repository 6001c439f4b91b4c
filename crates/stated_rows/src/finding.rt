//! The rows that constraints say.
ghost use Rattle.std.specs.Prelude.{IfOk, IfSome, OnOk};
ghost use Rattle.std.specs.List.{All};
ghost use Rattle.stated_rows.specs.Following.{FollowsIn};

use crate::facts::Facts;
use crate::reading::row_of;
use form_build::Maker;
use packed_rows::Row;
use std::alloc::AllocError;

/// Adds the row that constraint k says of a bin, where it says one.
fn push_row(maker: &Maker, facts: &Facts, rows: &mut Vec<Row>, k: usize) -> Result<(), AllocError>
    requires { All (FollowsIn maker.now) rows.old.items }
    ensures { OnOk result (All (FollowsIn maker.now) rows.new.items) }
{
    let Some(con) = maker.cons().get(k) else {
        return Ok(());
    };
    if let Some(row) = row_of(maker, facts, con)? {
        rows.push(row)?;
    }
    Ok(())
}

/// The rows that the constraints say, in their order.
pub(crate) fn rows_stated(maker: &Maker, facts: &Facts) -> Result<Vec<Row>, AllocError>
    ensures { IfOk result (λ rows. All (FollowsIn maker.now) rows.items) }
{
    let mut rows = Vec::new(maker.alloc());
    for k in 0..maker.cons().len() {
        push_row(maker, facts, &mut rows, k)?;
    }
    Ok(rows)
}
