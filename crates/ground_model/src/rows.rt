//! A constraint of a class as one packing of all its objects.
ghost use Rattle.std.specs.Prelude.{◌≡◌, ◌||◌, not, ℕ, ℤ, Some, IfOk, IfSome, OnOk};
ghost use Rattle.std.specs.List.{All, list_all};
ghost use Rattle.form_build.specs.Worlds.{Defines};
ghost use Rattle.ground_expr.specs.Asked.{holds_for};
ghost use Rattle.ground_model.specs.Known.{HasKnown};
ghost use Rattle.ground_model.specs.Requiring.{Requires};
ghost use Rattle.ground_model.specs.RowsAsked.{IsRowWhere, AreRowsWhere};
ghost use Rattle.ground_model.specs.Stated.{IsReady};

use crate::row_form::row_at;
use conf_types::Constraint;
use form_build::Maker;
use ground_expr::Scene;
use object_alloc::Objects;
use packed_rows::{Row, pack_rows};
use std::alloc::AllocError;

/// The row that a constraint is for an object.
fn row_for(
    maker: &mut Maker,
    objects: &Objects<'_>,
    known: &[(u32, i64)],
    constraint: &Constraint,
    this: u32,
) -> Result<Option<Row>, AllocError>
    requires ready { IsReady objects.now constraint.now.tree (Some this) }
    requires known { HasKnown objects.now known.now maker.old }
    ensures row { IfOk result (λ o. IfSome o (λ r. IsRowWhere known.now maker.new
        (λ values. holds_for objects.now values constraint.now (Some this)) r)) }
    ensures adds { IfOk result (λ o. Defines maker.old maker.new) }
{
    let scene = Scene {
        objects,
        this: Some(this),
        vars: &[],
        known,
    };
    let row = row_at(maker, &scene, &constraint.expr)?;
    Ok(row)
}

/// The rows that a constraint is for these objects, where it is one for each.
fn rows_for(
    maker: &mut Maker,
    objects: &Objects<'_>,
    known: &[(u32, i64)],
    constraint: &Constraint,
    members: &[u32],
) -> Result<Option<Vec<Row>>, AllocError>
    requires ready { All (λ n. IsReady objects.now constraint.now.tree (Some n)) members.now }
    requires known { HasKnown objects.now known.now maker.old }
    ensures rows { IfOk result (λ o. IfSome o (λ rows. AreRowsWhere known.now maker.new
        (λ values. list_all (λ n. holds_for objects.now values constraint.now (Some n)) members.now)
        rows.items)) }
    ensures adds { IfOk result (λ o. Defines maker.old maker.new) }
{
    let mut rows = Vec::new(maker.alloc());
    for n in members {
        let found = row_for(maker, objects, known, constraint, *n)?;
        let Some(row) = found else {
            return Ok(None);
        };
        rows.push(row)?;
    }
    Ok(Some(rows))
}

/// States that a constraint holds for these objects, where it says that together they are a
/// packing. Says whether it does; if not, nothing is stated.
pub(crate) fn require_packed(
    maker: &mut Maker,
    objects: &Objects<'_>,
    known: &[(u32, i64)],
    constraint: &Constraint,
    members: &[u32],
) -> Result<bool, AllocError>
    requires ready { All (λ n. IsReady objects.now constraint.now.tree (Some n)) members.now }
    requires known { HasKnown objects.now known.now maker.old }
    ensures says { IfOk result (λ packs. Requires known.now maker.old maker.new (λ values. not packs
        || list_all (λ n. holds_for objects.now values constraint.now (Some n)) members.now)) }
{
    let found = rows_for(maker, objects, known, constraint, members)?;
    let Some(rows) = found else {
        return Ok(false);
    };
    let packs = pack_rows(maker, rows.as_slice())?;
    Ok(packs)
}
