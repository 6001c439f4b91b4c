//! Explanations: the literals of a row that has something to say.
//!
//! A walk over the terms lets each fall as far as the slack permits, the first ones first (`fall`).
//! The literals that this asks for are those of different variables, since no variable of the row
//! has two terms. With what they leave of the domains the row's least sum is still above its bound.
//!
//! After the pruned variable's part the terms spend the slack in their order. A term that its
//! domain keeps high enough has no literal, and what a step leaves over is spent by the next.
ghost use Rattle.std.specs.Prelude.{◌≡◌, ◌<◌, ◌≤◌, ◌^◌, ◌+◌, ◌*◌, ◌*ℤ◌, ◌≤ℤ◌, ◌≢◌, ℕ, pos, length, unsigned_abs, IfOk, OnOk};
ghost use Rattle.signed_clause.specs.Clauses.{box_of};
ghost use Rattle.ground_form.specs.Bounds.{greatest_term, term_weight, low_of, high_of};
ghost use Rattle.linear_prop.specs.Rows.{terms_of};
ghost use Rattle.linear_prop.specs.Turns.{with_literal};
ghost use Rattle.linear_prop.specs.Explaining.{span_of, IsCause, IsSoFar, IsTurn, IsRowOver};

use crate::fall::{Fall, fall_of, lowest};
use crate::number::WideNumber;
use crate::row::{Row, factor_of};
use signed_clause::IntSet;
use std::alloc::{AllocError, Global};

/// Why a row has something to say.
#[derive(Clone, Copy)]
pub struct Cause {
    /// The index of the term whose variable is pruned; the row's length where the row is refuted.
    pub index: usize,
    /// The first value of that variable that is taken away.
    pub to: WideNumber,
    /// By how much more the sum is above the bound than it has to be.
    pub slack: u64,
}

/// What the walk goes over: a row, why it has something to say, the domains, and the boxes.
#[derive(Clone, Copy)]
struct Scene<'a> {
    row: &'a Row<'a>,
    cause: Cause,
    domains: &'a [IntSet],
    boxes: &'a [IntSet],
}

/// The set of the variable.
pub fn set_at<'a>(sets: &'a [IntSet], x: u32) -> &'a IntSet
    requires { x < length sets.now }
    ensures { result.now ≡ box_of sets.now x }
{
    &sets[x as usize]
}

/// Adds the literal of the variable, where the term needs one.
fn put(out: &mut Vec<(u32, IntSet)>, x: u32, literal: Option<IntSet>) -> Result<(), AllocError>
    ensures { OnOk result (out.new.items ≡ with_literal out.old.items x literal) }
{
    if let Some(set) = literal {
        out.push((x, set))?;
    }
    Ok(())
}

/// The turn at a term that isn't the one at the index: it may fall from the least that it is in its
/// box.
fn turn_elsewhere(
    alloc: Global,
    scene: Scene<'_>,
    i: usize,
    t: (i128, u32),
    slack: u64,
    out: &mut Vec<(u32, IntSet)>,
) -> Result<u64, AllocError>
    requires turn { IsTurn (terms_of scene.row.now) scene.domains.now scene.boxes.now i t }
    requires domain { t.1 < length scene.domains.now }
    requires fits { unsigned_abs t.0 * span_of (box_of scene.domains.now t.1) < 2 ^ 64 }
    requires small { unsigned_abs t.0 ≤ 2 ^ 63 }
    requires so_far { IsSoFar (terms_of scene.row.now) scene.domains.now scene.boxes.now
        scene.row.now.bound.value scene.cause.index scene.cause.to.value i out.old.items slack }
    requires other { i ≢ scene.cause.index }
    ensures { IfOk result (λ left. IsSoFar (terms_of scene.entry.row.now) scene.entry.domains.now
        scene.entry.boxes.now scene.entry.row.now.bound.value scene.entry.cause.index
        scene.entry.cause.to.value (i + 1) out.new.items left) }
{
    let c = factor_of(t);
    let domain = set_at(scene.domains, t.1);
    let at = lowest(c, set_at(scene.boxes, t.1));
    let f = fall_of(alloc, c, at, slack, domain)?;
    let left = f.left;
    put(out, t.1, f.literal)?;
    Ok(left)
}

/// The turn at the term at the index: it falls no further than to where its variable is the first
/// value that is taken away.
fn turn_at_index(
    alloc: Global,
    scene: Scene<'_>,
    i: usize,
    t: (i128, u32),
    slack: u64,
    out: &mut Vec<(u32, IntSet)>,
) -> Result<u64, AllocError>
    requires turn { IsTurn (terms_of scene.row.now) scene.domains.now scene.boxes.now i t }
    requires domain { t.1 < length scene.domains.now }
    requires fits { unsigned_abs t.0 * span_of (box_of scene.domains.now t.1) < 2 ^ 64 }
    requires small { unsigned_abs t.0 ≤ 2 ^ 63 }
    requires cause { IsCause (terms_of scene.row.now) scene.boxes.now scene.row.now.bound.value
        scene.cause.index scene.cause.to.value scene.cause.slack }
    requires so_far { IsSoFar (terms_of scene.row.now) scene.domains.now scene.boxes.now
        scene.row.now.bound.value scene.cause.index scene.cause.to.value i out.old.items slack }
    requires index { i ≡ scene.cause.index }
    ensures { IfOk result (λ left. IsSoFar (terms_of scene.entry.row.now) scene.entry.domains.now
        scene.entry.boxes.now scene.entry.row.now.bound.value scene.entry.cause.index
        scene.entry.cause.to.value (i + 1) out.new.items left) }
{
    let c = factor_of(t);
    let domain = set_at(scene.domains, t.1);
    let f = fall_of(alloc, c, scene.cause.to, 0, domain)?;
    put(out, t.1, f.literal)?;
    Ok(slack)
}

/// The turn at term `i`.
fn turn(
    alloc: Global,
    scene: Scene<'_>,
    i: usize,
    t: (i128, u32),
    slack: u64,
    out: &mut Vec<(u32, IntSet)>,
) -> Result<u64, AllocError>
    requires turn { IsTurn (terms_of scene.row.now) scene.domains.now scene.boxes.now i t }
    requires domain { t.1 < length scene.domains.now }
    requires fits { unsigned_abs t.0 * span_of (box_of scene.domains.now t.1) < 2 ^ 64 }
    requires small { unsigned_abs t.0 ≤ 2 ^ 63 }
    requires cause { IsCause (terms_of scene.row.now) scene.boxes.now scene.row.now.bound.value
        scene.cause.index scene.cause.to.value scene.cause.slack }
    requires so_far { IsSoFar (terms_of scene.row.now) scene.domains.now scene.boxes.now
        scene.row.now.bound.value scene.cause.index scene.cause.to.value i out.old.items slack }
    ensures { IfOk result (λ left. IsSoFar (terms_of scene.entry.row.now) scene.entry.domains.now
        scene.entry.boxes.now scene.entry.row.now.bound.value scene.entry.cause.index
        scene.entry.cause.to.value (i + 1) out.new.items left) }
{
    if i == scene.cause.index {
        let left = turn_at_index(alloc, scene, i, t, slack, out)?;
        Ok(left)
    } else {
        let left = turn_elsewhere(alloc, scene, i, t, slack, out)?;
        Ok(left)
    }
}

/// The literals of a row that has something to say, added to those that are there.
pub fn explain(
    alloc: Global,
    row: &Row,
    cause: Cause,
    domains: &[IntSet],
    boxes: &[IntSet],
    out: &mut Vec<(u32, IntSet)>,
) -> Result<u64, AllocError>
    requires over { IsRowOver (terms_of row.now) domains.now boxes.now }
    requires cause { IsCause (terms_of row.now) boxes.now row.now.bound.value cause.index
        cause.to.value cause.slack }
    requires so_far { IsSoFar (terms_of row.now) domains.now boxes.now row.now.bound.value
        cause.index cause.to.value 0 out.old.items cause.slack }
    ensures { IfOk result (λ left. IsSoFar (terms_of row.now) domains.now boxes.now
        row.now.bound.value cause.index cause.to.value (length (terms_of row.now)) out.new.items
        left) }
{
    let scene = Scene {
        row,
        cause,
        domains,
        boxes,
    };
    let mut slack = cause.slack;
    for i in 0..row.len() {
        slack = turn(alloc, scene, i, row.term(i), slack, out)?;
    }
    Ok(slack)
}
