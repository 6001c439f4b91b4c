//! What is added for a goal.
ghost use Rattle.std.specs.Prelude.{◌≡◌, ◌<◌, ◌≤◌, ◌^◌, ℤ, List, true, length, IfOk, OnOk};
ghost use Rattle.std.specs.List.{list_any};
ghost use Rattle.signed_clause.specs.Clauses.{box_of};
ghost use Rattle.ground_form.specs.Meaning.{value_of};
ghost use Rattle.ground_form.specs.Bounds.{reach_of, most_sum};
ghost use Rattle.form_build.specs.Forms.{linear_at};
ghost use Rattle.form_build.specs.Worlds.{IsWorld, AllHold, Defines};
ghost use Rattle.form_build.specs.Sums.{IsLinear};
ghost use Rattle.packing_sums.specs.Packings.{IsPacking};
ghost use Rattle.goal_rows.specs.Quotients.{IsGoalBy};
ghost use Rattle.goal_rows.specs.Rows.{gives_rows};
ghost use Rattle.stated_facts.specs.Rows.{IsNought};

use crate::bounds::add_bounds;
use crate::costs::with_costs;
use crate::dividing::{Quotient, goal_quotient, state_link};
use crate::parts::add_parts;
use block_sums::settled_in_blocks;
use form_build::{Linear, Maker, variable};
use ground_form::Con;
use packing_sums::{Aim, Packing, add_for_set, add_used, aim_of, packing_at, sets_asked};
use stated_facts::{Nought, is_near, weighs_within, with_rows};
use std::alloc::AllocError;

/// Whether the numbers of a goal's sum and of the goal are small.
fn are_small(maker: &Maker, number: &Linear, goal: u32) -> bool
    requires goal { goal < length maker.now.domains }
    requires number { IsLinear most_sum maker.now.domains number.now }
    ensures number { result ≡ true → IsLinear (2 ^ 19) maker.now.domains number.now }
    ensures goal { result ≡ true → reach_of (box_of maker.now.domains goal) ≤ 2 ^ 19 }
{
    let boxes = maker.domains();
    weighs_within(boxes, number, 1 << 19) && is_near(boxes, goal, 1 << 19)
}

/// A goal's sum less the goal: wherever all constraints hold it is 0.
fn difference(maker: &Maker, number: &Linear, goal: u32) -> Result<Nought, AllocError>
    requires goal { goal < length maker.now.domains }
    requires number { IsLinear (2 ^ 19) maker.now.domains number.now }
    requires near { reach_of (box_of maker.now.domains goal) ≤ 2 ^ 19 }
    requires value { (a : List ℤ) → IsWorld maker.now a → AllHold maker.now a
        → value_of a goal ≡ linear_at number.now a }
    ensures { IfOk result (λ z. IsNought maker.now z) }
{
    let own = variable(maker, goal)?;
    let less = own.times(maker.alloc(), -1)?;
    let sum = number.plus(maker.alloc(), &less)?;
    Ok(Nought {
        sum,
        adds: true,
        takes: true,
    })
}

/// Adds the rows of a packing for the sets that the goal's flags ask about.
fn add_for_sets(maker: &mut Maker, zero: &Nought, p: &Packing, aim: &Aim) -> Result<(), AllocError>
    requires nought { IsNought maker.old zero.now }
    requires packing { IsPacking maker.old p.now }
    ensures { OnOk result (Defines maker.old maker.new) }
{
    let asked = sets_asked(maker, aim.factors.as_slice(), p)?;
    for one in asked.as_slice() {
        add_for_set(maker, zero, p, one)?;
    }
    Ok(())
}

/// Adds the rows that follow from a packing.
fn add_for_packing(
    maker: &mut Maker,
    zero: &Nought,
    p: &Packing,
    aim: &Aim,
) -> Result<(), AllocError>
    requires nought { IsNought maker.old zero.now }
    requires packing { IsPacking maker.old p.now }
    ensures { OnOk result (Defines maker.old maker.new) }
{
    add_used(maker, zero, p, aim, true)?;
    add_used(maker, zero, p, aim, false)?;
    add_for_sets(maker, zero, p, aim)?;
    Ok(())
}

/// Adds the rows that follow from a packing, and from parts of it.
fn add_with_parts(
    maker: &mut Maker,
    zero: &Nought,
    p: &Packing,
    aim: &Aim,
) -> Result<(), AllocError>
    requires nought { IsNought maker.old zero.now }
    requires packing { IsPacking maker.old p.now }
    ensures { OnOk result (Defines maker.old maker.new) }
{
    add_for_packing(maker, zero, p, aim)?;
    add_parts(maker, zero, p, aim)?;
    Ok(())
}

/// Adds the rows that follow from constraint k, where it is a packing.
fn add_for(maker: &mut Maker, zero: &Nought, aim: &Aim, k: usize) -> Result<(), AllocError>
    requires nought { IsNought maker.old zero.now }
    ensures { OnOk result (Defines maker.old maker.new) }
{
    match packing_at(maker, k)? {
        Some(p) => {
            add_with_parts(maker, zero, &p, aim)?;
            Ok(())
        }
        None => Ok(()),
    }
}

/// Whether some constraint is a packing.
fn has_packing(maker: &Maker) -> bool {
    for con in maker.cons() {
        if let Con::Pack { .. } = con {
            return true;
        }
    }
    false
}

/// Whether this is a row or a packing.
fn gives_rows(con: &Con) -> bool
    ensures { result ≡ gives_rows con.now }
{
    match con {
        Con::LinLe { .. } | Con::Pack { .. } => true,
        _ => false,
    }
}

/// Whether some constraint is a row or a packing, from which rows over a goal may follow.
pub fn has_rows(maker: &Maker) -> bool
    ensures rows { result ≡ list_any gives_rows maker.now.cons }
{
    for con in maker.cons() {
        if gives_rows(con) {
            return true;
        }
    }
    false
}

/// Adds the rows that follow from each packing and from what is 0, a goal's sum less the goal.
fn add_by(maker: &mut Maker, zero: &Nought) -> Result<(), AllocError>
    requires nought { IsNought maker.old zero.now }
    ensures { OnOk result (Defines maker.old maker.new) }
{
    let aim = aim_of(maker, zero)?;
    let count = maker.cons().len();
    for k in 0..count {
        add_for(maker, zero, &aim, k)?;
    }
    Ok(())
}

/// Whether the values of a variable are small.
fn has_small_values(maker: &Maker, x: u32) -> bool
    requires { x < length maker.now.domains }
    ensures { result ≡ true → reach_of (box_of maker.now.domains x) ≤ 2 ^ 19 }
{
    is_near(maker.domains(), x, 1 << 19)
}

/// Adds the rows of a sum whose variable this is.
fn add_for_sum(maker: &mut Maker, sum: &Linear, own: u32) -> Result<(), AllocError>
    requires own { own < length maker.old.domains }
    requires sum { IsLinear (2 ^ 19) maker.old.domains sum.now }
    requires value { (a : List ℤ) → IsWorld maker.old a → AllHold maker.old a
        → value_of a own ≡ linear_at sum.now a }
    ensures { OnOk result (Defines maker.old maker.new) }
{
    if !has_small_values(maker, own) {
        return Ok(());
    }
    let zero = difference(maker, sum, own)?;
    add_by(maker, &zero)?;
    Ok(())
}

/// Adds the rows of a goal by its sum without a factor, for which a variable is made.
fn add_divided(maker: &mut Maker, q: &Quotient, goal: u32) -> Result<(), AllocError>
    requires goal { goal < length maker.old.domains }
    requires near { reach_of (box_of maker.old.domains goal) ≤ 2 ^ 19 }
    requires quotient { IsGoalBy maker.old goal q.now }
    ensures { OnOk result (Defines maker.old maker.new) }
{
    let own = settled_in_blocks(maker, &q.sum)?;
    state_link(maker, q, own, goal)?;
    add_for_sum(maker, &q.sum, own)?;
    Ok(())
}

/// Adds the rows of a goal that is a sum, by what is 0, the sum less the goal.
fn add_whole(maker: &mut Maker, zero: &Nought, goal: u32) -> Result<(), AllocError>
    requires goal { goal < length maker.old.domains }
    requires near { reach_of (box_of maker.old.domains goal) ≤ 2 ^ 19 }
    requires nought { IsNought maker.old zero.now }
    ensures { OnOk result (Defines maker.old maker.new) }
{
    match goal_quotient(maker, zero, goal)? {
        Some(q) => {
            add_divided(maker, &q, goal)?;
            Ok(())
        }
        None => {
            add_by(maker, zero)?;
            Ok(())
        }
    }
}

/// The same with flags of sets of bins in place of the terms that follow from where an item is.
fn add_with_costs(maker: &mut Maker, zero: Nought, goal: u32) -> Result<(), AllocError>
    requires goal { goal < length maker.old.domains }
    requires near { reach_of (box_of maker.old.domains goal) ≤ 2 ^ 19 }
    requires nought { IsNought maker.old zero }
    ensures { OnOk result (Defines maker.old maker.new) }
{
    let zero = with_costs(maker, zero)?;
    add_whole(maker, &zero, goal)?;
    Ok(())
}

/// Adds the rows that follow from the packings, where there are some.
fn add_with_packings(
    maker: &mut Maker,
    zero: Nought,
    number: &Linear,
    goal: u32,
) -> Result<(), AllocError>
    requires goal { goal < length maker.old.domains }
    requires near { reach_of (box_of maker.old.domains goal) ≤ 2 ^ 19 }
    requires nought { IsNought maker.old zero }
    ensures { OnOk result (Defines maker.old maker.new) }
{
    if !has_packing(maker) {
        return Ok(());
    }
    let zero = with_rows(maker, zero, number)?;
    add_with_costs(maker, zero, goal)?;
    Ok(())
}

/// Adds rows that follow from the rows and packings of a problem and from what a goal is, so that
/// bounds alone give what the linear relaxation gives. Nothing new is said.
pub fn add_goal_sums(maker: &mut Maker, number: &Linear, goal: u32) -> Result<(), AllocError>
    requires goal { goal < length maker.old.domains }
    requires number { IsLinear most_sum maker.old.domains number.now }
    requires value { (a : List ℤ) → IsWorld maker.old a → AllHold maker.old a
        → value_of a goal ≡ linear_at number.now a }
    ensures adds { OnOk result (Defines maker.old maker.new) }
{
    if !are_small(maker, number, goal) {
        return Ok(());
    }
    let zero = difference(maker, number, goal)?;
    add_bounds(maker, &zero, goal)?;
    add_with_packings(maker, zero, number, goal)?;
    Ok(())
}
