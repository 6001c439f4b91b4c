//! The objectives of a model as variables of its ground problem.
ghost use Rattle.std.specs.Prelude.{◌≡◌, ◌<◌, ℤ, List, [], None, take, map, length, IfOk, OnOk};
ghost use Rattle.std.specs.List.{All};
ghost use Rattle.conf_eval.specs.Satisfying.{objective};
ghost use Rattle.ground_form.specs.Meaning.{value_of};
ghost use Rattle.ground_form.specs.StandsFor.{AreGoalValues};
ghost use Rattle.form_build.specs.Worlds.{IsWorld, Defines};
ghost use Rattle.expr_forms.specs.Standing.{HasCells};
ghost use Rattle.ground_expr.specs.Objectives.{functions};
ghost use Rattle.ground_model.specs.Aims.{idle_goal};
ghost use Rattle.ground_model.specs.Known.{HasKnown, AreFixed};
ghost use Rattle.ground_model.specs.Stated.{IsReady, IsReadyGoal};

use crate::required::form_of;
use block_sums::settled_in_blocks;
use conf_types::Goal;
use expr_forms::number_of;
use form_build::Maker;
use goal_rows::{add_goal_sums, has_rows};
use ground_form::{Goals, GroundGoal};
use object_alloc::Objects;
use std::alloc::{AllocError, Global};

/// A variable that is an objective.
fn objective_variable(
    maker: &mut Maker,
    objects: &Objects<'_>,
    goal: &Goal,
) -> Result<u32, AllocError>
    requires ready { IsReady objects.now goal.now.tree None }
    requires cells { HasCells objects.now maker.old }
    ensures exists { IfOk result (λ x. x < length maker.new.domains) }
    ensures value { IfOk result (λ x. (a : List ℤ) → IsWorld maker.new a
        → value_of a x ≡ objective objects.now (take maker.new.search a) goal.now) }
    ensures adds { IfOk result (λ x. Defines maker.old maker.new) }
{
    let f = form_of(maker, objects, &[], None, &goal.expr)?;
    let number = number_of(maker.alloc(), f);
    let x = settled_in_blocks(maker, &number)?;
    Ok(x)
}

/// Adds what follows from the packings that stand and from what the variable of an objective is.
/// Cells that are known need not be looked at, since rows follow where all constraints hold.
fn add_rows(
    maker: &mut Maker,
    objects: &Objects<'_>,
    known: &[(u32, i64)],
    goal: &Goal,
    x: u32,
) -> Result<(), AllocError>
    requires ready { IsReady objects.now goal.now.tree None }
    requires known { HasKnown objects.now known.now maker.old }
    requires fixed { AreFixed known.now maker.old }
    requires exists { x < length maker.old.domains }
    requires value { (a : List ℤ) → IsWorld maker.old a
        → value_of a x ≡ objective objects.now (take maker.old.search a) goal.now }
    ensures adds { OnOk result (Defines maker.old maker.new) }
{
    let f = form_of(maker, objects, known, None, &goal.expr)?;
    let number = number_of(maker.alloc(), f);
    add_goal_sums(maker, &number, x)?;
    Ok(())
}

/// A variable that is an objective, with what follows of it from the rows and packings that
/// stand.
fn goal_variable(
    maker: &mut Maker,
    objects: &Objects<'_>,
    known: &[(u32, i64)],
    goal: &Goal,
) -> Result<u32, AllocError>
    requires ready { IsReady objects.now goal.now.tree None }
    requires known { HasKnown objects.now known.now maker.old }
    requires fixed { AreFixed known.now maker.old }
    ensures exists { IfOk result (λ x. x < length maker.new.domains) }
    ensures value { IfOk result (λ x. (a : List ℤ) → IsWorld maker.new a
        → value_of a x ≡ objective objects.now (take maker.new.search a) goal.now) }
    ensures adds { IfOk result (λ x. Defines maker.old maker.new) }
{
    let x = objective_variable(maker, objects, goal)?;
    if has_rows(maker) {
        add_rows(maker, objects, known, goal, x)?;
    }
    Ok(x)
}

/// The objectives, each as a goal in its direction.
pub(crate) fn goals_of(
    maker: &mut Maker,
    objects: &Objects<'_>,
    known: &[(u32, i64)],
    list: &[Goal],
) -> Result<Goals, AllocError>
    requires ready { All (IsReadyGoal objects.now) list.now }
    requires known { HasKnown objects.now known.now maker.old }
    requires fixed { AreFixed known.now maker.old }
    ensures exist { IfOk result (λ gs. All (λ goal. goal.var < length maker.new.domains) gs) }
    ensures values { IfOk result (λ gs. (a : List ℤ) → IsWorld maker.new a
        → AreGoalValues gs (functions objects.now list.now) (take maker.new.search a) a) }
    ensures count { IfOk result (λ gs. length gs ≡ length list.now) }
    ensures adds { IfOk result (λ gs. Defines maker.old maker.new) }
{
    let mut goals = Vec::new(maker.alloc());
    for goal in list {
        let var = goal_variable(maker, objects, known, goal)?;
        goals.push(GroundGoal { var, max: goal.max })?;
    }
    Ok(Goals::of(goals))
}

/// A goal in the direction of each objective, on the first variable: of a problem that has no
/// configuration.
pub(crate) fn idle_goals(alloc: Global, list: &[Goal]) -> Result<Goals, AllocError>
    ensures { IfOk result (λ gs. gs ≡ map idle_goal list.now) }
{
    let mut goals = Vec::new(alloc);
    for goal in list {
        let max = goal.max;
        goals.push(GroundGoal { var: 0, max })?;
    }
    Ok(Goals::of(goals))
}
