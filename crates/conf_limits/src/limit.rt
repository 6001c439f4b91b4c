//! The limits on what a model's expressions may cost and on how large their numbers may be.
ghost use Rattle.std.specs.Prelude.{◌≡◌, ◌+◌, ◌*◌, ◌<◌, ◌&&◌, ℕ, Bool, length, All, IfErr, IfSome, OnOk};
ghost use Rattle.class_table.specs.Outline.{Outline};
ghost use Rattle.std.specs.List.{list_all, sum_by};
ghost use Rattle.conf_types.specs.Typing.{IsTypedModel};
ghost use Rattle.conf_types.specs.Trees.{Tree};
ghost use Rattle.conf_limits.specs.Limits.{capped, IsMeasure, IsConstraintThere, IsGoalThere, IsLimitRefused, IsTotal, IsWithinMeasures};
ghost use Rattle.conf_limits.specs.Measures.{constraint_weight, constraint_narrow, goal_weight, goal_narrow, model_weight, model_narrow, narrow, times_stated, weight};

use crate::capped::{capped_product, capped_sum};
use crate::measure::Measure;
use crate::measuring::measured;
use conf_types::{Constraint, Goal, TypedModel};
use model_limits::MOST_WEIGHT;
use object_alloc::Objects;

/// Why a model is refused. Where both limits are broken, the first is named.
#[derive(Clone, Copy, Debug, PartialEq, Eq)]
pub enum LimitFault {
    /// The weight of the model would be more than `MOST_WEIGHT`.
    TooHeavy,
    /// The interval of some expression would have an end that is further than `MOST_WIDTH` from 0.
    TooWide,
}

/// What is measured of some constraints or objectives.
#[derive(Clone, Copy, Debug)]
pub(crate) struct Measured {
    pub weight: u64,
    pub narrow: bool,
}

/// For how many objects a constraint is stated.
fn times_stated(objects: &Objects<'_>, class: Option<u32>) -> u64
    requires class { IfSome class (λ c. c < length objects.now.classes) }
    ensures { result ≡ capped (times_stated objects.now class) }
{
    match class {
        Some(class) => objects.extent_count(class) as u64,
        None => 1,
    }
}

/// With one more expression, which is stated so many times.
fn with_stated(so_far: Measured, times: u64, found: Measure) -> Measured
    ensures { (o : Outline) (t : Tree) (w n : ℕ) (b : Bool) → times ≡ capped n → IsMeasure found o t
        → IsTotal so_far w b → IsTotal result (w + n * weight o t) (b && narrow o t) }
{
    let weight = capped_product(times, found.weight);
    Measured {
        weight: capped_sum(so_far.weight, weight),
        narrow: so_far.narrow && found.interval.is_some(),
    }
}

/// What is measured of some constraints.
fn of_constraints(objects: &Objects<'_>, list: &[Constraint]) -> Measured
    requires there { All (IsConstraintThere objects.now) list.now }
    ensures total { IsTotal result (sum_by (constraint_weight objects.now) list.now)
        (list_all (constraint_narrow objects.now) list.now) }
{
    let mut total = Measured {
        weight: 0,
        narrow: true,
    };
    for constraint in list {
        let times = times_stated(objects, constraint.class);
        total = with_stated(total, times, measured(objects, &constraint.expr));
    }
    total
}

/// What is measured of some objectives.
fn of_goals(objects: &Objects<'_>, list: &[Goal]) -> Measured
    requires there { All (IsGoalThere objects.now) list.now }
    ensures total { IsTotal result (sum_by (goal_weight objects.now) list.now)
        (list_all (goal_narrow objects.now) list.now) }
{
    let mut total = Measured {
        weight: 0,
        narrow: true,
    };
    for goal in list {
        total = with_stated(total, 1, measured(objects, &goal.expr));
    }
    total
}

/// What is measured of a model.
pub(crate) fn of_model(
    objects: &Objects<'_>,
    constraints: &[Constraint],
    goals: &[Goal],
) -> Measured
    requires typed { IsTypedModel objects.now constraints.now goals.now }
    ensures total { IsTotal result (model_weight objects.now constraints.now goals.now)
        (model_narrow objects.now constraints.now goals.now) }
{
    let _objects = objects.count();
    let stated = of_constraints(objects, constraints);
    let wanted = of_goals(objects, goals);
    Measured {
        weight: capped_sum(stated.weight, wanted.weight),
        narrow: stated.narrow && wanted.narrow,
    }
}

/// The weight of a model; one above 2^51 is told as 2^51.
pub fn model_weight(m: &TypedModel, objects: &Objects<'_>) -> u64
    requires typed { IsTypedModel objects.now m.now.constraints m.now.goals }
    ensures weight { result ≡ capped (model_weight objects.now m.now.constraints m.now.goals) }
{
    of_model(objects, m.constraints(), m.goals()).weight
}

/// Whether a model keeps the limits on weight and on width. It takes no memory, and walks each
/// expression once.
///
/// # Errors
///
/// The first limit, in the order of `LimitFault`, that the model breaks. No limit is passed over.
pub fn limits(m: &TypedModel, objects: &Objects<'_>) -> Result<(), LimitFault>
    requires typed { IsTypedModel objects.now m.now.constraints m.now.goals }
    ensures within { OnOk result (IsWithinMeasures objects.now m.now.constraints m.now.goals) }
    ensures fault { IfErr result (IsLimitRefused objects.now m.now.constraints m.now.goals) }
{
    let total = of_model(objects, m.constraints(), m.goals());
    if total.weight > MOST_WEIGHT {
        return Err(LimitFault::TooHeavy);
    }
    if !total.narrow {
        return Err(LimitFault::TooWide);
    }
    Ok(())
}
