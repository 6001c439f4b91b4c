//! A law on parts of a model: they are within the limits that the whole is within.
ghost use Rattle.std.specs.Prelude.{◌<◌, [], length, map, All, AllPairs};
ghost use Rattle.class_table.specs.Outline.{Outline};
ghost use Rattle.conf_types.specs.Programs.{constraint_at};
ghost use Rattle.conf_limits.specs.Limits.{IsWithinMeasures};

use conf_types::TypedModel;

/// It does nothing; its contract is the law. Where a model keeps the limits on weight and on width,
/// what `TypedModel::only` makes of it keeps them: the constraints of these indexes, in order, and
/// no objective.
pub fn part_is_within_limits(m: &TypedModel, keep: &[u32])
    requires ascend { AllPairs ◌<◌ keep.now }
    requires exist { All (λ k. k < length m.now.constraints) keep.now }
    ensures within { (o : Outline)
        → IsWithinMeasures o m.now.constraints m.now.goals
        → IsWithinMeasures o (map (constraint_at m.now.constraints) keep.now) [] }
{}
