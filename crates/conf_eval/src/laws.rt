//! The laws on values: each function does nothing, and its contract is the law.
ghost use Rattle.std.specs.Prelude.{All, Some, map};
ghost use Rattle.conf_types.specs.declared.types.ExprType.{ExprType as AnExprType};
ghost use Rattle.conf_types.specs.Trees.{Tree};
ghost use Rattle.object_alloc.specs.Configurations.{IsConfiguration};
ghost use Rattle.object_alloc.specs.Hints.{AreHints};
ghost use Rattle.object_alloc.specs.Members.{HasItsSize};
ghost use Rattle.object_alloc.specs.Walk.{leaves_in, walk};
ghost use Rattle.conf_eval.specs.Fitting.{IsReached, IsValueOf, IsWithin};
ghost use Rattle.conf_eval.specs.Meaning.{Setting, int_of, value};
ghost use Rattle.conf_limits.specs.Measures.{interval, reach};
ghost use Rattle.conf_eval.specs.Satisfying.{IsFull};
ghost use Rattle.conf_eval.specs.TypedValues.{HasType};

use object_alloc::{Config, Objects, configuration_is_hints};

/// The value of a typed expression is of its type and in its interval, and lists at most as many
/// objects as the expression reaches.
pub fn values_keep_to_measures(objects: &Objects<'_>, config: &Config)
    requires config { IsConfiguration objects.now config.now }
    ensures typed { (t : Tree) (s : Setting) (ty : AnExprType)
        → HasType objects.now config.now t s ty → IsValueOf objects.now ty (value t s) }
    ensures within { (t : Tree) (s : Setting) (ty : AnExprType)
        → HasType objects.now config.now t s ty
        → IsWithin (interval objects.now t) (int_of (value t s)) }
    ensures reached { (t : Tree) (s : Setting) (ty : AnExprType)
        → HasType objects.now config.now t s ty
        → IsReached (reach objects.now t) ty (value t s) }
{
    let _count = objects.count();
}

/// The values of a configuration in which each reference set has as many members as its shape says
/// are hints.
pub fn full_sets_are_hints(objects: &Objects<'_>, config: &Config)
    requires config { IsConfiguration objects.now config.now }
    requires sets { All (IsFull objects.now config.now) (leaves_in (walk objects.now)) }
    ensures hints { AreHints objects.now (map Some config.now) }
{
    configuration_is_hints(objects, config);
}

/// In a configuration whose reference sets are full each set has its size, as its cells say it. So
/// it is read back from its JSON (`config_json::own_json_gives_values`).
pub fn full_sets_have_their_sizes(objects: &Objects<'_>, config: &Config)
    requires sets { All (IsFull objects.now config.now) (leaves_in (walk objects.now)) }
    ensures sizes { All (HasItsSize objects.now config.now) (leaves_in (walk objects.now)) }
{}
