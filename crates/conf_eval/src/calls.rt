//! The calls that evaluate: an expression, and the objectives of a model.
ghost use Rattle.std.specs.Prelude.{◌≡◌, ◌++◌, ◌∷◌, [], None, true, drop, false, IfOk, IsOk, OnOk};
ghost use Rattle.conf_types.specs.TreeOf.{tree_of};
ghost use Rattle.conf_types.specs.Typing.{IsTypedModel};
ghost use Rattle.object_alloc.specs.Configurations.{IsConfiguration};
ghost use Rattle.conf_eval.specs.Evaluating.{IsGiven, env_setting, setting_at};
ghost use Rattle.conf_eval.specs.Fitting.{IsEvaluable};
ghost use Rattle.conf_eval.specs.Meaning.{value, int_of};
ghost use Rattle.conf_limits.specs.Measures.{model_narrow};
ghost use Rattle.conf_eval.specs.Memory.{takes_memory};
ghost use Rattle.conf_eval.specs.Satisfying.{objectives};

use crate::evaluate::value_at;
use crate::scene::Scene;
use crate::value::{Env, Value, int_of};
use conf_types::{RExpr, TypedModel};
use object_alloc::{Config, Objects};
use std::alloc::{AllocError, Global};
use std::marker::Model;

/// Integers.
#[derive(Debug, Drop)]
pub struct Numbers {
    values: Vec<i64>,
}

impl Model for Numbers {
    ghost use Rattle.std.specs.Prelude.{List, ℤ};

    ghost Value = { List ℤ };

    ghost view = { λ numbers. numbers.values.items };
}

impl Numbers {
    /// The list of these numbers.
    pub fn of(values: Vec<i64>) -> Self
        ensures values { result ≡ values.items }
    {
        Numbers { values }
    }

    /// The numbers, in order.
    pub fn items(&self) -> &[i64]
        ensures values { result.now ≡ self.now }
    {
        &self.values
    }
}

/// The value of an expression of a model at a configuration, where the names in scope stand for
/// these objects.
///
/// It takes memory for quantifiers and lists alone; one behind `in` takes none.
pub fn eval(
    alloc: Global,
    _model: &TypedModel,
    objects: &Objects<'_>,
    config: &Config,
    env: &Env,
    e: &RExpr,
) -> Result<Value, AllocError>
    requires config { IsConfiguration objects.now config.now }
    requires expr { IsEvaluable objects.now config.now (tree_of e.now)
        (env_setting objects.now config.now env.now) }
    ensures value { IfOk result (λ v. v ≡ value (tree_of e.now) (env_setting objects.now config.now
        env.now)) }
    ensures memory { takes_memory (tree_of e.now) ≡ false → IsOk result }
{
    let _count = objects.count();
    let scene = Scene {
        objects,
        values: config.items(),
        this: env.this_object,
    };
    value_at(alloc, &scene, env.vars.items(), e)
}

/// Adds the number that a value is.
fn push_number(numbers: &mut Vec<i64>, value: &Value) -> Result<(), AllocError>
    ensures pushed { OnOk result (numbers.new.items ≡ numbers.old.items ++ int_of value.now ∷ []) }
{
    numbers.push(int_of(value))?;
    Ok(())
}

/// The values of the objectives of a model at a configuration, in order of place.
pub fn objectives(
    alloc: Global,
    model: &TypedModel,
    objects: &Objects<'_>,
    config: &Config,
) -> Result<Numbers, AllocError>
    requires typed { IsTypedModel objects.now model.now.constraints model.now.goals }
    requires narrow { model_narrow objects.now model.now.constraints model.now.goals ≡ true }
    requires config { IsConfiguration objects.now config.now }
    ensures values { IfOk result (λ numbers. numbers ≡ objectives objects.now model.now.goals
        config.now) }
{
    let _count = objects.count();
    let scene = Scene {
        objects,
        values: config.items(),
        this: None,
    };
    let mut numbers = Vec::new(alloc);
    for goal in model.goals() {
        let value = value_at(alloc, &scene, &[], &goal.expr)?;
        push_number(&mut numbers, &value)?;
    }
    Ok(Numbers::of(numbers))
}
