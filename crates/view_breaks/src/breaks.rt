//! Each constraint that doesn't hold, with each object for which it doesn't.
ghost use Rattle.std.specs.Prelude.{◌≡◌, ◌+◌, ◌++◌, ◌∷◌, ◌<◌, ◌^◌, [], All, Some, true, length, IfOk, OnOk};
ghost use Rattle.conf_eval.specs.Finding.{holds_for, IsStated, IsStatedFor};
ghost use Rattle.conf_eval.specs.Fitting.{IsEvaluable};
ghost use Rattle.conf_eval.specs.Meaning.{truth_of};
ghost use Rattle.conf_eval.specs.Satisfying.{setting, stated_for};
ghost use Rattle.conf_limits.specs.Measures.{model_narrow};
ghost use Rattle.conf_types.specs.Typing.{IsTypedModel};
ghost use Rattle.object_alloc.specs.Configurations.{IsConfiguration};
ghost use Rattle.object_alloc.specs.Walk.{objects as all_objects};
ghost use Rattle.view_breaks.specs.Breaks.{breaks, breaks_among, members_from, AreThere};

use conf_eval::{Env, Value, eval};
use conf_types::{Constraint, TypedModel};
use object_alloc::{Config, ObjectList, Objects};
use std::alloc::{AllocError, Global};

/// A constraint that doesn't hold for an object.
#[derive(Clone, Copy, Debug, PartialEq, Eq)]
pub struct Break {
    /// The constraint's number in order of place, from 0.
    pub constraint: u32,
    /// Its place in the model's text.
    pub place: u32,
    /// The object of its class; at the top level there is none.
    pub object: Option<u32>,
}

/// A configuration of a model's objects.
#[derive(Clone, Copy)]
struct Case<'a> {
    model: &'a TypedModel,
    objects: &'a Objects<'a>,
    config: &'a Config,
}

/// A constraint, with its number in order of place.
#[derive(Clone, Copy)]
struct Stated<'a> {
    number: u32,
    constraint: &'a Constraint,
}

/// The truth value, false where the value is none.
fn is_true(value: &Value) -> bool
    ensures truth { result ≡ truth_of value.now }
{
    match value {
        Value::Truth(truth) => *truth,
        Value::Int(_) | Value::Choice(_, _) | Value::Object(_) | Value::Objects(_) => false,
    }
}

/// Whether a constraint holds where this object is `this`.
fn holds_for(
    alloc: Global,
    case: &Case<'_>,
    constraint: &Constraint,
    this: Option<u32>,
) -> Result<bool, AllocError>
    requires config { IsConfiguration case.now.objects.now case.now.config.now }
    requires expr { IsEvaluable case.now.objects.now case.now.config.now constraint.now.tree
        (setting case.now.objects.now case.now.config.now this) }
    ensures holds { IfOk result (λ b. b ≡ holds_for case.now.objects.now case.now.config.now
        constraint.now this) }
{
    let env = Env {
        this_object: this,
        vars: ObjectList::of(Vec::new(alloc)),
    };
    let value = eval(
        alloc,
        case.model,
        case.objects,
        case.config,
        &env,
        &constraint.expr,
    )?;
    Ok(is_true(&value))
}

/// Adds the break of a constraint for an object, where it doesn't hold.
#[tactic(auto, using(crate::proofs::BreakLaws::among_fails, crate::proofs::BreakLaws::among_holds))]
fn push_broken(
    alloc: Global,
    found: &mut Vec<Break>,
    case: &Case<'_>,
    stated: &Stated<'_>,
    object: Option<u32>,
) -> Result<(), AllocError>
    requires config { IsConfiguration case.now.objects.now case.now.config.now }
    requires expr { IsEvaluable case.now.objects.now case.now.config.now
        stated.now.constraint.now.tree (setting case.now.objects.now case.now.config.now object) }
    ensures found { OnOk result (found.new.items ≡ found.old.items
        ++ breaks_among case.now.objects.now case.now.config.now stated.now.number
        stated.now.constraint.now (object ∷ [])) }
{
    let constraint = stated.constraint;
    if !holds_for(alloc, case, constraint, object)? {
        found.push(Break {
            constraint: stated.number,
            place: constraint.place,
            object,
        })?;
    }
    Ok(())
}

/// Adds the break of a constraint that is stated for a class for an object, where that is of the
/// class and it doesn't hold.
fn push_member(
    alloc: Global,
    found: &mut Vec<Break>,
    case: &Case<'_>,
    stated: &Stated<'_>,
    class: u32,
    object: u32,
) -> Result<(), AllocError>
    requires config { IsConfiguration case.now.objects.now case.now.config.now }
    requires stated { IsStatedFor case.now.objects.now case.now.config.now
        stated.now.constraint.now.tree (stated_for case.now.objects.now (Some class)) }
    requires object { object < length (all_objects case.now.objects.now) }
    ensures found { OnOk result (found.new.items
        ++ breaks_among case.now.objects.now case.now.config.now stated.now.number
        stated.now.constraint.now (members_from case.now.objects.now class (object + 1))
        ≡ found.old.items ++ breaks_among case.now.objects.now case.now.config.now
        stated.now.number stated.now.constraint.now
        (members_from case.now.objects.now class object)) }
{
    let member = case.objects.is_of(object, class);
    if !member {
        return Ok(());
    }
    push_broken(alloc, found, case, stated, Some(object))?;
    Ok(())
}

/// Adds the breaks of a constraint that is stated for a class.
#[tactic(auto, using(crate::proofs::BreakLaws::no_member_left))]
fn push_members(
    alloc: Global,
    found: &mut Vec<Break>,
    case: &Case<'_>,
    stated: &Stated<'_>,
    class: u32,
) -> Result<(), AllocError>
    requires config { IsConfiguration case.now.objects.now case.now.config.now }
    requires stated { IsStatedFor case.now.objects.now case.now.config.now
        stated.now.constraint.now.tree (stated_for case.now.objects.now (Some class)) }
    ensures found { OnOk result (found.new.items ≡ found.old.items
        ++ breaks_among case.now.objects.now case.now.config.now stated.now.number
        stated.now.constraint.now (stated_for case.now.objects.now (Some class))) }
{
    for object in 0..case.objects.count() {
        push_member(alloc, found, case, stated, class, object)?;
    }
    Ok(())
}

/// Adds the breaks of a constraint.
fn push_stated(
    alloc: Global,
    found: &mut Vec<Break>,
    case: &Case<'_>,
    number: u32,
    constraint: &Constraint,
) -> Result<(), AllocError>
    requires config { IsConfiguration case.now.objects.now case.now.config.now }
    requires stated { IsStated case.now.objects.now case.now.config.now constraint.now }
    ensures found { OnOk result (found.new.items ≡ found.old.items
        ++ breaks_among case.now.objects.now case.now.config.now number constraint.now
        (stated_for case.now.objects.now constraint.now.class)) }
{
    let stated = Stated { number, constraint };
    match constraint.class {
        Some(class) => push_members(alloc, found, case, &stated, class),
        None => push_broken(alloc, found, case, &stated, None),
    }
}

/// Adds the breaks of these constraints.
fn push_all(
    alloc: Global,
    found: &mut Vec<Break>,
    case: &Case<'_>,
    constraints: &[Constraint],
) -> Result<(), AllocError>
    requires config { IsConfiguration case.now.objects.now case.now.config.now }
    requires few { length constraints.now < 2 ^ 32 }
    requires stated { All (IsStated case.now.objects.now case.now.config.now) constraints.now }
    ensures found { OnOk result (found.new.items ≡ found.old.items
        ++ breaks case.now.objects.now case.now.config.now constraints.now) }
{
    for i in 0..constraints.len() {
        push_stated(alloc, found, case, i as u32, &constraints[i])?;
    }
    Ok(())
}

/// Each constraint that doesn't hold, with each object for which it doesn't: constraints in order
/// of place, objects in order of allocation.
///
/// # Errors
///
/// Where there is no memory left.
pub fn breaks_of(
    alloc: Global,
    model: &TypedModel,
    objects: &Objects<'_>,
    config: &Config,
) -> Result<Vec<Break>, AllocError>
    requires typed { IsTypedModel objects.now model.now.constraints model.now.goals }
    requires narrow { model_narrow objects.now model.now.constraints model.now.goals ≡ true }
    requires config { IsConfiguration objects.now config.now }
    requires few { length model.now.constraints < 2 ^ 32 }
    ensures breaks { IfOk result (λ found. found.items
        ≡ breaks objects.now config.now model.now.constraints) }
    ensures there { IfOk result (λ found. AreThere objects.now found.items) }
{
    let case = Case {
        model,
        objects,
        config,
    };
    let mut found = Vec::new(alloc);
    push_all(alloc, &mut found, &case, model.constraints())?;
    Ok(found)
}
