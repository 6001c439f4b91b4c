//! The ground problem of what is asked of a model.
ghost use Rattle.std.specs.Prelude.{◌≡◌, None, Some, true, option_copied, IfOk, IfSome};
ghost use Rattle.conf_limits.specs.Measures.{model_narrow};
ghost use Rattle.conf_types.specs.Typing.{IsTypedModel};
ghost use Rattle.ground_form.specs.WellMade.{IsWellMade};
ghost use Rattle.model_search.specs.Problems.{IsProblemOf};
ghost use Rattle.model_search.specs.Wanted.{IsUnderstood};

use crate::question::Question;
use conf_types::TypedModel;
use ground_form::Ground;
use ground_model::ground;
use object_alloc::Objects;
use reconfigure::{FailedError, Repair, with_changes};
use std::alloc::{AllocError, Global};

/// The ground problem of a model.
fn model_problem(
    alloc: Global,
    model: &TypedModel,
    objects: &Objects<'_>,
) -> Result<Ground, AllocError>
    requires typed { IsTypedModel objects.now model.now.constraints model.now.goals }
    requires narrow { model_narrow objects.now model.now.constraints model.now.goals ≡ true }
    ensures problem { IfOk result
        (λ g. IsProblemOf objects.now model.now.constraints model.now.goals None g) }
    ensures well_made { IfOk result (λ g. IsWellMade g) }
{
    let g = ground(alloc, model, objects)?;
    Ok(g)
}

/// The ground problem of a repair, made of that of the model.
fn repair_problem(
    alloc: Global,
    g: Ground,
    model: &TypedModel,
    objects: &Objects<'_>,
    repair: &Repair,
) -> Result<Ground, AllocError>
    requires problem { IsProblemOf objects.now model.now.constraints model.now.goals None g }
    requires understood { IsUnderstood objects.now repair.now }
    ensures problem { IfOk result (λ new. IsProblemOf objects.now model.now.constraints
        model.now.goals (Some repair.now) new) }
    ensures well_made { IfOk result (λ new. IsWellMade new) }
{
    match with_changes(alloc, g, objects, repair.former.items(), &repair.failed) {
        Ok(new) => Ok(new),
        Err(FailedError::UnknownObject(_)) => unreachable!(),
        Err(FailedError::Memory) => Err(AllocError),
    }
}

/// The ground problem of what is asked of a model.
///
/// # Errors
///
/// Want of memory.
pub fn problem_of(alloc: Global, question: Question<'_>) -> Result<Ground, AllocError>
    requires typed { IsTypedModel question.objects.now question.model.now.constraints
        question.model.now.goals }
    requires narrow { model_narrow question.objects.now question.model.now.constraints
        question.model.now.goals ≡ true }
    requires understood { IfSome (option_copied question.repair)
        (IsUnderstood question.objects.now) }
    ensures problem { IfOk result (λ g. IsProblemOf question.entry.objects.now
        question.entry.model.now.constraints question.entry.model.now.goals
        (option_copied question.entry.repair) g) }
    ensures well_made { IfOk result (λ g. IsWellMade g) }
{
    let g = model_problem(alloc, question.model, question.objects)?;
    match question.repair {
        Some(repair) => repair_problem(alloc, g, question.model, question.objects, repair),
        None => Ok(g),
    }
}
