//! What a verdict tells of a model's configurations.
ghost use Rattle.std.specs.Prelude.{◌≡◌, ◌≤◌, take, length, option_copied, IfOk, IfSome};
ghost use Rattle.log_check.specs.Soundness.{Means, FoundSolves};
ghost use Rattle.log_check.specs.Kinds.{shown_of};
ghost use Rattle.model_search.specs.Findings.{finding, Tells};
ghost use Rattle.model_search.specs.Problems.{IsProblemOf};

use crate::question::Question;
use ground_cells::configurations_are_points;
use ground_form::Ground;
use log_check::{Verdict, VerdictKind};
use object_alloc::Config;
use std::alloc::{AllocError, Global};

/// What is known of a model's configurations. One is wanted that satisfies the model, and of a
/// repair names nothing that failed.
#[derive(Drop)]
pub enum Finding {
    /// This one is wanted, and no wanted one is better.
    Best(Config),
    /// None is wanted.
    NoneExists,
    /// Neither is shown; this one, where there is one, is wanted.
    Open(Option<Config>),
}

/// The configuration of which these values begin with the values.
fn front_of(alloc: Global, g: &Ground, values: &[i64]) -> Result<Config, AllocError>
    requires { g.now.search ≤ length values.now }
    ensures { IfOk result (λ t. t ≡ take g.now.search values.now) }
{
    let front = values[..g.search as usize].to_vec(alloc)?;
    Ok(Config::of(front))
}

/// What a verdict over a ground problem tells.
fn told_of(alloc: Global, g: &Ground, verdict: &Verdict) -> Result<Finding, AllocError>
    requires long { IfSome verdict.now.found (λ a. g.now.search ≤ length a) }
    ensures finding { IfOk result (λ f. f ≡ finding g.now verdict.now) }
{
    let last = match verdict.values() {
        Some(values) => Some(front_of(alloc, g, values)?),
        None => None,
    };
    let told = match (verdict.kind(), last) {
        (VerdictKind::Best, Some(config)) => Finding::Best(config),
        (VerdictKind::NoSolution, _) => Finding::NoneExists,
        (_, last) => Finding::Open(last),
    };
    Ok(told)
}

/// What a verdict over the ground problem of a question tells.
#[tactic(auto, using(crate::proofs::Solutions::tells_as, crate::proofs::Solutions::long_enough))]
pub fn finding_of(
    alloc: Global,
    question: Question<'_>,
    g: &Ground,
    verdict: &Verdict,
) -> Result<Finding, AllocError>
    requires problem { IsProblemOf question.objects.now question.model.now.constraints
        question.model.now.goals (option_copied question.repair) g.now }
    requires sound { Means g.now (shown_of verdict.now) }
    requires found { FoundSolves g.now verdict.now.found }
    ensures finding { IfOk result (λ f. f ≡ finding g.now verdict.now) }
    ensures tells { IfOk result (λ f. Tells question.entry.objects.now
        question.entry.model.now.constraints question.entry.model.now.goals
        (option_copied question.entry.repair) f) }
{
    configurations_are_points(question.objects);
    let told = told_of(alloc, g, verdict)?;
    Ok(told)
}
