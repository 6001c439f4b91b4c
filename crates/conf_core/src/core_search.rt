//! The first search over a model, and what comes behind it where there is no configuration.
ghost use Rattle.std.specs.Prelude.{◌≡◌, ◌<◌, ◌^◌, ◌⊎◌, [], true, None, length, IfOk, OnOk, OnErr};
ghost use Rattle.conf_core.specs.declared.answer.CoreAnswer.TheVariants as answers;
ghost use Rattle.conf_core.specs.Cores.{BeginsSo, HasRound, IsAnswered};
ghost use Rattle.conf_core.specs.Parts.{ArePartRounds, IsPart};
ghost use Rattle.conf_core.specs.Searching.{EndsAccepted, HasGrown, IsCoreAnswer, IsNarrowed, IsShownAll};
ghost use Rattle.conf_core.specs.Suspects.{NoneOpen, is_kept, is_unsure, marked};
ghost use Rattle.conf_limits.specs.Measures.{model_narrow};
ghost use Rattle.conf_types.specs.Typing.{IsTypedModel};
ghost use Rattle.proof_log.specs.Rounds.{empty};
ghost use Rattle.log_check.specs.declared.verdict.VerdictKind.TheVariants as kinds;
ghost use Rattle.run_finder.specs.SoFar.{AreSoFar};

use crate::answer::CoreAnswer;
use crate::blame::{Blamed, blamed_by};
use crate::indexes::all_indexes;
use crate::narrowing::{Narrowing, narrowed};
use crate::part_search::{Subject, Tried, decide_part, try_part};
use crate::suspects::{Suspect, all_open, kept_indexes, open_indexes, unsure_indexes};
use conf_types::TypedModel;
use ground_model::Origins;
use log_check::VerdictKind;
use log_form::Indexes;
use object_alloc::Objects;
use proof_log::Journal;
use run_finder::Finder;
use std::alloc::{AllocError, Global};

/// Whether no configuration satisfies these constraints either: a search over them tells.
fn are_impossible<F: Finder>(
    with: Subject<'_>,
    list: &[u32],
    found: &mut Vec<i64>,
    finder: &mut F,
    journal: &mut Journal,
) -> Result<bool, AllocError>
    requires typed { IsTypedModel with.objects.now with.model.now.constraints
        with.model.now.goals }
    requires narrow { model_narrow with.objects.now with.model.now.constraints
        with.model.now.goals ≡ true }
    requires part { IsPart with.model.now.constraints list.now }
    requires budget { F.allowed finder.old ≡ with.budget }
    requires ground { journal.old.ground ≡ None }
    requires lines { journal.old.lines ≡ [] }
    ensures shown { IfOk result (λ yes. yes ≡ true
        → HasRound journal.new.rounds (λ part. part ≡ list.now) kinds.NoSolution) }
    ensures grown { HasGrown with.entry.objects.now with.entry.model.now.constraints
        with.entry.budget journal.old.rounds journal.new.rounds }
    ensures ground { OnOk result (journal.new.ground ≡ None) }
    ensures lines { OnOk result (journal.new.lines ≡ []) }
    ensures so_far { AreSoFar journal.new.lines }
    ensures budget { F.allowed finder.new ≡ F.allowed finder.old }
{
    let end = decide_part(with, list, found, finder, journal)?;
    Ok(end == VerdictKind::NoSolution)
}

/// The constraints that the last round blames, or all, where a search tells that some configuration
/// satisfies these.
#[tactic(auto, using(crate::proofs::Narrowings::fresh_narrowed, crate::proofs::Narrowings::all_narrowed, crate::proofs::Narrowings::kept_part, crate::proofs::Narrowings::shown_grown))]
fn suspected<F: Finder>(
    with: Subject<'_>,
    origins: &Origins,
    found: &mut Vec<i64>,
    finder: &mut F,
    journal: &mut Journal,
) -> Result<Blamed, AllocError>
    requires typed { IsTypedModel with.objects.now with.model.now.constraints
        with.model.now.goals }
    requires narrow { model_narrow with.objects.now with.model.now.constraints
        with.model.now.goals ≡ true }
    requires few { length with.model.now.constraints < 2 ^ 32 }
    requires all { IsShownAll with.model.now.constraints journal.old.rounds }
    requires accepted { EndsAccepted journal.old.rounds }
    requires budget { F.allowed finder.old ≡ with.budget }
    requires ground { journal.old.ground ≡ None }
    requires lines { journal.old.lines ≡ [] }
    ensures narrowed { IfOk result (λ b. IsNarrowed with.entry.model.now.constraints
        journal.new.rounds b.suspects.items) }
    ensures grown { HasGrown with.entry.objects.now with.entry.model.now.constraints
        with.entry.budget journal.old.rounds journal.new.rounds }
    ensures ground { OnOk result (journal.new.ground ≡ None) }
    ensures lines { OnOk result (journal.new.lines ≡ []) }
    ensures so_far { AreSoFar journal.new.lines }
    ensures budget { F.allowed finder.new ≡ F.allowed finder.old }
{
    let blamed = blamed_by(with.alloc, with.model.constraints(), origins, journal)?;
    let list = kept_indexes(with.alloc, &blamed.suspects)?;
    if are_impossible(with, &list, found, finder, journal)? {
        return Ok(blamed);
    }
    let suspects = all_open(with.alloc, with.model.constraints().len())?;
    Ok(Blamed {
        suspects,
        first: blamed.first,
    })
}

/// The core that these constraints are.
fn core_of(alloc: Global, suspects: &[Suspect]) -> Result<CoreAnswer, AllocError>
    requires few { length suspects.now < 2 ^ 32 }
    ensures { IfOk result (λ a. a ≡ answers.Core (marked is_kept 0 suspects.now)
        (marked is_unsure 0 suspects.now)) }
{
    let keep = kept_indexes(alloc, suspects)?;
    let unsure = unsure_indexes(alloc, suspects)?;
    Ok(CoreAnswer::Core {
        keep: Indexes::of(keep),
        unsure: Indexes::of(unsure),
    })
}

/// What is known of all constraints once none of them may be left out. Those that are to be first
/// are tried before the others, which are left out all at once to begin with.
#[tactic(auto, using(crate::proofs::Narrowings::none_open))]
fn all_settled<F: Finder>(
    with: Subject<'_>,
    blamed: Blamed,
    found: &mut Vec<i64>,
    finder: &mut F,
    journal: &mut Journal,
) -> Result<Vec<Suspect>, AllocError>
    requires typed { IsTypedModel with.objects.now with.model.now.constraints
        with.model.now.goals }
    requires narrow { model_narrow with.objects.now with.model.now.constraints
        with.model.now.goals ≡ true }
    requires few { length with.model.now.constraints < 2 ^ 32 }
    requires narrowed { IsNarrowed with.model.now.constraints journal.old.rounds
        blamed.suspects.items }
    requires budget { F.allowed finder.old ≡ with.budget }
    requires ground { journal.old.ground ≡ None }
    requires lines { journal.old.lines ≡ [] }
    ensures narrowed { IfOk result (λ ss. IsNarrowed with.entry.model.now.constraints
        journal.new.rounds ss.items) }
    ensures none_open { IfOk result (λ ss. NoneOpen ss.items) }
    ensures grown { HasGrown with.entry.objects.now with.entry.model.now.constraints
        with.entry.budget journal.old.rounds journal.new.rounds }
    ensures ground { OnOk result (journal.new.ground ≡ None) }
    ensures lines { OnOk result (journal.new.lines ≡ []) }
    ensures so_far { AreSoFar journal.new.lines }
    ensures budget { F.allowed finder.new ≡ F.allowed finder.old }
{
    let first = Narrowing {
        suspects: blamed.suspects,
        rest: blamed.first,
        chunk: 1,
    };
    let suspects = narrowed(with, first, found, finder, journal)?;
    let rest = open_indexes(with.alloc, &suspects)?;
    let chunk = rest.len().max(1);
    let last = Narrowing {
        suspects,
        rest,
        chunk,
    };
    let settled = narrowed(with, last, found, finder, journal)?;
    Ok(settled)
}

/// A core of a model over all of which a search has found no configuration.
fn blame<F: Finder>(
    with: Subject<'_>,
    origins: &Origins,
    found: &mut Vec<i64>,
    finder: &mut F,
    journal: &mut Journal,
) -> Result<CoreAnswer, AllocError>
    requires typed { IsTypedModel with.objects.now with.model.now.constraints
        with.model.now.goals }
    requires narrow { model_narrow with.objects.now with.model.now.constraints
        with.model.now.goals ≡ true }
    requires few { length with.model.now.constraints < 2 ^ 32 }
    requires all { IsShownAll with.model.now.constraints journal.old.rounds }
    requires accepted { EndsAccepted journal.old.rounds }
    requires rounds { ArePartRounds with.objects.now with.model.now.constraints with.budget
        journal.old.rounds }
    requires budget { F.allowed finder.old ≡ with.budget }
    requires ground { journal.old.ground ≡ None }
    requires lines { journal.old.lines ≡ [] }
    ensures core { IfOk result (λ a. IsCoreAnswer with.entry.objects.now
        with.entry.model.now.constraints journal.new.rounds a) }
    ensures grown { HasGrown with.entry.objects.now with.entry.model.now.constraints
        with.entry.budget journal.old.rounds journal.new.rounds }
    ensures ground { OnOk result (journal.new.ground ≡ None) }
    ensures lines { OnOk result (journal.new.lines ≡ []) }
    ensures so_far { AreSoFar journal.new.lines }
    ensures budget { F.allowed finder.new ≡ F.allowed finder.old }
{
    let blamed = suspected(with, origins, found, finder, journal)?;
    let suspects = all_settled(with, blamed, found, finder, journal)?;
    let answer = core_of(with.alloc, &suspects)?;
    Ok(answer)
}

/// The first search, over all of the model.
fn first_search<F: Finder>(
    with: Subject<'_>,
    found: &mut Vec<i64>,
    finder: &mut F,
    journal: &mut Journal,
) -> Result<Tried, AllocError>
    requires typed { IsTypedModel with.objects.now with.model.now.constraints
        with.model.now.goals }
    requires narrow { model_narrow with.objects.now with.model.now.constraints
        with.model.now.goals ≡ true }
    requires few { length with.model.now.constraints < 2 ^ 32 }
    requires budget { F.allowed finder.old ≡ with.budget }
    requires empty { journal.old ≡ empty }
    ensures begins { IfOk result (λ t. BeginsSo with.entry.model.now.constraints
        journal.new.rounds t.end) }
    ensures parts { IfOk result (λ t. ArePartRounds with.entry.objects.now
        with.entry.model.now.constraints with.entry.budget journal.new.rounds) }
    ensures accepted { IfOk result (λ t. EndsAccepted journal.new.rounds) }
    ensures all { IfOk result (λ t. t.end ≡ kinds.NoSolution
        → IsShownAll with.entry.model.now.constraints journal.new.rounds) }
    ensures none { OnErr result (journal.new.rounds ≡ []) }
    ensures ground { OnOk result (journal.new.ground ≡ None) }
    ensures lines { OnOk result (journal.new.lines ≡ []) }
    ensures so_far { AreSoFar journal.new.lines }
    ensures budget { F.allowed finder.new ≡ F.allowed finder.old }
{
    let all = all_indexes(with.alloc, with.model.constraints().len())?;
    let tried = try_part(with, all, found, finder, journal)?;
    Ok(tried)
}

/// Searches the whole model, and where it has no configuration finds out which constraints are to
/// blame. Each search is a round of the journal, over the constraints that the round's part names.
///
/// The constraints that the first search's log rests on are searched next; then some of them are
/// left out at a time. Each that stays was left out once.
///
/// # Errors
///
/// Want of memory: the rounds are those of the searches that ended before.
pub fn find_core<F: Finder>(
    alloc: Global,
    model: &TypedModel,
    objects: &Objects<'_>,
    finder: &mut F,
    journal: &mut Journal,
) -> Result<CoreAnswer, AllocError>
    requires typed { IsTypedModel objects.now model.now.constraints model.now.goals }
    requires narrow { model_narrow objects.now model.now.constraints model.now.goals ≡ true }
    requires few { length model.now.constraints < 2 ^ 32 }
    requires empty { journal.old ≡ empty }
    ensures answer { IfOk result (λ a. IsAnswered objects.now model.now.constraints
        journal.new.rounds a) }
    ensures rounds { ArePartRounds objects.now model.now.constraints (F.allowed finder.old)
        journal.new.rounds }
    ensures begun { OnErr result ((journal.new.rounds ≡ [])
        ⊎ BeginsSo model.now.constraints journal.new.rounds kinds.NoSolution) }
    ensures ground { OnOk result (journal.new.ground ≡ None) }
    ensures lines { OnOk result (journal.new.lines ≡ []) }
    ensures so_far { AreSoFar journal.new.lines }
    ensures budget { F.allowed finder.new ≡ F.allowed finder.old }
{
    let with = Subject {
        alloc,
        model,
        objects,
        budget: finder.budget(),
    };
    let mut found = Vec::new(alloc);
    let tried = first_search(with, &mut found, finder, journal)?;
    match tried.end {
        VerdictKind::Best => Ok(CoreAnswer::Solvable),
        VerdictKind::Open => Ok(CoreAnswer::Undecided),
        VerdictKind::NoSolution => {
            let answer = blame(with, &tried.origins, &mut found, finder, journal)?;
            Ok(answer)
        }
    }
}
