//! A search over a part of a model, which is a round of the journal.
ghost use Rattle.std.specs.Prelude.{◌≡◌, [], true, None, length, IfOk, OnOk, OnErr};
ghost use Rattle.conf_core.specs.Parts.{IsPart};
ghost use Rattle.conf_core.specs.Cores.{HasRound};
ghost use Rattle.conf_core.specs.Searching.{HasClosed, HasGrown, HasTried};
ghost use Rattle.conf_limits.specs.Measures.{model_narrow};
ghost use Rattle.conf_types.specs.Typing.{IsTypedModel};
ghost use Rattle.ground_form.specs.WellMade.{IsWellMade};
ghost use Rattle.model_search.specs.Problems.{IsProblemOf};
ghost use Rattle.run_finder.specs.SoFar.{AreSoFar};

use conf_types::TypedModel;
use ground_form::Ground;
use ground_model::{Origins, ground_with_origins};
use log_check::{Verdict, VerdictKind};
use model_search::{Question, last_round, round_is_run};
use object_alloc::Objects;
use proof_log::Journal;
use run_finder::Finder;
use std::alloc::{AllocError, Global};

/// A model whose parts are searched, with its objects, and how many decisions a search may take.
#[derive(Clone, Copy)]
pub(crate) struct Subject<'a> {
    pub alloc: Global,
    pub model: &'a TypedModel,
    pub objects: &'a Objects<'a>,
    pub budget: u32,
}

/// How the search over a part ended, and for which of its constraints each of the problem's was
/// stated.
#[derive(Drop)]
pub(crate) struct Tried {
    pub end: VerdictKind,
    pub origins: Origins,
}

/// The question which configurations satisfy a model.
fn question_about<'a>(model: &'a TypedModel, objects: &'a Objects<'a>) -> Question<'a>
    ensures model { result.model ≡ model.entry }
    ensures objects { result.objects ≡ objects.entry }
    ensures repair { result.repair ≡ None }
{
    Question {
        model,
        objects,
        repair: None,
    }
}

/// The ground problem of a part.
fn problem_of(
    with: Subject<'_>,
    part: &TypedModel,
    origins: &mut Origins,
) -> Result<Ground, AllocError>
    requires typed { IsTypedModel with.objects.now part.now.constraints part.now.goals }
    requires narrow { model_narrow with.objects.now part.now.constraints part.now.goals ≡ true }
    ensures problem { IfOk result (λ g. IsProblemOf with.entry.objects.now part.now.constraints
        part.now.goals None g) }
    ensures well_made { IfOk result (λ g. IsWellMade g) }
{
    let g = ground_with_origins(with.alloc, part, with.objects, origins)?;
    Ok(g)
}

/// Values to go by, for so many variables: those that another part's search found, where it found
/// so many.
fn hints_from(alloc: Global, found: &[i64], count: u32) -> Result<Vec<Option<i64>>, AllocError>
    ensures { IfOk result (λ hints. length hints.items ≡ count) }
{
    let mut hints = Vec::new(alloc);
    for k in 0..count as usize {
        hints.push(found.get(k).copied())?;
    }
    Ok(hints)
}

/// Notes which values a search found last, if any.
fn note_found(found: &mut Vec<i64>, verdict: &Verdict) -> Result<(), AllocError> {
    if let Some(values) = verdict.values() {
        found.clear();
        found.extend_from_slice(values)?;
    }
    Ok(())
}

/// Searches the problem of a part, without objectives, and closes the round: by the values that
/// were found last, which mostly break only what wasn't in that part. With the verdict comes for
/// which constraints of the part each of the problem's was stated.
#[tactic(auto, using(crate::proofs::Rounds::none_so_far, crate::proofs::Rounds::run_so_far))]
fn closed_round<F: Finder>(
    with: Subject<'_>,
    model: &TypedModel,
    part: Vec<u32>,
    found: &mut Vec<i64>,
    finder: &mut F,
    journal: &mut Journal,
) -> Result<(Verdict, Origins), AllocError>
    requires typed { IsTypedModel with.objects.now model.now.constraints model.now.goals }
    requires narrow { model_narrow with.objects.now model.now.constraints model.now.goals ≡ true }
    requires goals { model.now.goals ≡ [] }
    requires budget { F.allowed finder.old ≡ with.budget }
    requires ground { journal.old.ground ≡ None }
    requires lines { journal.old.lines ≡ [] }
    ensures closed { IfOk result (λ r. HasClosed with.entry.objects.now model.now.constraints
        with.entry.budget part.items journal.old.rounds journal.new.rounds r.0) }
    ensures rounds { OnErr result (journal.new.rounds ≡ journal.old.rounds) }
    ensures ground { OnOk result (journal.new.ground ≡ None) }
    ensures lines { OnOk result (journal.new.lines ≡ []) }
    ensures so_far { AreSoFar journal.new.lines }
    ensures budget { F.allowed finder.new ≡ F.allowed finder.old }
{
    let mut origins = Origins::new(with.alloc);
    let g = problem_of(with, model, &mut origins)?;
    let hints = hints_from(with.alloc, found, g.search)?;
    let verdict = finder.find(g, &hints, journal)?;
    note_found(found, &verdict)?;
    journal.close_part(part)?;
    Ok((verdict, origins))
}

/// Searches a part of the model, which is then the journal's last round.
///
/// # Errors
/// Want of memory: the rounds are as before.
pub(crate) fn try_part<F: Finder>(
    with: Subject<'_>,
    part: Vec<u32>,
    found: &mut Vec<i64>,
    finder: &mut F,
    journal: &mut Journal,
) -> Result<Tried, AllocError>
    requires typed { IsTypedModel with.objects.now with.model.now.constraints
        with.model.now.goals }
    requires narrow { model_narrow with.objects.now with.model.now.constraints
        with.model.now.goals ≡ true }
    requires part { IsPart with.model.now.constraints part.items }
    requires budget { F.allowed finder.old ≡ with.budget }
    requires ground { journal.old.ground ≡ None }
    requires lines { journal.old.lines ≡ [] }
    ensures tried { IfOk result (λ t. HasTried with.entry.objects.now
        with.entry.model.now.constraints with.entry.budget part.items journal.old.rounds
        journal.new.rounds t.end) }
    ensures rounds { OnErr result (journal.new.rounds ≡ journal.old.rounds) }
    ensures ground { OnOk result (journal.new.ground ≡ None) }
    ensures lines { OnOk result (journal.new.lines ≡ []) }
    ensures so_far { AreSoFar journal.new.lines }
    ensures budget { F.allowed finder.new ≡ F.allowed finder.old }
{
    let model = with.model.only(with.alloc, &part)?;
    let (verdict, origins) = closed_round(with, &model, part, found, finder, journal)?;
    let round = last_round(journal);
    round_is_run(
        question_about(&model, with.objects),
        round,
        &verdict,
        with.budget,
    );
    let end = verdict.kind();
    Ok(Tried { end, origins })
}

/// How the search over a part ended, which is then the journal's last round.
#[tactic(auto, using(crate::proofs::Rounds::tried_round, crate::proofs::Rounds::tried_grown, crate::proofs::Rounds::same_grown))]
fn part_end<F: Finder>(
    with: Subject<'_>,
    part: &[u32],
    found: &mut Vec<i64>,
    finder: &mut F,
    journal: &mut Journal,
) -> Result<VerdictKind, AllocError>
    requires typed { IsTypedModel with.objects.now with.model.now.constraints
        with.model.now.goals }
    requires narrow { model_narrow with.objects.now with.model.now.constraints
        with.model.now.goals ≡ true }
    requires part { IsPart with.model.now.constraints part.now }
    requires budget { F.allowed finder.old ≡ with.budget }
    requires ground { journal.old.ground ≡ None }
    requires lines { journal.old.lines ≡ [] }
    ensures tried { IfOk result (λ end. HasRound journal.new.rounds (λ p. p ≡ part.now) end) }
    ensures grown { HasGrown with.entry.objects.now with.entry.model.now.constraints
        with.entry.budget journal.old.rounds journal.new.rounds }
    ensures ground { OnOk result (journal.new.ground ≡ None) }
    ensures lines { OnOk result (journal.new.lines ≡ []) }
    ensures so_far { AreSoFar journal.new.lines }
    ensures budget { F.allowed finder.new ≡ F.allowed finder.old }
{
    let tried = try_part(with, part.to_vec(with.alloc)?, found, finder, journal)?;
    Ok(tried.end)
}

/// Whether the finder decides by another order from now on: where a search was undecided, and it
/// has one.
fn turned<F: Finder>(end: VerdictKind, finder: &mut F) -> bool
    ensures budget { F.allowed finder.new ≡ F.allowed finder.old }
{
    match end {
        VerdictKind::Open => finder.next_order(),
        _ => false,
    }
}

/// How the search over a part ended. Where it is undecided the part is searched once more by
/// another order, if the finder has one. It goes on by the order that decided.
///
/// # Errors
/// Want of memory.
pub(crate) fn decide_part<F: Finder>(
    with: Subject<'_>,
    part: &[u32],
    found: &mut Vec<i64>,
    finder: &mut F,
    journal: &mut Journal,
) -> Result<VerdictKind, AllocError>
    requires typed { IsTypedModel with.objects.now with.model.now.constraints
        with.model.now.goals }
    requires narrow { model_narrow with.objects.now with.model.now.constraints
        with.model.now.goals ≡ true }
    requires part { IsPart with.model.now.constraints part.now }
    requires budget { F.allowed finder.old ≡ with.budget }
    requires ground { journal.old.ground ≡ None }
    requires lines { journal.old.lines ≡ [] }
    ensures tried { IfOk result (λ end. HasRound journal.new.rounds (λ p. p ≡ part.now) end) }
    ensures grown { HasGrown with.entry.objects.now with.entry.model.now.constraints
        with.entry.budget journal.old.rounds journal.new.rounds }
    ensures ground { OnOk result (journal.new.ground ≡ None) }
    ensures lines { OnOk result (journal.new.lines ≡ []) }
    ensures so_far { AreSoFar journal.new.lines }
    ensures budget { F.allowed finder.new ≡ F.allowed finder.old }
{
    let end = part_end(with, part, found, finder, journal)?;
    if !turned(end, finder) {
        return Ok(end);
    }
    let again = part_end(with, part, found, finder, journal)?;
    let _back = turned(again, finder);
    Ok(again)
}
