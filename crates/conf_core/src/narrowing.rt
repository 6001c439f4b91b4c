//! From constraints that no configuration satisfies to an irreducible list of them.
//!
//! Constraints are left out some at a time. Where the others have no configuration either they stay
//! out, and twice as many are tried next; else half as many, and a single one without which the
//! others have a configuration, or aren't decided, is settled: it stays.
ghost use Rattle.std.specs.Prelude.{◌≡◌, ◌≤◌, ◌<◌, ◌+◌, ◌*◌, ◌^◌, [], List, None, true, drop, length, slice_index_or, take, IfOk, OnOk};
ghost use Rattle.conf_core.specs.Cores.{HasRound};
ghost use Rattle.conf_core.specs.Searching.{HasGrown, IsNarrowed, end_without};
ghost use Rattle.conf_core.specs.Suspects.{AreTried, IsSettled, cleared, is_kept, marked};
ghost use Rattle.conf_core.specs.declared.suspects.Suspect.TheVariants as suspect;
ghost use Rattle.conf_limits.specs.Measures.{model_narrow};
ghost use Rattle.conf_types.specs.Programs.{ResolvedConstraint};
ghost use Rattle.conf_types.specs.Typing.{IsTypedModel};
ghost use Rattle.proof_log.specs.declared.journal.Round.{Round as ARound};
ghost use Rattle.run_finder.specs.SoFar.{AreSoFar};

use crate::part_search::{Subject, decide_part};
use crate::suspects::{Suspect, kept_indexes, settle, with_cleared};
use log_check::VerdictKind;
use proof_log::Journal;
use run_finder::Finder;
use std::alloc::{AllocError, Global};

/// What is known of each constraint, which of them are left out next, and how many at a time.
#[derive(Drop)]
pub(crate) struct Narrowing {
    pub suspects: Vec<Suspect>,
    pub rest: Vec<u32>,
    pub chunk: usize,
}

/// The first of them.
fn first_of(rest: &[u32]) -> u32
    requires { 1 ≤ length rest.now }
    ensures { result ≡ slice_index_or rest.now 0 0 }
{
    rest[0]
}

/// The first of the rest is settled, and these others are left.
#[tactic(auto, using(crate::proofs::Narrowings::narrowed_first, crate::proofs::Narrowings::tried_first))]
fn with_settled(n: Narrowing, others: Vec<u32>, one: Suspect) -> Narrowing
    requires some { 1 ≤ length n.rest.items }
    requires others { others.items ≡ drop 1 n.rest.items }
    requires settled { IsSettled one }
    ensures narrowed { (ks : List ResolvedConstraint) (rounds : List ARound)
        → IsNarrowed ks rounds n.suspects.items
        → HasRound rounds (λ part. part
        ≡ marked is_kept 0 (cleared n.suspects.items (take 1 n.rest.items))) (end_without one)
        → IsNarrowed ks rounds result.suspects.items }
    ensures tried { AreTried n.suspects.items n.rest.items result.suspects.items
        result.rest.items }
    ensures rest { result.rest.items ≡ others.items }
    ensures chunk { result.chunk ≡ 1 }
{
    let index = first_of(&n.rest);
    let mut suspects = n.suspects;
    settle(&mut suspects, index, one);
    Narrowing {
        suspects,
        rest: others,
        chunk: 1,
    }
}

/// What a search has come to without which the first constraints of the rest can't be left out:
/// fewer of them are tried next, or a single one is settled.
#[tactic(auto, using(crate::proofs::SuspectLaws::tried_same))]
fn kept(n: Narrowing, others: Vec<u32>, size: usize, one: Suspect) -> Narrowing
    requires some { 1 ≤ size }
    requires chunk { size ≤ n.chunk }
    requires there { size ≤ length n.rest.items }
    requires others { others.items ≡ drop size n.rest.items }
    requires settled { IsSettled one }
    ensures narrowed { (ks : List ResolvedConstraint) (rounds : List ARound)
        → IsNarrowed ks rounds n.suspects.items
        → HasRound rounds (λ part. part
        ≡ marked is_kept 0 (cleared n.suspects.items (take size n.rest.items))) (end_without one)
        → IsNarrowed ks rounds result.suspects.items }
    ensures tried { AreTried n.suspects.items n.rest.items result.suspects.items
        result.rest.items }
    ensures some { 1 ≤ result.chunk }
    ensures less { 3 * length result.rest.items + result.chunk
        < 3 * length n.rest.items + n.chunk }
{
    if size > 1 {
        return Narrowing {
            suspects: n.suspects,
            rest: n.rest,
            chunk: size / 2,
        };
    }
    with_settled(n, others, one)
}

/// What a search without the first constraints of the rest has come to: `fewer` is what is known
/// where they stay out.
#[tactic(auto, using(crate::proofs::Narrowings::narrowed_cleared, crate::proofs::SuspectLaws::tried_cut))]
fn behind(
    n: Narrowing,
    fewer: Vec<Suspect>,
    others: Vec<u32>,
    size: usize,
    end: VerdictKind,
) -> Narrowing
    requires some { 1 ≤ size }
    requires chunk { size ≤ n.chunk }
    requires there { size ≤ length n.rest.items }
    requires fewer { fewer.items ≡ cleared n.suspects.items (take size n.rest.items) }
    requires others { others.items ≡ drop size n.rest.items }
    ensures narrowed { (ks : List ResolvedConstraint) (rounds : List ARound)
        → IsNarrowed ks rounds n.suspects.items
        → HasRound rounds (λ part. part
        ≡ marked is_kept 0 (cleared n.suspects.items (take size n.rest.items))) end
        → IsNarrowed ks rounds result.suspects.items }
    ensures tried { AreTried n.suspects.items n.rest.items result.suspects.items
        result.rest.items }
    ensures some { 1 ≤ result.chunk }
    ensures less { 3 * length result.rest.items + result.chunk
        < 3 * length n.rest.items + n.chunk }
{
    match end {
        VerdictKind::NoSolution => Narrowing {
            suspects: fewer,
            rest: others,
            chunk: size.saturating_mul(2),
        },
        VerdictKind::Best => kept(n, others, size, Suspect::Needed),
        VerdictKind::Open => kept(n, others, size, Suspect::Unsure),
    }
}

/// What stands behind the first so many of them.
fn behind_first(alloc: Global, rest: &[u32], size: usize) -> Result<Vec<u32>, AllocError>
    requires { size ≤ length rest.now }
    ensures { IfOk result (λ others. others.items ≡ drop size rest.now) }
{
    rest[size..].to_vec(alloc)
}

/// What is known where the first so many of the rest are cleared.
fn without_first(
    alloc: Global,
    suspects: &[Suspect],
    rest: &[u32],
    size: usize,
) -> Result<Vec<Suspect>, AllocError>
    requires { size ≤ length rest.now }
    ensures { IfOk result (λ new. new.items ≡ cleared suspects.now (take size rest.now)) }
{
    with_cleared(alloc, suspects, &rest[..size])
}

/// One search more: without the first constraints of the rest.
#[tactic(auto, using(crate::proofs::Narrowings::narrowed_grown, crate::proofs::Narrowings::cleared_part))]
fn step<F: Finder>(
    with: Subject<'_>,
    n: Narrowing,
    found: &mut Vec<i64>,
    finder: &mut F,
    journal: &mut Journal,
) -> Result<Narrowing, AllocError>
    requires typed { IsTypedModel with.objects.now with.model.now.constraints
        with.model.now.goals }
    requires narrow { model_narrow with.objects.now with.model.now.constraints
        with.model.now.goals ≡ true }
    requires few { length with.model.now.constraints < 2 ^ 32 }
    requires narrowed { IsNarrowed with.model.now.constraints journal.old.rounds
        n.suspects.items }
    requires left { 1 ≤ length n.rest.items }
    requires some { 1 ≤ n.chunk }
    requires budget { F.allowed finder.old ≡ with.budget }
    requires ground { journal.old.ground ≡ None }
    requires lines { journal.old.lines ≡ [] }
    ensures narrowed { IfOk result (λ new. IsNarrowed with.entry.model.now.constraints
        journal.new.rounds new.suspects.items) }
    ensures tried { IfOk result (λ new. AreTried n.suspects.items n.rest.items
        new.suspects.items new.rest.items) }
    ensures some { IfOk result (λ new. 1 ≤ new.chunk) }
    ensures less { IfOk result (λ new. 3 * length new.rest.items + new.chunk
        < 3 * length n.rest.items + n.chunk) }
    ensures grown { HasGrown with.entry.objects.now with.entry.model.now.constraints
        with.entry.budget journal.old.rounds journal.new.rounds }
    ensures ground { OnOk result (journal.new.ground ≡ None) }
    ensures lines { OnOk result (journal.new.lines ≡ []) }
    ensures so_far { AreSoFar journal.new.lines }
    ensures budget { F.allowed finder.new ≡ F.allowed finder.old }
{
    let size = n.chunk.min(n.rest.len());
    let fewer = without_first(with.alloc, &n.suspects, &n.rest, size)?;
    let others = behind_first(with.alloc, &n.rest, size)?;
    let part = kept_indexes(with.alloc, &fewer)?;
    let end = decide_part(with, &part, found, finder, journal)?;
    Ok(behind(n, fewer, others, size, end))
}

/// Searches until none of the rest may be left out.
pub(crate) fn narrowed<F: Finder>(
    with: Subject<'_>,
    first: Narrowing,
    found: &mut Vec<i64>,
    finder: &mut F,
    journal: &mut Journal,
) -> Result<Vec<Suspect>, AllocError>
    requires typed { IsTypedModel with.objects.now with.model.now.constraints
        with.model.now.goals }
    requires narrow { model_narrow with.objects.now with.model.now.constraints
        with.model.now.goals ≡ true }
    requires few { length with.model.now.constraints < 2 ^ 32 }
    requires narrowed { IsNarrowed with.model.now.constraints journal.old.rounds
        first.suspects.items }
    requires some { 1 ≤ first.chunk }
    requires budget { F.allowed finder.old ≡ with.budget }
    requires ground { journal.old.ground ≡ None }
    requires lines { journal.old.lines ≡ [] }
    ensures narrowed { IfOk result (λ ss. IsNarrowed with.entry.model.now.constraints
        journal.new.rounds ss.items) }
    ensures tried { IfOk result (λ ss. AreTried first.suspects.items first.rest.items ss.items
        []) }
    ensures grown { HasGrown with.entry.objects.now with.entry.model.now.constraints
        with.entry.budget journal.old.rounds journal.new.rounds }
    ensures ground { OnOk result (journal.new.ground ≡ None) }
    ensures lines { OnOk result (journal.new.lines ≡ []) }
    ensures so_far { AreSoFar journal.new.lines }
    ensures budget { F.allowed finder.new ≡ F.allowed finder.old }
{
    let mut n = first;
    while !n.rest.is_empty() {
        n = step(with, n, found, finder, journal)?;
    }
    Ok(n.suspects)
}
