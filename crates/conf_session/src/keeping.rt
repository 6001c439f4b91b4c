//! Clauses that are kept, each stated once.
ghost use Rattle.std.specs.Prelude.{◌≡◌, ◌≤◌, ◌++◌, ◌∷◌, [], List, false, cond, drop, length, IfOk, OnOk};
ghost use Rattle.std.specs.List.{list_any};
ghost use Rattle.kept_clauses.specs.Kept.{derived, flagged};
ghost use Rattle.signed_clause.specs.Clauses.{Literals};
ghost use Rattle.conf_session.specs.Keeping.{with_kept, keeping};
ghost use Rattle.conf_session.specs.Keys.{AreKeysOf};

use crate::stated::{Stated, insert, stated_clauses};
use ground_form::{Con, Cons, Ground};
use log_form::Line;
use signed_clause::ClauseHandle;
use std::alloc::{AllocError, Global};

/// Adds a clause, where it doesn't stand yet and there is room for one. Answers what room is left.
#[tactic(auto, using(crate::proofs::KeptLaws::none_left, crate::proofs::KeptLaws::stood, crate::proofs::KeptLaws::one_more))]
fn add(
    alloc: Global,
    cons: &mut Vec<Con>,
    stated: &mut Stated,
    room: usize,
    clause: &ClauseHandle,
) -> Result<usize, AllocError>
    requires keys { AreKeysOf cons.old.items stated.old.keys }
    ensures keys { OnOk result (AreKeysOf cons.new.items stated.new.keys) }
    ensures cons { IfOk result (λ left. (cs : List Literals)
        → with_kept room cons.old.items (clause.now ∷ cs) ≡ with_kept left cons.new.items cs) }
{
    if room == 0 {
        return Ok(0);
    }
    let literals = clause.clause();
    if !insert(alloc, stated, literals)? {
        return Ok(room);
    }
    cons.push(Con::ClauseCon {
        clause: clause.copy()?,
    })?;
    Ok(room - 1)
}

/// Adds the clause that a line's chain leads to, where it is wanted.
fn add_derived(
    alloc: Global,
    cons: &mut Vec<Con>,
    stated: &mut Stated,
    room: usize,
    wanted: bool,
    line: &Line,
) -> Result<usize, AllocError>
    requires keys { AreKeysOf cons.old.items stated.old.keys }
    ensures keys { OnOk result (AreKeysOf cons.new.items stated.new.keys) }
    ensures cons { IfOk result (λ left. (cs : List Literals)
        → with_kept room cons.old.items (cond wanted (derived line.now) [] ++ cs)
        ≡ with_kept left cons.new.items cs) }
{
    if !wanted {
        return Ok(room);
    }
    match line {
        Line::Chain(_, clause) => add(alloc, cons, stated, room, clause),
        _ => Ok(room),
    }
}

/// Adds the clauses of the lines that are flagged.
fn add_flagged(
    alloc: Global,
    cons: &mut Vec<Con>,
    room: usize,
    flags: &[bool],
    lines: &[Line],
) -> Result<(), AllocError>
    requires { length lines.now ≤ length flags.now }
    ensures { OnOk result (cons.new.items
        ≡ with_kept room cons.old.items (flagged flags.now lines.now)) }
{
    let mut stated = stated_clauses(alloc, cons)?;
    let mut left = room;
    for k in 0..lines.len() {
        left = add_derived(alloc, cons, &mut stated, left, flags[k], &lines[k])?;
    }
    Ok(())
}

/// Whether some flag is set.
fn has_some(flags: &[bool]) -> bool
    ensures { result ≡ list_any (λ f. f) flags.now }
{
    for flag in flags {
        if *flag {
            return true;
        }
    }
    false
}

/// The problem with the clauses of the lines that are flagged behind its constraints, each where it
/// doesn't stand yet, and at most so many.
#[tactic(auto, using(crate::proofs::KeptLaws::none_flagged))]
pub(crate) fn with_kept(
    alloc: Global,
    g: Ground,
    room: usize,
    flags: &[bool],
    lines: &[Line],
) -> Result<Ground, AllocError>
    requires { length lines.now ≤ length flags.now }
    ensures { IfOk result (λ new. new ≡ keeping room g (flagged flags.now lines.now)) }
{
    if !has_some(flags) {
        return Ok(g);
    }
    let Ground {
        domains,
        search,
        cons,
        goals,
    } = g;
    let mut list = cons.into_items();
    add_flagged(alloc, &mut list, room, flags, lines)?;
    Ok(Ground {
        domains,
        search,
        cons: Cons::of(list),
        goals,
    })
}
