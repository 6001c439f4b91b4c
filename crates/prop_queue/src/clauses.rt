//! The clauses of a problem, which are watched and not listed.
//!
//! A clause is opened only where a literal by which it rests is lost, so a change of a variable
//! costs the clauses that watch it and not all that name it.
ghost use Rattle.std.specs.Prelude.{◌≡◌, ◌<◌, ◌++◌, ◌||◌, ◌^◌, ℕ, List, true, false, not, Some, is_some, length, slice_get, IfOk, OnOk, IfSome};
ghost use Rattle.std.specs.List.{All};
ghost use Rattle.signed_clause.specs.Clauses.{Literals};
ghost use Rattle.ground_form.specs.declared.con.Con.{Con};
ghost use Rattle.ground_form.specs.Meaning.{vars_of};
ghost use Rattle.ground_form.specs.WellMade.{IsWellMade};
ghost use Rattle.rule_law.specs.Answers.{AreBoxesWithin, IsPruning};
ghost use Rattle.clause_watches.specs.declared.rest.Rest.TheVariants as rest;
ghost use Rattle.clause_watches.specs.Watching.{acts, rest_of};
ghost use Rattle.prop_queue.specs.Work.{is_clause, literals_of, own_clause, clauses_from, IsActingAt};

use clause_watches::Watches;
use ground_form::{Con, Ground};
use rule_law::own_reason;
use signed_clause::{Clause, IntSet};
use std::alloc::{AllocError, Global};

/// Watches constraint `k`, where it is a clause.
fn watch(clauses: &mut Watches, k: u32, con: &Con) -> Result<(), AllocError>
    requires { All (λ x. x < clauses.old.variables) (vars_of con.now) }
    ensures variables { clauses.new.variables ≡ clauses.old.variables }
    ensures added { OnOk result (clauses.new.added ≡ clauses.old.added ++ own_clause k con.now) }
    ensures listed { OnOk result (((i : ℕ) → rest_of clauses.old.rests i ≡ rest.Listed)
        → (i : ℕ) → rest_of clauses.new.rests i ≡ rest.Listed) }
{
    match con {
        Con::ClauseCon { clause } => clauses.add(u64::from(k), clause.copy()?),
        _ => Ok(()),
    }
}

/// Watches all clauses of a problem, each by the number of its constraint. All of them are to be
/// looked at.
///
/// # Errors
/// Want of memory.
pub fn watch_all(alloc: Global, cons: &[Con], domains: &[IntSet]) -> Result<Watches, AllocError>
    requires few { length cons.now < 2 ^ 32 }
    requires named { All (λ con. All (λ x. x < length domains.now) (vars_of con)) cons.now }
    ensures variables { IfOk result (λ w. w.variables ≡ length domains.now) }
    ensures added { IfOk result (λ w. w.added ≡ clauses_from 0 cons.now) }
    ensures listed { IfOk result (λ w. (i : ℕ) → rest_of w.rests i ≡ rest.Listed) }
{
    let mut clauses = Watches::new(alloc, domains)?;
    for k in 0..cons.len() {
        watch(&mut clauses, k as u32, &cons[k])?;
    }
    Ok(clauses)
}

/// The clause that constraint `n` is.
fn clause_at(cons: &[Con], n: usize) -> &Clause
    requires there { n < length cons.now }
    requires clause { (con : Con) → slice_get cons.now n ≡ Some con → is_clause con ≡ true }
    ensures { (con : Con) → slice_get cons.now n ≡ Some con → result.now ≡ literals_of con }
{
    match &cons[n] {
        Con::ClauseCon { clause } => clause.clause(),
        _ => unreachable!(),
    }
}

/// Constraint `n`, a clause that is false in the boxes or unit, and what it says: itself.
///
/// # Errors
/// Want of memory.
pub fn reason_of(g: &Ground, n: u64, boxes: &[IntSet]) -> Result<(u32, Clause), AllocError>
    requires well_made { IsWellMade g.now }
    requires boxes { AreBoxesWithin g.now.domains boxes.now }
    requires acting { IsActingAt g.now.cons boxes.now n }
    ensures number { IfOk result (λ a. a.0 ≡ n) }
    ensures there { IfOk result (λ a. a.0 < length g.now.cons) }
    ensures pruning { IfOk result (λ a. (con : Con) → slice_get g.now.cons a.0 ≡ Some con
        → IsPruning con g.now.domains boxes.now a.1) }
{
    let clause = clause_at(g.cons.items(), n as usize);
    let reason = own_reason(clause, g.domains.items(), boxes)?;
    Ok((n as u32, reason))
}
