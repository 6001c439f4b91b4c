//! Clauses by number. `owned` asks whether a clause that is kept is owned twice, and is the same;
//! `numbers` for the numbers of three clauses, what is found under the numbers 0 to 4, and the
//! steps of a chain.
use numbered_clauses::{Chain, ChainSteps, Clauses};
use signed_clause::{Clause, ClauseHandle, IntSet};
use std::alloc::{AllocError, Global};
use test_case_files::push_word;

/// The clause that variable `x` is `v`, with one owner.
fn clause_of(alloc: Global, x: u32, v: i64) -> Result<ClauseHandle, AllocError> {
    let set = IntSet::range(alloc, v, v);
    let literals = vec![in alloc; (x, set)]?;
    let clause = Clause::of(literals).map_err(|_| AllocError)?;
    ClauseHandle::of(alloc, clause).map_err(|_| AllocError)
}

/// Whether a clause that is kept is owned twice, one that isn't is owned once, and the one that is
/// kept is the same.
pub(crate) fn owned_twice(alloc: Global) -> Result<String, AllocError> {
    let mut clauses = Clauses::new(alloc);
    let clause = clause_of(alloc, 2, 7)?;
    clauses.push(clause.copy()?)?;
    let Err(clause) = clause.into_clause() else {
        return String::from_str(alloc, "owned once");
    };
    let alone = clause_of(alloc, 2, 7)?.into_clause().is_ok();
    let same = match clauses.get(0) {
        Some(kept) => kept.same(clause.clause()),
        None => false,
    };
    format!(in alloc; "owned twice, the other once {alone}, the same {same}")
}

/// The variable of the clause of a number, and how many literals it has behind its handle.
fn found_at(alloc: Global, clauses: &Clauses, k: u64) -> Result<String, AllocError> {
    let variable = match clauses.get(k) {
        Some(clause) => clause.literals().first().map(|l| l.0),
        None => None,
    };
    let count = clauses.handle(k).map(|c| c.clause().literals().len());
    format!(in alloc; "{variable:?}-{count:?}")
}

/// Three clauses by number, and the steps of a chain.
pub(crate) fn found(alloc: Global) -> Result<String, AllocError> {
    let mut clauses = Clauses::new(alloc);
    let mut text = String::new(alloc);
    for k in 0..3u32 {
        let clause = clause_of(alloc, k, 7)?;
        let number = clauses.push(clause)?;
        push_word(&mut text, &format!(in alloc; "{number}")?)?;
    }
    for k in 0..5u64 {
        push_word(&mut text, &found_at(alloc, &clauses, k)?)?;
    }
    let count = clauses.count();
    push_word(&mut text, &format!(in alloc; "of {count}")?)?;
    push_word(&mut text, &steps(alloc)?)?;
    Ok(text)
}

/// The steps of a chain, and how many a copy has.
fn steps(alloc: Global) -> Result<String, AllocError> {
    let steps = ChainSteps::of(vec![in alloc; (0u32, 4u64), (2, 1)]?);
    let chain = Chain {
        first: 9,
        steps: steps.copy()?,
    };
    let items = chain.steps.items();
    let text = format!(in alloc; "{items:?}")?;
    let count = steps.into_items().len();
    format!(in alloc; "{text} {count}")
}
