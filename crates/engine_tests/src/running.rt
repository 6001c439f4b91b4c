//! What cases ask of running clauses and handles of clauses.
//!
//! - `chain CLAUSE | VARIABLE CLAUSE | ..`: the clause of the chain of these steps on one table,
//!   which has to be that of the same chain on lists. One table serves all chains.
//! - `loaded CLAUSE | VARIABLE ..`: whether the table covers the clause, and which of the variables
//!   it has once the clause is loaded, and then once it is cleared.
//! - `owners CLAUSE`: the clause, where two owners have it and the second becomes its one owner
//!   once the first is gone.
use crate::given::{answer_of, two_lists};
use running_clause::RunningClause;
use signed_clause::{Clause, ClauseHandle, resolve};
use std::alloc::{AllocError, Global};
use test_case_files::{Case, Subject, push_word, words_of};
use test_problems::{Unread, clause_of, clause_text, variable};

/// One table of six variables.
#[derive(Drop)]
pub(crate) struct Running {
    table: RunningClause,
}

impl Running {
    /// An empty one.
    pub(crate) fn new(alloc: Global) -> Result<Running, AllocError> {
        let table = RunningClause::new(alloc, 6)?;
        Ok(Running { table })
    }
}

/// Resolves the table and the list alike; None where one of them lacks the variable.
fn step_agrees(
    alloc: Global,
    running: &mut RunningClause,
    list: &Clause,
    x: u32,
    other: &Clause,
) -> Result<Option<Clause>, AllocError> {
    if !running.covers(other) || !running.has(x) {
        return Ok(None);
    }
    if list.set_of(x).is_none() || other.set_of(x).is_none() {
        return Ok(None);
    }
    running.resolve(other, x)?;
    Ok(Some(resolve(alloc, list, other, x)?))
}

/// Takes the step that words tell.
fn step(
    alloc: Global,
    running: &mut RunningClause,
    list: &Clause,
    words: &[&str],
) -> Result<Clause, Unread> {
    let [x, behind @ ..] = words else {
        return Err(Unread::Form);
    };
    let x = variable(x)?;
    let other = clause_of(alloc, behind)?;
    match step_agrees(alloc, running, list, x, &other)? {
        Some(next) => Ok(next),
        None => Err(Unread::Form),
    }
}

/// Loads the clause that words tell.
fn load(alloc: Global, running: &mut RunningClause, words: &[&str]) -> Result<Clause, Unread> {
    let clause = clause_of(alloc, words)?;
    if !running.covers(&clause) {
        return Err(Unread::Form);
    }
    running.load(&clause)?;
    Ok(clause)
}

/// The clause on the table, where it is that of the list and leaves the table empty.
fn taken(alloc: Global, running: &mut RunningClause, list: &Clause) -> Result<String, AllocError> {
    let taken = running.take(alloc)?;
    let left = running.take(alloc)?;
    if !taken.same(list) || !left.is_empty() {
        return String::from_str(alloc, "another one");
    }
    clause_text(alloc, &taken)
}

/// The clause of a chain, whose first clause and steps are separated by bars.
fn chain(alloc: Global, running: &mut RunningClause, text: &str) -> Result<String, Unread> {
    let mut parts = text.split('|');
    let first = parts.next().unwrap_or("");
    let mut list = load(alloc, running, &words_of(alloc, first.as_bytes())?)?;
    for part in parts {
        list = step(alloc, running, &list, &words_of(alloc, part.as_bytes())?)?;
    }
    Ok(taken(alloc, running, &list)?)
}

/// Which of the variables are on the table.
fn which(alloc: Global, running: &RunningClause, words: &[&str]) -> Result<String, AllocError> {
    let mut text = String::new(alloc);
    for word in words {
        let x = word.parse::<u32>().unwrap_or(u32::MAX);
        if running.has(x) {
            push_word(&mut text, word)?;
        }
    }
    if text.is_empty() {
        return String::from_str(alloc, "none");
    }
    Ok(text)
}

/// Which of the variables are on the table where the clause is, and where it is cleared.
fn loaded(
    alloc: Global,
    running: &mut RunningClause,
    clause: &[&str],
    variables: &[&str],
) -> Result<String, Unread> {
    let clause = clause_of(alloc, clause)?;
    if !running.covers(&clause) {
        return Ok(String::from_str(alloc, "not covered")?);
    }
    running.load(&clause)?;
    let before = which(alloc, running, variables)?;
    running.clear();
    let after = which(alloc, running, variables)?;
    Ok(format!(in alloc; "has {before} and then {after}")?)
}

/// The clause of the second owner, once the first is gone.
fn second_owner(
    alloc: Global,
    first: ClauseHandle,
    second: ClauseHandle,
) -> Result<String, AllocError> {
    let both = first.clause().same(second.clause());
    let Err(first) = first.into_clause() else {
        return String::from_str(alloc, "one owner");
    };
    drop(first);
    match second.into_clause() {
        Ok(clause) if both => clause_text(alloc, &clause),
        _ => String::from_str(alloc, "two owners"),
    }
}

/// The clause of two owners.
fn owners(alloc: Global, words: &[&str]) -> Result<String, Unread> {
    let clause = clause_of(alloc, words)?;
    let Ok(first) = ClauseHandle::of(alloc, clause) else {
        return Err(Unread::Memory);
    };
    let second = first.copy()?;
    Ok(second_owner(alloc, first, second)?)
}

/// What is asked.
fn told(
    alloc: Global,
    running: &mut RunningClause,
    ask: &str,
    text: &[u8],
) -> Result<String, Unread> {
    match ask {
        "chain" => chain(alloc, running, str::from_utf8(text).unwrap_or("")),
        "owners" => owners(alloc, &words_of(alloc, text)?),
        _ => {
            let (clause, variables) = two_lists(alloc, text)?;
            loaded(alloc, running, &clause, &variables)
        }
    }
}

impl Subject for Running {
    fn answer(&mut self, alloc: Global, case: &Case<'_>) -> Result<String, AllocError> {
        let told = told(alloc, &mut self.table, case.ask, &case.text);
        answer_of(alloc, told)
    }
}
